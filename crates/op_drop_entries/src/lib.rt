// Removal in the dock: an entry with all below it, in the image.

#![tactic(auto)]

ghost use Rattle.std.specs.Prelude.{◌≡◌, true};
ghost use Rattle.tables.specs.Chains.{at_or_below};
ghost use Rattle.tables.specs.Change.{drop_entries};
ghost use Rattle.image.specs.Image.{decode, is_image};
ghost use Rattle.image_write.specs.Shows.{Holds};
ghost use Rattle.op_drop_entries.specs.Links.{directly_below, LinkedEntries};

use image::Image;
use tables::{Entry, Name};

// Is it a live entry whose parent is the entry n? The number is asked first: it tells most entries apart.
#[tactic(auto, unfolding(crate::specs::Links::directly_below, tables::specs::Names::eq_name))]
fn is_below(e: Entry, n: Name) -> bool
    ensures { result ≡ directly_below n e }
{
    e.parent.number == n.number && e.parent.number != 0 && e.live && e.parent == n
}

// The entry x goes, and all below it. The queue holds the names of those that are gone; at each in turn those directly below it go too, so
// that removal costs what it removes.
#[tactic(auto, using(image::proofs::RoundTrip::image_whole))]
pub fn drop_below(image: &mut Image, x: Name)
    requires { (is_image image.old ≡ true) × LinkedEntries (decode image.old).entries }
    ensures { Holds image.new (drop_entries (at_or_below (decode image.old) x) (decode image.old)) }
{
    let at = image_find::entry_place(image, x);
    if 256 <= at {
        return;
    }
    let none = Entry::none();
    image_write::put_entry(image, at, none);
    let mut queue = [x; 256];
    let mut tail = 1;
    let mut head = 0;
    while head < tail {
        let n = queue[head];
        for i in 0..256 {
            let e = image_read::entry_at(image, i);
            if is_below(e, n) {
                image_write::put_entry(image, i, none);
                queue[tail] = e.name;
                tail += 1;
            }
        }
        head += 1;
    }
}
