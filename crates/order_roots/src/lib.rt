// Entries directly under the store share no sheet.

#![tactic(auto)]

ghost use Rattle.std.specs.Prelude.{◌≡◌, ◌+◌, ◌≤◌, length};
ghost use Rattle.image_read.specs.Places.{entries_in};
ghost use Rattle.order_lists.specs.Listing.{EntriesListed, is_root};
ghost use Rattle.order_roots.specs.Marks.{Marked, Spanned, roots_in};

use image::Image;

// Marks the sheets of a run. The answer is no where one of them is marked already.
fn mark(marks: &mut [u8], first: usize, count: usize) -> bool
    requires { first + count ≤ length marks.old }
    ensures { Marked first count marks.old marks.new result }
{
    for s in first..first + count {
        if marks[s] != 0 {
            return false;
        }
        marks[s] = 1;
    }
    true
}

// Entries directly under the store share no sheet: their sheets are marked one after the other. T2 has no run past the store.
pub fn roots_apart(image: &Image, roots: &[u16]) -> bool
    requires { EntriesListed is_root (entries_in image.now) roots.now }
    ensures { Spanned (entries_in image.now) → result ≡ roots_in (entries_in image.now) }
{
    let mut marks = [0u8; 256];
    for &at in roots {
        let e = image_read::entry_at(image, usize::from(at));
        let first = usize::from(e.first);
        let count = usize::from(e.count);
        if 256 < first + count || !mark(&mut marks, first, count) {
            return false;
        }
    }
    true
}
