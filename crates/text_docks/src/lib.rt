// The dock names of loaded grants. A saved text has no column for them: each is found by the walk from the grant to the head of its chain.

#![tactic(auto)]

ghost use Rattle.std.specs.Prelude.{◌<◌, ◌≡◌, true, set};
ghost use Rattle.tables.specs.Lookup.{lookup};
ghost use Rattle.tables.specs.Chains.{parent_of, end_of, chain_head};
ghost use Rattle.image.specs.Image.{decode, is_image};
ghost use Rattle.image_places.specs.Places.{name_at};
ghost use Rattle.image_read.specs.Places.{tickets_in, lasts_in, entries_in};
ghost use Rattle.image_write.specs.Shows.{Shows};
ghost use Rattle.text_docks.specs.Docks.{with_dock, Docked};

use image::Image;
use image_places::PAD;
use tables::{Name, Ticket};

// The head of a chain: the walk along parents, until one has none, with the places left falling.
#[tactic(auto, using(crate::proofs::Walk::out_of_places, crate::proofs::Walk::ends_here, crate::proofs::Walk::goes_up))]
fn head_of(image: &Image, n: Name, left: usize) -> Name
    ensures { result ≡ end_of left (parent_of (lookup (decode image.now))) n }
{
    if left == 0 {
        return Name::none();
    }
    let up = image_find::ticket(image, n).parent(n);
    if up.number == 0 {
        n
    } else {
        head_of(image, up, left - 1)
    }
}

// The grant k at a place gets its dock name.
#[tactic(auto, using(image::proofs::RoundTrip::image_whole))]
fn put_dock(image: &mut Image, place: usize, k: Ticket)
    requires { (is_image image.old ≡ true) × (place < 256) }
    ensures { Shows image.new (set (tickets_in image.old) place (with_dock k (chain_head (decode image.old) (name_at place k)))) (lasts_in image.old) (entries_in image.old) }
{
    let n = image_places::name_at(place, k.number);
    let dock = head_of(image, n, PAD);
    image_write::put_ticket(image, place, Ticket { dock, ..k });
}

// Every grant gets its dock name. Dock names are in no walk, so that those already put don't matter to the later ones.
#[tactic(auto, using(image::proofs::RoundTrip::image_whole, crate::proofs::Docking::dock_put, crate::proofs::Docking::none_put))]
pub fn put_docks(image: &mut Image)
    requires { is_image image.old ≡ true }
    ensures { Docked image.old image.new }
{
    for place in 0..256 {
        let k = image_read::ticket_at(image, place);
        if k.kind.is_grant() {
            put_dock(image, place, k);
        }
    }
}
