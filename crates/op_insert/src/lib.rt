// A ticket given and an entry made, in the lowest free place, in the image.

#![tactic(auto)]

ghost use Rattle.std.specs.Prelude.{◌/◌, ◌%◌, ◌<◌, ◌≡◌, true};
ghost use Rattle.tables.specs.Change.{give, put_entry};
ghost use Rattle.image.specs.Image.{decode, is_image};
ghost use Rattle.image_write.specs.Shows.{Holds};

use image::Image;
use tables::{Entry, Ticket};

// The ticket goes to a program, counted over all pads, if that has a free place; its number is the last given.
#[tactic(auto, using(image::proofs::RoundTrip::image_whole, crate::proofs::Inserted::given_here))]
pub fn give(image: &mut Image, program: usize, k: Ticket)
    requires { (is_image image.old ≡ true) × (program < 32) }
    ensures { Holds image.new (give (decode image.old) (program / 8) (program % 8) k) }
{
    let place = image_find::free_place(image, program);
    image_write::put_last(image, program, k.number);
    if place < 8 {
        image_write::put_ticket(image, 8 * program + place, k);
    }
}

// The entry stands in the lowest free place, if there is one.
#[tactic(auto, using(image::proofs::RoundTrip::image_whole, crate::proofs::Inserted::made_here, crate::proofs::Inserted::made_nowhere))]
pub fn make(image: &mut Image, e: Entry)
    requires { is_image image.old ≡ true }
    ensures { Holds image.new (put_entry (decode image.old) e) }
{
    let place = image_find::spare_place(image);
    if place < 256 {
        image_write::put_entry(image, place, e);
    }
}
