// The tables changed where they lie: a ticket, a last number and an entry written into the image at their places.

#![tactic(auto, using(image::proofs::RoundTrip::image_whole))]

ghost use Rattle.std.specs.Prelude.{◌<◌, ◌≡◌, true, set};
ghost use Rattle.image.specs.Image.{is_image};
ghost use Rattle.image_read.specs.Places.{tickets_in, lasts_in, entries_in};
ghost use Rattle.image_write.specs.Shows.{Shows};

use image::{ENTRIES, ENTRY, Image, PROGRAM, PROGRAM_LAST, TICKET};
use tables::{Entry, Ticket};

// Place: 8 * the program, counted over all pads, + the place in it.
#[tactic(auto, using(image::proofs::RoundTrip::image_whole))]
pub fn put_ticket(image: &mut Image, place: usize, k: Ticket)
    requires { (is_image image.old ≡ true) × (place < 256) }
    ensures { Shows image.new (set (tickets_in image.old) place k) (lasts_in image.old) (entries_in image.old) }
{
    let at = PROGRAM * (place / 8) + TICKET * (place % 8);
    image_records::put_ticket(&mut image[at..at + TICKET], k);
}

// The last number of a program, counted over all pads.
#[tactic(auto, using(image::proofs::RoundTrip::image_whole))]
pub fn put_last(image: &mut Image, program: usize, last: u16)
    requires { (is_image image.old ≡ true) × (program < 32) }
    ensures { Shows image.new (tickets_in image.old) (set (lasts_in image.old) program last) (entries_in image.old) }
{
    let at = PROGRAM * program + PROGRAM_LAST;
    image_records::put_numbers(&mut image[at..at + 2], &[last]);
}

#[tactic(auto, using(image::proofs::RoundTrip::image_whole))]
pub fn put_entry(image: &mut Image, place: usize, e: Entry)
    requires { (is_image image.old ≡ true) × (place < 256) }
    ensures { Shows image.new (tickets_in image.old) (lasts_in image.old) (set (entries_in image.old) place e) }
{
    let at = ENTRIES + ENTRY * place;
    image_records::put_entry(&mut image[at..at + ENTRY], e);
}
