// Entries noted at the places of their grants, and by these notes the numbers of a program's grants that have an entry: so entries come by name
// and are never sorted.

#![tactic(auto)]

ghost use Rattle.std.specs.Prelude.{◌<◌, ◌≡◌, replicate};
ghost use Rattle.image.specs.Image.{decode};
ghost use Rattle.image_read.specs.Places.{tickets_in};
ghost use Rattle.image_numbers.specs.Numbers.{number_if, numbers_in};
ghost use Rattle.saved_blocks.specs.Blocks.{has_entry};
ghost use Rattle.text_loans.specs.Walk.{Ordered, ticket_in};
ghost use Rattle.text_notes.specs.Notes.{Noted};

use image::Image;
use image_places::PROGRAM;
use std::array;

// No place: one above the highest.
const NO_PLACE: u16 = 256;

// Notes each entry's place at the place of the grant that has its name.
pub fn note_entries(image: &Image, notes: &mut [u16; 256])
    requires { Ordered image.now × (notes.old ≡ replicate 256 256) }
    ensures { Noted image.now notes.new }
{
    for i in 0..256 {
        if image_read::live_at(image, i) == 1 {
            let e = image_read::entry_at(image, i);
            let p = image_find::ticket_place(image, e.name);
            notes[p] = i as u16;
        }
    }
}

// The number of the grant at a place, if it has an entry, or 0.
fn noted_number(image: &Image, notes: &[u16; 256], place: usize) -> u16
    requires { Ordered image.now × (Noted image.now notes.now × (place < 256)) }
    ensures { result ≡ number_if (has_entry (decode image.now)) (ticket_in image.now place) }
{
    if notes[place] < NO_PLACE {
        image_read::ticket_at(image, place).number
    } else {
        0
    }
}

// The numbers of a program's grants that have an entry, each in its place.
pub fn entry_numbers(image: &Image, notes: &[u16; 256], program: usize) -> [u16; 8]
    requires { Ordered image.now × (Noted image.now notes.now × (program < 32)) }
    ensures { result ≡ numbers_in (has_entry (decode image.now)) (tickets_in image.now) program }
{
    array::from_fn(|i| noted_number(image, notes, PROGRAM * program + i))
}
