// A pad by places, read from the tables' image: the number in each place, the place of a number, and the place of each ticket's parent.

#![tactic(auto)]

ghost use Rattle.std.specs.Prelude.{◌<◌, ◌≡◌};
ghost use Rattle.image.specs.Image.{decode};
ghost use Rattle.image_pads.specs.Places.{numbers_of, place_in, up_of, ups_of};

use image::Image;
use image_places::{PAD, PROGRAM};
use tables::{Kind, Ticket};

// The number in each place of the pad, 0 where it is free.
pub fn write_numbers(image: &Image, pad: usize, to: &mut [u16; 64])
    requires { pad < 4 }
    ensures { to.new ≡ numbers_of (decode image.now) pad }
{
    for (i, to) in to.iter_mut().enumerate() {
        *to = image_places::number_of(image_read::ticket_at(image, PAD * pad + i));
    }
}

// The place of a program's number; 64 where there is none.
#[tactic(auto, unfolding(crate::specs::Places::place_in), using(crate::proofs::Places::row_index))]
pub fn place_in(numbers: &[u16; 64], program: usize, number: u16) -> usize
    ensures { result ≡ place_in numbers.now program number }
{
    if number == 0 || 8 <= program {
        return 64;
    }
    let from = PROGRAM * program;
    let i = image_places::index_of(&numbers[from..from + PROGRAM], number);
    if i < PROGRAM { from + i } else { 64 }
}

// The place of the parent of a program's ticket: a child names its parent's program, a recall stands in its own.
#[tactic(auto, unfolding(crate::specs::Places::up_of))]
fn up_of(k: Ticket, program: usize, numbers: &[u16; 64]) -> usize
    ensures { result ≡ up_of numbers.now program k }
{
    match k.kind {
        Kind::Free | Kind::Taken | Kind::Received => 64,
        Kind::Child => place_in(numbers, k.other.program as usize, k.other.number),
        Kind::Recall => place_in(numbers, program, k.own),
    }
}

// The place of the parent of each ticket of the pad, 64 where it has none.
#[tactic(auto, using(crate::proofs::Places::up_fits))]
pub fn write_ups(image: &Image, pad: usize, numbers: &[u16; 64], to: &mut [u16; 64])
    requires { pad < 4 }
    ensures { to.new ≡ ups_of (decode image.now) pad numbers.now }
{
    for (i, to) in to.iter_mut().enumerate() {
        let k = image_read::ticket_at(image, PAD * pad + i);
        *to = up_of(k, i / PROGRAM, numbers) as u16;
    }
}
