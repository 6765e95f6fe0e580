// Marks of the 256 places of tickets, in lent bytes: a bit for each place, tested and set by a mask.

#![tactic(auto)]

ghost use Rattle.std.specs.Prelude.{◌%◌, ◌^◌, ◌<◌, ◌≡◌, length, replicate};
ghost use Rattle.text_marks.specs.Marks.{marked_in, with_mark};

// Bytes of the marks.
pub const MARKS: usize = 32;

pub type Marks = [u8; MARKS];

// The place's bit, in the byte that has it.
fn mask(place: usize) -> u8
    ensures { result ≡ 2 ^ (place % 8) }
{
    1u8 << (place % 8)
}

#[tactic(auto, using(crate::proofs::Masks::mask_tells), unfolding(crate::specs::Marks::marked_in))]
pub fn is_marked(marks: &Marks, place: usize) -> bool
    requires { place < 256 }
    ensures { result ≡ marked_in marks.now place }
{
    marks[place / 8] & mask(place) != 0
}

#[tactic(auto, using(crate::proofs::Masks::mark_set))]
pub fn mark(marks: &mut Marks, place: usize)
    requires { place < 256 }
    ensures { marked_in marks.new ≡ with_mark place (marked_in marks.old) }
{
    marks[place / 8] |= mask(place);
}

// Every byte becomes 0, whatever the length.
pub fn clear(marks: &mut [u8])
    ensures { marks.new ≡ replicate (length marks.old) 0 }
{
    marks.fill(0);
}
