// A ticket, its place and an entry found by name in the tables' image, a program found by its numbers, and a free place for a ticket or an entry.

#![tactic(auto)]

ghost use Rattle.std.specs.Prelude.{ℕ, IfNone, IfSome, ◌≤◌, ◌/◌, ◌%◌, ◌<◌, ◌≡◌, true, false};
ghost use Rattle.lists.specs.Lists.{first_index};
ghost use Rattle.tables.specs.Lookup.{is_named, program_at, tickets_of, lookup, place_of, entry_of};
ghost use Rattle.tables.specs.Change.{is_free, is_spare};
ghost use Rattle.image.specs.Image.{decode};
ghost use Rattle.image_read.specs.Places.{entries_in};

use image::Image;
use image_places::{PAD, PROGRAM};
use tables::{Entry, Name, Program, Ticket};

// The first of the places below `count` that passes, or `count` where none does.
fn first_place<F: Fn(usize) -> bool>(count: usize, passes: F) -> usize
    requires { (i : ℕ) → i < count → F.pre passes i }
    ensures most { result ≤ count }
    ensures before { (i : ℕ) → i < result → F.post passes i false }
    ensures there { result < count → F.post passes result true }
{
    for i in 0..count {
        if passes(i) {
            return i;
        }
    }
    count
}

// The live ticket of a name and its place. Both together: a look-up is in the inner step of every walk, and reads no ticket twice.
#[tactic(auto, using(crate::proofs::Steps::no_program_lem, tables::proofs::NameLaws::is_program_lem))]
fn found(image: &Image, n: Name) -> Option<(usize, Ticket)>
    ensures nowhere { IfNone result (place_of (decode image.now) n ≡ 256) }
    ensures there { IfSome result (λ s. (s.0 ≡ place_of (decode image.now) n) × (s.1 ≡ lookup (decode image.now) n)) }
{
    if !n.is_of_program() {
        return None;
    }
    let from = PAD * usize::from(n.pad) + PROGRAM * usize::from(n.program);
    for i in 0..PROGRAM {
        let k = image_read::ticket_at(image, from + i);
        if k.has_number(n.number) {
            return Some((from + i, k));
        }
    }
    None
}

// The live ticket of a name, or the free record.
#[tactic(auto, using(crate::proofs::Steps::ticket_nowhere))]
pub fn ticket(image: &Image, n: Name) -> Ticket
    ensures { result ≡ lookup (decode image.now) n }
{
    match found(image, n) {
        Some((_, k)) => k,
        None => Ticket::free(),
    }
}

// The place of the live ticket of a name, counted over all pads and programs, or 256.
pub fn ticket_place(image: &Image, n: Name) -> usize
    ensures { result ≡ place_of (decode image.now) n }
{
    match found(image, n) {
        Some((place, _)) => place,
        None => 256,
    }
}

// A program: its eight places for tickets and its last number.
#[tactic(auto, using(crate::proofs::Laws::program_there))]
pub fn program(image: &Image, pad: u16, program: u16) -> Program
    requires { (pad < 4) × (program < 8) }
    ensures { result ≡ program_at (decode image.now) pad program }
{
    image_read::program_at(image, PROGRAM * usize::from(pad) + usize::from(program))
}

// The place of the live entry of a name, or 256.
pub fn entry_place(image: &Image, n: Name) -> usize
    ensures { result ≡ first_index (is_named n) (entries_in image.now) }
{
    first_place(256, |i| image_read::entry_at(image, i).is_named(n))
}

// The live entry of a name, or the free record.
#[tactic(auto, using(crate::proofs::Steps::entry_there, crate::proofs::Steps::entry_nowhere))]
pub fn entry(image: &Image, n: Name) -> Entry
    ensures { result ≡ entry_of (decode image.now) n }
{
    let place = entry_place(image, n);
    if place < 256 {
        image_read::entry_at(image, place)
    } else {
        Entry::none()
    }
}

// The lowest free place among the eight of a program, counted over all pads, or 8.
pub fn free_place(image: &Image, program: usize) -> usize
    requires { program < 32 }
    ensures { result ≡ first_index is_free (tickets_of (decode image.now) (program / 8) (program % 8)) }
{
    let from = PROGRAM * program;
    first_place(
        PROGRAM,
        |i| !image_read::ticket_at(image, from + i).kind.is_live(),
    )
}

// The lowest free place for an entry, or 256.
pub fn spare_place(image: &Image) -> usize
    ensures { result ≡ first_index is_spare (entries_in image.now) }
{
    first_place(256, |i| !image_read::entry_at(image, i).live)
}
