// The tables read from their image by place: a ticket, a last number, a program, an entry.

#![tactic(auto)]

ghost use Rattle.std.specs.Prelude.{◌+◌, ◌*◌, ◌<◌, ◌≤◌, ◌≡◌, length, get_or, drop};
ghost use Rattle.image.specs.Layout.{ticket_size, program_size, entry_size};
ghost use Rattle.image.specs.Numbers.{number_at};
ghost use Rattle.tables.specs.Names.{free, no_entry};
ghost use Rattle.image.specs.Image.{kind_of, read_name, read_ticket, read_program, read_entry, ticket_start, entry_start};
ghost use Rattle.image_read.specs.Places.{tickets_in, lasts_in, entries_in};

use image::{
    ENTRIES, ENTRY, ENTRY_COUNT, ENTRY_FIRST, ENTRY_LIVE, ENTRY_NAME, ENTRY_PARENT, ENTRY_RIGHTS,
    Image, PROGRAM, PROGRAM_LAST, TICKET, TICKET_COUNT, TICKET_DOCK, TICKET_FIRST, TICKET_KIND,
    TICKET_NUMBER, TICKET_OTHER, TICKET_OWN, TICKET_RIGHTS,
};
use rights::Rights;
use tables::{Entry, Kind, Name, Program, Ticket};

fn number_at(bytes: &[u8], at: usize) -> u16
    requires { at + 2 ≤ length bytes.now }
    ensures { result ≡ number_at at bytes.now }
{
    u16::from_le_bytes([bytes[at], bytes[at + 1]])
}

fn name_at(bytes: &[u8], at: usize) -> Name
    requires { at + 6 ≤ length bytes.now }
    ensures { result ≡ read_name at bytes.now }
{
    Name {
        pad: number_at(bytes, at),
        program: number_at(bytes, at + 2),
        number: number_at(bytes, at + 4),
    }
}

// The kind that a number says. It is no `From` beside `Kind`: which number says which kind is the image's.
#[tactic(auto, unfolding(image::specs::Image::kind_of))]
pub fn kind_of(n: u16) -> Kind
    ensures { result ≡ kind_of n }
{
    match n {
        1 => Kind::Taken,
        2 => Kind::Received,
        3 => Kind::Child,
        4 => Kind::Recall,
        _ => Kind::Free,
    }
}

#[tactic(auto, unfolding(image::specs::Image::read_ticket))]
fn ticket_in(bytes: &[u8]) -> Ticket
    requires { ticket_size ≤ length bytes.now }
    ensures { result ≡ read_ticket bytes.now }
{
    Ticket {
        kind: kind_of(number_at(bytes, TICKET_KIND)),
        number: number_at(bytes, TICKET_NUMBER),
        own: number_at(bytes, TICKET_OWN),
        other: name_at(bytes, TICKET_OTHER),
        first: number_at(bytes, TICKET_FIRST),
        count: number_at(bytes, TICKET_COUNT),
        rights: Rights::make(number_at(bytes, TICKET_RIGHTS)),
        dock: name_at(bytes, TICKET_DOCK),
    }
}

#[tactic(auto, using(lists::proofs::Laid::laid_none, lists::proofs::Laid::one_more, lists::proofs::Front::rest_part))]
fn program_in(bytes: &[u8]) -> Program
    requires { program_size ≤ length bytes.now }
    ensures { result ≡ read_program bytes.now }
{
    // A loop, since `std::array::from_fn` does not promise what the closure still has of `bytes` at each call.
    let mut tickets = [Ticket::free(); 8];
    for (i, k) in tickets.iter_mut().enumerate() {
        *k = ticket_in(&bytes[TICKET * i..]);
    }
    Program {
        tickets,
        last: number_at(bytes, PROGRAM_LAST),
    }
}

#[tactic(auto, unfolding(image::specs::Image::read_entry))]
fn entry_in(bytes: &[u8]) -> Entry
    requires { entry_size ≤ length bytes.now }
    ensures { result ≡ read_entry bytes.now }
{
    Entry {
        live: number_at(bytes, ENTRY_LIVE) == 1,
        name: name_at(bytes, ENTRY_NAME),
        parent: name_at(bytes, ENTRY_PARENT),
        first: number_at(bytes, ENTRY_FIRST),
        count: number_at(bytes, ENTRY_COUNT),
        rights: Rights::make(number_at(bytes, ENTRY_RIGHTS)),
    }
}

// ---- by place

// The ticket at a place: 8 * the program, counted over all pads, + the place in it.
#[tactic(auto, using(crate::proofs::Places::ticket_here, crate::proofs::Places::rest_of_array))]
pub fn ticket_at(bytes: &Image, place: usize) -> Ticket
    requires { place < 256 }
    ensures { result ≡ get_or (tickets_in bytes.now) place free }
{
    ticket_in(&bytes[PROGRAM * (place / 8) + TICKET * (place % 8)..])
}

// The number that says the kind of the ticket at a place, before it is read as one.
pub fn kind_at(bytes: &Image, place: usize) -> u16
    requires { place < 256 }
    ensures { result ≡ number_at (ticket_start place) bytes.now }
{
    number_at(bytes, PROGRAM * (place / 8) + TICKET * (place % 8))
}

// The last number of a program, counted over all pads.
#[tactic(auto, using(crate::proofs::Places::last_here))]
pub fn last_at(bytes: &Image, program: usize) -> u16
    requires { program < 32 }
    ensures { result ≡ get_or (lasts_in bytes.now) program 0 }
{
    number_at(bytes, PROGRAM * program + PROGRAM_LAST)
}

// A program, counted over all pads.
pub fn program_at(bytes: &Image, program: usize) -> Program
    requires { program < 32 }
    ensures { result ≡ read_program (drop (program_size * program) bytes.now) }
{
    program_in(&bytes[PROGRAM * program..])
}

#[tactic(auto, using(crate::proofs::Places::entry_here, crate::proofs::Places::rest_of_array))]
pub fn entry_at(bytes: &Image, place: usize) -> Entry
    requires { place < 256 }
    ensures { result ≡ get_or (entries_in bytes.now) place no_entry }
{
    entry_in(&bytes[ENTRIES + ENTRY * place..])
}

// The number that says whether the entry at a place is live.
pub fn live_at(bytes: &Image, place: usize) -> u16
    requires { place < 256 }
    ensures { result ≡ number_at (entry_start place) bytes.now }
{
    number_at(bytes, ENTRIES + ENTRY * place)
}
