// Places: the place of a ticket's name, and chains of parents walked from place to place.
// A ticket's place is 64 * pad + 8 * program + the place in the program; a name's is found through the named program's eight numbers. In a
// chain `up[i]` is the place of i's parent, and a number that is no place says that i has none: tickets of a pad and entries of the dock are
// walked alike.

#![tactic(auto)]

ghost use Rattle.std.specs.Prelude.{◌≡◌, ◌<◌, ◌/◌, ◌%◌, length, eqb};
ghost use Rattle.tables.specs.Names.{name_of};
ghost use Rattle.lists.specs.Lists.{first_index};
ghost use Rattle.image_places.specs.Places.{number_of, place_in};
ghost use Rattle.image_places.specs.Walk.{end_from, leads_to};

use tables::{Name, Ticket};

// Places of a pad, and of a program.
pub const PAD: usize = 64;

pub const PROGRAM: usize = 8;

// ---- names

// The name of the ticket of that number at a place.
pub fn name_at(place: usize, number: u16) -> Name
    requires { place < 256 }
    ensures { result ≡ name_of (place / 64) (place / 8 % 8) number }
{
    Name {
        pad: (place / PAD) as u16,
        program: (place / PROGRAM % 8) as u16,
        number,
    }
}

// A ticket's number, 0 in a free place.
#[tactic(auto, unfolding(crate::specs::Places::number_of))]
pub fn number_of(k: Ticket) -> u16
    ensures { result ≡ number_of k }
{
    if k.kind.is_live() { k.number } else { 0 }
}

// The first place of a number, or the length where it has none. The walk goes back from the end and never stops early: over a program's
// eight numbers it then has no branch to miss.
pub fn index_of(numbers: &[u16], number: u16) -> usize
    ensures { result ≡ first_index (λ x. eqb x number) numbers.now }
{
    let mut found = numbers.len();
    for i in (0..numbers.len()).rev() {
        if numbers[i] == number {
            found = i;
        }
    }
    found
}

// The place of the live ticket of a name, or 256.
#[tactic(auto, unfolding(crate::specs::Places::place_in, tables::specs::Names::is_program))]
pub fn place_of(numbers: &[u16; 256], n: Name) -> usize
    ensures { result ≡ place_in numbers.now n }
{
    if !n.is_of_program() || n.number == 0 {
        return 256;
    }
    let from = PAD * usize::from(n.pad) + PROGRAM * usize::from(n.program);
    let i = index_of(&numbers[from..from + PROGRAM], n.number);
    if i < PROGRAM { from + i } else { 256 }
}

// ---- chains

// The end of the chain from a place, which has no parent: the recursive walk from a child to the head of its chain, with the places
// left falling. No place where those do not suffice.
#[tactic(auto, using(crate::proofs::WalkSteps::end_step), unfolding(crate::specs::Walk::end_from))]
pub fn end_from(up: &[u16], at: usize, left: usize) -> usize
    requires { at < length up.now }
    ensures { result ≡ end_from left up.now at }
{
    if left == 0 {
        return up.len();
    }
    let next = usize::from(up[at]);
    if next < up.len() {
        end_from(up, next, left - 1)
    } else {
        at
    }
}

// Is the place x, or does its chain come to x?
#[tactic(auto, using(crate::proofs::WalkSteps::leads_step), unfolding(crate::specs::Walk::leads_to))]
pub fn leads_to(up: &[u16], at: usize, x: usize, left: usize) -> bool
    requires { at < length up.now }
    ensures { result ≡ leads_to left up.now x at }
{
    if left == 0 {
        return false;
    }
    if at == x {
        return true;
    }
    let next = usize::from(up[at]);
    next < up.len() && leads_to(up, next, x, left - 1)
}
