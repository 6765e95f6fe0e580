// A program's tickets by number: the numbers of those that are wanted, each in its place, and a walk over these places from the least number
// to the highest.

#![tactic(auto)]

ghost use Rattle.std.specs.Prelude.{◌≡◌, ◌-◌, ◌≤◌, ◌<◌, eqb, get_or, MatchOption};
ghost use Rattle.std.specs.Iterator.{at_most};
ghost use Rattle.tables.specs.Kinds.{is_taken};
ghost use Rattle.tables.specs.Names.{free};
ghost use Rattle.tables.specs.Chains.{is_recall_of};
ghost use Rattle.image.specs.Image.{kind_number};
ghost use Rattle.image_read.specs.Places.{tickets_in};
ghost use Rattle.image_numbers.specs.Numbers.{number_if, numbers_in, NoneAbove, NextAbove};
ghost use Rattle.image_numbers.specs.Steps.{NextPlace};

use image::Image;
use image_places::PROGRAM;
use std::array;
use tables::Ticket;

// ---- who is wanted: 0 stands for the others

#[tactic(auto, unfolding(crate::specs::Numbers::number_if))]
fn taken_number(k: Ticket) -> u16
    ensures { result ≡ number_if (λ k. is_taken k.kind) k }
{
    if k.kind.is_taken() { k.number } else { 0 }
}

#[tactic(auto, unfolding(crate::specs::Numbers::number_if, tables::specs::Chains::is_recall_of))]
fn recall_number(k: Ticket, own: u16) -> u16
    ensures { result ≡ number_if (is_recall_of own) k }
{
    if k.kind.is_recall() && k.own == own {
        k.number
    } else {
        0
    }
}

// Of the kinds that have a number from 1 to 4. The ticket is read only where its kind is the one.
fn kind_number(image: &Image, place: usize, kind: u16) -> u16
    requires { (place < 256) × ((1 ≤ kind) × (kind ≤ 4)) }
    ensures { result ≡ number_if (λ k. eqb (kind_number k.kind) kind) (get_or (tickets_in image.now) place free) }
{
    if image_read::kind_at(image, place) == kind {
        image_read::ticket_at(image, place).number
    } else {
        0
    }
}

// ---- in the eight places of a program, counted over all pads

// Its taken grants.
pub fn taken_numbers(image: &Image, program: usize) -> [u16; 8]
    requires { program < 32 }
    ensures { result ≡ numbers_in (λ k. is_taken k.kind) (tickets_in image.now) program }
{
    array::from_fn(|i| taken_number(image_read::ticket_at(image, PROGRAM * program + i)))
}

// Its recalls that stand under the grant of the number `own`.
pub fn recall_numbers(image: &Image, program: usize, own: u16) -> [u16; 8]
    requires { program < 32 }
    ensures { result ≡ numbers_in (is_recall_of own) (tickets_in image.now) program }
{
    array::from_fn(|i| recall_number(image_read::ticket_at(image, PROGRAM * program + i), own))
}

// Its tickets of a kind.
pub fn kind_numbers(image: &Image, program: usize, kind: u16) -> [u16; 8]
    requires { (program < 32) × ((1 ≤ kind) × (kind ≤ 4)) }
    ensures { result ≡ numbers_in (λ k. eqb (kind_number k.kind) kind) (tickets_in image.now) program }
{
    array::from_fn(|i| kind_number(image, PROGRAM * program + i, kind))
}

// ---- the walk

// The place of the least number above `after`. A number above it, with `rest` added, wraps round to so much over the one after it; another
// does not, and is no less than `rest`: so one comparison does. The search keeps a place also where there is none, the length: with an Option
// in the loop each of the eight turns leaves a branch behind.
#[tactic(auto, using(crate::proofs::Least::best_none, crate::proofs::Least::best_kept, crate::proofs::Least::best_new, crate::proofs::Least::best_some, crate::proofs::Least::best_end))]
pub fn next_above(numbers: &[u16], after: u16) -> Option<usize>
    ensures { MatchOption result (NoneAbove numbers.now after) (NextAbove numbers.now after) }
{
    let rest = 65535 - after;
    let mut next = numbers.len();
    let mut least = rest;
    for (i, n) in numbers.iter().enumerate() {
        let over = n.wrapping_add(rest);
        if over < least {
            least = over;
            next = i;
        }
    }
    if next < numbers.len() {
        Some(next)
    } else {
        None
    }
}

// The places of the numbers above `after`, from the least to the highest.
#[derive(Drop)]
pub struct Walk {
    numbers: [u16; 8],
    after: u16,
}

impl Iterator for Walk {
    type Item = usize;

    ghost next_gives = { NextPlace };

    ghost remaining = { λ s. at_most (65535 - s.after) };

    #[inline(always)]
    fn next(&mut self) -> Option<usize> {
        let i = next_above(&self.numbers, self.after)?;
        self.after = self.numbers[i];
        Some(i)
    }
}

// The places of the numbers that are not 0.
pub fn by_number(numbers: [u16; 8]) -> Walk
    ensures { result ≡ record { numbers = numbers; after = 0 } }
{
    Walk { numbers, after: 0 }
}
