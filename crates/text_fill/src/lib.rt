// The lines of a saved text put into the tables' image one after the other: whether there is room for the next one of its sort, and the place
// that it fills.

#![tactic(auto)]

ghost use Rattle.std.specs.Prelude.{◌+◌, ◌<◌, ◌≡◌, true, cond, List, ◌∷◌, ltb, eqb, get_or};
ghost use Rattle.tables.specs.Names.{no_name};
ghost use Rattle.image.specs.Image.{is_image};
ghost use Rattle.saved.specs.declared.Row.{Row};
ghost use Rattle.saved.specs.Row.{name_in, row_ok};
ghost use Rattle.saved.specs.Load.{ticket_from, entry_from};
ghost use Rattle.text_fill.specs.Filling.{sort_of, most_of, Tallied, Filled};

use image::Image;
use image_places::PROGRAM;
use rights::Rights;
use saved::Row;
use tables::{Entry, Name, Ticket};

// Sorts of lines: each program's kind 0 lines, its tickets, and the entries.
pub const SORTS: usize = 65;

const TICKETS: usize = 32;

const ENTRIES: usize = 64;

// ---- counting

#[tactic(auto, unfolding(crate::specs::Filling::sort_of, saved::specs::Row::is_last_row, saved::specs::Row::is_entry_row))]
fn sort_of(r: Row) -> usize
    requires { row_ok r ≡ true }
    ensures { result ≡ sort_of r }
{
    let program = PROGRAM * usize::from(r.pad) + usize::from(r.program);
    match r.kind {
        0 => program,
        5 => ENTRIES,
        _ => TICKETS + program,
    }
}

// One kind 0 line for a program, eight tickets, 256 entries.
#[tactic(auto, unfolding(crate::specs::Filling::most_of, saved::specs::Row::is_last_row, saved::specs::Row::is_entry_row))]
fn most_of(r: Row) -> u16
    ensures { result ≡ most_of r }
{
    match r.kind {
        0 => 1,
        5 => 256,
        _ => 8,
    }
}

// Is there room for one more of its sort?
#[tactic(auto, using(crate::proofs::Sorts::sort_low))]
pub fn has_room(tally: &[u16; SORTS], r: Row) -> bool
    requires { row_ok r ≡ true }
    ensures { result ≡ ltb (get_or tally.now (sort_of r) 0) (most_of r) }
{
    tally[sort_of(r)] < most_of(r)
}

// ---- the records of a line

// The name that a line is about.
fn name_in(r: Row) -> Name
    ensures { result ≡ name_in r }
{
    Name {
        pad: r.pad,
        program: r.program,
        number: r.number,
    }
}

// A grant gets its own name as dock name, a recall none.
fn dock_in(r: Row) -> Name
    ensures { result ≡ cond (eqb r.kind 4) no_name (name_in r) }
{
    if r.kind == 4 {
        Name::none()
    } else {
        name_in(r)
    }
}

#[tactic(auto, unfolding(saved::specs::Load::ticket_from))]
fn ticket_in(r: Row) -> Ticket
    ensures { result ≡ ticket_from (λ n. n) r }
{
    Ticket {
        kind: image_read::kind_of(r.kind),
        number: r.number,
        own: r.own,
        other: r.other,
        first: r.first,
        count: r.count,
        rights: Rights::make(r.rights),
        dock: dock_in(r),
    }
}

#[tactic(auto, unfolding(saved::specs::Load::entry_from))]
fn entry_in(r: Row) -> Entry
    ensures { result ≡ entry_from r }
{
    Entry {
        live: true,
        name: name_in(r),
        parent: r.other,
        first: r.first,
        count: r.count,
        rights: Rights::make(r.rights),
    }
}

// ---- the next line

// The line fills the next place of its sort, and is counted.
#[tactic(auto, using(crate::proofs::Sorts::sort_low, crate::proofs::Sorts::most_high))]
pub fn put_row(image: &mut Image, tally: &mut [u16; SORTS], r: Row)
    requires { (is_image image.old ≡ true) × ((row_ok r ≡ true) × (get_or tally.old (sort_of r) 0 < most_of r)) }
    ensures tallied { (before : List Row) → Tallied before tally.old → Tallied (r ∷ before) tally.new }
    ensures filled { (before : List Row) → Tallied before tally.old → Filled before image.old → Filled (r ∷ before) image.new }
{
    let sort = sort_of(r);
    let count = usize::from(tally[sort]);
    tally[sort] += 1;
    match r.kind {
        0 => image_write::put_last(image, sort, r.number),
        5 => image_write::put_entry(image, count, entry_in(r)),
        _ => {
            let place = PROGRAM * (sort - TICKETS) + count;
            image_write::put_ticket(image, place, ticket_in(r));
        }
    }
}
