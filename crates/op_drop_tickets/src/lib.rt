// Removal on a pad, in the image: the head of a chain with all under it, and one ticket by itself; and what is under a ticket, marked.
// What goes is marked first, so that no test reads what was cleared.

#![tactic(auto)]

ghost use Rattle.std.specs.Prelude.{◌<◌, ◌≡◌, true};
ghost use Rattle.tables.specs.Kinds.{is_head};
ghost use Rattle.tables.specs.Names.{name_of, eq_name};
ghost use Rattle.tables.specs.Lookup.{lookup};
ghost use Rattle.tables.specs.Chains.{at_or_under};
ghost use Rattle.tables.specs.Change.{drop_tickets};
ghost use Rattle.image.specs.Image.{decode, is_image};
ghost use Rattle.image_write.specs.Shows.{Holds};
ghost use Rattle.op_drop_tickets.specs.Marks.{goes, under_on, marks_of};
ghost use Rattle.op_drop_tickets.specs.Docked.{docked_by, docked_with, docked_on, Heads};
ghost use Rattle.op_drop_tickets.specs.Linked.{Linked};

use image::Image;
use image_places::{PAD, PROGRAM};
use tables::{Name, Ticket};

// ---- what goes

// In place i stands `also`, or its chain comes to x.
#[tactic(auto, unfolding(crate::specs::Marks::goes), using(lists::proofs::Laid::one_more, crate::proofs::Steps::all_marked))]
fn mark_chains(up: &[u16; PAD], also: usize, x: usize, marks: &mut [bool; PAD])
    ensures { marks.new ≡ marks_of (goes up.now also x) }
{
    for (i, mark) in marks.iter_mut().enumerate() {
        *mark = i == also || image_places::leads_to(up, i, x, 64);
    }
}

// `also`, x and all under x: the chains of x's pad are walked from place to place.
pub fn mark_under(image: &Image, also: Name, x: Name, marks: &mut [bool; PAD])
    requires { x.pad < 4 }
    ensures { marks.new ≡ marks_of (under_on (decode image.now) also x) }
{
    let pad = x.pad as usize;
    let mut numbers = [0u16; PAD];
    let mut up = [0u16; PAD];
    image_pads::write_numbers(image, pad, &mut numbers);
    image_pads::write_ups(image, pad, &numbers, &mut up);
    let beside = image_pads::place_in(&numbers, also.program as usize, also.number);
    let top = image_pads::place_in(&numbers, x.program as usize, x.number);
    mark_chains(&up, beside, top, marks);
}

// Is it a grant with that dock name?
#[tactic(auto, unfolding(crate::specs::Docked::docked_by, tables::specs::Names::eq_name))]
fn docked_by(d: Name, k: Ticket) -> bool
    ensures { result ≡ docked_by d k }
{
    k.kind.is_grant() && k.dock == d
}

// Is the ticket of that program such a grant, or a recall that stands under one?
fn docked_with(image: &Image, d: Name, program: u16, k: Ticket) -> bool
    ensures { result ≡ docked_with (decode image.now) d (name_of d.pad program 0) k }
{
    let own = Name {
        pad: d.pad,
        program,
        number: k.own,
    };
    docked_by(d, k) || k.kind.is_recall() && docked_by(d, image_find::ticket(image, own))
}

// The head named d and all under it: what has its dock name.
#[tactic(auto, using(crate::proofs::Steps::all_marked))]
fn mark_docked(image: &Image, d: Name, marks: &mut [bool; PAD])
    requires { d.pad < 4 }
    ensures { marks.new ≡ marks_of (docked_on (decode image.now) d) }
{
    let from = PAD * d.pad as usize;
    for (i, mark) in marks.iter_mut().enumerate() {
        let k = image_read::ticket_at(image, from + i);
        *mark = docked_with(image, d, (i / PROGRAM) as u16, k);
    }
}

// ---- for callers

// The tables without the head of a chain and all under it: what is under it has its dock name, so nothing is walked.
#[tactic(auto, using(image::proofs::RoundTrip::image_whole, image_find::proofs::Laws::decoded_sized, crate::proofs::Removal::head_low))]
pub fn drop_head(image: &mut Image, h: Name)
    requires { (is_image image.old ≡ true) × (Linked (decode image.old) × (Heads (decode image.old) × (is_head (lookup (decode image.old) h).kind ≡ true))) }
    ensures { Holds image.new (drop_tickets (at_or_under (decode image.old) h) (decode image.old)) }
{
    let mut marks = [false; PAD];
    mark_docked(image, h, &mut marks);
    op_clear_tickets::clear_marked(image, h.pad as usize, &marks);
}

// The tables without the ticket of that name; what is under it stays.
#[tactic(auto, using(image::proofs::RoundTrip::image_whole))]
pub fn drop_one(image: &mut Image, n: Name)
    requires { (is_image image.old ≡ true) × ((n.pad < 4) × (n.program < 8)) }
    ensures { Holds image.new (drop_tickets (λ m. eq_name m n) (decode image.old)) }
{
    let from = PAD * n.pad as usize + PROGRAM * n.program as usize;
    for i in 0..PROGRAM {
        let place = from + i;
        if image_read::ticket_at(image, place).has_number(n.number) {
            image_write::put_ticket(image, place, Ticket::free());
        }
    }
}
