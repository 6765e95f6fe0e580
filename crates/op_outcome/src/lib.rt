// What the operations have in common: what they look up, how they answer and refuse, and how a program is given a ticket.

#![tactic(auto)]

ghost use Rattle.std.specs.Prelude.{◌+◌, ◌*◌, ◌≡◌, true};
ghost use Rattle.tables.specs.Change.{give};
ghost use Rattle.tables.proofs.NameLaws.{Possible};
ghost use Rattle.machine.specs.State.{answer_of, asked_name, asked};
ghost use Rattle.image.specs.Image.{decode, is_image};
ghost use Rattle.image_write.specs.Shows.{Holds};
ghost use Rattle.op_refusals.specs.Found.{SeatOf};
ghost use Rattle.op_outcome.specs.Refusing.{MayRefuse, Refuses};

use image::Image;
use machine::{Answer, Refusal, Request};
use op_refusals::Seat;
use tables::{Name, Ticket};

// What is decided of a request: the ticket that it asks for, on a refusal too; and what an accepted one needs, or the refusal.
#[derive(Clone, Copy)]
pub struct Decision<T> {
    pub ticket: Ticket,
    pub found: Result<T, Refusal>,
}

// Any numbers as an answer.
pub fn answer(res: u16, ticket: u16, recipient: u16) -> Answer
    ensures { result ≡ answer_of res ticket recipient }
{
    Answer {
        result: res,
        ..Answer::accepted(ticket, recipient)
    }
}

// An answer with no new number.
pub fn plain(res: u16) -> Answer
    ensures { result ≡ answer_of res 0 0 }
{
    answer(res, 0, 0)
}

// The name of the ticket that the request asks for: always one of the asker's own.
pub fn asked_name(r: Request) -> Name
    ensures { result ≡ asked_name r }
{
    Name {
        pad: r.pad,
        program: r.program,
        number: r.ticket,
    }
}

// The ticket that the request asks for.
pub fn asked(image: &Image, r: Request) -> Ticket
    ensures { asked (decode image.now) r ≡ result }
{
    image_find::ticket(image, asked_name(r))
}

// Programs are counted over all pads.
fn program_at(pad: u16, program: u16) -> usize
    ensures { result ≡ 8 * pad + program }
{
    8 * usize::from(pad) + usize::from(program)
}

pub fn seat(image: &Image, pad: u16, program: u16) -> Seat
    requires { Possible pad program }
    ensures { SeatOf (decode image.now) pad program result }
{
    let at = program_at(pad, program);
    Seat {
        full: 8 <= image_find::free_place(image, at),
        last: image_read::last_at(image, at),
    }
}

pub fn give(image: &mut Image, pad: u16, program: u16, k: Ticket)
    requires { (is_image image.old ≡ true) × Possible pad program }
    ensures { Holds image.new (give (decode image.old) pad program k) }
{
    op_insert::give(image, program_at(pad, program), k);
}

// A refusal of a request for the ticket k: 12 drops the head of its chain and all under it, any other leaves all as it is. `res` is a
// number and no `Refusal`, since it may be any.
#[tactic(auto, unfolding(crate::specs::Refusing::after_refusal))]
pub fn refuse(image: &mut Image, res: u16, k: Ticket) -> Answer
    requires { (is_image image.old ≡ true) × MayRefuse (decode image.old) res k }
    ensures { Refuses (decode image.old) res k result image.new }
{
    if res == 12 {
        op_drop_tickets::drop_head(image, k.dock);
    }
    plain(res)
}
