// The form of a request: read from its numbers, and the refusals before every operation that the request alone decides: 1, 2 and 3.

#![tactic(auto)]

ghost use Rattle.std.specs.Prelude.{◌≤◌, ◌≡◌, length};
ghost use Rattle.machine.specs.Numbers.{request_width, request_of};
ghost use Rattle.machine.specs.Refusal.{said};
ghost use Rattle.machine.specs.Operation.{field_ok, fields_ok};
ghost use Rattle.op_form.specs.Early.{fields_of, early_refusal};

use machine::{Refusal, Request};

// Numbers of a request and of an answer.
pub const REQUEST: usize = 9;

pub const ANSWER: usize = 3;

pub fn request_in(numbers: &[u16]) -> Request
    requires { request_width ≤ length numbers.now }
    ensures { result ≡ request_of numbers.now }
{
    Request {
        pad: numbers[0],
        program: numbers[1],
        op: numbers[2],
        ticket: numbers[3],
        topad: numbers[4],
        toprogram: numbers[5],
        first: numbers[6],
        count: numbers[7],
        rights: numbers[8],
    }
}

// Which fields an operation uses; the recipient is to-pad and to-program.
#[derive(Clone, Copy)]
pub struct Used {
    pub ticket: bool,
    pub recipient: bool,
    pub first: bool,
    pub count: bool,
    pub rights: bool,
}

const NONE: Used = Used {
    ticket: false,
    recipient: false,
    first: false,
    count: false,
    rights: false,
};

const ALL: Used = Used {
    ticket: true,
    recipient: true,
    first: true,
    count: true,
    rights: true,
};

// A used field must be in its range, an unused one 0.
#[tactic(auto, unfolding(machine::specs::Operation::field_ok, lists::specs::Tests::between))]
fn field_ok(used: bool, low: u16, high: u16, x: u16) -> bool
    ensures { result ≡ field_ok used low high x }
{
    if used { low <= x && x <= high } else { x == 0 }
}

#[tactic(auto, unfolding(machine::specs::Operation::fields_ok))]
fn fields_ok(used: Used, r: Request) -> bool
    ensures { result ≡ fields_ok (fields_of used) r }
{
    field_ok(used.ticket, 1, 65535, r.ticket)
        && field_ok(used.recipient, 0, 3, r.topad)
        && field_ok(used.recipient, 0, 7, r.toprogram)
        && field_ok(used.first, 0, 255, r.first)
        && field_ok(used.count, 1, 256, r.count)
        && field_ok(used.rights, 1, 7, r.rights)
}

// 1, 2 or 3 where one of them holds.
#[tactic(auto, using(crate::proofs::Links::form_links))]
pub fn refusal(r: Request) -> Result<(), Refusal>
    ensures { said result ≡ early_refusal r }
{
    if 3 < r.pad || 7 < r.program {
        return Err(Refusal::NoProgram);
    }
    let used = match r.op {
        1 => Used {
            count: true,
            rights: true,
            ..NONE
        },
        2 => ALL,
        3..=4 => Used {
            ticket: true,
            ..NONE
        },
        5..=6 => Used {
            ticket: true,
            first: true,
            ..NONE
        },
        _ => return Err(Refusal::NoOperation),
    };
    if fields_ok(used, r) {
        Ok(())
    } else {
        Err(Refusal::Field)
    }
}
