// Tests that numbers run out: 65,535 rounds of take and give back through the public step, then what is asked of and by the spent program.
// It writes how many rounds before the last were answered as they must be, and the answers from the last round on, by program.

#![tactic(auto)]

ghost use Rattle.std.specs.Prelude.{◌≡◌, ◌&&◌, eqb};

use image::IMAGE;
use machine::{Answer, Request};
use op_sheets::{SHEET, STORE};
use std::io;

// ---- requests

// A request of a program of pad 0, with its ticket, count and rights.
fn asked(program: u16, op: u16, ticket: u16, count: u16, rights: u16) -> Request {
    Request {
        pad: 0,
        program,
        op,
        ticket,
        topad: 0,
        toprogram: 0,
        first: 0,
        count,
        rights,
    }
}

fn take(program: u16) -> Request {
    asked(program, 1, 0, 1, 7)
}

fn pass(program: u16, ticket: u16, toprogram: u16) -> Request {
    let mut r = asked(program, 2, ticket, 1, 1);
    r.toprogram = toprogram;
    r
}

fn give_back(program: u16, ticket: u16) -> Request {
    asked(program, 4, ticket, 0, 0)
}

// ---- the rounds before the last

// Is it this answer?
fn is_answer(a: Answer, res: u16, ticket: u16, recipient: u16) -> bool
    ensures { result ≡ (eqb a.result res && eqb a.ticket ticket && eqb a.recipient recipient) }
{
    if a.result != res {
        return false;
    }
    if a.ticket != ticket {
        return false;
    }
    a.recipient == recipient
}

// At most one less than there are numbers.
const ROUNDS: u16 = 65534;

// Program 0 takes, which must give the next number, and gives back. Answers how many such rounds there were.
fn rounds(tables: &mut [u8; IMAGE], store: &mut [u8; STORE], sheet: &mut [u8; SHEET]) -> u16 {
    for next in 1..=ROUNDS {
        let taken = step::step(tables, store, sheet, take(0));
        if !is_answer(taken, 0, next, 0) {
            return next - 1;
        }
        let returned = step::step(tables, store, sheet, give_back(0, next));
        if !is_answer(returned, 0, 0, 0) {
            return next - 1;
        }
    }
    ROUNDS
}

// ---- what is written

// A name and a line of values.
fn show(rt: &impl Print, name: &[u8], values: &[u16]) -> io::Result<()> {
    let mut line = [0u8; 4096];
    let n = text::put_values(&mut line, values);
    rt.write_all(name)?;
    rt.write_all(&line[..n])
}

// ---- the last round and what follows

// Asks for one thing and writes the answer: result, ticket, recipient.
fn ask(
    rt: &impl Print,
    tables: &mut [u8; IMAGE],
    store: &mut [u8; STORE],
    sheet: &mut [u8; SHEET],
    name: &[u8],
    r: Request,
) -> io::Result<()> {
    let a = step::step(tables, store, sheet, r);
    let values = [a.result, a.ticket, a.recipient];
    show(rt, name, &values)
}

// Program 0 takes its last number and passes it: there is none left for the recall.
fn last_number(
    rt: &impl Print,
    tables: &mut [u8; IMAGE],
    store: &mut [u8; STORE],
    sheet: &mut [u8; SHEET],
) -> io::Result<()> {
    ask(rt, tables, store, sheet, b"0 takes: ", take(0))?;
    ask(
        rt,
        tables,
        store,
        sheet,
        b"0 passes to 1: ",
        pass(0, 65535, 1),
    )
}

// A number that was given back is not given again.
fn none_again(
    rt: &impl Print,
    tables: &mut [u8; IMAGE],
    store: &mut [u8; STORE],
    sheet: &mut [u8; SHEET],
) -> io::Result<()> {
    ask(
        rt,
        tables,
        store,
        sheet,
        b"0 gives back: ",
        give_back(0, 65535),
    )?;
    ask(rt, tables, store, sheet, b"0 takes: ", take(0))
}

// A pass to program 0 finds no number for it either; the other programs have all of theirs.
fn of_another(
    rt: &impl Print,
    tables: &mut [u8; IMAGE],
    store: &mut [u8; STORE],
    sheet: &mut [u8; SHEET],
) -> io::Result<()> {
    ask(rt, tables, store, sheet, b"1 takes: ", take(1))?;
    ask(rt, tables, store, sheet, b"1 passes to 0: ", pass(1, 1, 0))?;
    ask(rt, tables, store, sheet, b"1 passes to 2: ", pass(1, 1, 2))
}

// The emptied dock is zeros.
fn main(rt: HostRuntime) -> io::Result<()> {
    let mut tables = [0u8; IMAGE];
    let mut store = [0u8; STORE];
    let mut sheet = [0u8; SHEET];
    let count = [rounds(&mut tables, &mut store, &mut sheet)];
    show(&rt, b"rounds: ", &count)?;
    last_number(&rt, &mut tables, &mut store, &mut sheet)?;
    none_again(&rt, &mut tables, &mut store, &mut sheet)?;
    of_another(&rt, &mut tables, &mut store, &mut sheet)
}
