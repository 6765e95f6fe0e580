// The trace: a text of requests in, a text of answers out; from an emptied dock of its own, or over the one that a host lends. Every request
// leaves tables in order, so that no line pays for a test of that.

#![tactic(auto)]

ghost use Rattle.std.specs.Prelude.{◌<◌, ◌≡◌, ◌&&◌, cond, leb, eqb, length, get_or, drop};
ghost use Rattle.machine.specs.Refusal.{said, length_said};
ghost use Rattle.text.specs.Reading.{lines};
ghost use Rattle.text.specs.Writing.{Writes};
ghost use Rattle.text.specs.Appending.{Appends, Countable};
ghost use Rattle.trace_texts.specs.Line.{fill_ok, answer_line, other_line};
ghost use Rattle.trace_texts.specs.Trace as spec;
ghost use Rattle.lending.specs.Trace.{dock_of, trace_buffers, TracesLent};
ghost use Rattle.text_trace.specs.Contract.{asked_in, Servable, LinesFrom, LeavesDock};

use image::{IMAGE, Image};
use machine::{Answer, Refusal, Request};
use op_form::REQUEST;
use op_sheets::{SHEET, STORE, Store};
use text::LINE_END;

// The longest input, in bytes.
pub const LONGEST: usize = 65536;

// Bytes that every trace has room in: the names, and at most fifteen for each byte of the input.
pub const ROOM: usize = 983074;

// ---- a line of the input

// The request's numbers and the fill.
const COLUMNS: usize = REQUEST + 1;

// What a line in form asks for.
#[derive(Clone, Copy)]
pub struct Asked {
    pub request: Request,
    pub fill: u8,
}

#[tactic(auto, unfolding(trace_texts::specs::Line::fill_ok))]
fn fill_ok(op: u16, fill: u16) -> bool
    ensures { result ≡ fill_ok op fill }
{
    if op == 6 { fill <= 255 } else { fill == 0 }
}

#[tactic(auto, using(crate::proofs::LineReading::fill_small), unfolding(crate::specs::Contract::asked_in, trace_texts::specs::Line::in_form))]
fn read_line(line: &[u8]) -> Option<Asked>
    ensures { result ≡ asked_in line.now }
{
    let mut v = [0u16; COLUMNS];
    if !text::read_values(line, &mut v) {
        return None;
    }
    let request = op_form::request_in(&v);
    let fill = v[REQUEST];
    if !fill_ok(request.op, fill) {
        return None;
    }
    Some(Asked {
        request,
        fill: fill as u8,
    })
}

// ---- a line of the output

// The first byte of an accepted read, or 0.
fn first_byte(op: u16, res: u16, sheet: &[u8]) -> u16
    requires { 0 < length sheet.now }
    ensures { result ≡ cond (eqb op 5 && eqb res 0) (get_or sheet.now 0 0) 0 }
{
    if op == 5 && res == 0 {
        u16::from(sheet[0])
    } else {
        0
    }
}

#[tactic(auto, unfolding(trace_texts::specs::Line::answer_line))]
fn append_answer(out: &mut [u8], at: usize, number: u16, a: Answer, byte: u16) -> usize
    requires { Countable at (answer_line number a byte) }
    ensures { Appends (answer_line number a byte) out.old out.new at result }
{
    let values = [number, a.result, a.ticket, a.recipient, byte];
    text::append_values(out, at, &values)
}

#[tactic(auto, unfolding(trace_texts::specs::Line::other_line))]
fn append_other(out: &mut [u8], at: usize, number: u16) -> usize
    requires { Countable at (other_line number) }
    ensures { Appends (other_line number) out.old out.new at result }
{
    append_answer(out, at, number, Answer::refused(Refusal::OtherForm), 0)
}

// ---- lines, over the image and the store that the caller lends

// One line's whole work: it is read, its request served, the answer appended.
fn serve_line(
    tables: &mut Image,
    store: &mut Store,
    line: &[u8],
    number: u16,
    out: &mut [u8],
    at: usize,
) -> usize
    requires { Servable tables.old store.old × Countable at (spec.answer_to number (dock_of tables.old store.old) line.now) }
    ensures appends { Appends (spec.answer_to number (dock_of tables.old store.old) line.now) out.old out.new at result }
    ensures leaves_dock { LeavesDock (spec.left_by_line (dock_of tables.old store.old) line.now) tables.new store.new }
{
    let Some(asked) = read_line(line) else {
        return append_other(out, at, number);
    };
    let mut sheet = [asked.fill; SHEET];
    let answer = op_serve::request(tables, store, &mut sheet, asked.request);
    let byte = first_byte(asked.request.op, answer.result, &sheet);
    append_answer(out, at, number, answer, byte)
}

// The lines from `start` on, one after the other.
pub fn serve_lines(
    tables: &mut Image,
    store: &mut Store,
    input: &[u8],
    start: usize,
    out: &mut [u8],
    at: usize,
) -> usize
    requires { Servable tables.old store.old × (LinesFrom start input.now × Countable at (spec.answers 1 (dock_of tables.old store.old) (lines (drop start input.now)))) }
    ensures appends { Appends (spec.answers 1 (dock_of tables.old store.old) (lines (drop start input.now))) out.old out.new at result }
    ensures leaves_dock { LeavesDock (spec.after_lines (dock_of tables.old store.old) (lines (drop start input.now))) tables.new store.new }
{
    let mut from = start;
    let mut number: u16 = 0;
    let mut total = at;
    while from < input.len() {
        let end = from + text::find(&input[from..], LINE_END);
        number += 1;
        total = serve_line(tables, store, &input[from..end], number, out, total);
        from = end + 1;
    }
    total
}

// ---- the whole

// The whole trace goes to the front of the output, if it has room there. Its length counts in any case.
fn put_trace(tables: &mut Image, store: &mut Store, input: &[u8], out: &mut [u8]) -> usize
    requires { Servable tables.old store.old }
    ensures appends { Appends (spec.trace_from (dock_of tables.old store.old) input.now) out.old out.new 0 result }
    ensures leaves_dock { LeavesDock (spec.after_trace (dock_of tables.old store.old) input.now) tables.new store.new }
{
    let at = text::append(out, 0, b"line result ticket recipient byte\n");
    if LONGEST < input.len() {
        return append_other(out, at, 0);
    }
    let Ok(end) = text::first_line(
        input,
        b"pad program op ticket topad toprogram first count rights fill",
    ) else {
        return append_other(out, at, 0);
    };
    serve_lines(tables, store, input, end + 1, out, at)
}

// Does the trace fit into so many bytes? Where that is not known beforehand it is run once on a copy of the dock, to no output, for its
// length.
#[tactic(auto, using(image::proofs::RoundTrip::image_whole, trace_texts::proofs::AnswersLaws::trace_short_from))]
fn fits(tables: &Image, store: &Store, input: &[u8], room: usize) -> bool
    requires { Servable tables.now store.now }
    ensures { result ≡ leb (length (spec.trace_from (dock_of tables.now store.now) input.now)) room }
{
    if ROOM <= room {
        return true;
    }
    let mut image = *tables;
    let mut sheets = *store;
    let mut nothing = [0u8; 1];
    let total = put_trace(&mut image, &mut sheets, input, &mut nothing[..0]);
    total <= room
}

// The trace of the input goes to the front of the output, and its length comes back. An output too short for the whole is refused: it
// stays as it is, and the length is 0. Zeros are the emptied dock.
pub fn trace(input: &[u8], out: &mut [u8]) -> usize
    ensures { Writes (spec.trace input.now) out.old out.new result }
{
    let mut tables = [0u8; IMAGE];
    let mut store = [0u8; STORE];
    if !fits(&tables, &store, input, out.len()) {
        return 0;
    }
    put_trace(&mut tables, &mut store, input, out)
}

// The trace over a lent dock and its length, or 13, 14, or 17 where the output is too short for the whole. A refusal changes nothing.
pub fn trace_lent(
    tables: &mut [u8],
    store: &mut [u8],
    input: &[u8],
    output: &mut [u8],
) -> Result<usize, Refusal>
    ensures { TracesLent (trace_buffers tables.old store.old input.now output.old) (said result) tables.new store.new output.new (length_said result) }
{
    let Some(image) = tables.as_mut_array() else {
        return Err(Refusal::Length);
    };
    let Some(sheets) = store.as_mut_array() else {
        return Err(Refusal::Length);
    };
    if !order::image_in_order(image) {
        return Err(Refusal::NotInOrder);
    }
    if !fits(image, sheets, input, output.len()) {
        return Err(Refusal::TooShort);
    }
    Ok(put_trace(image, sheets, input, output))
}

// An output that every trace fits into.
pub fn buffer() -> [u8; ROOM]
    ensures { length result ≡ spec.trace_room }
{
    [0; ROOM]
}
