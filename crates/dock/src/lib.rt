// The routines that a host in C or Rust calls: include/dock.h declares them. Numbers pass as themselves, a slice as a pointer and then a
// length. None asks anything of its caller beyond what a slice means: memory of that length, and no overlap.

#![tactic(auto)]

ghost use Rattle.std.specs.Prelude.{◌≡◌};
ghost use Rattle.image.specs.Layout.{image_size};
ghost use Rattle.lending.specs.Batch.{buffers_of, Leaves};
ghost use Rattle.lending.specs.Report.{report_buffers, ReportsLent};
ghost use Rattle.lending.specs.Saved.{save_buffers, SavesLent, LoadsLent};
ghost use Rattle.lending.specs.Trace.{trace_buffers, TracesLent};
ghost use Rattle.lending.specs.Host.{EmptiesImage, Steps, order_of, check_image};
ghost use Rattle.machine.specs.Refusal.{said, length_said};
ghost use Rattle.dock.specs.Version.{version};

use image::IMAGE;
use machine::Refusal;
use op_form::{ANSWER, REQUEST};
use tables::Name;

// The boundary's version: major * 10000 + minor * 100 + patch.
pub const VERSION: u32 = 50000;

// A host compares its major number with that of the header that it was compiled with.
#[unsafe(no_mangle)]
pub extern "C" fn dock_version() -> u32
    ensures { result ≡ version }
{
    VERSION
}

// The length that the tables' image has.
#[unsafe(no_mangle)]
pub extern "C" fn dock_tables_length() -> usize
    ensures { result ≡ image_size }
{
    IMAGE
}

// Emptying: the image becomes that of empty tables, the store zeros.
#[unsafe(no_mangle)]
pub extern "C" fn dock_empty(tables: &mut [u8], store: &mut [u8]) -> u16
    ensures { EmptiesImage tables.old store.old result tables.new store.new }
{
    machine::number(step::empty(tables, store))
}

// One request. The answer's first number, its result, comes back too.
#[unsafe(no_mangle)]
pub extern "C" fn dock_step(
    tables: &mut [u8],
    store: &mut [u8],
    sheet: &mut [u8],
    request: &[u16],
    answer: &mut [u16],
) -> u16
    ensures { Steps (buffers_of tables.old store.old sheet.old request.now answer.old) result tables.new store.new sheet.new answer.new }
{
    if request.len() != REQUEST || answer.len() != ANSWER {
        return Refusal::Length.into();
    }
    if let Err(refusal) = step::refusal(tables, store.len(), sheet.len()) {
        return refusal.into();
    }
    let a = op_serve::request(tables, store, sheet, op_form::request_in(request));
    batch::put_answer(answer, a);
    a.result
}

// Requests one after the other, each as by dock_step.
#[unsafe(no_mangle)]
pub extern "C" fn dock_serve(
    tables: &mut [u8],
    store: &mut [u8],
    sheets: &mut [u8],
    requests: &[u16],
    answers: &mut [u16],
) -> u16
    ensures { Leaves (buffers_of tables.old store.old sheets.old requests.now answers.old) result tables.new store.new sheets.new answers.new }
{
    machine::number(batch::serve(tables, store, sheets, requests, answers))
}

// The dock's own check.
#[unsafe(no_mangle)]
pub extern "C" fn dock_check(
    tables: &[u8],
    pad: u16,
    program: u16,
    number: u16,
    sheet: u16,
    right: u16,
) -> u16
    ensures { result ≡ check_image tables.now pad program number sheet right }
{
    let n = Name {
        pad,
        program,
        number,
    };
    machine::number(step::check(tables, n, sheet, right))
}

// Are the tables in order? 0, 13 or 14.
#[unsafe(no_mangle)]
pub extern "C" fn dock_in_order(tables: &[u8]) -> u16
    ensures { result ≡ order_of tables.now }
{
    machine::number(step::in_order(tables))
}

// What an answer that carries a length says: 0, and the length goes to `length`; or the refusal's number, and 0 goes there.
fn put_length(length: &mut usize, done: Result<usize, Refusal>) -> u16
    ensures answer { result ≡ said done }
    ensures size { length.new ≡ length_said done }
{
    match done {
        Ok(n) => {
            *length = n;
            0
        }
        Err(refusal) => {
            *length = 0;
            refusal.into()
        }
    }
}

// The trace of a text of requests. Its length, 0 with a refusal, goes to `length`.
#[unsafe(no_mangle)]
pub extern "C" fn dock_trace(
    tables: &mut [u8],
    store: &mut [u8],
    input: &[u8],
    output: &mut [u8],
    length: &mut usize,
) -> u16
    ensures { TracesLent (trace_buffers tables.old store.old input.now output.old) result tables.new store.new output.new length.new }
{
    put_length(length, text_trace::trace_lent(tables, store, input, output))
}

// The ward report, by a scratch for marks, which is zeros after every answer. Its length, 0 with a refusal, goes to `length`.
#[unsafe(no_mangle)]
pub extern "C" fn dock_report(
    tables: &[u8],
    scratch: &mut [u8],
    output: &mut [u8],
    length: &mut usize,
) -> u16
    ensures { ReportsLent (report_buffers tables.now scratch.old output.old) result scratch.new output.new length.new }
{
    put_length(length, text_report::report_lent(tables, scratch, output))
}

// The tables as text. Its length, 0 with a refusal, goes to `length`.
#[unsafe(no_mangle)]
pub extern "C" fn dock_save(tables: &[u8], output: &mut [u8], length: &mut usize) -> u16
    ensures { SavesLent (save_buffers tables.now output.old) result output.new length.new }
{
    put_length(length, text_save::save_lent(tables, output))
}

// The tables of a text. The store is in no text, and is not lent.
#[unsafe(no_mangle)]
pub extern "C" fn dock_load(tables: &mut [u8], text: &[u8]) -> u16
    ensures { LoadsLent tables.old text.now result tables.new }
{
    machine::number(text_load::load_lent(tables, text))
}
