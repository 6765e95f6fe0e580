// Runs the stored cases of the trace: each argument NAME is a case, with its input in NAME.in and its whole trace in NAME.out. It writes
// a line for each, `ok: NAME` or `differs: NAME`.

#![tactic(auto)]

ghost use Rattle.std.specs.Prelude.{◌≤◌, ◌≡◌, length, IfOk, IfSome};
ghost use Rattle.text.specs.Bytes.{same_bytes};
ghost use Rattle.trace_texts.specs.Trace.{trace};

use std::io::{self, Read};
use std::rt::Files;
use std::{env, fs};
use text_trace::{LONGEST, ROOM};

// ---- a file

// Reads until the buffer is full or the file ends; a read that fails ends it too. Answers how many bytes were read.
// No method of `Read` does this without a heap: `read_exact` doesn't say how many bytes there were.
fn read_full(file: &mut impl Read, buffer: &mut [u8]) -> usize
    ensures { result ≤ length buffer.new }
{
    let mut done = 0;
    while done < buffer.len() {
        let n = file.read(&mut buffer[done..]).unwrap_or(0);
        if n == 0 {
            break;
        }
        done += n;
    }
    done
}

// Is everything read? One more read answers 0 at the file's end, and fails where the file can't be read.
fn ended(file: &mut impl Read) -> bool {
    let mut next = [0u8; 1];
    matches!(file.read(&mut next), Ok(0))
}

// Reads a whole file into the buffer and answers its length. A file that is longer, or is not read to its end, is not whole.
fn read_file(rt: &impl Files, path: &str, buffer: &mut [u8]) -> Option<usize>
    ensures { IfSome result (λ n. n ≤ length buffer.new) }
{
    let mut file = fs::open(rt, path).ok()?;
    let n = read_full(&mut file, buffer);
    if ended(&mut file) { Some(n) } else { None }
}

// Reads the case's file with this ending into the buffer.
fn read_part(
    rt: &(impl Files + Alloc),
    name: &str,
    ending: &str,
    buffer: &mut [u8],
) -> io::Result<Option<usize>>
    ensures { IfOk result (λ part. IfSome part (λ n. n ≤ length buffer.new)) }
{
    let path = format!(in rt.alloc(); "{name}{ending}")?;
    Ok(read_file(rt, &path, buffer))
}

// ---- a case

// Is the trace of the input what is expected, byte for byte? The buffer is for the trace.
#[tactic(auto, using(text_trace::proofs::WholeTrace::whole_in_buffer))]
fn traces_to(input: &[u8], expected: &[u8], out: &mut [u8; ROOM]) -> bool
    ensures { result ≡ same_bytes (trace input.now) expected.now }
{
    let size = text_trace::trace(input, out);
    text::same(&out[..size], expected)
}

// Does the case hold? The buffers are for its input, for the expected trace and for the trace.
fn agrees(
    rt: &(impl Files + Alloc),
    name: &str,
    input: &mut [u8],
    expected: &mut [u8],
    out: &mut [u8; ROOM],
) -> io::Result<bool> {
    let Some(n) = read_part(rt, name, ".in", input)? else {
        return Ok(false);
    };
    let Some(m) = read_part(rt, name, ".out", expected)? else {
        return Ok(false);
    };
    Ok(traces_to(&input[..n], &expected[..m], out))
}

// The trace refuses every input above 65,536 bytes in the same way, so no case needs one above 65,537.
fn holds(rt: &(impl Files + Alloc), name: &str) -> io::Result<bool> {
    if name.is_empty() {
        return Ok(false);
    }
    let mut input = [0u8; LONGEST + 1];
    let mut expected = text_trace::buffer();
    let mut out = text_trace::buffer();
    agrees(rt, name, &mut input, &mut expected, &mut out)
}

// ---- the program

// The trace stored for the case `must-differ` is wrong in one number: a test that looks at nothing says ok there.
fn say(rt: &impl Print, ok: bool, name: &str) -> io::Result<()> {
    if ok {
        println!(rt; "ok: {name}")
    } else {
        println!(rt; "differs: {name}")
    }
}

// Runs the case of this name.
fn run_case(rt: &(impl Files + Alloc + Print), name: &str) -> io::Result<()> {
    say(rt, holds(rt, name)?, name)
}

fn main(rt: HostRuntime) -> io::Result<()> {
    for name in env::args(&rt)?.skip(1) {
        run_case(&rt, &name)?;
    }
    Ok(())
}
