// The trace program: the requests of standard input in, their answers out to standard output.

#![tactic(auto)]

ghost use Rattle.std.specs.Prelude.{◌≤◌, ◌≡◌, length, take};
ghost use Rattle.trace_texts.specs.Trace.{trace};

use std::io::Read;
use std::process::ExitCode;
use text_trace::{LONGEST, ROOM};

// Reads until the buffer is full or the input ends; a read that fails ends it too. Answers how many bytes were read.
// No method of `Read` does this without a heap: `read_exact` doesn't say how many bytes there were.
fn read_full(input: &mut impl Read, buffer: &mut [u8]) -> usize
    ensures { result ≤ length buffer.new }
{
    let mut done = 0;
    while done < buffer.len() {
        let n = input.read(&mut buffer[done..]).unwrap_or(0);
        if n == 0 {
            break;
        }
        done += n;
    }
    done
}

// The trace in a buffer that every trace fits into: it is never refused.
#[tactic(auto, using(text_trace::proofs::WholeTrace::whole_in_buffer))]
fn whole_trace(input: &[u8], out: &mut [u8; ROOM]) -> usize
    ensures upper_bound { result ≤ length out.new }
    ensures out_after { take result out.new ≡ trace input.now }
{
    text_trace::trace(input, out)
}

// One byte past the longest input is enough to know that it is too long. A trace that could not be written whole is said to be so: no
// contract speaks of what the system writes.
fn main(rt: HostRuntime) -> ExitCode {
    let mut input = [0u8; LONGEST + 1];
    let mut out = text_trace::buffer();
    let read = read_full(&mut rt.stdin(), &mut input);
    let written = whole_trace(&input[..read], &mut out);
    if rt.write_all(&out[..written]).is_err() {
        let _ = rt.eprintln("trace: standard output can't be written");
        return ExitCode::FAILURE;
    }
    ExitCode::SUCCESS
}
