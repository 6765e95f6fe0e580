// A batch of requests over lent buffers. The image is tested for order once; the requests are then served one after the other, on the
// image where it lies. `serve` asks nothing of its caller.

#![tactic(auto)]

ghost use Rattle.std.specs.Prelude.{◌≡◌, ◌&&◌, true, length};
ghost use Rattle.tables.specs.Order.{in_order};
ghost use Rattle.machine.specs.Numbers.{answer_width, answer_numbers};
ghost use Rattle.machine.specs.Refusal.{said};
ghost use Rattle.image.specs.Image.{decode, is_image};
ghost use Rattle.lending.specs.Numbers.{count_of};
ghost use Rattle.lending.specs.Sequence.{start_with, Whole, AllServed};
ghost use Rattle.lending.specs.Batch.{lengths_fit, buffers_of, Leaves};

use image::IMAGE;
use machine::{Answer, Refusal};
use op_form::{ANSWER, REQUEST};
use op_sheets::{SHEET, STORE};

#[tactic(auto, unfolding(machine::specs::Numbers::answer_numbers))]
pub fn put_answer(numbers: &mut [u16], a: Answer)
    requires { length numbers.old ≡ answer_width }
    ensures { numbers.new ≡ answer_numbers a }
{
    numbers.copy_from_slice(&[a.result, a.ticket, a.recipient]);
}

// The requests one after the other. Every request leaves tables in order, so that they are not tested again.
fn serve_all(
    tables: &mut [u8],
    store: &mut [u8],
    sheets: &mut [u8],
    requests: &[u16],
    answers: &mut [u16],
)
    requires { (is_image tables.old ≡ true) × (Whole (count_of requests.now) store.old sheets.old requests.now answers.old × (in_order (decode tables.old) ≡ true)) }
    ensures { AllServed (start_with (decode tables.old) store.old sheets.old requests.now) (count_of requests.now) tables.new store.new sheets.new answers.new }
{
    for i in 0..requests.len() / REQUEST {
        let r = op_form::request_in(&requests[REQUEST * i..]);
        let at = SHEET * i;
        let a = op_serve::request(tables, store, &mut sheets[at..at + SHEET], r);
        let into = ANSWER * i;
        put_answer(&mut answers[into..into + ANSWER], a);
    }
}

// Do the lengths go with one number of requests?
#[tactic(auto, using(std::proofs::lemmas::Bool::Decides::nat_tests), unfolding(lending::specs::Batch::lengths_fit))]
fn lengths_ok(tables: usize, store: usize, sheets: usize, requests: usize, answers: usize) -> bool
    ensures { result ≡ lengths_fit tables store sheets requests answers }
{
    let n = requests / REQUEST;
    tables == IMAGE
        && store == STORE
        && sheets % SHEET == 0
        && sheets / SHEET == n
        && requests % REQUEST == 0
        && answers % ANSWER == 0
        && answers / ANSWER == n
}

// Are they an image, and its tables in order?
#[tactic(auto, unfolding(image::specs::Image::is_image))]
fn in_order(tables: &[u8]) -> bool
    ensures { result ≡ (is_image tables.now && in_order (decode tables.now)) }
{
    match tables.as_array() {
        Some(image) => order::image_in_order(image),
        None => false,
    }
}

// 13, 14, or the requests one after the other. A batch that is refused changes nothing.
pub fn serve(
    tables: &mut [u8],
    store: &mut [u8],
    sheets: &mut [u8],
    requests: &[u16],
    answers: &mut [u16],
) -> Result<(), Refusal>
    ensures { Leaves (buffers_of tables.old store.old sheets.old requests.now answers.old) (said result) tables.new store.new sheets.new answers.new }
{
    if !lengths_ok(
        tables.len(),
        store.len(),
        sheets.len(),
        requests.len(),
        answers.len(),
    ) {
        return Err(Refusal::Length);
    }
    if !in_order(tables) {
        return Err(Refusal::NotInOrder);
    }
    serve_all(tables, store, sheets, requests, answers);
    Ok(())
}
