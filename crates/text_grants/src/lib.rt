// The taken grants of the ward report, each with its loans behind it, and the sum of their sheets.

#![tactic(auto)]

ghost use Rattle.std.specs.Prelude.{◌+◌, ◌<◌, ◌≤◌, ◌≡◌};
ghost use Rattle.image.specs.Image.{decode};
ghost use Rattle.report.specs.Rows.{taken_grants};
ghost use Rattle.text_loans.specs.Walk.{Ordered, ticket_in};
ghost use Rattle.text_grants.specs.Grants.{taken_of, sheets_of, Ready, Puts};

use image::Image;
use image_places::PROGRAM;
use text_marks::Marks;

// How far the text has come, and the sheets of the depth 0 lines in it.
#[derive(Clone, Copy)]
pub struct Printing {
    pub end: usize,
    pub sheets: u16,
}

fn count_at(image: &Image, place: usize) -> u16
    requires { Ordered image.now × (place < 256) }
    ensures { result ≡ (ticket_in image.now place).count }
{
    image_read::ticket_at(image, place).count
}

// The taken grants of a program, counted over all pads, by number.
fn put_program(
    image: &Image,
    marks: &mut Marks,
    out: &mut [u8],
    before: Printing,
    program: usize,
) -> Printing
    requires { Ready image.now marks.old before.end × ((program < 32) × (before.sheets + sheets_of (decode image.now) (taken_of (decode image.now) program) ≤ 256)) }
    ensures { Puts (decode image.now) (taken_of (decode image.now) program) marks.old marks.new out.old out.new before result }
{
    let numbers = image_numbers::taken_numbers(image, program);
    let from = PROGRAM * program;
    let mut end = before.end;
    let mut sheets = before.sheets;
    for i in image_numbers::by_number(numbers) {
        let place = from + i;
        sheets += count_at(image, place);
        end = text_loans::put_ticket(image, marks, out, end, 0, place);
    }
    Printing { end, sheets }
}

// Those of all programs, by pad and program.
pub fn put_taken(image: &Image, marks: &mut Marks, out: &mut [u8], at: usize) -> Printing
    requires { Ready image.now marks.old at }
    ensures { Puts (decode image.now) (taken_grants (decode image.now)) marks.old marks.new out.old out.new (record { end = at; sheets = 0 }) result }
{
    let mut printing = Printing { end: at, sheets: 0 };
    for program in 0..32 {
        printing = put_program(image, marks, out, printing, program);
    }
    printing
}
