// A ticket's line of the ward report, followed by its loans, each of which is again a ticket. Places that were printed are marked, and a
// marked one is passed over; so the walk ends.

#![tactic(auto)]

ghost use Rattle.std.specs.Prelude.{◌/◌, ◌≡◌};
ghost use Rattle.image.specs.Image.{decode};
ghost use Rattle.image_read.specs.Places.{tickets_in};
ghost use Rattle.image_numbers.specs.Numbers.{numbers_in};
ghost use Rattle.tables.specs.Chains.{is_recall_of};
ghost use Rattle.text.specs.Appending.{Appends, Countable};
ghost use Rattle.text_marks.specs.Marks.{marked_in};
ghost use Rattle.report.specs.Rows.{is_listed, row_of, loans_of};
ghost use Rattle.report.specs.Report.{row_line};
ghost use Rattle.report.specs.Marked.{visits, visit};
ghost use Rattle.text_loans.specs.Walk.{Ordered, ticket_in, name_in, Listed, Lending, listed_place, Fits, Printed};

use image::Image;
use image_places::{PAD, PROGRAM};
use text_marks::Marks;

// No place: one above the highest.
const NO_PLACE: usize = 256;

// One line goes into the rest of the output, from `at` on.
fn put_row(image: &Image, out: &mut [u8], at: usize, depth: u16, place: usize) -> usize
    requires { Ordered image.now × (Listed image.now place × Countable at (row_line (decode image.now) (row_of depth (name_in image.now place)))) }
    ensures { Appends (row_line (decode image.now) (row_of depth (name_in image.now place))) out.old out.new at result }
{
    let k = image_read::ticket_at(image, place);
    let pad = (place / PAD) as u16;
    let program = (place / PROGRAM % 8) as u16;
    let values = [
        depth,
        pad,
        program,
        k.number,
        k.first,
        k.count,
        k.rights.bits,
    ];
    text::append_values(out, at, &values)
}

// Is the target of the recall at a place listed? On the lender's pad it is, for it has the lender's dock name; on another where its name is
// in the dock.
fn is_listed(image: &Image, place: usize) -> bool
    requires { Ordered image.now × Lending image.now place }
    ensures { result ≡ is_listed (decode image.now) (ticket_in image.now place).other }
{
    let target = image_read::ticket_at(image, place).other;
    usize::from(target.pad) == place / PAD || image_find::entry_place(image, target) < NO_PLACE
}

// The place of the target of the recall at a place, if it is listed.
#[tactic(auto, unfolding(crate::specs::Walk::listed_place))]
fn loan_place(image: &Image, place: usize) -> Option<usize>
    requires { Ordered image.now × Lending image.now place }
    ensures { result ≡ listed_place (decode image.now) (ticket_in image.now place).other }
{
    if is_listed(image, place) {
        let k = image_read::ticket_at(image, place);
        Some(image_find::ticket_place(image, k.other))
    } else {
        None
    }
}

// The numbers of the recalls under the grant at a place, by the places of its program; 0 in the others.
fn loan_numbers(image: &Image, place: usize) -> [u16; 8]
    requires { Ordered image.now × Listed image.now place }
    ensures { result ≡ numbers_in (is_recall_of (name_in image.now place).number) (tickets_in image.now) (place / 8) }
{
    let k = image_read::ticket_at(image, place);
    image_numbers::recall_numbers(image, place / PROGRAM, k.number)
}

// A ticket's line, followed by its loans.
#[cycle(put_loans_put_ticket)]
pub fn put_ticket(
    image: &Image,
    marks: &mut Marks,
    out: &mut [u8],
    at: usize,
    depth: u16,
    place: usize,
) -> usize
    requires { Fits image.now marks.old at depth place }
    ensures { Printed (λ left. visit (decode image.now) left depth (marked_in marks.old) (name_in image.now place)) marks.old marks.new out.old out.new at result }
{
    if text_marks::is_marked(marks, place) {
        return at;
    }
    text_marks::mark(marks, place);
    let end = put_row(image, out, at, depth, place);
    put_loans(image, marks, out, end, depth + 1, place)
}

// The loans of the grant at a place, by the numbers of their recalls.
#[cycle(put_loans_put_ticket)]
fn put_loans(
    image: &Image,
    marks: &mut Marks,
    out: &mut [u8],
    at: usize,
    depth: u16,
    place: usize,
) -> usize
    requires { Fits image.now marks.old at depth place }
    ensures { Printed (λ left. visits (visit (decode image.now) left depth) (marked_in marks.old) (loans_of (decode image.now) (name_in image.now place))) marks.old marks.new out.old out.new at result }
{
    let numbers = loan_numbers(image, place);
    let from = PROGRAM * (place / PROGRAM);
    let mut total = at;
    for i in image_numbers::by_number(numbers) {
        if let Some(loan) = loan_place(image, from + i) {
            total = put_ticket(image, marks, out, total, depth, loan);
        }
    }
    total
}
