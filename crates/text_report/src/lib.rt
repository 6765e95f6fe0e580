// The ward report: the names, each taken grant with its loans behind it, the sheets taken and free. It is measured first, where the output
// might be too short for it.

#![tactic(auto)]

ghost use Rattle.std.specs.Prelude.{◌≡◌, leb, length, replicate};
ghost use Rattle.image.specs.Image.{decode};
ghost use Rattle.machine.specs.Refusal.{said, length_said};
ghost use Rattle.text.specs.Appending.{Appends};
ghost use Rattle.text_marks.specs.Marks.{mark_bytes};
ghost use Rattle.report.specs.Report.{report};
ghost use Rattle.lending.specs.Report.{report_buffers, ReportsLent};
ghost use Rattle.text_loans.specs.Walk.{Ordered};

use image::Image;
use machine::Refusal;
use text_marks::Marks;

// Bytes that every report has room in.
pub const ROOM: usize = 6196;

// The whole report goes to the front of the output, if it has room there. Its length counts in any case.
fn put_report(image: &Image, marks: &mut Marks, out: &mut [u8]) -> usize
    requires { Ordered image.now × (marks.old ≡ replicate mark_bytes 0) }
    ensures { Appends (report (decode image.now)) out.old out.new 0 result }
{
    let at = text::append(out, 0, b"depth pad program ticket first count rights\n");
    let taken = text_grants::put_taken(image, marks, out, at);
    let values = [taken.sheets, op_run::free_sheets(image)];
    text::append_values(out, taken.end, &values)
}

// The same, and the marks are zeros again.
fn put_and_clear(image: &Image, marks: &mut Marks, out: &mut [u8]) -> usize
    requires { Ordered image.now × (marks.old ≡ replicate mark_bytes 0) }
    ensures appends { Appends (report (decode image.now)) out.old out.new 0 result }
    ensures marks_after { marks.new ≡ replicate mark_bytes 0 }
{
    let total = put_report(image, marks, out);
    text_marks::clear(marks);
    total
}

// Does the report fit into so many bytes? Where that is not known beforehand it is run once to no output, for its length.
fn fits(image: &Image, marks: &mut Marks, room: usize) -> bool
    requires { Ordered image.now × (marks.old ≡ replicate mark_bytes 0) }
    ensures value { result ≡ leb (length (report (decode image.now))) room }
    ensures marks_after { marks.new ≡ replicate mark_bytes 0 }
{
    ROOM <= room || put_and_clear(image, marks, &mut []) <= room
}

// The report of lent tables, as long as the answer says, or the refusals 13, 14, 16 where the scratch has another length, 17 where the output
// is too short for the whole. A refusal leaves the output as it was. The scratch is zeros after every answer.
pub fn report_lent(tables: &[u8], scratch: &mut [u8], output: &mut [u8]) -> Result<usize, Refusal>
    ensures { ReportsLent (report_buffers tables.now scratch.old output.old) (said result) scratch.new output.new (length_said result) }
{
    text_marks::clear(scratch);
    let Some(image) = tables.as_array() else {
        return Err(Refusal::Length);
    };
    if !order::image_in_order(image) {
        return Err(Refusal::NotInOrder);
    }
    let Some(marks) = scratch.as_mut_array() else {
        return Err(Refusal::Scratch);
    };
    if !fits(image, marks, output.len()) {
        return Err(Refusal::TooShort);
    }
    Ok(put_and_clear(image, marks, output))
}
