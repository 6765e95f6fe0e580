// Loading: the tables of a saved text, read in one pass straight into the places of the lent image.

#![tactic(auto)]

ghost use Rattle.std.specs.Prelude.{◌+◌, ◌≤◌, ◌<◌, ◌≡◌, ltb, length, get_or, drop, replicate};
ghost use Rattle.lists.specs.Lists.{all};
ghost use Rattle.machine.specs.Refusal.{said};
ghost use Rattle.image.specs.Layout.{image_size};
ghost use Rattle.text.specs.Reading.{lines};
ghost use Rattle.saved.specs.Save.{programs};
ghost use Rattle.saved.specs.Load.{is_ended};
ghost use Rattle.lending.specs.Saved.{LoadsLent};
ghost use Rattle.text_load.specs.Reading.{ReadsLines, ReadsText};

use image::Image;
use machine::Refusal;
use text::LINE_END;
use text_fill::SORTS;

// Does every program have its kind 0 line?
fn all_programs(tally: &[u16; SORTS]) -> bool
    ensures { result ≡ all (λ i. ltb 0 (get_or tally.now i 0)) programs }
{
    tally[..32].iter().all(|n| *n != 0)
}

// The lines from `start` on fill the image, which is lent as zeros, until one has another form or order.
#[tactic(auto, using(crate::proofs::Lines::row_in_form, crate::proofs::Lines::key_low))]
fn read_lines(image: &mut Image, text: &[u8], start: usize) -> bool
    requires { (image.old ≡ replicate image_size 0) × (start ≤ length text.now + 1) }
    ensures { ReadsLines (lines (drop start text.now)) result image.new }
{
    let mut tally = [0u16; SORTS];
    let mut next: u32 = 0;
    let mut from = start;
    while from < text.len() {
        let end = from + text::find(&text[from..], LINE_END);
        let Some(r) = text_rows::read_row(&text[from..end]) else {
            return false;
        };
        let key = text_rows::key(r);
        if key < next {
            return false;
        }
        if !text_fill::has_room(&tally, r) {
            return false;
        }
        text_fill::put_row(image, &mut tally, r);
        next = key + 1;
        from = end + 1;
    }
    all_programs(&tally)
}

// Does the text end with byte 10?
#[tactic(auto, using(crate::proofs::WholeText::not_ended, crate::proofs::WholeText::ended_by))]
fn is_ended(text: &[u8]) -> bool
    ensures { result ≡ is_ended text.now }
{
    match text {
        [.., last] => *last == LINE_END,
        [] => false,
    }
}

// The whole text: the names, byte 10 at the end, the lines.
fn read_text(image: &mut Image, text: &[u8]) -> bool
    requires { image.old ≡ replicate image_size 0 }
    ensures { ReadsText text.now result image.new }
{
    let Ok(end) = text::first_line(
        text,
        b"kind pad program number own opad oprogram onumber first count rights",
    ) else {
        return false;
    };
    is_ended(text) && read_lines(image, text, end + 1)
}

// The tables of a text into lent tables: 13, and nothing changes; 18 or 14, and they are empty, which is zeros; or 0.
pub fn load_lent(tables: &mut [u8], text: &[u8]) -> Result<(), Refusal>
    ensures { LoadsLent tables.old text.now (said result) tables.new }
{
    let Some(image) = tables.as_mut_array() else {
        return Err(Refusal::Length);
    };
    op_sheets::clear(image);
    if !read_text(image, text) {
        op_sheets::clear(image);
        return Err(Refusal::BadText);
    }
    text_docks::put_docks(image);
    if !order::image_in_order(image) {
        op_sheets::clear(image);
        return Err(Refusal::NotInOrder);
    }
    Ok(())
}
