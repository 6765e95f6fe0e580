// The tables saved as text: the names, then the lines in their order. The text is measured first, where the output might be too short for it.

#![tactic(auto)]

ghost use Rattle.std.specs.Prelude.{◌≡◌, leb, length};
ghost use Rattle.image.specs.Image.{decode};
ghost use Rattle.machine.specs.Refusal.{said, length_said};
ghost use Rattle.text.specs.Appending.{Appends};
ghost use Rattle.saved.specs.Save.{saved};
ghost use Rattle.lending.specs.Saved.{save_buffers, SavesLent};
ghost use Rattle.text_loans.specs.Walk.{Ordered};

use image::Image;
use machine::Refusal;

// Bytes that every saved text has room in.
pub const ROOM: usize = 18309;

// The whole text goes to the front of the output, if it has room there. Its length counts in any case.
fn put_saved(image: &Image, out: &mut [u8]) -> usize
    requires { Ordered image.now }
    ensures { Appends (saved (decode image.now)) out.old out.new 0 result }
{
    let names = b"kind pad program number own opad oprogram onumber first count rights\n";
    let at = text::append(out, 0, names);
    text_blocks::put_rows(image, out, at)
}

// Does the text fit into so many bytes? Where that is not known beforehand it is run once to no output, for its length.
fn fits(image: &Image, room: usize) -> bool
    requires { Ordered image.now }
    ensures { result ≡ leb (length (saved (decode image.now))) room }
{
    ROOM <= room || put_saved(image, &mut []) <= room
}

// The text of lent tables, as long as the answer says, or the refusals 13, 14, 17 where the output is too short for the whole. A refusal
// leaves the output as it was.
pub fn save_lent(tables: &[u8], output: &mut [u8]) -> Result<usize, Refusal>
    ensures { SavesLent (save_buffers tables.now output.old) (said result) output.new (length_said result) }
{
    let Some(image) = tables.as_array() else {
        return Err(Refusal::Length);
    };
    if !order::image_in_order(image) {
        return Err(Refusal::NotInOrder);
    }
    if !fits(image, output.len()) {
        return Err(Refusal::TooShort);
    }
    Ok(put_saved(image, output))
}
