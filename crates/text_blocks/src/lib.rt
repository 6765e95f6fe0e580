// The lines of saved tables in their order, block by block: the lines of one kind of one program, by number.

#![tactic(auto)]

ghost use Rattle.std.specs.Prelude.{◌≤◌, ◌<◌, ◌≡◌, true, cond};
ghost use Rattle.lists.specs.Parts.{joined};
ghost use Rattle.tables.specs.Names.{no_name, is_none};
ghost use Rattle.image.specs.Image.{decode};
ghost use Rattle.text.specs.Appending.{Appends, Countable};
ghost use Rattle.saved.specs.Save.{last_row, ticket_row, entry_row};
ghost use Rattle.saved_blocks.specs.Blocks.{has_entry, ticket_lines, entry_lines, blocks, block, line_of, lines_of};
ghost use Rattle.text_loans.specs.Walk.{Ordered, ticket_in};
ghost use Rattle.text_notes.specs.Notes.{Noted};
ghost use Rattle.text_blocks.specs.Rows.{number_row, grant_row, ticket_row_at, entry_row_at};

use image::Image;
use image_places::{PAD, PROGRAM};
use saved::Row;
use tables::{Entry, Kind, Name, Ticket};

// Lines come in so many blocks: six kinds of 32 programs.
const BLOCKS: usize = 192;

// ---- a line; what its kind does not use is 0

fn number_row(pad: u16, program: u16, number: u16) -> Row
    ensures { result ≡ number_row pad program number }
{
    Row {
        kind: 0,
        pad,
        program,
        number,
        own: 0,
        other: Name::none(),
        first: 0,
        count: 0,
        rights: 0,
    }
}

fn grant_row(kind: u16, pad: u16, program: u16, parent: Name, k: Ticket) -> Row
    ensures { result ≡ grant_row kind pad program parent k }
{
    Row {
        kind,
        other: parent,
        first: k.first,
        count: k.count,
        rights: k.rights.bits,
        ..number_row(pad, program, k.number)
    }
}

#[tactic(auto, unfolding(saved::specs::Save::ticket_row, tables::specs::Same::said_by))]
fn ticket_row(pad: u16, program: u16, k: Ticket) -> Row
    ensures { result ≡ ticket_row pad program k }
{
    match k.kind {
        Kind::Free => number_row(pad, program, 0),
        Kind::Taken => grant_row(1, pad, program, Name::none(), k),
        Kind::Received => grant_row(2, pad, program, Name::none(), k),
        Kind::Child => grant_row(3, pad, program, k.other, k),
        Kind::Recall => Row {
            kind: 4,
            own: k.own,
            other: k.other,
            ..number_row(pad, program, k.number)
        },
    }
}

// An entry's parent: zeros are the store.
fn parent_of(e: Entry) -> Name
    ensures { result ≡ cond (is_none e.parent) no_name e.parent }
{
    if e.parent.number == 0 {
        Name::none()
    } else {
        e.parent
    }
}

#[tactic(auto, unfolding(saved::specs::Save::entry_row, tables::specs::Same::said_entry))]
fn entry_row(e: Entry) -> Row
    ensures { result ≡ entry_row e }
{
    Row {
        kind: 5,
        other: parent_of(e),
        first: e.first,
        count: e.count,
        rights: e.rights.bits,
        ..number_row(e.name.pad, e.name.program, e.name.number)
    }
}

// ---- one line goes behind the `at` bytes of the output that stand

// A program's last number.
fn put_last(image: &Image, out: &mut [u8], at: usize, program: usize) -> usize
    requires { Ordered image.now × ((program < 32) × Countable at (line_of (last_row (decode image.now) program))) }
    ensures { Appends (line_of (last_row (decode image.now) program)) out.old out.new at result }
{
    let last = image_read::last_at(image, program);
    let row = number_row((program / 8) as u16, (program % 8) as u16, last);
    text_rows::append_row(out, at, row)
}

// The ticket at a place.
fn put_ticket(image: &Image, out: &mut [u8], at: usize, place: usize) -> usize
    requires { Ordered image.now × ((place < 256) × Countable at (line_of (ticket_row_at image.now place))) }
    ensures { Appends (line_of (ticket_row_at image.now place)) out.old out.new at result }
{
    let k = image_read::ticket_at(image, place);
    let row = ticket_row((place / PAD) as u16, (place / PROGRAM % 8) as u16, k);
    text_rows::append_row(out, at, row)
}

// The entry of the grant at a place.
fn put_entry(image: &Image, notes: &[u16; 256], out: &mut [u8], at: usize, place: usize) -> usize
    requires { Ordered image.now × (Noted image.now notes.now × ((place < 256) × ((has_entry (decode image.now) (ticket_in image.now place) ≡ true) × Countable at (line_of (entry_row_at image.now place))))) }
    ensures { Appends (line_of (entry_row_at image.now place)) out.old out.new at result }
{
    let e = image_read::entry_at(image, usize::from(notes[place]));
    text_rows::append_row(out, at, entry_row(e))
}

// ---- the lines of a program, counted over all pads, by number

// Its tickets of a kind.
fn put_tickets(image: &Image, out: &mut [u8], at: usize, kind: u16, program: usize) -> usize
    requires { Ordered image.now × (((program < 32) × ((1 ≤ kind) × (kind ≤ 4))) × Countable at (lines_of (ticket_lines (decode image.now) kind program))) }
    ensures { Appends (lines_of (ticket_lines (decode image.now) kind program)) out.old out.new at result }
{
    let numbers = image_numbers::kind_numbers(image, program, kind);
    let from = PROGRAM * program;
    let mut end = at;
    for i in image_numbers::by_number(numbers) {
        end = put_ticket(image, out, end, from + i);
    }
    end
}

// The entries of its grants.
fn put_entries(
    image: &Image,
    notes: &[u16; 256],
    out: &mut [u8],
    at: usize,
    program: usize,
) -> usize
    requires { Ordered image.now × ((Noted image.now notes.now × (program < 32)) × Countable at (lines_of (entry_lines (decode image.now) program))) }
    ensures { Appends (lines_of (entry_lines (decode image.now) program)) out.old out.new at result }
{
    let numbers = text_notes::entry_numbers(image, notes, program);
    let from = PROGRAM * program;
    let mut end = at;
    for i in image_numbers::by_number(numbers) {
        end = put_entry(image, notes, out, end, from + i);
    }
    end
}

// ---- all lines

// Block m has the lines of the kind m / 32 of the program m % 32.
fn put_block(image: &Image, notes: &[u16; 256], out: &mut [u8], at: usize, m: usize) -> usize
    requires { Ordered image.now × ((Noted image.now notes.now × (m < blocks)) × Countable at (lines_of (block (decode image.now) m))) }
    ensures { Appends (lines_of (block (decode image.now) m)) out.old out.new at result }
{
    if m < 32 {
        put_last(image, out, at, m)
    } else if m < 160 {
        put_tickets(image, out, at, (m / 32) as u16, m % 32)
    } else {
        put_entries(image, notes, out, at, m % 32)
    }
}

fn put_blocks(image: &Image, notes: &[u16; 256], out: &mut [u8], at: usize) -> usize
    requires { Ordered image.now × (Noted image.now notes.now × Countable at (lines_of (joined blocks (block (decode image.now))))) }
    ensures { Appends (lines_of (joined blocks (block (decode image.now)))) out.old out.new at result }
{
    let mut end = at;
    for m in 0..BLOCKS {
        end = put_block(image, notes, out, end, m);
    }
    end
}

// The lines of all blocks go behind the `at` bytes of the output that stand, if they have room there. Their length counts in any case.
pub fn put_rows(image: &Image, out: &mut [u8], at: usize) -> usize
    requires { Ordered image.now × Countable at (lines_of (joined blocks (block (decode image.now)))) }
    ensures { Appends (lines_of (joined blocks (block (decode image.now)))) out.old out.new at result }
{
    let mut notes = [256u16; 256];
    text_notes::note_entries(image, &mut notes);
    put_blocks(image, &notes, out, at)
}
