// The run of sheets that a take uses, and how many sheets no entry of the image has.

#![tactic(auto)]

ghost use Rattle.std.specs.Prelude.{◌≡◌, ◌≤◌};
ghost use Rattle.tables.specs.Sheets.{sheets_free};
ghost use Rattle.best_fit.specs.BestFit.{best_fit};
ghost use Rattle.image_read.specs.Places.{entries_in};
ghost use Rattle.op_run.specs.Ends.{NotesEnd, NotesEnds};
ghost use Rattle.op_run.specs.Better.{better_of};

use best_fit::Run;
use image::Image;
use tables::Entry;

// Where the entry ends is kept at the sheet where it begins, unless another that begins there ends further. It begins below the bound that is
// handed back.
#[tactic(auto, unfolding(crate::specs::Ends::note_end, crate::specs::Ends::begins_below))]
fn note_end(ends: &mut [u32; 256], e: Entry, bound: u32) -> u32
    ensures { NotesEnd e ends.old ends.new bound result }
{
    let first = usize::from(e.first);
    if !e.live || 256 <= first {
        return bound;
    }
    ends[first] = ends[first].max(u32::from(e.first) + u32::from(e.count));
    bound.max(u32::from(e.first) + 1)
}

// Of all entries; the bound below which they begin.
fn note_ends(ends: &mut [u32; 256], image: &Image) -> u32
    ensures { NotesEnds (entries_in image.now) ends.old ends.new result }
{
    let mut bound = 0;
    for i in 0..256 {
        bound = note_end(ends, image_read::entry_at(image, i), bound);
    }
    bound
}

// The run that is found, or the one from start up to end where that suits better: it is long enough, and smaller.
#[tactic(auto, unfolding(crate::specs::Better::better_of))]
fn better(found: Run, start: u32, end: u32, count: u32) -> Run
    ensures { result ≡ better_of found start end count }
{
    if start < end && count <= end - start && end - start < found.count {
        Run {
            first: start,
            count: end - start,
        }
    } else {
        found
    }
}

// The sheet from which on a take of `count` sheets lies, or 256. One pass over the entries, one over the sheets at which they begin: `start` is
// where the furthest of those that begin below s ends, and where the next one begins, the free run from there on ends.
pub fn best_fit(image: &Image, count: usize) -> usize
    requires { (1 ≤ count) × (count ≤ 256) }
    ensures { result ≡ best_fit (entries_in image.now) count }
{
    let mut ends = [0u32; 256];
    let bound = note_ends(&mut ends, image) as usize;
    let mut found = Run {
        first: 256,
        count: 257,
    };
    let mut start: u32 = 0;
    for (s, &end) in ends[..bound].iter().enumerate() {
        if end != 0 {
            found = better(found, start, s as u32, count as u32);
            start = start.max(end);
        }
    }
    let best = better(found, start, 256, count as u32);
    best.first as usize
}

// How many sheets lie outside all entries, counted sheet by sheet: one does where the furthest of the entries that begin there or below does
// not end behind it.
pub fn free_sheets(image: &Image) -> u16
    ensures { result ≡ sheets_free (entries_in image.now) }
{
    let mut ends = [0u32; 256];
    note_ends(&mut ends, image);
    let mut reach: u32 = 0;
    let mut free: u16 = 0;
    for (s, &end) in ends.iter().enumerate() {
        reach = reach.max(end);
        if reach as usize <= s {
            free += 1;
        }
    }
    free
}
