// The entries noted at the places of the grants that they name, and the entry of a name found by its note.

#![tactic(auto)]

ghost use Rattle.std.specs.Prelude.{◌≡◌, false, replicate, is_some, IfSome, MatchOption};
ghost use Rattle.image.specs.Image.{lives_ok};
ghost use Rattle.image_read.specs.Places.{tickets_in, entries_in};
ghost use Rattle.order_entry_notes.specs.Notes.{GrantAt, Noting, Listed, note_of, has_grant};

use image::Image;
use tables::{Entry, Name};

// How many entries are listed as under the store, and how many as under others?
#[derive(Clone, Copy)]
pub struct Entries {
    pub roots: usize,
    pub hung: usize,
}

// The place of the grant that an entry names, where it suits the entry.
#[tactic(auto, using(image_read::proofs::Places::tickets_long, crate::proofs::Noting::place_missing, crate::proofs::Noting::place_unfit, crate::proofs::Noting::place_fit))]
fn grant_place(image: &Image, numbers: &[u16; 256], e: Entry) -> Option<usize>
    ensures { MatchOption result (has_grant (tickets_in image.now) numbers.now e ≡ false) (GrantAt (tickets_in image.now) numbers.now e) }
{
    let p = image_places::place_of(numbers, e.name);
    if p < 256 && order_rules::grant_ok(e, image_read::ticket_at(image, p)) {
        Some(p)
    } else {
        None
    }
}

// Notes each entry's place at the place of the grant that it names, and lists the places of those under the store, of those under others, and
// beside the latter the places of their grants. A place is written behind each list's end, and only the list that it belongs to grows: no
// branch depends on which that is. None where an entry is neither live nor not, or names no grant that suits it, or two name one.
pub fn note_entries(
    image: &Image,
    numbers: &[u16; 256],
    notes: &mut [u16; 256],
    roots: &mut [u16; 256],
    hung: &mut [u16; 256],
    received: &mut [u16; 256],
) -> Option<Entries>
    requires { notes.old ≡ replicate 256 256 }
    ensures { Noting (lives_ok image.now) (tickets_in image.now) numbers.now (entries_in image.now) notes.new (is_some result) × IfSome result (λ n. Listed numbers.now (entries_in image.now) roots.new hung.new received.new n.roots n.hung) }
{
    let mut listed = Entries { roots: 0, hung: 0 };
    for i in 0..256 {
        if 1 < image_read::live_at(image, i) {
            return None;
        }
        let e = image_read::entry_at(image, i);
        if e.live {
            let p = grant_place(image, numbers, e)?;
            if notes[p] < 256 {
                return None;
            }
            let place = i as u16;
            notes[p] = place;
            roots[listed.roots] = place;
            hung[listed.hung] = place;
            received[listed.hung] = p as u16;
            listed.roots += usize::from(order_lists::is_root(e));
            listed.hung += usize::from(order_lists::is_hung(e));
        }
    }
    Some(listed)
}

// The place of the entry of a name, or 256.
#[tactic(auto, using(crate::proofs::NoteSteps::note_none, crate::proofs::NoteSteps::note_here))]
pub fn note_of(numbers: &[u16; 256], notes: &[u16; 256], n: Name) -> u16
    ensures { result ≡ note_of numbers.now notes.now n }
{
    let p = image_places::place_of(numbers, n);
    if p < 256 { notes[p] } else { 256 }
}
