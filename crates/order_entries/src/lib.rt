// T5 past the notes: the entries' parents, their chains, the sheets of those under the store, and the taken grants' entries.

#![tactic(auto)]

ghost use Rattle.std.specs.Prelude.{◌≡◌, true, List, length, replicate, is_some, IfSome};
ghost use Rattle.tables.specs.declared.{Ticket.Ticket, Tables.Tables};
ghost use Rattle.tables.specs.Kinds.{is_taken};
ghost use Rattle.tables.specs.Names.{no_entry};
ghost use Rattle.tables.specs.Order.{t2};
ghost use Rattle.image.specs.Image.{lives_ok};
ghost use Rattle.image_places.specs.Places.{Flattened, Numbered};
ghost use Rattle.image_read.specs.Places.{tickets_in, lasts_in, entries_in};
ghost use Rattle.order_lists.specs.Listing.{TicketsListed, EntriesListed, Values, AllBelow, is_hung};
ghost use Rattle.order_entry_notes.specs.Notes.{place_of};
ghost use Rattle.order_entries.specs.Parents.{Linking, hung_ok};
ghost use Rattle.order_entries.specs.Order.{taken_noted, EntryOrder};

use image::Image;

// Writes at each entry's place the place of its parent entry; `up` is lent with 256 at each place. The answer is no where a parent is missing
// or does not contain the entry.
fn link_entries(
    image: &Image,
    numbers: &[u16; 256],
    notes: &[u16; 256],
    hung: &[u16],
    up: &mut [u16; 256],
) -> bool
    requires { EntriesListed is_hung (entries_in image.now) hung.now × (up.old ≡ replicate 256 256) }
    ensures { Linking numbers.now notes.now (entries_in image.now) up.new result }
{
    for &at in hung {
        let at = usize::from(at);
        let e = image_read::entry_at(image, at);
        let q = order_entry_notes::note_of(numbers, notes, e.parent);
        if 256 <= q {
            return false;
        }
        let parent = image_read::entry_at(image, usize::from(q));
        if !order_rules::parent_entry_ok(e, parent) {
            return false;
        }
        up[at] = q;
    }
    true
}

// The parents of the entries that hang under others, and their chains. Where none does, there is nothing to link.
fn hung_ok(image: &Image, numbers: &[u16; 256], notes: &[u16; 256], hung: &[u16]) -> bool
    requires { EntriesListed is_hung (entries_in image.now) hung.now }
    ensures { result ≡ hung_ok numbers.now notes.now (entries_in image.now) }
{
    if hung.is_empty() {
        return true;
    }
    let mut up = [256u16; 256];
    link_entries(image, numbers, notes, hung, &mut up)
        && order_entry_chains::chains_end(&mut up, hung)
}

// Every taken grant has its entry.
#[tactic(auto, using(crate::proofs::TakenSteps::taken_broken, crate::proofs::TakenSteps::taken_all))]
fn taken_ok(taken: &[u16], notes: &[u16; 256]) -> bool
    requires { AllBelow 256 taken.now }
    ensures { (tickets : List Ticket) → length tickets ≡ 256 → TicketsListed (λ k. is_taken k.kind) tickets taken.now → result ≡ taken_noted notes.now tickets }
{
    for &at in taken {
        if 256 <= notes[usize::from(at)] {
            return false;
        }
    }
    true
}

// T5, and whether each entry is live or not. `notes` is lent with 256 at each place; where the answer is not None, it then has the place of
// its entry at each grant's place, and the places of the grants that entries under others name are listed: so many of them.
pub fn entries_ok(
    image: &Image,
    numbers: &[u16; 256],
    taken: &[u16],
    notes: &mut [u16; 256],
    received: &mut [u16; 256],
) -> Option<usize>
    requires { TicketsListed (λ k. is_taken k.kind) (tickets_in image.now) taken.now × (notes.old ≡ replicate 256 256) }
    ensures { ((t : Tables) → Flattened t (tickets_in image.now) (lasts_in image.now) → entries_in image.now ≡ t.entries → Numbered t numbers.now → t2 t ≡ true → EntryOrder (lives_ok image.now) t numbers.now notes.new (is_some result)) × IfSome result (λ n. Values no_entry is_hung (place_of numbers.now) 256 (entries_in image.now) 256 received.new n) }
{
    let mut roots = [0u16; 256];
    let mut hung = [0u16; 256];
    let listed = order_entry_notes::note_entries(
        image, numbers, notes, &mut roots, &mut hung, received,
    )?;
    if hung_ok(image, numbers, notes, &hung[..listed.hung])
        && order_roots::roots_apart(image, &roots[..listed.roots])
        && taken_ok(taken, notes)
    {
        Some(listed.hung)
    } else {
        None
    }
}
