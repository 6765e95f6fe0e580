// T6: the recalls, each with its grant and its target, read from the image by place.
// One pass finds each recall's target and keeps its key, one tests each recall by itself, and the keys tell whether a target has two recalls
// and whether every child has one.

#![tactic(auto)]

ghost use Rattle.std.specs.Prelude.{◌+◌, ◌*◌, ◌≡◌, not, ◌&&◌, map, get_or};
ghost use Rattle.lists.specs.Tests.{between};
ghost use Rattle.tables.specs.declared.Tables.{Tables};
ghost use Rattle.tables.specs.Kinds.{is_child, is_recall};
ghost use Rattle.tables.specs.Names.{is_program, free};
ghost use Rattle.tables.specs.Order.{every_ticket, t6};
ghost use Rattle.image_read.specs.Places.{tickets_in, lasts_in, entries_in};
ghost use Rattle.order_lists.specs.Listing.{TicketsListed, ReceivedListed};
ghost use Rattle.order_recall_marks.specs.Keys.{target_key};
ghost use Rattle.order_recalls.specs.Recalls.{LaidOut, recall_holds};

use image::Image;
use tables::Name;

// A name whose number its program was given: between 1 and the last.
#[tactic(auto, unfolding(tables::specs::Names::is_program))]
fn was_given(image: &Image, n: Name) -> bool
    ensures { result ≡ (is_program n.pad n.program && between 1 (get_or (lasts_in image.now) (8 * n.pad + n.program) 0) n.number) }
{
    if 3 < n.pad || 7 < n.program {
        return false;
    }
    let last = image_read::last_at(image, 8 * usize::from(n.pad) + usize::from(n.program));
    order_rules::is_between(1, last, n.number)
}

// A name that a recall of another pad may have: it was given, and is no live child.
#[tactic(auto, using(image_read::proofs::Places::tickets_long))]
fn may_name(image: &Image, n: Name, key: usize) -> bool
    ensures { result ≡ (is_program n.pad n.program && between 1 (get_or (lasts_in image.now) (8 * n.pad + n.program) 0) n.number && not (is_child (get_or (tickets_in image.now) key free).kind)) }
{
    was_given(image, n) && (256 <= key || !image_read::ticket_at(image, key).kind.is_child())
}

// The place of the entry of a target, by its key; 256 where there is none.
fn note_of(notes: &[u16; 256], key: usize) -> usize
    ensures { result ≡ get_or notes.now key 256 }
{
    if key < 256 {
        usize::from(notes[key])
    } else {
        256
    }
}

// Each recall by itself: its parent is a grant with the pass on right, and its target a child of that grant, or a name on another pad whose
// entry, if there is one, lies within the grant.
fn each_holds(
    image: &Image,
    numbers: &[u16; 256],
    notes: &[u16; 256],
    recalls: &[u16],
    keys: &[usize; 256],
) -> bool
    requires { TicketsListed (λ k. is_recall k.kind) (tickets_in image.now) recalls.now × (keys.now ≡ map (target_key numbers.now) (tickets_in image.now)) }
    ensures { (t : Tables) → LaidOut t image.now numbers.now notes.now → result ≡ every_ticket is_recall (recall_holds t) t }
{
    for &at in recalls {
        let at = usize::from(at);
        let key = keys[at];
        let k = image_read::ticket_at(image, at);
        let own = image_places::name_at(at, k.own);
        let place = image_places::place_of(numbers, own);
        if 256 <= place {
            return false;
        }
        let grant = image_read::ticket_at(image, place);
        if !order_rules::recall_parent_ok(grant) {
            return false;
        }
        if k.other.pad == own.pad {
            if 256 < key {
                return false;
            }
            let child = image_read::ticket_at(image, key);
            if !order_rules::is_child_of(own, child) {
                return false;
            }
        } else {
            if !may_name(image, k.other, key) {
                return false;
            }
            let note = note_of(notes, key);
            if note < 256 {
                let e = image_read::entry_at(image, note);
                if !order_rules::far_entry_ok(grant, e) {
                    return false;
                }
            }
        }
    }
    true
}

// T6, in tables whose numbers are distinct (T1) and whose entries are noted at their grants' places. Children, and the grants that entries
// under others name, need a recall. Where there are none of these and no recall, there is nothing to test.
pub fn recalls_ok(
    image: &Image,
    numbers: &[u16; 256],
    notes: &[u16; 256],
    children: &[u16],
    recalls: &[u16],
    received: &[u16],
) -> bool
    requires { (TicketsListed (λ k. is_child k.kind) (tickets_in image.now) children.now × TicketsListed (λ k. is_recall k.kind) (tickets_in image.now) recalls.now) × ReceivedListed numbers.now (entries_in image.now) received.now }
    ensures { (t : Tables) → LaidOut t image.now numbers.now notes.now → result ≡ t6 t }
{
    if recalls.is_empty() && children.is_empty() && received.is_empty() {
        return true;
    }
    let mut keys = [256usize; 256];
    order_recall_marks::write_keys(image, numbers, recalls, &mut keys);
    if !each_holds(image, numbers, notes, recalls, &keys) {
        return false;
    }
    let mut marks = [0u8; 256];
    order_recall_marks::mark_places(&keys, recalls, &mut marks)
        && order_recall_marks::dead_once(&keys, recalls)
        && order_recall_marks::all_marked(children, &marks)
        && order_recall_marks::all_marked(received, &marks)
}
