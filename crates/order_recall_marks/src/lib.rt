// "No target has two recalls; every child has one", and so has every entry below another: a test of the targets' keys, one for each place.
// A key below 256 is the place of a live target, a key above 256 names a target without a place, and 256 stands where there is no recall.

#![tactic(auto)]

ghost use Rattle.std.specs.Prelude.{◌≡◌, map, eqb, replicate};
ghost use Rattle.lists.specs.Lists.{all, no_two};
ghost use Rattle.tables.specs.Kinds.{is_recall};
ghost use Rattle.image_read.specs.Places.{tickets_in};
ghost use Rattle.order_lists.specs.Listing.{TicketsListed, AllBelow};
ghost use Rattle.order_recall_marks.specs.Keys.{key_of, target_key, is_dead, KeysListed, Marked, is_marked};

use image::Image;
use tables::{Name, Ticket};

// The key of a target: its place, or where it has none a number above 256 of its own.
#[tactic(auto, unfolding(crate::specs::Keys::key_of))]
fn key_of(place: usize, target: Name) -> usize
    ensures { result ≡ key_of place target }
{
    if place < 256 {
        place
    } else {
        let program = usize::from(target.pad) * 65536 + usize::from(target.program);
        257 + program * 65536 + usize::from(target.number)
    }
}

// The key of a recall's target; 256 for any other ticket.
#[tactic(auto, unfolding(crate::specs::Keys::target_key))]
fn target_key(numbers: &[u16; 256], k: Ticket) -> usize
    ensures { result ≡ target_key numbers.now k }
{
    if k.kind.is_recall() {
        key_of(image_places::place_of(numbers, k.other), k.other)
    } else {
        256
    }
}

// The keys of all places. `keys` is lent with 256 at each place, and only those of recalls are written.
pub fn write_keys(image: &Image, numbers: &[u16; 256], recalls: &[u16], keys: &mut [usize; 256])
    requires { (keys.old ≡ replicate 256 256) × TicketsListed (λ k. is_recall k.kind) (tickets_in image.now) recalls.now }
    ensures { keys.new ≡ map (target_key numbers.now) (tickets_in image.now) }
{
    for &at in recalls {
        let at = usize::from(at);
        keys[at] = target_key(numbers, image_read::ticket_at(image, at));
    }
}

// No place is the target of two recalls. The places of targets are marked on the way.
#[tactic(auto, using(crate::proofs::Seen::marks_not))]
pub fn mark_places(keys: &[usize; 256], recalls: &[u16], marks: &mut [u8; 256]) -> bool
    requires { (marks.old ≡ replicate 256 0) × KeysListed keys.now recalls.now }
    ensures { Marked keys.now marks.new result }
{
    for &at in recalls {
        let key = keys[usize::from(at)];
        if key < 256 {
            if marks[key] != 0 {
                return false;
            }
            marks[key] = 1;
        }
    }
    true
}

// No target without a place has two recalls. Such targets are few: each is looked for among those before it.
pub fn dead_once(keys: &[usize; 256], recalls: &[u16]) -> bool
    requires { KeysListed keys.now recalls.now }
    ensures { result ≡ no_two is_dead eqb keys.now }
{
    let mut dead = [0usize; 256];
    let mut count = 0;
    for &at in recalls {
        let key = keys[usize::from(at)];
        if 256 < key {
            if dead[..count].contains(&key) {
                return false;
            }
            dead[count] = key;
            count += 1;
        }
    }
    true
}

// Each of the places is marked.
#[tactic(auto, using(lists::proofs::Loops::all_broken))]
pub fn all_marked(places: &[u16], marks: &[u8; 256]) -> bool
    requires { AllBelow 256 places.now }
    ensures { result ≡ all (is_marked marks.now) places.now }
{
    for &at in places {
        if marks[usize::from(at)] != 1 {
            return false;
        }
    }
    true
}
