// T1, T2 and T4: numbers, spans and dock names, place by place, in one pass over the tickets.
// On the way each kind is tested to be one of the five, the numbers are written down as an index of the tickets, and the places that the
// later tests go over are listed.

#![tactic(auto)]

ghost use Rattle.std.specs.Prelude.{◌<◌, ◌≡◌, ◌&&◌, replicate, is_some, IfSome};
ghost use Rattle.lists.specs.Tests.{between};
ghost use Rattle.tables.specs.declared.Tables.{Tables};
ghost use Rattle.tables.specs.Lookup.{Sized};
ghost use Rattle.tables.specs.Order.{t1, t2, t4};
ghost use Rattle.image.specs.Image.{kinds_ok};
ghost use Rattle.image_places.specs.Places.{Flattened};
ghost use Rattle.image_read.specs.Places.{tickets_in, lasts_in};
ghost use Rattle.order_programs.specs.Parts.{grant_ok, is_new, ticket_ok, Indexed};

use image::Image;
use tables::{Name, Ticket};

// How many taken grants, children and recalls are listed?
#[derive(Clone, Copy)]
pub struct Tickets {
    pub taken: usize,
    pub children: usize,
    pub recalls: usize,
}

// One by one, up to the first that is the same: the numbers were written a moment ago, and a wide load of them would wait for that.
#[tactic(auto, using(crate::proofs::Numbers::found_old, crate::proofs::Numbers::none_old))]
fn is_new(numbers: &[u16], number: u16) -> bool
    ensures { result ≡ is_new number numbers.now }
{
    for &x in numbers {
        if x == number {
            return false;
        }
    }
    true
}

// T1: a live number from 1 to the last one given, and none of those.
fn number_ok(numbers: &[u16], last: u16, number: u16) -> bool
    ensures { result ≡ (between 1 last number && is_new number numbers.now) }
{
    order_rules::is_between(1, last, number) && is_new(numbers, number)
}

// T2 and T4, of one ticket.
#[tactic(auto, unfolding(crate::specs::Parts::grant_ok, lists::specs::Tests::implies, tables::specs::Names::eq_name))]
fn grant_ok(n: Name, k: Ticket) -> bool
    ensures { result ≡ grant_ok n k }
{
    !k.kind.is_grant() || order_rules::span_ok(k) && (!k.kind.is_head() || k.dock == n)
}

// T1, T2 and T4, of the ticket at a place: its number is looked for among those of the places before it in its program.
#[tactic(auto, unfolding(crate::specs::Parts::ticket_ok))]
fn ticket_ok(image: &Image, numbers: &[u16; 256], at: usize, k: Ticket) -> bool
    requires { at < 256 }
    ensures { result ≡ ticket_ok (lasts_in image.now) numbers.now at k }
{
    let program = at / 8;
    let last = image_read::last_at(image, program);
    number_ok(&numbers[8 * program..at], last, k.number)
        && grant_ok(image_places::name_at(at, k.number), k)
}

// `numbers` is lent with 0 at each place; where all is well, it then has the number of each live ticket, and the lists have the places. A
// live ticket's place is written behind each list's end, and only the list that it belongs to grows: no branch depends on which that is.
// None where kinds, numbers, spans or dock names are not as they should be.
pub fn programs_ok(
    image: &Image,
    numbers: &mut [u16; 256],
    taken: &mut [u16; 256],
    children: &mut [u16; 256],
    recalls: &mut [u16; 256],
) -> Option<Tickets>
    requires { numbers.old ≡ replicate 256 0 }
    ensures { ((t : Tables) → Sized t → Flattened t (tickets_in image.now) (lasts_in image.now) → is_some result ≡ (kinds_ok image.now && (t1 t && t2 t && t4 t))) × IfSome result (λ n. Indexed (tickets_in image.now) numbers.new taken.new children.new recalls.new n.taken n.children n.recalls) }
{
    let mut listed = Tickets {
        taken: 0,
        children: 0,
        recalls: 0,
    };
    for i in 0..256 {
        let said = image_read::kind_at(image, i);
        if 4 < said {
            return None;
        }
        if said != 0 {
            let k = image_read::ticket_at(image, i);
            if !ticket_ok(image, numbers, i, k) {
                return None;
            }
            numbers[i] = k.number;
            let place = i as u16;
            taken[listed.taken] = place;
            children[listed.children] = place;
            recalls[listed.recalls] = place;
            listed.taken += usize::from(k.kind.is_taken());
            listed.children += usize::from(k.kind.is_child());
            listed.recalls += usize::from(k.kind.is_recall());
        }
    }
    Some(listed)
}
