// T3: children with their parents, and the heads of their chains.

#![tactic(auto)]

ghost use Rattle.std.specs.Prelude.{◌≡◌, true, List, length, replicate};
ghost use Rattle.tables.specs.declared.{Ticket.Ticket, Tables.Tables};
ghost use Rattle.tables.specs.Kinds.{is_child};
ghost use Rattle.tables.specs.Order.{t3};
ghost use Rattle.image_places.specs.Places.{Flattened, Numbered};
ghost use Rattle.image_read.specs.Places.{tickets_in, lasts_in};
ghost use Rattle.order_lists.specs.Listing.{TicketsListed, AllBelow};
ghost use Rattle.order_children.specs.Parts.{children_ok, Ups, heads_ok};

use image::Image;

// Each child's parent; its place is written to `up` at the child's. `up` is lent with 256 at each place.
fn children_ok(image: &Image, numbers: &[u16; 256], children: &[u16], up: &mut [u16; 256]) -> bool
    requires { TicketsListed (λ k. is_child k.kind) (tickets_in image.now) children.now × (up.old ≡ replicate 256 256) }
    ensures { (result ≡ children_ok (tickets_in image.now) numbers.now) × (result ≡ true → Ups (tickets_in image.now) numbers.now up.new) }
{
    for &at in children {
        let at = usize::from(at);
        let k = image_read::ticket_at(image, at);
        let p = image_places::place_of(numbers, k.other);
        if 256 <= p {
            return false;
        }
        let parent = image_read::ticket_at(image, p);
        if !order_rules::parent_ok(image_places::name_at(at, k.number), k, parent) {
            return false;
        }
        up[at] = p as u16;
    }
    true
}

// The chain of parents is followed until a grant without a parent, and one is reached.
fn heads_ok(children: &[u16], up: &[u16; 256]) -> bool
    requires { AllBelow 256 children.now }
    ensures { (tickets : List Ticket) → length tickets ≡ 256 → TicketsListed (λ k. is_child k.kind) tickets children.now → result ≡ heads_ok tickets up.now }
{
    for &at in children {
        if 256 <= image_places::end_from(up, usize::from(at), 64) {
            return false;
        }
    }
    true
}

// T3. Where there is no child, there is nothing to link.
pub fn chains_ok(image: &Image, numbers: &[u16; 256], children: &[u16]) -> bool
    requires { TicketsListed (λ k. is_child k.kind) (tickets_in image.now) children.now }
    ensures { (t : Tables) → Flattened t (tickets_in image.now) (lasts_in image.now) → Numbered t numbers.now → result ≡ t3 t }
{
    if children.is_empty() {
        return true;
    }
    let mut up = [256u16; 256];
    children_ok(image, numbers, children, &mut up) && heads_ok(children, &up)
}
