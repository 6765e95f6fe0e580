// A loan on a pad goes, in the image: the ticket with all under it, and in the dock what was lent away from there to other pads.

#![tactic(auto)]

ghost use Rattle.std.specs.Prelude.{◌<◌, ◌≡◌, true};
ghost use Rattle.tables.specs.Change.{drop_entries};
ghost use Rattle.image.specs.Image.{decode, is_image};
ghost use Rattle.image_write.specs.Shows.{Holds};
ghost use Rattle.op_drop_entries.specs.Links.{LinkedEntries};
ghost use Rattle.op_drop_tickets.specs.Linked.{Linked};
ghost use Rattle.op_follow.specs.Lent.{is_lending, lent_by, without_loan};

use image::Image;
use image_places::PAD;
use tables::{Name, Ticket};

// Is it marked, and a recall of another pad's ticket?
#[tactic(auto, unfolding(crate::specs::Lent::is_lending))]
fn is_lending(k: Ticket, pad: usize, mark: bool) -> bool
    ensures { result ≡ is_lending pad mark k }
{
    mark && k.kind.is_recall() && k.other.pad as usize != pad
}

// The entries that such recalls name go, one after the other, each with all below it. The marked tickets stay readable.
#[tactic(auto, using(image::proofs::RoundTrip::image_whole, crate::proofs::Turns::begins, crate::proofs::Turns::linked_now))]
fn drop_lent(image: &mut Image, pad: usize, marks: &[bool; PAD])
    requires { (is_image image.old ≡ true) × ((pad < 4) × LinkedEntries (decode image.old).entries) }
    ensures { Holds image.new (drop_entries (lent_by (decode image.old) pad marks.now 64) (decode image.old)) }
{
    for (i, &mark) in marks.iter().enumerate() {
        let k = image_read::ticket_at(image, PAD * pad + i);
        if is_lending(k, pad, mark) {
            op_drop_entries::drop_below(image, k.other);
        }
    }
}

// The tables without `also`, x and all under x, and in the dock without what was lent away from there.
#[tactic(auto, using(image::proofs::RoundTrip::image_whole))]
pub fn drop_followed(image: &mut Image, also: Name, x: Name)
    requires { (is_image image.old ≡ true) × (Linked (decode image.old) × (((x.pad < 4) × (also.pad ≡ x.pad)) × LinkedEntries (decode image.old).entries)) }
    ensures { Holds image.new (without_loan (decode image.old) also x) }
{
    let mut marks = [false; PAD];
    op_drop_tickets::mark_under(image, also, x, &mut marks);
    drop_lent(image, x.pad as usize, &marks);
    op_clear_tickets::clear_marked(image, x.pad as usize, &marks);
}
