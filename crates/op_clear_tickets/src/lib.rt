// The marked tickets of a pad, cleared on the tables' image where it lies.

#![tactic(auto)]

ghost use Rattle.std.specs.Prelude.{◌*◌, ◌-◌, ◌<◌, ◌≡◌, true, ◌&&◌, get_or};
ghost use Rattle.tables.specs.Kinds.{is_live};
ghost use Rattle.tables.specs.Names.{free};
ghost use Rattle.image.specs.Image.{is_image};
ghost use Rattle.image_read.specs.Places.{tickets_in};
ghost use Rattle.op_clear_tickets.specs.Cleared.{is_marked, Cleared};

use image::Image;
use image_places::PAD;
use tables::Ticket;

// Is the ticket at the place marked, and live?
fn is_marked(image: &Image, place: usize, mark: bool) -> bool
    requires { place < 256 }
    ensures { result ≡ (is_live (get_or (tickets_in image.now) place free).kind && mark) }
{
    mark && image_read::ticket_at(image, place).kind.is_live()
}

// Each place of the pad that has a mark and a live ticket gets the free record.
#[tactic(auto, using(image::proofs::RoundTrip::image_whole))]
pub fn clear_marked(image: &mut Image, pad: usize, marks: &[bool; PAD])
    requires { (is_image image.old ≡ true) × (pad < 4) }
    ensures { Cleared (64 * pad) 64 (λ p. is_marked marks.now (p - 64 * pad)) image.old image.new }
{
    for (i, &mark) in marks.iter().enumerate() {
        let place = PAD * pad + i;
        if is_marked(image, place, mark) {
            image_write::put_ticket(image, place, Ticket::free());
        }
    }
}
