// Op 4, give back.

#![tactic(auto)]

ghost use Rattle.std.specs.Prelude.{◌≡◌, true, List, ℕ};
ghost use Rattle.machine.specs.State.{state_of};
ghost use Rattle.machine.specs.GiveBack.{give_back_refusal};
ghost use Rattle.machine.specs.Step.{serve};
ghost use Rattle.image.specs.Image.{decode, is_image};
ghost use Rattle.op_outcome.specs.Outcomes.{Serves};
ghost use Rattle.op_outcome.specs.Ready.{Ready, Asks};
ghost use Rattle.op_outcome.specs.Decides.{Decides};

use image::Image;
use machine::{Answer, Request};
use op_outcome::Decision;
use op_sheets::Store;

// 4, 5, or that the giving back is allowed. Nothing changes.
pub fn allowed(image: &Image, r: Request) -> Decision<()>
    ensures { Decides give_back_refusal (decode image.now) r result }
{
    let ticket = op_outcome::asked(image, r);
    let found = op_refusals::give_back(ticket);
    Decision { ticket, found }
}

// The taken grant is given back: its entry and all below it go, it and all under it go, its sheets become 0.
#[tactic(auto, using(image::proofs::RoundTrip::image_whole))]
pub fn give_back(image: &mut Image, store: &mut Store, r: Request) -> Answer
    requires { (is_image image.old ≡ true) × (Ready (decode image.old) × Asks 4 r) }
    ensures { (sheet : List ℕ) → Serves (serve (state_of (decode image.old) store.old sheet) r) result image.new store.new sheet }
{
    let d = allowed(image, r);
    if let Err(refusal) = d.found {
        return Answer::refused(refusal);
    }
    let k = d.ticket;
    let own = op_outcome::asked_name(r);
    op_sheets::clear_sheets(store, usize::from(k.first), usize::from(k.count));
    op_drop_tickets::drop_head(image, own);
    op_drop_entries::drop_below(image, own);
    Answer::accepted(0, 0)
}
