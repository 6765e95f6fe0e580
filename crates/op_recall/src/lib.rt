// Op 3, recall.

#![tactic(auto)]

ghost use Rattle.std.specs.Prelude.{◌≡◌, true, List, ℕ};
ghost use Rattle.machine.specs.State.{state_of};
ghost use Rattle.machine.specs.Recall.{recall_refusal};
ghost use Rattle.machine.specs.Step.{serve};
ghost use Rattle.image.specs.Image.{decode, is_image};
ghost use Rattle.op_outcome.specs.Outcomes.{Serves};
ghost use Rattle.op_outcome.specs.Ready.{Ready, Asks};
ghost use Rattle.op_outcome.specs.Decides.{Decides};

use image::Image;
use machine::{Answer, Request};
use op_outcome::Decision;

// 4, 5, or that the recall is allowed. Nothing changes.
pub fn allowed(image: &Image, r: Request) -> Decision<()>
    ensures { Decides recall_refusal (decode image.now) r result }
{
    let ticket = op_outcome::asked(image, r);
    let found = op_refusals::recall(ticket);
    Decision { ticket, found }
}

// What was lent is taken back. On the same pad the target and all under it go, with the recall, and in the dock what was lent away from
// there. For another pad the recall goes, and the entry and all below it.
#[tactic(auto, using(image::proofs::RoundTrip::image_whole))]
pub fn recall(image: &mut Image, r: Request) -> Answer
    requires { (is_image image.old ≡ true) × (Ready (decode image.old) × Asks 3 r) }
    ensures { (store : List ℕ) (sheet : List ℕ) → Serves (serve (state_of (decode image.old) store sheet) r) result image.new store sheet }
{
    let d = allowed(image, r);
    if let Err(refusal) = d.found {
        return Answer::refused(refusal);
    }
    let own = op_outcome::asked_name(r);
    let target = d.ticket.other;
    if target.pad == r.pad {
        op_follow::drop_followed(image, own, target);
    } else {
        op_drop_tickets::drop_one(image, own);
        op_drop_entries::drop_below(image, target);
    }
    Answer::accepted(0, 0)
}
