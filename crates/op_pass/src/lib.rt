// Op 2, pass.

#![tactic(auto)]

ghost use Rattle.std.specs.Prelude.{◌≡◌, true, not, ◌&&◌, List, ℕ, ◌+◌, ◌<◌, eqb};
ghost use Rattle.tables.specs.Lookup.{entry_of};
ghost use Rattle.tables.proofs.NameLaws.{Possible};
ghost use Rattle.machine.specs.State.{asked, state_of};
ghost use Rattle.machine.specs.Step.{serve};
ghost use Rattle.image.specs.Image.{decode, is_image};
ghost use Rattle.image_write.specs.Shows.{Holds};
ghost use Rattle.op_outcome.specs.Outcomes.{Serves};
ghost use Rattle.op_outcome.specs.Ready.{Ready, Asks};
ghost use Rattle.op_pass.specs.Decides.{DecidesFor, Decides};
ghost use Rattle.op_pass.specs.Grant.{granted};

use image::Image;
use machine::{Answer, Refusal, Request};
use op_outcome::Decision;
use tables::{Kind, Name, Ticket};

// What an accepted pass needs: the new numbers of asker and recipient.
#[derive(Clone, Copy)]
pub struct Numbers {
    pub own: u16,
    pub other: u16,
}

// To another pad, and the dock has no entry of the ticket's dock name. On the same pad the dock isn't asked.
fn is_lost(image: &Image, d: Name, r: Request) -> bool
    ensures { result ≡ (not (eqb r.pad r.topad) && not (entry_of (decode image.now) d).live) }
{
    r.pad != r.topad && !image_find::entry(image, d).live
}

// The new numbers of a pass of the ticket k asked for; or 4, 5, 8, 6, 7, 9, 10 or 12. Nothing changes. Seats and dock are asked only where
// the ticket refuses nothing.
#[tactic(auto, using(op_refusals::proofs::Parts::pass_parts))]
pub fn allowed_by(image: &Image, k: Ticket, r: Request) -> Result<Numbers, Refusal>
    requires { Asks 2 r }
    ensures { asked (decode image.now) r ≡ k → DecidesFor (decode image.now) r result }
{
    op_refusals::pass_ticket(k, r)?;
    let p = op_outcome::seat(image, r.pad, r.program);
    let q = op_outcome::seat(image, r.topad, r.toprogram);
    let lost = is_lost(image, k.dock, r);
    op_refusals::pass_room(p, q, lost)?;
    Ok(Numbers {
        own: p.last + 1,
        other: q.last + 1,
    })
}

// The same of the ticket that the request asks for, which comes with it.
pub fn allowed(image: &Image, r: Request) -> Decision<Numbers>
    requires { Asks 2 r }
    ensures { Decides (decode image.now) r result }
{
    let ticket = op_outcome::asked(image, r);
    let found = allowed_by(image, ticket, r);
    Decision { ticket, found }
}

// The recipient gets its grant, of the name n. On the same pad it is a child, and the dock isn't told; to another pad it is a received
// grant with an entry.
fn grant(image: &mut Image, k: Ticket, r: Request, n: Name)
    requires { (is_image image.old ≡ true) × (Possible r.topad r.toprogram × (k.first + r.first < 65536)) }
    ensures { Holds image.new (granted (decode image.old) k r n) }
{
    let first = k.first + r.first;
    if r.pad == r.topad {
        let parent = op_outcome::asked_name(r);
        let child = op_make::child(n.number, parent, first, r.count, r.rights, k.dock);
        op_outcome::give(image, r.topad, r.toprogram, child);
    } else {
        let received = op_make::head(Kind::Received, n, first, r.count, r.rights);
        op_outcome::give(image, r.topad, r.toprogram, received);
        let entry = op_make::entry(n, k.dock, first, r.count, r.rights);
        op_insert::make(image, entry);
    }
}

// The asker gets a recall under its ticket, the recipient a grant.
#[tactic(auto, using(image::proofs::RoundTrip::image_whole))]
pub fn pass(image: &mut Image, r: Request) -> Answer
    requires { (is_image image.old ≡ true) × (Ready (decode image.old) × Asks 2 r) }
    ensures { (store : List ℕ) (sheet : List ℕ) → Serves (serve (state_of (decode image.old) store sheet) r) result image.new store sheet }
{
    let d = allowed(image, r);
    let numbers = match d.found {
        Ok(numbers) => numbers,
        Err(refusal) => return op_outcome::refuse(image, refusal.into(), d.ticket),
    };
    let n = Name {
        pad: r.topad,
        program: r.toprogram,
        number: numbers.other,
    };
    let recall = op_make::recall(numbers.own, r.ticket, n);
    op_outcome::give(image, r.pad, r.program, recall);
    grant(image, d.ticket, r, n);
    Answer::accepted(numbers.own, numbers.other)
}
