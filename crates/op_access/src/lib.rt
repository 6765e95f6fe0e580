// Op 5, read, and op 6, write: the pad's own tests, then the dock's check.

#![tactic(auto)]

ghost use Rattle.std.specs.Prelude.{◌≡◌, true};
ghost use Rattle.machine.specs.State.{asked, state_of};
ghost use Rattle.machine.specs.Step.{serve};
ghost use Rattle.image.specs.Image.{decode, is_image};
ghost use Rattle.op_outcome.specs.Outcomes.{Serves};
ghost use Rattle.op_outcome.specs.Ready.{Ready, Asks};
ghost use Rattle.op_access.specs.Decides.{DecidesFor, Decides};

use image::Image;
use machine::{Answer, Refusal, Request};
use op_outcome::Decision;
use op_sheets::{Sheet, Store};
use rights::Rights;
use tables::Ticket;

// The sheet of the store that the ticket k asked for grants; or 4, 5, 6, 7 or 12. Nothing changes. The dock is asked only where the pad
// refuses nothing: that is a look at every entry.
#[tactic(auto, using(op_refusals::proofs::Parts::access_parts))]
pub fn allowed_by(image: &Image, k: Ticket, r: Request, right: Rights) -> Result<usize, Refusal>
    ensures { asked (decode image.now) r ≡ k → DecidesFor right.bits (decode image.now) r result }
{
    op_refusals::access_ticket(k, r.first, right)?;
    let e = image_find::entry(image, k.dock);
    let sheet = usize::from(k.first) + usize::from(r.first);
    op_check::check(e, sheet, right.bits)?;
    Ok(sheet)
}

// The same of the ticket that the request asks for, which comes with it.
pub fn allowed(image: &Image, r: Request, right: Rights) -> Decision<usize>
    ensures { Decides right.bits (decode image.now) r result }
{
    let ticket = op_outcome::asked(image, r);
    let found = allowed_by(image, ticket, r, right);
    Decision { ticket, found }
}

// Read copies the sheet into the buffer.
#[tactic(auto, using(image::proofs::RoundTrip::image_whole))]
pub fn read(image: &mut Image, store: &Store, sheet: &mut Sheet, r: Request) -> Answer
    requires { (is_image image.old ≡ true) × (Ready (decode image.old) × Asks 5 r) }
    ensures { Serves (serve (state_of (decode image.old) store.now sheet.old) r) result image.new store.now sheet.new }
{
    let d = allowed(image, r, Rights::READ);
    match d.found {
        Ok(at) => {
            op_sheets::read_sheet(store, at, sheet);
            Answer::accepted(0, 0)
        }
        Err(refusal) => op_outcome::refuse(image, refusal.into(), d.ticket),
    }
}

// Write copies the buffer into the sheet.
#[tactic(auto, using(image::proofs::RoundTrip::image_whole))]
pub fn write(image: &mut Image, store: &mut Store, sheet: &Sheet, r: Request) -> Answer
    requires { (is_image image.old ≡ true) × (Ready (decode image.old) × Asks 6 r) }
    ensures { Serves (serve (state_of (decode image.old) store.old sheet.now) r) result image.new store.new sheet.now }
{
    let d = allowed(image, r, Rights::WRITE);
    match d.found {
        Ok(at) => {
            op_sheets::write_sheet(store, at, sheet);
            Answer::accepted(0, 0)
        }
        Err(refusal) => op_outcome::refuse(image, refusal.into(), d.ticket),
    }
}
