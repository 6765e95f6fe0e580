// Op 1, take.

#![tactic(auto)]

ghost use Rattle.std.specs.Prelude.{◌≡◌, true, List, ℕ};
ghost use Rattle.machine.specs.State.{state_of};
ghost use Rattle.machine.specs.Step.{serve};
ghost use Rattle.image.specs.Image.{decode, is_image};
ghost use Rattle.op_outcome.specs.Outcomes.{Serves};
ghost use Rattle.op_outcome.specs.Ready.{Asks};
ghost use Rattle.op_take.specs.Decides.{Decides};

use image::Image;
use machine::{Answer, Refusal, Request};
use op_sheets::Store;
use tables::{Kind, Name};

// What an accepted take needs: the new number, and the first sheet of the run.
#[derive(Clone, Copy)]
pub struct Granted {
    pub number: u16,
    pub first: u16,
}

// The new number and the first sheet; or 9, 10 or 11. Nothing changes. A run is looked for only where the program has room for the ticket:
// that is a look at every entry.
#[tactic(auto, using(op_check::proofs::Chains::chain), unfolding(machine::specs::Take::take_refusal, machine::specs::Refusal::is_spent))]
pub fn allowed(image: &Image, r: Request) -> Result<Granted, Refusal>
    requires { Asks 1 r }
    ensures { Decides (decode image.now) r result }
{
    let p = op_outcome::seat(image, r.pad, r.program);
    if p.full {
        return Err(Refusal::NoPlace);
    }
    if 65535 <= p.last {
        return Err(Refusal::NoNumber);
    }
    let first = op_run::best_fit(image, usize::from(r.count));
    if 256 <= first {
        return Err(Refusal::NoRun);
    }
    Ok(Granted {
        number: p.last + 1,
        first: first as u16,
    })
}

// A run of free sheets is taken, its bytes set to 0.
#[tactic(auto, using(image::proofs::RoundTrip::image_whole))]
pub fn take(image: &mut Image, store: &mut Store, r: Request) -> Answer
    requires { (is_image image.old ≡ true) × Asks 1 r }
    ensures { (sheet : List ℕ) → Serves (serve (state_of (decode image.old) store.old sheet) r) result image.new store.new sheet }
{
    let granted = match allowed(image, r) {
        Ok(granted) => granted,
        Err(refusal) => return Answer::refused(refusal),
    };
    let first = granted.first;
    op_sheets::clear_sheets(store, usize::from(first), usize::from(r.count));
    let n = Name {
        pad: r.pad,
        program: r.program,
        number: granted.number,
    };
    let k = op_make::head(Kind::Taken, n, first, r.count, r.rights);
    let e = op_make::entry(n, Name::none(), first, r.count, r.rights);
    op_outcome::give(image, r.pad, r.program, k);
    op_insert::make(image, e);
    Answer::accepted(granted.number, 0)
}
