// The step past 13 and 14 on lent tables, for callers that know their buffers' lengths and that the tables are in order. It pays for no
// order test and changes the image where it lies.

#![tactic(auto)]

ghost use Rattle.std.specs.Prelude.{◌≡◌};
ghost use Rattle.machine.specs.State.{state_of};
ghost use Rattle.op_form.specs.Early.{early_refusal};
ghost use Rattle.op_outcome.specs.Outcomes.{Serves};
ghost use Rattle.machine.specs.Step.{serve};
ghost use Rattle.image.specs.Image.{decode};
ghost use Rattle.op_serve.specs.Contract.{ReadyToServe, LeavesLent};

use image::Image;
use machine::{Answer, Request};
use op_sheets::{Sheet, Store};

// The operation, past 1, 2 and 3.
fn operate(image: &mut Image, store: &mut Store, sheet: &mut Sheet, r: Request) -> Answer
    requires ready { ReadyToServe image.old store.old sheet.old }
    requires early { early_refusal r ≡ 0 }
    ensures { Serves (serve (state_of (decode image.old) store.old sheet.old) r) result image.new store.new sheet.new }
{
    match r.op {
        1 => op_take::take(image, store, r),
        2 => op_pass::pass(image, r),
        3 => op_recall::recall(image, r),
        4 => op_give_back::give_back(image, store, r),
        5 => op_access::read(image, store, sheet, r),
        _ => op_access::write(image, store, sheet, r),
    }
}

// 1, 2, 3, then the operation.
pub fn request(tables: &mut [u8], store: &mut [u8], sheet: &mut [u8], r: Request) -> Answer
    requires { ReadyToServe tables.old store.old sheet.old }
    ensures { LeavesLent (serve (state_of (decode tables.old) store.old sheet.old) r) result tables.new store.new sheet.new }
{
    if let Err(refusal) = op_form::refusal(r) {
        return Answer::refused(refusal);
    }
    let image = tables.as_mut_array().unwrap();
    let store = store.as_mut_array().unwrap();
    let sheet = sheet.as_mut_array().unwrap();
    operate(image, store, sheet, r)
}
