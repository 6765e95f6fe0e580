// The public routines over the tables' image, where it lies: emptying the dock, the order test, the dock's own check, and the step that
// serves one request. None asks anything of its caller.

#![tactic(auto)]

ghost use Rattle.std.specs.Prelude.{◌≡◌};
ghost use Rattle.machine.specs.Refusal.{said};
ghost use Rattle.lending.specs.Host.{EmptiesImage, order_of, check_image, lent_refusal, StepsLent};

use image::IMAGE;
use machine::{Answer, Refusal, Request};
use op_sheets::{SHEET, STORE};
use tables::Name;

// Tables without tickets or entries, which are zeros, and a store of zeros; with a store of another length 13, empty tables and the store
// untouched; with an image of another length 13, and nothing changes.
pub fn empty(tables: &mut [u8], store: &mut [u8]) -> Result<(), Refusal>
    ensures { EmptiesImage tables.old store.old (said result) tables.new store.new }
{
    if tables.len() != IMAGE {
        return Err(Refusal::Length);
    }
    op_sheets::clear(tables);
    if store.len() != STORE {
        return Err(Refusal::Length);
    }
    op_sheets::clear(store);
    Ok(())
}

// 13 another length than an image has, 14 no tables or tables that are not in order.
#[tactic(auto, using(op_check::proofs::Chains::chain), unfolding(lending::specs::Host::order_of, lending::specs::Batch::tables_ok))]
pub fn in_order(tables: &[u8]) -> Result<(), Refusal>
    ensures { said result ≡ order_of tables.now }
{
    let Some(image) = tables.as_array() else {
        return Err(Refusal::Length);
    };
    if !order::image_in_order(image) {
        return Err(Refusal::NotInOrder);
    }
    Ok(())
}

// The dock's own check: 13, 14, 3, 12, 6 or 7.
#[tactic(auto, using(crate::proofs::Checking::check_parts))]
pub fn check(tables: &[u8], n: Name, sheet: u16, right: u16) -> Result<(), Refusal>
    ensures { said result ≡ check_image tables.now n.pad n.program n.number sheet right }
{
    in_order(tables)?;
    let e = image_find::entry(tables.as_array().unwrap(), n);
    op_check::check(e, usize::from(sheet), right)
}

// What comes before every request: 13 or 14, from the image and the lengths of store and sheet buffer.
#[tactic(auto, using(op_check::proofs::Chains::chain), unfolding(lending::specs::Host::order_of, lending::specs::Host::lent_refusal, lending::specs::Batch::tables_ok))]
pub fn refusal(tables: &[u8], store: usize, sheet: usize) -> Result<(), Refusal>
    ensures { said result ≡ lent_refusal tables.now store sheet }
{
    if store != STORE || sheet != SHEET {
        return Err(Refusal::Length);
    }
    in_order(tables)
}

// 13, 14, 1, 2, 3, then the operation.
pub fn step(tables: &mut [u8], store: &mut [u8], sheet: &mut [u8], r: Request) -> Answer
    ensures { StepsLent tables.old store.old sheet.old r result tables.new store.new sheet.new }
{
    if let Err(refusal) = refusal(tables, store.len(), sheet.len()) {
        return Answer::refused(refusal);
    }
    op_serve::request(tables, store, sheet, r)
}
