// The dock's own check, over the entry that was found.

#![tactic(auto)]

ghost use Rattle.std.specs.Prelude.{◌≡◌};
ghost use Rattle.tables.specs.declared.{Name.Name, Tables.Tables};
ghost use Rattle.tables.specs.Lookup.{entry_of};
ghost use Rattle.machine.specs.Refusal.{said};
ghost use Rattle.machine.specs.Dock.{dock_refusal};

use machine::Refusal;
use rights::Rights;
use tables::{Entry, Name};

// Past 14, over the entry that was found: 3, 12, 6 or 7.
#[tactic(auto, using(crate::proofs::Chains::chain), unfolding(machine::specs::Dock::dock_refusal, tables::specs::Sheets::apart, lists::specs::Tests::between))]
pub fn check(e: Entry, sheet: usize, right: u16) -> Result<(), Refusal>
    ensures { (t : Tables) (n : Name) → entry_of t n ≡ e → said result ≡ dock_refusal t n sheet right }
{
    if 255 < sheet || right < 1 || 2 < right {
        return Err(Refusal::Field);
    }
    if !e.live {
        return Err(Refusal::NoEntry);
    }
    let first = usize::from(e.first);
    if sheet < first || first + usize::from(e.count) <= sheet {
        return Err(Refusal::Beyond);
    }
    if !e.rights.contains(Rights::make(right)) {
        return Err(Refusal::RightLacking);
    }
    Ok(())
}
