// The refusals of the operations, decided from what was found.

#![tactic(auto)]

ghost use Rattle.std.specs.Prelude.{◌≡◌, not, ◌||◌};
ghost use Rattle.rights.specs.Rules.{within, can_pass};
ghost use Rattle.tables.specs.declared.Tables.{Tables};
ghost use Rattle.tables.specs.Names.{same_program};
ghost use Rattle.machine.specs.declared.Request.{Request};
ghost use Rattle.machine.specs.State.{asked};
ghost use Rattle.machine.specs.Refusal.{said};
ghost use Rattle.machine.specs.Recall.{recall_refusal};
ghost use Rattle.machine.specs.GiveBack.{give_back_refusal};
ghost use Rattle.op_refusals.specs.Parts.{kind_refusal, pass_ticket_refusal, pass_room_refusal, access_ticket_refusal};

use machine::{Refusal, Request};
use rights::Rights;
use tables::{Kind, Ticket};

// What a program has for a new ticket: whether all its places are taken, and its last number.
#[derive(Clone, Copy)]
pub struct Seat {
    pub full: bool,
    pub last: u16,
}

#[tactic(auto, unfolding(tables::specs::Names::same_program))]
fn is_to_itself(r: Request) -> bool
    ensures { result ≡ same_program r.pad r.program r.topad r.toprogram }
{
    r.pad == r.topad && r.program == r.toprogram
}

// Does a ticket with these rights lack pass on, or one of the rights asked for?
fn lacks_rights(held: Rights, asked: Rights) -> bool
    ensures { result ≡ (not (can_pass held) || not (within asked held)) }
{
    !held.can_pass() || !held.contains(asked)
}

// A pass, by the ticket asked for: 4, 5, 8, 6 or 7.
#[tactic(auto, using(op_check::proofs::Chains::chain), unfolding(crate::specs::Parts::pass_ticket_refusal))]
pub fn pass_ticket(k: Ticket, r: Request) -> Result<(), Refusal>
    ensures { said result ≡ pass_ticket_refusal k r }
{
    if !k.kind.is_live() {
        return Err(Refusal::NoTicket);
    }
    if k.kind.is_recall() {
        return Err(Refusal::WrongKind);
    }
    if is_to_itself(r) {
        return Err(Refusal::ToOneself);
    }
    if usize::from(k.count) < usize::from(r.first) + usize::from(r.count) {
        return Err(Refusal::Beyond);
    }
    if lacks_rights(k.rights, Rights::make(r.rights)) {
        return Err(Refusal::RightLacking);
    }
    Ok(())
}

// A pass, by the seats of asker and recipient, and whether the dock has lost the ticket's entry: 9, 10 or 12.
#[tactic(auto, using(op_check::proofs::Chains::chain), unfolding(crate::specs::Parts::pass_room_refusal))]
pub fn pass_room(p: Seat, q: Seat, lost: bool) -> Result<(), Refusal>
    ensures { said result ≡ pass_room_refusal p q lost }
{
    if p.full || q.full {
        return Err(Refusal::NoPlace);
    }
    if 65535 <= p.last || 65535 <= q.last {
        return Err(Refusal::NoNumber);
    }
    if lost {
        return Err(Refusal::NoEntry);
    }
    Ok(())
}

// 4 where there is no live ticket, 5 where it isn't of the kind that is wanted.
#[tactic(auto, using(op_check::proofs::Chains::chain), unfolding(crate::specs::Parts::kind_refusal))]
fn kind_refusal(kind: Kind, wanted: bool) -> Result<(), Refusal>
    ensures { said result ≡ kind_refusal kind wanted }
{
    if !kind.is_live() {
        return Err(Refusal::NoTicket);
    }
    if !wanted {
        return Err(Refusal::WrongKind);
    }
    Ok(())
}

#[tactic(auto, unfolding(machine::specs::Recall::recall_refusal, crate::specs::Parts::kind_refusal))]
pub fn recall(k: Ticket) -> Result<(), Refusal>
    ensures { (t : Tables) (r : Request) → asked t r ≡ k → said result ≡ recall_refusal t r }
{
    kind_refusal(k.kind, k.kind.is_recall())
}

#[tactic(auto, unfolding(machine::specs::GiveBack::give_back_refusal, crate::specs::Parts::kind_refusal))]
pub fn give_back(k: Ticket) -> Result<(), Refusal>
    ensures { (t : Tables) (r : Request) → asked t r ≡ k → said result ≡ give_back_refusal t r }
{
    kind_refusal(k.kind, k.kind.is_taken())
}

// A read or write, by the pad's own tests: 4, 5, 6 or 7. The dock's check comes after.
#[tactic(auto, using(op_check::proofs::Chains::chain), unfolding(crate::specs::Parts::access_ticket_refusal))]
pub fn access_ticket(k: Ticket, first: u16, right: Rights) -> Result<(), Refusal>
    ensures { said result ≡ access_ticket_refusal right k first }
{
    if !k.kind.is_live() {
        return Err(Refusal::NoTicket);
    }
    if k.kind.is_recall() {
        return Err(Refusal::WrongKind);
    }
    if k.count <= first {
        return Err(Refusal::Beyond);
    }
    if !k.rights.contains(right) {
        return Err(Refusal::RightLacking);
    }
    Ok(())
}
