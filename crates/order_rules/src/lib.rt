// The rules of tables in order about one ticket or entry and what it names, each as a test of values.
// Each rule is the definition of the same name in tables/specs/Order.antt.

#![tactic(auto)]

ghost use Rattle.std.specs.Prelude.{◌≡◌, ◌&&◌, cond};
ghost use Rattle.lists.specs.Tests.{implies, between};
ghost use Rattle.tables.specs.Kinds.{is_taken, is_received};
ghost use Rattle.tables.specs.Names.{no_name, eq_name};
ghost use Rattle.tables.specs.Sheets.{inside};
ghost use Rattle.tables.specs.Order.{span_ok, parent_ok, under_store, grant_ok, parent_entry_ok, recall_parent_ok, is_child_of};

use rights::Rights;
use tables::{Entry, Kind, Name, Ticket};

// Both bounds included.
#[tactic(auto, unfolding(lists::specs::Tests::between))]
pub fn is_between(low: u16, high: u16, x: u16) -> bool
    ensures { result ≡ between low high x }
{
    low <= x && x <= high
}

// A run of sheets and the rights to it.
#[derive(Clone, Copy)]
pub struct Span {
    pub first: u16,
    pub count: u16,
    pub rights: Rights,
}

impl Span {
    #[tactic(auto, unfolding(tables::specs::Sheets::inside))]
    pub fn is_inside(self, other: Span) -> bool
        ensures { result ≡ inside self.first self.count self.rights other.first other.count other.rights }
    {
        let end = usize::from(self.first) + usize::from(self.count);
        let last = usize::from(other.first) + usize::from(other.count);
        other.first <= self.first && end <= last && other.rights.contains(self.rights)
    }
}

impl From<Ticket> for Span {
    ghost from_gives = { λ k s. s ≡ record { first = k.first; count = k.count; rights = k.rights } };

    fn from(k: Ticket) -> Span {
        Span {
            first: k.first,
            count: k.count,
            rights: k.rights,
        }
    }
}

impl From<Entry> for Span {
    ghost from_gives = { λ e s. s ≡ record { first = e.first; count = e.count; rights = e.rights } };

    fn from(e: Entry) -> Span {
        Span {
            first: e.first,
            count: e.count,
            rights: e.rights,
        }
    }
}

// T2, of a grant.
#[tactic(auto, unfolding(tables::specs::Order::span_ok))]
pub fn span_ok(k: Ticket) -> bool
    ensures { result ≡ span_ok k }
{
    1 <= k.count
        && usize::from(k.first) + usize::from(k.count) <= 256
        && is_between(1, 7, k.rights.bits)
}

// T3, of the child `k` named `n` and its parent.
#[tactic(auto, unfolding(tables::specs::Order::parent_ok, tables::specs::Names::eq_name))]
pub fn parent_ok(n: Name, k: Ticket, parent: Ticket) -> bool
    ensures { result ≡ parent_ok n k parent }
{
    parent.kind.is_grant()
        && k.other.pad == n.pad
        && k.other.program != n.program
        && parent.rights.can_pass()
        && Span::from(k).is_inside(Span::from(parent))
        && k.dock == parent.dock
}

// T5, taken if the parent is the store, else received.
#[tactic(auto, using(std::proofs::lemmas::Bool::Decides::nat_tests), unfolding(tables::specs::Names::eq_name))]
fn kind_ok(e: Entry, kind: Kind) -> bool
    ensures { result ≡ cond (under_store e) (eq_name e.parent no_name && is_taken kind) (is_received kind) }
{
    if e.parent.number == 0 {
        e.parent == Name::none() && kind.is_taken()
    } else {
        kind.is_received()
    }
}

// T5, of an entry and the grant that it names.
#[tactic(auto, unfolding(tables::specs::Order::grant_ok))]
pub fn grant_ok(e: Entry, k: Ticket) -> bool
    ensures { result ≡ grant_ok e k }
{
    kind_ok(e, k.kind) && k.first == e.first && k.count == e.count && k.rights.bits == e.rights.bits
}

// T5, of an entry and its parent entry.
#[tactic(auto, unfolding(tables::specs::Order::parent_entry_ok))]
pub fn parent_entry_ok(e: Entry, parent: Entry) -> bool
    ensures { result ≡ parent_entry_ok e parent }
{
    parent.live && parent.rights.can_pass() && Span::from(e).is_inside(Span::from(parent))
}

// T6, of a recall's parent.
#[tactic(auto, unfolding(tables::specs::Order::recall_parent_ok))]
pub fn recall_parent_ok(parent: Ticket) -> bool
    ensures { result ≡ recall_parent_ok parent }
{
    parent.kind.is_grant() && parent.rights.can_pass()
}

// T6, of a recall's target on its own pad.
#[tactic(auto, unfolding(tables::specs::Order::is_child_of, tables::specs::Names::eq_name))]
pub fn is_child_of(parent: Name, k: Ticket) -> bool
    ensures { result ≡ is_child_of parent k }
{
    k.kind.is_child() && k.other == parent
}

// T6, of the entry of a recall's target on another pad, and the recall's grant.
#[tactic(auto, unfolding(lists::specs::Tests::implies, tables::specs::Names::eq_name))]
pub fn far_entry_ok(grant: Ticket, e: Entry) -> bool
    ensures { result ≡ implies e.live (eq_name e.parent grant.dock && inside e.first e.count e.rights grant.first grant.count grant.rights) }
{
    !e.live || e.parent == grant.dock && Span::from(e).is_inside(Span::from(grant))
}
