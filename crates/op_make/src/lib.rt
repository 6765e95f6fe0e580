// The tickets and entries that take and pass make.

#![tactic(auto)]

ghost use Rattle.std.specs.Prelude.{◌≡◌};
ghost use Rattle.tables.specs.declared.Kind.TheVariants.{Child};
ghost use Rattle.tables.specs.Names.{grant_ticket, head_ticket, recall_ticket, entry_for};
ghost use Rattle.rights.specs.Rules.{rights_of};

use rights::Rights;
use tables::{Entry, Kind, Name, Ticket};

// A taken or received grant: its dock name is its own.
pub fn head(kind: Kind, n: Name, first: u16, count: u16, rights: u16) -> Ticket
    ensures { result ≡ head_ticket kind n first count (rights_of rights) }
{
    Ticket {
        kind,
        number: n.number,
        own: 0,
        other: Name::none(),
        first,
        count,
        rights: Rights::make(rights),
        dock: n,
    }
}

// A child of `parent`, with its parent's dock name.
pub fn child(number: u16, parent: Name, first: u16, count: u16, rights: u16, dock: Name) -> Ticket
    ensures { result ≡ grant_ticket Child number parent first count (rights_of rights) dock }
{
    Ticket {
        kind: Kind::Child,
        number,
        own: 0,
        other: parent,
        first,
        count,
        rights: Rights::make(rights),
        dock,
    }
}

// A recall of `target` under the grant `own`.
pub fn recall(number: u16, own: u16, target: Name) -> Ticket
    ensures { result ≡ recall_ticket number own target }
{
    Ticket {
        kind: Kind::Recall,
        number,
        own,
        other: target,
        first: 0,
        count: 0,
        rights: Rights::make(0),
        dock: Name::none(),
    }
}

// The entry of the name n, below its parent.
pub fn entry(n: Name, parent: Name, first: u16, count: u16, rights: u16) -> Entry
    ensures { result ≡ entry_for n parent first count (rights_of rights) }
{
    Entry {
        live: true,
        name: n,
        parent,
        first,
        count,
        rights: Rights::make(rights),
    }
}
