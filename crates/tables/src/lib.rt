// The tables of the pads and of the dock, as records by value, and the small tests and records of these types as code. What the
// tables mean is defined in specs/.

#![tactic(auto)]

ghost use Rattle.std.specs.Prelude.{◌≡◌};
ghost use Rattle.tables.specs.Kinds.{is_live, is_grant, is_head, is_taken, is_received, is_child, is_recall};
ghost use Rattle.tables.specs.Names.{no_name, is_program, free, no_entry};
ghost use Rattle.tables.specs.Lookup.{has_number, is_named};
ghost use Rattle.tables.specs.Chains.{parent_by};

use rights::Rights;

// A ticket is a grant (taken, received or a child) or a recall. A place with no ticket is free. (SADRA, the published capability system that
// document 01 builds on, calls a recall an indicator.)
#[derive(Clone, Copy)]
pub enum Kind {
    Free,
    Taken,
    Received,
    Child,
    Recall,
}

impl Kind {
    pub fn is_live(self) -> bool
        ensures { result ≡ is_live self }
    {
        !matches!(self, Kind::Free)
    }

    pub fn is_grant(self) -> bool
        ensures { result ≡ is_grant self }
    {
        matches!(self, Kind::Taken | Kind::Received | Kind::Child)
    }

    pub fn is_head(self) -> bool
        ensures { result ≡ is_head self }
    {
        matches!(self, Kind::Taken | Kind::Received)
    }

    pub fn is_taken(self) -> bool
        ensures { result ≡ is_taken self }
    {
        matches!(self, Kind::Taken)
    }

    pub fn is_received(self) -> bool
        ensures { result ≡ is_received self }
    {
        matches!(self, Kind::Received)
    }

    pub fn is_child(self) -> bool
        ensures { result ≡ is_child self }
    {
        matches!(self, Kind::Child)
    }

    pub fn is_recall(self) -> bool
        ensures { result ≡ is_recall self }
    {
        matches!(self, Kind::Recall)
    }
}

// Pad, program and ticket number. An entry has the name of the taken or received grant that it was made for.
#[derive(Clone, Copy, PartialEq, Eq)]
pub struct Name {
    pub pad: u16,
    pub program: u16,
    pub number: u16,
}

impl Name {
    // No ticket has the number 0.
    pub fn none() -> Name
        ensures { result ≡ no_name }
    {
        Name {
            pad: 0,
            program: 0,
            number: 0,
        }
    }

    // Does a program of a pad bear it? There are pads 0 to 3, with programs 0 to 7 each.
    #[tactic(auto, unfolding(crate::specs::Names::is_program))]
    pub fn is_of_program(self) -> bool
        ensures { result ≡ is_program self.pad self.program }
    {
        self.pad <= 3 && self.program <= 7
    }
}

// `other` is a child's parent or a recall's target; `own` is the number of the grant that a recall stands under; `dock` is a
// grant's dock name. What a kind does not use says nothing.
#[derive(Clone, Copy)]
pub struct Ticket {
    pub kind: Kind,
    pub number: u16,
    pub own: u16,
    pub other: Name,
    pub first: u16,
    pub count: u16,
    pub rights: Rights,
    pub dock: Name,
}

impl Ticket {
    // What a free place holds.
    pub fn free() -> Ticket
        ensures { result ≡ free }
    {
        let none = Name::none();
        Ticket {
            kind: Kind::Free,
            number: 0,
            own: 0,
            other: none,
            first: 0,
            count: 0,
            rights: Rights { bits: 0 },
            dock: none,
        }
    }

    // The name of the parent of this ticket, which is named n: a child says it, a recall stands in its own program.
    pub fn parent(self, n: Name) -> Name
        ensures { result ≡ parent_by self.kind n self }
    {
        match self.kind {
            Kind::Free | Kind::Taken | Kind::Received => Name::none(),
            Kind::Child => self.other,
            Kind::Recall => Name {
                number: self.own,
                ..n
            },
        }
    }

    // Is it live, and its number that one?
    #[tactic(auto, unfolding(crate::specs::Lookup::has_number))]
    pub fn has_number(self, number: u16) -> bool
        ensures { result ≡ has_number number self }
    {
        self.kind.is_live() && self.number == number
    }
}

// Each program has eight places for tickets, and the last number that it was given.
#[derive(Clone, Copy)]
pub struct Program {
    pub tickets: [Ticket; 8],
    pub last: u16,
}

// What one pad controller holds.
#[derive(Clone, Copy)]
pub struct Pad {
    pub programs: [Program; 8],
}

// A parent with number 0 is the store itself.
#[derive(Clone, Copy)]
pub struct Entry {
    pub live: bool,
    pub name: Name,
    pub parent: Name,
    pub first: u16,
    pub count: u16,
    pub rights: Rights,
}

impl Entry {
    // What a free place of the dock holds.
    pub fn none() -> Entry
        ensures { result ≡ no_entry }
    {
        let none = Name::none();
        Entry {
            live: false,
            name: none,
            parent: none,
            first: 0,
            count: 0,
            rights: Rights { bits: 0 },
        }
    }

    // Is it the live entry of that name? The number is asked first: it tells most entries apart.
    #[tactic(auto, unfolding(crate::specs::Lookup::is_named, crate::specs::Names::eq_name))]
    pub fn is_named(self, n: Name) -> bool
        ensures { result ≡ is_named n self }
    {
        self.name.number == n.number && self.name == n && self.live
    }
}

// What the four pad controllers and the dock controller hold.
#[derive(Clone, Copy)]
pub struct Tables {
    pub pads: [Pad; 4],
    pub entries: [Entry; 256],
}
