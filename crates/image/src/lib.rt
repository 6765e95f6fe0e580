// The image of the tables: the layout's numbers in code. What the image is stands in specs/: Layout, Numbers, Image.

#![tactic(auto)]

// ---- a ticket

pub const TICKET_KIND: usize = 0;

pub const TICKET_NUMBER: usize = 2;

pub const TICKET_OWN: usize = 4;

pub const TICKET_OTHER: usize = 6;

pub const TICKET_FIRST: usize = 12;

pub const TICKET_COUNT: usize = 14;

pub const TICKET_RIGHTS: usize = 16;

pub const TICKET_DOCK: usize = 18;

pub const TICKET: usize = 24;

// ---- a program

pub const PROGRAM_LAST: usize = 192;

pub const PROGRAM: usize = 194;

// ---- an entry

pub const ENTRY_LIVE: usize = 0;

pub const ENTRY_NAME: usize = 2;

pub const ENTRY_PARENT: usize = 8;

pub const ENTRY_FIRST: usize = 14;

pub const ENTRY_COUNT: usize = 16;

pub const ENTRY_RIGHTS: usize = 18;

pub const ENTRY: usize = 20;

// ---- the whole

pub const ENTRIES: usize = 6208;

pub const IMAGE: usize = 11328;

// The tables as bytes, in memory that a host lends.
pub type Image = [u8; IMAGE];
