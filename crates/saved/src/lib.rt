// The tables as text: what saving writes and what loading reads (document 02, 4/13). Here are only definitions, what is claimed of them, and
// texts that were computed by them.

#![tactic(auto)]

use tables::Name;

// A line's columns. `other` is a child's parent, a recall's target or an entry's parent; `own` is the number of a recall's grant.
#[derive(Clone, Copy)]
pub struct Row {
    pub kind: u16,
    pub pad: u16,
    pub program: u16,
    pub number: u16,
    pub own: u16,
    pub other: Name,
    pub first: u16,
    pub count: u16,
    pub rights: u16,
}
