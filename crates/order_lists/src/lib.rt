// Lists of places for the order test: of taken grants, children and recalls, and of entries under the store and under others.
// They are made once, so that each later test looks only at what it is about. Here is what a listing is, and how it grows.

#![tactic(auto)]

ghost use Rattle.std.specs.Prelude.{◌≡◌};
ghost use Rattle.order_lists.specs.Listing.{is_root, is_hung};

use tables::Entry;

pub fn is_root(e: Entry) -> bool
    ensures { result ≡ is_root e }
{
    e.live && e.parent.number == 0
}

pub fn is_hung(e: Entry) -> bool
    ensures { result ≡ is_hung e }
{
    e.live && e.parent.number != 0
}
