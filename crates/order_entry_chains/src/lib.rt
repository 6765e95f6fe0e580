// Does every chain of parents end? Asked of parents by places, 256 of them, a chain at a time; no link is followed twice.

#![tactic(auto)]

ghost use Rattle.std.specs.Prelude.{◌≡◌, ◌<◌};
ghost use Rattle.order_lists.specs.Listing.{AllBelow};
ghost use Rattle.order_entry_chains.specs.Ends.{Settled, LinksListed, all_end};

// Does the chain from a place end? Its links are cut behind the walk, so that no link is followed twice.
#[tactic(auto, using(crate::proofs::Settling::out_of_places, crate::proofs::Settling::at_end, crate::proofs::Settling::no_end, crate::proofs::Settling::cut_behind))]
fn settle(up: &mut [u16; 256], at: usize, left: usize) -> bool
    requires { at < 256 }
    ensures { Settled up.old up.new at left result }
{
    if left == 0 {
        return false;
    }
    let next = up[at];
    if 256 <= next {
        return true;
    }
    if !settle(up, usize::from(next), left - 1) {
        return false;
    }
    up[at] = 256;
    true
}

// Every chain of parents ends: those from the listed places, which all links are among. What was found to end is cut off.
#[tactic(auto, using(crate::proofs::Settling::walked_bad, crate::proofs::Settling::walked_skip, crate::proofs::Settling::walked_more))]
pub fn chains_end(up: &mut [u16; 256], hung: &[u16]) -> bool
    requires { AllBelow 256 hung.now × LinksListed up.old hung.now }
    ensures { result ≡ all_end up.old }
{
    for &at in hung {
        let at = usize::from(at);
        if up[at] < 256 && !settle(up, at, 256) {
            return false;
        }
    }
    true
}
