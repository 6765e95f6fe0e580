// Chains of parents on a pad, walked by name in the image: the links that lead to the head of a chain.

#![tactic(auto)]

ghost use Rattle.std.specs.Prelude.{◌≡◌};
ghost use Rattle.tables.specs.Lookup.{lookup};
ghost use Rattle.tables.specs.Chains.{chain_links};
ghost use Rattle.image.specs.Image.{decode};

use image::Image;
use image_places::PAD;
use tables::{Name, Ticket};

// The links from the ticket k, which is named n, to the head of its chain. The ticket is at hand, so that a head's none cost no search.
#[tactic(auto, using(crate::proofs::Walk::none_counted, crate::proofs::Walk::one_more))]
pub fn links(image: &Image, n: Name, k: Ticket) -> u16
    requires { lookup (decode image.now) n ≡ k }
    ensures { result ≡ chain_links (decode image.now) n }
{
    let mut up = k.parent(n);
    for count in 0..PAD {
        if up.number == 0 {
            return count as u16;
        }
        up = image_find::ticket(image, up).parent(up);
    }
    PAD as u16
}
