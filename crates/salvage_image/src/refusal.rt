// Document 02, request 12: what is refused.
ghost use Rattle.std.specs.Prelude.{◌≡◌};
ghost use Rattle.salvage_image.specs.Salvage.{salvageable};

use image::{count_of, version_of};

const MOST_OCTETS: usize = 1794;

const MOST_ENTRIES: u8 = 32;

#[tactic(auto, unfolding(crate::specs::Salvage::salvageable))]
pub fn salvageable(x: &[u8]) -> bool
    ensures { result ≡ salvageable x.now }
{
    let version = version_of(x);
    (2..=MOST_OCTETS).contains(&x.len())
        & ((version == 1) | (version == 2))
        & (count_of(x) <= MOST_ENTRIES)
}
