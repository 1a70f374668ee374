ghost use Rattle.std.specs.Prelude.{◌≡◌};
ghost use Rattle.lk_region.specs.Chains.{hash_of};

use std::hash::{FoldHasher, Hasher};

// 64 bits that stand for a text. Other texts may have the same, so a text that is found by them is compared.
#[tactic(auto, unfolding(crate::specs::Chains::hash_of))]
pub(crate) fn hash_of(text: &[u8]) -> u64
    ensures { result ≡ hash_of text.now }
{
    let mut hasher = FoldHasher::default();
    hasher.write(text);
    hasher.finish()
}
