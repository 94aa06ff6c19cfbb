//! Hash functions of keys.

ghost use Rattle.std.specs.Prelude.{◌≡◌, ℕ, List, Option};
ghost use Rattle.std.specs.Option.{option_map};
ghost use Rattle.vortex_codes.specs.Hash.{fnv, fnv_of};

/// A hash function of keys: its answer is a function of the hasher and the key.
pub trait KeyHash {
    /// The hash of each key.
    ghost hash_of: { Self → Option (List ℕ) → ℕ };

    fn hash(&self, key: Option<&[u8]>) -> u64
        ensures { result ≡ hash_of self.now (option_map (λ k. k.now) key.entry) };
}

/// FNV-1a of the bytes, and 0 of null.
#[derive(Clone, Copy)]
pub struct BytesHash;

#[inline(always)]
fn fnv_over(start: u64, bytes: &[u8]) -> u64
    ensures { result ≡ fnv start bytes.now }
{
    let mut hash = start;
    for byte in bytes {
        hash = (hash ^ u64::from(*byte)).wrapping_mul(1_099_511_628_211);
    }
    hash
}

impl KeyHash for BytesHash {
    ghost hash_of = { λ s key. fnv_of key };

    #[tactic(auto, unfolding(crate::specs::Hash::fnv_of))]
    fn hash(&self, key: Option<&[u8]>) -> u64 {
        match key {
            Some(bytes) => fnv_over(14_695_981_039_346_656_037, bytes),
            None => 0,
        }
    }
}
