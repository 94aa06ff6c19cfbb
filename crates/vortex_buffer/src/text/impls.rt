//! Comparisons, hash and text.
ghost use Rattle.std.specs.Prelude.{nat_eq, Some};
ghost use Rattle.std.specs.Ordering.{nat_cmp, on};
ghost use Rattle.std.specs.Hash as fed;
ghost use Rattle.std.specs.Fmt.{debug_str};
ghost use Rattle.std.specs.Cmp.Lexicographic.{pointwise, slice_cmp};
ghost use Rattle.std.specs.Cmp.Rules.{comparing, hashing};
ghost use Rattle.std.proofs.Common.{rules};
ghost use Rattle.std.specs.Cmp.{partial_order_from_own_ties};
ghost use Rattle.std.specs.Ordering.{as_partial_cmp};

use super::BufferString;
use std::cmp::Ordering;
use std::fmt;
use std::hash::{Hash, Hasher};

impl PartialEq for BufferString {
    ghost eq = { on (λ b. b.bytes) (pointwise nat_eq) };

    ghost laws = { Prim.search (comparing, rules) };

    fn eq(&self, other: &BufferString) -> bool {
        self.as_str() == other.as_str()
    }
}

impl Eq for BufferString {
    ghost laws = { Prim.search (comparing, rules) };
}

impl PartialOrd for BufferString {
    ghost partial_cmp = { as_partial_cmp (on (λ b. b.bytes) (slice_cmp nat_cmp)) };

    ghost laws = { partial_order_from_own_ties
        (Prim.search (comparing, rules)) (Prim.search (comparing, rules)) };

    fn partial_cmp(&self, other: &BufferString) -> Option<Ordering> {
        Some(self.cmp(other))
    }
}

impl Ord for BufferString {
    ghost cmp = { on (λ b. b.bytes) (slice_cmp nat_cmp) };

    ghost total = { Prim.search (comparing, rules) };

    ghost matches_partial_cmp = { Prim.search (comparing, rules) };

    ghost matches_eq = { Prim.search (comparing, rules) };

    fn cmp(&self, other: &BufferString) -> Ordering {
        self.as_str().cmp(other.as_str())
    }
}

impl Hash for BufferString {
    ghost hash_input = { λ b. fed.str b.bytes };

    ghost respects_eq = { Prim.search (hashing, rules) };

    fn hash<H: Hasher>(&self, state: &mut H) {
        self.as_str().hash(state);
    }
}

impl fmt::Debug for BufferString {
    ghost debug_output = { λ s. debug_str s.bytes };

    fn fmt<W: fmt::Write>(&self, f: &mut fmt::Formatter<W>) -> fmt::Result {
        self.as_str().fmt(f)
    }
}
