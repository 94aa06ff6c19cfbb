//! Comparisons and hash, which look at the bytes alone.
ghost use Rattle.std.specs.Prelude.{nat_eq, Some};
ghost use Rattle.std.specs.Ordering.{nat_cmp, on};
ghost use Rattle.std.specs.Hash as fed;
ghost use Rattle.std.specs.Fmt.{decimal, debug_list};
ghost use Rattle.std.specs.Cmp.Lexicographic.{pointwise, slice_cmp};
ghost use Rattle.std.specs.Cmp.Rules.{comparing, hashing};
ghost use Rattle.std.proofs.Common.{rules};
ghost use Rattle.std.specs.Cmp.{partial_order_from_own_ties};
ghost use Rattle.std.specs.Ordering.{as_partial_cmp};

use super::ByteBuffer;
use std::cmp::Ordering;
use std::fmt;
use std::hash::{Hash, Hasher};

impl PartialEq for ByteBuffer {
    ghost eq = { on (λ b. b.bytes) (pointwise nat_eq) };

    ghost laws = { Prim.search (comparing, rules) };

    fn eq(&self, other: &ByteBuffer) -> bool {
        self.as_slice() == other.as_slice()
    }
}

impl Eq for ByteBuffer {
    ghost laws = { Prim.search (comparing, rules) };
}

impl PartialOrd for ByteBuffer {
    ghost partial_cmp = { as_partial_cmp (on (λ b. b.bytes) (slice_cmp nat_cmp)) };

    ghost laws = { partial_order_from_own_ties
        (Prim.search (comparing, rules)) (Prim.search (comparing, rules)) };

    fn partial_cmp(&self, other: &ByteBuffer) -> Option<Ordering> {
        Some(self.cmp(other))
    }
}

impl Ord for ByteBuffer {
    ghost cmp = { on (λ b. b.bytes) (slice_cmp nat_cmp) };

    ghost total = { Prim.search (comparing, rules) };

    ghost matches_partial_cmp = { Prim.search (comparing, rules) };

    ghost matches_eq = { Prim.search (comparing, rules) };

    fn cmp(&self, other: &ByteBuffer) -> Ordering {
        self.as_slice().cmp(other.as_slice())
    }
}

impl Hash for ByteBuffer {
    ghost hash_input = { λ b. fed.slice fed.u8 b.bytes };

    ghost respects_eq = { Prim.search (hashing, rules) };

    fn hash<H: Hasher>(&self, state: &mut H) {
        self.as_slice().hash(state);
    }
}

impl fmt::Debug for ByteBuffer {
    ghost debug_output = { λ b. debug_list (λ n. Some (decimal n)) b.bytes };

    fn fmt<W: fmt::Write>(&self, f: &mut fmt::Formatter<W>) -> fmt::Result {
        self.as_slice().fmt(f)
    }
}
