//! Ids and metadata of extension types.

ghost use Rattle.std.specs.Prelude.{◌≡◌, Some, IfOk, IsOkUnless, IsUtf8, nat_eq};
ghost use Rattle.std.proofs.Common.{rules, refl};
ghost use Rattle.std.specs.Cmp.{partial_equiv_from_equiv};
ghost use Rattle.std.specs.Cmp.Rules.{hashing};
ghost use Rattle.std.specs.Cmp.Lexicographic.{pointwise, slice_cmp, nat_list_eq_equiv};
ghost use Rattle.std.specs.Cmp.Lexicographic.{nat_list_cmp_total, texts_po, texts_ties};
ghost use Rattle.std.specs.Ordering.{nat_cmp};
ghost use Rattle.std.specs.Hash as fed;
ghost use Rattle.std.specs.Fmt.{decimal, debug_list, debug_str};
ghost use Rattle.vortex_terms.specs.Types.{IsBytes};

use crate::error::DTypeError;
use std::alloc::Global;
use std::cmp::Ordering;
use std::fmt;
use std::hash::{Hash, Hasher};
use std::marker::Model;

/// The id of an extension type. Contracts see it as its text.
#[derive(Drop)]
pub struct ExtID {
    text: String,
}

impl Model for ExtID {
    ghost use Rattle.std.specs.Prelude.{ℕ, List};
    ghost use Rattle.std.specs.String.{string_bytes};

    ghost Value = { List ℕ };

    ghost view = { λ n. string_bytes n.text };
}

impl ExtID {
    /// The id of this text.
    pub fn from_text(alloc: Global, text: &str) -> Result<ExtID, DTypeError>
        ensures id { IfOk result (λ n. n ≡ text.now) }
        ensures memory { IsOkUnless result DTypeError.OutOfMemory }
    {
        let text = String::from_str(alloc, text)?;
        Ok(ExtID { text })
    }

    /// An equal id.
    pub fn try_clone(&self, alloc: Global) -> Result<ExtID, DTypeError>
        ensures id { IfOk result (λ n. n ≡ self.now) }
        ensures memory { IsOkUnless result DTypeError.OutOfMemory }
    {
        ExtID::from_text(alloc, self.as_str())
    }

    /// The text is UTF-8. It does nothing when the program runs.
    pub fn law(&self)
        ensures { IsUtf8 self.now }
    {
        let _ = self.as_str();
    }

    /// The text.
    pub fn as_str(&self) -> &str
        ensures text { result.now ≡ self.now }
        ensures utf8 { IsUtf8 self.now }
    {
        self.text.as_str()
    }
}

impl PartialEq for ExtID {
    ghost eq = { pointwise nat_eq };

    ghost laws = { partial_equiv_from_equiv nat_list_eq_equiv };

    fn eq(&self, other: &ExtID) -> bool {
        self.as_str() == other.as_str()
    }
}

impl Eq for ExtID {
    ghost laws = { nat_list_eq_equiv };
}

impl PartialOrd for ExtID {
    ghost partial_cmp = { λ a b. Some (slice_cmp nat_cmp a b) };

    ghost laws = { texts_po };

    fn partial_cmp(&self, other: &ExtID) -> Option<Ordering> {
        Some(self.cmp(other))
    }
}

impl Ord for ExtID {
    ghost cmp = { slice_cmp nat_cmp };

    ghost total = { nat_list_cmp_total };

    ghost matches_partial_cmp = { λ a b. refl };

    ghost matches_eq = { texts_ties };

    fn cmp(&self, other: &ExtID) -> Ordering {
        self.as_str().cmp(other.as_str())
    }
}

impl Hash for ExtID {
    ghost hash_input = { fed.str };

    ghost respects_eq = { Prim.search (hashing, rules) };

    fn hash<H: Hasher>(&self, state: &mut H) {
        self.as_str().hash(state);
    }
}

impl fmt::Display for ExtID {
    ghost output = { λ n. Some n };

    ghost styled_output = { λ n _. Some n };

    fn fmt<W: fmt::Write>(&self, f: &mut fmt::Formatter<W>) -> fmt::Result {
        f.write_str(self.as_str())
    }
}

impl fmt::Debug for ExtID {
    ghost debug_output = { debug_str };

    fn fmt<W: fmt::Write>(&self, f: &mut fmt::Formatter<W>) -> fmt::Result {
        fmt::Debug::fmt(self.as_str(), f)
    }
}

/// The metadata of an extension type. Contracts see it as its bytes.
#[derive(Drop)]
pub struct ExtMetadata {
    bytes: Vec<u8>,
}

impl Model for ExtMetadata {
    ghost use Rattle.std.specs.Prelude.{ℕ, List};

    ghost Value = { List ℕ };

    ghost view = { λ m. m.bytes.items };
}

impl ExtMetadata {
    /// The metadata of these bytes.
    pub fn from_slice(alloc: Global, bytes: &[u8]) -> Result<ExtMetadata, DTypeError>
        ensures metadata { IfOk result (λ m. m ≡ bytes.now) }
        ensures memory { IsOkUnless result DTypeError.OutOfMemory }
    {
        let bytes = Vec::from_slice(alloc, bytes)?;
        Ok(ExtMetadata { bytes })
    }

    /// Equal metadata.
    pub fn try_clone(&self, alloc: Global) -> Result<ExtMetadata, DTypeError>
        ensures metadata { IfOk result (λ m. m ≡ self.now) }
        ensures memory { IsOkUnless result DTypeError.OutOfMemory }
    {
        ExtMetadata::from_slice(alloc, self.as_slice())
    }

    /// Each number is below 256. It does nothing when the program runs.
    pub fn law(&self)
        ensures { IsBytes self.now }
    {
        are_bytes(self.bytes.as_slice());
    }

    /// The bytes.
    pub fn as_slice(&self) -> &[u8]
        ensures { result.now ≡ self.now }
    {
        self.bytes.as_slice()
    }
}

// Each element is below 256.
fn are_bytes(bytes: &[u8])
    ensures { IsBytes bytes.now }
{
    let _ = bytes.len();
}

impl PartialEq for ExtMetadata {
    ghost eq = { pointwise nat_eq };

    ghost laws = { partial_equiv_from_equiv nat_list_eq_equiv };

    fn eq(&self, other: &ExtMetadata) -> bool {
        self.as_slice() == other.as_slice()
    }
}

impl Eq for ExtMetadata {
    ghost laws = { nat_list_eq_equiv };
}

impl PartialOrd for ExtMetadata {
    ghost partial_cmp = { λ a b. Some (slice_cmp nat_cmp a b) };

    ghost laws = { texts_po };

    fn partial_cmp(&self, other: &ExtMetadata) -> Option<Ordering> {
        Some(self.as_slice().cmp(other.as_slice()))
    }
}

impl Hash for ExtMetadata {
    ghost hash_input = { fed.slice fed.u8 };

    ghost respects_eq = { Prim.search (hashing, rules) };

    fn hash<H: Hasher>(&self, state: &mut H) {
        self.as_slice().hash(state);
    }
}

impl fmt::Debug for ExtMetadata {
    ghost debug_output = { λ m. debug_list (λ n. Some (decimal n)) m };

    fn fmt<W: fmt::Write>(&self, f: &mut fmt::Formatter<W>) -> fmt::Result {
        fmt::Debug::fmt(self.as_slice(), f)
    }
}
