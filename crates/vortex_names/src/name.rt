//! Names of fields.

ghost use Rattle.std.specs.Prelude.{◌≡◌, ◌==◌, Some, IfOk, IsOkUnless, IsUtf8, nat_eq};
ghost use Rattle.std.proofs.Common.{rules, refl};
ghost use Rattle.std.specs.String.{string_bytes};
ghost use Rattle.std.specs.Cmp.{partial_equiv_from_equiv};
ghost use Rattle.std.specs.Cmp.Rules.{hashing};
ghost use Rattle.std.specs.Cmp.Lexicographic.{pointwise, slice_cmp, nat_list_eq_equiv};
ghost use Rattle.std.specs.Cmp.Lexicographic.{nat_list_cmp_total, texts_po, texts_ties};
ghost use Rattle.std.specs.Ordering.{nat_cmp};
ghost use Rattle.std.specs.Hash as fed;
ghost use Rattle.std.specs.Fmt.{debug_str};

use crate::error::DTypeError;
use std::alloc::Global;
use std::cmp::Ordering;
use std::fmt;
use std::hash::{Hash, Hasher};
use std::marker::Model;

/// The name of a field of a struct. Contracts see it as its text.
#[derive(Drop)]
pub struct FieldName {
    text: String,
}

impl Model for FieldName {
    ghost use Rattle.std.specs.Prelude.{ℕ, List};
    ghost use Rattle.std.specs.String.{string_bytes};

    ghost Value = { List ℕ };

    ghost view = { λ n. string_bytes n.text };
}

impl FieldName {
    /// The name of this text.
    pub fn from_text(alloc: Global, text: &str) -> Result<FieldName, DTypeError>
        ensures name { IfOk result (λ n. n ≡ text.now) }
        ensures memory { IsOkUnless result DTypeError.OutOfMemory }
    {
        let text = String::from_str(alloc, text)?;
        Ok(FieldName { text })
    }

    /// An equal name.
    pub fn try_clone(&self, alloc: Global) -> Result<FieldName, DTypeError>
        ensures name { IfOk result (λ n. n ≡ self.now) }
        ensures memory { IsOkUnless result DTypeError.OutOfMemory }
    {
        FieldName::from_text(alloc, self.as_str())
    }

    /// The text is UTF-8. It does nothing when the program runs.
    pub fn law(&self)
        ensures { IsUtf8 self.now }
    {
        let _ = self.as_str();
    }

    /// The text, as it is kept.
    pub fn inner(&self) -> &String
        ensures { string_bytes result.now ≡ self.now }
    {
        &self.text
    }

    /// The text.
    pub fn as_str(&self) -> &str
        ensures text { result.now ≡ self.now }
        ensures utf8 { IsUtf8 self.now }
    {
        self.text.as_str()
    }

    /// A copy of the text.
    pub fn to_text(&self, alloc: Global) -> Result<String, DTypeError>
        ensures text { IfOk result (λ t. string_bytes t ≡ self.now) }
        ensures memory { IsOkUnless result DTypeError.OutOfMemory }
    {
        let text = String::from_str(alloc, self.as_str())?;
        Ok(text)
    }

    /// Whether the name is this text.
    pub fn eq_str(&self, text: &str) -> bool
        ensures { result ≡ pointwise nat_eq self.now text.now }
    {
        self.as_str() == text
    }

    /// Whether the name is this text.
    pub fn eq_string(&self, text: &String) -> bool
        ensures { result ≡ pointwise nat_eq self.now (string_bytes text.now) }
    {
        self.as_str() == text.as_str()
    }
}

impl PartialEq for FieldName {
    ghost eq = { pointwise nat_eq };

    ghost laws = { partial_equiv_from_equiv nat_list_eq_equiv };

    fn eq(&self, other: &FieldName) -> bool {
        self.as_str() == other.as_str()
    }
}

impl Eq for FieldName {
    ghost laws = { nat_list_eq_equiv };
}

impl PartialOrd for FieldName {
    ghost partial_cmp = { λ a b. Some (slice_cmp nat_cmp a b) };

    ghost laws = { texts_po };

    fn partial_cmp(&self, other: &FieldName) -> Option<Ordering> {
        Some(self.cmp(other))
    }
}

impl Ord for FieldName {
    ghost cmp = { slice_cmp nat_cmp };

    ghost total = { nat_list_cmp_total };

    ghost matches_partial_cmp = { λ a b. refl };

    ghost matches_eq = { texts_ties };

    fn cmp(&self, other: &FieldName) -> Ordering {
        self.as_str().cmp(other.as_str())
    }
}

impl Hash for FieldName {
    ghost hash_input = { fed.str };

    ghost respects_eq = { Prim.search (hashing, rules) };

    fn hash<H: Hasher>(&self, state: &mut H) {
        self.as_str().hash(state);
    }
}

impl fmt::Display for FieldName {
    ghost output = { λ n. Some n };

    ghost styled_output = { λ n _. Some n };

    fn fmt<W: fmt::Write>(&self, f: &mut fmt::Formatter<W>) -> fmt::Result {
        f.write_str(self.as_str())
    }
}

impl fmt::Debug for FieldName {
    ghost debug_output = { debug_str };

    fn fmt<W: fmt::Write>(&self, f: &mut fmt::Formatter<W>) -> fmt::Result {
        fmt::Debug::fmt(self.as_str(), f)
    }
}
