//! Lists of names.

ghost use Rattle.std.specs.Prelude.{◌≡◌, ◌<◌, [], length, map, slice_get, nat_eq, Some, IfOk};
ghost use Rattle.std.specs.Prelude.{IfSome, IsOkUnless, IsUtf8};
ghost use Rattle.std.specs.Option.{option_copied};
ghost use Rattle.std.specs.List.{All};
ghost use Rattle.std.proofs.Common.{rules};
ghost use Rattle.std.specs.Cmp.Rules.{comparing};
ghost use Rattle.std.specs.Cmp.Lexicographic.{pointwise, bytes_decides};
ghost use Rattle.std.specs.Hash as fed;
ghost use Rattle.std.specs.Iterator.{YieldsFirst, YieldsFirstRef, UpTo, at_most, item_count};
ghost use Rattle.std.specs.Iterator.SizeHint.{IsWithinCount};
ghost use Rattle.std.specs.Fmt.{debug_list, debug_str};
ghost use Rattle.vortex_names.specs.Names.{names_text};

use crate::error::DTypeError;
use crate::name::FieldName;
use std::alloc::Global;
use std::fmt;
use std::hash::{Hash, Hasher};
use std::marker::Model;
use std::ops::Index;
use std::vec::IntoIter;

/// The names of the fields of a struct, in order. Contracts see them as the list of their texts.
#[derive(Drop)]
pub struct FieldNames {
    // None stands for no names, since those need no allocator.
    names: Option<Vec<FieldName>>,
}

impl Model for FieldNames {
    ghost use Rattle.std.specs.Prelude.{ℕ, List};
    ghost use Rattle.vortex_names.specs.inner.Kept.{kept};

    ghost Value = { List (List ℕ) };

    ghost view = { λ n. kept n.names };
}

impl FieldNames {
    /// No names.
    pub fn empty() -> FieldNames
        ensures { result ≡ [] }
    {
        FieldNames { names: None }
    }

    /// The names of these texts.
    pub fn from_texts(alloc: Global, texts: &[&str]) -> Result<FieldNames, DTypeError>
        ensures names { IfOk result (λ n. n ≡ map (λ t. t.now) texts.now) }
        ensures memory { IsOkUnless result DTypeError.OutOfMemory }
    {
        let mut names = Vec::new(alloc);
        for text in texts {
            names.push(FieldName::from_text(alloc, text)?)?;
        }
        Ok(FieldNames { names: Some(names) })
    }

    /// The list of these names.
    pub fn from_names(_alloc: Global, names: Vec<FieldName>) -> Result<FieldNames, DTypeError>
        ensures names { IfOk result (λ n. n ≡ names.items) }
        ensures memory { IsOkUnless result DTypeError.OutOfMemory }
    {
        Ok(FieldNames { names: Some(names) })
    }

    /// Equal names.
    pub fn try_clone(&self, alloc: Global) -> Result<FieldNames, DTypeError>
        ensures names { IfOk result (λ n. n ≡ self.now) }
        ensures memory { IsOkUnless result DTypeError.OutOfMemory }
    {
        let mut names = Vec::new(alloc);
        for name in self.as_slice() {
            names.push(name.try_clone(alloc)?)?;
        }
        Ok(FieldNames { names: Some(names) })
    }

    /// The names as a slice.
    pub fn as_slice(&self) -> &[FieldName]
        ensures { result.now ≡ self.now }
    {
        match &self.names {
            Some(names) => names.as_slice(),
            None => &[],
        }
    }

    /// Each name is UTF-8. It does nothing when the program runs.
    pub fn law(&self)
        ensures { All IsUtf8 self.now }
    {
        let names = self.as_slice();
        for name in names {
            name.law();
        }
    }

    /// How many names there are.
    pub fn len(&self) -> usize
        ensures { result ≡ length self.now }
    {
        self.as_slice().len()
    }

    /// Whether there are none.
    pub fn is_empty(&self) -> bool
        ensures { result ≡ nat_eq (length self.now) 0 }
    {
        self.len() == 0
    }

    /// The names one after the other.
    pub fn iter(&self) -> FieldNamesIter<'_>
        ensures { result ≡ self.now }
    {
        FieldNamesIter {
            left: self.as_slice(),
        }
    }

    /// The name at an index.
    pub fn get(&self, index: usize) -> Option<&FieldName>
        ensures { option_copied result ≡ slice_get self.now index }
    {
        self.as_slice().get(index)
    }

    /// Whether these are the names.
    pub fn eq_slice(&self, names: &[FieldName]) -> bool
        ensures { result ≡ pointwise (pointwise nat_eq) self.now names.now }
    {
        self.as_slice() == names
    }

    /// Whether the names have these texts.
    pub fn eq_texts(&self, texts: &[&str]) -> bool
        ensures { result ≡ pointwise (pointwise nat_eq) self.now (map (λ t. t.now) texts.now) }
    {
        let names = self.as_slice();
        if names.len() != texts.len() {
            return false;
        }
        for i in 0..names.len() {
            if !names[i].eq_str(texts[i]) {
                return false;
            }
        }
        true
    }
}

impl Index<usize> for FieldNames {
    type Output = FieldName;

    ghost can_index = { λ names i. i < length names };

    ghost index_gives = { λ names i name. slice_get names i ≡ Some name };

    fn index(&self, index: usize) -> &FieldName {
        &self.as_slice()[index]
    }
}

impl PartialEq for FieldNames {
    ghost eq = { pointwise (pointwise nat_eq) };

    ghost laws = { Prim.search (comparing, rules) };

    fn eq(&self, other: &FieldNames) -> bool {
        self.as_slice() == other.as_slice()
    }
}

impl Eq for FieldNames {
    ghost laws = { Prim.search (comparing, rules) };
}

impl Hash for FieldNames {
    ghost hash_input = { fed.slice fed.str };

    ghost respects_eq = { (fed.items_Alike (fed.same_Alike fed.str bytes_decides)).fed };

    fn hash<H: Hasher>(&self, state: &mut H) {
        self.as_slice().hash(state);
    }
}

impl fmt::Display for FieldNames {
    ghost output = { λ n. Some (names_text n) };

    fn fmt<W: fmt::Write>(&self, f: &mut fmt::Formatter<W>) -> fmt::Result {
        match self.as_slice() {
            [] => f.write_str("[]"),
            [first, others @ ..] => {
                write!(f, "[\"{first}\"")?;
                for name in others {
                    write!(f, ", \"{name}\"")?;
                }
                f.write_str("]")
            }
        }
    }
}

impl fmt::Debug for FieldNames {
    ghost debug_output = { debug_list debug_str };

    fn fmt<W: fmt::Write>(&self, f: &mut fmt::Formatter<W>) -> fmt::Result {
        fmt::Debug::fmt(self.as_slice(), f)
    }
}

impl IntoIterator for FieldNames {
    type Item = FieldName;

    type IntoIter = FieldNamesIntoIter;

    ghost into_iter_gives = { λ names it. it ≡ names };

    fn into_iter(self) -> FieldNamesIntoIter {
        let FieldNames { names } = self;
        FieldNamesIntoIter {
            left: names.map(|names| names.into_iter()),
        }
    }
}

/// The names that are left, one after the other. Contracts see it as the list of them.
#[derive(Drop)]
pub struct FieldNamesIter<'a> {
    left: &'a [FieldName],
}

impl<'a> Model for FieldNamesIter<'a> {
    ghost use Rattle.std.specs.Prelude.{ℕ, List};

    ghost Value = { List (List ℕ) };

    ghost view = { λ it. it.left.now };
}

impl<'a> Iterator for FieldNamesIter<'a> {
    type Item = &'a FieldName;

    ghost next_gives = { YieldsFirstRef (λ left. left) };

    ghost remaining = { item_count (λ left. left) };

    fn next(&mut self) -> Option<&'a FieldName> {
        let (first, left) = self.left.split_first()?;
        self.left = left;
        Some(first)
    }

    fn size_hint(&self) -> (usize, Option<usize>)
        ensures lower { IsWithinCount result.0 (at_most (length self.now)) }
        ensures upper { IfSome result.1 (UpTo (at_most (length self.now))) }
        ensures exact { result ≡ (length self.now, Some (length self.now)) }
    {
        let len = self.len();
        (len, Some(len))
    }
}

impl<'a> ExactSizeIterator for FieldNamesIter<'a> {
    fn len(&self) -> usize {
        self.left.len()
    }
}

/// The names that are left, each given away. Contracts see it as the list of them.
#[derive(Drop)]
pub struct FieldNamesIntoIter {
    left: Option<IntoIter<FieldName>>,
}

impl Model for FieldNamesIntoIter {
    ghost use Rattle.std.specs.Prelude.{ℕ, List};
    ghost use Rattle.vortex_names.specs.inner.Kept.{still_kept};

    ghost Value = { List (List ℕ) };

    ghost view = { λ it. still_kept it.left };
}

impl Iterator for FieldNamesIntoIter {
    type Item = FieldName;

    ghost next_gives = { YieldsFirst (λ left. left) };

    ghost remaining = { item_count (λ left. left) };

    fn next(&mut self) -> Option<FieldName> {
        match &mut self.left {
            Some(names) => names.next(),
            None => None,
        }
    }

    fn size_hint(&self) -> (usize, Option<usize>)
        ensures lower { IsWithinCount result.0 (at_most (length self.now)) }
        ensures upper { IfSome result.1 (UpTo (at_most (length self.now))) }
        ensures exact { result ≡ (length self.now, Some (length self.now)) }
    {
        let len = self.len();
        (len, Some(len))
    }
}

impl ExactSizeIterator for FieldNamesIntoIter {
    fn len(&self) -> usize {
        match &self.left {
            Some(names) => names.len(),
            None => 0,
        }
    }
}
