//! Paths into a type.

ghost use Rattle.std.specs.Prelude.{◌≡◌, [], ◌∷◌, ◌++◌, length, nat_eq, ◌||◌, true, false, Some};
ghost use Rattle.std.specs.Prelude.{is_some};
ghost use Rattle.std.specs.Prelude.{IfOk, IsOkUnless};
ghost use Rattle.std.specs.Cmp.{partial_equiv_from_equiv};
ghost use Rattle.std.specs.Option.{option_copied, option_map, option_map_or};
ghost use Rattle.std.specs.Str.{bytes_eq};
ghost use Rattle.vortex_terms.specs.Path.{by_name, element, path_part_eq, resolved, step_type};
ghost use Rattle.vortex_terms.specs.Types.{place_of};
ghost use Rattle.vortex_names.specs.Selectors.{name_of};
ghost use Rattle.vortex_types.specs.DTypes.{term_of};
ghost use Rattle.vortex_dtype.specs.Paths.{part_of, parts_of, is_named_part, first_part};
ghost use Rattle.vortex_dtype.specs.Paths.{without_first};
ghost use Rattle.vortex_dtype.specs.Paths.{path_eq, path_text, path_writes};
ghost use Rattle.vortex_dtype.specs.PathLaws.{path_alike, path_equivalence};
ghost use Rattle.vortex_types.specs.Accessors.{fields_of};
ghost use Rattle.vortex_types.specs.TypeRefs.{ref_term};

use std::alloc::Global;
use std::fmt;
use std::hash::{Hash, Hasher};
use std::marker::Model;
use vortex_names::{DTypeError, Field};
use vortex_types::{DType, TypeRef};

/// The number of the kind of lists of any length.
const LIST: u8 = 8;

/// The number of the kind of lists of one length.
const FIXED_SIZE_LIST: u8 = 10;

/// The steps from a type to a type inside it. Contracts see them as a list.
///
/// A path of no steps leads to the type itself, the root.
#[derive(Drop)]
pub struct FieldPath {
    // None stands for no steps, since those need no allocator.
    parts: Option<Vec<Field>>,
}

impl Model for FieldPath {
    ghost use Rattle.std.specs.Prelude.{List};
    ghost use Rattle.std.specs.Coded.{coded_list};
    ghost use Rattle.vortex_terms.specs.Path.{PathPart};
    ghost use Rattle.vortex_terms.specs.RowCode.{coded_path_part};
    ghost use Rattle.vortex_dtype.specs.Paths.{kept_parts};

    ghost Value = { List PathPart };

    ghost coded = { coded_list coded_path_part };

    ghost view = { λ p. kept_parts p.parts };
}

impl FieldPath {
    /// The path of no steps.
    pub fn root() -> FieldPath
        ensures { result ≡ [] }
    {
        FieldPath { parts: None }
    }

    /// The path of one step.
    pub fn from_name(alloc: Global, field: Field) -> Result<FieldPath, DTypeError>
        ensures path { IfOk result (λ p. p ≡ part_of field ∷ []) }
        ensures memory { IsOkUnless result DTypeError.OutOfMemory }
    {
        FieldPath::root().push(alloc, field)
    }

    /// The path of these steps.
    pub fn from_fields(fields: Vec<Field>) -> FieldPath
        ensures { result ≡ parts_of fields.items }
    {
        FieldPath {
            parts: Some(fields),
        }
    }

    /// The steps.
    pub fn parts(&self) -> &[Field]
        ensures { parts_of result.now ≡ self.now }
    {
        match &self.parts {
            Some(parts) => parts.as_slice(),
            None => &[],
        }
    }

    /// Whether there is no step.
    pub fn is_root(&self) -> bool
        ensures { result ≡ nat_eq (length self.now) 0 }
    {
        self.parts().is_empty()
    }

    /// The path with one more step at its end.
    pub fn push(self, alloc: Global, field: Field) -> Result<FieldPath, DTypeError>
        ensures path { IfOk result (λ p. p ≡ self ++ part_of field ∷ []) }
        ensures memory { IsOkUnless result DTypeError.OutOfMemory }
    {
        let mut parts = match self.parts {
            Some(parts) => parts,
            None => Vec::new(alloc),
        };
        parts.push(field)?;
        Ok(FieldPath { parts: Some(parts) })
    }

    /// Whether the first step is to a field.
    pub fn starts_with_name(&self) -> bool
        ensures { result ≡ option_map_or is_named_part (first_part self.now) false }
    {
        match self.parts() {
            [first, ..] => first.is_named(),
            [] => false,
        }
    }

    /// Whether the first step is to this field.
    pub fn starts_with_field(&self, field: &Field) -> bool
        requires name { is_some (name_of field.now) ≡ true }
        requires first { option_map_or is_named_part (first_part self.now) false ≡ true }
        ensures { let is_it = path_part_eq (part_of field.now) in
            result ≡ option_map_or is_it (first_part self.now) false }
    {
        match self.parts() {
            [first, ..] => field == first,
            [] => false,
        }
    }

    /// The path behind its first step, which the root does not have.
    pub fn step_into(self) -> Option<FieldPath>
        ensures { result ≡ without_first self }
    {
        let mut parts = self.parts?;
        if parts.is_empty() {
            return None;
        }
        let _first = parts.remove(0);
        Some(FieldPath { parts: Some(parts) })
    }

    /// The type that the path leads to. An extension is not gone through.
    pub fn resolve(&self, alloc: Global, dtype: &DType) -> Result<Option<DType>, DTypeError>
        ensures term { IfOk result (λ o.
            option_map term_of o ≡ resolved (term_of dtype.now) self.now) }
        ensures memory { IsOkUnless result DTypeError.OutOfMemory }
    {
        let mut inner = dtype.try_clone(alloc)?;
        for field in self.parts() {
            inner = match owned_step(alloc, &inner, field)? {
                Some(next) => next,
                None => return Ok(None),
            };
        }
        Ok(Some(inner))
    }

    /// Whether the path leads to a type. It takes no memory.
    pub fn exists_in(&self, dtype: &DType) -> bool
        ensures { result ≡ is_some (resolved (term_of dtype.now) self.now) }
    {
        let mut inner = dtype.type_ref();
        for field in self.parts() {
            match step(inner, field) {
                Some(next) => inner = next,
                None => return false,
            }
        }
        true
    }

    /// An equal path.
    pub fn try_clone(&self, alloc: Global) -> Result<FieldPath, DTypeError>
        ensures path { IfOk result (λ p. p ≡ self.now) }
        ensures memory { IsOkUnless result DTypeError.OutOfMemory }
    {
        let mut parts = Vec::new(alloc);
        for part in self.parts() {
            parts.push(part.try_clone(alloc)?)?;
        }
        Ok(FieldPath { parts: Some(parts) })
    }
}

impl PartialEq for FieldPath {
    ghost eq = { path_eq };

    ghost laws = { partial_equiv_from_equiv path_equivalence };

    fn eq(&self, other: &FieldPath) -> bool {
        self.parts() == other.parts()
    }
}

impl Eq for FieldPath {
    ghost laws = { path_equivalence };
}

impl Hash for FieldPath {
    ghost hash_input = { path_writes };

    ghost respects_eq = { path_alike.fed };

    fn hash<H: Hasher>(&self, state: &mut H) {
        self.parts().hash(state);
    }
}

impl fmt::Debug for FieldPath {
    ghost debug_output = { λ p. Some (path_text p) };

    fn fmt<W: fmt::Write>(&self, f: &mut fmt::Formatter<W>) -> fmt::Result {
        fmt::Display::fmt(self, f)
    }
}

impl fmt::Display for FieldPath {
    ghost output = { λ p. Some (path_text p) };

    fn fmt<W: fmt::Write>(&self, f: &mut fmt::Formatter<W>) -> fmt::Result {
        match self.parts() {
            [] => Ok(()),
            [first, others @ ..] => {
                write!(f, "{first}")?;
                for part in others {
                    write!(f, ".{part}")?;
                }
                Ok(())
            }
        }
    }
}

/// The type one step further in.
fn owned_step(alloc: Global, dtype: &DType, field: &Field) -> Result<Option<DType>, DTypeError>
    ensures term { let wanted = step_type (term_of dtype.now) (part_of field.now) in
        IfOk result (λ o. option_map term_of o ≡ wanted) }
    ensures memory { IsOkUnless result DTypeError.OutOfMemory }
{
    match field {
        Field::Name(name) => match dtype {
            DType::Struct(fields, _) => fields.field(alloc, name.as_str()),
            _ => Ok(None),
        },
        Field::ElementType => match dtype {
            DType::List(element, _) | DType::FixedSizeList(element, _, _) => {
                Ok(Some(element.as_dtype().try_clone(alloc)?))
            }
            _ => Ok(None),
        },
    }
}

/// A reference to the type one step further in.
fn step<'a>(r: TypeRef<'a>, field: &Field) -> Option<TypeRef<'a>>
    ensures { option_map ref_term result ≡ step_type (ref_term r.entry) (part_of field.now) }
{
    match field {
        Field::Name(name) => named_step(r, name.as_str()),
        Field::ElementType => element_step(r),
    }
}

/// A reference to the type of the first field of this name.
#[tactic(auto, using(crate::proofs::Walked::step_found, crate::proofs::Walked::step_lost))]
fn named_step<'a>(r: TypeRef<'a>, name: &str) -> Option<TypeRef<'a>>
    ensures { option_map ref_term result ≡ step_type (ref_term r.entry) (by_name name.now) }
{
    match first_of_name(r, name) {
        Some(i) => r.part(i),
        None => None,
    }
}

/// A reference to the type of the elements of a list.
#[tactic(auto, using(crate::proofs::Walked::step_in, crate::proofs::Walked::no_step_in))]
fn element_step<'a>(r: TypeRef<'a>) -> Option<TypeRef<'a>>
    ensures { option_map ref_term result ≡ step_type (ref_term r.entry) element }
{
    if has_elements(r.kind()) {
        r.part(0)
    } else {
        None
    }
}

/// Whether the types of a kind are those of lists.
fn has_elements(kind: u8) -> bool
    ensures { result ≡ (nat_eq kind 8 || nat_eq kind 10) }
{
    kind == LIST || kind == FIXED_SIZE_LIST
}

/// The index of the first field of this name.
fn first_of_name(r: TypeRef<'_>, name: &str) -> Option<usize>
    ensures { result ≡ place_of (fields_of (ref_term r.entry)) name.now }
{
    for i in 0..r.nfields() {
        if is_name(r.field_name(i), name) {
            return Some(i);
        }
    }
    None
}

/// Whether a name is there and is this one.
fn is_name(found: Option<&str>, name: &str) -> bool
    ensures { result ≡ option_map_or (λ x. bytes_eq x name.now) (option_copied found.entry) false }
{
    match found {
        Some(found) => found == name,
        None => false,
    }
}
