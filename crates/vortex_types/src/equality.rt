//! Equality of types, exact and apart from nullability.

ghost use Rattle.std.specs.Prelude.{◌≡◌};
ghost use Rattle.std.specs.Cmp.{partial_equiv_from_equiv};
ghost use Rattle.std.specs.Ordering.{on};
ghost use Rattle.vortex_terms.specs.Equality.{term_eq, fields_eq, is_same};
ghost use Rattle.vortex_terms.specs.Nullability.{eq_with_nullability_subset};
ghost use Rattle.vortex_terms.specs.Nullability.{eq_with_nullability_superset};
ghost use Rattle.vortex_types.specs.DTypes.{term_of};
ghost use Rattle.vortex_types.specs.ExtTerm.{ext_type};
ghost use Rattle.vortex_types.specs.EqualLaws.{term_equivalence, fields_equivalence};
ghost use Rattle.vortex_types.specs.EqualLaws.{dtype_equivalence, ext_equivalence};
ghost use Rattle.vortex_terms.specs.Types.{field_at};
ghost use Rattle.vortex_types.specs.Equal.{both_by, equal_by, field_equal_by, fields_equal_by};
ghost use Rattle.vortex_types.specs.TypeRefs.{fields_term, ref_term};

use crate::dtype::DType;
use crate::element::Element;
use crate::extension::ExtDType;
use crate::field_dtype::FieldDType;
use crate::shape::{FieldsRef, Shape};
use crate::struct_fields::StructFields;
use crate::type_ref::TypeRef;

impl DType {
    /// Whether the types are the same apart from nullability.
    pub fn eq_ignore_nullability(&self, other: &DType) -> bool
        ensures { result ≡ is_same (term_of self.now) (term_of other.now) }
    {
        equal(false, self.type_ref(), other.type_ref())
    }

    /// Whether the types are equal, the nullability of `other` being free where this type is not
    /// nullable.
    pub fn eq_with_nullability_subset(&self, other: &DType) -> bool
        ensures { result ≡ eq_with_nullability_subset (term_of self.now) (term_of other.now) }
    {
        if self.is_nullable() {
            self == other
        } else {
            self.eq_ignore_nullability(other)
        }
    }

    /// Whether the types are equal, the nullability of `other` being free where this type is
    /// nullable.
    pub fn eq_with_nullability_superset(&self, other: &DType) -> bool
        ensures { result ≡ eq_with_nullability_superset (term_of self.now) (term_of other.now) }
    {
        if self.is_nullable() {
            self.eq_ignore_nullability(other)
        } else {
            self == other
        }
    }
}

impl<'a> TypeRef<'a> {
    /// Whether the types are the same apart from nullability.
    pub fn eq_ignore_nullability(self, other: TypeRef<'_>) -> bool
        ensures { result ≡ is_same (ref_term self.entry) (ref_term other.entry) }
    {
        equal(false, self, other)
    }
}

impl ExtDType {
    /// Whether the types are the same apart from nullability.
    pub fn eq_ignore_nullability(&self, other: &ExtDType) -> bool
        ensures { result ≡ is_same (ext_type self.now) (ext_type other.now) }
    {
        equal_ext(false, self, other)
    }
}

impl PartialEq for DType {
    ghost eq = { on term_of term_eq };

    ghost laws = { partial_equiv_from_equiv dtype_equivalence };

    fn eq(&self, other: &DType) -> bool {
        equal(true, self.type_ref(), other.type_ref())
    }
}

impl Eq for DType {
    ghost laws = { dtype_equivalence };
}

impl PartialEq for Element {
    ghost eq = { term_eq };

    ghost laws = { partial_equiv_from_equiv term_equivalence };

    fn eq(&self, other: &Element) -> bool {
        self.as_dtype() == other.as_dtype()
    }
}

impl Eq for Element {
    ghost laws = { term_equivalence };
}

impl PartialEq for FieldDType {
    ghost eq = { term_eq };

    ghost laws = { partial_equiv_from_equiv term_equivalence };

    fn eq(&self, other: &FieldDType) -> bool {
        equal(true, self.type_ref(), other.type_ref())
    }
}

impl Eq for FieldDType {
    ghost laws = { term_equivalence };
}

impl PartialEq for StructFields {
    ghost eq = { fields_eq };

    ghost laws = { partial_equiv_from_equiv fields_equivalence };

    fn eq(&self, other: &StructFields) -> bool {
        equal_fields(true, FieldsRef::Owned(self), FieldsRef::Owned(other))
    }
}

impl Eq for StructFields {
    ghost laws = { fields_equivalence };
}

impl PartialEq for ExtDType {
    ghost eq = { on ext_type term_eq };

    ghost laws = { partial_equiv_from_equiv ext_equivalence };

    fn eq(&self, other: &ExtDType) -> bool {
        equal_ext(true, self, other)
    }
}

impl Eq for ExtDType {
    ghost laws = { ext_equivalence };
}

/// Whether the extension types are equal, or the same apart from nullability.
fn equal_ext(exact: bool, a: &ExtDType, b: &ExtDType) -> bool
    ensures { result ≡ equal_by exact (ext_type a.now) (ext_type b.now) }
{
    a.id() == b.id()
        && a.metadata() == b.metadata()
        && equal(
            exact,
            a.storage_dtype().type_ref(),
            b.storage_dtype().type_ref(),
        )
}

/// Whether the types are equal, or, where `exact` is false, the same apart from nullability.
#[cycle(equality)]
pub(crate) fn equal(exact: bool, a: TypeRef<'_>, b: TypeRef<'_>) -> bool
    ensures { result ≡ equal_by exact (ref_term a.entry) (ref_term b.entry) }
{
    match a.shape() {
        Shape::Null => matches!(b.shape(), Shape::Null),
        Shape::Bool(n) => match b.shape() {
            Shape::Bool(m) => !exact || n == m,
            _ => false,
        },
        Shape::Primitive(p, n) => match b.shape() {
            Shape::Primitive(q, m) => p == q && (!exact || n == m),
            _ => false,
        },
        Shape::Decimal(d, n) => match b.shape() {
            Shape::Decimal(e, m) => d == e && (!exact || n == m),
            _ => false,
        },
        Shape::Utf8(n) => match b.shape() {
            Shape::Utf8(m) => !exact || n == m,
            _ => false,
        },
        Shape::Binary(n) => match b.shape() {
            Shape::Binary(m) => !exact || n == m,
            _ => false,
        },
        Shape::Struct(a, n) => match b.shape() {
            Shape::Struct(b, m) => (!exact || n == m) && equal_fields(exact, a, b),
            _ => false,
        },
        Shape::List(x, n) => match b.shape() {
            Shape::List(y, m) => (!exact || n == m) && equal(exact, x, y),
            _ => false,
        },
        Shape::Extension(id, x, m) => match b.shape() {
            Shape::Extension(jd, y, l) => id == jd && m == l && equal(exact, x, y),
            _ => false,
        },
        Shape::FixedSizeList(x, k, n) => match b.shape() {
            Shape::FixedSizeList(y, l, m) => (!exact || n == m) && k == l && equal(exact, x, y),
            _ => false,
        },
    }
}

/// Whether the names of fields are equal, and their types.
#[cycle(equality)]
fn equal_fields(exact: bool, a: FieldsRef<'_>, b: FieldsRef<'_>) -> bool
    ensures { result ≡ fields_equal_by exact (fields_term a.entry) (fields_term b.entry) }
{
    let n = a.len();
    if n != b.len() {
        return false;
    }
    for i in 0..n {
        if !equal_field(exact, a, b, i) {
            return false;
        }
    }
    true
}

/// Whether the fields at an index are equal.
#[cycle(equality)]
fn equal_field(exact: bool, a: FieldsRef<'_>, b: FieldsRef<'_>, i: usize) -> bool
    ensures { result ≡ field_equal_by exact (fields_term a.entry) (fields_term b.entry) i }
{
    match a.name(i) {
        Some(x) => match b.name(i) {
            Some(y) => x == y && equal_part(exact, a, b, i),
            None => false,
        },
        None => false,
    }
}

/// Whether the types of the fields at an index are equal.
#[cycle(equality)]
#[tactic(auto, using(crate::proofs::Fields::part_lighter))]
fn equal_part(exact: bool, a: FieldsRef<'_>, b: FieldsRef<'_>, i: usize) -> bool
    ensures { let t = field_at (fields_term a.entry) i in
        let u = field_at (fields_term b.entry) i in
        result ≡ both_by (equal_by exact) t u }
{
    match a.part(i) {
        Some(x) => match b.part(i) {
            Some(y) => equal(exact, x, y),
            None => false,
        },
        None => false,
    }
}
