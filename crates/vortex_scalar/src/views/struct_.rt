//! Views of structs.

ghost use Rattle.std.specs.Cmp.{partial_equiv_from_equiv};
ghost use Rattle.std.specs.Prelude.{◌≡◌, IsTrue, IfOk, IsOkUnless, map, ok_or, Ok, Err};
ghost use Rattle.std.specs.Option.{option_map};
ghost use Rattle.vortex_terms.specs.Types.{names_of};
ghost use Rattle.vortex_terms.specs.Types.{Legal};
ghost use Rattle.vortex_terms.specs.Fits.{Fits};
ghost use Rattle.vortex_terms.specs.Row.{is_null};
ghost use Rattle.vortex_terms.specs.StructFields.{projected};
ghost use Rattle.vortex_types.specs.Accessors.{fields_of};
ghost use Rattle.vortex_types.specs.DTypes.{term_of};
ghost use Rattle.vortex_types.specs.Predicates.{is_struct};
ghost use Rattle.vortex_scalar_value.specs.Value.{list_value, values_from};
ghost use Rattle.vortex_scalar.specs.Answers.{Answers};
ghost use Rattle.vortex_scalar.specs.Cast.{cast_scalar};
ghost use Rattle.vortex_scalar.specs.LargeViews.{kept_if, part_scalar, part_scalars};
ghost use Rattle.vortex_scalar.specs.LargeViews.{field_scalar, projected_scalar};
ghost use Rattle.vortex_scalar.specs.inner.Parts.{named_value, projected_value};
ghost use Rattle.vortex_scalar.specs.Compare.{scalar_eq, scalar_cmp};
ghost use Rattle.vortex_scalar.specs.HashInput.{scalar_writes};
ghost use Rattle.vortex_scalar.specs.EqualLaws.{scalar_equivalence, scalar_order, scalar_alike};

use crate::scalar::Scalar;
use crate::views::fitting::{Fitting, inside};
use std::alloc::Global;
use std::cmp::Ordering;
use std::hash::{Hash, Hasher};
use std::marker::Model;
use vortex_names::{DTypeError, FieldName, FieldNames};
use vortex_scalar_value::{ScalarError, ScalarValue};
use vortex_types::{DType, StructFields};

/// A scalar of a struct type. Contracts see it as its type and its row.
#[derive(Drop)]
pub struct StructScalar<'a> {
    pub(super) fitting: Fitting<'a>,
}

impl<'a> Model for StructScalar<'a> {
    ghost use Rattle.std.specs.Prelude.{IsTrue};
    ghost use Rattle.vortex_types.specs.Predicates.{is_struct};
    ghost use Rattle.vortex_scalar.specs.ScalarTerm.{ScalarTerm, coded_scalar};

    ghost Value = { ScalarTerm };

    ghost coded = { coded_scalar };

    ghost view = { λ s. s.fitting };

    ghost invariant = { λ s. IsTrue (is_struct s.fitting.dtype) };
}

impl Scalar {
    /// The struct, where the type is one of structs.
    pub fn as_struct_opt(&self) -> Option<StructScalar<'_>>
        ensures { result ≡ kept_if is_struct self.now }
    {
        match self.dtype() {
            DType::Struct(_, _) => Some(self.as_struct()),
            _ => None,
        }
    }

    /// The struct.
    pub fn as_struct(&self) -> StructScalar<'_>
        requires { IsTrue (is_struct self.now.dtype) }
        ensures { result ≡ self.now }
    {
        StructScalar {
            fitting: self.fitting(),
        }
    }
}

impl<'a> StructScalar<'a> {
    /// The type.
    pub fn dtype(&self) -> &'a DType
        ensures { term_of result.now ≡ self.now.dtype }
    {
        self.fitting.dtype()
    }

    /// The names and types of the fields.
    pub fn struct_fields(&self) -> &'a StructFields
        ensures { result.now ≡ fields_of self.now.dtype }
    {
        match self.fitting.dtype() {
            DType::Struct(fields, _) => fields,
            _ => unreachable!(),
        }
    }

    /// The names of the fields, in order.
    pub fn names(&self) -> &'a FieldNames
        ensures { result.now ≡ names_of (fields_of self.now.dtype) }
    {
        self.struct_fields().names()
    }

    /// Whether it is null.
    pub fn is_null(&self) -> bool
        ensures { result ≡ is_null self.now.row }
    {
        self.fitting.is_null()
    }

    /// The first field of a name; there is none where the struct is null or no field has the name.
    pub fn field(&self, alloc: Global, name: &str) -> Result<Option<Scalar>, ScalarError>
        ensures field { IfOk result (λ o. o ≡ field_scalar self.now name.now) }
        ensures memory { IsOkUnless result ScalarError.OutOfMemory }
    {
        match self.struct_fields().find(name) {
            Some(index) => self.fitting.part(alloc, index),
            None => Ok(None),
        }
    }

    /// The field at an index; there is none where the struct is null or has no more fields.
    pub fn field_by_idx(&self, alloc: Global, index: usize) -> Result<Option<Scalar>, ScalarError>
        ensures field { IfOk result (λ o. o ≡ part_scalar self.now index) }
        ensures memory { IsOkUnless result ScalarError.OutOfMemory }
    {
        self.fitting.part(alloc, index)
    }

    /// The fields in order; there are none where the struct is null.
    pub fn fields(&self, alloc: Global) -> Result<Option<Vec<Scalar>>, ScalarError>
        ensures fields { IfOk result (λ o. option_map (λ v. v.items) o ≡ part_scalars self.now) }
        ensures memory { IsOkUnless result ScalarError.OutOfMemory }
    {
        self.fitting.parts(alloc)
    }

    /// The scalar under another type, as `Scalar::cast` makes it: fields go by position whatever
    /// their names. The refusals in order: `CastNull` for null under a type that is not nullable;
    /// `CastKind` for a type that is none of structs; `CastFields` for another number of fields;
    /// then the first refusal inside. `OutOfMemory` may come at any time.
    pub fn cast(&self, alloc: Global, target: &DType) -> Result<Scalar, ScalarError>
        ensures cast { Answers (λ s. s) result (cast_scalar self.now (term_of target.now)) }
    {
        self.fitting.cast(alloc, target)
    }

    /// The struct of the first field of each of these names, in their order. FieldNotFound comes
    /// where a name has no field.
    pub fn project(&self, alloc: Global, projection: &[FieldName]) -> Result<Scalar, ScalarError>
        ensures { Answers (λ s. s) result (projected_scalar self.now projection.now) }
    {
        self.fitting.law();
        let fields = projected_fields(alloc, self.struct_fields(), projection)?;
        let dtype = DType::Struct(fields, self.dtype().nullability());
        let value = self.fitting.value();
        let value = projected_value(alloc, self.struct_fields(), value, projection)?;
        Ok(Scalar::new(dtype, value))
    }

    /// The type is a legal one of structs, and the row fits it. It does nothing when the program runs.
    pub fn law(&self)
        ensures kind { IsTrue (is_struct self.now.dtype) }
        ensures legal { Legal self.now.dtype }
        ensures fits { Fits self.now.dtype self.now.row }
    {
        self.fitting.law();
    }
}

impl<'a> PartialEq for StructScalar<'a> {
    ghost eq = { scalar_eq };

    ghost laws = { partial_equiv_from_equiv scalar_equivalence };

    fn eq(&self, other: &StructScalar<'a>) -> bool {
        self.fitting.equals(&other.fitting)
    }
}

impl<'a> Eq for StructScalar<'a> {
    ghost laws = { scalar_equivalence };
}

impl<'a> PartialOrd for StructScalar<'a> {
    ghost partial_cmp = { scalar_cmp };

    ghost laws = { scalar_order };

    fn partial_cmp(&self, other: &StructScalar<'a>) -> Option<Ordering> {
        self.fitting.compare(&other.fitting)
    }
}

impl<'a> Hash for StructScalar<'a> {
    ghost hash_input = { scalar_writes };

    ghost respects_eq = { scalar_alike.fed };

    fn hash<H: Hasher>(&self, state: &mut H) {
        self.fitting.feed(state);
    }
}

/// The first field of each of these names.
fn projected_fields(
    alloc: Global,
    fields: &StructFields,
    projection: &[FieldName],
) -> Result<StructFields, ScalarError>
    ensures { let wanted = ok_or (projected fields.now projection.now) ScalarError.FieldNotFound in
        Answers (λ s. s) result wanted }
{
    match fields.project(alloc, projection) {
        Ok(fields) => Ok(fields),
        Err(DTypeError::FieldNotFound) => Err(ScalarError::FieldNotFound),
        Err(_) => Err(ScalarError::OutOfMemory),
    }
}

/// The values of the first fields of these names, as a value; null stays.
fn projected_value(
    alloc: Global,
    fields: &StructFields,
    value: &ScalarValue,
    projection: &[FieldName],
) -> Result<ScalarValue, ScalarError>
    ensures value { let wanted = projected_value fields.now projection.now value.now in
        IfOk result (λ v. v ≡ wanted) }
    ensures memory { IsOkUnless result ScalarError.OutOfMemory }
{
    match inside(value) {
        Some(values) => named_values(alloc, fields, values, projection),
        None => Ok(ScalarValue::null()),
    }
}

/// The values of the first fields of these names, as a list.
fn named_values(
    alloc: Global,
    fields: &StructFields,
    values: &[ScalarValue],
    projection: &[FieldName],
) -> Result<ScalarValue, ScalarError>
    ensures list { let named = map (named_value fields.now values.now) projection.now in
        IfOk result (λ v. v ≡ list_value (values_from named)) }
    ensures memory { IsOkUnless result ScalarError.OutOfMemory }
{
    let mut named = Vec::new(alloc);
    for name in projection {
        named.push(named_value(alloc, fields, values, name)?)?;
    }
    ScalarValue::from_list(alloc, named)
}

/// The value of the first field of a name, null where there is none.
fn named_value(
    alloc: Global,
    fields: &StructFields,
    values: &[ScalarValue],
    name: &FieldName,
) -> Result<ScalarValue, ScalarError>
    ensures named { IfOk result (λ v. v ≡ named_value fields.now values.now name.now) }
    ensures memory { IsOkUnless result ScalarError.OutOfMemory }
{
    match fields.find(name.as_str()) {
        Some(index) => match values.get(index) {
            Some(value) => value.try_clone(alloc),
            None => Ok(ScalarValue::null()),
        },
        None => Ok(ScalarValue::null()),
    }
}
