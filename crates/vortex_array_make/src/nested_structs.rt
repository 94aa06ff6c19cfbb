//! Arrays of structs, from their fields, and of extensions, from their storage.

ghost use Rattle.std.specs.Prelude.{◌≡◌, ◌≤◌, length, map, MatchResult, Ok};
ghost use Rattle.std.specs.List.{AllByRecursion, list_any};
ghost use Rattle.vortex_terms.specs.Term.{structure};
ghost use Rattle.vortex_terms.specs.Types.{fields_from};
ghost use Rattle.vortex_terms.specs.Equality.{term_eq};
ghost use Rattle.vortex_names.specs.Nullable.{is_nullable};
ghost use Rattle.vortex_types.specs.DTypes.{term_of};
ghost use Rattle.vortex_node_rows.specs.RowsOf.{most_rows};
ghost use Rattle.vortex_array_data.specs.Column.{Holds};
ghost use Rattle.vortex_array_data.specs.Content.{IsMask};
ghost use Rattle.vortex_array_make.specs.MadeNested.{extensions_refusal, is_not_long, made_extensions, made_structs, structs_refusal};
ghost use Rattle.vortex_array_data.specs.Makes.{Makes};

use std::alloc::Global;
use std::marker::Model;
use std::rc::Rc;
use vortex_array_data::{Array, ArrayError, Content, Held, MOST_ROWS, fitting_mask};
use vortex_mask::Mask;
use vortex_names::{FieldNames, Nullability};
use vortex_types::{DType, ExtDType, StructFields};

/// Structs, as an array. Contracts see it as that array.
#[derive(Drop)]
pub struct StructArray {
    array: Array,
}

impl Model for StructArray {
    ghost use Rattle.vortex_array_data.specs.Column.{Column, coded_column};

    ghost Value = { Column };

    ghost coded = { coded_column };

    ghost view = { λ a. a.array };
}

/// Extensions, as an array. Contracts see it as that array.
#[derive(Drop)]
pub struct ExtArray {
    array: Array,
}

impl Model for ExtArray {
    ghost use Rattle.vortex_array_data.specs.Column.{Column, coded_column};

    ghost Value = { Column };

    ghost coded = { coded_column };

    ghost view = { λ a. a.array };
}

impl StructArray {
    /// The `len` structs of these fields, null where the mask is false. The fields are shared; each
    /// keeps its own nulls. It is refused as TooLarge above 4,294,967,295 structs, as
    /// LengthMismatch where the mask or a field has another length or there are not as many fields
    /// as names, and as TypeMismatch where the mask is false under a type that is not nullable, in
    /// this order.
    pub fn try_new(
        alloc: Global,
        names: FieldNames,
        fields: Vec<Array>,
        len: usize,
        nullability: Nullability,
        validity: Option<Mask>,
    ) -> Result<StructArray, ArrayError>
        ensures { let nl = is_nullable nullability in
            Makes result (structs_refusal names fields.items len nl validity)
            (made_structs names fields.items len nl validity) }
    {
        if len > MOST_ROWS {
            return Err(ArrayError::TooLarge);
        }
        if names.len() != fields.len() {
            return Err(ArrayError::LengthMismatch);
        }
        if is_one_not_long(&fields, len) {
            return Err(ArrayError::LengthMismatch);
        }
        let validity = fitting_mask(len, nullability.into(), validity)?;
        let array = structs(alloc, names, fields, len, nullability, validity)?;
        Ok(StructArray { array })
    }

    /// The array. It takes no memory.
    pub fn into_array(self, _alloc: Global) -> Result<Array, ArrayError>
        ensures { result ≡ Ok self }
    {
        Ok(self.array)
    }
}

impl ExtArray {
    /// The extensions that are stored so, which are null where their storage is. The storage is
    /// shared. It is refused as TypeMismatch where its type is not the one in which the extension
    /// is stored.
    pub fn try_new(alloc: Global, dtype: ExtDType, storage: Array) -> Result<ExtArray, ArrayError>
        ensures { Makes result (extensions_refusal dtype storage) (made_extensions dtype storage) }
    {
        if !is_stored_as(&dtype, &storage) {
            return Err(ArrayError::TypeMismatch);
        }
        let array = extensions(alloc, dtype, storage)?;
        Ok(ExtArray { array })
    }

    /// The array. It takes no memory.
    pub fn into_array(self, _alloc: Global) -> Result<Array, ArrayError>
        ensures { result ≡ Ok self }
    {
        Ok(self.array)
    }
}

/// Whether one of the fields has not so many rows.
fn is_one_not_long(fields: &[Array], n: usize) -> bool
    ensures { result ≡ list_any (is_not_long n) fields.now }
{
    fields.iter().any(|field| field.len() != n)
}

/// Whether the array has the type in which the extension is stored.
fn is_stored_as(dtype: &ExtDType, storage: &Array) -> bool
    ensures { result ≡ term_eq storage.now.dtype dtype.now.storage }
{
    storage.dtype() == dtype.storage_dtype()
}

/// The types of the fields.
fn field_types(alloc: Global, fields: &[Array]) -> Result<Vec<DType>, ArrayError>
    ensures { MatchResult result
        (λ ts. map term_of ts.items ≡ map (λ f. f.dtype) fields.now)
        (λ e. e ≡ ArrayError.OutOfMemory) }
{
    let mut dtypes = Vec::with_capacity(alloc, fields.len())?;
    for field in fields {
        let Ok(dtype) = field.dtype().try_clone(alloc) else {
            return Err(ArrayError::OutOfMemory);
        };
        dtypes.push(dtype)?;
    }
    Ok(dtypes)
}

/// The rows of each field fit its type. It does nothing when the program runs.
fn fields_law(fields: &[Array])
    ensures { AllByRecursion Holds fields.now }
{
    for field in fields {
        field.law();
    }
}

/// The type of structs of these fields.
fn struct_type(
    alloc: Global,
    names: FieldNames,
    fields: &[Array],
    nullability: Nullability,
) -> Result<DType, ArrayError>
    requires { length names ≡ length fields.now }
    ensures { MatchResult result
        (λ t. term_of t ≡ structure (fields_from names (map (λ f. f.dtype) fields.now))
        (is_nullable nullability))
        (λ e. e ≡ ArrayError.OutOfMemory) }
{
    let dtypes = field_types(alloc, fields)?;
    match StructFields::new(alloc, names, dtypes) {
        Ok(fields) => Ok(DType::Struct(fields, nullability)),
        Err(_) => Err(ArrayError::OutOfMemory),
    }
}

/// The n structs of these fields, under a mask.
fn structs(
    alloc: Global,
    names: FieldNames,
    fields: Vec<Array>,
    n: usize,
    nullability: Nullability,
    validity: Option<Mask>,
) -> Result<Array, ArrayError>
    requires names { length names ≡ length fields.items }
    requires long { AllByRecursion (λ f. length f.rows ≡ n) fields.items }
    requires mask { IsMask n (is_nullable nullability) validity }
    requires few { n ≤ most_rows }
    ensures { MatchResult result
        (λ a. a ≡ made_structs names fields.items n (is_nullable nullability) validity)
        (λ e. e ≡ ArrayError.OutOfMemory) }
{
    fields_law(&fields);
    let dtype = struct_type(alloc, names, &fields, nullability)?;
    let content = Content::Structs(fields);
    Ok(Array::made(dtype, n, Held { content, validity }))
}

/// The extensions of a type over storage of the type in which it is stored.
fn extensions(alloc: Global, dtype: ExtDType, storage: Array) -> Result<Array, ArrayError>
    requires { storage.dtype ≡ dtype.storage }
    ensures { MatchResult result (λ a. a ≡ made_extensions dtype storage)
        (λ e. e ≡ ArrayError.OutOfMemory) }
{
    storage.law();
    let n = storage.len();
    let dtype = DType::Extension(Rc::new(alloc, dtype)?);
    let content = Content::Storage(Rc::new(alloc, storage)?);
    Ok(Array::made(
        dtype,
        n,
        Held {
            content,
            validity: None,
        },
    ))
}
