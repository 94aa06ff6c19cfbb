//! Arrays of lists, from their elements.

ghost use Rattle.std.specs.Prelude.{◌≡◌, ◌≤◌, ◌*◌, length, MatchResult, Ok};
ghost use Rattle.vortex_terms.specs.Term.{fixed_size_list, list};
ghost use Rattle.vortex_names.specs.Nullable.{is_nullable};
ghost use Rattle.vortex_types.specs.DTypes.{term_of};
ghost use Rattle.vortex_node_rows.specs.RowsOf.{most_rows};
ghost use Rattle.vortex_leaves.specs.Texts.{AreOffsets};
ghost use Rattle.vortex_array_data.specs.Content.{IsMask};
ghost use Rattle.vortex_array_make.specs.MadeNested.{fixed_lists_refusal, lists_refusal, made_fixed_lists, made_lists};
ghost use Rattle.vortex_array_data.specs.Makes.{Makes};

use std::alloc::Global;
use std::marker::Model;
use std::rc::Rc;
use vortex_array_data::{Array, ArrayError, Content, Held, MOST_ROWS, fitting_mask};
use vortex_leaves::{Offsets, offsets_part};
use vortex_mask::Mask;
use vortex_names::Nullability;
use vortex_types::{DType, Element};

/// Lists of any length, as an array. Contracts see it as that array.
#[derive(Drop)]
pub struct ListArray {
    array: Array,
}

impl Model for ListArray {
    ghost use Rattle.vortex_array_data.specs.Column.{Column, coded_column};

    ghost Value = { Column };

    ghost coded = { coded_column };

    ghost view = { λ a. a.array };
}

/// Lists of one length, as an array. Contracts see it as that array.
#[derive(Drop)]
pub struct FixedSizeListArray {
    array: Array,
}

impl Model for FixedSizeListArray {
    ghost use Rattle.vortex_array_data.specs.Column.{Column, coded_column};

    ghost Value = { Column };

    ghost coded = { coded_column };

    ghost view = { λ a. a.array };
}

impl ListArray {
    /// The lists between each offset and the next, null where the mask is false. The elements are
    /// shared, and the offsets copied. It is refused as TooLarge above 4,294,967,295 lists, as
    /// LengthMismatch where the mask has another length or the offsets are none, fall, or pass the
    /// end of the elements, and as TypeMismatch where the mask is false under a type that is not
    /// nullable, in this order.
    pub fn try_new(
        alloc: Global,
        elements: Array,
        offsets: Vec<u32>,
        nullability: Nullability,
        validity: Option<Mask>,
    ) -> Result<ListArray, ArrayError>
        ensures { let nl = is_nullable nullability in
            Makes result (lists_refusal elements offsets.items nl validity)
            (made_lists elements offsets.items nl validity) }
    {
        let n = offsets.len().saturating_sub(1);
        if n > MOST_ROWS {
            return Err(ArrayError::TooLarge);
        }
        if !offsets_part(&offsets, elements.len()) {
            return Err(ArrayError::LengthMismatch);
        }
        let validity = fitting_mask(n, nullability.into(), validity)?;
        let offsets = Offsets::from_values(alloc, &offsets)?;
        let array = lists(alloc, elements, offsets, n, nullability, validity)?;
        Ok(ListArray { array })
    }

    /// The array. It takes no memory.
    pub fn into_array(self, _alloc: Global) -> Result<Array, ArrayError>
        ensures { result ≡ Ok self }
    {
        Ok(self.array)
    }
}

impl FixedSizeListArray {
    /// The lists of `size` elements each, null where the mask is false. The elements are shared. It
    /// is refused as TooLarge above 4,294,967,295 lists, as LengthMismatch where the mask has
    /// another length or there are not `size` elements for each of `len` lists, and as TypeMismatch
    /// where the mask is false under a type that is not nullable, in this order.
    pub fn try_new(
        alloc: Global,
        elements: Array,
        size: u32,
        len: usize,
        nullability: Nullability,
        validity: Option<Mask>,
    ) -> Result<FixedSizeListArray, ArrayError>
        ensures { let nl = is_nullable nullability in
            Makes result (fixed_lists_refusal elements size len nl validity)
            (made_fixed_lists elements size len nl validity) }
    {
        if len > MOST_ROWS {
            return Err(ArrayError::TooLarge);
        }
        if elements.len() != len * size as usize {
            return Err(ArrayError::LengthMismatch);
        }
        let validity = fitting_mask(len, nullability.into(), validity)?;
        let array = fixed_lists(alloc, elements, size, len, nullability, validity)?;
        Ok(FixedSizeListArray { array })
    }

    /// The array. It takes no memory.
    pub fn into_array(self, _alloc: Global) -> Result<Array, ArrayError>
        ensures { result ≡ Ok self }
    {
        Ok(self.array)
    }
}

/// The type of lists of elements of this type.
fn list_type(alloc: Global, element: &DType, nullability: Nullability) -> Result<DType, ArrayError>
    ensures { MatchResult result
        (λ t. term_of t ≡ list (term_of element.now) (is_nullable nullability))
        (λ e. e ≡ ArrayError.OutOfMemory) }
{
    let Ok(element) = element.try_clone(alloc) else {
        return Err(ArrayError::OutOfMemory);
    };
    match DType::list(alloc, element, nullability) {
        Ok(dtype) => Ok(dtype),
        Err(_) => Err(ArrayError::OutOfMemory),
    }
}

/// The type of lists of so many elements of this type.
fn fixed_list_type(
    alloc: Global,
    element: &DType,
    size: u32,
    nullability: Nullability,
) -> Result<DType, ArrayError>
    ensures { MatchResult result
        (λ t. term_of t ≡ fixed_size_list (term_of element.now) size (is_nullable nullability))
        (λ e. e ≡ ArrayError.OutOfMemory) }
{
    let Ok(element) = element.try_clone(alloc) else {
        return Err(ArrayError::OutOfMemory);
    };
    match Element::new(alloc, element) {
        Ok(element) => Ok(DType::FixedSizeList(element, size, nullability)),
        Err(_) => Err(ArrayError::OutOfMemory),
    }
}

/// The n lists between offsets, under a mask.
fn lists(
    alloc: Global,
    elements: Array,
    offsets: Offsets,
    n: usize,
    nullability: Nullability,
    validity: Option<Mask>,
) -> Result<Array, ArrayError>
    requires offsets { AreOffsets n (length elements.rows) offsets }
    requires mask { IsMask n (is_nullable nullability) validity }
    requires few { n ≤ most_rows }
    ensures { MatchResult result
        (λ a. a ≡ made_lists elements offsets (is_nullable nullability) validity)
        (λ e. e ≡ ArrayError.OutOfMemory) }
{
    elements.law();
    let dtype = list_type(alloc, elements.dtype(), nullability)?;
    let content = Content::Lists(offsets, Rc::new(alloc, elements)?);
    Ok(Array::made(dtype, n, Held { content, validity }))
}

/// The n lists of so many elements each, under a mask.
fn fixed_lists(
    alloc: Global,
    elements: Array,
    size: u32,
    n: usize,
    nullability: Nullability,
    validity: Option<Mask>,
) -> Result<Array, ArrayError>
    requires elements { length elements.rows ≡ n * size }
    requires mask { IsMask n (is_nullable nullability) validity }
    requires few { n ≤ most_rows }
    ensures { MatchResult result
        (λ a. a ≡ made_fixed_lists elements size n (is_nullable nullability) validity)
        (λ e. e ≡ ArrayError.OutOfMemory) }
{
    elements.law();
    let dtype = fixed_list_type(alloc, elements.dtype(), size, nullability)?;
    let content = Content::FixedLists(size, Rc::new(alloc, elements)?);
    Ok(Array::made(dtype, n, Held { content, validity }))
}
