//! Arrays of texts and bytes, of one scalar, and of nulls.

ghost use Rattle.std.specs.Prelude.{◌≡◌, ◌-◌, IsTrue, length, map, MatchResult, Ok};
ghost use Rattle.vortex_terms.specs.Row.{bytes_row};
ghost use Rattle.vortex_terms.specs.FromColumns.{pieces};
ghost use Rattle.vortex_types.specs.DTypes.{term_of};
ghost use Rattle.vortex_leaves.specs.OffsetTest.{offsets_part};
ghost use Rattle.vortex_leaves.specs.Texts.{text_pieces};
ghost use Rattle.vortex_array_make.specs.MadeLeaves.{constant_refusal, leaf_column, made_constant, made_nulls, takes_pieces, texts_refusal};
ghost use Rattle.vortex_array_data.specs.Makes.{Makes};

use std::alloc::Global;
use std::marker::Model;
use vortex_array_data::{Array, ArrayError, Content, Held, MOST_ROWS, fitting_mask};
use vortex_buffer::ByteBuffer;
use vortex_leaves::{Offsets, Texts, offsets_part};
use vortex_mask::Mask;
use vortex_node_rows::Encoding;
use vortex_scalar::Scalar;
use vortex_types::DType;

/// Texts or bytes, as an array. Contracts see it as that array.
#[derive(Drop)]
pub struct VarBinArray {
    array: Array,
}

impl Model for VarBinArray {
    ghost use Rattle.vortex_array_data.specs.Column.{Column, coded_column};

    ghost Value = { Column };

    ghost coded = { coded_column };

    ghost view = { λ a. a.array };
}

/// One scalar in all rows, as an array. Contracts see it as that array.
#[derive(Drop)]
pub struct ConstantArray {
    array: Array,
}

impl Model for ConstantArray {
    ghost use Rattle.vortex_array_data.specs.Column.{Column, coded_column};

    ghost Value = { Column };

    ghost coded = { coded_column };

    ghost view = { λ a. a.array };
}

/// Nulls, as an array. Contracts see it as that array.
#[derive(Drop)]
pub struct NullArray {
    array: Array,
}

impl Model for NullArray {
    ghost use Rattle.vortex_array_data.specs.Column.{Column, coded_column};

    ghost Value = { Column };

    ghost coded = { coded_column };

    ghost view = { λ a. a.array };
}

impl VarBinArray {
    /// The pieces of the bytes between each offset and the next, null where the mask is false. The
    /// bytes are shared, and the offsets copied. It is refused as TooLarge above 4,294,967,295
    /// pieces, as LengthMismatch where the offsets are none, fall, or pass the end of the bytes, or
    /// the mask has another length, and as TypeMismatch where it is false under a type that is
    /// not nullable, the type is not that of texts or of bytes, or a text that is not null is no
    /// UTF-8, in this order.
    pub fn try_new(
        alloc: Global,
        offsets: Vec<u32>,
        bytes: ByteBuffer,
        dtype: DType,
        validity: Option<Mask>,
    ) -> Result<VarBinArray, ArrayError>
        ensures { Makes result
            (texts_refusal offsets.items bytes.bytes (term_of dtype) validity)
            (leaf_column (term_of dtype) Encoding.VarBin validity
            (map bytes_row (pieces offsets.items bytes.bytes))) }
    {
        let n = offsets.len().saturating_sub(1);
        if n > MOST_ROWS {
            return Err(ArrayError::TooLarge);
        }
        if !offsets_part(&offsets, bytes.len()) {
            return Err(ArrayError::LengthMismatch);
        }
        let texts = texts(alloc, &offsets, &bytes)?;
        texts.law();
        let fits = do_fit(&dtype, &validity, &texts);
        let validity = fitting_mask(n, dtype.is_nullable(), validity)?;
        if !fits {
            return Err(ArrayError::TypeMismatch);
        }
        let content = Content::Texts(texts);
        let held = Held { content, validity };
        Ok(VarBinArray {
            array: Array::made(dtype, n, held),
        })
    }

    /// The array. It takes no memory.
    pub fn into_array(self, _alloc: Global) -> Result<Array, ArrayError>
        ensures { result ≡ Ok self }
    {
        Ok(self.array)
    }
}

impl ConstantArray {
    /// So many rows of the scalar, which is kept once. It is refused as TooLarge above
    /// 4,294,967,295 rows.
    pub fn try_new(_alloc: Global, scalar: Scalar, len: usize) -> Result<ConstantArray, ArrayError>
        ensures { Makes result (constant_refusal len) (made_constant scalar len) }
    {
        if len > MOST_ROWS {
            return Err(ArrayError::TooLarge);
        }
        scalar.law();
        let (dtype, value) = scalar.into_parts();
        let held = Held {
            content: Content::Constant(value),
            validity: None,
        };
        Ok(ConstantArray {
            array: Array::made(dtype, len, held),
        })
    }

    /// The array. It takes no memory.
    pub fn into_array(self, _alloc: Global) -> Result<Array, ArrayError>
        ensures { result ≡ Ok self }
    {
        Ok(self.array)
    }
}

impl NullArray {
    /// So many nulls, of the type that has no other row. It is refused as TooLarge above
    /// 4,294,967,295 rows.
    pub fn try_new(_alloc: Global, len: usize) -> Result<NullArray, ArrayError>
        ensures { Makes result (constant_refusal len) (made_nulls len) }
    {
        if len > MOST_ROWS {
            return Err(ArrayError::TooLarge);
        }
        let held = Held {
            content: Content::Nulls,
            validity: None,
        };
        Ok(NullArray {
            array: Array::made(DType::Null, len, held),
        })
    }

    /// The array. It takes no memory.
    pub fn into_array(self, _alloc: Global) -> Result<Array, ArrayError>
        ensures { result ≡ Ok self }
    {
        Ok(self.array)
    }
}

/// The pieces of the bytes between offsets.
fn texts(alloc: Global, offsets: &[u32], bytes: &ByteBuffer) -> Result<Texts, ArrayError>
    requires { IsTrue (offsets_part offsets.now (length bytes.now.bytes)) }
    ensures { MatchResult result
        (λ a. a ≡ record { offsets = offsets.now; bytes = bytes.now.bytes })
        (λ e. e ≡ ArrayError.OutOfMemory) }
{
    let offsets = Offsets::from_values(alloc, offsets)?;
    let bytes = bytes.inner().clone()?;
    Ok(Texts::from_parts(offsets, bytes))
}

/// Whether the type takes the pieces that the mask says are valid.
fn do_fit(dtype: &DType, validity: &Option<Mask>, texts: &Texts) -> bool
    ensures { result ≡ takes_pieces (term_of dtype.now) validity.now (text_pieces texts.now) }
{
    match dtype {
        DType::Utf8(_) => texts.are_texts(validity.as_ref()),
        DType::Binary(_) => true,
        _ => false,
    }
}
