//! Short bounds of texts and of bytes.

ghost use Rattle.std.specs.Prelude.{◌≡◌, IsTrue, IfOk, IfSome, IsOkUnless};
ghost use Rattle.std.specs.Option.{option_map};
ghost use Rattle.vortex_bounds.specs.Bytes.{byte_lower_bound, byte_upper_bound};
ghost use Rattle.vortex_bounds.specs.Texts.{text_lower_bound, text_upper_bound};
ghost use Rattle.vortex_terms.specs.Row.{bytes_row};
ghost use Rattle.vortex_types.specs.DTypes.{term_of};
ghost use Rattle.vortex_types.specs.Predicates.{is_utf8, is_binary};
ghost use Rattle.vortex_scalar.specs.Made.{typed};
ghost use Rattle.vortex_scalar.specs.TextViews.{utf8_term, binary_term};
ghost use Rattle.vortex_scalar.specs.Bounds.{lower_scalar, upper_scalar};

use super::binary::BinaryScalar;
use super::held::Held;
use super::utf8::Utf8Scalar;
use std::alloc::Global;
use vortex_bounds::{
    bounds_of_bytes, bounds_of_texts, lower_bytes, lower_text, upper_bytes, upper_text,
};
use vortex_scalar_value::ScalarError;
use vortex_types::DType;

impl<'a> Utf8Scalar<'a> {
    /// A text of at most `max_length` bytes that is at most this one, as
    /// `vortex_bounds::lower_text` has it: this one if it is short enough, and null of null.
    pub fn lower_bound(
        self,
        alloc: Global,
        max_length: usize,
    ) -> Result<Utf8Scalar<'a>, ScalarError>
        ensures bound { IfOk result (λ s. utf8_term s
            ≡ lower_scalar (text_lower_bound max_length) (utf8_term self.entry)) }
        ensures memory { IsOkUnless result ScalarError.OutOfMemory }
    {
        if self.len() <= max_length {
            self.law();
            bounds_of_texts();
            return Ok(self);
        }
        match self.value_ref() {
            Some(text) => {
                let held = Held::text(alloc, self.dtype(), lower_text(text, max_length))?;
                Ok(Utf8Scalar { held })
            }
            None => unreachable!(),
        }
    }

    /// A text of at most `max_length` bytes that is at least this one, as
    /// `vortex_bounds::upper_text` has it: this one if it is short enough, null of null, and none
    /// where there is none.
    pub fn upper_bound(
        self,
        alloc: Global,
        max_length: usize,
    ) -> Result<Option<Utf8Scalar<'a>>, ScalarError>
        ensures bound { IfOk result (λ o. option_map utf8_term o
            ≡ upper_scalar (text_upper_bound max_length) (utf8_term self.entry)) }
        ensures memory { IsOkUnless result ScalarError.OutOfMemory }
    {
        if self.len() <= max_length {
            return Ok(Some(self));
        }
        match self.value_ref() {
            Some(text) => match upper_of_text(alloc, self.dtype(), text, max_length)? {
                Some(held) => Ok(Some(Utf8Scalar { held })),
                None => Ok(None),
            },
            None => unreachable!(),
        }
    }
}

impl<'a> BinaryScalar<'a> {
    /// At most `max_length` bytes that are at most these, as `vortex_bounds::lower_bytes` has them:
    /// these if they are few enough, and null of null.
    pub fn lower_bound(
        self,
        alloc: Global,
        max_length: usize,
    ) -> Result<BinaryScalar<'a>, ScalarError>
        ensures bound { IfOk result (λ s. binary_term s
            ≡ lower_scalar (byte_lower_bound max_length) (binary_term self.entry)) }
        ensures memory { IsOkUnless result ScalarError.OutOfMemory }
    {
        if self.len() <= max_length {
            bounds_of_bytes();
            return Ok(self);
        }
        match self.value_ref() {
            Some(bytes) => {
                let held = Held::bytes(alloc, self.dtype(), lower_bytes(bytes, max_length))?;
                Ok(BinaryScalar { held })
            }
            None => unreachable!(),
        }
    }

    /// At most `max_length` bytes that are at least these, as `vortex_bounds::upper_bytes` has
    /// them: these if they are few enough, null of null, and none where there are none.
    pub fn upper_bound(
        self,
        alloc: Global,
        max_length: usize,
    ) -> Result<Option<BinaryScalar<'a>>, ScalarError>
        ensures bound { IfOk result (λ o. option_map binary_term o
            ≡ upper_scalar (byte_upper_bound max_length) (binary_term self.entry)) }
        ensures memory { IsOkUnless result ScalarError.OutOfMemory }
    {
        if self.len() <= max_length {
            return Ok(Some(self));
        }
        match self.value_ref() {
            Some(bytes) => match upper_of_bytes(alloc, self.dtype(), bytes, max_length)? {
                Some(held) => Ok(Some(BinaryScalar { held })),
                None => Ok(None),
            },
            None => unreachable!(),
        }
    }
}

/// The upper bound of a text under a type of texts.
fn upper_of_text<'a>(
    alloc: Global,
    dtype: &'a DType,
    text: &str,
    max_length: usize,
) -> Result<Option<Held<'a>>, ScalarError>
    requires { IsTrue (is_utf8 (term_of dtype.now)) }
    ensures bound { IfOk result (λ o. o ≡ upper_scalar (text_upper_bound max_length)
        (typed (term_of dtype.now) (bytes_row text.now))) }
    ensures dtype { IfOk result (λ o. IfSome o (λ s. s.dtype ≡ term_of dtype.now)) }
    ensures memory { IsOkUnless result ScalarError.OutOfMemory }
{
    match upper_text(alloc, text, max_length) {
        Ok(Some(bound)) => Ok(Some(Held::text(alloc, dtype, bound.as_str())?)),
        Ok(None) => Ok(None),
        Err(_) => Err(ScalarError::OutOfMemory),
    }
}

/// The upper bound of bytes under a type of bytes.
fn upper_of_bytes<'a>(
    alloc: Global,
    dtype: &'a DType,
    bytes: &[u8],
    max_length: usize,
) -> Result<Option<Held<'a>>, ScalarError>
    requires { IsTrue (is_binary (term_of dtype.now)) }
    ensures bound { IfOk result (λ o. o ≡ upper_scalar (byte_upper_bound max_length)
        (typed (term_of dtype.now) (bytes_row bytes.now))) }
    ensures dtype { IfOk result (λ o. IfSome o (λ s. s.dtype ≡ term_of dtype.now)) }
    ensures memory { IsOkUnless result ScalarError.OutOfMemory }
{
    match upper_bytes(alloc, bytes, max_length) {
        Ok(Some(bound)) => Ok(Some(Held::bytes(alloc, dtype, bound.as_slice())?)),
        Ok(None) => Ok(None),
        Err(_) => Err(ScalarError::OutOfMemory),
    }
}
