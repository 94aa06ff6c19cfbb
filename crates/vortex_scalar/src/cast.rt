//! Scalars cast to another type.

ghost use Rattle.vortex_types.specs.DTypes.{term_of};
ghost use Rattle.vortex_scalar.specs.Answers.{Answers};
ghost use Rattle.vortex_scalar.specs.Cast.{cast_scalar};

use crate::scalar::Scalar;
use crate::views::fitting::{Fitting, shared_dtype};
use std::alloc::Global;
use vortex_cast::cast_value;
use vortex_scalar_value::ScalarError;
use vortex_types::DType;

impl Scalar {
    /// The scalar under another type. Fields of structs go by position whatever their names, an
    /// extension is its storage, and a decimal is rounded toward zero as a whole number, but must
    /// be whole at another scale.
    ///
    /// The refusals in order: `CastNull` for null under a type that is not nullable; `CastKind` for
    /// kinds that do not go together; `CastRange` for a number out of range or not whole;
    /// `CastLength` for a list of another length; `CastFields` for another number of fields; then
    /// the first refusal inside. `OutOfMemory` may come at any time.
    pub fn cast(&self, alloc: Global, target: &DType) -> Result<Scalar, ScalarError>
        ensures cast { Answers (λ s. s) result (cast_scalar self.now (term_of target.now)) }
    {
        self.fitting().cast(alloc, target)
    }
}

impl<'a> Fitting<'a> {
    /// The scalar under another type.
    pub(crate) fn cast(&self, alloc: Global, target: &DType) -> Result<Scalar, ScalarError>
        ensures cast { Answers (λ s. s) result (cast_scalar self.now (term_of target.now)) }
    {
        self.law();
        let value = match cast_value(
            alloc,
            self.dtype().type_ref(),
            self.value(),
            target.type_ref(),
        ) {
            Ok(value) => value,
            Err(e) => return Err(e),
        };
        let dtype = shared_dtype(alloc, target)?;
        Ok(Scalar::new(dtype, value))
    }
}
