//! The scalars of single rows.

ghost use Rattle.std.specs.Prelude.{◌≡◌, ◌<◌, length, slice_get, IfOk, IsOkUnless, Some};
ghost use Rattle.std.specs.Option.{option_map};
ghost use Rattle.vortex_scalar.specs.Made.{typed};

use crate::error::ArrayError;
use crate::held::Array;
use std::alloc::Global;
use vortex_scalar::Scalar;

impl Array {
    /// Row `i`, with the array's type. What it costs goes by the size of the row.
    pub fn scalar_at(&self, alloc: Global, i: usize) -> Result<Scalar, ArrayError>
        requires { i < length self.now.rows }
        ensures scalar { IfOk result (λ s. Some s
            ≡ option_map (typed self.now.dtype) (slice_get self.now.rows i)) }
        ensures memory { IsOkUnless result ArrayError.OutOfMemory }
    {
        let value = self.value_at(alloc, i)?;
        let Ok(dtype) = self.dtype().try_clone(alloc) else {
            return Err(ArrayError::OutOfMemory);
        };
        Ok(Scalar::new(dtype, value))
    }
}
