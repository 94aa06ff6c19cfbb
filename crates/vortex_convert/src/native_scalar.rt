//! Native types whose values are rows of a type.

ghost use Rattle.std.specs.Prelude.{◌≡◌, Bool, true, false, Result, Ok, IfOk, IsOkUnless};
ghost use Rattle.vortex_terms.specs.Term.{Term};
ghost use Rattle.vortex_terms.specs.Row.{Row};
ghost use Rattle.vortex_terms.specs.Nullability.{with_nullability};
ghost use Rattle.vortex_types.specs.DTypes.{term_of};
ghost use Rattle.vortex_scalar_value.specs.declared.error.ScalarError.{ScalarError};
ghost use Rattle.vortex_scalar.specs.ScalarTerm.{ScalarTerm};
ghost use Rattle.vortex_scalar.specs.Answers.{Answers};
ghost use Rattle.vortex_scalar.specs.Made.{typed};
ghost use Rattle.vortex_convert.specs.Refused.{IsRefused};
ghost use Rattle.vortex_convert.specs.Kept.{IsEither, IsEitherTaken};

use std::alloc::Global;
use vortex_scalar::{Scalar, ScalarError, ScalarType};
use vortex_types::DType;

/// A native type whose values are rows of a type, and are read from scalars.
pub trait NativeScalar: ScalarType + Drop {
    // The row of a value.
    ghost row_of: { Self → Row };

    // Whether values are read from scalars of a type.
    ghost takes: { Term → Bool };

    // The row of the value that is read from a scalar, or why none is.
    ghost reads: { ScalarTerm → Result Row ScalarError };

    /// Whether values are read from scalars of this type.
    fn takes(dtype: &DType) -> bool
        ensures { result ≡ takes (term_of dtype.now) };

    /// The scalar of the value, of the type of `ScalarType`.
    fn into_scalar(self, alloc: Global) -> Result<Scalar, ScalarError>
        ensures scalar { IfOk result (λ s. s ≡ typed Self.term (row_of self)) }
        ensures memory { IsOkUnless result ScalarError.OutOfMemory };

    /// The value of a scalar. A type that is not taken is a WrongType.
    fn from_scalar(alloc: Global, scalar: &Scalar) -> Result<Self, ScalarError>
        ensures { Answers row_of result (reads scalar.now) };

    // A type that is not taken is a WrongType.
    ghost refused: { (s : ScalarTerm) → takes s.dtype ≡ false → IsRefused (reads s) };

    // The own type is taken.
    ghost own_taken: { takes Self.term ≡ true };

    // Whether a type is nullable is no matter for whether it is taken, nor for what is read.
    ghost either_taken: { IsEitherTaken takes };

    ghost either: { IsEither reads };

    // The row of a value is read as that row.
    ghost kept: { (x : Self) → reads (typed Self.term (row_of x)) ≡ Ok (row_of x) };
}

/// The scalar of a value is read as the row of that value, also where its type is made nullable
/// or not. It does nothing when the program runs.
pub fn rows_are_kept<T: NativeScalar>()
    ensures { (x : T) (n : Bool)
        → T.reads (typed (with_nullability T.term n) (T.row_of x)) ≡ Ok (T.row_of x) }
{}
