//! Views of extensions.

ghost use Rattle.std.specs.Cmp.{partial_equiv_from_equiv};
ghost use Rattle.std.specs.Prelude.{◌≡◌, IsTrue, IfOk, IsOkUnless};
ghost use Rattle.vortex_terms.specs.Types.{is_extension, Legal};
ghost use Rattle.vortex_terms.specs.Fits.{Fits};
ghost use Rattle.vortex_types.specs.DTypes.{term_of};
ghost use Rattle.vortex_types.specs.ExtTerm.{ext_type};
ghost use Rattle.vortex_scalar.specs.LargeViews.{kept_if, storage_scalar};
ghost use Rattle.vortex_scalar.specs.ViewRows.{view_of};
ghost use Rattle.vortex_scalar.specs.Compare.{scalar_eq, scalar_cmp};
ghost use Rattle.vortex_scalar.specs.HashInput.{scalar_writes};
ghost use Rattle.vortex_scalar.specs.EqualLaws.{scalar_equivalence, scalar_order, scalar_alike};

use crate::scalar::Scalar;
use crate::views::fitting::{Fitting, shared_dtype};
use std::alloc::Global;
use std::cmp::Ordering;
use std::hash::{Hash, Hasher};
use std::marker::Model;
use vortex_scalar_value::{ScalarError, ScalarValue};
use vortex_types::{DType, ExtDType};

/// A scalar of an extension type. Contracts see it as its type and its row.
#[derive(Drop)]
pub struct ExtScalar<'a> {
    pub(super) fitting: Fitting<'a>,
}

impl<'a> Model for ExtScalar<'a> {
    ghost use Rattle.std.specs.Prelude.{IsTrue};
    ghost use Rattle.vortex_terms.specs.Types.{is_extension};
    ghost use Rattle.vortex_scalar.specs.ScalarTerm.{ScalarTerm, coded_scalar};

    ghost Value = { ScalarTerm };

    ghost coded = { coded_scalar };

    ghost view = { λ s. s.fitting };

    ghost invariant = { λ s. IsTrue (is_extension s.fitting.dtype) };
}

impl Scalar {
    /// The extension scalar, where the type is an extension.
    pub fn as_extension_opt(&self) -> Option<ExtScalar<'_>>
        ensures { result ≡ kept_if is_extension self.now }
    {
        match self.dtype() {
            DType::Extension(_) => Some(self.as_extension()),
            _ => None,
        }
    }

    /// The extension scalar.
    pub fn as_extension(&self) -> ExtScalar<'_>
        requires { IsTrue (is_extension self.now.dtype) }
        ensures { result ≡ self.now }
    {
        ExtScalar {
            fitting: self.fitting(),
        }
    }
}

impl<'a> ExtScalar<'a> {
    /// The view of a value under a type. A type that is no extension is a WrongType, and a value
    /// that does not fit the type is a DoesNotFit.
    pub fn try_new(dtype: &'a DType, value: &'a ScalarValue) -> Result<ExtScalar<'a>, ScalarError>
        ensures { result ≡ view_of is_extension (term_of dtype.now) value.now }
    {
        if !dtype.is_extension() {
            return Err(ScalarError::WrongType);
        }
        match Fitting::try_new(dtype, value) {
            Ok(fitting) => Ok(ExtScalar { fitting }),
            Err(e) => Err(e),
        }
    }

    /// The extension type.
    pub fn ext_dtype(&self) -> &'a ExtDType
        ensures { ext_type result.now ≡ self.now.dtype }
    {
        match self.fitting.dtype() {
            DType::Extension(ext) => ext,
            _ => unreachable!(),
        }
    }

    /// The same row under the type of the storage.
    pub fn storage(&self, alloc: Global) -> Result<Scalar, ScalarError>
        ensures storage { IfOk result (λ s. s ≡ storage_scalar self.now) }
        ensures memory { IsOkUnless result ScalarError.OutOfMemory }
    {
        self.fitting.law();
        let dtype = shared_dtype(alloc, self.ext_dtype().storage_dtype())?;
        let value = self.fitting.value().try_clone(alloc)?;
        Ok(Scalar::new(dtype, value))
    }

    /// The type is a legal one, of an extension, and the row fits it. It does nothing when the program runs.
    pub fn law(&self)
        ensures kind { IsTrue (is_extension self.now.dtype) }
        ensures legal { Legal self.now.dtype }
        ensures fits { Fits self.now.dtype self.now.row }
    {
        self.fitting.law();
    }
}

impl<'a> PartialEq for ExtScalar<'a> {
    ghost eq = { scalar_eq };

    ghost laws = { partial_equiv_from_equiv scalar_equivalence };

    fn eq(&self, other: &ExtScalar<'a>) -> bool {
        self.fitting.equals(&other.fitting)
    }
}

impl<'a> Eq for ExtScalar<'a> {
    ghost laws = { scalar_equivalence };
}

impl<'a> PartialOrd for ExtScalar<'a> {
    ghost partial_cmp = { scalar_cmp };

    ghost laws = { scalar_order };

    fn partial_cmp(&self, other: &ExtScalar<'a>) -> Option<Ordering> {
        self.fitting.compare(&other.fitting)
    }
}

impl<'a> Hash for ExtScalar<'a> {
    ghost hash_input = { scalar_writes };

    ghost respects_eq = { scalar_alike.fed };

    fn hash<H: Hasher>(&self, state: &mut H) {
        self.fitting.feed(state);
    }
}
