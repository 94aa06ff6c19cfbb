//! The type of the elements of a list.

ghost use Rattle.std.specs.Prelude.{◌≡◌, IfOk, IsOkUnless};
ghost use Rattle.vortex_terms.specs.Types.{Legal};
ghost use Rattle.vortex_types.specs.DTypes.{term_of};

use crate::dtype::DType;
use std::alloc::Global;
use std::marker::Model;
use std::rc::Rc;
use vortex_names::DTypeError;

/// The type of the elements of a list, which is shared. Contracts see it as its term.
#[cycle(types)]
#[derive(Drop)]
pub struct Element {
    dtype: Rc<DType>,
}

impl Model for Element {
    ghost use Rattle.vortex_terms.specs.Term.{Term};
    ghost use Rattle.vortex_terms.specs.TermCode.{coded_term};

    ghost Value = { Term };

    ghost coded = { coded_term };

    ghost use Rattle.vortex_terms.specs.Types.{Legal};
    ghost use Rattle.vortex_terms.specs.Weight.{weight};
    ghost use Rattle.vortex_types.specs.DTypes.{term_of};

    ghost view = { λ e. term_of e.dtype.value };

    ghost invariant = { λ e. Legal (term_of e.dtype.value) };

    ghost size = { weight };

    ghost use Rattle.vortex_types.specs.Falls.{dtype_falls};

    ghost size_decreases = { λ e h. dtype_falls e.dtype.value };
}

impl Element {
    /// Elements of this type.
    pub fn new(alloc: Global, dtype: DType) -> Result<Element, DTypeError>
        ensures term { IfOk result (λ e. e ≡ term_of dtype) }
        ensures memory { IsOkUnless result DTypeError.OutOfMemory }
    {
        dtype.law();
        let dtype = Rc::new(alloc, dtype)?;
        Ok(Element { dtype })
    }

    /// The same type, shared.
    pub fn try_clone(&self, _alloc: Global) -> Result<Element, DTypeError>
        ensures term { IfOk result (λ e. e ≡ self.now) }
        ensures memory { IsOkUnless result DTypeError.OutOfMemory }
    {
        let dtype = self.dtype.clone()?;
        Ok(Element { dtype })
    }

    /// The type.
    pub fn as_dtype(&self) -> &DType
        ensures { term_of result.now ≡ self.now }
    {
        &self.dtype
    }

    /// The type is legal. It does nothing when the program runs.
    pub fn law(&self)
        ensures { Legal self.now }
    {
        let _ = &self.dtype;
    }
}
