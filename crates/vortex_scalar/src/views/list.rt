//! Views of lists.

ghost use Rattle.std.specs.Cmp.{partial_equiv_from_equiv};
ghost use Rattle.std.specs.Prelude.{◌≡◌, Some, IsTrue, IfOk, IsOkUnless, nat_eq};
ghost use Rattle.std.specs.Option.{option_map};
ghost use Rattle.vortex_terms.specs.Types.{Legal};
ghost use Rattle.vortex_terms.specs.Fits.{Fits};
ghost use Rattle.vortex_terms.specs.Row.{is_null};
ghost use Rattle.vortex_types.specs.Accessors.{any_size_list_element_of};
ghost use Rattle.vortex_types.specs.DTypes.{term_of};
ghost use Rattle.vortex_scalar.specs.LargeViews.{is_any_list, kept_if, count_within};
ghost use Rattle.vortex_scalar.specs.LargeViews.{part_scalar, part_scalars};
ghost use Rattle.vortex_scalar.specs.Compare.{scalar_eq, scalar_cmp};
ghost use Rattle.vortex_scalar.specs.HashInput.{scalar_writes};
ghost use Rattle.vortex_scalar.specs.EqualLaws.{scalar_equivalence, scalar_order, scalar_alike};

use crate::scalar::Scalar;
use crate::views::fitting::Fitting;
use std::alloc::Global;
use std::cmp::Ordering;
use std::hash::{Hash, Hasher};
use std::marker::Model;
use vortex_scalar_value::ScalarError;
use vortex_types::DType;

/// A scalar of a list type, of lists of any length or of one. Contracts see it as its type and
/// its row.
#[derive(Drop)]
pub struct ListScalar<'a> {
    pub(super) fitting: Fitting<'a>,
}

impl<'a> Model for ListScalar<'a> {
    ghost use Rattle.std.specs.Prelude.{IsTrue};
    ghost use Rattle.vortex_scalar.specs.ScalarTerm.{ScalarTerm, coded_scalar};
    ghost use Rattle.vortex_scalar.specs.LargeViews.{is_any_list};

    ghost Value = { ScalarTerm };

    ghost coded = { coded_scalar };

    ghost view = { λ s. s.fitting };

    ghost invariant = { λ s. IsTrue (is_any_list s.fitting.dtype) };
}

impl Scalar {
    /// The list, where the type is one of lists.
    pub fn as_list_opt(&self) -> Option<ListScalar<'_>>
        ensures { result ≡ kept_if is_any_list self.now }
    {
        match self.dtype() {
            DType::List(_, _) | DType::FixedSizeList(_, _, _) => Some(self.as_list()),
            _ => None,
        }
    }

    /// The list.
    pub fn as_list(&self) -> ListScalar<'_>
        requires { IsTrue (is_any_list self.now.dtype) }
        ensures { result ≡ self.now }
    {
        ListScalar {
            fitting: self.fitting(),
        }
    }
}

impl<'a> ListScalar<'a> {
    /// The type.
    pub fn dtype(&self) -> &'a DType
        ensures { term_of result.now ≡ self.now.dtype }
    {
        self.fitting.dtype()
    }

    /// How many elements there are, 0 where it is null.
    pub fn len(&self) -> usize
        ensures { result ≡ count_within self.now.row }
    {
        self.fitting.len()
    }

    /// Whether it has no elements or is null.
    pub fn is_empty(&self) -> bool
        ensures { result ≡ nat_eq (count_within self.now.row) 0 }
    {
        self.len() == 0
    }

    /// Whether it is null.
    pub fn is_null(&self) -> bool
        ensures { result ≡ is_null self.now.row }
    {
        self.fitting.is_null()
    }

    /// The type of the elements.
    pub fn element_dtype(&self) -> &'a DType
        ensures { Some (term_of result.now) ≡ any_size_list_element_of self.now.dtype }
    {
        match self.fitting.dtype() {
            DType::List(element, _) | DType::FixedSizeList(element, _, _) => element.as_dtype(),
            _ => unreachable!(),
        }
    }

    /// The element at an index; there is none where the list is null or the index is past its end.
    pub fn element(&self, alloc: Global, index: usize) -> Result<Option<Scalar>, ScalarError>
        ensures element { IfOk result (λ o. o ≡ part_scalar self.now index) }
        ensures memory { IsOkUnless result ScalarError.OutOfMemory }
    {
        self.fitting.part(alloc, index)
    }

    /// The elements in order; there are none where the list is null.
    pub fn elements(&self, alloc: Global) -> Result<Option<Vec<Scalar>>, ScalarError>
        ensures elements { IfOk result (λ o. option_map (λ v. v.items) o ≡ part_scalars self.now) }
        ensures memory { IsOkUnless result ScalarError.OutOfMemory }
    {
        self.fitting.parts(alloc)
    }

    /// The type is a legal one of lists, and the row fits it. It does nothing when the program runs.
    pub fn law(&self)
        ensures kind { IsTrue (is_any_list self.now.dtype) }
        ensures legal { Legal self.now.dtype }
        ensures fits { Fits self.now.dtype self.now.row }
    {
        self.fitting.law();
    }
}

impl<'a> PartialEq for ListScalar<'a> {
    ghost eq = { scalar_eq };

    ghost laws = { partial_equiv_from_equiv scalar_equivalence };

    fn eq(&self, other: &ListScalar<'a>) -> bool {
        self.fitting.equals(&other.fitting)
    }
}

impl<'a> Eq for ListScalar<'a> {
    ghost laws = { scalar_equivalence };
}

impl<'a> PartialOrd for ListScalar<'a> {
    ghost partial_cmp = { scalar_cmp };

    ghost laws = { scalar_order };

    fn partial_cmp(&self, other: &ListScalar<'a>) -> Option<Ordering> {
        self.fitting.compare(&other.fitting)
    }
}

impl<'a> Hash for ListScalar<'a> {
    ghost hash_input = { scalar_writes };

    ghost respects_eq = { scalar_alike.fed };

    fn hash<H: Hasher>(&self, state: &mut H) {
        self.fitting.feed(state);
    }
}
