//! Whether rows of a type may be null.

ghost use Rattle.std.specs.Prelude.{◌≡◌, true, false, IfOk, IsOkUnless};
ghost use Rattle.vortex_terms.specs.Types.{nullable};
ghost use Rattle.vortex_terms.specs.Nullability.{with_nullability, union_nullability};
ghost use Rattle.vortex_names.specs.Nullable.{is_nullable as is_null, nullability_of};
ghost use Rattle.vortex_types.specs.DTypes.{term_of};

use crate::dtype::DType;
use crate::extension::ExtDType;
use std::alloc::Global;
use std::rc::Rc;
use vortex_names::{DTypeError, Nullability};

impl DType {
    /// Whether a row may be null.
    pub fn is_nullable(&self) -> bool
        ensures { result ≡ nullable (term_of self.now) }
    {
        match self {
            DType::Null => true,
            DType::Extension(ext) => ext.storage_dtype().is_nullable(),
            DType::Bool(n)
            | DType::Primitive(_, n)
            | DType::Decimal(_, n)
            | DType::Utf8(n)
            | DType::Binary(n)
            | DType::Struct(_, n)
            | DType::List(_, n)
            | DType::FixedSizeList(_, _, n) => matches!(n, Nullability::Nullable),
        }
    }

    /// Whether a row may be null.
    pub fn nullability(&self) -> Nullability
        ensures { result ≡ nullability_of (nullable (term_of self.now)) }
    {
        Nullability::from(self.is_nullable())
    }

    /// The type with this nullability. Null stays as it is, and an extension changes its storage.
    #[tactic(auto, using(crate::proofs::Stored::no_extension))]
    pub fn with_nullability(
        &self,
        alloc: Global,
        nullability: Nullability,
    ) -> Result<DType, DTypeError>
        ensures term { let wanted = with_nullability (term_of self.now) (is_null nullability) in
            IfOk result (λ t. term_of t ≡ wanted) }
        ensures memory { IsOkUnless result DTypeError.OutOfMemory }
    {
        let n = nullability;
        Ok(match self {
            DType::Null => DType::Null,
            DType::Bool(_) => DType::Bool(n),
            DType::Primitive(ptype, _) => DType::Primitive(*ptype, n),
            DType::Decimal(decimal, _) => DType::Decimal(*decimal, n),
            DType::Utf8(_) => DType::Utf8(n),
            DType::Binary(_) => DType::Binary(n),
            DType::Struct(fields, _) => DType::Struct(fields.try_clone(alloc)?, n),
            DType::List(element, _) => DType::List(element.try_clone(alloc)?, n),
            DType::FixedSizeList(element, size, _) => {
                DType::FixedSizeList(element.try_clone(alloc)?, *size, n)
            }
            DType::Extension(ext) => {
                ext.law();
                let storage = ext.storage_dtype().with_nullability(alloc, n)?;
                DType::Extension(Rc::new(alloc, ext.with_storage(alloc, storage)?)?)
            }
        })
    }

    /// The type with no row null, but that of null stays.
    pub fn as_nonnullable(&self, alloc: Global) -> Result<DType, DTypeError>
        ensures term { IfOk result (λ t. term_of t ≡ with_nullability (term_of self.now) false) }
        ensures memory { IsOkUnless result DTypeError.OutOfMemory }
    {
        self.with_nullability(alloc, Nullability::NonNullable)
    }

    /// The type with null among its rows.
    pub fn as_nullable(&self, alloc: Global) -> Result<DType, DTypeError>
        ensures term { IfOk result (λ t. term_of t ≡ with_nullability (term_of self.now) true) }
        ensures memory { IsOkUnless result DTypeError.OutOfMemory }
    {
        self.with_nullability(alloc, Nullability::Nullable)
    }

    /// The type, nullable where it was or where this nullability says so.
    pub fn union_nullability(
        &self,
        alloc: Global,
        nullability: Nullability,
    ) -> Result<DType, DTypeError>
        ensures term { let wanted = union_nullability (term_of self.now) (is_null nullability) in
            IfOk result (λ t. term_of t ≡ wanted) }
        ensures memory { IsOkUnless result DTypeError.OutOfMemory }
    {
        self.with_nullability(alloc, self.nullability() | nullability)
    }
}

impl ExtDType {
    /// The type with this nullability, which is that of its storage.
    #[tactic(auto, using(crate::proofs::Stored::no_extension))]
    pub fn with_nullability(
        &self,
        alloc: Global,
        nullability: Nullability,
    ) -> Result<ExtDType, DTypeError>
        ensures ext { let storage = with_nullability self.now.storage (is_null nullability) in
            IfOk result (λ e. e ≡ record self.now { storage = storage }) }
        ensures memory { IsOkUnless result DTypeError.OutOfMemory }
    {
        self.law();
        let storage = self.storage_dtype().with_nullability(alloc, nullability)?;
        self.with_storage(alloc, storage)
    }
}
