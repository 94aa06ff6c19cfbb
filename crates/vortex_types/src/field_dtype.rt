//! The type of a field.

ghost use Rattle.std.specs.Prelude.{◌≡◌, false, map, IfOk, IsOkUnless};
ghost use Rattle.std.specs.List.{All};
ghost use Rattle.vortex_terms.specs.Term.{primitive};
ghost use Rattle.vortex_terms.specs.Types.{Legal};
ghost use Rattle.vortex_number.specs.WholeKind.{whole_kind};
ghost use Rattle.vortex_types.specs.TypeRefs.{ref_term};
ghost use Rattle.vortex_types.specs.DTypes.{term_of, field_term};

use crate::dtype::DType;
use crate::type_ref::TypeRef;
use std::alloc::Global;
use std::marker::Model;
use vortex_names::DTypeError;
use vortex_number::PType;

/// The type of a field of a struct. Contracts see it as its term.
#[cycle(types)]
#[derive(Drop)]
pub struct FieldDType {
    kind: FieldKind,
}

/// How the type is kept.
#[cycle(types)]
#[derive(Drop)]
pub(crate) enum FieldKind {
    Owned(DType),
}

impl Model for FieldDType {
    ghost use Rattle.vortex_terms.specs.Term.{Term};
    ghost use Rattle.vortex_terms.specs.TermCode.{coded_term};

    ghost Value = { Term };

    ghost coded = { coded_term };

    ghost use Rattle.vortex_terms.specs.Types.{Legal};
    ghost use Rattle.vortex_terms.specs.Weight.{weight};
    ghost use Rattle.vortex_types.specs.DTypes.{field_term};

    ghost view = { λ f. field_term f.kind };

    ghost invariant = { λ f. Legal (field_term f.kind) };

    ghost size = { weight };

    ghost use Rattle.vortex_types.specs.Falls.{kind_falls};

    ghost size_decreases = { λ f h. kind_falls f.kind };
}

impl FieldDType {
    /// A field of this type.
    pub fn from_dtype(dtype: DType) -> FieldDType
        ensures { result ≡ term_of dtype }
    {
        dtype.law();
        FieldDType {
            kind: FieldKind::Owned(dtype),
        }
    }

    /// A field of whole numbers of this kind, none of them null.
    pub fn from_ptype(ptype: PType) -> FieldDType
        ensures { result ≡ primitive (whole_kind ptype) false }
    {
        FieldDType::from_dtype(DType::from_ptype(ptype))
    }

    /// The type.
    pub fn value(&self, alloc: Global) -> Result<DType, DTypeError>
        ensures term { IfOk result (λ t. term_of t ≡ self.now) }
        ensures memory { IsOkUnless result DTypeError.OutOfMemory }
    {
        match &self.kind {
            FieldKind::Owned(dtype) => dtype.try_clone(alloc),
        }
    }

    /// A reference to the type.
    pub fn type_ref(&self) -> TypeRef<'_>
        ensures { ref_term result ≡ self.now }
    {
        match &self.kind {
            FieldKind::Owned(dtype) => dtype.type_ref(),
        }
    }

    /// A field of the same type.
    pub fn try_clone(&self, alloc: Global) -> Result<FieldDType, DTypeError>
        ensures term { IfOk result (λ f. f ≡ self.now) }
        ensures memory { IsOkUnless result DTypeError.OutOfMemory }
    {
        match &self.kind {
            FieldKind::Owned(dtype) => Ok(FieldDType {
                kind: FieldKind::Owned(dtype.try_clone(alloc)?),
            }),
        }
    }

    /// The type is legal. It does nothing when the program runs.
    pub fn law(&self)
        ensures { Legal self.now }
    {
        let _ = &self.kind;
    }
}

/// The types are legal. It does nothing when the program runs.
pub(crate) fn fields_law(types: &[FieldDType])
    ensures { All Legal types.now }
{
    for field in types {
        field.law();
    }
}

/// Fields of these types.
pub(crate) fn owned_fields(alloc: Global, dtypes: Vec<DType>) -> Result<Vec<FieldDType>, DTypeError>
    ensures fields { IfOk result (λ v. v.items ≡ map term_of dtypes.items) }
    ensures memory { IsOkUnless result DTypeError.OutOfMemory }
{
    let mut fields = Vec::new(alloc);
    for dtype in dtypes {
        fields.push(FieldDType::from_dtype(dtype))?;
    }
    Ok(fields)
}
