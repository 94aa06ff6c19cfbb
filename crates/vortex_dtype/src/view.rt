//! Types that are left in a shared buffer.

ghost use Rattle.std.specs.Prelude.{◌≡◌, Some, None, IfErr, IfOk, IsOkUnless};
ghost use Rattle.vortex_flat.specs.Targets.{root_place};
ghost use Rattle.vortex_terms.specs.Term.{Term};
ghost use Rattle.vortex_terms.specs.Types.{Bounded, IsBytes};
ghost use Rattle.vortex_schema.specs.TypeAt.{IsTypeAt, IsTypeIn};
ghost use Rattle.vortex_schema.specs.Views.{term_at};
ghost use Rattle.vortex_types.specs.DTypes.{term_of};
ghost use Rattle.vortex_types.specs.Standing.{StandsAt};
ghost use Rattle.vortex_dtype.specs.View.{view_term};

use std::alloc::Global;
use std::marker::Model;
use vortex_buffer::ByteBuffer;
use vortex_flat::root;
use vortex_names::DTypeError;
use vortex_schema::TypeAt;
use vortex_types::{DType, check_type, read_type};

/// A type within the limits, checked and left where it stands in a shared buffer. Contracts see it
/// as the bytes and the place.
#[derive(Drop)]
pub struct DTypeView {
    buffer: ByteBuffer,
    place: usize,
}

impl Model for DTypeView {
    ghost use Rattle.vortex_types.specs.DTypes.{term_of};
    ghost use Rattle.vortex_dtype.specs.View.{View};

    ghost Value = { View };

    ghost use Rattle.std.specs.Prelude.{IsSome};
    ghost use Rattle.vortex_schema.specs.Reading.{bounded_type_at};

    ghost view = { λ v. record { bytes = v.buffer.bytes; place = v.place } };

    ghost invariant = { λ v. IsSome (bounded_type_at v.buffer.bytes v.place) };
}

impl DTypeView {
    /// The type that the buffer begins with the place of. It is walked, and no memory is taken.
    #[tactic(auto, using(crate::proofs::Viewed::in_root, crate::proofs::Viewed::not_in_root, crate::proofs::Viewed::no_type_in))]
    pub fn root(buffer: ByteBuffer) -> Result<DTypeView, DTypeError>
        ensures found { IfOk result (λ v. IsTypeIn buffer.bytes (view_term v)) }
        ensures place { IfOk result (λ v.
            (v.bytes ≡ buffer.bytes) × (root_place buffer.bytes ≡ Some v.place)) }
        ensures refused { IfErr result (λ e.
            (e ≡ DTypeError.Malformed) × ((t : Term) → IsTypeIn buffer.bytes t → ⊥)) }
    {
        match root_place(buffer.as_slice()) {
            Ok(place) => DTypeView::at(buffer, place),
            Err(error) => Err(error),
        }
    }

    /// The type that stands at `place`. It is walked, and no memory is taken.
    pub fn at(buffer: ByteBuffer, place: usize) -> Result<DTypeView, DTypeError>
        ensures found { IfOk result (λ v. StandsAt buffer.bytes place (view_term v)) }
        ensures place { IfOk result (λ v. (v.bytes ≡ buffer.bytes) × (v.place ≡ place)) }
        ensures refused { IfErr result (λ e.
            (e ≡ DTypeError.Malformed) × ((t : Term) → StandsAt buffer.bytes place t → ⊥)) }
    {
        match check_type(buffer.as_slice(), place) {
            Ok(()) => Ok(DTypeView { buffer, place }),
            Err(error) => Err(error),
        }
    }

    /// The place in the buffer.
    pub fn place(&self) -> usize
        ensures { result ≡ self.now.place }
    {
        self.place
    }

    /// The bytes of the whole buffer.
    pub fn as_slice(&self) -> &[u8]
        ensures { result.now ≡ self.now.bytes }
    {
        self.buffer.as_slice()
    }

    /// The same type in the same buffer, shared.
    pub fn try_clone(&self, alloc: Global) -> Result<DTypeView, DTypeError>
        ensures view { IfOk result (λ v. v ≡ self.now) }
        ensures memory { IsOkUnless result DTypeError.OutOfMemory }
    {
        match self.buffer.try_clone(alloc) {
            Ok(buffer) => Ok(DTypeView {
                buffer,
                place: self.place,
            }),
            Err(_) => Err(DTypeError::OutOfMemory),
        }
    }

    /// What is so at its place. This does nothing when the program runs.
    #[tactic(auto, using(crate::proofs::Viewed::known_at, crate::proofs::Viewed::known_bounded))]
    pub fn law(&self)
        ensures stands { IsTypeAt self.now.bytes self.now.place (view_term self.now) }
        ensures bounded { Bounded (view_term self.now) }
    {
        let _ = &self.place;
        are_bytes(self.as_slice());
    }

    /// The type, read.
    pub fn value(&self, alloc: Global) -> Result<DType, DTypeError>
        ensures term { IfOk result (λ t. term_of t ≡ view_term self.now) }
        ensures memory { IsOkUnless result DTypeError.OutOfMemory }
    {
        read_type(alloc, self.type_at())
    }

    /// The type as it stands in the buffer.
    #[tactic(auto, using(crate::proofs::Viewed::known_term))]
    pub(crate) fn type_at(&self) -> TypeAt<'_>
        ensures { term_at result ≡ view_term self.now }
    {
        TypeAt::known(self.buffer.as_slice(), self.place)
    }
}

/// The place of the table that the buffer begins with the place of.
#[tactic(auto, using(crate::proofs::Viewed::root_there, crate::proofs::Viewed::no_root))]
fn root_place(bytes: &[u8]) -> Result<usize, DTypeError>
    ensures found { IfOk result (λ p. root_place bytes.now ≡ Some p) }
    ensures refused { IfErr result (λ e.
        (e ≡ DTypeError.Malformed) × (root_place bytes.now ≡ None)) }
{
    match root(bytes) {
        Ok(table) => Ok(table.place()),
        Err(_) => Err(DTypeError::Malformed),
    }
}

/// Each number is a byte. It does nothing when the program runs.
fn are_bytes(bytes: &[u8])
    ensures { IsBytes bytes.now }
{
    let _ = bytes.len();
}
