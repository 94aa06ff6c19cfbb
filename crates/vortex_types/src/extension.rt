//! Extension types.

ghost use Rattle.std.specs.Prelude.{◌≡◌, Some, None, false, IfOk, IsOkUnless, Ok, Err};
ghost use Rattle.std.specs.Option.{option_copied};
ghost use Rattle.vortex_terms.specs.Types.{Legal, is_extension};
ghost use Rattle.vortex_types.specs.Answers.{Answers};
ghost use Rattle.vortex_types.specs.ExtTerm.{ExtTerm, ext_type};
ghost use Rattle.vortex_types.specs.Made.{made_extension};
ghost use Rattle.vortex_types.specs.DTypes.{term_of};

use crate::dtype::DType;
use std::alloc::Global;
use std::marker::Model;
use vortex_names::{DTypeError, ExtID, ExtMetadata};

/// A type with a name of its own, stored as another. Contracts see it as its id, the term of its
/// storage, and its metadata.
#[cycle(types)]
#[derive(Drop)]
pub struct ExtDType {
    id: ExtID,
    storage: DType,
    metadata: Option<ExtMetadata>,
}

impl Model for ExtDType {
    ghost use Rattle.vortex_types.specs.ExtTerm.{ExtTerm, coded_ext};

    ghost Value = { ExtTerm };

    ghost coded = { coded_ext };

    ghost use Rattle.vortex_terms.specs.Term.{extension};
    ghost use Rattle.vortex_terms.specs.Types.{Legal};
    ghost use Rattle.vortex_terms.specs.Weight.{weight};
    ghost use Rattle.vortex_types.specs.DTypes.{term_of};

    ghost view = { λ e. record { id = e.id; storage = term_of e.storage; metadata = e.metadata } };

    ghost invariant = { λ e. Legal (extension e.id (term_of e.storage) e.metadata) };

    ghost size = { λ e. weight e.storage };

    ghost use Rattle.vortex_types.specs.Falls.{dtype_falls};

    ghost size_decreases = { λ e h. dtype_falls e.storage };
}

impl ExtDType {
    /// The type of this id, stored as `storage`, which may not be an extension itself.
    pub fn try_new(
        alloc: Global,
        id: ExtID,
        storage: DType,
        metadata: Option<ExtMetadata>,
    ) -> Result<ExtDType, DTypeError>
        ensures { Answers (λ e. e) result (made_extension id (term_of storage) metadata) }
    {
        if storage.is_extension() {
            return Err(DTypeError::ExtensionStorage);
        }
        ExtDType::new(alloc, id, storage, metadata)
    }

    /// The type of this id, stored as `storage`.
    pub fn new(
        _alloc: Global,
        id: ExtID,
        storage: DType,
        metadata: Option<ExtMetadata>,
    ) -> Result<ExtDType, DTypeError>
        requires { is_extension (term_of storage) ≡ false }
        ensures ext { IfOk result (λ e. Ok e ≡ made_extension id (term_of storage) metadata) }
        ensures memory { IsOkUnless result DTypeError.OutOfMemory }
    {
        id.law();
        storage.law();
        if let Some(metadata) = &metadata {
            metadata.law();
        }
        Ok(ExtDType {
            id,
            storage,
            metadata,
        })
    }

    /// The id.
    pub fn id(&self) -> &ExtID
        ensures { result.now ≡ self.now.id }
    {
        &self.id
    }

    /// The type in which the rows are stored.
    pub fn storage_dtype(&self) -> &DType
        ensures { term_of result.now ≡ self.now.storage }
    {
        &self.storage
    }

    /// The metadata, if there is any.
    pub fn metadata(&self) -> Option<&ExtMetadata>
        ensures { option_copied result ≡ self.now.metadata }
    {
        self.metadata.as_ref()
    }

    /// An equal type.
    pub fn try_clone(&self, alloc: Global) -> Result<ExtDType, DTypeError>
        ensures ext { IfOk result (λ e. e ≡ self.now) }
        ensures memory { IsOkUnless result DTypeError.OutOfMemory }
    {
        let id = self.id.try_clone(alloc)?;
        let storage = self.storage.try_clone(alloc)?;
        let metadata = match &self.metadata {
            Some(metadata) => Some(metadata.try_clone(alloc)?),
            None => None,
        };
        Ok(ExtDType {
            id,
            storage,
            metadata,
        })
    }

    /// The type of the same id and metadata, stored as `storage`.
    pub(crate) fn with_storage(&self, alloc: Global, storage: DType) -> Result<ExtDType, DTypeError>
        requires { is_extension (term_of storage) ≡ false }
        ensures ext { IfOk result (λ e. e ≡ record self.now { storage = term_of storage }) }
        ensures memory { IsOkUnless result DTypeError.OutOfMemory }
    {
        let id = self.id.try_clone(alloc)?;
        let metadata = match &self.metadata {
            Some(metadata) => Some(metadata.try_clone(alloc)?),
            None => None,
        };
        ExtDType::new(alloc, id, storage, metadata)
    }

    /// The type is legal. It does nothing when the program runs.
    pub fn law(&self)
        ensures { Legal (ext_type self.now) }
    {
        let _ = &self.id;
    }
}
