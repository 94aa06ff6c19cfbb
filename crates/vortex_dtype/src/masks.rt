//! Masks over the fields of a type.

ghost use Rattle.std.specs.Prelude.{◌≡◌, ◌↔◌, ◌++◌, true, List, [], IfOk};
ghost use Rattle.std.specs.Option.{option_copied, option_map};
ghost use Rattle.std.specs.Result.{result_map_both};
ghost use Rattle.vortex_terms.specs.Path.{PathPart};
ghost use Rattle.vortex_dtype.specs.Paths.{part_of};
ghost use Rattle.vortex_dtype.specs.Masks.{IsStepInto, selects, selects_all, stepped};
ghost use Rattle.vortex_dtype.specs.Masks.{starting_part};

use crate::paths::FieldPath;
use vortex_names::{DTypeError, Field};

/// Which fields of a type are selected.
#[derive(Debug, Drop, PartialEq, Eq)]
pub enum FieldMask {
    /// All of them, and the type itself.
    All,
    /// What the path leads to, and all in it.
    Prefix(FieldPath),
    /// What the path leads to alone.
    Exact(FieldPath),
}

impl FieldMask {
    /// The mask as it is seen from one step further in.
    #[tactic(auto, using(crate::proofs::Masked::stepped_into))]
    pub fn step_into(self) -> Result<FieldMask, DTypeError>
        ensures mask { result ≡ stepped self }
        ensures inner { IfOk result (λ m. IsStepInto self m) }
    {
        match self {
            FieldMask::All => Ok(FieldMask::All),
            FieldMask::Prefix(path) => match path.step_into() {
                Some(path) => {
                    if path.is_root() {
                        Ok(FieldMask::All)
                    } else {
                        Ok(FieldMask::Prefix(path))
                    }
                }
                None => Ok(FieldMask::All),
            },
            FieldMask::Exact(path) => match path.step_into() {
                Some(path) => Ok(FieldMask::Exact(path)),
                None => Err(DTypeError::ExactRoot),
            },
        }
    }

    /// The first step of the path of the mask, which is none at the root.
    pub fn starting_field(&self) -> Result<Option<&Field>, DTypeError>
        ensures { result_map_both (λ o. option_map part_of (option_copied o)) (λ e. e) result
            ≡ starting_part self.now }
    {
        match self {
            FieldMask::All => Err(DTypeError::AllMask),
            FieldMask::Prefix(path) | FieldMask::Exact(path) => Ok(path.parts().first()),
        }
    }

    /// Whether everything is selected.
    pub fn matches_all(&self) -> bool
        ensures all { result ≡ selects_all self.now }
        ensures each { (result ≡ true) ↔ ((path : List PathPart) → selects self.now path ≡ true) }
    {
        match self {
            FieldMask::All => true,
            FieldMask::Prefix(path) => path.is_root(),
            FieldMask::Exact(_) => false,
        }
    }

    /// Whether the type itself is selected.
    #[tactic(auto, using(crate::proofs::Masked::begins_root, crate::proofs::Masked::only_root))]
    pub fn matches_root(&self) -> bool
        ensures { result ≡ selects self.now [] }
    {
        match self {
            FieldMask::All => true,
            FieldMask::Prefix(path) | FieldMask::Exact(path) => path.is_root(),
        }
    }
}

/// Which paths a mask selects: those that begin with the path of a prefix, and the path itself of
/// an exact mask. It does nothing when the program runs.
#[tactic(auto, using(crate::proofs::Masked::prefix_selects, crate::proofs::Masked::exact_selects))]
pub fn masks_select()
    ensures prefix { (front path : List PathPart) → (selects (FieldMask.Prefix front) path ≡ true)
        ↔ ((rest : List PathPart) × (path ≡ front ++ rest)) }
    ensures exact { (only path : List PathPart) →
        (selects (FieldMask.Exact only) path ≡ true) ↔ (path ≡ only) }
{}
