//! Sets of paths.

ghost use Rattle.std.specs.Prelude.{◌≡◌, List, IfOk, IsOkUnless};
ghost use Rattle.std.specs.List.{list_any};
ghost use Rattle.vortex_terms.specs.Path.{PathPart};
ghost use Rattle.vortex_dtype.specs.Paths.{path_eq};
ghost use Rattle.vortex_dtype.specs.PathSets.{has_path};

use crate::paths::FieldPath;
use std::alloc::Global;
use std::collections::HashSet;
use vortex_names::DTypeError;

/// A set of paths. Contracts see of it which paths it has, by `has_path`.
#[derive(Drop)]
pub struct FieldPathSet {
    paths: HashSet<FieldPath>,
}

impl FieldPathSet {
    /// The set of these paths.
    pub fn from_paths(alloc: Global, paths: Vec<FieldPath>) -> Result<FieldPathSet, DTypeError>
        ensures paths { IfOk result (λ s.
            (path : List PathPart) → has_path s path ≡ list_any (path_eq path) paths.items) }
        ensures memory { IsOkUnless result DTypeError.OutOfMemory }
    {
        let paths = paths.into_iter().collect(alloc)?;
        Ok(FieldPathSet { paths })
    }

    /// Whether the set has the path.
    pub fn contains(&self, path: &FieldPath) -> bool
        ensures { result ≡ has_path self.now path.now }
    {
        self.paths.contains(path)
    }
}
