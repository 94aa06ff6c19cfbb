//! Paths read from Protocol Buffers messages.

ghost use Rattle.std.specs.Prelude.{◌≡◌, map, IfOk, IsOkUnless};
ghost use Rattle.std.specs.Option.{option_map};
ghost use Rattle.vortex_terms.specs.Path.{by_name};
ghost use Rattle.vortex_wire.specs.Finds.{all_bytes_of};
ghost use Rattle.vortex_proto.specs.PathMessage.{path_in};
ghost use Rattle.vortex_types.specs.Standing.{IsFoundAs};

use crate::paths::FieldPath;
use std::alloc::Global;
use vortex_names::{DTypeError, Field};
use vortex_proto::path_names;
use vortex_wire::WireError;

impl FieldPath {
    /// The path of names that a Protocol Buffers message spells. Malformed where it spells none.
    pub fn from_proto(alloc: Global, bytes: &[u8]) -> Result<FieldPath, DTypeError>
        ensures { IsFoundAs (λ path. path) result (option_map (map by_name) (path_in bytes.now)) }
    {
        match path_names(alloc, bytes) {
            Ok(names) => named_path(alloc, &names),
            Err(WireError::OutOfMemory) => Err(DTypeError::OutOfMemory),
            Err(WireError::Malformed) => Err(DTypeError::Malformed),
        }
    }
}

/// The path of steps by these names.
fn named_path(alloc: Global, names: &[&str]) -> Result<FieldPath, DTypeError>
    ensures path { IfOk result (λ path. path ≡ map by_name (all_bytes_of names.now)) }
    ensures memory { IsOkUnless result DTypeError.OutOfMemory }
{
    let mut fields = Vec::new(alloc);
    for name in names {
        fields.push(Field::from_text(alloc, name)?)?;
    }
    Ok(FieldPath::from_fields(fields))
}
