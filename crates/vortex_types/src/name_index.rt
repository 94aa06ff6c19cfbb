//! Names looked up, without going over all of them for each.

ghost use Rattle.std.specs.Prelude.{◌≡◌, ℕ, List, IfOk, IsOkUnless};
ghost use Rattle.std.specs.HashMap.{get_by};
ghost use Rattle.std.specs.Str.{bytes_eq};
ghost use Rattle.vortex_terms.specs.StructFields.{name_repeats};
ghost use Rattle.vortex_types.specs.NameIndex.{first_place};

use std::alloc::Global;
use std::collections::HashMap;
use vortex_names::{DTypeError, FieldName};

/// The first place of a name.
pub(crate) fn first_place_of(names: &[FieldName], name: &str) -> Option<usize>
    ensures { result ≡ first_place names.now name.now }
{
    names.iter().position(|n| n.eq_str(name))
}

/// The first place of each name.
pub(crate) fn first_places(
    alloc: Global,
    names: &[FieldName],
) -> Result<HashMap<&str, usize>, DTypeError>
    ensures places { IfOk result (λ m.
        (q : List ℕ) → get_by (λ k. bytes_eq q k.now) m ≡ first_place names.now q) }
    ensures memory { IsOkUnless result DTypeError.OutOfMemory }
{
    let mut places = HashMap::new(alloc);
    let mut i = names.len();
    while i > 0 {
        i -= 1;
        places.insert(names[i].as_str(), i)?;
    }
    Ok(places)
}

/// Whether a name stands twice.
pub(crate) fn repeats(alloc: Global, names: &[FieldName]) -> Result<bool, DTypeError>
    ensures repeats { IfOk result (λ b. b ≡ name_repeats names.now) }
    ensures memory { IsOkUnless result DTypeError.OutOfMemory }
{
    let mut places = HashMap::new(alloc);
    let mut i = names.len();
    while i > 0 {
        i -= 1;
        if places.insert(names[i].as_str(), i)?.is_some() {
            return Ok(true);
        }
    }
    Ok(false)
}
