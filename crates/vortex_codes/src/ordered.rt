//! Codes in the order of their keys, for keys whose hashes collide.

ghost use Rattle.std.specs.Prelude.{◌≡◌, ℕ, ◌+◌, ◌-◌, ◌^◌, ◌<◌, ◌≤◌, ◌↔◌, List, [], ◌∷◌, ◌++◌};
ghost use Rattle.std.specs.Prelude.{length, IfErr, IfOk, OnOk, OnErr, Some, None, Err, cond};
ghost use Rattle.std.specs.Prelude.{if◌then◌else◌, is_ok};
ghost use Rattle.std.specs.Option.{option_map};
ghost use Rattle.vortex_codes.specs.Places.{place_of};
ghost use Rattle.vortex_codes.specs.Refusals.{IsOfSize};
ghost use Rattle.vortex_codes.specs.Keys.{key_at, keys_of, key_size, same_key};
ghost use Rattle.vortex_codes.specs.Table.{code_in_order, IsParted, IsApart, IsTree};

use crate::error::DictError;
use crate::keys::{key_of, next_code, null_after, piece_of, push_piece, reserve_piece};
use std::alloc::{AllocError, Global};
use std::collections::BTreeMap;

/// Gives a key its code, where it is no null.
fn insert(
    codes: &mut BTreeMap<Vec<u8>, u32>,
    alloc: Global,
    key: Option<&[u8]>,
    code: u32,
) -> Result<(), AllocError>
    ensures inserted { OnOk result ((bs : List ℕ)
        → code_in_order codes.new bs ≡ cond (same_key (option_map (λ k. k.now) key.entry) (Some bs))
        (Some code) (code_in_order codes.old bs)) }
    ensures stays { OnErr result (codes.new.entries ≡ codes.old.entries) }
{
    let Some(piece) = key else {
        return Ok(());
    };
    let owned = piece.to_vec(alloc)?;
    let _old = codes.insert(owned, code)?;
    Ok(())
}

/// The codes of all keys, in the keys' order.
pub(crate) fn order_of(
    alloc: Global,
    bytes: &[u8],
    offsets: &[u32],
    null: u32,
) -> Result<BTreeMap<Vec<u8>, u32>, AllocError>
    requires parted { IsParted bytes.now offsets.now null }
    requires apart { IsApart (key_at bytes.now offsets.now null) (length offsets.now - 1) }
    ensures { IfOk result (λ codes. IsTree bytes.now offsets.now null codes) }
{
    let mut codes = BTreeMap::new(alloc);
    for code in 0..offsets.len() - 1 {
        let code = code as u32;
        insert(&mut codes, alloc, key_of(bytes, offsets, null, code), code)?;
    }
    Ok(codes)
}

/// The code of a key.
pub(crate) fn ordered_code(
    codes: &BTreeMap<Vec<u8>, u32>,
    bytes: &[u8],
    offsets: &[u32],
    null: u32,
    key: Option<&[u8]>,
) -> Option<u32>
    requires { IsTree bytes.now offsets.now null codes.now }
    ensures { result ≡ place_of same_key (option_map (λ k. k.now) key.entry)
        (keys_of bytes.now offsets.now null) }
{
    match key {
        Some(piece) => codes.get(piece).copied(),
        None => {
            if (null as usize) < offsets.len() - 1 {
                Some(null)
            } else {
                None
            }
        }
    }
}

/// Adds a key that is not there, and answers its code.
pub(crate) fn add_ordered(
    codes: &mut BTreeMap<Vec<u8>, u32>,
    bytes: &mut Vec<u8>,
    offsets: &mut Vec<u32>,
    null: &mut u32,
    key: Option<&[u8]>,
) -> Result<u32, DictError>
    requires table { IsTree bytes.old.items offsets.old.items null.old codes.old }
    requires new { place_of same_key (option_map (λ k. k.now) key)
        (keys_of bytes.old.items offsets.old.items null.old) ≡ None }
    ensures table { IsTree bytes.new.items offsets.new.items null.new codes.new }
    ensures keys { keys_of bytes.new.items offsets.new.items null.new
        ≡ (if is_ok result then keys_of bytes.old.items offsets.old.items null.old
        ++ option_map (λ k. k.now) key.entry ∷ []
        else keys_of bytes.old.items offsets.old.items null.old) }
    ensures code { IfOk result (λ c. c ≡ length
        (keys_of bytes.old.items offsets.old.items null.old)) }
    ensures too_large { (result ≡ Err DictError.TooLarge)
        ↔ (2 ^ 32 ≤ length bytes.old.items + key_size (option_map (λ k. k.now) key.entry)) }
    ensures errors { IfErr result (λ e. IsOfSize e) }
{
    let piece = piece_of(key);
    let code = next_code(bytes.len(), offsets.len(), piece)?;
    reserve_piece(bytes, offsets, piece)?;
    let alloc = *offsets.allocator();
    insert(codes, alloc, key, code)?;
    push_piece(bytes, offsets, piece);
    *null = null_after(key, *null, code);
    Ok(code)
}
