//! Keys whose bytes stand in one buffer. Key i stands from offset i to offset i + 1.

ghost use Rattle.std.specs.Prelude.{◌≡◌, ◌+◌, ◌-◌, ◌^◌, ◌<◌, ◌≤◌, [], ◌∷◌, ◌++◌, length, ◌↔◌, Err};
ghost use Rattle.std.specs.Prelude.{IfErr, IfOk, OnOk, OnErr, vec_len, vec_capacity};
ghost use Rattle.std.specs.Option.{option_map};
ghost use Rattle.vortex_codes.specs.Refusals.{IsOfSize};
ghost use Rattle.vortex_codes.specs.Keys.{key_at, key_bytes, null_after, same_key, HasKey};

use crate::error::DictError;
use crate::slots::Sought;
use std::alloc::AllocError;

/// The key at a code. `null` is the code of null, and no code where null is no key.
#[inline(always)]
pub(crate) fn key_of<'a>(bytes: &'a [u8], offsets: &[u32], null: u32, code: u32) -> Option<&'a [u8]>
    requires { HasKey bytes.now offsets.now code }
    ensures { option_map (λ k. k.now) result ≡ key_at bytes.now offsets.now null code }
{
    if code == null {
        return None;
    }
    let at = code as usize;
    Some(&bytes[offsets[at] as usize..offsets[at + 1] as usize])
}

/// The bytes of a key, none of null.
pub(crate) fn piece_of<'a>(key: Option<&'a [u8]>) -> &'a [u8]
    ensures { result.now ≡ key_bytes (option_map (λ k. k.now) key.entry) }
{
    match key {
        Some(bytes) => bytes,
        None => &[],
    }
}

/// The code of null when a key has got a code.
pub(crate) fn null_after(key: Option<&[u8]>, null: u32, code: u32) -> u32
    ensures { result ≡ null_after (option_map (λ k. k.now) key.entry) null code }
{
    match key {
        Some(_) => null,
        None => code,
    }
}

/// A key that is sought among the keys.
#[derive(Drop)]
pub(crate) struct BytesSought<'a> {
    pub(crate) bytes: &'a [u8],
    pub(crate) offsets: &'a [u32],
    pub(crate) null: u32,
    pub(crate) key: Option<&'a [u8]>,
}

impl<'a> Sought for BytesSought<'a> {
    ghost finds = { λ s c. same_key (key_at s.bytes.now s.offsets.now s.null c)
        (option_map (λ k. k.now) s.key) };

    ghost knows = { λ s c. HasKey s.bytes.now s.offsets.now c };

    #[inline(always)]
    fn is(&self, code: u32) -> bool {
        match key_of(self.bytes, self.offsets, self.null, code) {
            None => self.key.is_none(),
            Some(found) => match self.key {
                None => false,
                Some(key) => found == key,
            },
        }
    }
}

/// The code of the next key, which has these bytes.
pub(crate) fn next_code(bytes: usize, offsets: usize, piece: &[u8]) -> Result<u32, DictError>
    requires some { 0 < offsets }
    requires small { bytes < 2 ^ 32 }
    ensures code { IfOk result (λ c. (c + 1 ≡ offsets) × (c + 2 < 2 ^ 32)
        × (bytes + length piece.now < 2 ^ 32)) }
    ensures too_large { (result ≡ Err DictError.TooLarge) ↔ (2 ^ 32 ≤ bytes + length piece.now) }
    ensures errors { IfErr result (λ e. IsOfSize e) }
{
    if piece.len() > u32::MAX as usize - bytes {
        return Err(DictError::TooLarge);
    }
    let count = offsets - 1;
    if count >= u32::MAX as usize - 1 {
        return Err(DictError::OutOfMemory);
    }
    Ok(count as u32)
}

/// Makes room for a piece behind the bytes and its end behind the offsets.
pub(crate) fn reserve_piece(
    bytes: &mut Vec<u8>,
    offsets: &mut Vec<u32>,
    piece: &[u8],
) -> Result<(), AllocError>
    ensures bytes { bytes.new.items ≡ bytes.old.items }
    ensures offsets { offsets.new.items ≡ offsets.old.items }
    ensures room { OnOk result (vec_len bytes.new + length piece.now ≤ vec_capacity bytes.new) }
    ensures place { OnOk result (vec_len offsets.new < vec_capacity offsets.new) }
{
    offsets.reserve(1)?;
    bytes.reserve(piece.len())
}

/// Puts a piece at the end of the bytes, and its end behind the offsets.
pub(crate) fn push_piece(bytes: &mut Vec<u8>, offsets: &mut Vec<u32>, piece: &[u8])
    requires small { length bytes.old.items + length piece.now < 2 ^ 32 }
    requires room { vec_len bytes.old + length piece.now ≤ vec_capacity bytes.old }
    requires place { vec_len offsets.old < vec_capacity offsets.old }
    ensures bytes { bytes.new.items ≡ bytes.old.items ++ piece.now }
    ensures offsets { offsets.new.items ≡ offsets.old.items
        ++ (length bytes.old.items + length piece.now) ∷ [] }
{
    let end = bytes.len() + piece.len();
    match bytes.extend_from_slice(piece) {
        Ok(()) => offsets.push_reserved(end as u32),
        Err(_) => unreachable!(),
    }
}

/// The same in one. Where memory is wanting nothing changes.
pub(crate) fn append(
    bytes: &mut Vec<u8>,
    offsets: &mut Vec<u32>,
    piece: &[u8],
) -> Result<(), AllocError>
    requires { length bytes.old.items + length piece.now < 2 ^ 32 }
    ensures bytes { OnOk result (bytes.new.items ≡ bytes.old.items ++ piece.now) }
    ensures offsets { OnOk result (offsets.new.items ≡ offsets.old.items
        ++ (length bytes.old.items + length piece.now) ∷ []) }
    ensures bytes_stay { OnErr result (bytes.new.items ≡ bytes.old.items) }
    ensures offsets_stay { OnErr result (offsets.new.items ≡ offsets.old.items) }
{
    reserve_piece(bytes, offsets, piece)?;
    push_piece(bytes, offsets, piece);
    Ok(())
}
