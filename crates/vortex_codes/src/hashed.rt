//! Codes in slots, each found by the hash of its key.

ghost use Rattle.std.specs.Prelude.{◌≡◌, ◌+◌, ◌-◌, ◌^◌, ◌<◌, ◌≤◌, ◌↔◌, [], ◌∷◌, ◌++◌, length};
ghost use Rattle.std.specs.Prelude.{replicate, IfErr, IfOk, OnOk, Err, None, if◌then◌else◌, is_ok};
ghost use Rattle.std.specs.Option.{option_map};
ghost use Rattle.vortex_codes.specs.Places.{place_of};
ghost use Rattle.vortex_codes.specs.Refusals.{IsOfSize};
ghost use Rattle.vortex_codes.specs.Keys.{key_at, keys_of, key_size, same_key};
ghost use Rattle.vortex_codes.specs.Slots.{free_count, IsFilled, IsPlaced};
ghost use Rattle.vortex_codes.specs.Table.{start_of, IsIndex, IsParted, IsTable};

use crate::error::DictError;
use crate::hash::KeyHash;
use crate::keys::{BytesSought, append, key_of, next_code, null_after, piece_of};
use crate::slots::{place, walk};
use std::alloc::{AllocError, Global};

/// A code that stands so many slots from the start of its walk stands far.
const FAR: usize = 128;

/// A key's code, and whether it stands far from the start of its walk.
#[derive(Drop)]
pub(crate) struct Added {
    pub(crate) code: u32,
    pub(crate) far: bool,
}

/// The slot at which the walk for a hash begins.
#[inline(always)]
fn start(hash: u64, count: usize) -> usize
    requires { 0 < count }
    ensures value { result ≡ start_of count hash }
    ensures within { result < count }
{
    (hash & (count as u64 - 1)) as usize
}

/// Puts the code of each key into free slots.
fn fill<H: KeyHash>(slots: &mut [u32], hash: &H, bytes: &[u8], offsets: &[u32], null: u32)
    requires parted { IsParted bytes.now offsets.now null }
    requires room { length offsets.now ≤ length slots.old }
    requires free { slots.old ≡ replicate (length slots.old) 0 }
    ensures { IsIndex (H.hash_of hash.now) (key_at bytes.now offsets.now null)
        (length offsets.now - 1) slots.new }
{
    let len = slots.len();
    for code in 0..offsets.len() - 1 {
        let code = code as u32;
        let key = key_of(bytes, offsets, null, code);
        let _at = place(slots, start(hash.hash(key), len), code);
    }
}

/// Slots for the keys, `len` in number.
fn spread<H: KeyHash>(
    alloc: Global,
    hash: &H,
    bytes: &[u8],
    offsets: &[u32],
    null: u32,
    len: usize,
) -> Result<Vec<u32>, AllocError>
    requires parted { IsParted bytes.now offsets.now null }
    requires room { length offsets.now ≤ len }
    ensures index { IfOk result (λ v. IsIndex (H.hash_of hash.now)
        (key_at bytes.now offsets.now null) (length offsets.now - 1) v.items) }
    ensures len { IfOk result (λ v. length v.items ≡ len) }
{
    let mut slots = vec![in alloc; 0u32; len]?;
    fill(slots.as_mut_slice(), hash, bytes, offsets, null);
    Ok(slots)
}

/// Makes the slots more, where fewer than half of them would be free with one key more.
fn make_room<H: KeyHash>(
    slots: &mut Vec<u32>,
    hash: &H,
    bytes: &[u8],
    offsets: &[u32],
    null: u32,
) -> Result<(), AllocError>
    requires { IsTable (H.hash_of hash.now) bytes.now offsets.now null slots.old.items }
    ensures table { IsTable (H.hash_of hash.now) bytes.now offsets.now null slots.new.items }
    ensures room { OnOk result (length offsets.now < length slots.new.items) }
{
    let len = slots.len();
    if offsets.len() <= len / 2 {
        return Ok(());
    }
    let alloc = *slots.allocator();
    let wide = spread(
        alloc,
        hash,
        bytes,
        offsets,
        null,
        len.saturating_mul(2).max(16),
    )?;
    *slots = wide;
    Ok(())
}

/// Puts the code of a key into a free slot, and tells whether it stands far from the start of its
/// walk.
fn put(slots: &mut Vec<u32>, hash: u64, code: u32) -> bool
    requires fits { code + 1 < 2 ^ 32 }
    requires free { 0 < free_count slots.old.items }
    ensures more { IsFilled slots.old.items slots.new.items code }
    ensures placed { IsPlaced slots.new.items (start_of (length slots.new.items) hash) code }
    ensures free { free_count slots.new.items + 1 ≡ free_count slots.old.items }
{
    let slots = slots.as_mut_slice();
    let len = slots.len();
    let start = start(hash, len);
    let at = place(slots, start, code);
    let passed = if at < start {
        len - start + at
    } else {
        at - start
    };
    passed > FAR
}

/// The code of a key that has the hash.
#[inline(always)]
pub(crate) fn code_of<H: KeyHash>(
    slots: &[u32],
    hasher: &H,
    hash: u64,
    bytes: &[u8],
    offsets: &[u32],
    null: u32,
    key: Option<&[u8]>,
) -> Option<u32>
    requires hash { hash ≡ H.hash_of hasher.now (option_map (λ k. k.now) key) }
    requires table { IsTable (H.hash_of hasher.now) bytes.now offsets.now null slots.now }
    ensures { result ≡ place_of same_key (option_map (λ k. k.now) key.entry)
        (keys_of bytes.now offsets.now null) }
{
    let count = slots.len();
    if count == 0 {
        return None;
    }
    let start = start(hash, count);
    let sought = BytesSought {
        bytes,
        offsets,
        null,
        key,
    };
    let at = walk(slots, start, &sought);
    if at == count {
        return None;
    }
    let slot = slots[at];
    if slot == 0 { None } else { Some(slot - 1) }
}

/// Adds a key that is not there and has the hash, and answers its code.
pub(crate) fn add_hashed<H: KeyHash>(
    slots: &mut Vec<u32>,
    hasher: &H,
    hash: u64,
    bytes: &mut Vec<u8>,
    offsets: &mut Vec<u32>,
    null: &mut u32,
    key: Option<&[u8]>,
) -> Result<Added, DictError>
    requires hash { hash ≡ H.hash_of hasher.now (option_map (λ k. k.now) key) }
    requires table { IsTable (H.hash_of hasher.now) bytes.old.items offsets.old.items null.old
        slots.old.items }
    requires new { place_of same_key (option_map (λ k. k.now) key)
        (keys_of bytes.old.items offsets.old.items null.old) ≡ None }
    ensures table { IsTable (H.hash_of hasher.now) bytes.new.items offsets.new.items null.new
        slots.new.items }
    ensures keys { keys_of bytes.new.items offsets.new.items null.new
        ≡ (if is_ok result then keys_of bytes.old.items offsets.old.items null.old
        ++ option_map (λ k. k.now) key.entry ∷ []
        else keys_of bytes.old.items offsets.old.items null.old) }
    ensures code { IfOk result (λ a. a.code ≡ length
        (keys_of bytes.old.items offsets.old.items null.old)) }
    ensures too_large { (result ≡ Err DictError.TooLarge)
        ↔ (2 ^ 32 ≤ length bytes.old.items + key_size (option_map (λ k. k.now) key.entry)) }
    ensures errors { IfErr result (λ e. IsOfSize e) }
{
    let piece = piece_of(key);
    let code = next_code(bytes.len(), offsets.len(), piece)?;
    make_room(slots, hasher, bytes.as_slice(), offsets.as_slice(), *null)?;
    append(bytes, offsets, piece)?;
    *null = null_after(key, *null, code);
    let far = put(slots, hash, code);
    Ok(Added { code, far })
}
