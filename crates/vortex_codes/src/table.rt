//! A table of keys without repeats, found by hash.

ghost use Rattle.std.specs.Prelude.{◌≡◌, ◌==◌, ℕ, ◌+◌, ◌-◌, ◌^◌, ◌<◌, ◌≤◌, ◌↔◌, [], ◌∷◌, ◌++◌};
ghost use Rattle.std.specs.Prelude.{length, IfErr, IfOk, OnOk, OnErr, Err, Some, None, IsTrue};
ghost use Rattle.std.specs.Prelude.{if◌then◌else◌, is_ok};
ghost use Rattle.std.specs.List.{sum_by, IsDistinct};
ghost use Rattle.std.specs.Option.{option_map, unwrap_or};
ghost use Rattle.vortex_codes.specs.Places.{place_of, with_key, code_in};
ghost use Rattle.vortex_codes.specs.Keys.{keys_of, key_size, same_key};
ghost use Rattle.vortex_codes.specs.Refusals.{IsOfSize};
ghost use Rattle.vortex_codes.specs.Table.{IsParted, IsFound};

use crate::error::DictError;
use crate::hash::KeyHash;
use crate::hashed::{add_hashed, code_of};
use crate::may_add::MayAdd;
use crate::ordered::{add_ordered, order_of, ordered_code};
use std::alloc::Global;
use std::collections::BTreeMap;
use std::marker::Model;

/// Keys without repeats, each with its place as its code.
///
/// A key is found by its hash. Once a code stands far from where the walk for its hash begins, as
/// those of keys that were chosen to collide do, keys are found by their order instead.
#[derive(Drop)]
pub struct CodeTable<H: KeyHash> {
    hash: H,
    bytes: Vec<u8>,
    offsets: Vec<u32>,
    null: u32,
    slots: Vec<u32>,
    ordered: Option<BTreeMap<Vec<u8>, u32>>,
}

impl<H: KeyHash> Model for CodeTable<H> {
    ghost use Rattle.std.specs.Prelude.{ℕ, List, Option};

    ghost Value = { List (Option (List ℕ)) };

    ghost use Rattle.vortex_codes.specs.Keys.{keys_of};
    ghost use Rattle.vortex_codes.specs.Table.{IsFound};

    ghost view = { λ t. keys_of t.bytes.items t.offsets.items t.null };

    ghost invariant = { λ t. IsFound (H.hash_of t.hash) t.bytes.items t.offsets.items t.null
        t.slots.items t.ordered };
}

/// Keys in one buffer: key i stands from offset i to offset i + 1, and null, where it is a key, is
/// an empty piece.
#[derive(Drop)]
pub struct Pieces<'a> {
    pub bytes: &'a [u8],
    pub offsets: &'a [u32],
    /// The place of null, where it is a key.
    pub null: Option<u32>,
}

/// The place of null, where it is a key.
fn null_of(null: u32) -> Option<u32>
    requires { null < 2 ^ 32 }
    ensures value { result ≡ (if null == 2 ^ 32 - 1 then None else Some null) }
    ensures again { unwrap_or result (2 ^ 32 - 1) ≡ null }
{
    if null == u32::MAX { None } else { Some(null) }
}

/// The code of a key that has the hash.
#[inline(always)]
fn code_at<H: KeyHash>(
    ordered: &Option<BTreeMap<Vec<u8>, u32>>,
    slots: &[u32],
    hasher: &H,
    hash: u64,
    bytes: &[u8],
    offsets: &[u32],
    null: u32,
    key: Option<&[u8]>,
) -> Option<u32>
    requires hash { hash ≡ H.hash_of hasher.now (option_map (λ k. k.now) key) }
    requires table { IsFound (H.hash_of hasher.now) bytes.now offsets.now null slots.now
        ordered.now }
    ensures { result ≡ place_of same_key (option_map (λ k. k.now) key.entry)
        (keys_of bytes.now offsets.now null) }
{
    match ordered {
        None => code_of(slots, hasher, hash, bytes, offsets, null, key),
        Some(codes) => ordered_code(codes, bytes, offsets, null, key),
    }
}

/// Adds a key that is not there and has the hash, and answers its code.
fn add_to<H: KeyHash>(
    ordered: &mut Option<BTreeMap<Vec<u8>, u32>>,
    slots: &mut Vec<u32>,
    hasher: &H,
    hash: u64,
    bytes: &mut Vec<u8>,
    offsets: &mut Vec<u32>,
    null: &mut u32,
    key: Option<&[u8]>,
) -> Result<u32, DictError>
    requires hash { hash ≡ H.hash_of hasher.now (option_map (λ k. k.now) key) }
    requires table { IsFound (H.hash_of hasher.now) bytes.old.items offsets.old.items null.old
        slots.old.items ordered.old }
    requires new { place_of same_key (option_map (λ k. k.now) key)
        (keys_of bytes.old.items offsets.old.items null.old) ≡ None }
    ensures table { IsFound (H.hash_of hasher.now) bytes.new.items offsets.new.items null.new
        slots.new.items ordered.new }
    ensures keys { keys_of bytes.new.items offsets.new.items null.new
        ≡ (if is_ok result then keys_of bytes.old.items offsets.old.items null.old
        ++ option_map (λ k. k.now) key.entry ∷ []
        else keys_of bytes.old.items offsets.old.items null.old) }
    ensures code { IfOk result (λ c. c ≡ length
        (keys_of bytes.old.items offsets.old.items null.old)) }
    ensures too_large { (result ≡ Err DictError.TooLarge)
        ↔ (2 ^ 32 ≤ length bytes.old.items + key_size (option_map (λ k. k.now) key.entry)) }
    ensures errors { IfErr result (λ e. IsOfSize e) }
{
    if let Some(codes) = ordered {
        return add_ordered(codes, bytes, offsets, null, key);
    }
    let added = add_hashed(slots, hasher, hash, bytes, offsets, null, key)?;
    if added.far {
        let alloc = *slots.allocator();
        if let Ok(codes) = order_of(alloc, bytes.as_slice(), offsets.as_slice(), *null) {
            *ordered = Some(codes);
        }
    }
    Ok(added.code)
}

impl<H: KeyHash> CodeTable<H> {
    pub fn new(alloc: Global, hash: H) -> Result<CodeTable<H>, DictError>
    where
        H: Drop,
        ensures made { IfOk result (λ t. t ≡ []) }
        ensures memory { OnErr result (result ≡ Err DictError.OutOfMemory) }
    {
        let mut offsets = Vec::with_capacity(alloc, 16)?;
        offsets.push_reserved(0);
        Ok(CodeTable {
            hash,
            bytes: Vec::new(alloc),
            offsets,
            null: u32::MAX,
            slots: Vec::new(alloc),
            ordered: None,
        })
    }

    /// No key stands twice.
    pub fn law(&self)
        ensures { IsDistinct same_key self.now }
    {
        let _ = &self.null;
    }

    /// How many keys there are.
    pub fn len(&self) -> usize
        ensures count { result ≡ length self.now }
        ensures small { result < 2 ^ 32 }
    {
        self.offsets.len() - 1
    }

    /// Whether there is no key.
    pub fn is_empty(&self) -> bool
        ensures { IsTrue result ↔ (length self.now ≡ 0) }
    {
        self.len() == 0
    }

    /// How many bytes the keys have, null none.
    pub fn byte_len(&self) -> usize
        ensures sum { result ≡ sum_by key_size self.now }
        ensures small { result < 2 ^ 32 }
    {
        self.bytes.len()
    }

    /// The keys in one buffer.
    pub fn pieces(&self) -> Pieces<'_>
        ensures keys { keys_of result.bytes.now result.offsets.now
            (unwrap_or result.null (2 ^ 32 - 1)) ≡ self.now }
        ensures parted { IsParted result.bytes.now result.offsets.now
            (unwrap_or result.null (2 ^ 32 - 1)) }
        ensures null { result.null ≡ place_of same_key None self.now }
    {
        Pieces {
            bytes: self.bytes.as_slice(),
            offsets: self.offsets.as_slice(),
            null: null_of(self.null),
        }
    }

    /// The place of the key.
    pub fn find(&self, key: Option<&[u8]>) -> Option<u64>
        ensures { result ≡ place_of same_key (option_map (λ k. k.now) key.entry) self.now }
    {
        let hash = self.hash.hash(key);
        let code = code_at(
            &self.ordered,
            self.slots.as_slice(),
            &self.hash,
            hash,
            self.bytes.as_slice(),
            self.offsets.as_slice(),
            self.null,
            key,
        );
        match code {
            Some(code) => Some(u64::from(code)),
            None => None,
        }
    }

    /// Adds a key that is not there, and answers its place. After a refusal the table is as it was.
    pub fn add(&mut self, key: Option<&[u8]>) -> Result<u64, DictError>
        requires { place_of same_key (option_map (λ k. k.now) key) self.old ≡ None }
        ensures added { OnOk result (self.new ≡ self.old
            ++ option_map (λ k. k.now) key.entry ∷ []) }
        ensures place { IfOk result (λ c. c ≡ length self.old) }
        ensures stays { OnErr result (self.new ≡ self.old) }
        ensures too_large { (result ≡ Err DictError.TooLarge)
            ↔ (2 ^ 32 ≤ sum_by key_size self.old + key_size (option_map (λ k. k.now) key.entry)) }
        ensures errors { IfErr result (λ e. IsOfSize e) }
    {
        let hash = self.hash.hash(key);
        let code = add_to(
            &mut self.ordered,
            &mut self.slots,
            &self.hash,
            hash,
            &mut self.bytes,
            &mut self.offsets,
            &mut self.null,
            key,
        )?;
        Ok(u64::from(code))
    }

    /// The place of the key, which is added where it is new and may be added, or nothing where it
    /// is new and may not. Whether it may is asked of a new key alone.
    #[inline(always)]
    pub fn find_or_add<M: MayAdd>(
        &mut self,
        key: Option<&[u8]>,
        may: &M,
    ) -> Result<Option<u32>, DictError>
        ensures keys { OnOk result (self.new ≡ (if M.allows may.now (option_map (λ k. k.now)
            key.entry) then with_key same_key self.old (option_map (λ k. k.now) key.entry)
            else self.old)) }
        ensures code { IfOk result (λ o. o ≡ (if M.allows may.now (option_map (λ k. k.now)
            key.entry) then Some (code_in same_key self.old (option_map (λ k. k.now) key.entry))
            else place_of same_key (option_map (λ k. k.now) key.entry) self.old)) }
        ensures stays { OnErr result (self.new ≡ self.old) }
        ensures new { OnErr result (IsTrue (M.allows may.now (option_map (λ k. k.now) key.entry))
            × (place_of same_key (option_map (λ k. k.now) key.entry) self.old ≡ None)) }
        ensures too_large { (result ≡ Err DictError.TooLarge)
            ↔ (IsTrue (M.allows may.now (option_map (λ k. k.now) key.entry))
            × (place_of same_key (option_map (λ k. k.now) key.entry) self.old ≡ None)
            × (2 ^ 32 ≤ sum_by key_size self.old + key_size (option_map (λ k. k.now) key.entry))) }
        ensures errors { IfErr result (λ e. IsOfSize e) }
    {
        let hash = self.hash.hash(key);
        let found = code_at(
            &self.ordered,
            self.slots.as_slice(),
            &self.hash,
            hash,
            self.bytes.as_slice(),
            self.offsets.as_slice(),
            self.null,
            key,
        );
        if found.is_some() || !may.may_add(key) {
            return Ok(found);
        }
        let code = add_to(
            &mut self.ordered,
            &mut self.slots,
            &self.hash,
            hash,
            &mut self.bytes,
            &mut self.offsets,
            &mut self.null,
            key,
        )?;
        Ok(Some(code))
    }
}
