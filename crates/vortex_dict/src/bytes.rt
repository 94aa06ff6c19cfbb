//! Rows of bytes as values and codes.

ghost use Rattle.std.specs.Prelude.{◌≡◌, ℕ, ◌+◌, ◌*◌, ◌^◌, ◌<◌, ◌≤◌, [], map, length, pos, false};
ghost use Rattle.std.specs.Prelude.{IfErr, IfOk, IsErr, OnErr, Err, Some, None, IsTrue, cond};
ghost use Rattle.std.specs.Prelude.{◌==◌, ◌↔◌, ◌-◌, if◌then◌else◌, not, nat_lt};
ghost use Rattle.std.specs.List.{sum_by};
ghost use Rattle.std.specs.Option.{option_map, unwrap_or};
ghost use Rattle.vortex_number.specs.Format.{fits};
ghost use Rattle.vortex_terms.specs.Distinct.{distinct, first_place};
ghost use Rattle.vortex_terms.specs.Row.{null_row};
ghost use Rattle.vortex_codes.specs.Keys.{keys_of};
ghost use Rattle.vortex_codes.specs.Refusals.{IsOfSize};
ghost use Rattle.vortex_codes.specs.Table.{IsParted};
ghost use Rattle.vortex_dict.specs.KeyRows.{bytes_or_null};
ghost use Rattle.vortex_dict.specs.Encoding.{stands, Encodes, EncodesPart, IsFull, code_number};
ghost use Rattle.vortex_dict.specs.inner.Step.{EncodesValue};
ghost use Rattle.vortex_dict.specs.Limits.{Dictionary, byte_count, counted, over_by, bytes_over};

use crate::bytes_rows::BytesRows;
use crate::code_type::CodeType;
use crate::constraints::DictConstraints;
use std::alloc::Global;
use std::marker::{Model, PhantomData};
use vortex_codes::{BytesHash, CodeTable, DictError, KeyHash, MayAdd, Pieces};

/// Makes rows of bytes into values and codes, over as many columns as are handed in one after
/// another.
#[derive(Drop)]
pub struct BytesDictEncoder<Code: CodeType, H: KeyHash = BytesHash> {
    lookup: CodeTable<H>,
    /// What the values count for.
    dict_bytes: usize,
    constraints: DictConstraints,
    code: PhantomData<Code>,
}

impl<Code: CodeType, H: KeyHash> Model for BytesDictEncoder<Code, H> {
    ghost use Rattle.std.specs.Prelude.{map};
    ghost use Rattle.vortex_dict.specs.KeyRows.{bytes_or_null};
    ghost use Rattle.vortex_dict.specs.Limits.{Dictionary};
    ghost use Rattle.vortex_dict.specs.inner.Kept.{IsBytesDict};
    ghost use Rattle.vortex_dict.specs.inner.DictionaryCode.{coded_dictionary};

    ghost Value = { Dictionary };

    ghost coded = { coded_dictionary };

    ghost view = { λ e. record {
      values = map bytes_or_null e.lookup;
      constraints = e.constraints;
    } };

    ghost invariant = { λ e. IsBytesDict Code.format (map bytes_or_null e.lookup) e.dict_bytes };
}

/// Whether a place is a number of the code type.
#[inline(always)]
pub(crate) fn has_code<Code: CodeType>(place: usize) -> bool
    ensures { result ≡ fits Code.format (pos place) }
{
    Code::from_i128(place as i128).is_some()
}

/// The code of a place.
#[inline(always)]
pub(crate) fn code_at<Code: CodeType>(place: u32) -> Option<Code>
    ensures { option_map (code_number Code.number) result
        ≡ (if fits Code.format (pos place) then Some place else None) }
{
    Code::from_i128(i128::from(place))
}

/// What a value counts for.
#[inline(always)]
fn count_of(key: Option<&[u8]>) -> usize
    ensures value { result ≡ counted (bytes_or_null (option_map (λ k. k.now) key.entry)) }
    ensures small { result < 2 ^ 63 + 16 }
{
    match key {
        None => 16,
        Some(bytes) => {
            let len = bytes.len();
            if len <= 12 { 16 } else { 16 + len }
        }
    }
}

/// Whether a value is over a limit, beside so many that count so much.
#[inline(always)]
fn is_over<Code: CodeType>(
    len: usize,
    dict_bytes: usize,
    constraints: &DictConstraints,
    key: Option<&[u8]>,
) -> bool
    ensures { result ≡ over_by Code.format constraints.now len dict_bytes
        (bytes_or_null (option_map (λ k. k.now) key.entry)) }
{
    !has_code::<Code>(len)
        || constraints.max_len <= len
        || (key.is_some() && counts_more(constraints.max_bytes, dict_bytes, count_of(key)))
}

/// Whether two counts are more than so much.
#[inline(always)]
fn counts_more(most: usize, first: usize, second: usize) -> bool
    ensures { result ≡ nat_lt most (first + second) }
{
    match first.checked_add(second) {
        Some(sum) => most < sum,
        None => true,
    }
}

/// What a new value is tested against.
#[derive(Drop)]
struct Room<'a, Code: CodeType> {
    len: usize,
    dict_bytes: usize,
    constraints: &'a DictConstraints,
    code: PhantomData<Code>,
}

impl<'a, Code: CodeType> MayAdd for Room<'a, Code> {
    ghost allows = { λ s key. not (over_by Code.format s.constraints.now s.len s.dict_bytes
        (bytes_or_null key)) };

    #[inline(always)]
    fn may_add(&self, key: Option<&[u8]>) -> bool {
        !is_over::<Code>(self.len, self.dict_bytes, self.constraints, key)
    }
}

/// The sum of two counts. A call of its own, so that the rows of known values do not pay for it.
#[inline(never)]
fn more(dict_bytes: usize, count: usize) -> usize
    requires { dict_bytes + count < 2 ^ 64 }
    ensures { result ≡ dict_bytes + count }
{
    dict_bytes + count
}

/// Counts a value that has got a place: it is new where it comes behind the others.
#[inline(always)]
fn count_value(dict_bytes: &mut usize, count: usize, place: u32, len: usize)
    requires { dict_bytes.old + count < 2 ^ 64 }
    ensures { dict_bytes.new ≡ cond (place == len) (dict_bytes.old + count) dict_bytes.old }
{
    if place as usize == len {
        *dict_bytes = more(*dict_bytes, count);
    }
}

impl<Code: CodeType> BytesDictEncoder<Code, BytesHash> {
    pub fn new(
        alloc: Global,
        constraints: &DictConstraints,
    ) -> Result<BytesDictEncoder<Code, BytesHash>, DictError>
        ensures made { IfOk result (λ e. e ≡ record
            { values = []; constraints = constraints.now }) }
        ensures memory { OnErr result (result ≡ Err DictError.OutOfMemory) }
    {
        BytesDictEncoder::with_hash(alloc, constraints, BytesHash)
    }
}

impl<Code: CodeType, H: KeyHash> BytesDictEncoder<Code, H> {
    /// An encoder that finds values by a hash function of the caller.
    pub fn with_hash(
        alloc: Global,
        constraints: &DictConstraints,
        hash: H,
    ) -> Result<BytesDictEncoder<Code, H>, DictError>
    where
        H: Drop,
        ensures made { IfOk result (λ e. e ≡ record
            { values = []; constraints = constraints.now }) }
        ensures memory { OnErr result (result ≡ Err DictError.OutOfMemory) }
    {
        Ok(BytesDictEncoder {
            lookup: CodeTable::new(alloc, hash)?,
            dict_bytes: 0,
            constraints: *constraints,
            code: PhantomData,
        })
    }

    /// The values are distinct, in few bytes, and each place has a code.
    pub fn law(&self)
        ensures distinct { distinct self.now.values ≡ self.now.values }
        ensures few { length self.now.values < 2 ^ 32 }
        ensures small { sum_by byte_count self.now.values < 2 ^ 32 }
        ensures coded { (i : ℕ) → i < length self.now.values → IsTrue (fits Code.format (pos i)) }
    {
        self.lookup.law();
        let _len = self.lookup.len();
        let _size = self.lookup.byte_len();
    }

    /// How many values there are.
    pub fn len(&self) -> usize
        ensures { result ≡ length self.now.values }
    {
        self.lookup.len()
    }

    pub fn is_empty(&self) -> bool
        ensures { IsTrue result ↔ (length self.now.values ≡ 0) }
    {
        self.len() == 0
    }

    /// The values in one buffer.
    pub fn values(&self) -> Pieces<'_>
        ensures values { map bytes_or_null (keys_of result.bytes.now result.offsets.now
            (unwrap_or result.null (2 ^ 32 - 1))) ≡ self.now.values }
        ensures parted { IsParted result.bytes.now result.offsets.now
            (unwrap_or result.null (2 ^ 32 - 1)) }
        ensures null { result.null ≡ (if stands null_row self.now.values
            then Some (first_place null_row self.now.values) else None) }
    {
        self.lookup.pieces()
    }

    /// The code of a value, which is added where it is new, or nothing where it is new and over a
    /// limit.
    #[inline(always)]
    fn encode_value(&mut self, key: Option<&[u8]>) -> Result<Option<Code>, DictError>
        ensures encoded { IfOk result (λ o. EncodesValue
            (bytes_over Code.format self.old.constraints) self.old.values
            (bytes_or_null (option_map (λ k. k.now) key.entry)) self.new.values
            (option_map (code_number Code.number) o)) }
        ensures constraints { self.new.constraints ≡ self.old.constraints }
        ensures stays { OnErr result (self.new.values ≡ self.old.values) }
        ensures new { OnErr result (stands (bytes_or_null
            (option_map (λ k. k.now) key.entry)) self.old.values ≡ false) }
        ensures within { OnErr result (bytes_over Code.format self.old.constraints self.old.values
            (bytes_or_null (option_map (λ k. k.now) key.entry)) ≡ false) }
        ensures too_large { result ≡ Err DictError.TooLarge
            → 2 ^ 32 ≤ sum_by byte_count self.old.values + byte_count
            (bytes_or_null (option_map (λ k. k.now) key.entry)) }
        ensures errors { IfErr result (λ e. IsOfSize e) }
    {
        let len = self.lookup.len();
        let _size = self.lookup.byte_len();
        let room = Room::<'_, Code> {
            len,
            dict_bytes: self.dict_bytes,
            constraints: &self.constraints,
            code: PhantomData,
        };
        let Some(place) = self.lookup.find_or_add(key, &room)? else {
            return Ok(None);
        };
        count_value(&mut self.dict_bytes, count_of(key), place, len);
        Ok(code_at(place))
    }

    /// The codes of the rows before the first new value over a limit. After a refusal the values
    /// are those of some first rows. Unless memory ran out, TooLarge comes exactly where the values
    /// of the rows before that value, with those that are held, have 2^32 bytes or more.
    pub fn encode(&mut self, alloc: Global, rows: &BytesRows<'_>) -> Result<Vec<Code>, DictError>
        ensures encoded { IfOk result (λ codes. Encodes
            (bytes_over Code.format self.old.constraints) self.old.values
            (map bytes_or_null rows.now) self.new.values
            (map (code_number Code.number) codes.items)) }
        ensures constraints { self.new.constraints ≡ self.old.constraints }
        ensures part { OnErr result (EncodesPart (bytes_over Code.format self.old.constraints)
            self.old.values (map bytes_or_null rows.now) self.new.values) }
        ensures too_large { result ≡ Err DictError.TooLarge
            → IsFull (bytes_over Code.format self.old.constraints) byte_count self.old.values
            (map bytes_or_null rows.now) }
        ensures full { IsFull (bytes_over Code.format self.old.constraints) byte_count
            self.old.values (map bytes_or_null rows.now) → IsErr result }
        ensures errors { IfErr result (λ e. IsOfSize e) }
    {
        self.law();
        let mut codes = Vec::with_capacity(alloc, rows.len())?;
        for i in 0..rows.len() {
            match self.encode_value(rows.get(i)) {
                Ok(Some(code)) => codes.push_reserved(code),
                Ok(None) => {
                    self.law();
                    return Ok(codes);
                }
                Err(e) => return Err(e),
            }
        }
        self.law();
        Ok(codes)
    }
}
