//! Rows of whole numbers as values and codes.

ghost use Rattle.std.specs.Prelude.{◌≡◌, ℕ, ◌+◌, ◌*◌, ◌^◌, ◌<◌, ◌≤◌, [], map, length, pos, false};
ghost use Rattle.std.specs.Prelude.{IfErr, IfOk, IsErr, OnErr, Err, Some, IsTrue, ◌↔◌, not, ◌||◌};
ghost use Rattle.std.specs.Prelude.{nat_le};
ghost use Rattle.std.specs.List.{sum_by};
ghost use Rattle.std.specs.Option.{option_map};
ghost use Rattle.vortex_number.specs.Format.{fits};
ghost use Rattle.vortex_number.specs.PType.{byte_width_of};
ghost use Rattle.vortex_terms.specs.Distinct.{distinct};
ghost use Rattle.vortex_codes.specs.Refusals.{IsOfSize};
ghost use Rattle.vortex_dict.specs.KeyRows.{number_or_null};
ghost use Rattle.vortex_dict.specs.Encoding.{stands, Encodes, EncodesPart, IsFull, code_number};
ghost use Rattle.vortex_dict.specs.inner.Step.{EncodesValue};
ghost use Rattle.vortex_dict.specs.Limits.{Dictionary, most_values, numbers_over};

use crate::bytes::{code_at, has_code};
use crate::code_type::CodeType;
use crate::constraints::DictConstraints;
use crate::native_value::NativeValue;
use crate::numbers::Numbers;
use crate::primitive_rows::PrimitiveRows;
use std::alloc::Global;
use std::marker::{Model, PhantomData};
use vortex_codes::DictError;

/// How many values of a width there may be.
fn most_len(width: usize, constraints: &DictConstraints) -> usize
    requires { 0 < width }
    ensures { result ≡ most_values width constraints.now }
{
    constraints.max_len.min(constraints.max_bytes / width)
}

/// Whether a new value is over a limit, beside so many others, where there may be so many at most.
#[inline(always)]
fn is_full<Code: CodeType>(most: usize, len: usize) -> bool
    ensures { result ≡ (not (fits Code.format (pos len)) || nat_le most len) }
{
    !has_code::<Code>(len) || most <= len
}

/// Makes rows of whole numbers into values and codes, over as many columns as are handed in one
/// after another.
#[derive(Drop)]
pub struct PrimitiveDictEncoder<T: NativeValue, Code: CodeType> {
    lookup: Numbers<T>,
    constraints: DictConstraints,
    code: PhantomData<Code>,
}

impl<T: NativeValue, Code: CodeType> Model for PrimitiveDictEncoder<T, Code> {
    ghost use Rattle.std.specs.Prelude.{map};
    ghost use Rattle.vortex_dict.specs.KeyRows.{number_or_null};
    ghost use Rattle.vortex_dict.specs.Limits.{Dictionary};
    ghost use Rattle.vortex_dict.specs.inner.Kept.{HasCodes};
    ghost use Rattle.vortex_dict.specs.inner.DictionaryCode.{coded_dictionary};

    ghost Value = { Dictionary };

    ghost coded = { coded_dictionary };

    ghost view = { λ e. record {
      values = map (number_or_null T.number) e.lookup;
      constraints = e.constraints;
    } };

    ghost invariant = { λ e. HasCodes Code.format (map (number_or_null T.number) e.lookup) };
}

impl<T: NativeValue, Code: CodeType> PrimitiveDictEncoder<T, Code> {
    pub fn new(alloc: Global, constraints: &DictConstraints) -> PrimitiveDictEncoder<T, Code>
        ensures { result ≡ record { values = []; constraints = constraints.now } }
    {
        PrimitiveDictEncoder {
            lookup: Numbers::new(alloc),
            constraints: *constraints,
            code: PhantomData,
        }
    }

    /// The values are distinct, in few bytes, and each place has a code.
    pub fn law(&self)
        ensures distinct { distinct self.now.values ≡ self.now.values }
        ensures few { length self.now.values < 2 ^ 32 }
        ensures small { sum_by (λ r. byte_width_of T.PTYPE) self.now.values < 2 ^ 32 }
        ensures coded { (i : ℕ) → i < length self.now.values → IsTrue (fits Code.format (pos i)) }
    {
        self.lookup.law();
        let _len = self.lookup.len();
    }

    /// How many values there are.
    pub fn len(&self) -> usize
        ensures { result ≡ length self.now.values }
    {
        self.lookup.len()
    }

    pub fn is_empty(&self) -> bool
        ensures { IsTrue result ↔ (length self.now.values ≡ 0) }
    {
        self.len() == 0
    }

    /// The values, nothing for null.
    pub fn values(&self) -> &[Option<T>]
        ensures { map (number_or_null T.number) result.now ≡ self.now.values }
    {
        self.lookup.as_slice()
    }

    /// The code of a value, which is added where it is new, or nothing where it is new and over a
    /// limit. `most` is how many values there may be.
    #[inline(always)]
    fn encode_value(&mut self, value: Option<T>, most: usize) -> Result<Option<Code>, DictError>
        requires { most ≡ most_values (byte_width_of T.PTYPE) self.old.constraints }
        ensures encoded { IfOk result (λ o. EncodesValue
            (numbers_over Code.format (byte_width_of T.PTYPE) self.old.constraints) self.old.values
            (number_or_null T.number value) self.new.values
            (option_map (code_number Code.number) o)) }
        ensures constraints { self.new.constraints ≡ self.old.constraints }
        ensures stays { OnErr result (self.new.values ≡ self.old.values) }
        ensures new { OnErr result (stands (number_or_null T.number value) self.old.values
            ≡ false) }
        ensures within { OnErr result (numbers_over Code.format
            (byte_width_of T.PTYPE) self.old.constraints self.old.values
            (number_or_null T.number value) ≡ false) }
        ensures too_large { result ≡ Err DictError.TooLarge
            → 2 ^ 32 ≤ byte_width_of T.PTYPE * (length self.old.values + 1) }
        ensures errors { IfErr result (λ e. IsOfSize e) }
    {
        let len = self.lookup.len();
        let over = is_full::<Code>(most, len);
        let Some(place) = self.lookup.find_or_add(value, !over)? else {
            return Ok(None);
        };
        Ok(code_at(place))
    }

    /// The codes of the rows before the first new value over a limit. After a refusal the values
    /// are those of some first rows. Unless memory ran out, TooLarge comes exactly where the values
    /// of the rows before that value, with those that are held, have 2^32 bytes or more.
    pub fn encode(
        &mut self,
        alloc: Global,
        rows: &PrimitiveRows<'_, T>,
    ) -> Result<Vec<Code>, DictError>
        ensures encoded { IfOk result (λ codes. Encodes
            (numbers_over Code.format (byte_width_of T.PTYPE) self.old.constraints) self.old.values
            (map (number_or_null T.number) rows.now) self.new.values
            (map (code_number Code.number) codes.items)) }
        ensures constraints { self.new.constraints ≡ self.old.constraints }
        ensures part { OnErr result (EncodesPart (numbers_over Code.format
            (byte_width_of T.PTYPE) self.old.constraints) self.old.values
            (map (number_or_null T.number) rows.now) self.new.values) }
        ensures too_large { result ≡ Err DictError.TooLarge
            → IsFull (numbers_over Code.format (byte_width_of T.PTYPE) self.old.constraints)
            (λ r. byte_width_of T.PTYPE) self.old.values (map (number_or_null T.number) rows.now) }
        ensures full { IsFull (numbers_over Code.format (byte_width_of T.PTYPE)
            self.old.constraints) (λ r. byte_width_of T.PTYPE) self.old.values
            (map (number_or_null T.number) rows.now) → IsErr result }
        ensures errors { IfErr result (λ e. IsOfSize e) }
    {
        self.law();
        let mut codes = Vec::with_capacity(alloc, rows.len())?;
        let most = most_len(T::PTYPE.byte_width(), &self.constraints);
        for i in 0..rows.len() {
            match self.encode_value(rows.get(i), most) {
                Ok(Some(code)) => codes.push_reserved(code),
                Ok(None) => {
                    self.law();
                    return Ok(codes);
                }
                Err(e) => return Err(e),
            }
        }
        self.law();
        Ok(codes)
    }
}
