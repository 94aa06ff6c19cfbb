//! Whole columns as values and codes, without limits.

ghost use Rattle.std.specs.Prelude.{◌≡◌, ◌^◌, ◌≤◌, map, IfErr, IfOk, IsErr, Err};
ghost use Rattle.std.specs.List.{sum_by};
ghost use Rattle.vortex_number.specs.PType.{byte_width_of};
ghost use Rattle.vortex_terms.specs.Distinct.{distinct, codes_of};
ghost use Rattle.vortex_codes.specs.Refusals.{IsOfSize};
ghost use Rattle.vortex_dict.specs.KeyRows.{bytes_or_null, number_or_null};
ghost use Rattle.vortex_dict.specs.Limits.{byte_count};

use crate::bytes::BytesDictEncoder;
use crate::bytes_rows::BytesRows;
use crate::constraints::UNCONSTRAINED;
use crate::native_value::NativeValue;
use crate::primitive::PrimitiveDictEncoder;
use crate::primitive_rows::PrimitiveRows;
use std::alloc::Global;
use vortex_codes::DictError;

/// The values of all rows, in an encoder that may go on, and the code of each row. Unless memory
/// ran out, TooLarge comes exactly where the values have 2^32 bytes or more.
pub fn encode_all_bytes(
    alloc: Global,
    rows: &BytesRows<'_>,
) -> Result<(BytesDictEncoder<u64>, Vec<u64>), DictError>
    ensures values { IfOk result (λ p. p.0.values ≡ distinct (map bytes_or_null rows.now)) }
    ensures codes { IfOk result (λ p. p.1.items ≡ codes_of (map bytes_or_null rows.now)) }
    ensures constraints { IfOk result (λ p. p.0.constraints ≡ UNCONSTRAINED) }
    ensures too_large { result ≡ Err DictError.TooLarge
        → 2 ^ 32 ≤ sum_by byte_count (distinct (map bytes_or_null rows.now)) }
    ensures full { 2 ^ 32 ≤ sum_by byte_count (distinct (map bytes_or_null rows.now))
        → IsErr result }
    ensures errors { IfErr result (λ e. IsOfSize e) }
{
    rows.law();
    let mut encoder = BytesDictEncoder::<u64>::new(alloc, &UNCONSTRAINED)?;
    let codes = match encoder.encode(alloc, rows) {
        Ok(codes) => codes,
        Err(e) => return Err(e),
    };
    encoder.law();
    Ok((encoder, codes))
}

/// The values of all rows, in an encoder that may go on, and the code of each row. Unless memory
/// ran out, TooLarge comes exactly where the values have 2^32 bytes or more.
pub fn encode_all_numbers<T: NativeValue>(
    alloc: Global,
    rows: &PrimitiveRows<'_, T>,
) -> Result<(PrimitiveDictEncoder<T, u64>, Vec<u64>), DictError>
    ensures values { IfOk result (λ p. p.0.values
        ≡ distinct (map (number_or_null T.number) rows.now)) }
    ensures codes { IfOk result (λ p. p.1.items
        ≡ codes_of (map (number_or_null T.number) rows.now)) }
    ensures constraints { IfOk result (λ p. p.0.constraints ≡ UNCONSTRAINED) }
    ensures too_large { result ≡ Err DictError.TooLarge
        → 2 ^ 32 ≤ sum_by (λ r. byte_width_of T.PTYPE)
        (distinct (map (number_or_null T.number) rows.now)) }
    ensures full { 2 ^ 32 ≤ sum_by (λ r. byte_width_of T.PTYPE)
        (distinct (map (number_or_null T.number) rows.now)) → IsErr result }
    ensures errors { IfErr result (λ e. IsOfSize e) }
{
    let mut encoder = PrimitiveDictEncoder::<T, u64>::new(alloc, &UNCONSTRAINED);
    let codes = match encoder.encode(alloc, rows) {
        Ok(codes) => codes,
        Err(e) => return Err(e),
    };
    encoder.law();
    Ok((encoder, codes))
}
