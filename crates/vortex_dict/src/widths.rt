//! Types of codes.

ghost use Rattle.std.specs.Prelude.{◌≡◌, ◌*◌, ◌≤◌, [], ◌∷◌, min, Err, IfOk, OnErr};
ghost use Rattle.std.specs.List.{All};
ghost use Rattle.vortex_number.specs.PType.{byte_width_of};
ghost use Rattle.vortex_dict.specs.Widths.{IsLeastFor, most_possible, codes_in, kind_in};

use crate::constraints::DictConstraints;
use crate::native_value::NativeValue;
use std::alloc::Global;
use vortex_codes::DictError;
use vortex_number::PType;
use vortex_value::NativePType;

/// Codes in the least type that has them all.
#[derive(Drop)]
pub enum DictCodes {
    U8(Vec<u8>),
    U16(Vec<u16>),
    U32(Vec<u32>),
    U64(Vec<u64>),
}

/// The least type without a sign that has a number.
pub fn least_code_type(number: u64) -> PType
    ensures { IsLeastFor (number ∷ []) result }
{
    if number <= 0xFF {
        PType::U8
    } else if number <= 0xFFFF {
        PType::U16
    } else if number <= 0xFFFF_FFFF {
        PType::U32
    } else {
        PType::U64
    }
}

/// The type of the codes of rows of bytes, by the limits.
pub fn bytes_code_type(constraints: &DictConstraints) -> PType
    ensures { IsLeastFor (constraints.now.max_len ∷ []) result }
{
    least_code_type(constraints.max_len as u64)
}

/// How many values of a kind there can be, as the number that the code type is asked to have.
fn most_possible(kind: PType, nullable: bool) -> u64
    ensures { result ≡ most_possible (8 * byte_width_of kind) nullable }
{
    match kind {
        PType::U8 | PType::I8 => { if nullable { 0x101 } else { 0xFF } }
        PType::U16 | PType::I16 => { if nullable { 0x1_0001 } else { 0xFFFF } }
        PType::U32 | PType::I32 => { if nullable { 0x1_0000_0001 } else { 0xFFFF_FFFF } }
        PType::U64 | PType::I64 => u64::MAX,
    }
}

/// The type of the codes of rows of whole numbers, by the limits and by how many such numbers there
/// are.
pub fn primitive_code_type<T: NativeValue>(nullable: bool, constraints: &DictConstraints) -> PType
    ensures { IsLeastFor (min constraints.now.max_len
        (most_possible (8 * byte_width_of T.PTYPE) nullable) ∷ []) result }
{
    least_code_type((constraints.max_len as u64).min(most_possible(T::PTYPE, nullable)))
}

/// The codes as u8.
fn as_u8(alloc: Global, codes: &[u64]) -> Result<Vec<u8>, DictError>
    requires { All (λ c. c ≤ 255) codes.now }
    ensures codes { IfOk result (λ v. v.items ≡ codes.now) }
    ensures memory { OnErr result (result ≡ Err DictError.OutOfMemory) }
{
    Ok(codes.iter().map(|code| *code as u8).collect(alloc)?)
}

/// The codes as u16.
fn as_u16(alloc: Global, codes: &[u64]) -> Result<Vec<u16>, DictError>
    requires { All (λ c. c ≤ 65535) codes.now }
    ensures codes { IfOk result (λ v. v.items ≡ codes.now) }
    ensures memory { OnErr result (result ≡ Err DictError.OutOfMemory) }
{
    Ok(codes.iter().map(|code| *code as u16).collect(alloc)?)
}

/// The codes as u32.
fn as_u32(alloc: Global, codes: &[u64]) -> Result<Vec<u32>, DictError>
    requires { All (λ c. c ≤ 4294967295) codes.now }
    ensures codes { IfOk result (λ v. v.items ≡ codes.now) }
    ensures memory { OnErr result (result ≡ Err DictError.OutOfMemory) }
{
    Ok(codes.iter().map(|code| *code as u32).collect(alloc)?)
}

impl DictCodes {
    /// The codes in the least type that has them all, u8 where there is none.
    pub fn narrowed(alloc: Global, codes: &[u64]) -> Result<DictCodes, DictError>
        ensures codes { IfOk result (λ c. codes_in c ≡ codes.now) }
        ensures width { IfOk result (λ c. IsLeastFor codes.now (kind_in c)) }
        ensures memory { OnErr result (result ≡ Err DictError.OutOfMemory) }
    {
        if codes.iter().all(|code| *code <= 0xFF) {
            return Ok(DictCodes::U8(as_u8(alloc, codes)?));
        }
        if codes.iter().all(|code| *code <= 0xFFFF) {
            return Ok(DictCodes::U16(as_u16(alloc, codes)?));
        }
        if codes.iter().all(|code| *code <= 0xFFFF_FFFF) {
            return Ok(DictCodes::U32(as_u32(alloc, codes)?));
        }
        Ok(DictCodes::U64(codes.to_vec(alloc)?))
    }
}
