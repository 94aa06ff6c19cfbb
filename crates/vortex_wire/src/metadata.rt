//! The metadata of three encodings.

ghost use Rattle.std.specs.Prelude.{◌≡◌, Some, IfOk, IsOkUnless};
ghost use Rattle.std.specs.Option.{ok_or};
ghost use Rattle.vortex_wire.specs.Metadata.{dict_metadata_of, dict_metadata_bytes};
ghost use Rattle.vortex_wire.specs.Metadata.{decimal_metadata_of, decimal_metadata_bytes};
ghost use Rattle.vortex_wire.specs.Metadata.{list_metadata_of, list_metadata_bytes};

use crate::error::WireError;
use crate::message::{put_singular, put_varint_field, singular_u32, singular_varint};
use crate::schema::{
    DECIMAL_VALUE_TYPE, DICT_CODES_PTYPE, DICT_IS_NULLABLE_CODES, DICT_VALUES_LEN, LIST_ELEMENTS,
};
use std::alloc::Global;

/// How a dictionary is stored.
#[derive(Clone, Copy, Debug, PartialEq, Eq)]
pub struct DictMetadata {
    /// How many values there are.
    pub values_len: u32,
    /// The number of the type of the codes.
    pub codes_ptype: u32,
    /// Whether codes may be null, where that is said.
    pub is_nullable_codes: Option<bool>,
}

impl DictMetadata {
    /// The record of these bytes.
    #[tactic(auto, unfolding(crate::specs::Metadata::dict_metadata_of))]
    pub fn read(b: &[u8]) -> Result<DictMetadata, WireError>
        ensures { result ≡ ok_or (dict_metadata_of b.now) WireError.Malformed }
    {
        let values_len = singular_u32(b, DICT_VALUES_LEN)?;
        let codes_ptype = singular_u32(b, DICT_CODES_PTYPE)?;
        let found = singular_varint(b, DICT_IS_NULLABLE_CODES)?;
        let is_nullable_codes = found.map(|n| n != 0);
        Ok(DictMetadata {
            values_len,
            codes_ptype,
            is_nullable_codes,
        })
    }

    /// The bytes of the record.
    #[tactic(auto, using(crate::proofs::Records::dict_again))]
    pub fn write(&self, alloc: Global) -> Result<Vec<u8>, WireError>
        ensures written { IfOk result (λ v. v.items ≡ dict_metadata_bytes self.now) }
        ensures memory { IsOkUnless result WireError.OutOfMemory }
        ensures again { dict_metadata_of (dict_metadata_bytes self.now) ≡ Some self.now }
    {
        let DictMetadata {
            values_len,
            codes_ptype,
            is_nullable_codes,
        } = *self;
        let mut out = Vec::new(alloc);
        put_singular(&mut out, DICT_VALUES_LEN, values_len)?;
        put_singular(&mut out, DICT_CODES_PTYPE, codes_ptype)?;
        if let Some(is_nullable) = is_nullable_codes {
            put_varint_field(&mut out, DICT_IS_NULLABLE_CODES, u64::from(is_nullable))?;
        }
        Ok(out)
    }
}

/// How decimals are stored.
#[derive(Clone, Copy, Debug, PartialEq, Eq)]
pub struct DecimalMetadata {
    /// The number of the width of the values.
    pub value_type: u32,
}

impl DecimalMetadata {
    /// The record of these bytes.
    #[tactic(auto, unfolding(crate::specs::Metadata::decimal_metadata_of))]
    pub fn read(b: &[u8]) -> Result<DecimalMetadata, WireError>
        ensures { result ≡ ok_or (decimal_metadata_of b.now) WireError.Malformed }
    {
        let value_type = singular_u32(b, DECIMAL_VALUE_TYPE)?;
        Ok(DecimalMetadata { value_type })
    }

    /// The bytes of the record.
    #[tactic(auto, using(crate::proofs::Records::decimal_again))]
    pub fn write(&self, alloc: Global) -> Result<Vec<u8>, WireError>
        ensures written { IfOk result (λ v. v.items ≡ decimal_metadata_bytes self.now) }
        ensures memory { IsOkUnless result WireError.OutOfMemory }
        ensures again { decimal_metadata_of (decimal_metadata_bytes self.now) ≡ Some self.now }
    {
        let mut out = Vec::new(alloc);
        put_singular(&mut out, DECIMAL_VALUE_TYPE, self.value_type)?;
        Ok(out)
    }
}

/// How lists are stored.
#[derive(Clone, Copy, Debug, PartialEq, Eq)]
pub struct ListMetadata {
    /// How many elements there are.
    pub elements: u32,
}

impl ListMetadata {
    /// The record of these bytes.
    #[tactic(auto, unfolding(crate::specs::Metadata::list_metadata_of))]
    pub fn read(b: &[u8]) -> Result<ListMetadata, WireError>
        ensures { result ≡ ok_or (list_metadata_of b.now) WireError.Malformed }
    {
        let elements = singular_u32(b, LIST_ELEMENTS)?;
        Ok(ListMetadata { elements })
    }

    /// The bytes of the record.
    #[tactic(auto, using(crate::proofs::Records::list_again))]
    pub fn write(&self, alloc: Global) -> Result<Vec<u8>, WireError>
        ensures written { IfOk result (λ v. v.items ≡ list_metadata_bytes self.now) }
        ensures memory { IsOkUnless result WireError.OutOfMemory }
        ensures again { list_metadata_of (list_metadata_bytes self.now) ≡ Some self.now }
    {
        let mut out = Vec::new(alloc);
        put_singular(&mut out, LIST_ELEMENTS, self.elements)?;
        Ok(out)
    }
}
