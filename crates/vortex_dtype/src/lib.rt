//! Types, and what leads into them: paths, masks, and views of types that are left in buffers.
#![tactic(auto)]

mod from_proto;
mod masks;
mod path_set;
mod paths;
mod view;
mod viewed_fields;

pub use masks::{FieldMask, masks_select};
pub use path_set::FieldPathSet;
pub use paths::FieldPath;
pub use view::DTypeView;
pub use viewed_fields::{extract_field, project_and_deserialize, resolve_field};
pub use vortex_names::{
    DECIMAL128_MAX_PRECISION, DECIMAL128_MAX_SCALE, DECIMAL256_MAX_PRECISION, DECIMAL256_MAX_SCALE,
    DTypeError, DecimalDType, ExtID, ExtMetadata, Field, FieldName, FieldNames, FieldNamesIntoIter,
    FieldNamesIter, Nullability,
};
pub use vortex_number::PType;
pub use vortex_types::{
    DType, Element, ExtDType, FieldDType, StructFields, StructFieldsIter, TypeRef,
    written_types_are_read,
};

#[cfg(test)]
mod from_proto_tests;
#[cfg(test)]
mod proto_tests;
#[cfg(test)]
mod tests;
