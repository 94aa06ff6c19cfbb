//! Arrays: rows of a type, and how they are held.
#![tactic(auto)]

pub use vortex_array_canonical::{ToCanonical, canonicals_are_worked};
pub use vortex_array_compare::Compare;
pub use vortex_array_data::{Array, ArrayError, takes_are_worked};
pub use vortex_array_decode::{ArrayContext, ArrayParts, agreement_is_worked};
pub use vortex_array_make::{
    BoolArray, ConstantArray, DecimalArray, ExtArray, FixedSizeListArray, ListArray, NullArray,
    PrimitiveArray, StructArray, VarBinArray, nodes_are_worked,
};
