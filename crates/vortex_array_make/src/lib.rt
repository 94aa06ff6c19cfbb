//! Arrays that are made of rows and of other arrays.
#![tactic(auto)]

mod laws;
mod made_leaves;
mod made_texts;
mod nested;
mod nested_structs;

pub use laws::nodes_are_worked;
pub use made_leaves::{BoolArray, DecimalArray, PrimitiveArray};
pub use made_texts::{ConstantArray, NullArray, VarBinArray};
pub use nested::{FixedSizeListArray, ListArray};
pub use nested_structs::{ExtArray, StructArray};
