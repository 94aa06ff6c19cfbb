//! Whole numbers of every width, decimals, and the operators on them.
#![tactic(auto)]

mod decimal;
mod native;
mod numeric_operator;
mod operator;
mod pvalue;
#[cfg(test)]
mod tests;

pub use decimal::{DecimalValue, DecimalValueType, NativeDecimalType};
pub use native::{NativePType, PhysicalPType};
pub use numeric_operator::NumericOperator;
pub use operator::Operator;
pub use pvalue::PValue;
pub use vortex_number::{PType, ToBytes, TryFromBytes, ValueError, WholeNumber};
