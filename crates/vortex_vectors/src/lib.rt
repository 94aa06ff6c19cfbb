//! Tests of the top call: worked rows, and damaged streams beside a plain reader.
#![tactic(auto)]

#[cfg(test)]
mod damage_tests;
mod laws;
#[cfg(test)]
mod plain_reader;
#[cfg(test)]
mod worked_tests;

pub use laws::encoding_is_spelled;
