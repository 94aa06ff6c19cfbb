//! The bodies of array messages: trees of nodes, without types and rows.
#![tactic(auto)]

mod body;
mod error;
mod first;
mod known;
mod laws;
mod parts;
mod places;
pub mod schema;
mod tables;
mod tree;
mod walk;

pub use error::BodyError;
pub use laws::{
    bodies_are_found, bodies_are_worked, found_nodes_stand, one_node_stands,
    standing_nodes_are_found,
};
pub use parts::NodeParts;

#[cfg(test)]
mod tests;
