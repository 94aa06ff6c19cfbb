//! Flat buffers, read and laid out.
//!
//! The rules are those of the FlatBuffers binary format. The readers ask for no alignment, and a
//! reader of hostile bytes meets [`FlatError::Outside`] and nothing else. There is one layout of
//! each tree of items, [`Items::finish`] makes it, and what is laid out is read again.
#![tactic(auto)]

mod error;
mod extent;
mod finish;
mod item;
mod numbers;
mod places;
mod put;
mod shape;
mod slots;
mod table;
mod targets;
mod tree;
mod vector;
mod vectors;
mod width_counts;

pub use error::FlatError;
pub use finish::read_again;
pub use item::{Item, Items, Slot, Slots};
pub use numbers::u32_at;
pub use table::{Table, root};
pub use vector::Vector;
