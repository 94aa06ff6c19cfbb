//! Arrays as they are held: rows of a type, which are asked, cut, kept and taken.
#![tactic(auto)]

mod access;
mod array;
mod error;
mod held;
mod made;
mod pick_array;
mod pick_leaves;
mod pick_parts;
mod pick_rows;
mod scalars;
mod select;
mod values;

pub use access::is_unmasked;
pub use error::ArrayError;
pub use held::{Array, Content, Held};
pub use made::{MOST_ROWS, fitting_mask};
pub use pick_array::{pick, picked_content, picked_elements, picked_mask, same_type, same_value};
pub use pick_parts::{Parts, followed, valid_places};
pub use pick_rows::Picks;
pub use select::takes_are_worked;
