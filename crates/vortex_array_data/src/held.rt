//! How arrays are held.

use std::marker::Model;
use std::rc::Rc;
use vortex_leaves::{Decimals, Numbers, Offsets, Texts};
use vortex_mask::Mask;
use vortex_scalar_value::ScalarValue;
use vortex_types::DType;

/// How rows are held, apart from which are null.
#[derive(Drop)]
#[cycle(arrays)]
pub enum Content {
    /// Rows that are all null.
    Nulls,
    /// Truth values.
    Truths(Mask),
    /// Whole numbers of one kind.
    Numbers(Numbers),
    /// The unscaled numbers of decimals.
    Decimals(Decimals),
    /// Texts, or bytes.
    Texts(Texts),
    /// Lists, by the places at which each begins and ends among the elements.
    Lists(Offsets, Rc<Array>),
    /// Lists of so many elements each.
    FixedLists(u32, Rc<Array>),
    /// Structs, by the columns of their fields.
    Structs(Vec<Array>),
    /// Extensions, by their storage.
    Storage(Rc<Array>),
    /// One value in each row.
    Constant(ScalarValue),
}

/// How rows are held, and where there is a mask, which of them are null: those at which it is
/// false.
#[derive(Drop)]
#[cycle(arrays)]
pub struct Held {
    pub content: Content,
    pub validity: Option<Mask>,
}

/// Rows of a type. Contracts see them as the type, the list of the rows, and the node that they
/// stand in. Its parts are in the open for the crates that compare rows or lay them out; whoever
/// writes them has to prove what is so of each array.
#[derive(Drop)]
#[cycle(arrays)]
pub struct Array {
    /// The type of each row.
    pub dtype: DType,
    /// How many rows there are.
    pub len: usize,
    /// How they are held.
    pub held: Held,
}

impl Model for Array {
    ghost use Rattle.vortex_array_data.specs.Column.{Column, coded_column};

    ghost Value = { Column };

    ghost coded = { coded_column };

    ghost use Rattle.vortex_array_data.specs.ArrayNode.{array_node_count};
    ghost use Rattle.vortex_array_data.specs.Content.{column_of, IsArray};

    ghost view = { column_of };

    ghost invariant = { IsArray };

    ghost size = { λ a. array_node_count a.node };

    ghost use Rattle.vortex_array_data.specs.Falls.{falls};

    ghost size_decreases = { λ a h. falls a };
}
