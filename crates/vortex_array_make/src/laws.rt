//! Worked nodes of arrays that are made, as a law.

ghost use Rattle.std.specs.Prelude.{◌≡◌, ◌∷◌, [], false, true, None, Some};
ghost use Rattle.vortex_array_data.specs.ArrayNode.{array_child, array_node, no_array_nodes};
ghost use Rattle.vortex_array_data.specs.Column.{Column};
ghost use Rattle.vortex_array_data.specs.Content.{mask_nodes};
ghost use Rattle.vortex_array_make.specs.MadeNested.{made_fixed_lists, made_lists, made_structs};

use vortex_node_rows::Encoding;

/// The nodes of arrays that are made of others: how many rows each has, and the mask's child last.
pub fn nodes_are_worked()
    ensures masks { (mask_nodes 2 (Some (true ∷ false ∷ []))
        ≡ array_child (array_node Encoding.Bool 2 no_array_nodes) no_array_nodes)
        × (mask_nodes 2 (Some (true ∷ true ∷ [])) ≡ no_array_nodes)
        × (mask_nodes 2 None ≡ no_array_nodes) }
    ensures lists { (c : Column)
        → (made_lists c (0 ∷ 1 ∷ 3 ∷ []) true (Some (true ∷ false ∷ []))).node
        ≡ array_node Encoding.List 2
        (array_child c.node (array_child (array_node Encoding.Bool 2 no_array_nodes) no_array_nodes)) }
    ensures fixed { (c : Column)
        → (made_fixed_lists c 3 2 true (Some (true ∷ false ∷ []))).node
        ≡ array_node Encoding.FixedSizeList 2
        (array_child c.node (array_child (array_node Encoding.Bool 2 no_array_nodes) no_array_nodes)) }
    ensures structs { (c d : Column)
        → (made_structs ((97 ∷ []) ∷ (98 ∷ []) ∷ []) (c ∷ d ∷ []) 2 true
        (Some (true ∷ false ∷ []))).node
        ≡ array_node Encoding.Struct 2 (array_child c.node
        (array_child d.node (array_child (array_node Encoding.Bool 2 no_array_nodes) no_array_nodes))) }
{}
