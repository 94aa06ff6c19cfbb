//! Worked nodes in which constants stand, as a law.

ghost use Rattle.std.specs.Prelude.{◌≡◌, false, true, ℕ};
ghost use Rattle.vortex_array_data.specs.ArrayNode.{array_child, array_node, no_array_nodes};
ghost use Rattle.vortex_array_data.specs.Constants.{is_canonical};

use vortex_node_rows::Encoding;

/// Which nodes have no constant in them: one at any place, that of a mask too, is enough.
pub fn canonicals_are_worked()
    ensures bare { (n : ℕ)
        → is_canonical (array_node Encoding.Constant n no_array_nodes) ≡ false }
    ensures leaf { (n : ℕ)
        → is_canonical (array_node Encoding.Primitive n no_array_nodes) ≡ true }
    ensures nulls { (n : ℕ) → is_canonical (array_node Encoding.Null n no_array_nodes) ≡ true }
    ensures elements { (m n : ℕ) → is_canonical (array_node Encoding.List n
        (array_child (array_node Encoding.Constant m no_array_nodes) no_array_nodes)) ≡ false }
    ensures second { (n : ℕ) → is_canonical (array_node Encoding.Struct n
        (array_child (array_node Encoding.VarBin n no_array_nodes)
        (array_child (array_node Encoding.Constant n no_array_nodes) no_array_nodes))) ≡ false }
    ensures below { (n : ℕ) → is_canonical (array_node Encoding.Ext n
        (array_child (array_node Encoding.FixedSizeList n
        (array_child (array_node Encoding.Constant n no_array_nodes) no_array_nodes))
        no_array_nodes)) ≡ false }
    ensures masked { (n : ℕ) → is_canonical (array_node Encoding.Decimal n
        (array_child (array_node Encoding.Bool n no_array_nodes) no_array_nodes)) ≡ true }
{}
