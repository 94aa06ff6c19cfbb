//! Laws of the rows of nodes.

ghost use Rattle.std.specs.List.{AllByRecursion};
ghost use Rattle.std.specs.Prelude.{◌≡◌, ◌≤◌, ℕ, List, Option, Some, length};
ghost use Rattle.vortex_body.specs.Node.{Node};
ghost use Rattle.vortex_body.specs.Reading.{node_of};
ghost use Rattle.vortex_node_rows.specs.ByteNode.{IsByteNode};
ghost use Rattle.vortex_node_rows.specs.RowsOf.{rows_of};
ghost use Rattle.vortex_node_rows.specs.declared.encoding.Encoding.{Encoding};
ghost use Rattle.vortex_terms.specs.Fits.{Fits};
ghost use Rattle.vortex_terms.specs.Row.{Row};
ghost use Rattle.vortex_terms.specs.Term.{Term};
ghost use Rattle.vortex_terms.specs.Types.{IsBytes};

/// A node stands for as many rows as are asked for, and for no more than 32 bits count.
pub fn rows_are_as_many()
    ensures count { (f : ℕ → Option Encoding) (node : Node) (t : Term) (n : ℕ) (rs : List Row)
        → rows_of f node t n ≡ Some rs → length rs ≡ n }
    ensures few { (f : ℕ → Option Encoding) (node : Node) (t : Term) (n : ℕ) (rs : List Row)
        → rows_of f node t n ≡ Some rs → n ≤ 4294967295 }
{}

/// The rows of a node of bytes fit the type.
pub fn rows_fit()
    ensures { (f : ℕ → Option Encoding) (node : Node) (t : Term) (n : ℕ) (rs : List Row)
        → IsByteNode node → rows_of f node t n ≡ Some rs → AllByRecursion (Fits t) rs }
{}

/// The node of a body of bytes is one of bytes.
pub fn bodies_are_bytes()
    ensures { (body : List ℕ) (node : Node) → IsBytes body → node_of body ≡ Some node
        → IsByteNode node }
{}
