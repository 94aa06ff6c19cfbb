//! Laws of bodies.

ghost use Rattle.std.specs.Prelude.{◌≡◌, ◌≤◌, ◌+◌, ◌-◌, ◌↔◌, ℕ, List, Some, None};
ghost use Rattle.vortex_body.specs.Body.{IsBody, IsNodeAt, descriptor_of};
ghost use Rattle.vortex_body.specs.Node.{Node, Nodes, most_levels, most_nodes, node, node_buffers, node_children, node_count, node_encoding, node_levels, node_metadata};
ghost use Rattle.vortex_body.specs.Worked.{bare_body, bare_node, shared_body, shared_node};
ghost use Rattle.vortex_body.specs.Reading.{Found, node_at, node_of};

/// What is found at a place stands there, is within the budgets, and leaves the rest of them.
pub fn found_nodes_stand()
    ensures stands { (b : List ℕ) (buffers : List (List ℕ)) (levels left p : ℕ) (f : Found Node)
        → node_at b buffers levels left p ≡ Some f → IsNodeAt b buffers p f.found }
    ensures levels { (b : List ℕ) (buffers : List (List ℕ)) (levels left p : ℕ) (f : Found Node)
        → node_at b buffers levels left p ≡ Some f → node_levels f.found ≤ levels }
    ensures rest { (b : List ℕ) (buffers : List (List ℕ)) (levels left p : ℕ) (f : Found Node)
        → node_at b buffers levels left p ≡ Some f → f.left + node_count f.found ≡ left }
{}

/// What stands at a place within the budgets is found.
pub fn standing_nodes_are_found()
    ensures { (n : Node) (b : List ℕ) (buffers : List (List ℕ)) (levels left p : ℕ)
        → IsNodeAt b buffers p n → node_levels n ≤ levels → node_count n ≤ left
        → node_at b buffers levels left p
        ≡ Some (record { found = n; left = left - node_count n }) }
{}

/// The node that is found in a body is exactly the one that it stands for, and none is found exactly where
/// it stands for none.
pub fn bodies_are_found()
    ensures found { (body : List ℕ) (n : Node) → (node_of body ≡ Some n) ↔ IsBody body n }
    ensures refused { (body : List ℕ)
        → (node_of body ≡ None) ↔ ((n : Node) → IsBody body n → ⊥) }
{}

/// At most one node stands at a place, and a body stands for at most one.
pub fn one_node_stands()
    ensures place { (m n : Node) (b : List ℕ) (buffers : List (List ℕ)) (p : ℕ)
        → IsNodeAt b buffers p m → IsNodeAt b buffers p n → m ≡ n }
    ensures body { (body : List ℕ) (m n : Node) → IsBody body m → IsBody body n → m ≡ n }
{}

/// What literal bytes stand for, and what the limits and the parts of a node are.
pub fn bodies_are_worked()
    ensures bare { node_of bare_body ≡ Some bare_node }
    ensures shared { node_of (shared_body 0) ≡ Some shared_node }
    ensures compressed { node_of (shared_body 1) ≡ None }
    ensures descriptor { descriptor_of 578437695752307201
        ≡ record { padding = 513; compression = 4; length = 134678021 } }
    ensures limits { (most_levels ≡ 128) × (most_nodes ≡ 4000000) }
    ensures measures { (node_levels shared_node ≡ 2) × (node_count shared_node ≡ 3) }
    ensures accessors { (e : ℕ) (m : List ℕ) (cs : Nodes) (bs : List (List ℕ))
        → (node_encoding (node e m cs bs) ≡ e) × (node_metadata (node e m cs bs) ≡ m)
        × (node_children (node e m cs bs) ≡ cs) × (node_buffers (node e m cs bs) ≡ bs) }
{}
