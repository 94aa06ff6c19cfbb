//! Worked nodes of arrays as a law.

ghost use Rattle.std.specs.Prelude.{◌∷◌, [], false, ℕ};
ghost use Rattle.vortex_body.specs.Node.{child, no_nodes, node};
ghost use Rattle.vortex_node_rows.specs.Worked.{byte, fixed, lists, offsets};
ghost use Rattle.vortex_terms.specs.Term.{fixed_size_list, list};
ghost use Rattle.vortex_array_decode.specs.WorkedAgreement.{WorkedAgrees, constants_of, fixed_of, lists_of, numbers_of, pair_type, pairs, structs_of, truths_of};

/// Which nodes of arrays agree with literal nodes of bodies, and which do not.
pub fn agreement_is_worked()
    ensures fields { WorkedAgrees pair_type 2 pairs
        (structs_of 2 (numbers_of 2 ∷ truths_of 2 ∷ truths_of 2 ∷ [])) }
    ensures no_mask { WorkedAgrees pair_type 2 pairs (structs_of 2 (numbers_of 2 ∷ truths_of 2 ∷ [])) }
    ensures other_rows { WorkedAgrees pair_type 2 pairs
        (structs_of 3 (numbers_of 2 ∷ truths_of 2 ∷ [])) → ⊥ }
    ensures field_rows { WorkedAgrees pair_type 2 pairs
        (structs_of 2 (numbers_of 3 ∷ truths_of 2 ∷ [])) → ⊥ }
    ensures other_encoding { WorkedAgrees pair_type 2 pairs
        (structs_of 2 (constants_of 2 ∷ truths_of 2 ∷ [])) → ⊥ }
    ensures other_order { WorkedAgrees pair_type 2 pairs
        (structs_of 2 (truths_of 2 ∷ numbers_of 2 ∷ [])) → ⊥ }
    ensures fewer { WorkedAgrees pair_type 2 pairs (structs_of 2 (numbers_of 2 ∷ [])) → ⊥ }
    ensures more { WorkedAgrees pair_type 2 pairs
        (structs_of 2 (numbers_of 2 ∷ truths_of 2 ∷ numbers_of 2 ∷ [])) → ⊥ }
    ensures elements { (m : ℕ) → WorkedAgrees (list (byte false) false) 2
        (lists 3 (0 ∷ 1 ∷ 2 ∷ []) (7 ∷ 8 ∷ 9 ∷ [])) (lists_of 2 (numbers_of m)) }
    ensures list_rows { (m : ℕ) → WorkedAgrees (list (byte false) false) 2
        (lists 3 (0 ∷ 1 ∷ 2 ∷ []) (7 ∷ 8 ∷ 9 ∷ [])) (lists_of 3 (numbers_of m)) → ⊥ }
    ensures other_elements { (m : ℕ) → WorkedAgrees (list (byte false) false) 2
        (lists 3 (0 ∷ 1 ∷ 2 ∷ []) (7 ∷ 8 ∷ 9 ∷ [])) (lists_of 2 (constants_of m)) → ⊥ }
    ensures below { (m k : ℕ)
        → WorkedAgrees (list (fixed_size_list (byte false) 2 false) false) 1
        (node 5 (8 ∷ 1 ∷ []) (child (fixed (7 ∷ 8 ∷ [])) no_nodes) (offsets (0 ∷ 1 ∷ []) ∷ []))
        (lists_of 1 (fixed_of m (numbers_of k))) }
    ensures fixed { WorkedAgrees (fixed_size_list (byte false) 2 false) 2
        (fixed (7 ∷ 8 ∷ 9 ∷ 10 ∷ [])) (fixed_of 2 (numbers_of 4)) }
    ensures fixed_rows { WorkedAgrees (fixed_size_list (byte false) 2 false) 2
        (fixed (7 ∷ 8 ∷ 9 ∷ 10 ∷ [])) (fixed_of 2 (numbers_of 2)) → ⊥ }
{}
