//! Worked nodes as laws.

ghost use Rattle.std.specs.Prelude.{◌≡◌, ◌∷◌, [], None, Some, false, negsuc, pos, true};
ghost use Rattle.vortex_body.specs.Node.{child, no_nodes, node};
ghost use Rattle.vortex_node_rows.specs.Worked.{bools, byte, constant, counted_list, decimals, fixed, lists, mask, numbers, one_child, texts, wholes, worked};
ghost use Rattle.vortex_terms.specs.Row.{bytes_row, list_row, no_rows, null_row, row, truth_row, whole_row};
ghost use Rattle.vortex_terms.specs.Term.{binary, boolean, decimal, extension, field, fixed_size_list, list, no_fields, null, primitive, signed_16, structure, unsigned_16, utf8};

/// What literal nodes without children stand for, and which stand for nothing.
pub fn rows_are_worked()
    ensures truths { (worked (bools (5 ∷ []) no_nodes) (boolean false) 3
        ≡ Some (truth_row true ∷ truth_row false ∷ truth_row true ∷ []))
        × (worked (bools (129 ∷ 2 ∷ []) no_nodes) (boolean false) 10
        ≡ Some (truth_row true ∷ truth_row false ∷ truth_row false ∷ truth_row false
        ∷ truth_row false ∷ truth_row false ∷ truth_row false ∷ truth_row true
        ∷ truth_row false ∷ truth_row true ∷ [])) }
    ensures truth_bytes { (worked (bools (5 ∷ 0 ∷ []) no_nodes) (boolean false) 2
        ≡ Some (truth_row true ∷ truth_row false ∷ []))
        × (worked (bools (255 ∷ []) no_nodes) (boolean false) 9 ≡ None) }
    ensures numbers { (worked (numbers (1 ∷ 2 ∷ 255 ∷ 255 ∷ []) no_nodes)
        (primitive unsigned_16 false) 2
        ≡ Some (wholes (513 ∷ 65535 ∷ [])))
        × (worked (numbers (1 ∷ 2 ∷ 255 ∷ 255 ∷ []) no_nodes) (primitive signed_16 false) 2
        ≡ Some (whole_row (pos 513) ∷ whole_row (negsuc 0) ∷ [])) }
    ensures number_bytes { (worked (numbers (1 ∷ 2 ∷ 3 ∷ []) no_nodes)
        (primitive unsigned_16 false) 2 ≡ None)
        × (worked (numbers (1 ∷ 2 ∷ 3 ∷ 4 ∷ 5 ∷ []) no_nodes) (primitive unsigned_16 false) 2
        ≡ None) }
    ensures decimals { (worked (decimals [] (254 ∷ 3 ∷ [])) (decimal 4 (pos 1) false) 2
        ≡ Some (whole_row (negsuc 1) ∷ whole_row (pos 3) ∷ []))
        × (worked (decimals (8 ∷ 0 ∷ []) (254 ∷ 3 ∷ [])) (decimal 4 (pos 1) false) 2
        ≡ Some (whole_row (negsuc 1) ∷ whole_row (pos 3) ∷ []))
        × (worked (decimals (8 ∷ 4 ∷ [])
        (254 ∷ 3 ∷ 0 ∷ 0 ∷ 0 ∷ 0 ∷ 0 ∷ 0 ∷ 0 ∷ 0 ∷ 0 ∷ 0 ∷ 0 ∷ 0 ∷ 0 ∷ 0 ∷ []))
        (decimal 4 (pos 1) false) 1 ≡ Some (wholes (1022 ∷ [])))
        × (worked (decimals (8 ∷ 5 ∷ []) (254 ∷ 3 ∷ [])) (decimal 4 (pos 1) false) 2 ≡ None) }
    ensures pieces { (worked (texts (1 ∷ 2 ∷ 4 ∷ []) (97 ∷ 98 ∷ 99 ∷ 100 ∷ 101 ∷ []) no_nodes)
        (utf8 false) 2
        ≡ Some (bytes_row (98 ∷ []) ∷ bytes_row (99 ∷ 100 ∷ []) ∷ []))
        × (worked (texts (2 ∷ 1 ∷ 3 ∷ []) (97 ∷ 98 ∷ 99 ∷ []) no_nodes) (binary false) 2 ≡ None)
        × (worked (texts (0 ∷ 1 ∷ 4 ∷ []) (97 ∷ 98 ∷ 99 ∷ []) no_nodes) (binary false) 2 ≡ None) }
    ensures texts { (worked (texts (0 ∷ 1 ∷ 2 ∷ []) (255 ∷ 97 ∷ []) no_nodes) (binary false) 2
        ≡ Some (bytes_row (255 ∷ []) ∷ bytes_row (97 ∷ []) ∷ []))
        × (worked (texts (0 ∷ 1 ∷ 2 ∷ []) (255 ∷ 97 ∷ []) no_nodes) (utf8 false) 2 ≡ None)
        × (worked (texts (0 ∷ 1 ∷ 2 ∷ []) (255 ∷ 97 ∷ []) (mask (2 ∷ []))) (utf8 true) 2
        ≡ Some (null_row ∷ bytes_row (97 ∷ []) ∷ []))
        × (worked (texts (0 ∷ 1 ∷ 2 ∷ []) (255 ∷ 97 ∷ []) (mask (1 ∷ []))) (utf8 true) 2 ≡ None) }
    ensures constants { (worked (constant (16 ∷ 1 ∷ [])) (boolean false) 2
        ≡ Some (truth_row true ∷ truth_row true ∷ []))
        × (worked (constant (8 ∷ 0 ∷ [])) (boolean true) 2 ≡ Some (null_row ∷ null_row ∷ []))
        × (worked (constant (8 ∷ 0 ∷ [])) (boolean false) 2 ≡ None)
        × (worked (constant (32 ∷ 172 ∷ 2 ∷ [])) (primitive unsigned_16 false) 2
        ≡ Some (wholes (300 ∷ 300 ∷ [])))
        × (worked (constant (32 ∷ 172 ∷ 2 ∷ [])) (byte false) 2 ≡ None) }
    ensures nulls { (worked (node 0 [] no_nodes []) null 2 ≡ Some (null_row ∷ null_row ∷ []))
        × (worked (node 0 [] no_nodes ((1 ∷ []) ∷ [])) null 2 ≡ None)
        × (worked (node 0 [] (mask (3 ∷ [])) []) null 2 ≡ None)
        × (worked (node 0 [] no_nodes []) null 4294967296 ≡ None) }
{}

/// What literal nodes of lists, structs and extensions stand for.
pub fn nested_rows_are_worked()
    ensures lists { (worked (lists 3 (0 ∷ 1 ∷ 2 ∷ []) (7 ∷ 8 ∷ 9 ∷ [])) (list (byte false) false) 2
        ≡ Some (counted_list (7 ∷ []) ∷ counted_list (8 ∷ []) ∷ []))
        × (worked (lists 3 (1 ∷ 1 ∷ 3 ∷ []) (7 ∷ 8 ∷ 9 ∷ [])) (list (byte false) false) 2
        ≡ Some (counted_list [] ∷ counted_list (8 ∷ 9 ∷ []) ∷ []))
        × (worked (lists 3 (0 ∷ 1 ∷ 4 ∷ []) (7 ∷ 8 ∷ 9 ∷ [])) (list (byte false) false) 2 ≡ None)
        × (worked (lists 2 (0 ∷ 1 ∷ 2 ∷ []) (7 ∷ 8 ∷ 9 ∷ [])) (list (byte false) false) 2 ≡ None) }
    ensures fixed_lists { (worked (fixed []) (fixed_size_list (byte false) 0 false) 2
        ≡ Some (list_row no_rows ∷ list_row no_rows ∷ []))
        × (worked (fixed (7 ∷ 8 ∷ 9 ∷ 10 ∷ [])) (fixed_size_list (byte false) 2 false) 2
        ≡ Some (counted_list (7 ∷ 8 ∷ []) ∷ counted_list (9 ∷ 10 ∷ []) ∷ []))
        × (worked (fixed (7 ∷ 8 ∷ 9 ∷ [])) (fixed_size_list (byte false) 2 false) 2 ≡ None) }
    ensures structs { (worked (node 7 [] no_nodes []) (structure no_fields false) 2
        ≡ Some (list_row no_rows ∷ list_row no_rows ∷ []))
        × (worked (node 7 [] (child (numbers (7 ∷ 8 ∷ []) no_nodes)
        (child (bools (2 ∷ []) no_nodes) no_nodes)) [])
        (structure (field (97 ∷ []) (byte false)
        (field (98 ∷ []) (boolean false) no_fields)) false) 2
        ≡ Some (list_row (row (whole_row (pos 7)) (row (truth_row false) no_rows))
        ∷ list_row (row (whole_row (pos 8)) (row (truth_row true) no_rows)) ∷ []))
        × (worked (node 7 [] (one_child (7 ∷ 8 ∷ [])) []) (structure no_fields false) 2 ≡ None) }
    ensures extensions { (worked (node 8 [] (one_child (7 ∷ 8 ∷ [])) [])
        (extension (97 ∷ []) (byte false) None) 2 ≡ Some (wholes (7 ∷ 8 ∷ [])))
        × (worked (node 8 [] (one_child (7 ∷ 8 ∷ [])) []) (byte false) 2 ≡ None)
        × (worked (node 8 [] (one_child (7 ∷ 8 ∷ [])) [])
        (extension (97 ∷ []) (boolean false) None) 2 ≡ None) }
{}

/// Which rows a mask makes null, and which masks stand for nothing.
pub fn masks_are_worked()
    ensures under_nullable { worked (numbers (7 ∷ 8 ∷ []) (mask (2 ∷ []))) (byte true) 2
        ≡ Some (null_row ∷ whole_row (pos 8) ∷ []) }
    ensures no_mask { worked (numbers (7 ∷ 8 ∷ []) no_nodes) (byte true) 2
        ≡ Some (wholes (7 ∷ 8 ∷ [])) }
    ensures under_other { worked (numbers (7 ∷ 8 ∷ []) (mask (3 ∷ []))) (byte false) 2 ≡ None }
    ensures two { worked (numbers (7 ∷ 8 ∷ []) (child (bools (3 ∷ []) no_nodes) (mask (3 ∷ []))))
        (byte true) 2 ≡ None }
    ensures nullable { worked (numbers (7 ∷ 8 ∷ []) (child (bools (3 ∷ [])
        (mask (3 ∷ []))) no_nodes))
        (byte true) 2 ≡ None }
    ensures of_structs { worked (node 7 [] (child (numbers (7 ∷ 8 ∷ []) no_nodes)
        (mask (1 ∷ []))) [])
        (structure (field (97 ∷ []) (byte false) no_fields) true) 2
        ≡ Some (counted_list (7 ∷ []) ∷ null_row ∷ []) }
{}
