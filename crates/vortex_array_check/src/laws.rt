//! What rows, columns and refusals of arrays are.

ghost use Rattle.std.specs.Prelude.{◌≡◌, ◌∷◌, [], None, Some, false, true, pos};
ghost use Rattle.vortex_terms.specs.Row.{null_row, whole_row, truth_row};
ghost use Rattle.vortex_terms.specs.Term.{null, boolean, binary, list, fixed_size_list, utf8};
ghost use Rattle.vortex_value.specs.declared.operator.Operator.TheVariants as operator;
ghost use Rattle.vortex_leaves.specs.Selected.{taken_rows};
ghost use Rattle.vortex_array_compare.specs.Compared.{compared_rows};
ghost use Rattle.vortex_array_data.specs.ErrorNumber.{error_number};
ghost use Rattle.vortex_array_make.specs.MadeLeaves.{constant_refusal, leaf_refusal, made_nulls};
ghost use Rattle.vortex_array_make.specs.MadeLeaves.{takes_pieces, texts_refusal};
ghost use Rattle.vortex_array_make.specs.MadeNested.{extensions_refusal, fixed_lists_refusal};
ghost use Rattle.vortex_array_make.specs.MadeNested.{lists_refusal, made_fixed_lists, made_lists};
ghost use Rattle.vortex_array_data.specs.ValidRows.{valid_rows};
ghost use Rattle.vortex_array_data.specs.declared.error.ArrayError.TheVariants as error;

/// Rows that are not null, rows at places, and rows compared with a number and with null. It does
/// nothing when the program runs.
pub fn rows_are_worked()
    ensures valid { valid_rows (null_row ∷ whole_row (pos 0) ∷ []) ≡ false ∷ true ∷ [] }
    ensures taken { taken_rows (1 ∷ 1 ∷ 0 ∷ []) (whole_row (pos 5) ∷ whole_row (pos 6) ∷ [])
        ≡ whole_row (pos 6) ∷ whole_row (pos 6) ∷ whole_row (pos 5) ∷ [] }
    ensures compared { compared_rows operator.Gte (whole_row (pos 2))
        (whole_row (pos 1) ∷ null_row ∷ whole_row (pos 2) ∷ [])
        ≡ truth_row false ∷ null_row ∷ truth_row true ∷ [] }
    ensures compared_null { compared_rows operator.Eq null_row (null_row ∷ whole_row (pos 1) ∷ [])
        ≡ null_row ∷ null_row ∷ [] }
{}

/// The types of arrays that are made of others. It does nothing when the program runs.
pub fn columns_are_worked()
    ensures nulls { (made_nulls 2).rows ≡ null_row ∷ null_row ∷ [] }
    ensures lists { (made_lists (made_nulls 2) (0 ∷ 2 ∷ []) true None).dtype ≡ list null true }
    ensures held_lists { (made_lists (made_nulls 2) (0 ∷ 2 ∷ []) false None).dtype
        ≡ list null false }
    ensures fixed_lists { (made_fixed_lists (made_nulls 6) 3 2 true None).dtype
        ≡ fixed_size_list null 3 true }
{}

/// Why arrays are not made: the last number of rows that is taken and one more; a mask that hides
/// rows under a type without nulls; lengths before that; offsets that fall or do not end in the
/// elements; texts that are no UTF-8, unless they are null or bytes; and numbers of errors. It does
/// nothing when the program runs.
pub fn refusals_are_worked()
    ensures most { constant_refusal 4_294_967_295 ≡ None }
    ensures more { constant_refusal 4_294_967_296 ≡ Some error.TooLarge }
    ensures hidden { leaf_refusal 1 false (Some (false ∷ [])) ≡ Some error.TypeMismatch }
    ensures length_first { leaf_refusal 2 false (Some (false ∷ [])) ≡ Some error.LengthMismatch }
    ensures past_end { lists_refusal (made_nulls 1) (0 ∷ 2 ∷ []) true None
        ≡ Some error.LengthMismatch }
    ensures fall { texts_refusal (1 ∷ 0 ∷ []) (7 ∷ []) (binary true) None
        ≡ Some error.LengthMismatch }
    ensures short_lists { fixed_lists_refusal (made_nulls 5) 3 2 true None
        ≡ Some error.LengthMismatch }
    ensures texts { takes_pieces (utf8 true) None ((255 ∷ []) ∷ []) ≡ false }
    ensures null_texts { takes_pieces (utf8 true) (Some (false ∷ [])) ((255 ∷ []) ∷ []) ≡ true }
    ensures bytes { takes_pieces (binary true) None ((255 ∷ []) ∷ []) ≡ true }
    ensures other_type { takes_pieces (boolean true) None ((255 ∷ []) ∷ []) ≡ false }
    ensures storage { extensions_refusal
        (record { id = 97 ∷ []; storage = boolean true; metadata = None }) (made_nulls 1)
        ≡ Some error.TypeMismatch }
    ensures codes { error_number error.CodesNotUnsigned ≡ 5 }
    ensures cast { error_number (error.CastRefused 0) ≡ 7 }
{}
