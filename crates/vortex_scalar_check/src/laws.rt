//! Which rows values are under types, and which of two rows comes first.

ghost use Rattle.std.specs.Prelude.{◌≡◌, ◌∷◌, [], None, Some, codes, false, negsuc, pos, true};
ghost use Rattle.std.specs.declared.cmp.Ordering.TheVariants.{Equal, Greater, Less};
ghost use Rattle.vortex_terms.specs.Order.{row_cmp};
ghost use Rattle.vortex_terms.specs.Row.{bytes_row, list_row, no_rows, null_row, row};
ghost use Rattle.vortex_terms.specs.Row.{truth_row, whole_row};
ghost use Rattle.vortex_terms.specs.Term.{binary, boolean, decimal, extension, field};
ghost use Rattle.vortex_terms.specs.Term.{fixed_size_list, no_fields, null, primitive};
ghost use Rattle.vortex_terms.specs.Term.{signed_32, structure, unsigned_8};
ghost use Rattle.vortex_value.specs.declared.decimal.DecimalValueType.TheVariants as width;
ghost use Rattle.vortex_scalar_value.specs.Value.{bytes_value, decimal_value, list_value};
ghost use Rattle.vortex_scalar_value.specs.Value.{no_values, null_value, text_value};
ghost use Rattle.vortex_scalar_value.specs.Value.{truth_value, value, whole_value};
ghost use Rattle.vortex_value_rows.specs.RowOf.{fitting_row, row_of};

/// Rows that values are under types: numbers of any kind, where they fit; bytes of decimals, the
/// lowest first and with a sign; digits, which are not counted; texts as bytes; storages; and values of another form, of too
/// few fields or elements, and null. It does nothing when the program runs.
pub fn values_are_worked()
    ensures number { fitting_row (primitive unsigned_8 false) (whole_value signed_32 (pos 255))
        ≡ Some (whole_row (pos 255)) }
    ensures large_number { fitting_row (primitive unsigned_8 false)
        (whole_value signed_32 (pos 256)) ≡ None }
    ensures negative { row_of (decimal 3 (pos 0) false) (bytes_value (255 ∷ []))
        ≡ Some (whole_row (negsuc 0)) }
    ensures lowest_first { row_of (decimal 5 (pos 0) false) (bytes_value (1 ∷ 2 ∷ []))
        ≡ Some (whole_row (pos 513)) }
    ensures odd_width { row_of (decimal 9 (pos 0) false) (bytes_value (1 ∷ 2 ∷ 3 ∷ [])) ≡ None }
    ensures digits { fitting_row (decimal 2 (pos 0) false) (decimal_value width.I8 (pos 100))
        ≡ Some (whole_row (pos 100)) }
    ensures text { row_of (binary false) (text_value (97 ∷ [])) ≡ Some (bytes_row (97 ∷ [])) }
    ensures storage { row_of (extension (codes "x") (boolean true) None) (truth_value true)
        ≡ Some (truth_row true) }
    ensures other_form { row_of (boolean false) (whole_value unsigned_8 (pos 1)) ≡ None }
    ensures fields { row_of (structure (field (codes "a") null no_fields) false)
        (list_value no_values) ≡ None }
    ensures size { fitting_row (fixed_size_list null 2 false)
        (list_value (value null_value no_values)) ≡ None }
    ensures not_null { fitting_row (boolean false) null_value ≡ None }
{}

/// Which of two rows comes first: null, false, the lesser number, the text that begins the other, and
/// the list whose first other row does. It does nothing when the program runs.
pub fn orders_are_worked()
    ensures nulls { row_cmp null_row (whole_row (negsuc 5)) ≡ Less }
    ensures truths { row_cmp (truth_row true) (truth_row false) ≡ Greater }
    ensures numbers { row_cmp (whole_row (negsuc 1)) (whole_row (negsuc 0)) ≡ Less }
    ensures bytes { row_cmp (bytes_row (97 ∷ [])) (bytes_row (97 ∷ 0 ∷ [])) ≡ Less }
    ensures unsigned { row_cmp (bytes_row (255 ∷ [])) (bytes_row (97 ∷ 0 ∷ [])) ≡ Greater }
    ensures lists { row_cmp (list_row (row null_row (row (truth_row true) no_rows)))
        (list_row (row (truth_row false) no_rows)) ≡ Less }
    ensures same { row_cmp (list_row (row null_row no_rows)) (list_row (row null_row no_rows))
        ≡ Equal }
{}
