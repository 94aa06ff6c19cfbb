//! What is so of layouts and of small buffers.

ghost use Rattle.std.specs.Prelude.{◌≡◌, ◌&&◌, ◌==◌, ◌∷◌, [], ℕ, nat_le, negsuc, take, Some, None};
ghost use Rattle.std.specs.Prelude.{if◌then◌else◌};
ghost use Rattle.vortex_prelude.specs.Absent.{or_else, or_zero};
ghost use Rattle.vortex_prelude.specs.Elements.{elements};
ghost use Rattle.vortex_flat.specs.Layout.{inline_size, tables_fit, targets_fit, vtable_size};
ghost use Rattle.vortex_flat.specs.Targets.{bytes_field, number_field, root_place, signed_field};
ghost use Rattle.vortex_flat.specs.Targets.{table_place};
ghost use Rattle.vortex_flat.specs.Tree.{SlotTrees, table};
ghost use Rattle.vortex_flat_check.specs.WorkedBuffer.{worked_buffer};

/// A table's vtable and its inline part have at most 65,535 bytes each. It does nothing when the program runs.
pub fn tables_are_small()
    ensures { (s : SlotTrees) → tables_fit (table s)
        ≡ (nat_le (vtable_size s) 65535 && nat_le (inline_size s) 65535 && targets_fit s) }
{}

/// What stands in a buffer that was written by hand. It does nothing when the program runs.
pub fn a_buffer_is_worked()
    ensures root { root_place worked_buffer ≡ Some 16 }
    ensures byte { number_field worked_buffer 16 0 1 ≡ Some (Some 255) }
    ensures signed { signed_field worked_buffer 16 0 ≡ Some (Some (negsuc 0)) }
    ensures short { number_field worked_buffer 16 1 2 ≡ Some (Some 513) }
    ensures bytes { bytes_field worked_buffer 16 2 ≡ Some (Some (7 ∷ 9 ∷ [])) }
    ensures absent { number_field worked_buffer 16 3 1 ≡ Some None }
    ensures behind { number_field worked_buffer 16 4 1 ≡ Some None }
    ensures past_the_table { number_field worked_buffer 16 0 4 ≡ None }
    ensures cut_off { bytes_field (take 37 worked_buffer) 16 2 ≡ None }
    ensures no_table { table_place worked_buffer 20 ≡ None }
{}

/// What an absent field is read as, and what elements are. It does nothing when the program runs.
pub fn words_are_worked()
    ensures zero { or_zero (Some None) ≡ Some 0 }
    ensures number { or_zero (Some (Some 3)) ≡ Some 3 }
    ensures malformed { or_zero None ≡ None }
    ensures other { (x : ℕ) → or_else x (Some None) ≡ Some x }
    ensures there { (x y : ℕ) → or_else x (Some (Some y)) ≡ Some y }
    ensures all { elements (λ i. Some i) 2 3 ≡ Some (2 ∷ 3 ∷ 4 ∷ []) }
    ensures one_missing { elements (λ i. if i == 3 then None else Some i) 2 3 ≡ None }
{}
