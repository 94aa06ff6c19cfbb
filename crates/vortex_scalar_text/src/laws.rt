//! Worked texts and sizes. Nothing here does anything when the program runs.

ghost use Rattle.std.specs.Prelude.{◌≡◌, ◌++◌, [], ◌∷◌, codes, false, negsuc, pos, true};
ghost use Rattle.std.specs.Prelude.{None, Some};
ghost use Rattle.vortex_terms.specs.Term.{Term, binary, boolean, decimal, extension, field};
ghost use Rattle.vortex_terms.specs.Term.{fixed_size_list, list, no_fields, null, primitive};
ghost use Rattle.vortex_terms.specs.Term.{signed_32, signed_64, structure, unsigned_8, utf8};
ghost use Rattle.vortex_terms.specs.Row.{Row, bytes_row, list_row, no_rows, null_row, row};
ghost use Rattle.vortex_terms.specs.Row.{whole_row};
ghost use Rattle.vortex_terms.specs.Fits.{Fits};
ghost use Rattle.vortex_value.specs.declared.decimal.DecimalValueType.TheVariants as width;
ghost use Rattle.vortex_scalar_value.specs.Value.{ValueTerm, bytes_value, decimal_value};
ghost use Rattle.vortex_scalar_value.specs.Value.{list_value, no_values, null_value, text_value};
ghost use Rattle.vortex_scalar_value.specs.Value.{truth_value, value, whole_value};
ghost use Rattle.vortex_scalar_value.specs.ValueText.{value_text};
ghost use Rattle.vortex_value_rows.specs.RowOf.{row_of};
ghost use Rattle.vortex_time.specs.Jiff.{civil_moment, civil_text};
ghost use Rattle.vortex_time.specs.declared.values.CivilJiff.{CivilJiff};
ghost use Rattle.vortex_scalar_text.specs.MomentText.{moment_text};
ghost use Rattle.vortex_scalar_text.specs.ScalarText.{scalar_text};
ghost use Rattle.vortex_scalar_text.specs.Size.{byte_size, in_usize};
ghost use Rattle.vortex_scalar_text.specs.Widths.{holds_decimals};

/// Sizes of rows.
pub fn sizes_are_worked()
    ensures small { (byte_size null null_row ≡ 0) × (byte_size (boolean true) null_row ≡ 1)
        × (byte_size (primitive signed_32 true) null_row ≡ 4) }
    ensures decimals { (byte_size (decimal 38 (pos 0) true) null_row ≡ 16)
        × (byte_size (decimal 39 (pos 0) true) null_row ≡ 32) }
    ensures texts { (byte_size (utf8 false) (bytes_row (codes "ab")) ≡ 2)
        × (byte_size (utf8 true) null_row ≡ 0) }
    ensures lists { let t = fixed_size_list (list (primitive signed_32 false) true) 2 false in
        let one = list_row (row (whole_row (pos 1)) no_rows) in
        byte_size t (list_row (row one (row null_row no_rows))) ≡ 4 }
    ensures structs { let fields = field (codes "a") (primitive signed_32 false)
        (field (codes "b") (utf8 false) no_fields) in
        let rows = row (whole_row (pos 1)) (row (bytes_row (codes "ab")) no_rows) in
        byte_size (structure fields false) (list_row rows) ≡ 6 }
    ensures nulls { let t = primitive signed_32 true in
        (byte_size (binary true) null_row ≡ 0) × (byte_size (list t true) null_row ≡ 0)
        × (byte_size (fixed_size_list t 2 true) null_row ≡ 0)
        × (byte_size (structure (field (codes "a") t no_fields) true) null_row ≡ 0)
        × (byte_size (extension (codes "id") t None) null_row ≡ 4) }
    ensures bytes { byte_size (binary false) (bytes_row (0 ∷ 255 ∷ 7 ∷ [])) ≡ 3 }
    ensures limit { (in_usize 18446744073709551615 ≡ Some 18446744073709551615)
        × (in_usize 18446744073709551616 ≡ None) }
{}

/// Texts of scalars without parts.
pub fn texts_are_worked()
    ensures nulls { (scalar_text null null_value ≡ codes "null")
        × (scalar_text (list null true) null_value ≡ codes "null") }
    ensures truths { scalar_text (boolean false) (truth_value false) ≡ codes "false" }
    ensures numbers { scalar_text (primitive signed_32 false) (whole_value unsigned_8 (pos 5))
        ≡ codes "5i32" }
    ensures decimals { let t = decimal 10 (pos 2) false in
        scalar_text t (decimal_value width.I32 (pos 5))
        ≡ codes "decimal32(5, precision=10, scale=2)" }
    ensures widths { let t = decimal 38 (pos 0) false in
        (scalar_text t (decimal_value width.I8 (pos 5))
        ≡ codes "decimal8(5, precision=38, scale=0)")
        × (scalar_text t (decimal_value width.I16 (pos 5))
        ≡ codes "decimal16(5, precision=38, scale=0)")
        × (scalar_text t (decimal_value width.I64 (pos 5))
        ≡ codes "decimal64(5, precision=38, scale=0)")
        × (scalar_text t (decimal_value width.I128 (pos 5))
        ≡ codes "decimal128(5, precision=38, scale=0)") }
    ensures below { let t = decimal 3 (negsuc 1) false in
        scalar_text t (decimal_value width.I16 (negsuc 41))
        ≡ codes "decimal16(-42, precision=3, scale=-2)" }
    ensures decimal_bytes { let t = decimal 3 (pos 1) false in
        (scalar_text t (bytes_value (251 ∷ [])) ≡ codes "decimal8(-5, precision=3, scale=1)")
        × (scalar_text t (bytes_value (0 ∷ 1 ∷ []))
        ≡ codes "decimal16(256, precision=3, scale=1)")
        × (scalar_text t (bytes_value (1 ∷ 2 ∷ 3 ∷ [])) ≡ codes "null") }
    ensures whole_texts { let text = 10 ∷ 92 ∷ codes "\"h\" and a much longer end" in
        (scalar_text (utf8 false) (text_value text) ≡ codes "\"" ++ text ++ codes "\"")
        × (scalar_text (utf8 false) (bytes_value (codes "ab")) ≡ codes "\"ab\"")
        × (scalar_text (utf8 false) (bytes_value (255 ∷ [])) ≡ codes "null")
        × (scalar_text (utf8 true) (text_value []) ≡ codes "\"\"") }
    ensures long_bytes { let bytes = 1 ∷ 2 ∷ 3 ∷ 4 ∷ 5 ∷ 6 ∷ 7 ∷ 8 ∷ 9 ∷ 10 ∷ 255 ∷ [] in
        (scalar_text (binary false) (bytes_value bytes) ≡ codes "\"1 2 3 4 5 6 7 8 9 a ff\"")
        × (scalar_text (binary false) (text_value (codes "H")) ≡ codes "\"48\"") }
    ensures other_forms { (scalar_text (boolean true) (truth_value true) ≡ codes "true")
        × (scalar_text (boolean true) null_value ≡ codes "null")
        × (scalar_text (primitive signed_32 true) null_value ≡ codes "null")
        × (scalar_text (primitive signed_32 true) (truth_value true) ≡ codes "null")
        × (scalar_text (decimal 3 (pos 1) true) null_value ≡ codes "null")
        × (scalar_text (utf8 true) null_value ≡ codes "null")
        × (scalar_text (binary true) null_value ≡ codes "null") }
    ensures bytes { scalar_text (binary false) (bytes_value (72 ∷ 10 ∷ [])) ≡ codes "\"48 a\"" }
{}

/// Texts of scalars with parts.
pub fn nested_texts_are_worked()
    ensures lists { let values = value (whole_value signed_32 (pos 1)) (value null_value no_values) in
        scalar_text (list (primitive signed_32 true) false) (list_value values)
        ≡ codes "[1i32, null]" }
    ensures fixed { let values = value (whole_value unsigned_8 (pos 0)) no_values in
        scalar_text (fixed_size_list (primitive unsigned_8 false) 1 false) (list_value values)
        ≡ codes "fixed_size<1>[0u8]" }
    ensures structs { let fields = field (codes "a") (primitive signed_32 false)
        (field (codes "b") (boolean true) no_fields) in
        let values = value (whole_value signed_32 (negsuc 0)) (value null_value no_values) in
        scalar_text (structure fields false) (list_value values) ≡ codes "{a: -1i32, b: null}" }
    ensures extensions { scalar_text (extension (codes "id") null None) null_value
        ≡ codes "id(null)" }
    ensures empty { (scalar_text (list null false) (list_value no_values) ≡ codes "[]")
        × (scalar_text (structure no_fields false) (list_value no_values) ≡ codes "{}")
        × (scalar_text (fixed_size_list null 0 false) (list_value no_values)
        ≡ codes "fixed_size<0>[]") }
    ensures nulls { (scalar_text (fixed_size_list null 2 true) null_value ≡ codes "null")
        × (scalar_text (structure no_fields true) null_value ≡ codes "null") }
    ensures inside { let t = list (utf8 true) false in
        let values = value (text_value (codes "a, b")) (value null_value no_values) in
        scalar_text (extension (codes "id") t None) (list_value values)
        ≡ codes "id([\"a, b\", null])" }
{}

/// Texts of values without types.
pub fn value_texts_are_worked()
    ensures small { (value_text null_value ≡ codes "null")
        × (value_text (truth_value true) ≡ codes "true") }
    ensures numbers { value_text (whole_value unsigned_8 (pos 5)) ≡ codes "5u8" }
    ensures decimals { value_text (decimal_value width.I8 (pos 5)) ≡ codes "decimal8(5)" }
    ensures bytes { value_text (bytes_value (0 ∷ 26 ∷ [])) ≡ codes "001a" }
    ensures long_bytes { value_text (bytes_value (codes "abcdefghijk"))
        ≡ codes "6162636465..6768696a6b" }
    ensures texts { value_text (text_value (codes "ab")) ≡ codes "\"ab\"" }
    ensures long_texts { value_text (text_value (codes "abcdefghijk"))
        ≡ codes "\"abcde..ghijk\"" }
    ensures lists { let values = value (whole_value unsigned_8 (pos 1)) (value null_value no_values) in
        value_text (list_value values) ≡ codes "[1u8,null]" }
    ensures none { value_text (list_value no_values) ≡ codes "[]" }
    ensures ten_bytes { value_text (bytes_value (codes "abcdefghij"))
        ≡ codes "6162636465666768696a" }
    ensures ten_characters { value_text (text_value (codes "abcdefghij"))
        ≡ codes "\"abcdefghij\"" }
    ensures wide_characters { let e = 195 ∷ 169 ∷ [] in let five = e ++ e ++ e ++ e ++ e in
        (value_text (text_value (five ++ five)) ≡ codes "\"" ++ five ++ five ++ codes "\"")
        × (value_text (text_value (five ++ codes "x" ++ five))
        ≡ codes "\"" ++ five ++ codes ".." ++ five ++ codes "\"") }
{}

/// What is printed follows from the type and the row, where the type holds no decimals: two values
/// of one row print the same.
pub fn texts_follow_rows()
    ensures { (t : Term) (v w : ValueTerm) (r : Row) → holds_decimals t ≡ false → Fits t r
        → row_of t v ≡ Some r → row_of t w ≡ Some r → scalar_text t v ≡ scalar_text t w }
{}

/// Texts of times, and of what is none.
pub fn temporal_texts_are_worked()
    ensures times { let whole = primitive signed_32 true in
        let t = extension (codes "vortex.time") whole (Some (3 ∷ [])) in
        (scalar_text t (whole_value signed_32 (pos 205)) ≡ codes "00:03:25")
        × (scalar_text t (whole_value signed_32 (pos 86_400)) ≡ codes "vortex.time(86400i32)")
        × (scalar_text t null_value ≡ codes "null") }
    ensures nulls { let zone = 3 ∷ 3 ∷ 0 ∷ codes "UTC" in let whole = primitive signed_64 true in
        (scalar_text (extension (codes "vortex.date") whole (Some (4 ∷ []))) null_value
        ≡ codes "null")
        × (scalar_text (extension (codes "vortex.timestamp") whole (Some zone)) null_value
        ≡ codes "null")
        × (scalar_text (extension (codes "vortex.date") whole None) null_value
        ≡ codes "vortex.date(null)") }
    ensures stored { let zone = 3 ∷ 3 ∷ 0 ∷ codes "UTC" in let whole = primitive signed_64 true in
        let one = whole_value signed_64 (pos 1) in
        (scalar_text (extension (codes "vortex.timestamp") whole (Some zone)) one
        ≡ codes "vortex.timestamp(1i64)")
        × (scalar_text (extension (codes "vortex.date") whole (Some (3 ∷ []))) one
        ≡ codes "vortex.date(1i64)")
        × (scalar_text (extension (codes "x") whole (Some (4 ∷ []))) one ≡ codes "x(1i64)") }
    ensures others { let t = extension (codes "vortex.date") (boolean true) (Some (4 ∷ [])) in
        (scalar_text t (truth_value true) ≡ codes "vortex.date(true)")
        × (scalar_text t null_value ≡ codes "null") }
{}

/// What is printed of a time, a date, or a date with a time is what `jiff` prints of it.
pub fn texts_are_those_of_jiff()
    ensures { (c : CivilJiff) → moment_text (civil_moment c) ≡ civil_text c }
{}
