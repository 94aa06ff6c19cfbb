//! What texts at the ends of ranges stand for.

ghost use Rattle.std.specs.Prelude.{◌≡◌, [], Some, None, codes, false, pos, true};
ghost use Rattle.std.specs.Option.{option_and_then};
ghost use Rattle.serde_json.specs.Read.{read};
ghost use Rattle.vortex_terms.specs.Term.{null, decimal, extension, fixed_size_list};
ghost use Rattle.vortex_json.specs.Found.{type_found};

/// What texts of the greatest numbers stand for, and of one past each. It does nothing when the
/// program runs.
pub fn edges_are_worked()
    ensures precision { option_and_then type_found
        (read (codes "{\"Decimal\":[{\"precision\":76,\"scale\":76},true]}"))
        ≡ Some (decimal 76 (pos 76) true) }
    ensures past_precision { option_and_then type_found
        (read (codes "{\"Decimal\":[{\"precision\":77,\"scale\":1},true]}")) ≡ None }
    ensures past_scale { option_and_then type_found
        (read (codes "{\"Decimal\":[{\"precision\":2,\"scale\":3},true]}")) ≡ None }
    ensures size { option_and_then type_found
        (read (codes "{\"FixedSizeList\":[\"Null\",4294967295,false]}"))
        ≡ Some (fixed_size_list null 4_294_967_295 false) }
    ensures past_size { option_and_then type_found
        (read (codes "{\"FixedSizeList\":[\"Null\",4294967296,false]}")) ≡ None }
    ensures below_zero { option_and_then type_found
        (read (codes "{\"FixedSizeList\":[\"Null\",-1,false]}")) ≡ None }
    ensures empty_metadata { option_and_then type_found
        (read (codes "{\"Extension\":{\"id\":\"x\",\"metadata\":[],\"storage_dtype\":\"Null\"}}"))
        ≡ Some (extension (codes "x") null (Some [])) }
    ensures past_byte { option_and_then type_found
        (read (codes "{\"Extension\":{\"id\":\"x\",\"metadata\":[256],\"storage_dtype\":\"Null\"}}"))
        ≡ None }
    ensures other_kind { option_and_then type_found
        (read (codes "{\"Primitive\":[\"u128\",false]}")) ≡ None }
{}
