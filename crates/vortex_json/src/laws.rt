//! Laws of the JSON of types and paths.

ghost use Rattle.std.specs.Prelude.{◌≡◌, ◌∷◌, [], Bool, List, Some, None, codes, negsuc, pos, true, false};
ghost use Rattle.std.specs.Option.{option_and_then};
ghost use Rattle.serde_json.specs.Data.{array};
ghost use Rattle.serde_json.specs.Read.{read};
ghost use Rattle.serde_json.specs.Written.{compact_text};
ghost use Rattle.vortex_terms.specs.Path.{PathPart, by_name, element};
ghost use Rattle.vortex_terms.specs.Term.{Term, WholeKind, null, boolean, primitive, decimal};
ghost use Rattle.vortex_terms.specs.Term.{utf8, binary, structure, field, no_fields, list, extension};
ghost use Rattle.vortex_terms.specs.Term.{fixed_size_list, unsigned_8, unsigned_16, unsigned_32};
ghost use Rattle.vortex_terms.specs.Term.{unsigned_64, signed_8, signed_16, signed_32, signed_64};
ghost use Rattle.vortex_terms.specs.Types.{Bounded};
ghost use Rattle.vortex_json.specs.Found.{flag_found, kind_found, part_found, path_found};
ghost use Rattle.vortex_json.specs.Found.{type_found};
ghost use Rattle.vortex_json.specs.Written.{each_json, flag_json, json_of, kind_json, part_json};
ghost use Rattle.vortex_json.specs.Written.{path_json};

/// What is written stands for what it was written for. This does nothing when the program runs.
pub fn written_json_is_read()
    ensures dtype { (t : Term) → Bounded t → type_found (json_of t) ≡ Some t }
    ensures ptype { (k : WholeKind) → kind_found (kind_json k) ≡ Some k }
    ensures nullability { (n : Bool) → flag_found (flag_json n) ≡ Some n }
    ensures field { (part : PathPart) → part_found (part_json part) ≡ Some part }
    ensures path { (path : List PathPart) → path_found (path_json path) ≡ Some path }
{}

/// The texts that are written for small types, all kinds of whole numbers and a path. This does
/// nothing when the program runs.
pub fn small_types_are_written()
    ensures null { compact_text (json_of null) ≡ codes "\"Null\"" }
    ensures boolean { compact_text (json_of (boolean true)) ≡ codes "{\"Bool\":true}" }
    ensures whole { compact_text (json_of (primitive unsigned_8 false))
        ≡ codes "{\"Primitive\":[\"u8\",false]}" }
    ensures decimals { compact_text (json_of (decimal 10 (negsuc 1) true))
        ≡ codes "{\"Decimal\":[{\"precision\":10,\"scale\":-2},true]}" }
    ensures texts { compact_text (json_of (list (utf8 false) true))
        ≡ codes "{\"List\":[{\"Utf8\":false},true]}" }
    ensures bytes { compact_text (json_of (fixed_size_list (binary true) 3 false))
        ≡ codes "{\"FixedSizeList\":[{\"Binary\":true},3,false]}" }
    ensures fields { compact_text
        (json_of (structure (field (codes "a") (primitive unsigned_8 false) no_fields) false))
        ≡ codes "{\"Struct\":[{\"dtypes\":[{\"inner\":{\"Owned\":{\"Primitive\":[\"u8\",false]}}}],\"names\":[\"a\"]},false]}" }
    ensures order { compact_text (json_of (structure (field (codes "b") null
        (field (codes "a") (boolean false) no_fields)) true))
        ≡ codes "{\"Struct\":[{\"dtypes\":[{\"inner\":{\"Owned\":\"Null\"}},{\"inner\":{\"Owned\":{\"Bool\":false}}}],\"names\":[\"b\",\"a\"]},true]}" }
    ensures metadata { compact_text (json_of (extension (codes "x") null (Some (4 ∷ 255 ∷ []))))
        ≡ codes "{\"Extension\":{\"id\":\"x\",\"metadata\":[4,255],\"storage_dtype\":\"Null\"}}" }
    ensures absent { compact_text (json_of (extension (codes "x") null None))
        ≡ codes "{\"Extension\":{\"id\":\"x\",\"metadata\":null,\"storage_dtype\":\"Null\"}}" }
    ensures path { compact_text (path_json (by_name (codes "a") ∷ element ∷ []))
        ≡ codes "[{\"Name\":\"a\"},\"ElementType\"]" }
    ensures kinds { compact_text (array (each_json kind_json (unsigned_8 ∷ unsigned_16 ∷ unsigned_32
        ∷ unsigned_64 ∷ signed_8 ∷ signed_16 ∷ signed_32 ∷ signed_64 ∷ [])))
        ≡ codes "[\"u8\",\"u16\",\"u32\",\"u64\",\"i8\",\"i16\",\"i32\",\"i64\"]" }
{}

/// What small texts stand for. This does nothing when the program runs.
pub fn small_texts_are_read()
    ensures order { option_and_then type_found
        (read (codes "{\"Decimal\":[{\"scale\":1,\"x\":0,\"precision\":2},true]}"))
        ≡ Some (decimal 2 (pos 1) true) }
    ensures last { option_and_then type_found (read (codes "{\"Bool\":false,\"Bool\":true}"))
        ≡ Some (boolean true) }
    ensures missing { option_and_then type_found
        (read (codes "{\"Extension\":{\"id\":\"x\",\"k\":0,\"storage_dtype\":\"Null\"}}"))
        ≡ Some (extension (codes "x") null None) }
    ensures content { option_and_then type_found (read (codes "{\"Null\":null}")) ≡ None }
    ensures further { option_and_then type_found (read (codes "{\"Bool\":false,\"x\":1}")) ≡ None }
    ensures floats { option_and_then type_found
        (read (codes "{\"Decimal\":[{\"precision\":2.0,\"scale\":1},true]}")) ≡ None }
    ensures nested { option_and_then type_found
        (read (codes "{\"Extension\":{\"id\":\"y\",\"storage_dtype\":{\"Extension\":{\"id\":\"x\",\"storage_dtype\":\"Null\"}}}}"))
        ≡ None }
    ensures pairs { option_and_then type_found
        (read (codes "{\"Primitive\":[\"u8\",false,1]}")) ≡ None }
    ensures triples { option_and_then type_found
        (read (codes "{\"FixedSizeList\":[\"Null\",3,false,1]}")) ≡ None }
    ensures names { option_and_then type_found
        (read (codes "{\"Struct\":[{\"dtypes\":[],\"names\":[\"a\"]},false]}")) ≡ None }
    ensures owned { option_and_then type_found
        (read (codes "{\"Struct\":[{\"dtypes\":[{\"inner\":{\"Owned\":\"Null\",\"x\":1}}],\"names\":[\"a\"]},false]}"))
        ≡ None }
    ensures step { option_and_then part_found (read (codes "{\"Name\":\"a\",\"x\":1}")) ≡ None }
{}
