//! Types and paths of JSON texts.

use serde_json::{Value, json};
use std::alloc::{AllocError, Global};
use vortex_json::{
    dtype_from_json, dtype_to_json, field_from_json, field_to_json, nullability_from_json,
    nullability_to_json, path_from_json, path_to_json, ptype_from_json, ptype_to_json,
};
use vortex_names::Nullability;
use vortex_number::PType;
use vortex_time::TemporalError;
use vortex_types::DType;

/// What a text stands for.
#[derive(Clone, Copy, Debug, PartialEq)]
enum Outcome {
    /// It is written again as wanted.
    Same,
    /// It is written otherwise.
    Else,
    BadJson,
    /// Another error, or no JSON.
    Other,
}

fn refused(error: TemporalError) -> Outcome {
    match error {
        TemporalError::BadJson => Outcome::BadJson,
        _ => Outcome::Other,
    }
}

/// Whether a value is written so.
fn compared(alloc: Global, written: Result<Value, TemporalError>, wanted: &str) -> Outcome {
    let value = match written {
        Ok(value) => value,
        Err(error) => return refused(error),
    };
    match value.to_string(alloc) {
        Ok(text) if text.as_str() == wanted => Outcome::Same,
        Ok(_) => Outcome::Else,
        Err(_) => Outcome::Other,
    }
}

/// How the type of a text is written again.
fn type_again(alloc: Global, text: &str, wanted: &str) -> Outcome {
    let Ok(value) = Value::from_slice(alloc, text.as_bytes()) else {
        return Outcome::Other;
    };
    match dtype_from_json(alloc, &value) {
        Ok(dtype) => compared(alloc, dtype_to_json(alloc, &dtype), wanted),
        Err(error) => refused(error),
    }
}

/// How the path of a text is written again.
fn path_again(alloc: Global, text: &str, wanted: &str) -> Outcome {
    let Ok(value) = Value::from_str(alloc, text) else {
        return Outcome::Other;
    };
    match path_from_json(alloc, &value) {
        Ok(path) => compared(alloc, path_to_json(alloc, &path), wanted),
        Err(error) => refused(error),
    }
}

/// How the step of a text is written again.
fn step_again(alloc: Global, text: &str, wanted: &str) -> Outcome {
    let Ok(value) = Value::from_str(alloc, text) else {
        return Outcome::Other;
    };
    match field_from_json(alloc, &value) {
        Ok(field) => compared(alloc, field_to_json(alloc, &field), wanted),
        Err(error) => refused(error),
    }
}

/// How the kind of whole numbers of a text is written again.
fn kind_again(alloc: Global, text: &str, wanted: &str) -> Outcome {
    let Ok(value) = Value::from_str(alloc, text) else {
        return Outcome::Other;
    };
    match ptype_from_json(alloc, &value) {
        Ok(ptype) => compared(alloc, ptype_to_json(alloc, &ptype), wanted),
        Err(error) => refused(error),
    }
}

/// How the nullability of a text is written again.
fn flag_again(alloc: Global, text: &str, wanted: &str) -> Outcome {
    let Ok(value) = Value::from_str(alloc, text) else {
        return Outcome::Other;
    };
    match nullability_from_json(alloc, &value) {
        Ok(nullability) => compared(alloc, nullability_to_json(alloc, &nullability), wanted),
        Err(error) => refused(error),
    }
}

/// What becomes of a text that is written as it is read.
fn kept(alloc: Global, text: &str) -> Outcome {
    type_again(alloc, text, text)
}

/// The value of lists, each in the next, so many types in all.
fn nested(alloc: Global, levels: usize) -> Result<Value, AllocError> {
    let mut value = Value::try_from_str(alloc, "Null")?;
    for _ in 1..levels {
        value = json!(in alloc; {"List": [value, false]})?;
    }
    Ok(value)
}

/// How the type of nested lists is written again.
fn levels_again(alloc: Global, levels: usize) -> Outcome {
    let Ok(value) = nested(alloc, levels) else {
        return Outcome::Other;
    };
    match dtype_from_json(alloc, &value) {
        Ok(dtype) => match dtype_to_json(alloc, &dtype) {
            Ok(again) if again == value => Outcome::Same,
            Ok(_) => Outcome::Else,
            Err(error) => refused(error),
        },
        Err(error) => refused(error),
    }
}

/// How the type of lists of so many levels is written.
fn too_deep(alloc: Global, levels: usize) -> Outcome {
    let mut dtype = DType::Null;
    for _ in 1..levels {
        match DType::list(alloc, dtype, Nullability::Nullable) {
            Ok(list) => dtype = list,
            Err(_) => return Outcome::Other,
        }
    }
    compared(alloc, dtype_to_json(alloc, &dtype), "")
}

#[test]
fn types_are_written_as_read(rt: HostRuntime) {
    let a = rt.alloc();
    assert_eq!(rt; kept(a, "\"Null\""), Outcome::Same);
    assert_eq!(rt; kept(a, "{\"Bool\":false}"), Outcome::Same);
    assert_eq!(rt; kept(a, "{\"Utf8\":true}"), Outcome::Same);
    assert_eq!(rt; kept(a, "{\"Primitive\":[\"i64\",true]}"), Outcome::Same);
    assert_eq!(rt;
        kept(a, "{\"Decimal\":[{\"precision\":10,\"scale\":-2},true]}"),
        Outcome::Same
    );
    assert_eq!(rt;
        kept(a, "{\"List\":[{\"Binary\":false},true]}"),
        Outcome::Same
    );
    assert_eq!(rt;
        kept(a, "{\"FixedSizeList\":[\"Null\",4294967295,false]}"),
        Outcome::Same
    );
    assert_eq!(rt;
        kept(
            a,
            "{\"Extension\":{\"id\":\"x\",\"metadata\":[4,255],\"storage_dtype\":\"Null\"}}"
        ),
        Outcome::Same
    );
    assert_eq!(rt;
        kept(a, "{\"Struct\":[{\"dtypes\":[],\"names\":[]},true]}"),
        Outcome::Same
    );
}

#[test]
fn fields_are_written_as_read(rt: HostRuntime) {
    let a = rt.alloc();
    let one =
        "{\"Struct\":[{\"dtypes\":[{\"inner\":{\"Owned\":{\"Primitive\":[\"u8\",false]}}}],\"names\":[\"a\"]},false]}";
    assert_eq!(rt; kept(a, one), Outcome::Same);
    assert_eq!(rt;
        kept(
            a,
            "{\"Struct\":[{\"dtypes\":[{\"inner\":{\"Owned\":\"Null\"}},{\"inner\":{\"Owned\":{\"Bool\":true}}}],\"names\":[\"b\",\"a\"]},false]}"
        ),
        Outcome::Same
    );
    let lost = "{\"Struct\":[{\"dtypes\":[{\"inner\":{\"Owned\":\"Null\"}}],\"names\":[]},false]}";
    assert_eq!(rt; kept(a, lost), Outcome::BadJson);
    let nameless = "{\"Struct\":[{\"dtypes\":[],\"names\":[\"a\"]},false]}";
    assert_eq!(rt; kept(a, nameless), Outcome::BadJson);
    let viewed =
        "{\"Struct\":[{\"dtypes\":[{\"inner\":{\"Viewed\":\"Null\"}}],\"names\":[\"a\"]},false]}";
    assert_eq!(rt; kept(a, viewed), Outcome::BadJson);
}

#[test]
fn keys_stand_in_any_order(rt: HostRuntime) {
    let a = rt.alloc();
    let digits = "{\"Decimal\":[{\"precision\":2,\"scale\":1},true]}";
    assert_eq!(rt;
        type_again(
            a,
            "{\"Decimal\":[{\"scale\":1,\"x\":{},\"precision\":2},true]}",
            digits
        ),
        Outcome::Same
    );
    assert_eq!(rt;
        type_again(
            a,
            "{\"Decimal\":[{\"scale\":9,\"precision\":2,\"scale\":1},true]}",
            digits
        ),
        Outcome::Same
    );
    assert_eq!(rt;
        type_again(a, "{\"Bool\":false,\"Bool\":true}", "{\"Bool\":true}"),
        Outcome::Same
    );
    assert_eq!(rt; kept(a, "{\"Bool\":false,\"x\":1}"), Outcome::BadJson);
    let field =
        "{\"Struct\":[{\"names\":[\"a\"],\"k\":0,\"dtypes\":[{\"x\":1,\"inner\":{\"Owned\":\"Null\"}}]},true]}";
    assert_eq!(rt;
        type_again(
            a,
            field,
            "{\"Struct\":[{\"dtypes\":[{\"inner\":{\"Owned\":\"Null\"}}],\"names\":[\"a\"]},true]}"
        ),
        Outcome::Same
    );
}

#[test]
fn metadata_may_be_absent(rt: HostRuntime) {
    let a = rt.alloc();
    let absent = "{\"Extension\":{\"id\":\"x\",\"metadata\":null,\"storage_dtype\":\"Null\"}}";
    assert_eq!(rt; kept(a, absent), Outcome::Same);
    assert_eq!(rt;
        type_again(
            a,
            "{\"Extension\":{\"id\":\"x\",\"storage_dtype\":\"Null\"}}",
            absent
        ),
        Outcome::Same
    );
    assert_eq!(rt;
        kept(
            a,
            "{\"Extension\":{\"id\":\"x\",\"metadata\":[],\"storage_dtype\":\"Null\"}}"
        ),
        Outcome::Same
    );
    assert_eq!(rt;
        kept(
            a,
            "{\"Extension\":{\"id\":\"x\",\"metadata\":[256],\"storage_dtype\":\"Null\"}}"
        ),
        Outcome::BadJson
    );
    assert_eq!(rt;
        kept(
            a,
            "{\"Extension\":{\"id\":\"x\",\"metadata\":\"\",\"storage_dtype\":\"Null\"}}"
        ),
        Outcome::BadJson
    );
    let inner =
        "{\"Extension\":{\"id\":\"y\",\"metadata\":null,\"storage_dtype\":{\"Extension\":{\"id\":\"x\",\"storage_dtype\":\"Null\"}}}}";
    assert_eq!(rt; kept(a, inner), Outcome::BadJson);
}

#[test]
fn all_else_is_refused(rt: HostRuntime) {
    let a = rt.alloc();
    assert_eq!(rt; kept(a, "{\"Null\":null}"), Outcome::BadJson);
    assert_eq!(rt; kept(a, "\"Bool\""), Outcome::BadJson);
    assert_eq!(rt;
        kept(a, "{\"Primitive\":[\"f32\",false]}"),
        Outcome::BadJson
    );
    assert_eq!(rt; kept(a, "{\"Primitive\":[\"u8\"]}"), Outcome::BadJson);
    assert_eq!(rt;
        kept(a, "{\"Decimal\":[{\"precision\":256,\"scale\":1},true]}"),
        Outcome::BadJson
    );
    assert_eq!(rt;
        kept(a, "{\"Decimal\":[{\"precision\":2.0,\"scale\":1},true]}"),
        Outcome::BadJson
    );
    assert_eq!(rt;
        kept(a, "{\"Decimal\":[{\"precision\":2,\"scale\":-0},true]}"),
        Outcome::BadJson
    );
    assert_eq!(rt;
        kept(a, "{\"Decimal\":[{\"precision\":2,\"scale\":3},true]}"),
        Outcome::BadJson
    );
    assert_eq!(rt; kept(a, "{\"Decimal\":[[2,1],true]}"), Outcome::BadJson);
    assert_eq!(rt;
        kept(a, "{\"FixedSizeList\":[\"Null\",4294967296,false]}"),
        Outcome::BadJson
    );
}

#[test]
fn levels_are_bounded(rt: HostRuntime) {
    let a = rt.alloc();
    assert_eq!(rt; levels_again(a, 64), Outcome::Same);
    assert_eq!(rt; levels_again(a, 65), Outcome::BadJson);
    assert_eq!(rt; too_deep(a, 64), Outcome::Else);
    assert_eq!(rt; too_deep(a, 65), Outcome::BadJson);
}

#[test]
fn small_things_are_written_as_read(rt: HostRuntime) {
    let a = rt.alloc();
    assert_eq!(rt;
        compared(a, ptype_to_json(a, &PType::U8), "\"u8\""),
        Outcome::Same
    );
    assert_eq!(rt;
        compared(a, nullability_to_json(a, &Nullability::Nullable), "true"),
        Outcome::Same
    );
    assert_eq!(rt; kind_again(a, "\"u8\"", "\"u8\""), Outcome::Same);
    assert_eq!(rt; kind_again(a, "\"U8\"", ""), Outcome::BadJson);
    assert_eq!(rt; flag_again(a, "true", "true"), Outcome::Same);
    assert_eq!(rt; flag_again(a, "\"Nullable\"", ""), Outcome::BadJson);
    assert_eq!(rt;
        step_again(a, "{\"Name\":\"a\"}", "{\"Name\":\"a\"}"),
        Outcome::Same
    );
    assert_eq!(rt;
        step_again(a, "\"ElementType\"", "\"ElementType\""),
        Outcome::Same
    );
    assert_eq!(rt;
        step_again(a, "{\"ElementType\":null}", ""),
        Outcome::BadJson
    );
    assert_eq!(rt;
        path_again(
            a,
            "[{\"Name\":\"a\"},\"ElementType\"]",
            "[{\"Name\":\"a\"},\"ElementType\"]"
        ),
        Outcome::Same
    );
    assert_eq!(rt; path_again(a, "[]", "[]"), Outcome::Same);
    assert_eq!(rt; path_again(a, "{}", ""), Outcome::BadJson);
}
