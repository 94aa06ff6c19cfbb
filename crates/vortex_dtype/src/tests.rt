use super::*;
use std::alloc::Global;
use std::hash::{DefaultHasher, Hash, Hasher};
use std::rc::Rc;
use std::test::*;
use vortex_buffer::ByteBuffer;

const NOT: Nullability = Nullability::NonNullable;

const MAY: Nullability = Nullability::Nullable;

/// The type of nulls in a flat buffer.
const NULL: [u8; 48] = [
    16, 0, 0, 0, 0, 0, 0, 0, 8, 0, 9, 0, 8, 0, 4, 0, 8, 0, 0, 0, 20, 0, 0, 0, 1, 0, 0, 0, 0, 0, 0,
    0, 4, 0, 4, 0, 0, 0, 0, 0, 8, 0, 0, 0, 0, 0, 0, 0,
];

/// The nullable type of truth values in a flat buffer.
const TRUTH: [u8; 48] = [
    16, 0, 0, 0, 0, 0, 0, 0, 8, 0, 9, 0, 8, 0, 4, 0, 8, 0, 0, 0, 20, 0, 0, 0, 2, 0, 0, 0, 0, 0, 0,
    0, 6, 0, 5, 0, 4, 0, 0, 0, 8, 0, 0, 0, 1, 0, 0, 0,
];

/// A 32-bit integer in a flat buffer, whose nullability, at 45, is 7.
const NUMBER: [u8; 48] = [
    16, 0, 0, 0, 0, 0, 0, 0, 8, 0, 9, 0, 8, 0, 4, 0, 8, 0, 0, 0, 20, 0, 0, 0, 3, 0, 0, 0, 0, 0, 0,
    0, 8, 0, 6, 0, 4, 0, 5, 0, 8, 0, 0, 0, 6, 7, 0, 0,
];

/// A struct of two 32-bit integers, both named `a`: both names stand at 64, and both types at 84.
const SHARED: [u8; 110] = [
    12, 0, 0, 0, 8, 0, 9, 0, 8, 0, 4, 0, 8, 0, 0, 0, 20, 0, 0, 0, 7, 0, 0, 0, 10, 0, 13, 0, 4, 0,
    8, 0, 12, 0, 0, 0, 12, 0, 0, 0, 12, 0, 0, 0, 28, 0, 0, 0, 0, 0, 0, 0, 2, 0, 0, 0, 8, 0, 0, 0,
    4, 0, 0, 0, 1, 0, 0, 0, 97, 0, 0, 0, 2, 0, 0, 0, 8, 0, 0, 0, 4, 0, 0, 0, 80, 0, 0, 0, 16, 0, 0,
    0, 3, 0, 0, 0, 8, 0, 6, 0, 4, 0, 5, 0, 8, 0, 0, 0, 6, 0,
];

fn hash_of<T: Hash>(value: &T) -> u64 {
    let mut hasher = DefaultHasher::new();
    value.hash(&mut hasher);
    hasher.finish()
}

fn is_printed(alloc: Global, dtype: &DType, text: &str) -> Result<bool, DTypeError> {
    Ok(format!(in alloc; "{dtype}")?.as_str() == text)
}

/// Whether there is a type, and it is printed so.
fn prints(alloc: Global, dtype: Result<DType, DTypeError>, text: &str) -> bool {
    match dtype {
        Ok(dtype) => is_printed(alloc, &dtype, text) == Ok(true),
        Err(_) => false,
    }
}

/// Whether there are fields, and they are printed so.
fn fields_print(alloc: Global, fields: Result<StructFields, DTypeError>, text: &str) -> bool {
    match fields {
        Ok(fields) => prints(alloc, Ok(DType::Struct(fields, NOT)), text),
        Err(_) => false,
    }
}

/// The place of the first type that is printed otherwise.
fn first_wrong(alloc: Global, table: &[(DType, &str)]) -> Option<usize> {
    for (i, (dtype, text)) in table.iter().enumerate() {
        if is_printed(alloc, dtype, text) != Ok(true) {
            return Some(i);
        }
    }
    None
}

/// A 32-bit integer and a text of these names.
fn pair(alloc: Global, first: &str, second: &str) -> Result<StructFields, DTypeError> {
    let names = FieldNames::from_texts(alloc, &[first, second])?;
    let number = FieldDType::from_ptype(PType::I32);
    let text = FieldDType::from_dtype(DType::Utf8(NOT));
    let dtypes = vec![in alloc; number, text]?;
    StructFields::from_fields(alloc, names, dtypes)
}

fn ext_of(
    alloc: Global,
    storage: DType,
    metadata: Option<ExtMetadata>,
) -> Result<ExtDType, DTypeError> {
    let id = ExtID::from_text(alloc, "x")?;
    ExtDType::try_new(alloc, id, storage, metadata)
}

fn extension(
    alloc: Global,
    storage: DType,
    metadata: Option<ExtMetadata>,
) -> Result<DType, DTypeError> {
    let ext = ext_of(alloc, storage, metadata)?;
    Ok(DType::Extension(Rc::new(alloc, ext)?))
}

fn of_size(alloc: Global, size: u32) -> Result<DType, DTypeError> {
    let element = Element::new(alloc, DType::Null)?;
    Ok(DType::FixedSizeList(element, size, NOT))
}

#[test]
fn plain_texts(rt: HostRuntime) {
    let table = [
        (DType::Null, "null"),
        (DType::Bool(MAY), "bool?"),
        (DType::BYTES, "u8"),
        (DType::from_ptype(PType::I64), "i64"),
        (DType::Utf8(MAY), "utf8?"),
        (DType::Binary(NOT), "binary"),
        (
            DType::Decimal(DecimalDType::new(10, 2), MAY),
            "decimal(10,2)?",
        ),
        (DType::Struct(StructFields::empty(), NOT), "{}"),
    ];
    assert_eq!(rt; first_wrong(rt.alloc(), &table), None);
}

#[test]
fn texts(rt: HostRuntime) {
    let alloc = rt.alloc();
    let bytes = DType::Primitive(PType::U8, MAY);
    assert!(rt; prints(alloc, DType::list(alloc, bytes, MAY), "list(u8?)?"));
    assert!(rt; prints(alloc, of_size(alloc, 0), "fixed_size_list(null)[0]"));
    assert!(rt;
        prints(
            alloc,
            of_size(alloc, u32::MAX),
            "fixed_size_list(null)[4294967295]"
        )
    );
    assert!(rt; fields_print(alloc, pair(alloc, "a", "x\ny"), "{a=i32, x\ny=utf8}"));
    assert!(rt; prints(alloc, extension(alloc, DType::Null, None), "ext(x, null)?"));
}

fn with_metadata(alloc: Global, storage: DType, bytes: &[u8]) -> Result<ExtDType, DTypeError> {
    let metadata = ExtMetadata::from_slice(alloc, bytes)?;
    ext_of(alloc, storage, Some(metadata))
}

fn empty_metadata(alloc: Global) -> Result<DType, DTypeError> {
    let ext = with_metadata(alloc, DType::from_ptype(PType::I32), &[])?;
    Ok(DType::Extension(Rc::new(alloc, ext)?))
}

fn is_utf8_with_7(ext: &ExtDType) -> bool {
    ext.id().as_str() == "x"
        && ext.storage_dtype().is_utf8()
        && matches!(ext.metadata(), Some(metadata) if metadata.as_slice() == [7].as_slice())
}

fn told_by_extensions(alloc: Global) -> Result<bool, DTypeError> {
    let ext = with_metadata(alloc, DType::Utf8(NOT), &[7])?;
    let other = ext.with_nullability(alloc, MAY)?;
    ext.law();
    Ok(is_utf8_with_7(&ext) && ext != other && ext.eq_ignore_nullability(&other))
}

fn nullable_extension(alloc: Global) -> Result<DType, DTypeError> {
    extension(alloc, DType::Utf8(NOT), None)?.as_nullable(alloc)
}

fn extension_of_extension(alloc: Global) -> Result<DType, DTypeError> {
    let inner = extension(alloc, DType::Null, None)?;
    extension(alloc, inner, None)
}

#[test]
fn extensions(rt: HostRuntime) {
    let alloc = rt.alloc();
    assert!(rt; prints(alloc, empty_metadata(alloc), "ext(x, i32, [])"));
    assert!(rt; prints(alloc, nullable_extension(alloc), "ext(x, utf8)?"));
    assert_eq!(rt; told_by_extensions(alloc), Ok(true));
    let refused = extension_of_extension(alloc).err();
    assert_eq!(rt; refused, Some(DTypeError::ExtensionStorage));
}

#[test]
fn nullability(rt: HostRuntime) {
    let alloc = rt.alloc();
    let text = DType::Utf8(NOT);
    assert_eq!(rt; (text.is_nullable(), text.nullability()), (false, NOT));
    assert!(rt; prints(alloc, text.as_nullable(alloc), "utf8?"));
    assert!(rt; prints(alloc, DType::Utf8(MAY).as_nonnullable(alloc), "utf8"));
    assert!(rt; prints(alloc, text.union_nullability(alloc, MAY), "utf8?"));
    assert!(rt; prints(alloc, DType::Null.as_nonnullable(alloc), "null"));
}

/// Equal, the same apart from nullability, and the two tests between.
fn compared(one: &DType, other: &DType) -> [bool; 4] {
    [
        one == other,
        one.eq_ignore_nullability(other),
        one.eq_with_nullability_subset(other),
        one.eq_with_nullability_superset(other),
    ]
}

fn lists_compared(alloc: Global) -> Result<[bool; 4], DTypeError> {
    let one = DType::list(alloc, DType::Primitive(PType::U8, NOT), MAY)?;
    let other = DType::list(alloc, DType::Primitive(PType::U8, MAY), MAY)?;
    Ok(compared(&one, &other))
}

#[test]
fn equalities(rt: HostRuntime) {
    assert_eq!(rt; lists_compared(rt.alloc()), Ok([false, true, false, true]));
}

#[test]
fn hashes(rt: HostRuntime) {
    let plain = [
        DType::Null,
        DType::Bool(NOT),
        DType::BYTES,
        DType::Decimal(DecimalDType::new(1, 0), NOT),
        DType::Utf8(NOT),
        DType::Utf8(MAY),
        DType::Binary(NOT),
        DType::Struct(StructFields::empty(), NOT),
    ];
    for (i, one) in plain.iter().enumerate() {
        for (j, other) in plain.iter().enumerate() {
            assert_eq!(rt; hash_of(one) == hash_of(other), i == j, "{i} and {j}");
        }
    }
}

/// Which of the predicates are true, in the order of their names below.
fn predicates(dtype: &DType) -> [bool; 13] {
    [
        dtype.is_boolean(),
        dtype.is_primitive(),
        dtype.is_unsigned_int(),
        dtype.is_signed_int(),
        dtype.is_int(),
        dtype.is_float(),
        dtype.is_decimal(),
        dtype.is_utf8(),
        dtype.is_binary(),
        dtype.is_list(),
        dtype.is_fixed_size_list(),
        dtype.is_struct(),
        dtype.is_extension(),
    ]
}

/// Whether just the predicates at these places are true.
fn just(dtype: &DType, places: &[usize]) -> bool {
    predicates(dtype)
        .iter()
        .enumerate()
        .all(|(i, is_true)| places.contains(&i) == *is_true)
}

fn just_one(dtype: Result<DType, DTypeError>, place: usize) -> bool {
    match dtype {
        Ok(dtype) => just(&dtype, &[place]),
        Err(_) => false,
    }
}

#[test]
fn kinds(rt: HostRuntime) {
    let alloc = rt.alloc();
    assert!(rt; just(&DType::Null, &[]));
    assert!(rt; just(&DType::bytes(), &[1, 2, 4]));
    assert!(rt; just(&DType::from_ptype(PType::I16), &[1, 3, 4]));
    assert!(rt; just_one(DType::list(alloc, DType::Null, NOT), 9));
    assert!(rt; just_one(of_size(alloc, 2), 10));
    assert!(rt; just_one(extension(alloc, DType::Null, None), 12));
}

/// The kind of whole numbers, and whether the type is a decimal type, or the two refusals.
fn accessed(
    dtype: &DType,
) -> (
    Result<PType, DTypeError>,
    Result<DecimalDType, DTypeError>,
    bool,
) {
    let is_decimal = dtype.as_decimal_opt().is_some();
    (dtype.try_ptype(), dtype.try_decimal(), is_decimal)
}

#[test]
fn accessors(rt: HostRuntime) {
    let decimal = DecimalDType::new(3, 1);
    let is_decimal = accessed(&DType::Decimal(decimal, NOT));
    assert!(rt; is_decimal == (Err(DTypeError::NotPrimitive), Ok(decimal), true));
    let bytes = accessed(&DType::BYTES);
    assert!(rt; bytes == (Ok(PType::U8), Err(DTypeError::NotDecimal), false));
    assert_eq!(rt; DType::BYTES.as_ptype(), PType::U8);
}

fn has_bytes(element: Option<&Element>) -> bool {
    match element {
        Some(element) => *element.as_dtype() == DType::BYTES,
        None => false,
    }
}

fn elements_of_list(alloc: Global) -> Result<[bool; 4], DTypeError> {
    let list = DType::list(alloc, DType::BYTES, NOT)?;
    Ok([
        has_bytes(list.as_list_element_opt()),
        has_bytes(list.as_any_size_list_element_opt()),
        has_bytes(list.as_fixed_size_list_element_opt()),
        list.as_struct_fields_opt().is_some(),
    ])
}

#[test]
fn elements(rt: HostRuntime) {
    assert_eq!(rt;
        elements_of_list(rt.alloc()),
        Ok([true, true, false, false])
    );
}

/// Whether there are two fields, both named `a`.
fn are_two(fields: &StructFields) -> bool {
    fields.law();
    fields.nfields() == 2
        && fields.names().eq_texts(&["a", "a"])
        && matches!(fields.field_name(1), Some(name) if name.eq_str("a"))
        && fields.field_name(2).is_none()
        && fields.find("a") == Some(0)
        && fields.find("b").is_none()
}

/// The number of the kind of a type, and 0 where there is none.
fn kind_of(dtype: &Option<DType>) -> u8 {
    match dtype {
        Some(dtype) => dtype.type_ref().kind(),
        None => 0,
    }
}

fn kinds_found(alloc: Global, fields: &StructFields) -> Result<[u8; 4], DTypeError> {
    let first = kind_of(&fields.field(alloc, "a")?);
    let none = kind_of(&fields.field(alloc, "b")?);
    let last = kind_of(&fields.field_by_index(alloc, 1)?);
    let behind = kind_of(&fields.field_by_index(alloc, 2)?);
    Ok([first, none, last, behind])
}

fn kinds_in_order(alloc: Global, fields: &StructFields) -> Result<[u8; 3], DTypeError> {
    let mut left = fields.fields(alloc);
    let first = kind_of(&left.next().transpose()?);
    let last = kind_of(&left.next().transpose()?);
    let behind = kind_of(&left.next().transpose()?);
    Ok([first, last, behind])
}

/// The first of equal names is found.
fn told_by_fields(alloc: Global) -> Result<bool, DTypeError> {
    let fields = pair(alloc, "a", "a")?;
    let found = kinds_found(alloc, &fields)?;
    let in_order = kinds_in_order(alloc, &fields)?;
    Ok(are_two(&fields) && found == [3, 0, 5, 0] && in_order == [3, 5, 0])
}

#[test]
fn fields(rt: HostRuntime) {
    assert_eq!(rt; told_by_fields(rt.alloc()), Ok(true));
}

fn nulls(alloc: Global, names: &[&str]) -> Result<StructFields, DTypeError> {
    let names = FieldNames::from_texts(alloc, names)?;
    let dtypes = vec![in alloc; DType::Null]?;
    StructFields::try_new(alloc, names, dtypes)
}

#[test]
fn names_and_types(rt: HostRuntime) {
    let alloc = rt.alloc();
    let refused = nulls(alloc, &["a", "b"]).err();
    assert_eq!(rt; refused, Some(DTypeError::LengthMismatch));
    assert!(rt; fields_print(alloc, nulls(alloc, &["a"]), "{a=null}"));
}

fn projected(alloc: Global, name: &str) -> Result<StructFields, DTypeError> {
    let fields = pair(alloc, "a", "a")?;
    let name = FieldName::from_text(alloc, name)?;
    fields.project(alloc, &[name])
}

fn without(alloc: Global, index: usize) -> Result<StructFields, DTypeError> {
    pair(alloc, "a", "b")?.without_field(alloc, index)
}

fn merged(alloc: Global, first: &str) -> Result<StructFields, DTypeError> {
    let fields = pair(alloc, first, "b")?;
    fields.disjoint_merge(alloc, &pair(alloc, "a", "c")?)
}

fn merged_with_none(alloc: Global) -> Result<StructFields, DTypeError> {
    pair(alloc, "a", "a")?.disjoint_merge(alloc, &StructFields::empty())
}

#[test]
fn fields_made_of_fields(rt: HostRuntime) {
    let alloc = rt.alloc();
    assert!(rt; fields_print(alloc, projected(alloc, "a"), "{a=i32}"));
    assert_eq!(rt;
        projected(alloc, "b").err(),
        Some(DTypeError::FieldNotFound)
    );
    assert!(rt; fields_print(alloc, without(alloc, 1), "{a=i32}"));
    assert_eq!(rt; without(alloc, 2).err(), Some(DTypeError::IndexOutOfBounds));
    assert!(rt; fields_print(alloc, merged(alloc, "d"), "{d=i32, b=utf8, a=i32, c=utf8}"));
    assert_eq!(rt;
        merged_with_none(alloc).err(),
        Some(DTypeError::DuplicateName)
    );
}

/// What a reference tells of a type that has no parts.
fn plain(r: TypeRef<'_>) -> (u8, Option<PType>, Option<DecimalDType>, Option<u32>) {
    r.law();
    (r.kind(), r.ptype(), r.decimal(), r.size())
}

#[test]
fn references(rt: HostRuntime) {
    let decimal = DecimalDType::new(3, 1);
    let table = [
        (DType::Null, (1, None, None, None)),
        (DType::Bool(NOT), (2, None, None, None)),
        (DType::BYTES, (3, Some(PType::U8), None, None)),
        (DType::Decimal(decimal, NOT), (4, None, Some(decimal), None)),
        (DType::Utf8(NOT), (5, None, None, None)),
        (DType::Binary(NOT), (6, None, None, None)),
    ];
    for (dtype, told) in &table {
        assert!(rt; plain(dtype.type_ref()) == *told);
    }
}

fn part_kind(r: TypeRef<'_>, i: usize) -> u8 {
    match r.part(i) {
        Some(part) => part.kind(),
        None => 0,
    }
}

/// Whether the reference is to `{a=i32, b=utf8}?`.
fn is_pair(r: TypeRef<'_>) -> bool {
    r.kind() == 7
        && r.nullability() == MAY
        && r.nfields() == 2
        && r.field_name(1) == Some("b")
        && r.field_name(2).is_none()
        && part_kind(r, 1) == 5
        && part_kind(r, 2) == 0
}

/// Whether the reference is to `fixed_size_list(null)[5]`.
fn is_five_nulls(r: TypeRef<'_>) -> bool {
    r.kind() == 10 && r.nfields() == 0 && r.size() == Some(5) && part_kind(r, 0) == 1
}

/// Whether the reference is to `ext(x, i32, [])`.
fn is_empty_x(r: TypeRef<'_>) -> bool {
    r.kind() == 9
        && r.ext_id() == Some("x")
        && matches!(r.ext_metadata(), Some([]))
        && part_kind(r, 0) == 3
        && part_kind(r, 1) == 0
}

fn told_by_references(alloc: Global) -> Result<[bool; 3], DTypeError> {
    let fields = DType::Struct(pair(alloc, "a", "b")?, MAY);
    let fixed = of_size(alloc, 5)?;
    let ext = empty_metadata(alloc)?;
    Ok([
        is_pair(fields.type_ref()),
        is_five_nulls(fixed.type_ref()),
        is_empty_x(ext.type_ref()),
    ])
}

#[test]
fn references_to_parts(rt: HostRuntime) {
    assert_eq!(rt; told_by_references(rt.alloc()), Ok([true, true, true]));
}

/// A path of these steps, `[]` being one to elements.
fn path(alloc: Global, steps: &[&str]) -> Result<FieldPath, DTypeError> {
    let mut path = FieldPath::root();
    for step in steps {
        path = path.push(alloc, selector(alloc, step)?)?;
    }
    Ok(path)
}

fn selector(alloc: Global, step: &str) -> Result<Field, DTypeError> {
    if step == "[]" {
        Ok(Field::ElementType)
    } else {
        Field::from_text(alloc, step)
    }
}

fn path_prints(alloc: Global, path: &FieldPath, text: &str) -> Result<bool, DTypeError> {
    Ok(format!(in alloc; "{path} {path:?}")?.as_str() == text)
}

fn told_by_paths(alloc: Global) -> Result<bool, DTypeError> {
    let path = path(alloc, &["a", "[]", "b"])?;
    let again = path.try_clone(alloc)?;
    let is_same = path == again && hash_of(&path) == hash_of(&again);
    let is_three = path.parts().len() == 3 && !path.is_root();
    Ok(is_same && is_three && path_prints(alloc, &path, "$a.[].$b $a.[].$b")?)
}

fn behind_first(alloc: Global) -> Result<bool, DTypeError> {
    match path(alloc, &["a", "[]"])?.step_into() {
        Some(path) => path_prints(alloc, &path, "[] []"),
        None => Ok(false),
    }
}

fn first_step(alloc: Global) -> Result<[bool; 3], DTypeError> {
    let path = FieldPath::from_name(alloc, Field::from_text(alloc, "a")?)?;
    let a = Field::from_text(alloc, "a")?;
    let b = Field::from_text(alloc, "b")?;
    let starts = path.starts_with_name();
    Ok([
        starts,
        path.starts_with_field(&a),
        path.starts_with_field(&b),
    ])
}

#[test]
fn paths(rt: HostRuntime) {
    assert_eq!(rt; told_by_paths(rt.alloc()), Ok(true));
    assert_eq!(rt; behind_first(rt.alloc()), Ok(true));
    assert_eq!(rt; first_step(rt.alloc()), Ok([true, true, false]));
    assert!(rt; FieldPath::root().step_into().is_none());
}

/// `{a=list({b=u32})?}`.
fn nested_struct(alloc: Global) -> Result<DType, DTypeError> {
    let inner = DType::struct_(alloc, &[("b", DType::from_ptype(PType::U32))], NOT)?;
    let list = DType::list(alloc, inner, MAY)?;
    DType::struct_(alloc, &[("a", list)], NOT)
}

/// The kind of the type that a path leads to in `{a=list({b=u32})?}`, and whether there is one.
fn resolved(alloc: Global, steps: &[&str]) -> Result<(u8, bool), DTypeError> {
    let dtype = nested_struct(alloc)?;
    let path = path(alloc, steps)?;
    let kind = kind_of(&path.resolve(alloc, &dtype)?);
    Ok((kind, path.exists_in(&dtype)))
}

#[test]
fn ways_into_types(rt: HostRuntime) {
    assert_eq!(rt; resolved(rt.alloc(), &["a", "[]", "b"]), Ok((3, true)));
    assert_eq!(rt; resolved(rt.alloc(), &["[]"]), Ok((0, false)));
    assert_eq!(rt; resolved(rt.alloc(), &["a", "b"]), Ok((0, false)));
}

fn in_set(alloc: Global, steps: &[&str]) -> Result<bool, DTypeError> {
    let paths = vec![in alloc; path(alloc, &["a"])?]?;
    let set = FieldPathSet::from_paths(alloc, paths)?;
    Ok(set.contains(&path(alloc, steps)?))
}

#[test]
fn sets_of_paths(rt: HostRuntime) {
    assert_eq!(rt; in_set(rt.alloc(), &["a"]), Ok(true));
    assert_eq!(rt; in_set(rt.alloc(), &["a", "b"]), Ok(false));
}

/// Whether all is selected, and whether the root is.
fn matched(mask: &FieldMask) -> (bool, bool) {
    (mask.matches_all(), mask.matches_root())
}

/// Whether the mask has a first step to a name, or the refusal.
fn starts(mask: &FieldMask) -> Result<bool, DTypeError> {
    match mask.starting_field() {
        Ok(Some(field)) => Ok(field.is_named()),
        Ok(None) => Ok(false),
        Err(error) => Err(error),
    }
}

/// Whether everything is selected one step further in, or the refusal.
fn all_inside(mask: FieldMask) -> Result<bool, DTypeError> {
    match mask.step_into() {
        Ok(mask) => Ok(mask.matches_all()),
        Err(error) => Err(error),
    }
}

fn prefix(alloc: Global) -> Result<[bool; 4], DTypeError> {
    let mask = FieldMask::Prefix(path(alloc, &["a"])?);
    let (all, root) = matched(&mask);
    let starts = starts(&mask)?;
    Ok([all, root, starts, all_inside(mask)?])
}

#[test]
fn masks(rt: HostRuntime) {
    assert_eq!(rt; matched(&FieldMask::All), (true, true));
    assert_eq!(rt; starts(&FieldMask::All), Err(DTypeError::AllMask));
    assert_eq!(rt; all_inside(FieldMask::All), Ok(true));
    assert_eq!(rt; prefix(rt.alloc()), Ok([false, false, true, true]));
    assert_eq!(rt;
        matched(&FieldMask::Exact(FieldPath::root())),
        (false, true)
    );
    let refused = all_inside(FieldMask::Exact(FieldPath::root()));
    assert_eq!(rt; refused, Err(DTypeError::ExactRoot));
    masks_select();
}

fn has_bytes_of(alloc: Global, dtype: &DType, wanted: &[u8]) -> Result<bool, DTypeError> {
    Ok(dtype.write_flatbuffer_bytes(alloc)?.as_slice() == wanted)
}

#[test]
fn written(rt: HostRuntime) {
    assert_eq!(rt; has_bytes_of(rt.alloc(), &DType::Null, &NULL), Ok(true));
    assert_eq!(rt;
        has_bytes_of(rt.alloc(), &DType::Bool(MAY), &TRUTH),
        Ok(true)
    );
    written_types_are_read();
}

/// How many bytes are written for a type, and whether it is read again.
fn read_again(
    alloc: Global,
    dtype: Result<DType, DTypeError>,
) -> Result<(usize, bool), DTypeError> {
    let dtype = dtype?;
    let bytes = dtype.write_flatbuffer_bytes(alloc)?;
    let size = bytes.len();
    let again = DTypeView::root(bytes)?.value(alloc)?;
    Ok((size, again == dtype))
}

/// Lists of so many levels, the last of which is the type of nulls.
fn nested(alloc: Global, levels: u8) -> Result<DType, DTypeError> {
    let mut dtype = DType::Null;
    for _ in 1..levels {
        dtype = DType::list(alloc, dtype, NOT)?;
    }
    Ok(dtype)
}

#[test]
fn written_and_read(rt: HostRuntime) {
    let alloc = rt.alloc();
    let fields = [("a", DType::from_ptype(PType::I32))];
    let dtype = DType::struct_(alloc, &fields, NOT);
    assert_eq!(rt; read_again(alloc, dtype), Ok((128, true)));
    let deepest = read_again(alloc, nested(alloc, 64));
    assert!(rt; matches!(deepest, Ok((_, true))));
    let refused = read_again(alloc, nested(alloc, 65));
    assert_eq!(rt; refused, Err(DTypeError::TooLarge));
    let ext = read_again(alloc, extension(alloc, DType::Utf8(MAY), None));
    assert!(rt; matches!(ext, Ok((_, true))));
}

fn buffer_of(alloc: Global, bytes: &[u8]) -> Result<ByteBuffer, DTypeError> {
    match ByteBuffer::from_vec(alloc, Vec::from_slice(alloc, bytes)?) {
        Ok(buffer) => Ok(buffer),
        Err(_) => Err(DTypeError::OutOfMemory),
    }
}

fn read(alloc: Global, bytes: &[u8], place: usize) -> Result<DType, DTypeError> {
    DType::try_from_view(alloc, buffer_of(alloc, bytes)?, place)
}

#[test]
fn read_at_a_place(rt: HostRuntime) {
    let alloc = rt.alloc();
    assert!(rt; prints(alloc, read(alloc, &NUMBER, 16), "i32?"));
    assert!(rt; prints(alloc, read(alloc, &SHARED, 12), "{a=i32, a=i32}"));
    assert_eq!(rt; read(alloc, &NUMBER, 40).err(), Some(DTypeError::Malformed));
}

/// The place and the size of a view, and whether it shows two fields.
fn shown(alloc: Global) -> Result<(usize, usize, bool), DTypeError> {
    let view = DTypeView::root(buffer_of(alloc, &SHARED)?)?.try_clone(alloc)?;
    view.law();
    let is_two = prints(alloc, view.value(alloc), "{a=i32, a=i32}");
    Ok((view.place(), view.as_slice().len(), is_two))
}

#[test]
fn views(rt: HostRuntime) {
    assert_eq!(rt; shown(rt.alloc()), Ok((12, 110, true)));
    let none = DTypeView::at(ByteBuffer::empty(), 0).err();
    assert_eq!(rt; none, Some(DTypeError::Malformed));
}

/// `{a=i32, b=utf8}`, left in a buffer.
fn viewed_pair(alloc: Global) -> Result<DTypeView, DTypeError> {
    let dtype = DType::Struct(pair(alloc, "a", "b")?, NOT);
    DTypeView::root(dtype.write_flatbuffer_bytes(alloc)?)
}

fn found_in_view(alloc: Global, step: &str) -> Result<usize, DTypeError> {
    let view = viewed_pair(alloc)?;
    resolve_field(&view, &selector(alloc, step)?)
}

fn taken_from_view(alloc: Global, step: &str) -> Result<DType, DTypeError> {
    let view = viewed_pair(alloc)?;
    extract_field(alloc, &view, &selector(alloc, step)?)
}

fn projected_from_view(alloc: Global, step: &str) -> Result<DType, DTypeError> {
    let view = viewed_pair(alloc)?;
    project_and_deserialize(alloc, &view, &[selector(alloc, step)?])
}

#[test]
fn fields_of_views(rt: HostRuntime) {
    let alloc = rt.alloc();
    assert_eq!(rt; found_in_view(alloc, "b"), Ok(1));
    assert_eq!(rt; found_in_view(alloc, "c"), Err(DTypeError::FieldNotFound));
    assert!(rt; prints(alloc, taken_from_view(alloc, "b"), "utf8"));
    assert!(rt; prints(alloc, projected_from_view(alloc, "b"), "{b=utf8}"));
    assert_eq!(rt;
        projected_from_view(alloc, "[]").err(),
        Some(DTypeError::NotAName)
    );
}
