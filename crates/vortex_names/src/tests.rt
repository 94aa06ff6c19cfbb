use super::*;
use std::hash::{DefaultHasher, Hash, Hasher};
use std::test::*;

fn hash_of<T: Hash>(value: &T) -> u64 {
    let mut hasher = DefaultHasher::new();
    value.hash(&mut hasher);
    hasher.finish()
}

#[test]
fn nullability(rt: HostRuntime) -> Result<(), Fail> {
    let table = [
        (Nullability::NonNullable, false, "", "NonNullable"),
        (Nullability::Nullable, true, "?", "Nullable"),
    ];
    for (n, nullable, mark, verbose) in table {
        assert_eq!(rt; Nullability::from(nullable), n);
        assert_eq!(rt; bool::from(n), nullable);
        assert_eq!(rt; format!(in rt.alloc(); "{n}")?.as_str(), mark);
        assert_eq!(rt; n.verbose_display(), verbose);
        assert_eq!(rt; n | Nullability::NonNullable, n);
        assert_eq!(rt; Nullability::NonNullable | n, n);
        assert_eq!(rt; n | Nullability::Nullable, Nullability::Nullable);
        assert_eq!(rt; hash_of(&n) == hash_of(&Nullability::Nullable), nullable);
    }
    assert_eq!(rt; Nullability::default(), Nullability::NonNullable);
    Ok(())
}

#[test]
fn decimals(rt: HostRuntime) -> Result<(), Fail> {
    let refused = [
        (0, 0, 1),
        (0, 77, 1),
        (77, 0, 2),
        (77, 78, 2),
        (76, 77, 3),
        (1, 77, 3),
        (2, 3, 4),
        (1, 76, 4),
    ];
    for (precision, scale, number) in refused {
        let error = DecimalDType::try_new(precision, scale)
            .err()
            .ok_or("refused")?;
        assert_eq!(rt; error.number(), number, "at {precision}, {scale}");
    }
    let taken = [
        (1, -128, 4, "decimal(1,-128)"),
        (10, 2, 34, "decimal(10,2)"),
        (
            DECIMAL128_MAX_PRECISION,
            DECIMAL128_MAX_SCALE,
            127,
            "decimal(38,38)",
        ),
        (
            DECIMAL256_MAX_PRECISION,
            DECIMAL256_MAX_SCALE,
            253,
            "decimal(76,76)",
        ),
    ];
    for (precision, scale, bits, text) in taken {
        let decimal = DecimalDType::try_new(precision, scale)?;
        decimal.law();
        assert_eq!(rt; decimal.precision(), precision);
        assert_eq!(rt; decimal.scale(), scale);
        assert_eq!(rt; decimal.required_bit_width(), bits);
        assert_eq!(rt; format!(in rt.alloc(); "{decimal}")?.as_str(), text);
        assert_eq!(rt; decimal == DecimalDType::new(10, 2), precision == 10);
    }
    assert_eq!(rt;
        hash_of(&DecimalDType::new(3, 1)),
        hash_of(&DecimalDType::new(3, 1))
    );
    Ok(())
}

#[test]
fn names(rt: HostRuntime) -> Result<(), Fail> {
    let a = FieldName::from_text(rt.alloc(), "a")?;
    let b = FieldName::from_text(rt.alloc(), "b")?;
    let again = a.try_clone(rt.alloc())?;
    assert!(rt; a == again);
    assert!(rt; a != b);
    assert!(rt; a < b);
    assert_eq!(rt; hash_of(&a), hash_of(&again));
    assert_eq!(rt; b.inner().as_str(), "b");
    assert_eq!(rt; b.as_str(), "b");
    let text = b.to_text(rt.alloc())?;
    assert!(rt; b.eq_string(&text));
    assert!(rt; !a.eq_string(&text));
    assert!(rt; b.eq_str("b"));
    assert!(rt; !b.eq_str("bb"));
    assert_eq!(rt; format!(in rt.alloc(); "{b}")?.as_str(), "b");
    assert_eq!(rt; format!(in rt.alloc(); "{b:?}")?.as_str(), "\"b\"");
    b.law();
    Ok(())
}

#[test]
fn lists_of_names(rt: HostRuntime) -> Result<(), Fail> {
    let none = FieldNames::empty();
    assert!(rt; none.is_empty());
    assert!(rt; none.get(0).is_none());
    assert_eq!(rt; format!(in rt.alloc(); "{none}")?.as_str(), "[]");
    assert_eq!(rt; format!(in rt.alloc(); "{none:?}")?.as_str(), "[]");
    let no_texts = FieldNames::from_texts(rt.alloc(), &[])?;
    assert_eq!(rt; format!(in rt.alloc(); "{no_texts:?}")?.as_str(), "[]");

    let names = FieldNames::from_texts(rt.alloc(), &["a", "b"])?;
    assert_eq!(rt; names.len(), 2);
    assert!(rt; !names.is_empty());
    assert!(rt; names.eq_texts(&["a", "b"]));
    assert!(rt; !names.eq_texts(&["a", "c"]));
    assert!(rt; !names.eq_texts(&["a"]));
    assert!(rt; names[1].eq_str("b"));
    assert_eq!(rt; names.get(1).map(|name| name.as_str()), Some("b"));
    assert!(rt; names.get(2).is_none());
    assert_eq!(rt;
        format!(in rt.alloc(); "{names}")?.as_str(),
        "[\"a\", \"b\"]"
    );
    assert_eq!(rt;
        format!(in rt.alloc(); "{names:?}")?.as_str(),
        "[\"a\", \"b\"]"
    );
    names.law();
    assert!(rt; names != none);

    let copy = names.try_clone(rt.alloc())?;
    assert!(rt; names == copy);
    assert!(rt; names.eq_slice(copy.as_slice()));
    assert_eq!(rt; hash_of(&names), hash_of(&copy));

    let mut given = Vec::new(rt.alloc());
    given.push(FieldName::from_text(rt.alloc(), "a")?)?;
    given.push(FieldName::from_text(rt.alloc(), "b")?)?;
    assert!(rt; FieldNames::from_names(rt.alloc(), given)? == names);
    Ok(())
}

#[test]
fn iterators(rt: HostRuntime) -> Result<(), Fail> {
    let wanted = ["a", "b", "c"];
    let names = FieldNames::from_texts(rt.alloc(), &wanted)?;
    let mut lent = names.iter();
    let mut left = wanted.len();
    for text in wanted {
        assert_eq!(rt; lent.len(), left);
        assert!(rt; lent.next().ok_or("a name")?.eq_str(text));
        left = left.saturating_sub(1);
    }
    assert_eq!(rt; lent.size_hint(), (0, Some(0)));
    assert!(rt; lent.next().is_none());

    let mut given = names.into_iter();
    assert_eq!(rt; given.size_hint(), (3, Some(3)));
    for text in wanted {
        assert!(rt; given.next().ok_or("a name")?.eq_str(text));
    }
    assert_eq!(rt; given.len(), 0);
    assert!(rt; given.next().is_none());
    assert!(rt; FieldNames::empty().into_iter().next().is_none());
    Ok(())
}

#[test]
fn selectors(rt: HostRuntime) -> Result<(), Fail> {
    let named = Field::from_text(rt.alloc(), "a")?;
    assert_eq!(rt; named.as_name(), Some("a"));
    assert!(rt; named.is_named());
    assert_eq!(rt; format!(in rt.alloc(); "{named}")?.as_str(), "$a");
    assert!(rt; named == Field::from(FieldName::from_text(rt.alloc(), "a")?));
    assert!(rt; named == named.try_clone(rt.alloc())?);
    let elements = Field::ElementType;
    assert!(rt; elements.as_name().is_none());
    assert!(rt; !elements.is_named());
    assert_eq!(rt; format!(in rt.alloc(); "{elements}")?.as_str(), "[]");
    assert!(rt; named != elements);
    assert_eq!(rt; hash_of(&named), hash_of(&named.try_clone(rt.alloc())?));
    Ok(())
}

#[test]
fn extensions(rt: HostRuntime) -> Result<(), Fail> {
    let id = ExtID::from_text(rt.alloc(), "vortex.time")?;
    let other = ExtID::from_text(rt.alloc(), "vortex.timestamp")?;
    assert_eq!(rt; id.as_str(), "vortex.time");
    assert_eq!(rt; format!(in rt.alloc(); "{id}")?.as_str(), "vortex.time");
    assert!(rt; id == id.try_clone(rt.alloc())?);
    id.law();
    assert!(rt; id < other);
    assert_eq!(rt; hash_of(&id), hash_of(&id.try_clone(rt.alloc())?));

    let metadata = ExtMetadata::from_slice(rt.alloc(), &[1, 2])?;
    assert_eq!(rt; metadata.as_slice(), [1, 2].as_slice());
    assert_eq!(rt; format!(in rt.alloc(); "{metadata:?}")?.as_str(), "[1, 2]");
    metadata.law();
    assert!(rt; metadata == metadata.try_clone(rt.alloc())?);
    assert!(rt; metadata < ExtMetadata::from_slice(rt.alloc(), &[1, 3])?);
    assert_eq!(rt;
        hash_of(&metadata),
        hash_of(&metadata.try_clone(rt.alloc())?)
    );
    Ok(())
}

#[test]
fn errors(rt: HostRuntime) -> Result<(), Fail> {
    let table = [
        (DTypeError::PrecisionZero, "decimal precision is 0"),
        (
            DTypeError::PrecisionTooLarge,
            "decimal precision is above 76",
        ),
        (DTypeError::ScaleTooLarge, "decimal scale is above 76"),
        (
            DTypeError::ScaleAbovePrecision,
            "decimal scale is above the precision",
        ),
        (
            DTypeError::LengthMismatch,
            "numbers of names and types differ",
        ),
        (
            DTypeError::ExtensionStorage,
            "an extension is stored as an extension",
        ),
        (DTypeError::FieldNotFound, "no such field"),
        (DTypeError::IndexOutOfBounds, "field index out of bounds"),
        (DTypeError::DuplicateName, "duplicate field name"),
        (DTypeError::NotAStruct, "not a struct"),
        (DTypeError::NotAName, "not a field name"),
        (DTypeError::NotPrimitive, "not a primitive type"),
        (DTypeError::NotDecimal, "not a decimal type"),
        (DTypeError::ExactRoot, "the mask is exactly the root"),
        (DTypeError::AllMask, "the mask has no starting field"),
        (DTypeError::Malformed, "malformed type"),
        (DTypeError::TooLarge, "the type is too large"),
        (DTypeError::OutOfMemory, "out of memory"),
    ];
    for (i, (error, text)) in table.iter().enumerate() {
        assert_eq!(rt; usize::from(error.number()), i + 1);
        assert_eq!(rt; format!(in rt.alloc(); "{error}")?.as_str(), *text);
    }
    Ok(())
}
