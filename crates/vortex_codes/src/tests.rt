use super::*;
use std::alloc::Global;
use std::cell::Cell;
use std::test::Fail;

/// The same number for every key.
#[derive(Drop)]
struct OneHash;

impl KeyHash for OneHash {
    ghost hash_of = { λ s key. 0 };

    fn hash(&self, _key: Option<&[u8]>) -> u64 {
        0
    }
}

/// Counts the calls of another hash function.
#[derive(Drop)]
struct CountedHash<'a, H: KeyHash> {
    hash: H,
    calls: &'a Cell<u64>,
}

impl<'a, H: KeyHash> KeyHash for CountedHash<'a, H> {
    ghost hash_of = { λ s key. H.hash_of s.hash key };

    fn hash(&self, key: Option<&[u8]>) -> u64 {
        self.calls.set(self.calls.get().wrapping_add(1));
        self.hash.hash(key)
    }
}

/// The place that a key gets, where it is not there yet.
fn added<H: KeyHash>(
    table: &mut CodeTable<H>,
    key: Option<&[u8]>,
) -> Result<Option<u64>, DictError> {
    match table.find(key) {
        Some(_) => Ok(None),
        None => Ok(Some(table.add(key)?)),
    }
}

/// The n-th of the keys that the tests make.
fn key_of(n: u32) -> [u8; 4] {
    n.to_be_bytes()
}

/// Adds so many keys and finds each at its place.
fn are_found<H: KeyHash>(table: &mut CodeTable<H>, count: u32) -> Result<bool, DictError> {
    let mut all = true;
    for n in 0..count {
        let place = added(table, Some(key_of(n).as_slice()))?;
        all = all && place == Some(u64::from(n));
    }
    for n in 0..count {
        all = all && table.find(Some(key_of(n).as_slice())) == Some(u64::from(n));
    }
    Ok(all)
}

#[test]
fn keys_of_one_hash(rt: HostRuntime) -> Result<(), Fail> {
    let mut table = CodeTable::new(rt.alloc(), OneHash)?;
    assert_eq!(rt; added(&mut table, Some(b"a"))?, Some(0));
    assert_eq!(rt; added(&mut table, Some(b"b"))?, Some(1));
    assert_eq!(rt; added(&mut table, None)?, Some(2));
    assert_eq!(rt; added(&mut table, Some(b""))?, Some(3));
    assert_eq!(rt; table.find(Some(b"a")), Some(0));
    assert_eq!(rt; table.find(Some(b"")), Some(3));
    assert_eq!(rt; table.find(Some(b"c")), None);
    Ok(())
}

#[test]
fn twenty_keys_of_one_hash(rt: HostRuntime) -> Result<(), Fail> {
    let mut table = CodeTable::new(rt.alloc(), OneHash)?;
    assert!(rt; are_found(&mut table, 20)?);
    Ok(())
}

/// Enough keys of one hash that they are found by their order.
#[test]
fn many_keys_of_one_hash(rt: HostRuntime) -> Result<(), Fail> {
    let mut table = CodeTable::new(rt.alloc(), OneHash)?;
    assert!(rt; are_found(&mut table, 1000)?);
    assert_eq!(rt; table.find(None), None);
    assert_eq!(rt; added(&mut table, None)?, Some(1000));
    assert_eq!(rt; added(&mut table, Some(b""))?, Some(1001));
    assert_eq!(rt; table.find(None), Some(1000));
    assert_eq!(rt; table.find(Some(b"")), Some(1001));
    assert_eq!(rt; table.find(Some(b"no key")), None);
    Ok(())
}

/// How often a hash function is called where 1,000 keys are added and then found.
fn calls<H: KeyHash + Drop>(alloc: Global, hash: H) -> Result<u64, DictError> {
    let calls = Cell::new(0u64);
    let mut table = CodeTable::new(
        alloc,
        CountedHash {
            hash,
            calls: &calls,
        },
    )?;
    for n in 0..1000 {
        let _place = table.find_or_add(Some(key_of(n).as_slice()), &true)?;
    }
    for n in 0..1000 {
        let _place = table.find(Some(key_of(n).as_slice()));
    }
    Ok(calls.get())
}

/// Each call hashes its key. Slots that double whenever they are half full, from 16 on, hash 8, 16,
/// 32 .. 512 keys anew, 1,016 in all. Keys of one hash are found by their order before 256 stand
/// there, so that at most 8, 16 .. 128 were hashed anew.
#[test]
fn calls_of_the_hash(rt: HostRuntime) -> Result<(), Fail> {
    let spread = calls(rt.alloc(), BytesHash)?;
    assert!(rt; (2900..=10_000).contains(&spread));
    let alike = calls(rt.alloc(), OneHash)?;
    assert!(rt; (2000..=2500).contains(&alike));
    Ok(())
}

#[test]
fn keys_in_one_buffer(rt: HostRuntime) -> Result<(), Fail> {
    let mut table = CodeTable::new(rt.alloc(), BytesHash)?;
    let _place = table.find_or_add(Some(b"ab"), &true)?;
    let _place = table.find_or_add(None, &true)?;
    let _place = table.find_or_add(Some(b"c"), &true)?;
    assert_eq!(rt; table.find_or_add(Some(b"d"), &false)?, None);
    assert_eq!(rt; table.len(), 3);
    assert_eq!(rt; table.byte_len(), 3);
    let pieces = table.pieces();
    assert_eq!(rt; pieces.bytes, b"abc".as_slice());
    assert_eq!(rt; pieces.offsets, [0u32, 2, 2, 3].as_slice());
    assert_eq!(rt; pieces.null, Some(1));
    Ok(())
}

/// Where null is no key, it has no place.
#[test]
fn no_null_in_one_buffer(rt: HostRuntime) -> Result<(), Fail> {
    let mut table = CodeTable::new(rt.alloc(), BytesHash)?;
    assert_eq!(rt; table.pieces().null, None);
    assert_eq!(rt; table.pieces().offsets, [0u32].as_slice());
    let _place = table.find_or_add(Some(b""), &true)?;
    assert_eq!(rt; table.pieces().null, None);
    assert_eq!(rt; table.pieces().offsets, [0u32, 0].as_slice());
    let _place = table.find_or_add(None, &true)?;
    assert_eq!(rt; table.pieces().null, Some(1));
    Ok(())
}

/// From the definition of FNV-1a in 64 bits, at the texts of its authors' list of vectors.
#[test]
fn bytes_are_hashed_by_fnv(rt: HostRuntime) -> Result<(), Fail> {
    assert_eq!(rt; BytesHash.hash(None), 0);
    assert_eq!(rt; BytesHash.hash(Some(b"")), 0xcbf2_9ce4_8422_2325);
    assert_eq!(rt; BytesHash.hash(Some(b"a")), 0xaf63_dc4c_8601_ec8c);
    assert_eq!(rt; BytesHash.hash(Some(b"foobar")), 0x8594_4171_f739_67e8);
    Ok(())
}

/// The number and the text of an error are these.
fn is_told(alloc: Global, error: DictError, number: u8, text: &str) -> Result<bool, Fail> {
    let told = format!(in alloc; "{error}")?;
    Ok(error.number() == number && told.as_str() == text)
}

#[test]
fn errors(rt: HostRuntime) -> Result<(), Fail> {
    let not_all = DictError::NotAll {
        encoded: 3,
        rows: 5,
    };
    let cast = DictError::CastRefused { row: 7 };
    let large = "the dictionary is too large";
    assert!(rt;
        is_told(
            rt.alloc(),
            DictError::CannotEncode,
            1,
            "cannot encode such an array"
        )?
    );
    assert!(rt; is_told(rt.alloc(), DictError::TypeMismatch, 2, "types differ")?);
    assert!(rt; is_told(rt.alloc(), not_all, 3, "encoded 3 of 5 rows")?);
    assert!(rt; is_told(rt.alloc(), cast, 4, "row 7 cannot be cast")?);
    assert!(rt; is_told(rt.alloc(), DictError::TooLarge, 5, large)?);
    assert!(rt; is_told(rt.alloc(), DictError::OutOfMemory, 6, "out of memory")?);
    Ok(())
}
