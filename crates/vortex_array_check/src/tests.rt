//! Bodies of arrays as outside vectors have them.

use hex::decode;
use std::alloc::Global;
use vortex_array::{Array, ArrayContext, ArrayError, ArrayParts};
use vortex_buffer::ByteBuffer;
use vortex_types::DType;

/// What a body is read as.
#[derive(Clone, Copy, Debug, PartialEq)]
enum Outcome {
    Rows(usize),
    Malformed,
    Other,
}

/// The buffer of bytes in hexadecimal digits.
fn buffer(alloc: Global, digits: &str) -> Option<ByteBuffer> {
    let bytes = decode(alloc, digits).ok()?;
    ByteBuffer::from_vec(alloc, bytes).ok()
}

/// The type of a message in hexadecimal digits.
fn dtype(alloc: Global, digits: &str) -> Option<DType> {
    let bytes = decode(alloc, digits).ok()?;
    DType::from_proto(alloc, &bytes).ok()
}

/// Whether all rows but the first are a slice.
fn is_cut(alloc: Global, array: &Array) -> bool {
    let rows = array.len();
    if rows == 0 {
        return true;
    }
    match array.slice(alloc, 1, rows) {
        Ok(part) => part.len() == rows - 1,
        Err(_) => false,
    }
}

/// How many rows there are, where the array can be cut too.
fn seen(alloc: Global, read: Result<Array, ArrayError>) -> Outcome {
    match read {
        Ok(array) => {
            if is_cut(alloc, &array) {
                return Outcome::Rows(array.len());
            }
            Outcome::Other
        }
        Err(ArrayError::Malformed) => Outcome::Malformed,
        Err(_) => Outcome::Other,
    }
}

/// What the body is read as, of so many rows of the type.
fn read(alloc: Global, ids: &[&str], rows: usize, of: &str, body: &str) -> Outcome {
    let Some(of) = dtype(alloc, of) else {
        return Outcome::Other;
    };
    let Some(body) = buffer(alloc, body) else {
        return Outcome::Other;
    };
    let Ok(context) = ArrayContext::from_ids(alloc, ids) else {
        return Outcome::Other;
    };
    match ArrayParts::try_new(alloc, body) {
        Ok(parts) => seen(alloc, parts.decode(alloc, &context, &of, rows)),
        Err(e) => seen(alloc, Err(e)),
    }
}

#[test]
fn bodies_are_read(rt: HostRuntime) {
    let alloc = rt.alloc();
    let read_rows = read(
        alloc,
        &["vortex.null", "vortex.null"],
        3,
        "0a00",
        "100000000000000008000c00040008000800000024000000080000000000000000000000000000000c0006000400000000000000000000001000000001004197fef042000000",
    );
    assert!(rt; read_rows == Outcome::Rows(3));
    let read_rows = read(
        alloc,
        &["vortex.primitive"],
        9,
        "1a020804",
        "0105050505010101050c00000008000c000400080008000000140000001c0000000c000c0000000400000008000c000000140000001400000001000000000000000900000000000000010000000000000048000000",
    );
    assert!(rt; read_rows == Outcome::Rows(9));
    let read_rows = read(
        alloc,
        &["vortex.constant"],
        3,
        "220408031801",
        "08000c00000008000c00080004000800000022000000100000000c000e0008000a00000004000c0000001a0000000000100000000100000000003c00020000000000000001000000000000004a000000",
    );
    assert!(rt; read_rows == Outcome::Rows(3));
    let read_rows = read(
        alloc,
        &["vortex.primitive", "vortex.primitive"],
        5,
        "1a0408051001",
        "fefff47aac7cac7cac7c0e000000836808000c0004000800080000001600000023000000dd880c000e0008000000000004000c000000190000000100dd96e741822af201000000000000000a00000001000000000000004d000000",
    );
    assert!(rt; read_rows == Outcome::Rows(5));
    let read_rows = read(
        alloc,
        &["vortex.bool", "vortex.varbin"],
        17,
        "12020801",
        "abac0104000000caffffff080000000e000000e2ffffff12000000000001000000000000000300000001000000000000000c000a00080000000000040008000c000400080042000000",
    );
    assert!(rt; read_rows == Outcome::Rows(17));
    let read_rows = read(
        alloc,
        &["vortex.decimal"],
        2,
        "220d08011080ffffffffffffffff01",
        "0101100000000000000008000c0004000800080000001c00000048000000000000000c0012001000040008000c00000000001000000014000000180000001c00000000000000000000000200000008000000000000000000000001000000000000000100000000000000020000000000000070000000",
    );
    assert!(rt; read_rows == Outcome::Rows(2));
    let read_rows = read(
        alloc,
        &["vortex.varbin", "vortex.fixed_size_list"],
        5,
        "2a00",
        "000000000600000007000000090000000f0000001100000042657267656e0ac3a942657267656ec39f04000000e6ffffff3e00000004000000e6ffffff460000000000200000000c000c000800040022f4a1d810000e000800040000000a00ffff04000200000000000000010000000200000000001c00180000000000000011000000030000000e112d61000000",
    );
    assert!(rt; read_rows == Outcome::Rows(5));
    let read_rows = read(
        alloc,
        &["vortex.fixed_size_list", "vortex.primitive"],
        17,
        "1a020801",
        "9ee902000500d3e757f4000000000000ffff0100ffff0000010007005601000007000c00000008000c0008000400080000001e000000100000000c000a0008000000000004000c0000001200000001000100000000000000220000000100000000000000b91b44000000",
    );
    assert!(rt; read_rows == Outcome::Rows(17));
    let read_rows = read(
        alloc,
        &["vortex.struct", "vortex.bool"],
        8,
        "3a070a014112021200",
        "0480ed58100000000000000008000c0004000800080000002c0000000800000000000000010000000200a30002000000000000000a000e000c0004000800000000000000100000000c0000001000000000000000000000000000000001000000140000000c000a00080000000000040000000000100000000c0000000100000000000000010000000000000088000000",
    );
    assert!(rt; read_rows == Outcome::Rows(8));
    let read_rows = read(
        alloc,
        &[
            "vortex.list",
            "vortex.list",
            "vortex.primitive",
            "vortex.bool",
        ],
        3,
        "42080a061a0408051001",
        "10b01ed020d502ce587ad90000000003000000040000000500000083120000000e000c000400080004000400b0840e0000003800000004000000040000000000340001000000000000000a000000000000001000000000002200010000000c0010000000040008000c000c0000000c0000002500000029000000190000000885808080908ba8977cf8ffffff0fffffffffffffffffff01010000001800000001000000020000000c0012000c0008000e0004000c0000001a0000000a00000002000800000000000000010000001800000001000000010000000c000e000c000000040008000c0000000a0000000a0000000300000000000100000000000000e3000000",
    );
    assert!(rt; read_rows == Outcome::Rows(3));
    let read_rows = read(
        alloc,
        &["vortex.ext", "vortex.constant", "vortex.constant"],
        3,
        "4a0b0a017812041a0208051a00",
        "75456b18021900000025f6e41a019d0a6708000d000400080067e72365b20d0000001d00000036000000f90c001900110013000a000600647927481dfffff6140000007c4c130000001f00000013117700004b000000dee1000000000100000003000000020000000100000017000000e018aad6c02cdf0c001600140004000a000e000c00000012000000179f1700000017000000b8a802000000000003000000649e98000000000100000000000000ab000000",
    );
    assert!(rt; read_rows == Outcome::Rows(3));
    let read_rows = read(
        alloc,
        &["vortex.struct", "vortex.constant"],
        17,
        "3a090a016212042a020801",
        "4a050a033a016208000000b9d90000c8ffffff0c0000003800000000000000e8ffffff3c00000001000b3b44000000e65b5a00000002000c0013000800000004000c004649000008000c00040008000100000000002000070000000000000000000000726cdcb42a00000000000000010000000000000070000000",
    );
    assert!(rt; read_rows == Outcome::Rows(17));
}

#[test]
fn bodies_are_refused(rt: HostRuntime) {
    let alloc = rt.alloc();
    let read_rows = read(
        alloc,
        &["vortex.primitive", "vortex.primitive"],
        1,
        "1a020805",
        "256c100000000000000008000c0008000400080000001e000000100000000c000a0008000000000004000c00000012000000000001000000020000000000000001000000000000003e0fae35014b000000",
    );
    assert!(rt; read_rows == Outcome::Malformed);
    let read_rows = read(
        alloc,
        &["vortex.bool"],
        3,
        "1200",
        "03100000000000000008000c0004000800080000001c00000048000000000000000c0012001000040008000c00000000001000000014000000180000001c00000000000000000000000100020000000000000000000000000001000000000000000100000000000000010000000000000070000000",
    );
    assert!(rt; read_rows == Outcome::Malformed);
    let read_rows = read(
        alloc,
        &["vortex.constant"],
        1,
        "3200",
        "420a6027141cee9670e56c681800000000000000000000000000000008000c0008000400080000002c00000018000000000000000c000e000c0000000400080000000000100000001c000000200000000000000001000000000000020c000000000000000000000000000000010000000000000068000000",
    );
    assert!(rt; read_rows == Outcome::Malformed);
    let read_rows = read(
        alloc,
        &["vortex.varbin"],
        1,
        "3200",
        "c0443f1e0000000001000000e0d06d75b15ad7a81f7d610c00000008000c00040008000800000014000000260000000c00120008000e000a0004000c000000320000000000280000000400000000000000030000000400000008000000000000000300000007000000010000000000000002000000000000000200000000000000",
    );
    assert!(rt; read_rows == Outcome::Malformed);
    let read_rows = read(
        alloc,
        &["vortex.decimal", "vortex.decimal"],
        1,
        "220d080a1080ffffffffffffffff01",
        "dfed530364d6100000000000000008000c0004000800080000001c00000028000000000000000c00080000000000000004000000000010000000040000000100ab0000000000010000000300010001000000f9c12ddf50000000",
    );
    assert!(rt; read_rows == Outcome::Malformed);
}
