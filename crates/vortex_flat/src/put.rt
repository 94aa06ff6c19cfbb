//! Bytes laid down at the end of a `Vec`.

ghost use Rattle.std.specs.Prelude.{◌≡◌, ◌≤◌, ◌<◌, ◌^◌, ◌++◌, OnOk, replicate};
ghost use Rattle.vortex_flat.specs.Layout.{gap, low_first};

use std::alloc::AllocError;

pub(crate) fn put_u16(out: &mut Vec<u8>, number: usize) -> Result<(), AllocError>
    requires { number < 65536 }
    ensures { OnOk result (out.new.items ≡ out.old.items ++ low_first 2 number) }
{
    out.extend_from_slice(&(number as u16).to_le_bytes())
}

pub(crate) fn put_u32(out: &mut Vec<u8>, number: usize) -> Result<(), AllocError>
    requires { number < 2 ^ 32 }
    ensures { OnOk result (out.new.items ≡ out.old.items ++ low_first 4 number) }
{
    out.extend_from_slice(&(number as u32).to_le_bytes())
}

/// Up to 8 zero bytes.
pub(crate) fn put_zeros(out: &mut Vec<u8>, count: usize) -> Result<(), AllocError>
    requires { count ≤ 8 }
    ensures { OnOk result (out.new.items ≡ out.old.items ++ replicate count 0) }
{
    let zeros = [0; 8];
    out.extend_from_slice(&zeros[..count])
}

/// Zero bytes behind so many, up to the next multiple of 8.
pub(crate) fn put_padding(out: &mut Vec<u8>, size: usize) -> Result<(), AllocError>
    ensures { OnOk result (out.new.items ≡ out.old.items ++ replicate (gap size) 0) }
{
    put_zeros(out, (8 - size % 8) % 8)
}
