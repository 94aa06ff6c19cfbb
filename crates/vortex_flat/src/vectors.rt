//! Vectors laid down, without what hangs on them.

ghost use Rattle.std.specs.Prelude.{◌≡◌, ◌≤◌, ◌<◌, ◌^◌, ◌+◌, ◌*◌, ◌++◌, true, length, OnOk};
ghost use Rattle.std.specs.List.{AllByRecursion};
ghost use Rattle.std.specs.Str.{IsUtf8};
ghost use Rattle.vortex_flat.specs.Tree.{bytes, numbers, offsets, records, text, tree_count};
ghost use Rattle.vortex_flat.specs.Layout.{numbers_of, offsets_of, own_bytes, own_size, trees_fit, trees_size};
ghost use Rattle.vortex_flat.specs.Item.{trees_from};

use crate::extent::round_up;
use crate::item::Item;
use crate::put::{put_padding, put_u32};
use std::alloc::AllocError;

pub(crate) fn put_bytes(out: &mut Vec<u8>, content: &[u8]) -> Result<(), AllocError>
    requires { length content.now < 2 ^ 32 }
    ensures { OnOk result (out.new.items ≡ out.old.items ++ own_bytes (bytes content.now)) }
{
    put_u32(out, content.len())?;
    out.extend_from_slice(content)?;
    put_padding(out, 4 + content.len())?;
    Ok(())
}

/// A text has a zero byte behind it, which its length does not count.
pub(crate) fn put_text(out: &mut Vec<u8>, content: &str) -> Result<(), AllocError>
    requires { length content.now < 2 ^ 32 }
    ensures laid { OnOk result (out.new.items ≡ out.old.items ++ own_bytes (text content.now)) }
    ensures utf8 { IsUtf8 content.now }
{
    put_u32(out, content.len())?;
    out.extend_from_slice(content.as_bytes())?;
    out.push(0)?;
    put_padding(out, 5 + content.len())?;
    Ok(())
}

fn put_each_u32(out: &mut Vec<u8>, content: &[u32]) -> Result<(), AllocError>
    ensures { OnOk result (out.new.items ≡ out.old.items ++ numbers_of 4 content.now) }
{
    for n in content {
        out.extend_from_slice(&n.to_le_bytes())?;
    }
    Ok(())
}

pub(crate) fn put_numbers(out: &mut Vec<u8>, content: &[u32]) -> Result<(), AllocError>
    requires { length content.now < 2 ^ 32 }
    ensures laid { OnOk result (out.new.items ≡ out.old.items ++ own_bytes (numbers content.now)) }
    ensures range { AllByRecursion (λ n. n < 2 ^ 32) content.now }
{
    put_u32(out, content.len())?;
    put_each_u32(out, content)?;
    put_padding(out, 4 + 4 * content.len())?;
    Ok(())
}

fn put_each_u64(out: &mut Vec<u8>, content: &[u64]) -> Result<(), AllocError>
    ensures { OnOk result (out.new.items ≡ out.old.items ++ numbers_of 8 content.now) }
{
    for n in content {
        out.extend_from_slice(&n.to_le_bytes())?;
    }
    Ok(())
}

pub(crate) fn put_records(out: &mut Vec<u8>, content: &[u64]) -> Result<(), AllocError>
    requires { length content.now < 2 ^ 32 }
    ensures laid { OnOk result (out.new.items ≡ out.old.items ++ own_bytes (records content.now)) }
    ensures range { AllByRecursion (λ n. n < 2 ^ 64) content.now }
{
    put_u32(out, content.len())?;
    put_each_u64(out, content)?;
    put_padding(out, 4 + 8 * content.len())?;
    Ok(())
}

/// Lays down the offsets of a vector whose targets begin `behind` its first byte.
fn put_each_offset(out: &mut Vec<u8>, items: &[Item], behind: usize) -> Result<(), AllocError>
    requires order { 4 + 4 * tree_count (trees_from items.now) ≤ behind }
    requires short { behind + trees_size (trees_from items.now) < 2 ^ 32 }
    requires fits { trees_fit (trees_from items.now) ≡ true }
    ensures { OnOk result (out.new.items
        ≡ out.old.items ++ offsets_of (trees_from items.now) 4 behind) }
{
    let mut place = 4;
    let mut target = behind;
    for item in items {
        put_u32(out, target + item.head() - place)?;
        place += 4;
        target += item.extent().size as usize;
    }
    Ok(())
}

pub(crate) fn put_offsets(out: &mut Vec<u8>, items: &[Item]) -> Result<(), AllocError>
    requires short { own_size (offsets (trees_from items.now)) + trees_size (trees_from items.now)
        < 2 ^ 32 }
    requires fits { trees_fit (trees_from items.now) ≡ true }
    ensures { OnOk result (out.new.items
        ≡ out.old.items ++ own_bytes (offsets (trees_from items.now))) }
{
    let count = items.len();
    put_u32(out, count)?;
    put_each_offset(out, items, round_up(4 + 4 * count))?;
    put_padding(out, 4 + 4 * count)?;
    Ok(())
}
