//! The messages of arrays that are written.

ghost use Rattle.std.specs.Prelude.{◌≡◌, ◌+◌, ◌/◌, ◌≤◌, ◌<◌, ◌^◌, ◌++◌, length, take, drop, IfOk, OnOk};
ghost use Rattle.vortex_select.specs.Layout.{array_header, array_message, body_end};
ghost use Rattle.vortex_select.specs.inner.KeptRows.{kept_region};

use crate::message_parts::{fill_header, primitive_flat, primitive_header};
use crate::rows::push_kept;
use crate::words::Query;
use std::alloc::{AllocError, Global};
use std::marker::Model;

/// How long the header of a primitive array is, with its length before it.
const HEADER_ROOM: usize = 108;

/// How many frames are kept.
const KEPT_FRAMES: usize = 64;

/// What stands around the region of a primitive array: the header, and the flat buffer.
#[derive(Drop)]
struct Frame {
    /// How many bytes the region has.
    len: u32,
    header: Vec<u8>,
    flat: Vec<u8>,
}

impl Model for Frame {
    ghost use Rattle.std.specs.Prelude.{◌≡◌, ◌+◌, ◌/◌, ℕ, take, drop};
    ghost use Rattle.vortex_select.specs.Layout.{array_header, body_end};

    ghost Value = { ℕ };

    ghost view = { λ f. f.len };

    ghost invariant = { λ f. (f.header.items ≡ drop 4 (array_header (f.len / 8) (f.len + 116)))
        × (f.flat.items ≡ take 112 (body_end f.len)) };
}

impl Frame {
    fn new(alloc: Global, len: u32) -> Result<Frame, AllocError>
        ensures { IfOk result (λ frame. frame ≡ len) }
    {
        let flat = primitive_flat(alloc, len)?;
        let header = primitive_header(alloc, len / 8, u64::from(len) + flat.len() as u64 + 4)?;
        Ok(Frame { len, header, flat })
    }

    fn len(&self) -> u32
        ensures { result ≡ self.now }
    {
        self.len
    }

    /// Puts the frame around the region at the end of `out`, before which room was left for the
    /// header at `start`.
    fn put(&self, out: &mut Vec<u8>, start: usize) -> Result<(), AllocError>
        requires { start + 108 ≤ length out.old.items }
        ensures { OnOk result (out.new.items ≡ (take start out.old.items
            ++ (array_header (self.now / 8) (self.now + 116) ++ drop (start + 108) out.old.items))
            ++ body_end self.now) }
    {
        fill_header(out, start, &self.header);
        out.extend_from_slice(&self.flat)?;
        out.extend_from_slice(&(self.flat.len() as u32).to_le_bytes())?;
        Ok(())
    }
}

/// Frames that were laid out, each at a place by its number of rows, so that arrays of few rows are
/// not laid out one by one.
#[derive(Drop)]
pub(crate) struct Frames {
    frames: Vec<Option<Frame>>,
}

impl Frames {
    pub(crate) fn new(alloc: Global) -> Result<Frames, AllocError> {
        let mut frames = Vec::with_capacity(alloc, KEPT_FRAMES)?;
        for _ in 0..KEPT_FRAMES {
            frames.push(None)?;
        }
        Ok(Frames { frames })
    }

    /// Puts the frame of that length around the region at the end of `out`.
    fn put(&mut self, out: &mut Vec<u8>, start: usize, len: u32) -> Result<(), AllocError>
        requires { start + 108 ≤ length out.old.items }
        ensures { OnOk result (out.new.items ≡ (take start out.old.items
            ++ (array_header (len / 8) (len + 116) ++ drop (start + 108) out.old.items))
            ++ body_end len) }
    {
        let place = len as usize / 8 % KEPT_FRAMES;
        if let Some(Some(frame)) = self.frames.get(place) {
            if frame.len() == len {
                return frame.put(out, start);
            }
        }
        let frame = Frame::new(*out.allocator(), len)?;
        frame.put(out, start)?;
        if let Some(kept) = self.frames.get_mut(place) {
            *kept = Some(frame);
        }
        Ok(())
    }
}

/// Appends the message of a primitive array of the rows that are kept, and tells how many they are.
///
/// Room is left for the header, which is put there once the rows stand.
pub(crate) fn push_selected(
    out: &mut Vec<u8>,
    frames: &mut Frames,
    query: &Query,
    rows: &[u8],
) -> Result<usize, AllocError>
    requires { length rows.now < 2 ^ 32 }
    ensures message { OnOk result
        (out.new.items ≡ out.old.items ++ array_message (kept_region query.now rows.now)) }
    ensures kept { IfOk result (λ kept. kept ≡ length (kept_region query.now rows.now) / 8) }
{
    let start = out.len();
    out.extend_from_slice(&[0; HEADER_ROOM])?;
    push_kept(out, query, rows)?;
    let len = out.len() - start - HEADER_ROOM;
    frames.put(out, start, len as u32)?;
    Ok(len / 8)
}
