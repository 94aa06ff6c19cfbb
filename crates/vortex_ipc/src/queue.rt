//! Bytes that wait to be read.

ghost use Rattle.std.specs.Prelude.{◌≡◌, ◌+◌, ◌≤◌, [], ◌++◌, length, drop, slice_range, IfOk, IfErr, OnOk, MatchResult};
ghost use Rattle.vortex_ipc.specs.Queue.{HasLost};

use std::alloc::Global;
use std::marker::Model;
use std::mem;
use vortex_buffer::ByteBuffer;
use vortex_stream::IpcError;

/// Bytes that were pushed and are not read yet. Contracts see it as the list of them.
///
/// Those that lie in one piece are read from there with no copy. The others are joined into one
/// piece, and then read from there.
#[derive(Drop)]
pub struct BytesQueue {
    /// The first bytes, from `place` on.
    piece: ByteBuffer,
    place: usize,
    /// The bytes behind them.
    pushed: Vec<u8>,
}

impl Model for BytesQueue {
    ghost use Rattle.std.specs.Prelude.{ℕ, ◌≤◌, ◌++◌, List, length, drop};

    ghost Value = { List ℕ };

    ghost view = { λ q. drop q.place q.piece.bytes ++ q.pushed.items };

    ghost invariant = { λ q. q.place ≤ length q.piece.bytes };
}

impl BytesQueue {
    /// A queue of no bytes.
    pub fn new(alloc: Global) -> Result<BytesQueue, IpcError>
        ensures { MatchResult result (λ q. q ≡ []) (λ e. e ≡ IpcError.OutOfMemory) }
    {
        Ok(BytesQueue {
            piece: ByteBuffer::empty(),
            place: 0,
            pushed: Vec::new(alloc),
        })
    }

    /// A queue of the bytes of a buffer, which stay shared with it.
    pub(crate) fn of(alloc: Global, piece: ByteBuffer) -> BytesQueue
        ensures { result ≡ piece.bytes }
    {
        BytesQueue {
            piece,
            place: 0,
            pushed: Vec::new(alloc),
        }
    }

    /// How many bytes wait.
    pub fn len(&self) -> usize
        ensures { result ≡ length self.now }
    {
        self.piece.as_slice()[self.place..].len() + self.pushed.len()
    }

    /// Appends these bytes. Where memory runs out the queue is as it was.
    pub fn push(&mut self, _alloc: Global, bytes: &[u8]) -> Result<(), IpcError>
        ensures pushed { OnOk result (self.new ≡ self.old ++ bytes.now) }
        ensures kept { IfErr result (λ e. (e ≡ IpcError.OutOfMemory) × (self.new ≡ self.old)) }
    {
        self.pushed.extend_from_slice(bytes)?;
        Ok(())
    }

    /// Takes the first `count` bytes.
    ///
    /// Where memory runs out a prefix of the bytes may be lost.
    #[tactic(auto, using(crate::proofs::QueueLemmas::lost_nil, crate::proofs::QueueLemmas::queue_taken, crate::proofs::QueueLemmas::part_len))]
    pub(crate) fn take(&mut self, alloc: Global, count: usize) -> Result<ByteBuffer, IpcError>
        requires { count ≤ length self.old }
        ensures parts { IfOk result (λ b. self.old ≡ b.bytes ++ self.new) }
        ensures len { IfOk result (λ b. length b.bytes ≡ count) }
        ensures memory { IfErr result (λ e.
            (e ≡ IpcError.OutOfMemory) × HasLost self.old self.new) }
    {
        let piece = mem::replace(&mut self.piece, ByteBuffer::empty());
        let place = mem::replace(&mut self.place, 0);
        let pushed = mem::replace(&mut self.pushed, Vec::new(alloc));
        let Ok(parts) = gathered(alloc, piece, place, pushed, count) else {
            return Err(IpcError::OutOfMemory);
        };
        let end = parts.place + count;
        let Ok(taken) = part(alloc, &parts.piece, parts.place, end) else {
            return Err(IpcError::OutOfMemory);
        };
        self.piece = parts.piece;
        self.place = end;
        self.pushed = parts.pushed;
        Ok(taken)
    }
}

/// The parts of a queue.
#[derive(Drop)]
struct Parts {
    piece: ByteBuffer,
    place: usize,
    pushed: Vec<u8>,
}

/// The same bytes, so many of which lie in the first piece.
#[tactic(auto, using(crate::proofs::QueueLemmas::no_pushed))]
fn gathered(
    alloc: Global,
    piece: ByteBuffer,
    place: usize,
    pushed: Vec<u8>,
    count: usize,
) -> Result<Parts, IpcError>
    requires place { place ≤ length piece.bytes }
    requires count { count ≤ length (drop place piece.bytes ++ pushed.items) }
    ensures same { IfOk result (λ p. drop place piece.bytes ++ pushed.items
        ≡ drop p.place p.piece.bytes ++ p.pushed.items) }
    ensures front { IfOk result (λ p. p.place + count ≤ length p.piece.bytes) }
{
    if count <= piece.len() - place {
        return Ok(Parts {
            piece,
            place,
            pushed,
        });
    }
    let piece = joined(alloc, &piece, place, pushed)?;
    Ok(Parts {
        piece,
        place: 0,
        pushed: Vec::new(alloc),
    })
}

/// The bytes of a buffer from `place` on, and others behind them, as one buffer.
fn joined(
    alloc: Global,
    piece: &ByteBuffer,
    place: usize,
    pushed: Vec<u8>,
) -> Result<ByteBuffer, IpcError>
    requires { place ≤ length piece.now.bytes }
    ensures bytes { IfOk result (λ b. b.bytes ≡ drop place piece.now.bytes ++ pushed.items) }
    ensures memory { IfErr result (λ e. e ≡ IpcError.OutOfMemory) }
{
    if place == piece.len() {
        return shared(alloc, pushed);
    }
    let front = &piece.as_slice()[place..];
    let mut all = Vec::with_capacity(alloc, front.len() + pushed.len())?;
    all.extend_from_slice(front)?;
    all.extend_from_slice(&pushed)?;
    shared(alloc, all)
}

/// These bytes as a buffer, with no copy.
fn shared(alloc: Global, bytes: Vec<u8>) -> Result<ByteBuffer, IpcError>
    ensures bytes { IfOk result (λ b. b.bytes ≡ bytes.items) }
    ensures memory { IfErr result (λ e. e ≡ IpcError.OutOfMemory) }
{
    match ByteBuffer::from_vec(alloc, bytes) {
        Ok(buffer) => Ok(buffer),
        Err(_) => Err(IpcError::OutOfMemory),
    }
}

/// A part of a buffer, with no copy.
fn part(alloc: Global, piece: &ByteBuffer, from: usize, to: usize) -> Result<ByteBuffer, IpcError>
    requires start_le_end { from ≤ to }
    requires in_bounds { to ≤ length piece.now.bytes }
    ensures bytes { IfOk result (λ b. b.bytes ≡ slice_range piece.now.bytes from to) }
    ensures memory { IfErr result (λ e. e ≡ IpcError.OutOfMemory) }
{
    match piece.slice(alloc, from, to) {
        Ok(part) => Ok(part),
        Err(_) => Err(IpcError::OutOfMemory),
    }
}
