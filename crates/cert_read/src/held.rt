//! Bytes that were read and are held until they are given out.
ghost use Rattle.std.specs.Prelude.{◌≡◌, ◌++◌, ◌≤◌, [], length, take, drop, IfOk, OnOk, OnErr};

use std::alloc::{AllocError, Global};
use std::marker::Model;

/// A queue of bytes: they come at its end in pieces, and go at its start. Contracts see it as their list.
///
/// What was given out stays in the buffer until the next piece comes, so that giving out moves no byte.
#[derive(Drop)]
pub(crate) struct Held {
    buffer: Vec<u8>,
    start: usize,
}

impl Model for Held {
    ghost use Rattle.std.specs.Prelude.{List, ℕ, ◌≤◌, length, drop};

    ghost Value = { List ℕ };

    ghost view = { λ a. drop a.start a.buffer.items };

    ghost invariant = { λ a. a.start ≤ length a.buffer.items };
}

/// Drops the first bytes.
fn drop_first(buffer: &mut Vec<u8>, count: usize)
    requires { count ≤ length buffer.old.items }
    ensures { buffer.new.items ≡ drop count buffer.old.items }
{
    let rest = buffer.len() - count;
    buffer.rotate_left(count);
    buffer.truncate(rest);
}

impl Held {
    /// No bytes, with room for so many.
    pub fn with_capacity(alloc: Global, capacity: usize) -> Result<Held, AllocError>
        ensures { IfOk result (λ h. h ≡ []) }
    {
        Ok(Held {
            buffer: Vec::with_capacity(alloc, capacity)?,
            start: 0,
        })
    }

    /// The allocator that the buffer keeps.
    pub fn allocator(&self) -> Global {
        *self.buffer.allocator()
    }

    /// The bytes in their order.
    pub fn bytes(&self) -> &[u8]
        ensures { result.now ≡ self.now }
    {
        &self.buffer[self.start..]
    }

    /// Gives the first bytes out.
    pub fn give(&mut self, count: usize)
        requires { count ≤ length self.old }
        ensures { self.new ≡ drop count self.old }
    {
        self.start += count;
    }

    /// Keeps the first bytes alone, as if the others had not come.
    pub fn keep(&mut self, count: usize)
        requires { count ≤ length self.old }
        ensures { self.new ≡ take count self.old }
    {
        self.buffer.truncate(self.start + count);
    }

    /// Takes a piece in at the end. After a refusal all is as before.
    pub fn extend(&mut self, piece: &[u8]) -> Result<(), AllocError>
        ensures ok { OnOk result (self.new ≡ self.old ++ piece.now) }
        ensures err { OnErr result (self.new ≡ self.old) }
    {
        drop_first(&mut self.buffer, self.start);
        self.start = 0;
        self.buffer.extend_from_slice(piece)
    }
}
