//! Writes to a watched writer, buffered.
//!
//! A search finds text in pieces that may be a few bytes long, and a write for each would cost more than the search. An [`Output`]
//! gathers such pieces in one buffer of 64 KiB and writes them together, in the order in which they were sent. Replacement over
//! streams sends through it, and so may a caller that lists or replaces what it finds.
//!
//! It writes when a piece doesn't fit after what is held back: first what is held, then the piece itself, uncopied, if it is
//! larger than the whole buffer. Apart from that it writes on request, by [`Output::send_held`] and [`Output::send_all`], which
//! leave nothing held back. A caller has to end with one of these: bytes still held when an `Output` is dropped are never written.
//! The writer is never flushed.
//!
//! [`Output::new`] allocates the buffer, and returns an error if there is no memory. It never grows, and no other call takes any
//! memory. Each byte is copied once at most.
//!
//! A send stops at the first write that fails or takes no byte, and returns [`StreamError::Write`] or [`StreamError::WriteZero`],
//! and no other error. Nothing is tried again. Of the bytes held back and sent, a front part was written then; the rest is
//! dropped, and nothing is held back any more.
ghost use Rattle.std.specs.Prelude.{◌≡◌, ◌+◌, ◌≤◌, [], ◌++◌, length, IfOk};
ghost use Rattle.ac_automaton.specs.Stream.Devices.Buffer.{least_room};
ghost use Rattle.ac_automaton.specs.Stream.Devices.Output.{Sends};

use crate::error::StreamError;
use crate::stream::LEAST_ROOM;
use crate::stream::devices::watched::{Watched, write_whole};
use std::alloc::{AllocError, Global};
use std::io::Write;
use std::marker::Model;

/// Bytes on their way to a writer. A contract sees those that are held back.
///
/// It is no writer itself: each call takes the writer, which stays the caller's. All calls have to be passed the same one.
#[derive(Drop)]
pub struct Output {
    bytes: Vec<u8>,
    filled: usize,
}

impl Model for Output {
    ghost use Rattle.std.specs.Prelude.{◌≡◌, ℕ, ◌≤◌, List, take, vec_len};
    ghost use Rattle.ac_automaton.specs.Stream.Devices.Buffer.{least_room};

    ghost Value = { List ℕ };

    ghost view = { λ output. take output.filled output.bytes.items };

    // The room that was taken doesn't change, and the bytes held back fit into it.
    ghost invariant = { λ output. (vec_len output.bytes ≡ least_room) × (output.filled ≤ least_room) };
}

impl Output {
    /// Allocates the buffer, and holds nothing back yet.
    pub fn new(alloc: Global) -> Result<Output, AllocError>
        ensures { IfOk result (λ output. output ≡ []) }
    {
        let mut bytes = Vec::new(alloc);
        bytes.resize(LEAST_ROOM, 0)?;
        Ok(Output { bytes, filled: 0 })
    }

    /// Sends the bytes. Some of them may be held back.
    #[inline(always)]
    pub fn send<W: Write>(
        &mut self,
        writer: &mut Watched<W>,
        bytes: &[u8],
    ) -> Result<(), StreamError>
        ensures sent { Sends W.contents bytes.now writer.old writer.new self.old self.new
            result }
    {
        if bytes.len() <= LEAST_ROOM - self.filled {
            self.hold_back(bytes);
            return Ok(());
        }
        self.send_past(writer, bytes)
    }

    /// The same, where what is held back may have to be written first.
    #[inline(never)]
    fn send_past<W: Write>(
        &mut self,
        writer: &mut Watched<W>,
        bytes: &[u8],
    ) -> Result<(), StreamError>
        ensures sent { Sends W.contents bytes.now writer.old writer.new self.old self.new
            result }
    {
        self.send_held(writer)?;
        if bytes.len() <= LEAST_ROOM {
            self.hold_back(bytes);
            return Ok(());
        }
        write_whole(writer, bytes)
    }

    /// Holds the bytes back. There is room for them.
    fn hold_back(&mut self, bytes: &[u8])
        requires { length self.old + length bytes.now ≤ least_room }
        ensures { self.new ≡ self.old ++ bytes.now }
    {
        let filled = self.filled + bytes.len();
        self.bytes[self.filled..filled].copy_from_slice(bytes);
        self.filled = filled;
    }

    /// Writes what is held back. If that is nothing, the writer isn't called.
    pub fn send_held<W: Write>(&mut self, writer: &mut Watched<W>) -> Result<(), StreamError>
        ensures sent { Sends W.contents [] writer.old writer.new self.old self.new result }
        ensures none { self.new ≡ [] }
    {
        let sent = write_whole(writer, &self.bytes.as_slice()[..self.filled]);
        self.filled = 0;
        sent
    }

    /// Sends the text before a match, and what is put in its place.
    #[inline(always)]
    pub fn send_exchanged<W: Write>(
        &mut self,
        writer: &mut Watched<W>,
        before: &[u8],
        replacement: &[u8],
    ) -> Result<(), StreamError>
        ensures sent { Sends W.contents (before.now ++ replacement.now) writer.old writer.new
            self.old self.new result }
    {
        let room = LEAST_ROOM - self.filled;
        if before.len() <= room && replacement.len() <= room - before.len() {
            self.hold_back(before);
            self.hold_back(replacement);
            return Ok(());
        }
        self.send_both(writer, before, replacement)
    }

    /// The same, one after the other.
    #[inline(never)]
    fn send_both<W: Write>(
        &mut self,
        writer: &mut Watched<W>,
        before: &[u8],
        replacement: &[u8],
    ) -> Result<(), StreamError>
        ensures sent { Sends W.contents (before.now ++ replacement.now) writer.old writer.new
            self.old self.new result }
    {
        self.send(writer, before)?;
        self.send(writer, replacement)
    }

    /// Sends the bytes, and holds nothing back.
    pub fn send_all<W: Write>(
        &mut self,
        writer: &mut Watched<W>,
        bytes: &[u8],
    ) -> Result<(), StreamError>
        ensures sent { Sends W.contents bytes.now writer.old writer.new self.old [] result }
        ensures none { self.new ≡ [] }
    {
        self.send(writer, bytes)?;
        self.send_held(writer)
    }
}
