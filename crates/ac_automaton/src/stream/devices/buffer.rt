//! The bytes of a stream that are held in memory.
//!
//! A stream is searched by pieces, in one buffer of a size that never changes. Each piece goes after what is held, read from a reader
//! or taken from a slice. A match may begin in one piece and end in another, so of the held bytes as many are kept as the longest
//! pattern has. They are moved to the front only when no room is left after them. They are an eighth of the buffer at most, and the
//! rest of it is read before they are moved again: so seven bytes are read for each byte that is moved. One function moves bytes, and
//! counts them.
ghost use Rattle.std.specs.Prelude.{◌≡◌, ◌+◌, ◌-◌, ◌≤◌, ◌<◌, ◌↔◌, false, length, min, take, drop, IfOk, IsTrue, vec_len, max};
ghost use Rattle.std.specs.List.{copy_within};
ghost use Rattle.ac_input.specs.declared.search.Anchored.TheVariants.{No};
ghost use Rattle.ac_input.specs.declared.search.MatchKind.TheVariants.{Standard};
ghost use Rattle.ac_input.specs.Steps.{Done};
ghost use Rattle.ac_automaton.specs.Automaton.{IsReached, IsReadCost};
ghost use Rattle.ac_input.specs.Number.{usize_max};
ghost use Rattle.ac_automaton.specs.Masking.{MasksFrom};
ghost use Rattle.ac_automaton.specs.Masking.Words.{CostsWindow, HoldsWords, MasksWindow, MayMaskWords};
ghost use Rattle.ac_automaton.specs.Stream.Devices.Buffer.{Fills, IsRollPaid, MasksHeld, nothing_held, rolled, taken_into};

use crate::automaton::{Advance, Automaton};
use crate::masking::words::{MaskPlace, mask_words_from};
use crate::search::Search;
use crate::stream::LEAST_ROOM;
use crate::stream::devices::watched::Watched;
use crate::words::Window;
use ac_input::history::Count;
use ac_input::primitives::StateID;
use ac_input::steps::Steps;
use std::alloc::{AllocError, Global};
use std::io;
use std::io::Read;
use std::marker::Model;

/// How often a buffer has room for what is kept, at least.
const SHARE: usize = 8;

/// One buffer for the bytes of a stream.
#[derive(Drop)]
pub(crate) struct Buffer {
    bytes: Vec<u8>,
    filled: usize,
    keep: usize,
    read: Count,
    moved: Count,
}

impl Model for Buffer {
    ghost use Rattle.std.specs.Prelude.{◌≤◌, take, vec_len};
    ghost use Rattle.ac_automaton.specs.Stream.Devices.Buffer.{Held, IsRollPaid};

    ghost Value = { Held };

    ghost view = { λ b. record {
      bytes = take b.filled b.bytes.items;
      room = vec_len b.bytes;
      keep = b.keep;
      read = b.read.value;
      moved = b.moved.value;
    } };

    ghost invariant = { λ b. (b.filled ≤ vec_len b.bytes)
        × IsRollPaid (record {
          bytes = take b.filled b.bytes.items;
          room = vec_len b.bytes;
          keep = b.keep;
          read = b.read.value;
          moved = b.moved.value;
        }) };
}

impl Buffer {
    /// Allocates the memory. Nothing is held yet.
    pub fn new(alloc: Global, longest: usize) -> Result<Buffer, AllocError>
        ensures fresh { IfOk result (λ buffer. buffer ≡ nothing_held (max longest 1)) }
        ensures paid { IfOk result IsRollPaid }
    {
        let keep = longest.max(1);
        let Some(share) = keep.checked_mul(SHARE) else {
            return Err(AllocError);
        };
        let mut bytes = Vec::new(alloc);
        bytes.resize(share.max(LEAST_ROOM), 0)?;
        Ok(Buffer {
            bytes,
            filled: 0,
            keep,
            read: Count::zero(),
            moved: Count::zero(),
        })
    }

    /// What is held.
    pub fn held(&self) -> &[u8]
        ensures { result.now ≡ self.now.bytes }
    {
        &self.bytes.as_slice()[..self.filled]
    }

    /// The most bytes that are kept when it is full.
    pub fn keep(&self) -> usize
        ensures { result ≡ self.now.keep }
    {
        self.keep
    }

    /// Whether there is no room after the held bytes.
    pub fn is_full(&self) -> bool
        ensures { IsTrue result ↔ (length self.now.bytes ≡ self.now.room) }
    {
        self.filled == self.bytes.len()
    }

    /// Reads once, into all the free room.
    pub fn fill<R: Read>(&mut self, reader: &mut Watched<R>) -> io::Result<usize>
        requires room { length self.old.bytes < self.old.room }
        requires open { reader.old.ended ≡ false }
        ensures gave { Fills R.remaining self.old self.new reader.old reader.new result }
        ensures paid { IsRollPaid self.new }
    {
        let n = reader.read(&mut self.bytes[self.filled..])?;
        self.filled += n;
        self.read = self.read.more(&n);
        Ok(n)
    }

    /// Takes as many of the bytes as there is room for, the first ones. Returns how many.
    pub fn take(&mut self, bytes: &[u8]) -> usize
        ensures many { result ≡ min (length bytes.now) (self.old.room - length self.old.bytes) }
        ensures took { self.new ≡ taken_into self.old (take result bytes.now) }
        ensures paid { IsRollPaid self.new }
    {
        let n = bytes.len().min(self.bytes.len() - self.filled);
        let filled = self.filled + n;
        self.bytes[self.filled..filled].copy_from_slice(&bytes[..n]);
        self.filled = filled;
        self.read = self.read.more(&n);
        n
    }

    /// Masks the occurrences that end among the bytes from a place on, by an automaton that stands in this state at the place. Returns
    /// its state after them, and how many they were.
    pub fn mask<A: Search>(
        &mut self,
        automaton: &A,
        sid: StateID,
        from: usize,
        mask: u8,
        steps: &mut Steps,
    ) -> Advance
        requires standard { (A.built automaton.now).dictionary.kind ≡ Standard }
        requires reached { IsReached (A.Reaches automaton.now No) sid }
        requires within { from ≤ length self.old.bytes }
        ensures masked { MasksHeld (A.built automaton.now) (A.Reaches automaton.now No) mask sid from self.old self.new result }
        ensures cost { IsReadCost (A.built automaton.now) (A.Reaches automaton.now) No sid (drop from self.old.bytes)
            steps.old steps.new }
    {
        let bytes = self.bytes.as_mut_slice();
        let sid = mask_front(automaton, sid, bytes, self.filled, from, mask, steps);
        Advance {
            sid,
            taken: self.filled - from,
        }
    }

    /// Masks the whole words that become known, where a window shows the same bytes as they were read: see [`mask_words_from`].
    pub fn mask_words<A: Automaton>(
        &mut self,
        automaton: &A,
        window: Window<'_>,
        place: &mut MaskPlace,
        mask: u8,
        steps: &mut Steps,
    )
        requires standard { (A.built automaton.now).dictionary.kind ≡ Standard }
        requires fits { window.from + length window.bytes.now ≤ usize_max }
        requires near { HoldsWords (A.built automaton.now) window.from place.old.at }
        requires may { MayMaskWords A.Automaton automaton.now mask window place.old self.old.bytes }
        ensures masks { MasksWindow A.Automaton automaton.now mask window.entry place.old self.old.bytes
            place.new self.new.bytes }
        ensures same { self.new ≡ record self.old { bytes = self.new.bytes } }
        ensures cost { CostsWindow A.Automaton automaton.now window.entry place.old place.new steps.old steps.new }
    {
        let bytes = self.bytes.as_mut_slice();
        mask_words_front(automaton, window, place, bytes, self.filled, mask, steps);
    }

    /// Moves the held bytes from a place on to the front, if there is no room after them.
    pub fn roll(&mut self, from: usize, steps: &mut Steps)
        requires full { length self.old.bytes ≡ self.old.room }
        requires from { from ≤ length self.old.bytes }
        requires kept { length self.old.bytes ≤ from + self.old.keep }
        ensures rolled { self.new ≡ rolled self.old from }
        ensures paid { IsRollPaid self.new }
        ensures moved { Done 0 0 (length self.old.bytes - from) steps.old steps.new }
    {
        move_to_front(&mut self.bytes, from, self.filled, steps);
        self.filled -= from;
        self.moved = self.moved.more(&self.filled);
    }
}

/// Masks the first `len` bytes from a place on.
fn mask_front<A: Search>(
    automaton: &A,
    sid: StateID,
    bytes: &mut [u8],
    len: usize,
    from: usize,
    mask: u8,
    steps: &mut Steps,
) -> StateID
    requires standard { (A.built automaton.now).dictionary.kind ≡ Standard }
    requires reached { IsReached (A.Reaches automaton.now No) sid }
    requires within { from ≤ len }
    requires fits { len ≤ length bytes.old }
    ensures masks { MasksFrom (A.built automaton.now) (A.Reaches automaton.now No) mask sid from
        (take len bytes.old) (take len bytes.new) result }
    ensures len { length bytes.new ≡ length bytes.old }
    ensures cost { IsReadCost (A.built automaton.now) (A.Reaches automaton.now) No sid (drop from (take len bytes.old))
        steps.old steps.new }
{
    automaton.mask_from(sid, &mut bytes[..len], from, mask, steps)
}

/// Masks the whole words that become known in the first `len` bytes.
fn mask_words_front<A: Automaton>(
    automaton: &A,
    window: Window<'_>,
    place: &mut MaskPlace,
    bytes: &mut [u8],
    len: usize,
    mask: u8,
    steps: &mut Steps,
)
    requires standard { (A.built automaton.now).dictionary.kind ≡ Standard }
    requires fits { window.from + length window.bytes.now ≤ usize_max }
    requires near { HoldsWords (A.built automaton.now) window.from place.old.at }
    requires within { len ≤ length bytes.old }
    requires may { MayMaskWords A.Automaton automaton.now mask window place.old (take len bytes.old) }
    ensures masks { MasksWindow A.Automaton automaton.now mask window.entry place.old (take len bytes.old)
        place.new (take len bytes.new) }
    ensures len { length bytes.new ≡ length bytes.old }
    ensures cost { CostsWindow A.Automaton automaton.now window.entry place.old place.new steps.old steps.new }
{
    mask_words_from(automaton, window, place, &mut bytes[..len], mask, steps);
}

/// Moves the bytes between two places to the front, and counts each of them. Nothing else moves bytes of a stream.
fn move_to_front(bytes: &mut Vec<u8>, from: usize, end: usize, steps: &mut Steps)
    requires order { from ≤ end }
    requires within { end ≤ vec_len bytes.old }
    ensures front { bytes.new.items ≡ copy_within bytes.old.items from end 0 }
    ensures len { vec_len bytes.new ≡ vec_len bytes.old }
    ensures counted { Done 0 0 (end - from) steps.old steps.new }
{
    bytes.copy_within(from..end, 0);
    steps.shift(end - from);
}
