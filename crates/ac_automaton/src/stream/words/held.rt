//! The text of a stream that is searched for whole words: what was read of it, the last bytes of that, and what was returned.
//!
//! Both searches stand on it, and it knows nothing of words: a search tells it before which place no byte is needed any more. It reads
//! or takes a piece, and before that moves the bytes from there on to the front of its buffer, if no room is left. Of a word that may
//! still be found at most as many bytes were read as the longest pattern has, and the byte before it counts, too. So one byte more is
//! kept than in a search for matches.
ghost use Rattle.std.specs.Prelude.{◌≡◌, ◌≢◌, ◌↔◌, ◌+◌, ◌≤◌, ◌<◌, [], false, true, length, IfErr, IfOk, IsTrue, drop};
ghost use Rattle.ac_input.specs.Steps.{Added};
ghost use Rattle.ac_automaton.specs.Stream.{CanBeCounted, IsOutOfMemory};
ghost use Rattle.ac_automaton.specs.Stream.Devices.Buffer.{room_for};
ghost use Rattle.ac_automaton.specs.Stream.Search.{some_of};
ghost use Rattle.ac_automaton.specs.Stream.WholeWords.Held.{CanKeepFrom, CountsMoved, IsUnread, MovesNothing, ReadsText, RollsTo, TakesText, text_of};
ghost use Rattle.ac_automaton.specs.Words.{IsWindowOf};

use crate::error::StreamError;
use crate::stream::devices::buffer::Buffer;
use crate::stream::devices::watched::Watched;
use crate::stream::search::given_then;
use crate::words::Window;
use ac_input::history::{Count, Pieces};
use ac_input::search::Match;
use ac_input::steps::Steps;
use std::alloc::Global;
use std::io::Read;
use std::marker::Model;

/// A text as far as it was read, and its last bytes.
#[derive(Drop)]
pub(crate) struct HeldText {
    buffer: Buffer,
    /// The place of the first byte that is held.
    from: usize,
    /// Whether it was told that nothing more comes.
    closed: bool,
    /// Whether there are more bytes than places.
    over: bool,
    given: Count,
    pieces: Pieces,
    sums: Steps,
}

impl Model for HeldText {
    ghost use Rattle.ac_automaton.specs.Stream.WholeWords.Held.{IsTextHeld, TextRead, text_come};

    ghost Value = { TextRead };

    ghost view = { λ i. text_come i.pieces.items i.given.value i.closed i.from i.buffer i.sums };

    ghost invariant = { λ i.
        IsTextHeld (text_come i.pieces.items i.given.value i.closed i.from i.buffer i.sums) i.buffer i.over };
}

impl HeldText {
    /// A text of which nothing was read yet, for patterns of at most so many bytes. Returns an error if there is no memory for the
    /// buffer; it takes no memory after that.
    pub(crate) fn new(alloc: Global, longest: usize) -> Result<HeldText, StreamError>
        ensures unread { IfOk result (IsUnread longest) }
        ensures error { IfErr result IsOutOfMemory }
    {
        let Some(keep) = longest.max(1).checked_add(1) else {
            return Err(StreamError::Memory);
        };
        let buffer = Buffer::new(alloc, keep)?;
        Ok(HeldText {
            buffer,
            from: 0,
            closed: false,
            over: false,
            given: Count::zero(),
            pieces: Pieces::empty(),
            sums: Steps::new(),
        })
    }

    /// The held bytes.
    pub(crate) fn held(&self) -> &[u8]
        ensures { result.now ≡ drop self.now.from (text_of self.now) }
    {
        self.buffer.held()
    }

    /// The place of the first byte that is held.
    pub(crate) fn from(&self) -> usize
        ensures { result ≡ self.now.from }
    {
        self.from
    }

    /// The place after the last byte that was read.
    pub(crate) fn end(&self) -> usize
        requires countable { CanBeCounted (text_of self.now) }
        ensures { result ≡ length (text_of self.now) }
    {
        self.from + self.buffer.held().len()
    }

    /// Whether there are more bytes than places.
    pub(crate) fn is_over(&self) -> bool
        ensures over { result ≡ true → ¬ CanBeCounted (text_of self.now) }
        ensures open { result ≡ false → CanBeCounted (text_of self.now) }
    {
        self.over
    }

    /// Whether it was told that nothing more comes.
    pub(crate) fn is_closed(&self) -> bool
        ensures { result ≡ self.now.closed }
    {
        self.closed
    }

    /// Tells it that nothing more comes.
    pub(crate) fn close(&mut self)
        ensures { self.new ≡ record self.old { closed = true } }
    {
        self.closed = true;
    }

    /// Whether a place is the end of what was read.
    pub(crate) fn ends_at(&self, at: usize) -> bool
        requires held { self.now.from ≤ at }
        ensures { IsTrue result ↔ (at ≡ length (text_of self.now)) }
    {
        at - self.from == self.buffer.held().len()
    }

    /// What a search looks at.
    pub(crate) fn window(&self) -> Window<'_>
        ensures shows { IsWindowOf result (text_of self.now) }
        ensures from { result.from ≡ self.now.from }
        ensures closed { result.closed ≡ self.now.closed }
    {
        Window {
            bytes: self.buffer.held(),
            from: self.from,
            closed: self.closed,
        }
    }

    /// Counts what a search returned of it, and what that took.
    pub(crate) fn count(&mut self, found: &Option<Match>, taken: &Steps)
        ensures same { self.new ≡ record self.old {
          returned = self.old.returned + length (some_of found.now);
          sums = self.new.sums;
        } }
        ensures added { Added taken.now self.old.sums self.new.sums }
    {
        self.given = given_then(&self.given, found);
        self.sums.add(taken);
    }

    /// Moves the bytes from a place on to the front, if no room is left.
    fn make_room(&mut self, place: usize, steps: &mut Steps)
        requires keeps { CanKeepFrom place self.old }
        ensures rolls { RollsTo place self.old self.new }
        ensures counts { CountsMoved self.old self.new steps.old steps.new }
    {
        if self.buffer.is_full() {
            self.buffer.roll(place - self.from, steps);
            self.from = place;
        }
    }

    /// One read, into all the free room; if there is none, the bytes from a place on are moved to the front first.
    ///
    /// Returns how many bytes it read: none at the end of the input. An error is `Read`, or `Position` if there are now more bytes
    /// than places; nothing may be read after either.
    pub(crate) fn read_more<R: Read>(
        &mut self,
        reader: &mut Watched<R>,
        place: usize,
        steps: &mut Steps,
    ) -> Result<usize, StreamError>
        requires open { reader.old.ended ≡ false }
        requires keeps { CanKeepFrom place self.old }
        ensures read { ReadsText R.remaining place self.old self.new reader.old reader.new result }
        ensures counts { CountsMoved self.old self.new steps.old steps.new }
    {
        self.make_room(place, steps);
        self.fill(reader)
    }

    /// One read; there is room.
    fn fill<R: Read>(&mut self, reader: &mut Watched<R>) -> Result<usize, StreamError>
        requires open { reader.old.ended ≡ false }
        requires room { length (text_of self.old) < self.old.from + room_for self.old.keep }
        ensures read { ReadsText R.remaining self.old.from self.old self.new reader.old reader.new result }
        ensures still { MovesNothing self.old self.new }
    {
        let n = match self.buffer.fill(reader) {
            Ok(n) => n,
            Err(error) => {
                self.pieces = self.pieces.and(&[]);
                return Err(StreamError::Read(error));
            }
        };
        let held = self.buffer.held();
        self.pieces = self.pieces.and(&held[held.len() - n..]);
        self.over = held.len() > usize::MAX - self.from;
        if self.over {
            return Err(StreamError::Position);
        }
        Ok(n)
    }

    /// Takes the first bytes of a piece, as many as there is room for, and at least one; if there is no room, the bytes from a place on
    /// are moved to the front first. Returns how many, or the error `Position` if there are now more bytes than places.
    pub(crate) fn push(
        &mut self,
        piece: &[u8],
        place: usize,
        steps: &mut Steps,
    ) -> Result<usize, StreamError>
        requires some { piece.now ≢ [] }
        requires keeps { CanKeepFrom place self.old }
        ensures takes { TakesText place self.old self.new piece.now result }
        ensures counts { CountsMoved self.old self.new steps.old steps.new }
    {
        self.make_room(place, steps);
        self.append(piece)
    }

    /// Takes the first bytes of a piece; there is room.
    fn append(&mut self, piece: &[u8]) -> Result<usize, StreamError>
        requires some { piece.now ≢ [] }
        requires room { length (text_of self.old) < self.old.from + room_for self.old.keep }
        ensures takes { TakesText self.old.from self.old self.new piece.now result }
        ensures still { MovesNothing self.old self.new }
    {
        let n = self.buffer.take(piece);
        self.pieces = self.pieces.and(&piece[..n]);
        self.over = self.buffer.held().len() > usize::MAX - self.from;
        if self.over {
            return Err(StreamError::Position);
        }
        Ok(n)
    }
}
