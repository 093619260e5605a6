//! Masking the whole words of a stream.
//!
//! Whether an occurrence is a whole word may depend on a byte that was masked with an earlier word. So two buffers hold the same part of
//! the stream: one as it was read, and one masked so far. After each read the words are masked that are known by then: see
//! [`masking::words`](crate::masking::words). A word that isn't known yet ends at the end of what was read, or later. So all is ready to
//! be written but the last bytes: as many as the longest pattern has, and none where nothing is live. One byte before these is held too.
//!
//! [`mask_words_stream`] masks a stream from a reader into a writer, and [`pushed`] one whose pieces are pushed.
ghost use Rattle.std.specs.Prelude.{◌≡◌, ◌+◌, ◌-◌, ◌<◌, ◌≤◌, ℕ, List, [], false, length, min, slice_range, take, IfErr, IfOk};
ghost use Rattle.ac_input.specs.declared.search.Anchored.TheVariants.{No};
ghost use Rattle.ac_input.specs.declared.search.MatchKind.TheVariants.{Standard};
ghost use Rattle.ac_input.specs.Number.{StateID, usize_max};
ghost use Rattle.ac_input.specs.Work.{longest, shortest};
ghost use Rattle.ac_automaton.specs.Masking.Words.{CostsReading, MasksKnown};
ghost use Rattle.ac_automaton.specs.Masking.Words.Stream.{AnswersNewWordMask, AreAlike, CostsMaskWordsStream, CountsMoves, FillsBoth, HasMadeRoomFor, IsMaskerRolled, IsWordMasker, MasksWordsStream, WritesMaskedWords, fresh_word_masker, words_grown};
ghost use Rattle.ac_automaton.specs.Stream.{IsOutOfMemory};
ghost use Rattle.ac_automaton.specs.Stream.Overlapping.{AcceptsListing};
ghost use Rattle.ac_automaton.specs.Stream.Replace.{IsBegun};

use crate::automaton::Automaton;
use crate::error::StreamError;
use crate::masking::words::MaskPlace;
use crate::stream::devices::buffer::Buffer;
use crate::stream::devices::watched::{Watched, write_whole};
use crate::stream::mask::masker::cut_after;
use crate::stream::overlapping::configured;
use crate::words::Window;
use ac_input::primitives::StateID;
use ac_input::steps::Steps;
use std::alloc::Global;
use std::io::{Read, Write};

pub(super) mod pushed;

/// What a masking of whole words keeps between two reads.
#[derive(Drop)]
pub(crate) struct WordMasker {
    plain: Buffer,
    masked: Buffer,
    /// The place of the first byte that is held.
    from: usize,
    /// Up to where the masked bytes were written.
    out: usize,
    place: MaskPlace,
}

impl WordMasker {
    /// A masking that begins in this start state, by patterns of at most so many bytes.
    fn new(start: StateID, longest: usize, alloc: Global) -> Result<WordMasker, StreamError>
        ensures fresh { IfOk result (λ s. s ≡ fresh_word_masker longest start) }
        ensures alike { IfOk result AreAlike }
        ensures error { IfErr result IsOutOfMemory }
    {
        let Some(keep) = longest.checked_add(1) else {
            return Err(StreamError::Memory);
        };
        let plain = Buffer::new(alloc, keep)?;
        let masked = Buffer::new(alloc, keep)?;
        Ok(WordMasker {
            plain,
            masked,
            from: 0,
            out: 0,
            place: MaskPlace { sid: start, at: 0 },
        })
    }

    /// If no room is left, the last bytes are moved to the front, as many as are kept.
    fn make_room(&mut self, steps: &mut Steps)
        requires alike { AreAlike self.old }
        requires fits { self.old.from + length self.old.plain.bytes ≤ usize_max }
        ensures rolled { IsMaskerRolled self.old self.new }
        ensures made { HasMadeRoomFor self.new }
        ensures counts { CountsMoves self.old self.new steps.old steps.new }
    {
        if self.plain.is_full() {
            let gone = self.plain.held().len() - self.plain.keep();
            self.plain.roll(gone, steps);
            self.masked.roll(gone, steps);
            self.from += gone;
        }
    }

    /// One read, into all the free room. What it returns isn't masked yet.
    fn fill<R: Read>(&mut self, reader: &mut Watched<R>) -> Result<usize, StreamError>
        requires open { reader.old.ended ≡ false }
        requires made { HasMadeRoomFor self.old }
        requires fits { self.old.from + length self.old.plain.bytes ≤ usize_max }
        ensures { FillsBoth R.remaining self.old self.new reader.old reader.new result }
    {
        let n = match self.plain.fill(reader) {
            Ok(n) => n,
            Err(error) => return Err(StreamError::Read(error)),
        };
        let held = self.plain.held();
        if held.len() > usize::MAX - self.from {
            return Err(StreamError::Position);
        }
        self.masked.take(&held[held.len() - n..]);
        Ok(n)
    }

    /// Takes the first bytes of a piece, as many as there is room for. Returns how many. They aren't masked yet.
    fn take(&mut self, piece: &[u8]) -> usize
        requires alike { AreAlike self.old }
        ensures many { result ≡ min (length piece.now) (self.old.plain.room - length self.old.plain.bytes) }
        ensures took { self.new ≡ words_grown self.old (take result piece.now) }
        ensures alike { AreAlike self.new }
    {
        let n = self.plain.take(piece);
        self.masked.take(&piece[..n]);
        n
    }

    /// Masks what is known by now; all, if nothing follows.
    fn mask_new<A: Automaton>(&mut self, automaton: &A, mask: u8, closed: bool, steps: &mut Steps)
        requires standard { (A.built automaton.now).dictionary.kind ≡ Standard }
        requires fits { self.old.from + length self.old.plain.bytes ≤ usize_max }
        requires is { (x : List ℕ) × IsWordMasker (A.built automaton.now) (A.Reaches automaton.now No) mask x self.old }
        ensures masks { (x : List ℕ)
            → IsWordMasker (A.built automaton.now) (A.Reaches automaton.now No) mask x self.old
            → MasksKnown (A.built automaton.now).dictionary (A.Reaches automaton.now No) mask self.old.from closed x
            self.new.place self.new.masked.bytes }
        ensures same { self.new ≡ record self.old {
          place = self.new.place;
          masked = record self.old.masked { bytes = self.new.masked.bytes };
        } }
        ensures cost { (x : List ℕ)
            → IsWordMasker (A.built automaton.now) (A.Reaches automaton.now No) mask x self.old
            → CostsReading (A.built automaton.now) x self.old.place.at self.new.place.at steps.old steps.new }
    {
        let window = Window {
            bytes: self.plain.held(),
            from: self.from,
            closed,
        };
        self.masked
            .mask_words(automaton, window, &mut self.place, mask, steps);
    }

    /// The masked bytes from where the next write begins up to a place.
    fn between(&self, end: usize) -> &[u8]
        requires { (self.now.from ≤ self.now.out) × (self.now.out ≤ end)
            × (end ≤ self.now.from + length self.now.masked.bytes) }
        ensures { result.now ≡ slice_range self.now.masked.bytes (self.now.out - self.now.from) (end - self.now.from) }
    {
        &self.masked.held()[self.out - self.from..end - self.from]
    }
}

/// Masks a stream to its end. Before each read everything that is ready is written, and at the end the rest.
fn mask_to_end<A: Automaton, R: Read, W: Write>(
    automaton: &A,
    stream: &mut WordMasker,
    reader: &mut Watched<R>,
    writer: &mut Watched<W>,
    mask: u8,
    steps: &mut Steps,
) -> Result<(), StreamError>
    requires standard { (A.built automaton.now).dictionary.kind ≡ Standard }
    requires filled { 1 ≤ shortest (A.built automaton.now).dictionary.patterns }
    requires fresh { (start : StateID) × A.Reaches automaton.now No [] start
        × (stream.old ≡ fresh_word_masker (longest (A.built automaton.now).dictionary.patterns) start) }
    requires alike { AreAlike stream.old }
    requires open { reader.old.ended ≡ false }
    ensures writes { WritesMaskedWords R.remaining W.contents (A.built automaton.now) mask reader.old reader.new
        writer.old writer.new result }
    ensures begun { IfErr result IsBegun }
    ensures cost { CostsMaskWordsStream (A.built automaton.now) reader.old reader.new steps.old steps.new result }
{
    loop {
        stream.make_room(steps);
        let n = stream.fill(reader)?;
        stream.mask_new(automaton, mask, n == 0, steps);
        if n == 0 {
            return write_whole(writer, stream.between(stream.place.at));
        }
        let cut = cut_after(
            automaton,
            stream.place.sid,
            stream.out,
            stream.plain.keep(),
            stream.place.at,
        );
        write_whole(writer, stream.between(cut))?;
        stream.out = cut;
    }
}

/// A masking of the whole words of a stream that begins in the automaton's start state.
fn begun<A: Automaton>(automaton: &A, alloc: Global) -> Result<WordMasker, StreamError>
    ensures { AnswersNewWordMask (A.built automaton.now) (A.supports automaton.now) (A.Reaches automaton.now No) result }
{
    let start = configured(automaton)?;
    WordMasker::new(start, automaton.max_pattern_len(), alloc)
}

/// Writes the input with its whole words masked; counts what it does. As
/// [`try_mask_words_stream_counted`](crate::search::Search::try_mask_words_stream_counted).
pub(crate) fn mask_words_stream<A: Automaton, R: Read, W: Write>(
    automaton: &A,
    alloc: Global,
    reader: &mut Watched<R>,
    writer: &mut Watched<W>,
    mask: u8,
    steps: &mut Steps,
) -> Result<(), StreamError>
    requires open { reader.old.ended ≡ false }
    ensures masked { MasksWordsStream R.remaining W.contents (A.built automaton.now) mask reader.old reader.new
        writer.old writer.new result }
    ensures accepted { AcceptsListing (A.built automaton.now) (A.supports automaton.now) result }
    ensures cost { CostsMaskWordsStream (A.built automaton.now) reader.old reader.new steps.old steps.new result }
{
    let mut stream = begun(automaton, alloc)?;
    mask_to_end(automaton, &mut stream, reader, writer, mask, steps)
}
