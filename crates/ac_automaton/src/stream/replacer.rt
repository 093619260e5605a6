//! Replacement over a stream whose pieces are pushed when they come.
//!
//! A [`StreamReplacer`] owns no reader and no writer. Between one push and the next it hands out the replaced text, as far as it is
//! decided, in slices: of the bytes that it holds, and of the replacements. So no byte of the text is copied again, and nothing is
//! allocated. What it keeps back between two pushes is what a match may still need: at most as many bytes as the longest pattern has,
//! or one, and none where nothing is live.
ghost use Rattle.std.specs.Prelude.{◌≡◌, ◌-◌, ◌<◌, None, Some, false, true, length};
ghost use Rattle.std.specs.Borrow.{sem};
ghost use Rattle.ac_literal.specs.Packed.{bytes_of};
ghost use Rattle.ac_automaton.specs.Stream.{AreAllGiven, CanBeCounted, StreamCounts, cut_of, read_by, closed_by};
ghost use Rattle.ac_automaton.specs.Stream.Replacer.{FindsPart, AnswersReplacer, CanBeLent, IsReady, LooksForMatch, TakesPart, PushesText, ends_there, part_bytes, decided_to};
ghost use Rattle.ac_automaton.specs.Stream.ReplacerWrite.{WritesNext, WritesText};

use super::StreamSearch;
use crate::error::StreamError;
use crate::search::Search;
use crate::stream::ItemSearch;
use crate::stream::devices::watched::{Watched, write_whole};
use ac_input::primitives::PatternID;
use ac_input::search::Match;
use ac_input::steps::Steps;
use std::alloc::Global;
use std::io::Write;
use std::marker::Model;

/// A slice of the replaced text.
#[derive(Clone, Copy)]
enum Part {
    /// What was read, between two places.
    Text(usize, usize),
    /// The replacement of a pattern.
    Replacement(PatternID),
}

/// A replacement over a stream whose pieces are pushed when they come. It owns its automaton, or borrows it as a reference.
///
/// ```text
/// let mut replacer = StreamReplacer::any_kind(&ac, alloc)?;
/// let taken = replacer.push_counted(piece, steps)?;
/// while send_next(&mut replacer, replacements) {}
/// ```
///
/// A slice borrows the replacer, so a loop takes one in a function of its own: `send_next` calls [`StreamReplacer::next_counted`], sends what
/// it returns, and says whether that was a slice. [`StreamReplacer::write_to_counted`] writes them all.
#[derive(Drop)]
pub struct StreamReplacer<A: Search> {
    search: StreamSearch<A>,
    at: usize,
    met: Option<Match>,
    finished: bool,
    over: bool,
}

impl<A: Search> Model for StreamReplacer<A> {
    ghost use Rattle.ac_automaton.specs.Stream.Replacer.{IsReplacing, ReplacerProgress};

    ghost Value = { ReplacerProgress };

    ghost view = { λ i. record {
      search = i.search;
      at = i.at;
      met = i.met;
      finished = i.finished;
      over = i.over;
    } };

    ghost invariant = { λ i. IsReplacing (record {
      search = i.search;
      at = i.at;
      met = i.met;
      finished = i.finished;
      over = i.over;
    }) };
}

impl<A: Search + Drop> StreamReplacer<A> {
    /// A replacement under any kind that owns its automaton, or borrows it as a reference. It takes the buffer of a search
    /// ([`StreamSearch::any_kind`]), and no memory after that.
    ///
    /// Returns an error where [`StreamSearch::any_kind`] does.
    pub fn any_kind(automaton: A, alloc: Global) -> Result<StreamReplacer<A>, StreamError>
        ensures { AnswersReplacer (A.built automaton) (A.supports automaton) result }
    {
        let search = StreamSearch::any_kind(automaton, alloc)?;
        Ok(StreamReplacer {
            search,
            at: 0,
            met: None,
            finished: false,
            over: false,
        })
    }
}

impl<A: Search> StreamReplacer<A> {
    /// Takes the first bytes of a piece, as many as there is room for, as [`StreamSearch::push_counted`] does. Returns how many. None are
    /// taken while [`StreamReplacer::next_counted`] has text to hand out; else at least one is, if there is one.
    ///
    /// It requires that the replacement wasn't finished. Returns the error `Position` if there are more bytes than places, and each time
    /// after that.
    ///
    /// It counts the bytes that it moves.
    pub fn push_counted(&mut self, piece: &[u8], steps: &mut Steps) -> Result<usize, StreamError>
        requires unfinished { self.old.finished ≡ false }
        ensures pushes { PushesText self.old self.new piece.now result }
        ensures counts { StreamCounts self.old.search self.new.search steps.old steps.new }
    {
        if self.waits() {
            return Ok(0);
        }
        self.search.push_counted(piece, steps)
    }

    /// Whether there is text to hand out before more is taken.
    fn waits(&self) -> bool
        ensures waits { result ≡ true → ¬ IsReady self.now }
        ensures few { result ≡ true → CanBeCounted (read_by self.now.search) }
        ensures ready { result ≡ false → CanBeCounted (read_by self.now.search)
            → (self.now.met ≡ None) × (self.now.at ≡ cut_of self.now.search) }
    {
        if self.search.is_over() {
            return false;
        }
        match self.met {
            Some(_) => true,
            None => self.at != self.search.cut(),
        }
    }

    /// Tells the replacement that nothing more comes: [`StreamReplacer::next_counted`] hands out the text to its end.
    pub fn finish(&mut self)
        ensures { self.new ≡ (record self.old { search = closed_by self.old.search; finished = true }) }
    {
        self.search.finish();
        self.finished = true;
    }

    /// How many replacements [`StreamReplacer::next_counted`] takes: one for each pattern.
    pub fn patterns_len(&self) -> usize
        ensures { result ≡ length self.now.search.built.dictionary.patterns }
    {
        self.search.patterns_len()
    }

    /// Whether it was told that nothing more comes.
    pub fn is_finished(&self) -> bool
        ensures { result ≡ self.now.finished }
    {
        self.finished
    }

    /// Finds the next match, if none was met.
    fn look(&mut self, steps: &mut Steps)
        requires few { CanBeCounted (read_by self.old.search) }
        requires open { self.old.over ≡ false }
        ensures looks { LooksForMatch self.old self.new }
        ensures counts { StreamCounts self.old.search self.new.search steps.old steps.new }
    {
        if self.met.is_none() {
            self.met = self.search.next_counted(steps);
        }
    }

    /// The place up to which the text is decided.
    fn place(&self) -> usize
        requires few { CanBeCounted (read_by self.now.search) }
        ensures { result ≡ decided_to self.now.search self.now.met self.now.finished }
    {
        match self.met {
            Some(found) => found.start(),
            None => {
                if self.finished {
                    self.search.from() + self.search.held().len()
                } else {
                    self.search.cut()
                }
            }
        }
    }

    /// Whether the text is handed out to its end up to that place.
    fn ends(&self) -> bool
        ensures { result ≡ ends_there self.now.met self.now.finished }
    {
        match self.met {
            Some(_) => false,
            None => self.finished,
        }
    }

    /// The next slice of the text that is decided.
    fn pass(&mut self) -> Option<Part>
        requires few { CanBeCounted (read_by self.old.search) }
        requires open { self.old.over ≡ false }
        requires all { self.old.met ≡ None → AreAllGiven self.old.search }
        ensures { TakesPart self.old self.new result }
    {
        let to = self.place();
        let ends = self.ends();
        if self.at < to {
            let start = self.at;
            self.at = to;
            self.over = ends;
            return Some(Part::Text(start, to));
        }
        let Some(found) = self.met else {
            self.over = ends;
            return None;
        };
        self.at = found.end();
        self.met = None;
        Some(Part::Replacement(found.pattern()))
    }

    /// Finds the next slice of the text that is decided.
    fn advance(&mut self, steps: &mut Steps) -> Option<Part>
        ensures advances { FindsPart self.old self.new result }
        ensures counts { StreamCounts self.old.search self.new.search steps.old steps.new }
    {
        if self.over || self.search.is_over() {
            return None;
        }
        self.look(steps);
        self.pass()
    }

    /// The bytes of a slice.
    fn bytes<'b, 'r>(&'b self, slice: Part, replacements: &'b [&'r [u8]]) -> &'b [u8]
        requires lent { CanBeLent self.now.search slice }
        requires one_each { length replacements.now
            ≡ length self.now.search.built.dictionary.patterns }
        ensures { result.now ≡ part_bytes (read_by self.now.search)
            (bytes_of replacements.now) slice }
    {
        match slice {
            Part::Text(start, end) => self.search.between(start, end),
            Part::Replacement(pattern) => replacements[pattern.as_usize()],
        }
    }
}

impl<A: Search> StreamReplacer<A> {
    ghost use Rattle.ac_automaton.specs.Stream.ReplacerNext.{EndsCounted};

    /// The next slice of the replaced text, as far as it is decided: bytes that are held, or the replacement of a match, which may be
    /// empty; what was read between two matches is handed out only if there is some. None means that all that is decided was handed
    /// out: push more, or finish.
    ///
    /// It requires one replacement for each pattern. It takes them at each call and keeps none.
    ///
    /// It counts what it does.
    pub fn next_counted<'b, 'r>(
        &'b mut self,
        replacements: &'b [&'r [u8]],
        steps: &mut Steps,
    ) -> Option<&'b [u8]>
        requires one_each { length replacements.now
            ≡ length self.old.search.built.dictionary.patterns }
        ensures* { sem 𝓛 (EndsCounted A.row A.Automaton self.entry (bytes_of replacements.now)
            result steps.old steps.new) }
    {
        let slice = self.advance(steps)?;
        Some(self.bytes(slice, replacements))
    }
}

impl<A: Search> StreamReplacer<A> {
    /// Writes the next slice of the text that is decided, whole. Returns whether there was one.
    fn write_next<W: Write>(
        &mut self,
        replacements: &[&[u8]],
        writer: &mut Watched<W>,
        steps: &mut Steps,
    ) -> Result<bool, StreamError>
        requires one_each { length replacements.now
            ≡ length self.old.search.built.dictionary.patterns }
        ensures writes { WritesNext W.contents (bytes_of replacements.now) self.old self.new
            writer.old writer.new result }
        ensures counts { StreamCounts self.old.search self.new.search steps.old steps.new }
    {
        let Some(slice) = self.advance(steps) else {
            return Ok(false);
        };
        write_whole(writer, self.bytes(slice, replacements))?;
        Ok(true)
    }

    /// Writes the replaced text, as far as it is decided and wasn't handed out before: each slice that [`StreamReplacer::next_counted`] would
    /// return, by as many writes as that takes. The writer isn't flushed.
    ///
    /// It requires one replacement for each pattern. It stops at the first write that fails or takes no byte, and returns the error
    /// `Write` or `WriteZero`. What is left of the slice is lost then; a second call goes on with the next slice.
    ///
    /// It counts what it does.
    pub fn write_to_counted<W: Write>(
        &mut self,
        replacements: &[&[u8]],
        writer: &mut Watched<W>,
        steps: &mut Steps,
    ) -> Result<(), StreamError>
        requires one_each { length replacements.now
            ≡ length self.old.search.built.dictionary.patterns }
        ensures writes { WritesText W.contents (bytes_of replacements.now) self.old self.new
            writer.old writer.new result }
        ensures counts { StreamCounts self.old.search self.new.search steps.old steps.new }
    {
        while self.write_next(replacements, writer, steps)? {}
        Ok(())
    }
}
