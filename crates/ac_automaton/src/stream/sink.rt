//! What becomes of the items of a stream.
//!
//! A stream is read, searched and written by one loop: [`pump`](super::pump). What is written for an item, and for the text between
//! two, is up to a [`Sink`].
ghost use Rattle.std.specs.Prelude.{OnOk};

use crate::error::StreamError;
use crate::stream::devices::watched::Watched;
use ac_input::search::Match;

/// It is passed the items of a stream, one after another, with the text between them, and makes of them what a writer takes.
///
/// It is passed the same writer each time. Of every occurrence, or of all whole words, it is passed items alone: these may overlap,
/// so there is no text between them.
pub trait Sink<W> {
    ghost use Rattle.std.specs.Prelude.{ℕ, ◌<◌, List, [], ◌++◌};
    ghost use Rattle.ac_input.specs.Occurrence.{Occurrence};
    ghost use Rattle.ac_automaton.specs.Stream.Pump.{AnswersPass, AnswersTake, Handling, StaysReady};
    ghost use Rattle.ac_automaton.specs.declared.stream.devices.watched.Watched.{Watched};

    /// What it does with the writer.
    ghost handling: { Handling (Self × Watched W) };

    /// Takes the bytes before an item, the item, and its bytes. Some of what it makes of them may be held back.
    ///
    /// Returns the error that ends the stream.
    fn pass(
        &mut self,
        writer: &mut Watched<W>,
        before: &[u8],
        item: &Match,
        matched: &[u8],
    ) -> Result<(), StreamError>
        requires ready { (patterns : ℕ) × handling.ready patterns (self.old, writer.old) × (item.now.pattern < patterns) }
        ensures passes { AnswersPass handling (self.old, writer.old) before.now item.now matched.now
            (self.new, writer.new) result }
        ensures ready { OnOk result (StaysReady handling (self.old, writer.old) (self.new, writer.new)) };

    /// Takes bytes of the text, before the next read or at the end, and holds nothing back.
    ///
    /// Returns the error that ends the stream.
    fn take(&mut self, writer: &mut Watched<W>, bytes: &[u8]) -> Result<(), StreamError>
        ensures takes { AnswersTake handling (self.old, writer.old) bytes.now (self.new, writer.new) result }
        ensures ready { OnOk result (StaysReady handling (self.old, writer.old) (self.new, writer.new)) };

    /// Before anything happens, no bytes were taken.
    ghost begins: { (z : Self × Watched W) → handling.takes z [] z };

    /// Bytes that are taken one after another are taken.
    ghost joins: { (z mid last : Self × Watched W) (bytes more : List ℕ) → handling.takes z bytes mid
        → handling.takes mid more last → handling.takes z (bytes ++ more) last };

    /// Bytes that are taken, and then an item, are the bytes before it.
    ghost precedes: { (z mid last : Self × Watched W) (bytes before matched : List ℕ) (o : Occurrence)
        → handling.takes z bytes mid → handling.passes mid before o matched last
        → handling.passes z (bytes ++ before) o matched last };
}
