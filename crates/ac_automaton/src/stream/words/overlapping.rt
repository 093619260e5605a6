//! The search of a stream for all whole words, overlapping ones too, by end, start and number.
//!
//! One walk over the stream meets each occurrence once, at the state where it ends, and returns those with no word byte beside them:
//! see [`listed`](crate::words::listed). So a word waits only for the byte after it, or until nothing more comes. The walk never begins
//! anew, and no byte is looked at twice.
//!
//! An [`OverlappingWordSearch`] returns the next word of what was read, without a read ([`OverlappingWordSearch::next_counted`]), takes a piece
//! that is pushed ([`OverlappingWordSearch::push_counted`]), and makes one read, as an [`ItemSearch`]. Up to its
//! [`cut`](OverlappingWordSearch::cut) everything is decided: a word still to be found ends there or later. It holds the bytes of each
//! such word, and the byte before it.
ghost use Rattle.std.specs.Prelude.{◌≡◌, ◌↔◌, ◌-◌, [], false, true, length, IfErr, IfOk, IsTrue, drop};
ghost use Rattle.std.specs.Borrow.{sem};
ghost use Rattle.ac_input.specs.declared.search.Anchored.TheVariants.{No};
ghost use Rattle.ac_input.specs.Work.{longest};
ghost use Rattle.ac_automaton.specs.Stream.{CanBeCounted, CanStream, FindsHeld, GoesOn, IsOnCourse, IsOutOfMemory, IsSearched, ReadsMore, StreamCounts, closed_by, cut_of, fresh_progress, read_by};
ghost use Rattle.ac_automaton.specs.Stream.Iter.{RestsIfRefused};
ghost use Rattle.ac_automaton.specs.Stream.Push.{Pushes};
ghost use Rattle.ac_automaton.specs.Stream.WholeWords.{AnswersNewAllWords, FindsStreamAllWords, LooksNoMore};
ghost use Rattle.ac_automaton.specs.declared.stream.StreamKinds.TheVariants.{OnlyStandard};

use super::held::HeldText;
use crate::error::StreamError;
use crate::search::Search;
use crate::stream::devices::watched::Watched;
use crate::stream::overlapping::configured;
use crate::stream::{ItemSearch, StreamIter};
use crate::words::listed::{ListedPlace, next_listed_word};
use ac_input::primitives::StateID;
use ac_input::search::Match;
use ac_input::steps::Steps;
use std::alloc::Global;
use std::io::Read;
use std::marker::Model;

/// A search of a stream for all whole words, whose pieces are pushed when they come. It owns its automaton, or borrows it as a reference.
///
/// ```text
/// let mut search = OverlappingWordSearch::new(&ac, alloc)?;
/// while let Some(piece) = receive() {
///     let mut rest = piece;
///     while !rest.is_empty() {
///         let n = search.push_counted(rest, steps)?;
///         rest = &rest[n..];
///         while let Some(word) = search.next_counted(steps) {
///             // in the order of their ends
///         }
///     }
/// }
/// search.finish();
/// while let Some(word) = search.next_counted(steps) {
///     // those that end with the text
/// }
/// ```
///
/// It is on its course wherever it stands: the words that it has returned are the first ones of the whole text, whatever still comes.
#[derive(Drop)]
pub struct OverlappingWordSearch<A: Search> {
    automaton: A,
    text: HeldText,
    place: ListedPlace,
}

impl<A: Search> Model for OverlappingWordSearch<A> {
    ghost use Rattle.ac_automaton.specs.Stream.{AllWords, IsOnCourse, StreamProgress};
    ghost use Rattle.ac_automaton.specs.Stream.WholeWords.Overlapping.{IsAllWordsSearch, all_words_come};

    ghost Value = { StreamProgress AllWords };

    ghost view = { λ i. all_words_come (A.built i.automaton) i.text i.place };

    ghost invariant = { λ i.
        IsOnCourse (all_words_come (A.built i.automaton) i.text i.place)
        × IsAllWordsSearch A.Automaton i.automaton (all_words_come (A.built i.automaton) i.text i.place) i.text i.place };
}

impl<A: Search + Drop> OverlappingWordSearch<A> {
    /// A search that begins in this start state, and has read nothing yet. Returns an error if there is no memory for the buffer; it
    /// takes no memory after that.
    fn beginning(
        automaton: A,
        start: StateID,
        alloc: Global,
    ) -> Result<OverlappingWordSearch<A>, StreamError>
        requires starts { A.Reaches automaton No [] start }
        requires can { CanStream OnlyStandard (A.built automaton) (A.supports automaton) }
        ensures fresh { IfOk result (λ s. s ≡ fresh_progress (A.built automaton)) }
        ensures kept { IfOk result IsOnCourse }
        ensures error { IfErr result IsOutOfMemory }
    {
        let text = HeldText::new(alloc, automaton.max_pattern_len())?;
        Ok(OverlappingWordSearch {
            automaton,
            text,
            place: ListedPlace::new(start),
        })
    }

    /// A search for all whole words, by an automaton of the standard kind. It takes one buffer of
    /// `max(65536, 8 * (max(1, longest) + 1))` bytes. Returns an error if the automaton can't make one, and otherwise if there is
    /// no memory for the buffer.
    pub fn new(automaton: A, alloc: Global) -> Result<OverlappingWordSearch<A>, StreamError>
        ensures { AnswersNewAllWords (A.built automaton) (A.supports automaton) result }
    {
        let start = configured(&automaton)?;
        OverlappingWordSearch::beginning(automaton, start, alloc)
    }
}

impl<A: Search> OverlappingWordSearch<A> {
    /// The held bytes: the last ones of those that were read or pushed. A word that was returned is among them until the next push.
    pub fn held(&self) -> &[u8]
        ensures held { result.now ≡ drop self.now.from (read_by self.now) }
        ensures kept { IsOnCourse self.now }
    {
        self.text.held()
    }

    /// The place of the first byte that is held.
    pub fn from(&self) -> usize
        ensures from { result ≡ self.now.from }
        ensures kept { IsOnCourse self.now }
    {
        self.text.from()
    }

    /// The place up to which everything is decided: every remaining word ends there or later.
    pub fn cut(&self) -> usize
        ensures cut { result ≡ cut_of self.now }
        ensures kept { IsOnCourse self.now }
    {
        self.place.at()
    }

    /// Whether there are more bytes than places: then no word is left.
    pub fn is_over(&self) -> bool
        ensures over { result ≡ true → ¬ CanBeCounted (read_by self.now) }
        ensures open { result ≡ false → CanBeCounted (read_by self.now) }
    {
        self.text.is_over()
    }

    /// The next word of the bytes that were read or pushed, once the byte after it is known. None means that all of these were returned:
    /// push more bytes, or finish.
    ///
    /// The places of a word are counted from the first byte of the stream. No byte is read again, and each costs at most two looks at
    /// states.
    ///
    /// After more bytes than there are places it is always none.
    ///
    /// It counts what it does.
    pub fn next_counted(&mut self, steps: &mut Steps) -> Option<Match>
        ensures finds { FindsHeld self.old result self.new }
        ensures counts { StreamCounts self.old self.new steps.old steps.new }
        ensures over { LooksNoMore self.old steps.old steps.new }
        ensures kept { IsOnCourse self.new }
    {
        if self.text.is_over() {
            return None;
        }
        let mut taken = Steps::new();
        let found = next_listed_word(
            &self.automaton,
            self.text.window(),
            &mut self.place,
            &mut taken,
        );
        self.text.count(&found, &taken);
        steps.add(&taken);
        found
    }

    /// How many patterns the automaton has.
    pub fn patterns_len(&self) -> usize
        ensures { result ≡ length self.now.built.dictionary.patterns }
    {
        self.automaton.patterns_len()
    }

    /// Whether all bytes that were pushed were searched. If not, a push takes none.
    pub fn is_searched(&self) -> bool
        ensures { IsTrue result ↔ IsSearched self.now }
    {
        self.text.ends_at(self.place.at())
    }

    /// Whether it was told that nothing more comes.
    pub fn is_closed(&self) -> bool
        ensures closed { result ≡ self.now.closed }
        ensures kept { IsOnCourse self.now }
    {
        self.text.is_closed()
    }

    /// Tells the search that nothing more comes, so that the words that wait are decided: [`OverlappingWordSearch::next_counted`] returns
    /// all that are left.
    pub fn finish(&mut self)
        ensures closed { self.new ≡ closed_by self.old }
        ensures kept { IsOnCourse self.new }
    {
        self.text.close();
    }

    /// The place of the first byte that may still be needed: the one before each word that may still be found.
    fn needed(&self) -> usize
        ensures { result ≡ self.now.at - longest self.now.built.dictionary.patterns - 1 }
    {
        self.place.needed(self.automaton.max_pattern_len())
    }

    /// Takes the first bytes of a piece, as many as there is room for, after all that was pushed before. Returns how many: the piece
    /// isn't needed any more. None are taken while [`OverlappingWordSearch::next_counted`] may find a word in what was pushed before; else at
    /// least one is, if there is one.
    ///
    /// There is room for `max(65536, 8 * (max(1, longest) + 1))` bytes, so a piece of up to seven eighths of that is mostly taken whole.
    /// It copies each byte once, allocates nothing, and moves a seventh of the bytes at most within its buffer. The bytes that no word
    /// still to be found needs may not be held any more then.
    ///
    /// It requires that the search wasn't finished: see [`OverlappingWordSearch::is_closed`]. Returns the error `Position` if there are
    /// more bytes than places, and each time after that.
    ///
    /// It counts the bytes that it moves.
    pub fn push_counted(&mut self, piece: &[u8], steps: &mut Steps) -> Result<usize, StreamError>
        requires unclosed { self.old.closed ≡ false }
        ensures pushes { Pushes (IsSearched self.old) self.old self.new piece.now result }
        ensures goes { GoesOn self.old self.new steps.old steps.new }
    {
        if self.text.is_over() {
            return Err(StreamError::Position);
        }
        if piece.is_empty() || !self.is_searched() {
            return Ok(0);
        }
        let needed = self.needed();
        self.text.push(piece, needed, steps)
    }

    /// One read, into all the free room; if there is none, what has to be held is moved to the front first. Everything that was
    /// read before must have been searched.
    ///
    /// Returns how many bytes it read: none at the end of the input. An error is `Read`, or `Position` if there are now more bytes
    /// than places; nothing may be read after either.
    pub(crate) fn read_more<R: Read>(
        &mut self,
        reader: &mut Watched<R>,
        steps: &mut Steps,
    ) -> Result<usize, StreamError>
        requires open { reader.old.ended ≡ false }
        requires unclosed { self.old.closed ≡ false }
        requires searched { IsSearched self.old }
        ensures read { ReadsMore R.remaining self.old self.new reader.old reader.new result }
        ensures counts { StreamCounts self.old self.new steps.old steps.new }
        ensures kept { IsOnCourse self.new }
    {
        let needed = self.needed();
        self.text.read_more(reader, needed, steps)
    }
}

impl<A: Search> ItemSearch for OverlappingWordSearch<A> {
    ghost use Rattle.ac_automaton.specs.Stream.{AllWords};

    ghost sequence = { AllWords };

    ghost progress = { λ s. s };

    fn next_held(&mut self, steps: &mut Steps) -> Option<Match> {
        self.next_counted(steps)
    }

    fn between(&self, start: usize, end: usize) -> &[u8] {
        &self.text.held()[..0]
    }

    fn cut(&self) -> usize {
        OverlappingWordSearch::cut(self)
    }

    fn end(&self) -> usize {
        self.text.end()
    }

    fn is_past_places(&self) -> bool {
        self.is_over()
    }

    fn has_closed(&self) -> bool {
        self.is_closed()
    }

    fn read_on<R: Read>(
        &mut self,
        reader: &mut Watched<R>,
        steps: &mut Steps,
    ) -> Result<usize, StreamError> {
        self.read_more(reader, steps)
    }

    fn close(&mut self) {
        self.finish();
    }
}

/// The remaining words of all whole words of a stream. From [`stream_find_overlapping_word_iter`].
pub type StreamFindOverlappingWordIter<'a, A, R> = StreamIter<'a, OverlappingWordSearch<&'a A>, R>;

/// All whole words of a stream, overlapping ones too, one after another: by end, start and number. A word waits only for the byte after
/// it. It allocates one buffer of `max(65536, 8 * (longest + 1))` bytes, and nothing after that. It looks once at each byte, or twice if
/// the automaton isn't deterministic.
///
/// Returns an error where [`stream_find_word_iter`](crate::stream::stream_find_word_iter) does. The reader is unchanged then. A contract
/// can say what becomes of a borrowed value only for the first parameter, so that is the reader.
pub fn stream_find_overlapping_word_iter<'a, A: Search, R>(
    reader: &'a mut Watched<R>,
    automaton: &'a A,
    alloc: Global,
) -> Result<StreamFindOverlappingWordIter<'a, A, R>, StreamError>
    requires { reader.old.ended ≡ false }
    ensures* rests { sem 𝓛 (RestsIfRefused R.row reader.entry result) }
    ensures answer { FindsStreamAllWords (A.built automaton.now) (A.supports automaton.now) reader.entry result }
{
    let stream = OverlappingWordSearch::new(automaton, alloc)?;
    Ok(StreamIter { stream, reader })
}
