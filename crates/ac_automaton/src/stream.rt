//! The items of a stream, one after another: its matches, or every occurrence.
//!
//! A stream comes in pieces. They are held in one buffer, which is allocated before the first piece, and each piece is searched before
//! the next one is taken. So a match is returned as soon as it is decided, a stream may be as long as places can be counted, and no
//! memory is taken on the way. A match may begin in one piece and end in another; how a text is cut into pieces changes nothing.
//!
//! Under the standard kind a match is decided with its last byte. Under a leftmost kind it may depend on bytes far after it, and is held
//! back until none of them can change it; only the calls that take [`StreamKinds::AnyKind`] or have `any_kind` in their name search so. An
//! empty pattern is an error, since it would match at each place before anything is read. No prefilter is used.
//!
//! - [`StreamFindIter`] is the search as an iterator that reads from a reader, from [`stream_find_iter`] or
//!   [`try_stream_find_iter`](crate::automaton::Automaton::try_stream_find_iter). The first empty read ends it, and so does the first
//!   error. It is a [`StreamIter`], as the iterator over every occurrence is: see [`overlapping`].
//! - [`StreamSearch`] owns no reader: its pieces are pushed when they come. From [`StreamSearch::any_kind`].
//! - [`StreamReplacer`] is passed its pieces too, and hands out the text with each match replaced. From
//!   [`StreamReplacer::any_kind`].
//! - [`StreamFindWordIter`] returns the whole words of a stream under a kind, by [`WordSearch`]: a word waits for the byte after it. From
//!   [`stream_find_word_iter`]. A [`WordSearch`] may also be passed its pieces.
//! - [`StreamFindOverlappingWordIter`] returns all whole words of a stream, by [`OverlappingWordSearch`], which takes pieces as well. From
//!   [`stream_find_overlapping_word_iter`].
//! - [`mask`] replaces each byte that an occurrence covers by one byte: with a reader and a writer, or pushed.
//!
//! Streams stand on the states of an automaton, as searches in memory do, and on [`devices`]: a watched reader and writer, and the
//! bytes that are held between the two. [`laws`] says what is decided, and that it doesn't matter how a text is cut into pieces.
ghost use Rattle.std.specs.Prelude.{◌≡◌, false};
ghost use Rattle.std.specs.Borrow.{sem};
ghost use Rattle.ac_automaton.specs.Stream.{FindsHeld, GoesOn};
ghost use Rattle.ac_automaton.specs.Stream.Iter.{FindsStream, GivesItem, KeepsReader, RestsIfRefused, TurnGives, reader_name, reader_of, search_of};

pub mod devices;
pub mod laws;
pub mod mask;
pub mod overlapping;
pub(crate) mod pump;
pub(crate) mod replace;
pub(crate) mod replace_with;
mod replacer;
mod search;
pub mod sink;
mod words;

use crate::error::StreamError;
use crate::search::Search;
use crate::stream::devices::watched::Watched;
use ac_input::search::Match;
use ac_input::steps::Steps;
pub use replacer::StreamReplacer;
pub(crate) use search::search as search_held;
pub use search::{Progress, StreamSearch};
use std::alloc::Global;
use std::io::Read;
pub use words::overlapping::{
    OverlappingWordSearch, StreamFindOverlappingWordIter, stream_find_overlapping_word_iter,
};
pub use words::{StreamFindWordIter, WordSearch, stream_find_word_iter};

/// How much room a buffer for the bytes of a stream has at least: 64 KiB.
pub const LEAST_ROOM: usize = 65536;

/// The kinds that a search of a stream accepts. [`stream_find_iter`] takes it; of the other calls, one for any kind has a name of its
/// own. Clauses cite it.
#[derive(Clone, Copy, PartialEq, Eq)]
pub enum StreamKinds {
    /// The standard kind alone, under which a match is decided with its last byte.
    OnlyStandard,
    /// Each kind. Under a leftmost one a match may wait to be decided.
    AnyKind,
}

/// A search of a stream for the items of one sequence. An iterator asks it for the next one, and reads for it.
pub trait ItemSearch {
    ghost use Rattle.std.specs.Prelude.{◌≡◌, false, true, length, Option};
    ghost use Rattle.ac_automaton.specs.Stream.{CanBeCounted, FindsHeld, GoesOn, IsOnCourse, IsSearched, LieApart, ReadsMore, Sequence, StreamProgress, closed_by, cut_of, read_by};
    ghost use Rattle.ac_automaton.specs.Stream.Pump.{LiesHeld, bytes_between};

    /// What it returns.
    ghost sequence: { Sequence };

    /// How far it has come.
    ghost progress: { Self → StreamProgress sequence };

    /// The next item of what was read, without a read; counts what it does. None means that all of them were returned.
    fn next_held(&mut self, steps: &mut Steps) -> Option<Match>
        ensures finds { FindsHeld (progress self.old) result (progress self.new) }
        ensures goes { GoesOn (progress self.old) (progress self.new) steps.old steps.new };

    /// The bytes between two places, which are held: what a sink is passed. None where the items don't lie one after another.
    fn between(&self, start: usize, end: usize) -> &[u8]
        requires held { LieApart sequence → LiesHeld (progress self.now) start end }
        ensures { result.now ≡ bytes_between sequence (read_by (progress self.now)) start end };

    /// The place up to which everything is decided.
    fn cut(&self) -> usize
        ensures cut { result ≡ cut_of (progress self.now) }
        ensures kept { IsOnCourse (progress self.now) };

    /// The place after the last byte that was read.
    fn end(&self) -> usize
        requires countable { CanBeCounted (read_by (progress self.now)) }
        ensures { result ≡ length (read_by (progress self.now)) };

    /// Whether there are more bytes than places: then no item is left.
    fn is_past_places(&self) -> bool
        ensures over { result ≡ true → ¬ CanBeCounted (read_by (progress self.now)) }
        ensures open { result ≡ false → CanBeCounted (read_by (progress self.now)) };

    /// Whether it was told that nothing more comes.
    fn has_closed(&self) -> bool
        requires course { IsOnCourse (progress self.now) }
        ensures closed { result ≡ (progress self.now).closed };

    /// One read. Everything that was read before must have been searched. Returns how many bytes it read.
    fn read_on<R: Read>(
        &mut self,
        reader: &mut Watched<R>,
        steps: &mut Steps,
    ) -> Result<usize, StreamError>
        requires open { reader.old.ended ≡ false }
        requires unclosed { (progress self.old).closed ≡ false }
        requires searched { IsSearched (progress self.old) }
        ensures read { ReadsMore R.remaining (progress self.old) (progress self.new) reader.old reader.new result }
        ensures goes { GoesOn (progress self.old) (progress self.new) steps.old steps.new };

    /// Tells it that nothing more comes.
    fn close(&mut self)
        requires course { IsOnCourse (progress self.old) }
        ensures closed { progress self.new ≡ closed_by (progress self.old) }
        ensures kept { IsOnCourse (progress self.new) };
}

/// The remaining items of a stream: [`StreamFindIter`] over matches, and
/// [`StreamFindOverlappingIter`](overlapping::StreamFindOverlappingIter) over every occurrence.
///
/// After its first error, and after its first `None`, it always returns `None`, and never calls the reader again.
///
/// It ends, so a `for` may go over it. Its items can be more than a `usize` counts: a match at each place, and an error, or one
/// occurrence of each pattern at each place. So count them in a loop, and not by `count`.
#[derive(Drop)]
pub struct StreamIter<'a, S, R> {
    stream: S,
    reader: &'a mut Watched<R>,
}

/// The remaining matches of a stream. From
/// [`try_stream_find_iter`](crate::automaton::Automaton::try_stream_find_iter).
pub type StreamFindIter<'a, A, R> = StreamIter<'a, StreamSearch<&'a A>, R>;

/// The outcome of one turn of a search.
enum Turn {
    /// An item among the bytes that were read.
    Found(Match),
    /// All of these were returned, and more bytes were read.
    More,
    /// All of these were returned, and nothing more comes.
    Ended,
    /// All were returned, and nothing is left to read.
    Over,
    /// All were returned, and the read failed, or there are more bytes than places.
    Failed(StreamError),
}

/// The matches of a stream, one after another, of an automaton of one of these kinds. Under the standard one it does as
/// [`try_stream_find_iter`](crate::automaton::Automaton::try_stream_find_iter). Under a leftmost one each match is returned once it is
/// decided, so that no byte that follows can change it. That is where the automaton's state is dead, or at the end of the input. At most
/// as many bytes are held back as the longest pattern has.
///
/// After a match under a leftmost kind it reads again what it has read past its end: at most as many bytes as the longest pattern has,
/// and one. There it may also look at each byte once more, read ahead in vain.
///
/// Returns an error if the automaton has no start for a search that isn't anchored, isn't of a kind that is accepted, or has an empty
/// pattern, checked in that order, and then if there is no memory for the buffer. The reader is unchanged then. A contract can say what
/// becomes of a borrowed value only for the first parameter, so that is the reader.
pub fn stream_find_iter<'a, A: Search, R>(
    reader: &'a mut Watched<R>,
    automaton: &'a A,
    kinds: StreamKinds,
    alloc: Global,
) -> Result<StreamFindIter<'a, A, R>, StreamError>
    requires { reader.old.ended ≡ false }
    ensures* rests { sem 𝓛 (RestsIfRefused R.row reader.entry result) }
    ensures answer { FindsStream kinds (A.built automaton.now) (A.supports automaton.now)
        reader.entry result }
{
    let stream = StreamSearch::new(automaton, kinds, alloc)?;
    Ok(StreamIter { stream, reader })
}

/// The next item of what was read; or one read, if there is none.
fn search_or_read<S: ItemSearch, R: Read>(
    stream: &mut S,
    reader: &mut Watched<R>,
    steps: &mut Steps,
) -> Turn
    ensures gives { TurnGives R.remaining (S.progress stream.old) (S.progress stream.new)
        reader.old reader.new result }
    ensures goes { GoesOn (S.progress stream.old) (S.progress stream.new) steps.old steps.new }
{
    if let Some(found) = stream.next_held(steps) {
        return Turn::Found(found);
    }
    if stream.is_past_places() || stream.has_closed() || reader.ended() {
        return Turn::Over;
    }
    match stream.read_on(reader, steps) {
        Ok(0) => {
            stream.close();
            Turn::Ended
        }
        Ok(_) => Turn::More,
        Err(error) => Turn::Failed(error),
    }
}

impl<'a, S: Drop, R> StreamIter<'a, S, R> {
    /// The reader, as the search left it.
    ///
    /// A caller whose own contract speaks of the reader ends the search this way. If the search is dropped, the reader is the
    /// same, but no contract says so.
    pub fn into_reader(self) -> &'a mut Watched<R>
        ensures reader { result.now ≡ reader_of self.entry }
        ensures same_reference { result.ghost_name ≡ reader_name self.entry }
    {
        self.reader
    }
}

impl<'a, S: ItemSearch, R: Read> StreamIter<'a, S, R> {
    /// The next item among the bytes that were read, without a read; counts what it does. None means that all of them were
    /// returned.
    pub fn next_held_counted(&mut self, steps: &mut Steps) -> Option<Match>
        ensures finds { FindsHeld (S.progress (search_of self.old)) result (S.progress (search_of self.new)) }
        ensures reader { KeepsReader self.old self.new }
        ensures goes { GoesOn (S.progress (search_of self.old)) (S.progress (search_of self.new)) steps.old steps.new }
    {
        self.stream.next_held(steps)
    }

    /// The next item, as `next` returns it; counts what it does.
    pub fn next_counted(&mut self, steps: &mut Steps) -> Option<Result<Match, StreamError>>
        ensures gives { GivesItem S.progress R.remaining self.old self.new result }
        ensures goes { GoesOn (S.progress (search_of self.old)) (S.progress (search_of self.new)) steps.old steps.new }
    {
        loop {
            match search_or_read(&mut self.stream, self.reader, steps) {
                Turn::More => {}
                Turn::Ended => {}
                Turn::Found(found) => return Some(Ok(found)),
                Turn::Over => return None,
                Turn::Failed(error) => return Some(Err(error)),
            }
        }
    }
}

impl<'a, S: ItemSearch + Drop, R: Read> Iterator for StreamIter<'a, S, R> {
    ghost use Rattle.std.specs.Iterator.{at_most};
    ghost use Rattle.ac_automaton.specs.Stream.{IsOnCourse};
    ghost use Rattle.ac_automaton.specs.Stream.Iter.{GivesItem, most_left, search_of};

    type Item = Result<Match, StreamError>;

    ghost next_gives = { λ s r t. GivesItem S.progress R.remaining s t r × IsOnCourse (S.progress (search_of t)) };

    ghost remaining = { λ s. at_most (most_left S.progress s) };

    fn next(&mut self) -> Option<Result<Match, StreamError>> {
        let mut steps = Steps::new();
        self.next_counted(&mut steps)
    }
}
