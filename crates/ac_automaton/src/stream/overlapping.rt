//! Every occurrence in a stream, one after another.
//!
//! A stream is read in pieces into one buffer of 64 KiB, which is allocated before the first read, and each piece is searched before
//! the next one is read. So an occurrence is returned as soon as its last byte was read, also one that began in an earlier piece, and
//! no memory is taken on the way. The order is that of the overlapping search of a text in memory: by end, start and number.
//!
//! An automaton may read up to 8 KiB ahead of the search in the buffer. Its looks are counted when they are made.
//!
//! Only an automaton of the standard kind stores every occurrence. An empty pattern is an error, as for every search of a stream. No
//! prefilter is used.
//!
//! [`StreamFindOverlappingIter`] is the search as an iterator, a [`StreamIter`], from [`stream_find_overlapping_iter`]. The first empty
//! read ends it, and so does the first error.
ghost use Rattle.std.specs.Prelude.{◌≡◌, false};
ghost use Rattle.std.specs.Borrow.{sem};
ghost use Rattle.ac_automaton.specs.Stream.Iter.{AnswersStreamListing, RestsIfRefused};

mod search;

use crate::error::StreamError;
use crate::search::Search;
use crate::stream::StreamIter;
use crate::stream::devices::watched::Watched;
pub(crate) use search::{configured, next_listed};
pub use search::{ListPlace, Listed, ListingSearch};
use std::alloc::Global;

/// The remaining occurrences in a stream. From [`stream_find_overlapping_iter`].
pub type StreamFindOverlappingIter<'a, A, R> = StreamIter<'a, ListingSearch<'a, A>, R>;

/// Every occurrence in a stream, one after another. Each is returned after the read that returned its last byte, and before the next one,
/// by end, start and number. It allocates one buffer of 64 KiB, and nothing after that.
///
/// Returns an error if the automaton has no start for a search that isn't anchored, isn't of the standard kind, or has an empty pattern,
/// checked in that order, and then if there is no memory for the buffer. The reader is unchanged then. A contract can say what becomes
/// of a borrowed value only for the first parameter, so that is the reader.
pub fn stream_find_overlapping_iter<'a, A: Search, R>(
    reader: &'a mut Watched<R>,
    automaton: &'a A,
    alloc: Global,
) -> Result<StreamFindOverlappingIter<'a, A, R>, StreamError>
    requires { reader.old.ended ≡ false }
    ensures* rests { sem 𝓛 (RestsIfRefused R.row reader.entry result) }
    ensures answer { AnswersStreamListing (A.built automaton.now) (A.supports automaton.now)
        reader.entry result }
{
    let stream = ListingSearch::new(automaton, alloc)?;
    Ok(StreamIter { stream, reader })
}
