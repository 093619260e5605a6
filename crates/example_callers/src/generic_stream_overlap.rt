//! Every occurrence in a stream, by any automaton. Readers here are slices, whose bytes a contract can name.
ghost use Rattle.std.specs.Prelude.{◌≡◌, false, IfOk, IfSome};
ghost use Rattle.ac_automaton.specs.Stream.{AreAllGiven, CanBeCounted, Occurrences, items_of, read_by};
ghost use Rattle.ac_automaton.specs.Stream.Iter.{progress_of, reader_name, reader_of};

use ac_automaton::search::Search;
use ac_automaton::stream::overlapping::{StreamFindOverlappingIter, stream_find_overlapping_iter};
use ac_input::search::Match;
use ac_input::steps::Steps;
use aho_corasick::{StreamError, Watched};
use std::alloc::{AllocError, Global};
use std::io::Read;

/// Every occurrence in what a reader gives, one after another.
pub fn all_occurrences<A: Search>(
    automaton: &A,
    alloc: Global,
    text: &[u8],
) -> Result<Vec<Match>, StreamError>
    ensures { IfOk result (λ v. v.items ≡ items_of Occurrences (A.built automaton.now).dictionary text.now) }
{
    let mut reader = Watched::new(text);
    let mut found = Vec::new(alloc);
    let mut occurrences = stream_find_overlapping_iter(&mut reader, automaton, alloc)?;
    let mut steps = Steps::new();
    while let Some(next) = occurrences.next_counted(&mut steps) {
        found.push(next?).map_err(AllocError::from)?;
    }
    Ok(found)
}

/// The next occurrence in a stream. Where there is one, the reader has not ended.
pub fn next_occurrence<A: Search, R: Read>(
    occurrences: &mut StreamFindOverlappingIter<'_, A, R>,
) -> Result<Option<Match>, StreamError>
    requires unended { (reader_of occurrences.old).ended ≡ false }
    ensures open { IfOk result
        (λ it. IfSome it (λ o. (reader_of occurrences.new).ended ≡ false)) }
    ensures same_reference { reader_name occurrences.new
        ≡ reader_name occurrences.old }
{
    match occurrences.next_counted(&mut Steps::new()) {
        Some(Ok(found)) => Ok(Some(found)),
        Some(Err(error)) => Err(error),
        None => Ok(None),
    }
}

/// The first occurrence in a stream. What comes after the read that gave it is left for others to read.
pub fn first_occurrence<A: Search, R: Read>(
    reader: &mut Watched<R>,
    automaton: &A,
    alloc: Global,
) -> Result<Option<Match>, StreamError>
    requires { reader.old.ended ≡ false }
    ensures { IfOk result (λ found. IfSome found (λ o. reader.new.ended ≡ false)) }
{
    let mut occurrences = stream_find_overlapping_iter(reader, automaton, alloc)?;
    let first = next_occurrence(&mut occurrences);
    let _reader = occurrences.into_reader();
    first
}

/// Goes over the occurrences in what was read that were not given yet. It makes no read.
pub fn pass_held<A: Search, R: Read>(
    occurrences: &mut StreamFindOverlappingIter<'_, A, R>,
    steps: &mut Steps,
)
    requires { CanBeCounted (read_by (progress_of occurrences.old)) }
    ensures reader { reader_of occurrences.new ≡ reader_of occurrences.old }
    ensures all { AreAllGiven (progress_of occurrences.new) }
{
    while let Some(_) = occurrences.next_held_counted(steps) {}
}
