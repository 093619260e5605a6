//! Streams, by any automaton. Readers and writers here are slices and `Vec`s, whose bytes a contract can name.
ghost use Rattle.std.specs.Prelude.{◌≡◌, ◌↔◌, ◌<◌, ◌++◌, false, length, map, take, IfOk, IfSome, IsTrue, OnOk};
ghost use Rattle.std.specs.List.{concat};
ghost use Rattle.ac_input.specs.declared.search.MatchKind.TheVariants.{Standard};
ghost use Rattle.ac_automaton.specs.InMemory.Replace.{matches_in};
ghost use Rattle.ac_automaton.specs.Stream.{AreAllGiven, CanBeCounted, read_by};
ghost use Rattle.ac_automaton.specs.Stream.Iter.{progress_of, reader_name, reader_of};
ghost use Rattle.example_callers.specs.Callers.{HasToRead, Rewrites, TwoLooks};

use ac_automaton::error::StreamError;
use ac_automaton::output::Output;
use ac_automaton::search::Search;
use ac_automaton::stream::{StreamFindIter, StreamKinds, stream_find_iter};
use ac_automaton::watched::{Watched, write_whole};
use ac_input::search::Match;
use ac_input::steps::Steps;
use std::alloc::{AllocError, Global};
use std::io;
use std::io::{Read, Write};

/// All matches of a search that has read nothing yet of this text, one after another.
pub fn all_of<A: Search>(
    mut matches: StreamFindIter<'_, A, &[u8]>,
    alloc: Global,
    text: &[u8],
) -> Result<Vec<Match>, StreamError>
    requires { HasToRead matches text.now }
    ensures { IfOk result (λ v. v.items ≡ matches_in (progress_of matches.entry).built text.now) }
{
    let mut found = Vec::new(alloc);
    let mut steps = Steps::new();
    while let Some(next) = matches.next_counted(&mut steps) {
        found.push(next?).map_err(AllocError::from)?;
    }
    Ok(found)
}

/// All matches of what a reader gives, one after another.
pub fn all_matches<A: Search>(
    automaton: &A,
    alloc: Global,
    text: &[u8],
) -> Result<Vec<Match>, StreamError>
    ensures { IfOk result (λ v. v.items ≡ matches_in (A.built automaton.now) text.now) }
{
    let mut reader = Watched::new(text);
    all_of(
        automaton.try_stream_find_iter(alloc, &mut reader)?,
        alloc,
        text,
    )
}

/// The next match of a stream. Where there is one, the reader has not ended: under standard no match waits for the end.
pub fn next_match<A: Search, R: Read>(
    matches: &mut StreamFindIter<'_, A, R>,
) -> Result<Option<Match>, StreamError>
    requires unended { (reader_of matches.old).ended ≡ false }
    requires standard { (progress_of matches.old).built.dictionary.kind ≡ Standard }
    ensures open { IfOk result
        (λ it. IfSome it (λ o. (reader_of matches.new).ended ≡ false)) }
    ensures same_reference { reader_name matches.new ≡ reader_name matches.old }
{
    match matches.next_counted(&mut Steps::new()) {
        Some(Ok(found)) => Ok(Some(found)),
        Some(Err(error)) => Err(error),
        None => Ok(None),
    }
}

/// The first match of a stream. What comes after the read that gave it is left for others to read.
pub fn first_match<A: Search, R: Read>(
    reader: &mut Watched<R>,
    automaton: &A,
    alloc: Global,
) -> Result<Option<Match>, StreamError>
    requires { reader.old.ended ≡ false }
    ensures { IfOk result (λ found. IfSome found (λ o. reader.new.ended ≡ false)) }
{
    let mut matches = stream_find_iter(reader, automaton, StreamKinds::OnlyStandard, alloc)?;
    let first = next_match(&mut matches);
    let _reader = matches.into_reader();
    first
}

/// Goes over the matches of what was read that were not given yet. It makes no read.
pub fn pass_held<A: Search, R: Read>(matches: &mut StreamFindIter<'_, A, R>, steps: &mut Steps)
    requires { CanBeCounted (read_by (progress_of matches.old)) }
    ensures reader { reader_of matches.new ≡ reader_of matches.old }
    ensures all { AreAllGiven (progress_of matches.new) }
{
    while let Some(_) = matches.next_held_counted(steps) {}
}

/// Reads the text and writes it with each match replaced.
pub fn replaced<A: Search>(
    automaton: &A,
    alloc: Global,
    text: &[u8],
    writer: &mut Watched<Vec<u8>>,
    replacements: &[&[u8]],
) -> Result<(), StreamError>
    requires { length replacements.now ≡ length (A.built automaton.now).dictionary.patterns }
    ensures { OnOk result
        (Rewrites (A.built automaton.now) replacements.now text.now writer.old writer.new) }
{
    let mut reader = Watched::new(text);
    automaton.try_stream_replace_all(alloc, &mut reader, writer, replacements)
}

/// The same, counted: two looks at states for each byte at most, also where it fails.
pub fn replaced_counted<A: Search>(
    automaton: &A,
    alloc: Global,
    text: &[u8],
    writer: &mut Watched<Vec<u8>>,
    replacements: &[&[u8]],
    steps: &mut Steps,
) -> Result<(), StreamError>
    requires { length replacements.now ≡ length (A.built automaton.now).dictionary.patterns }
    ensures { TwoLooks steps.old steps.new (length text.now) }
{
    let mut reader = Watched::new(text);
    automaton.try_stream_replace_all_counted(alloc, &mut reader, writer, replacements, steps)
}

/// Reads the text and writes it, each match by a closure that writes what matched.
pub fn copied<A: Search>(
    automaton: &A,
    alloc: Global,
    text: &[u8],
    writer: &mut Watched<Vec<u8>>,
) -> Result<(), StreamError>
    ensures { OnOk result (writer.new.inner.items
        ≡ writer.old.inner.items ++ text.now) }
{
    let mut reader = Watched::new(text);
    automaton.try_stream_replace_all_with(alloc, &mut reader, writer, |_, matched, writer| {
        write_whole(writer, matched)
    })
}

/// The first bytes of the text, as many as one read gives.
pub fn read_front(text: &[u8], buffer: &mut [u8]) -> io::Result<usize>
    requires { 0 < length buffer.old }
    ensures { IfOk result (λ n. take n buffer.new ≡ take n text.now) }
{
    Watched::new(text).read(buffer)
}

/// Whether all the bytes could be written: where no call of the writer failed.
pub fn is_written<W: Write>(writer: &mut Watched<W>, bytes: &[u8]) -> bool
    ensures { IsTrue result ↔ (writer.new.failures.value ≡ writer.old.failures.value) }
{
    write_whole(writer, bytes).is_ok()
}

/// The pieces one after another, in as few writes as their length allows.
pub fn joined(alloc: Global, pieces: &[&[u8]]) -> Result<Vec<u8>, StreamError>
    ensures { IfOk result (λ v. v.items ≡ concat (map (λ piece. piece.now) pieces.now)) }
{
    let mut writer = Watched::new(Vec::new(alloc));
    let mut output = Output::new(alloc)?;
    for piece in pieces {
        output.send(&mut writer, piece)?;
    }
    output.send_held(&mut writer)?;
    Ok(writer.into_inner())
}

/// A replacement between what stands before it and what stands after it.
pub fn exchanged(
    alloc: Global,
    before: &[u8],
    replacement: &[u8],
    after: &[u8],
) -> Result<Vec<u8>, StreamError>
    ensures { IfOk result (λ v. v.items ≡ before.now ++ replacement.now ++ after.now) }
{
    let mut writer = Watched::new(Vec::new(alloc));
    let mut output = Output::new(alloc)?;
    output.send_exchanged(&mut writer, before, replacement)?;
    output.send_all(&mut writer, after)?;
    Ok(writer.into_inner())
}

/// Where the matches of a stream begin.
pub fn places_in_stream<A: Search, R: Read>(
    automaton: &A,
    alloc: Global,
    reader: &mut Watched<R>,
) -> Result<Vec<usize>, StreamError>
    requires { reader.old.ended ≡ false }
{
    let mut places = Vec::new(alloc);
    for found in automaton.try_stream_find_iter(alloc, reader)? {
        let found = found?;
        places.push(found.start()).map_err(AllocError::from)?;
    }
    Ok(places)
}

/// How many matches a stream has, up to `usize::MAX`.
pub fn count_in_stream<A: Search, R: Read>(
    automaton: &A,
    alloc: Global,
    reader: &mut Watched<R>,
) -> Result<usize, StreamError>
    requires { reader.old.ended ≡ false }
{
    let mut count = 0usize;
    for found in automaton.try_stream_find_iter(alloc, reader)? {
        found?;
        count = count.saturating_add(1);
    }
    Ok(count)
}

/// All matches of a stream.
pub fn matches_in_stream<A: Search, R: Read>(
    automaton: &A,
    alloc: Global,
    reader: &mut Watched<R>,
) -> Result<Vec<Match>, StreamError>
    requires { reader.old.ended ≡ false }
{
    automaton
        .try_stream_find_iter(alloc, reader)?
        .try_collect(alloc)
}
