//! Streams, under standard alone or under any kind. `Watched` wraps a reader or a writer, and knows whether a read ended it. Where a
//! contract names the bytes, readers and writers are slices and `Vec`s.
ghost use Rattle.std.specs.Prelude.{◌≡◌, ◌++◌, [], false, length, IfOk, OnOk};
ghost use Rattle.ac_automaton.specs.InMemory.Replace.{matches_in};
ghost use Rattle.ac_automaton.specs.Stream.{read_by, Picks};
ghost use Rattle.ac_automaton.specs.Stream.Iter.{progress_of};
ghost use Rattle.ac_automaton.specs.Stream.Replace.{IsStreamCost};
ghost use Rattle.aho_corasick.specs.AhoCorasick.{as_built, supported_by, pattern_count};
ghost use Rattle.example_callers.specs.Callers.{Rewrites, TwoLooks};
ghost use Rattle.aho_corasick.specs.Stream.{CanStream};

use crate::generic_stream::all_of;
use ac_input::search::Match;
use ac_input::steps::Steps;
use aho_corasick::StreamKinds::{self, AnyKind, OnlyStandard};
use aho_corasick::{
    AhoCorasick, StreamError, StreamFindIter, Watched, stream_find_iter, write_whole,
};
use std::alloc::{AllocError, Global};
use std::io::{Read, Write};

/// The matches of a stream, by an automaton that can search one: it can fail only for memory. It has read nothing yet.
pub fn search_of<'a, R>(
    ac: &'a AhoCorasick,
    alloc: Global,
    reader: &'a mut Watched<R>,
) -> Result<StreamFindIter<'a, R>, AllocError>
    requires open { reader.old.ended ≡ false }
    requires can { CanStream StreamKinds.OnlyStandard (as_built ac.now) (supported_by ac.now) }
    ensures { IfOk result (λ matches. read_by (progress_of matches) ≡ []) }
{
    ac.stream_find_iter(alloc, reader)
}

/// All matches of what a reader gives, one after another: those of the whole text, under whichever kind.
pub fn all_matches(
    ac: &AhoCorasick,
    alloc: Global,
    text: &[u8],
    kinds: StreamKinds,
) -> Result<Vec<Match>, StreamError>
    ensures { IfOk result (λ v. v.items ≡ matches_in (as_built ac.now) text.now) }
{
    let mut reader = Watched::new(text);
    let matches = stream_find_iter(&mut reader, ac, kinds, alloc)?;
    all_of(matches, alloc, text)
}

/// Reads the text and writes it with each match replaced.
pub fn replaced(
    ac: &AhoCorasick,
    alloc: Global,
    text: &[u8],
    writer: &mut Watched<Vec<u8>>,
    replacements: &[&[u8]],
    kinds: StreamKinds,
) -> Result<(), StreamError>
    requires { length replacements.now ≡ pattern_count ac.now }
    ensures { OnOk result
        (Rewrites (as_built ac.now) replacements.now text.now writer.old writer.new) }
{
    let mut reader = Watched::new(text);
    match kinds {
        OnlyStandard => ac.try_stream_replace_all(alloc, &mut reader, writer, replacements),
        AnyKind => ac.try_stream_replace_all_any_kind_counted(
            alloc,
            &mut reader,
            writer,
            replacements,
            &mut Steps::new(),
        ),
    }
}

/// The same, counted: two looks at states for each byte at most, also where it fails.
pub fn replaced_counted(
    ac: &AhoCorasick,
    alloc: Global,
    text: &[u8],
    writer: &mut Watched<Vec<u8>>,
    replacements: &[&[u8]],
    steps: &mut Steps,
) -> Result<(), StreamError>
    requires { length replacements.now ≡ pattern_count ac.now }
    ensures { TwoLooks steps.old steps.new (length text.now) }
{
    let mut reader = Watched::new(text);
    ac.try_stream_replace_all_counted(alloc, &mut reader, writer, replacements, steps)
}

/// Counted under any kind: at most two looks at states for each byte, and for each that is read again, after a match or since it was
/// read ahead in vain.
pub fn any_kind_replaced_counted(
    ac: &AhoCorasick,
    alloc: Global,
    text: &[u8],
    writer: &mut Watched<Vec<u8>>,
    replacements: &[&[u8]],
    steps: &mut Steps,
) -> Result<(), StreamError>
    requires { length replacements.now ≡ pattern_count ac.now }
    ensures { OnOk result (IsStreamCost Picks (as_built ac.now) (length text.now)
        (length (matches_in (as_built ac.now) text.now)) steps.old steps.new) }
{
    let mut reader = Watched::new(text);
    ac.try_stream_replace_all_any_kind_counted(alloc, &mut reader, writer, replacements, steps)
}

/// Reads the text and writes it, each match by a closure that writes what matched.
pub fn copied(
    ac: &AhoCorasick,
    alloc: Global,
    text: &[u8],
    writer: &mut Watched<Vec<u8>>,
) -> Result<(), StreamError>
    ensures { OnOk result (writer.new.inner.items ≡ writer.old.inner.items ++ text.now) }
{
    let mut reader = Watched::new(text);
    ac.try_stream_replace_all_with(alloc, &mut reader, writer, |_, matched, writer| {
        write_whole(writer, matched)
    })
}

/// Where the matches of a stream begin. It is an error where the automaton can't search a stream, and where a read fails.
pub fn places<R: Read + Drop>(
    ac: &AhoCorasick,
    alloc: Global,
    reader: R,
) -> Result<Vec<usize>, StreamError> {
    let mut reader = Watched::new(reader);
    let mut places = Vec::new(alloc);
    for found in ac.try_stream_find_iter(alloc, &mut reader)? {
        let found = found?;
        places.push(found.start()).map_err(AllocError::from)?;
    }
    Ok(places)
}

/// Copies what a reader gives to a writer, with each match masked, while it reads.
pub fn masked<R: Read + Drop, W: Write + Drop>(
    ac: &AhoCorasick,
    alloc: Global,
    reader: R,
    writer: W,
) -> Result<(), StreamError> {
    let mask: &[u8] = b"***";
    let masks = vec![in alloc; mask; ac.patterns_len()]?;
    let mut reader = Watched::new(reader);
    let mut writer = Watched::new(writer);
    ac.try_stream_replace_all(alloc, &mut reader, &mut writer, &masks)
}

/// The same under any kind, of a slice, which is a reader too: with `pass` and `password` under leftmost-longest, all of `password` is
/// masked. It holds back what isn't decided.
pub fn longest_masked<W: Write>(
    ac: &AhoCorasick,
    alloc: Global,
    text: &[u8],
    writer: &mut Watched<W>,
) -> Result<(), StreamError> {
    let mask: &[u8] = b"***";
    let masks = vec![in alloc; mask; ac.patterns_len()]?;
    let mut steps = Steps::new();
    ac.try_stream_replace_all_any_kind_counted(
        alloc,
        &mut Watched::new(text),
        writer,
        &masks,
        &mut steps,
    )
}

/// As `masked`, each match in brackets. A write that fails ends it.
pub fn bracketed<R: Read, W: Write>(
    ac: &AhoCorasick,
    alloc: Global,
    reader: &mut Watched<R>,
    writer: &mut Watched<W>,
) -> Result<(), StreamError>
    requires { reader.old.ended ≡ false }
{
    ac.try_stream_replace_all_with(alloc, reader, writer, |_, matched, writer| {
        write_whole(writer, b"[")?;
        write_whole(writer, matched)?;
        write_whole(writer, b"]")
    })
}
