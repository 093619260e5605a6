//! Dictionaries and texts that are hard on purpose: all bytes and all pairs of bytes, a thousand patterns that end one another, texts
//! of nothing but beginnings or matches, and matches at the ends of a block and of the span.
//!
//! What is found follows from how the patterns and the texts are made. Where it can't take long the plain program confirms it.
use crate::repeated::spelled;
use crate::rows::{Row, hold, table_of};
use ac_input::search::MatchKind;
use ac_input::search::StartKind::Unanchored;
use std::alloc::{AllocError, Global};
use std::process::Abort;
use std::test::Fail;
use test_rows::answers::Asks::{self, List, Walk};
use test_rows::answers::Text::{Part, Whole};
use test_rows::drawn::{KINDS, from_there, letters_of, put};
use test_rows::engines::Alphabet::Classes;
use test_rows::engines::Engine::{self, Contiguous, Dfa, Noncontiguous};
use test_rows::engines::Letters::Cased;
use test_rows::engines::Prefiltering::Off;
use test_rows::engines::{Asked, FEW, FIRST, Pick, each};

/// A search of a whole text.
pub fn of_whole<'a>(asks: Asks, text: &'a [u8], gives: &'a [Pick]) -> Row<'a> {
    Row {
        shows: "a hard text",
        asks,
        text: Whole(text),
        gives,
    }
}

/// What automata are built of for these patterns, byte for byte.
fn asked<'a>(patterns: &'a [&'a [u8]], kind: MatchKind) -> Asked<'a> {
    Asked {
        patterns,
        kind,
        letters: Cased,
    }
}

/// Each byte of the text, found by the pattern that is this byte.
fn each_found(alloc: Global, text: &[u8]) -> Result<Vec<Pick>, AllocError> {
    text.iter()
        .enumerate()
        .map(|(at, byte)| (usize::from(*byte), at, at.saturating_add(1)))
        .collect(alloc)
}

/// Each byte is a pattern, so each has a class of its own.
fn all_bytes_hold<T: Abort>(rt: &T, alloc: Global, bytes: &[u8]) -> Result<(), Fail> {
    let patterns: Vec<&[u8]> = bytes.chunks(1).collect(alloc)?;
    let text = letters_of(alloc, 3, 2600, bytes)?;
    let found = each_found(alloc, &text)?;
    let rows = [of_whole(Walk, &text, &found)];
    for kind in KINDS {
        each(rt, alloc, &table_of(asked(&patterns, kind), &rows), FEW)?;
    }
    Ok(())
}

/// All pairs of bytes, one after another.
fn all_pairs(alloc: Global) -> Result<Vec<u8>, AllocError> {
    let mut pairs = Vec::new(alloc);
    for number in 0..=u16::MAX {
        pairs.extend_from_slice(&number.to_be_bytes())?;
    }
    Ok(pairs)
}

/// The number of the pattern that is this pair.
fn number_of(pair: &[u8]) -> usize {
    match pair {
        [first, second] => usize::from(u16::from_be_bytes([*first, *second])),
        _ => 0,
    }
}

/// One pair after another.
fn pairs_in_turn(alloc: Global, text: &[u8]) -> Result<Vec<Pick>, AllocError> {
    text.chunks(2)
        .enumerate()
        .map(|(at, pair)| (
            number_of(pair),
            at.saturating_mul(2),
            at.saturating_mul(2).saturating_add(2),
        ))
        .collect(alloc)
}

/// The pair at each place.
fn pairs_at_each_place(alloc: Global, text: &[u8]) -> Result<Vec<Pick>, AllocError> {
    text.windows(2)
        .enumerate()
        .map(|(at, pair)| (number_of(pair), at, at.saturating_add(2)))
        .collect(alloc)
}

/// The automata of many patterns: each as it is built fastest.
const OF_MANY: &[Engine] = &[
    Noncontiguous(Off, 1),
    Contiguous(Off, 1, Classes, 0),
    Dfa(Off, Classes, Unanchored),
];

/// Each of the 65,536 pairs is a pattern.
fn all_pairs_hold<T: Abort>(rt: &T, alloc: Global, bytes: &[u8]) -> Result<(), Fail> {
    let pairs = all_pairs(alloc)?;
    let patterns: Vec<&[u8]> = pairs.chunks(2).collect(alloc)?;
    let text = letters_of(alloc, 4, 600, bytes)?;
    let in_turn = pairs_in_turn(alloc, &text)?;
    let at_each = pairs_at_each_place(alloc, &text)?;
    let rows = [
        of_whole(Walk, &text, &in_turn),
        of_whole(List, &text, &at_each),
    ];
    let standard = asked(&patterns, MatchKind::Standard);
    each(rt, alloc, &table_of(standard, &rows), OF_MANY)
}

#[test]
fn all_bytes_and_all_pairs(rt: HostRuntime) -> Result<(), Fail> {
    let bytes: Vec<u8> = (0..=255u8).collect(rt.alloc())?;
    all_bytes_hold(&rt, rt.alloc(), &bytes)?;
    all_pairs_hold(&rt, rt.alloc(), &bytes)
}

/// Adds the occurrences of this many patterns, the shortest, that end at one place, the longest first.
fn add_ending(all: &mut Vec<Pick>, count: usize, end: usize) -> Result<(), AllocError> {
    for len in (1..=count).rev() {
        all.push((len.saturating_sub(1), end.saturating_sub(len), end))?;
    }
    Ok(())
}

/// Asserts what is found of a thousand patterns of one to a thousand letters, each of which ends the next one. The longest is found at
/// once, and then what is left of the text has a shorter one.
fn suffixes_hold<'p, T: Abort>(
    rt: &T,
    alloc: Global,
    patterns: &'p [&'p [u8]],
) -> Result<(), Fail> {
    let walked = [(999, 501, 1501), (3, 1501, 1505)];
    let text = spelled(alloc, &[(b'a', 1500), (b'b', 1), (b'a', 3), (b'b', 1)])?;
    let mut all = Vec::new(alloc);
    add_ending(&mut all, 1000, 1501)?;
    add_ending(&mut all, 4, 1505)?;
    let rows = [of_whole(Walk, &text, &walked), of_whole(List, &text, &all)];
    let standard = asked(patterns, MatchKind::Standard);
    each(rt, alloc, &table_of(standard, &rows), FIRST)?;
    let rows = [of_whole(Walk, &text, &walked)];
    let longest = asked(patterns, MatchKind::LeftmostLongest);
    each(rt, alloc, &table_of(longest, &rows), FIRST)
}

/// The same, with the patterns made.
fn thousand_hold<T: Abort>(rt: &T, alloc: Global) -> Result<(), Fail> {
    let word = spelled(alloc, &[(b'a', 999), (b'b', 1)])?;
    let patterns: Vec<&[u8]> = (0..1000usize)
        .map(|shorter| from_there(&word, 999 - shorter, 1000))
        .collect(alloc)?;
    suffixes_hold(rt, alloc, &patterns)
}

/// How many letters a text has before the end of its one match: about the ends of blocks of 16, 32, 64 and 128 bytes.
const ENDS: &[usize] = &[3, 4, 16, 17, 18, 32, 33, 64, 65, 128, 129];

/// Dictionaries of which the first pattern is the one that the texts have: of one pattern, of few first bytes, of many, and of rare
/// bytes inside.
const SETS: &[&[&[u8]]] = &[
    &[b"fox"],
    &[b"fox", b"brown"],
    &[b"fox", b"brown", b"quick", b"lazy", b"dog"],
    &[b"fox", b"zoq", b"fzq"],
];

/// A text of 131 letters, with a fox that ends at the place.
fn text_to(alloc: Global, end: usize) -> Result<Vec<u8>, AllocError> {
    let mut text = spelled(alloc, &[(b'-', 131)])?;
    put(&mut text, end.saturating_sub(3), b"fox");
    Ok(text)
}

/// The texts with a fox that ends at each of the places.
fn texts(alloc: Global) -> Result<Vec<Vec<u8>>, AllocError> {
    ENDS.iter()
        .map(|end| text_to(alloc, *end))
        .try_collect(alloc)
}

/// A fox that ends at each of the places.
fn foxes_to(alloc: Global) -> Result<Vec<[Pick; 1]>, AllocError> {
    ENDS.iter()
        .map(|end| [(0, end.saturating_sub(3), *end)])
        .collect(alloc)
}

/// A walk over a part of a text.
fn walk<'a>(text: &'a [u8], start: usize, end: usize, gives: &'a [Pick]) -> Row<'a> {
    Row {
        shows: "at the end of a span or of a block",
        asks: Walk,
        text: Part(text, start, end),
        gives,
    }
}

/// Adds that the fox is found in a span up to its end and in one from its start on, and not where the span is one letter shorter.
fn add_about<'a>(
    rows: &mut Vec<Row<'a>>,
    text: &'a [u8],
    found: &'a [Pick],
) -> Result<(), AllocError> {
    let (start, end) = found.first().map_or((0, 0), |it| (it.1, it.2));
    rows.push(walk(text, 0, end, found))?;
    rows.push(walk(text, 0, end.saturating_sub(1), &[]))?;
    rows.push(walk(text, start, text.len(), found))?;
    rows.push(walk(text, start.saturating_add(1), text.len(), &[]))?;
    Ok(())
}

/// The rows about each of the texts.
fn rows_about<'a>(
    alloc: Global,
    texts: &'a [Vec<u8>],
    found: &'a [[Pick; 1]],
) -> Result<Vec<Row<'a>>, AllocError> {
    let mut rows = Vec::new(alloc);
    for (text, found) in texts.iter().zip(found) {
        add_about(&mut rows, text, found)?;
    }
    Ok(rows)
}

/// Asserts what the rows say, for each dictionary and each kind.
fn rows_hold<'a, T: Abort>(
    rt: &T,
    alloc: Global,
    patterns: &'a [&'a [u8]],
    rows: &'a [Row<'a>],
) -> Result<(), Fail> {
    for kind in KINDS {
        hold(rt, alloc, &[table_of(asked(patterns, kind), rows)], FEW)?;
    }
    Ok(())
}

/// One fox after another.
fn foxes(alloc: Global) -> Result<Vec<Pick>, AllocError> {
    (0..300usize)
        .map(|at| (0, at * 3, at * 3 + 3))
        .collect(alloc)
}

/// A text of nothing but foxes.
fn nothing_else(alloc: Global) -> Result<Vec<u8>, AllocError> {
    let mut text = Vec::new(alloc);
    for _ in 0..300 {
        text.extend_from_slice(b"fox")?;
    }
    Ok(text)
}

/// Asserts for each dictionary what the rows say, and what is found where each letter begins a pattern, and where nothing else but
/// matches stands.
fn sets_hold<'a, T: Abort>(rt: &T, alloc: Global, rows: &'a [Row<'a>]) -> Result<(), Fail> {
    let begins = spelled(alloc, &[(b'f', 900)])?;
    let full = nothing_else(alloc)?;
    let foxes = foxes(alloc)?;
    let whole = [of_whole(Walk, &begins, &[]), of_whole(Walk, &full, &foxes)];
    for patterns in SETS {
        rows_hold(rt, alloc, patterns, &*rows)?;
        rows_hold(rt, alloc, patterns, &whole)?;
    }
    Ok(())
}

#[test]
fn suffixes_ends_and_beginnings(rt: HostRuntime) -> Result<(), Fail> {
    thousand_hold(&rt, rt.alloc())?;
    let texts = texts(rt.alloc())?;
    let found = foxes_to(rt.alloc())?;
    let rows = rows_about(rt.alloc(), &texts, &found)?;
    sets_hold(&rt, rt.alloc(), &rows)
}
