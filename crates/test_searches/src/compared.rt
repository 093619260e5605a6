//! Many small searches, and some long ones, each compared with the plain program.
//!
//! Patterns and texts are drawn from letters in no order (`test_rows::drawn`).
use crate::prefilters::built;
use crate::rows::{Row, packed_table_holds, table_of};
use ac_input::search::{Candidate, MatchKind, Span};
use ac_literal::prefilter::Prefilter;
use std::alloc::{AllocError, Global};
use std::process::Abort;
use std::test::Fail;
use test_rows::answers::Asks::{self, List, Walk};
use test_rows::answers::Text::{self, Bound, BoundEarliest, BoundPart, Earliest, Part, Whole};
use test_rows::answers::{by_plain, input};
use test_rows::drawn::{Drawn, EACH_OF_LETTERS, KINDS, from_there, letters_of, patterns_of, put};
use test_rows::engines::{Asked, ENGINES, Letters, Pick, each, pick};

/// What is searched of a text.
fn searches(text: &[u8]) -> [Text<'_>; 6] {
    let end = text.len();
    [
        Whole(text),
        Part(text, 2, end),
        Earliest(text),
        Bound(text),
        BoundPart(text, 3, end),
        BoundEarliest(text),
    ]
}

/// What the plain program gives for each of these.
fn answers(
    alloc: Global,
    asked: Asked<'_>,
    asks: Asks,
    texts: &[Text<'_>],
) -> Result<Vec<Vec<Pick>>, Fail> {
    let mut answers = Vec::new(alloc);
    for text in texts {
        answers.push(by_plain(alloc, asked, asks, &input(text)?)?)?;
    }
    Ok(answers)
}

/// The rows of these texts and results.
fn compared_rows<'a>(
    alloc: Global,
    asks: Asks,
    texts: &[Text<'a>],
    answers: &'a [Vec<Pick>],
) -> Result<Vec<Row<'a>>, AllocError> {
    texts
        .iter()
        .zip(answers)
        .map(|(text, gives)| Row {
            shows: "as the plain program",
            asks,
            text: *text,
            gives,
        })
        .collect(alloc)
}

/// Compares searches by each automaton with the plain program.
fn searches_are_alike<T: Abort>(
    rt: &T,
    alloc: Global,
    drawn: Drawn<'_>,
    asks: Asks,
) -> Result<(), Fail> {
    let texts = searches(drawn.text);
    let answers = answers(alloc, drawn.asked, asks, &texts)?;
    let rows = compared_rows(alloc, asks, &texts, &answers)?;
    each(rt, alloc, &table_of(drawn.asked, &rows), ENGINES)
}

/// Asserts that no match begins before the candidate of a prefilter, and that a match that it found is the one.
fn candidate_is_lawful<T: Abort>(
    rt: &T,
    alloc: Global,
    prefilter: &Prefilter,
    drawn: Drawn<'_>,
) -> Result<(), Fail> {
    let Drawn { asked, text } = drawn;
    let end = text.len();
    let candidate = prefilter.find_in(text, Span { start: 0, end });
    let kind = match candidate {
        Candidate::Match(_) => asked.kind,
        Candidate::None | Candidate::PossibleStartOfMatch(_) => MatchKind::LeftmostFirst,
    };
    let walk = by_plain(alloc, Asked { kind, ..asked }, Walk, &input(&Whole(text))?)?;
    let first = walk.first().copied();
    let lawful = match candidate {
        Candidate::None => first.is_none(),
        Candidate::Match(found) => first == pick(Some(found)),
        Candidate::PossibleStartOfMatch(at) => first.is_none_or(|it| at <= it.1),
    };
    assert!(rt; lawful);
    Ok(())
}

/// Asserts the same of the prefilter of these patterns, if there is one.
fn prefilter_is_lawful<T: Abort>(rt: &T, alloc: Global, drawn: Drawn<'_>) -> Result<(), Fail> {
    let asked = drawn.asked;
    match &built(alloc, asked.kind, asked.letters, asked.patterns)? {
        Some(prefilter) => candidate_is_lawful(rt, alloc, prefilter, drawn),
        None => Ok(()),
    }
}

/// Compares the prefilter of these patterns and each automaton, for each kind and with each bytes for the same.
fn each_is_alike<'a, T: Abort>(
    rt: &T,
    alloc: Global,
    patterns: &'a [&'a [u8]],
    text: &'a [u8],
) -> Result<(), Fail> {
    for kind in KINDS {
        for letters in EACH_OF_LETTERS {
            let asked = Asked {
                patterns,
                kind,
                letters,
            };
            let drawn = Drawn { asked, text };
            prefilter_is_lawful(rt, alloc, drawn)?;
            searches_are_alike(rt, alloc, drawn, Walk)?;
            if kind == MatchKind::Standard {
                searches_are_alike(rt, alloc, drawn, List)?;
            }
        }
    }
    Ok(())
}

/// Compares all searches of patterns and a text that are drawn from this number.
fn seed_is_alike<T: Abort>(rt: &T, alloc: Global, seed: u8) -> Result<(), Fail> {
    let letters = letters_of(alloc, seed as u32, 60, b"abAB")?;
    let patterns = patterns_of(alloc, &letters, seed as usize)?;
    each_is_alike(rt, alloc, &patterns, from_there(&letters, 30, 14))
}

/// 30 lists of patterns, each for three kinds and with three pairings: 2,160 searches, each by every automaton in every setting.
#[test]
fn small_searches(rt: HostRuntime) -> Result<(), Fail> {
    for seed in 0..30 {
        seed_is_alike(&rt, rt.alloc(), seed)?;
    }
    Ok(())
}

/// Patterns that begin alike, or end alike, or lie in one another; few of them and many.
const SETS: &[&[&[u8]]] = &[
    &[b"d"],
    &[b"dX", b"dX"],
    &[b"dXe"],
    &[b"abcd", b"abca", b"ab", b"abab", b"abcdX", b"abX"],
    &[b"dbcab", b"dbc", b"dbcbc"],
    &[
        b"dbcab", b"dbc", b"dbcbc", b"dbX", b"dbab", b"dbXc", b"dbbbbb", b"dbca", b"dbcX",
    ],
    &[
        b"dcab", b"dcX", b"dca", b"Xab", b"Xac", b"Xba", b"Xbc", b"Xca", b"Xcb",
    ],
    &[b"aa", b"aaa"],
    &[b"aaab", b"baaac"],
    &[b"aqa", b"aaq"],
    &[b"bqb", b"bqbq", b"qqb"],
];

/// A text of this many letters, with the pattern at a place and at another one, further on.
fn placed(alloc: Global, of: &[u8], place: usize, pattern: &[u8]) -> Result<Vec<u8>, AllocError> {
    let mut text = letters_of(alloc, 1, 450, of)?;
    put(&mut text, place, pattern);
    put(&mut text, place.saturating_add(401), pattern);
    Ok(text)
}

/// Compares packed search of these patterns with the plain program, for one kind.
fn packed_is_alike<T: Abort>(
    rt: &T,
    alloc: Global,
    patterns: &[&[u8]],
    kind: MatchKind,
    text: Text<'_>,
) -> Result<(), Fail> {
    let asked = Asked {
        patterns,
        kind,
        letters: Letters::Cased,
    };
    let gives = by_plain(alloc, asked, Walk, &input(&text)?)?;
    let rows = [Row {
        shows: "packed search as the plain program",
        asks: Walk,
        text,
        gives: &gives,
    }];
    packed_table_holds(rt, alloc, &table_of(asked, &rows))
}

/// Compares packed search of these patterns, for both kinds.
fn packed_kinds_are_alike<T: Abort>(
    rt: &T,
    alloc: Global,
    patterns: &[&[u8]],
    text: Text<'_>,
) -> Result<(), Fail> {
    packed_is_alike(rt, alloc, patterns, MatchKind::LeftmostFirst, text)?;
    packed_is_alike(rt, alloc, patterns, MatchKind::LeftmostLongest, text)
}

/// Compares it where a pattern begins at a place of the first blocks, and once more in a later one.
fn packed_is_alike_at<T: Abort>(
    rt: &T,
    alloc: Global,
    patterns: &[&[u8]],
    of: &[u8],
    place: usize,
) -> Result<(), Fail> {
    let turn = place % patterns.len().max(1);
    let text = placed(alloc, of, place, patterns.get(turn).ok_or("none")?)?;
    packed_kinds_are_alike(rt, alloc, patterns, Whole(&text))
}

/// Compares it at each place of the first blocks, with the patterns in turn.
fn packed_is_alike_at_places<T: Abort>(
    rt: &T,
    alloc: Global,
    patterns: &[&[u8]],
    of: &[u8],
) -> Result<(), Fail> {
    for place in 0..70 {
        packed_is_alike_at(rt, alloc, patterns, of, place)?;
    }
    Ok(())
}

/// Compares it in spans of many lengths, which begin in the first blocks.
fn packed_is_alike_in_spans<T: Abort>(
    rt: &T,
    alloc: Global,
    patterns: &[&[u8]],
) -> Result<(), Fail> {
    let text = placed(alloc, b"abcdX", 31, b"dcab")?;
    for start in [0, 1, 15, 31, 32, 63, 64, 69] {
        for len in [0, 1, 2, 15, 16, 31, 32, 33, 63, 64, 65, 130, 300] {
            packed_kinds_are_alike(rt, alloc, patterns, Part(&text, start, start + len))?;
        }
    }
    Ok(())
}

/// Compares it for this many patterns of three letters.
fn packed_is_alike_for_many<T: Abort>(
    rt: &T,
    alloc: Global,
    letters: &[u8],
    count: usize,
) -> Result<(), Fail> {
    let patterns: Vec<&[u8]> = (0..count)
        .map(|at| from_there(letters, at.saturating_mul(3), 3))
        .collect(alloc)?;
    packed_kinds_are_alike(rt, alloc, &patterns, Whole(letters))
}

/// Compares it for one long pattern, and for few short ones and many.
fn packed_is_alike_of_letters<T: Abort>(rt: &T, alloc: Global, letters: &[u8]) -> Result<(), Fail> {
    for len in [66, 300] {
        packed_is_alike_at_places(rt, alloc, &[from_there(letters, 7, len)], b"abcdef")?;
    }
    for count in [1, 4, 5, 8, 9, 16, 17, 128] {
        packed_is_alike_for_many(rt, alloc, letters, count)?;
    }
    Ok(())
}

/// In texts of many blocks: with few of the letters of the patterns and with many of them, for long patterns, and for many.
#[test]
fn packed_searches(rt: HostRuntime) -> Result<(), Fail> {
    for patterns in SETS {
        packed_is_alike_at_places(&rt, rt.alloc(), patterns, b"abc")?;
        packed_is_alike_at_places(&rt, rt.alloc(), patterns, b"a")?;
        packed_is_alike_in_spans(&rt, rt.alloc(), patterns)?;
    }
    let letters = letters_of(rt.alloc(), 2, 450, b"abcdef")?;
    packed_is_alike_of_letters(&rt, rt.alloc(), &letters)
}
