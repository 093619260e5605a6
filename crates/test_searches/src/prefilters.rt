//! Where a prefilter says that a match may begin, for each way of finding such places.
use crate::asserts::same;
use ac_input::pairing::Pairing;
use ac_input::search::{MatchKind, Span};
use ac_input::steps::Steps;
use ac_literal::prefilter::{Candidate, Prefilter, PrefilterBuilder};
use std::alloc::{AllocError, Global};
use std::process::Abort;
use std::test::Fail;
use test_rows::engines::{Letters, pairing};

/// What a prefilter gives.
#[derive(Clone, Copy, Debug, PartialEq, Eq)]
enum Gives {
    /// No match lies in the span.
    Nothing,
    /// A match may begin here, and none begins before.
    Possible(usize),
    /// The match itself.
    Found(usize, usize, usize),
}

/// A part of a text, and what the prefilter gives for it.
struct Row {
    text: &'static [u8],
    start: usize,
    gives: Gives,
}

/// Some patterns, and what their prefilter gives; no rows where there is none.
struct Table {
    shows: &'static str,
    patterns: &'static [&'static [u8]],
    kind: MatchKind,
    letters: Letters,
    rows: &'static [Row],
}

/// What the candidate is.
fn given(candidate: Candidate) -> Gives {
    match candidate {
        Candidate::None => Gives::Nothing,
        Candidate::PossibleStartOfMatch(at) => Gives::Possible(at),
        Candidate::Match(it) => Gives::Found(it.pattern().as_usize(), it.start(), it.end()),
    }
}

/// Adds the patterns.
fn add_all(builder: &mut PrefilterBuilder, patterns: &[&[u8]]) -> Result<(), AllocError> {
    for pattern in patterns {
        builder.try_add(*pattern)?;
    }
    Ok(())
}

/// The prefilter of the patterns, if there is one.
pub fn made(
    alloc: Global,
    kind: MatchKind,
    pairing: Pairing,
    patterns: &[&[u8]],
) -> Result<Option<Prefilter>, AllocError> {
    let mut builder = PrefilterBuilder::new(alloc, kind);
    builder.ascii_case_insensitive(true).pairing(pairing);
    add_all(&mut builder, patterns)?;
    builder.build()
}

/// The prefilter of the patterns, where these bytes are the same.
pub fn built(
    alloc: Global,
    kind: MatchKind,
    letters: Letters,
    patterns: &[&[u8]],
) -> Result<Option<Prefilter>, Fail> {
    Ok(made(alloc, kind, pairing(letters)?, patterns)?)
}

/// Asserts what the rows say of the prefilter, by each of its calls.
fn rows_hold<T: Abort>(rt: &T, prefilter: &Prefilter, table: &Table) {
    for row in table.rows {
        let end = row.text.len();
        let start = row.start.min(end);
        let span = Span { start, end };
        let found = given(prefilter.find_in(row.text, span));
        let counted = given(prefilter.find_in_counted(row.text, span, &mut Steps::new()));
        same(rt, &[found, counted], &[row.gives; 2], table.shows);
    }
}

/// Asserts what the rows say of the prefilter, and of a copy.
fn all_hold<T: Abort>(rt: &T, alloc: Global, prefilter: &Prefilter, table: &Table) {
    rows_hold(rt, prefilter, table);
    let copy = prefilter.clone(alloc).expect(rt, "there is memory");
    rows_hold(rt, &copy, table);
}

/// Asserts what the table says.
fn table_holds<T: Abort>(rt: &T, alloc: Global, table: &Table) -> Result<(), Fail> {
    let made = built(alloc, table.kind, table.letters, table.patterns)?;
    same(rt, &[made.is_none()], &[table.rows.is_empty()], table.shows);
    if let Some(prefilter) = &made {
        all_hold(rt, alloc, prefilter, table);
    }
    Ok(())
}

const F: &[u8] = b"Far";

const WORDS: &[&[u8]] = &[b"foo", b"bar", b"quux"];

const TABLES: &[Table] = &[
    Table {
        shows: "a scan for the bytes that begin patterns",
        patterns: &[b"foo", b"bar"],
        kind: MatchKind::Standard,
        letters: Letters::Cased,
        rows: &[
            Row {
                text: b"xxbar",
                start: 0,
                gives: Gives::Possible(2),
            },
            Row {
                text: b"xxx",
                start: 0,
                gives: Gives::Nothing,
            },
            Row {
                text: b"fxxbar",
                start: 1,
                gives: Gives::Possible(3),
            },
        ],
    },
    Table {
        shows: "a scan for a rare byte, which steps back by its distance, but not before the span",
        patterns: &[b"aZ", b"bcZ", b"cZ"],
        kind: MatchKind::Standard,
        letters: Letters::Cased,
        rows: &[
            Row {
                text: b"aaaZ",
                start: 0,
                gives: Gives::Possible(1),
            },
            Row {
                text: b"aaaZ",
                start: 2,
                gives: Gives::Possible(2),
            },
            Row {
                text: b"abccZ",
                start: 0,
                gives: Gives::Possible(2),
            },
            Row {
                text: b"abcc",
                start: 0,
                gives: Gives::Nothing,
            },
        ],
    },
    Table {
        shows: "a word in either case: never after where it begins",
        patterns: &[b"FOO"],
        kind: MatchKind::Standard,
        letters: Letters::Folded,
        rows: &[
            Row {
                text: b"xxfoo",
                start: 0,
                gives: Gives::Possible(2),
            },
            Row {
                text: b"xoFoo",
                start: 0,
                gives: Gives::Possible(2),
            },
        ],
    },
    Table {
        shows: "a digit by its partner",
        patterns: &[b"x0"],
        kind: MatchKind::LeftmostFirst,
        letters: Letters::Paired(&[(0x30, 0x31)]),
        rows: &[Row {
            text: b"aax1",
            start: 0,
            gives: Gives::Possible(2),
        }],
    },
    Table {
        shows: "a byte beyond ASCII by its partner",
        patterns: &[b"\xc9z"],
        kind: MatchKind::Standard,
        letters: Letters::Paired(&[(0xc9, 0xe9)]),
        rows: &[Row {
            text: b"aa\xe9z",
            start: 0,
            gives: Gives::Possible(2),
        }],
    },
    Table {
        shows: "a rare byte that begins patterns is taken before packed search",
        patterns: &[b"Zoo", b"Zap"],
        kind: MatchKind::LeftmostFirst,
        letters: Letters::Cased,
        rows: &[Row {
            text: b"xxZxZap",
            start: 0,
            gives: Gives::Possible(2),
        }],
    },
    Table {
        shows: "packed search is taken before a byte that is less rare",
        patterns: &[b"Foo", b"Far"],
        kind: MatchKind::LeftmostFirst,
        letters: Letters::Cased,
        rows: &[Row {
            text: b"xxFxFar",
            start: 0,
            gives: Gives::Found(1, 4, 7),
        }],
    },
    Table {
        shows: "the scan for that byte where packed search doesn't serve",
        patterns: &[b"Foo", b"Far"],
        kind: MatchKind::Standard,
        letters: Letters::Cased,
        rows: &[Row {
            text: b"xxFxFar",
            start: 0,
            gives: Gives::Possible(2),
        }],
    },
    Table {
        shows: "that scan for more patterns than packed search takes",
        patterns: &[F; 129],
        kind: MatchKind::LeftmostFirst,
        letters: Letters::Cased,
        rows: &[Row {
            text: b"xxFxFar",
            start: 0,
            gives: Gives::Possible(2),
        }],
    },
    Table {
        shows: "a scan for common bytes where nothing else serves",
        patterns: WORDS,
        kind: MatchKind::Standard,
        letters: Letters::Cased,
        rows: &[Row {
            text: b"xxqxbar",
            start: 0,
            gives: Gives::Possible(2),
        }],
    },
    Table {
        shows: "packed search finds the match itself",
        patterns: WORDS,
        kind: MatchKind::LeftmostLongest,
        letters: Letters::Cased,
        rows: &[
            Row {
                text: b"xxbar",
                start: 0,
                gives: Gives::Found(1, 2, 5),
            },
            Row {
                text: b"foobar",
                start: 0,
                gives: Gives::Found(0, 0, 3),
            },
        ],
    },
    Table {
        shows: "the search for one pattern finds the match itself",
        patterns: &[b"bar"],
        kind: MatchKind::Standard,
        letters: Letters::Cased,
        rows: &[
            Row {
                text: b"foobar",
                start: 1,
                gives: Gives::Found(0, 3, 6),
            },
            Row {
                text: b"fooba",
                start: 0,
                gives: Gives::Nothing,
            },
        ],
    },
    Table {
        shows: "no prefilter without a pattern",
        patterns: &[],
        kind: MatchKind::LeftmostFirst,
        letters: Letters::Cased,
        rows: &[],
    },
    Table {
        shows: "no prefilter with an empty pattern",
        patterns: &[b"foo", b"", b"bar"],
        kind: MatchKind::LeftmostFirst,
        letters: Letters::Cased,
        rows: &[],
    },
    Table {
        shows: "no prefilter with an empty pattern, in either case",
        patterns: &[b"foo", b"", b"bar"],
        kind: MatchKind::Standard,
        letters: Letters::Folded,
        rows: &[],
    },
    Table {
        shows: "no prefilter where four common bytes begin patterns",
        patterns: &[b"x", b"yx", b"b", b"c"],
        kind: MatchKind::Standard,
        letters: Letters::Cased,
        rows: &[],
    },
];

#[test]
fn where_a_match_may_begin(rt: HostRuntime) -> Result<(), Fail> {
    for table in TABLES {
        table_holds(&rt, rt.alloc(), table)?;
    }
    Ok(())
}
