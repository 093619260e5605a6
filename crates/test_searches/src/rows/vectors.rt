//! The cases of the Rust crate's own tests of its searches, but for those that stand in other tables.
//!
//! They are those of an older version. Its walks also gave an empty match where the match before had ended, and only one match where
//! they were anchored. Such a case has the matches of a walk as it is defined here.
mod anchored;

use super::{Row, hold, table_of};
use ac_input::search::Anchored::{self, No, Yes};
use ac_input::search::MatchKind::{self, LeftmostFirst, LeftmostLongest, Standard};
use std::alloc::Global;
use std::process::Abort;
use std::test::Fail;
use test_rows::answers::Asks::{self, List, Walk};
use test_rows::answers::Text::{Bound, Whole};
use test_rows::engines::Letters::{Cased, Folded};
use test_rows::engines::{Asked, FEW, Letters, Pick};

/// A text, and what a search of it gives.
type Searched = (&'static [u8], &'static [Pick]);

/// Cases that these kinds have in common: patterns, and some texts for each list of them.
struct Vectors {
    kinds: &'static [MatchKind],
    /// Whether all occurrences are the same as the matches, or where no kind is there, the occurrences alone.
    lists: bool,
    letters: Letters,
    /// Searches that are not anchored, and anchored ones.
    searches: &'static [Anchored],
    cases: &'static [(&'static [&'static [u8]], &'static [Searched])],
}

/// The rows of these texts.
fn vector_rows(
    alloc: Global,
    asks: Asks,
    anchored: Anchored,
    texts: &'static [Searched],
) -> Result<Vec<Row<'static>>, Fail> {
    Ok(
        texts
            .iter()
            .map(|(text, gives)| Row {
                shows: "a case of the Rust crate",
                asks,
                text: if anchored.is_anchored() {
                    Bound(text)
                } else {
                    Whole(text)
                },
                gives,
            })
            .collect(alloc)?,
    )
}

/// Asserts the cases of these patterns.
fn cases_hold<T: Abort>(
    rt: &T,
    alloc: Global,
    asked: Asked<'_>,
    asks: Asks,
    searches: &[Anchored],
    texts: &'static [Searched],
) -> Result<(), Fail> {
    for anchored in searches {
        let rows = vector_rows(alloc, asks, *anchored, texts)?;
        hold(rt, alloc, &[table_of(asked, &rows)], FEW)?;
    }
    Ok(())
}

/// Asserts the cases for one kind.
fn kind_holds<T: Abort>(
    rt: &T,
    alloc: Global,
    vectors: &Vectors,
    kind: MatchKind,
    asks: Asks,
) -> Result<(), Fail> {
    for (patterns, texts) in vectors.cases {
        let asked = Asked {
            patterns,
            kind,
            letters: vectors.letters,
        };
        cases_hold(rt, alloc, asked, asks, vectors.searches, texts)?;
    }
    Ok(())
}

/// Asserts the cases for each kind, and of all occurrences.
fn vectors_hold<T: Abort>(rt: &T, alloc: Global, vectors: &Vectors) -> Result<(), Fail> {
    for kind in vectors.kinds {
        kind_holds(rt, alloc, vectors, *kind, Walk)?;
    }
    if vectors.lists {
        kind_holds(rt, alloc, vectors, Standard, List)?;
    }
    Ok(())
}

/// Asserts all cases of a table.
fn table_holds<T: Abort>(rt: &T, alloc: Global, table: &[Vectors]) -> Result<(), Fail> {
    for vectors in table {
        vectors_hold(rt, alloc, vectors)?;
    }
    Ok(())
}

const TABLES: [&[Vectors]; 10] = [
    ALIKE,
    KINDS,
    LEFTMOST,
    ONE_KIND,
    OCCURRENCES,
    FOLDED,
    anchored::KINDS,
    anchored::LEFTMOST,
    anchored::ONE_KIND,
    anchored::OCCURRENCES,
];

#[test]
fn cases_of_the_rust_crate(rt: HostRuntime) -> Result<(), Fail> {
    for table in TABLES {
        table_holds(&rt, rt.alloc(), table)?;
    }
    Ok(())
}

/// Matches that are the same for each kind, and are all occurrences.
const ALIKE: &[Vectors] = &[
    Vectors {
        kinds: &[Standard, LeftmostFirst, LeftmostLongest],
        lists: true,
        letters: Cased,
        searches: &[No],
        cases: &[
            (
                &[b""],
                &[
                    (b"a", &[(0, 0, 0), (0, 1, 1)]),
                    (b"abc", &[(0, 0, 0), (0, 1, 1), (0, 2, 2), (0, 3, 3)]),
                ],
            ),
            (
                &[b"a"],
                &[
                    (b"", &[]),
                    (b"aa", &[(0, 0, 1), (0, 1, 2)]),
                    (b"aaa", &[(0, 0, 1), (0, 1, 2), (0, 2, 3)]),
                    (b"aba", &[(0, 0, 1), (0, 2, 3)]),
                    (b"bba", &[(0, 2, 3)]),
                    (b"bbb", &[]),
                    (b"bababbbba", &[(0, 1, 2), (0, 3, 4), (0, 8, 9)]),
                ],
            ),
            (
                &[b"aa"],
                &[
                    (b"", &[]),
                    (b"aa", &[(0, 0, 2)]),
                    (b"aabbaa", &[(0, 0, 2), (0, 4, 6)]),
                    (b"abbab", &[]),
                    (b"abbabaa", &[(0, 5, 7)]),
                ],
            ),
            (
                &[b"abc"],
                &[
                    (b"abc", &[(0, 0, 3)]),
                    (b"zazabzabcz", &[(0, 6, 9)]),
                    (b"zazabczabcz", &[(0, 3, 6), (0, 7, 10)]),
                ],
            ),
            (
                &[b"a", b"b"],
                &[
                    (b"", &[]),
                    (b"z", &[]),
                    (b"b", &[(1, 0, 1)]),
                    (b"a", &[(0, 0, 1)]),
                    (b"abba", &[(0, 0, 1), (1, 1, 2), (1, 2, 3), (0, 3, 4)]),
                ],
            ),
            (
                &[b"b", b"a"],
                &[(b"abba", &[(1, 0, 1), (0, 1, 2), (0, 2, 3), (1, 3, 4)])],
            ),
            (&[b"abc", b"bc"], &[(b"xbc", &[(1, 1, 3)])]),
            (
                &[b"foo", b"bar"],
                &[
                    (b"", &[]),
                    (b"foobar", &[(0, 0, 3), (1, 3, 6)]),
                    (b"barfoo", &[(1, 0, 3), (0, 3, 6)]),
                    (b"foofoo", &[(0, 0, 3), (0, 3, 6)]),
                    (b"barbar", &[(1, 0, 3), (1, 3, 6)]),
                    (b"bafofoo", &[(0, 4, 7)]),
                    (b"fobabar", &[(1, 4, 7)]),
                ],
            ),
            (
                &[b"bar", b"foo"],
                &[(b"bafofoo", &[(1, 4, 7)]), (b"fobabar", &[(0, 4, 7)])],
            ),
            (&[b"inf", b"ind"], &[(b"infind", &[(0, 0, 3), (1, 3, 6)])]),
            (&[b"ind", b"inf"], &[(b"infind", &[(1, 0, 3), (0, 3, 6)])]),
            (
                &[b"\x00\x00\x01", b"\x00\x00\x00"],
                &[(b"\x00\x00\x00", &[(1, 0, 3)])],
            ),
            (
                &[b"\x00\x00\x00", b"\x00\x00\x01"],
                &[(b"\x00\x00\x00", &[(0, 0, 3)])],
            ),
            (
                &[b"libcore/", b"libstd/"],
                &[(b"libcore/char/methods.rs", &[(0, 0, 8)])],
            ),
            (
                &[b"libstd/", b"libcore/"],
                &[(b"libcore/char/methods.rs", &[(1, 0, 8)])],
            ),
            (
                &[b"yabcdef", b"abcdezghi"],
                &[
                    (b"yabcdefghi", &[(0, 0, 7)]),
                    (b"yabcdezghi", &[(1, 1, 10)]),
                ],
            ),
            (
                &[b"yabcdef", b"bcdeyabc", b"abcdezghi"],
                &[(b"yabcdezghi", &[(2, 1, 10)])],
            ),
            (&[b"aaa"], &[(b"aaa", &[(0, 0, 3)])]),
            (
                &[b"abc"],
                &[(
                    b"abcdefghijklmnopqrstuvwxyzabcdefghijk",
                    &[(0, 0, 3), (0, 26, 29)],
                )],
            ),
            (
                &[
                    b"a", b"b", b"c", b"d", b"e", b"f", b"g", b"h", b"i", b"j", b"k",
                ],
                &[(
                    b"abcdefghijk",
                    &[
                        (0, 0, 1),
                        (1, 1, 2),
                        (2, 2, 3),
                        (3, 3, 4),
                        (4, 4, 5),
                        (5, 5, 6),
                        (6, 6, 7),
                        (7, 7, 8),
                        (8, 8, 9),
                        (9, 9, 10),
                        (10, 10, 11),
                    ],
                )],
            ),
            (&[b"ab/j/", b"x/"], &[(b"ab/j/", &[(0, 0, 5)])]),
        ],
    },
    Vectors {
        kinds: &[Standard, LeftmostFirst, LeftmostLongest],
        lists: true,
        letters: Cased,
        searches: &[No, Yes],
        cases: &[(&[b"a"], &[(b"a", &[(0, 0, 1)])])],
    },
];

/// Matches that are the same for two kinds, or for each.
const KINDS: &[Vectors] = &[
    Vectors {
        kinds: &[Standard, LeftmostFirst, LeftmostLongest],
        lists: false,
        letters: Cased,
        searches: &[No],
        cases: &[
            (&[b"abc", b"bc"], &[(b"zazabcz", &[(0, 3, 6)])]),
            (
                &[b"foo", b"foo"],
                &[(b"foobarfoo", &[(0, 0, 3), (0, 6, 9)])],
            ),
            (&[b"abcd", b"bcd", b"cd"], &[(b"abcd", &[(0, 0, 4)])]),
            (&[b"bcd", b"cd", b"abcd"], &[(b"abcd", &[(2, 0, 4)])]),
            (
                &[
                    b"ab", b"bc", b"cd", b"de", b"ef", b"fg", b"gh", b"hi", b"ij", b"jk", b"kl",
                ],
                &[(
                    b"abcdefghijk",
                    &[(0, 0, 2), (2, 2, 4), (4, 4, 6), (6, 6, 8), (8, 8, 10)],
                )],
            ),
        ],
    },
    Vectors {
        kinds: &[Standard, LeftmostFirst, LeftmostLongest],
        lists: false,
        letters: Cased,
        searches: &[No, Yes],
        cases: &[
            (
                &[b"", b""],
                &[(b"", &[(0, 0, 0)]), (b"a", &[(0, 0, 0), (0, 1, 1)])],
            ),
            (
                &[b"ab", b"ba"],
                &[(b"abababa", &[(0, 0, 2), (0, 2, 4), (0, 4, 6)])],
            ),
        ],
    },
    Vectors {
        kinds: &[Standard, LeftmostFirst],
        lists: false,
        letters: Cased,
        searches: &[No, Yes],
        cases: &[
            (&[b"", b"a"], &[(b"a", &[(0, 0, 0), (0, 1, 1)])]),
            (&[b"ab", b"abcd"], &[(b"abcd", &[(0, 0, 2)])]),
            (&[b"", b"a", b""], &[(b"a", &[(0, 0, 0), (0, 1, 1)])]),
            (&[b"", b"", b"a"], &[(b"a", &[(0, 0, 0), (0, 1, 1)])]),
        ],
    },
];

/// Matches that are the same for both leftmost kinds.
const LEFTMOST: &[Vectors] = &[
    Vectors {
        kinds: &[LeftmostFirst, LeftmostLongest],
        lists: false,
        letters: Cased,
        searches: &[No],
        cases: &[
            (&[b""], &[(b"", &[(0, 0, 0)])]),
            (&[b"ab", b"a"], &[(b"xayabbbz", &[(1, 1, 2), (0, 3, 5)])]),
            (&[b"abcd", b"bce", b"b"], &[(b"abce", &[(1, 1, 4)])]),
            (&[b"abcd", b"ce", b"bc"], &[(b"abce", &[(2, 1, 3)])]),
            (
                &[b"abcdefg", b"bcdef", b"bcde"],
                &[(b"abcdef", &[(1, 1, 6)])],
            ),
            (&[b"abcd", b"bce", b"ce", b"b"], &[(b"abce", &[(1, 1, 4)])]),
            (&[b"abcd", b"bce", b"cz", b"bc"], &[(b"abcz", &[(3, 1, 3)])]),
        ],
    },
    Vectors {
        kinds: &[LeftmostFirst, LeftmostLongest],
        lists: false,
        letters: Cased,
        searches: &[No, Yes],
        cases: &[
            (&[b"a", b""], &[(b"a", &[(0, 0, 1)])]),
            (&[b"ab", b"ab"], &[(b"abcd", &[(0, 0, 2)])]),
            (&[b"a", b"ab"], &[(b"aa", &[(0, 0, 1), (0, 1, 2)])]),
            (&[b"ab", b"a"], &[(b"aa", &[(1, 0, 1), (1, 1, 2)])]),
            (&[b"a", b"", b""], &[(b"a", &[(0, 0, 1)])]),
            (&[b"bce", b"cz", b"bc"], &[(b"bcz", &[(2, 0, 2)])]),
            (&[b"abc", b"bd", b"ab"], &[(b"abd", &[(2, 0, 2)])]),
            (
                &[b"abcdefghi", b"hz", b"abcdefgh"],
                &[(b"abcdefghz", &[(2, 0, 8)])],
            ),
            (
                &[b"abcdefghi", b"cde", b"hz", b"abcdefgh"],
                &[(b"abcdefghz", &[(3, 0, 8)])],
            ),
            (
                &[b"abcdefghi", b"hz", b"abcdefgh", b"a"],
                &[(b"abcdefghz", &[(2, 0, 8)])],
            ),
            (
                &[b"b", b"abcdefghi", b"hz", b"abcdefgh"],
                &[(b"abcdefghz", &[(3, 0, 8)])],
            ),
            (
                &[b"h", b"abcdefghi", b"hz", b"abcdefgh"],
                &[(b"abcdefghz", &[(3, 0, 8)])],
            ),
        ],
    },
    Vectors {
        kinds: &[LeftmostFirst],
        lists: true,
        letters: Cased,
        searches: &[No],
        cases: &[(&[], &[(b"", &[])])],
    },
];

/// Matches of one kind.
const ONE_KIND: &[Vectors] = &[
    Vectors {
        kinds: &[Standard],
        lists: false,
        letters: Cased,
        searches: &[No],
        cases: &[(
            &[b"abcd", b"bcd", b"cd", b"b"],
            &[(b"abcd", &[(3, 1, 2), (2, 2, 4)])],
        )],
    },
    Vectors {
        kinds: &[Standard],
        lists: false,
        letters: Cased,
        searches: &[No, Yes],
        cases: &[
            (&[b"a", b""], &[(b"a", &[(1, 0, 0), (1, 1, 1)])]),
            (&[b"", b"a"], &[(b"aa", &[(0, 0, 0), (0, 1, 1), (0, 2, 2)])]),
            (&[b"abcd", b"ab"], &[(b"abcd", &[(1, 0, 2)])]),
            (&[b"a", b"", b""], &[(b"a", &[(1, 0, 0), (1, 1, 1)])]),
            (&[b"abcd", b"ab", b"abc"], &[(b"abcd", &[(1, 0, 2)])]),
            (&[b"abcd", b"abc", b"ab"], &[(b"abcd", &[(2, 0, 2)])]),
        ],
    },
    Vectors {
        kinds: &[LeftmostFirst],
        lists: false,
        letters: Cased,
        searches: &[No],
        cases: &[
            (&[b"a", b"abab"], &[(b"abab", &[(0, 0, 1), (0, 2, 3)])]),
            (&[b"abcd", b"b", b"bce"], &[(b"abce", &[(1, 1, 2)])]),
            (
                &[b"abcdefg", b"bcde", b"bcdef"],
                &[(b"abcdef", &[(1, 1, 5)])],
            ),
            (
                &[b"a", b"abcdefghi", b"hz", b"abcdefgh"],
                &[(b"abcdefghz", &[(0, 0, 1), (2, 7, 9)])],
            ),
            (
                &[b"abcdef", b"x", b"x", b"x", b"x", b"x", b"x", b"abcde"],
                &[(b"abcdef", &[(0, 0, 6)])],
            ),
        ],
    },
    Vectors {
        kinds: &[LeftmostFirst],
        lists: false,
        letters: Cased,
        searches: &[No, Yes],
        cases: &[(&[b"abcd", b"ab"], &[(b"abcd", &[(0, 0, 4)])])],
    },
    Vectors {
        kinds: &[LeftmostLongest],
        lists: false,
        letters: Cased,
        searches: &[No],
        cases: &[
            (&[b"abcd", b"b", b"bce"], &[(b"abce", &[(2, 1, 4)])]),
            (
                &[b"abcd", b"b", b"ce"],
                &[(b"abce", &[(1, 1, 2), (2, 2, 4)])],
            ),
            (
                &[b"abcdefg", b"bcde", b"bcdef"],
                &[(b"abcdef", &[(2, 1, 6)])],
            ),
            (&[b"abcd", b"bcd", b"cd", b"b"], &[(b"abcd", &[(0, 0, 4)])]),
        ],
    },
    Vectors {
        kinds: &[LeftmostLongest],
        lists: false,
        letters: Cased,
        searches: &[No, Yes],
        cases: &[
            (
                &[b"", b"a"],
                &[(b"a", &[(1, 0, 1)]), (b"aa", &[(1, 0, 1), (1, 1, 2)])],
            ),
            (
                &[b"a", b"ab"],
                &[(b"a", &[(0, 0, 1)]), (b"ab", &[(1, 0, 2)])],
            ),
            (
                &[b"ab", b"a"],
                &[(b"a", &[(1, 0, 1)]), (b"ab", &[(0, 0, 2)])],
            ),
            (&[b"ab", b"abcd"], &[(b"abcd", &[(1, 0, 4)])]),
            (&[b"a", b"abab"], &[(b"abab", &[(1, 0, 4)])]),
            (&[b"", b"a", b""], &[(b"a", &[(1, 0, 1)])]),
            (&[b"", b"", b"a"], &[(b"a", &[(2, 0, 1)])]),
            (
                &[b"a", b"abcdefghi", b"hz", b"abcdefgh"],
                &[(b"abcdefghz", &[(3, 0, 8)])],
            ),
        ],
    },
];

/// All occurrences.
const OCCURRENCES: &[Vectors] = &[
    Vectors {
        kinds: &[],
        lists: true,
        letters: Cased,
        searches: &[No],
        cases: &[
            (
                &[b"", b""],
                &[(b"a", &[(0, 0, 0), (1, 0, 0), (0, 1, 1), (1, 1, 1)])],
            ),
            (&[b"", b"a"], &[(b"a", &[(0, 0, 0), (1, 0, 1), (0, 1, 1)])]),
            (
                &[b"ab", b"ba"],
                &[(
                    b"abababa",
                    &[
                        (0, 0, 2),
                        (1, 1, 3),
                        (0, 2, 4),
                        (1, 3, 5),
                        (0, 4, 6),
                        (1, 5, 7),
                    ],
                )],
            ),
            (&[b"abc", b"bc"], &[(b"zazabcz", &[(0, 3, 6), (1, 4, 6)])]),
            (
                &[b"foo", b"foo"],
                &[(b"foobarfoo", &[(0, 0, 3), (1, 0, 3), (0, 6, 9), (1, 6, 9)])],
            ),
            (
                &[b"foo", b"foofoo"],
                &[(b"foofoo", &[(0, 0, 3), (1, 0, 6), (0, 3, 6)])],
            ),
            (
                &[b"", b"a", b""],
                &[(
                    b"a",
                    &[(0, 0, 0), (2, 0, 0), (1, 0, 1), (0, 1, 1), (2, 1, 1)],
                )],
            ),
            (
                &[b"a", b"", b""],
                &[(
                    b"a",
                    &[(1, 0, 0), (2, 0, 0), (0, 0, 1), (1, 1, 1), (2, 1, 1)],
                )],
            ),
            (
                &[b"", b"", b"a"],
                &[(
                    b"a",
                    &[(0, 0, 0), (1, 0, 0), (2, 0, 1), (0, 1, 1), (1, 1, 1)],
                )],
            ),
            (
                &[b"abcd", b"bcd", b"cd"],
                &[(b"abcd", &[(0, 0, 4), (1, 1, 4), (2, 2, 4)])],
            ),
            (
                &[b"bcd", b"abcd", b"cd"],
                &[(b"abcd", &[(1, 0, 4), (0, 1, 4), (2, 2, 4)])],
            ),
            (
                &[b"bcd", b"cd", b"abcd"],
                &[(b"abcd", &[(2, 0, 4), (0, 1, 4), (1, 2, 4)])],
            ),
            (
                &[b"abcd", b"bcd", b"cd", b"b"],
                &[(b"abcd", &[(3, 1, 2), (0, 0, 4), (1, 1, 4), (2, 2, 4)])],
            ),
            (
                &[b"bcd", b"cd", b"b", b"abcd"],
                &[(b"abcd", &[(2, 1, 2), (3, 0, 4), (0, 1, 4), (1, 2, 4)])],
            ),
        ],
    },
    Vectors {
        kinds: &[],
        lists: true,
        letters: Cased,
        searches: &[No, Yes],
        cases: &[(&[b"", b""], &[(b"", &[(0, 0, 0), (1, 0, 0)])])],
    },
];

/// Letters in both cases.
const FOLDED: &[Vectors] = &[
    Vectors {
        kinds: &[Standard, LeftmostFirst, LeftmostLongest],
        lists: true,
        letters: Folded,
        searches: &[No],
        cases: &[
            (&[b"a"], &[(b"A", &[(0, 0, 1)])]),
            (&[b"fOoBaR"], &[(b"quux foobar baz", &[(0, 5, 11)])]),
            (
                &[b"Samwise"],
                &[(b"SAMWISE", &[(0, 0, 7)]), (b"SAMWISE.abcd", &[(0, 0, 7)])],
            ),
        ],
    },
    Vectors {
        kinds: &[Standard, LeftmostFirst, LeftmostLongest],
        lists: false,
        letters: Folded,
        searches: &[No],
        cases: &[
            (&[b"foo", b"FOO"], &[(b"fOo", &[(0, 0, 3)])]),
            (&[b"FOO", b"foo"], &[(b"fOo", &[(0, 0, 3)])]),
            (&[b"abc", b"def"], &[(b"abcdef", &[(0, 0, 3), (1, 3, 6)])]),
        ],
    },
    Vectors {
        kinds: &[],
        lists: true,
        letters: Folded,
        searches: &[No],
        cases: &[
            (&[b"foo", b"FOO"], &[(b"fOo", &[(0, 0, 3), (1, 0, 3)])]),
            (&[b"FOO", b"foo"], &[(b"fOo", &[(0, 0, 3), (1, 0, 3)])]),
            (
                &[b"abc", b"def", b"abcdef"],
                &[(b"abcdef", &[(0, 0, 3), (2, 0, 6), (1, 3, 6)])],
            ),
        ],
    },
];
