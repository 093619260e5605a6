//! Bytes that are taken for the same: the two cases of letters, and other pairs.
use super::{Row, Table};
use ac_input::search::MatchKind::{LeftmostFirst, LeftmostLongest, Standard};
use test_rows::answers::Asks::{List, Walk};
use test_rows::answers::Text::{Bound, Whole};
use test_rows::engines::Letters::{self, Cased, Folded, Paired};

/// `0` and `1` for the same.
const DIGITS: Letters = Paired(&[(0x30, 0x31)]);

/// `0` and `1` for the same, and two bytes beyond ASCII.
const OTHER: Letters = Paired(&[(0x30, 0x31), (0xc9, 0xe9)]);

pub const TABLES: &[Table<'static>] = &[
    Table {
        patterns: &[b"FOO", b"bAr", b"BaZ"],
        kind: Standard,
        letters: Folded,
        rows: &[Row {
            shows: "words in either case",
            asks: Walk,
            text: Whole(b"foo bar baz"),
            gives: &[(0, 0, 3), (1, 4, 7), (2, 8, 11)],
        }],
    },
    Table {
        patterns: &[b"FOO"],
        kind: Standard,
        letters: Folded,
        rows: &[
            Row {
                shows: "one word in two cases",
                asks: Walk,
                text: Whole(b"foo Foo"),
                gives: &[(0, 0, 3), (0, 4, 7)],
            },
            Row {
                shows: "a prefilter is asked again wherever the search is back at the start",
                asks: Walk,
                text: Whole(b"fo fob ba f BAR Foo"),
                gives: &[(0, 16, 19)],
            },
            Row {
                shows: "beginnings of the word in either case",
                asks: Walk,
                text: Whole(b"fo fob ba f BA fo"),
                gives: &[],
            },
            Row {
                shows: "an anchored search asks no prefilter",
                asks: Walk,
                text: Bound(b"foo"),
                gives: &[(0, 0, 3)],
            },
            Row {
                shows: "a word after other bytes",
                asks: Walk,
                text: Whole(b"xxfoo"),
                gives: &[(0, 2, 5)],
            },
        ],
    },
    Table {
        patterns: &[b"FOO", b"bAr"],
        kind: LeftmostFirst,
        letters: Folded,
        rows: &[Row {
            shows: "a leftmost match in another case",
            asks: Walk,
            text: Whole(b"a Bar"),
            gives: &[(1, 2, 5)],
        }],
    },
    Table {
        patterns: &[b"FOO", b"bAr"],
        kind: LeftmostFirst,
        letters: Cased,
        rows: &[Row {
            shows: "case is kept where nothing else is asked",
            asks: Walk,
            text: Whole(b"a Bar"),
            gives: &[],
        }],
    },
    Table {
        patterns: &[b"FOO", b"["],
        kind: Standard,
        letters: Folded,
        rows: &[
            Row {
                shows: "a bracket beside a word doesn't change the word",
                asks: Walk,
                text: Whole(b"xxfoo"),
                gives: &[(0, 2, 5)],
            },
            Row {
                shows: "brackets are no cases of each other, beside a word",
                asks: Walk,
                text: Whole(b"{["),
                gives: &[(1, 1, 2)],
            },
        ],
    },
    Table {
        patterns: &[b"["],
        kind: Standard,
        letters: Folded,
        rows: &[Row {
            shows: "brackets are no cases of each other",
            asks: Walk,
            text: Whole(b"{["),
            gives: &[(0, 1, 2)],
        }],
    },
    Table {
        patterns: &[b"FOO", b"f-f", b"foof"],
        kind: Standard,
        letters: Folded,
        rows: &[Row {
            shows: "all occurrences in either case, after beginnings of them",
            asks: List,
            text: Whole(b"o f baf FoOF-F foo"),
            gives: &[(0, 8, 11), (2, 8, 12), (1, 11, 14), (0, 15, 18)],
        }],
    },
    Table {
        patterns: &[b"abc", b"ab", b"abd", b"AB", b"x", b"xy"],
        kind: LeftmostFirst,
        letters: Folded,
        rows: &[
            Row {
                shows: "a pattern is kept out by one that begins it in another case",
                asks: Walk,
                text: Whole(b"aBD XY"),
                gives: &[(1, 0, 2), (4, 4, 5)],
            },
            Row {
                shows: "a pattern before the one that begins it is not",
                asks: Walk,
                text: Whole(b"AbCd"),
                gives: &[(0, 0, 3)],
            },
        ],
    },
    Table {
        patterns: &[b"0a", b"1a"],
        kind: Standard,
        letters: DIGITS,
        rows: &[
            Row {
                shows: "of two patterns that are the same the first is the match",
                asks: Walk,
                text: Whole(b"1a"),
                gives: &[(0, 0, 2)],
            },
            Row {
                shows: "two patterns that are the same both occur",
                asks: List,
                text: Whole(b"1a"),
                gives: &[(0, 0, 2), (1, 0, 2)],
            },
        ],
    },
    Table {
        patterns: &[b"0", b"1a"],
        kind: LeftmostFirst,
        letters: DIGITS,
        rows: &[Row {
            shows: "a pattern is kept out where only a pair makes the earlier one its beginning",
            asks: Walk,
            text: Whole(b"1a"),
            gives: &[(0, 0, 1)],
        }],
    },
    Table {
        patterns: &[b"0", b"1a"],
        kind: Standard,
        letters: OTHER,
        rows: &[
            Row {
                shows: "the one that ends first, by the byte itself",
                asks: Walk,
                text: Whole(b"z0az"),
                gives: &[(0, 1, 2)],
            },
            Row {
                shows: "the one that ends first, by its partner",
                asks: Walk,
                text: Whole(b"z1az"),
                gives: &[(0, 1, 2)],
            },
        ],
    },
    Table {
        patterns: &[b"0", b"1a"],
        kind: LeftmostFirst,
        letters: OTHER,
        rows: &[
            Row {
                shows: "the first in the list, by the byte itself",
                asks: Walk,
                text: Whole(b"z0az"),
                gives: &[(0, 1, 2)],
            },
            Row {
                shows: "the first in the list, by its partner",
                asks: Walk,
                text: Whole(b"z1az"),
                gives: &[(0, 1, 2)],
            },
        ],
    },
    Table {
        patterns: &[b"0", b"1a"],
        kind: LeftmostLongest,
        letters: OTHER,
        rows: &[
            Row {
                shows: "the longest, by the byte's partner",
                asks: Walk,
                text: Whole(b"z0az"),
                gives: &[(1, 1, 3)],
            },
            Row {
                shows: "the longest, by the byte itself",
                asks: Walk,
                text: Whole(b"z1az"),
                gives: &[(1, 1, 3)],
            },
        ],
    },
    Table {
        patterns: &[b"\xc9"],
        kind: Standard,
        letters: Paired(&[(0xc9, 0xe9)]),
        rows: &[Row {
            shows: "a byte beyond ASCII by its partner alone",
            asks: Walk,
            text: Whole(b"a\xe9"),
            gives: &[(0, 1, 2)],
        }],
    },
    Table {
        patterns: &[b"x\xc9y"],
        kind: Standard,
        letters: OTHER,
        rows: &[Row {
            shows: "a standard match with a byte's partner within",
            asks: Walk,
            text: Whole(b"x\xe9x\xe9y"),
            gives: &[(0, 2, 5)],
        }],
    },
    Table {
        patterns: &[b"x\xc9y"],
        kind: LeftmostFirst,
        letters: OTHER,
        rows: &[Row {
            shows: "a leftmost match with a byte's partner within",
            asks: Walk,
            text: Whole(b"x\xe9x\xe9y"),
            gives: &[(0, 2, 5)],
        }],
    },
    Table {
        patterns: &[b"x\xc9y"],
        kind: LeftmostLongest,
        letters: OTHER,
        rows: &[Row {
            shows: "a longest match with a byte's partner within",
            asks: Walk,
            text: Whole(b"x\xe9x\xe9y"),
            gives: &[(0, 2, 5)],
        }],
    },
    Table {
        patterns: &[b"1a\xe9", b"0"],
        kind: LeftmostFirst,
        letters: OTHER,
        rows: &[
            Row {
                shows: "each byte by its partner",
                asks: Walk,
                text: Whole(b"x0a\xc9"),
                gives: &[(0, 1, 4)],
            },
            Row {
                shows: "each byte by itself",
                asks: Walk,
                text: Whole(b"x1a\xe9"),
                gives: &[(0, 1, 4)],
            },
            Row {
                shows: "letters have no partner here",
                asks: Walk,
                text: Whole(b"x0A\xc9"),
                gives: &[(1, 1, 2)],
            },
            Row {
                shows: "other digits have none either",
                asks: Walk,
                text: Whole(b"x2a\xc9"),
                gives: &[],
            },
        ],
    },
];
