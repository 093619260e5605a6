//! Which of several matches is taken, and what comes after it.
use super::{Row, Table};
use ac_input::search::MatchKind::{LeftmostFirst, LeftmostLongest, Standard};
use test_rows::answers::Asks::{List, Walk};
use test_rows::answers::Text::{Part, Whole};
use test_rows::engines::Letters::Cased;

const AFTER_THE_LONG_ONE: &[&[u8]] = &[b"z", b"abcdefghi", b"hz", b"abcdefgh"];

pub const TABLES: &[Table<'static>] = &[
    Table {
        patterns: &[b"a", b"a"],
        kind: Standard,
        letters: Cased,
        rows: &[
            Row {
                shows: "of equal patterns the first is the match",
                asks: Walk,
                text: Whole(b"a"),
                gives: &[(0, 0, 1)],
            },
            Row {
                shows: "equal patterns each occur",
                asks: List,
                text: Whole(b"a"),
                gives: &[(0, 0, 1), (1, 0, 1)],
            },
        ],
    },
    Table {
        patterns: &[b"aa"],
        kind: Standard,
        letters: Cased,
        rows: &[
            Row {
                shows: "the matches of a walk don't overlap",
                asks: Walk,
                text: Whole(b"aaaaa"),
                gives: &[(0, 0, 2), (0, 2, 4)],
            },
            Row {
                shows: "occurrences of one pattern overlap",
                asks: List,
                text: Whole(b"aaaaa"),
                gives: &[(0, 0, 2), (0, 1, 3), (0, 2, 4), (0, 3, 5)],
            },
        ],
    },
    Table {
        patterns: &[b"abcd", b"b", b"bce", b"ce"],
        kind: LeftmostFirst,
        letters: Cased,
        rows: &[Row {
            shows: "by start, then by number; what is left of a longer pattern is searched again",
            asks: Walk,
            text: Whole(b"abce"),
            gives: &[(1, 1, 2), (3, 2, 4)],
        }],
    },
    Table {
        patterns: AFTER_THE_LONG_ONE,
        kind: LeftmostFirst,
        letters: Cased,
        rows: &[Row {
            shows: "a longer pattern that starts in the match isn't taken",
            asks: Walk,
            text: Whole(b"abcdefghz"),
            gives: &[(3, 0, 8), (0, 8, 9)],
        }],
    },
    Table {
        patterns: AFTER_THE_LONG_ONE,
        kind: LeftmostLongest,
        letters: Cased,
        rows: &[Row {
            shows: "the longest of those that lie there, not of those that begin",
            asks: Walk,
            text: Whole(b"abcdefghz"),
            gives: &[(3, 0, 8), (0, 8, 9)],
        }],
    },
    Table {
        patterns: &[b"a", b"ab"],
        kind: LeftmostLongest,
        letters: Cased,
        rows: &[Row {
            shows: "each match is the longest where it starts",
            asks: Walk,
            text: Whole(b"xayabbbz"),
            gives: &[(0, 1, 2), (1, 3, 5)],
        }],
    },
    Table {
        patterns: &[b"a", b"ab"],
        kind: LeftmostFirst,
        letters: Cased,
        rows: &[Row {
            shows: "each match is the first in the list where it starts",
            asks: Walk,
            text: Whole(b"xayabbbz"),
            gives: &[(0, 1, 2), (0, 3, 4)],
        }],
    },
    Table {
        patterns: &[b"aZ", b"bcZ", b"cZ"],
        kind: Standard,
        letters: Cased,
        rows: &[
            Row {
                shows: "all occurrences, each some bytes before the rare byte that is looked for",
                asks: List,
                text: Whole(b"abccZ bcZ"),
                gives: &[(2, 3, 5), (1, 6, 9), (2, 7, 9)],
            },
            Row {
                shows: "one occurrence, which begins nearer to the rare byte than another pattern would",
                asks: List,
                text: Whole(b"aaaZ"),
                gives: &[(0, 2, 4)],
            },
            Row {
                shows: "an occurrence lies in the span, however far the rare byte stands from where a pattern begins",
                asks: List,
                text: Part(b"abcZ", 2, 4),
                gives: &[(2, 2, 4)],
            },
            Row {
                shows: "matches some bytes before the rare byte",
                asks: Walk,
                text: Whole(b"abccZ bcZ"),
                gives: &[(2, 3, 5), (1, 6, 9)],
            },
        ],
    },
    Table {
        patterns: &[b"ab", b"b"],
        kind: LeftmostFirst,
        letters: Cased,
        rows: &[
            Row {
                shows: "from the start of the text",
                asks: Walk,
                text: Part(b"abab", 0, 4),
                gives: &[(0, 0, 2), (0, 2, 4)],
            },
            Row {
                shows: "from within a match",
                asks: Walk,
                text: Part(b"abab", 1, 4),
                gives: &[(1, 1, 2), (0, 2, 4)],
            },
            Row {
                shows: "from where a match ended",
                asks: Walk,
                text: Part(b"abab", 2, 4),
                gives: &[(0, 2, 4)],
            },
            Row {
                shows: "a match that isn't whole in the span",
                asks: Walk,
                text: Part(b"abab", 2, 3),
                gives: &[],
            },
            Row {
                shows: "a span with no byte",
                asks: Walk,
                text: Part(b"abab", 4, 4),
                gives: &[],
            },
            Row {
                shows: "a text with none of the bytes",
                asks: Walk,
                text: Whole(b"xyz"),
                gives: &[],
            },
        ],
    },
];
