//! Empty patterns, and no patterns.
use super::{Row, Table};
use ac_input::search::MatchKind::{LeftmostFirst, LeftmostLongest, Standard};
use test_rows::answers::Asks::{List, Walk};
use test_rows::answers::Text::{Bound, Part, Whole};
use test_rows::engines::Letters::Cased;

pub const TABLES: &[Table<'static>] = &[
    Table {
        patterns: &[b""],
        kind: Standard,
        letters: Cased,
        rows: &[
            Row {
                shows: "an empty pattern matches at each place, the end too",
                asks: Walk,
                text: Whole(b"ab"),
                gives: &[(0, 0, 0), (0, 1, 1), (0, 2, 2)],
            },
            Row {
                shows: "an empty pattern matches in an empty text",
                asks: Walk,
                text: Whole(b""),
                gives: &[(0, 0, 0)],
            },
            Row {
                shows: "an empty pattern occurs once in an empty text",
                asks: List,
                text: Whole(b""),
                gives: &[(0, 0, 0)],
            },
            Row {
                shows: "an empty pattern matches at the end",
                asks: Walk,
                text: Part(b"ab", 2, 2),
                gives: &[(0, 2, 2)],
            },
            Row {
                shows: "nothing matches after the end",
                asks: Walk,
                text: Part(b"ab", 3, 2),
                gives: &[],
            },
        ],
    },
    Table {
        patterns: &[b""],
        kind: LeftmostFirst,
        letters: Cased,
        rows: &[
            Row {
                shows: "a leftmost empty match at each place, the end too",
                asks: Walk,
                text: Whole(b"ab"),
                gives: &[(0, 0, 0), (0, 1, 1), (0, 2, 2)],
            },
            Row {
                shows: "a leftmost empty match at the end",
                asks: Walk,
                text: Part(b"ab", 2, 2),
                gives: &[(0, 2, 2)],
            },
            Row {
                shows: "no leftmost match after the end",
                asks: Walk,
                text: Part(b"ab", 3, 2),
                gives: &[],
            },
        ],
    },
    Table {
        patterns: &[b"", b"ab"],
        kind: Standard,
        letters: Cased,
        rows: &[
            Row {
                shows: "the empty pattern ends first at each place",
                asks: Walk,
                text: Whole(b"ab"),
                gives: &[(0, 0, 0), (0, 1, 1), (0, 2, 2)],
            },
            Row {
                shows: "an empty pattern occurs once at each place, by end and then by start",
                asks: List,
                text: Whole(b"ab"),
                gives: &[(0, 0, 0), (0, 1, 1), (1, 0, 2), (0, 2, 2)],
            },
            Row {
                shows: "nothing occurs after the end",
                asks: List,
                text: Part(b"ab", 3, 2),
                gives: &[],
            },
        ],
    },
    Table {
        patterns: &[b"", b"ab"],
        kind: LeftmostLongest,
        letters: Cased,
        rows: &[Row {
            shows: "the longest match, and no empty one where it ended",
            asks: Walk,
            text: Whole(b"ab"),
            gives: &[(1, 0, 2)],
        }],
    },
    Table {
        patterns: &[b"ab", b""],
        kind: LeftmostFirst,
        letters: Cased,
        rows: &[
            Row {
                shows: "no match is found twice: after an empty one the walk goes on one byte further",
                asks: Walk,
                text: Whole(b"aab"),
                gives: &[(1, 0, 0), (0, 1, 3)],
            },
            Row {
                shows: "an anchored walk goes on one byte further too",
                asks: Walk,
                text: Bound(b"xab"),
                gives: &[(1, 0, 0), (0, 1, 3)],
            },
        ],
    },
    Table {
        patterns: &[],
        kind: Standard,
        letters: Cased,
        rows: &[
            Row {
                shows: "no pattern matches nothing",
                asks: Walk,
                text: Whole(b"ab"),
                gives: &[],
            },
            Row {
                shows: "no pattern matches nothing in an empty text",
                asks: Walk,
                text: Whole(b""),
                gives: &[],
            },
            Row {
                shows: "no pattern occurs nowhere",
                asks: List,
                text: Whole(b"ab"),
                gives: &[],
            },
        ],
    },
    Table {
        patterns: &[],
        kind: LeftmostLongest,
        letters: Cased,
        rows: &[
            Row {
                shows: "no pattern is the longest",
                asks: Walk,
                text: Whole(b"ab"),
                gives: &[],
            },
            Row {
                shows: "nor in an empty text",
                asks: Walk,
                text: Whole(b""),
                gives: &[],
            },
        ],
    },
];
