//! A pattern inside another, and one that begins another.
use super::{Row, Table};
use ac_input::search::MatchKind::{LeftmostFirst, LeftmostLongest, Standard};
use test_rows::answers::Asks::{List, Walk};
use test_rows::answers::Text::{Bound, BoundEarliest, BoundPart, Earliest, Part, Whole};
use test_rows::engines::Letters::Cased;

const INSIDE: &[&[u8]] = &[b"b", b"abc", b"abcd"];

pub const TABLES: &[Table<'static>] = &[
    Table {
        patterns: INSIDE,
        kind: Standard,
        letters: Cased,
        rows: &[
            Row {
                shows: "the standard match is the one that ends first",
                asks: Walk,
                text: Whole(b"abcd"),
                gives: &[(0, 1, 2)],
            },
            Row {
                shows: "an earliest search is no other for the standard kind",
                asks: Walk,
                text: Earliest(b"abcd"),
                gives: &[(0, 1, 2)],
            },
            Row {
                shows: "a walk goes on where the match ended",
                asks: Walk,
                text: Whole(b"abcdb"),
                gives: &[(0, 1, 2), (0, 4, 5)],
            },
            Row {
                shows: "a match after other bytes",
                asks: Walk,
                text: Whole(b"xxabcd"),
                gives: &[(0, 3, 4)],
            },
            Row {
                shows: "an earliest match after other bytes",
                asks: Walk,
                text: Earliest(b"xxabcd"),
                gives: &[(0, 3, 4)],
            },
            Row {
                shows: "anchored, the inner pattern starts too late",
                asks: Walk,
                text: Bound(b"abcd"),
                gives: &[(1, 0, 3)],
            },
            Row {
                shows: "all occurrences, in the order of their ends",
                asks: List,
                text: Whole(b"abcd"),
                gives: &[(0, 1, 2), (1, 0, 3), (2, 0, 4)],
            },
            Row {
                shows: "all occurrences after other bytes, and between them",
                asks: List,
                text: Whole(b"xxabcdxxxbx"),
                gives: &[(0, 3, 4), (1, 2, 5), (2, 2, 6), (0, 9, 10)],
            },
            Row {
                shows: "an occurrence lies within the span",
                asks: List,
                text: Part(b"xxabcdxxxbx", 3, 9),
                gives: &[(0, 3, 4)],
            },
            Row {
                shows: "beginnings of patterns are no occurrences",
                asks: List,
                text: Whole(b"xxaxac"),
                gives: &[],
            },
            Row {
                shows: "a span that starts after its end has no occurrence",
                asks: List,
                text: Part(b"b", 1, 0),
                gives: &[],
            },
            Row {
                shows: "anchored, the occurrences that start where the span does",
                asks: List,
                text: BoundPart(b"babcd", 1, 5),
                gives: &[(1, 1, 4), (2, 1, 5)],
            },
        ],
    },
    Table {
        patterns: INSIDE,
        kind: LeftmostFirst,
        letters: Cased,
        rows: &[
            Row {
                shows: "of those that start first the one with the least number",
                asks: Walk,
                text: Whole(b"abcd"),
                gives: &[(1, 0, 3)],
            },
            Row {
                shows: "the earliest match is the standard one",
                asks: Walk,
                text: Earliest(b"abcd"),
                gives: &[(0, 1, 2)],
            },
            Row {
                shows: "a leftmost match after other bytes",
                asks: Walk,
                text: Whole(b"xxabcd"),
                gives: &[(1, 2, 5)],
            },
            Row {
                shows: "an earliest match after other bytes",
                asks: Walk,
                text: Earliest(b"xxabcd"),
                gives: &[(0, 3, 4)],
            },
            Row {
                shows: "a word further on is found where the search isn't anchored",
                asks: Walk,
                text: Whole(b"foo abcd"),
                gives: &[(1, 4, 7)],
            },
            Row {
                shows: "a word further on isn't found where it is",
                asks: Walk,
                text: Bound(b"foo abcd"),
                gives: &[],
            },
            Row {
                shows: "an anchored match starts where the span does",
                asks: Walk,
                text: BoundPart(b"foo abcd", 4, 8),
                gives: &[(1, 4, 7)],
            },
            Row {
                shows: "an anchored match starts where the text does",
                asks: Walk,
                text: Bound(b"abcd"),
                gives: &[(1, 0, 3)],
            },
            Row {
                shows: "the earliest of the anchored matches",
                asks: Walk,
                text: BoundEarliest(b"abcd"),
                gives: &[(1, 0, 3)],
            },
        ],
    },
    Table {
        patterns: INSIDE,
        kind: LeftmostLongest,
        letters: Cased,
        rows: &[
            Row {
                shows: "of those that start first the longest",
                asks: Walk,
                text: Whole(b"abcd"),
                gives: &[(2, 0, 4)],
            },
            Row {
                shows: "the earliest match is the standard one",
                asks: Walk,
                text: Earliest(b"abcd"),
                gives: &[(0, 1, 2)],
            },
            Row {
                shows: "a longest match after other bytes",
                asks: Walk,
                text: Whole(b"xxabcd"),
                gives: &[(2, 2, 6)],
            },
            Row {
                shows: "an earliest match after other bytes",
                asks: Walk,
                text: Earliest(b"xxabcd"),
                gives: &[(0, 3, 4)],
            },
            Row {
                shows: "the earliest of the anchored matches is not the longest",
                asks: Walk,
                text: BoundEarliest(b"abcd"),
                gives: &[(1, 0, 3)],
            },
        ],
    },
    Table {
        patterns: &[b"abcd", b"bc"],
        kind: LeftmostFirst,
        letters: Cased,
        rows: &[
            Row {
                shows: "an anchored search doesn't go on to a suffix",
                asks: Walk,
                text: Bound(b"abcx"),
                gives: &[],
            },
            Row {
                shows: "an anchored search finds what starts there",
                asks: Walk,
                text: Bound(b"abcd"),
                gives: &[(0, 0, 4)],
            },
            Row {
                shows: "a search that isn't anchored goes on to a suffix",
                asks: Walk,
                text: Whole(b"abcx"),
                gives: &[(1, 1, 3)],
            },
        ],
    },
    Table {
        patterns: &[b"foo", b"bar", b"quux"],
        kind: LeftmostFirst,
        letters: Cased,
        rows: &[Row {
            shows: "each anchored match starts where the one before it ended",
            asks: Walk,
            text: Bound(b"fooquuxbar foo"),
            gives: &[(0, 0, 3), (2, 3, 7), (1, 7, 10)],
        }],
    },
    Table {
        patterns: &[b"Sam", b"Samwise"],
        kind: LeftmostFirst,
        letters: Cased,
        rows: &[Row {
            shows: "a pattern that begins a later one keeps it from matching",
            asks: Walk,
            text: Whole(b"Samwise"),
            gives: &[(0, 0, 3)],
        }],
    },
    Table {
        patterns: &[b"Samwise", b"Sam"],
        kind: LeftmostFirst,
        letters: Cased,
        rows: &[Row {
            shows: "the longer pattern comes first in the list, and so it is taken",
            asks: Walk,
            text: Whole(b"Samwise"),
            gives: &[(0, 0, 7)],
        }],
    },
    Table {
        patterns: &[b"Samwise", b"Sam"],
        kind: Standard,
        letters: Cased,
        rows: &[Row {
            shows: "the shorter pattern ends first",
            asks: Walk,
            text: Whole(b"Samwise"),
            gives: &[(1, 0, 3)],
        }],
    },
];
