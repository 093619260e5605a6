//! Words in sentences.
use super::{Row, Table};
use ac_input::search::MatchKind::{LeftmostFirst, LeftmostLongest, Standard};
use test_rows::answers::Asks::{List, Walk};
use test_rows::answers::Text::{Bound, Whole};
use test_rows::engines::Letters::{Cased, Folded};
use test_rows::words::{APPEND, LISTED, SENTENCE};

const APPLES: &[u8] = b"Nobody likes maple in their apple flavored Snapple.";

pub const TABLES: &[Table<'static>] = &[
    Table {
        patterns: &[b"foo", b"bar", b"quux", b"baz"],
        kind: Standard,
        letters: Cased,
        rows: &[
            Row {
                shows: "one of the words occurs",
                asks: Walk,
                text: Whole(b"xxx bar xxx"),
                gives: &[(1, 4, 7)],
            },
            Row {
                shows: "a part of a word is none",
                asks: Walk,
                text: Whole(b"xxx qux xxx"),
                gives: &[],
            },
        ],
    },
    Table {
        patterns: APPEND,
        kind: Standard,
        letters: Cased,
        rows: &[
            Row {
                shows: "the shortest of words that begin one another ends first",
                asks: Walk,
                text: Whole(SENTENCE),
                gives: &[(2, 0, 3), (2, 11, 14), (2, 22, 25)],
            },
            Row {
                shows: "all of the words that begin one another occur",
                asks: List,
                text: Whole(SENTENCE),
                gives: LISTED,
            },
            Row {
                shows: "anchored, those that begin the sentence occur",
                asks: List,
                text: Bound(SENTENCE),
                gives: &[(2, 0, 3), (0, 0, 6)],
            },
        ],
    },
    Table {
        patterns: APPEND,
        kind: LeftmostFirst,
        letters: Cased,
        rows: &[Row {
            shows: "of words that begin one another the first in the list",
            asks: Walk,
            text: Whole(SENTENCE),
            gives: &[(0, 0, 6), (2, 11, 14), (0, 22, 28)],
        }],
    },
    Table {
        patterns: APPEND,
        kind: LeftmostLongest,
        letters: Cased,
        rows: &[Row {
            shows: "of words that begin one another the longest",
            asks: Walk,
            text: Whole(SENTENCE),
            gives: &[(0, 0, 6), (2, 11, 14), (1, 22, 31)],
        }],
    },
    Table {
        patterns: &[b"apple", b"maple", b"Snapple"],
        kind: Standard,
        letters: Cased,
        rows: &[Row {
            shows: "words with a letter in upper case",
            asks: Walk,
            text: Whole(APPLES),
            gives: &[(1, 13, 18), (0, 28, 33), (2, 43, 50)],
        }],
    },
    Table {
        patterns: &[b"apple", b"maple", b"snapple"],
        kind: Standard,
        letters: Folded,
        rows: &[Row {
            shows: "the same words, whatever their case",
            asks: Walk,
            text: Whole(APPLES),
            gives: &[(1, 13, 18), (0, 28, 33), (2, 43, 50)],
        }],
    },
];
