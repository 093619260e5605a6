//! The states of automata to which bytes are the same, and the classes of bytes.
use super::Leads::{All, Only};
use super::{Kept, PLAIN, State};
use ac_input::search::MatchKind::LeftmostFirst;
use test_rows::engines::Letters::{Folded, Paired};

pub const KEPT: &[Kept] = &[
    Kept {
        shows: "both cases of a letter lead to one state, in the order of the bytes (b, ab, bc)",
        patterns: &[b"aB", b"bC", b"B"],
        letters: Folded,
        bounds: [4, 4, 5, 6, 8],
        states: &[
            State(2, 1, 5, &[2], Only(&[(b'C', 4), (b'c', 4)])),
            State(3, 2, 2, &[0, 2], Only(&[])),
            State(4, 2, 5, &[1], Only(&[])),
            State(
                5,
                0,
                0,
                &[],
                All(5, &[(b'A', 7), (b'B', 2), (b'a', 7), (b'b', 2)]),
            ),
            State(7, 1, 5, &[], Only(&[(b'B', 3), (b'b', 3)])),
        ],
        classes: (b"@ACD`ac\xff", &[0, 1, 3, 4, 4, 5, 7, 8]),
        ..PLAIN
    },
    Kept {
        shows: "a pattern is also kept out by one that begins it in another case, and equal ones share a state",
        patterns: &[b"abc", b"ab", b"abd", b"AB", b"x", b"xy"],
        kind: LeftmostFirst,
        letters: Folded,
        bounds: [4, 4, 5, 6, 8],
        states: &[
            State(2, 1, 0, &[4], Only(&[])),
            State(3, 2, 0, &[1, 3], Only(&[(b'C', 4), (b'c', 4)])),
            State(4, 3, 0, &[0], Only(&[])),
        ],
        ..PLAIN
    },
    Kept {
        shows: "both bytes of a pair lead to one state",
        patterns: &[b"0a", b"1a"],
        letters: Paired(&[(0x30, 0x31)]),
        bounds: [2, 2, 3, 4, 6],
        states: &[
            State(2, 2, 3, &[0, 1], Only(&[])),
            State(3, 0, 0, &[], All(3, &[(0x30, 5), (0x31, 5)])),
            State(4, 0, 0, &[], All(1, &[(0x30, 5), (0x31, 5)])),
            State(5, 1, 3, &[], Only(&[(b'a', 2)])),
        ],
        classes: (b"/012a", &[0, 1, 2, 3, 4]),
        ..PLAIN
    },
    Kept {
        shows: "bytes of no pattern share a class with their neighbours",
        patterns: &[b"b", b"d"],
        bounds: [3, 3, 4, 5, 6],
        classes: (b"\x00abcd\xff", &[0, 0, 1, 2, 3, 4]),
        ..PLAIN
    },
];
