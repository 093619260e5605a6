//! Automata of a few patterns, state by state: the order of the states, their transitions and their failure links.
use super::Leads::{All, Only};
use super::{Kept, PLAIN, State};
use test_rows::engines::Prefiltering::On;

const INSIDE: &[&[u8]] = &[b"b", b"abc", b"abcd"];

/// The state that nothing leads out of, and the one that stands for no state.
const DEAD: State = State(0, 0, 0, &[], All(0, &[]));

const FAIL: State = State(1, 0, 0, &[], Only(&[]));

pub const KEPT: &[Kept] = &[
    Kept {
        shows: "the order of the states: those that match (b, ab, abc, abcd), the starts, the rest (a)",
        patterns: INSIDE,
        bounds: [5, 5, 6, 7, 9],
        states: &[
            DEAD,
            FAIL,
            State(2, 1, 6, &[0], Only(&[])),
            State(3, 2, 2, &[0], Only(&[(b'c', 4)])),
            State(4, 3, 6, &[1], Only(&[(b'd', 5)])),
            State(5, 4, 6, &[2], Only(&[])),
            State(6, 0, 0, &[], All(6, &[(b'a', 8), (b'b', 2)])),
            State(7, 0, 0, &[], All(1, &[(b'a', 8), (b'b', 2)])),
            State(8, 1, 6, &[], Only(&[(b'b', 3)])),
        ],
        classes: (b"\x00`abcde\xff", &[0, 0, 1, 2, 3, 4, 5, 5]),
        ..PLAIN
    },
    Kept {
        shows: "each state fails to the longest suffix that begins a pattern (he, she, his, hers; h, s, sh, hi, her)",
        patterns: &[b"he", b"she", b"his", b"hers"],
        bounds: [5, 5, 6, 7, 13],
        states: &[
            State(2, 2, 6, &[0], Only(&[(b'r', 12)])),
            State(3, 3, 2, &[1, 0], Only(&[])),
            State(4, 3, 9, &[2], Only(&[])),
            State(5, 4, 9, &[3], Only(&[])),
            State(6, 0, 0, &[], All(6, &[(b'h', 8), (b's', 9)])),
            State(8, 1, 6, &[], Only(&[(b'e', 2), (b'i', 11)])),
            State(9, 1, 6, &[], Only(&[(b'h', 10)])),
            State(10, 2, 8, &[], Only(&[(b'e', 3)])),
            State(11, 2, 6, &[], Only(&[(b's', 4)])),
            State(12, 3, 6, &[], Only(&[(b's', 5)])),
        ],
        ..PLAIN
    },
    Kept {
        shows: "no patterns: no state matches",
        patterns: &[],
        prefilter: (On, false),
        bounds: [1, 1, 2, 3, 4],
        states: &[State(2, 0, 0, &[], All(2, &[]))],
        classes: (b"\x00\xff", &[0, 0]),
        ..PLAIN
    },
];
