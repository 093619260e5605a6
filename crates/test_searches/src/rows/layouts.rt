//! What the tables hold: the words of the contiguous NFA, and the rows of the DFA.
use crate::asserts::{equal, same};
use crate::owned::shape_of;
use ac_input::search::StartKind::{self, Anchored, Both, Unanchored};
use ac_noncontiguous::NFA;
use ac_tables::{contiguous, dfa};
use std::alloc::Global;
use std::process::Abort;
use std::test::Fail;

const INSIDE: &[&[u8]] = &[b"b", b"abc", b"abcd"];

/// How deep a state is dense, at most; whether bytes have classes; and how many words there are.
struct Words {
    shows: &'static str,
    dense_depth: usize,
    byte_classes: bool,
    words: usize,
}

const WORDS: &[Words] = &[
    Words {
        shows: "five dense states of 8 words, one match, and 5, 5 and 3 words",
        dense_depth: 2,
        byte_classes: true,
        words: 54,
    },
    Words {
        shows: "the dead state and the starts alone are dense: they have more than 127 transitions",
        dense_depth: 0,
        byte_classes: true,
        words: 43,
    },
    Words {
        shows: "five dense states of 258 words",
        dense_depth: 2,
        byte_classes: false,
        words: 1304,
    },
];

/// How many words the contiguous NFA has, made of patterns and made of the noncontiguous one.
fn words_of(alloc: Global, row: &Words, from: &NFA) -> Result<[usize; 2], Fail> {
    let mut builder = contiguous::builder::Builder::new();
    builder
        .dense_depth(row.dense_depth)
        .byte_classes(row.byte_classes);
    let made = shape_of(builder.build_from_noncontiguous(alloc, from))?;
    Ok([shape_of(builder.build(alloc, INSIDE))?, made])
}

/// Which starts the DFA has; whether bytes have classes; how many states there are, their stride, and how many transitions.
struct Rows {
    shows: &'static str,
    starts: StartKind,
    byte_classes: bool,
    sizes: [usize; 3],
}

const ROWS: &[Rows] = &[
    Rows {
        shows: "as many states as the noncontiguous NFA has, of six classes each",
        starts: Unanchored,
        byte_classes: true,
        sizes: [9, 8, 72],
    },
    Rows {
        shows: "as many where all searches are anchored",
        starts: Anchored,
        byte_classes: true,
        sizes: [9, 8, 72],
    },
    Rows {
        shows: "twice as many but four with both starts",
        starts: Both,
        byte_classes: true,
        sizes: [14, 8, 112],
    },
    Rows {
        shows: "each byte a class",
        starts: Unanchored,
        byte_classes: false,
        sizes: [9, 256, 2304],
    },
];

/// The sizes and the starts of the DFA, made of patterns and made of the noncontiguous one.
fn rows_of(alloc: Global, row: &Rows, from: &NFA) -> Result<[([usize; 3], StartKind); 2], Fail> {
    let mut builder = dfa::builder::Builder::new();
    builder
        .start_kind(row.starts)
        .byte_classes(row.byte_classes);
    let made = shape_of(builder.build_from_noncontiguous(alloc, from))?;
    Ok([shape_of(builder.build(alloc, INSIDE))?, made])
}

/// Patterns of which `a` has transitions by the classes 1, 2 and 5, and no match.
const THREE_CLASSES: &[&[u8]] = &[b"aa", b"ab", b"ae", b"c", b"d"];

/// The classes 1, 2 and 5 in one word, the last of them twice: the bytes 01 02 05 05, the first in the lowest bits.
const CLASSES: u32 = 84214273;

/// How many transitions stand two words before the word of the three classes, and in how many places that is.
fn packed_classes(words: &[u32]) -> (Option<u32>, usize) {
    let at = words.iter().position(|word| *word == CLASSES);
    let kind = at.and_then(|at| words.get(at.checked_sub(2)?));
    let times = words.iter().filter(|word| **word == CLASSES).count();
    (kind.map(|kind| *kind & 255), times)
}

/// Asserts that the word of the three classes stands in one place, two words after the number of the transitions.
fn classes_are_packed<T: Abort>(rt: &T, alloc: Global) -> Result<(), Fail> {
    let nfa = contiguous::builder::Builder::new()
        .dense_depth(1)
        .build(alloc, THREE_CLASSES)?;
    let found = packed_classes(nfa.words());
    equal(rt, &found, &(Some(3), 1), "the word of the three classes");
    Ok(())
}

/// Asserts what the rows say of tables that are made of patterns, and of this automaton.
fn tables_hold<T: Abort>(rt: &T, alloc: Global, from: &NFA) -> Result<(), Fail> {
    for row in WORDS {
        let words = words_of(alloc, row, from)?;
        same(rt, &words, &[row.words; 2], row.shows);
    }
    for row in ROWS {
        let shapes = rows_of(alloc, row, from)?;
        same(rt, &shapes, &[(row.sizes, row.starts); 2], row.shows);
    }
    Ok(())
}

#[test]
fn what_tables_hold(rt: HostRuntime) -> Result<(), Fail> {
    tables_hold(&rt, rt.alloc(), &NFA::new(rt.alloc(), INSIDE)?)?;
    classes_are_packed(&rt, rt.alloc())
}
