//! Bytes: sets and classes of them, cases of letters, and pairings.
ghost use Rattle.std.specs.Prelude.{◌≤◌};

use crate::asserts::{equal, same};
use ac_input::alphabet::{ByteClassSet, ByteClasses, ByteSet, opposite_ascii_case};
use ac_input::pairing::{Pairing, PairingError};
use std::process::Abort;

/// Letters at the ends of their ranges with their other cases, and bytes beside them, which have none.
const CASES: [(u8, u8); 7] = [
    (0x61, 0x41),
    (0x5a, 0x7a),
    (0x5b, 0x5b),
    (0x60, 0x60),
    (0x40, 0x40),
    (0x7b, 0x7b),
    (0xe1, 0xe1),
];

/// The classes in which these bytes have one of their own.
fn classes_around(first: u8, last: u8) -> ByteClasses
    requires { first ≤ last }
{
    let mut set = ByteClassSet::empty();
    set.set_range(first, last);
    set.byte_classes()
}

/// Whether the bytes of a class are those of a range.
fn is_range(classes: &ByteClasses, class: u8, range: (u8, u8)) -> bool {
    let (first, last) = range;
    classes.element_ranges(class).next() == Some(range)
        && classes.element_ranges(class).last() == Some(range)
        && classes.elements(class).next() == Some(first)
        && classes.elements(class).last() == Some(last)
        && classes.get(first) == class
        && classes.get(last) == class
}

/// Asserts how many classes there are, their stride and its exponent, and that they are these ranges of bytes.
fn are<T: Abort>(rt: &T, classes: &ByteClasses, sizes: [usize; 3], want: &[(u8, u8)]) {
    let found = [classes.alphabet_len(), classes.stride(), classes.stride2()];
    same(rt, &found, &sizes, "how many classes there are");
    for (class, range) in classes.iter().zip(want) {
        assert!(rt; is_range(classes, class, *range), "of {class}");
    }
}

#[test]
fn sets_and_classes(rt: HostRuntime) {
    let one = classes_around(0x61, 0x61);
    are(
        &rt,
        &one,
        [3, 4, 2],
        &[(0, 0x60), (0x61, 0x61), (0x62, 0xff)],
    );
    let few = classes_around(0x61, 0x63);
    are(
        &rt,
        &few,
        [3, 4, 2],
        &[(0, 0x60), (0x61, 0x63), (0x64, 0xff)],
    );
    let none = ByteClassSet::default().byte_classes();
    are(&rt, &none, [1, 1, 0], &[(0, 0xff)]);
    let each = ByteClasses::singletons();
    let mut set = ByteSet::empty();
    set.add(0);
    set.add(0x61);
    set.add(0x61);
    set.add(0xff);
    let facts = [
        set.len() == 3,
        set.contains(0),
        !set.contains(0x60),
        set.contains(0x61),
        !set.contains(0x62),
        set.contains(0xff),
        each.alphabet_len() == 256,
        each.stride() == 256,
        each.stride2() == 8,
        each.get(0) == 0,
        each.get(0x61) == 0x61,
        each.get(0xff) == 0xff,
        few.elements(3).next() == None,
        few.element_ranges(3).next() == None,
    ];
    same(&rt, &facts, &[true; 14], "sets and classes");
}

/// Asserts that these bytes are partners, or that one has none where it stands beside itself.
fn pairs<T: Abort>(rt: &T, pairing: &Pairing, want: &[(u8, u8)]) {
    for (byte, partner) in want {
        let found = (pairing.other(*partner), pairing.other(*byte));
        equal(rt, &found, &(*byte, *partner), "partners");
    }
}

/// Asserts it of the pairing that names these pairs.
fn named<T: Abort>(rt: &T, names: &[(u8, u8)], want: &[(u8, u8)]) {
    let pairing = Pairing::new(names).expect(rt, "no byte is named twice");
    pairs(rt, &pairing, want);
}

/// The byte that is named twice, if there is one.
fn twice(names: &[(u8, u8)]) -> Option<PairingError> {
    Pairing::new(names).err()
}

#[test]
fn pairings(rt: HostRuntime) {
    let none = Pairing::none();
    let ascii = Pairing::ascii();
    pairs(&rt, &ascii, &CASES);
    pairs(&rt, &none, &[(0, 0), (0x61, 0x61), (0xff, 0xff)]);
    named(&rt, &[(0x30, 0x31)], &[(0x30, 0x31), (0x32, 0x32)]);
    named(
        &rt,
        &[(255, 0), (0x30, 0x31)],
        &[(0, 255), (0x31, 0x30), (1, 1)],
    );
    for (byte, other) in CASES {
        equal(&rt, &opposite_ascii_case(byte), &other, "the other case");
    }
    let facts = [
        none.is_none(),
        !ascii.is_none(),
        ascii != none,
        Pairing::new(&[]).ok() == Some(none),
        twice(&[(1, 2), (3, 1)]) == Some(PairingError::Twice(1)),
        twice(&[(1, 2), (2, 1)]) == Some(PairingError::Twice(2)),
        twice(&[(7, 7)]) == Some(PairingError::Twice(7)),
        twice(&[(0x30, 0x31)]) == None,
    ];
    same(&rt, &facts, &[true; 8], "pairings");
}
