//! The cases of anchored searches, but for those that give what the others give.
use super::Vectors;
use ac_input::search::Anchored::Yes;
use ac_input::search::MatchKind::{LeftmostFirst, LeftmostLongest, Standard};
use test_rows::engines::Letters::Cased;

/// Matches that are the same for two kinds, or for each.
pub const KINDS: &[Vectors] = &[
    Vectors {
        kinds: &[Standard, LeftmostFirst, LeftmostLongest],
        lists: true,
        letters: Cased,
        searches: &[Yes],
        cases: &[
            (&[], &[(b"", &[])]),
            (&[b""], &[(b"", &[(0, 0, 0)])]),
            (&[b"abc", b"bc"], &[(b"zazabcz", &[])]),
            (&[b"foo", b"foofoo"], &[(b"foo", &[(0, 0, 3)])]),
            (&[b"foofoo", b"foo"], &[(b"foo", &[(1, 0, 3)])]),
            (&[b"abcd", b"bcd", b"cd"], &[(b"abcd", &[(0, 0, 4)])]),
            (&[b"bcd", b"cd", b"abcd"], &[(b"abcd", &[(2, 0, 4)])]),
        ],
    },
    Vectors {
        kinds: &[Standard, LeftmostFirst, LeftmostLongest],
        lists: false,
        letters: Cased,
        searches: &[Yes],
        cases: &[
            (
                &[b""],
                &[
                    (b"a", &[(0, 0, 0), (0, 1, 1)]),
                    (b"abc", &[(0, 0, 0), (0, 1, 1), (0, 2, 2), (0, 3, 3)]),
                ],
            ),
            (&[b"a"], &[(b"aa", &[(0, 0, 1), (0, 1, 2)])]),
            (
                &[b"a", b"b"],
                &[
                    (b"ab", &[(0, 0, 1), (1, 1, 2)]),
                    (b"ba", &[(1, 0, 1), (0, 1, 2)]),
                ],
            ),
            (&[b"foo", b"foo"], &[(b"foobarfoo", &[(0, 0, 3)])]),
        ],
    },
    Vectors {
        kinds: &[Standard, LeftmostLongest],
        lists: true,
        letters: Cased,
        searches: &[Yes],
        cases: &[(&[b"abcd", b"bcd", b"cd", b"b"], &[(b"abcd", &[(0, 0, 4)])])],
    },
];

/// Matches that are the same for both leftmost kinds.
pub const LEFTMOST: &[Vectors] = &[Vectors {
    kinds: &[LeftmostFirst, LeftmostLongest],
    lists: false,
    letters: Cased,
    searches: &[Yes],
    cases: &[
        (&[b"a", b"ab"], &[(b"xayabbbz", &[])]),
        (&[b"ab", b"a"], &[(b"xayabbbz", &[])]),
        (&[b"abcd", b"bce", b"b"], &[(b"abce", &[])]),
        (&[b"abcd", b"ce", b"bc"], &[(b"abce", &[])]),
        (&[b"abcd", b"b", b"bce"], &[(b"abce", &[])]),
        (&[b"abcdefg", b"bcde", b"bcdef"], &[(b"abcdef", &[])]),
        (&[b"abcdefg", b"bcdef", b"bcde"], &[(b"abcdef", &[])]),
        (&[b"abcd", b"bce", b"ce", b"b"], &[(b"abce", &[])]),
        (&[b"abcd", b"bce", b"cz", b"bc"], &[(b"abcz", &[])]),
        (
            &[b"z", b"abcdefghi", b"hz", b"abcdefgh"],
            &[(b"abcdefghz", &[(3, 0, 8), (0, 8, 9)])],
        ),
    ],
}];

/// Matches of one kind.
pub const ONE_KIND: &[Vectors] = &[
    Vectors {
        kinds: &[LeftmostFirst],
        lists: false,
        letters: Cased,
        searches: &[Yes],
        cases: &[
            (&[b"a", b"abab"], &[(b"abab", &[(0, 0, 1)])]),
            (&[b"abcd", b"b", b"bce", b"ce"], &[(b"abce", &[])]),
            (
                &[b"a", b"abcdefghi", b"hz", b"abcdefgh"],
                &[(b"abcdefghz", &[(0, 0, 1)])],
            ),
        ],
    },
    Vectors {
        kinds: &[LeftmostLongest],
        lists: false,
        letters: Cased,
        searches: &[Yes],
        cases: &[(&[b"abcd", b"b", b"ce"], &[(b"abce", &[])])],
    },
];

/// All occurrences.
pub const OCCURRENCES: &[Vectors] = &[Vectors {
    kinds: &[],
    lists: true,
    letters: Cased,
    searches: &[Yes],
    cases: &[
        (&[b""], &[(b"a", &[(0, 0, 0)]), (b"abc", &[(0, 0, 0)])]),
        (&[b"a"], &[(b"aa", &[(0, 0, 1)])]),
        (&[b"", b""], &[(b"a", &[(0, 0, 0), (1, 0, 0)])]),
        (
            &[b"a", b"b"],
            &[(b"ab", &[(0, 0, 1)]), (b"ba", &[(1, 0, 1)])],
        ),
        (&[b"", b"a"], &[(b"a", &[(0, 0, 0), (1, 0, 1)])]),
        (&[b"ab", b"ba"], &[(b"abababa", &[(0, 0, 2)])]),
        (
            &[b"foo", b"foo"],
            &[(b"foobarfoo", &[(0, 0, 3), (1, 0, 3)])],
        ),
        (
            &[b"foo", b"foofoo"],
            &[(b"foofoo", &[(0, 0, 3), (1, 0, 6)])],
        ),
        (
            &[b"", b"a", b""],
            &[(b"a", &[(0, 0, 0), (2, 0, 0), (1, 0, 1)])],
        ),
        (
            &[b"a", b"", b""],
            &[(b"a", &[(1, 0, 0), (2, 0, 0), (0, 0, 1)])],
        ),
        (
            &[b"", b"", b"a"],
            &[(b"a", &[(0, 0, 0), (1, 0, 0), (2, 0, 1)])],
        ),
        (&[b"bcd", b"abcd", b"cd"], &[(b"abcd", &[(1, 0, 4)])]),
        (&[b"bcd", b"cd", b"b", b"abcd"], &[(b"abcd", &[(3, 0, 4)])]),
    ],
}];
