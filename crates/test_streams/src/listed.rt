//! Streams of every occurrence: what is listed, by which read, and what is refused.
use crate::asserts::equal;
use crate::devices::{Given, Outcome, Source, Tally};
use crate::streams::{Sought, picked, search_outcome};
use ac_automaton::error::MatchErrorKind;
use ac_automaton::stream::overlapping::{StreamFindOverlappingIter, stream_find_overlapping_iter};
use ac_automaton::watched::Watched;
use ac_input::search::MatchKind;
use ac_input::search::MatchKind::{LeftmostFirst, LeftmostLongest, Standard};
use ac_input::steps::Steps;
use ac_noncontiguous::Search;
use std::io::{ErrorKind, Read};
use std::process::Abort;
use std::test::Fail;
use test_rows::engines::Letters::Cased;
use test_rows::engines::{Asked, Case, Pick, Trial, all, pick};
use test_rows::words::{APPEND, LISTED, SENTENCE};

/// The next occurrence, without a read if it is held.
fn next_listed<A: Search, R: Read>(
    listed: &mut StreamFindOverlappingIter<'_, A, R>,
) -> Result<Option<Pick>, Outcome> {
    let mut steps = Steps::new();
    let found = listed.next_held_counted(&mut steps);
    if found.is_some() {
        return Ok(pick(found));
    }
    picked(listed.next())
}

/// A text, and all occurrences in it.
#[derive(Clone, Copy)]
pub struct Listed<'a> {
    pub asked: Asked<'a>,
    pub text: &'a [u8],
    pub gives: &'a [Pick],
}

impl Listed<'_> {
    /// Asserts those of a front of the text, each after the read that gave its last byte, and then none for good. If the reader fails
    /// there, the error comes first.
    fn lists<T: Abort, A: Search>(
        &self,
        on: &Trial<'_, T, A>,
        len: usize,
        most: usize,
        fails: bool,
    ) -> Result<(), Fail> {
        let front = self.text.get(..len).ok_or("a front of the text")?;
        let given = Given::ended(front, b"x", fails);
        let rt = on.rt;
        let tally = Tally::new();
        let mut reader = Watched::new(Source::new(given, most, &[], &tally));
        let mut listed = stream_find_overlapping_iter(&mut reader, on.automaton, on.alloc)?;
        for want in self.gives {
            if want.2 > len {
                break;
            }
            equal(
                rt,
                &next_listed(&mut listed),
                &Ok(Some(*want)),
                "by the read that gave its last byte",
            );
            equal(
                rt,
                &tally.reads.get(),
                &want.2.div_ceil(most.max(1)),
                "by the read that gave its last byte",
            );
        }
        if fails {
            let failed = Err(Outcome::Read(ErrorKind::Interrupted));
            assert_eq!(rt; next_listed(&mut listed), failed);
        }
        assert_eq!(rt; next_listed(&mut listed), Ok(None));
        assert_eq!(rt; next_listed(&mut listed), Ok(None));
        Ok(())
    }
}

impl<T: Abort> Case<T> for Listed<'_> {
    fn asked(&self) -> Asked<'_> {
        self.asked
    }

    fn check<A: Search>(&self, on: &Trial<'_, T, A>) -> Result<(), Fail> {
        if !on.searches() {
            return Ok(());
        }
        for most in [1, 2, 3, 7, 100] {
            self.lists(on, self.text.len(), most, false)?;
        }
        for len in 0..=self.text.len() {
            self.lists(on, len, 2, true)?;
        }
        Ok(())
    }
}

const ROWS: &[Listed<'static>] = &[
    Listed {
        asked: Asked {
            patterns: APPEND,
            kind: Standard,
            letters: Cased,
        },
        text: SENTENCE,
        gives: LISTED,
    },
    Listed {
        asked: Asked {
            patterns: &[b"a", b"aa", b"a", b"ba"],
            kind: Standard,
            letters: Cased,
        },
        text: b"aaba",
        gives: &[
            (0, 0, 1),
            (2, 0, 1),
            (1, 0, 2),
            (0, 1, 2),
            (2, 1, 2),
            (3, 2, 4),
            (0, 3, 4),
            (2, 3, 4),
        ],
    },
];

/// An automaton that can't list a stream, and why.
struct Refused(MatchKind, &'static [&'static [u8]], MatchErrorKind);

impl<T: Abort> Case<T> for Refused {
    fn asked(&self) -> Asked<'_> {
        Asked::of(self.1, self.0, Cased)
    }

    fn check<A: Search>(&self, on: &Trial<'_, T, A>) -> Result<(), Fail> {
        let rt = on.rt;
        let tally = Tally::new();
        let outcome = search_outcome(on.alloc, on.automaton, &tally, Sought::Occurrences);
        assert_eq!(rt; outcome, Outcome::Config(on.refusal(self.2)));
        assert_eq!(rt; tally.reads.get(), 0);
        Ok(())
    }
}

const REFUSED: &[Refused] = &[
    Refused(
        LeftmostFirst,
        &[b"ab", b""],
        MatchErrorKind::UnsupportedOverlapping { got: LeftmostFirst },
    ),
    Refused(
        LeftmostLongest,
        &[b"ab"],
        MatchErrorKind::UnsupportedOverlapping {
            got: LeftmostLongest,
        },
    ),
    Refused(Standard, &[b"ab", b""], MatchErrorKind::UnsupportedEmpty),
];

#[test]
fn streams_of_every_occurrence(rt: HostRuntime) -> Result<(), Fail> {
    all(&rt, rt.alloc(), ROWS)?;
    all(&rt, rt.alloc(), REFUSED)
}
