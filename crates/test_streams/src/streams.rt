//! What a search of a stream returns, and after how many reads; and what is an error before the first read.
//!
//! The matches are those of the whole text, whatever the pieces are. Each piece is searched before the next one is read: so a match
//! is given after the read that gave its last byte, and a test counts the reads at each match.
ghost use Rattle.std.specs.Prelude.{◌≡◌, false};

use crate::asserts::equal;
use crate::devices::{AMPLE, Given, Outcome, Sink, Source, Tally};
use ac_automaton::error::{MatchErrorKind, StreamError};
use ac_automaton::stream::overlapping::stream_find_overlapping_iter;
use ac_automaton::stream::{ItemSearch, StreamFindIter, StreamIter, StreamKinds, stream_find_iter};
use ac_automaton::watched::Watched;
use ac_input::search::{Match, MatchKind};
use ac_input::steps::Steps;
use ac_noncontiguous::Search;
use std::alloc::Global;
use std::io::{ErrorKind, Read};
use std::process::Abort;
use std::test::Fail;
use test_rows::engines::Letters::{Cased, Folded, Paired};
use test_rows::engines::{Asked, Case, FIRST, Letters, Pick, Trial, all, each, pick};

/// What a search of a stream returned, without the error itself.
pub fn picked(next: Option<Result<Match, StreamError>>) -> Result<Option<Pick>, Outcome> {
    match next {
        Some(Err(error)) => Err(Outcome::of(&Err(error))),
        Some(Ok(found)) => Ok(pick(Some(found))),
        None => Ok(None),
    }
}

/// The next item of a stream; or where that is asked, the next one that is held, and after the last of these the next one.
pub fn next_pick<S: ItemSearch + Drop, R: Read>(
    matches: &mut StreamIter<'_, S, R>,
    held: bool,
) -> Result<Option<Pick>, Outcome> {
    let mut steps = Steps::new();
    if held {
        let found = matches.next_held_counted(&mut steps);
        if found.is_some() {
            return Ok(pick(found));
        }
    }
    picked(matches.next())
}

/// Asserts that a stream is over: it returns the error of a failed read, if it fails, and then nothing for good.
pub fn is_over<T: Abort, A: Search, R: Read>(
    rt: &T,
    matches: &mut StreamFindIter<'_, A, R>,
    fails: bool,
    held: bool,
    shows: &str,
) {
    if fails {
        let failed = Err(Outcome::Read(ErrorKind::Interrupted));
        equal(rt, &next_pick(matches, held), &failed, shows);
    }
    equal(rt, &next_pick(matches, held), &Ok(None), shows);
    equal(rt, &next_pick(matches, held), &Ok(None), shows);
    equal(rt, &next_pick(matches, !held), &Ok(None), shows);
}

/// A text, by this many bytes a read, and its matches.
#[derive(Clone, Copy)]
pub struct Row<'a> {
    pub shows: &'static str,
    pub patterns: &'a [&'a [u8]],
    pub letters: Letters,
    /// The parts of the text, which follow one another.
    pub text: &'a [&'a [u8]],
    /// What comes after an empty read at the end of the text, if the reader is called again.
    pub after: &'static [u8],
    /// Whether there is a failed read in its place.
    pub fails: bool,
    pub most: &'static [usize],
    pub finds: &'a [Pick],
}

impl Row<'_> {
    /// Asserts what the automaton gives of it: the matches, each after the read that gave its last byte, then the error of a failed
    /// read, and nothing for good. There is one read more than the text needs.
    fn gives<T: Abort, A: Search>(
        &self,
        on: &Trial<'_, T, A>,
        text: &[u8],
        most: usize,
        held: bool,
    ) -> Result<(), Fail> {
        let rt = on.rt;
        let shows = self.shows;
        let given = Given::ended(text, self.after, self.fails);
        let tally = Tally::new();
        let mut reader = Watched::new(Source::new(given, most, &[], &tally));
        let mut matches = on.automaton.try_stream_find_iter(on.alloc, &mut reader)?;
        for want in self.finds {
            equal(rt, &next_pick(&mut matches, held), &Ok(Some(*want)), shows);
            let reads = want.2.div_ceil(most.max(1));
            equal(rt, &tally.reads.get(), &reads, shows);
        }
        is_over(rt, &mut matches, self.fails, held, shows);
        let reads = text.len().div_ceil(most.max(1)).saturating_add(1);
        equal(rt, &tally.reads.get(), &reads, shows);
        Ok(())
    }

    /// Asserts the same by so many bytes a read as the row says, also with the matches that are held.
    fn gives_each<T: Abort, A: Search>(
        &self,
        on: &Trial<'_, T, A>,
        text: &[u8],
    ) -> Result<(), Fail> {
        for most in self.most {
            self.gives(on, text, *most, false)?;
            self.gives(on, text, *most, true)?;
        }
        Ok(())
    }
}

impl<T: Abort> Case<T> for Row<'_> {
    fn asked(&self) -> Asked<'_> {
        Asked::of(self.patterns, MatchKind::Standard, self.letters)
    }

    fn check<A: Search>(&self, on: &Trial<'_, T, A>) -> Result<(), Fail> {
        if !on.searches() {
            return Ok(());
        }
        let text = self.text.concat(on.alloc)?;
        self.gives_each(on, &text)
    }
}

/// The matches that end in this many bytes.
fn ended_by(finds: &'static [Pick], len: usize) -> &'static [Pick] {
    let mut count: usize = 0;
    for found in finds {
        if found.2 <= len {
            count = count.saturating_add(1);
        }
    }
    finds.get(..count).unwrap_or(&[])
}

/// A stream whose read fails after a front of the text: of no bytes, of one, and so on. The matches that end in that front are given.
struct Stops(Row<'static>);

impl<T: Abort> Case<T> for Stops {
    fn asked(&self) -> Asked<'_> {
        Case::<T>::asked(&self.0)
    }

    fn check<A: Search>(&self, on: &Trial<'_, T, A>) -> Result<(), Fail> {
        if !on.searches() {
            return Ok(());
        }
        let text = self.0.text.concat(on.alloc)?;
        for len in 0..=text.len() {
            let front = text.as_slice().get(..len).ok_or("a front of the text")?;
            let row = Row {
                finds: ended_by(self.0.finds, len),
                ..self.0
            };
            row.gives_each(on, front)?;
        }
        Ok(())
    }
}

/// Pieces of a few bytes, and one that has all of a short text.
const SMALL: &[usize] = &[1, 2, 7, 100];

/// A run of bytes that begin no pattern.
const POINTS: &[u8] = &[b'.'; 198];

/// A reader that gives a text and ends, in pieces of a few bytes, and one that has all of it.
const PLAIN: Row<'static> = Row {
    shows: "",
    patterns: &[],
    letters: Cased,
    text: &[],
    after: b"",
    fails: false,
    most: SMALL,
    finds: &[],
};

const ROWS: &[Row<'static>] = &[
    Row {
        shows: "three words",
        patterns: &[b"fox", b"brown", b"quick"],
        text: &[b"The quick brown fox."],
        finds: &[(2, 4, 9), (1, 10, 15), (0, 16, 19)],
        ..PLAIN
    },
    Row {
        shows: "one match after another, none of which overlap",
        patterns: &[b"aa"],
        text: &[b"aaaaa"],
        finds: &[(0, 0, 2), (0, 2, 4)],
        ..PLAIN
    },
    Row {
        shows: "what ends first, where one pattern begins another",
        patterns: &[b"append", b"appendage", b"app"],
        text: &[b"append the app to the appendage"],
        finds: &[(2, 0, 3), (2, 11, 14), (2, 22, 25)],
        ..PLAIN
    },
    Row {
        shows: "what ends first, where one pattern is inside another",
        patterns: &[b"b", b"abc", b"abcd"],
        text: &[b"abcd"],
        finds: &[(0, 1, 2)],
        ..PLAIN
    },
    Row {
        shows: "the first of two equal patterns",
        patterns: &[b"a", b"a"],
        text: &[b"a"],
        finds: &[(0, 0, 1)],
        ..PLAIN
    },
    Row {
        shows: "a pattern that another begins",
        patterns: &[b"Samwise", b"Sam"],
        text: &[b"Samwise"],
        finds: &[(1, 0, 3)],
        ..PLAIN
    },
    Row {
        shows: "letters in both cases",
        patterns: &[b"FOO", b"bAr", b"BaZ"],
        letters: Folded,
        text: &[b"foo bar baz"],
        finds: &[(0, 0, 3), (1, 4, 7), (2, 8, 11)],
        ..PLAIN
    },
    Row {
        shows: "a byte that is no letter has one case",
        patterns: &[b"["],
        letters: Folded,
        text: &[b"{["],
        finds: &[(0, 1, 2)],
        ..PLAIN
    },
    Row {
        shows: "paired digits",
        patterns: &[b"0a"],
        letters: Paired(&[(b'0', b'1')]),
        text: &[b"1a0a"],
        finds: &[(0, 0, 2), (0, 2, 4)],
        ..PLAIN
    },
    Row {
        shows: "no patterns",
        text: &[b"ab"],
        ..PLAIN
    },
    Row {
        shows: "a long beginning that never comes to a match",
        patterns: &[b"aaaaaaaaaaaaaaaaaaaab"],
        text: &[&[b'a'; 1000]],
        ..PLAIN
    },
    Row {
        shows: "nothing but matches, each of which ends where a piece ends, or lies across its end",
        patterns: &[b"fox"],
        text: &[b"foxfoxfoxfox"],
        most: &[1, 2, 3, 4, 6, 12],
        finds: &[(0, 0, 3), (0, 3, 6), (0, 6, 9), (0, 9, 12)],
        ..PLAIN
    },
    Row {
        shows: "nothing but beginnings of a match",
        patterns: &[b"fox"],
        text: &[&[b'f'; 500]],
        most: &[1, 7, 500],
        ..PLAIN
    },
    Row {
        shows: "a match across the end of the buffer, which one read fills",
        patterns: &[b"fox"],
        text: &[&[b'-'; 65_534], b"fox"],
        most: &[65_536],
        finds: &[(0, 65_534, 65_537)],
        ..PLAIN
    },
];

/// Texts of four parts with many bytes between them, by pieces of one byte, of a few and of all.
const PARTED: Row<'static> = Row {
    most: &[1, 7, 1000],
    ..PLAIN
};

/// The greatest byte of all begins patterns.
const GREATEST: Row<'static> = Row {
    patterns: &[b"qx", b"\xFFx", b"\x00x"],
    text: &[
        b"\xFFx", POINTS, b"\xFFq", POINTS, b"qx\xFFx", POINTS, b"\xFFqx",
    ],
    finds: &[(1, 0, 2), (0, 400, 402), (1, 402, 404), (0, 603, 605)],
    ..PARTED
};

/// The least byte of all does, and the greatest.
const LEAST: Row<'static> = Row {
    text: &[
        b"\x00x",
        POINTS,
        b"\x00\xFF",
        POINTS,
        b"\xFFx\x00x",
        POINTS,
        b"\x00\xFFx",
    ],
    finds: &[(2, 0, 2), (1, 400, 402), (2, 402, 404), (1, 603, 605)],
    ..GREATEST
};

/// Their patterns, and one whose first byte no text has.
const OF_FOUR: &[&[u8]] = &[b"qx", b"\xFFx", b"\x00x", b"kx"];

/// Streams in which a search stands in the start most of the time. It passes over bytes that leave it there: one to three bytes lead
/// on, or too many to be looked for.
const STARTS: &[Row<'static>] = &[
    Row {
        shows: "one first byte",
        patterns: &[b"qx"],
        text: &[b"qx", POINTS, b"qq", POINTS, b"qxqx", POINTS, b"qqx"],
        finds: &[(0, 0, 2), (0, 400, 402), (0, 402, 404), (0, 603, 605)],
        ..PARTED
    },
    Row {
        shows: "two first bytes",
        patterns: &[b"qx", b"zx"],
        text: &[b"qx", POINTS, b"qz", POINTS, b"zxqx", POINTS, b"qzx"],
        finds: &[(0, 0, 2), (1, 400, 402), (0, 402, 404), (1, 603, 605)],
        ..PARTED
    },
    Row {
        shows: "three first bytes, the greatest of all and the first pattern's",
        ..GREATEST
    },
    Row {
        shows: "three first bytes, the least of all and the greatest",
        ..LEAST
    },
    Row {
        shows: "four first bytes, one of which no text has, the greatest of all and the first pattern's",
        patterns: OF_FOUR,
        ..GREATEST
    },
    Row {
        shows: "four first bytes, the least of all and the greatest",
        patterns: OF_FOUR,
        ..LEAST
    },
    Row {
        shows: "a letter in both cases and a digit: three first bytes",
        patterns: &[b"qX", b"7x"],
        letters: Folded,
        text: &[b"Qx", POINTS, b"Q7", POINTS, b"7XQx", POINTS, b"Q7X"],
        finds: &[(0, 0, 2), (1, 400, 402), (0, 402, 404), (1, 603, 605)],
        ..PARTED
    },
    Row {
        shows: "two letters in both cases: four first bytes",
        patterns: &[b"qX", b"Kx"],
        letters: Folded,
        text: &[b"qx", POINTS, b"qk", POINTS, b"kXqx", POINTS, b"qkX"],
        finds: &[(0, 0, 2), (1, 400, 402), (0, 402, 404), (1, 603, 605)],
        ..PARTED
    },
];

/// A buffer that is filled twice. Four bytes are kept each time, so that each read gives four.
const LONG: Row<'static> = Row {
    shows: "a match across the end of the buffer, and one where it is full again",
    patterns: &[b"lynx"],
    letters: Cased,
    text: &[&[b'-'; 65_534], b"lynx", &[b'-'; 65_528], b"lynx"],
    after: b"",
    fails: false,
    most: &[4],
    finds: &[(0, 65_534, 65_538), (0, 131_066, 131_070)],
};

/// One pattern, and a reader that ends.
const ENDS: Row<'static> = Row {
    patterns: &[b"fox"],
    ..PLAIN
};

/// The same pattern, and a reader that fails.
const FAILS: Row<'static> = Row {
    fails: true,
    ..ENDS
};

/// Readers that end or fail, and one whose reads give more than one match.
const SCRIPTED: &[Row<'static>] = &[
    Row {
        shows: "a read that fails after a match",
        text: &[b"The fox r"],
        after: b"uns",
        most: &[1, 9],
        finds: &[(0, 4, 7)],
        ..FAILS
    },
    Row {
        shows: "a read that fails next to a match",
        text: &[b"The fox"],
        after: b" ran",
        most: &[1, 7],
        finds: &[(0, 4, 7)],
        ..FAILS
    },
    Row {
        shows: "a read that fails within a match",
        text: &[b"The fo"],
        after: b"x ran",
        most: &[1, 2],
        ..FAILS
    },
    Row {
        shows: "a first read that fails",
        text: &[b""],
        after: b"fox",
        most: &[1],
        ..FAILS
    },
    Row {
        shows: "an empty read within a match ends the input",
        text: &[b"fo"],
        after: b"x",
        most: &[1, 2],
        ..ENDS
    },
    Row {
        shows: "an empty read between two matches ends the input",
        text: &[b"a fox"],
        after: b" fox",
        most: &[1, 2],
        finds: &[(0, 2, 5)],
        ..ENDS
    },
    Row {
        shows: "a second match that was read with the first is given before the next read",
        text: &[b"fox fox fox"],
        after: b"fox",
        most: &[7],
        finds: &[(0, 0, 3), (0, 4, 7), (0, 8, 11)],
        ..ENDS
    },
];

/// Texts whose reader fails at each place.
const STOPS: &[Stops] = &[
    Stops(Row {
        shows: "a read that fails before, within or after a match",
        text: &[b"The fox ran"],
        after: b"x",
        most: &[1, 2, 7],
        finds: &[(0, 4, 7)],
        ..FAILS
    }),
    Stops(Row {
        shows: "a read that fails about each of several matches",
        patterns: &[b"append", b"appendage", b"app"],
        text: &[b"append the app to the appendage"],
        after: b"p",
        most: &[1, 2, 7],
        finds: &[(2, 0, 3), (2, 11, 14), (2, 22, 25)],
        ..FAILS
    }),
];

#[test]
fn streams(rt: HostRuntime) -> Result<(), Fail> {
    all(&rt, rt.alloc(), ROWS)?;
    all(&rt, rt.alloc(), STARTS)?;
    all(&rt, rt.alloc(), SCRIPTED)?;
    all(&rt, rt.alloc(), STOPS)?;
    each(&rt, rt.alloc(), &LONG, FIRST)
}

/// What is sought in a stream: matches under standard, or under any kind, or occurrences.
#[derive(Clone, Copy)]
pub enum Sought {
    Matches,
    MatchesOfAnyKind,
    Occurrences,
}

/// Makes a search of a stream, and drops it.
fn try_stream<'a, A: Search, R: Read>(
    alloc: Global,
    automaton: &'a A,
    reader: &'a mut Watched<R>,
    sought: Sought,
) -> Result<(), StreamError>
    requires { reader.old.ended ≡ false }
{
    match sought {
        Sought::Matches => {
            automaton.try_stream_find_iter(alloc, reader)?;
        }
        Sought::MatchesOfAnyKind => {
            stream_find_iter(reader, automaton, StreamKinds::AnyKind, alloc)?;
        }
        Sought::Occurrences => {
            stream_find_overlapping_iter(reader, automaton, alloc)?;
        }
    }
    Ok(())
}

/// The result of a search of a stream that takes no match.
pub fn search_outcome<A: Search>(
    alloc: Global,
    automaton: &A,
    tally: &Tally,
    sought: Sought,
) -> Outcome {
    let mut reader = Watched::new(Source::new(Given::Whole(b"ab"), 1, &[], tally));
    Outcome::of(&try_stream(alloc, automaton, &mut reader, sought))
}

/// What replacement over a stream comes to, for two patterns.
fn replacement_outcome<A: Search>(
    alloc: Global,
    automaton: &A,
    tally: &Tally,
) -> Result<Outcome, Fail> {
    if automaton.patterns_len() != 2 {
        return Err("two patterns".into());
    }
    let mut reader = Watched::new(Source::new(Given::Whole(b"ab"), 1, &[], tally));
    let mut writer = Watched::new(Sink::new(alloc, AMPLE, tally)?);
    let answer = automaton.try_stream_replace_all(alloc, &mut reader, &mut writer, &[b"-", b"+"]);
    Ok(Outcome::of(&answer))
}

/// An automaton of two patterns that can't search a stream, and why. Where it has no start for a search that isn't anchored, that is
/// the reason, before any other.
struct Refused {
    shows: &'static str,
    patterns: [&'static [u8]; 2],
    kind: MatchKind,
    why: MatchErrorKind,
}

impl<T: Abort> Case<T> for Refused {
    fn asked(&self) -> Asked<'_> {
        Asked::of(&self.patterns, self.kind, Cased)
    }

    fn check<A: Search>(&self, on: &Trial<'_, T, A>) -> Result<(), Fail> {
        let (rt, shows) = (on.rt, self.shows);
        let want = Outcome::Config(on.refusal(self.why));
        let tally = Tally::new();
        let outcomes = (
            search_outcome(on.alloc, on.automaton, &tally, Sought::Matches),
            replacement_outcome(on.alloc, on.automaton, &tally)?,
        );
        equal(rt, &outcomes, &(want, want), shows);
        equal(rt, &(tally.reads.get(), tally.writes.get()), &(0, 0), shows);
        Ok(())
    }
}

const REFUSED: &[Refused] = &[
    Refused {
        shows: "a leftmost kind is refused before an empty pattern",
        patterns: [b"ab", b""],
        kind: MatchKind::LeftmostFirst,
        why: MatchErrorKind::UnsupportedStream {
            got: MatchKind::LeftmostFirst,
        },
    },
    Refused {
        shows: "the refusal names the kind",
        patterns: [b"ab", b"c"],
        kind: MatchKind::LeftmostLongest,
        why: MatchErrorKind::UnsupportedStream {
            got: MatchKind::LeftmostLongest,
        },
    },
    Refused {
        shows: "an empty pattern is refused under the standard kind",
        patterns: [b"ab", b""],
        kind: MatchKind::Standard,
        why: MatchErrorKind::UnsupportedEmpty,
    },
];

#[test]
fn refused_unread(rt: HostRuntime) -> Result<(), Fail> {
    all(&rt, rt.alloc(), REFUSED)
}
