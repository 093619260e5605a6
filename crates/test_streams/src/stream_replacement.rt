//! What replacement over a stream writes, and when; and what it writes where a read or a write fails.
//!
//! All that is decided is written before each read: where nothing of what was read may still begin a match that is all of it, and
//! else what is kept back is not longer than the longest pattern. So where a read or a write fails, one of several fronts of the text
//! was written, and a row names them.
ghost use Rattle.std.specs.Prelude.{◌≡◌, false};

use crate::asserts::equal;
use crate::devices::{AMPLE, Given, Outcome, Room, Sink, Source, Tally};
use ac_automaton::error::{MatchErrorKind, StreamError};
use ac_automaton::watched::{Watched, write_whole};
use ac_input::search::Match;
use ac_input::search::MatchKind::Standard;
use ac_noncontiguous::Search;
use std::alloc::Global;
use std::io::{ErrorKind, Read, Write};
use std::process::Abort;
use std::test::Fail;
use test_rows::engines::Letters::{Cased, Folded, Paired};
use test_rows::engines::{Asked, Case, FIRST, Letters, Trial, all, each};

/// How many bytes a read returns at most, and how many reads there are then: at most this many if a write or a closure fails.
#[derive(Clone, Copy)]
struct By {
    most: usize,
    reads: usize,
}

/// How a closure fails: at a match of this pattern it writes this, and then returns this error.
#[derive(Clone, Copy)]
pub struct Fault {
    at: usize,
    after: &'static [u8],
    outcome: Outcome,
}

/// No fault.
const NONE: Fault = Fault {
    at: 0,
    after: b"",
    outcome: Outcome::Done,
};

/// A stream in which each match is replaced, by a list, and by a closure that writes the same: what the call comes to, and what was
/// written.
#[derive(Clone, Copy)]
struct Row {
    shows: &'static str,
    patterns: &'static [&'static [u8]],
    replacements: &'static [&'static [u8]],
    letters: Letters,
    given: Given<'static>,
    by: &'static [By],
    /// How much must have been written before each read.
    due: &'static [usize],
    room: Room,
    /// How the closure fails, if it is to show that.
    closure_fails: Option<Fault>,
    outcome: Outcome,
    /// One of these was written.
    written: &'static [&'static [u8]],
}

/// Whether the text is one of these.
fn is_among(text: &[u8], those: &[&[u8]]) -> bool {
    those.iter().any(|it| *it == text)
}

/// Writes the replacement of each match's pattern by a closure, which may fail.
pub fn write_by_closure<A: Search, R: Read, W: Write>(
    automaton: &A,
    alloc: Global,
    reader: &mut Watched<R>,
    writer: &mut Watched<W>,
    replacements: &[&[u8]],
    fails: Option<Fault>,
) -> Result<(), StreamError>
    requires { reader.old.ended ≡ false }
{
    let Fault { at, after, outcome } = fails.unwrap_or(NONE);
    automaton.try_stream_replace_all_with(
        alloc,
        reader,
        writer,
        |found: &Match, _matched: &[u8], writer: &mut Watched<W>| -> Result<(), StreamError> {
            let number = found.pattern().as_usize();
            match outcome.error() {
                Some(error) if number == at => {
                    write_whole(writer, after)?;
                    Err(error)
                }
                _ => write_whole(
                    writer,
                    replacements.get(number).ok_or(StreamError::Position)?,
                ),
            }
        },
    )
}

impl Row {
    /// Replaces the input, at most this many bytes a read, for a writer that has this room: the result, and what was written.
    fn replaces<A: Search>(
        &self,
        alloc: Global,
        automaton: &A,
        most: usize,
        room: Room,
        by_closure: bool,
        tally: &Tally,
    ) -> Result<(Outcome, Vec<u8>), Fail> {
        if automaton.patterns_len() != self.replacements.len() {
            return Err("a replacement for each pattern".into());
        }
        let list = self.replacements;
        let mut reader = Watched::new(Source::new(self.given, most, self.due, tally));
        let mut writer = Watched::new(Sink::new(alloc, room, tally)?);
        let answer = if by_closure {
            write_by_closure(
                automaton,
                alloc,
                &mut reader,
                &mut writer,
                list,
                self.closure_fails,
            )
        } else {
            automaton.try_stream_replace_all(alloc, &mut reader, &mut writer, list)
        };
        Ok((Outcome::of(&answer), writer.into_inner().taken))
    }

    /// Asserts what the row says, by this many bytes a read, where the writer has this room, and one of these was written.
    fn writes<T: Abort, A: Search>(
        &self,
        on: &Trial<'_, T, A>,
        by: By,
        room: Room,
        written: &[&[u8]],
    ) -> Result<(), Fail> {
        let (rt, alloc, automaton) = (on.rt, on.alloc, on.automaton);
        let ways: &[bool] = if self.closure_fails.is_some() {
            &[true]
        } else {
            &[false, true]
        };
        for by_closure in ways {
            let tally = Tally::new();
            let (outcome, taken) = self.replaces(
                alloc,
                automaton,
                by.most,
                room,
                *by_closure,
                &tally,
            )?;
            let mut reads = tally.reads.get();
            let last = outcome == Outcome::Done || outcome == FAILED_READ;
            if !last {
                reads = reads.max(by.reads);
            }
            equal(rt, &(outcome, reads), &(self.outcome, by.reads), self.shows);
            equal(rt, &is_among(&taken, written), &true, self.shows);
            let buffer = automaton.max_pattern_len().saturating_mul(8).max(65_536);
            let asked = (tally.widest.get(), tally.flushes.get());
            equal(rt, &asked, &(buffer, 0), self.shows);
        }
        Ok(())
    }
}

impl<T: Abort> Case<T> for Row {
    fn asked(&self) -> Asked<'_> {
        Asked::of(self.patterns, Standard, self.letters)
    }

    fn check<A: Search>(&self, on: &Trial<'_, T, A>) -> Result<(), Fail> {
        if !on.searches() {
            return Ok(());
        }
        for by in self.by {
            self.writes(on, *by, self.room, self.written)?;
        }
        Ok(())
    }
}

/// What a failed read comes to.
const FAILED_READ: Outcome = Outcome::Read(ErrorKind::Interrupted);

/// Reads and writes that all succeed.
const DONE: Row = Row {
    shows: "",
    patterns: &[],
    replacements: &[],
    letters: Cased,
    given: Given::Whole(b""),
    by: &[],
    due: &[],
    room: AMPLE,
    closure_fails: None,
    outcome: Outcome::Done,
    written: &[],
};

/// A fox, which a sloth replaces.
const SLOTH: Row = Row {
    patterns: &[b"fox"],
    replacements: &[b"sloth"],
    ..DONE
};

/// Three words in a text of twenty bytes, by one, two and seven bytes a read.
const FOX: Row = Row {
    patterns: &[b"fox", b"brown", b"quick"],
    replacements: &[b"0", b"1", b"2"],
    given: Given::Whole(b"The quick brown fox."),
    by: &[
        By { most: 1, reads: 21 },
        By { most: 2, reads: 11 },
        By { most: 7, reads: 4 },
    ],
    ..DONE
};

const ROWS: &[Row] = &[
    Row {
        shows: "three words",
        replacements: &[b"sloth", b"grey", b"slow"],
        written: &[b"The slow grey sloth."],
        ..FOX
    },
    Row {
        shows: "each byte that is a pattern",
        patterns: &[b"o"],
        replacements: &[b"O"],
        given: Given::Whole(b"foo"),
        by: &[By { most: 2, reads: 3 }],
        written: &[b"fOO"],
        ..DONE
    },
    Row {
        shows: "no patterns: nothing is kept back",
        given: Given::Whole(b"ab"),
        by: &[By { most: 1, reads: 3 }],
        due: &[0, 1, 2],
        written: &[b"ab"],
        ..DONE
    },
    Row {
        shows: "each line is written before the next is read, however long the longest pattern is",
        patterns: &[b"xxxxxxxxxxxxxxxxxxxxxxxxxxxxxxxxxxxxxxxxxxxxxxxxxxxxxxxxxxxx"],
        replacements: &[b"y"],
        letters: Cased,
        given: Given::Whole(b"one 1\ntwo 2\nsix 6\n"),
        by: &[By { most: 6, reads: 4 }],
        due: &[0, 6, 12, 18],
        room: AMPLE,
        closure_fails: None,
        outcome: Outcome::Done,
        written: &[b"one 1\ntwo 2\nsix 6\n"],
    },
    Row {
        shows: "letters in both cases",
        patterns: &[b"FOO"],
        replacements: &[b"x"],
        letters: Folded,
        given: Given::Whole(b"foo Foo"),
        by: &[By { most: 1, reads: 8 }, By { most: 7, reads: 2 }],
        written: &[b"x x"],
        ..DONE
    },
    Row {
        shows: "paired digits",
        patterns: &[b"0a"],
        replacements: &[b"x"],
        letters: Paired(&[(b'0', b'1')]),
        given: Given::Whole(b"1a0a"),
        by: &[By { most: 1, reads: 5 }, By { most: 3, reads: 3 }],
        written: &[b"xx"],
        ..DONE
    },
    Row {
        shows: "all is written before the next read, but for what may still begin a match",
        given: Given::Whole(b"a foxes"),
        by: &[By { most: 1, reads: 8 }],
        due: &[0, 1, 2, 2, 2, 7, 8, 9],
        written: &[b"a slothes"],
        ..SLOTH
    },
    Row {
        shows: "each of three words is written before the next read, and of the rest no more than five bytes are kept back",
        replacements: &[b"sloth", b"grey", b"slow"],
        by: &[By { most: 1, reads: 21 }],
        due: &[
            0, 0, 0, 0, 0, 0, 1, 2, 3, 8, 8, 8, 8, 8, 8, 13, 13, 13, 13, 19, 19,
        ],
        written: &[b"The slow grey sloth."],
        ..FOX
    },
    Row {
        shows: "an empty read within a match ends the input",
        given: Given::Pauses(b"fo", b"x"),
        by: &[By { most: 1, reads: 3 }, By { most: 2, reads: 2 }],
        written: &[b"fo"],
        ..SLOTH
    },
    Row {
        shows: "an empty read after a match ends the input",
        given: Given::Pauses(b"The fox", b" ran"),
        by: &[By { most: 1, reads: 8 }, By { most: 7, reads: 2 }],
        written: &[b"The sloth"],
        ..SLOTH
    },
    Row {
        shows: "a read fails after a match and two bytes more",
        given: Given::Fails(b"The fox r", b"uns"),
        by: &[By { most: 1, reads: 10 }, By { most: 4, reads: 4 }],
        outcome: FAILED_READ,
        written: &[b"The sloth r"],
        ..SLOTH
    },
    Row {
        shows: "a read fails within a match",
        given: Given::Fails(b"The fo", b"x ran"),
        by: &[By { most: 1, reads: 7 }, By { most: 7, reads: 2 }],
        outcome: FAILED_READ,
        written: &[b"The", b"The "],
        ..SLOTH
    },
    Row {
        shows: "a read fails next to a match",
        given: Given::Fails(b"The fox", b" ran"),
        by: &[By { most: 1, reads: 8 }, By { most: 2, reads: 5 }],
        outcome: FAILED_READ,
        written: &[b"The sloth"],
        ..SLOTH
    },
    Row {
        shows: "the first read fails",
        given: Given::Fails(b"", b"The fox ran"),
        by: &[By { most: 1, reads: 1 }],
        outcome: FAILED_READ,
        written: &[b""],
        ..SLOTH
    },
    Row {
        shows: "a writer that takes one byte a call",
        given: Given::Whole(b"The fox ran"),
        by: &[By { most: 1, reads: 12 }, By { most: 7, reads: 3 }],
        room: Room {
            bytes: 13,
            most: 1,
            fails: false,
        },
        written: &[b"The sloth ran"],
        ..SLOTH
    },
    Row {
        shows: "a write fails within what replaces a match, after one read of all",
        given: Given::Whole(b"The fox"),
        by: &[By { most: 20, reads: 2 }],
        room: Room {
            bytes: 5,
            most: 20,
            fails: true,
        },
        outcome: Outcome::Write(ErrorKind::Interrupted),
        written: &[b"The s"],
        ..SLOTH
    },
    Row {
        shows: "a write takes none within what replaces a match, after one read of all",
        given: Given::Whole(b"The fox"),
        by: &[By { most: 20, reads: 2 }],
        room: Room {
            bytes: 5,
            most: 20,
            fails: false,
        },
        outcome: Outcome::WriteZero,
        written: &[b"The s"],
        ..SLOTH
    },
    Row {
        shows: "the number of each pattern",
        written: &[b"The 2 1 0."],
        ..FOX
    },
    Row {
        shows: "a closure's error at the first match is returned unchanged, and what comes before the match was written",
        closure_fails: Some(Fault {
            at: 2,
            outcome: Outcome::Memory,
            ..NONE
        }),
        outcome: Outcome::Memory,
        written: &[b"The "],
        ..FOX
    },
    Row {
        shows: "a closure's error at the second match, of a kind that a writer's would have",
        closure_fails: Some(Fault {
            at: 1,
            outcome: Outcome::WriteZero,
            ..NONE
        }),
        outcome: Outcome::WriteZero,
        written: &[b"The 2 "],
        ..FOX
    },
    Row {
        shows: "a closure's error at the last match, as if the search were refused",
        closure_fails: Some(Fault {
            at: 0,
            outcome: Outcome::Config(MatchErrorKind::UnsupportedEmpty),
            ..NONE
        }),
        outcome: Outcome::Config(MatchErrorKind::UnsupportedEmpty),
        written: &[b"The 2 1 "],
        ..FOX
    },
    Row {
        shows: "a closure that writes a part and then returns an error, as if a read had failed",
        closure_fails: Some(Fault {
            at: 1,
            after: b"gr",
            outcome: Outcome::Read(ErrorKind::NotFound),
        }),
        outcome: Outcome::Read(ErrorKind::NotFound),
        written: &[b"The 2 gr"],
        ..FOX
    },
    Row {
        shows: "a closure that writes a part of the last match, as if a write had failed",
        closure_fails: Some(Fault {
            at: 0,
            after: b"slo",
            outcome: Outcome::Write(ErrorKind::BrokenPipe),
        }),
        outcome: Outcome::Write(ErrorKind::BrokenPipe),
        written: &[b"The 2 1 slo"],
        ..FOX
    },
];

/// Long streams.
const LONG: &[Row] = &[
    Row {
        shows: "100,000 matches, byte by byte",
        patterns: &[b"ab"],
        replacements: &[b"c"],
        given: Given::Repeated(b"ab", 100_000),
        by: &[By {
            most: 1,
            reads: 200_001,
        }],
        written: &[&[b'c'; 100_000]],
        ..DONE
    },
    Row {
        shows: "a buffer for 72,000 bytes: the second read is for the one byte that is left free, then what is held is moved",
        patterns: &[&[b'a'; 9_000]],
        replacements: &[b"-"],
        given: Given::Whole(&[b'a'; 90_000]),
        by: &[By {
            most: 71_999,
            reads: 4,
        }],
        written: &[b"----------"],
        ..DONE
    },
    Row {
        shows: "reads of one byte less than the buffer, of all of it and of one byte more, with a match across its end",
        patterns: &[b"aaaaaaa"],
        replacements: &[b"-"],
        given: Given::Whole(&[b'a'; 65_541]),
        by: &[
            By {
                most: 65_535,
                reads: 4,
            },
            By {
                most: 65_536,
                reads: 3,
            },
            By {
                most: 65_537,
                reads: 3,
            },
        ],
        written: &[&[b'-'; 9_363]],
        ..DONE
    },
    Row {
        shows: "a buffer that the longest pattern fills eight times",
        patterns: &[&[b'a'; 8_192]],
        replacements: &[b"-"],
        given: Given::Whole(&[b'a'; 73_728]),
        by: &[
            By {
                most: 65_535,
                reads: 4,
            },
            By {
                most: 65_536,
                reads: 3,
            },
        ],
        written: &[b"---------"],
        ..DONE
    },
];

/// A stream whose read fails after a front of the text: of no bytes, of one, and so on. One of the texts of that front was written.
struct Stops {
    row: Row,
    written: &'static [&'static [&'static [u8]]],
}

impl<T: Abort> Case<T> for Stops {
    fn asked(&self) -> Asked<'_> {
        Case::<T>::asked(&self.row)
    }

    fn check<A: Search>(&self, on: &Trial<'_, T, A>) -> Result<(), Fail> {
        if !on.searches() {
            return Ok(());
        }
        for (len, written) in self.written.iter().enumerate() {
            stops_there(on, &self.row, len, written)?;
        }
        Ok(())
    }
}

/// Asserts what was written when the read after this many bytes fails, by one, two and seven bytes a read.
fn stops_there<T: Abort, A: Search>(
    on: &Trial<'_, T, A>,
    row: &Row,
    len: usize,
    written: &[&[u8]],
) -> Result<(), Fail> {
    let Given::Whole(text) = row.given else {
        return Err("a whole text".into());
    };
    let front = text.get(..len).ok_or("a front of the text")?;
    let given = Given::Fails(front, text.get(len..).unwrap_or(b""));
    let stopped = Row { given, ..*row };
    for most in [1, 2, 7] {
        let reads = len.div_ceil(most.max(1)).saturating_add(1);
        let by = By { most, reads };
        stopped.writes(on, by, AMPLE, written)?;
    }
    Ok(())
}

/// A fox, by all fronts of a text. Of what may begin a fox, or is one, all bytes may have been written or none, or a part.
const STOPS: &[Stops] = &[Stops {
    row: Row {
        shows: "a read that fails after a front of the text",
        given: Given::Whole(b"The fox ran"),
        outcome: FAILED_READ,
        ..SLOTH
    },
    written: &[
        &[b""],
        &[b"T"],
        &[b"Th"],
        &[b"The"],
        &[b"The "],
        &[b"Th", b"The", b"The ", b"The f"],
        &[b"The", b"The ", b"The f", b"The fo"],
        &[b"The sloth"],
        &[b"The sloth "],
        &[b"The sloth r"],
        &[b"The sloth ra"],
    ],
}];

/// A stream that is replaced for a writer which has room for a front of the text alone: of no bytes, of one, and so on. That front is
/// written. By this many bytes a read there are so many reads at most for each front.
struct Fronts {
    row: Row,
    most: usize,
    reads: &'static [usize],
}

impl<T: Abort> Case<T> for Fronts {
    fn asked(&self) -> Asked<'_> {
        Case::<T>::asked(&self.row)
    }

    fn check<A: Search>(&self, on: &Trial<'_, T, A>) -> Result<(), Fail> {
        if !on.searches() {
            return Ok(());
        }
        let whole = self.row.written.first().ok_or("a text")?;
        let most = self.most;
        for (bytes, reads) in self.reads.iter().enumerate() {
            let front = whole.get(..bytes).ok_or("a front of the text")?;
            let room = Room {
                bytes,
                ..self.row.room
            };
            let by = By {
                most,
                reads: *reads,
            };
            self.row.writes(on, by, room, &[front])?;
        }
        Ok(())
    }
}

/// All is written before the next read but for what may begin a fox, and what replaces a match once the match was read.
const BY_ONE: &[usize] = &[1, 2, 3, 4, 7, 7, 7, 7, 7, 8, 9, 10, 11];

/// The same by two bytes a read, and by seven.
const BY_TWO: &[usize] = &[1, 1, 2, 2, 4, 4, 4, 4, 4, 4, 5, 5, 6];

const BY_SEVEN: &[usize] = &[1, 1, 1, 1, 1, 1, 1, 1, 1, 2, 2, 2, 2];

/// A writer that has room for a front of the text, and then takes none.
const TAKES_NONE: Row = Row {
    shows: "a writer that has room for a front of the text, and then takes none",
    given: Given::Whole(b"The fox ran"),
    outcome: Outcome::WriteZero,
    written: &[b"The sloth ran"],
    ..SLOTH
};

/// A writer that has room for a front of the text, and then fails.
const FAILS: Row = Row {
    shows: "a writer that has room for a front of the text, and then fails",
    room: Room {
        bytes: 0,
        most: 20,
        fails: true,
    },
    outcome: Outcome::Write(ErrorKind::Interrupted),
    ..TAKES_NONE
};

const FRONTS: &[Fronts] = &[
    Fronts {
        row: TAKES_NONE,
        most: 1,
        reads: BY_ONE,
    },
    Fronts {
        row: TAKES_NONE,
        most: 2,
        reads: BY_TWO,
    },
    Fronts {
        row: TAKES_NONE,
        most: 7,
        reads: BY_SEVEN,
    },
    Fronts {
        row: FAILS,
        most: 1,
        reads: BY_ONE,
    },
    Fronts {
        row: FAILS,
        most: 2,
        reads: BY_TWO,
    },
    Fronts {
        row: FAILS,
        most: 7,
        reads: BY_SEVEN,
    },
];

#[test]
fn written(rt: HostRuntime) -> Result<(), Fail> {
    all(&rt, rt.alloc(), ROWS)?;
    for row in LONG {
        each(&rt, rt.alloc(), row, FIRST)?;
    }
    all(&rt, rt.alloc(), STOPS)?;
    all(&rt, rt.alloc(), FRONTS)
}
