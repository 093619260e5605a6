//! Streams under any kind: what is found, by how many bytes, and what is written before each read.
//!
//! Under a leftmost kind a match is given after the first byte with which nothing is live any more that began no later, or at the end
//! of the input. All these texts are cut at many places, and end in a failed read at each of them.
use crate::asserts::{equal, same};
use crate::devices::{AMPLE, Given, Outcome, Room, Sink, Source, Tally};
use crate::streams::{Sought, is_over, next_pick, search_outcome};
use ac_automaton::error::MatchErrorKind;
use ac_automaton::stream::StreamKinds::AnyKind;
use ac_automaton::stream::{StreamReplacer, StreamSearch, stream_find_iter};
use ac_automaton::watched::Watched;
use ac_input::search::MatchKind;
use ac_input::search::MatchKind::{LeftmostFirst, LeftmostLongest, Standard};
use ac_input::steps::Steps;
use ac_noncontiguous::Search;
use std::alloc::Global;
use std::io::{ErrorKind, Write};
use std::process::Abort;
use std::test::Fail;
use test_rows::engines::Letters::{Cased, Folded};
use test_rows::engines::{Asked, Case, FEW, FIRST, Letters, Pick, Trial, all, each, pick};
use test_rows::words::{APPEND, SENTENCE};

/// A place that comes after all bytes: a match with it is decided by the end of the input alone.
const END: usize = usize::MAX;

/// A text under a kind, and its matches, each with the number of bytes that decide it.
#[derive(Clone, Copy)]
struct Row<'a> {
    shows: &'static str,
    patterns: &'a [&'a [u8]],
    kind: MatchKind,
    letters: Letters,
    text: &'a [u8],
    finds: &'a [(Pick, usize)],
}

impl Row<'_> {
    /// Asserts the matches, each after the read that gave the byte which decides it, and then none for good. If the reader fails where
    /// the text ends, they are those that the text decides, and then comes the error.
    fn gives<T: Abort, A: Search>(
        &self,
        on: &Trial<'_, T, A>,
        given: Given<'_>,
        most: usize,
    ) -> Result<(), Fail> {
        let (rt, shows) = (on.rt, self.shows);
        let text = given.bytes();
        let fails = matches!(given, Given::Fails(..));
        let tally = Tally::new();
        let mut reader = Watched::new(Source::new(given, most, &[], &tally));
        let mut matches = stream_find_iter(&mut reader, on.automaton, AnyKind, on.alloc)?;
        let all = text.len().div_ceil(most.max(1)).saturating_add(1);
        for (want, decided) in self.finds {
            if *decided > text.len() && fails {
                break;
            }
            equal(
                rt,
                &next_pick(&mut matches, most == 2),
                &Ok(Some(*want)),
                shows,
            );
            let reads = decided.div_ceil(most.max(1)).min(all);
            equal(rt, &tally.reads.get(), &reads, shows);
        }
        is_over(rt, &mut matches, fails, false, shows);
        equal(rt, &tally.reads.get(), &all, shows);
        Ok(())
    }

    /// Asserts them for a reader that fails after each front of the text.
    fn stops<T: Abort, A: Search>(&self, on: &Trial<'_, T, A>) -> Result<(), Fail> {
        for len in 0..=self.text.len() {
            let front = self.text.get(..len).ok_or("a front of the text")?;
            self.gives(on, Given::Fails(front, b"x"), 1)?;
            self.gives(on, Given::Fails(front, b"x"), 3)?;
        }
        Ok(())
    }

    /// Asserts the matches of a text that is pushed, each once the piece is pushed that decides it, and the others once it is
    /// finished.
    fn pushes<T: Abort, A: Search>(&self, on: &Trial<'_, T, A>, most: usize) -> Result<(), Fail> {
        let (rt, shows) = (on.rt, self.shows);
        let mut search = StreamSearch::any_kind(on.automaton, on.alloc)?;
        let mut steps = Steps::new();
        let mut pushed = 0;
        for piece in self.text.chunks(most.max(1)) {
            let taken = push(&mut search, piece)?;
            equal(rt, &taken, &piece.len(), shows);
            let all = taken.saturating_add(pushed);
            for (want, decided) in self.finds {
                if pushed < *decided && *decided <= all {
                    equal(
                        rt,
                        &pick(search.next_counted(&mut steps)),
                        &Some(*want),
                        shows,
                    );
                }
            }
            equal(rt, &search.next_counted(&mut steps), &None, shows);
            pushed = all;
        }
        search.finish();
        for (want, decided) in self.finds {
            if *decided == END {
                equal(
                    rt,
                    &pick(search.next_counted(&mut steps)),
                    &Some(*want),
                    shows,
                );
            }
        }
        equal(rt, &search.next_counted(&mut steps), &None, shows);
        Ok(())
    }
}

/// How many bytes of a piece a search takes that isn't finished.
pub fn push<A: Search>(search: &mut StreamSearch<A>, piece: &[u8]) -> Result<usize, Fail> {
    if search.is_closed() {
        return Err(Fail::from("the search is finished"));
    }
    Ok(search.push_counted(piece, &mut Steps::new())?)
}

impl<T: Abort> Case<T> for Row<'_> {
    fn asked(&self) -> Asked<'_> {
        Asked::of(self.patterns, self.kind, self.letters)
    }

    fn check<A: Search>(&self, on: &Trial<'_, T, A>) -> Result<(), Fail> {
        if !on.searches() {
            return Ok(());
        }
        for most in [1, 2, 3, 4, 5, 7, 100] {
            self.gives(on, Given::Pauses(self.text, b"x"), most)?;
            self.pushes(on, most)?;
        }
        self.stops(on)
    }
}

/// One pattern inside another, and one that goes on.
const INSIDE: Row<'static> = Row {
    shows: "one pattern inside another, and one that goes on",
    patterns: &[b"b", b"abc", b"abcd"],
    kind: LeftmostLongest,
    letters: Cased,
    text: b"abcd",
    finds: &[((2, 0, 4), END)],
};

/// What ends first is no match where a longer one failed.
const BACK: Row<'static> = Row {
    shows: "the search goes on from the end of the match, not from where it was decided",
    patterns: &[b"z", b"abcdefghi", b"hz", b"abcdefgh"],
    kind: LeftmostLongest,
    letters: Cased,
    text: b"abcdefghz",
    finds: &[((3, 0, 8), 9), ((0, 8, 9), END)],
};

/// One pattern begins another, which begins a third.
const WORDS: Row<'static> = Row {
    shows: "the longest of three patterns, one of which begins another",
    patterns: APPEND,
    kind: LeftmostLongest,
    letters: Cased,
    text: SENTENCE,
    finds: &[((0, 0, 6), 7), ((2, 11, 14), 15), ((1, 22, 31), END)],
};

const ROWS: &[Row<'static>] = &[
    INSIDE,
    Row {
        text: b"abcx",
        finds: &[((1, 0, 3), 4)],
        ..INSIDE
    },
    Row {
        text: b"ab",
        finds: &[((0, 1, 2), END)],
        ..INSIDE
    },
    Row {
        text: b"abcabcd",
        finds: &[((1, 0, 3), 4), ((2, 3, 7), END)],
        ..INSIDE
    },
    Row {
        kind: LeftmostFirst,
        finds: &[((1, 0, 3), 4)],
        ..INSIDE
    },
    Row {
        kind: LeftmostFirst,
        text: b"abcx",
        finds: &[((1, 0, 3), 4)],
        ..INSIDE
    },
    Row {
        kind: LeftmostFirst,
        text: b"ab",
        finds: &[((0, 1, 2), END)],
        ..INSIDE
    },
    Row {
        kind: LeftmostFirst,
        text: b"abcabcd",
        finds: &[((1, 0, 3), 4), ((1, 3, 6), 7)],
        ..INSIDE
    },
    BACK,
    Row {
        kind: LeftmostFirst,
        ..BACK
    },
    WORDS,
    Row {
        shows: "the first of three patterns, which begins another",
        kind: LeftmostFirst,
        finds: &[((0, 0, 6), 7), ((2, 11, 14), 15), ((0, 22, 28), 29)],
        ..WORDS
    },
    Row {
        shows: "under standard, what ends first",
        kind: Standard,
        finds: &[((2, 0, 3), 3), ((2, 11, 14), 14), ((2, 22, 25), 25)],
        ..WORDS
    },
    Row {
        shows: "a word that begins another, in both cases",
        patterns: &[b"pass", b"PASSWORD"],
        letters: Folded,
        text: b"Pass passwords PASSW",
        finds: &[((0, 0, 4), 5), ((1, 5, 13), 14), ((0, 15, 19), END)],
        ..INSIDE
    },
    Row {
        shows: "nothing but a beginning",
        patterns: &[b"appendage"],
        text: b"append",
        finds: &[],
        ..INSIDE
    },
    Row {
        shows: "no patterns",
        patterns: &[],
        text: b"ab",
        finds: &[],
        ..INSIDE
    },
    Row {
        shows: "no bytes",
        text: b"",
        finds: &[],
        ..INSIDE
    },
];

/// A thousand times the same letter, which is a pattern; another pattern begins with twenty of them. Each match is decided by the
/// twenty-first letter from its start on, and the last twenty by the end of the input.
fn many<T: Abort>(rt: &T, alloc: Global) -> Result<(), Fail> {
    let mut finds = Vec::new(alloc);
    for at in 0..1000 {
        let decided = if at < 980 { at + 21 } else { END };
        finds.push(((0, at, at + 1), decided))?;
    }
    let row = Thousand(&finds);
    each(rt, alloc, &row, FEW)
}

const A_AND_TWENTY: &[&[u8]] = &[b"a", b"aaaaaaaaaaaaaaaaaaaab"];

/// The matches of a thousand letters.
#[derive(Clone, Copy)]
struct Thousand<'a>(&'a [(Pick, usize)]);

impl<T: Abort> Case<T> for Thousand<'_> {
    fn asked(&self) -> Asked<'_> {
        Asked::of(A_AND_TWENTY, LeftmostLongest, Cased)
    }

    fn check<A: Search>(&self, on: &Trial<'_, T, A>) -> Result<(), Fail> {
        let row = Row {
            shows: "a match for each letter, though twenty of them begin a longer pattern",
            finds: self.0,
            ..INSIDE
        };
        for most in [1, 7, 1000] {
            row.gives(on, Given::Pauses(&[b'a'; 1000], b"x"), most)?;
        }
        Ok(())
    }
}

/// Asserts the matches of a text, by this many bytes a read.
pub fn are_found<T: Abort, A: Search>(
    on: &Trial<'_, T, A>,
    text: &[u8],
    most: usize,
    finds: &[Pick],
) -> Result<(), Fail> {
    let rt = on.rt;
    let tally = Tally::new();
    let mut reader = Watched::new(Source::new(Given::Whole(text), most, &[], &tally));
    let mut matches = stream_find_iter(&mut reader, on.automaton, AnyKind, on.alloc)?;
    for want in finds {
        assert_eq!(rt; next_pick(&mut matches, false), Ok(Some(*want)));
    }
    assert_eq!(rt; next_pick(&mut matches, false), Ok(None));
    Ok(())
}

const LYNXES: &[&[u8]] = &[b"lynx", b"lynxes"];

/// A match across the end of the buffer, another where it is full again, and one that ends with the input.
struct Long;

impl<T: Abort> Case<T> for Long {
    fn asked(&self) -> Asked<'_> {
        Asked::of(LYNXES, LeftmostLongest, Cased)
    }

    fn check<A: Search>(&self, on: &Trial<'_, T, A>) -> Result<(), Fail> {
        let lines: &[u8] = &[b'-'; 65_534];
        let text = [lines, b"lynx", lines, b"lynxes", lines, b"lynx"].concat(on.alloc)?;
        let finds = [
            (0, 65_534, 65_538),
            (1, 131_072, 131_078),
            (0, 196_612, 196_616),
        ];
        for most in [5, 4099, 65_536] {
            are_found(on, &text, most, &finds)?;
        }
        Ok(())
    }
}

// ---- replacement

/// What is written of a text, and how much of it before each read of one byte.
struct Written {
    patterns: &'static [&'static [u8]],
    kind: MatchKind,
    text: &'static [u8],
    replacements: &'static [&'static [u8]],
    due: &'static [usize],
    written: &'static [u8],
}

/// Replaces what a reader gives, for a writer that has this room: the result, and what was written.
fn replaces<T, A: Search>(
    on: &Trial<'_, T, A>,
    list: &[&[u8]],
    reader: Source<'_>,
    writer: Sink<'_>,
) -> Result<(Outcome, Vec<u8>), Fail> {
    let (alloc, automaton) = (on.alloc, on.automaton);
    if automaton.patterns_len() != list.len() {
        return Err("a replacement for each pattern".into());
    }
    let mut reader = Watched::new(reader);
    let mut writer = Watched::new(writer);
    let mut steps = Steps::new();
    let answer = automaton.try_stream_replace_all_any_kind_counted(
        alloc,
        &mut reader,
        &mut writer,
        list,
        &mut steps,
    );
    Ok((Outcome::of(&answer), writer.into_inner().taken))
}

impl Written {
    /// Asserts what is written, so much of it before each read as is due, by one byte a read; and by more bytes a read.
    fn is_written<T: Abort, A: Search>(&self, on: &Trial<'_, T, A>) -> Result<(), Fail> {
        let (rt, list) = (on.rt, self.replacements);
        for most in [1, 2, 3, 7, 100] {
            let due = if most == 1 { self.due } else { &[] };
            let tally = Tally::new();
            let reader = Source::new(Given::Whole(self.text), most, due, &tally);
            let writer = Sink::new(on.alloc, AMPLE, &tally)?;
            let (outcome, taken) = replaces(on, list, reader, writer)?;
            equal(rt, &outcome, &Outcome::Done, "replaced");
            same(rt, taken.as_slice(), self.written, "replaced");
        }
        Ok(())
    }

    /// Asserts the text that is handed out of pieces of so many bytes: what is due after each byte, at most that after longer ones, and
    /// all of it once it is finished.
    fn hands_out<T: Abort, A: Search>(
        &self,
        on: &Trial<'_, T, A>,
        most: usize,
    ) -> Result<(), Fail> {
        let rt = on.rt;
        let mut replacer = StreamReplacer::any_kind(on.automaton, on.alloc)?;
        let mut made = Vec::new(on.alloc);
        let mut pushed = 0;
        for piece in self.text.chunks(most.max(1)) {
            if replacer.is_finished() {
                return Err(Fail::from("the replacement is finished"));
            }
            let taken = replacer.push_counted(piece, &mut Steps::new())?;
            assert_eq!(rt; taken, piece.len());
            take_out(&mut replacer, self.replacements, &mut made)?;
            pushed = taken.saturating_add(pushed);
            let due = self.due.get(pushed).ok_or("what is due")?;
            let made = made.len();
            let is_due = made == *due || (most > 1 && made < *due);
            equal(rt, &is_due, &true, "what is due");
        }
        replacer.finish();
        take_out(&mut replacer, self.replacements, &mut made)?;
        same(rt, made.as_slice(), self.written, "all of the text");
        Ok(())
    }

    /// Asserts the text that a replacement of pieces writes, of so many bytes each.
    fn writes_out<T: Abort, A: Search>(
        &self,
        on: &Trial<'_, T, A>,
        most: usize,
    ) -> Result<(), Fail> {
        let tally = Tally::new();
        let mut replacer = StreamReplacer::any_kind(on.automaton, on.alloc)?;
        let mut writer = Watched::new(Sink::new(on.alloc, AMPLE, &tally)?);
        for piece in self.text.chunks(most.max(1)) {
            if replacer.is_finished() {
                return Err(Fail::from("the replacement is finished"));
            }
            replacer.push_counted(piece, &mut Steps::new())?;
            write_out(&mut replacer, self.replacements, &mut writer)?;
        }
        replacer.finish();
        write_out(&mut replacer, self.replacements, &mut writer)?;
        let taken = writer.into_inner().taken;
        same(
            on.rt,
            taken.as_slice(),
            self.written,
            "all of it is written",
        );
        Ok(())
    }

    /// Asserts that a read which fails after a front of the text leaves written what was due by then.
    fn stops<T: Abort, A: Search>(&self, on: &Trial<'_, T, A>) -> Result<(), Fail> {
        let (rt, list) = (on.rt, self.replacements);
        for (len, due) in self.due.iter().enumerate() {
            let front = self.text.get(..len).ok_or("a front of the text")?;
            let tally = Tally::new();
            let reader = Source::new(Given::Fails(front, b"x"), 1, &[], &tally);
            let writer = Sink::new(on.alloc, AMPLE, &tally)?;
            let (outcome, taken) = replaces(on, list, reader, writer)?;
            equal(
                rt,
                &outcome,
                &Outcome::Read(ErrorKind::Interrupted),
                "a read failed",
            );
            equal(
                rt,
                &Some(taken.as_slice()),
                &self.written.get(..*due),
                "a read failed",
            );
        }
        Ok(())
    }

    /// Asserts that a writer without room for all takes a front of the text.
    fn is_cut<T: Abort, A: Search>(&self, on: &Trial<'_, T, A>) -> Result<(), Fail> {
        let (rt, list) = (on.rt, self.replacements);
        for bytes in 0..self.written.len() {
            let tally = Tally::new();
            let reader = Source::new(Given::Whole(self.text), 3, &[], &tally);
            let room = Room {
                bytes,
                fails: true,
                ..AMPLE
            };
            let writer = Sink::new(on.alloc, room, &tally)?;
            let (outcome, taken) = replaces(on, list, reader, writer)?;
            equal(
                rt,
                &outcome,
                &Outcome::Write(ErrorKind::Interrupted),
                "a write failed",
            );
            equal(
                rt,
                &Some(taken.as_slice()),
                &self.written.get(..bytes),
                "a write failed",
            );
        }
        Ok(())
    }
}

/// Appends the next slice that a replacement hands out; says whether there was one.
fn take_one<A: Search>(
    replacer: &mut StreamReplacer<A>,
    replacements: &[&[u8]],
    made: &mut Vec<u8>,
) -> Result<bool, Fail> {
    if replacer.patterns_len() != replacements.len() {
        return Err(Fail::from("a replacement for each pattern"));
    }
    match replacer.next_counted(replacements, &mut Steps::new()) {
        Some(bytes) => {
            made.extend_from_slice(bytes)?;
            Ok(true)
        }
        None => Ok(false),
    }
}

/// Writes all that a replacement has to hand out.
fn write_out<A: Search, W: Write>(
    replacer: &mut StreamReplacer<A>,
    replacements: &[&[u8]],
    writer: &mut Watched<W>,
) -> Result<(), Fail> {
    if replacer.patterns_len() != replacements.len() {
        return Err(Fail::from("a replacement for each pattern"));
    }
    replacer.write_to_counted(replacements, writer, &mut Steps::new())?;
    Ok(())
}

/// Appends all that a replacement has to hand out, at most this many slices.
fn take_out<A: Search>(
    replacer: &mut StreamReplacer<A>,
    replacements: &[&[u8]],
    made: &mut Vec<u8>,
) -> Result<(), Fail> {
    for _ in 0..100 {
        if !take_one(replacer, replacements, made)? {
            return Ok(());
        }
    }
    Err(Fail::from("slices without an end"))
}

impl<T: Abort> Case<T> for Written {
    fn asked(&self) -> Asked<'_> {
        Asked::of(self.patterns, self.kind, Cased)
    }

    fn check<A: Search>(&self, on: &Trial<'_, T, A>) -> Result<(), Fail> {
        if !on.searches() {
            return Ok(());
        }
        self.is_written(on)?;
        self.stops(on)?;
        self.is_cut(on)?;
        for most in [1, 2, 3, 7, 100] {
            self.hands_out(on, most)?;
            self.writes_out(on, most)?;
        }
        Ok(())
    }
}

const WRITTEN: &[Written] = &[
    Written {
        patterns: &[b"b", b"abc", b"abcd"],
        kind: LeftmostLongest,
        text: b"abcxx ab",
        replacements: &[b"0", b"1", b"2"],
        due: &[0, 0, 0, 0, 2, 3, 4, 4, 4],
        written: b"1xx a0",
    },
    Written {
        patterns: &[b"pass", b"password"],
        kind: LeftmostLongest,
        text: b"pass: passwords",
        replacements: &[b"****", b"********"],
        due: &[0, 0, 0, 0, 0, 5, 6, 6, 6, 6, 6, 6, 6, 6, 6, 15],
        written: b"****: ********s",
    },
    Written {
        patterns: &[b"append", b"appendage", b"app"],
        kind: LeftmostFirst,
        text: b"an app",
        replacements: &[b"x", b"y", b"z"],
        due: &[0, 0, 2, 3, 3, 3, 3],
        written: b"an z",
    },
];

// ---- what is refused

/// An automaton that can't search a stream, and why. Where it has no start for a search that isn't anchored, that is the reason.
struct Refused(MatchKind);

const WITH_NONE: &[&[u8]] = &[b"ab", b""];

impl<T: Abort> Case<T> for Refused {
    fn asked(&self) -> Asked<'_> {
        Asked::of(WITH_NONE, self.0, Cased)
    }

    fn check<A: Search>(&self, on: &Trial<'_, T, A>) -> Result<(), Fail> {
        let rt = on.rt;
        let want = Outcome::Config(on.refusal(MatchErrorKind::UnsupportedEmpty));
        let tally = Tally::new();
        let searched = search_outcome(on.alloc, on.automaton, &tally, Sought::MatchesOfAnyKind);
        assert_eq!(rt; searched, want);
        let reader = Source::new(Given::Whole(b"ab"), 1, &[], &tally);
        let writer = Sink::new(on.alloc, AMPLE, &tally)?;
        let (outcome, _) = replaces(on, &[b"-", b"+"], reader, writer)?;
        assert_eq!(rt; outcome, want);
        assert_eq!(rt; (tally.reads.get(), tally.writes.get()), (0, 0));
        Ok(())
    }
}

#[test]
fn streams_of_any_kind(rt: HostRuntime) -> Result<(), Fail> {
    all(&rt, rt.alloc(), ROWS)?;
    all(&rt, rt.alloc(), WRITTEN)?;
    all(
        &rt,
        rt.alloc(),
        &[
            Refused(LeftmostFirst),
            Refused(LeftmostLongest),
            Refused(Standard),
        ],
    )?;
    many(&rt, rt.alloc())?;
    each(&rt, rt.alloc(), &Long, FIRST)
}
