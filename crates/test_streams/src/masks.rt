//! Masks of texts: in memory, and over streams cut at every place; worked rows, and drawn texts compared with the plain program.
use crate::asserts::{equal, same};
use crate::devices::{AMPLE, Given, Outcome, Sink, Source, Tally};
use ac_automaton::error::MatchErrorKind;
use ac_automaton::stream::mask::StreamMask;
use ac_automaton::watched::Watched;
use ac_input::search::MatchKind;
use ac_input::search::MatchKind::{LeftmostFirst, Standard};
use ac_input::steps::Steps;
use ac_noncontiguous::Search;
use std::alloc::Global;
use std::io::ErrorKind;
use std::process::Abort;
use std::test::Fail;
use test_rows::answers::masked_by_plain;
use test_rows::drawn::{EACH_OF_LETTERS, from_there, letters_of, patterns_of};
use test_rows::engines::Letters::Cased;
use test_rows::engines::{Asked, Case, ENGINES, FEW, FIRST, Trial, each};

const MASK: u8 = b'*';

/// A text, and what it is masked.
#[derive(Clone, Copy)]
struct Masked<'a> {
    shows: &'a str,
    asked: Asked<'a>,
    text: &'a [u8],
    gives: &'a [u8],
}

impl Masked<'_> {
    fn in_memory<T: Abort, A: Search>(&self, on: &Trial<'_, T, A>) -> Result<(), Fail> {
        let mut text = self.text.to_vec(on.alloc)?;
        on.automaton
            .try_mask_counted(text.as_mut_slice(), MASK, &mut Steps::new())?;
        same(on.rt, &text, self.gives, self.shows);
        Ok(())
    }

    /// By at most so many bytes a read.
    fn streamed<T: Abort, A: Search>(&self, on: &Trial<'_, T, A>, most: usize) -> Result<(), Fail> {
        let tally = Tally::new();
        let mut reader = Watched::new(Source::new(Given::Whole(self.text), most, &[], &tally));
        let mut writer = Watched::new(Sink::new(on.alloc, AMPLE, &tally)?);
        on.automaton.try_mask_stream_counted(
            on.alloc,
            &mut reader,
            &mut writer,
            MASK,
            &mut Steps::new(),
        )?;
        same(on.rt, &writer.into_inner().taken, self.gives, self.shows);
        Ok(())
    }

    /// Pushed in two pieces, which fit the buffer.
    fn pushed<T: Abort, A: Search>(&self, on: &Trial<'_, T, A>, cut: usize) -> Result<(), Fail> {
        let mut stream = StreamMask::new(on.automaton, MASK, on.alloc)?;
        let mut text = Vec::new(on.alloc);
        let mut steps = Steps::new();
        let n = stream.push_counted(from_there(self.text, 0, cut), &mut steps)?;
        text.extend_from_slice(stream.ready())?;
        let more = stream.push_counted(from_there(self.text, cut, self.text.len()), &mut steps)?;
        text.extend_from_slice(stream.ready())?;
        stream.finish();
        text.extend_from_slice(stream.ready())?;
        equal(
            on.rt,
            &n.checked_add(more),
            &Some(self.text.len()),
            self.shows,
        );
        same(on.rt, &text, self.gives, self.shows);
        Ok(())
    }
}

impl<T: Abort> Case<T> for Masked<'_> {
    fn asked(&self) -> Asked<'_> {
        self.asked
    }

    fn check<A: Search>(&self, on: &Trial<'_, T, A>) -> Result<(), Fail> {
        if !on.searches() {
            return Ok(());
        }
        self.in_memory(on)?;
        if self.asked.patterns.iter().any(|it| it.is_empty()) {
            return Ok(());
        }
        for cut in 0..=self.text.len() {
            self.streamed(on, cut.max(1))?;
            self.pushed(on, cut)?;
        }
        Ok(())
    }
}

/// What a row needs, and what it shows.
struct Row {
    shows: &'static str,
    patterns: &'static [&'static [u8]],
    text: &'static [u8],
    gives: &'static [u8],
}

const ROWS: &[Row] = &[
    Row {
        shows: "no pattern",
        patterns: &[],
        text: b"abc",
        gives: b"abc",
    },
    Row {
        shows: "occurrences that overlap",
        patterns: &[b"abc", b"cde"],
        text: b"xabcdex",
        gives: b"x*****x",
    },
    Row {
        shows: "what would occur after a deletion",
        patterns: &[b"ab"],
        text: b"aabbab",
        gives: b"a**b**",
    },
    Row {
        shows: "the longest of several ends",
        patterns: &[b"c", b"bc", b"abc"],
        text: b"xcxbcxabc",
        gives: b"x*x**x***",
    },
    Row {
        shows: "a long one over short ones, with a byte between",
        patterns: &[b"a", b"c", b"abcd"],
        text: b"abc abcd c",
        gives: b"*b* **** *",
    },
    Row {
        shows: "each byte",
        patterns: &[b"aa"],
        text: b"aaaaa",
        gives: b"*****",
    },
    Row {
        shows: "an empty pattern masks nothing",
        patterns: &[b"", b"b"],
        text: b"abc",
        gives: b"a*c",
    },
];

fn rows_are_masked<T: Abort>(rt: &T, alloc: Global) -> Result<(), Fail> {
    for row in ROWS {
        let masked = Masked {
            shows: row.shows,
            asked: Asked::of(row.patterns, Standard, Cased),
            text: row.text,
            gives: row.gives,
        };
        each(rt, alloc, &masked, ENGINES)?;
    }
    Ok(())
}

/// Compares masks of patterns and a text that are drawn from this number.
fn seed_is_alike<T: Abort>(rt: &T, alloc: Global, seed: u8) -> Result<(), Fail> {
    let letters = letters_of(alloc, seed as u32, 60, b"abAB")?;
    let patterns = patterns_of(alloc, &letters, seed as usize)?;
    for same in EACH_OF_LETTERS {
        let asked = Asked::of(&patterns, Standard, same);
        let text = from_there(&letters, 30, 14);
        let gives = masked_by_plain(alloc, asked, text, MASK, false)?;
        let masked = Masked {
            shows: "as the plain program",
            asked,
            text,
            gives: &gives,
        };
        each(rt, alloc, &masked, FEW)?;
    }
    Ok(())
}

fn drawn_texts_are_masked<T: Abort>(rt: &T, alloc: Global) -> Result<(), Fail> {
    for seed in 0..30 {
        seed_is_alike(rt, alloc, seed)?;
    }
    Ok(())
}

/// Occurrences across the end of the buffer, where it is full again, and at the end of the input.
struct Long;

impl<T: Abort> Case<T> for Long {
    fn asked(&self) -> Asked<'_> {
        Asked::of(&[b"lynx", b"lynxes"], Standard, Cased)
    }

    fn check<A: Search>(&self, on: &Trial<'_, T, A>) -> Result<(), Fail> {
        let lines: &[u8] = &[b'-'; 65_534];
        let text = [lines, b"lynx", lines, b"lynxes", lines, b"lyn"].concat(on.alloc)?;
        let gives = [lines, b"****", lines, b"******", lines, b"lyn"].concat(on.alloc)?;
        let masked = Masked {
            shows: "a long text",
            asked: Asked::of(&[b"lynx", b"lynxes"], Standard, Cased),
            text: &text,
            gives: &gives,
        };
        masked.in_memory(on)?;
        for most in [5, 4099, 65_536] {
            masked.streamed(on, most)?;
        }
        Ok(())
    }
}

/// What a mask of a stream comes to that is refused, or whose reader fails, and what is written by then.
struct Stopped {
    shows: &'static str,
    patterns: &'static [&'static [u8]],
    kind: MatchKind,
    text: &'static [u8],
    outcome: Outcome,
    writes: &'static [u8],
}

const STOPPED: &[Stopped] = &[
    Stopped {
        shows: "a leftmost kind",
        patterns: &[b"a"],
        kind: LeftmostFirst,
        text: b"a",
        outcome: Outcome::Config(MatchErrorKind::UnsupportedOverlapping { got: LeftmostFirst }),
        writes: b"",
    },
    Stopped {
        shows: "an empty pattern",
        patterns: &[b"a", b""],
        kind: Standard,
        text: b"a",
        outcome: Outcome::Config(MatchErrorKind::UnsupportedEmpty),
        writes: b"",
    },
    Stopped {
        shows: "nothing waits where nothing is live",
        patterns: &[b"secret"],
        kind: Standard,
        text: b"a secret\n",
        outcome: Outcome::Read(ErrorKind::Interrupted),
        writes: b"a ******\n",
    },
    Stopped {
        shows: "fewer bytes wait than the longest pattern has",
        patterns: &[b"secret"],
        kind: Standard,
        text: b"my secrets",
        outcome: Outcome::Read(ErrorKind::Interrupted),
        writes: b"my **",
    },
    Stopped {
        shows: "what may still be covered waits",
        patterns: &[b"secret"],
        kind: Standard,
        text: b"my secre",
        outcome: Outcome::Read(ErrorKind::Interrupted),
        writes: b"my ",
    },
];

impl<T: Abort> Case<T> for Stopped {
    fn asked(&self) -> Asked<'_> {
        Asked::of(self.patterns, self.kind, Cased)
    }

    fn check<A: Search>(&self, on: &Trial<'_, T, A>) -> Result<(), Fail> {
        if !on.searches() {
            return Ok(());
        }
        let tally = Tally::new();
        let given = Given::Fails(self.text, b"");
        let mut reader = Watched::new(Source::new(given, 1, &[], &tally));
        let mut writer = Watched::new(Sink::new(on.alloc, AMPLE, &tally)?);
        let masked = on.automaton.try_mask_stream_counted(
            on.alloc,
            &mut reader,
            &mut writer,
            MASK,
            &mut Steps::new(),
        );
        equal(on.rt, &Outcome::of(&masked), &self.outcome, self.shows);
        same(on.rt, &writer.into_inner().taken, self.writes, self.shows);
        Ok(())
    }
}

fn stopped_masks<T: Abort>(rt: &T, alloc: Global) -> Result<(), Fail> {
    for row in STOPPED {
        each(rt, alloc, row, FEW)?;
    }
    Ok(())
}

#[test]
fn masks(rt: HostRuntime) -> Result<(), Fail> {
    let alloc = rt.alloc();
    rows_are_masked(&rt, alloc)?;
    drawn_texts_are_masked(&rt, alloc)?;
    each(&rt, alloc, &Long, FIRST)?;
    stopped_masks(&rt, alloc)
}
