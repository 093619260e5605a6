//! Streams by the front's own calls: what is found, what is written, and what is an error before the first read.
ghost use Rattle.std.specs.Prelude.{◌≡◌, false};
ghost use Rattle.ac_automaton.specs.Stream.{CanStream};
ghost use Rattle.ac_automaton.specs.declared.stream.StreamKinds.TheVariants.{OnlyStandard};
ghost use Rattle.aho_corasick.specs.AhoCorasick.{as_built, supported_by};

mod memory;

use crate::asserts::{equal, same};
use crate::devices::{AMPLE, Given, Outcome, Sink, Source, Tally};
use crate::streams::next_pick;
use ac_input::search::{Anchored, Match, MatchKind, StartKind};
use ac_input::steps::Steps;
use aho_corasick::{
    AhoCorasick, MatchErrorKind, StreamError, StreamFindIter, StreamKinds, Watched,
    stream_find_iter, write_whole,
};
use std::alloc::Global;
use std::io::{Read, Write};
use std::process::Abort;
use std::test::Fail;
use test_rows::engines::Letters::{Cased, Folded};
use test_rows::engines::{Asked, Letters, Pick, serves};
use test_rows::fronts::{OwnCase, each_own};

/// A text, its matches, and what is written of it: with a replacement for each match, and with the number of its pattern.
struct Row {
    patterns: &'static [&'static [u8]],
    kind: MatchKind,
    letters: Letters,
    text: &'static [u8],
    finds: &'static [Pick],
    replacements: &'static [&'static [u8]],
    writes: &'static [u8],
    numbered: &'static [u8],
}

/// Asserts the matches that are left to come of a stream.
fn are_left<T: Abort, R: Read>(rt: &T, matches: &mut StreamFindIter<'_, R>, want: &[Pick]) {
    for want in want {
        assert_eq!(rt; next_pick(matches, false), Ok(Some(*want)));
    }
    assert_eq!(rt; next_pick(matches, false), Ok(None));
}

/// Which call replaces.
#[derive(Clone, Copy)]
enum Way {
    List,
    Counted,
    Closure,
    CountedOfAnyKind,
}

impl Way {
    fn name(self) -> &'static str {
        match self {
            Way::List => "by a list",
            Way::Counted | Way::CountedOfAnyKind => "by a list, counted",
            Way::Closure => "by a closure",
        }
    }
}

/// The calls that serve the standard kind.
const OF_STANDARD: [Way; 3] = [Way::List, Way::Counted, Way::Closure];

/// The calls that serve every kind.
const OF_ANY_KIND: [Way; 1] = [Way::CountedOfAnyKind];

/// The numbers of patterns.
const NUMBERS: &[&[u8]] = &[b"0", b"1", b"2"];

/// Writes the text of each match's pattern by a closure.
fn write_numbers<R: Read, W: Write>(
    ac: &AhoCorasick,
    alloc: Global,
    reader: &mut Watched<R>,
    writer: &mut Watched<W>,
) -> Result<(), StreamError>
    requires { reader.old.ended ≡ false }
{
    ac.try_stream_replace_all_with(
        alloc,
        reader,
        writer,
        |found: &Match, _matched: &[u8], writer: &mut Watched<W>| -> Result<(), StreamError> {
            let number = found.pattern().as_usize();
            write_whole(writer, NUMBERS.get(number).ok_or(StreamError::Position)?)
        },
    )
}

/// Replaces by this call what a reader returns, at most this many bytes a read: the result, and what was written.
fn replaces(
    alloc: Global,
    ac: &AhoCorasick,
    row: &Row,
    way: Way,
    most: usize,
    tally: &Tally,
) -> Result<(Outcome, Vec<u8>), Fail> {
    let list = row.replacements;
    if ac.patterns_len() != list.len() {
        return Err("a replacement for each pattern".into());
    }
    let mut reader = Watched::new(Source::new(Given::Whole(row.text), most, &[], tally));
    let mut writer = Watched::new(Sink::new(alloc, AMPLE, tally)?);
    let answer = match way {
        Way::List => ac.try_stream_replace_all(alloc, &mut reader, &mut writer, list),
        Way::Counted => {
            let mut steps = Steps::new();
            ac.try_stream_replace_all_counted(alloc, &mut reader, &mut writer, list, &mut steps)
        }
        Way::Closure => write_numbers(ac, alloc, &mut reader, &mut writer),
        Way::CountedOfAnyKind => ac.try_stream_replace_all_any_kind_counted(
            alloc,
            &mut reader,
            &mut writer,
            list,
            &mut Steps::new(),
        ),
    };
    Ok((Outcome::of(&answer), writer.into_inner().taken))
}

/// Asserts what is found, by this many bytes a read.
fn is_found<T: Abort>(
    rt: &T,
    alloc: Global,
    ac: &AhoCorasick,
    row: &Row,
    most: usize,
) -> Result<(), Fail>
    requires { CanStream OnlyStandard (as_built ac.now) (supported_by ac.now) }
{
    let tally = Tally::new();
    let given = Given::Whole(row.text);
    let mut reader = Watched::new(Source::new(given, most, &[], &tally));
    are_left(rt, &mut ac.stream_find_iter(alloc, &mut reader)?, row.finds);
    let mut reader = Watched::new(Source::new(given, most, &[], &tally));
    are_left(
        rt,
        &mut ac.try_stream_find_iter(alloc, &mut reader)?,
        row.finds,
    );
    Ok(())
}

/// Asserts the same by the call for any kind.
fn is_found_of_any_kind<T: Abort>(
    rt: &T,
    alloc: Global,
    ac: &AhoCorasick,
    row: &Row,
    most: usize,
) -> Result<(), Fail> {
    let tally = Tally::new();
    let given = Given::Whole(row.text);
    let mut reader = Watched::new(Source::new(given, most, &[], &tally));
    are_left(
        rt,
        &mut stream_find_iter(&mut reader, ac, StreamKinds::AnyKind, alloc)?,
        row.finds,
    );
    Ok(())
}

/// Asserts what each of these calls writes, by this many bytes a read.
fn is_written<T: Abort>(
    rt: &T,
    alloc: Global,
    ac: &AhoCorasick,
    row: &Row,
    ways: &[Way],
    most: usize,
) -> Result<(), Fail> {
    for way in ways {
        let (outcome, taken) = replaces(alloc, ac, row, *way, most, &Tally::new())?;
        let want = if matches!(way, Way::Closure) {
            row.numbered
        } else {
            row.writes
        };
        equal(rt, &outcome, &Outcome::Done, way.name());
        same(rt, taken.as_slice(), want, way.name());
    }
    Ok(())
}

impl<T: Abort> OwnCase<T> for Row {
    fn built_of(&self) -> Asked<'_> {
        Asked {
            patterns: self.patterns,
            kind: self.kind,
            letters: self.letters,
        }
    }

    fn check_own(&self, rt: &T, alloc: Global, ac: &AhoCorasick) -> Result<(), Fail> {
        if !serves(ac.start_kind(), Anchored::No) || ac.min_pattern_len() == 0 {
            return Err("a stream can be searched".into());
        }
        for most in [1, 2, 7, 100] {
            is_found_of_any_kind(rt, alloc, ac, self, most)?;
            is_written(rt, alloc, ac, self, &OF_ANY_KIND, most)?;
            if ac.match_kind() == MatchKind::Standard {
                is_found(rt, alloc, ac, self, most)?;
                is_written(rt, alloc, ac, self, &OF_STANDARD, most)?;
            }
        }
        Ok(())
    }
}

const ROWS: &[Row] = &[
    Row {
        patterns: &[b"fox", b"brown", b"quick"],
        kind: MatchKind::Standard,
        letters: Cased,
        text: b"The quick brown fox.",
        finds: &[(2, 4, 9), (1, 10, 15), (0, 16, 19)],
        replacements: &[b"sloth", b"grey", b"slow"],
        writes: b"The slow grey sloth.",
        numbered: b"The 2 1 0.",
    },
    Row {
        patterns: &[b"FOO", b"bAr", b"BaZ"],
        kind: MatchKind::Standard,
        letters: Folded,
        text: b"foo bar baz",
        finds: &[(0, 0, 3), (1, 4, 7), (2, 8, 11)],
        replacements: &[b"x", b"", b"yy"],
        writes: b"x  yy",
        numbered: b"0 1 2",
    },
    Row {
        patterns: &[b"pass", b"password", b"word"],
        kind: MatchKind::LeftmostLongest,
        letters: Cased,
        text: b"a password, pass, word",
        finds: &[(1, 2, 10), (0, 12, 16), (2, 18, 22)],
        replacements: &[b"****", b"********", b"w"],
        writes: b"a ********, ****, w",
        numbered: b"a 1, 0, 2",
    },
    Row {
        patterns: &[b"pass", b"password", b"word"],
        kind: MatchKind::LeftmostFirst,
        letters: Cased,
        text: b"a password, pass",
        finds: &[(0, 2, 6), (2, 6, 10), (0, 12, 16)],
        replacements: &[b"-", b"", b"+"],
        writes: b"a -+, -",
        numbered: b"a 02, 0",
    },
];

/// Patterns of a kind that can't be searched for in a stream, by the front for such searches, and why.
struct Refused {
    patterns: [&'static [u8]; 2],
    kind: MatchKind,
    starts: StartKind,
    why: MatchErrorKind,
}

/// Makes a search of a stream, and drops it.
fn try_stream<'a, R: Read>(
    alloc: Global,
    ac: &'a AhoCorasick,
    reader: &'a mut Watched<R>,
) -> Result<(), StreamError>
    requires { reader.old.ended ≡ false }
{
    ac.try_stream_find_iter(alloc, reader)?;
    Ok(())
}

/// The result of a search of a stream that takes no match.
fn search_outcome(alloc: Global, ac: &AhoCorasick, tally: &Tally) -> Outcome {
    let mut reader = Watched::new(Source::new(Given::Whole(b"ab"), 1, &[], tally));
    Outcome::of(&try_stream(alloc, ac, &mut reader))
}

/// The text over which each replacement returns an error.
const UNREAD: Row = Row {
    patterns: &[],
    kind: MatchKind::Standard,
    letters: Cased,
    text: b"ab",
    finds: &[],
    replacements: &[b"-", b"+"],
    writes: b"",
    numbered: b"",
};

impl<T: Abort> OwnCase<T> for Refused {
    fn built_of(&self) -> Asked<'_> {
        Asked {
            patterns: &self.patterns,
            kind: self.kind,
            letters: Cased,
        }
    }

    fn check_own(&self, rt: &T, alloc: Global, ac: &AhoCorasick) -> Result<(), Fail> {
        let tally = &Tally::new();
        let want = Outcome::Config(self.why);
        assert_eq!(rt; search_outcome(alloc, ac, tally), want);
        for way in OF_STANDARD {
            let (outcome, taken) = replaces(alloc, ac, &UNREAD, way, 1, tally)?;
            equal(rt, &(outcome, taken.len()), &(want, 0), way.name());
        }
        assert_eq!(rt; (tally.reads.get(), tally.writes.get()), (0, 0));
        Ok(())
    }
}

const REFUSED: &[Refused] = &[
    Refused {
        patterns: [b"ab", b""],
        kind: MatchKind::LeftmostFirst,
        starts: StartKind::Unanchored,
        why: MatchErrorKind::UnsupportedStream {
            got: MatchKind::LeftmostFirst,
        },
    },
    Refused {
        patterns: [b"ab", b""],
        kind: MatchKind::Standard,
        starts: StartKind::Both,
        why: MatchErrorKind::UnsupportedEmpty,
    },
    Refused {
        patterns: [b"ab", b""],
        kind: MatchKind::LeftmostFirst,
        starts: StartKind::Anchored,
        why: MatchErrorKind::InvalidInputUnanchored,
    },
];

/// What is found and written in each stream, and for which streams the calls return an error.
#[test]
fn streams_by_the_fronts_own_calls(rt: HostRuntime) -> Result<(), Fail> {
    for row in ROWS {
        each_own(
            &rt,
            rt.alloc(),
            row,
            &[StartKind::Unanchored, StartKind::Both],
        )?;
    }
    for row in REFUSED {
        each_own(&rt, rt.alloc(), row, &[row.starts])?;
    }
    Ok(())
}
