//! Whole words of streams, cut at every place: found under each kind, listed, both from a reader and pushed, replaced and masked; worked
//! rows, and drawn texts compared with the plain program.
use crate::asserts::{equal, same};
use crate::devices::{AMPLE, Given, Outcome, Sink, Source, Tally};
use crate::streams::next_pick;
use ac_automaton::error::MatchErrorKind;
use ac_automaton::stream::mask::StreamWordMask;
use ac_automaton::stream::{
    ItemSearch, OverlappingWordSearch, StreamIter, WordSearch, stream_find_overlapping_word_iter,
    stream_find_word_iter,
};
use ac_automaton::watched::Watched;
use ac_input::search::MatchKind;
use ac_input::search::MatchKind::{LeftmostFirst, LeftmostLongest, Standard};
use ac_input::steps::Steps;
use ac_noncontiguous::Search;
use std::alloc::Global;
use std::io::{ErrorKind, Read};
use std::process::Abort;
use std::test::Fail;
use test_rows::answers::Asks::{List, Walk};
use test_rows::answers::{masked_by_plain, words_by_plain};
use test_rows::drawn::{EACH_OF_LETTERS, KINDS, from_there, letters_of, patterns_of};
use test_rows::engines::Letters::Cased;
use test_rows::engines::{Asked, Case, ENGINES, FEW, FIRST, Letters, Pick, Trial, each, pick};

const MASK: u8 = b'*';

/// A text, its whole words under a kind, all of them, and what is left when they are masked.
#[derive(Clone, Copy)]
struct Words<'a> {
    shows: &'a str,
    asked: Asked<'a>,
    kind: MatchKind,
    text: &'a [u8],
    gives: &'a [Pick],
    lists: &'a [Pick],
    masks: &'a [u8],
}

/// Asserts what a stream gives.
fn are_given<T: Abort, S: ItemSearch + Drop, R: Read>(
    rt: &T,
    words: &mut StreamIter<'_, S, R>,
    gives: &[Pick],
    shows: &str,
) {
    for want in gives {
        equal(rt, &next_pick(words, false), &Ok(Some(*want)), shows);
    }
    equal(rt, &next_pick(words, false), &Ok(None), shows);
}

/// Takes the words that are decided.
fn take_decided<S: ItemSearch>(search: &mut S, found: &mut Vec<Pick>) -> Result<(), Fail> {
    let mut steps = Steps::new();
    for _ in 0..100 {
        match pick(search.next_held(&mut steps)) {
            Some(word) => found.push(word)?,
            None => return Ok(()),
        }
    }
    Err(Fail::from("words without an end"))
}

impl Words<'_> {
    /// By at most so many bytes a read.
    fn found<T: Abort, A: Search>(&self, on: &Trial<'_, T, A>, most: usize) -> Result<(), Fail> {
        let tally = Tally::new();
        let given = Given::Whole(self.text);
        let mut reader = Watched::new(Source::new(given, most, &[], &tally));
        let mut words = stream_find_word_iter(&mut reader, on.automaton, self.kind, on.alloc)?;
        are_given(on.rt, &mut words, self.gives, self.shows);
        Ok(())
    }

    fn listed<T: Abort, A: Search>(&self, on: &Trial<'_, T, A>, most: usize) -> Result<(), Fail> {
        let tally = Tally::new();
        let given = Given::Whole(self.text);
        let mut reader = Watched::new(Source::new(given, most, &[], &tally));
        let mut words = stream_find_overlapping_word_iter(&mut reader, on.automaton, on.alloc)?;
        are_given(on.rt, &mut words, self.lists, self.shows);
        Ok(())
    }

    /// By pieces of so many bytes that are pushed. Where a buffer is full, a push takes the rest of a piece.
    fn pushed<T: Abort, A: Search>(&self, on: &Trial<'_, T, A>, most: usize) -> Result<(), Fail> {
        let mut search = WordSearch::new(on.automaton, self.kind, on.alloc)?;
        let mut found = Vec::new(on.alloc);
        for piece in self.text.chunks(most.max(1)) {
            let mut rest = piece;
            for _ in 0..2 {
                if search.is_closed() {
                    return Err(Fail::from("the search is finished"));
                }
                let n = search.push_counted(rest, &mut Steps::new())?;
                rest = rest.get(n..).ok_or("the rest of a piece")?;
                take_decided(&mut search, &mut found)?;
            }
            equal(on.rt, &rest.len(), &0, self.shows);
        }
        search.finish();
        take_decided(&mut search, &mut found)?;
        same(on.rt, &found, self.gives, self.shows);
        Ok(())
    }

    fn pushed_listed<T: Abort, A: Search>(
        &self,
        on: &Trial<'_, T, A>,
        most: usize,
    ) -> Result<(), Fail> {
        let mut search = OverlappingWordSearch::new(on.automaton, on.alloc)?;
        let mut found = Vec::new(on.alloc);
        for piece in self.text.chunks(most.max(1)) {
            let mut rest = piece;
            for _ in 0..2 {
                if search.is_closed() {
                    return Err(Fail::from("the search is finished"));
                }
                let n = search.push_counted(rest, &mut Steps::new())?;
                rest = rest.get(n..).ok_or("the rest of a piece")?;
                take_decided(&mut search, &mut found)?;
            }
            equal(on.rt, &rest.len(), &0, self.shows);
        }
        search.finish();
        take_decided(&mut search, &mut found)?;
        same(on.rt, &found, self.lists, self.shows);
        Ok(())
    }

    fn masked<T: Abort, A: Search>(&self, on: &Trial<'_, T, A>, most: usize) -> Result<(), Fail> {
        let tally = Tally::new();
        let given = Given::Whole(self.text);
        let mut reader = Watched::new(Source::new(given, most, &[], &tally));
        let mut writer = Watched::new(Sink::new(on.alloc, AMPLE, &tally)?);
        on.automaton.try_mask_words_stream_counted(
            on.alloc,
            &mut reader,
            &mut writer,
            MASK,
            &mut Steps::new(),
        )?;
        same(on.rt, &writer.into_inner().taken, self.masks, self.shows);
        Ok(())
    }

    /// By pieces of so many bytes that are pushed, as in [`Words::pushed`].
    fn pushed_masked<T: Abort, A: Search>(
        &self,
        on: &Trial<'_, T, A>,
        most: usize,
    ) -> Result<(), Fail> {
        let mut stream = StreamWordMask::new(on.automaton, MASK, on.alloc)?;
        let mut text = Vec::new(on.alloc);
        for piece in self.text.chunks(most.max(1)) {
            let mut rest = piece;
            for _ in 0..2 {
                if stream.is_finished() {
                    return Err(Fail::from("the masking is finished"));
                }
                let n = stream.push_counted(rest, &mut Steps::new())?;
                rest = rest.get(n..).ok_or("the rest of a piece")?;
                text.extend_from_slice(stream.ready())?;
            }
            equal(on.rt, &rest.len(), &0, self.shows);
        }
        stream.finish();
        text.extend_from_slice(stream.ready())?;
        same(on.rt, &text, self.masks, self.shows);
        Ok(())
    }

    fn masked_in_memory<T: Abort, A: Search>(&self, on: &Trial<'_, T, A>) -> Result<(), Fail> {
        let mut text = self.text.to_vec(on.alloc)?;
        on.automaton
            .try_mask_words_counted(on.alloc, text.as_mut_slice(), MASK, &mut Steps::new())?;
        same(on.rt, &text, self.masks, self.shows);
        Ok(())
    }
}

impl<T: Abort> Case<T> for Words<'_> {
    fn asked(&self) -> Asked<'_> {
        self.asked
    }

    fn check<A: Search>(&self, on: &Trial<'_, T, A>) -> Result<(), Fail> {
        if !on.searches() || self.asked.patterns.iter().any(|it| it.is_empty()) {
            return Ok(());
        }
        self.masked_in_memory(on)?;
        for most in 1..=self.text.len() {
            self.found(on, most)?;
            self.listed(on, most)?;
            self.pushed(on, most)?;
            self.pushed_listed(on, most)?;
            self.masked(on, most)?;
            self.pushed_masked(on, most)?;
        }
        Ok(())
    }
}

/// What a row needs, and what it shows; the words under the kinds in the order of [`KINDS`].
struct Row {
    shows: &'static str,
    patterns: &'static [&'static [u8]],
    text: &'static [u8],
    gives: [&'static [Pick]; 3],
    lists: &'static [Pick],
    masks: &'static [u8],
}

const ROWS: &[Row] = &[
    Row {
        shows: "within a word, at both ends, beside `_` and beside a letter beyond ASCII",
        patterns: &[b"cat"],
        text: b"cat concatenate _cat cat\xc3\xbc cat",
        gives: [&[(0, 0, 3), (0, 27, 30)]; 3],
        lists: &[(0, 0, 3), (0, 27, 30)],
        masks: b"*** concatenate _cat cat\xc3\xbc ***",
    },
    Row {
        shows: "a shorter one where the longer one is no word",
        patterns: &[b"new york", b"new"],
        text: b"new yorker, new york",
        gives: [
            &[(1, 0, 3), (1, 12, 15)],
            &[(1, 0, 3), (0, 12, 20)],
            &[(1, 0, 3), (0, 12, 20)],
        ],
        lists: &[(1, 0, 3), (1, 12, 15), (0, 12, 20)],
        masks: b"*** yorker, ********",
    },
    Row {
        shows: "words that overlap",
        patterns: &[b"york city", b"new york", b"city"],
        text: b"new york city",
        gives: [&[(1, 0, 8), (2, 9, 13)]; 3],
        lists: &[(1, 0, 8), (0, 4, 13), (2, 9, 13)],
        masks: b"*************",
    },
    Row {
        shows: "a word beside a masked one",
        patterns: &[b"a", b"-x"],
        text: b"a-x -x",
        gives: [&[(0, 0, 1), (1, 4, 6)]; 3],
        lists: &[(0, 0, 1), (1, 4, 6)],
        masks: b"*-x **",
    },
];

fn row_has_these_words<T: Abort>(rt: &T, alloc: Global, row: &Row) -> Result<(), Fail> {
    for (kind, gives) in KINDS.iter().zip(row.gives.iter()) {
        let words = Words {
            shows: row.shows,
            asked: Asked::of(row.patterns, Standard, Cased),
            kind: *kind,
            text: row.text,
            gives: *gives,
            lists: row.lists,
            masks: row.masks,
        };
        each(rt, alloc, &words, ENGINES)?;
    }
    Ok(())
}

/// Compares a text under each kind with the plain program.
fn words_are_alike<'a, T: Abort>(
    rt: &T,
    alloc: Global,
    patterns: &'a [&'a [u8]],
    letters: Letters,
    text: &'a [u8],
) -> Result<(), Fail> {
    let asked = Asked::of(patterns, Standard, letters);
    let lists = words_by_plain(alloc, asked, List, text)?;
    let masks = masked_by_plain(alloc, asked, text, MASK, true)?;
    for kind in KINDS {
        let gives = words_by_plain(alloc, Asked::of(patterns, kind, letters), Walk, text)?;
        let words = Words {
            shows: "as the plain program",
            asked,
            kind,
            text,
            gives: &gives,
            lists: &lists,
            masks: &masks,
        };
        each(rt, alloc, &words, FEW)?;
    }
    Ok(())
}

/// Compares patterns and a text that are drawn from this number.
fn seed_is_alike<T: Abort>(rt: &T, alloc: Global, seed: u8) -> Result<(), Fail> {
    let letters = letters_of(alloc, seed as u32, 60, b"aA -")?;
    let patterns = patterns_of(alloc, &letters, seed as usize)?;
    for same in EACH_OF_LETTERS {
        words_are_alike(rt, alloc, &patterns, same, from_there(&letters, 30, 14))?;
    }
    Ok(())
}

/// Words across the end of the buffer, where it is full again, and one that the end of the input decides.
struct Long;

impl<T: Abort> Case<T> for Long {
    fn asked(&self) -> Asked<'_> {
        Asked::of(&[b"lynx", b"lynxes"], Standard, Cased)
    }

    fn check<A: Search>(&self, on: &Trial<'_, T, A>) -> Result<(), Fail> {
        let lines: &[u8] = &[b'-'; 65_534];
        let text = [lines, b"lynx", lines, b"lynxes", lines, b"lynx"].concat(on.alloc)?;
        let masks = [lines, b"****", lines, b"******", lines, b"****"].concat(on.alloc)?;
        let found = [
            (0, 65_534, 65_538),
            (1, 131_072, 131_078),
            (0, 196_612, 196_616),
        ];
        let words = Words {
            shows: "a long text",
            asked: Asked::of(&[b"lynx", b"lynxes"], Standard, Cased),
            kind: LeftmostLongest,
            text: &text,
            gives: &found,
            lists: &found,
            masks: &masks,
        };
        for most in [5, 4099, 65_536] {
            words.found(on, most)?;
            words.listed(on, most)?;
            words.pushed(on, most)?;
            words.pushed_listed(on, most)?;
            words.masked(on, most)?;
            words.pushed_masked(on, most)?;
        }
        Ok(())
    }
}

/// What a replacement of words comes to that is refused, or whose reader fails, and what is written by then.
struct Stopped {
    shows: &'static str,
    patterns: &'static [&'static [u8]],
    kind: MatchKind,
    text: &'static [u8],
    outcome: Outcome,
    writes: &'static [u8],
}

const STOPPED: &[Stopped] = &[
    Stopped {
        shows: "an automaton of a leftmost kind",
        patterns: &[b"cat"],
        kind: LeftmostFirst,
        text: b"cat",
        outcome: Outcome::Config(MatchErrorKind::UnsupportedOverlapping { got: LeftmostFirst }),
        writes: b"",
    },
    Stopped {
        shows: "an empty pattern",
        patterns: &[b""],
        kind: Standard,
        text: b"cat",
        outcome: Outcome::Config(MatchErrorKind::UnsupportedEmpty),
        writes: b"",
    },
    Stopped {
        shows: "nothing waits where nothing is live",
        patterns: &[b"cat"],
        kind: Standard,
        text: b"cat, concatenate.",
        outcome: Outcome::Read(ErrorKind::Interrupted),
        writes: b"dog, concatenate.",
    },
    Stopped {
        shows: "a word waits for the byte after it",
        patterns: &[b"cat"],
        kind: Standard,
        text: b"cat, cat",
        outcome: Outcome::Read(ErrorKind::Interrupted),
        writes: b"dog, ",
    },
];

impl<T: Abort> Case<T> for Stopped {
    fn asked(&self) -> Asked<'_> {
        Asked::of(self.patterns, self.kind, Cased)
    }

    fn check<A: Search>(&self, on: &Trial<'_, T, A>) -> Result<(), Fail> {
        if !on.searches() || on.automaton.patterns_len() != 1 {
            return Ok(());
        }
        let tally = Tally::new();
        let given = Given::Fails(self.text, b"");
        let mut reader = Watched::new(Source::new(given, 1, &[], &tally));
        let mut writer = Watched::new(Sink::new(on.alloc, AMPLE, &tally)?);
        let dog: &[&[u8]] = &[b"dog"];
        let replaced = on.automaton.try_stream_replace_words_counted(
            LeftmostLongest,
            on.alloc,
            &mut reader,
            &mut writer,
            dog,
            &mut Steps::new(),
        );
        equal(on.rt, &Outcome::of(&replaced), &self.outcome, self.shows);
        same(on.rt, &writer.into_inner().taken, self.writes, self.shows);
        Ok(())
    }
}

fn each_row<T: Abort>(rt: &T, alloc: Global) -> Result<(), Fail> {
    for row in ROWS {
        row_has_these_words(rt, alloc, row)?;
    }
    Ok(())
}

fn each_stopped<T: Abort>(rt: &T, alloc: Global) -> Result<(), Fail> {
    for row in STOPPED {
        each(rt, alloc, row, FEW)?;
    }
    Ok(())
}

#[test]
fn words_of_streams(rt: HostRuntime) -> Result<(), Fail> {
    let alloc = rt.alloc();
    each_row(&rt, alloc)?;
    each_stopped(&rt, alloc)?;
    each(&rt, alloc, &Long, FIRST)?;
    for seed in 0..20 {
        seed_is_alike(&rt, alloc, seed)?;
    }
    Ok(())
}
