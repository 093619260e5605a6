//! Whole words of texts: worked rows under each kind, refusals, and drawn texts compared with the plain program.
use crate::asserts::{equal, same};
use ac_automaton::error::{MatchErrorKind, ReplaceError};
use ac_input::search::MatchKind;
use ac_input::search::MatchKind::{LeftmostFirst, LeftmostLongest, Standard};
use ac_input::steps::Steps;
use ac_noncontiguous::Search;
use std::alloc::Global;
use std::process::Abort;
use std::test::Fail;
use test_rows::answers::Asks::Walk;
use test_rows::answers::{collected, words_by_plain};
use test_rows::drawn::{EACH_OF_LETTERS, KINDS, from_there, letters_of, patterns_of};
use test_rows::engines::Letters::{Cased, Folded};
use test_rows::engines::{Asked, Case, ENGINES, FEW, Letters, Pick, Trial, all_by, each};

/// A text, and its whole words under a kind. A row that was drawn with an empty pattern is left out, since these are refused.
#[derive(Clone, Copy)]
struct Words<'a> {
    shows: &'a str,
    asked: Asked<'a>,
    kind: MatchKind,
    text: &'a [u8],
    gives: &'a [Pick],
}

impl<T: Abort> Case<T> for Words<'_> {
    fn asked(&self) -> Asked<'_> {
        self.asked
    }

    fn check<A: Search>(&self, on: &Trial<'_, T, A>) -> Result<(), Fail> {
        if !on.searches() || self.asked.has_empty() {
            return Ok(());
        }
        let words = on.automaton.try_find_word_iter(self.kind, self.text)?;
        same(on.rt, &collected(on.alloc, words)?, self.gives, self.shows);
        self.goes_on(on)?;
        self.replaces(on)
    }
}

/// What words are replaced by: a pattern's number decides which of these.
const NAMES: [&[u8]; 3] = [b"", b"<one>", b"2"];

/// The text with each of these words replaced.
fn named(alloc: Global, text: &[u8], words: &[Pick]) -> Result<Vec<u8>, Fail> {
    let mut made = Vec::new(alloc);
    let mut at = 0;
    for (pattern, start, end) in words {
        made.extend_from_slice(text.get(at..*start).ok_or("not in order")?)?;
        made.extend_from_slice(NAMES[*pattern % 3])?;
        at = *end;
    }
    made.extend_from_slice(text.get(at..).ok_or("not in order")?)?;
    Ok(made)
}

impl Words<'_> {
    /// A walk from the end of the first word has the others.
    fn goes_on<T: Abort, A: Search>(&self, on: &Trial<'_, T, A>) -> Result<(), Fail> {
        let mut words = on.automaton.try_find_word_iter(self.kind, self.text)?;
        words.next_counted(&mut Steps::new());
        let left = on
            .automaton
            .try_find_word_iter_from(self.kind, self.text, words.place())?;
        let others = collected(on.alloc, words)?;
        same(on.rt, &collected(on.alloc, left)?, &others, self.shows);
        Ok(())
    }

    /// The text with the words replaced is the one that is put together of the row.
    fn replaces<T: Abort, A: Search>(&self, on: &Trial<'_, T, A>) -> Result<(), Fail> {
        let numbers = 0..on.automaton.patterns_len();
        let names: Vec<&[u8]> = numbers.map(|number| NAMES[number % 3]).collect(on.alloc)?;
        if names.len() != on.automaton.patterns_len() {
            return Err("a name for each pattern".into());
        }
        let made = on
            .automaton
            .try_replace_words(self.kind, on.alloc, self.text, &names)?;
        same(
            on.rt,
            &made,
            &named(on.alloc, self.text, self.gives)?,
            self.shows,
        );
        Ok(())
    }
}

/// What a row needs, and what it shows; the words under the kinds in the order of [`KINDS`].
struct Row {
    shows: &'static str,
    patterns: &'static [&'static [u8]],
    letters: Letters,
    text: &'static [u8],
    gives: [&'static [Pick]; 3],
}

const ROWS: &[Row] = &[
    Row {
        shows: "within a word",
        patterns: &[b"cat"],
        letters: Cased,
        text: b"concatenate",
        gives: [&[]; 3],
    },
    Row {
        shows: "at both ends, and between other bytes",
        patterns: &[b"cat"],
        letters: Cased,
        text: b"cat (cat), cat",
        gives: [&[(0, 0, 3), (0, 5, 8), (0, 11, 14)]; 3],
    },
    Row {
        shows: "beside `_`, digits, and a letter beyond ASCII",
        patterns: &[b"cat"],
        letters: Cased,
        text: b"cat_ _cat cat1 1cat cat\xc3\xbc \xc3\xbccat cat",
        gives: [&[(0, 32, 35)]; 3],
    },
    Row {
        shows: "either case",
        patterns: &[b"cat"],
        letters: Folded,
        text: b"CAT Cat scat",
        gives: [&[(0, 0, 3), (0, 4, 7)]; 3],
    },
    Row {
        shows: "a shorter one where the longer one is no word",
        patterns: &[b"new york", b"new"],
        letters: Cased,
        text: b"new yorker",
        gives: [&[(1, 0, 3)]; 3],
    },
    Row {
        shows: "one that begins another",
        patterns: &[b"new", b"new york", b"york"],
        letters: Cased,
        text: b"new york",
        gives: [
            &[(0, 0, 3), (2, 4, 8)],
            &[(0, 0, 3), (2, 4, 8)],
            &[(1, 0, 8)],
        ],
    },
    Row {
        shows: "words that overlap",
        patterns: &[b"york city", b"new york", b"city"],
        letters: Cased,
        text: b"new york city",
        gives: [&[(1, 0, 8), (2, 9, 13)]; 3],
    },
    Row {
        shows: "a pattern that begins with no word byte",
        patterns: &[b"a", b"-x"],
        letters: Cased,
        text: b"a-x -x",
        gives: [&[(0, 0, 1), (1, 4, 6)]; 3],
    },
];

fn rows_have_these_words<T: Abort>(rt: &T, alloc: Global, row: &Row) -> Result<(), Fail> {
    for (kind, gives) in KINDS.iter().zip(row.gives.iter()) {
        let words = Words {
            shows: row.shows,
            asked: Asked::of(row.patterns, Standard, row.letters),
            kind: *kind,
            text: row.text,
            gives: *gives,
        };
        each(rt, alloc, &words, ENGINES)?;
    }
    Ok(())
}

/// Compares the words of a text under each kind with those of the plain program.
fn words_are_alike<'a, T: Abort>(
    rt: &T,
    alloc: Global,
    patterns: &'a [&'a [u8]],
    letters: Letters,
    text: &'a [u8],
) -> Result<(), Fail> {
    for kind in KINDS {
        let gives = words_by_plain(alloc, Asked::of(patterns, kind, letters), Walk, text)?;
        let words = Words {
            shows: "as the plain program",
            asked: Asked::of(patterns, Standard, letters),
            kind,
            text,
            gives: &gives,
        };
        each(rt, alloc, &words, FEW)?;
    }
    Ok(())
}

/// Compares patterns and a text that are drawn from this number.
fn seed_is_alike<T: Abort>(rt: &T, alloc: Global, seed: u8) -> Result<(), Fail> {
    let letters = letters_of(alloc, seed as u32, 60, b"aA -")?;
    let patterns = patterns_of(alloc, &letters, seed as usize)?;
    for same in EACH_OF_LETTERS {
        words_are_alike(rt, alloc, &patterns, same, from_there(&letters, 30, 20))?;
    }
    Ok(())
}

/// Why words aren't searched.
struct Refused {
    patterns: &'static [&'static [u8]],
    kind: MatchKind,
    why: MatchErrorKind,
}

const REFUSED: &[Refused] = &[
    Refused {
        patterns: &[b"a"],
        kind: LeftmostFirst,
        why: MatchErrorKind::UnsupportedOverlapping { got: LeftmostFirst },
    },
    Refused {
        patterns: &[b"a", b""],
        kind: Standard,
        why: MatchErrorKind::UnsupportedEmpty,
    },
];

impl<T: Abort> Case<T> for Refused {
    fn asked(&self) -> Asked<'_> {
        Asked::of(self.patterns, self.kind, Cased)
    }

    fn check<A: Search>(&self, on: &Trial<'_, T, A>) -> Result<(), Fail> {
        if !on.searches() {
            return Ok(());
        }
        let refused = match on.automaton.try_find_word_iter(LeftmostLongest, b"a") {
            Ok(_) => None,
            Err(error) => Some(*error.kind()),
        };
        equal(on.rt, &refused, &Some(self.why), "refused");
        self.replaces_none(on)
    }
}

impl Refused {
    /// Words aren't replaced either.
    fn replaces_none<T: Abort, A: Search>(&self, on: &Trial<'_, T, A>) -> Result<(), Fail> {
        let none: &[u8] = b"";
        let names = vec![in on.alloc; none; on.automaton.patterns_len()]?;
        let made = on
            .automaton
            .try_replace_words(LeftmostLongest, on.alloc, b"a", &names);
        let refused = match made {
            Ok(_text) => None,
            Err(refused) => match refused {
                ReplaceError::Match(error) => Some(*error.kind()),
                ReplaceError::Memory => None,
            },
        };
        equal(on.rt, &refused, &Some(self.why), "refused, too");
        Ok(())
    }
}

#[test]
fn whole_words(rt: HostRuntime) -> Result<(), Fail> {
    let alloc = rt.alloc();
    for row in ROWS {
        rows_have_these_words(&rt, alloc, row)?;
    }
    all_by(&rt, alloc, REFUSED, FEW)?;
    for seed in 0..30 {
        seed_is_alike(&rt, alloc, seed)?;
    }
    Ok(())
}
