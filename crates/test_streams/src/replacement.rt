//! What replacement in memory makes: of a text and of its bytes, by a list and by a closure that appends the same.
//!
//! A match within a character of a text is passed over there, and replaced among bytes.
ghost use Rattle.aho_corasick.specs.AhoCorasick.{supported_by};

use crate::asserts::{equal, same};
use ac_automaton::error::ReplaceError;
use ac_input::search::MatchKind::{LeftmostFirst, LeftmostLongest, Standard};
use ac_input::search::{Anchored, Match, MatchKind};
use ac_noncontiguous::Search;
use aho_corasick::AhoCorasick;
use std::alloc::{AllocError, Global};
use std::process::Abort;
use std::test::Fail;
use test_rows::engines::Letters::{Cased, Folded, Paired};
use test_rows::engines::{Asked, Case, Letters, Trial, all, serves};
use test_rows::fronts::{OwnCase, all_own};

/// What a closure does at a match, in place of going on: it stops after it appended the replacement, or it returns out of memory before
/// that.
#[derive(Clone, Copy)]
pub enum At {
    Stops(usize),
    Fails(usize),
}

/// A text, what replaces the matches of each pattern, and what is made of it: by a list, and by a closure that appends the same.
struct Row {
    shows: &'static str,
    patterns: &'static [&'static [u8]],
    kind: MatchKind,
    letters: Letters,
    text: &'static str,
    replacements: &'static [&'static str],
    /// At which pattern the closure does not go on, if it is to show that.
    until: Option<At>,
    makes: &'static str,
    /// What is made of the text's bytes.
    bytes: &'static [u8],
}

/// The bytes of each text.
fn bytes_of<'a>(alloc: Global, texts: &[&'a str]) -> Result<Vec<&'a [u8]>, AllocError> {
    texts.iter().map(|text| text.as_bytes()).collect(alloc)
}

/// What a closure appends at a match, and whether it goes on after that; or out of memory, where it is to return that.
fn exchanged<'a>(
    found: &Match,
    replacements: &[&'a str],
    until: Option<At>,
) -> Result<(&'a str, bool), AllocError> {
    let number = found.pattern().as_usize();
    if matches!(until, Some(At::Fails(at)) if at == number) {
        return Err(AllocError);
    }
    let instead = replacements.get(number).ok_or(AllocError)?;
    Ok((
        *instead,
        !matches!(until, Some(At::Stops(at)) if at == number),
    ))
}

/// Appends the text, with a closure that appends the replacement of each match's pattern.
pub fn append<A: Search>(
    automaton: &A,
    alloc: Global,
    text: &str,
    replacements: &[&str],
    until: Option<At>,
    dst: &mut String,
) -> Result<(), ReplaceError> {
    automaton.try_replace_all_with(
        alloc,
        text,
        dst,
        |found: &Match, _text: &str, dst: &mut String| -> Result<bool, AllocError> {
            let (instead, goes_on) = exchanged(found, replacements, until)?;
            dst.push_str(instead)?;
            Ok(goes_on)
        },
    )
}

/// The same among bytes.
pub fn append_bytes<A: Search>(
    automaton: &A,
    alloc: Global,
    bytes: &[u8],
    replacements: &[&str],
    until: Option<At>,
    dst: &mut Vec<u8>,
) -> Result<(), ReplaceError> {
    automaton.try_replace_all_with_bytes(
        alloc,
        bytes,
        dst,
        |found: &Match, _bytes: &[u8], dst: &mut Vec<u8>| -> Result<bool, AllocError> {
            let (instead, goes_on) = exchanged(found, replacements, until)?;
            dst.extend_from_slice(instead.as_bytes())?;
            Ok(goes_on)
        },
    )
}

impl Row {
    /// Asserts what is made by a list.
    fn is_made<T: Abort, A: Search>(&self, on: &Trial<'_, T, A>) -> Result<(), Fail> {
        let (rt, alloc, automaton) = (on.rt, on.alloc, on.automaton);
        let shows = self.shows;
        assert_eq!(rt; automaton.patterns_len(), self.replacements.len());
        let made = automaton.try_replace_all(alloc, self.text, self.replacements)?;
        same(rt, made.as_bytes(), self.makes.as_bytes(), shows);
        let replacements = bytes_of(alloc, self.replacements)?;
        assert_eq!(rt; automaton.patterns_len(), replacements.len());
        let bytes = self.text.as_bytes();
        let made = automaton.try_replace_all_bytes(alloc, bytes, replacements.as_slice())?;
        same(rt, made.as_slice(), self.bytes, shows);
        Ok(())
    }

    /// Asserts what is made by a closure.
    fn is_appended<T: Abort, A: Search>(&self, on: &Trial<'_, T, A>) -> Result<(), Fail> {
        let (rt, alloc, automaton) = (on.rt, on.alloc, on.automaton);
        let shows = self.shows;
        let fails = matches!(self.until, Some(At::Fails(_)));
        let mut made = String::new(alloc);
        let answer = append(
            automaton,
            alloc,
            self.text,
            self.replacements,
            self.until,
            &mut made,
        );
        let memory = matches!(&answer, Err(ReplaceError::Memory));
        equal(rt, &(answer.is_err(), memory), &(fails, fails), shows);
        same(rt, made.as_bytes(), self.makes.as_bytes(), shows);
        let bytes = self.text.as_bytes();
        let mut made = Vec::new(alloc);
        let answer = append_bytes(
            automaton,
            alloc,
            bytes,
            self.replacements,
            self.until,
            &mut made,
        );
        let memory = matches!(&answer, Err(ReplaceError::Memory));
        equal(rt, &(answer.is_err(), memory), &(fails, fails), shows);
        same(rt, made.as_slice(), self.bytes, shows);
        Ok(())
    }
}

impl<T: Abort> Case<T> for Row {
    fn asked(&self) -> Asked<'_> {
        Asked::of(self.patterns, self.kind, self.letters)
    }

    fn check<A: Search>(&self, on: &Trial<'_, T, A>) -> Result<(), Fail> {
        if !on.searches() {
            return Ok(());
        }
        if self.until.is_none() {
            self.is_made(on)?;
        }
        self.is_appended(on)
    }
}

/// The numbers of patterns.
const NUMBERS: &[&str] = &["0", "1", "2"];

/// Appends the text by the front's own call, with a closure that appends the number of each match's pattern.
fn number(
    ac: &AhoCorasick,
    alloc: Global,
    text: &str,
    until: Option<At>,
    dst: &mut String,
) -> Result<(), AllocError>
    requires { supported_by ac.now Anchored.No }
{
    ac.replace_all_with(
        alloc,
        text,
        dst,
        move |found: &Match, _text: &str, dst: &mut String| -> Result<bool, AllocError> {
            let (instead, goes_on) = exchanged(found, NUMBERS, until)?;
            dst.push_str(instead)?;
            Ok(goes_on)
        },
    )
}

/// The same among bytes.
fn number_bytes(
    ac: &AhoCorasick,
    alloc: Global,
    bytes: &[u8],
    until: Option<At>,
    dst: &mut Vec<u8>,
) -> Result<(), AllocError>
    requires { supported_by ac.now Anchored.No }
{
    ac.replace_all_with_bytes(
        alloc,
        bytes,
        dst,
        move |found: &Match, _bytes: &[u8], dst: &mut Vec<u8>| -> Result<bool, AllocError> {
            let (instead, goes_on) = exchanged(found, NUMBERS, until)?;
            dst.extend_from_slice(instead.as_bytes())?;
            Ok(goes_on)
        },
    )
}

impl Row {
    /// Asserts what is made by a list, by the front's own calls.
    fn is_made_by<T: Abort>(&self, rt: &T, alloc: Global, ac: &AhoCorasick) -> Result<(), Fail>
        requires { supported_by ac.now Anchored.No }
    {
        let shows = self.shows;
        assert_eq!(rt; ac.patterns_len(), self.replacements.len());
        let made = ac.replace_all(alloc, self.text, self.replacements)?;
        same(rt, made.as_bytes(), self.makes.as_bytes(), shows);
        let made = ac.try_replace_all(alloc, self.text, self.replacements)?;
        same(rt, made.as_bytes(), self.makes.as_bytes(), shows);
        let replacements = bytes_of(alloc, self.replacements)?;
        assert_eq!(rt; ac.patterns_len(), replacements.len());
        let bytes = self.text.as_bytes();
        let made = ac.replace_all_bytes(alloc, bytes, replacements.as_slice())?;
        same(rt, made.as_slice(), self.bytes, shows);
        let made = ac.try_replace_all_bytes(alloc, bytes, replacements.as_slice())?;
        same(rt, made.as_slice(), self.bytes, shows);
        Ok(())
    }

    /// Asserts what is made by a closure that appends numbers, by the front's own calls.
    fn is_numbered_by<T: Abort>(&self, rt: &T, alloc: Global, ac: &AhoCorasick) -> Result<(), Fail>
        requires { supported_by ac.now Anchored.No }
    {
        let shows = self.shows;
        let fails = matches!(self.until, Some(At::Fails(_)));
        let mut made = String::new(alloc);
        let answer = number(ac, alloc, self.text, self.until, &mut made);
        equal(rt, &answer.is_err(), &fails, shows);
        same(rt, made.as_bytes(), self.makes.as_bytes(), shows);
        let mut made = Vec::new(alloc);
        let bytes = self.text.as_bytes();
        let answer = number_bytes(ac, alloc, bytes, self.until, &mut made);
        equal(rt, &answer.is_err(), &fails, shows);
        same(rt, made.as_slice(), self.bytes, shows);
        Ok(())
    }
}

impl<T: Abort> OwnCase<T> for Row {
    fn built_of(&self) -> Asked<'_> {
        Case::<T>::asked(self)
    }

    fn check_own(&self, rt: &T, alloc: Global, ac: &AhoCorasick) -> Result<(), Fail> {
        if !serves(ac.start_kind(), Anchored::No) {
            return Ok(());
        }
        if self.until.is_none() {
            self.is_made_by(rt, alloc, ac)?;
        }
        if NUMBERS.starts_with(self.replacements) {
            self.is_numbered_by(rt, alloc, ac)?;
        }
        Ok(())
    }
}

/// Standard matches, byte for byte, and a closure that goes on to the end.
const CASED: Row = Row {
    shows: "",
    patterns: &[],
    kind: Standard,
    letters: Cased,
    text: "",
    replacements: &[],
    until: None,
    makes: "",
    bytes: b"",
};

/// Words that begin one another.
const APPEND: Row = Row {
    patterns: &[b"append", b"appendage", b"app"],
    kind: LeftmostFirst,
    text: "append the app to the appendage",
    replacements: &["0", "1", "2"],
    ..CASED
};

const ROWS: &[Row] = &[
    Row {
        shows: "three words",
        patterns: &[b"fox", b"brown", b"quick"],
        text: "The quick brown fox.",
        replacements: &["sloth", "grey", "slow"],
        makes: "The slow grey sloth.",
        bytes: b"The slow grey sloth.",
        ..CASED
    },
    Row {
        shows: "the first of several patterns at one place",
        replacements: &["x", "y", "z"],
        makes: "x the z to the xage",
        bytes: b"x the z to the xage",
        ..APPEND
    },
    Row {
        shows: "an empty pattern is replaced at each place",
        patterns: &[b""],
        text: "ab",
        replacements: &["-"],
        makes: "-a-b-",
        bytes: b"-a-b-",
        ..CASED
    },
    Row {
        shows: "an empty pattern beside another, under the standard kind",
        patterns: &[b"ab", b""],
        text: "aab",
        replacements: &["X", "-"],
        makes: "-a-a-b-",
        bytes: b"-a-a-b-",
        ..CASED
    },
    Row {
        shows: "an empty pattern after another, under a leftmost kind",
        patterns: &[b"ab", b""],
        text: "aab",
        replacements: &["X", "-"],
        makes: "-aX",
        bytes: b"-aX",
        ..APPEND
    },
    Row {
        shows: "no patterns",
        text: "ab",
        makes: "ab",
        bytes: b"ab",
        ..CASED
    },
    Row {
        shows: "each byte that is a pattern",
        patterns: &[b"o"],
        text: "foo",
        replacements: &["O"],
        makes: "fOO",
        bytes: b"fOO",
        ..CASED
    },
    Row {
        shows: "the longest of several patterns at one place",
        patterns: &[b"a", b"ab"],
        kind: LeftmostLongest,
        text: "xayabbbz",
        replacements: &["1", "2"],
        makes: "x1y2bbz",
        bytes: b"x1y2bbz",
        ..CASED
    },
    Row {
        shows: "the shorter pattern, which comes first",
        patterns: &[b"a", b"ab"],
        text: "xayabbbz",
        replacements: &["1", "2"],
        makes: "x1y1bbbz",
        bytes: b"x1y1bbbz",
        ..APPEND
    },
    Row {
        shows: "letters in both cases",
        patterns: &[b"FOO"],
        letters: Folded,
        text: "foo Foo",
        replacements: &["x"],
        makes: "x x",
        bytes: b"x x",
        ..CASED
    },
    Row {
        shows: "a byte that is no letter has one case",
        patterns: &[b"["],
        letters: Folded,
        text: "{[",
        replacements: &["-"],
        makes: "{-",
        bytes: b"{-",
        ..CASED
    },
    Row {
        shows: "paired digits",
        patterns: &[b"0a"],
        letters: Paired(&[(b'0', b'1')]),
        text: "1a0a",
        replacements: &["x"],
        makes: "xx",
        bytes: b"xx",
        ..CASED
    },
    Row {
        shows: "a match within a character is replaced among bytes alone",
        patterns: &[b"\xa9"],
        text: "aé",
        replacements: &["x"],
        makes: "aé",
        bytes: b"a\xc3x",
        ..CASED
    },
    Row {
        shows: "the number of each pattern",
        makes: "0 the 2 to the 0age",
        bytes: b"0 the 2 to the 0age",
        ..APPEND
    },
    Row {
        shows: "the rest is copied after a closure stopped",
        until: Some(At::Stops(2)),
        makes: "0 the 2 to the appendage",
        bytes: b"0 the 2 to the appendage",
        ..APPEND
    },
    Row {
        shows: "what was appended stays where a closure returns out of memory",
        until: Some(At::Fails(2)),
        makes: "0 the ",
        bytes: b"0 the ",
        ..APPEND
    },
    Row {
        shows: "a closure is not called for a match within a character, but for one among bytes",
        patterns: &[b"\xa9"],
        text: "aé",
        replacements: &["0"],
        until: Some(At::Stops(0)),
        makes: "aé",
        bytes: b"a\xc30",
        ..CASED
    },
];

#[test]
fn replaced(rt: HostRuntime) -> Result<(), Fail> {
    all(&rt, rt.alloc(), ROWS)?;
    all_own(&rt, rt.alloc(), ROWS)
}
