//! The front in memory that may end: which automaton serves, copies, and replacement by the front's own calls.
//!
//! `rt try --test --fail-alloc N -- in_memory_that_may_end` refuses the Nth allocation, and no other. So a call that is refused memory
//! is made once more, and must succeed.
ghost use Rattle.std.specs.Prelude.{◌≡◌};
ghost use Rattle.aho_corasick.specs.AhoCorasick.{supported_by, pattern_count};

use crate::stream_memory::{FRONTS, SLOTH};
use ac_input::search::{Anchored, MatchKind, StartKind};
use ac_noncontiguous::BuildErrorKind;
use aho_corasick::AhoCorasickKind::DFA;
use aho_corasick::{AhoCorasick, AhoCorasickKind};
use std::alloc::{AllocError, Global};
use std::process::Abort;
use std::test::Fail;
use test_rows::engines::{Asked, Letters, front_builder, serves};
use test_rows::fronts::NAMED;

/// The text in which the word is replaced, and what is made of it.
const TEXT: &str = "A fox and a fox.";

const MADE: &str = "A sloth and a sloth.";

/// Appends the text with the word replaced, by a closure.
fn append(ac: &AhoCorasick, alloc: Global, dst: &mut String) -> Result<(), AllocError>
    requires { supported_by ac.now Anchored.No }
{
    ac.replace_all_with(alloc, TEXT, dst, |_, _, dst| {
        dst.push_str("sloth")?;
        Ok(true)
    })
}

/// The same among bytes.
fn append_bytes(ac: &AhoCorasick, alloc: Global, dst: &mut Vec<u8>) -> Result<(), AllocError>
    requires { supported_by ac.now Anchored.No }
{
    ac.replace_all_with_bytes(alloc, TEXT.as_bytes(), dst, |_, _, dst| {
        dst.extend_from_slice(b"sloth")?;
        Ok(true)
    })
}

/// Asserts what is made of the text. What a closure appended before it was refused memory stays.
fn text_is_made<T: Abort>(rt: &T, alloc: Global, ac: &AhoCorasick) -> Result<(), Fail>
    requires supports { supported_by ac.now Anchored.No }
    requires one { pattern_count ac.now ≡ 1 }
{
    let made = match ac.replace_all(alloc, TEXT, SLOTH) {
        Ok(made) => made,
        Err(_) => ac.replace_all(alloc, TEXT, SLOTH)?,
    };
    assert_eq!(rt; made.as_bytes(), MADE.as_bytes());
    let mut made = String::new(alloc);
    let answer = append(ac, alloc, &mut made);
    assert!(rt; FRONTS.contains(&made.as_str()));
    assert_eq!(rt; answer.is_ok(), made.as_str() == MADE);
    if answer.is_err() {
        append(ac, alloc, &mut String::new(alloc))?;
    }
    Ok(())
}

/// The same among bytes.
fn bytes_are_made<T: Abort>(rt: &T, alloc: Global, ac: &AhoCorasick) -> Result<(), Fail>
    requires supports { supported_by ac.now Anchored.No }
    requires one { pattern_count ac.now ≡ 1 }
{
    let fronts = FRONTS.map(|it| it.as_bytes());
    let made = match ac.replace_all_bytes(alloc, TEXT.as_bytes(), &[b"sloth"]) {
        Ok(made) => made,
        Err(_) => ac.replace_all_bytes(alloc, TEXT.as_bytes(), &[b"sloth"])?,
    };
    assert_eq!(rt; made.as_slice(), MADE.as_bytes());
    let mut made = Vec::new(alloc);
    let answer = append_bytes(ac, alloc, &mut made);
    assert!(rt; fronts.contains(&made.as_slice()));
    assert_eq!(rt; answer.is_ok(), made.as_slice() == MADE.as_bytes());
    if answer.is_err() {
        append_bytes(ac, alloc, &mut Vec::new(alloc))?;
    }
    Ok(())
}

/// Asserts which automaton serves, and what is made by the front.
fn is_whole<T: Abort>(
    rt: &T,
    alloc: Global,
    ac: &AhoCorasick,
    served: AhoCorasickKind,
) -> Result<(), Fail> {
    assert_eq!(rt; ac.kind(), served);
    if !serves(ac.start_kind(), Anchored::No) || ac.patterns_len() != 1 {
        return Err("one word, for searches that aren't anchored".into());
    }
    text_is_made(rt, alloc, ac)?;
    bytes_are_made(rt, alloc, ac)
}

/// Asserts the same of a copy.
fn copy_is_whole<T: Abort>(
    rt: &T,
    alloc: Global,
    ac: &AhoCorasick,
    served: AhoCorasickKind,
) -> Result<(), Fail> {
    let copy = match ac.clone(alloc) {
        Ok(copy) => copy,
        Err(_) => ac.clone(alloc)?,
    };
    is_whole(rt, alloc, &copy, served)
}

/// Asserts that the named automaton serves, or where none is named a DFA; or that there was no memory for it, and no other serves.
fn is_served<T: Abort>(rt: &T, alloc: Global, named: Option<AhoCorasickKind>) -> Result<(), Fail> {
    let asked = Asked {
        patterns: &[b"fox"],
        kind: MatchKind::Standard,
        letters: Letters::Cased,
    };
    let served = named.unwrap_or(DFA);
    match &front_builder(asked, named, StartKind::Unanchored)?.build(alloc, asked.patterns) {
        Ok(ac) => {
            is_whole(rt, alloc, ac, served)?;
            copy_is_whole(rt, alloc, ac, served)
        }
        Err(error) => {
            assert_eq!(rt; *error.kind(), BuildErrorKind::Memory);
            Ok(())
        }
    }
}

#[test]
fn in_memory_that_may_end(rt: HostRuntime) -> Result<(), Fail> {
    for named in NAMED {
        is_served(&rt, rt.alloc(), named)?;
    }
    Ok(())
}
