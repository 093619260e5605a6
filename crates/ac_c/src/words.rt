//! The whole words of a text, from a place that C keeps, and the text with each of them replaced.
//!
//! No word is empty and none overlap, so a walk goes on from the end of its last word, and C keeps that place alone.
ghost use Rattle.std.specs.Prelude.{◌≡◌, ◌≤◌, length};
ghost use Rattle.ac_c.specs.Build.{kind_by};
ghost use Rattle.ac_c.specs.Words.{AnswersSomeWords, AnswersWordText, AreWordsBy, AreWordsReplaced, CostsFilled, CostsWords, GivesWords, given_words};

use crate::build::kind_by;
use crate::found::Found;
use crate::replace::hold;
use crate::status::{BAD_CURSOR, BAD_KIND, NO_MEMORY, NONE, OK, WRONG_COUNT, refused};
use crate::text::Text;
use aho_corasick::{AhoCorasick, FindWordIter, MatchKind, ReplaceError, Steps};
use std::alloc::Global;

/// From where a walk over words goes on, how many words it gave, and the status.
#[repr(C)]
#[derive(Clone, Copy)]
pub struct Words {
    pub from: usize,
    pub count: usize,
    pub status: u32,
}

/// Fills a buffer with the words that come next; returns how many these are, and counts what it does.
fn fill(words: &mut FindWordIter<'_, '_>, out: &mut [Found], steps: &mut Steps) -> usize
    requires { words.old.at ≤ length words.old.haystack }
    ensures gives { GivesWords words.old words.new out.old out.new result }
    ensures cost { CostsFilled words.old words.new.at (length out.old) result steps.old steps.new }
{
    for at in 0..out.len() {
        match words.next_counted(steps) {
            Some(found) => out[at] = Found::from_match(&found),
            None => return at,
        }
    }
    out.len()
}

/// How many words come next, and from where the walk goes on; counts what it does.
fn next_words_counted(
    ac: &AhoCorasick,
    kind: MatchKind,
    haystack: &[u8],
    from: usize,
    out: &mut [Found],
    steps: &mut Steps,
) -> Result<(usize, usize), u32>
    ensures words { AreWordsBy ac.now kind haystack.now from out.old out.new result }
    ensures cost { CostsWords ac.now kind haystack.now from (length out.old) steps.old steps.new result }
{
    if from > haystack.len() {
        return Err(BAD_CURSOR);
    }
    match ac.try_find_word_iter_from(kind, haystack, from) {
        Err(error) => Err(refused(&error)),
        Ok(mut words) => {
            let count = fill(&mut words, out, steps);
            Ok((count, words.place()))
        }
    }
}

/// What a call gave, as C sees it.
fn as_words(from: usize, room: usize, given: Result<(usize, usize), u32>) -> Words
    ensures { result ≡ given_words from room given }
{
    match given {
        Ok((count, from)) => Words {
            from,
            count,
            status: if count == 0 && room > 0 { NONE } else { OK },
        },
        Err(status) => Words {
            from,
            count: 0,
            status,
        },
    }
}

/// The next whole words under the kind of this number, as many as the buffer has room for, as C sees it.
pub fn next_words(
    ac: &AhoCorasick,
    kind: u32,
    haystack: &[u8],
    from: usize,
    out: &mut [Found],
) -> Words
    ensures { AnswersSomeWords ac.now kind haystack.now from out.old out.new result }
{
    let room = out.len();
    let given = match kind_by(kind) {
        Some(kind) => next_words_counted(ac, kind, haystack, from, out, &mut Steps::new()),
        None => Err(BAD_KIND),
    };
    as_words(from, room, given)
}

/// The text with each of its whole words under a kind replaced, or the status.
fn words_replaced(
    ac: &AhoCorasick,
    kind: u32,
    alloc: Global,
    haystack: &[u8],
    replacements: &[&[u8]],
) -> Result<Vec<u8>, u32>
    ensures { AreWordsReplaced ac.now (kind_by kind) haystack.now replacements.now result }
{
    let Some(kind) = kind_by(kind) else {
        return Err(BAD_KIND);
    };
    if replacements.len() != ac.patterns_len() {
        return Err(WRONG_COUNT);
    }
    match ac.try_replace_words(kind, alloc, haystack, replacements) {
        Ok(text) => Ok(text),
        Err(ReplaceError::Match(error)) => Err(refused(&error)),
        Err(ReplaceError::Memory) => Err(NO_MEMORY),
    }
}

/// The text with each of its whole words replaced, under the kind of this number, in memory of its own.
pub fn replace_words(
    ac: &AhoCorasick,
    kind: u32,
    alloc: Global,
    haystack: &[u8],
    replacements: &[&[u8]],
    text: &mut Text,
) -> u32
    ensures { AnswersWordText ac.now kind haystack.now replacements.now text.old.value text.new.value result }
{
    let made = words_replaced(ac, kind, alloc, haystack, replacements);
    hold(alloc, made, text)
}
