//! The words of one state.
//!
//! Each state is written at once, with its final numbers: first its kind and its failure, then its transitions, then its patterns.
//! Nothing is changed afterwards.
ghost use Rattle.std.specs.Prelude.{◌≡◌, ◌+◌, ◌<◌, ◌≤◌, ◌++◌, ◌∷◌, [], length, IfOk};
ghost use Rattle.std.specs.List.{All};
ghost use Rattle.ac_input.specs.Number.{greatest_number};
ghost use Rattle.ac_tables.specs.Contiguous.Words.{AppendsRow, packed, near, classes_of, match_words, words_of, leading_words, CanBeWritten, nexts_of};

use crate::contiguous::layout::{DENSE, KIND, MOST_SPARSE, NOWHERE, ONE, ONE_PATTERN};
use ac_input::primitives::{PatternID, StateID};
use std::alloc::AllocError;
use std::marker::Model;

/// What is written of a state.
#[derive(Drop)]
pub(super) struct Parts<'a> {
    /// Whether it has an entry for each class, however few transitions it has.
    pub shallow: bool,
    /// The place of the state to which it fails.
    pub fail: StateID,
    /// For each byte that leads on its class, and the place of the next state.
    pub edges: &'a [(u8, StateID)],
    /// The patterns that match.
    pub matches: &'a [PatternID],
}

impl<'a> Model for Parts<'a> {
    ghost use Rattle.ac_tables.specs.Contiguous.Words.{StateParts};

    ghost Value = { StateParts };

    ghost view = { λ s. record {
      shallow = s.shallow;
      fail = s.fail;
      edges = s.edges.now;
      matches = s.matches.now;
    } };
}

/// Puts an entry for each class after the words, which leads nowhere.
fn push_blank(alphabet_len: usize, words: &mut Vec<u32>) -> Result<(), AllocError>
    ensures { IfOk result
        (λ _. AppendsRow [] alphabet_len words.old.items words.new.items) }
{
    for _ in 0..alphabet_len {
        words.push(NOWHERE)?;
    }
    Ok(())
}

/// Puts an entry for each class after the words. Of several transitions with one class the first one counts.
fn push_row(
    edges: &[(u8, StateID)],
    alphabet_len: usize,
    words: &mut Vec<u32>,
) -> Result<(), AllocError>
    requires { All (λ edge. edge.0 < alphabet_len) edges.now }
    ensures { IfOk result
        (λ _. AppendsRow edges.now alphabet_len words.old.items words.new.items) }
{
    let row = words.len();
    push_blank(alphabet_len, words)?;
    for k in (0..edges.len()).rev() {
        let (class, next) = edges[k];
        words[row + class as usize] = next.as_u32();
    }
    Ok(())
}

/// Four classes in a word, the first one in its lowest bits.
fn word_of(a: u8, b: u8, c: u8, d: u8) -> u32
    ensures { result ≡ Rattle.ac_tables.specs.Contiguous.Words.word_of a b c d }
{
    a as u32 + 256 * (b as u32) + 65536 * (c as u32) + 16777216 * (d as u32)
}

/// The class of one of the transitions; that of the last one, where there are fewer.
fn class_at(edges: &[(u8, StateID)], at: usize) -> u8
    requires { 0 < length edges.now }
    ensures { result ≡ near (classes_of edges.now) at }
{
    let last = edges.len() - 1;
    edges[if at < last { at } else { last }].0
}

/// Puts the classes of the transitions after the words, four in a word.
fn push_classes(edges: &[(u8, StateID)], words: &mut Vec<u32>) -> Result<(), AllocError>
    ensures { IfOk result
        (λ _. words.new.items ≡ words.old.items ++ packed (classes_of edges.now)) }
{
    let mut at = 0;
    while at < edges.len() {
        words.push(word_of(
            class_at(edges, at),
            class_at(edges, at + 1),
            class_at(edges, at + 2),
            class_at(edges, at + 3),
        ))?;
        at += 4;
    }
    Ok(())
}

/// Puts where the transitions lead after the words.
fn push_nexts(edges: &[(u8, StateID)], words: &mut Vec<u32>) -> Result<(), AllocError>
    ensures { IfOk result (λ _. words.new.items ≡ words.old.items ++ nexts_of edges.now) }
{
    for edge in edges {
        words.push(edge.1.as_u32())?;
    }
    Ok(())
}

/// Puts the numbers of the patterns after the words.
fn push_numbers(matches: &[PatternID], words: &mut Vec<u32>) -> Result<(), AllocError>
    ensures { IfOk result (λ _. words.new.items ≡ words.old.items ++ matches.now) }
{
    for pattern in matches {
        words.push(pattern.as_u32())?;
    }
    Ok(())
}

/// Puts the patterns of a state after the words: of one its number with the highest bit set, of several first how many.
fn push_matches(matches: &[PatternID], words: &mut Vec<u32>) -> Result<(), AllocError>
    requires { length matches.now ≤ greatest_number + 1 }
    ensures { IfOk result (λ _. words.new.items ≡ words.old.items ++ match_words matches.now) }
{
    match matches {
        [] => {}
        [pattern] => words.push(ONE_PATTERN + pattern.as_u32())?,
        several => {
            words.push(several.len() as u32)?;
            push_numbers(several, words)?;
        }
    }
    Ok(())
}

/// Puts the kind of a state and its failure after the words.
fn push_head(kind: u32, fail: StateID, words: &mut Vec<u32>) -> Result<(), AllocError>
    ensures { IfOk result (λ _. words.new.items ≡ words.old.items ++ kind ∷ fail ∷ []) }
{
    words.push(kind)?;
    words.push(fail.as_u32())?;
    Ok(())
}

/// Puts the kind of a state, its failure and its transitions after the words.
fn push_transitions(
    parts: &Parts<'_>,
    alphabet: usize,
    words: &mut Vec<u32>,
) -> Result<(), AllocError>
    requires { CanBeWritten alphabet parts.now }
    ensures { IfOk result
        (λ _. words.new.items ≡ words.old.items ++ leading_words alphabet parts.now) }
{
    let edges = parts.edges;
    if parts.shallow || edges.len() > MOST_SPARSE {
        push_head(DENSE, parts.fail, words)?;
        return push_row(edges, alphabet, words);
    }
    if edges.len() == 1 && parts.matches.len() == 0 {
        push_head(ONE + (KIND + 1) * (edges[0].0 as u32), parts.fail, words)?;
        return push_nexts(edges, words);
    }
    push_head(edges.len() as u32, parts.fail, words)?;
    push_classes(edges, words)?;
    push_nexts(edges, words)
}

/// Puts the words of a state after those of the others.
pub(super) fn push_state(
    parts: &Parts<'_>,
    alphabet_len: usize,
    words: &mut Vec<u32>,
) -> Result<(), AllocError>
    requires { CanBeWritten alphabet_len parts.now }
    ensures { IfOk result
        (λ _. words.new.items ≡ words.old.items ++ words_of alphabet_len parts.now) }
{
    push_transitions(parts, alphabet_len, words)?;
    push_matches(parts.matches, words)
}
