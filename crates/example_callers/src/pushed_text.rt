//! The front: a replacement over a stream whose pieces are pushed. A slice of the text borrows the replacement, so a loop takes each
//! slice in a function of its own: [`append_next`].
ghost use Rattle.std.specs.Prelude.{◌≡◌, false, length, map, IfOk};
ghost use Rattle.std.specs.List.{concat};
ghost use Rattle.ac_automaton.specs.Stream.{CanBeCounted, read_by};
ghost use Rattle.ac_automaton.specs.Stream.Replace.{replaced_in};
ghost use Rattle.aho_corasick.specs.AhoCorasick.{as_built, pattern_count};
ghost use Rattle.example_callers.specs.PushedText.{AppendsDecided, AppendsNext, IsTextSoFar, TextWentOn};

use ac_automaton::search::Search;
use ac_input::steps::Steps;
use aho_corasick::{AhoCorasick, StreamError, StreamReplacer};
use std::alloc::{AllocError, Global};

/// Appends the next slice of the text that is decided, and says whether there was one.
pub fn append_next<A: Search>(
    replacer: &mut StreamReplacer<A>,
    replacements: &[&[u8]],
    text: &mut Vec<u8>,
) -> Result<bool, AllocError>
    requires one_each { length replacements.now
        ≡ length replacer.old.search.built.dictionary.patterns }
    ensures { IfOk result (AppendsNext replacer.old replacer.new
        (map (λ r. r.now) replacements.now) text.old.items text.new.items) }
{
    match replacer.next_counted(replacements, &mut Steps::new()) {
        Some(slice) => {
            text.extend_from_slice(slice)?;
            Ok(true)
        }
        None => Ok(false),
    }
}

/// Appends all of the text that is decided.
pub fn append_decided<A: Search>(
    replacer: &mut StreamReplacer<A>,
    replacements: &[&[u8]],
    text: &mut Vec<u8>,
) -> Result<(), AllocError>
    requires few { CanBeCounted (read_by replacer.old.search) }
    requires one_each { length replacements.now
        ≡ length replacer.old.search.built.dictionary.patterns }
    ensures { IfOk result (λ _. AppendsDecided replacer.old replacer.new
        (map (λ r. r.now) replacements.now) text.old.items text.new.items) }
{
    while append_next(replacer, replacements, text)? {}
    Ok(())
}

/// Pushes a piece whole, and appends the text that is decided then.
fn append_piece<A: Search>(
    replacer: &mut StreamReplacer<A>,
    replacements: &[&[u8]],
    piece: &[u8],
    text: &mut Vec<u8>,
) -> Result<(), StreamError>
    requires one_each { length replacements.now
        ≡ length replacer.old.search.built.dictionary.patterns }
    requires so_far { IsTextSoFar replacer.old (map (λ r. r.now) replacements.now) text.old.items }
    ensures so_far { IfOk result (λ _. IsTextSoFar replacer.new
        (map (λ r. r.now) replacements.now) text.new.items) }
    ensures on { IfOk result (λ _. TextWentOn replacer.old replacer.new piece.now) }
{
    let mut rest = piece;
    while !rest.is_empty() {
        let n = replacer.push_counted(rest, &mut Steps::new())?;
        rest = &rest[n..];
        append_decided(replacer, replacements, text)?;
    }
    Ok(())
}

/// A text that comes in pieces, with its matches replaced: that of the whole text, under whichever kind.
pub fn replaced_pieces(
    ac: &AhoCorasick,
    alloc: Global,
    pieces: &[&[u8]],
    replacements: &[&[u8]],
) -> Result<Vec<u8>, StreamError>
    requires one_each { length replacements.now ≡ pattern_count ac.now }
    ensures { IfOk result (λ v. v.items ≡ replaced_in (as_built ac.now)
        (map (λ r. r.now) replacements.now) (concat (map (λ p. p.now) pieces.now))) }
{
    let mut replacer = StreamReplacer::any_kind(ac, alloc)?;
    let mut text = Vec::new(alloc);
    for piece in pieces {
        append_piece(&mut replacer, replacements, piece, &mut text)?;
    }
    replacer.finish();
    append_decided(&mut replacer, replacements, &mut text)?;
    Ok(text)
}
