//! The front: whole words of a text whose pieces are pushed. However it is cut into pieces, its words come out.
ghost use Rattle.std.specs.Prelude.{◌≡◌, false, IfOk};
ghost use Rattle.std.specs.List.{concat};
ghost use Rattle.ac_literal.specs.Packed.{bytes_of};
ghost use Rattle.ac_automaton.specs.Stream.{CanBeCounted, read_by};
ghost use Rattle.ac_automaton.specs.Stream.WholeWords.Search.{words_in};
ghost use Rattle.aho_corasick.specs.AhoCorasick.{as_built};
ghost use Rattle.example_callers.specs.Pushed.{HasGathered, IsGathered, WentOn};

use ac_automaton::search::Search;
use ac_input::search::{Match, MatchKind};
use ac_input::steps::Steps;
use aho_corasick::{AhoCorasick, StreamError, WordSearch};
use std::alloc::{AllocError, Global};

/// Takes the words that are decided.
fn gather_words<A: Search>(
    search: &mut WordSearch<A>,
    found: &mut Vec<Match>,
) -> Result<(), AllocError>
    requires few { CanBeCounted (read_by search.old) }
    requires so_far { found.old.items ≡ search.old.given }
    ensures { IfOk result (λ _. HasGathered search.old search.new found.new.items) }
{
    let mut steps = Steps::new();
    while let Some(next) = search.next_counted(&mut steps) {
        found.push(next).map_err(AllocError::from)?;
    }
    Ok(())
}

/// Pushes a piece whole, and takes the words that are decided then.
fn push_words<A: Search>(
    search: &mut WordSearch<A>,
    piece: &[u8],
    found: &mut Vec<Match>,
) -> Result<(), StreamError>
    requires open { search.old.closed ≡ false }
    requires so_far { IsGathered search.old found.old.items }
    ensures gathered { IfOk result (λ _. IsGathered search.new found.new.items) }
    ensures on { IfOk result (λ _. WentOn search.old search.new piece.now) }
{
    let mut rest = piece;
    while !rest.is_empty() {
        let n = search.push_counted(rest, &mut Steps::new())?;
        rest = &rest[n..];
        gather_words(search, found)?;
    }
    Ok(())
}

/// The whole words under a kind of a text that comes in pieces: those of the whole text.
pub fn words_of_pieces(
    ac: &AhoCorasick,
    kind: MatchKind,
    alloc: Global,
    pieces: &[&[u8]],
) -> Result<Vec<Match>, StreamError>
    ensures { IfOk result (λ v. v.items ≡ words_in kind (as_built ac.now) (concat (bytes_of pieces.now))) }
{
    let mut search = WordSearch::new(ac, kind, alloc)?;
    let mut found = Vec::new(alloc);
    for piece in pieces {
        push_words(&mut search, piece, &mut found)?;
    }
    search.finish();
    gather_words(&mut search, &mut found)?;
    Ok(found)
}
