//! The whole words of a text that is held, one after another.
//!
//! An occurrence counts only where no word byte stands beside it: see [`words`](crate::words). Of those that count a walk takes the match
//! under a kind, goes on where it ends, and so on to the end of the text. The automaton is of the standard kind, whatever kind is
//! asked for, since it meets every occurrence. An empty pattern is an error.
ghost use Rattle.std.specs.Prelude.{◌≡◌, ◌≤◌, [], length, IfErr, IfOk, OnOk};
ghost use Rattle.std.specs.Iterator.{YieldsFirst, item_count};
ghost use Rattle.ac_input.specs.declared.search.Anchored.TheVariants.{No};
ghost use Rattle.ac_input.specs.Word.{is_whole_word};
ghost use Rattle.ac_input.specs.Work.{shortest};
ghost use Rattle.ac_automaton.specs.InMemory.Words.{AnswersWords, AnswersWordsFrom, CanFindWords, CostsNextWord, GivesWord, IsWordsRefusal, words_left};

use crate::automaton::Automaton;
use crate::error::MatchError;
use crate::in_memory::overlapping::unanchored_start;
use crate::search::Search;
use crate::words::{self, Window, WordPlace, next_word};
use ac_input::primitives::StateID;
use ac_input::search::{Match, MatchKind};
use ac_input::steps::Steps;
use std::marker::Model;

/// The remaining whole words of a text. From [`Search::try_find_word_iter`](crate::search::Search::try_find_word_iter).
///
/// After its first `None` it always returns `None`, and looks at nothing more.
#[derive(Drop)]
pub struct FindWordIter<'a, 'h, A: Search> {
    automaton: &'a A,
    haystack: &'h [u8],
    place: WordPlace,
    sums: Steps,
}

impl<'a, 'h, A: Search> Model for FindWordIter<'a, 'h, A> {
    ghost use Rattle.ac_input.specs.declared.search.Anchored.TheVariants.{No};
    ghost use Rattle.ac_automaton.specs.InMemory.Words.{StandsInText, WordWalk, word_walk_at};

    ghost Value = { WordWalk };

    ghost view = { λ i. word_walk_at (A.built i.automaton.now) i.haystack.now i.place i.sums };

    ghost invariant = { λ i. StandsInText (A.built i.automaton.now) (A.Reaches i.automaton.now No) i.haystack.now i.place };
}

/// Whether a match is a whole word of the text in which it was found: no word byte stands beside it.
pub fn is_whole_word(text: &[u8], found: &Match) -> bool
    ensures { result ≡ is_whole_word text.now found.now }
{
    let window = Window {
        bytes: text,
        from: 0,
        closed: true,
    };
    words::is_whole_word(window, found)
}

/// The start state of a search for whole words, where the automaton can make one.
fn start_for_words<A: Automaton>(automaton: &A) -> Result<StateID, MatchError>
    ensures start { IfOk result (λ sid. A.Reaches automaton.now No [] sid) }
    ensures can { OnOk result (CanFindWords (A.built automaton.now) (A.supports automaton.now)) }
    ensures error { IfErr result (IsWordsRefusal (A.built automaton.now) (A.supports automaton.now)) }
{
    let start = unanchored_start(automaton)?;
    if automaton.min_pattern_len() == 0 {
        return Err(MatchError::unsupported_empty());
    }
    Ok(start)
}

/// The whole words of a text under a kind.
pub(crate) fn find_word_iter<'a, 'h, A: Search>(
    automaton: &'a A,
    kind: MatchKind,
    haystack: &'h [u8],
) -> Result<FindWordIter<'a, 'h, A>, MatchError>
    ensures { AnswersWords (A.built automaton.now) (A.supports automaton.now) kind haystack.entry.now result }
{
    find_word_iter_from(automaton, kind, haystack, 0)
}

/// The same, of a walk that stands at a place.
pub(crate) fn find_word_iter_from<'a, 'h, A: Search>(
    automaton: &'a A,
    kind: MatchKind,
    haystack: &'h [u8],
    at: usize,
) -> Result<FindWordIter<'a, 'h, A>, MatchError>
    requires within { at ≤ length haystack.now }
    ensures { AnswersWordsFrom (A.built automaton.now) (A.supports automaton.now) kind haystack.entry.now at result }
{
    let start = start_for_words(automaton)?;
    Ok(FindWordIter {
        automaton,
        haystack,
        place: WordPlace::new_at(kind, start, at),
        sums: Steps::new(),
    })
}

impl<'a, 'h, A: Search> FindWordIter<'a, 'h, A> {
    /// The next whole word, as `next` returns it; counts what it does.
    pub fn next_counted(&mut self, steps: &mut Steps) -> Option<Match>
        ensures gives { GivesWord self.old result self.new }
        ensures cost { CostsNextWord self.old self.new steps.old steps.new result }
        ensures filled { 1 ≤ shortest self.new.built.dictionary.patterns }
    {
        let window = Window {
            bytes: self.haystack,
            from: 0,
            closed: true,
        };
        let mut taken = Steps::new();
        let found = next_word(self.automaton, window, &mut self.place, &mut taken);
        steps.add(&taken);
        self.sums.add(&taken);
        found
    }

    /// Where the walk stands: at the end of the last word, or where the walk began if there was none.
    /// [`try_find_word_iter_from`](crate::search::Search::try_find_word_iter_from) goes on from there.
    pub fn place(&self) -> usize
        ensures value { result ≡ self.now.at }
        ensures within { result ≤ length self.now.haystack }
    {
        self.place.last()
    }
}

impl<'a, 'h, A: Search> Iterator for FindWordIter<'a, 'h, A> {
    type Item = Match;

    ghost next_gives = { YieldsFirst words_left };

    ghost remaining = { item_count words_left };

    fn next(&mut self) -> Option<Match> {
        let mut steps = Steps::new();
        self.next_counted(&mut steps)
    }
}
