//! The automaton that most callers need, and which one serves it.
/// Calls a function of the automaton that serves.
macro_rules! dispatch {
    ($ac:ident.$call:ident($($value:expr),*)) => {
        match $ac.serving() {
            Engine::Noncontiguous(nfa) => nfa.$call($($value),*),
            Engine::Contiguous(nfa) => nfa.$call($($value),*),
            Engine::Dfa(dfa) => dfa.$call($($value),*),
        }
    };
}

mod automaton;
mod builder;
mod mask;
mod replace;
mod search;
mod stream;
mod words;

ghost use Rattle.std.specs.Prelude.{◌≡◌, ◌↔◌, IfOk, IsTrue};
ghost use Rattle.ac_input.specs.Work.{longest, shortest};
ghost use Rattle.aho_corasick.specs.Engine.{kind_served, engine_supported_by};
ghost use Rattle.ac_input.specs.declared.search.Anchored.{Anchored};
ghost use Rattle.ac_input.specs.Dfa.{Serves};

use crate::engine::Engine;
use crate::shared::Shared;
use ac_automaton::automaton::Automaton;
use ac_automaton::in_memory::words as in_text;
use ac_automaton::{iter, overlapping, stream as streams};
use ac_input::search::{MatchKind, StartKind};
pub use builder::AhoCorasickBuilder;
use std::alloc::{AllocError, Global};
use std::fmt::{self, Debug, Formatter};
use std::sync::Arc;

/// Which automaton serves.
#[derive(Clone, Copy, Debug, PartialEq, Eq)]
pub enum AhoCorasickKind {
    /// The noncontiguous NFA.
    NoncontiguousNFA,
    /// The contiguous NFA.
    ContiguousNFA,
    /// The DFA.
    DFA,
}

/// An automaton that searches for many patterns at once.
///
/// It is built once ([`AhoCorasick::new`], or a builder) and searches as often as needed. Building it takes time and memory in
/// proportion to the bytes of the patterns; a search takes time in proportion to the bytes that it reads, however many patterns
/// there are.
///
/// A search returns an error only for its configuration, never for what the haystack holds:
///
/// - for an anchoring that the start kind doesn't have;
/// - for a stream, overlapping matches or whole words under a leftmost kind;
/// - for a stream or whole words where a pattern is empty;
/// - for an iterator over overlapping matches of an anchored input.
///
/// Each call has two forms. Those with `try_`, such as [`AhoCorasick::try_find`], return a `MatchError` then. The others, such
/// as [`AhoCorasick::find`], require that the configuration has the search, where the Rust crate panics. By the settings at first
/// every search has it that isn't anchored. A struct that holds an automaton says so in two ghost fields, by `start_kind_of` and
/// `kind_of`.
///
/// ```text
/// let ac = AhoCorasick::from_patterns(alloc, &["apple", "maple", "Snapple"])?;
/// for found in ac.find_iter(Input::from("Nobody likes maple in their apple flavored Snapple.")) {
///     // patterns 1, 0 and 2, at 13..18, 28..33 and 43..50
/// }
/// ```
///
/// A clone shares the automaton, and takes no memory for another. Its `Debug` shows the kinds and how many patterns there are.
#[derive(Drop)]
pub struct AhoCorasick {
    shared: Arc<Shared>,
    /// The start kind that was set. An NFA has a start for all searches, but runs only these, so that the same searches return an
    /// error whichever automaton serves.
    start_kind: StartKind,
    ghost starts: { (anchored : Anchored) → Serves start_kind anchored → ∥ engine_supported_by shared.value.engine anchored ∥₁ },
}

/// The remaining matches of an input. From [`AhoCorasick::find_iter`].
pub type FindIter<'a, 'h> = iter::FindIter<'a, 'h, AhoCorasick>;

/// The remaining matches of an input that is read ahead. From [`AhoCorasick::find_iter_ahead`].
pub type FindIterAhead<'a, 'h> = iter::ahead::FindIterAhead<'a, 'h, AhoCorasick>;

/// The remaining overlapping matches of an input. From [`AhoCorasick::find_overlapping_iter`].
pub type FindOverlappingIter<'a, 'h> = overlapping::FindOverlappingIter<'a, 'h, AhoCorasick>;

/// The remaining whole words of a text. From [`AhoCorasick::try_find_word_iter`].
pub type FindWordIter<'a, 'h> = in_text::FindWordIter<'a, 'h, AhoCorasick>;

/// The remaining matches of a stream. From [`AhoCorasick::stream_find_iter`].
pub type StreamFindIter<'a, R> = streams::StreamFindIter<'a, AhoCorasick, R>;

impl Debug for AhoCorasick {
    fn fmt<W: fmt::Write>(&self, f: &mut Formatter<W>) -> fmt::Result {
        f.debug_struct("AhoCorasick")
            .field("kind", &self.kind())
            .field("match_kind", &self.match_kind())
            .field("start_kind", &self.start_kind())
            .field("patterns_len", &self.patterns_len())
            .finish_non_exhaustive()
    }
}

impl AhoCorasick {
    ghost use Rattle.aho_corasick.specs.AhoCorasick.{MeansSame, serving_engine, as_built, kind_of, start_kind_of, patterns_of, pattern_count};
    ghost use Rattle.aho_corasick.specs.Engine.{engine_built_as};

    /// Another that means the same. They share one automaton.
    pub fn clone(&self, _alloc: Global) -> Result<AhoCorasick, AllocError>
        ensures { IfOk result (MeansSame self.now) }
    {
        Ok(AhoCorasick {
            shared: self.shared.clone()?,
            start_kind: self.start_kind,
        })
    }

    /// The automaton that serves.
    #[inline]
    fn serving(&self) -> &Engine
        ensures engine { serving_engine self.now ≡ result.now }
        ensures built { as_built self.now ≡ engine_built_as result.now }
    {
        &self.shared.engine
    }

    /// Which automaton serves: the one that was named, or the one that the builder took. It changes time and memory, and no
    /// result. For a byte a DFA looks at one state, and an NFA at two at most. A DFA takes 4 bytes for each class of bytes in each
    /// state; a contiguous NFA takes the least memory.
    ///
    /// ```text
    /// Summary {
    ///     kind: ac.kind(),
    ///     match_kind: ac.match_kind(),
    ///     start_kind: ac.start_kind(),
    ///     patterns: ac.patterns_len(),
    ///     shortest: ac.min_pattern_len(),
    ///     longest: ac.max_pattern_len(),
    ///     memory: ac.memory_usage(),
    /// }
    /// ```
    pub fn kind(&self) -> AhoCorasickKind
        ensures kind { result ≡ kind_served (serving_engine self.now) }
        ensures looks { IsTrue (as_built self.now).deterministic ↔ (result ≡ AhoCorasickKind.DFA) }
    {
        match self.serving() {
            Engine::Noncontiguous(_) => AhoCorasickKind::NoncontiguousNFA,
            Engine::Contiguous(_) => AhoCorasickKind::ContiguousNFA,
            Engine::Dfa(_) => AhoCorasickKind::DFA,
        }
    }

    /// Which searches it serves.
    pub fn start_kind(&self) -> StartKind
        ensures { result ≡ start_kind_of self.now }
    {
        self.start_kind
    }

    /// Which of several overlapping occurrences is the match.
    pub fn match_kind(&self) -> MatchKind
        ensures { result ≡ kind_of self.now }
    {
        Automaton::match_kind(self)
    }

    /// How many bytes the shortest pattern has; `usize::MAX` where there is none.
    pub fn min_pattern_len(&self) -> usize
        ensures { result ≡ shortest (patterns_of self.now) }
    {
        Automaton::min_pattern_len(self)
    }

    /// How many bytes the longest pattern has; 0 where there is none.
    pub fn max_pattern_len(&self) -> usize
        ensures { result ≡ longest (patterns_of self.now) }
    {
        Automaton::max_pattern_len(self)
    }

    /// How many patterns it was made from. Those that can't match count too.
    pub fn patterns_len(&self) -> usize
        ensures { result ≡ pattern_count self.now }
    {
        Automaton::patterns_len(self)
    }

    /// About how many bytes of memory it holds.
    pub fn memory_usage(&self) -> usize {
        Automaton::memory_usage(self)
    }
}
