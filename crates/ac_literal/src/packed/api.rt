//! Builders and searchers of packed search.
ghost use Rattle.std.specs.Prelude.{◌≡◌, ◌↔◌, ◌≤◌, [], length, IfOk, OnOk, OnErr, IsSome, IfSome};
ghost use Rattle.std.specs.Iterator.{YieldsFirst, item_count};
ghost use Rattle.ac_input.specs.Work.{shortest};
ghost use Rattle.ac_literal.specs.Packed.{fresh, added, added_all, built, bytes_of, leftmost_first, matches_of, HasBeginning, AreServed, IsBestIn, search_kind, in_whole};
ghost use Rattle.ac_input.specs.Best.{IsBest};

use crate::packed::pattern::Patterns;
use crate::packed::scanner::{Pace, Scanner};
use ac_input::search::{Match, Span};
use std::alloc::{AllocError, Global};
use std::marker::Model;

/// How many patterns a searcher has at most.
pub const PATTERN_LIMIT: usize = 128;

/// Which of several overlapping occurrences is the match. Packed search has only the leftmost kinds.
#[derive(Clone, Copy, Debug, Default, PartialEq, Eq)]
pub enum MatchKind {
    /// The occurrence that starts first; of those, the one whose pattern was added first.
    #[default]
    LeftmostFirst,
    /// The occurrence that starts first; of those, the longest; of those, the one whose pattern was added first.
    LeftmostLongest,
}

/// The settings of a searcher.
///
/// ```text
/// let mut config = Config::new();
/// config.match_kind(MatchKind::LeftmostLongest);
/// let mut builder = config.builder(alloc);
/// ```
#[derive(Clone, Drop)]
pub struct Config {
    kind: MatchKind,
}

impl Model for Config {
    ghost use Rattle.ac_literal.specs.declared.packed.api.MatchKind.{MatchKind};

    ghost Value = { MatchKind };

    ghost view = { λ c. c.kind };

    ghost inverse = { λ kind. record { kind = kind } };
}

impl Default for Config {
    ghost use Rattle.std.specs.Prelude.{◌≡◌};
    ghost use Rattle.ac_literal.specs.declared.packed.api.MatchKind.TheVariants.{LeftmostFirst};

    ghost is_default = { λ made. made ≡ LeftmostFirst };

    fn default() -> Config {
        Config::new()
    }
}

impl Config {
    /// Leftmost-first matches.
    pub fn new() -> Config
        ensures { result ≡ MatchKind.LeftmostFirst }
    {
        Config {
            kind: MatchKind::LeftmostFirst,
        }
    }

    /// A builder of such searchers. It takes no memory yet, and takes it from `alloc` later.
    pub fn builder(&self, alloc: Global) -> Builder
        ensures { result ≡ fresh self.now }
    {
        Builder {
            config: Config { kind: self.kind },
            patterns: Patterns::new(alloc),
            inert: false,
        }
    }

    /// Sets which occurrence is the match.
    pub fn match_kind(&mut self, kind: MatchKind) -> &mut Config
        ensures same { result.ghost_name ≡ self.entry.ghost_name }
        ensures value { result.now ≡ kind }
    {
        self.kind = kind;
        self
    }

    /// Forces the rolling hash alone. Marks and hash are one search, and no result depends on it, so this changes nothing.
    pub fn only_rabin_karp(&mut self, _yes: bool) -> &mut Config
        ensures same { result.ghost_name ≡ self.entry.ghost_name }
        ensures value { result.now ≡ self.old }
    {
        self
    }
}

/// Collects the patterns of a searcher.
///
/// There may be 1 to 128 of them, none empty. An empty one, or one too many, drops all of them and makes the builder inert: it
/// takes no more patterns, and builds nothing. A builder without patterns builds nothing either. Each pattern is copied into
/// memory from the allocator that the builder was made with.
#[derive(Drop)]
pub struct Builder {
    config: Config,
    patterns: Patterns,
    inert: bool,
}

impl Model for Builder {
    ghost use Rattle.std.specs.Prelude.{◌≡◌, true, []};
    ghost use Rattle.ac_literal.specs.Packed.{Building, AreTaken};

    ghost Value = { Building };

    ghost view = { λ b. record { kind = b.config; patterns = b.patterns; inert = b.inert } };

    ghost invariant = { λ b. (b.inert ≡ true → b.patterns ≡ []) × AreTaken b.patterns };
}

impl Builder {
    /// A builder of leftmost-first searchers. It takes no memory yet, and takes it from `alloc` later.
    pub fn new(alloc: Global) -> Builder
        ensures { result ≡ fresh MatchKind.LeftmostFirst }
    {
        Config::new().builder(alloc)
    }

    /// A copy of the builder, with copies of the patterns.
    pub fn clone(&self) -> Result<Builder, AllocError>
        ensures { IfOk result (λ copy. copy ≡ self.now) }
    {
        Ok(Builder {
            config: Config {
                kind: self.config.kind,
            },
            patterns: self.patterns.clone(self.patterns.allocator())?,
            inert: self.inert,
        })
    }

    /// Adds a pattern. If memory runs out, the builder is unchanged.
    pub fn add(&mut self, pattern: &[u8]) -> Result<&mut Builder, AllocError>
        ensures same { IfOk result (λ builder. builder.ghost_name ≡ self.entry.ghost_name) }
        ensures value { IfOk result (λ builder. builder.now ≡ added self.old pattern.now) }
    {
        self.try_add(pattern)?;
        Ok(self)
    }

    /// Adds patterns in their order. If memory runs out, those before stay added.
    pub fn extend(&mut self, patterns: &[&[u8]]) -> Result<&mut Builder, AllocError>
        ensures same { IfOk result (λ builder. builder.ghost_name ≡ self.entry.ghost_name) }
        ensures value { IfOk result (λ b. b.now ≡ added_all self.old (bytes_of patterns.now)) }
    {
        self.try_extend(patterns)?;
        Ok(self)
    }

    /// The same as [`Builder::add`], for a caller that goes on when memory has run out.
    pub fn try_add(&mut self, pattern: &[u8]) -> Result<(), AllocError>
        ensures ok { OnOk result (self.new ≡ added self.old pattern.now) }
        ensures err { OnErr result (self.new ≡ self.old) }
    {
        if self.inert {
            return Ok(());
        }
        if pattern.is_empty() || self.patterns.len() == PATTERN_LIMIT {
            self.inert = true;
            self.patterns.clear();
            return Ok(());
        }
        self.patterns.add(pattern)
    }

    /// The same as [`Builder::extend`], for a caller that goes on when memory has run out.
    pub fn try_extend(&mut self, patterns: &[&[u8]]) -> Result<(), AllocError>
        ensures ok { OnOk result (self.new ≡ added_all self.old (bytes_of patterns.now)) }
        ensures err { OnErr result (HasBeginning self.old (bytes_of patterns.now) self.new) }
    {
        for pattern in patterns {
            self.try_add(pattern)?;
        }
        Ok(())
    }

    /// How many patterns it has.
    pub fn len(&self) -> usize
        ensures { result ≡ length self.now.patterns }
    {
        self.patterns.len()
    }

    /// The length of the shortest pattern; `usize::MAX` where it has none.
    pub fn minimum_len(&self) -> usize
        ensures { result ≡ shortest self.now.patterns }
    {
        self.patterns.minimum_len()
    }

    /// A searcher for the patterns, with copies of them; none where there is no pattern.
    pub fn build(&self) -> Result<Option<Searcher>, AllocError>
        ensures value { IfOk result (λ made. made ≡ built self.now.kind self.now.patterns) }
        ensures served { IfOk result (λ made. IfSome made (λ s. AreServed s.patterns)) }
    {
        if self.patterns.is_empty() {
            return Ok(None);
        }
        let alloc = self.patterns.allocator();
        let kind = self.config.kind;
        let patterns = self.patterns.clone(alloc)?;
        let scanner = Scanner::new(alloc, kind, &patterns)?;
        Ok(Some(Searcher { patterns, scanner }))
    }
}

/// Finds the leftmost match of some patterns.
#[derive(Drop)]
pub struct Searcher {
    patterns: Patterns,
    scanner: Scanner,
}

impl Model for Searcher {
    ghost use Rattle.ac_literal.specs.Packed.{Packed, AreServed};
    ghost use Rattle.ac_literal.specs.Packed.Scanner.{IsScanner};

    ghost Value = { Packed };

    ghost view = { λ s. record { kind = s.scanner.table.kind; patterns = s.patterns } };

    ghost invariant = { λ s. AreServed s.patterns × IsScanner s.patterns s.scanner };
}

impl Searcher {
    /// A leftmost-first searcher for the patterns, with copies of them; none where they are not 1 to 128, or one is empty.
    pub fn new(alloc: Global, patterns: &[&[u8]]) -> Result<Option<Searcher>, AllocError>
        ensures served { IfOk result (λ made. IsSome made ↔ AreServed (bytes_of patterns.now)) }
        ensures value { IfOk result
            (λ made. IfSome made (λ s. s ≡ leftmost_first (bytes_of patterns.now))) }
    {
        let mut builder = Builder::new(alloc);
        builder.try_extend(patterns)?;
        builder.build()
    }

    /// The settings of a searcher, to be changed and then built from.
    pub fn config() -> Config
        ensures { result ≡ MatchKind.LeftmostFirst }
    {
        Config::default()
    }

    /// A builder of leftmost-first searchers. It takes no memory yet, and takes it from `alloc` later.
    pub fn builder(alloc: Global) -> Builder
        ensures { result ≡ fresh MatchKind.LeftmostFirst }
    {
        Builder::new(alloc)
    }

    /// A copy of the searcher, in memory from `alloc`.
    pub fn clone(&self, alloc: Global) -> Result<Searcher, AllocError>
        ensures { IfOk result (λ copy. copy ≡ self.now) }
    {
        Ok(Searcher {
            patterns: self.patterns.clone(alloc)?,
            scanner: self.scanner.clone(alloc)?,
        })
    }

    /// The first match in the haystack, if it has one. It takes no memory.
    pub fn find(&self, haystack: &[u8]) -> Option<Match>
        ensures best { IsBest (search_kind self.now.kind) (in_whole self.now.patterns haystack.now) result }
        ensures served { AreServed self.now.patterns }
    {
        self.find_in(
            haystack,
            Span {
                start: 0,
                end: haystack.len(),
            },
        )
    }

    /// The first match of those that lie in the span, if there is one. It looks at nothing outside the span.
    pub fn find_in(&self, haystack: &[u8], span: Span) -> Option<Match>
        requires order { span.start ≤ span.end }
        requires within { span.end ≤ length haystack.now }
        ensures best { IsBestIn self.now haystack.now span result }
        ensures served { AreServed self.now.patterns }
    {
        self.find_at_pace(haystack, span, &mut Pace::new())
    }

    /// The same, with the pace that earlier searches set.
    fn find_at_pace(&self, haystack: &[u8], span: Span, pace: &mut Pace) -> Option<Match>
        requires order { span.start ≤ span.end }
        requires within { span.end ≤ length haystack.now }
        ensures best { IsBestIn self.now haystack.now span result }
        ensures served { AreServed self.now.patterns }
    {
        self.scanner.find_in(&self.patterns, haystack, span, pace)
    }

    /// All matches that don't overlap, from the first to the last.
    ///
    /// Iterating over all of them looks at each byte once, not counting comparisons.
    pub fn find_iter<'s, 'h>(&'s self, haystack: &'h [u8]) -> FindIter<'s, 'h>
        ensures { result ≡ matches_of self.now haystack.now }
    {
        FindIter {
            searcher: self,
            haystack,
            at: 0,
            pace: Pace::new(),
        }
    }

    /// Which occurrence is the match.
    pub fn match_kind(&self) -> &MatchKind
        ensures value { result.now ≡ self.now.kind }
        ensures served { AreServed self.now.patterns }
    {
        self.scanner.match_kind()
    }

    /// The length from which a haystack is searched fast: any.
    pub fn minimum_len(&self) -> usize
        ensures { result ≡ 0 }
    {
        0
    }

    /// Whether it finds few places in vain, however many patterns there are.
    pub(crate) fn is_sparse(&self) -> bool {
        self.scanner.is_sparse()
    }

    /// How many bytes of memory it takes, besides itself.
    pub fn memory_usage(&self) -> usize {
        self.patterns
            .memory_usage()
            .saturating_add(self.scanner.memory_usage())
    }
}

/// The remaining matches. From [`Searcher::find_iter`].
#[derive(Drop)]
pub struct FindIter<'s, 'h> {
    searcher: &'s Searcher,
    haystack: &'h [u8],
    at: usize,
    pace: Pace,
}

impl<'s, 'h> Model for FindIter<'s, 'h> {
    ghost use Rattle.std.specs.Prelude.{List, None, length, ◌≤◌};
    ghost use Rattle.ac_input.specs.Computed.{walk_after};
    ghost use Rattle.ac_literal.specs.Packed.{in_whole, search_kind};
    ghost use Rattle.ac_input.specs.Occurrence.{Occurrence};

    ghost Value = { List Occurrence };

    ghost view = { λ i. walk_after (search_kind i.searcher.now.kind) (in_whole i.searcher.now.patterns i.haystack.now) i.at None };

    ghost invariant = { λ i. i.at ≤ length i.haystack.now };
}

impl<'s, 'h> Iterator for FindIter<'s, 'h> {
    type Item = Match;

    ghost next_gives = { YieldsFirst (λ rest. rest) };

    ghost remaining = { item_count (λ rest. rest) };

    fn next(&mut self) -> Option<Match> {
        let found = self.searcher.find_at_pace(
            self.haystack,
            Span {
                start: self.at,
                end: self.haystack.len(),
            },
            &mut self.pace,
        )?;
        self.at = found.end();
        Some(found)
    }
}
