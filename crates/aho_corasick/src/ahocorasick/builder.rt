//! How an automaton is built: the settings, and the build.
//!
//! The settings say which of several overlapping occurrences is the match, which searches are served, and which bytes stand for one
//! another. The others change no result: which automaton serves, whether it has a prefilter, how its states are laid out.
//!
//! A build makes a noncontiguous NFA of the patterns, and from that the automaton that serves. Where none was named it makes a DFA
//! for few patterns and one start kind; else a contiguous NFA; and it goes on to the next only where one would be too large.
ghost use Rattle.std.specs.Prelude.{◌≡◌, None, Some, map, IfOk, IfErr};
ghost use Rattle.ac_input.specs.Pairing.{IsFolded};
ghost use Rattle.ac_literal.specs.Packed.{bytes_of};
ghost use Rattle.ac_noncontiguous.specs.declared.error.BuildErrorKind.TheVariants.{Memory};
ghost use Rattle.aho_corasick.specs.AhoCorasick.{as_built};
ghost use Rattle.aho_corasick.specs.Builder.{changed, AreFrontDefaults};
ghost use Rattle.aho_corasick.specs.Callers.{FindsBytes};
ghost use Rattle.aho_corasick.specs.Served.{IsFitting, IsTriedDfa, IsTriedContiguous, IsEngineOf, IsNotMade, IsFrontBuilt, IsFrontBuildRefused, IsFrontBuiltByDefault, IsFrontRefusedByDefault};

use super::{AhoCorasick, AhoCorasickKind};
use crate::engine::Engine;
use crate::shared::{AsBuilt, MadeBy, Shared};
use ac_automaton::automaton::Automaton;
use ac_input::pairing::Pairing;
use ac_input::search::{MatchKind, StartKind};
use ac_noncontiguous::builder::Builder;
use ac_noncontiguous::error::{BuildError, BuildErrorKind};
use ac_noncontiguous::nfa::NFA;
use ac_noncontiguous::settings::{Settings, case_pairing};
use ac_tables::dfa::DFA;
use ac_tables::{contiguous, dfa};
use std::alloc::{AllocError, Global};
use std::convert::AsSlice;
use std::sync::Arc;

/// For how many patterns a DFA is taken at most, where no automaton is named.
const MOST_FOR_DFA: usize = 100;

/// What was made, or none where it would be too large; any other error stays.
fn fitting<T>(made: Result<T, BuildError>) -> Result<Option<T>, BuildError>
    ensures { IsFitting made result }
{
    match made {
        Ok(it) => Ok(Some(it)),
        Err(error) => match error.kind() {
            BuildErrorKind::StateIDOverflow { .. } => Ok(None),
            _ => Err(error),
        },
    }
}

/// The bytes of each pattern.
fn slices_of<P: AsSlice<u8>>(alloc: Global, patterns: &[P]) -> Result<Vec<&[u8]>, AllocError>
    ensures { IfOk result (λ slices. bytes_of slices.items ≡ map P.items patterns.now) }
{
    let mut slices = Vec::new(alloc);
    for pattern in patterns {
        slices.push(pattern.as_slice())?;
    }
    Ok(slices)
}

/// The settings of an automaton. A builder may build several times, and takes no memory itself.
///
/// ```text
/// let ac = AhoCorasick::builder()
///     .match_kind(MatchKind::LeftmostFirst)
///     .ascii_case_insensitive(true)
///     .build(alloc, &[b"samwise", b"sam"])?;
/// ```
#[derive(Clone, Drop)]
pub struct AhoCorasickBuilder {
    settings: Settings,
    /// The automaton that was named, if one was.
    kind: Option<AhoCorasickKind>,
}

impl Default for AhoCorasickBuilder {
    ghost is_default = { AreFrontDefaults };

    fn default() -> AhoCorasickBuilder {
        AhoCorasickBuilder::new()
    }
}

impl AhoCorasickBuilder {
    /// Standard matches, unanchored searches, no byte paired, the automaton left to the builder, a prefilter wanted, and classes of
    /// bytes.
    ///
    /// ```text
    /// let mut builder = AhoCorasickBuilder::new();
    /// builder.prefilter(false).dense_depth(0);
    /// builder.build(alloc, patterns)
    /// ```
    pub fn new() -> AhoCorasickBuilder
        ensures { AreFrontDefaults result }
    {
        AhoCorasickBuilder {
            settings: Settings::new(),
            kind: None,
        }
    }

    /// Sets which of several overlapping occurrences is the match: at first the standard one, which ends first.
    /// Overlapping matches need the standard kind, and so do streams by the calls without `any_kind`; under another these return an
    /// error.
    ///
    /// ```text
    /// builder.match_kind(MatchKind::LeftmostLongest);
    /// ```
    pub fn match_kind(&mut self, kind: MatchKind) -> &mut AhoCorasickBuilder
        ensures same { result.ghost_name ≡ self.entry.ghost_name }
        ensures value { result.now ≡ changed self.old (λ s. record s { match_kind = kind }) }
    {
        self.settings.match_kind = kind;
        self
    }

    /// Sets which searches are served, at first unanchored ones; others return an error, whichever automaton serves. A DFA for both
    /// kinds takes about twice the memory and time to build. Replacement and streams are unanchored.
    ///
    /// ```text
    /// builder.start_kind(StartKind::Both);
    /// ```
    pub fn start_kind(&mut self, kind: StartKind) -> &mut AhoCorasickBuilder
        ensures same { result.ghost_name ≡ self.entry.ghost_name }
        ensures value { result.now ≡ changed self.old (λ s. record s { start_kind = kind }) }
    {
        self.settings.start_kind = kind;
        self
    }

    /// Sets whether ASCII letters count as the same in their two cases. It sets the whole pairing: of this call and
    /// [`AhoCorasickBuilder::pairing`] the last one decides.
    ///
    /// ```text
    /// builder.ascii_case_insensitive(true);
    /// ```
    pub fn ascii_case_insensitive(&mut self, yes: bool) -> &mut AhoCorasickBuilder
        ensures same { result.ghost_name ≡ self.entry.ghost_name }
        ensures rest { result.now ≡ changed self.old (λ s. record s { pairing = result.now.settings.pairing }) }
        ensures pairing { IsFolded yes result.now.settings.pairing }
    {
        self.pairing(case_pairing(yes))
    }

    /// Sets which bytes stand for one another. At first none does.
    ///
    /// ```text
    /// builder.pairing(pairing); // a `Pairing`
    /// ```
    pub fn pairing(&mut self, pairing: Pairing) -> &mut AhoCorasickBuilder
        ensures same { result.ghost_name ≡ self.entry.ghost_name }
        ensures value { result.now ≡ changed self.old (λ s. record s { pairing = pairing }) }
    {
        self.settings.pairing = pairing;
        self
    }

    /// Sets which automaton serves. With none, which is so at first, the builder takes a DFA for up to 100 patterns and one start
    /// kind, else a contiguous NFA, where it isn't too large. It changes no result.
    ///
    /// A DFA searches fastest. It takes 4 bytes for each class of bytes in each state, and each byte of a pattern may add a state:
    /// a hundred patterns of 1000 bytes each may take 100 MB. For patterns from a stranger name the contiguous NFA.
    ///
    /// ```text
    /// builder.kind(Some(AhoCorasickKind::ContiguousNFA));
    /// ```
    pub fn kind(&mut self, kind: Option<AhoCorasickKind>) -> &mut AhoCorasickBuilder
        ensures same { result.ghost_name ≡ self.entry.ghost_name }
        ensures value { result.now ≡ record self.old { kind = kind } }
    {
        self.kind = kind;
        self
    }

    /// Sets whether searches have a prefilter, where one serves. It changes no result.
    ///
    /// ```text
    /// builder.prefilter(false);
    /// ```
    pub fn prefilter(&mut self, yes: bool) -> &mut AhoCorasickBuilder
        ensures same { result.ghost_name ≡ self.entry.ghost_name }
        ensures value { result.now ≡ changed self.old (λ s. record s { prefilter = yes }) }
    {
        self.settings.prefilter = yes;
        self
    }

    /// Sets to which depth the states of either NFA keep a row: those to which fewer bytes lead. Where it isn't set, it is 3 for the
    /// noncontiguous one and 2 for the contiguous one. A row makes a look-up fast, and takes four bytes for each class of bytes. It
    /// changes no result.
    ///
    /// ```text
    /// builder.dense_depth(0);
    /// ```
    pub fn dense_depth(&mut self, depth: usize) -> &mut AhoCorasickBuilder
        ensures same { result.ghost_name ≡ self.entry.ghost_name }
        ensures value { result.now ≡ changed self.old (λ s. record s { dense_depth = Some depth }) }
    {
        self.settings.dense_depth = Some(depth);
        self
    }

    /// Sets whether bytes that lead alike from every state are one class, in the contiguous NFA and the DFA. Without classes a state
    /// takes more memory, and a look-up one load less. It changes no result.
    ///
    /// ```text
    /// builder.byte_classes(true);
    /// ```
    pub fn byte_classes(&mut self, yes: bool) -> &mut AhoCorasickBuilder
        ensures same { result.ghost_name ≡ self.entry.ghost_name }
        ensures value { result.now ≡ changed self.old (λ s. record s { byte_classes = yes }) }
    {
        self.settings.byte_classes = yes;
        self
    }

    /// Sets how many bytes of memory the rows of the contiguous NFA may take. At first it is 16 MiB; 0 is for none.
    ///
    /// It changes no result. With rows an unanchored search looks at one state for a byte, as a DFA does, and is about as fast. There
    /// are rows if they take no more than this; they take about what a DFA of the same patterns takes, and as long to make.
    pub fn row_memory(&mut self, bytes: usize) -> &mut AhoCorasickBuilder
        ensures same { result.ghost_name ≡ self.entry.ghost_name }
        ensures value { result.now ≡ changed self.old (λ s. record s { row_memory = bytes }) }
    {
        self.settings.row_memory = bytes;
        self
    }

    /// The builder of the contiguous NFA.
    fn contiguous(&self) -> contiguous::builder::Builder
        ensures { result ≡ self.now.settings }
    {
        contiguous::builder::Builder::from(self.settings)
    }

    /// The builder of the DFA.
    fn dfa(&self) -> dfa::builder::Builder
        ensures { result ≡ self.now.settings }
    {
        dfa::builder::Builder::from(self.settings)
    }

    /// A DFA, where one is taken when none is named.
    fn try_dfa(&self, alloc: Global, nfa: &NFA) -> Result<Option<DFA>, BuildError>
        ensures tried { IfOk result (IsTriedDfa self.now.settings nfa.now) }
        ensures refused { IfErr result (λ error. error ≡ Memory) }
    {
        if self.settings.start_kind == StartKind::Both || nfa.patterns_len() > MOST_FOR_DFA {
            return Ok(None);
        }
        fitting(self.dfa().build_from_noncontiguous(alloc, nfa))
    }

    /// A contiguous NFA, or none where it would be too large.
    fn try_contiguous(
        &self,
        alloc: Global,
        nfa: &NFA,
    ) -> Result<Option<contiguous::NFA>, BuildError>
        ensures tried { IfOk result (IsTriedContiguous self.now.settings nfa.now) }
        ensures refused { IfErr result (λ error. error ≡ Memory) }
    {
        fitting(self.contiguous().build_from_noncontiguous(alloc, nfa))
    }

    /// The automaton that serves where none is named.
    fn take(&self, alloc: Global, nfa: NFA) -> Result<Engine, BuildError>
        ensures taken { IfOk result (IsEngineOf None self.now.settings nfa) }
        ensures refused { IfErr result (λ error. error ≡ Memory) }
    {
        if let Some(dfa) = self.try_dfa(alloc, &nfa)? {
            return Ok(Engine::Dfa(dfa));
        }
        match self.try_contiguous(alloc, &nfa)? {
            Some(made) => Ok(Engine::Contiguous(made)),
            None => Ok(Engine::Noncontiguous(nfa)),
        }
    }

    /// The automaton that serves: the one that was named, or the one that is taken.
    fn serve(&self, alloc: Global, nfa: NFA) -> Result<Engine, BuildError>
        ensures served { IfOk result (IsEngineOf self.now.kind self.now.settings nfa) }
        ensures refused { IfErr result (IsNotMade self.now nfa) }
    {
        match self.kind {
            None => self.take(alloc, nfa),
            Some(AhoCorasickKind::NoncontiguousNFA) => Ok(Engine::Noncontiguous(nfa)),
            Some(AhoCorasickKind::ContiguousNFA) => {
                let made = self.contiguous().build_from_noncontiguous(alloc, &nfa)?;
                Ok(Engine::Contiguous(made))
            }
            Some(AhoCorasickKind::DFA) => {
                let made = self.dfa().build_from_noncontiguous(alloc, &nfa)?;
                Ok(Engine::Dfa(made))
            }
        }
    }

    /// The automaton of the patterns, which are numbered from 0 in this order. Any bytes will do, also none: an empty pattern occurs
    /// at every place. No two calls depend on each other.
    ///
    /// Returns an error exactly if the patterns pass a limit of the noncontiguous NFA (2147483647 states, 2147483647 patterns,
    /// 2147483646 bytes a pattern), if the automaton that was named would be too large, or if memory runs out.
    ///
    /// Time and memory are in proportion to the bytes of the patterns; for a DFA times the classes of bytes, at most 256. While the
    /// automaton that serves is made, the noncontiguous NFA is held too.
    ///
    /// ```text
    /// let mut builder = AhoCorasickBuilder::new();
    /// builder
    ///     .pairing(pairing)
    ///     .start_kind(StartKind::Both)
    ///     .kind(Some(AhoCorasickKind::ContiguousNFA))
    ///     .prefilter(false);
    /// builder.build(alloc, patterns)
    /// ```
    pub fn build(&self, alloc: Global, patterns: &[&[u8]]) -> Result<AhoCorasick, BuildError>
        ensures served { IfOk result (IsFrontBuilt self.now (bytes_of patterns.now)) }
        ensures refused { IfErr result (IsFrontBuildRefused self.now (bytes_of patterns.now)) }
    {
        let nfa = Builder::from(self.settings).build(alloc, patterns)?;
        let engine = self.serve(alloc, nfa)?;
        let shared = Shared {
            built: AsBuilt::of(&engine),
            settings: MadeBy::of(self),
            engine,
        };
        match Arc::new(alloc, shared) {
            Ok(shared) => Ok(AhoCorasick {
                shared,
                start_kind: self.settings.start_kind,
            }),
            Err(_) => Err(BuildError::from(BuildErrorKind::Memory)),
        }
    }

    /// The same of patterns of any type that lends its bytes, such as `&str`, `String` or `Vec<u8>`. It allocates 16 bytes for each
    /// pattern first, and releases them after the build.
    ///
    /// ```text
    /// let mut builder = AhoCorasick::builder();
    /// builder
    ///     .match_kind(MatchKind::LeftmostLongest)
    ///     .ascii_case_insensitive(true);
    /// builder.build_from_patterns(alloc, words)
    /// ```
    pub fn build_from_patterns<P: AsSlice<u8>>(
        &self,
        alloc: Global,
        patterns: &[P],
    ) -> Result<AhoCorasick, BuildError>
        ensures served { IfOk result (IsFrontBuilt self.now (map P.items patterns.now)) }
        ensures refused { IfErr result (IsFrontBuildRefused self.now (map P.items patterns.now)) }
    {
        match slices_of(alloc, patterns) {
            Ok(slices) => self.build(alloc, &slices),
            Err(_) => Err(BuildError::from(BuildErrorKind::Memory)),
        }
    }
}

impl AhoCorasick {
    /// The automaton of the patterns by the settings that a builder has at first: standard matches, unanchored searches, no byte
    /// paired. Patterns are numbered from 0 in this order.
    ///
    /// Returns an error if the patterns pass a limit or memory runs out, and costs what [`AhoCorasickBuilder::build`] does. For up to
    /// 100 patterns that is a DFA: see [`AhoCorasickBuilder::kind`].
    ///
    /// ```text
    /// let ac = AhoCorasick::new(alloc, &[b"foo", b"bar", b"baz"])?;
    /// let found = ac.find(Input::from(text));
    /// Ok(found.map(|found| found.pattern().as_usize()))
    /// ```
    pub fn new(alloc: Global, patterns: &[&[u8]]) -> Result<AhoCorasick, BuildError>
        ensures finds { IfOk result (λ ac. FindsBytes (bytes_of patterns.now) (as_built ac).dictionary) }
        ensures served { IfOk result (IsFrontBuiltByDefault (bytes_of patterns.now)) }
        ensures refused { IfErr result (IsFrontRefusedByDefault (bytes_of patterns.now)) }
    {
        AhoCorasickBuilder::new().build(alloc, patterns)
    }

    /// The same of patterns of any type that lends its bytes: see [`AhoCorasickBuilder::build_from_patterns`].
    pub fn from_patterns<P: AsSlice<u8>>(
        alloc: Global,
        patterns: &[P],
    ) -> Result<AhoCorasick, BuildError>
        ensures finds { IfOk result (λ ac. FindsBytes (map P.items patterns.now) (as_built ac).dictionary) }
        ensures served { IfOk result (IsFrontBuiltByDefault (map P.items patterns.now)) }
        ensures refused { IfErr result (IsFrontRefusedByDefault (map P.items patterns.now)) }
    {
        AhoCorasickBuilder::new().build_from_patterns(alloc, patterns)
    }

    /// A builder with the settings that it has at first: those of [`AhoCorasick::new`].
    ///
    /// ```text
    /// let mut builder = AhoCorasick::builder();
    /// builder.match_kind(MatchKind::LeftmostLongest);
    /// ```
    pub fn builder() -> AhoCorasickBuilder
        ensures { AreFrontDefaults result }
    {
        AhoCorasickBuilder::new()
    }
}
