//! The three automata: built, copied and read.
ghost use Rattle.std.specs.Prelude.{◌≡◌, ◌↔◌, IfOk, IfErr, IsTrue, ◌<◌, true, length, List, ℕ};
ghost use Rattle.ac_input.specs.Dictionary.{Dictionary};
ghost use Rattle.ac_literal.specs.Packed.{bytes_of};
ghost use Rattle.ac_noncontiguous.specs.Nfa.Reads.{built_as};
ghost use Rattle.ac_noncontiguous.specs.declared.error.BuildErrorKind.TheVariants.{Memory};
ghost use Rattle.aho_corasick.specs.Callers.{FindsBytes, FindsFolded, IsPlain, OccursIn};
ghost use Rattle.ac_input.specs.declared.search.Anchored.TheVariants.{Yes};
ghost use Rattle.ac_input.specs.Dfa.{dfa_states};
ghost use Rattle.ac_noncontiguous.specs.Nfa.ReadCalls.{classes_in, state_len};
ghost use Rattle.ac_tables.specs.Contiguous.Reads.{contiguous_dictionary, contiguous_built_as};
ghost use Rattle.ac_tables.specs.Contiguous.Table.{AreWordsOf};
ghost use Rattle.ac_tables.specs.Dfa.Builder.{states_in};
ghost use Rattle.ac_tables.specs.Dfa.Reads.{dfa_dictionary, dfa_built_as, dfa_supported_by};

use ac_automaton::automaton::Automaton;
use ac_automaton::error::MatchError;
use ac_automaton::search::Search;
use ac_input::pairing::Pairing;
use ac_input::search::{Input, MatchKind, StartKind};
use ac_noncontiguous::NFA;
use ac_noncontiguous::builder::Builder;
use ac_noncontiguous::error::{BuildError, BuildErrorKind};
use ac_tables::contiguous;
use ac_tables::dfa::{self, DFA};
use std::alloc::{AllocError, Global};

// ---- the noncontiguous NFA

/// An automaton of the patterns under the settings that a builder has at first: standard matches, byte for byte.
pub fn of_bytes(alloc: Global, patterns: &[&[u8]]) -> Result<NFA, BuildError>
    ensures { IfOk result (λ nfa. FindsBytes (bytes_of patterns.now) (built_as nfa).dictionary) }
{
    NFA::new(alloc, patterns)
}

/// An automaton that prefers the pattern that was given first, and takes the two cases of an ASCII letter for the same.
pub fn folded(alloc: Global, patterns: &[&[u8]]) -> Result<NFA, BuildError>
    ensures { IfOk result (λ nfa. FindsFolded (bytes_of patterns.now) (built_as nfa).dictionary) }
{
    let mut builder = Builder::new();
    builder
        .match_kind(MatchKind::LeftmostFirst)
        .ascii_case_insensitive(true);
    builder.build(alloc, patterns)
}

/// An automaton without rows and without a prefilter, which finds the same as another one of its kind and pairing.
pub fn thrifty(
    alloc: Global,
    patterns: &[&[u8]],
    kind: MatchKind,
    pairing: Pairing,
) -> Result<NFA, BuildError>
    ensures { IfOk result (λ nfa. IsPlain (bytes_of patterns.now) pairing kind (built_as nfa)) }
{
    let mut builder = NFA::builder();
    builder
        .match_kind(kind)
        .pairing(pairing)
        .dense_depth(0)
        .prefilter(false);
    builder.build(alloc, patterns)
}

/// An automaton of no patterns. Its build fails only if memory runs out.
pub fn of_nothing(alloc: Global) -> Result<NFA, BuildError>
    ensures { IfErr result (λ error. error ≡ Memory) }
{
    NFA::new(alloc, &[])
}

/// Whether one of the patterns occurs in the text, from the patterns to the result.
pub fn occurs_in(alloc: Global, patterns: &[&[u8]], text: &[u8]) -> Result<bool, BuildError>
    ensures { IfOk result (λ found. (m : Dictionary) × FindsBytes (bytes_of patterns.now) m
        × (IsTrue found ↔ OccursIn m text.now)) }
{
    let nfa = NFA::new(alloc, patterns)?;
    Ok(nfa.try_find(&Input::new(text)).unwrap().is_some())
}

/// Whether a build ran out of memory, so that it may succeed where there is more.
pub fn may_succeed_later(error: &BuildError) -> bool
    ensures { IsTrue result ↔ (error.now ≡ Memory) }
{
    matches!(error.kind(), BuildErrorKind::Memory)
}

/// The automaton once more. It finds the same.
pub fn copy(nfa: &NFA, alloc: Global) -> Result<NFA, AllocError>
    ensures { IfOk result (λ copy. (built_as copy).dictionary ≡ (built_as nfa.now).dictionary) }
{
    nfa.clone(alloc)
}

/// A noncontiguous NFA, from which the other two can be made.
pub fn noncontiguous_of(alloc: Global, patterns: &[&[u8]]) -> Result<NFA, BuildError> {
    let mut builder = NFA::builder();
    builder
        .match_kind(MatchKind::LeftmostFirst)
        .ascii_case_insensitive(true)
        .dense_depth(1)
        .prefilter(true);
    builder.build(alloc, patterns)
}

// ---- the contiguous NFA

/// The contiguous NFA that is made of one.
pub fn contiguous_of(alloc: Global, nfa: &NFA) -> Result<contiguous::NFA, BuildError> {
    let mut builder = contiguous::NFA::builder();
    builder.dense_depth(1).byte_classes(true);
    builder.build_from_noncontiguous(alloc, nfa)
}

/// A contiguous NFA of the patterns under the settings that a builder has at first: standard matches, byte for byte.
pub fn contiguous_of_bytes(alloc: Global, patterns: &[&[u8]]) -> Result<contiguous::NFA, BuildError>
    ensures { IfOk result
        (λ nfa. FindsBytes (bytes_of patterns.now) (contiguous_dictionary nfa)) }
{
    contiguous::NFA::new(alloc, patterns)
}

/// One that prefers the pattern that was given first, and takes the two cases of an ASCII letter for the same.
pub fn contiguous_folded(alloc: Global, patterns: &[&[u8]]) -> Result<contiguous::NFA, BuildError>
    ensures { IfOk result
        (λ nfa. FindsFolded (bytes_of patterns.now) (contiguous_dictionary nfa)) }
{
    let mut builder = contiguous::NFA::builder();
    builder
        .match_kind(MatchKind::LeftmostFirst)
        .ascii_case_insensitive(true);
    builder.build(alloc, patterns)
}

/// One without a prefilter, for a kind and a pairing.
pub fn contiguous_plain(
    alloc: Global,
    patterns: &[&[u8]],
    kind: MatchKind,
    pairing: Pairing,
) -> Result<contiguous::NFA, BuildError>
    ensures { IfOk result
        (λ n. IsPlain (bytes_of patterns.now) pairing kind (contiguous_built_as n)) }
{
    let mut builder = contiguous::Builder::new();
    builder.match_kind(kind).pairing(pairing).prefilter(false);
    builder.build(alloc, patterns)
}

/// The contiguous form of an automaton. It finds the same, however deep its states are dense and whether bytes have classes or not.
pub fn contiguous_form(
    alloc: Global,
    nfa: &NFA,
    dense_depth: usize,
    byte_classes: bool,
) -> Result<contiguous::NFA, BuildError>
    ensures { IfOk result
        (λ made. contiguous_built_as made ≡ (record (built_as nfa.now) { lanes = made.lanes })) }
{
    let mut builder = contiguous::Builder::new();
    builder.dense_depth(dense_depth).byte_classes(byte_classes);
    builder.build_from_noncontiguous(alloc, nfa)
}

/// How many words the contiguous form of an automaton has.
pub fn contiguous_len(alloc: Global, nfa: &NFA, dense_depth: usize) -> Result<usize, BuildError>
    ensures { IfOk result (λ len. (words : List ℕ)
        × AreWordsOf nfa.now dense_depth (classes_in nfa.now) words × (len ≡ length words)) }
{
    let mut builder = contiguous::Builder::default();
    builder.dense_depth(dense_depth);
    let made = builder.build_from_noncontiguous(alloc, nfa)?;
    Ok(made.words().len())
}

/// The contiguous NFA once more. It finds the same, and has the same words.
pub fn contiguous_copy(nfa: &contiguous::NFA, alloc: Global) -> Result<contiguous::NFA, AllocError>
    ensures same { IfOk result (λ copy. contiguous_built_as copy ≡ contiguous_built_as nfa.now) }
    ensures words { IfOk result (λ copy. copy.table.words.items ≡ nfa.now.table.words.items) }
{
    nfa.clone(alloc)
}

// ---- the DFA

/// The DFA that is made of one, with a start for each anchoring.
pub fn dfa_of(alloc: Global, nfa: &NFA) -> Result<DFA, BuildError> {
    let mut builder = DFA::builder();
    builder.start_kind(StartKind::Both).byte_classes(true);
    builder.build_from_noncontiguous(alloc, nfa)
}

/// A DFA of the patterns under the settings that a builder has at first: standard matches, byte for byte.
pub fn dfa_of_bytes(alloc: Global, patterns: &[&[u8]]) -> Result<DFA, BuildError>
    ensures { IfOk result
        (λ dfa. FindsBytes (bytes_of patterns.now) (dfa_dictionary dfa)) }
{
    DFA::new(alloc, patterns)
}

/// One that prefers the pattern that was given first, and takes the two cases of an ASCII letter for the same.
pub fn dfa_folded(alloc: Global, patterns: &[&[u8]]) -> Result<DFA, BuildError>
    ensures { IfOk result
        (λ dfa. FindsFolded (bytes_of patterns.now) (dfa_dictionary dfa)) }
{
    let mut builder = DFA::builder();
    builder
        .match_kind(MatchKind::LeftmostFirst)
        .ascii_case_insensitive(true);
    builder.build(alloc, patterns)
}

/// One without a prefilter, for a kind and a pairing, with a start for these searches.
pub fn dfa_plain(
    alloc: Global,
    patterns: &[&[u8]],
    kind: MatchKind,
    pairing: Pairing,
    starts: StartKind,
) -> Result<DFA, BuildError>
    ensures plain { IfOk result
        (λ d. IsPlain (bytes_of patterns.now) pairing kind (dfa_built_as d)) }
    ensures starts { IfOk result (λ dfa. dfa.table.kind ≡ starts) }
{
    let mut builder = dfa::Builder::new();
    builder
        .match_kind(kind)
        .pairing(pairing)
        .prefilter(false)
        .start_kind(starts);
    builder.build(alloc, patterns)
}

/// The DFA of an automaton. It finds the same by one look at a state for a byte, whether bytes have classes or not, and the number
/// of its states follows from the automaton's.
pub fn dfa_form(
    alloc: Global,
    nfa: &NFA,
    starts: StartKind,
    byte_classes: bool,
) -> Result<DFA, BuildError>
    ensures same { IfOk result
        (λ dfa. dfa_built_as dfa ≡ (record (built_as nfa.now) { deterministic = true; lanes = dfa.lanes })) }
    ensures rows { IfOk result (λ dfa. states_in dfa ≡ dfa_states starts (state_len nfa.now)) }
{
    let mut builder = dfa::Builder::default();
    builder.start_kind(starts).byte_classes(byte_classes);
    builder.build_from_noncontiguous(alloc, nfa)
}

/// Whether the DFA has a start for anchored searches.
pub fn serves_anchored(dfa: &DFA) -> bool
    ensures { IsTrue result ↔ dfa_supported_by dfa.now Yes }
{
    dfa.start_kind() != StartKind::Unanchored
}

/// Whether the table has a row of this number.
pub fn has_row(dfa: &DFA, row: usize) -> bool
    ensures { IsTrue result ↔ row < states_in dfa.now }
{
    row < dfa.state_len()
}

/// How many rows the table has, by its entries.
pub fn rows_by_entries(dfa: &DFA) -> usize
    ensures { result ≡ states_in dfa.now }
{
    dfa.transitions().len() / dfa.stride()
}

/// The DFA once more. It finds the same, and has the same transitions.
pub fn dfa_copy(dfa: &DFA, alloc: Global) -> Result<DFA, AllocError>
    ensures same { IfOk result (λ copy. dfa_built_as copy ≡ dfa_built_as dfa.now) }
    ensures transitions { IfOk result (λ copy. copy.table.trans.items ≡ dfa.now.table.trans.items) }
{
    dfa.clone(alloc)
}

// ---- by each

/// How many bytes the longest match has, by any of them.
pub fn longest<A: Search>(automaton: &A, text: &str) -> Result<usize, MatchError> {
    let mut longest = 0;
    for found in automaton.try_find_iter(Input::from(text))? {
        longest = found.len().max(longest);
    }
    Ok(longest)
}
