//! What a run prepares before it reads.
//!
//! A [`Prepared`] holds the settings, the rules, which suit them, and what finds the matches of the rules' patterns. It is built
//! before the input is read, and allocates all its memory then. Packed search serves if the engine's word names it; otherwise an
//! [`AhoCorasick`] does, by the automaton that the word names, or by the one that its builder chooses. Only the build knows which.
ghost use Rattle.std.specs.Prelude.{◌≡◌, ◌≢◌, ◌↔◌, IfErr, IfNone, IfOk, IfSome, IsSome, IsTrue, length};
ghost use Rattle.ac_input.specs.declared.search.MatchKind.TheVariants.{Standard};
ghost use Rattle.ac_literal.specs.Packed.{AreServed, search_kind};
ghost use Rattle.acsub.specs.Finder.{FailsToBuild, IsFinderOf, IsPackedFor, IsServing, whole_listing, whole_walk};
ghost use Rattle.acsub.specs.Matches.{IsUncounted, left_in};
ghost use Rattle.acsub.specs.Plan.{plan_of};
ghost use Rattle.acsub.specs.Run.{Prepares};
ghost use Rattle.acsub.specs.Served.{automaton_named, builder_by};
ghost use Rattle.acsub.specs.Args.Settings.{IsAccepted};
ghost use Rattle.acsub.specs.Rules.Sides.{rule_patterns};
ghost use Rattle.acsub.specs.Run.Transformed.{IsStreamed};
ghost use Rattle.acsub.specs.declared.args.settings.Engine.TheVariants.{Packed};

use crate::args::settings::{Engine, Mode, Settings, check, finds_early, has_empty_pattern};
use crate::error::RunError;
use crate::matches::Matches;
use crate::rules::Rules;
use ac_input::search::{Input, MatchKind};
use ac_literal::packed::{self, Config, Searcher};
use aho_corasick::{AhoCorasick, AhoCorasickBuilder, AhoCorasickKind};
use std::alloc::{AllocError, Global};
use std::marker::Model;

/// What finds matches.
#[derive(Drop)]
enum Finder {
    /// An automaton: the one that the engine's word names, or that the builder chooses.
    Automaton(AhoCorasick),
    /// Packed search.
    Packed(Searcher),
}

/// What is settled before the input is read. A contract sees the settings, the rules, and whether the text was asked for while the
/// input is read.
#[derive(Drop)]
pub struct Prepared<'r> {
    settings: Settings,
    rules: &'r Rules,
    stream: bool,
    finder: Finder,
}

impl<'r> Model for Prepared<'r> {
    ghost use Rattle.acsub.specs.Finder.{IsFinderOf};
    ghost use Rattle.acsub.specs.Plan.{Plan, plan_of};

    ghost Value = { Plan };

    ghost view = { λ p. plan_of p.stream p.settings p.rules.now };

    ghost invariant = { λ p. IsFinderOf p.settings p.rules.now p.finder };
}

impl<'r> Prepared<'r> {
    /// What is written.
    pub fn mode(&self) -> Mode
        ensures { result ≡ self.now.settings.mode }
    {
        self.settings.mode
    }

    /// The rules.
    pub fn rules(&self) -> &Rules
        ensures { result.now ≡ self.now.rules }
    {
        self.rules
    }

    /// The automaton that finds the matches, where packed search doesn't.
    pub fn automaton(&self) -> Option<&AhoCorasick>
        ensures serves { IfSome result (λ a. IsServing self.now.settings self.now.rules a.now) }
        ensures none { IfNone result (self.now.settings.engine ≡ Packed) }
    {
        match &self.finder {
            Finder::Automaton(automaton) => Some(automaton),
            Finder::Packed(_) => None,
        }
    }

    /// The automaton that finds the matches of what is read, where the text is written while the input is read.
    pub fn streamed(&self) -> Option<&AhoCorasick>
        ensures some { IsSome result ↔ IsStreamed self.now }
        ensures serves { IfSome result (λ a. IsServing self.now.settings self.now.rules a.now) }
    {
        match &self.finder {
            Finder::Automaton(automaton) => {
                if is_streamed(&self.settings, self.stream, self.rules) {
                    Some(automaton)
                } else {
                    None
                }
            }
            Finder::Packed(_) => None,
        }
    }

    /// The matches of an input, one after another.
    pub fn picks<'a>(&'a self, input: &'a [u8]) -> Matches<'a>
        ensures walk { left_in result ≡ whole_walk self.now input.now }
        ensures fresh { IsUncounted self.now (length input.now) result }
    {
        match &self.finder {
            Finder::Automaton(automaton) => {
                Matches::Walk(automaton.try_find_iter_ahead(Input::new(input)).unwrap())
            }
            Finder::Packed(searcher) => Matches::Packed(searcher.find_iter(input)),
        }
    }

    /// All occurrences in an input, one after another, which are found under the standard kind alone.
    pub fn overlapping<'a>(&'a self, input: &'a [u8]) -> Matches<'a>
        requires { self.now.settings.kind ≡ Standard }
        ensures listing { left_in result ≡ whole_listing self.now input.now }
        ensures fresh { IsUncounted self.now (length input.now) result }
    {
        match &self.finder {
            Finder::Automaton(automaton) => Matches::Overlapping(
                automaton
                    .try_find_overlapping_iter(Input::new(input))
                    .unwrap(),
            ),
            Finder::Packed(_) => unreachable!(),
        }
    }
}

/// Makes all that a run has before it reads, if the settings and the rules go together.
pub fn prepare<'r>(
    alloc: Global,
    settings: &Settings,
    stream: bool,
    rules: &'r Rules,
) -> Result<Prepared<'r>, RunError>
    ensures { Prepares (plan_of stream settings.now rules.entry.now) result }
{
    match check(settings, rules) {
        Ok(()) => {
            let finder = finder_for(alloc, settings, rules)?;
            Ok(Prepared {
                settings: *settings,
                rules,
                stream,
                finder,
            })
        }
        Err(error) => Err(RunError::Setting(error)),
    }
}

/// Whether the text is written while the input is still read: if matches are found by then, and no pattern is empty. A list of all
/// that overlap is so only where that was asked for.
fn is_streamed(settings: &Settings, stream: bool, rules: &Rules) -> bool
    ensures { IsTrue result ↔ IsStreamed (plan_of stream settings.now rules.now) }
{
    finds_early(settings, stream)
        && (stream || settings.mode != Mode::Overlap)
        && !has_empty_pattern(rules)
}

/// What finds the matches of the rules' patterns, by settings that go with them.
fn finder_for(alloc: Global, settings: &Settings, rules: &Rules) -> Result<Finder, RunError>
    requires { IsAccepted settings.now rules.now }
    ensures finds { IfOk result (IsFinderOf settings.now rules.now) }
    ensures fails { IfErr result (FailsToBuild settings.now rules.now) }
{
    if settings.engine == Engine::Packed {
        let searcher = packed_for(alloc, settings.kind, rules)?;
        Ok(Finder::Packed(searcher))
    } else {
        let automaton = automaton_for(alloc, settings, rules)?;
        Ok(Finder::Automaton(automaton))
    }
}

/// An automaton for the rules' patterns, by settings that ask for one.
pub(crate) fn automaton_for(
    alloc: Global,
    settings: &Settings,
    rules: &Rules,
) -> Result<AhoCorasick, RunError>
    requires { settings.now.engine ≢ Packed }
    ensures serves { IfOk result (IsServing settings.now rules.now) }
    ensures fails { IfErr result (FailsToBuild settings.now rules.now) }
{
    let patterns = rules.patterns(alloc)?;
    Ok(builder_for(settings).build(alloc, patterns.as_slice())?)
}

/// The builder of the automaton, by the settings. Its searches are unanchored, as they are at first.
fn builder_for(settings: &Settings) -> AhoCorasickBuilder
    ensures { result ≡ builder_by settings.now }
{
    let mut builder = AhoCorasick::builder();
    builder
        .match_kind(settings.kind)
        .pairing(settings.pairing)
        .kind(automaton_named(settings.engine))
        .prefilter(settings.prefilter)
        .byte_classes(settings.byte_classes);
    if let Some(depth) = settings.dense_depth {
        builder.dense_depth(depth);
    }
    builder
}

/// The automaton that an engine's word names.
fn automaton_named(engine: Engine) -> Option<AhoCorasickKind>
    ensures { result ≡ automaton_named engine }
{
    match engine {
        Engine::Noncontiguous => Some(AhoCorasickKind::NoncontiguousNFA),
        Engine::Contiguous => Some(AhoCorasickKind::ContiguousNFA),
        Engine::Dfa => Some(AhoCorasickKind::DFA),
        Engine::Auto | Engine::Packed => None,
    }
}

/// A packed search for the rules' patterns, which it serves.
fn packed_for(alloc: Global, kind: MatchKind, rules: &Rules) -> Result<Searcher, AllocError>
    requires kind { kind ≢ Standard }
    requires served { AreServed (rule_patterns rules.now) }
    ensures { IfOk result (IsPackedFor kind (rule_patterns rules.now)) }
{
    let patterns = rules.patterns(alloc)?;
    let mut config = Config::new();
    let mut builder = config.match_kind(packed_kind(kind)).builder(alloc);
    builder.try_extend(patterns.as_slice())?;
    let made = builder.build()?;
    Ok(made.unwrap())
}

/// The kind, as packed search names it.
fn packed_kind(kind: MatchKind) -> packed::MatchKind
    requires { kind ≢ Standard }
    ensures { search_kind result ≡ kind }
{
    match kind {
        MatchKind::Standard => unreachable!(),
        MatchKind::LeftmostFirst => packed::MatchKind::LeftmostFirst,
        MatchKind::LeftmostLongest => packed::MatchKind::LeftmostLongest,
    }
}
