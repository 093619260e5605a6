//! Reading on over bytes that begin no pattern.
//!
//! While a search stands in the start, what counts is where a pattern may begin. There are two ways to find the next such place many
//! bytes at a time: by bytes of the patterns ([`Openings`]), and by the few bytes that lead out of the start ([`Starters`]).
//! Between such places the automaton reads on by its own loop, which stops at the start, too.
//!
//! Of the bytes up to a place that openings find, and of those after it that are too few for an opening, only the latter can still be
//! live: one fewer than an opening has. The search reads those from the start, and has come to the state to which all bytes up to there
//! lead. Each byte that is passed counts as one look.
//!
//! An automaton stores [`Skips`] and reads on by them. They skip only where the search stops at no start, and by openings only where
//! it isn't anchored. Where the openings pass few bytes, they are left for a while, as a prefilter is, and the automaton's loop stops
//! at no start. So it is where few bytes are left.
//!
//! The numbers of the states have one order in every automaton: those that match, the starts, the others. So one comparison decides
//! whether a search has more to do at a state than to read on: with the last special state ([`last_special`]).
ghost use Rattle.std.specs.Prelude.{◌≡◌, ◌<◌, ◌≤◌, IfOk, IfSome, IsTrue, length, option_map};
ghost use Rattle.ac_input.specs.Dictionary.{Dictionary};
ghost use Rattle.ac_input.specs.Opening.{HasNoOccurrence};
ghost use Rattle.ac_literal.specs.Openings.{AreOpenings};
ghost use Rattle.ac_automaton.specs.Automaton.{IsReached};
ghost use Rattle.ac_automaton.specs.Look.{StaysBut};
ghost use Rattle.ac_automaton.specs.Skip.{HasPassed, MayReadBy, MaySkipBy, ReadsAll, ReadsSome, ReadsToBy, last_special_of};

use crate::automaton::Advance;
use crate::gain::Gain;
use crate::look::{Between, LookUp};
use crate::starters::Starters;
use ac_input::primitives::StateID;
use ac_input::search::Anchored;
use ac_input::steps::Steps;
use ac_literal::openings::Openings;
use ac_literal::prefilter::Prefilter;
use std::alloc::{AllocError, Global};

/// How many bytes openings have to pass, to pay.
const COST: usize = 24;

/// Fewer bytes are read by the automaton's own loop: a block of openings has 32 places, and those after them.
const FEW: usize = 40;

/// For how many patterns openings and packed search pass bytes faster than several walks side by side read them. With more patterns
/// more places are found in vain, unless they go by grams.
pub(crate) const FEW_PATTERNS: usize = 64;

/// What an automaton skips by while a search stands in its start.
#[derive(Drop)]
pub struct Skips {
    /// The start of the searches that aren't anchored.
    pub start: StateID,
    /// Where a pattern may begin, if the patterns are few or long.
    pub openings: Option<Openings>,
    /// The bytes that lead from the start to another state.
    pub starters: Starters,
}

impl Skips {
    /// Whether a search for so many patterns that stands in its start passes bytes faster than several walks read them side by side.
    pub fn pass_many(&self, patterns: usize) -> bool {
        match &self.openings {
            Some(openings) => patterns <= FEW_PATTERNS || openings.are_sparse(),
            None => self.starters.are_few(),
        }
    }

    /// Whether the openings show that no pattern occurs in these bytes. To ask costs about as much as to read ten bytes, and two more for
    /// each block of 32 places; where the answer is no, nothing is gained.
    pub fn rule_out(&self, bytes: &[u8]) -> bool
        ensures { IsTrue result → (m : Dictionary) → ∥ IfSome self.now.openings (AreOpenings m) ∥₁
            → HasNoOccurrence m bytes.now }
    {
        match &self.openings {
            Some(openings) => openings.rule_out(bytes),
            None => false,
        }
    }

    /// How many bytes of memory they take, besides themselves.
    pub fn memory_usage(&self) -> usize {
        match &self.openings {
            Some(openings) => openings.memory_usage(),
            None => 0,
        }
    }

    /// Reads on to the first state between two numbers, these included, in the way that is the fastest there.
    #[inline(always)]
    pub fn read_to<A: LookUp>(
        &self,
        automaton: &A,
        anchored: Anchored,
        sid: StateID,
        bytes: &[u8],
        to: Between,
        steps: &mut Steps,
    ) -> Advance
        requires reached { IsReached (A.Reaches automaton.now anchored) sid }
        requires may { MayReadBy A.LookUp automaton.now self.now to }
        ensures { ReadsToBy A.LookUp automaton.now anchored to sid bytes.now result
            steps.old steps.new }
    {
        self.read_to_from(automaton, self.start, anchored, sid, bytes, to, steps)
    }

    /// The same by an automaton that has another number for the start, as rows have.
    #[inline(always)]
    pub fn read_to_from<A: LookUp>(
        &self,
        automaton: &A,
        start: StateID,
        anchored: Anchored,
        sid: StateID,
        bytes: &[u8],
        to: Between,
        steps: &mut Steps,
    ) -> Advance
        requires reached { IsReached (A.Reaches automaton.now anchored) sid }
        requires may { MayReadBy A.LookUp automaton.now (record self.now { start = start }) to }
        ensures { ReadsToBy A.LookUp automaton.now anchored to sid bytes.now result
            steps.old steps.new }
    {
        if bytes.len() >= FEW && to.is_before(start) {
            if let (Some(openings), Anchored::No) = (&self.openings, anchored) {
                return skip(automaton, openings, start, sid, bytes, to, steps);
            }
            let starters = &self.starters;
            if starters.are_few() {
                return skip_idle(automaton, starters, start, anchored, sid, bytes, to, steps);
            }
        }
        automaton.read_until(anchored, sid, bytes, to, steps)
    }
}

/// Reads all the bytes on from a state.
#[inline]
fn read_all<A: LookUp>(automaton: &A, sid: StateID, bytes: &[u8], steps: &mut Steps) -> StateID
    requires { IsReached (A.Reaches automaton.now Anchored.No) sid }
    ensures { ReadsAll A.LookUp automaton.now sid bytes.now result steps.old steps.new }
{
    let mut current = sid;
    for byte in bytes {
        current = automaton.look_up(Anchored::No, current, *byte, steps);
    }
    current
}

/// Passes the bytes before the next place at which a pattern may begin, from the start, and reads those after it that can't end one.
#[inline]
fn pass<A: LookUp>(
    automaton: &A,
    openings: &Openings,
    start: StateID,
    bytes: &[u8],
    steps: &mut Steps,
) -> Advance
    requires begins { IsReached (A.Reaches automaton.now Anchored.No) start }
    requires room { openings.now.len ≤ length bytes.now }
    ensures { HasPassed A.LookUp automaton.now openings.now start bytes.now result
        steps.old steps.new }
{
    let end = openings.len() - 1;
    let passed = openings.pass(bytes).min(bytes.len() - end);
    steps.looks(passed);
    let taken = passed + end;
    Advance {
        sid: read_all(automaton, start, &bytes[passed..taken], steps),
        taken,
    }
}

/// For how many of the bytes that are left the automaton reads on alone; 0 where the openings are asked.
#[inline(always)]
fn alone_for(gain: &mut Gain, read: usize, left: usize) -> usize
    requires { 0 < left }
    ensures { result ≡ 0 → 40 ≤ left }
{
    if left < FEW { left } else { gain.alone(read) }
}

/// Reads on to the first state between two numbers or to the start; or, alone, through so many bytes and past the start.
#[inline(always)]
fn read_some<A: LookUp>(
    automaton: &A,
    start: StateID,
    anchored: Anchored,
    sid: StateID,
    bytes: &[u8],
    alone: usize,
    to: Between,
    steps: &mut Steps,
) -> Advance
    requires reached { IsReached (A.Reaches automaton.now anchored) sid }
    requires before { to.last ≤ start }
    requires some { 0 < length bytes.now }
    ensures { ReadsSome A.LookUp automaton.now anchored to sid bytes.now result
        steps.old steps.new }
{
    if alone == 0 {
        return automaton.read_until(anchored, sid, bytes, to.up_to(start), steps);
    }
    let part = &bytes[..alone.min(bytes.len())];
    automaton.read_until(anchored, sid, part, to, steps)
}

/// Reads on to the first state between two numbers, these included, and passes the bytes that can't begin a pattern.
///
/// Not inlined: inlining it slows the callers' other loops.
#[inline(never)]
fn skip<A: LookUp>(
    automaton: &A,
    openings: &Openings,
    start: StateID,
    sid: StateID,
    bytes: &[u8],
    to: Between,
    steps: &mut Steps,
) -> Advance
    requires reached { IsReached (A.Reaches automaton.now Anchored.No) sid }
    requires may { MaySkipBy A.LookUp automaton.now openings.now start to }
    ensures { ReadsToBy A.LookUp automaton.now Anchored.No to sid bytes.now result
        steps.old steps.new }
{
    let mut gain = Gain::new(COST);
    let mut current = sid;
    let mut read = 0;
    while read < bytes.len() {
        let rest = &bytes[read..];
        let alone = alone_for(&mut gain, read, rest.len());
        if alone == 0 && current == start {
            let stop = pass(automaton, openings, start, rest, steps);
            gain.passed(stop.taken);
            current = stop.sid;
            read += stop.taken;
            continue;
        }
        let stop = read_some(
            automaton,
            start,
            Anchored::No,
            current,
            rest,
            alone,
            to,
            steps,
        );
        current = stop.sid;
        read += stop.taken;
        if to.has(current) {
            return Advance {
                sid: current,
                taken: read,
            };
        }
    }
    Advance {
        sid: current,
        taken: read,
    }
}

/// Reads on to the first state between two numbers, these included, and passes the bytes that leave it in the start.
///
/// Not inlined: inlining it slows the callers' other loops.
#[inline(never)]
fn skip_idle<A: LookUp>(
    automaton: &A,
    starters: &Starters,
    start: StateID,
    anchored: Anchored,
    sid: StateID,
    bytes: &[u8],
    to: Between,
    steps: &mut Steps,
) -> Advance
    requires reached { IsReached (A.Reaches automaton.now anchored) sid }
    requires before { to.last < start }
    requires stays { StaysBut (A.Reaches automaton.now anchored) starters.now start }
    ensures { ReadsToBy A.LookUp automaton.now anchored to sid bytes.now result
        steps.old steps.new }
{
    let mut current = sid;
    let mut read = 0;
    while read < bytes.len() {
        let rest = &bytes[read..];
        let stop = read_some(automaton, start, anchored, current, rest, 0, to, steps);
        current = stop.sid;
        read += stop.taken;
        if to.has(current) {
            return Advance {
                sid: current,
                taken: read,
            };
        }
        read += starters.pass(start, current, &bytes[read..], steps);
    }
    Advance {
        sid: current,
        taken: read,
    }
}

/// The last state at which a search has more to do than to read on: the anchored start if there is a prefilter, since the search
/// runs it at a start; otherwise the last state that matches.
pub fn last_special(
    held: &Option<Prefilter>,
    start_anchored: StateID,
    max_match: StateID,
) -> StateID
    ensures { result ≡ last_special_of held.now start_anchored max_match }
{
    match held {
        Some(_) => start_anchored,
        None => max_match,
    }
}

/// A copy of the prefilter, if there is one, in memory from `alloc`.
pub fn clone_prefilter(
    alloc: Global,
    held: Option<&Prefilter>,
) -> Result<Option<Prefilter>, AllocError>
    ensures { IfOk result (λ copy. copy ≡ option_map (λ p. p.now) held.entry) }
{
    match held {
        Some(prefilter) => Ok(Some(prefilter.clone(alloc)?)),
        None => Ok(None),
    }
}
