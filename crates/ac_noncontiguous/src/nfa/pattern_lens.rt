//! The patterns as an automaton stores them.
//!
//! A search needs how long a pattern is, and never again which bytes it has. So an automaton stores only the lengths; the patterns
//! themselves are seen by contracts, and take no memory.
ghost use Rattle.std.specs.Prelude.{◌≡◌, ◌++◌, [], ◌∷◌, ◌<◌, ◌≤◌, length, get_or, IfOk, OnOk};
ghost use Rattle.ac_input.specs.Number.{greatest_number};
ghost use Rattle.ac_input.specs.Work.{longest, shortest};
ghost use Rattle.ac_literal.specs.Packed.{bytes_of};
ghost use Rattle.ac_noncontiguous.specs.Nfa.PatternLens.{AreShort};

use ac_input::history::Pieces;
use ac_input::primitives::PatternID;
use std::alloc::{AllocError, Global};
use std::marker::Model;

/// How long each pattern is. A contract sees the patterns.
#[derive(Drop)]
pub struct PatternLens {
    each: Vec<u32>,
    least: usize,
    most: usize,
    patterns: Pieces,
}

impl Model for PatternLens {
    ghost use Rattle.std.specs.Prelude.{ℕ, List};
    ghost use Rattle.ac_noncontiguous.specs.Nfa.PatternLens.{AreLens};

    ghost Value = { List (List ℕ) };

    ghost view = { λ it. it.patterns.items };

    ghost invariant = { λ it. AreLens it.patterns.items it.each.items it.least it.most };
}

impl PatternLens {
    /// Of no patterns.
    pub(crate) fn none(alloc: Global) -> PatternLens
        ensures { result ≡ [] }
    {
        PatternLens {
            each: Vec::new(alloc),
            least: usize::MAX,
            most: 0,
            patterns: Pieces::empty(),
        }
    }

    /// Of one pattern more.
    pub(crate) fn add(&mut self, pattern: &[u8]) -> Result<(), AllocError>
        requires { length pattern.now ≤ greatest_number }
        ensures { OnOk result (self.new ≡ self.old ++ pattern.now ∷ []) }
    {
        self.each.push(pattern.len() as u32)?;
        self.least = self.least.min(pattern.len());
        self.most = self.most.max(pattern.len());
        self.patterns = self.patterns.and(pattern);
        Ok(())
    }

    /// Of these patterns.
    pub(crate) fn of(alloc: Global, patterns: &[&[u8]]) -> Result<PatternLens, AllocError>
        requires { AreShort (bytes_of patterns.now) }
        ensures { IfOk result (λ lens. lens ≡ bytes_of patterns.now) }
    {
        let mut lens = PatternLens::none(alloc);
        for pattern in patterns {
            lens.add(pattern)?;
        }
        Ok(lens)
    }

    /// A copy, in memory from `alloc`.
    pub fn clone(&self, alloc: Global) -> Result<PatternLens, AllocError>
        ensures { IfOk result (λ copy. copy ≡ self.now) }
    {
        Ok(PatternLens {
            each: Vec::from_slice(alloc, &self.each)?,
            least: self.least,
            most: self.most,
            patterns: self.patterns.same(),
        })
    }

    /// How many patterns there are.
    pub fn len(&self) -> usize
        ensures { result ≡ length self.now }
    {
        self.each.len()
    }

    /// How many bytes the pattern has.
    pub fn pattern_len(&self, pattern: PatternID) -> usize
        requires { pattern < length self.now }
        ensures { result ≡ length (get_or self.now pattern []) }
    {
        self.each[pattern.as_usize()] as usize
    }

    /// How many bytes the shortest pattern has; `usize::MAX` where there is none.
    pub fn shortest(&self) -> usize
        ensures { result ≡ shortest self.now }
    {
        self.least
    }

    /// How many bytes the longest pattern has; 0 where there is none.
    pub fn longest(&self) -> usize
        ensures { result ≡ longest self.now }
    {
        self.most
    }

    /// How many bytes of memory they take, besides themselves.
    pub fn memory_usage(&self) -> usize {
        self.each.len().saturating_mul(4)
    }
}
