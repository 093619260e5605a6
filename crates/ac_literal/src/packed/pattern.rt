//! The patterns of a packed search, and the order in which a kind prefers them.
//!
//! A pattern's number counts from 0 in the order in which the patterns were added. At one place of a haystack several patterns may
//! lie. Which of them is the match depends only on the kind and on the patterns, so their order is computed once, when a searcher
//! is built.
ghost use Rattle.std.specs.Prelude.{◌≡◌, ℕ, ◌<◌, ◌≤◌, [], ◌∷◌, ◌++◌, ◌==◌, length, IfOk, OnOk, OnErr, get_or};
ghost use Rattle.ac_input.specs.Best.{preference};
ghost use Rattle.ac_input.specs.Work.{shortest};
ghost use Rattle.ac_literal.specs.Packed.{search_kind, most_packed};
ghost use Rattle.ac_literal.specs.Packed.RabinKarp.{lying, IsOrder, IsPlace};

use crate::packed::api::MatchKind;
use ac_input::primitives::PatternID;
use std::alloc::{AllocError, Global};
use std::cmp::Ordering;
use std::marker::Model;

/// Patterns in the order in which they were added. Each has memory of its own.
#[derive(Drop)]
pub struct Patterns {
    by_id: Vec<Vec<u8>>,
}

impl Model for Patterns {
    ghost use Rattle.std.specs.Prelude.{ℕ, List, map};

    ghost Value = { List (List ℕ) };

    ghost view = { λ p. map (λ pattern. pattern.items) p.by_id.items };
}

impl Patterns {
    /// No pattern. It takes no memory yet, and takes it from `alloc` later.
    pub fn new(alloc: Global) -> Patterns
        ensures { result ≡ [] }
    {
        Patterns {
            by_id: Vec::new(alloc),
        }
    }

    /// The allocator.
    pub fn allocator(&self) -> Global {
        *self.by_id.allocator()
    }

    /// How many patterns there are.
    pub fn len(&self) -> usize
        ensures { result ≡ length self.now }
    {
        self.by_id.len()
    }

    /// Whether there is no pattern.
    pub fn is_empty(&self) -> bool
        ensures { result ≡ (length self.now == 0) }
    {
        self.by_id.is_empty()
    }

    /// The bytes of the pattern of this number.
    pub fn get(&self, number: PatternID) -> &[u8]
        requires { number < length self.now }
        ensures { result.now ≡ get_or self.now number [] }
    {
        self.by_id[number.as_usize()].as_slice()
    }

    /// Adds a copy of the pattern after the others.
    pub fn add(&mut self, pattern: &[u8]) -> Result<(), AllocError>
        ensures ok { OnOk result (self.new ≡ self.old ++ pattern.now ∷ []) }
        ensures err { OnErr result (self.new ≡ self.old) }
    {
        let pattern = Vec::from_slice(self.allocator(), pattern)?;
        self.by_id.push(pattern)?;
        Ok(())
    }

    /// Drops all patterns.
    pub fn clear(&mut self)
        ensures { self.new ≡ [] }
    {
        self.by_id.clear();
    }

    /// The same patterns in memory from `alloc`.
    pub fn clone(&self, alloc: Global) -> Result<Patterns, AllocError>
        ensures { IfOk result (λ copy. copy ≡ self.now) }
    {
        let mut copy = Patterns::new(alloc);
        for pattern in &self.by_id {
            copy.add(pattern)?;
        }
        Ok(copy)
    }

    /// The length of the shortest pattern, or the greatest number where there is none. It looks at each pattern's length.
    pub fn minimum_len(&self) -> usize
        ensures { result ≡ shortest self.now }
    {
        let mut least = usize::MAX;
        for pattern in &self.by_id {
            least = least.min(pattern.len());
        }
        least
    }

    /// How many patterns come before a pattern in the order of their bytes. It looks at each pattern.
    pub fn before(&self, number: PatternID) -> usize
        requires { number < length self.now }
        ensures { result ≤ length self.now }
    {
        let pattern = self.get(number);
        let mut count = 0;
        for other in &self.by_id {
            if other.as_slice() < pattern {
                count += 1;
            }
        }
        count
    }

    /// How many bytes of memory the patterns take.
    pub fn memory_usage(&self) -> usize {
        let mut bytes = self.by_id.capacity().saturating_mul(size_of::<Vec<u8>>());
        for pattern in &self.by_id {
            bytes = bytes.saturating_add(pattern.capacity());
        }
        bytes
    }

    /// Which of two patterns that lie at one place the kind prefers: the lesser.
    fn compare(&self, kind: MatchKind, a: PatternID, b: PatternID) -> Ordering
        requires a { a < length self.now }
        requires b { b < length self.now }
        ensures { (at : ℕ)
            → result ≡ preference (search_kind kind) (lying self.now at a) (lying self.now at b) }
    {
        let numbers = a.as_usize().cmp(&b.as_usize());
        match kind {
            MatchKind::LeftmostFirst => numbers,
            MatchKind::LeftmostLongest => {
                let (a, b) = (self.get(a).len(), self.get(b).len());
                b.cmp(&a).then(numbers)
            }
        }
    }

    /// Where the number belongs in the order: after those that the kind doesn't prefer to it.
    fn place_of(&self, kind: MatchKind, order: &[PatternID], number: PatternID) -> usize
        requires number { number < length self.now }
        requires order { IsOrder kind self.now (length order.now) order.now }
        requires few { length order.now ≤ length self.now }
        ensures { IsPlace kind self.now order.now number result }
    {
        for (i, other) in order.iter().enumerate() {
            if self.compare(kind, *other, number).is_lt() {
                return i;
            }
        }
        order.len()
    }

    /// The numbers of the patterns, from the one that the kind prefers least at one place to the one that it prefers most.
    ///
    /// It takes at most the square of their number in comparisons, which is little for few patterns.
    pub fn order(&self, alloc: Global, kind: MatchKind) -> Result<Vec<PatternID>, AllocError>
        requires { length self.now ≤ most_packed }
        ensures { IfOk result (λ order. IsOrder kind self.now (length self.now) order.items) }
    {
        let mut order = Vec::with_capacity(alloc, self.len())?;
        for number in 0..self.len() {
            let number = PatternID::must(number);
            let place = self.place_of(kind, &order, number);
            order.insert(place, number)?;
        }
        Ok(order)
    }
}
