//! The trie of the patterns.
//!
//! A state stands for a beginning of a pattern, and the way from the start to it spells that beginning. Patterns are entered one
//! after another, byte by byte. A byte and its partner lead to one state: the trie works over the lesser of the two, and the
//! automaton that is made from it gets a transition for each.
//!
//! The children of a state are a list in rising order of byte: a state has its first child, and each child the next one of the
//! same parent. So a state takes 20 bytes and a transition none besides, and a look-up passes at most 256 children. If a child
//! isn't the first, a hint mostly finds it at once ([`hints`]). Numbers are assigned as states are added, and a parent's is less
//! than its child's.
//!
//! Under leftmost-first a pattern that begins with an earlier one can never match, and is not entered: the walk that enters it
//! meets the state in which the earlier one ends.
ghost use Rattle.std.specs.Prelude.{◌≡◌, ℕ, [], Some, ◌+◌, ◌<◌, ◌≤◌, length, map, true, false, IsTrue, OnOk, IfOk, IfErr, slice_get};
ghost use Rattle.ac_input.specs.Same.{other};
ghost use Rattle.ac_input.specs.Pairing.{IsPairing};
ghost use Rattle.ac_input.specs.Laws.LiveLaws.{canonical};
ghost use Rattle.ac_input.specs.Dictionary.{dictionary_of};
ghost use Rattle.ac_input.specs.Number.{greatest_number};
ghost use Rattle.ac_literal.specs.Packed.{bytes_of};
ghost use Rattle.ac_noncontiguous.specs.Trie.Tree.{IsTree, IsChildPlace, IsAdded, state_at, is_match, byte as byte_of};
ghost use Rattle.ac_noncontiguous.specs.Trie.Entering.{IsMarked, IsChildStep, IsChildRefused, IsEnd, IsStuck};
ghost use Rattle.ac_noncontiguous.specs.Standing.{IsBuildRefused};

mod hints;

use crate::error::{BuildError, BuildErrorKind};
use crate::trie::hints::Hints;
use ac_input::pairing::Pairing;
use ac_input::primitives::{GREATEST, PatternID, StateID};
use ac_input::search::MatchKind;
use std::alloc::Global;

/// How many states a trie may have: an automaton has three more, the dead one, the fail one and the anchored start.
const MOST_STATES: usize = StateID::LIMIT - 3;

/// A beginning of a pattern. The start is no child, so that its number, 0, says that there is no child or no sibling.
#[derive(Clone, Copy, Debug)]
pub(crate) struct State {
    /// The state of the beginning without its last byte.
    pub parent: StateID,
    /// The first child.
    pub child: StateID,
    /// The next child of the same parent.
    pub sibling: StateID,
    /// How many bytes the beginning has.
    pub depth: u32,
    /// Its last byte.
    pub byte: u8,
    /// Whether a pattern ends here.
    pub is_match: bool,
}

/// Where the child for a byte is, or would be: the first child from the byte on, and the one before it.
#[derive(Clone, Copy, Drop)]
struct ChildSlot {
    before: StateID,
    at: StateID,
}

/// The beginnings of the patterns that were entered, as the states of a tree.
#[derive(Drop)]
pub(crate) struct Trie {
    pub(crate) states: Vec<State>,
    /// For each pattern the state in which it ends, if it is entered.
    pub(crate) ends: Vec<Option<StateID>>,
    hints: Hints,
    /// For each byte its partner.
    pairing: [u8; 256],
    kind: MatchKind,
    ghost tree: { IsTree states.items },
    ghost few: { length states.items + 3 ≤ greatest_number + 1 },
    ghost counted: { length ends.items ≤ greatest_number + 1 },
    ghost paired: { IsPairing pairing },
    ghost placed: { (n i : ℕ) → (slice_get ends.items n ≡ Some (Some i)) → i < length states.items },
}

impl Trie {
    ghost use Rattle.ac_noncontiguous.specs.Trie.Kept.{KeepsSettings, IsNoted, IsTrieOf, TakesPattern, RefusesPattern};

    /// The trie of no patterns: the start alone.
    pub(crate) fn new(alloc: Global, kind: MatchKind, pairing: Pairing) -> Result<Trie, BuildError>
        ensures made { IfOk result (IsTrieOf (dictionary_of [] pairing kind)) }
        ensures refused { IfErr result (λ error. error ≡ BuildErrorKind.Memory) }
    {
        let start = State {
            parent: StateID::ZERO,
            child: StateID::ZERO,
            sibling: StateID::ZERO,
            depth: 0,
            byte: 0,
            is_match: false,
        };
        let mut states = Vec::new(alloc);
        if states.push(start).is_err() {
            return Err(BuildError::memory());
        }
        Ok(Trie {
            states,
            ends: Vec::new(alloc),
            hints: Hints::new(alloc),
            pairing: pairing.table(),
            kind,
        })
    }

    /// The trie of these patterns, which are entered one after another.
    pub(crate) fn from_patterns(
        alloc: Global,
        patterns: &[&[u8]],
        pairing: Pairing,
        kind: MatchKind,
    ) -> Result<Trie, BuildError>
        ensures made { IfOk result (IsTrieOf (dictionary_of (bytes_of patterns.now) pairing kind)) }
        ensures refused { IfErr result (IsBuildRefused (dictionary_of (bytes_of patterns.now) pairing kind)) }
    {
        let mut trie = Trie::new(alloc, kind, pairing)?;
        for pattern in patterns {
            trie.add(pattern)?;
        }
        Ok(trie)
    }

    /// How many states there are.
    pub(crate) fn len(&self) -> usize
        ensures { result ≡ length self.now.states.items }
    {
        self.states.len()
    }

    /// The state of this number.
    pub(crate) fn state(&self, id: StateID) -> State
        requires { id < length self.now.states.items }
        ensures { result ≡ state_at self.now.states.items id }
    {
        self.states[id.as_usize()]
    }

    /// Where the byte leads from the state, or where a child for it belongs.
    fn place(&self, of: StateID, byte: u8) -> ChildSlot
        requires { of < length self.now.states.items }
        ensures { IsChildPlace self.now.states.items of byte result.before result.at }
    {
        let ChildSlot { mut before, mut at } = self.from_where(of, byte);
        while at != StateID::ZERO && self.state(at).byte < byte {
            before = at;
            at = self.state(at).sibling;
        }
        ChildSlot { before, at }
    }

    /// Adds a child to the state for the byte, at the place for it.
    fn add_child(&mut self, of: StateID, byte: u8, place: ChildSlot) -> Result<StateID, BuildError>
        requires within { of < length self.old.states.items }
        requires place { IsChildPlace self.old.states.items of byte place.before place.at }
        requires missing { 0 < place.at → byte < byte_of self.old.states.items place.at }
        ensures added { IfOk result
            (λ id. IsAdded self.old.states.items self.new.states.items of byte id) }
        ensures refused { IfErr result (λ kind. IsChildRefused self.old.states.items of byte kind) }
        ensures rest { KeepsSettings self.old self.new }
    {
        let len = self.states.len();
        if len >= MOST_STATES {
            return Err(BuildError::state_id_overflow(StateID::MAX.as_u64(), StateID::LIMIT as u64));
        }
        let id = StateID::must(len);
        let state = State {
            parent: of,
            child: StateID::ZERO,
            sibling: place.at,
            depth: self.state(of).depth + 1,
            byte,
            is_match: false,
        };
        if self.states.push(state).is_err() {
            return Err(BuildError::memory());
        }
        if place.before == StateID::ZERO {
            self.states[of.as_usize()].child = id;
        } else {
            self.states[place.before.as_usize()].sibling = id;
        }
        Ok(id)
    }

    /// The child of the state for the byte, which is added where it isn't there.
    fn child_for(&mut self, of: StateID, byte: u8) -> Result<StateID, BuildError>
        requires { of < length self.old.states.items }
        ensures step { IfOk result
            (IsChildStep self.old.states.items self.new.states.items of byte) }
        ensures refused { IfErr result (λ kind. IsChildRefused self.old.states.items of byte kind) }
        ensures rest { KeepsSettings self.old self.new }
    {
        if let Some(id) = self.known(of, byte) {
            return Ok(id);
        }
        let id = self.found_or_added(of, byte)?;
        self.note_child(of, byte, id);
        Ok(id)
    }

    /// The child of the state for the byte, which is walked to, and added where it isn't there.
    fn found_or_added(&mut self, of: StateID, byte: u8) -> Result<StateID, BuildError>
        requires { of < length self.old.states.items }
        ensures step { IfOk result
            (IsChildStep self.old.states.items self.new.states.items of byte) }
        ensures refused { IfErr result (λ kind. IsChildRefused self.old.states.items of byte kind) }
        ensures rest { KeepsSettings self.old self.new }
    {
        let place = self.place(of, byte);
        if place.at != StateID::ZERO && self.state(place.at).byte == byte {
            return Ok(place.at);
        }
        self.add_child(of, byte, place)
    }

    /// The byte that stands for the byte and its partner.
    pub(crate) fn canonical(&self, byte: u8) -> u8
        ensures { result ≡ canonical self.now.pairing byte }
    {
        byte.min(self.other(byte))
    }

    /// The partner of the byte.
    pub(crate) fn other(&self, byte: u8) -> u8
        ensures { result ≡ other self.now.pairing byte }
    {
        self.pairing[byte as usize]
    }

    /// Which occurrences are preferred.
    pub(crate) fn kind(&self) -> MatchKind
        ensures { result ≡ self.now.kind }
    {
        self.kind
    }

    /// Whether a pattern that goes on from the state can't match, since an earlier one ends in the state and is preferred.
    fn is_shadowing(&self, at: StateID) -> bool
        requires { at < length self.now.states.items }
        ensures yes { IsTrue result → (self.now.kind ≡ MatchKind.LeftmostFirst) ×
            (is_match self.now.states.items at ≡ true) }
        ensures no { result ≡ false → self.now.kind ≡ MatchKind.LeftmostFirst →
            is_match self.now.states.items at ≡ false }
    {
        self.kind == MatchKind::LeftmostFirst && self.state(at).is_match
    }

    /// Enters the pattern, and returns the state in which it ends. Under leftmost-first a pattern that begins with an earlier one
    /// ends nowhere.
    fn enter(&mut self, pattern: &[u8]) -> Result<Option<StateID>, BuildError>
        ensures ended { IfOk result (λ end. IsEnd self.old.kind self.old.states.items
            self.new.states.items (map (canonical self.old.pairing) pattern.now) end) }
        ensures stuck { IfErr result (λ kind. IsStuck self.old.kind self.old.states.items
            (map (canonical self.old.pairing) pattern.now) kind) }
        ensures rest { KeepsSettings self.old self.new }
    {
        let mut at = StateID::ZERO;
        for byte in pattern {
            if self.is_shadowing(at) {
                return Ok(None);
            }
            let byte = self.canonical(*byte);
            at = self.child_for(at, byte)?;
        }
        Ok(Some(at))
    }

    /// Makes the state one in which a pattern ends.
    fn mark(&mut self, id: StateID)
        requires { id < length self.old.states.items }
        ensures marked { IsMarked self.old.states.items self.new.states.items id }
        ensures rest { KeepsSettings self.old self.new }
    {
        self.states[id.as_usize()].is_match = true;
    }

    /// Records where the next pattern by number ends.
    fn note_end(&mut self, end: Option<StateID>) -> Result<(), BuildError>
        requires room { length self.old.ends.items ≤ greatest_number }
        requires within { (id : ℕ) → end ≡ Some id → id < length self.old.states.items }
        ensures noted { OnOk result (IsNoted self.old self.new end) }
        ensures refused { IfErr result (λ kind. kind ≡ BuildErrorKind.Memory) }
    {
        if self.ends.push(end).is_err() {
            return Err(BuildError::memory());
        }
        Ok(())
    }

    /// Adds the pattern, the next one by number.
    ///
    /// After an error the trie may have states of a pattern that was not added completely: it must be discarded.
    pub(crate) fn add(&mut self, pattern: &[u8]) -> Result<(), BuildError>
        ensures added { IfOk result (λ _. TakesPattern self.old pattern.now self.new) }
        ensures refused { IfErr result (RefusesPattern self.old pattern.now) }
    {
        let number = self.ends.len();
        if number > PatternID::MAX.as_usize() {
            return Err(BuildError::pattern_id_overflow(PatternID::MAX.as_u64(), number as u64));
        }
        if pattern.len() > GREATEST {
            return Err(BuildError::pattern_too_long(PatternID::must(number), pattern.len()));
        }
        match self.enter(pattern)? {
            None => self.note_end(None),
            Some(id) => {
                self.mark(id);
                self.note_end(Some(id))
            }
        }
    }
}
