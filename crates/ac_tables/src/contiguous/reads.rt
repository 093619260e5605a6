//! Look-ups in the words of a contiguous automaton.
ghost use Rattle.std.specs.Prelude.{◌≡◌, ◌<◌, ◌≤◌, ℕ, ◌+◌, ◌/◌, length, take, drop, slice_get, IfSome, Some};
ghost use Rattle.ac_input.specs.Number.{greatest_number};
ghost use Rattle.ac_automaton.specs.Starters.{SkipsBelow};
ghost use Rattle.ac_tables.specs.Contiguous.WordReads.{IsFirstPlace, IsSparseAt, ByteLeadsTo, IsIdleAt, HasWordList, ListsEdges, edge_class, list_place, listed_at, transitions_len, IsStateAt};
ghost use Rattle.std.specs.Int.{w32};
ghost use Rattle.std.specs.List.{flat_map};
ghost use Rattle.std.specs.Int.{to_le_bytes};
ghost use Rattle.ac_tables.specs.Contiguous.Words.{StateParts, head_len, next_by};

use crate::contiguous::layout::{DENSE, HEAD, KIND, NOWHERE, ONE, ONE_PATTERN};
use crate::contiguous::table::Table;
use ac_automaton::starters::Starters;
use ac_input::primitives::{PatternID, StateID};

/// So many words, from a place on.
#[inline]
fn words_from(words: &[u32], from: usize, len: usize) -> &[u32]
    requires { from + len ≤ length words.now }
    ensures { result.now ≡ take len (drop from words.now) }
{
    let rest = &words[from..];
    &rest[..len]
}

/// The first place of the class among some that are packed, four in a word.
#[inline]
fn place_of(packed: &[u32], class: u8) -> Option<usize>
    ensures { IsFirstPlace (flat_map (to_le_bytes w32) packed.now) class result }
{
    for (at, word) in packed.iter().enumerate() {
        let [a, b, c, d] = word.to_le_bytes();
        if a == class {
            return Some(4 * at);
        }
        if b == class {
            return Some(4 * at + 1);
        }
        if c == class {
            return Some(4 * at + 2);
        }
        if d == class {
            return Some(4 * at + 3);
        }
    }
    None
}

impl Table {
    /// Where the class leads from a state that keeps so many transitions, with their classes packed.
    #[inline]
    fn step_sparse(&self, sid: StateID, len: usize, class: u8) -> u32
        requires place { ∥ ((s : StateParts) × IsStateAt self.now sid s) ∥₁ }
        requires sparse { IsSparseAt self.now sid len }
        ensures { (s : StateParts) → IsStateAt self.now sid s → result ≡ next_by s.edges class }
    {
        let first = sid.as_usize() + HEAD;
        let packed = (len + 3) / 4;
        match place_of(words_from(&self.words, first, packed), class) {
            Some(at) => self.words[first + packed + at],
            None => NOWHERE,
        }
    }

    /// The word that says where the byte leads from the state by its transitions; 1 where none has it.
    #[inline]
    fn next_word(&self, sid: StateID, byte: u8) -> u32
        requires { ∥ ((s : StateParts) × IsStateAt self.now sid s) ∥₁ }
        ensures { ByteLeadsTo self.now sid byte result }
    {
        let at = sid.as_usize();
        let word = self.words[at];
        let class = self.classes.get(byte);
        let kind = word & KIND;
        if kind == DENSE {
            return self.words[at + HEAD + class as usize];
        }
        if kind != ONE {
            return self.step_sparse(sid, kind as usize, class);
        }
        if word >> 8 != class as u32 {
            return NOWHERE;
        }
        self.words[at + HEAD]
    }

    /// How many transitions the words of a state list, each with its class; none where they have an entry for each class.
    #[inline]
    pub(super) fn edge_len(&self, sid: StateID) -> Option<usize>
        requires { ∥ ((s : StateParts) × IsStateAt self.now sid s) ∥₁ }
        ensures { IfSome result (ListsEdges self.now sid) }
    {
        let word = self.words[sid.as_usize()];
        let kind = word & KIND;
        if kind == DENSE {
            return None;
        }
        if kind == ONE {
            return Some(1);
        }
        Some(kind as usize)
    }

    /// The class of one of the transitions that the words of a state list.
    #[inline]
    pub(super) fn edge_class(&self, sid: StateID, at: usize) -> usize
        requires { sid + head_len + at / 4 < length self.now.words.items }
        ensures { result ≡ edge_class self.now sid at }
    {
        let first = sid.as_usize();
        let word = self.words[first];
        let kind = word & KIND;
        if kind == ONE {
            return (word >> 8) as usize;
        }
        let four = self.words[first + HEAD + at / 4];
        let classes = four.to_le_bytes();
        classes[at % 4] as usize
    }

    /// Where the byte leads from the state by its transitions; 1 where none has it.
    #[inline]
    pub(super) fn step(&self, sid: StateID, byte: u8) -> StateID
        requires { ∥ ((s : StateParts) × IsStateAt self.now sid s) ∥₁ }
        ensures { ByteLeadsTo self.now sid byte result }
    {
        StateID::must(self.next_word(sid, byte) as usize)
    }
}

impl Table {
    /// The bytes that lead from the unanchored start to another state. It makes one look-up for each byte.
    pub(super) fn starters(&self) -> Starters
        requires { ∥ ((s : StateParts) × IsStateAt self.now self.now.start s) ∥₁ }
        ensures { SkipsBelow (IsIdleAt self.now) 256 result }
    {
        if self.start <= self.max_match {
            return Starters::Many;
        }
        let mut starters = Starters::None;
        for byte in 0..256usize {
            if self.step(self.start, byte as u8) != self.start {
                starters = starters.with(byte as u8);
            }
        }
        starters
    }
}

impl Table {
    /// How many words the transitions of a state have, by its kind.
    #[inline]
    fn transitions_len(&self, kind: u32) -> usize
        ensures { result ≡ transitions_len self.now.alphabet_len kind }
    {
        if kind == DENSE {
            return self.alphabet_len;
        }
        if kind == ONE {
            return 1;
        }
        let len = kind as usize;
        len + (len + 3) / 4
    }

    /// Where the patterns of a state begin that has some.
    #[inline]
    fn list_place(&self, sid: StateID) -> usize
        requires { HasWordList self.now sid }
        ensures { result ≡ list_place self.now sid }
    {
        let at = sid.as_usize();
        at + HEAD + self.transitions_len(self.words[at] & KIND)
    }

    /// How many patterns match at a state at which some do.
    pub(super) fn match_len(&self, sid: StateID) -> usize
        requires { HasWordList self.now sid }
        ensures { result ≡ length (listed_at self.now sid) }
    {
        let word = self.words[self.list_place(sid)];
        if word >= ONE_PATTERN {
            return 1;
        }
        word as usize
    }

    /// One of the patterns that match at a state.
    pub(super) fn match_pattern(&self, sid: StateID, index: usize) -> PatternID
        requires list { HasWordList self.now sid }
        requires within { index < length (listed_at self.now sid) }
        requires known { (k n : ℕ) → slice_get (listed_at self.now sid) k ≡ Some n → n ≤ greatest_number }
        ensures { slice_get (listed_at self.now sid) index ≡ Some result }
    {
        let at = self.list_place(sid);
        let word = self.words[at];
        if word >= ONE_PATTERN {
            return PatternID::must((word - ONE_PATTERN) as usize);
        }
        PatternID::must(self.words[at + 1 + index] as usize)
    }

    /// How many bytes of memory it takes, beside itself.
    pub(super) fn memory_usage(&self) -> usize {
        self.words.len().saturating_mul(4)
    }
}
