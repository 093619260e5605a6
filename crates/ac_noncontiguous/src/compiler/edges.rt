//! Where the bytes lead from a state.
//!
//! The trie has a child for the lesser of a byte and its partner; here each of the 256 bytes gets its next state, so that one
//! state after another is laid out without a look back into the trie. The array of a state takes 1 kilobyte, and is reused for the
//! next.
ghost use Rattle.std.specs.Prelude.{◌≡◌, ℕ, ◌<◌, length, slice_index};
ghost use Rattle.ac_input.specs.Laws.LiveLaws.{canonical};
ghost use Rattle.ac_noncontiguous.specs.Compiler.Numbering.{IsNumbering};
ghost use Rattle.ac_noncontiguous.specs.Compiler.Edges.{AreTargets, IsEdgeTo};

use crate::compiler::numbering::Numbering;
use crate::trie::Trie;
use ac_input::primitives::StateID;

/// One number for each byte.
pub(super) fn filled(id: StateID) -> [StateID; 256]
    ensures { (b : ℕ) → b < 256 → slice_index result b ≡ id }
{
    [id; 256]
}

/// For each byte the number of the child of the trie state for it, or `other` where there is none.
fn targets(trie: &Trie, numbering: &Numbering, of: StateID, other: StateID) -> [StateID; 256]
    requires within { of < length trie.now.states.items }
    requires numbers { length numbering.now.of.items ≡ length trie.now.states.items }
    ensures { AreTargets trie.now.states.items numbering.now.of.items of other result }
{
    let mut targets = filled(other);
    let mut at = trie.state(of).child;
    while at != StateID::ZERO {
        let child = trie.state(at);
        targets[child.byte as usize] = numbering.of[at.as_usize()];
        at = child.sibling;
    }
    targets
}

/// A byte leads where the lesser of it and its partner leads.
fn for_both(trie: &Trie, targets: &[StateID; 256]) -> [StateID; 256]
    ensures { (b : ℕ) → b < 256 → slice_index result b ≡
        slice_index targets.now (canonical trie.now.pairing b) }
{
    let mut edges = filled(StateID::ZERO);
    for byte in 0..256usize {
        edges[byte] = targets[trie.canonical(byte as u8) as usize];
    }
    edges
}

/// Where each byte leads from the state; `back` is where the others lead from the unanchored start.
pub(super) fn edges(
    trie: &Trie,
    numbering: &Numbering,
    back: StateID,
    state: usize,
) -> [StateID; 256]
    requires numbering { IsNumbering (length trie.now.states.items) numbering.now }
    requires within { state < length numbering.now.at.items }
    requires back { back < length numbering.now.at.items }
    ensures { (b : ℕ) → b < 256 → IsEdgeTo trie.now numbering.now back state b (slice_index result b) }
{
    if state == 0 {
        return filled(StateID::ZERO);
    }
    let other = if state == numbering.start.as_usize() {
        back
    } else {
        StateID::must(1)
    };
    for_both(trie, &targets(trie, numbering, numbering.at[state], other))
}
