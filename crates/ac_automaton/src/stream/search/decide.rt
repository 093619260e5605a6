//! The match of a leftmost kind that is met, until it is decided.
//!
//! Under a leftmost kind a match may be followed by a better one, as long as something is live that began no later. The automaton
//! keeps just what is, and then is dead: from there on the best match that was met stays the best, whatever is still read. So a match
//! is decided where the state is dead, or where nothing more comes. Then the search goes on from its end, and reads again what it has
//! read past it: at most as much as the longest pattern is long, and one byte.
ghost use Rattle.std.specs.Prelude.{◌≡◌, Some};
ghost use Rattle.ac_automaton.specs.Stream.Search.Walk.{MayWalk, WalksOn};

use super::{Progress, begin_anew};
use crate::automaton::Automaton;
use crate::in_memory::find::first_match;
use ac_input::primitives::StateID;
use ac_input::search::{Anchored, Match};
use ac_input::steps::Steps;

/// Reads on over the held bytes from where a search stands that has met a match, until the best one is decided, or to the last byte.
pub(super) fn decide<A: Automaton>(
    automaton: &A,
    start: StateID,
    progress: &mut Progress,
    met: Match,
    held: &[u8],
    steps: &mut Steps,
) -> Option<Match>
    requires walk { MayWalk A.Automaton automaton.now start progress.old held.now }
    requires met { progress.old.best ≡ Some met }
    ensures walk { WalksOn A.Automaton automaton.now start progress.old held.now
        (record { progress = progress.new; found = result }) steps.old steps.new }
{
    let from = progress.from;
    let mut sid = progress.sid;
    let mut at = progress.at;
    let mut best = met;
    while at - from < held.len() {
        let stop = automaton.advance(Anchored::No, sid, &held[at - from..], steps);
        if automaton.is_dead(stop.sid) {
            begin_anew(start, progress, &best);
            return Some(best);
        }
        sid = stop.sid;
        at += stop.taken;
        if automaton.is_match(sid) {
            best = first_match(automaton, sid, at);
        }
    }
    if progress.closed {
        begin_anew(start, progress, &best);
        return Some(best);
    }
    progress.sid = sid;
    progress.at = at;
    progress.best = Some(best);
    None
}
