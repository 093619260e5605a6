//! The laws of dead texts: when a search may stop.
//!
//! The live prefix of a text is its longest suffix that may still grow into a match. As the text grows, a place may cease to be
//! alive, but none becomes alive again. A text with no live place is dead. It stays dead, and its best, or that it has none, is
//! final: an automaton that has reached its dead state has read enough. Until then the live prefix stands for the whole text:
//! whatever follows, it determines what stays live, and the best; under the standard kind the best only while no match has ended
//! before.
//!
//! These functions do nothing. Each states one law as its contract; a caller who needs the law calls the function, at no cost.
ghost use Rattle.ac_input.specs.Laws.LiveLaws.{DeadStaysDead, DeadIsFinal};

/// A dead text stays dead, whatever follows.
pub fn dead_stays_dead()
    ensures { DeadStaysDead }
{}

/// The best of a dead text, or that it has none, is final: a search may stop there.
pub fn dead_is_final()
    ensures { DeadIsFinal }
{}
