//! The laws of states, for automata that are tables made from another automaton.
//!
//! A table has one entry for each class of bytes, so bytes of one class must lead alike from every state. And it copies a state's
//! list of patterns unchanged, so the list's length must be a number that fits.
//!
//! These functions do nothing. Each states one law as its contract; a caller who needs the law calls the function, at no cost.
ghost use Rattle.ac_input.specs.Alphabet.Classes.{EachLeadsAlike};
ghost use Rattle.ac_input.specs.Failure.{IsList, AreOnce};
ghost use Rattle.std.specs.Prelude.{ℕ, List};
ghost use Rattle.ac_input.specs.Dictionary.{Dictionary};

/// Bytes of one class lead alike, from every state.
pub fn each_leads_alike()
    ensures { EachLeadsAlike }
{}

/// The list of a text has each pattern once.
pub fn lists_are_once()
    ensures { (m : Dictionary) (text ns : List ℕ) → IsList m text ns → AreOnce m ns }
{}
