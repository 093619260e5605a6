//! The laws of the limits of a build.
//!
//! An automaton has one state for each non-empty prefix of an entered pattern, and four more. So the patterns alone determine how
//! many states it has, and whether one more pattern passes a limit.
//!
//! These functions do nothing. Each states one law as its contract; a caller who needs the law calls the function, at no cost.
ghost use Rattle.ac_input.specs.Alphabet.Classes.{AlphabetsAreOneNumber};
ghost use Rattle.ac_input.specs.Dfa.{DfaSizesAreOneNumber};
ghost use Rattle.ac_input.specs.Limits.{WithinPassesNone, HasStates, IsWithinLimits, Limit, IsLimitAt};
ghost use Rattle.std.specs.Prelude.{◌≡◌, ℕ};
ghost use Rattle.ac_input.specs.Dictionary.{Dictionary};

/// The patterns, the pairing and the kind determine how many states an automaton has.
pub fn states_are_one_number()
    ensures { (m : Dictionary) (a b : ℕ) → HasStates m a → HasStates m b → a ≡ b }
{}

/// A pattern doesn't pass a limit if the dictionary with it is within them.
pub fn within_passes_none()
    ensures { WithinPassesNone }
{}

/// A dictionary that is within the limits passes none of them.
pub fn within_has_no_limit()
    ensures { (m : Dictionary) (limit : Limit) → IsWithinLimits m → ¬ ((n : ℕ) × IsLimitAt m n limit) }
{}

/// The patterns, the pairing and the kind determine how many classes of bytes there are.
pub fn alphabets_are_one_number()
    ensures { AlphabetsAreOneNumber }
{}

/// They also determine the size of a deterministic automaton.
pub fn dfa_sizes_are_one_number()
    ensures { DfaSizesAreOneNumber }
{}
