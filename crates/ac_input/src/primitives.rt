//! Numbers that fit the tables of an automaton.
//!
//! The automata store states and patterns in tables of 32-bit numbers. Each kind of number has a type of its own, so that one is
//! never taken for another: they are one [`Number`] with a mark of what it counts. All have one limit, [`GREATEST`]. It leaves one
//! number free, and a count of them plus one fits an `i32`. A number takes four bytes, and is turned into a `usize` only where it
//! indexes a slice.
mod number;

pub use number::{GREATEST, Number, NumberError};

/// What a [`Number`] counts. Its types are marks alone.
pub trait Kind {
    /// The name of the number type, as `Debug` prints it.
    const NAME: &'static str;

    /// The name of its error.
    const ERROR: &'static str;
}

/// The mark of a [`SmallIndex`], which counts anything.
pub struct AnyKind;

impl Kind for AnyKind {
    const NAME: &'static str = "SmallIndex";

    const ERROR: &'static str = "SmallIndexError";
}

/// The mark of a [`PatternID`].
pub struct PatternKind;

impl Kind for PatternKind {
    const NAME: &'static str = "PatternID";

    const ERROR: &'static str = "PatternIDError";
}

/// The mark of a [`StateID`].
pub struct StateKind;

impl Kind for StateKind {
    const NAME: &'static str = "StateID";

    const ERROR: &'static str = "StateIDError";
}

/// A number that fits every table, whatever it counts.
pub type SmallIndex = Number<AnyKind>;

/// The number of a pattern, in the order in which the patterns were given.
pub type PatternID = Number<PatternKind>;

/// The number of a state of an automaton.
pub type StateID = Number<StateKind>;

/// A number that is past the greatest [`SmallIndex`].
pub type SmallIndexError = NumberError<AnyKind>;

/// A number that is past the greatest [`PatternID`].
pub type PatternIDError = NumberError<PatternKind>;

/// A number that is past the greatest [`StateID`].
pub type StateIDError = NumberError<StateKind>;
