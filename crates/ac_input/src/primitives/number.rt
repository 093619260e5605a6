//! Numbers of every kind: one generic struct, whose parameter marks what it counts.
//!
//! The mark takes no memory and no time; it keeps numbers of two kinds apart.
ghost use Rattle.std.specs.Prelude.{◌≡◌, ◌+◌, ◌<◌, ◌≤◌, ◌↔◌, ◌++◌, ◌≤ℤ◌, pos, length, slice_get, IsOk, IfOk, IfErr, Some, codes, decimal};
ghost use Rattle.ac_input.specs.Number.{greatest_number, IsTried};

use crate::primitives::{Kind, PatternID, SmallIndex, StateID};
use std::error::Error;
use std::fmt;
use std::marker::{Model, PhantomData};

/// The greatest number of any kind.
pub const GREATEST: usize = 2147483646;

/// A number that fits every table, of the kind `K` of what it counts.
///
/// It is at most [`GREATEST`], and takes four bytes. `K` is a mark alone: numbers of two kinds are two types.
#[derive_where(Clone, Copy, Default, PartialEq, Eq, PartialOrd, Ord, Hash)]
pub struct Number<K> {
    index: u32,
    #[derive_where(skip(EqHashOrd))]
    of: PhantomData<K>,
}

impl<K> Model for Number<K> {
    ghost use Rattle.std.specs.Prelude.{ℕ, ◌≤◌};
    ghost use Rattle.ac_input.specs.Number.{greatest_number};

    ghost Value = { ℕ };

    ghost view = { λ number. number.index };

    ghost invariant = { λ number. number.index ≤ greatest_number };

    ghost inverse = { λ n. record { index = n; of = record {} } };
}

// A proof knows no value of a constant of a generic `impl`, so each kind has its own constants.
impl SmallIndex {
    /// The greatest one.
    pub const MAX: SmallIndex = Number {
        index: GREATEST as u32,
        of: PhantomData,
    };

    /// How many there are: one more than the greatest.
    pub const LIMIT: usize = GREATEST + 1;

    /// The first one.
    pub const ZERO: SmallIndex = Number {
        index: 0,
        of: PhantomData,
    };

    /// How many bytes one takes.
    pub const SIZE: usize = 4;
}

impl PatternID {
    /// The greatest one.
    pub const MAX: PatternID = Number {
        index: GREATEST as u32,
        of: PhantomData,
    };

    /// How many there are: one more than the greatest.
    pub const LIMIT: usize = GREATEST + 1;

    /// The first one.
    pub const ZERO: PatternID = Number {
        index: 0,
        of: PhantomData,
    };

    /// How many bytes one takes.
    pub const SIZE: usize = 4;
}

impl StateID {
    /// The greatest one.
    pub const MAX: StateID = Number {
        index: GREATEST as u32,
        of: PhantomData,
    };

    /// How many there are: one more than the greatest.
    pub const LIMIT: usize = GREATEST + 1;

    /// The first one.
    pub const ZERO: StateID = Number {
        index: 0,
        of: PhantomData,
    };

    /// How many bytes one takes.
    pub const SIZE: usize = 4;
}

impl<K> Number<K> {
    /// The number as one of this kind. It fails where the number is past the greatest; the error keeps it.
    pub fn new(number: usize) -> Result<Number<K>, NumberError<K>>
        ensures fits { IsOk result ↔ (number ≤ greatest_number) }
        ensures value { IfOk result (λ made. made ≡ number) }
        ensures refused { IfErr result (λ error. error ≡ number) }
    {
        if number > GREATEST {
            return Err(NumberError {
                attempted: number as u64,
                of: PhantomData,
            });
        }
        Ok(Number {
            index: number as u32,
            of: PhantomData,
        })
    }

    /// The number, which the caller knows to fit.
    pub fn must(number: usize) -> Number<K>
        requires { number ≤ greatest_number }
        ensures { result ≡ number }
    {
        Number {
            index: number as u32,
            of: PhantomData,
        }
    }

    /// The number for indexing.
    pub fn as_usize(&self) -> usize
        ensures value { result ≡ self.now }
        ensures fits { result ≤ greatest_number }
    {
        self.index as usize
    }

    /// The number as `u64`.
    pub fn as_u64(&self) -> u64
        ensures value { result ≡ self.now }
        ensures fits { result ≤ greatest_number }
    {
        self.index as u64
    }

    /// The number as `u32`.
    pub fn as_u32(&self) -> u32
        ensures value { result ≡ self.now }
        ensures fits { result ≤ greatest_number }
    {
        self.index
    }

    /// The number as `i32`.
    pub fn as_i32(&self) -> i32
        ensures value { result ≡ pos self.now }
        ensures fits { result ≤ℤ pos greatest_number }
    {
        self.index as i32
    }

    /// What stands at this place in the slice.
    pub fn of<'a, T>(&self, items: &'a [T]) -> &'a T
        requires { self.now < length items.now }
        ensures { Some result.now ≡ slice_get items.now self.now }
    {
        &items[self.as_usize()]
    }

    /// The number after this one, which may be past the greatest.
    pub fn one_more(&self) -> usize
        ensures value { result ≡ self.now + 1 }
        ensures fits { result ≤ greatest_number + 1 }
    {
        self.index as usize + 1
    }
}

impl<K> From<u8> for Number<K> {
    ghost from_gives = { λ byte made. made ≡ byte };

    fn from(byte: u8) -> Number<K> {
        Number::must(byte as usize)
    }
}

impl<K> TryFrom<u16> for Number<K> {
    type Error = NumberError<K>;

    ghost try_from_gives = { IsTried };

    fn try_from(number: u16) -> Result<Number<K>, NumberError<K>> {
        Number::new(number as usize)
    }
}

impl<K> TryFrom<u32> for Number<K> {
    type Error = NumberError<K>;

    ghost try_from_gives = { IsTried };

    fn try_from(number: u32) -> Result<Number<K>, NumberError<K>> {
        Number::new(number as usize)
    }
}

impl<K> TryFrom<u64> for Number<K> {
    type Error = NumberError<K>;

    ghost try_from_gives = { IsTried };

    fn try_from(number: u64) -> Result<Number<K>, NumberError<K>> {
        Number::new(number as usize)
    }
}

impl<K> TryFrom<usize> for Number<K> {
    type Error = NumberError<K>;

    ghost try_from_gives = { IsTried };

    fn try_from(number: usize) -> Result<Number<K>, NumberError<K>> {
        Number::new(number)
    }
}

impl From<PatternID> for SmallIndex {
    ghost from_gives = { λ number made. made ≡ number };

    fn from(number: PatternID) -> SmallIndex {
        Number::must(number.as_usize())
    }
}

impl From<StateID> for SmallIndex {
    ghost from_gives = { λ number made. made ≡ number };

    fn from(number: StateID) -> SmallIndex {
        Number::must(number.as_usize())
    }
}

impl From<SmallIndex> for PatternID {
    ghost from_gives = { λ number made. made ≡ number };

    fn from(number: SmallIndex) -> PatternID {
        Number::must(number.as_usize())
    }
}

impl From<SmallIndex> for StateID {
    ghost from_gives = { λ number made. made ≡ number };

    fn from(number: SmallIndex) -> StateID {
        Number::must(number.as_usize())
    }
}

impl<K: Kind> fmt::Debug for Number<K> {
    fn fmt<W: fmt::Write>(&self, f: &mut fmt::Formatter<W>) -> fmt::Result {
        f.debug_struct(K::NAME).field("index", &self.index).finish()
    }
}

/// A number that is past the greatest of its kind.
#[derive(Drop)]
#[derive_where(Clone, PartialEq, Eq)]
pub struct NumberError<K> {
    attempted: u64,
    #[derive_where(skip(EqHashOrd))]
    of: PhantomData<K>,
}

impl<K> Model for NumberError<K> {
    ghost use Rattle.std.specs.Prelude.{ℕ};

    ghost Value = { ℕ };

    ghost view = { λ error. error.attempted };

    ghost inverse = { λ n. record { attempted = n; of = record {} } };
}

impl<K> NumberError<K> {
    /// The number that doesn't fit.
    pub fn attempted(&self) -> u64
        ensures { result ≡ self.now }
    {
        self.attempted
    }
}

impl<K> fmt::Display for NumberError<K> {
    ghost use Rattle.ac_input.specs.Number.{greatest_number};

    ghost output = { λ error. Some (codes "number " ++ decimal error
        ++ codes " is past " ++ decimal greatest_number) };

    fn fmt<W: fmt::Write>(&self, f: &mut fmt::Formatter<W>) -> fmt::Result {
        let attempted = self.attempted;
        write!(f, "number {attempted} is past {GREATEST}")
    }
}

impl<K: Kind> fmt::Debug for NumberError<K> {
    fn fmt<W: fmt::Write>(&self, f: &mut fmt::Formatter<W>) -> fmt::Result {
        f.debug_struct(K::ERROR)
            .field("attempted", &self.attempted)
            .finish()
    }
}

impl<K: Kind> Error for NumberError<K> {}
