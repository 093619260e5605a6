//! Counts and histories that only contracts see.
//!
//! A contract may have to refer to what happened, and not only to what is stored: how often a device failed, which pieces a reader
//! returned, which bytes a writer took. A type of this module keeps such a history beside the code. It takes no memory, no code
//! can read it, and it has no greatest value. A `usize` that counts would need a proof that it never wraps, and a stored list
//! would need memory. A function advances a history by a call, `self.failures = self.failures.next()`, and its contract says by
//! how much.
//!
//! Each call's contract says exactly what its result is, so a history cannot be advanced in any other way.
ghost use Rattle.std.specs.Prelude.{◌≡◌, ◌+◌, ℕ, List, [], ◌∷◌, ◌++◌};
ghost use Rattle.std.specs.Borrow.{ftrue};

use std::marker::{Model, PhantomData};

/// How often something happened. It takes no memory.
#[derive(Drop)]
pub struct Count {
    times: PhantomData<()>,
    pub ghost value: { ℕ },
}

impl Model for Count {
    ghost also_owns = { λ _. ftrue };
}

unsafe impl Send for Count {}

unsafe impl Sync for Count {}

impl Count {
    /// It has not happened yet.
    pub fn zero() -> Count
        ensures { result.value ≡ 0 }
    {
        Count { times: PhantomData }
    }

    /// It has happened once more.
    pub fn next(&self) -> Count
        ensures { result.value ≡ self.now.value + 1 }
    {
        Self { times: PhantomData }
    }

    /// It has happened this many times more.
    pub fn more(&self, times: &usize) -> Count
        ensures { result.value ≡ self.now.value + times.now }
    {
        Self {
            times: PhantomData::<()>,
        }
    }

    /// It has happened as many times more as the other count says.
    pub fn plus(&self, other: &Count) -> Count
        ensures { result.value ≡ self.now.value + other.now.value }
    {
        let times = PhantomData::<()>;
        Self { times }
    }
}

/// Pieces of bytes, in the order in which they came. It takes no memory.
#[derive(Drop)]
pub struct Pieces {
    list: PhantomData<()>,
    pub ghost items: { List (List ℕ) },
}

impl Model for Pieces {
    ghost also_owns = { λ _. ftrue };
}

unsafe impl Send for Pieces {}

unsafe impl Sync for Pieces {}

impl Pieces {
    /// None has come yet.
    pub fn empty() -> Pieces
        ensures { result.items ≡ [] }
    {
        Pieces { list: PhantomData }
    }

    /// One more piece has come, which may be empty.
    pub fn and(&self, piece: &[u8]) -> Pieces
        ensures { result.items ≡ self.now.items ++ piece.now ∷ [] }
    {
        Self { list: PhantomData }
    }

    /// The same pieces once more.
    pub fn same(&self) -> Pieces
        ensures { result.items ≡ self.now.items }
    {
        Self {
            list: PhantomData::<()>,
        }
    }
}

/// Bytes that were taken, in order, without the boundaries between one write and the next. It takes no memory.
#[derive(Drop)]
pub struct Taken {
    text: PhantomData<()>,
    pub ghost bytes: { List ℕ },
}

impl Model for Taken {
    ghost also_owns = { λ _. ftrue };
}

unsafe impl Send for Taken {}

unsafe impl Sync for Taken {}

impl Taken {
    /// None was taken yet.
    pub fn empty() -> Taken
        ensures { result.bytes ≡ [] }
    {
        Taken { text: PhantomData }
    }

    /// These were taken too.
    pub fn and(&self, bytes: &[u8]) -> Taken
        ensures { result.bytes ≡ self.now.bytes ++ bytes.now }
    {
        Self { text: PhantomData }
    }

    /// The same bytes once more.
    pub fn same(&self) -> Taken
        ensures { result.bytes ≡ self.now.bytes }
    {
        Self {
            text: PhantomData::<()>,
        }
    }
}
