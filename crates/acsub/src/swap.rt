//! The history of how a new file takes an old one's place.
//!
//! No contract of std says what a file system holds. So what changes one is called by the functions of `steps` alone, which add a step
//! to this history exactly where the call returned `Ok`. A contract above says which steps were taken, and in which order. The history
//! takes no memory, and no code can read it.
ghost use Rattle.std.specs.Prelude.{◌≡◌, List, [], ◌∷◌, ◌++◌};
ghost use Rattle.std.specs.Borrow.{ftrue};
ghost use Rattle.acsub.specs.declared.swap.Step.{Step};

use std::marker::{Model, PhantomData};

/// What was done.
#[derive(Drop)]
pub enum Step {
    /// A file was made under a name that no file had.
    Created,
    /// It has the owner and the group of the old file: it had them, or got them.
    Owned,
    /// It got the permissions of the old file.
    Permitted,
    /// Its bytes were written through.
    Synced,
    /// It took the old file's name.
    Renamed,
}

/// The steps that were taken, in their order. It takes no memory.
#[derive(Drop)]
pub struct Swap {
    list: PhantomData<()>,
    pub ghost steps: { List Step },
}

impl Model for Swap {
    ghost also_owns = { λ _. ftrue };
}

impl Swap {
    /// None was taken yet.
    pub fn none() -> Swap
        ensures { result.steps ≡ [] }
    {
        Swap { list: PhantomData }
    }

    /// One more was taken.
    pub fn and(&self, step: &Step) -> Swap
        ensures { result.steps ≡ self.now.steps ++ step.now ∷ [] }
    {
        Self { list: PhantomData }
    }
}
