//! Automata that tests own.
//!
//! A function that owns an automaton is slow to prove, and one that owns a value of a type parameter isn't. So what is built goes at once to
//! a function for any [`Owned`] type.
use ac_input::search::StartKind;
use ac_noncontiguous::{BuildError, NFA, Search};
use ac_tables::{contiguous, dfa};
use aho_corasick::{AhoCorasick, AhoCorasickKind};
use std::alloc::{AllocError, Global};
use std::fmt::Debug;

/// An automaton that can be copied, and what shows how it was built.
pub trait Owned: Search + Drop {
    type Shape: PartialEq + Debug + Drop;

    fn shape(&self) -> Self::Shape;

    fn copy(&self, alloc: Global) -> Result<Self, AllocError>;
}

impl Owned for NFA {
    type Shape = ();

    fn shape(&self) {}

    fn copy(&self, alloc: Global) -> Result<NFA, AllocError> {
        self.clone(alloc)
    }
}

/// Its words.
impl Owned for contiguous::NFA {
    type Shape = usize;

    fn shape(&self) -> usize {
        self.words().len()
    }

    fn copy(&self, alloc: Global) -> Result<contiguous::NFA, AllocError> {
        self.clone(alloc)
    }
}

/// Its states, their stride, all transitions, and its starts.
impl Owned for dfa::DFA {
    type Shape = ([usize; 3], StartKind);

    fn shape(&self) -> ([usize; 3], StartKind) {
        let sizes = [self.state_len(), self.stride(), self.transitions().len()];
        (sizes, self.start_kind())
    }

    fn copy(&self, alloc: Global) -> Result<dfa::DFA, AllocError> {
        self.clone(alloc)
    }
}

/// Which automaton serves, and for which searches.
impl Owned for AhoCorasick {
    type Shape = (AhoCorasickKind, StartKind);

    fn shape(&self) -> (AhoCorasickKind, StartKind) {
        (self.kind(), self.start_kind())
    }

    fn copy(&self, alloc: Global) -> Result<AhoCorasick, AllocError> {
        self.clone(alloc)
    }
}

/// The shape of what was built.
pub fn shape_of<A: Owned>(built: Result<A, BuildError>) -> Result<A::Shape, BuildError> {
    Ok(built?.shape())
}
