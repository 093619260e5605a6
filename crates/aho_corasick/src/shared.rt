//! What the clones of an automaton share: the automaton that serves, and what only contracts see of it.
//!
//! A contract of the front speaks of what its automaton was built as, and by which settings. Both stand here as values that no code
//! can read and that take no memory, so that no contract depends on how one of three automata is stored. The ghost fields of
//! [`Shared`] tie them to the automaton: where it was not made by these settings, the value can't be made.
ghost use Rattle.std.specs.Prelude.{◌≡◌};
ghost use Rattle.std.specs.Borrow.{ftrue};
ghost use Rattle.ac_automaton.specs.Automaton.{Built};
ghost use Rattle.aho_corasick.specs.Engine.{engine_built_as};
ghost use Rattle.aho_corasick.specs.Made.{IsMadeAs};
ghost use Rattle.aho_corasick.specs.declared.ahocorasick.builder.AhoCorasickBuilder.{AhoCorasickBuilder};

use crate::ahocorasick::AhoCorasickBuilder;
use crate::engine::Engine;
use std::marker::{Model, PhantomData};

/// What an automaton was built as.
#[derive(Drop)]
pub(crate) struct AsBuilt {
    engine: PhantomData<()>,
    pub ghost value: { Built },
}

impl Model for AsBuilt {
    ghost also_owns = { λ _. ftrue };
}

unsafe impl Send for AsBuilt {}

unsafe impl Sync for AsBuilt {}

impl AsBuilt {
    /// What this one was built as.
    pub(crate) fn of(engine: &Engine) -> AsBuilt
        ensures { result.value ≡ engine_built_as engine.now }
    {
        Self {
            engine: PhantomData::<()>,
        }
    }
}

/// The settings by which an automaton was made.
#[derive(Drop)]
pub(crate) struct MadeBy {
    settings: PhantomData<()>,
    pub ghost value: { AhoCorasickBuilder },
}

impl Model for MadeBy {
    ghost also_owns = { λ _. ftrue };
}

unsafe impl Send for MadeBy {}

unsafe impl Sync for MadeBy {}

impl MadeBy {
    /// The settings of this builder.
    pub(crate) fn of(builder: &AhoCorasickBuilder) -> MadeBy
        ensures { result.value ≡ builder.now }
    {
        Self {
            settings: PhantomData::<()>,
        }
    }
}

/// The automaton that serves, what it was built as, and the settings by which it was made of its patterns.
#[derive(Drop)]
pub(crate) struct Shared {
    pub(crate) engine: Engine,
    pub(crate) built: AsBuilt,
    pub(crate) settings: MadeBy,
    ghost same: { built.value ≡ engine_built_as engine },
    ghost made: { ∥ IsMadeAs settings.value.settings built.value.dictionary engine ∥₁ },
}
