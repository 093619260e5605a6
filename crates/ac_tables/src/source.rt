//! What both tables take from the noncontiguous automaton that they are made from.
ghost use Rattle.std.specs.Prelude.{IfErr, IfOk};
ghost use Rattle.ac_noncontiguous.specs.Builder.{IsBuiltOf, dictionary_by};
ghost use Rattle.ac_noncontiguous.specs.Nfa.Reads.{built_as, dictionary};
ghost use Rattle.ac_noncontiguous.specs.Standing.{IsBuildRefused};
ghost use Rattle.ac_tables.specs.Source.{AreClassesFor, AreServing, ShareClasses};

use ac_input::alphabet::{ByteClasses, ByteSet};
use ac_noncontiguous::builder::Builder;
use ac_noncontiguous::error::BuildError;
use ac_noncontiguous::nfa::NFA;
use ac_noncontiguous::settings::Settings;
use std::alloc::{AllocError, Global};

/// The automaton that a table is made from. It has no rows, since the table needs none.
pub(crate) fn source_of(
    alloc: Global,
    settings: Settings,
    patterns: &[&[u8]],
) -> Result<NFA, BuildError>
    ensures built { IfOk result (λ nfa. IsBuiltOf settings patterns.now (built_as nfa)) }
    ensures refused { IfErr result (IsBuildRefused (dictionary_by settings patterns.now)) }
{
    let without_rows = Settings {
        dense_depth: Some(0),
        ..settings
    };
    Builder::from(without_rows).build(alloc, patterns)
}

/// The classes that a table is laid out over: those of the automaton, or each byte alone.
pub(crate) fn classes_of(nfa: &NFA, byte_classes: bool) -> Result<ByteClasses, AllocError>
    ensures classes { IfOk result (AreClassesFor nfa.now byte_classes) }
    ensures serve { IfOk result (AreServing (dictionary nfa.now)) }
{
    if byte_classes {
        Ok(nfa.byte_classes().clone()?)
    } else {
        Ok(ByteClasses::singletons())
    }
}

/// Bytes that no pattern has, nor their partners: those that share their class with the byte before or after them. A byte that a
/// pattern has is alone in its class. One that none has is left out where both of its neighbours are used.
pub(crate) fn unused(classes: &ByteClasses) -> ByteSet
    ensures { ShareClasses classes.now result }
{
    let mut unused = ByteSet::empty();
    for byte in 1..256usize {
        let (before, here) = (byte as u8 - 1, byte as u8);
        if classes.get(before) == classes.get(here) {
            unused.add(before);
            unused.add(here);
        }
    }
    unused
}
