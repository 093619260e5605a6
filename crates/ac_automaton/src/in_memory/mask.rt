//! Masking a text that is held, in place.
//!
//! No call runs a prefilter: see [`masking`](crate::masking). A pattern of no bytes covers nothing, so it masks nothing. Masking every
//! occurrence takes no memory. Masking whole words alone takes a copy of the text, since a word byte that was masked still stands beside
//! the next word.
ghost use Rattle.ac_automaton.specs.Masking.{CostsMask, Masks};
ghost use Rattle.ac_automaton.specs.Masking.Words.{CostsMaskWords, MasksWords};

use crate::error::{MatchError, ReplaceError};
use crate::in_memory::overlapping::unanchored_start;
use crate::masking::words::{MaskPlace, mask_words_from};
use crate::search::Search;
use crate::words::Window;
use ac_input::steps::Steps;
use std::alloc::Global;

/// Masks every occurrence in the text; counts what it does.
pub(crate) fn mask_all<A: Search>(
    automaton: &A,
    text: &mut [u8],
    mask: u8,
    steps: &mut Steps,
) -> Result<(), MatchError>
    ensures masked { Masks (A.built automaton.now) (A.supports automaton.now) mask text.old text.new result }
    ensures cost { CostsMask (A.built automaton.now) text.old steps.old steps.new result }
{
    let start = unanchored_start(automaton)?;
    automaton.mask_from(start, text, 0, mask, steps);
    Ok(())
}

/// Masks every whole word in the text; counts what it does, but not the copying of the text.
pub(crate) fn mask_words<A: Search>(
    automaton: &A,
    alloc: Global,
    text: &mut [u8],
    mask: u8,
    steps: &mut Steps,
) -> Result<(), ReplaceError>
    ensures masked { MasksWords (A.built automaton.now) (A.supports automaton.now) mask text.old text.new result }
    ensures cost { CostsMaskWords (A.built automaton.now) text.old steps.old steps.new result }
{
    let start = unanchored_start(automaton)?;
    let mut copy = Vec::with_capacity(alloc, text.len())?;
    copy.extend_from_slice(text)?;
    let window = Window {
        bytes: &copy,
        from: 0,
        closed: true,
    };
    let mut place = MaskPlace { sid: start, at: 0 };
    mask_words_from(automaton, window, &mut place, text, mask, steps);
    Ok(())
}
