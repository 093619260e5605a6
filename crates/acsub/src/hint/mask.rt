//! Why rules can't be masked by, or whole words of them be searched for.
use super::push_byte;
use crate::args::{Source, Words};
use crate::mask::check_mask;
use crate::rules::{Rules, read_rules};
use std::alloc::{AllocError, Global};

/// The signs that are proposed as a mask, in this order. If a pattern has each of them, it is another byte.
const SIGNS: &[u8] = b"*#_=+.xX";

/// The hint for a rule with an empty pattern, or with the mask, by the bytes of the rules.
pub fn hint_for(
    alloc: Global,
    asked: &Words<'_>,
    bytes: &[u8],
) -> Result<Option<String>, AllocError> {
    let Ok(rules) = read_rules(alloc, asked.form(), bytes) else {
        return Ok(None);
    };
    match (first_empty(&rules), asked.mask) {
        (Some(number), _) => Ok(Some(format!(in alloc;
            "line {number} has an empty pattern, and neither mask nor --word takes one"
        )?)),
        (None, Some(mask)) => hint_for_mask(alloc, asked, mask, &rules),
        _ => Ok(None),
    }
}

/// The number of the first rule whose pattern is empty, counted from 1.
fn first_empty(rules: &Rules) -> Option<usize> {
    for i in 0..rules.len() {
        if rules.pattern(i).is_empty() {
            return Some(i.saturating_add(1));
        }
    }
    None
}

/// The hint for the first pattern with the mask or its partner: which rule it is of, and a mask that no pattern has.
fn hint_for_mask(
    alloc: Global,
    asked: &Words<'_>,
    mask: u8,
    rules: &Rules,
) -> Result<Option<String>, AllocError> {
    let Some((number, byte)) = first_with(asked, mask, rules) else {
        return Ok(None);
    };
    let mut hint = match asked.source {
        Source::Given => format!(in alloc; "pattern {number} has byte ")?,
        _ => format!(in alloc; "the pattern of line {number} has byte ")?,
    };
    push_byte(&mut hint, byte)?;
    if byte != mask {
        hint.push_str(", which counts as ")?;
        push_byte(&mut hint, mask)?;
    }
    push_free(&mut hint, free_byte(asked, rules))?;
    Ok(Some(hint))
}

/// Adds which byte may mask.
fn push_free(hint: &mut String, free: Option<u8>) -> Result<(), AllocError> {
    match free {
        Some(byte) => {
            hint.push_str("; give --with ")?;
            push_byte(hint, byte)?;
            hint.push_str(", which no pattern has")
        }
        None => hint.push_str("; each byte is in some pattern, so none can mask"),
    }
}

/// The first rule whose pattern has the mask or its partner, counted from 1, and the first such byte.
fn first_with(asked: &Words<'_>, mask: u8, rules: &Rules) -> Option<(usize, u8)> {
    let partner = asked.settings.pairing.other(mask);
    for i in 0..rules.len() {
        let found = rules
            .pattern(i)
            .iter()
            .find(|byte| **byte == mask || **byte == partner);
        if let Some(byte) = found {
            return Some((i.saturating_add(1), *byte));
        }
    }
    None
}

/// A byte that may mask: one of [`SIGNS`], or else the first that no pattern has.
fn free_byte(asked: &Words<'_>, rules: &Rules) -> Option<u8> {
    for sign in SIGNS {
        if check_mask(&asked.settings, *sign, rules).is_ok() {
            return Some(*sign);
        }
    }
    first_free(asked, rules)
}

/// The first byte that may mask, from the first sign on.
fn first_free(asked: &Words<'_>, rules: &Rules) -> Option<u8> {
    for i in 0..=255u8 {
        let byte = i.wrapping_add(b'!');
        if check_mask(&asked.settings, byte, rules).is_ok() {
            return Some(byte);
        }
    }
    None
}
