//! Matches that are texts. A match of a `&str` is a `&str`, if each pattern is UTF-8 and none is empty.
ghost use Rattle.std.specs.Prelude.{IfOk};
ghost use Rattle.ac_input.specs.Laws.Utf8Laws.{AreFullTexts};
ghost use Rattle.ac_literal.specs.Packed.{bytes_of};
ghost use Rattle.aho_corasick.specs.AhoCorasick.{as_built, supported_by};
ghost use Rattle.example_callers.specs.Callers.{FindsTexts, IsFirstPart};

use ac_input::search::{Anchored, Input};
use ac_input::utf8_laws::{folding_keeps_chars, text_occurs_between_chars};
use aho_corasick::{AhoCorasick, BuildError};
use std::alloc::{AllocError, Global};

/// The part of the text that the first match covers. The law says that it begins and ends between characters.
pub fn matched_text<'t>(ac: &AhoCorasick, text: &'t str) -> Option<&'t str>
    requires can { supported_by ac.now Anchored.No }
    requires texts { FindsTexts (as_built ac.now).dictionary }
    ensures { IsFirstPart (as_built ac.now).dictionary text.now result }
{
    text_occurs_between_chars();
    match ac.find(Input::from(text)) {
        Some(found) => Some(found.span().of_text(text)),
        None => None,
    }
}

/// The bytes of each word that isn't empty.
pub fn full_texts<'w>(alloc: Global, words: &[&'w str]) -> Result<Vec<&'w [u8]>, AllocError>
    ensures { IfOk result (λ texts. AreFullTexts (bytes_of texts.items)) }
{
    let mut texts = Vec::new(alloc);
    for word in words {
        if word.is_empty() {
            continue;
        }
        texts.push(word.as_bytes())?;
    }
    Ok(texts)
}

/// An automaton of texts, of which none is empty.
pub fn of_texts(alloc: Global, texts: &[&[u8]]) -> Result<AhoCorasick, BuildError>
    requires { AreFullTexts (bytes_of texts.now) }
    ensures can { IfOk result (λ ac. supported_by ac Anchored.No) }
    ensures texts { IfOk result (λ ac. FindsTexts (as_built ac).dictionary) }
{
    folding_keeps_chars();
    AhoCorasick::new(alloc, texts)
}
