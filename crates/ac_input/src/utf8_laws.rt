//! The laws of UTF-8: which matches are texts.
//!
//! A haystack is bytes, and a match may cut a character. These laws say when none does: then a match of a `&str` is a `&str`, by
//! [`Span::of_text`](crate::search::Span::of_text).
//!
//! These functions do nothing. Each states one law as its contract; a caller who needs the law calls the function, at no cost.
ghost use Rattle.ac_input.specs.Laws.Utf8Laws.{TextOccursBetweenChars, KeepsChars};
ghost use Rattle.std.specs.Prelude.{ℕ, Bool, List};
ghost use Rattle.ac_input.specs.Pairing.{IsFolded};

/// An occurrence in a text begins and ends between characters, if every pattern is UTF-8 and none is empty.
///
/// The pairing must keep characters: a byte begins a character of as many bytes as its partner does, or both continue one. Other
/// pairings may match one character by parts of two.
pub fn text_occurs_between_chars()
    ensures { TextOccursBetweenChars }
{}

/// No pairing at all keeps characters, and so does ASCII case folding.
pub fn folding_keeps_chars()
    ensures { (folded : Bool) (pairing : List ℕ) → IsFolded folded pairing → KeepsChars pairing }
{}
