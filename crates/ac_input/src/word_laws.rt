//! The laws of whole words, the occurrences with no word byte beside them.
//!
//! What is found among them is fixed and computed as among all occurrences. What follows a text can undo the last of them: one that
//! ends where the text does is no whole word once a word byte follows. So a match is settled only by a later byte, and until then a
//! search of a stream waits. A masked byte may be no word byte, and so leave a whole word beside it that was none.
//!
//! These functions do nothing: each states one law as its contract, and checking it proves the law. A caller who needs the law
//! calls the function, at no cost.
ghost use Rattle.std.specs.Prelude.{Bool};
ghost use Rattle.ac_input.specs.Word.{OccursAsked, asked_occurrences};
ghost use Rattle.ac_input.specs.Laws.WordLaws.{AreComputed, WordWalkIsApart, WordWalkOccurs, WordListingIsFiltered, WordBeforeEndStays, WordAtEndWaits, SettledPickStays, UnsettledPickWaits, SettledWalkBegins, WordIsLeftBesideMasked, NoWordIsLeft, WordsFinalBeforeLast, WordsFinalAfterByte, WordMaskIsFinal};

/// Whether all occurrences count or only whole words, there is one best, one pick, one walk, one listing and one masked text.
pub fn asked_are_computed()
    ensures { (words : Bool) → AreComputed (OccursAsked words) (asked_occurrences words) }
{}

/// The picks of a walk of whole words never overlap, and each begins later than the one before it.
pub fn word_walk_is_apart()
    ensures { WordWalkIsApart }
{}

/// Each pick of a walk of whole words is one: an occurrence with no word byte beside it.
pub fn word_walk_occurs()
    ensures { WordWalkOccurs }
{}

/// The listing of the whole words is the overlapping listing without the other occurrences.
pub fn word_listing_is_filtered()
    ensures { WordListingIsFiltered }
{}

/// What follows a text doesn't change whether an occurrence that ends before its end is a whole word.
pub fn word_before_end_stays()
    ensures { WordBeforeEndStays }
{}

/// A whole word that ends where the text does stays one exactly if the next byte isn't a word byte.
pub fn word_at_end_waits()
    ensures { WordAtEndWaits }
{}

/// A settled match is the next pick of a text exactly where it is the next pick of each text that it begins.
///
/// Under standard a match is settled by the byte after it. Under a leftmost kind it is settled where more bytes follow its start
/// than the longest pattern has.
pub fn settled_pick_stays()
    ensures { SettledPickStays }
{}

/// Where a text doesn't settle its next pick, no longer text has a next pick that this text would settle.
pub fn unsettled_pick_waits()
    ensures { UnsettledPickWaits }
{}

/// The settled picks of a text are the first picks of each text that it begins.
pub fn settled_walk_begins()
    ensures { SettledWalkBegins }
{}

/// With a mask that no pattern has, a whole word is left in the masked haystack only beside a masked byte.
///
/// With the patterns `a` and `-x` and the mask `*`, the text `a-x` becomes `*-x`. There `-x` is a whole word; before, it was none.
pub fn word_is_left_beside_masked()
    ensures { WordIsLeftBesideMasked }
{}

/// With a mask that is a word byte and that no pattern has, no whole word with bytes is left in the masked haystack.
pub fn no_word_is_left()
    ensures { NoWordIsLeft }
{}

/// The whole words of a text are final but for its last bytes, as many as the longest pattern has.
pub fn words_final_before_last()
    ensures { WordsFinalBeforeLast }
{}

/// With one byte more, the whole words are final where the text was.
///
/// So they are before the live prefix of the text without its last byte, by
/// [`final_before_live`](crate::mask_laws::final_before_live).
pub fn words_final_after_byte()
    ensures { WordsFinalAfterByte }
{}

/// Where the whole words of a text are final before a place, its masked text before it is the same, however the text goes on.
pub fn word_mask_is_final()
    ensures { WordMaskIsFinal }
{}
