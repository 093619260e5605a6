//! The laws of streams: what of a text is decided, and that it doesn't matter how it is cut into pieces.
//!
//! These functions do nothing. Each states one law as its contract; a caller who needs the law calls the function, at no cost.
ghost use Rattle.ac_automaton.specs.Masking.Words.Pushed.{PiecesChangeNoMaskedWords};
ghost use Rattle.ac_automaton.specs.Stream.Laws.{DeathDecides};
ghost use Rattle.ac_automaton.specs.Stream.Push.{PiecesChangeNothing};
ghost use Rattle.ac_automaton.specs.Stream.Replacer.{PiecesChangeNoText};

/// Death decides: where the first matches of a text are decided, and what follows the last of them is dead, the best match of that
/// is decided too. So a search of a stream may return a match as soon as its automaton is dead.
pub fn death_decides()
    ensures { DeathDecides }
{}

/// It doesn't matter how a text is cut into pieces. Two searches of a stream for the same, by equal automata that were given the same
/// text, whether it was read or pushed, return the same once all is decided: matches under the standard kind always, and else when the
/// searches are finished. So it is for occurrences, for whole words under a kind, and for all whole words.
pub fn pieces_change_nothing()
    ensures { PiecesChangeNothing }
{}

/// Nor does it for the replaced text: two replacements that were given the same text hand out the same, once they are finished.
pub fn pieces_change_no_text()
    ensures { PiecesChangeNoText }
{}

/// Nor does it for masked whole words: the slices that a masking hands out, one after another, are the masked text of what was pushed, up
/// to the bytes that wait, and all of it once nothing more comes.
pub fn pieces_change_no_masked_words()
    ensures { PiecesChangeNoMaskedWords }
{}
