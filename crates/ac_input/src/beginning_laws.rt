//! The laws of a text of which only the beginning is known, as when it is read in pieces.
//!
//! They compare what a search of the beginning finds with what a search of the whole text finds. Under standard it stays, and the
//! text up to a cut can be written out before the rest is read. These functions do nothing: each states one law as its contract,
//! and checking it proves the law. A caller who needs the law calls the function, at no cost.
ghost use Rattle.ac_input.specs.Laws.BeginningLaws.{BeginningHasWhatEndsInIt, PickOfBeginningStays, WalkOfBeginningBegins, ListOfBeginningBegins, ListingOfBeginningBegins, OverlappingListOfBeginningBegins, FrontOfCutIsFinal, EarliestIsStandard};

/// An occurrence that ends within the beginning of a haystack occurs in the whole exactly where it occurs in the beginning.
pub fn beginning_has_what_ends_in_it()
    ensures { BeginningHasWhatEndsInIt }
{}

/// Under standard a pick stays the pick, however the haystack goes on.
pub fn pick_of_beginning_stays()
    ensures { PickOfBeginningStays }
{}

/// Under standard the walk of a beginning is a beginning of the walk of the whole.
pub fn walk_of_beginning_begins()
    ensures { WalkOfBeginningBegins }
{}

/// Under standard the written list of a beginning's matches needs no change when the text goes on.
pub fn list_of_beginning_begins()
    ensures { ListOfBeginningBegins }
{}

/// Whatever the kind, the overlapping listing of a beginning is a beginning of that of the whole.
pub fn listing_of_beginning_begins()
    ensures { ListingOfBeginningBegins }
{}

/// The written overlapping listing of a beginning of the text needs no change when the text goes on.
pub fn overlapping_list_of_beginning_begins()
    ensures { OverlappingListOfBeginningBegins }
{}

/// Under standard the text that is written up to a cut, replaced or listed, needs no change when the text goes on.
pub fn front_of_cut_is_final()
    ensures { FrontOfCutIsFinal }
{}

/// An earliest search finds the standard best, whatever the kind; under standard every search is an earliest one.
pub fn earliest_is_standard()
    ensures { EarliestIsStandard }
{}
