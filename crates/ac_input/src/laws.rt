//! The laws of the definitions: what holds of each search, walk, listing and rule file, whatever the patterns, the kind and the
//! text.
//!
//! The definitions alone fix the best, the next pick, the walk and the listing of a search, and each can be computed. These
//! functions do nothing: each states one law as its contract, and checking it proves the law. A caller who needs the law calls the
//! function, at no cost.
ghost use Rattle.ac_input.specs.Laws.{PreferenceTellsApart, BestIsOne, PickIsOne, WalkIsOne, WalkIsApart, WalkLiesWithin, WalkOccurs, ListingHasEachOnce, PicksAreListed, ReplacingByItselfChangesNothing, NoRulesChangeNothing, RulesAreOne, BadLineIsOne, TextRulesAreOne, EscapedRulesAreOne, UnpairedSearchAlike, IsInside};
ghost use Rattle.std.specs.Prelude.{◌≡◌, ◌↔◌, List, Contains};
ghost use Rattle.ac_input.specs.Occurrence.{Search, Occurrence, Occurs};
ghost use Rattle.ac_input.specs.Listing.{IsListing};
ghost use Rattle.ac_input.specs.Computed.{listing_of, occurrences};
ghost use Rattle.std.specs.Cmp.{IsTotalOrder};
ghost use Rattle.ac_input.specs.declared.search.MatchKind.{MatchKind};
ghost use Rattle.ac_input.specs.Best.{preference};

/// The preference of each kind is a total order.
pub fn preference_is_order()
    ensures { (kind : MatchKind) → IsTotalOrder (preference kind) }
{}

/// Two occurrences of one search of which neither is preferred are the same.
pub fn preference_tells_apart()
    ensures { PreferenceTellsApart }
{}

/// The computed list of the occurrences has exactly those that occur.
pub fn occurrences_are_listed()
    ensures { (s : Search) (o : Occurrence) → IsInside s → Contains (occurrences s) o ↔ Occurs s o }
{}

/// A search has one best, which the definition computes.
pub fn best_is_one()
    ensures { BestIsOne }
{}

/// A walk that stands at a place has one next pick, which the definition computes.
pub fn pick_is_one()
    ensures { PickIsOne }
{}

/// There is one walk from a place, which the definition computes.
pub fn walk_is_one()
    ensures { WalkIsOne }
{}

/// The picks of a walk never overlap, and each begins later than the one before it.
pub fn walk_is_apart()
    ensures { WalkIsApart }
{}

/// No pick of a walk begins before the place where the walk starts, and none ends after the span.
pub fn walk_lies_within()
    ensures { WalkLiesWithin }
{}

/// Each pick of a walk that isn't anchored is an occurrence, from the place of the walk on.
pub fn walk_occurs()
    ensures { WalkOccurs }
{}

/// A search has at most one overlapping listing.
pub fn listing_is_one()
    ensures { (s : Search) (xs ys : List Occurrence) → IsListing s xs → IsListing s ys → xs ≡ ys }
{}

/// A list is the overlapping listing of a search within its haystack exactly where it is the one that is computed.
pub fn listing_is_computed()
    ensures { (s : Search) (os : List Occurrence) → IsInside s → IsListing s os ↔ (os ≡ listing_of s) }
{}

/// Each occurrence stands once in the overlapping listing.
pub fn listing_has_each_once()
    ensures { ListingHasEachOnce }
{}

/// Whatever the kind, each pick of the walk is one of the overlapping listing.
pub fn picks_are_listed()
    ensures { PicksAreListed }
{}

/// Where no byte is paired, a text whose patterns are replaced by themselves is unchanged.
pub fn replacing_by_itself_changes_nothing()
    ensures { ReplacingByItselfChangesNothing }
{}

/// With no patterns the text is unchanged, and nothing is listed.
pub fn no_rules_change_nothing()
    ensures { NoRulesChangeNothing }
{}

/// A text is a rule file in one way at most: its rules are fixed.
pub fn rules_are_one()
    ensures { RulesAreOne }
{}

/// A text has one first bad line at most, and none where it is a rule file.
pub fn bad_line_is_one()
    ensures { BadLineIsOne }
{}

/// The same of rules in plain text: a text has one list of rules at most, one first bad line at most, and not both.
pub fn text_rules_are_one()
    ensures { TextRulesAreOne }
{}

/// The same of rules in text with escapes, and a side stands for one text at most.
pub fn escaped_rules_are_one()
    ensures { EscapedRulesAreOne }
{}

/// Pairings that pair nothing search alike, whatever their tables.
pub fn unpaired_search_alike()
    ensures { UnpairedSearchAlike }
{}
