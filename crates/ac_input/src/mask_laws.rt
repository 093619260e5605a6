//! The laws of masking, by which one byte stands in for each byte that an occurrence covers.
//!
//! All occurrences count, also those that overlap. So with a mask that no pattern has, only empty patterns are left in the masked
//! text. As a text is read in pieces, the masked bytes before what is still live are final. These functions do nothing: each
//! states one law as its contract, and checking it proves the law. A caller who needs the law calls the function, at no cost.
ghost use Rattle.ac_input.specs.Laws.MaskLaws.{MaskedIsOne, OnlyEmptyOccurInMasked, MaskedTwiceIsMasked, MaskedFrontIsFinal, FinalBeforeLast, FinalBeforeLive, LongestCover, MaskedByLongest, MaskedTextIsText};

/// A search has one masked haystack, which the definition computes.
///
/// It is as long as the haystack. It has the mask at each place that an occurrence covers, and differs nowhere else.
pub fn masked_is_one()
    ensures { MaskedIsOne }
{}

/// With a mask that no pattern has, only empty patterns occur in the masked haystack.
pub fn only_empty_occur_in_masked()
    ensures { OnlyEmptyOccurInMasked }
{}

/// With a mask that no pattern has, a masked haystack that is masked again is unchanged.
pub fn masked_twice_is_masked()
    ensures { MaskedTwiceIsMasked }
{}

/// Where a text is final before a place, the masked text before it is the same, however the text goes on.
pub fn masked_front_is_final()
    ensures { MaskedFrontIsFinal }
{}

/// A text is final but for its last bytes, one less than the longest pattern has.
pub fn final_before_last()
    ensures { FinalBeforeLast }
{}

/// Whatever the kind, a text is final before its live prefix.
pub fn final_before_live()
    ensures { FinalBeforeLive }
{}

/// The longest occurrence that ends at each place is enough: together they cover what all occurrences cover.
pub fn longest_cover()
    ensures { LongestCover }
{}

/// A text is masked as it grows: with each byte, from the start of the longest occurrence that ends there.
pub fn masked_by_longest()
    ensures { MaskedByLongest }
{}

/// With an ASCII mask, a masked text is a text: each occurrence covers whole characters.
pub fn masked_text_is_text()
    ensures { MaskedTextIsText }
{}
