//! The laws of bytes that no pattern has.
//!
//! No occurrence covers such a byte, so what lies before it and what lies after it can be searched apart, even side by side. These
//! functions do nothing: each states one law as its contract, and checking it proves the law. A caller who needs the law calls the
//! function, at no cost.
ghost use Rattle.ac_input.specs.Unused.{WalkSplitsAfterUnused, ListingSplitsAfterUnused};

/// Whatever the kind, a walk splits after a byte that no pattern has.
pub fn walk_splits_after_unused()
    ensures { WalkSplitsAfterUnused }
{}

/// The overlapping listing splits after a byte that no pattern has.
pub fn listing_splits_after_unused()
    ensures { ListingSplitsAfterUnused }
{}
