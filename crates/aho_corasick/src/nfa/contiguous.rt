//! The contiguous NFA: it takes the least memory, and searches faster than the noncontiguous one.
pub use ac_tables::contiguous::NFA;
pub use ac_tables::contiguous::builder::Builder;
