//! The version.

/// The version of the program, and of every crate of the repository: this is its one place.
pub const VERSION: &str = "1.1.0";
