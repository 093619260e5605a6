//! Why a run stops.
ghost use Rattle.std.specs.Prelude.{◌≡◌};
ghost use Rattle.acsub.specs.Finder.{not_built};
ghost use Rattle.acsub.specs.declared.error.RunError.TheVariants.{Memory};

use crate::args::settings::SettingError;
use crate::rules::RuleError;
use ac_noncontiguous::error::{BuildError, BuildErrorKind};
use std::alloc::AllocError;
use std::error::Error;
use std::{fmt, io};

/// Why a run stopped.
///
/// No run returns `Rule(RuleError::Memory)` or `Build(BuildErrorKind::Memory)`: out of memory is [`RunError::Memory`]. So the texts
/// `rules: out of memory` and `build: out of memory` are never printed.
#[derive(Debug, Drop)]
pub enum RunError {
    /// The rules are no rule file.
    Rule(RuleError),
    /// The settings exclude one another, or don't go with the rules.
    Setting(SettingError),
    /// No automaton can be built of the patterns: it would have too many states, they are too many, or one is too long.
    Build(BuildErrorKind),
    /// A read failed.
    Read(io::Error),
    /// A write failed.
    Write(io::Error),
    /// A write was given bytes and took none.
    WriteZero,
    /// The run is out of memory.
    Memory,
    /// The input is longer than places can be counted.
    Position,
}

impl fmt::Display for RunError {
    ghost use Rattle.std.specs.Prelude.{Some};
    ghost use Rattle.acsub.specs.Tool.{run_text};

    ghost output = { λ error. Some (run_text error) };

    fn fmt<W: fmt::Write>(&self, f: &mut fmt::Formatter<W>) -> fmt::Result {
        match self {
            RunError::Rule(error) => write!(f, "rules: {error}"),
            RunError::Setting(error) => write!(f, "setting: {error}"),
            RunError::Build(kind) => match kind {
                BuildErrorKind::StateIDOverflow { .. } => write!(f, "build: too many states"),
                BuildErrorKind::PatternIDOverflow { .. } => write!(f, "build: too many patterns"),
                BuildErrorKind::PatternTooLong { .. } => write!(f, "build: pattern too long"),
                BuildErrorKind::Memory => write!(f, "build: out of memory"),
            },
            RunError::Read(_) => write!(f, "read failed"),
            RunError::Write(_) => write!(f, "write failed"),
            RunError::WriteZero => write!(f, "write took no byte"),
            RunError::Memory => write!(f, "out of memory"),
            RunError::Position => write!(f, "input too long"),
        }
    }
}

impl Error for RunError {}

impl From<BuildError> for RunError {
    ghost from_gives = { λ limit error. error ≡ not_built limit };

    fn from(error: BuildError) -> RunError {
        match *error.kind() {
            BuildErrorKind::StateIDOverflow { max, requested_max } => {
                RunError::Build(BuildErrorKind::StateIDOverflow { max, requested_max })
            }
            BuildErrorKind::PatternIDOverflow { max, requested_max } => {
                RunError::Build(BuildErrorKind::PatternIDOverflow { max, requested_max })
            }
            BuildErrorKind::PatternTooLong { pattern, len } => {
                RunError::Build(BuildErrorKind::PatternTooLong { pattern, len })
            }
            BuildErrorKind::Memory => RunError::Memory,
        }
    }
}

impl From<AllocError> for RunError {
    ghost from_gives = { λ _ error. error ≡ Memory };

    fn from(_error: AllocError) -> RunError {
        RunError::Memory
    }
}
