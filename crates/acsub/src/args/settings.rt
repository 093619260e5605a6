//! What a run is to do.
//!
//! The settings say which text is written, what counts as a match, and by which engine matches are found. The engine and its
//! own settings never change the text. Some settings exclude one another; [`check`] says which, before anything is read.
ghost use Rattle.std.specs.Prelude.{◌↔◌, IfErr, IsTrue, OnOk};
ghost use Rattle.acsub.specs.Args.Settings.{FindsEarly, HasEmptyPattern, IsAccepted, IsFirstExclusion};

use crate::rules::Rules;
use ac_input::pairing::Pairing;
use ac_input::search::MatchKind;
use ac_literal::packed::PATTERN_LIMIT;
use std::error::Error;
use std::fmt;

/// What is written.
#[derive(Clone, Copy, PartialEq, Eq)]
pub enum Mode {
    /// The input, with each match replaced.
    Replace,
    /// A line for each match.
    List,
    /// A line for each occurrence, overlapping ones too.
    Overlap,
}

/// By what matches are found. No engine changes what is written, only what a run costs, and its limits.
#[derive(Clone, Copy, PartialEq, Eq)]
pub enum Engine {
    /// The DFA for up to 100 patterns; for more, or where it would be too large, the contiguous NFA; and where that would be too
    /// large, the noncontiguous one.
    Auto,
    /// The noncontiguous NFA: it is built soonest.
    Noncontiguous,
    /// The contiguous NFA: it takes the least memory.
    Contiguous,
    /// The DFA: it searches fastest, and takes the most memory.
    Dfa,
    /// Packed search: for few patterns and leftmost kinds, with no pairing.
    Packed,
}

/// What a run is to do.
#[derive(Clone, Copy)]
pub struct Settings {
    /// What is written.
    pub mode: Mode,
    /// Which of several overlapping occurrences is the match.
    pub kind: MatchKind,
    /// Which bytes count as the same.
    pub pairing: Pairing,
    /// By what matches are found.
    pub engine: Engine,
    /// Whether the engine may look for places worth a search before it searches.
    pub prefilter: bool,
    /// To which depth the states of either NFA keep a row: those to which fewer bytes lead. Where there is none, it is 3 for the
    /// noncontiguous one and 2 for the contiguous one.
    pub dense_depth: Option<usize>,
    /// Whether bytes that lead alike from every state are one class, in the contiguous NFA and the DFA.
    pub byte_classes: bool,
}

/// Why settings are an error: they exclude one another, or the rules don't suit them.
#[derive(Clone, Copy, Debug)]
pub enum SettingError {
    /// Overlapping matches under a leftmost kind.
    OverlapLeftmost,
    /// Packed search under the standard kind.
    PackedStandard,
    /// Packed search with a pairing.
    PackedFold,
    /// Packed search for an empty pattern.
    PackedEmpty,
    /// Packed search for no pattern, or for more than 128.
    PackedCount,
}

impl fmt::Display for SettingError {
    ghost use Rattle.std.specs.Prelude.{Some};
    ghost use Rattle.acsub.specs.Args.Settings.{setting_text};

    ghost output = { λ error. Some (setting_text error) };

    fn fmt<W: fmt::Write>(&self, f: &mut fmt::Formatter<W>) -> fmt::Result {
        match self {
            SettingError::OverlapLeftmost => write!(f, "overlap needs the standard kind"),
            SettingError::PackedStandard => write!(f, "packed needs a leftmost kind"),
            SettingError::PackedFold => write!(f, "packed keeps case"),
            SettingError::PackedEmpty => write!(f, "packed takes no empty pattern"),
            SettingError::PackedCount => write!(f, "packed takes 1 to 128 patterns"),
        }
    }
}

impl Error for SettingError {}

/// Whether the settings go together, with these rules. Of several reasons against it, the first in the order of [`SettingError`]
/// is returned.
pub fn check(settings: &Settings, rules: &Rules) -> Result<(), SettingError>
    ensures accepted { OnOk result (IsAccepted settings.now rules.now) }
    ensures excluded { IfErr result (IsFirstExclusion settings.now rules.now) }
{
    if settings.mode == Mode::Overlap && settings.kind != MatchKind::Standard {
        return Err(SettingError::OverlapLeftmost);
    }
    if settings.engine != Engine::Packed {
        return Ok(());
    }
    if settings.kind == MatchKind::Standard {
        return Err(SettingError::PackedStandard);
    }
    if !settings.pairing.is_none() {
        return Err(SettingError::PackedFold);
    }
    if has_empty_pattern(rules) {
        return Err(SettingError::PackedEmpty);
    }
    if rules.is_empty() || rules.len() > PATTERN_LIMIT {
        return Err(SettingError::PackedCount);
    }
    Ok(())
}

/// Whether matches are found while the input is still read: under the standard kind, where no later byte can change a match; under a
/// leftmost kind if that was asked for, and an automaton searches.
pub fn finds_early(settings: &Settings, stream: bool) -> bool
    ensures { IsTrue result ↔ FindsEarly stream settings.now }
{
    settings.kind == MatchKind::Standard || (stream && settings.engine != Engine::Packed)
}

/// Whether some pattern is empty.
pub fn has_empty_pattern(rules: &Rules) -> bool
    ensures { IsTrue result ↔ HasEmptyPattern rules.now }
{
    for i in 0..rules.len() {
        if rules.pattern(i).is_empty() {
            return true;
        }
    }
    false
}
