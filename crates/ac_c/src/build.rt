//! How C builds an automaton, and shares it.
ghost use Rattle.std.specs.Prelude.{◌≡◌, Ok, Err, IfOk, IfErr};
ghost use Rattle.ac_literal.specs.Packed.{bytes_of};
ghost use Rattle.ac_c.specs.Build.{AnswersBuilder, AreDefaults, IsBuiltFrom, PairsBy, IsShared, engine_by, kind_by, no_fault, plain, build_refusal, start_kind_by};

use crate::handle::Handle;
use crate::status::{
    BAD_ENGINE, BAD_KIND, BAD_PAIRS, BAD_START_KIND, NO_MEMORY, OK, PATTERN_TOO_LONG,
    TOO_MANY_PATTERNS, TOO_MANY_STATES,
};
use ac_noncontiguous::settings::ROW_MEMORY;
use aho_corasick::{
    AhoCorasick, AhoCorasickBuilder, AhoCorasickKind, BuildError, BuildErrorKind, MatchKind,
    Pairing, PairingError, StartKind,
};
use std::alloc::Global;

/// How an automaton is built, without its pairs. A flag is 0 or else set.
#[repr(C)]
#[derive(Clone, Copy)]
pub struct Settings {
    pub kind: u32,
    pub start_kind: u32,
    pub engine: u32,
    pub fold: u32,
    pub prefilter: u32,
    pub byte_classes: u32,
    pub dense_depth: usize,
    pub row_memory: usize,
}

/// Two bytes that match each other.
#[repr(C)]
#[derive(Clone, Copy)]
pub struct Pair {
    pub a: u8,
    pub b: u8,
}

/// More about a failed build.
#[repr(C)]
#[derive(Clone, Copy)]
pub struct Fault {
    pub count: u64,
    pub pattern: u32,
}

/// Why an automaton is not built.
#[derive(Clone, Copy)]
pub struct Refusal {
    pub status: u32,
    pub fault: Fault,
}

impl Fault {
    /// Of a fault that says no more.
    pub fn nothing() -> Fault
        ensures { result ≡ no_fault }
    {
        Fault {
            count: 0,
            pattern: 0,
        }
    }
}

impl Refusal {
    /// A status that says all.
    fn plain(status: u32) -> Refusal
        ensures { result ≡ plain status }
    {
        Refusal {
            status,
            fault: Fault::nothing(),
        }
    }

    /// What a build says of its error.
    fn from_error(error: &BuildError) -> Refusal
        ensures { result ≡ build_refusal error.now }
    {
        match *error.kind() {
            BuildErrorKind::StateIDOverflow { requested_max, .. } => Refusal {
                status: TOO_MANY_STATES,
                fault: Fault {
                    count: requested_max,
                    pattern: 0,
                },
            },
            BuildErrorKind::PatternIDOverflow { requested_max, .. } => Refusal {
                status: TOO_MANY_PATTERNS,
                fault: Fault {
                    count: requested_max,
                    pattern: 0,
                },
            },
            BuildErrorKind::PatternTooLong { pattern, len } => Refusal {
                status: PATTERN_TOO_LONG,
                fault: Fault {
                    count: len as u64,
                    pattern: pattern.as_u32(),
                },
            },
            BuildErrorKind::Memory => Refusal::plain(NO_MEMORY),
        }
    }
}

impl Settings {
    /// Those that a builder has at first.
    pub fn first() -> Settings
        ensures { AreDefaults result }
    {
        Settings {
            kind: 0,
            start_kind: 0,
            engine: 0,
            fold: 0,
            prefilter: 1,
            byte_classes: 1,
            dense_depth: usize::MAX,
            row_memory: ROW_MEMORY,
        }
    }
}

/// The kind of this number.
pub fn kind_by(kind: u32) -> Option<MatchKind>
    ensures { result ≡ kind_by kind }
{
    match kind {
        0 => Some(MatchKind::Standard),
        1 => Some(MatchKind::LeftmostFirst),
        2 => Some(MatchKind::LeftmostLongest),
        _ => None,
    }
}

/// The start kind of this number.
fn start_by(kind: u32) -> Option<StartKind>
    ensures { result ≡ start_kind_by kind }
{
    match kind {
        0 => Some(StartKind::Unanchored),
        1 => Some(StartKind::Anchored),
        2 => Some(StartKind::Both),
        _ => None,
    }
}

/// The engine of this number: one that is named, or none.
fn engine_by(engine: u32) -> Option<Option<AhoCorasickKind>>
    ensures { result ≡ engine_by engine }
{
    match engine {
        0 => Some(None),
        1 => Some(Some(AhoCorasickKind::NoncontiguousNFA)),
        2 => Some(Some(AhoCorasickKind::ContiguousNFA)),
        3 => Some(Some(AhoCorasickKind::DFA)),
        _ => None,
    }
}

/// So many pairs name a byte twice, since there are 256 bytes.
const TOO_MANY_PAIRS: usize = 129;

/// The pairing of these pairs. It takes no memory, since no more than the first so many are needed.
fn pairing_of(pairs: &[Pair]) -> Result<Pairing, Refusal>
    ensures { PairsBy 0 pairs.now result }
{
    let count = pairs.len().min(TOO_MANY_PAIRS);
    let mut first = [(0u8, 0u8); TOO_MANY_PAIRS];
    for at in 0..count {
        let (a, b) = (pairs[at].a, pairs[at].b);
        first[at] = (a, b);
    }
    match Pairing::new(&first[..count]) {
        Ok(pairing) => Ok(pairing),
        Err(PairingError::Twice(byte)) => Err(Refusal {
            status: BAD_PAIRS,
            fault: Fault {
                count: 0,
                pattern: byte as u32,
            },
        }),
    }
}

/// Which bytes match each other.
fn pairing_by(fold: u32, pairs: &[Pair]) -> Result<Pairing, Refusal>
    ensures { PairsBy fold pairs.now result }
{
    if fold == 0 {
        return pairing_of(pairs);
    }
    if pairs.is_empty() {
        Ok(Pairing::ascii())
    } else {
        Err(Refusal::plain(BAD_PAIRS))
    }
}

/// A builder by the settings.
fn builder_by(settings: &Settings, pairs: &[Pair]) -> Result<AhoCorasickBuilder, Refusal>
    ensures { AnswersBuilder settings.now pairs.now result }
{
    let Some(kind) = kind_by(settings.kind) else {
        return Err(Refusal::plain(BAD_KIND));
    };
    let Some(start_kind) = start_by(settings.start_kind) else {
        return Err(Refusal::plain(BAD_START_KIND));
    };
    let Some(engine) = engine_by(settings.engine) else {
        return Err(Refusal::plain(BAD_ENGINE));
    };
    let pairing = pairing_by(settings.fold, pairs)?;
    let mut builder = AhoCorasick::builder();
    builder.match_kind(kind);
    builder.start_kind(start_kind);
    builder.kind(engine);
    builder.pairing(pairing);
    builder.prefilter(settings.prefilter != 0);
    builder.byte_classes(settings.byte_classes != 0);
    builder.row_memory(settings.row_memory);
    if settings.dense_depth != usize::MAX {
        builder.dense_depth(settings.dense_depth);
    }
    Ok(builder)
}

/// An automaton of the patterns, by the settings.
fn built_by(
    alloc: Global,
    patterns: &[&[u8]],
    settings: &Settings,
    pairs: &[Pair],
) -> Result<AhoCorasick, Refusal>
    ensures { IsBuiltFrom (bytes_of patterns.now) settings.now pairs.now result }
{
    match builder_by(settings, pairs)?.build(alloc, patterns) {
        Ok(ac) => Ok(ac),
        Err(error) => Err(Refusal::from_error(&error)),
    }
}

/// The same in a box.
pub fn boxed_by(
    alloc: Global,
    patterns: &[&[u8]],
    settings: &Settings,
    pairs: &[Pair],
) -> Result<Box<AhoCorasick, Global>, Refusal>
    ensures built { IfOk result
        (λ ac. IsBuiltFrom (bytes_of patterns.now) settings.now pairs.now (Ok ac.value)) }
    ensures refused { IfErr result
        (λ refusal. IsBuiltFrom (bytes_of patterns.now) settings.now pairs.now (Err refusal)) }
{
    match Box::new(alloc, built_by(alloc, patterns, settings, pairs)?) {
        Ok(ac) => Ok(ac),
        Err(_) => Err(Refusal::plain(NO_MEMORY)),
    }
}

/// A second owner of an automaton into another handle, as C sees it.
pub fn share(ac: &AhoCorasick, alloc: Global, other: &mut Handle) -> u32
    ensures { IsShared ac.now other.old.value other.new.value result }
{
    let Ok(copy) = ac.clone(alloc) else {
        return NO_MEMORY;
    };
    match Box::new(alloc, copy) {
        Ok(copy) => {
            *other = Handle::from_box(copy);
            OK
        }
        Err(_) => NO_MEMORY,
    }
}
