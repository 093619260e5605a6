//! What errors say.
use crate::asserts::{equal, same};
use ac_input::pairing::PairingError;
use ac_input::primitives::{PatternID, SmallIndex, StateID};
use ac_input::search::MatchKind;
use ac_noncontiguous::{
    BuildError, BuildErrorKind, MatchError, MatchErrorKind, ReplaceError, StreamError,
};
use std::alloc::{AllocError, Global};
use std::fmt::Display;
use std::io::{self, ErrorKind};
use std::process::Abort;

/// Asserts what the error says.
fn says<T: Abort, E: Display>(rt: &T, alloc: Global, error: &E, want: &str) {
    let said = error.to_string(alloc).expect(rt, "there is memory");
    equal(rt, &said.as_str(), &want, "the text of an error");
}

/// Asserts the text of a search error, by itself, and as the error of a replacement and of a stream.
fn refusal_says<T: Abort>(rt: &T, alloc: Global, kind: MatchErrorKind, want: &str) {
    let error = MatchError::new(kind);
    assert!(rt; *error.kind() == kind);
    says(rt, alloc, &error, want);
    says(rt, alloc, &ReplaceError::Match(MatchError::new(kind)), want);
    says(rt, alloc, &StreamError::Config(error), want);
}

/// A search error, and its text.
const REFUSALS: [(MatchErrorKind, &str); 5] = [
    (
        MatchErrorKind::InvalidInputAnchored,
        "anchored search is not supported",
    ),
    (
        MatchErrorKind::InvalidInputUnanchored,
        "unanchored search is not supported",
    ),
    (
        MatchErrorKind::UnsupportedStream {
            got: MatchKind::LeftmostFirst,
        },
        "stream search needs the standard kind",
    ),
    (
        MatchErrorKind::UnsupportedOverlapping {
            got: MatchKind::LeftmostLongest,
        },
        "overlapping search needs the standard kind",
    ),
    (
        MatchErrorKind::UnsupportedEmpty,
        "stream search takes no empty pattern",
    ),
];

/// Asserts that each maker of a search error makes that of its kind, in the order of the table.
fn makers_make<T: Abort>(rt: &T) {
    let made = [
        MatchError::invalid_input_anchored(),
        MatchError::invalid_input_unanchored(),
        MatchError::unsupported_stream(MatchKind::LeftmostFirst),
        MatchError::unsupported_overlapping(MatchKind::LeftmostLongest),
        MatchError::unsupported_empty(),
    ];
    let kinds = made.map(|error| *error.kind());
    let want = REFUSALS.map(|(kind, _)| kind);
    same(rt, &kinds, &want, "what each maker makes");
}

/// Asserts the error of the number past the greatest one.
fn past_says<T: Abort, E: Display + Drop>(rt: &T, alloc: Global, refused: Option<E>) {
    let error = refused.expect(rt, "it is past the greatest number");
    says(rt, alloc, &error, "number 2147483647 is past 2147483646");
}

/// Asserts the text of a build that fails for this reason.
fn build_says<T: Abort>(rt: &T, alloc: Global, kind: BuildErrorKind, want: &str) {
    says(rt, alloc, &BuildError::from(kind), want);
}

/// Asserts what a build says that meets a limit. The limits are too far away for a test to meet.
fn limits_say<T: Abort>(rt: &T, alloc: Global) {
    let max = 2147483646;
    let states = BuildErrorKind::StateIDOverflow {
        max,
        requested_max: 2147483647,
    };
    let patterns = BuildErrorKind::PatternIDOverflow {
        max,
        requested_max: 4294967296,
    };
    let long = BuildErrorKind::PatternTooLong {
        pattern: PatternID::must(7),
        len: 2147483648,
    };
    build_says(
        rt,
        alloc,
        states,
        "state number 2147483647 is past 2147483646",
    );
    build_says(
        rt,
        alloc,
        patterns,
        "pattern number 4294967296 is past 2147483646",
    );
    build_says(
        rt,
        alloc,
        long,
        "pattern 7 has 2147483648 bytes, more than 2147483646",
    );
    build_says(rt, alloc, BuildErrorKind::Memory, "out of memory");
}

/// Asserts what a stream says that stopped, also with an error of the system in it.
fn stopped_says<T: Abort>(rt: &T, alloc: Global) {
    let read = StreamError::Read(io::Error::from(ErrorKind::Interrupted));
    let write = StreamError::Write(io::Error::from(ErrorKind::BrokenPipe));
    says(rt, alloc, &read, "read failed: operation interrupted");
    says(rt, alloc, &write, "write failed: broken pipe");
    says(rt, alloc, &StreamError::WriteZero, "write took no byte");
    says(rt, alloc, &StreamError::Memory, "out of memory");
    says(rt, alloc, &StreamError::Position, "input too long");
}

#[test]
fn what_errors_say(rt: HostRuntime) {
    let alloc = rt.alloc();
    for (kind, text) in REFUSALS {
        refusal_says(&rt, alloc, kind, text);
    }
    stopped_says(&rt, alloc);
    says(&rt, alloc, &ReplaceError::Memory, "out of memory");
    makers_make(&rt);
    limits_say(&rt, alloc);
    says(&rt, alloc, &BuildError::from(AllocError), "out of memory");
    says(
        &rt,
        alloc,
        &PairingError::Twice(49),
        "byte 49 is named twice",
    );
    past_says(&rt, alloc, SmallIndex::new(2147483647).err());
    past_says(&rt, alloc, PatternID::new(2147483647).err());
    past_says(&rt, alloc, StateID::new(2147483647).err());
}
