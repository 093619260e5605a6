//! Times searches of a file that is held in memory, apart from a program's input and output. `bench/run` calls it.
//!
//! `bench_in_memory WORDS FILE PASSES ENGINE KIND` builds an automaton of the lines of WORDS, and searches the bytes of FILE for all
//! matches, PASSES times. It prints the number of matches, and on standard error the fastest pass.
#![tactic(auto)]

use aho_corasick::{AhoCorasick, AhoCorasickKind, Input, MatchKind};
use anyhow::{Context, Result, bail};
use std::alloc::Global;
use std::rt::Clock;
use std::time::{Duration, Instant};
use std::{env, fs};

/// The automaton that a word names, with `auto` for the builder's own choice.
fn named_engine(word: &str) -> Result<Option<AhoCorasickKind>> {
    Ok(match word {
        "auto" => None,
        "noncontiguous" => Some(AhoCorasickKind::NoncontiguousNFA),
        "contiguous" => Some(AhoCorasickKind::ContiguousNFA),
        "dfa" => Some(AhoCorasickKind::DFA),
        _ => bail!("no engine: {word}"),
    })
}

/// The match kind that a word names.
fn named_kind(word: &str) -> Result<MatchKind> {
    Ok(match word {
        "standard" => MatchKind::Standard,
        "leftmost-first" => MatchKind::LeftmostFirst,
        "leftmost-longest" => MatchKind::LeftmostLongest,
        _ => bail!("no match kind: {word}"),
    })
}

/// The automaton of the lines of a text.
fn automaton_of(alloc: Global, lines: &str, engine: &str, kind: &str) -> Result<AhoCorasick> {
    let patterns = lines.lines().collect::<Vec<&str>>(alloc)?;
    let mut builder = AhoCorasick::builder();
    builder
        .kind(named_engine(engine)?)
        .match_kind(named_kind(kind)?);
    Ok(builder.build_from_patterns(alloc, &patterns)?)
}

/// Searches the text for all matches, and returns how many there are and how long that took.
fn timed_search(clock: &impl Clock, ac: &AhoCorasick, text: &[u8]) -> Result<(usize, Duration)> {
    let start = Instant::now(clock)?;
    let count = ac.try_find_iter_ahead(Input::from(text))?.count();
    Ok((count, start.elapsed(clock)?))
}

fn main(rt: HostRuntime) -> Result<()> {
    let alloc = rt.alloc();
    let words = env::args(&rt)?.collect::<Vec<String>>(alloc)?;
    let [_, lines, file, passes, engine, kind] = words.as_slice() else {
        bail!("usage: bench_in_memory WORDS FILE PASSES ENGINE KIND");
    };
    let lines = fs::read_to_string(&rt, lines.as_str()).context("the words")?;
    let text = fs::read(&rt, file.as_str()).context("the text")?;
    let ac = automaton_of(alloc, lines.as_str(), engine.as_str(), kind.as_str())?;
    let mut found = 0;
    let mut fastest = Duration::MAX;
    for _ in 0..passes.parse::<u32>()? {
        let (count, took) = timed_search(&rt, &ac, &text)?;
        found = count;
        fastest = fastest.min(took);
    }
    eprintln!(rt;
        "{} MB/s",
        text.len() as u128 * 1000 / fastest.as_nanos().max(1)
    )?;
    println!(rt; "{found} matches")?;
    Ok(())
}
