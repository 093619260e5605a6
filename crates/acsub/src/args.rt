//! The command line of `acsub`: its words, and the settings that they ask for.
//!
//! `acsub MODE RULES [OPTION..] [FILE..]`, or `acsub MODE -e PATTERN [-r REPLACEMENT] .. [OPTION..] [FILE..]`
//!
//! clap splits the words, names the values that an argument takes and writes the help; what a value means is said here, and
//! which arguments don't go together in [`misuse`]. The command stands as data in `specs/Args/Command.antt`. So the contract of `read_words` says of all words what comes of them. It goes
//! by clap's own account of which words such a command takes, and which value each argument then has.
ghost use Rattle.std.specs.Prelude.{◌≡◌, ◌<◌, ℕ, List, [], ◌∷◌, Some, None, IfOk, MatchResult, false, length, map, option_map, string_bytes};
ghost use Rattle.clap.specs.Words.{first_of, rule_of};
ghost use Rattle.clap.specs.Walk.{texts};
ghost use Rattle.acsub.specs.Args.Command.{AddsEngine, AddsFiles, AddsMatching, AddsRules, AddsWriting, IsCommand, Shows, choice, flag, option, placed, repeated};
ghost use Rattle.ac_input.specs.Rules.{Spells};
ghost use Rattle.acsub.specs.Given.{form_wanted};
ghost use Rattle.acsub.specs.Args.Misuse.{misuse_of};
ghost use Rattle.acsub.specs.Args.Values.{files_in, first_file, has_values, is_given, is_mode, rows_in, values_in};
ghost use Rattle.acsub.specs.Args.Words.{AreTwoByTwo, IsMaskedBy, IsPairedBy, IsRuleSource, IsTyped, IsWordsFault, Misspells, Parses, Reads, ReadsMatches, SpellsPairs, Unmasks, Unpairs};
ghost use Rattle.acsub.specs.Args.Words.{engine_named, engine_of, hex_fault, kind_named, match_kind_of, mode_named, mode_of};

mod help;
pub mod misuse;
pub mod settings;
mod version;

use crate::args::help::{AFTER_HELP, AFTER_LONG_HELP, USAGE};
use crate::args::misuse::misuse_of;
use crate::args::settings::{Engine, Mode, Settings};
use crate::args::version::VERSION;
use crate::rules::Form;
use ac_input::pairing::{Pairing, PairingError};
use ac_input::primitives::GREATEST;
use ac_input::search::MatchKind;
use clap::builder::ValueParser;
use clap::error::ErrorKind;
use clap::{Arg, ArgAction, ArgMatches, Command};
use hex::FromHexError;
use std::alloc::{AllocError, Global};

static MODES: [&str; 4] = ["replace", "list", "overlap", "mask"];

static KINDS: [&str; 3] = ["standard", "leftmost-first", "leftmost-longest"];

static ENGINES: [&str; 5] = ["auto", "noncontiguous", "contiguous", "dfa", "packed"];

/// The greatest number that `--dense-depth` takes.
const MOST_DEPTH: u64 = GREATEST as u64;

/// Where the rules are.
#[derive(Clone, Copy)]
pub enum Source<'a> {
    /// In the file at this path.
    File(&'a str),
    /// In standard input: `-` where a FILE is given.
    Input,
    /// In the patterns of `-e` and the replacements of `-r`.
    Given,
}

/// What a command line asks for.
#[derive(Drop)]
pub struct Words<'a> {
    pub settings: Settings,
    /// Whether the rule file is of plain text, and not of hex. Rules of `-e` always are.
    pub text: bool,
    /// Whether a backslash in text begins an escape.
    pub escapes: bool,
    /// Whether the text is asked for while the input is read, under every kind. A mask is always written so.
    pub stream: bool,
    /// Whether whole words alone count. Their text is always written while the input is read.
    pub word: bool,
    /// The byte that masks, in mode `mask`. The settings are then those of a list of all that overlap.
    pub mask: Option<u8>,
    /// Where the rules are.
    pub source: Source<'a>,
    /// The patterns of `-e`, in their order.
    pub patterns: Vec<&'a str>,
    /// The replacements of `-r`: none, or one for each pattern.
    pub replacements: Vec<&'a str>,
    /// What is searched, in order. Where there is none, standard input is.
    pub files: Vec<&'a str>,
    /// Whether each file is rewritten.
    pub in_place: bool,
    /// Whether the matches are counted.
    pub count: bool,
    /// Whether it is a failure if nothing matches.
    pub fail_if_none: bool,
    /// Whether the rules are looked at, and no input.
    pub check: bool,
    /// Whether to show how far a run is.
    pub progress: bool,
}

impl Words<'_> {
    /// How the rules are written.
    pub fn form(&self) -> Form
        ensures { result ≡ form_wanted self.now }
    {
        match self.source {
            Source::Given => Form::of(true, self.escapes),
            _ => Form::of(self.text, self.escapes),
        }
    }
}

/// Why a command line asks for no run.
#[derive(Drop)]
pub enum WordsFault {
    /// Help or the version was asked for. The error is its text: `print` shows it.
    Help(clap::Error),
    /// The words are no command line of this program.
    Bad,
    /// There was no memory to read them.
    Memory,
    /// All else is well, but the pairs make no pairing.
    Pairing(PairingError),
}

impl From<AllocError> for WordsFault {
    ghost use Rattle.acsub.specs.declared.args.WordsFault.TheVariants.{Memory};

    ghost from_gives = { λ _ fault. fault ≡ Memory };

    fn from(_error: AllocError) -> WordsFault {
        WordsFault::Memory
    }
}

/// Reads the words of the command line, of which the first is the program's name.
///
/// A number takes a `+` before its digits, as Rust's integers do. `--pairs` beside `--fold` is bad, and so are pairs that are
/// none, `--with` in another mode than `mask`, a mask that is no byte, and each [`misuse`]; whether pairs name a byte twice is
/// looked at last.
pub fn read_words<'a>(alloc: Global, words: &'a [String]) -> Result<Words<'a>, WordsFault>
    ensures { Reads (map string_bytes words.entry.now) result }
{
    let matches = parse(alloc, words)?;
    asked_for(alloc, &matches)
}

/// What clap makes of the words, for a hint: its matches, or the error with which it refuses them. Out of memory gives none.
pub fn taken<'a>(
    alloc: Global,
    words: &'a [String],
) -> Option<Result<ArgMatches<'a>, clap::Error>> {
    Some(command(alloc).ok()?.try_get_matches_from(words))
}

// clap's part: which words belong to which argument, and whether they may stand there.
fn parse<'a>(alloc: Global, words: &'a [String]) -> Result<ArgMatches<'a>, WordsFault>
    ensures { Parses (map string_bytes words.entry.now) result }
{
    match command(alloc)?.try_get_matches_from(words) {
        Ok(matches) => Ok(matches),
        Err(error) => Err(fault_of(error)),
    }
}

fn fault_of(error: clap::Error) -> WordsFault
    ensures { IsWordsFault error result }
{
    match error.kind() {
        ErrorKind::DisplayHelp | ErrorKind::DisplayVersion => WordsFault::Help(error),
        ErrorKind::OutOfMemory => WordsFault::Memory,
        _ => WordsFault::Bad,
    }
}

// A word that has its place among those that belong to no option. It may be left out.
fn placed<'a>(alloc: Global, id: &'a str, name: &'a str, help: &'a str) -> Arg<'a>
    ensures rule { rule_of result ≡ placed id.entry.now }
    ensures own { result.global ≡ false }
    ensures shown { Shows result name.entry help.entry }
{
    Arg::new(alloc, id)
        .value_name(name)
        .help(help)
        .action(ArgAction::Set)
}

// `--id NAME`
fn option<'a>(alloc: Global, id: &'a str, name: &'a str, help: &'a str) -> Arg<'a>
    ensures rule { rule_of result ≡ option id.entry.now }
    ensures own { result.global ≡ false }
    ensures shown { Shows result name.entry help.entry }
{
    Arg::new(alloc, id)
        .long(id)
        .value_name(name)
        .help(help)
        .action(ArgAction::Set)
}

// `--id NAME`, which takes one of these names, and where it isn't given this one.
fn choice<'a>(
    alloc: Global,
    id: &'a str,
    name: &'a str,
    help: &'a str,
    names: &'a [&'a str],
    default: &'a str,
) -> Arg<'a>
    ensures rule { rule_of result ≡ choice id.entry.now names.entry default.entry.now }
    ensures own { result.global ≡ false }
    ensures shown { Shows result name.entry help.entry }
{
    option(alloc, id, name, help)
        .value_parser(names)
        .default_value(default)
}

// `--id`
fn flag<'a>(alloc: Global, id: &'a str, help: &'a str) -> Arg<'a>
    ensures rule { rule_of result ≡ flag id.entry.now }
    ensures own { result.global ≡ false }
    ensures shown { result.help ≡ Some help.entry }
{
    Arg::new(alloc, id)
        .long(id)
        .help(help)
        .action(ArgAction::SetTrue)
}

// `-c NAME` or `--id NAME`, any number of times
fn repeated<'a>(alloc: Global, id: &'a str, short: char, name: &'a str, help: &'a str) -> Arg<'a>
    ensures rule { rule_of result ≡ repeated id.entry.now short }
    ensures own { result.global ≡ false }
    ensures shown { Shows result name.entry help.entry }
{
    option(alloc, id, name, help)
        .short(short)
        .action(ArgAction::Append)
}

// The command line, as clap's builder makes it.
fn command<'a>(alloc: Global) -> Result<Command<'a>, AllocError>
    ensures { IfOk result IsCommand }
{
    let command = Command::new(alloc, "acsub")
        .version(VERSION)
        .about(
            "Replaces, masks or lists what the patterns of a rule file match in files or standard input",
        )
        .override_usage(USAGE)
        .after_help(AFTER_HELP)
        .after_long_help(AFTER_LONG_HELP)
        .arg(
            placed(alloc, "mode", "MODE", "What to write")
                .value_parser(MODES.as_slice())
                .required(true),
        )?;
    let command = with_rules(alloc, command)?;
    let command = with_files(alloc, command)?;
    let command = with_writing(alloc, command)?;
    with_engine(alloc, with_matching(alloc, command)?)
}

// The command with the arguments that name the rules, and the inputs, which come after them.
fn with_rules<'a>(alloc: Global, command: Command<'a>) -> Result<Command<'a>, AllocError>
    ensures { IfOk result (AddsRules command.entry) }
{
    command
        .arg(placed(
            alloc,
            "rules",
            "RULES",
            "The path of the rule file; beside a FILE, - is standard input. With -e there is none",
        ))?
        .arg(placed(
            alloc,
            "file",
            "FILE",
            "What to search; - is standard input, which is searched where there is no FILE",
        )
        .action(ArgAction::Append))?
        .arg(repeated(
            alloc,
            "pattern",
            'e',
            "PATTERN",
            "Search for this text in place of RULES; can be repeated",
        ))?
        .arg(repeated(
            alloc,
            "replacement",
            'r',
            "REPLACEMENT",
            "Replace by this text, in mode replace: one for each -e, in their order; without -r by nothing",
        ))?
        .arg(flag(
            alloc,
            "text",
            "Read RULES as plain text: 'pattern TAB replacement' or 'pattern' a line",
        ))?
        .arg(flag(
            alloc,
            "escapes",
            "Read \\t, \\n, \\r, \\\\, \\0 and \\xHH in the text of the rules as the bytes that they name",
        ))
}

// The command with the options for whole files, and for what is said of a run.
fn with_files<'a>(alloc: Global, command: Command<'a>) -> Result<Command<'a>, AllocError>
    ensures { IfOk result (AddsFiles command.entry) }
{
    command
        .arg(flag(
            alloc,
            "in-place",
            "Rewrite each FILE, in modes replace and mask",
        )
        .short('i'))?
        .arg(flag(alloc, "count", "Say on standard error how much matched"))?
        .arg(flag(
            alloc,
            "fail-if-none",
            "End with status 1 if nothing matched",
        ))?
        .arg(flag(
            alloc,
            "check",
            "Look at the rules alone, and write what is odd about them; not with --count and --fail-if-none",
        ))?
        .arg(flag(alloc, "progress", "Show on a terminal how far the run is"))
}

// The command with the options that say what is written, and when.
fn with_writing<'a>(alloc: Global, command: Command<'a>) -> Result<Command<'a>, AllocError>
    ensures { IfOk result (AddsWriting command.entry) }
{
    command
        .arg(flag(
            alloc,
            "stream",
            "Write while reading under every kind and mode, where that can be",
        ))?
        .arg(flag(
            alloc,
            "word",
            "Count only whole words: no letter, digit, '_' or byte from 80 on beside them",
        ))?
        .arg(option(
            alloc,
            "with",
            "HEX",
            "Mask with this byte, two hex digits [default: 2a, which is *]",
        ))
}

// The command with the options that say what a match is.
fn with_matching<'a>(alloc: Global, command: Command<'a>) -> Result<Command<'a>, AllocError>
    ensures { IfOk result (AddsMatching command.entry) }
{
    command
        .arg(choice(
            alloc,
            "kind",
            "K",
            "Which of several matches is taken",
            KINDS.as_slice(),
            "standard",
        ))?
        .arg(flag(alloc, "fold", "Match ASCII letters in either case"))?
        .arg(option(
            alloc,
            "pairs",
            "HEX",
            "Match the two bytes of each pair, four hex digits a pair: 3031 for 0 and 1",
        ))
}

// The command with the options that say what searches.
fn with_engine<'a>(alloc: Global, command: Command<'a>) -> Result<Command<'a>, AllocError>
    ensures { IfOk result (AddsEngine command.entry) }
{
    command
        .arg(choice(
            alloc,
            "engine",
            "E",
            "What searches; no engine changes what is written",
            ENGINES.as_slice(),
            "auto",
        ))?
        .arg(flag(
            alloc,
            "no-prefilter",
            "Search without a prefilter; the automaton's own skip stays",
        ))?
        .arg(option(
            alloc,
            "dense-depth",
            "N",
            "Give states less than N bytes deep a row of transitions [default: 3 noncontiguous, 2 contiguous]",
        )
        .value_parser(ValueParser::unsigned(0, MOST_DEPTH)))?
        .arg(flag(
            alloc,
            "no-byte-classes",
            "Give each byte a class of its own in the tables",
        ))
}

// What the matches ask for.
fn asked_for<'a>(alloc: Global, matches: &ArgMatches<'a>) -> Result<Words<'a>, WordsFault>
    requires { IsTyped (rows_in matches.now) }
    ensures { ReadsMatches (rows_in matches.now) result }
{
    let mask = mask_of(matches)?;
    if misuse_of(matches).is_some() {
        return Err(WordsFault::Bad);
    }
    let pairing = pairing_of(alloc, matches)?;
    let settings = Settings {
        mode: mode_of(matches).unwrap(),
        kind: match_kind_of(matches).unwrap(),
        pairing,
        engine: engine_of(matches).unwrap(),
        prefilter: !is_given(matches, "no-prefilter"),
        dense_depth: matches.get_one::<usize>("dense-depth"),
        byte_classes: !is_given(matches, "no-byte-classes"),
    };
    Ok(Words {
        settings,
        text: is_given(matches, "text"),
        escapes: is_given(matches, "escapes"),
        stream: is_given(matches, "stream"),
        word: is_given(matches, "word"),
        mask,
        source: source_of(matches),
        patterns: values_of(alloc, matches, "pattern")?,
        replacements: values_of(alloc, matches, "replacement")?,
        files: files_of(alloc, matches)?,
        in_place: is_given(matches, "in-place"),
        count: is_given(matches, "count"),
        fail_if_none: is_given(matches, "fail-if-none"),
        check: is_given(matches, "check"),
        progress: is_given(matches, "progress"),
    })
}

// Where the rules are.
fn source_of<'a>(matches: &ArgMatches<'a>) -> Source<'a>
    requires { misuse_of (rows_in matches.now) ≡ None }
    ensures { IsRuleSource (rows_in matches.now) result }
{
    if has_values(matches, "pattern") {
        return Source::Given;
    }
    let path = text_of(matches, "rules").unwrap();
    if path == "-" && has_values(matches, "file") {
        Source::Input
    } else {
        Source::File(path)
    }
}

// The inputs: the words after the mode, but for the first where it names the rules.
fn files_of<'a>(alloc: Global, matches: &ArgMatches<'a>) -> Result<Vec<&'a str>, AllocError>
    ensures { IfOk result (λ files. texts files.items ≡ files_in (rows_in matches.now)) }
{
    let mut files = first_file(alloc, matches)?;
    let more = values_of(alloc, matches, "file")?;
    files.extend_from_slice(more.as_slice())?;
    Ok(files)
}

// The first word after the mode, where it names no rules.
fn first_file<'a>(alloc: Global, matches: &ArgMatches<'a>) -> Result<Vec<&'a str>, AllocError>
    ensures { IfOk result (λ files. texts files.items ≡ first_file (rows_in matches.now)) }
{
    if has_values(matches, "pattern") {
        values_of(alloc, matches, "rules")
    } else {
        Ok(Vec::new(alloc))
    }
}

// The values of an argument.
fn values_of<'a>(
    alloc: Global,
    matches: &ArgMatches<'a>,
    id: &str,
) -> Result<Vec<&'a str>, AllocError>
    ensures { IfOk result (λ values. texts values.items ≡ values_in id.now (rows_in matches.now)) }
{
    match matches.get_strs(id) {
        Some(values) => Vec::from_slice(alloc, values),
        None => Ok(Vec::new(alloc)),
    }
}

// How many values an argument has.
pub fn count_of(matches: &ArgMatches<'_>, id: &str) -> usize
    ensures { result ≡ length (values_in id.now (rows_in matches.now)) }
{
    match matches.get_strs(id) {
        Some(values) => values.len(),
        None => 0,
    }
}

// Whether an argument has a value.
fn has_values(matches: &ArgMatches<'_>, id: &str) -> bool
    ensures { result ≡ has_values id.now (rows_in matches.now) }
{
    count_of(matches, id) != 0
}

// The first value of an argument.
fn text_of<'a>(matches: &ArgMatches<'a>, id: &str) -> Option<&'a str>
    ensures { option_map (λ text. text.now) result ≡ first_of id.now (rows_in matches.now) }
{
    matches.get_str(id)
}

fn mode_of(matches: &ArgMatches<'_>) -> Option<Mode>
    ensures { result ≡ mode_of (rows_in matches.now) }
{
    mode_named(text_of(matches, "mode")?)
}

fn match_kind_of(matches: &ArgMatches<'_>) -> Option<MatchKind>
    ensures { result ≡ match_kind_of (rows_in matches.now) }
{
    kind_named(text_of(matches, "kind")?)
}

fn engine_of(matches: &ArgMatches<'_>) -> Option<Engine>
    ensures { result ≡ engine_of (rows_in matches.now) }
{
    engine_named(text_of(matches, "engine")?)
}

fn mode_named(word: &str) -> Option<Mode>
    ensures { result ≡ mode_named word.now }
{
    match word {
        "replace" => Some(Mode::Replace),
        "list" => Some(Mode::List),
        "overlap" | "mask" => Some(Mode::Overlap),
        _ => None,
    }
}

fn kind_named(word: &str) -> Option<MatchKind>
    ensures { result ≡ kind_named word.now }
{
    match word {
        "standard" => Some(MatchKind::Standard),
        "leftmost-first" => Some(MatchKind::LeftmostFirst),
        "leftmost-longest" => Some(MatchKind::LeftmostLongest),
        _ => None,
    }
}

fn engine_named(word: &str) -> Option<Engine>
    ensures { result ≡ engine_named word.now }
{
    match word {
        "auto" => Some(Engine::Auto),
        "noncontiguous" => Some(Engine::Noncontiguous),
        "contiguous" => Some(Engine::Contiguous),
        "dfa" => Some(Engine::Dfa),
        "packed" => Some(Engine::Packed),
        _ => None,
    }
}

// Whether the flag was given.
fn is_given(matches: &ArgMatches<'_>, id: &str) -> bool
    ensures { result ≡ is_given id.now (rows_in matches.now) }
{
    match text_of(matches, id) {
        Some(text) => text == "true",
        None => false,
    }
}

// The byte that masks, if the mode asks for one.
fn mask_of(matches: &ArgMatches<'_>) -> Result<Option<u8>, WordsFault>
    ensures { MatchResult result (IsMaskedBy (rows_in matches.now)) (Unmasks (rows_in matches.now)) }
{
    match (is_mode(matches, "mask"), text_of(matches, "with")) {
        (false, None) => Ok(None),
        (true, None) => Ok(Some(b'*')),
        (false, Some(_)) => Err(WordsFault::Bad),
        (true, Some(hex)) => Ok(Some(byte_of(hex)?)),
    }
}

// Whether the mode has this name.
fn is_mode(matches: &ArgMatches<'_>, name: &str) -> bool
    ensures { result ≡ is_mode name.now (rows_in matches.now) }
{
    match text_of(matches, "mode") {
        Some(text) => text == name,
        None => false,
    }
}

// The byte that hex spells.
fn byte_of(hex: &str) -> Result<u8, WordsFault>
    ensures { MatchResult result (λ byte. Spells hex.now (byte ∷ []))
        (λ fault. (fault ≡ WordsFault.Bad) × ((byte : ℕ) → ¬ Spells hex.now (byte ∷ []))) }
{
    let mut byte = [0u8; 1];
    match hex::decode_to_slice(hex.as_bytes(), &mut byte) {
        Ok(()) => Ok(byte[0]),
        Err(_) => Err(WordsFault::Bad),
    }
}

fn pairing_of(alloc: Global, matches: &ArgMatches<'_>) -> Result<Pairing, WordsFault>
    ensures { MatchResult result (IsPairedBy (rows_in matches.now)) (Unpairs (rows_in matches.now)) }
{
    match (is_given(matches, "fold"), text_of(matches, "pairs")) {
        (false, None) => Ok(Pairing::none()),
        (true, None) => Ok(Pairing::ascii()),
        (true, Some(_)) => Err(WordsFault::Bad),
        (false, Some(hex)) => {
            let pairs = pairs_of(alloc, hex)?;
            Pairing::new(pairs.as_slice()).map_err(WordsFault::Pairing)
        }
    }
}

// The pairs that hex spells.
fn pairs_of(alloc: Global, hex: &str) -> Result<Vec<(u8, u8)>, WordsFault>
    ensures { MatchResult result (λ pairs. SpellsPairs hex.now pairs.items) (Misspells hex.now) }
{
    let bytes = match hex::decode(alloc, hex.as_bytes()) {
        Ok(bytes) => bytes,
        Err(error) => return Err(fault_of_hex(error)),
    };
    let count = bytes.len();
    if count == 0 || count % 2 == 1 {
        return Err(WordsFault::Bad);
    }
    Ok(two_by_two(alloc, bytes.as_slice())?)
}

fn fault_of_hex(error: FromHexError) -> WordsFault
    ensures { result ≡ hex_fault error }
{
    match error {
        FromHexError::OutOfMemory => WordsFault::Memory,
        _ => WordsFault::Bad,
    }
}

// The bytes two by two, and one that is left over.
fn two_by_two(alloc: Global, bytes: &[u8]) -> Result<Vec<(u8, u8)>, AllocError>
    ensures { IfOk result (λ pairs. AreTwoByTwo bytes.now pairs.items) }
{
    let mut pairs = Vec::new(alloc);
    let mut rest = bytes;
    while let [a, b, more @ ..] = rest {
        pairs.push((*a, *b))?;
        rest = more;
    }
    Ok(pairs)
}
