//! Reads rule files of `acsub`. How a line of hex is read stands here, one of plain text in [`text`], and one with escapes in
//! [`escapes`].
//!
//! In a rule file of hex each line is `pattern TAB replacement LF`, two digits of either case a byte on both sides.
//! Either side may be empty. Anything else, as CR, a space, an empty line, a third column or a last line without LF,
//! makes the line a bad one.
//!
//! The file is read twice. The first pass looks for a bad line and counts the rules. It takes no memory, so which line is
//! reported never depends on memory. The second pass runs only over a rule file. It decodes or copies the sides, and fails only
//! where it is out of memory. Each pass looks at each byte a few times and never goes back.
ghost use Rattle.std.specs.Prelude.{◌≡◌, ◌↔◌, ◌==◌, ◌<◌, ℕ, List, length, Contains, IsTrue, IfNone, IfOk, IfErr, IfSome, MatchResult};
ghost use Rattle.ac_input.specs.Laws.{AreOne};
ghost use Rattle.ac_input.specs.Rules.{Rule};
ghost use Rattle.acsub.specs.Rules.File.{ReadsRules, asked_form, grammar_of, hex_rules};
ghost use Rattle.acsub.specs.Rules.Lines.{BeginsWithLine, FindsLine, HasCount, IsSpelling, IsSplitAt, SpellsRule, rule_at};
ghost use Rattle.ac_literal.specs.Packed.{bytes_of};
ghost use Rattle.acsub.specs.Rules.Sides.{rule_of, rule_patterns, replacements_of};
ghost use Rattle.acsub.specs.declared.rules.Form.{Form};
ghost use Rattle.acsub.specs.declared.rules.RuleError.TheVariants.{Memory};

use memchr::memchr;
use std::alloc::{AllocError, AllocFailed, Global};
use std::error::Error;
use std::fmt;
use std::marker::Model;

mod escapes;
mod text;

use crate::rules::escapes::{first_escaped, unescape};
use crate::rules::text::{first_in_text, first_line_has, is_foreign};

/// How a rule file is written.
#[derive(Clone, Copy)]
pub enum Form {
    /// Each byte as two hex digits.
    Hex,
    /// As plain text.
    Text,
    /// As plain text in which a backslash begins an escape.
    Escaped,
}

impl Form {
    /// The form that is asked for: text, and then with escapes, or hex.
    pub fn of(text: bool, escapes: bool) -> Form
        ensures { result ≡ asked_form text escapes }
    {
        match (text, escapes) {
            (true, true) => Form::Escaped,
            (true, false) => Form::Text,
            (false, _) => Form::Hex,
        }
    }
}

/// Why bytes were not read as a rule file.
#[derive(Clone, Copy, Debug)]
pub enum RuleError {
    /// The first line that is no rule, counted from 1.
    Line(usize),
    /// The bytes are a rule file, but there is not the memory to keep its rules.
    Memory,
}

impl fmt::Display for RuleError {
    ghost use Rattle.std.specs.Prelude.{Some};
    ghost use Rattle.acsub.specs.Rules.File.{rule_text};

    ghost output = { λ error. Some (rule_text error) };

    fn fmt<W: fmt::Write>(&self, f: &mut fmt::Formatter<W>) -> fmt::Result {
        match self {
            RuleError::Line(line) => write!(f, "line {line}"),
            RuleError::Memory => write!(f, "out of memory"),
        }
    }
}

impl Error for RuleError {}

impl From<AllocError> for RuleError {
    ghost from_gives = { λ _ e. e ≡ Memory };

    fn from(_e: AllocError) -> RuleError {
        RuleError::Memory
    }
}

impl<T: Drop> From<AllocFailed<T>> for RuleError {
    ghost from_gives = { λ _ e. e ≡ Memory };

    fn from(_e: AllocFailed<T>) -> RuleError {
        RuleError::Memory
    }
}

/// A rule, decoded.
#[derive(Drop)]
struct Sides {
    pattern: Vec<u8>,
    replacement: Vec<u8>,
}

/// The rules of a file, in the order of its lines. A rule is known by its number, which counts from 0.
#[derive(Drop)]
pub struct Rules {
    sides: Vec<Sides>,
}

impl Model for Rules {
    ghost use Rattle.std.specs.Prelude.{ℕ, List};
    ghost use Rattle.acsub.specs.Rules.Sides.{rules_of};

    ghost Value = { List (List ℕ × List ℕ) };

    ghost view = { λ r. rules_of r.sides.items };
}

impl Rules {
    /// How many rules there are.
    pub fn len(&self) -> usize
        ensures { result ≡ length self.now }
    {
        self.sides.len()
    }

    /// Whether there are no rules, as in an empty file.
    pub fn is_empty(&self) -> bool
        ensures { result ≡ (length self.now == 0) }
    {
        self.sides.is_empty()
    }

    /// The bytes that a rule looks for.
    pub fn pattern(&self, i: usize) -> &[u8]
        requires { i < length self.now }
        ensures { result.now ≡ (rule_at self.now i).0 }
    {
        self.sides[i].pattern.as_slice()
    }

    /// All patterns in their order, as slices. It takes memory for the slices alone.
    pub fn patterns(&self, alloc: Global) -> Result<Vec<&[u8]>, AllocError>
        ensures { IfOk result (λ patterns. bytes_of patterns.items ≡ rule_patterns self.now) }
    {
        let mut patterns = Vec::with_capacity(alloc, self.len())?;
        for sides in &self.sides {
            patterns.push(sides.pattern.as_slice())?;
        }
        Ok(patterns)
    }

    /// All replacements in the order of their patterns, as slices. It takes memory for the slices alone.
    pub fn replacements(&self, alloc: Global) -> Result<Vec<&[u8]>, AllocError>
        ensures { IfOk result (λ sides. bytes_of sides.items ≡ replacements_of self.now) }
    {
        let mut replacements = Vec::with_capacity(alloc, self.len())?;
        for sides in &self.sides {
            replacements.push(sides.replacement.as_slice())?;
        }
        Ok(replacements)
    }

    /// The bytes that a rule puts in their place.
    pub fn replacement(&self, i: usize) -> &[u8]
        requires { i < length self.now }
        ensures { result.now ≡ (rule_at self.now i).1 }
    {
        self.sides[i].replacement.as_slice()
    }
}

/// The law of rule files: in each form a file has one list of rules at most, one first bad line at most, and not both.
pub fn grammars_are_one()
    ensures { (form : Form) → AreOne (grammar_of form).holds (grammar_of form).bad }
{}

/// The rules of a rule file of this form.
///
/// The work is linear in the bytes. Takes memory for the rules and nothing else, and none where a line is bad.
pub fn read_rules(alloc: Global, form: Form, bytes: &[u8]) -> Result<Rules, RuleError>
    ensures { ReadsRules form bytes.now result }
{
    match count_rules(form, bytes) {
        Ok(count) => keep_rules(alloc, form, bytes, count),
        Err(line) => Err(RuleError::Line(line)),
    }
}

/// The number of rules, or the number of the first bad line.
fn count_rules(form: Form, bytes: &[u8]) -> Result<usize, usize>
    ensures { MatchResult result (HasCount form bytes.now) ((grammar_of form).bad bytes.now) }
{
    if refuses(form, bytes) {
        return Err(1);
    }
    let tabbed = first_line_has(bytes, b'\t');
    let mut count = 0;
    let mut rest = bytes;
    while let Some(line) = first_rule(form, tabbed, rest) {
        count += 1;
        rest = line.rest;
    }
    if rest.is_empty() {
        Ok(count)
    } else {
        Err(count + 1)
    }
}

/// Whether the file holds no rules in this form, whatever its lines.
fn refuses(form: Form, bytes: &[u8]) -> bool
    ensures { IsTrue result ↔ (grammar_of form).foreign bytes.now }
{
    match form {
        Form::Hex => false,
        Form::Text | Form::Escaped => is_foreign(bytes),
    }
}

/// The rules of bytes that are known to be a rule file, of which there are `count`.
fn keep_rules(alloc: Global, form: Form, bytes: &[u8], count: usize) -> Result<Rules, RuleError>
    requires { HasCount form bytes.now count }
    ensures rules { IfOk result ((grammar_of form).holds bytes.now) }
    ensures memory { IfErr result (λ e. e ≡ RuleError.Memory) }
{
    let tabbed = first_line_has(bytes, b'\t');
    let mut sides = Vec::with_capacity(alloc, count)?;
    let mut rest = bytes;
    while let Some(line) = first_rule(form, tabbed, rest) {
        sides.push(keep_line(alloc, form, &line)?)?;
        rest = line.rest;
    }
    Ok(Rules { sides })
}

/// A rule as it is written, and what follows its line.
#[derive(Clone, Copy)]
struct RuleLine<'a> {
    pattern: &'a [u8],
    replacement: &'a [u8],
    rest: &'a [u8],
}

/// The rule that what is left of a file begins with, as it is written. Lines of text have a TAB exactly if they are `tabbed`.
fn first_rule(form: Form, tabbed: bool, bytes: &[u8]) -> Option<RuleLine<'_>>
    ensures { FindsLine (grammar_of form) tabbed bytes.now result }
{
    match form {
        Form::Hex => first_in_hex(bytes),
        Form::Text => first_in_text(bytes, tabbed),
        Form::Escaped => first_escaped(bytes, tabbed),
    }
}

/// The rule of hex that the bytes begin with.
fn first_in_hex(bytes: &[u8]) -> Option<RuleLine<'_>>
    ensures { (file : List ℕ) → BeginsWithLine hex_rules file bytes.now result }
{
    let (pattern, after) = split_at_byte(bytes, b'\t')?;
    let (replacement, rest) = split_at_byte(after, b'\n')?;
    if is_spelling(pattern) && is_spelling(replacement) {
        Some(RuleLine {
            pattern,
            replacement,
            rest,
        })
    } else {
        None
    }
}

/// What stands before the first such byte, and what after it.
fn split_at_byte(bytes: &[u8], separator: u8) -> Option<(&[u8], &[u8])>
    ensures none { IfNone result (¬ Contains bytes.now separator) }
    ensures some { IfSome result (λ parts. IsSplitAt bytes.now separator parts.0.now parts.1.now) }
{
    let at = memchr(separator, bytes)?;
    Some((&bytes[..at], &bytes[at + 1..]))
}

/// Whether a side is hex digits, two a byte.
fn is_spelling(text: &[u8]) -> bool
    ensures { IsTrue result ↔ IsSpelling text.now }
{
    text.len() % 2 == 0 && text.iter().all(|digit| digit.is_ascii_hexdigit())
}

/// Both sides of a line, as bytes of their own.
fn keep_line(alloc: Global, form: Form, line: &RuleLine<'_>) -> Result<Sides, RuleError>
    requires { (rule : Rule) × SpellsRule (grammar_of form) line.now rule }
    ensures sides { IfOk result (λ sides. SpellsRule (grammar_of form) line.now (rule_of sides)) }
    ensures memory { IfErr result (λ e. e ≡ RuleError.Memory) }
{
    Ok(Sides {
        pattern: keep_side(alloc, form, line.pattern)?,
        replacement: keep_side(alloc, form, line.replacement)?,
    })
}

/// The bytes that a side stands for.
fn keep_side(alloc: Global, form: Form, side: &[u8]) -> Result<Vec<u8>, RuleError>
    requires { (bytes : List ℕ) × (grammar_of form).spells side.now bytes }
    ensures side { IfOk result (λ bytes. (grammar_of form).spells side.now bytes.items) }
    ensures memory { IfErr result (λ e. e ≡ RuleError.Memory) }
{
    match form {
        // The side is known to be hex, so memory is all that can fail.
        Form::Hex => hex::decode(alloc, side).map_err(|_| RuleError::Memory),
        Form::Text => Ok(Vec::from_slice(alloc, side)?),
        Form::Escaped => Ok(unescape(alloc, side)?),
    }
}
