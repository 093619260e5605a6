//! Rules that the arguments give.
//!
//! They are read as a rule file of text, so what is no rule is found and named as in a file: pattern n is line n. A side with a TAB
//! or a line break would be read as another rule; the arguments are refused before ([`crate::args::misuse`]).
ghost use Rattle.std.specs.Prelude.{◌≡◌, ◌++◌, IfOk, drop};
ghost use Rattle.clap.specs.Walk.{texts};
ghost use Rattle.acsub.specs.Given.{HoldsGiven, given_file, given_rule};

use std::alloc::{AllocError, Global};

/// The rule file of text that the patterns of `-e` and the replacements of `-r` stand for. A pattern with no replacement stands alone.
pub fn rule_file(
    alloc: Global,
    patterns: &[&str],
    replacements: &[&str],
) -> Result<Vec<u8>, AllocError>
    ensures bytes { IfOk result (λ file. file.items ≡ given_file (texts patterns.now) (texts replacements.now)) }
    ensures rules { IfOk result (λ file. HoldsGiven (texts patterns.now) (texts replacements.now) file.items) }
{
    let mut file = Vec::new(alloc);
    let mut rest = patterns;
    let mut by = replacements;
    while let [pattern, more @ ..] = rest {
        push_rule(&mut file, pattern, by)?;
        rest = more;
        by = without_first(by);
    }
    Ok(file)
}

// Adds the line of a rule, whose replacement is the first of these, if there is one.
fn push_rule(file: &mut Vec<u8>, pattern: &str, replacements: &[&str]) -> Result<(), AllocError>
    ensures { IfOk result (λ _. file.new.items ≡ file.old.items ++ given_rule pattern.now (texts replacements.now)) }
{
    file.extend_from_slice(pattern.as_bytes())?;
    if let [replacement, ..] = replacements {
        file.push(b'\t')?;
        file.extend_from_slice(replacement.as_bytes())?;
    }
    file.push(b'\n')?;
    Ok(())
}

// All but the first.
fn without_first<'x, 'a>(texts: &'x [&'a str]) -> &'x [&'a str]
    ensures { result.now ≡ drop 1 texts.now }
{
    match texts {
        [_, more @ ..] => more,
        [] => texts,
    }
}
