//! What is wrong with the rules that the arguments give.
use super::line_at;
use crate::args::Words;
use crate::given::rule_file;
use crate::rules::{RuleError, read_rules};
use std::alloc::{AllocError, Global};

/// The hint for the first pattern of `-e` that makes no rule. A TAB or a line break in it is bad words before that.
pub fn hint_for(alloc: Global, asked: &Words<'_>) -> Result<Option<String>, AllocError> {
    let file = rule_file(
        alloc,
        asked.patterns.as_slice(),
        asked.replacements.as_slice(),
    )?;
    let Err(RuleError::Line(number)) = read_rules(alloc, asked.form(), file.as_slice()) else {
        return Ok(None);
    };
    match line_at(file.as_slice(), number) {
        [b'\t' | b'\n', ..] => Ok(Some(format!(in alloc;
            "pattern {number} is empty; a pattern has a byte at least"
        )?)),
        [0xEF, 0xBB, 0xBF, ..] => Ok(Some(format!(in alloc;
            "pattern {number} begins with a byte order mark; give it as \\xEF\\xBB\\xBF with --escapes"
        )?)),
        _ => Ok(Some(format!(in alloc;
            "pattern {number} or its replacement has a backslash that is none of \\t, \\n, \\r, \\\\, \\0 and \\xHH; a backslash itself is \\\\"
        )?)),
    }
}
