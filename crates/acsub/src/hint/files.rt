//! What is wrong with the FILEs of a run.
use crate::args::{Source, Words};
use std::alloc::{AllocError, Global};
use std::fs;
use std::rt::Files;

/// The hint for the first FILE that is a folder, or beside `-e` may have been meant as RULES.
pub fn hint_for<F: Files>(
    rt: &F,
    alloc: Global,
    asked: &Words<'_>,
) -> Result<Option<String>, AllocError> {
    for path in asked.files.iter() {
        if *path != "-" {
            if let Some(hint) = hint_for_file(rt, alloc, asked, path)? {
                return Ok(Some(hint));
            }
        }
    }
    Ok(None)
}

/// What to do about a FILE that is a folder, or that isn't there and may have been meant as RULES.
fn hint_for_file<F: Files>(
    rt: &F,
    alloc: Global,
    asked: &Words<'_>,
    path: &str,
) -> Result<Option<String>, AllocError> {
    match fs::metadata(rt, path) {
        Ok(found) if found.is_dir() => Ok(Some(format!(in alloc;
            "{path} is a folder; name its files by a glob, or by find .. -exec acsub .. {{}} +"
        )?)),
        Ok(_) => Ok(None),
        Err(_) => match asked.source {
            Source::Given => Ok(Some(format!(in alloc;
                "beside -e there is no RULES, so {path} was taken for a FILE"
            )?)),
            _ => Ok(None),
        },
    }
}
