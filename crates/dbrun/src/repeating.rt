//! Options that are given again when a session is resumed.

use crate::escaped::tell;
use crate::no_memory;
use crate::shown::Audience;
use command_words::RepeatedWords;
use file_commands::Status;
use journal_papers::JournalPaper;
use operator_desk::{RepeatedOption, first_different, page_word, value_begun};
use std::alloc::{AllocError, Global};
use std::fmt::Display;
use std::rt::Runtime;

/// Adds an option with its value.
fn add<D: Display>(
    alloc: Global,
    options: &mut Vec<RepeatedOption>,
    name: &'static str,
    value: &D,
) -> Result<(), AllocError> {
    let value = format!(in alloc; "{value}")?;
    options.push(RepeatedOption { name, value })?;
    Ok(())
}

/// Adds the options with a value that are given.
fn add_values(
    alloc: Global,
    options: &mut Vec<RepeatedOption>,
    words: &RepeatedWords<'_>,
) -> Result<(), AllocError> {
    if let Some(budget) = words.budget {
        add(alloc, options, "--budget", &budget)?;
    }
    if let Some(limit) = words.limit {
        add(alloc, options, "--limit", &limit.records())?;
    }
    if let Some(day) = words.day {
        add(alloc, options, "--today", &day)?;
    }
    if words.page.is_some() {
        add(alloc, options, "--from", &page_word(words.page))?;
    }
    if let Some(path) = words.save.backup {
        add(alloc, options, "--backup", &path)?;
    }
    Ok(())
}

/// The options that are given.
fn repeated_options(
    alloc: Global,
    words: &RepeatedWords<'_>,
) -> Result<Vec<RepeatedOption>, AllocError> {
    let mut options = Vec::new(alloc);
    add_values(alloc, &mut options, words)?;
    let flags = [
        ("--rehearse", words.rehearse),
        ("--only-finished", words.save.only_finished),
        ("--new-owner", words.save.new_owner),
        ("--no-lock", words.save.no_lock),
        ("--keep-unchanged", words.save.keep_unchanged),
    ];
    for (name, is_given) in flags {
        if is_given {
            add(alloc, &mut options, name, &"yes")?;
        }
    }
    Ok(options)
}

/// Whether the options that are given again have the values with which the session was begun, by the text `begun`. If
/// one has another value, both values are reported on standard error, and the status is that of wrong arguments.
pub fn is_repeated<R: Runtime<A = Global>>(
    rt: &R,
    audience: Audience,
    said: &JournalPaper,
    begun: &str,
    words: &RepeatedWords<'_>,
) -> Result<(), Status> {
    let Ok(options) = repeated_options(rt.alloc(), words) else {
        return Err(no_memory(rt));
    };
    let Some(place) = first_different(said, options.as_slice()) else {
        return Ok(());
    };
    if let Some(RepeatedOption { name, value }) = options.as_slice().get(place) {
        let then = match value_begun(said, name) {
            "" => "none",
            then => then,
        };
        tell(
            rt,
            audience,
            &format_args!(
                "error: {name} is {value} here, and {then} in {begun}; leave it out to resume the session"
            ),
        );
    }
    Err(Status::Words)
}
