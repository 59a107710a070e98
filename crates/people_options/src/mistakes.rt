//! Messages about words that are no command.
use crate::arguments::matches_of;
use clap::Error;
use clap::error::ErrorKind;
use std::alloc::{AllocError, Global};
use strsim::osa_distance;

/// The commands.
pub const COMMANDS: &[&str] = &[
    "show",
    "check",
    "to-per",
    "to-xml",
    "each-to-xml",
    "show-back",
    "trial",
];

// Returns the number of the command whose name is nearest to this word, by the least number of characters that are inserted, deleted,
// changed or swapped.
fn nearest_at(alloc: Global, word: &str) -> Result<usize, AllocError> {
    let mut least = usize::MAX;
    let mut found = 0;
    for at in 0..COMMANDS.len() {
        let distance = osa_distance(alloc, word, COMMANDS[at])?;
        if distance < least {
            least = distance;
            found = at;
        }
    }
    Ok(found)
}

// Returns the name of that command.
fn nearest(alloc: Global, word: &str) -> Result<&'static str, AllocError> {
    match COMMANDS.get(nearest_at(alloc, word)?) {
        Some(name) => Ok(*name),
        None => Ok("show"),
    }
}

/// Returns the help of a command; without a name, of the program.
pub fn help_of(alloc: Global, name: Option<&str>) -> Result<String, AllocError> {
    match name {
        Some(name) => reply_to(alloc, &["ruvkhiska", name, "--help"]),
        None => reply_to(alloc, &["ruvkhiska", "--help"]),
    }
}

// Returns the text with which words are replied to that make no call.
fn reply_to(alloc: Global, words: &[&str]) -> Result<String, AllocError> {
    match matches_of(alloc, words) {
        Ok(_) => Ok(String::new(alloc)),
        Err(reply) => match reply.kind() {
            ErrorKind::OutOfMemory => Err(AllocError),
            _ => reply.to_string(alloc),
        },
    }
}

// Returns the line of a command's help that shows how it is used.
fn usage_in(help: &str) -> &str {
    for line in help.lines() {
        if line.starts_with("Usage:") {
            return line;
        }
    }
    ""
}

// Replaces the line of the text that shows how the program is used.
fn with_usage(alloc: Global, text: &str, usage: &str) -> Result<String, AllocError> {
    let mut replaced = String::new(alloc);
    for line in text.lines() {
        let line = if line.starts_with("Usage:") {
            usage
        } else {
            line
        };
        replaced.push_str(line)?;
        replaced.push_str("\n")?;
    }
    Ok(replaced)
}

/// Returns the message about a mistake in these words. Its usage is that of the command whose name is nearest to the first word.
pub fn mistake(alloc: Global, error: &Error, words: &[String]) -> Result<String, AllocError> {
    let text = error.to_string(alloc)?;
    let is_of_command = matches!(
        error.kind(),
        ErrorKind::InvalidSubcommand | ErrorKind::InvalidValue
    );
    match words {
        [_, word, ..] if is_of_command => {
            let help = help_of(alloc, Some(nearest(alloc, word.as_str())?))?;
            with_usage(alloc, text.as_str(), usage_in(help.as_str()))
        }
        _ => Ok(text),
    }
}
