//! The transfer syntaxes, by the names at `-t`.
use std::alloc::{AllocError, Global};
use transcode_words::Syntax;

// A further one is a row here.
const SYNTAXES: &[(&str, Syntax)] = &[
    ("per", Syntax::Aligned),
    ("uper", Syntax::Unaligned),
    ("der", Syntax::Der),
];

/// Returns the syntax of this name.
pub fn syntax_named(name: &str) -> Option<Syntax> {
    SYNTAXES.iter().find(|row| row.0 == name).map(|row| row.1)
}

/// Returns the message about a name that no syntax has.
pub fn wrong_syntax(alloc: Global, name: &str) -> Result<String, AllocError> {
    let mut message = String::from_str(alloc, "no syntax has the name '")?;
    message.push_str(name)?;
    message.push_str("' [possible values:")?;
    for (known, _) in SYNTAXES {
        message.push_str(" ")?;
        message.push_str(known)?;
    }
    message.push_str("]")?;
    Ok(message)
}
