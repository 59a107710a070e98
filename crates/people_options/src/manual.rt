//! The page of the manual, in the language of roff (man(7)), from the same help.
use crate::mistakes::{COMMANDS, help_of};
use clap::Error;
use std::alloc::{AllocError, Global};

const HEAD: &[&str] = &[
    ".TH RUVKHISKA 1",
    ".SH NAME",
    "ruvkhiska \\- XML documents of a schema as the few octets of canonical PER, or DER, and back",
    ".SH DESCRIPTION",
];

const TAIL: &[&str] = &[
    ".SH EXIT STATUS",
    ".nf",
    " 0  done",
    " 2  the words are no command",
    " 3  the text of a schema file is broken",
    " 4  a schema file is outside the profile",
    " 5  the schema files are no set",
    " 6  no global element is the root",
    " 7  the text of the document is broken",
    " 8  the document isn't valid",
    " 9  the octets are no encoding, or don't begin with the stamp",
    "10  bytes follow the encoding",
    "11  a file or the input is too long",
    "12  the value has too many nodes",
    "13  the octets are no encoding in DER",
    "14  the file is no printed module",
    "15  a record is no encoding",
    "20  a schema file can't be read",
    "21  the input can't be read",
    "22  the output can't be written",
    "30  out of memory",
    ".fi",
];

// Appends lines that are in the language already.
fn put_lines(page: &mut String, lines: &[&str]) -> Result<(), AllocError> {
    for line in lines {
        page.push_str(line)?;
        page.push_str("\n")?;
    }
    Ok(())
}

// Appends a line, with what roff would interpret escaped.
fn put_line(page: &mut String, line: &str) -> Result<(), AllocError> {
    if line.starts_with('.') || line.starts_with('\'') {
        page.push_str("\\&")?;
    }
    for c in line.chars() {
        match c {
            '\\' => page.push_str("\\e")?,
            '-' => page.push_str("\\-")?,
            _ => page.push(c)?,
        }
    }
    page.push('\n')
}

// Appends the help of a command, or of the program.
fn put_help(alloc: Global, page: &mut String, name: Option<&str>) -> Result<(), AllocError> {
    if let Some(name) = name {
        page.push_str(".SS ")?;
        put_line(page, name)?;
    }
    let help = help_of(alloc, name)?;
    page.push_str(".nf\n")?;
    for line in help.lines() {
        put_line(page, line)?;
    }
    page.push_str(".fi\n")
}

/// Returns the page.
pub fn manual_page(alloc: Global) -> Result<String, Error> {
    let mut page = String::new(alloc);
    put_lines(&mut page, HEAD)?;
    put_help(alloc, &mut page, None)?;
    page.push_str(".SH COMMANDS\n")?;
    for name in COMMANDS {
        put_help(alloc, &mut page, Some(name))?;
    }
    put_lines(&mut page, TAIL)?;
    Ok(page)
}
