//! The text of a complaint.
ghost use Rattle.std.specs.Prelude.{◌≡◌, ◌++◌, [], IfOk, OnOk, option_map, unwrap_or, string_bytes};
ghost use Rattle.transcode_words.specs.declared.outcome.Outcome.TheVariants.{UnknownRoot};
ghost use Rattle.transcode_words.specs.Status.{IsNamed};
ghost use Rattle.people_complaints.specs.Complaints.{IsComplaint, IsWithin, explained};
ghost use Rattle.people_complaints.specs.Subjects.{program};

use crate::paths::path_at;
use crate::places::place_of;
use base_texts::{Memory, Name, Reason};
use std::alloc::{AllocError, Global};
use transcode_words::Outcome;

/// A text that a complaint is about.
#[derive(Clone, Copy)]
pub struct NamedText<'a> {
    pub name: &'a str,
    pub contents: &'a [u8],
}

fn put_three(text: &mut String, first: &str, second: &str, third: &str) -> Result<(), AllocError>
    ensures { OnOk result (string_bytes text.new ≡ string_bytes text.old ++ first.now ++ second.now ++ third.now) }
{
    text.push_str(first)?;
    text.push_str(second)?;
    text.push_str(third)
}

// Appends what follows a place.
fn put_reason(
    text: &mut String,
    reason: Reason,
    within: &str,
    excerpt: &str,
) -> Result<(), AllocError>
    ensures { OnOk result (string_bytes text.new ≡ string_bytes text.old ++ explained reason.name.now within.now reason.means.now excerpt.now reason.remedy.now) }
{
    put_three(text, ": ", reason.name, ": ")?;
    put_three(text, within, reason.means, "\n")?;
    put_three(text, excerpt, "help: ", reason.remedy)?;
    text.push_str("\n")?;
    Ok(())
}

// Returns the words with the path to the element of a document that isn't valid.
fn within(alloc: Global, outcome: Outcome, contents: &[u8]) -> Result<String, Memory>
    ensures { IfOk result (λ within. IsWithin outcome contents.now (string_bytes within)) }
{
    let mut text = String::new(alloc);
    let Outcome::Invalid { at, .. } = outcome else {
        return Ok(text);
    };
    let path = path_at(alloc, contents, at)?;
    if path.is_empty() {
        return Ok(text);
    }
    put_three(&mut text, "in ", path.as_str(), ": ")?;
    Ok(text)
}

// Returns the complaint about the outcome, with this row of its reason.
fn compose(
    alloc: Global,
    outcome: Outcome,
    reason: Reason,
    about: NamedText<'_>,
) -> Result<String, Memory>
    requires { IsNamed outcome reason.name.now }
    ensures { IfOk result (λ text. IsComplaint outcome about.entry.name.now about.entry.contents.now (string_bytes text)) }
{
    let place = place_of(alloc, outcome, about.contents)?;
    let within = within(alloc, outcome, about.contents)?;
    let mut text = String::from_str(alloc, about.name)?;
    text.push_str(place.text.as_str())?;
    put_reason(&mut text, reason, within.as_str(), place.excerpt.as_str())?;
    Ok(text)
}

/// Returns the complaint about an outcome, which is about this text: the name of the text, the place, the reason and a remedy. If the
/// place is a byte of the contents, it is a line and a column, and the line is shown.
pub fn complaint(alloc: Global, outcome: Outcome, about: NamedText<'_>) -> Result<String, Memory>
    ensures { IfOk result (λ text. IsComplaint outcome about.entry.name.now about.entry.contents.now (string_bytes text)) }
{
    compose(alloc, outcome, outcome.reason(), about)
}

// The row of a request without a root, where the set hasn't exactly one global element.
const NO_ROOT: Reason = Reason {
    name: "UnknownRoot",
    means: "no root is given, and the schemas don't have exactly one global element",
    remedy: "--root with one of the names below",
};

// Appends a line with the name of a root.
fn put_root(text: &mut String, name: &Name) -> Result<(), AllocError> {
    let space = name.space.as_str();
    text.push_str("  --root '")?;
    if !space.is_empty() {
        put_three(text, "{", space, "}")?;
    }
    text.push_str(name.local.as_str())?;
    text.push_str("'\n")
}

// Returns a line for each of the roots.
fn root_lines(alloc: Global, names: &[Name]) -> Result<String, Memory> {
    let mut text = String::new(alloc);
    for name in names {
        put_root(&mut text, name)?;
    }
    Ok(text)
}

// Returns what the complaint about a root is about, and its reason.
fn root_row(root: Option<&str>) -> (&str, Reason)
    ensures name { result.0.now ≡ unwrap_or (option_map (λ name. name.now) root.entry) program }
    ensures reason { IsNamed UnknownRoot result.1.name.now }
{
    match root {
        Some(name) => (name, Outcome::UnknownRoot.reason()),
        None => ("ruvkhiska", NO_ROOT),
    }
}

// Returns a text with this name and without contents.
fn titled(name: &str) -> NamedText<'_>
    ensures name { result.name.now ≡ name.now }
    ensures contents { result.contents.now ≡ [] }
{
    NamedText {
        name,
        contents: b"",
    }
}

/// Returns the complaint about the root with this name, or about the lack of a root, with the names of the roots that there are.
pub fn root_complaint(alloc: Global, root: Option<&str>, names: &[Name]) -> Result<String, Memory>
    ensures { IfOk result (λ text. IsComplaint UnknownRoot (unwrap_or (option_map (λ name. name.now) root.entry) program) [] (string_bytes text)) }
{
    let (name, reason) = root_row(root);
    let lines = root_lines(alloc, names)?;
    let about = titled(name);
    let mut text = compose(alloc, Outcome::UnknownRoot, reason, about)?;
    text.push_str(lines.as_str())?;
    Ok(text)
}
