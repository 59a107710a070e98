//! Writing the complaint about an outcome.
ghost use Rattle.std.specs.Prelude.{IfOk, string_bytes};
ghost use Rattle.people_complaints.specs.Complaints.{Complains, IsComplaintOf};
ghost use Rattle.people_complaints.specs.Subjects.{Texts, texts_seen};

use crate::composing::{complaint, root_complaint};
use crate::roots::global_names;
use crate::subjects::Subjects;
use base_texts::{Memory, Sink, write_all};
use std::alloc::Global;
use transcode_words::{Outcome, write_line};

// Returns the complaint about an outcome of a request with these texts.
fn complaint_of(alloc: Global, outcome: Outcome, subjects: Subjects<'_>) -> Result<String, Memory>
    ensures { IfOk result (λ text. IsComplaintOf (texts_seen subjects.entry) outcome (string_bytes text)) }
{
    if let Outcome::UnknownRoot = outcome {
        let names = global_names(alloc, subjects.loaded)?;
        return root_complaint(alloc, subjects.root, &names);
    }
    complaint(alloc, outcome, subjects.of(outcome))
}

/// Writes the line of the program for scripts about an outcome of a request with any texts.
pub fn complain_line<E: Sink>(outcome: Outcome, to: &mut E)
    ensures { (texts : Texts) → Complains texts outcome (E.written to.old) (E.written to.new) (E.faults to.old) (E.faults to.new) }
{
    // The outcome remains the same if this fails.
    let _ = write_line(&outcome, to);
}

/// Writes the complaint about an outcome of a request with these texts. Without memory for it, writes the line of the program for scripts.
pub fn complain<E: Sink>(alloc: Global, outcome: Outcome, subjects: Subjects<'_>, to: &mut E)
    ensures { Complains (texts_seen subjects.entry) outcome (E.written to.old) (E.written to.new) (E.faults to.old) (E.faults to.new) }
{
    let Ok(text) = complaint_of(alloc, outcome, subjects) else {
        return complain_line(outcome, to);
    };
    // The outcome remains the same if this fails.
    let _ = write_all(to, text.as_bytes());
}

/// Writes a message about words that make no request. If it is empty, writes the line of the program for scripts.
pub fn complain_usage<E: Sink>(message: &str, to: &mut E)
    ensures { (texts : Texts) → Complains texts Outcome.Usage (E.written to.old) (E.written to.new) (E.faults to.old) (E.faults to.new) }
{
    if message.is_empty() {
        return complain_line(Outcome::Usage, to);
    }
    // The outcome remains the same if this fails.
    let _ = write_all(to, message.as_bytes());
}
