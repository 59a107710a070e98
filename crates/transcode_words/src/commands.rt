//! The commands of the program for scripts.
ghost use Rattle.std.specs.Prelude.{◌≡◌, false, Some, option_map, IfOk};
ghost use Rattle.transcode_words.specs.Answers.{Answers, Never};
ghost use Rattle.transcode_words.specs.Asked.{IsWithin};
ghost use Rattle.transcode_words.specs.AskedSeen.{asked_seen};
ghost use Rattle.transcode_words.specs.Commands as command;
ghost use Rattle.transcode_words.specs.Order.{Found};

use crate::asked::{Asked, Form, Root, Task};
use crate::outcome::Outcome;
use crate::tasks::Syntax;
use crate::words::{are_files, count_of, rooted};
use base_texts::Text;

// Returns the task that writes encodings without a stamp.
fn send(syntax: Syntax) -> Option<Task>
    ensures { result ≡ Some (Task.Send syntax false) }
{
    let stamped = false;
    Some(Task::Send { syntax, stamped })
}

// Returns the task that writes documents of encodings without a stamp.
fn receive(syntax: Syntax) -> Option<Task>
    ensures { result ≡ Some (Task.Receive syntax false) }
{
    let stamped = false;
    Some(Task::Receive { syntax, stamped })
}

// Returns the task that the word names.
fn task_of(word: &[u8]) -> Option<Task>
    ensures { result ≡ command.task_of word.now }
{
    if word == b"check".as_slice() {
        Some(Task::Check)
    } else if word == b"to-per".as_slice() {
        send(Syntax::Aligned)
    } else if word == b"to-xml".as_slice() {
        receive(Syntax::Aligned)
    } else if word == b"to-per-u".as_slice() {
        send(Syntax::Unaligned)
    } else if word == b"to-xml-u".as_slice() {
        receive(Syntax::Unaligned)
    } else if word == b"to-der".as_slice() {
        send(Syntax::Der)
    } else if word == b"from-der".as_slice() {
        receive(Syntax::Der)
    } else if word == b"each-to-xml".as_slice() {
        Some(Task::Each)
    } else {
        None
    }
}

// Returns the task with the root and the files that the words name.
fn served_by(words: &[Text], task: Task) -> Option<Asked<'_>>
    ensures { option_map asked_seen result ≡ command.served_by words.now task }
{
    let (name, files) = rooted(words)?;
    let root = Root::Named(name);
    Some(Asked::Serve { task, root, files })
}

fn shown_by(files: &[Text]) -> Option<Asked<'_>>
    ensures { option_map asked_seen result ≡ command.shown_by files.now }
{
    if are_files(files) {
        let form = Form::Notation;
        Some(Asked::Show { form, files })
    } else {
        None
    }
}

fn shown_back_by(words: &[Text]) -> Option<Asked<'_>>
    ensures { option_map asked_seen result ≡ command.shown_back_by words.now }
{
    match words {
        [file] => Some(Asked::ShowBack { file }),
        _ => None,
    }
}

fn tried_by(words: &[Text]) -> Option<Asked<'_>>
    ensures { option_map asked_seen result ≡ command.tried_by words.now }
{
    match words {
        [word] => count_of(word.bytes()).map(|lines| Asked::Trial { lines }),
        _ => None,
    }
}

// Returns the request that the words make.
fn asked_by(words: &[Text]) -> Option<Asked<'_>>
    ensures { option_map asked_seen result ≡ command.asked_by words.now }
{
    let (command, words) = words.split_first()?;
    let command = command.bytes();
    if command == b"show".as_slice() {
        shown_by(words)
    } else if command == b"show-back".as_slice() {
        shown_back_by(words)
    } else if command == b"trial".as_slice() {
        tried_by(words)
    } else {
        match task_of(command) {
            Some(task) => served_by(words, task),
            None => None,
        }
    }
}

/// Returns the request that the words make, or `Usage`.
pub fn read_asked(words: &[Text]) -> Result<Asked<'_>, Outcome>
    ensures due { Answers asked_seen (Found (command.asked_by words.now) Outcome.Usage) Never result }
    ensures within { IfOk result (λ asked. IsWithin (asked_seen asked)) }
{
    asked_by(words).ok_or(Outcome::Usage)
}
