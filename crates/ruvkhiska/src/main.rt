//! Is the program for people, `bin/ruvkhiska`: commands with options, files by name, and explained faults.
//!
//! Read first: `specs/Runs`, then `run` below; `specs/Requests` of `people_options`, `specs/Subjects` and `specs/Complaints` of
//! `people_complaints`.
#![tactic(auto)]

ghost use Rattle.std.specs.Prelude.{◌≡◌, ℕ, [], IfOk, IfErr};
ghost use Rattle.std.specs.Process.{exit_status};
ghost use Rattle.transcode_words.specs.Asked.{IsWithin, files_of};
ghost use Rattle.transcode_words.specs.AskedSeen.{asked_seen};
ghost use Rattle.transcode_words.specs.Status.{status};
ghost use Rattle.people_options.specs.Kept.{files_kept, input_kept};
ghost use Rattle.people_complaints.specs.Subjects.{texts_seen};
ghost use Rattle.people_results.specs.Serving.{Serves, failed};
ghost use Rattle.transcode_words.specs.declared.outcome.Outcome.{Outcome as CodeOutcome};
ghost use Rattle.ruvkhiska.specs.Runs.{EndsAsked, EndsCall, EndsPage, IsNoCommand, Reports, ReportsAlone, Runs, received, texts_of};

use base_files::Writing;
use base_texts::{Failed, Memory, Sink, Text, write_all};
use people_complaints::{Subjects, complain, complain_line, complain_usage};
use people_options::{
    Call, CommandName, Input, LoadedFiles, Output, Parsed, Progress, manual_page, no_request,
    parse_words,
};
use people_results::answer_in;
use std::alloc::Global;
use std::io::{self, IsTerminal};
use std::process::ExitCode;
use std::{env, slice};
use transcode_words::Outcome;
use transcode_words::asked::Asked;

// Reads the words. The first is the program's name.
fn read_words(rt: &HostRuntime) -> Result<Vec<String>, Outcome>
    ensures { IfErr result IsNoCommand }
{
    match env::args(rt) {
        Ok(args) => args.collect(rt.alloc()).map_err(|_| Outcome::OutOfMemory),
        Err(error) if error.kind() == io::ErrorKind::OutOfMemory => Err(Outcome::OutOfMemory),
        Err(_) => Err(Outcome::Usage),
    }
}

// Returns the names of the files of the request.
fn names_of<'a>(asked: Asked<'a>) -> &'a [Text]
    ensures { result.now ≡ files_of (asked_seen asked.entry) }
{
    match asked {
        Asked::Show { files, .. } | Asked::Serve { files, .. } => files,
        Asked::ShowBack { file } => slice::from_ref(file),
        Asked::Trial { .. } => &[],
    }
}

// Returns whether the command reads octets, which have no lines.
fn reads_octets(command: CommandName) -> bool {
    matches!(command, CommandName::ToXml | CommandName::EachToXml)
}

// Returns whether the command reads the input.
fn reads_input(command: CommandName) -> bool {
    matches!(
        command,
        CommandName::Check | CommandName::ToPer | CommandName::ToXml | CommandName::EachToXml
    )
}

// Returns whether the terminal shows how much was read. It doesn't if the input is typed there.
fn is_watched(rt: &HostRuntime, call: &Call<'_>) -> bool {
    let is_typed = call.given.input.is_none() && rt.stdin().is_terminal();
    rt.stderr().is_terminal() && !(reads_input(call.command) && is_typed)
}

fn input_of<'a>(
    rt: &'a HostRuntime,
    call: &Call<'_>,
    progress: &'a Progress<'a, HostRuntime>,
) -> Result<Input<'a, HostRuntime>, Memory>
    ensures { IfOk result (λ input. input.faults ≡ 0) }
{
    let keeps = !reads_octets(call.command);
    match call.given.input {
        Some(name) => Input::file(rt.alloc(), rt, name, progress, keeps),
        None => Input::standard(rt.alloc(), rt.stdin(), progress, keeps),
    }
}

fn output_of<'a>(
    rt: &'a HostRuntime,
    call: &Call<'a>,
    progress: &'a Progress<'a, HostRuntime>,
) -> Output<'a, HostRuntime>
    ensures { result.faults ≡ 0 }
{
    match call.given.output {
        Some(name) => {
            let is_whole = !matches!(call.command, CommandName::EachToXml);
            Output::file(rt.alloc(), rt, name, is_whole, progress)
        }
        None => {
            let notes = matches!(call.command, CommandName::ToPer)
                && rt.stdout().is_terminal()
                && rt.stderr().is_terminal();
            let note = if notes { Some(rt.stderr()) } else { None };
            Output::standard(rt.stdout(), note, progress)
        }
    }
}

// Answers the request, and completes the output.
fn finish<'a>(
    alloc: Global,
    asked: Asked<'_>,
    files: &mut LoadedFiles<'a, HostRuntime>,
    input: &mut Input<'a, HostRuntime>,
    output: &mut Output<'a, HostRuntime>,
) -> Outcome
    requires within { IsWithin (asked_seen asked) }
    requires named { files.old.names.now ≡ files_of (asked_seen asked) }
    ensures { (steps : ℕ) × Serves (asked_seen asked.entry)
        (failed files.old.names.now files.old.folder.faults input.old.faults output.old.faults 0)
        (failed files.new.names.now files.new.folder.faults input.new.faults output.new.faults steps) result }
{
    let answered = answer_in(alloc, asked, files, input, output);
    output.finish(answered)
}

// Returns the texts of a call with files of these names, before their contents are kept.
fn subjects_of<'a>(call: &'a Call<'_>, names: &'a [Text]) -> Subjects<'a>
    ensures { texts_seen result ≡ texts_of call.now names.now [] [] }
{
    Subjects {
        files: names,
        loaded: &[],
        root: call.root_name(),
        input: call.given.input,
        read: b"",
        output: call.given.output,
    }
}

// Returns the same texts with what is kept of the files and of the input.
fn subjects_in<'a>(
    call: &'a Call<'_>,
    names: &'a [Text],
    files: &'a LoadedFiles<'_, HostRuntime>,
    input: &'a Input<'_, HostRuntime>,
) -> Subjects<'a>
    ensures { texts_seen result ≡ texts_of call.now names.now (files_kept files.now.kept) (input_kept input.now.kept) }
{
    Subjects {
        loaded: files.kept(),
        read: input.kept(),
        ..subjects_of(call, names)
    }
}

// Writes the complaint about an outcome, unless it is `Done`.
fn report<E: Sink>(alloc: Global, outcome: Outcome, subjects: Subjects<'_>, to: &mut E)
    ensures { Reports (texts_seen subjects.entry) outcome (received E.Sink to.old) (received E.Sink to.new) }
{
    if !matches!(outcome, Outcome::Done) {
        complain(alloc, outcome, subjects, to);
    }
}

// Answers the request of the call, and writes the complaint about it.
fn serve<'a, E: Sink>(
    rt: &'a HostRuntime,
    call: &'a Call<'a>,
    asked: Asked<'a>,
    progress: &'a Progress<'a, HostRuntime>,
    to: &mut E,
) -> Outcome
    requires { IsWithin (asked_seen asked) }
    ensures { EndsAsked call.entry.now (asked_seen asked.entry) result (received E.Sink to.old) (received E.Sink to.new) }
{
    let alloc = rt.alloc();
    let names = names_of(asked);
    let Ok(mut input) = input_of(rt, call, progress) else {
        report(alloc, Outcome::OutOfMemory, subjects_of(call, names), to);
        return Outcome::OutOfMemory;
    };
    let mut files = LoadedFiles::new(alloc, rt, names, progress);
    let mut output = output_of(rt, call, progress);
    let outcome = finish(alloc, asked, &mut files, &mut input, &mut output);
    progress.end();
    report(alloc, outcome, subjects_in(call, names, &files, &input), to);
    outcome
}

// Writes the complaint about words or options that make no request.
fn refuse<E: Sink>(message: &str, to: &mut E) -> Outcome
    ensures same { result ≡ Outcome.Usage }
    ensures reports { ReportsAlone result (received E.Sink to.old) (received E.Sink to.new) }
{
    complain_usage(message, to);
    Outcome::Usage
}

// Writes the line of an outcome that is about no text.
fn end_with<E: Sink>(outcome: Outcome, to: &mut E) -> Outcome
    ensures same { result ≡ outcome }
    ensures reports { ReportsAlone result (received E.Sink to.old) (received E.Sink to.new) }
{
    complain_line(outcome, to);
    outcome
}

// Makes the request of the call, and answers it.
fn run_call<E: Sink>(rt: &HostRuntime, call: &Call<'_>, words: &[String], to: &mut E) -> Outcome
    ensures { EndsCall call.now result (received E.Sink to.old) (received E.Sink to.new) }
{
    let asked = match call.request() {
        Ok(asked) => asked,
        Err(_) => {
            return match no_request(rt.alloc(), call.command, words) {
                Ok(message) => refuse(message.as_str(), to),
                Err(_) => end_with(Outcome::OutOfMemory, to),
            };
        }
    };
    let progress = Progress::new(rt, rt.stderr(), "bytes read", is_watched(rt, call));
    serve(rt, call, asked, &progress, to)
}

// Writes a text that was requested.
fn write_text<E: Sink>(rt: &HostRuntime, text: &str, to: &mut E) -> Outcome
    ensures page { EndsPage result }
    ensures reports { ReportsAlone result (received E.Sink to.old) (received E.Sink to.new) }
{
    match write_all(&mut Writing::new(rt.stdout()), text.as_bytes()) {
        Ok(()) => Outcome::Done,
        Err(Failed) => end_with(Outcome::WriteFault, to),
    }
}

// Writes the manual page.
fn write_manual<E: Sink>(rt: &HostRuntime, to: &mut E) -> Outcome
    ensures page { EndsPage result }
    ensures reports { ReportsAlone result (received E.Sink to.old) (received E.Sink to.new) }
{
    match manual_page(rt.alloc()) {
        Ok(page) => write_text(rt, page.as_str(), to),
        Err(_) => end_with(Outcome::OutOfMemory, to),
    }
}

// Does what the words request. The first is the program's name.
fn run_words<E: Sink>(rt: &HostRuntime, words: &[String], to: &mut E) -> Outcome
    ensures { Runs result (received E.Sink to.old) (received E.Sink to.new) }
{
    match parse_words(rt.alloc(), words) {
        Ok(Parsed::Call(call)) => run_call(rt, &call, words, to),
        Ok(Parsed::Manual) => write_manual(rt, to),
        Ok(Parsed::Help(text)) => write_text(rt, text.as_str(), to),
        Ok(Parsed::Mistake(text)) => refuse(text.as_str(), to),
        Err(_) => end_with(Outcome::OutOfMemory, to),
    }
}

// Does what the words of the command line request.
fn run_command_line<E: Sink>(rt: &HostRuntime, to: &mut E) -> Outcome
    ensures { Runs result (received E.Sink to.old) (received E.Sink to.new) }
{
    match read_words(rt) {
        Ok(words) => run_words(rt, words.as_slice(), to),
        Err(outcome) => end_with(outcome, to),
    }
}

// Does all that `main` does, which can't have a clause itself. Writes complaints to this sink.
fn run<E: Sink>(rt: &HostRuntime, to: &mut E) -> ExitCode
    ensures { (o : CodeOutcome) × (exit_status result ≡ status o) × Runs o (received E.Sink to.old) (received E.Sink to.new) }
{
    ExitCode::from(run_command_line(rt, to).status())
}

fn main(rt: HostRuntime) -> ExitCode {
    run(&rt, &mut Writing::new(rt.stderr()))
}
