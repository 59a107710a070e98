//! What a task makes of a set with its root and the input, written to the output.
ghost use Rattle.std.specs.Prelude.{◌≡◌};
ghost use Rattle.transcode_core.specs.Preparing.{prepared_seen};
ghost use Rattle.transcode_core.specs.Private.Seen.{opened_seen};
ghost use Rattle.transcode_core.specs.Requests.Records.{streams_of};
ghost use Rattle.transcode_core.specs.Requests.Serving.{Serves};

use crate::delivering::deliver;
use crate::judging::check_input;
use crate::opened::Opened;
use crate::prepared::Prepared;
use base_texts::{Sink, Source, Steps};
use std::alloc::Global;
use std::sync::ledger::Ledger;
use transcode_words::Outcome;
use transcode_words::asked::Task;

// Does a task with a set that has its map.
fn serve_prepared<S: Source, K: Sink, L: Ledger>(
    alloc: Global,
    task: Task,
    prepared: &Prepared,
    input: &mut S,
    output: &mut K,
    steps: &mut Steps<L>,
) -> Outcome
    ensures { Serves task (prepared_seen prepared.now)
        (streams_of S.Source K.Sink input.old output.old) (streams_of S.Source K.Sink input.new output.new)
        steps.old steps.new (input.new ≡ input.old) (output.new ≡ output.old) result }
{
    match task {
        Task::Check => deliver(prepared.check_input(alloc, input, steps), output),
        Task::Send { syntax, stamped } => {
            deliver(prepared.send(alloc, syntax, stamped, input, steps), output)
        }
        Task::Receive { syntax, stamped } => {
            deliver(prepared.receive(alloc, syntax, stamped, input), output)
        }
        Task::Each => prepared.write_each(alloc, input, output),
    }
}

// Maps the set, and does the task.
fn serve_mapped<S: Source, K: Sink, L: Ledger>(
    alloc: Global,
    task: Task,
    opened: Opened,
    input: &mut S,
    output: &mut K,
    steps: &mut Steps<L>,
) -> Outcome
    ensures { Serves task (opened_seen opened)
        (streams_of S.Source K.Sink input.old output.old) (streams_of S.Source K.Sink input.new output.new)
        steps.old steps.new (input.new ≡ input.old) (output.new ≡ output.old) result }
{
    match Prepared::of(alloc, opened) {
        Ok(prepared) => serve_prepared(alloc, task, &prepared, input, output, steps),
        Err(outcome) => outcome,
    }
}

/// Does a task with a set, its root and the input, and writes what it makes. `Task::Check` doesn't map the set.
pub fn serve_task<S: Source, K: Sink, L: Ledger>(
    alloc: Global,
    task: Task,
    opened: Opened,
    input: &mut S,
    output: &mut K,
    steps: &mut Steps<L>,
) -> Outcome
    ensures { Serves task (opened_seen opened)
        (streams_of S.Source K.Sink input.old output.old) (streams_of S.Source K.Sink input.new output.new)
        steps.old steps.new (input.new ≡ input.old) (output.new ≡ output.old) result }
{
    match task {
        Task::Check => deliver(check_input(alloc, &opened, input, steps), output),
        _ => serve_mapped(alloc, task, opened, input, output, steps),
    }
}
