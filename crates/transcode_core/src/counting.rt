//! A call of `run` that counts its own steps.
ghost use Rattle.std.specs.Prelude.{◌≡◌, ℕ, ◌<◌};
ghost use Rattle.transcode_words.specs.Commands.{asked_by};
ghost use Rattle.transcode_core.specs.Agendas.{Begins};
ghost use Rattle.transcode_core.specs.Environments.{RunsIn};
ghost use Rattle.transcode_core.specs.Runs.{files_named};

use crate::environments::Environment;
use crate::top::run;
use base_texts::{Library, Sink, Source, Steps, Text};
use std::alloc::Global;
use std::marker::Brand;
use std::sync::ledger::{Blank, Ledger};
use transcode_words::Outcome;

// Does what `run` does, and counts the steps in the ledger of the blank.
fn run_counted<F: Library, S: Source, K: Sink, E: Sink, L: Ledger>(
    alloc: Global,
    words: &[Text],
    environment: Environment<'_, F, S, K, E>,
    blank: Blank,
) -> Outcome
    requires name { blank.name ≡ L.name }
    requires parts { blank.parts ≡ L.parts }
    requires some { 0 < L.parts }
    requires named { Begins (F.agenda environment.files.now) (files_named (asked_by words.now)) }
    ensures { (steps : ℕ) × RunsIn F.Library S.Source K.Sink E.Sink words.now environment.entry environment.exit 0 steps result }
{
    let mut steps = Steps::<L>::new(blank);
    run(alloc, words, environment, &mut steps)
}

/// Does what `run` does. The steps are counted from 0, and the count is dropped.
pub fn run_in<F: Library, S: Source, K: Sink, E: Sink>(
    alloc: Global,
    words: &[Text],
    environment: Environment<'_, F, S, K, E>,
) -> Outcome
    requires { Begins (F.agenda environment.files.now) (files_named (asked_by words.now)) }
    ensures { (steps : ℕ) × RunsIn F.Library S.Source K.Sink E.Sink words.now environment.entry environment.exit 0 steps result }
{
    run_counted::<_, _, _, _, Brand>(alloc, words, environment, Blank::new(1))
}
