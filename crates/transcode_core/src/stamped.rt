//! The stamp of a set before octets, written or read.
ghost use Rattle.std.specs.Prelude.{◌≡◌, ◌⊎◌, ◌≤◌, ◌∷◌, [], ◌++◌, ℕ, List, Some, OnOk, IfErr, Ok, Err};
ghost use Rattle.std.specs.Io.KnownBytes.{Consumes};
ghost use Rattle.base_texts.specs.Bytes.{TakesFirst};
ghost use Rattle.base_texts.specs.Faults.{HasRisen};
ghost use Rattle.transcode_words.specs.Answers.{Answers, NoMemory};
ghost use Rattle.transcode_words.specs.Order.{Give};
ghost use Rattle.transcode_core.specs.Private.Seen.{type_seen};
ghost use Rattle.transcode_core.specs.Causes.{OneRead, IsOfInput};
ghost use Rattle.transcode_core.specs.Requests.Due.{stamp_of, stamp_if, AfterStamp};

use crate::opened::RootModule;
use crate::stamps::{STAMP_LENGTH, module_stamp};
use base_texts::{Failed, Source};
use std::alloc::Global;
use transcode_words::Outcome;

// Returns the stamp and then the octets.
fn joined(alloc: Global, stamp: [u8; STAMP_LENGTH], octets: &[u8]) -> Result<Vec<u8>, Outcome>
    ensures due { Answers (λ whole. whole.items) (Give (stamp ++ octets.now)) NoMemory result }
    ensures stage { IfErr result IsOfInput }
{
    let Ok(mut whole) = Vec::from_slice(alloc, stamp.as_slice()) else {
        return Err(Outcome::OutOfMemory);
    };
    match whole.extend_from_slice(octets) {
        Ok(()) => Ok(whole),
        Err(_) => Err(Outcome::OutOfMemory),
    }
}

/// Returns the octets, after the stamp of the module where `stamped` holds.
pub fn with_stamp(
    alloc: Global,
    stamped: bool,
    typed: &RootModule,
    octets: Vec<u8>,
) -> Result<Vec<u8>, Outcome>
    ensures due { Answers (λ whole. whole.items) (Give (stamp_if stamped (type_seen typed.now) ++ octets.items)) NoMemory result }
    ensures stage { IfErr result IsOfInput }
{
    if !stamped {
        return Ok(octets);
    }
    let stamp = module_stamp(alloc, &typed.module)?;
    joined(alloc, stamp, &octets)
}

// Takes the next octet, which must be this one.
fn take_octet<S: Source>(input: &mut S, due: u8) -> Result<(), Outcome>
    ensures taken { OnOk result (Consumes (S.left input.old) (S.left input.new) (due ∷ [])) }
    ensures stopped { IfErr result (λ o. ((o ≡ Outcome.Stamp) × ((octets : List ℕ) → S.left input.old ≡ Some (due ∷ octets) → ⊥))
        ⊎ ((o ≡ Outcome.ReadFault) × HasRisen (S.faults input.old) (S.faults input.new))) }
    ensures stage { IfErr result IsOfInput }
    ensures few { (n : ℕ) × (n ≤ 1) × TakesFirst (S.left input.old) (S.left input.new) n }
    ensures later { S.faults input.old ≤ S.faults input.new }
{
    let mut octet = [0u8; 1];
    match input.read(&mut octet) {
        Ok(count) if count == 1 && octet[0] == due => Ok(()),
        Ok(_) => Err(Outcome::Stamp),
        Err(Failed) => Err(Outcome::ReadFault),
    }
}

// Takes the stamp.
fn take_stamp<S: Source>(input: &mut S, stamp: [u8; STAMP_LENGTH]) -> Result<(), Outcome>
    ensures passed { OnOk result (AfterStamp stamp (S.left input.old) (Ok (S.left input.new))) }
    ensures stopped { IfErr result (λ o. AfterStamp stamp (S.left input.old) (Err o) ⊎ ((o ≡ Outcome.ReadFault) × HasRisen (S.faults input.old) (S.faults input.new))) }
    ensures stage { IfErr result IsOfInput }
    ensures few { (n : ℕ) × (n ≤ 8) × TakesFirst (S.left input.old) (S.left input.new) n }
    ensures later { S.faults input.old ≤ S.faults input.new }
{
    let mut rest = stamp.as_slice();
    'octets: while let [due, others @ ..] = rest {
        take_octet(input, *due)?;
        rest = others;
    }
    Ok(())
}

/// Takes the stamp of the module from the input.
pub fn pass_stamp<S: Source>(
    alloc: Global,
    typed: &RootModule,
    input: &mut S,
) -> Result<(), Outcome>
    ensures passed { OnOk result (AfterStamp (stamp_of typed.now.module) (S.left input.old) (Ok (S.left input.new))) }
    ensures stopped { IfErr result (λ o. AfterStamp (stamp_of typed.now.module) (S.left input.old) (Err o) ⊎ OneRead (S.faults input.old) (S.faults input.new) o) }
    ensures stage { IfErr result IsOfInput }
    ensures few { (n : ℕ) × (n ≤ 8) × TakesFirst (S.left input.old) (S.left input.new) n }
    ensures later { S.faults input.old ≤ S.faults input.new }
{
    let stamp = module_stamp(alloc, &typed.module)?;
    take_stamp(input, stamp)
}
