//! What is made of a message.
ghost use Rattle.std.specs.Prelude.{◌≡◌, ◌<◌, [], Some, IfOk};
ghost use Rattle.transcode_words.specs.Answers.{Answers, NoMemory};
ghost use Rattle.transcode_core.specs.Preparing.{prepared_seen};
ghost use Rattle.transcode_core.specs.Due.{Checked, Encoded, Documented};
ghost use Rattle.transcode_core.specs.Next.{NextDocument, NextBack};
ghost use Rattle.transcode_core.specs.ReadBack.{DocumentedBack};

use crate::lent::Lent;
use base_texts::Steps;
use std::alloc::Global;
use std::marker::Brand;
use std::sync::ledger::{Blank, Ledger};
use transcode_core::Prepared;
use transcode_words::{Outcome, Syntax};

/// What is given for a message.
#[derive(Drop)]
pub struct Message {
    pub bytes: Vec<u8>,
}

/// What is given for the first of the records in octets: its document, and the number of its octets.
#[derive(Drop)]
pub struct First {
    pub message: Message,
    pub octets: u64,
}

// Counts steps in a ledger of its own.
fn check_counted<L: Ledger>(
    alloc: Global,
    prepared: &Prepared,
    document: &[u8],
    blank: Blank,
) -> Result<Vec<u8>, Outcome>
    requires name { blank.name ≡ L.name }
    requires parts { blank.parts ≡ L.parts }
    requires some { 0 < L.parts }
    ensures { Answers (λ bytes. bytes.items) (Checked (prepared_seen prepared.now) (Some document.now)) NoMemory result }
{
    let mut steps = Steps::<L>::new(blank);
    prepared.check(alloc, document, &mut steps)
}

// Encodes a document, and counts the steps.
fn encode_counted<L: Ledger>(
    alloc: Global,
    prepared: &Prepared,
    syntax: Syntax,
    document: &[u8],
    blank: Blank,
) -> Result<Vec<u8>, Outcome>
    requires name { blank.name ≡ L.name }
    requires parts { blank.parts ≡ L.parts }
    requires some { 0 < L.parts }
    ensures { Answers (λ bytes. bytes.items) (Encoded syntax (prepared_seen prepared.now) (Some document.now)) NoMemory result }
{
    let mut steps = Steps::<L>::new(blank);
    prepared.encode(alloc, syntax, document, &mut steps)
}

/// Whether the document is valid for the root, or its first fault. It is read where it lies.
pub fn check(alloc: Global, prepared: &Prepared, document: &[u8]) -> Result<(), Outcome>
    ensures { Answers (λ _. []) (Checked (prepared_seen prepared.now) (Some document.now)) NoMemory result }
{
    check_counted::<Brand>(alloc, prepared, document, Blank::new(1))?;
    Ok(())
}

/// The encoding, in the transfer syntax, of the one value whose items are those of the document, if it is valid.
pub fn encode(
    alloc: Global,
    prepared: &Prepared,
    syntax: Syntax,
    document: &[u8],
) -> Result<Message, Outcome>
    ensures { Answers (λ message. message.bytes.items) (Encoded syntax (prepared_seen prepared.now) (Some document.now)) NoMemory result }
{
    let bytes = encode_counted::<Brand>(alloc, prepared, syntax, document, Blank::new(1))?;
    Ok(Message { bytes })
}

/// The document of the one value of which the octets are the whole encoding, which is read back as this value's items.
pub fn decode(
    alloc: Global,
    prepared: &Prepared,
    syntax: Syntax,
    octets: &[u8],
) -> Result<Message, Outcome>
    ensures due { Answers (λ message. message.bytes.items) (Documented syntax (prepared_seen prepared.now) (Some octets.now)) NoMemory result }
    ensures back { IfOk result (λ message. DocumentedBack syntax (prepared_seen prepared.now) (Some octets.now) message.bytes.items) }
{
    let mut input = Lent::new(octets);
    let bytes = prepared.decode(alloc, syntax, &mut input)?;
    Ok(Message { bytes })
}

/// Returns the document of the first record of the octets, which may go on after it, and is read back as the record's value.
pub fn next(alloc: Global, prepared: &Prepared, octets: &[u8]) -> Result<First, Outcome>
    ensures due { Answers (λ first. (first.message.bytes.items, first.octets)) (NextDocument (prepared_seen prepared.now) (Some octets.now)) NoMemory result }
    ensures back { IfOk result (λ first. NextBack (prepared_seen prepared.now) (Some octets.now) (first.message.bytes.items, first.octets)) }
{
    let mut input = Lent::new(octets);
    let found = prepared.next(alloc, &mut input)?;
    Ok(First {
        message: Message { bytes: found.text },
        octets: found.octets,
    })
}
