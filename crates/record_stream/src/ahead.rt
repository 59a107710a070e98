//! A source after an octet that was read ahead.
ghost use Rattle.std.specs.Prelude.{◌≡◌, ℕ, ◌≤◌, ◌<◌, ◌^◌, List, Option, None, Some, IfOk, IsErrOf, length};
ghost use Rattle.base_texts.specs.Faults.{Counts};
ghost use Rattle.asn_values.specs.Values.{In};
ghost use Rattle.per_decode.specs.Answers.{Answers};
ghost use Rattle.record_stream.specs.Heads.{left_with, IsUntouched};

use asn_types::Module;
use base_texts::{Failed, Source};
use per_decode::{DecodeError, Decoded, decode};
use std::alloc::Global;
use std::marker::{Brand, PhantomData};

/// The state in which decoding begins: the reference to the source, the octets that it has left after the octet read ahead, this octet,
/// and its count of faults.
pub(crate) trait Before {
    ghost name: { ℕ };

    ghost left: { Option (List ℕ) };

    ghost octet: { ℕ };

    ghost faults: { ℕ };
}

impl Before for Brand {
    ghost name = { 0 };

    ghost left = { None };

    ghost octet = { 0 };

    ghost faults = { 0 };
}

// The octet comes first, and alone: until it was handed on, the source is as it was.
#[derive(Drop)]
struct Ahead<'a, S: Source, K: Before> {
    source: &'a mut S,
    octet: Option<u8>,
    before: PhantomData<K>,
    ghost same_reference: { source.ghost_name ≡ K.name },
    ghost later: { K.faults ≤ S.faults source.now },
    ghost untouched: { IsUntouched K.octet K.left octet (S.left source.now) },
}

impl<'a, S: Source, K: Before> Ahead<'a, S, K> {
    fn new(source: &'a mut S, octet: u8) -> Ahead<'a, S, K>
        requires name { source.ghost_name ≡ K.name }
        requires left { S.left source.old ≡ K.left }
        requires octet { octet ≡ K.octet }
        requires faults { S.faults source.old ≡ K.faults }
        ensures same_reference { result.source.ghost_name ≡ source.entry.ghost_name }
        ensures source { result.source.now ≡ source.old }
        ensures octet { result.octet ≡ Some octet }
    {
        Ahead {
            source,
            octet: Some(octet),
            before: PhantomData,
        }
    }
}

impl<'a, S: Source, K: Before> Source for Ahead<'a, S, K> {
    ghost use Rattle.record_stream.specs.Heads.{left_with, faults_behind};

    ghost left = { λ s. left_with s.octet (S.left s.source.now) };

    ghost faults = { λ s. faults_behind K.faults s.octet (S.faults s.source.now) };

    fn read(&mut self, buf: &mut [u8]) -> Result<usize, Failed> {
        if buf.is_empty() {
            return Ok(0);
        }
        if let Some(octet) = self.octet.take() {
            buf[0] = octet;
            return Ok(1);
        }
        self.source.read(buf)
    }
}

/// What is decoded: a value of the type of the assignment with number `t`, from at most `limit` octets.
#[derive(Clone, Copy)]
pub(crate) struct RecordType<'m> {
    pub(crate) module: &'m Module,
    pub(crate) t: u32,
    pub(crate) limit: u64,
}

/// What remains after a value: the source, and the octet if decoding didn't read it.
#[derive(Drop)]
pub(crate) struct Behind<'a, S: Source> {
    source: &'a mut S,
    pub(crate) octet: Option<u8>,
}

/// Decodes from an octet and what the source has left after it. The answer is a parameter of its own, since the prover loses track of
/// a reference that is returned together with a value that owns memory.
pub(crate) fn decode_behind<'a, S: Source, K: Before>(
    alloc: Global,
    record_type: RecordType<'_>,
    source: &'a mut S,
    octet: u8,
    answer: &mut Result<Decoded, DecodeError>,
) -> Behind<'a, S>
    requires assigned { record_type.t < length record_type.module.now }
    requires small { record_type.limit ≤ 2 ^ 32 }
    requires name { source.ghost_name ≡ K.name }
    requires left { S.left source.old ≡ K.left }
    requires octet { octet ≡ K.octet }
    requires faults { S.faults source.old ≡ K.faults }
    ensures same_reference { result.source.ghost_name ≡ source.entry.ghost_name }
    ensures value { IfOk answer.new (λ found. In record_type.entry.module.now record_type.entry.t found.value) }
    ensures limited { IfOk answer.new (λ found. found.octets ≤ record_type.entry.limit) }
    ensures answer { (left : List ℕ) → left_with (Some octet) K.left ≡ Some left
        → Answers record_type.entry.module.now record_type.entry.t record_type.entry.limit left (left_with result.octet (S.left result.source.now)) answer.new }
    ensures cause { Counts K.faults (S.faults result.source.now) (IsErrOf answer.new DecodeError.Failed) }
    // If the source failed, decoding had read the octet. If decoding didn't read the octet, it read nothing.
    ensures failed { IsErrOf answer.new DecodeError.Failed → result.octet ≡ None }
    ensures untouched { IsUntouched octet K.left result.octet (S.left result.source.now) }
{
    let mut ahead: Ahead<'a, S, K> = Ahead::new(source, octet);
    let RecordType { module, t, limit } = record_type;
    *answer = decode(alloc, module, t, &mut ahead, limit);
    let Ahead {
        source,
        octet,
        before: _,
    } = ahead;
    Behind { source, octet }
}
