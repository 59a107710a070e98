//! Records, one after another.
ghost use Rattle.std.specs.Prelude.{◌≡◌, ℕ, ◌+◌, ◌*◌, ◌≤◌, ◌<◌, List, [], length, drop, None, Some, IfOk, IfSome, IsSome, MatchOption, OnOk, OnErr, IsErr, IsErrOf};
ghost use Rattle.std.specs.Io.KnownBytes.{Keeps, IsAtEnd};
ghost use Rattle.base_texts.specs.Faults.{Counts, one_more};
ghost use Rattle.asn_values.specs.Values.{In};
ghost use Rattle.per_fields.specs.Encoding.{complete};
ghost use Rattle.record_stream.specs.Heads.{left_with};
ghost use Rattle.record_stream.specs.Next.{AnswersNext, told_of};

use crate::ahead::{RecordType, decode_behind};
use crate::errors::RecordError;
use asn_types::Module;
use base_texts::{Failed, Source};
use per_decode::DecodeError;
use simple_types::Value;
use std::alloc::Global;
use std::marker::Brand;

/// The greatest length of a record, in octets.
const RECORD_LIMIT: u64 = 16_777_216;

/// The records that a source has left. The first octet of the next record shows that there is one. Only this octet is read ahead, and
/// only when the next record is requested.
#[derive(Drop)]
pub struct Records<'a, S: Source> {
    source: &'a mut S,
    octet: Option<u8>,
    // The number of octets that may still be read.
    room: u64,
    // The number of records that were read.
    records: u64,
}

// Returns the error for a fault of the next record.
fn told(records: u64, error: DecodeError) -> RecordError
    ensures { result ≡ told_of (one_more records) error }
{
    match error {
        DecodeError::Bad { bit, why } => RecordError::Bad {
            number: records.saturating_add(1),
            bit,
            why,
        },
        DecodeError::TooLong => RecordError::TooLong,
        DecodeError::Failed => RecordError::Failed,
        DecodeError::Memory => RecordError::Memory,
    }
}

impl<'a, S: Source> Records<'a, S> {
    /// Returns the records of what the source has left. At most `limit` octets are read for them.
    pub fn new(source: &'a mut S, limit: u64) -> Records<'a, S>
        ensures same_reference { result.source.ghost_name ≡ source.entry.ghost_name }
        ensures source { result.source.now ≡ source.old }
        ensures start { (result.octet ≡ None) × (result.room ≡ limit) × (result.records ≡ 0) }
    {
        Records {
            source,
            octet: None,
            room: limit,
            records: 0,
        }
    }

    // Returns the octet that comes next, if there is one.
    fn peek(&mut self) -> Result<Option<u8>, Failed>
        ensures same_reference { self.new.source.ghost_name ≡ self.old.source.ghost_name }
        ensures rest { (self.new.room ≡ self.old.room) × (self.new.records ≡ self.old.records) }
        ensures held { IfOk result (λ octet. self.new.octet ≡ octet) }
        ensures left { Keeps (left_with self.old.octet (S.left self.old.source.now)) (left_with self.new.octet (S.left self.new.source.now)) }
        ensures end { (left : List ℕ) → left_with self.old.octet (S.left self.old.source.now) ≡ Some left → IfOk result (λ octet. octet ≡ None → left ≡ []) }
        ensures ended { IfOk result (λ octet. octet ≡ None → IsAtEnd (S.left self.new.source.now)) }
        ensures failed { OnErr result (self.new.octet ≡ None) }
        ensures cause { Counts (S.faults self.old.source.now) (S.faults self.new.source.now) (IsErr result) }
    {
        if let Some(octet) = self.octet {
            return Ok(Some(octet));
        }
        let mut buf = [0u8; 1];
        let count = self.source.read(&mut buf)?;
        if count == 0 {
            return Ok(None);
        }
        self.octet = Some(buf[0]);
        Ok(Some(buf[0]))
    }

    // Returns the record that begins with the octet.
    fn take(
        &mut self,
        alloc: Global,
        module: &Module,
        t: u32,
        octet: u8,
    ) -> Result<Option<Value>, RecordError>
        requires assigned { t < length module.now }
        requires held { self.old.octet ≡ Some octet }
        ensures same_reference { self.new.source.ghost_name ≡ self.old.source.ghost_name }
        ensures some { IfOk result (λ found. IsSome found) }
        ensures value { IfOk result (λ found. IfSome found (λ v. In module.now t v)) }
        ensures answer { (left : List ℕ) → left_with self.old.octet (S.left self.old.source.now) ≡ Some left
            → AnswersNext module.now t (one_more self.old.records) self.old.room left (left_with self.new.octet (S.left self.new.source.now)) result }
        ensures room { IfOk result (λ found. MatchOption found ((self.new.room ≡ self.old.room) × (self.new.records ≡ self.old.records))
            (λ v. (self.new.room ≤ self.old.room) × (self.new.records ≡ one_more self.old.records))) }
        ensures octets { (left : List ℕ) → left_with self.old.octet (S.left self.old.source.now) ≡ Some left
            → IfOk result (λ found. IfSome found (λ v. 8 * self.old.room ≡ 8 * self.new.room + length (complete module.now t v))) }
        ensures alone { (left : List ℕ) → left_with self.old.octet (S.left self.old.source.now) ≡ Some left → OnOk result (self.new.octet ≡ None) }
        ensures stays { OnErr result ((self.new.room ≡ self.old.room) × (self.new.records ≡ self.old.records)) }
        ensures failed { IsErrOf result RecordError.Failed → self.new.octet ≡ None }
        ensures cause { Counts (S.faults self.old.source.now) (S.faults self.new.source.now) (IsErrOf result RecordError.Failed) }
        ensures untouched { (held : ℕ) → self.new.octet ≡ Some held → S.left self.new.source.now ≡ S.left self.old.source.now }
    {
        let limit = RECORD_LIMIT.min(self.room);
        let record_type = RecordType { module, t, limit };
        let mut answer = Err(DecodeError::Memory);
        let behind = decode_behind::<S, Brand>(alloc, record_type, self.source, octet, &mut answer);
        self.octet = behind.octet;
        match answer {
            Ok(decoded) => {
                self.room -= decoded.octets;
                self.records = self.records.saturating_add(1);
                Ok(Some(decoded.value))
            }
            Err(error) => Err(told(self.records, error)),
        }
    }

    /// Returns the next record: the value of the type of the assignment with this number with whose complete encoding (X.691,
    /// canonical aligned PER) the octets left begin. Returns None if nothing is left. A record has at most 16,777,216 octets,
    /// and no more than are left of the limit. Only its own octets are read: the first octet of the record after it is
    /// requested at the next call.
    ///
    /// # Errors
    ///
    /// `Bad` states the first fault of the octets left. `TooLong` states that the octets that may be read end inside a field. After
    /// `Failed` the octets that were read may be a prefix of a record. A call after an error goes on with the octets that are
    /// left then.
    pub fn next(
        &mut self,
        alloc: Global,
        module: &Module,
        t: u32,
    ) -> Result<Option<Value>, RecordError>
        requires { t < length module.now }
        ensures same_reference { self.new.source.ghost_name ≡ self.old.source.ghost_name }
        ensures value { IfOk result (λ found. IfSome found (λ v. In module.now t v)) }
        ensures answer { (left : List ℕ) → left_with self.old.octet (S.left self.old.source.now) ≡ Some left
            → AnswersNext module.now t (one_more self.old.records) self.old.room left (left_with self.new.octet (S.left self.new.source.now)) result }
        // A record is counted, and its octets are no longer left of the limit.
        ensures room { IfOk result (λ found. MatchOption found ((self.new.room ≡ self.old.room) × (self.new.records ≡ self.old.records))
            (λ v. (self.new.room ≤ self.old.room) × (self.new.records ≡ one_more self.old.records))) }
        ensures octets { (left : List ℕ) → left_with self.old.octet (S.left self.old.source.now) ≡ Some left
            → IfOk result (λ found. IfSome found (λ v. 8 * self.old.room ≡ 8 * self.new.room + length (complete module.now t v))) }
        ensures ended { IfOk result (λ found. found ≡ None → IsAtEnd (S.left self.new.source.now)) }
        // No octet is held after a record, nor if the source failed.
        ensures alone { (left : List ℕ) → left_with self.old.octet (S.left self.old.source.now) ≡ Some left → OnOk result (self.new.octet ≡ None) }
        ensures stays { OnErr result ((self.new.room ≡ self.old.room) × (self.new.records ≡ self.old.records)) }
        ensures failed { IsErrOf result RecordError.Failed → self.new.octet ≡ None }
        ensures cause { Counts (S.faults self.old.source.now) (S.faults self.new.source.now) (IsErrOf result RecordError.Failed) }
        // An octet that is still held is the first that was left, and the only one that was read.
        ensures held { (left : List ℕ) → left_with self.old.octet (S.left self.old.source.now) ≡ Some left
            → (octet : ℕ) → self.new.octet ≡ Some octet → (1 ≤ length left) × (S.left self.new.source.now ≡ Some (drop 1 left)) }
    {
        match self.peek() {
            Ok(Some(octet)) => self.take(alloc, module, t, octet),
            Ok(None) => Ok(None),
            Err(Failed) => Err(RecordError::Failed),
        }
    }
}
