//! The complaint about a rejection.
ghost use Rattle.std.specs.Prelude.{◌≡◌, ◌≢◌, ◌⊎◌, ◌≤◌, length, pos, take};
ghost use Rattle.transcode_words.specs.Answers.{IsRefusal, NoMemory};
ghost use Rattle.transcode_words.specs.Status.{status};
ghost use Rattle.ruvkhiska_c.specs.Complaints as complaints;
ghost use Rattle.ruvkhiska_c.specs.Complaints.{HasPlace, Tells, IsQuiet};

use transcode_messages::{Outcome, line_of};

// The room for a line, in bytes: each line but that of `Usage` fits.
const LINE_ROOM: usize = 128;

/// In C `struct { size_t count; uint64_t at; uint32_t file; bool has_place; uint8_t text[128]; }`: the line of a rejection, and the place
/// of the fault in a schema file, or in the input as file 0.
#[repr(C)]
#[derive(Drop)]
pub struct Complaint {
    pub count: usize,
    pub at: u64,
    pub file: u32,
    pub has_place: bool,
    pub text: [u8; LINE_ROOM],
}

/// A place in a schema file, or in the input as file 0: an offset in bytes, or in bits for a fault of PER.
#[derive(Clone, Copy)]
pub(crate) struct Place {
    pub(crate) file: u32,
    pub(crate) at: u64,
}

// Returns the place of the outcome, if it has one.
fn place_of(outcome: Outcome) -> Option<Place>
    ensures { result ≡ complaints.place_of outcome }
{
    match outcome {
        Outcome::SchemaSyntax { file, at, .. }
        | Outcome::SchemaFault { file, at, .. }
        | Outcome::LinkFault { file, at, .. } => Some(Place { file, at }),
        Outcome::DocSyntax { at, .. }
        | Outcome::Invalid { at, .. }
        | Outcome::DerFault { at, .. }
        | Outcome::Trailing { at } => Some(Place { file: 0, at }),
        Outcome::PerFault { bit, .. } | Outcome::RecordFault { bit, .. } => {
            Some(Place { file: 0, at: bit })
        }
        Outcome::ModuleFault { at, .. } => Some(Place { file: 1, at }),
        Outcome::Done
        | Outcome::Usage
        | Outcome::UnknownRoot
        | Outcome::Stamp
        | Outcome::TooLong { .. }
        | Outcome::TooManyNodes { .. }
        | Outcome::LoadFault { .. }
        | Outcome::ReadFault
        | Outcome::WriteFault
        | Outcome::OutOfMemory => None,
    }
}

// Writes the place.
fn put_place(place: Option<Place>, complaint: &mut Complaint)
    ensures place { HasPlace place complaint.new }
    ensures line { (complaint.new.count ≡ complaint.old.count) × (complaint.new.text ≡ complaint.old.text) }
{
    match place {
        Some(Place { file, at }) => {
            complaint.has_place = true;
            complaint.file = file;
            complaint.at = at;
        }
        None => {
            complaint.has_place = false;
            complaint.file = 0;
            complaint.at = 0;
        }
    }
}

// Writes the line and the place.
fn put(line: &[u8], place: Option<Place>, complaint: &mut Complaint)
    requires { length line.now ≤ 128 }
    ensures line { take complaint.new.count complaint.new.text ≡ line.now }
    ensures place { HasPlace place complaint.new }
{
    complaint.count = line.len();
    complaint.text[..line.len()].copy_from_slice(line);
    put_place(place, complaint);
}

// Writes the line and the place of the outcome; of `Usage`, whose line is about the program's words, nothing.
fn put_outcome(outcome: Outcome, complaint: &mut Complaint)
    ensures { Tells outcome complaint.new }
{
    let place = place_of(outcome);
    match outcome {
        Outcome::Usage => put(b"", place, complaint),
        _ => put(line_of(&outcome).as_slice(), place, complaint),
    }
}

/// Reports that nothing is rejected.
pub(crate) fn clear(complaint: &mut Complaint)
    ensures { IsQuiet complaint.new }
{
    complaint.count = 0;
    complaint.at = 0;
    complaint.file = 0;
    complaint.has_place = false;
}

/// Reports the rejection, and returns its status.
pub(crate) fn tell(outcome: Outcome, complaint: &mut Complaint) -> i32
    requires { IsRefusal outcome ⊎ NoMemory outcome }
    ensures status { result ≡ pos (status outcome) }
    ensures told { Tells outcome complaint.new }
    ensures not_done { result ≢ pos 0 }
    ensures not_closed { result ≢ pos 40 }
{
    put_outcome(outcome, complaint);
    i32::from(outcome.status())
}
