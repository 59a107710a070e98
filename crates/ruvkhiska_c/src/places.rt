//! The calls for places in texts.
ghost use Rattle.std.specs.Prelude.{◌≡◌, ◌≢◌, ◌⊎◌, ◌<◌, pos, take, length, IsSomeAnd};
ghost use Rattle.people_complaints.specs.DocumentPaths.{IsDocumentPath};
ghost use Rattle.people_complaints.specs.Lines.{EndsInLine};
ghost use Rattle.people_complaints.specs.Places.{IsColumn};
ghost use Rattle.ruvkhiska_c.specs.Pointing.{PointsTo};
ghost use Rattle.ruvkhiska_c.specs.Spots.{IsSpot};

use crate::boxes::path_boxed;
use crate::slots::{Bytes, free, give};
use crate::{DONE, OUT_OF_MEMORY, USAGE};
use people_complaints::spot_at;
use std::alloc::Global;
use std::mem::replace;

/// The line and the column of an offset in a text, both from 1. On anything but 0 both are as they were.
#[unsafe(no_mangle)]
pub extern "C" fn ruvkhiska_spot(text: &[u8], at: u64, line: &mut u64, column: &mut u64) -> i32
    ensures spot { result ≡ pos 0 → IsSpot text.now at line.new column.new }
    ensures usage { result ≡ pos 2 → length text.now < at }
    ensures unchanged { result ≢ pos 0 → (line.new ≡ line.old) × (column.new ≡ column.old) }
    ensures statuses { (result ≡ pos 0) ⊎ (result ≡ pos 2) }
{
    if at > text.len() as u64 {
        return USAGE;
    }
    let spot = spot_at(text, at as usize);
    *line = spot.line;
    *column = spot.column();
    DONE
}

/// The path to the element at an offset of a document. On anything but 0 the answer is as it was.
#[unsafe(no_mangle)]
pub extern "C" fn ruvkhiska_path(alloc: Global, document: &[u8], at: u64, path: &mut Bytes) -> i32
    ensures given { result ≡ pos 0 → IsSomeAnd path.new.given.value (λ m. IsDocumentPath document.now at m.bytes.items × PointsTo path.new.start path.new.count m) }
    ensures unchanged { result ≢ pos 0 → path.new.given.value ≡ path.old.given.value }
    ensures statuses { (result ≡ pos 0) ⊎ (result ≡ pos 30) }
{
    match path_boxed(alloc, document, at) {
        Ok(b) => {
            free(replace(path, give(b)));
            DONE
        }
        Err(_) => OUT_OF_MEMORY,
    }
}
