//! The slots that C has between calls.
ghost use Rattle.std.specs.Prelude.{◌≡◌, ◌↔◌, IsTrue, IsSome, None, Some};
ghost use Rattle.std.specs.Option.{ForSome};
ghost use Rattle.ruvkhiska_c.specs.Pointing.{PointsTo};

use crate::given::Given;
use crate::kept::Kept;
use crate::listed::Listed;
use std::alloc::Global;
use std::ptr::null;
use transcode_messages::{Message, SchemaFiles, Shared};

/// In C `struct { bool is_open; void *at; }`, zeros at first, and never copied while it is open: what was prepared.
#[repr(C)]
#[derive(Drop)]
pub struct Converter {
    pub(crate) is_open: bool,
    pub(crate) kept: Kept,
    ghost tied: { IsTrue is_open ↔ IsSome kept.value },
}

/// In C `struct { bool is_open; void *at; }`, zeros at first: the schema files that were added.
#[repr(C)]
#[derive(Drop)]
pub struct Files {
    pub(crate) is_open: bool,
    pub(crate) listed: Listed,
    ghost tied: { IsTrue is_open ↔ IsSome listed.value },
}

/// In C `struct { bool is_given; const uint8_t *data; size_t count; void *at; }`, zeros at first: an answer.
#[repr(C)]
#[derive(Drop)]
pub struct Bytes {
    pub(crate) is_given: bool,
    pub(crate) start: *const u8,
    pub(crate) count: usize,
    pub(crate) given: Given,
    ghost tied: { IsTrue is_given ↔ IsSome given.value },
    ghost points: { ForSome given.value (λ m. PointsTo start count m) },
}

pub(crate) fn closed(alloc: Global) -> Converter
    ensures { result.kept.value ≡ None }
{
    Converter {
        is_open: false,
        kept: Kept::none(alloc),
    }
}

pub(crate) fn open(b: Box<Shared>) -> Converter
    ensures { result.kept.value ≡ Some b.value }
{
    Converter {
        is_open: true,
        kept: Kept::of(b),
    }
}

pub(crate) fn close(converter: Converter) {
    let Converter { is_open, kept } = converter;
    if is_open {
        drop(kept.into_box());
    }
}

pub(crate) fn no_files(alloc: Global) -> Files
    ensures { result.listed.value ≡ None }
{
    Files {
        is_open: false,
        listed: Listed::none(alloc),
    }
}

pub(crate) fn hold(b: Box<SchemaFiles>) -> Files
    ensures { result.listed.value ≡ Some b.value }
{
    Files {
        is_open: true,
        listed: Listed::of(b),
    }
}

pub(crate) fn drop_files(files: Files) {
    let Files { is_open, listed } = files;
    if is_open {
        drop(listed.into_box());
    }
}

pub(crate) fn nothing(alloc: Global) -> Bytes
    ensures { result.given.value ≡ None }
{
    Bytes {
        is_given: false,
        start: null(),
        count: 0,
        given: Given::none(alloc),
    }
}

pub(crate) fn give(b: Box<Message>) -> Bytes
    ensures value { result.given.value ≡ Some b.value }
    ensures points { PointsTo result.start result.count b.value }
{
    let start = b.bytes.as_ptr();
    let count = b.bytes.len();
    Bytes {
        is_given: true,
        start,
        count,
        given: Given::of(b),
    }
}

pub(crate) fn free(answer: Bytes) {
    let Bytes {
        is_given,
        start: _,
        count: _,
        given,
    } = answer;
    if is_given {
        drop(given.into_box());
    }
}
