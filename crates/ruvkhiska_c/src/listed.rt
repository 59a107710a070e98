//! The files that C adds one by one: a box of them, as its pointer, or nothing.
ghost use Rattle.std.specs.Prelude.{◌≡◌, IsSome, Option, None, Some};
ghost use Rattle.transcode_messages.specs.declared.schema_files.SchemaFiles.{SchemaFiles as Held};
ghost use Rattle.ruvkhiska_c.specs.Listed.{listed_owns, listed_coded};

use crate::parts::Parts;
use std::alloc::Global;
use std::marker::Model;
use std::ptr::null_mut;
use transcode_messages::SchemaFiles;

/// In C one pointer.
#[repr(C)]
#[derive(Drop)]
pub struct Listed {
    ptr: *mut u8,
    alloc: Global,
    pub ghost value: { Option Held } by { listed_coded },
}

impl Model for Listed {
    ghost also_owns = { λ k. listed_owns k.alloc k.ptr k.value };
}

impl Listed {
    pub(crate) fn none(alloc: Global) -> Listed
        ensures { result.value ≡ None }
    {
        let at = null_mut();
        Listed::nothing(at, alloc)
    }

    pub(crate) fn of(b: Box<SchemaFiles>) -> Listed
        ensures { result.value ≡ Some b.value }
    {
        Listed::of_parts(Parts::of(b))
    }

    pub(crate) fn into_box(self) -> Box<SchemaFiles>
        requires { IsSome self.value }
        ensures { self.value ≡ Some result.value }
    {
        self.into_parts().into_box()
    }

    fn nothing(ptr: *mut u8, alloc: Global) -> Listed
        ensures { result.value ≡ None }
    {
        Listed { ptr, alloc }
    }

    fn of_parts(parts: Parts<SchemaFiles, Global>) -> Listed
        ensures { result.value ≡ Some parts.value }
    {
        let Parts { ptr, alloc } = parts;
        Listed {
            ptr: ptr.cast::<u8>(),
            alloc,
        }
    }

    fn into_parts(self) -> Parts<SchemaFiles, Global>
        requires { IsSome self.value }
        ensures { self.value ≡ Some result.value }
    {
        let Listed { ptr, alloc } = self;
        Parts {
            ptr: ptr.cast::<SchemaFiles>(),
            alloc,
        }
    }
}
