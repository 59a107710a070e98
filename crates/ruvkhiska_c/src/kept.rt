//! What C keeps between calls: a box of what was prepared, as its pointer, or nothing.
ghost use Rattle.std.specs.Prelude.{◌≡◌, IsSome, Option, None, Some};
ghost use Rattle.transcode_messages.specs.declared.shared.Shared.{Shared as Held};
ghost use Rattle.ruvkhiska_c.specs.Kept.{kept_owns, kept_coded};

use crate::parts::Parts;
use std::alloc::Global;
use std::marker::Model;
use std::ptr::null_mut;
use transcode_messages::Shared;

/// In C one pointer.
#[repr(C)]
#[derive(Drop)]
pub struct Kept {
    ptr: *mut u8,
    alloc: Global,
    pub ghost value: { Option Held } by { kept_coded },
}

impl Model for Kept {
    ghost also_owns = { λ k. kept_owns k.alloc k.ptr k.value };
}

impl Kept {
    pub(crate) fn none(alloc: Global) -> Kept
        ensures { result.value ≡ None }
    {
        let at = null_mut();
        Kept::nothing(at, alloc)
    }

    pub(crate) fn of(b: Box<Shared>) -> Kept
        ensures { result.value ≡ Some b.value }
    {
        Kept::of_parts(Parts::of(b))
    }

    pub(crate) fn into_box(self) -> Box<Shared>
        requires { IsSome self.value }
        ensures { self.value ≡ Some result.value }
    {
        self.into_parts().into_box()
    }

    fn nothing(ptr: *mut u8, alloc: Global) -> Kept
        ensures { result.value ≡ None }
    {
        Kept { ptr, alloc }
    }

    fn of_parts(parts: Parts<Shared, Global>) -> Kept
        ensures { result.value ≡ Some parts.value }
    {
        let Parts { ptr, alloc } = parts;
        Kept {
            ptr: ptr.cast::<u8>(),
            alloc,
        }
    }

    fn into_parts(self) -> Parts<Shared, Global>
        requires { IsSome self.value }
        ensures { self.value ≡ Some result.value }
    {
        let Kept { ptr, alloc } = self;
        Parts {
            ptr: ptr.cast::<Shared>(),
            alloc,
        }
    }
}
