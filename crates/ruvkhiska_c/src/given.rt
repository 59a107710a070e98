//! An answer that C keeps: a box of it, as its pointer, or nothing.
ghost use Rattle.std.specs.Prelude.{◌≡◌, IsSome, Option, None, Some};
ghost use Rattle.transcode_messages.specs.declared.converting.Message.{Message as Held};
ghost use Rattle.ruvkhiska_c.specs.Given.{given_owns, given_coded};

use crate::parts::Parts;
use std::alloc::Global;
use std::marker::Model;
use std::ptr::null_mut;
use transcode_messages::Message;

/// In C one pointer.
#[repr(C)]
#[derive(Drop)]
pub struct Given {
    ptr: *mut u8,
    alloc: Global,
    pub ghost value: { Option Held } by { given_coded },
}

impl Model for Given {
    ghost also_owns = { λ k. given_owns k.alloc k.ptr k.value };
}

impl Given {
    pub(crate) fn none(alloc: Global) -> Given
        ensures { result.value ≡ None }
    {
        let at = null_mut();
        Given::nothing(at, alloc)
    }

    pub(crate) fn of(b: Box<Message>) -> Given
        ensures { result.value ≡ Some b.value }
    {
        Given::of_parts(Parts::of(b))
    }

    pub(crate) fn into_box(self) -> Box<Message>
        requires { IsSome self.value }
        ensures { self.value ≡ Some result.value }
    {
        self.into_parts().into_box()
    }

    fn nothing(ptr: *mut u8, alloc: Global) -> Given
        ensures { result.value ≡ None }
    {
        Given { ptr, alloc }
    }

    fn of_parts(parts: Parts<Message, Global>) -> Given
        ensures { result.value ≡ Some parts.value }
    {
        let Parts { ptr, alloc } = parts;
        Given {
            ptr: ptr.cast::<u8>(),
            alloc,
        }
    }

    fn into_parts(self) -> Parts<Message, Global>
        requires { IsSome self.value }
        ensures { self.value ≡ Some result.value }
    {
        let Given { ptr, alloc } = self;
        Parts {
            ptr: ptr.cast::<Message>(),
            alloc,
        }
    }
}
