//! Bytes as they are written, and lists of what is read.
ghost use Rattle.std.specs.Prelude.{◌≡◌};

use std::marker::Model;

/// Bytes as they are written, seen as the list of them.
#[derive(Drop)]
pub struct Written {
    bytes: Vec<u8>,
}

impl Model for Written {
    ghost use Rattle.std.specs.Prelude.{List, ℕ};

    ghost Value = { List ℕ };

    ghost view = { λ a. a.bytes.items };
}

impl Written {
    pub fn of(bytes: Vec<u8>) -> Written
        ensures { result ≡ bytes.items }
    {
        Written { bytes }
    }

    pub fn bytes(&self) -> &[u8]
        ensures { result.now ≡ self.now }
    {
        &self.bytes
    }
}

/// Things in their order, seen as the list of them.
#[derive(Drop)]
pub struct PlainList<T> {
    entries: Vec<T>,
}

impl<T> Model for PlainList<T> {
    ghost use Rattle.std.specs.Prelude.{List};
    ghost use Rattle.std.specs.Coded.{coded_list};

    ghost Value = { List T };

    ghost coded = { coded_list T.code };

    ghost view = { λ a. a.entries.items };
}

impl<T> PlainList<T> {
    pub fn of(entries: Vec<T>) -> PlainList<T>
        ensures { result ≡ entries.items }
    {
        PlainList { entries }
    }

    pub fn items(&self) -> &[T]
        ensures { result.now ≡ self.now }
    {
        &self.entries
    }
}
