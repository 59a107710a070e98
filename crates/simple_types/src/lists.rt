//! Lists whose model is only their entries.
ghost use Rattle.std.specs.Prelude.{◌≡◌, ◌<◌, ◌++◌, [], ◌∷◌, IfOk, OnOk, length};

use base_texts::{Memory, Text};
use std::alloc::Global;
use std::marker::Model;
use std::mem::size_of;
use std::sync::ArcSlice;

// The greatest number of flags stored in place: with their number and the tag of `FlagStorage` they have 24 bytes, as a vector
// has.
const ROOM: usize = 22;

// Flags in place.
#[derive(Drop)]
struct Few {
    len: u8,
    flags: [bool; ROOM],
}

impl Model for Few {
    ghost use Rattle.std.specs.Prelude.{List, Bool, ◌≤◌, take};

    ghost Value = { List Bool };

    ghost view = { λ a. take a.len a.flags };

    ghost invariant = { λ a. a.len ≤ 22 };
}

impl Few {
    // No flags.
    #[inline(always)]
    fn none() -> Few
        ensures { result ≡ [] }
    {
        Few {
            len: 0,
            flags: [false; ROOM],
        }
    }

    // The flags in a copy.
    fn copy(&self) -> Few
        ensures { result ≡ self.now }
    {
        Few {
            len: self.len,
            flags: self.flags,
        }
    }

    // Appends a flag.
    #[inline(always)]
    fn push(&mut self, flag: bool)
        requires { length self.old < 22 }
        ensures { self.new ≡ self.old ++ flag ∷ [] }
    {
        self.flags[self.len as usize] = flag;
        self.len += 1;
    }

    #[inline(always)]
    fn items(&self) -> &[bool]
        ensures { result.now ≡ self.now }
    {
        &self.flags[..self.len as usize]
    }
}

// The storage of flags.
#[derive(Drop)]
enum FlagStorage {
    Here(Few),
    There(Box<Vec<bool>>),
}

/// Truth values. Up to 22 of them allocate nothing.
#[derive(Drop)]
pub struct Flags {
    kept: FlagStorage,
}

impl Model for Flags {
    ghost use Rattle.std.specs.Prelude.{List, Bool};
    ghost use Rattle.simple_types.specs.Kept.{kept_flags};

    ghost Value = { List Bool };

    ghost view = { λ a. kept_flags a.kept };
}

impl Flags {
    /// Returns an empty list of flags.
    #[inline(always)]
    pub fn none() -> Flags
        ensures { result ≡ [] }
    {
        Flags {
            kept: FlagStorage::Here(Few::none()),
        }
    }

    /// Appends a flag.
    #[inline(always)]
    pub fn push(&mut self, alloc: Global, flag: bool) -> Result<(), Memory>
        ensures { OnOk result (self.new ≡ self.old ++ flag ∷ []) }
    {
        match &mut self.kept {
            FlagStorage::Here(few) => {
                if few.items().len() < ROOM {
                    few.push(flag);
                    return Ok(());
                }
                let mut many = Vec::from_slice(alloc, few.items())?;
                many.push(flag)?;
                let many = Box::new(alloc, many)?;
                self.kept = FlagStorage::There(many);
                Ok(())
            }
            FlagStorage::There(many) => {
                many.push(flag)?;
                Ok(())
            }
        }
    }

    #[inline(always)]
    pub fn items(&self) -> &[bool]
        ensures { result.now ≡ self.now }
    {
        match &self.kept {
            FlagStorage::Here(few) => few.items(),
            FlagStorage::There(many) => many,
        }
    }

    /// Returns equal flags.
    pub fn copy(&self, alloc: Global) -> Result<Flags, Memory>
        ensures { IfOk result (λ flags. flags ≡ self.now) }
    {
        match &self.kept {
            FlagStorage::Here(few) => Ok(Flags {
                kept: FlagStorage::Here(few.copy()),
            }),
            FlagStorage::There(many) => {
                let many = Vec::from_slice(alloc, many)?;
                let many = Box::new(alloc, many)?;
                Ok(Flags {
                    kept: FlagStorage::There(many),
                })
            }
        }
    }
}

const _: () = prove!(size_of::<Flags>() == 24);

/// Whole numbers. A copy shares them.
#[derive(Drop)]
pub struct NumberList {
    entries: ArcSlice<i128>,
}

impl Model for NumberList {
    ghost use Rattle.std.specs.Prelude.{List, ℤ};
    ghost use Rattle.std.specs.Arc.{arc_slice_items};

    ghost Value = { List ℤ };

    ghost view = { λ a. arc_slice_items a.entries };
}

impl NumberList {
    /// Returns the list of these numbers.
    pub fn of(entries: Vec<i128>) -> Result<NumberList, Memory>
        ensures { IfOk result (λ numbers. numbers ≡ entries.items) }
    {
        let entries = ArcSlice::from_vec(entries)?;
        Ok(NumberList { entries })
    }

    pub fn items(&self) -> &[i128]
        ensures { result.now ≡ self.now }
    {
        self.entries.as_slice()
    }

    /// Returns equal numbers in constant time. It allocates nothing.
    pub fn copy(&self, _alloc: Global) -> Result<NumberList, Memory>
        ensures { IfOk result (λ numbers. numbers ≡ self.now) }
    {
        let entries = self.entries.clone()?;
        Ok(NumberList { entries })
    }
}

/// Texts. A copy shares them.
#[derive(Drop)]
pub struct TextList {
    entries: ArcSlice<Text>,
}

impl Model for TextList {
    ghost use Rattle.std.specs.Prelude.{List, ℕ};
    ghost use Rattle.std.specs.Arc.{arc_slice_items};

    ghost Value = { List (List ℕ) };

    ghost view = { λ a. arc_slice_items a.entries };
}

impl TextList {
    /// Returns the list of these texts.
    pub fn of(entries: Vec<Text>) -> Result<TextList, Memory>
        ensures { IfOk result (λ texts. texts ≡ entries.items) }
    {
        let entries = ArcSlice::from_vec(entries)?;
        Ok(TextList { entries })
    }

    pub fn items(&self) -> &[Text]
        ensures { result.now ≡ self.now }
    {
        self.entries.as_slice()
    }

    /// Returns equal texts in constant time. It allocates nothing.
    pub fn copy(&self, _alloc: Global) -> Result<TextList, Memory>
        ensures { IfOk result (λ texts. texts ≡ self.now) }
    {
        let entries = self.entries.clone()?;
        Ok(TextList { entries })
    }
}
