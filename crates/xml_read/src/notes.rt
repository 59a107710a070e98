//! Written names of tags with the names that they denote.
ghost use Rattle.std.specs.Prelude.{◌≡◌, ◌∷◌, ◌++◌, [], List, ℕ, false, IfSome, OnOk};
ghost use Rattle.base_texts.specs.declared.texts.Name.{Name};
ghost use Rattle.xml_read.specs.Private.Noting.{AllKnown, KnownAs};

use base_texts::Memory;
use std::alloc::Global;
use xml_items::ElementName;

// The number of places for written names, and the greatest number of notes.
const LOOKS: usize = 32;

/// Written names of tags, each with the number of the name that it denotes where the reader is. Each is looked up at one place,
/// given by its length and its first and last byte, so one comparison finds it.
#[derive(Drop)]
pub(crate) struct Notes<'a> {
    pub(crate) written: Vec<&'a [u8]>,
    pub(crate) names: Vec<ElementName>,
    // The number of the last note at each place.
    looks: [u32; LOOKS],
    // For the number of each note, the number of the note that followed it last.
    after: [u32; LOOKS],
    // The number of the note that came last.
    last: u32,
}

/// A written name, the number of the name that it denotes, and the number of this note.
#[derive(Drop)]
pub(crate) struct Note<'a> {
    pub(crate) written: &'a [u8],
    pub(crate) name: ElementName,
    pub(crate) number: u32,
}

// The place of a written name.
#[inline(always)]
fn look_of(written: &[u8]) -> usize {
    match written {
        [first, .., last] => {
            let look = (written.len() % LOOKS) * 5 + *first as usize + *last as usize * 3;
            look % LOOKS
        }
        _ => 0,
    }
}

impl<'a> Notes<'a> {
    /// Returns an empty collection. It allocates nothing.
    pub(crate) fn new(alloc: Global) -> Notes<'a>
        ensures written { result.written.items ≡ [] }
        ensures names { result.names.items ≡ [] }
    {
        Notes {
            written: Vec::new(alloc),
            names: Vec::new(alloc),
            looks: [0; LOOKS],
            after: [0; LOOKS],
            last: 0,
        }
    }

    // The note with this number.
    #[inline(always)]
    fn noted(&self, number: u32) -> Option<Note<'a>>
        ensures { (inside : List (List ℕ × List ℕ)) (names : List Name) → AllKnown inside names self.now.written.items self.now.names.items → IfSome result (λ note. KnownAs inside names note.written.now note.name) }
    {
        let written = *self.written.get(number as usize)?;
        let name = *self.names.get(number as usize)?;
        Some(Note {
            written,
            name,
            number,
        })
    }

    /// Returns the note of this written name.
    #[inline(always)]
    pub(crate) fn find(&self, written: &[u8]) -> Option<Note<'a>>
        ensures same { IfSome result (λ note. note.written.now ≡ written.now) }
        ensures known { (inside : List (List ℕ × List ℕ)) (names : List Name) → AllKnown inside names self.now.written.items self.now.names.items → IfSome result (λ note. KnownAs inside names note.written.now note.name) }
    {
        let number = *self.looks.get(look_of(written))?;
        let Some(note) = self.noted(number) else {
            return None;
        };
        if note.written == written {
            Some(note)
        } else {
            None
        }
    }

    /// Returns the note that last followed the current one.
    #[inline(always)]
    pub(crate) fn guess(&self) -> Option<Note<'a>>
        ensures { (inside : List (List ℕ × List ℕ)) (names : List Name) → AllKnown inside names self.now.written.items self.now.names.items → IfSome result (λ note. KnownAs inside names note.written.now note.name) }
    {
        let number = *self.after.get(self.last as usize)?;
        self.noted(number)
    }

    /// Records that the note with this number was used.
    #[inline(always)]
    pub(crate) fn came(&mut self, number: u32)
        ensures written { self.new.written.items ≡ self.old.written.items }
        ensures names { self.new.names.items ≡ self.old.names.items }
    {
        let last = self.last as usize;
        if last < LOOKS {
            self.after[last] = number;
        }
        self.last = number;
    }

    // Adds a note of a name.
    #[inline(always)]
    fn keep(&mut self, written: &'a [u8], name: ElementName) -> Result<(), Memory>
        ensures written { OnOk result (self.new.written.items ≡ self.old.written.items ++ written.entry ∷ []) }
        ensures names { OnOk result (self.new.names.items ≡ self.old.names.items ++ name ∷ []) }
    {
        let number = self.written.len();
        self.written.push(written)?;
        self.names.push(name)?;
        let look = look_of(written);
        if look < LOOKS {
            if number < LOOKS {
                self.looks[look] = number as u32;
            }
        }
        Ok(())
    }

    // Drops all notes.
    fn clear(&mut self)
        ensures written { self.new.written.items ≡ [] }
        ensures names { self.new.names.items ≡ [] }
    {
        self.written.clear();
        self.names.clear();
    }

    /// Adds a note of the name of an element that is entered. If the element binds prefixes, or there are many notes, the other
    /// notes are dropped.
    pub(crate) fn note_entered(
        &mut self,
        binds: bool,
        written: &'a [u8],
        name: ElementName,
    ) -> Result<(), Memory>
        ensures { OnOk result ((outer inside : List (List ℕ × List ℕ)) (names : List Name) → (binds ≡ false → inside ≡ outer) → AllKnown outer names self.old.written.items self.old.names.items → KnownAs inside names written.now name → AllKnown inside names self.new.written.items self.new.names.items) }
    {
        if binds {
            self.clear();
            return self.keep(written, name);
        }
        if self.written.len() >= LOOKS {
            self.clear();
            return self.keep(written, name);
        }
        self.keep(written, name)
    }

    /// Drops all notes when an element is left that binds `count` prefixes, unless it binds none.
    #[inline(always)]
    pub(crate) fn note_left(&mut self, count: usize)
        ensures { (inside outer : List (List ℕ × List ℕ)) (names : List Name) → (count ≡ 0 → outer ≡ inside) → AllKnown inside names self.old.written.items self.old.names.items → AllKnown outer names self.new.written.items self.new.names.items }
    {
        if count == 0 {
            return;
        }
        self.clear();
    }
}
