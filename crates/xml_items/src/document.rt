//! The bytes of a document.
ghost use Rattle.std.specs.Prelude.{◌≡◌, IfOk};

use base_texts::Memory;
use std::marker::Model;
use std::rc::RcSlice;

/// The bytes of a document, which its owners share.
#[derive(Drop)]
pub struct Document {
    bytes: RcSlice<u8>,
}

impl Model for Document {
    ghost use Rattle.std.specs.Prelude.{List, ℕ};
    ghost use Rattle.std.specs.Rc.{rc_slice_items};

    ghost Value = { List ℕ };

    ghost view = { λ a. rc_slice_items a.bytes };
}

impl Document {
    /// Returns the document of these bytes, which aren't copied.
    pub fn of(bytes: Vec<u8>) -> Result<Document, Memory>
        ensures { IfOk result (λ document. document ≡ bytes.items) }
    {
        let bytes = RcSlice::from_vec(bytes)?;
        Ok(Document { bytes })
    }

    pub fn bytes(&self) -> &[u8]
        ensures { result.now ≡ self.now }
    {
        self.bytes.as_slice()
    }

    /// Returns another handle to this document, which shares its bytes. Allocates nothing.
    pub fn share(&self) -> Result<Document, Memory>
        ensures { IfOk result (λ document. document ≡ self.now) }
    {
        let bytes = self.bytes.clone()?;
        Ok(Document { bytes })
    }
}
