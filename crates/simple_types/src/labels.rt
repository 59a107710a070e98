//! The labels of the nodes of an abstract value.
ghost use Rattle.std.specs.Prelude.{◌≡◌};
ghost use Rattle.simple_types.specs.Labels.{MayHave, count_set};

use crate::integers::Integer;
use crate::lists::Flags;
use base_flat_trees::Whole;
use base_texts::{Memory, Text};
use base_trees::Shape;
use std::alloc::Global;

/// The label of a node of an abstract value, by its ASN.1 type.
#[derive(Drop)]
pub enum ValueLabel {
    /// BOOLEAN.
    Bool(bool),
    /// INTEGER.
    Int(Integer),
    /// ENUMERATED, by the number of the item from 0.
    Enum(u32),
    /// UTF8String.
    Utf8(Text),
    /// SEQUENCE, with a flag for each component whether it is present.
    Sequence { present: Flags },
    /// CHOICE, by the number of the alternative from 0.
    Choice(u32),
    /// SEQUENCE OF.
    SequenceOf,
}

/// An abstract value: a tree in which each label allows its number of children.
pub type Value = Whole<ValueLabel>;

// The number of flags that are set.
fn set_count(flags: &[bool]) -> u64
    ensures { result ≡ count_set flags.now }
{
    let mut count: u64 = 0;
    'flags: for flag in flags {
        count += u64::from(*flag);
    }
    count
}

impl Shape for ValueLabel {
    ghost allowed = { MayHave };

    fn allows(&self, kids: u64) -> bool {
        match self {
            ValueLabel::Sequence { present } => kids == set_count(present.items()),
            ValueLabel::Choice(_) => kids == 1,
            ValueLabel::SequenceOf => true,
            _ => kids == 0,
        }
    }

    fn copy(&self, alloc: Global) -> Result<ValueLabel, Memory> {
        match self {
            ValueLabel::Bool(b) => Ok(ValueLabel::Bool(*b)),
            ValueLabel::Int(n) => Ok(ValueLabel::Int(Integer::of(n.get()))),
            ValueLabel::Enum(i) => Ok(ValueLabel::Enum(*i)),
            ValueLabel::Utf8(text) => {
                let text = text.copy(alloc)?;
                Ok(ValueLabel::Utf8(text))
            }
            ValueLabel::Sequence { present } => {
                let present = present.copy(alloc)?;
                Ok(ValueLabel::Sequence { present })
            }
            ValueLabel::Choice(i) => Ok(ValueLabel::Choice(*i)),
            ValueLabel::SequenceOf => Ok(ValueLabel::SequenceOf),
        }
    }
}
