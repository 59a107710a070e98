//! A summary of encoding instructions, found once when the list is built.
ghost use Rattle.std.specs.Prelude.{◌≡◌};
ghost use Rattle.asn_types.specs.Private.Saying as saying;

use crate::marks::Instruction;
use base_texts::WhiteSpace;

/// A summary of encoding instructions.
#[derive(Drop)]
pub(crate) struct Said {
    pub(crate) attribute: bool,
    pub(crate) untagged: bool,
    pub(crate) use_nil: bool,
    pub(crate) embed_values: bool,
    pub(crate) use_order: bool,
    pub(crate) list: bool,
    pub(crate) use_union: bool,
    // The treatment of the first WHITESPACE, or to preserve if there is none.
    pub(crate) white_space: WhiteSpace,
    // The place of the first NAME, from 0. Without one it is at least the number of instructions.
    pub(crate) name_at: usize,
    // The place of the first NAMESPACE, from 0. Without one it is at least the number of instructions.
    pub(crate) namespace_at: usize,
}

impl Said {
    // Adds an instruction at this place, which precedes those added so far.
    fn put(&mut self, at: usize, mark: &Instruction)
        ensures { self.new ≡ saying.with_mark self.old at mark.now }
    {
        match mark {
            Instruction::Attribute => self.attribute = true,
            Instruction::Untagged => self.untagged = true,
            Instruction::Name(_) => self.name_at = at,
            Instruction::Namespace(_) => self.namespace_at = at,
            Instruction::UseNil => self.use_nil = true,
            Instruction::EmbedValues => self.embed_values = true,
            Instruction::UseOrder => self.use_order = true,
            Instruction::List => self.list = true,
            Instruction::UseUnion => self.use_union = true,
            Instruction::UseNumber => {}
            Instruction::WhiteSpace(how) => self.white_space = *how,
            Instruction::Text { .. } => {}
        }
    }

    /// Returns the summary of these instructions. It visits each once, from the last to the first, so that the first of a kind
    /// counts.
    pub(crate) fn of(marks: &[Instruction]) -> Said
        ensures { saying.IsSaid marks.now 0 result }
    {
        let mut i = marks.len();
        let mut said = Said {
            attribute: false,
            untagged: false,
            use_nil: false,
            embed_values: false,
            use_order: false,
            list: false,
            use_union: false,
            white_space: WhiteSpace::Preserve,
            name_at: i,
            namespace_at: i,
        };
        'last_first: while i > 0 {
            i -= 1;
            said.put(i, &marks[i]);
        }
        said
    }
}
