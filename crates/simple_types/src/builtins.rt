//! The built-in datatypes.
ghost use Rattle.std.specs.Prelude.{◌≡◌, IfOk};
ghost use Rattle.simple_types.specs.Space.{Wholes, Characters, ListOf};
ghost use Rattle.simple_types.specs.Seen.{space_of};
ghost use Rattle.simple_types.specs.Sound.{Sound};
ghost use Rattle.simple_types.specs.Builtins.{builtin_space};

use crate::simples::{Builtin, Class, Simple};
use base_texts::{Memory, WhiteSpace};
use std::alloc::Global;

#[tactic(auto, unfolding(crate::specs::Seen::space_of))]
fn whole(lo: Option<i128>, hi: Option<i128>) -> Simple
    ensures { space_of result ≡ Wholes lo hi }
{
    Simple::Whole { lo, hi }
}

#[tactic(auto, unfolding(crate::specs::Seen::space_of))]
fn characters(space: WhiteSpace, class: Class) -> Simple
    ensures { space_of result ≡ Characters space 0 None class }
{
    Simple::Chars {
        space,
        min: 0,
        max: None,
        class,
    }
}

#[tactic(auto, using(crate::proofs::Seen::list_space))]
fn name_tokens(alloc: Global) -> Result<Simple, Memory>
    ensures { IfOk result (λ simple. space_of simple ≡ builtin_space Builtin.NmTokens) }
{
    let item = Box::new(alloc, characters(WhiteSpace::Collapse, Class::NmToken))?;
    Ok(Simple::List {
        item,
        min: 1,
        max: None,
    })
}

/// Returns the simple type of a built-in datatype.
#[tactic(auto, unfolding(crate::specs::Seen::space_of))]
pub fn builtin(alloc: Global, which: Builtin) -> Result<Simple, Memory>
    ensures space { IfOk result (λ simple. space_of simple ≡ builtin_space which) }
    ensures sound { IfOk result (λ simple. Sound (space_of simple)) }
{
    Ok(match which {
        Builtin::Boolean => Simple::Bool,
        Builtin::Byte => whole(Some(-0x80), Some(0x7F)),
        Builtin::Short => whole(Some(-0x8000), Some(0x7FFF)),
        Builtin::Int => whole(Some(-0x8000_0000), Some(0x7FFF_FFFF)),
        Builtin::Long => whole(Some(-0x8000_0000_0000_0000), Some(0x7FFF_FFFF_FFFF_FFFF)),
        Builtin::UnsignedByte => whole(Some(0), Some(0xFF)),
        Builtin::UnsignedShort => whole(Some(0), Some(0xFFFF)),
        Builtin::UnsignedInt => whole(Some(0), Some(0xFFFF_FFFF)),
        Builtin::UnsignedLong => whole(Some(0), Some(0xFFFF_FFFF_FFFF_FFFF)),
        Builtin::Integer => whole(None, None),
        Builtin::NonNegativeInteger => whole(Some(0), None),
        Builtin::PositiveInteger => whole(Some(1), None),
        Builtin::NonPositiveInteger => whole(None, Some(0)),
        Builtin::NegativeInteger => whole(None, Some(-1)),
        Builtin::String => characters(WhiteSpace::Preserve, Class::Any),
        Builtin::NormalizedString => characters(WhiteSpace::Replace, Class::Any),
        Builtin::Token | Builtin::AnyUri => characters(WhiteSpace::Collapse, Class::Any),
        Builtin::Language => characters(WhiteSpace::Collapse, Class::Language),
        Builtin::NmToken => characters(WhiteSpace::Collapse, Class::NmToken),
        Builtin::Name => characters(WhiteSpace::Collapse, Class::Name),
        Builtin::NcName => characters(WhiteSpace::Collapse, Class::NcName),
        Builtin::NmTokens => name_tokens(alloc)?,
    })
}
