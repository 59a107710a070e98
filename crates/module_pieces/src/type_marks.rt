//! Encoding instructions of types.
ghost use Rattle.std.specs.Prelude.{◌≡◌};
ghost use Rattle.module_text.specs.Ranks.{rank_of_type_mark};
ghost use Rattle.module_text.specs.Told as told;
ghost use Rattle.module_text.specs.Marks as may;

use base_texts::WhiteSpace;
use module_text::{Alone, TypeMark, TypeMarkKind};

fn is_use_nil(mark: &TypeMark) -> bool
    ensures { result ≡ told.is_use_nil mark.now }
{
    matches!(mark.kind, TypeMarkKind::UseNil)
}

fn is_embed_values(mark: &TypeMark) -> bool
    ensures { result ≡ told.is_embed_values mark.now }
{
    matches!(mark.kind, TypeMarkKind::EmbedValues)
}

fn is_use_order(mark: &TypeMark) -> bool
    ensures { result ≡ told.is_use_order mark.now }
{
    matches!(mark.kind, TypeMarkKind::UseOrder)
}

fn is_list(mark: &TypeMark) -> bool
    ensures { result ≡ told.is_list mark.now }
{
    matches!(mark.kind, TypeMarkKind::List)
}

fn is_use_union(mark: &TypeMark) -> bool
    ensures { result ≡ told.is_use_union mark.now }
{
    matches!(mark.kind, TypeMarkKind::UseUnion)
}

fn is_no_text(mark: &TypeMark) -> bool
    ensures { result ≡ told.is_no_text mark.now }
{
    !matches!(mark.kind, TypeMarkKind::Text { .. })
}

/// Returns whether USE-NIL is among them.
pub fn has_use_nil(marks: &[TypeMark]) -> bool
    ensures { result ≡ told.has_use_nil marks.now }
{
    marks.iter().any(is_use_nil)
}

/// Returns whether EMBED-VALUES is among them.
pub fn has_embed_values(marks: &[TypeMark]) -> bool
    ensures { result ≡ told.has_embed_values marks.now }
{
    marks.iter().any(is_embed_values)
}

/// Returns whether USE-ORDER is among them.
pub fn has_use_order(marks: &[TypeMark]) -> bool
    ensures { result ≡ told.has_use_order marks.now }
{
    marks.iter().any(is_use_order)
}

/// Returns whether LIST is among them.
pub fn has_list(marks: &[TypeMark]) -> bool
    ensures { result ≡ told.has_list marks.now }
{
    marks.iter().any(is_list)
}

/// Returns whether USE-UNION is among them.
pub fn has_use_union(marks: &[TypeMark]) -> bool
    ensures { result ≡ told.has_use_union marks.now }
{
    marks.iter().any(is_use_union)
}

fn alone_as(kind: &TypeMarkKind) -> Alone
    ensures { result ≡ told.alone_as kind.now }
{
    match kind {
        TypeMarkKind::UseNumber => Alone::UseNumber,
        TypeMarkKind::List => Alone::List,
        TypeMarkKind::UseUnion => Alone::UseUnion,
        TypeMarkKind::Replace => Alone::WhiteSpace {
            how: WhiteSpace::Replace,
        },
        TypeMarkKind::Collapse => Alone::WhiteSpace {
            how: WhiteSpace::Collapse,
        },
        _ => Alone::Other,
    }
}

// Returns what the instructions state with one more after them.
fn with_mark(seen: Alone, mark: &TypeMark) -> Alone
    ensures { result ≡ told.with_mark seen mark.now }
{
    if !is_no_text(mark) {
        return seen;
    }
    match seen {
        Alone::Nothing => alone_as(&mark.kind),
        _ => Alone::Other,
    }
}

/// Returns what the instructions state of a simple type.
pub fn told_alone(marks: &[TypeMark]) -> Alone
    ensures { result ≡ told.told_alone marks.now }
{
    let mut seen = Alone::Nothing;
    'marks: for mark in marks {
        seen = with_mark(seen, mark);
    }
    seen
}

/// Returns the treatment of white space, if the instructions state nothing else.
pub fn white_space_alone(alone: Alone) -> Option<WhiteSpace>
    ensures { result ≡ told.white_space_alone alone }
{
    match alone {
        Alone::Nothing => Some(WhiteSpace::Preserve),
        Alone::WhiteSpace { how } => Some(how),
        _ => None,
    }
}

/// Returns the position of an instruction among others.
pub fn rank(kind: &TypeMarkKind) -> u8
    ensures { result ≡ rank_of_type_mark kind.now }
{
    match kind {
        TypeMarkKind::UseNil => 4,
        TypeMarkKind::EmbedValues => 5,
        TypeMarkKind::UseOrder => 6,
        TypeMarkKind::List => 7,
        TypeMarkKind::UseUnion => 8,
        TypeMarkKind::UseNumber => 9,
        TypeMarkKind::Replace => 10,
        TypeMarkKind::Collapse => 10,
        TypeMarkKind::Text { .. } => 11,
    }
}

/// Returns whether an instruction of this rank may follow one of rank `before`. Each appears once, except TEXT.
pub fn stands_once(before: Option<u8>, rank: u8) -> bool
    ensures { result ≡ may.stands_once before rank }
{
    rank == 11 || before != Some(rank)
}
