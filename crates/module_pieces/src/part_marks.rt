//! Encoding instructions of parts and assignments.
ghost use Rattle.std.specs.Prelude.{◌≡◌, None};
ghost use Rattle.module_text.specs.Listed.{first};
ghost use Rattle.module_text.specs.Told as told;
ghost use Rattle.module_text.specs.Marks as may;
ghost use Rattle.module_text.specs.Faults as rule;
ghost use Rattle.module_text.specs.Ranks.{rank_of_part_mark};

use crate::finding::unless;
use crate::names::{is_told_so, is_xml_text};
use module_text::{ModuleWhy, NameAs, PartMark, PartMarkKind, TextFault};

fn is_attribute(mark: &PartMark) -> bool
    ensures { result ≡ told.is_attribute mark.now }
{
    matches!(mark.kind, PartMarkKind::Attribute)
}

fn is_untagged(mark: &PartMark) -> bool
    ensures { result ≡ told.is_untagged mark.now }
{
    matches!(mark.kind, PartMarkKind::Untagged)
}

fn is_name(mark: &PartMark) -> bool
    ensures { result ≡ told.is_name mark.now }
{
    matches!(mark.kind, PartMarkKind::Name { .. })
}

/// Returns whether ATTRIBUTE is among them.
pub fn has_attribute(marks: &[PartMark]) -> bool
    ensures { result ≡ told.has_attribute marks.now }
{
    marks.iter().any(is_attribute)
}

/// Returns whether UNTAGGED is among them.
pub fn has_untagged(marks: &[PartMark]) -> bool
    ensures { result ≡ told.has_untagged marks.now }
{
    marks.iter().any(is_untagged)
}

/// Returns whether all of them are NAME.
pub fn have_names_alone(marks: &[PartMark]) -> bool
    ensures { result ≡ told.have_names_alone marks.now }
{
    marks.iter().all(is_name)
}

fn rank(kind: &PartMarkKind) -> u8
    ensures { result ≡ rank_of_part_mark kind.now }
{
    match kind {
        PartMarkKind::Attribute => 0,
        PartMarkKind::Untagged => 1,
        PartMarkKind::Name { .. } => 2,
        PartMarkKind::Namespace { .. } => 3,
    }
}

// Returns whether the name may be given next to this generated name.
fn may_name(generated: &[u8], name: &NameAs) -> bool
    ensures { result ≡ may.may_name generated.now name.now }
{
    !generated.is_empty() && is_told_so(generated, name)
}

// Returns whether an instruction may appear at a part or an assignment of this name.
fn may_stand(simple: bool, generated: &[u8], kind: &PartMarkKind) -> bool
    ensures { result ≡ may.part_mark_may simple generated.now kind.now }
{
    match kind {
        PartMarkKind::Attribute => simple,
        PartMarkKind::Untagged => true,
        PartMarkKind::Name { name } => may_name(generated, name),
        PartMarkKind::Namespace { space } => is_xml_text(space.bytes()),
    }
}

// Returns whether an instruction may follow one of this rank at a part or an assignment of this name.
fn stands(simple: bool, generated: &[u8], before: Option<u8>, mark: &PartMark) -> bool
    ensures { result ≡ may.part_mark_stands simple generated.now before mark.now }
{
    before != Some(rank(&mark.kind)) && may_stand(simple, generated, &mark.kind)
}

/// Returns the first fault of the instructions of a part or an assignment of this name. `simple` states whether its type represents
/// a simple type.
#[tactic(auto, using(crate::proofs::Firsts::firsts))]
pub fn part_mark_fault(simple: bool, generated: &[u8], marks: &[PartMark]) -> Option<TextFault>
    ensures { result ≡ first (rule.part_mark_faults simple generated.now None marks.now) }
{
    let mut before = None;
    'marks: for mark in marks {
        if !stands(simple, generated, before, mark) {
            return Some(TextFault {
                at: mark.at,
                why: ModuleWhy::Spelling,
            });
        }
        before = Some(rank(&mark.kind));
    }
    None
}
