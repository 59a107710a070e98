//! Tests bytes for a tag that was guessed.
ghost use Rattle.std.specs.Prelude.{◌≡◌, ◌∷◌, ◌++◌, IfSome, IsUtf8};
ghost use Rattle.xml_read.specs.Private.Building.{IsLeaf};

use xml_pieces::plain_run;

// The rest after `<`, if it is at the start.
#[inline(always)]
pub(crate) fn past_less(bytes: &[u8]) -> Option<&[u8]>
    ensures { IfSome result (λ behind. bytes.now ≡ 0x3C ∷ behind.now) }
{
    match bytes {
        [b'<', behind @ ..] => Some(behind),
        _ => None,
    }
}

// The rest after `</`, if it is at the start.
#[inline(always)]
pub(crate) fn past_slash(bytes: &[u8]) -> Option<&[u8]>
    ensures { IfSome result (λ behind. bytes.now ≡ 0x3C ∷ 0x2F ∷ behind.now) }
{
    match bytes {
        [b'<', b'/', behind @ ..] => Some(behind),
        _ => None,
    }
}

// The rest after this name and a `>`, if they are at the start.
#[inline(always)]
pub(crate) fn past_tag<'a>(name: &[u8], bytes: &'a [u8]) -> Option<&'a [u8]>
    ensures { IfSome result (λ behind. bytes.now ≡ name.now ++ 0x3E ∷ behind.now) }
{
    if bytes.len() <= name.len() {
        return None;
    }
    let mut at = 0;
    'bytes: while at < name.len() {
        if bytes[at] != name[at] {
            return None;
        }
        at += 1;
    }
    if bytes[at] == b'>' {
        Some(&bytes[at + 1..])
    } else {
        None
    }
}

// The number of bytes of plain characters at the start, and the rest after the end tag of this name, if there are such characters
// and the tag follows them.
#[inline(always)]
pub(crate) fn past_leaf<'a>(name: &[u8], inner: &'a [u8]) -> Option<(usize, &'a [u8])>
    requires { IsUtf8 inner.now }
    ensures { IfSome result (λ leaf. IsLeaf name.now inner.now leaf.0 leaf.1.now) }
{
    let len = plain_run(inner);
    if len == 0 {
        return None;
    }
    let tag = past_slash(&inner[len..])?;
    let behind = past_tag(name, tag)?;
    Some((len, behind))
}
