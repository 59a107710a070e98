//! Characters that are borrowed.
ghost use Rattle.std.specs.Prelude.{◌≡◌, ◌≤◌, [], IfOk, IfSome, IsTrue, IsUtf8, length, take, drop};
ghost use Rattle.xml_items.specs.Lying.{lying_bytes};

use base_texts::{Memory, Text};
use std::alloc::Global;
use std::marker::Model;

// The storage of characters.
#[derive(Drop)]
pub(crate) enum Lying<'a> {
    // The first `len` of these bytes.
    Front { bytes: &'a [u8], len: usize },
    Kept(&'a Text),
}

/// Characters of a document, seen as their bytes, which are UTF-8.
#[derive(Drop)]
pub struct Characters<'a> {
    pub(crate) lying: Lying<'a>,
}

impl<'a> Model for Characters<'a> {
    ghost use Rattle.std.specs.Prelude.{List, ℕ};

    ghost Value = { List ℕ };

    ghost use Rattle.xml_items.specs.Lying.{lying_bytes, LiesWithin};

    ghost view = { λ a. lying_bytes a.lying };

    ghost invariant = { λ a. LiesWithin a.lying };
}

impl<'a> Characters<'a> {
    /// Returns an empty run of characters.
    pub fn none() -> Characters<'a>
        ensures { result ≡ [] }
    {
        Characters {
            lying: Lying::Front { bytes: &[], len: 0 },
        }
    }

    /// Returns the bytes of the characters.
    #[inline(always)]
    pub fn bytes(&self) -> &'a [u8]
        ensures bytes { result.now ≡ self.now }
        ensures utf8 { IsUtf8 self.now }
    {
        match self.lying {
            Lying::Front { bytes, len } => &bytes[..len],
            Lying::Kept(text) => text.bytes(),
        }
    }

    /// Returns bytes and a length such that the first bytes of that number are these characters. `None` for a text that is kept.
    #[inline(always)]
    pub fn front(&self) -> Option<(&'a [u8], usize)>
        ensures { IfSome result (λ front. (front.1 ≤ length front.0.now) × IsUtf8 (take front.1 front.0.now) × (take front.1 front.0.now ≡ self.now)) }
    {
        match self.lying {
            Lying::Front { bytes, len } => Some((bytes, len)),
            Lying::Kept(_) => None,
        }
    }

    /// Returns the characters as a text. Up to 22 bytes allocate nothing, nor does a text that is kept.
    #[inline(always)]
    pub fn to_text(&self, alloc: Global) -> Result<Text, Memory>
        ensures { IfOk result (λ text. text ≡ self.now) }
    {
        match self.lying {
            Lying::Front { bytes, len } => Text::of_front(alloc, bytes, len),
            Lying::Kept(text) => copied(alloc, text),
        }
    }
}

// An equal text.
#[inline(never)]
fn copied(alloc: Global, text: &Text) -> Result<Text, Memory>
    ensures { IfOk result (λ copied. copied ≡ text.now) }
{
    text.copy(alloc)
}

// Eight of the bytes.
#[inline(always)]
fn eight_at(bytes: &[u8; 16], at: usize) -> [u8; 8]
    requires { at ≤ 8 }
    ensures { result ≡ take 8 (drop at bytes.now) }
{
    [
        bytes[at],
        bytes[at + 1],
        bytes[at + 2],
        bytes[at + 3],
        bytes[at + 4],
        bytes[at + 5],
        bytes[at + 6],
        bytes[at + 7],
    ]
}

// Whether eight of the bytes are equal. They are compared as one word.
#[inline(always)]
fn is_word_same(one: &[u8; 16], other: &[u8; 16], at: usize) -> bool
    requires { at ≤ 8 }
    ensures { IsTrue result → take 8 (drop at one.now) ≡ take 8 (drop at other.now) }
{
    u64::from_le_bytes(eight_at(one, at)) == u64::from_le_bytes(eight_at(other, at))
}

// Whether all bytes are equal.
#[inline(always)]
fn are_bytes_same(one: &[u8; 16], other: &[u8; 16]) -> bool
    ensures { IsTrue result → one.now ≡ other.now }
{
    is_word_same(one, other, 0) && is_word_same(one, other, 8)
}

/// Returns whether the first `len` bytes are equal. If they are few and both slices have 16 bytes, all 16 are compared as words:
/// then the result may be false although the first `len` are equal.
#[inline(always)]
pub(crate) fn are_fronts_same(one: &[u8], other: &[u8], len: usize) -> bool
    requires { len ≤ length other.now }
    ensures same { IsTrue result → take len one.now ≡ take len other.now }
    ensures within { IsTrue result → len ≤ length one.now }
{
    if len <= 16 {
        if let (Some(one), Some(other)) = (one.first_chunk::<16>(), other.first_chunk::<16>()) {
            return are_bytes_same(one, other);
        }
    }
    match one.get(..len) {
        None => false,
        Some(front) => front == &other[..len],
    }
}
