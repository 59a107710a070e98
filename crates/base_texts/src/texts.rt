//! Texts, seen as their bytes, and names.
ghost use Rattle.std.specs.Prelude.{◌≡◌, ◌≤◌, ◌<◌, ◌↔◌, [], IfOk, IfSome, IsTrue, IsUtf8, IsErrOf, All, length, take, drop, string_bytes, bytes_eq};
ghost use Rattle.std.specs.Cmp.{partial_order_from_own_ties};
ghost use Rattle.std.specs.Cmp.Lexicographic.{slice_cmp};
ghost use Rattle.std.specs.Cmp.Rules.{comparing, hashing};
ghost use Rattle.std.specs.Hash as fed;
ghost use Rattle.std.specs.Ordering.{nat_cmp, as_partial_cmp};
ghost use Rattle.std.proofs.Common.{rules};
ghost use Rattle.base_texts.specs.Texts.{kept_bytes};

use std::alloc::{AllocError, AllocFailed, Global};
use std::cmp::Ordering;
use std::hash::{Hash, Hasher};
use std::marker::Model;
use std::mem::size_of;
use std::str;
use std::sync::ArcStr;
use thiserror::Error;

/// Out of memory.
#[derive(Clone, Copy, Debug, PartialEq, Eq, Error)]
#[error("out of memory")]
pub struct Memory;

impl From<AllocError> for Memory {
    fn from(_: AllocError) -> Memory {
        Memory
    }
}

impl<T: Drop> From<AllocFailed<T>> for Memory {
    fn from(_: AllocFailed<T>) -> Memory {
        Memory
    }
}

/// The reasons why bytes make no text.
#[derive(Clone, Copy, Debug, Error)]
pub enum TextError {
    #[error("not valid UTF-8")]
    NotUtf8,
    #[error("out of memory")]
    Memory,
}

/// Returns the bytes as a `str`. They aren't tested, since they are known to be UTF-8.
pub fn utf8_text(bytes: &[u8]) -> &str
    requires { IsUtf8 bytes.now }
    ensures { result.now ≡ bytes.now }
{
    unsafe { str::from_utf8_unchecked(bytes) }
}

/// The greatest number of bytes of a text that is stored in place. With its length and the tag of its storage a text has 24
/// bytes, as a `String` has.
pub const ROOM: usize = 22;

// Whether all bytes are ASCII characters.
#[inline(always)]
fn are_ascii(bytes: &[u8]) -> bool
    ensures { IsTrue result ↔ All (λ b. b < 128) bytes.now }
{
    bytes.iter().all(|byte| *byte < 128)
}

// Eight of the bytes.
#[inline(always)]
fn eight_at(bytes: &[u8; ROOM], at: usize) -> [u8; 8]
    requires { at ≤ 14 }
    ensures { result ≡ take 8 (drop at bytes.now) }
{
    [
        bytes[at],
        bytes[at + 1],
        bytes[at + 2],
        bytes[at + 3],
        bytes[at + 4],
        bytes[at + 5],
        bytes[at + 6],
        bytes[at + 7],
    ]
}

// Whether eight of the bytes are equal. They are compared as one word.
#[inline(always)]
fn is_word_same(one: &[u8; ROOM], other: &[u8; ROOM], at: usize) -> bool
    requires { at ≤ 14 }
    ensures { IsTrue result → take 8 (drop at one.now) ≡ take 8 (drop at other.now) }
{
    u64::from_le_bytes(eight_at(one, at)) == u64::from_le_bytes(eight_at(other, at))
}

// Whether all bytes are equal.
#[inline(always)]
fn are_bytes_same(one: &[u8; ROOM], other: &[u8; ROOM]) -> bool
    ensures { IsTrue result → one.now ≡ other.now }
{
    is_word_same(one, other, 0) && is_word_same(one, other, 8) && is_word_same(one, other, 14)
}

// Valid UTF-8 in place.
#[derive(Drop)]
struct Short {
    len: u8,
    bytes: [u8; ROOM],
}

impl Model for Short {
    ghost use Rattle.std.specs.Prelude.{List, ℕ, ◌≤◌, take, IsUtf8};

    ghost Value = { List ℕ };

    ghost view = { λ s. take s.len s.bytes };

    ghost invariant = { λ s. (s.len ≤ 22) × ∥ IsUtf8 (take s.len s.bytes) ∥₁ };
}

impl Short {
    // The text in place.
    fn of(text: &str) -> Short
        requires { length text.now ≤ 22 }
        ensures { result ≡ text.now }
    {
        let mut bytes = [0; ROOM];
        bytes[..text.len()].copy_from_slice(text.as_bytes());
        Short {
            len: text.len() as u8,
            bytes,
        }
    }

    // Whether all stored bytes are equal, including the unused ones after the texts.
    #[inline(always)]
    fn is_alike(&self, other: &Short) -> bool
        ensures { IsTrue result → self.now ≡ other.now }
    {
        self.len == other.len && are_bytes_same(&self.bytes, &other.bytes)
    }

    fn as_str(&self) -> &str
        ensures { result.now ≡ self.now }
    {
        unsafe { str::from_utf8_unchecked(&self.bytes[..self.len as usize]) }
    }
}

// The storage of a text. Copies of a long text share its bytes.
#[derive(Drop)]
enum Storage {
    Here(Short),
    There(ArcStr),
}

impl Storage {
    // Whether both are stored in place and their bytes are equal.
    #[inline(always)]
    fn is_alike(&self, other: &Storage) -> bool
        ensures { IsTrue result → kept_bytes self.now ≡ kept_bytes other.now }
    {
        match self {
            Storage::There(_) => false,
            Storage::Here(one) => match other {
                Storage::There(_) => false,
                Storage::Here(other) => one.is_alike(other),
            },
        }
    }
}

/// Valid UTF-8, seen as its bytes. A text of up to 22 bytes allocates nothing, nor does a copy of a longer text.
#[derive(Drop)]
pub struct Text {
    kept: Storage,
}

impl Model for Text {
    ghost use Rattle.std.specs.Prelude.{List, ℕ};

    ghost Value = { List ℕ };

    ghost use Rattle.base_texts.specs.Texts.{kept_bytes};

    ghost view = { λ a. kept_bytes a.kept };
}

impl Text {
    /// Returns the empty text.
    pub fn empty() -> Text
        ensures { result ≡ [] }
    {
        Text::here("")
    }

    // A short text.
    fn here(text: &str) -> Text
        requires { length text.now ≤ 22 }
        ensures { result ≡ text.now }
    {
        Text {
            kept: Storage::Here(Short::of(text)),
        }
    }

    /// Returns an equal text.
    pub fn from_str(alloc: Global, text: &str) -> Result<Text, Memory>
        ensures { IfOk result (λ made. made ≡ text.now) }
    {
        if text.len() <= ROOM {
            return Ok(Text::here(text));
        }
        let long = ArcStr::from_str(alloc, text)?;
        Ok(Text {
            kept: Storage::There(long),
        })
    }

    /// Returns a text of these bytes, which are copied. They aren't tested, since they are known to be UTF-8.
    #[inline(never)]
    pub fn from_utf8(alloc: Global, bytes: &[u8]) -> Result<Text, Memory>
        requires { IsUtf8 bytes.now }
        ensures { IfOk result (λ made. made ≡ bytes.now) }
    {
        Text::from_str(alloc, utf8_text(bytes))
    }

    /// Returns the text of the string.
    pub fn from_string(string: String) -> Result<Text, Memory>
        ensures { IfOk result (λ made. made ≡ string_bytes string) }
    {
        if string.len() <= ROOM {
            return Ok(Text::here(string.as_str()));
        }
        let long = ArcStr::from_string(string)?;
        Ok(Text {
            kept: Storage::There(long),
        })
    }

    /// Returns a text of these bytes, which are copied.
    pub fn of(alloc: Global, bytes: &[u8]) -> Result<Text, TextError>
        ensures ok { IfOk result (λ text. (text ≡ bytes.now) × IsUtf8 bytes.now) }
        ensures not_utf8 { IsErrOf result TextError.NotUtf8 → ¬ IsUtf8 bytes.now }
        ensures memory { IsErrOf result TextError.Memory → IsUtf8 bytes.now }
    {
        let Ok(read) = simdutf8::basic::from_utf8(bytes) else {
            return Err(TextError::NotUtf8);
        };
        match Text::from_str(alloc, read) {
            Ok(text) => Ok(text),
            Err(_) => Err(TextError::Memory),
        }
    }

    /// Returns the text of the first `len` bytes of an array, stored in place, if they are ASCII characters.
    #[inline(always)]
    pub fn of_ascii(bytes: [u8; ROOM], len: usize) -> Option<Text>
        requires { len ≤ 22 }
        ensures some { IfSome result (λ text. (text ≡ take len bytes) × IsUtf8 (take len bytes)) }
    {
        if !are_ascii(&bytes[..len]) {
            return None;
        }
        Some(Text {
            kept: Storage::Here(Short {
                len: len as u8,
                bytes,
            }),
        })
    }

    /// Returns the text of the first `len` bytes, which are copied. A short text is copied as one block of `ROOM` bytes where the
    /// slice has that many. The bytes aren't tested, since they are known to be UTF-8.
    #[inline(always)]
    pub fn of_front(alloc: Global, bytes: &[u8], len: usize) -> Result<Text, Memory>
        requires within { len ≤ length bytes.now }
        requires utf8 { IsUtf8 (take len bytes.now) }
        ensures { IfOk result (λ text. text ≡ take len bytes.now) }
    {
        if len <= ROOM {
            if let Some(front) = bytes.first_chunk::<ROOM>() {
                return Ok(Text {
                    kept: Storage::Here(Short {
                        len: len as u8,
                        bytes: *front,
                    }),
                });
            }
        }
        Text::from_utf8(alloc, &bytes[..len])
    }

    /// Returns an equal text. It allocates nothing.
    pub fn copy(&self, _alloc: Global) -> Result<Text, Memory>
        ensures { IfOk result (λ text. text ≡ self.now) }
    {
        match &self.kept {
            Storage::Here(short) => Ok(Text {
                kept: Storage::Here(Short {
                    len: short.len,
                    bytes: short.bytes,
                }),
            }),
            Storage::There(long) => {
                let long = long.clone()?;
                Ok(Text {
                    kept: Storage::There(long),
                })
            }
        }
    }

    /// Returns the bytes of the text.
    pub fn bytes(&self) -> &[u8]
        ensures bytes { result.now ≡ self.now }
        ensures utf8 { IsUtf8 self.now }
    {
        self.as_str().as_bytes()
    }

    /// Returns the text as a `str`.
    pub fn as_str(&self) -> &str
        ensures { result.now ≡ self.now }
    {
        match &self.kept {
            Storage::Here(short) => short.as_str(),
            Storage::There(long) => long.as_str(),
        }
    }
}

const _: () = prove!(size_of::<Text>() == 24);

impl PartialEq for Text {
    ghost eq = { bytes_eq };

    ghost laws = { Prim.search (comparing, rules) };

    #[inline(always)]
    fn eq(&self, other: &Text) -> bool {
        if self.kept.is_alike(&other.kept) {
            return true;
        }
        self.bytes() == other.bytes()
    }
}

impl Eq for Text {
    ghost laws = { Prim.search (comparing, rules) };
}

/// Texts are ordered by their bytes, which is the order of their code points.
impl Ord for Text {
    ghost cmp = { slice_cmp nat_cmp };

    ghost total = { Prim.search (comparing, rules) };

    ghost matches_partial_cmp = { Prim.search (comparing, rules) };

    ghost matches_eq = { Prim.search (comparing, rules) };

    fn cmp(&self, other: &Text) -> Ordering {
        self.bytes().cmp(other.bytes())
    }
}

impl PartialOrd for Text {
    ghost partial_cmp = { as_partial_cmp (slice_cmp nat_cmp) };

    ghost laws = { partial_order_from_own_ties (Prim.search (comparing, rules)) (Prim.search (comparing, rules)) };

    fn partial_cmp(&self, other: &Text) -> Option<Ordering> {
        Some(self.cmp(other))
    }
}

impl Hash for Text {
    ghost hash_input = { fed.str };

    ghost respects_eq = { Prim.search (hashing, rules) };

    fn hash<H: Hasher>(&self, state: &mut H) {
        self.as_str().hash(state);
    }
}

/// A name in a namespace. The empty text means no namespace. Names are ordered by namespace, and within one namespace by local
/// name.
#[derive(PartialEq, Eq, PartialOrd, Ord, Hash, Drop)]
pub struct Name {
    pub space: Text,
    pub local: Text,
}

impl Name {
    /// Returns an equal name.
    pub fn copy(&self, alloc: Global) -> Result<Name, Memory>
        ensures { IfOk result (λ name. name ≡ self.now) }
    {
        let space = self.space.copy(alloc)?;
        let local = self.local.copy(alloc)?;
        Ok(Name { space, local })
    }
}
