//! The state of a reader, and its step at each piece.
ghost use Rattle.std.specs.Prelude.{if◌then◌else◌, cond, not, true, false, string_bytes, nat_le, encode_utf8, ◌≡◌, ◌==◌, ◌<◌, ◌≤◌, ◌&&◌, ◌∷◌, [], None, reverse, take, IfOk, IfErr, IfSome, IsUtf8, MatchOption, OnOk, length, ℕ, ◌+◌};
ghost use Rattle.base_texts.specs.WhiteSpace.{is_white_space};
ghost use Rattle.base_texts.specs.Limits.{is_empty};
ghost use Rattle.xml_pieces.specs.Pieces as pieces;
ghost use Rattle.xml_pieces.specs.Found.{seen, tag_seen, bytes_of};
ghost use Rattle.std.specs.List.{prefix_len};
ghost use Rattle.xml_pieces.specs.Reasons.{IsPlainRun, is_plain_byte};
ghost use Rattle.xml_read.specs.Contexts.{is_outside, is_innermost, end_tests, reason, scope, brackets_after};
ghost use Rattle.base_texts.specs.Entries.{first_true};
ghost use Rattle.base_flat_trees.specs.Zips as zips;
ghost use Rattle.xml_read.specs.Private.States.{context, nothing, added, passed};
ghost use Rattle.xml_read.specs.Private.Entering.{Stopped, have_utf8};
ghost use Rattle.xml_read.specs.declared.error.DocWhy.TheVariants as why;
ghost use Rattle.xml_read.specs.Private.Noting.{KnownAs, bare};
ghost use Rattle.xml_read.specs.Private.Building.{state, depth_of, tag_of, CanOpen, Opens, StopsFirst, Scoped, Takes, TakesFirst, TakesKnown, EndsInnermost, Begins, Flushed, Shuts, Kept, GivesUtf8};

use crate::error::{DocError, DocWhy};
use crate::notes::{Note, Notes};
use crate::past::{past_leaf, past_less, past_slash, past_tag};
use crate::tags::{TagPlace, check_place, enter, is_unbound, value_of};
use base_texts::{Memory, Text, utf8_text};
use std::alloc::Global;
use xml_items::{ElementName, ItemBuilder, ItemTree};
use xml_pieces::{BindingsInScope, Element, Found, is_long, is_qname, plain_run, prefix_of};

#[derive(Drop)]
pub(crate) struct Builder<'a> {
    alloc: Global,
    scope: BindingsInScope<'a>,
    // The nodes so far. The open nodes are the open elements.
    items: ItemBuilder,
    // The written names of the open elements, the innermost last.
    open: Vec<&'a [u8]>,
    // The names of tags that were read while the same bindings were in scope.
    notes: Notes<'a>,
    // The characters after these nodes, which are no node yet.
    text: String,
    text_at: u64,
    pub(crate) ended: bool,
    pub(crate) first: bool,
    // The number of literal `]` directly before, where 2 means 2 or more.
    brackets: u8,
}

// The input that begins an element.
#[derive(Clone, Copy)]
pub(crate) enum Opening<'t, 'a> {
    // A start tag as it was read.
    Read(&'t Element<'a>),
    // A start tag without attributes, whose name has a note.
    Noted(&'t Note<'a>),
    // Such a tag, then `len` plain characters, then the end tag.
    Leaf {
        note: &'t Note<'a>,
        inner: &'a [u8],
        len: usize,
    },
}

#[tactic(auto, unfolding(base_texts::specs::WhiteSpace::is_white_space))]
fn is_white_char(c: char) -> bool
    ensures { result ≡ is_white_space c }
{
    matches!(c, ' ' | '\t' | '\n' | '\r')
}

// Whether the character is a `>` after `]]`.
fn is_closing(c: char, brackets: u8) -> bool
    ensures { result ≡ (c == 0x3E && nat_le 2 brackets) }
{
    c == '>' && brackets >= 2
}

// The number of literal `]` up to and including this character.
fn count_brackets(c: char, before: u8) -> u8
    ensures { result ≡ brackets_after c before }
{
    if c != ']' {
        0
    } else if before == 0 {
        1
    } else {
        2
    }
}

impl<'a> Builder<'a> {
    // A reader that has read nothing, with an empty builder of items.
    pub(crate) fn new(alloc: Global, items: ItemBuilder) -> Result<Builder<'a>, Memory>
        requires { items.zip ≡ zips.nothing }
        ensures { IfOk result Begins }
    {
        let scope = BindingsInScope::new(alloc)?;
        let notes = Notes::new(alloc);
        Ok(Builder {
            alloc,
            scope,
            items,
            open: Vec::new(alloc),
            notes,
            text: String::new(alloc),
            text_at: 0,
            ended: false,
            first: true,
            brackets: 0,
        })
    }

    // Makes a node of the characters so far.
    #[inline(always)]
    fn flush(&mut self) -> Result<(), Memory>
        ensures { OnOk result (Flushed self.old self.new) }
    {
        if self.text.is_empty() {
            return Ok(());
        }
        let text = Text::from_str(self.alloc, self.text.as_str())?;
        self.items.text(text, self.text_at)?;
        self.text.clear();
        Ok(())
    }

    // Returns the place of a tag at this offset.
    #[inline(always)]
    fn tag_place(&self, at: u64) -> TagPlace
        ensures ended { result.ended ≡ self.now.ended }
        ensures depth { result.depth ≡ depth_of self.now }
        ensures at { result.at ≡ at }
    {
        TagPlace {
            ended: self.ended,
            depth: self.open.as_slice().len(),
            at,
        }
    }

    // Opens an element, or reports the first error of its start tag. A tag is read in full only if its name has no note. If an
    // element has only characters, its characters and its end tag are read in the same step.
    #[inline(always)]
    fn open_by(&mut self, opening: Opening<'_, 'a>, at: u64) -> Result<(), DocError>
        requires scoped { Scoped self.old }
        requires known { CanOpen opening at self.old }
        ensures ok { OnOk result (Opens opening.entry at self.old self.new) }
        ensures err { IfErr result (Stopped (reason (pieces.Start (tag_of opening.entry)) (context (state self.old))) at) }
    {
        let place = self.tag_place(at);
        self.first = false;
        self.brackets = 0;
        match opening {
            Opening::Read(tag) => {
                let head = enter(self.alloc, &mut self.scope, tag, place)?;
                self.flush()?;
                let binds = !head.declares.is_empty();
                let name = self
                    .items
                    .open_element(head.name, head.attributes, head.declares, at)?;
                self.open.push(tag.name)?;
                self.notes.note_entered(binds, tag.name, name)?;
                Ok(())
            }
            Opening::Noted(note) => {
                check_place(place)?;
                self.flush()?;
                self.items.open_known(note.name, at)?;
                self.open.push(note.written)?;
                self.notes.came(note.number);
                Ok(())
            }
            Opening::Leaf { note, inner, len } => {
                check_place(place)?;
                self.flush()?;
                self.items.open_known(note.name, at)?;
                self.text_at = at + note.written.len() as u64 + 2;
                self.items.front(self.alloc, inner, len, self.text_at)?;
                self.items.close();
                self.notes.came(note.number);
                self.ended = self.open.is_empty();
                Ok(())
            }
        }
    }

    fn start(&mut self, tag: Element<'a>, at: u64) -> Result<(), DocError>
        requires scoped { Scoped self.old }
        requires utf8 { have_utf8 (tag_seen tag).attributes ≡ true }
        ensures ok { OnOk result (Takes (pieces.Start (tag_seen tag.entry)) at self.old self.new) }
        ensures err { IfErr result (Stopped (reason (pieces.Start (tag_seen tag.entry)) (context (state self.old))) at) }
    {
        if tag.attributes.is_empty() {
            if let Some(note) = self.notes.find(tag.name) {
                return self.open_by(Opening::Noted(&note), at);
            }
        }
        self.open_by(Opening::Read(&tag), at)
    }

    fn empty(&mut self, tag: Element<'a>, at: u64) -> Result<(), DocError>
        requires scoped { Scoped self.old }
        requires utf8 { have_utf8 (tag_seen tag).attributes ≡ true }
        ensures ok { OnOk result (Takes (pieces.Empty (tag_seen tag.entry)) at self.old self.new) }
        ensures err { IfErr result (Stopped (reason (pieces.Empty (tag_seen tag.entry)) (context (state self.old))) at) }
    {
        if tag.attributes.is_empty() {
            if let Some(note) = self.notes.find(tag.name) {
                return self.empty_noted(tag.name, note.name, at);
            }
        }
        self.empty_read(&tag, at)
    }

    // An empty tag without attributes, whose name has a note.
    fn empty_noted(&mut self, written: &'a [u8], name: ElementName, at: u64) -> Result<(), DocError>
        requires scoped { Scoped self.old }
        requires known { KnownAs (reverse self.old.scope) self.old.items.names written.now name }
        ensures ok { OnOk result (Takes (pieces.Empty (bare written.now)) at self.old self.new) }
        ensures err { IfErr result (Stopped (reason (pieces.Empty (bare written.now)) (context (state self.old))) at) }
    {
        check_place(self.tag_place(at))?;
        self.flush()?;
        self.items.known_element(name, at)?;
        self.ended = self.open.is_empty();
        self.first = false;
        self.brackets = 0;
        Ok(())
    }

    // The notes stay, since the bindings of the element are in scope only within its tag.
    fn empty_read(&mut self, tag: &Element<'a>, at: u64) -> Result<(), DocError>
        requires scoped { Scoped self.old }
        requires utf8 { have_utf8 (tag_seen tag.now).attributes ≡ true }
        ensures ok { OnOk result (Takes (pieces.Empty (tag_seen tag.now)) at self.old self.new) }
        ensures err { IfErr result (Stopped (reason (pieces.Empty (tag_seen tag.now)) (context (state self.old))) at) }
    {
        let place = self.tag_place(at);
        let head = enter(self.alloc, &mut self.scope, tag, place)?;
        self.scope.leave(head.declares.len());
        self.flush()?;
        let _ = self
            .items
            .element(head.name, head.attributes, head.declares, at)?;
        self.ended = self.open.is_empty();
        self.first = false;
        self.brackets = 0;
        Ok(())
    }

    // Whether the innermost element has this name.
    fn is_open(&self, written: &[u8]) -> bool
        ensures { result ≡ is_innermost written.now (context (state self.now)).elements }
    {
        match self.open.last() {
            Some(innermost) => *innermost == written,
            None => false,
        }
    }

    // The name of an element that is open has been tested at its start tag.
    fn end_reason(&self, written: &[u8]) -> Option<DocWhy>
        requires { Scoped self.now }
        ensures { result ≡ first_true (end_tests written.now (reverse self.now.scope) (context (state self.now)).elements) }
    {
        if self.is_open(written) {
            None
        } else if !is_qname(written) {
            Some(DocWhy::BadName)
        } else if is_long(written) {
            Some(DocWhy::LongName)
        } else if is_unbound(&self.scope, prefix_of(written)) {
            Some(DocWhy::UnboundPrefix)
        } else {
            Some(DocWhy::WrongEnd)
        }
    }

    // Ends the innermost element, when no characters remain to be added to it.
    fn close(&mut self)
        requires scoped { Scoped self.old }
        requires text { string_bytes self.old.text ≡ [] }
        requires inside { is_empty (state self.old).above ≡ false }
        ensures { Shuts self.old self.new }
    {
        let count = self.items.innermost_bindings();
        self.scope.leave(count);
        self.notes.note_left(count);
        let outer = self.open.as_slice().len() - 1;
        self.open.truncate(outer);
        self.items.close();
        self.ended = self.open.is_empty();
        self.first = false;
        self.brackets = 0;
    }

    fn end(&mut self, written: &'a [u8], at: u64) -> Result<(), DocError>
        requires { Scoped self.old }
        ensures ok { OnOk result (Takes (pieces.End written.now) at self.old self.new) }
        ensures err { IfErr result (Stopped (reason (pieces.End written.now) (context (state self.old))) at) }
    {
        if let Some(why) = self.end_reason(written) {
            return Err(DocError::Syntax { at, why });
        }
        self.flush()?;
        self.close();
        Ok(())
    }

    // The rest after the end tag of the innermost element, if its name and a `>` follow `</`.
    #[inline(always)]
    fn past_end<'b>(&self, written: &'b [u8]) -> Option<&'b [u8]>
        ensures { IfSome result (λ behind. EndsInnermost written.now behind.now (context (state self.now))) }
    {
        match self.open.last() {
            Some(innermost) => past_tag(innermost, written),
            None => None,
        }
    }

    // Reads the end tag of the innermost element, if its name and a `>` follow `</`. Returns the rest after it, or `None`.
    #[inline(always)]
    fn take_end(&mut self, written: &'a [u8]) -> Result<Option<&'a [u8]>, Memory>
        requires { Scoped self.old }
        ensures { IfOk result (λ found. MatchOption found (self.new ≡ self.old) (λ behind. (at : ℕ) → TakesFirst (0x3C ∷ 0x2F ∷ written.now) behind.now at self.old self.new)) }
    {
        let Some(behind) = self.past_end(written) else {
            return Ok(None);
        };
        self.flush()?;
        self.close();
        Ok(Some(behind))
    }

    // Reads a start tag without attributes, if the bytes after `<` are as guessed. Reads the complete element if only plain
    // characters and its end tag follow. Returns the rest after it, or `None`.
    #[inline(always)]
    fn take_start(&mut self, tag: &'a [u8], at: u64) -> Result<Option<&'a [u8]>, DocError>
        requires scoped { Scoped self.old }
        requires utf8 { IsUtf8 (0x3C ∷ tag.now) }
        requires place { at + length tag.now ≤ 16777216 }
        ensures ok { IfOk result (λ found. MatchOption found (self.new ≡ self.old) (λ behind. TakesKnown (0x3C ∷ tag.now) behind.now at self.old self.new)) }
        ensures err { IfErr result (StopsFirst (0x3C ∷ tag.now) at self.old) }
    {
        let Some(note) = self.notes.guess() else {
            return Ok(None);
        };
        let Some(inner) = past_tag(note.written, tag) else {
            return Ok(None);
        };
        match past_leaf(note.written, inner) {
            Some((len, behind)) => {
                let note = &note;
                self.open_by(Opening::Leaf { note, inner, len }, at)?;
                Ok(Some(behind))
            }
            None => {
                self.open_by(Opening::Noted(&note), at)?;
                Ok(Some(inner))
            }
        }
    }

    // Reads a tag that was read before, or an element that begins with one, if it is at the start. Returns the rest after it, or
    // `None`.
    #[inline(always)]
    pub(crate) fn take_known(
        &mut self,
        rest: &'a [u8],
        at: u64,
    ) -> Result<Option<&'a [u8]>, DocError>
        requires scoped { Scoped self.old }
        requires utf8 { IsUtf8 rest.now }
        requires place { at + length rest.now ≤ 16777216 }
        ensures ok { IfOk result (λ found. MatchOption found (self.new ≡ self.old) (λ behind. TakesKnown rest.now behind.now at self.old self.new)) }
        ensures err { IfErr result (StopsFirst rest.now at self.old) }
    {
        if let Some(written) = past_slash(rest) {
            let behind = self.take_end(written)?;
            return Ok(behind);
        }
        match past_less(rest) {
            Some(tag) => self.take_start(tag, at),
            None => Ok(None),
        }
    }

    // The number of bytes of plain characters at the start, or 0 outside the root.
    pub(crate) fn plain_len(&self, rest: &[u8]) -> usize
        requires { IsUtf8 rest.now }
        ensures longest { result ≡ (if is_outside (context (state self.now)) then 0 else prefix_len is_plain_byte rest.now) }
        ensures within { result ≤ length rest.now }
        ensures inside { 0 < result → is_outside (context (state self.now)) ≡ false }
        ensures run { 0 < result → IsPlainRun (take result rest.now) }
    {
        if self.is_outside() {
            return 0;
        }
        plain_run(rest)
    }

    // Adds characters to the text, or drops them outside the root.
    pub(crate) fn add(&mut self, text: &str, at: u64, brackets: u8) -> Result<(), Memory>
        ensures state { OnOk result (state self.new ≡ added text.now at brackets (state self.old)) }
        ensures kept { OnOk result (Kept self.old self.new) }
    {
        self.first = false;
        self.brackets = brackets;
        if self.open.is_empty() {
            return Ok(());
        }
        self.text_at = first_place(self.text.is_empty(), at, self.text_at);
        self.text.push_str(text)?;
        Ok(())
    }

    fn pass(&mut self)
        ensures state { state self.new ≡ passed (state self.old) }
        ensures kept { Kept self.old self.new }
    {
        self.first = false;
        self.brackets = 0;
    }

    // The root, which has ended.
    pub(crate) fn finish(self) -> ItemTree
        requires closed { self.items.zip.above ≡ [] }
        requires one { length self.items.zip.kids ≡ 1 }
        ensures { self.entry.items.zip.kids ≡ result ∷ [] }
    {
        self.items.finish()
    }

    // Whether no element is open.
    fn is_outside(&self) -> bool
        ensures { result ≡ is_outside (context (state self.now)) }
    {
        self.open.is_empty()
    }

    #[tactic(auto, unfolding(crate::specs::Contexts::reason))]
    fn declaration_reason(&self) -> Option<DocWhy>
        ensures { result ≡ reason pieces.Declaration (context (state self.now)) }
    {
        if self.first {
            None
        } else {
            Some(DocWhy::NoPiece)
        }
    }

    fn declaration(&mut self, at: u64) -> Result<(), DocError>
        requires { Scoped self.old }
        ensures ok { OnOk result (Takes pieces.Declaration at self.old self.new) }
        ensures err { IfErr result (Stopped (reason pieces.Declaration (context (state self.old))) at) }
    {
        if let Some(why) = self.declaration_reason() {
            return Err(DocError::Syntax { at, why });
        }
        self.pass();
        Ok(())
    }

    fn text_reason(&self) -> Option<DocWhy>
        ensures { result ≡ first_true ((is_outside (context (state self.now)), why.TextOutside) ∷ []) }
    {
        if self.is_outside() {
            Some(DocWhy::TextOutside)
        } else {
            None
        }
    }

    fn cdata(&mut self, text: &[u8], at: u64) -> Result<(), DocError>
        requires scoped { Scoped self.old }
        requires utf8 { IsUtf8 text.now }
        ensures ok { OnOk result (Takes (pieces.CData text.now) at self.old self.new) }
        ensures err { IfErr result (Stopped (reason (pieces.CData text.now) (context (state self.old))) at) }
    {
        if let Some(why) = self.text_reason() {
            return Err(DocError::Syntax { at, why });
        }
        self.add(utf8_text(text), at, 0)?;
        Ok(())
    }

    fn reference(&mut self, c: char, at: u64) -> Result<(), DocError>
        requires { Scoped self.old }
        ensures ok { OnOk result (Takes (pieces.Reference c) at self.old self.new) }
        ensures err { IfErr result (Stopped (reason (pieces.Reference c) (context (state self.old))) at) }
    {
        if let Some(why) = self.text_reason() {
            return Err(DocError::Syntax { at, why });
        }
        self.add_char(c, at, 0)?;
        Ok(())
    }

    fn add_char(&mut self, c: char, at: u64, brackets: u8) -> Result<(), Memory>
        ensures state { OnOk result (state self.new ≡ added (encode_utf8 c) at brackets (state self.old)) }
        ensures kept { OnOk result (Kept self.old self.new) }
    {
        let mut buffer = [0; 4];
        self.add(c.encode_utf8(&mut buffer), at, brackets)
    }

    fn character_reason(&self, c: char) -> Option<DocWhy>
        ensures { result ≡ first_true ((c == 0x3E && nat_le 2 self.now.brackets, why.NoPiece) ∷ (is_outside (context (state self.now)) && not (is_white_space c), why.TextOutside) ∷ []) }
    {
        if is_closing(c, self.brackets) {
            Some(DocWhy::NoPiece)
        } else if self.is_outside() && !is_white_char(c) {
            Some(DocWhy::TextOutside)
        } else {
            None
        }
    }

    fn character(&mut self, c: char, at: u64) -> Result<(), DocError>
        requires { Scoped self.old }
        ensures ok { OnOk result (Takes (pieces.Character c) at self.old self.new) }
        ensures err { IfErr result (Stopped (reason (pieces.Character c) (context (state self.old))) at) }
    {
        if let Some(why) = self.character_reason(c) {
            return Err(DocError::Syntax { at, why });
        }
        let brackets = count_brackets(c, self.brackets);
        self.add_char(c, at, brackets)?;
        Ok(())
    }

    // Reads a piece, or reports the first reason against it.
    pub(crate) fn take(&mut self, found: Found<'a>, at: u64) -> Result<(), DocError>
        requires scoped { Scoped self.old }
        requires utf8 { GivesUtf8 (seen found) }
        ensures ok { OnOk result (Takes (seen found.entry) at self.old self.new) }
        ensures err { IfErr result (Stopped (reason (seen found.entry) (context (state self.old))) at) }
    {
        match found {
            Found::Declaration => self.declaration(at),
            Found::Start(tag) => self.start(tag, at),
            Found::Empty(tag) => self.empty(tag, at),
            Found::End(written) => self.end(written, at),
            Found::Comment => {
                self.pass();
                Ok(())
            }
            Found::Instruction => {
                self.pass();
                Ok(())
            }
            Found::CData(text) => self.cdata(value_of(&text), at),
            Found::Reference(c) => self.reference(c, at),
            Found::Character(c) => self.character(c, at),
        }
    }
}

fn first_place(is_first: bool, at: u64, before: u64) -> u64
    ensures { result ≡ cond is_first at before }
{
    if is_first { at } else { before }
}
