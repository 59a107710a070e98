//! Characters and names of XML.
ghost use Rattle.std.specs.Prelude.{◌≡◌};
ghost use Rattle.std.specs.Str.{chars};
ghost use Rattle.base_texts.specs.Characters as xml;

use crate::texts::Text;

/// Returns whether XML 1.0 allows the character in a document.
#[tactic(auto, unfolding(crate::specs::Characters::is_xml_char))]
pub fn is_xml_char(c: char) -> bool
    ensures { result ≡ xml.is_xml_char c }
{
    matches!(c, '\u{20}'..='\u{d7ff}' | '\t' | '\n' | '\r' | '\u{e000}'..='\u{fffd}' | '\u{10000}'..)
}

/// Returns whether a Name of XML 1.0 may begin with the character. The colon counts.
#[tactic(auto, unfolding(crate::specs::Characters::is_name_start))]
pub fn is_name_start(c: char) -> bool
    ensures { result ≡ xml.is_name_start c }
{
    matches!(
        c,
        'a'..='z'
            | 'A'..='Z'
            | '_'
            | ':'
            | '\u{c0}'..='\u{d6}'
            | '\u{d8}'..='\u{f6}'
            | '\u{f8}'..='\u{2ff}'
            | '\u{370}'..='\u{37d}'
            | '\u{37f}'..='\u{1fff}'
            | '\u{200c}'..='\u{200d}'
            | '\u{2070}'..='\u{218f}'
            | '\u{2c00}'..='\u{2fef}'
            | '\u{3001}'..='\u{d7ff}'
            | '\u{f900}'..='\u{fdcf}'
            | '\u{fdf0}'..='\u{fffd}'
            | '\u{10000}'..='\u{effff}'
    )
}

/// Returns whether the character may follow the first character of a Name of XML 1.0. The colon counts.
#[tactic(auto, unfolding(crate::specs::Characters::is_name_start, crate::specs::Characters::is_name_char))]
pub fn is_name_char(c: char) -> bool
    ensures { result ≡ xml.is_name_char c }
{
    is_name_start(c)
        || matches!(
            c,
            '-' | '.' | '0'..='9' | '\u{b7}' | '\u{300}'..='\u{36f}' | '\u{203f}'..='\u{2040}'
        )
}

/// Returns whether the text is a Name of XML 1.0.
pub fn is_name_text(text: &str) -> bool
    ensures { result ≡ xml.is_name (chars text.now) }
{
    let mut chars = text.chars();
    match chars.next() {
        Some(first) => is_name_start(first) && chars.all(is_name_char),
        None => false,
    }
}

/// Returns whether the text is an NCName of Namespaces in XML 1.0, a Name without a colon.
pub fn is_ncname_text(text: &str) -> bool
    ensures { result ≡ xml.is_ncname (chars text.now) }
{
    is_name_text(text) && text.chars().all(|c| c != ':')
}

/// Returns whether the text is an NCName of Namespaces in XML 1.0, a Name without a colon.
pub fn is_ncname(text: &Text) -> bool
    ensures { result ≡ xml.is_ncname (chars text.now) }
{
    is_ncname_text(text.as_str())
}
