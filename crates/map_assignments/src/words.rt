//! ENUMERATED types of words.
ghost use Rattle.std.specs.Prelude.{◌≡◌, ◌+◌, ◌++◌, ◌<◌, ◌^◌, [], ℕ, List, IfOk, OnOk, length, map};
ghost use Rattle.asn_types.specs.Simples.{white_space_marks};
ghost use Rattle.map_assignments.specs.Naming.{AreTaken, identifier_of, text_marks, IsWordsType};
ghost use Rattle.map_assignments.specs.Private.Building.{LeadsToNames};

use crate::instructions::{push_text, push_white_space};
use asn_names::{NameKind, Scope, convert};
use asn_types::{Form, Instruction, Marks, TypeLabel};
use base_texts::{Memory, Text, WhiteSpace};
use base_trees::Tree;
use simple_types::TextList;
use std::alloc::Global;

// Appends the identifiers of the items for these words in their order, after those already made.
fn take_words(
    alloc: Global,
    scope: &mut Scope,
    made: &mut Vec<Text>,
    words: &[Text],
) -> Result<(), Memory>
    ensures taken { OnOk result ((first names : List (List ℕ))
        → LeadsToNames first scope.old made.old.items (map identifier_of words.now) names → LeadsToNames first scope.new made.new.items [] names) }
    ensures each { OnOk result (length made.new.items ≡ length made.old.items + length words.now) }
{
    'words: for word in words {
        let converted = convert(alloc, NameKind::Identifier, word)?;
        let identifier = scope.take(NameKind::Identifier, &converted)?;
        made.push(identifier)?;
    }
    Ok(())
}

// Returns the identifiers of the items for these words, made in their order.
fn identifiers_of(alloc: Global, words: &[Text]) -> Result<Vec<Text>, Memory>
    ensures taken { IfOk result (λ made. AreTaken [] (map identifier_of words.now) made.items) }
    ensures each { IfOk result (λ made. length made.items ≡ length words.now) }
{
    let mut scope = Scope::new(alloc);
    let mut made = Vec::new(alloc);
    take_words(alloc, &mut scope, &mut made, words)?;
    Ok(made)
}

// Appends TEXT for each item whose identifier isn't its word.
fn push_texts(
    alloc: Global,
    marks: &mut Vec<Instruction>,
    identifiers: &[Text],
    words: &[Text],
) -> Result<(), Memory>
    requires few { length words.now < 2 ^ 32 }
    requires each { length identifiers.now ≡ length words.now }
    ensures { OnOk result (marks.new.items ≡ marks.old.items ++ text_marks 0 identifiers.now words.now) }
{
    'words: for (i, word) in words.iter().enumerate() {
        push_text(alloc, marks, i as u32, &identifiers[i], word)?;
    }
    Ok(())
}

// Returns WHITESPACE, unless white space is preserved, and TEXT of the items.
fn word_marks(
    alloc: Global,
    space: WhiteSpace,
    identifiers: &[Text],
    words: &[Text],
) -> Result<Marks, Memory>
    requires few { length words.now < 2 ^ 32 }
    requires each { length identifiers.now ≡ length words.now }
    ensures { IfOk result (λ marks. marks ≡ white_space_marks space ++ text_marks 0 identifiers.now words.now) }
{
    let mut marks = Vec::new(alloc);
    push_white_space(&mut marks, space)?;
    push_texts(alloc, &mut marks, identifiers, words)?;
    Ok(Marks::of(marks))
}

/// Returns the ENUMERATED of these words, of which there are fewer than 2^32.
pub(crate) fn words_type(
    alloc: Global,
    space: WhiteSpace,
    words: &TextList,
) -> Result<Tree<TypeLabel>, Memory>
    requires { length words.now < 2 ^ 32 }
    ensures { IfOk result (λ made. IsWordsType words.now (white_space_marks space) made) }
{
    let identifiers = identifiers_of(alloc, words.items())?;
    let marks = word_marks(alloc, space, &identifiers, words.items())?;
    let identifiers = TextList::of(identifiers)?;
    let words = words.copy(alloc)?;
    let form = Form::Words { identifiers, words };
    Ok(Tree::leaf(alloc, TypeLabel { form, marks }))
}
