//! The laws of sound items and of the documents of values. Each is proved for all linked sets and their maps.
ghost use Rattle.value_laws.specs.SoundItems.{SoundItems, DocumentsOfValues};

use validity_rules::same_validity;

/// States that the items of a value that fits are sound. Names are those of XML, no two attributes of an element have one name, and
/// texts have only XML characters. No text is empty, and no two are adjacent. So they can be written as a document.
pub fn items_are_sound()
    ensures { SoundItems }
{}

/// States that bytes that are read as the items of a value that fits are a valid document. Such are the bytes that are written from
/// them. The treated items of the document are the items of the value. The number of bytes is not bounded.
pub fn documents_of_values()
    ensures { DocumentsOfValues }
{
    same_validity();
}
