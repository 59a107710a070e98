//! Restores an XML name from its ASN.1 name.
ghost use Rattle.std.specs.Prelude.{◌≡◌, bytes_eq};
ghost use Rattle.asn_names.specs.Restoring.{capitalized, uncapitalized, named, form_of};

use base_texts::Text;

/// A form of the instruction NAME of X.693.
#[derive(Clone, Copy, Debug, PartialEq, Eq)]
pub enum NameForm {
    /// The name with its first letter raised.
    Capitalized,
    /// The name with its first letter lowered.
    Uncapitalized,
    /// A given name, in quotation marks.
    Quoted,
}

/// Returns whether the generated name with its first letter raised is the original name.
pub fn is_capitalized(generated: &[u8], original: &[u8]) -> bool
    ensures { result ≡ bytes_eq (capitalized generated.now) original.now }
{
    match (generated, original) {
        ([], []) => true,
        ([a, generated @ ..], [b, original @ ..]) => a.to_ascii_uppercase() == *b
            && generated == original,
        _ => false,
    }
}

/// Returns whether the generated name with its first letter lowered is the original name.
pub fn is_uncapitalized(generated: &[u8], original: &[u8]) -> bool
    ensures { result ≡ bytes_eq (uncapitalized generated.now) original.now }
{
    match (generated, original) {
        ([], []) => true,
        ([a, generated @ ..], [b, original @ ..]) => a.to_ascii_lowercase() == *b
            && generated == original,
        _ => false,
    }
}

/// Returns the form of NAME that restores the original name from the generated one, or None if they are equal.
pub fn restoring(generated: &Text, original: &Text) -> Option<NameForm>
    ensures form { result ≡ form_of generated.now original.now }
    ensures back { named result generated.now original.now ≡ original.now }
{
    let (generated, original) = (generated.bytes(), original.bytes());
    if generated == original {
        None
    } else if is_capitalized(generated, original) {
        Some(NameForm::Capitalized)
    } else if is_uncapitalized(generated, original) {
        Some(NameForm::Uncapitalized)
    } else {
        Some(NameForm::Quoted)
    }
}
