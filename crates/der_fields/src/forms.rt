//! What the identifier of a type states of its form.
ghost use Rattle.std.specs.Prelude.{◌≡◌, ◌∷◌, []};
ghost use Rattle.der_fields.specs.Encoding as encoding;

use asn_types::Form;

/// Returns whether encodings of a type of this form contain others (X.690, clause 8.1.2.5).
pub fn is_constructed(form: &Form) -> bool
    ensures { result ≡ encoding.is_constructed form.now }
{
    matches!(
        form,
        Form::Sequence { .. } | Form::Choice { .. } | Form::SequenceOf { .. }
    )
}

/// Returns the identifier of a type of this form (clause 8.1.2.2), which is one octet.
pub fn universal_identifier(form: &Form) -> u8
    ensures { encoding.universal_identifier form.now ≡ result ∷ [] }
{
    match form {
        Form::Bool => 0x01,
        Form::Int { .. } => 0x02,
        Form::Numbers { .. } | Form::Words { .. } | Form::Order { .. } => 0x0A,
        Form::Utf8 { .. } => 0x0C,
        _ => 0x30,
    }
}
