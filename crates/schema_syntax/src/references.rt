//! References to components by their names.
ghost use Rattle.std.specs.Prelude.{◌≡◌, option_map};
ghost use Rattle.base_texts.specs.Entries.{beside};
ghost use Rattle.schema_syntax.specs.References as table;
ghost use Rattle.schema_syntax.specs.Scopes.{bindings_in};
ghost use Rattle.schema_syntax.specs.Seen.{name_seen, type_seen};

use crate::scopes::NamespaceScope;
use crate::why::SchemaWhy;
use base_texts::{SCHEMA_SPACE, is_ncname_text};
use simple_types::Builtin;

/// The expanded name that a reference denotes. The empty namespace means none.
#[derive(Clone, Copy)]
pub struct Resolved<'s, 't> {
    /// The namespace, as an element binds it.
    pub space: &'s str,
    /// The local name, as the reference has it.
    pub local: &'t str,
}

/// The type that a name denotes.
#[derive(Clone, Copy)]
pub enum TypeName<'s, 't> {
    /// A datatype of this profile.
    Known(Builtin),
    /// A datatype that this profile does not support.
    LeftOut(SchemaWhy),
    /// A type that some document of the set has to define.
    Elsewhere(Resolved<'s, 't>),
}

fn unprefixed<'s, 't>(scope: &NamespaceScope<'s, '_>, text: &'t str) -> Option<Resolved<'s, 't>>
    ensures { option_map name_seen result ≡ table.unprefixed (bindings_in scope.now) text.now }
{
    if !is_ncname_text(text) {
        return None;
    }
    match scope.bound_to(b"") {
        Some(space) => Some(Resolved { space, local: text }),
        None => Some(Resolved {
            space: "",
            local: text,
        }),
    }
}

fn prefixed<'s, 't>(
    scope: &NamespaceScope<'s, '_>,
    prefix: &str,
    local: &'t str,
) -> Option<Resolved<'s, 't>>
    ensures { option_map name_seen result ≡ table.prefixed (bindings_in scope.now) prefix.now local.now }
{
    if !is_ncname_text(prefix) || !is_ncname_text(local) {
        return None;
    }
    match scope.bound_to(prefix.as_bytes()) {
        Some(space) => Some(Resolved { space, local }),
        None => None,
    }
}

/// Returns the expanded name of a QName, if its prefix is bound.
#[tactic(auto, unfolding(crate::specs::References::resolved))]
pub fn resolve<'s, 't>(scope: &NamespaceScope<'s, '_>, text: &'t str) -> Option<Resolved<'s, 't>>
    ensures { option_map name_seen result ≡ table.resolved (bindings_in scope.now) text.now }
{
    match text.split_once(':') {
        Some((prefix, local)) => prefixed(scope, prefix, local),
        None => unprefixed(scope, text),
    }
}

fn builtin_of(name: &str) -> Option<Builtin>
    ensures { result ≡ beside name.now table.builtins }
{
    match name {
        "boolean" => Some(Builtin::Boolean),
        "byte" => Some(Builtin::Byte),
        "short" => Some(Builtin::Short),
        "int" => Some(Builtin::Int),
        "long" => Some(Builtin::Long),
        "unsignedByte" => Some(Builtin::UnsignedByte),
        "unsignedShort" => Some(Builtin::UnsignedShort),
        "unsignedInt" => Some(Builtin::UnsignedInt),
        "unsignedLong" => Some(Builtin::UnsignedLong),
        "integer" => Some(Builtin::Integer),
        "nonNegativeInteger" => Some(Builtin::NonNegativeInteger),
        "positiveInteger" => Some(Builtin::PositiveInteger),
        "nonPositiveInteger" => Some(Builtin::NonPositiveInteger),
        "negativeInteger" => Some(Builtin::NegativeInteger),
        "string" => Some(Builtin::String),
        "normalizedString" => Some(Builtin::NormalizedString),
        "token" => Some(Builtin::Token),
        "anyURI" => Some(Builtin::AnyUri),
        "language" => Some(Builtin::Language),
        "NMTOKEN" => Some(Builtin::NmToken),
        "Name" => Some(Builtin::Name),
        "NCName" => Some(Builtin::NcName),
        "NMTOKENS" => Some(Builtin::NmTokens),
        _ => None,
    }
}

fn left_out_datatype(name: &str) -> Option<SchemaWhy>
    ensures { result ≡ beside name.now table.left_out_datatypes }
{
    match name {
        "decimal" => Some(SchemaWhy::Decimal),
        "float" => Some(SchemaWhy::Float),
        "double" => Some(SchemaWhy::Double),
        "duration" => Some(SchemaWhy::Duration),
        "dateTime" => Some(SchemaWhy::DateTime),
        "time" => Some(SchemaWhy::Time),
        "date" => Some(SchemaWhy::Date),
        "gYearMonth" => Some(SchemaWhy::GYearMonth),
        "gYear" => Some(SchemaWhy::GYear),
        "gMonthDay" => Some(SchemaWhy::GMonthDay),
        "gDay" => Some(SchemaWhy::GDay),
        "gMonth" => Some(SchemaWhy::GMonth),
        "hexBinary" => Some(SchemaWhy::HexBinary),
        "base64Binary" => Some(SchemaWhy::Base64Binary),
        "QName" => Some(SchemaWhy::QName),
        "NOTATION" => Some(SchemaWhy::NOTATION),
        "ID" => Some(SchemaWhy::ID),
        "IDREF" => Some(SchemaWhy::IDREF),
        "IDREFS" => Some(SchemaWhy::IDREFS),
        "ENTITY" => Some(SchemaWhy::ENTITY),
        "ENTITIES" => Some(SchemaWhy::ENTITIES),
        "anySimpleType" => Some(SchemaWhy::AnySimpleType),
        "anyType" => Some(SchemaWhy::AnyType),
        _ => None,
    }
}

// Returns the datatype of this name in the schema namespace.
#[tactic(auto, unfolding(crate::specs::References::datatype))]
fn datatype<'s, 't>(name: &str) -> Option<TypeName<'s, 't>>
    ensures { option_map type_seen result ≡ table.datatype name.now }
{
    if let Some(known) = builtin_of(name) {
        return Some(TypeName::Known(known));
    }
    match left_out_datatype(name) {
        Some(why) => Some(TypeName::LeftOut(why)),
        None => None,
    }
}

fn type_named<'s, 't>(found: Option<Resolved<'s, 't>>) -> Option<TypeName<'s, 't>>
    ensures { option_map type_seen result ≡ table.type_named (option_map name_seen found.entry) }
{
    match found {
        None => None,
        Some(name) if name.space == SCHEMA_SPACE => datatype(name.local),
        Some(name) => Some(TypeName::Elsewhere(name)),
    }
}

/// Returns the type that a name denotes. `None` if the text is no QName, if its prefix isn't bound, or if it is of the schema
/// namespace and no datatype has the name.
#[tactic(auto, unfolding(crate::specs::References::type_name))]
pub fn type_of<'s, 't>(scope: &NamespaceScope<'s, '_>, text: &'t str) -> Option<TypeName<'s, 't>>
    ensures { option_map type_seen result ≡ table.type_name (bindings_in scope.now) text.now }
{
    type_named(resolve(scope, text))
}
