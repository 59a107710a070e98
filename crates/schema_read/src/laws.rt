//! What holds of names.
ghost use Rattle.std.specs.Prelude.{◌≡◌, ◌&&◌, not, bytes_eq};
ghost use Rattle.base_texts.specs.Namespaces.{xsi_space};
ghost use Rattle.base_texts.specs.declared.texts.Name.{Name};
ghost use Rattle.xml_read.specs.Sound as items;
ghost use Rattle.schema_components.specs.Declarable as schemas;

/// States that a schema may declare the names that items may have, except names in the namespace of XML Schema's attributes for
/// documents. That `xmlns` is no attribute is one rule for both, `is_xmlns` of the base.
pub fn one_name_rule()
    ensures { (name : Name) → schemas.is_declarable name ≡ (items.is_sound_name name && not (bytes_eq name.space xsi_space)) }
{}
