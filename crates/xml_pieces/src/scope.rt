//! The namespace bindings that are in scope at a reader's position.
ghost use Rattle.std.specs.Prelude.{◌≡◌, ◌≤◌, ◌∷◌, ◌++◌, ◌-◌, [], take, length, reverse, IfOk, OnOk};
ghost use Rattle.std.specs.Option.{option_map};
ghost use Rattle.base_texts.specs.Entries.{beside};
ghost use Rattle.base_texts.specs.Namespaces.{xml_prefix, xml_space};

use base_texts::{Memory, Text, XML_SPACE};
use std::alloc::Global;
use std::collections::BTreeMap;
use std::marker::Model;

// A prefix with a namespace.
#[derive(Drop)]
struct Binding<'a> {
    prefix: &'a [u8],
    space: Text,
    // The place of the binding of this prefix that this one hides.
    hidden: Option<usize>,
}

/// The bindings in scope, each a prefix with a namespace, seen with the outermost first. A prefix is found in time logarithmic in
/// the number of bound prefixes, even for hostile input.
#[derive(Drop)]
pub struct BindingsInScope<'a> {
    // The outermost first.
    bindings: Vec<Binding<'a>>,
    // The place of the innermost binding of each prefix.
    innermost: BTreeMap<&'a [u8], usize>,
}

impl<'a> Model for BindingsInScope<'a> {
    ghost use Rattle.std.specs.Prelude.{List, ℕ, map};
    ghost use Rattle.xml_pieces.specs.Private.Scopes.{bound, Indexed};

    ghost Value = { List (List ℕ × List ℕ) };

    ghost view = { λ a. map bound a.bindings.items };

    ghost invariant = { λ a. Indexed a.bindings.items a.innermost };
}

impl<'a> BindingsInScope<'a> {
    /// Returns the bindings in scope outside the root.
    pub fn new(alloc: Global) -> Result<BindingsInScope<'a>, Memory>
        ensures { IfOk result (λ scope. scope ≡ (xml_prefix, xml_space) ∷ []) }
    {
        let mut scope = BindingsInScope {
            bindings: Vec::new(alloc),
            innermost: BTreeMap::new(alloc),
        };
        let space = Text::from_str(alloc, XML_SPACE)?;
        scope.push(b"xml", space)?;
        Ok(scope)
    }

    /// Adds an innermost binding.
    pub fn push(&mut self, prefix: &'a [u8], space: Text) -> Result<(), Memory>
        ensures { OnOk result (self.new ≡ self.old ++ (prefix.now, space) ∷ []) }
    {
        let place = self.bindings.as_slice().len();
        let hidden = self.innermost.get(prefix).copied();
        self.bindings.push(Binding {
            prefix,
            space,
            hidden,
        })?;
        match self.innermost.insert(prefix, place) {
            Ok(_) => Ok(()),
            Err(_) => {
                // The binding is removed.
                let _ = self.bindings.pop();
                Err(Memory)
            }
        }
    }

    // Removes the innermost binding.
    fn pop(&mut self)
        ensures { self.new ≡ take (length self.old - 1) self.old }
    {
        let Some(
            Binding {
                prefix,
                space: _,
                hidden,
            },
        ) = self.bindings.pop()
        else {
            return;
        };
        match hidden {
            Some(place) => {
                if let Some(innermost) = self.innermost.get_mut(prefix) {
                    *innermost = place;
                }
            }
            None => {
                // Its place is that of the binding that was removed.
                let _ = self.innermost.remove(prefix);
            }
        }
    }

    /// Removes the innermost `count` bindings.
    #[inline(always)]
    pub fn leave(&mut self, count: usize)
        ensures { self.new ≡ take (length self.old - count) self.old }
    {
        for _ in 0..count {
            self.pop();
        }
    }

    /// Returns the namespace of a prefix.
    pub fn bound_to(&self, prefix: &[u8]) -> Option<&Text>
        ensures { option_map (λ space. space.now) result ≡ beside prefix.now (reverse self.now) }
    {
        let bindings = self.bindings.as_slice();
        let place = *self.innermost.get(prefix)?;
        prove!(place < bindings.len());
        Some(&bindings[place].space)
    }
}
