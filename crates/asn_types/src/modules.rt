//! Modules of types.
ghost use Rattle.std.specs.Prelude.{◌≡◌, ◌<◌, Some, None, MatchOption, length, slice_get};
ghost use Rattle.asn_types.specs.Bounds.{IsBounded};
ghost use Rattle.asn_types.specs.Modules.{IsModule};
ghost use Rattle.asn_types.specs.Refs.{body_at};

use crate::bounds::see_assignments;
use crate::marks::Marks;
use crate::types::TypeLabel;
use base_texts::Text;
use base_trees::{Tree, Whole};
use std::marker::Model;

/// A type with a name.
#[derive(Drop)]
pub struct Assignment {
    /// The name by which types refer to this one.
    pub reference: Text,
    pub marks: Marks,
    pub body: Whole<TypeLabel>,
}

/// Types that refer to one another: assignments in their order, seen as the list of them.
#[derive(Drop)]
pub struct Module {
    assignments: Vec<Assignment>,
}

impl Model for Module {
    ghost use Rattle.std.specs.Prelude.{List};
    ghost use Rattle.std.specs.Coded.{coded_list};
    ghost use Rattle.asn_types.specs.declared.modules.Assignment.{Assignment};
    ghost use Rattle.asn_types.specs.contracts.modules.Assignment as row;

    ghost Value = { List Assignment };

    ghost coded = { coded_list row.the_row.coded };

    ghost use Rattle.asn_types.specs.Modules.{IsModule};
    ghost use Rattle.asn_types.specs.Bounds.{IsBounded};

    ghost view = { λ a. a.assignments.items };

    ghost invariant = { λ a. IsModule a.assignments.items × IsBounded a.assignments.items };
}

impl Module {
    /// Returns the module of these assignments. It visits each type once, and allocates nothing.
    pub fn of(assignments: Vec<Assignment>) -> Module
        requires { IsModule assignments.items }
        ensures { result ≡ assignments.items }
    {
        see_assignments(&assignments);
        Module { assignments }
    }

    /// Returns the number of assignments.
    pub fn count(&self) -> u32
        ensures count { result ≡ length self.now }
        ensures module { IsModule self.now }
        ensures bounded { IsBounded self.now }
    {
        self.assignments.len() as u32
    }

    /// Returns the assignments, in their order.
    pub fn assignments(&self) -> &[Assignment]
        ensures { result.now ≡ self.now }
    {
        &self.assignments
    }

    /// Returns the assignment with this number, from 0.
    pub fn assignment(&self, n: u32) -> &Assignment
        requires { n < length self.now }
        ensures assignment { slice_get self.now n ≡ Some result.now }
        ensures module { IsModule self.now }
    {
        &self.assignments[n as usize]
    }

    // Returns the type of the assignment with this number, if there is one.
    #[inline(always)]
    pub(crate) fn body(&self, n: u32) -> Option<&Tree<TypeLabel>>
        ensures { MatchOption result (body_at self.now n ≡ None) (λ body. body_at self.now n ≡ Some body.now) }
    {
        match self.assignments.as_slice().get(n as usize) {
            Some(assignment) => Some(assignment.body.root()),
            None => None,
        }
    }
}
