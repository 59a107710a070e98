//! The plans of a set's content models.
ghost use Rattle.std.specs.Prelude.{◌≡◌, Some, IfOk, IfSome};
ghost use Rattle.content_models.specs.Seen.{seen};
ghost use Rattle.schema_components.specs.Linked.{IsLinked};
ghost use Rattle.validity_check.specs.Kept.{IsPlanAt};
ghost use Rattle.validity_check.specs.Told.{model_at};

use base_texts::Memory;
use content_match::{Lists, Plan, compile};
use content_models::Particle;
use schema_components::SchemaSet;
use std::alloc::Global;
use std::marker::Model;
use std::rc::Rc;

/// The plans of a set's content models, each compiled when it is first needed; seen as the set.
#[derive(Drop)]
pub struct Plans<'a> {
    alloc: Global,
    set: &'a SchemaSet,
    // For each complex type, the plan of its content model.
    kept: Vec<Option<Rc<Plan>>>,
    // Lists of matchers that are done: as many as were in use at once.
    spare: Vec<Lists>,
}

impl<'a> Model for Plans<'a> {
    ghost use Rattle.std.specs.Coded.{codes};
    ghost use Rattle.simple_types.specs.contracts.simples.Simple as simple;
    ghost use Rattle.schema_components.specs.contracts.components.ComplexDef as complex;
    ghost use Rattle.schema_components.specs.Components.{Set};
    ghost use Rattle.validity_check.specs.Kept.{ArePlans};

    ghost Value = { Set };

    ghost coded = { Prim.hlevel (codes, simple.the_row.coded, complex.the_row.coded) };

    ghost view = { λ a. a.set.now };

    ghost invariant = { λ a. ArePlans a.set.now a.kept.items };
}

impl<'a> Plans<'a> {
    /// No plan is compiled yet.
    pub fn new(alloc: Global, set: &'a SchemaSet) -> Result<Plans<'a>, Memory>
        ensures { IfOk result (λ plans. plans ≡ set.now) }
    {
        let count = set.complex_count() as usize;
        let mut kept = Vec::new(alloc);
        'complexes: while kept.len() < count {
            kept.push(None)?;
        }
        Ok(Plans {
            alloc,
            set,
            kept,
            spare: Vec::new(alloc),
        })
    }

    pub fn alloc(&self) -> Global {
        self.alloc
    }

    /// Lists for a matcher, or for a way that it goes: those that were given back last, if any are left.
    pub fn lists(&mut self) -> Lists
        ensures { self.new ≡ self.old }
    {
        match self.spare.pop() {
            Some(lists) => lists,
            None => Lists::new(self.alloc),
        }
    }

    /// Keeps these lists for the next matcher, or drops them if memory runs out.
    #[inline(always)]
    pub fn give_back(&mut self, lists: Lists)
        ensures { self.new ≡ self.old }
    {
        if self.spare.len() < self.spare.capacity() {
            self.spare.push_reserved(lists);
        } else {
            let _ = self.spare.push(lists);
        }
    }

    // The plan that is kept for a complex type.
    fn kept(&self, complex: u32) -> Option<&Rc<Plan>>
        ensures { IfSome result (λ plan. IsPlanAt self.now complex (Some plan.now)) }
    {
        match self.kept.get(complex as usize) {
            Some(Some(plan)) => Some(plan),
            _ => None,
        }
    }

    // Keeps the plan of a complex type.
    fn keep(&mut self, complex: u32, plan: Rc<Plan>)
        requires { IsPlanAt self.old complex (Some plan) }
        ensures { self.new ≡ self.old }
    {
        let place = complex as usize;
        self.kept[place] = Some(plan);
    }

    // Compiles the plan of the content model of a complex type, and keeps it.
    #[inline(never)]
    fn compiled(&mut self, complex: u32, model: &Particle) -> Result<Rc<Plan>, Memory>
        requires linked { IsLinked self.old }
        requires model { model_at self.old complex ≡ Some model.now }
        ensures same { self.new ≡ self.old }
        ensures plan { IfOk result (λ plan. plan.value ≡ seen model.now) }
    {
        let alloc = self.alloc();
        let plan = compile(alloc, model)?;
        let plan = Rc::new(alloc, plan)?;
        self.keep(complex, plan.clone()?);
        Ok(plan)
    }

    /// The plan of the content model of a complex type.
    #[inline(always)]
    pub fn plan(&mut self, complex: u32, model: &Particle) -> Result<Rc<Plan>, Memory>
        requires linked { IsLinked self.old }
        requires model { model_at self.old complex ≡ Some model.now }
        ensures same { self.new ≡ self.old }
        ensures plan { IfOk result (λ plan. plan.value ≡ seen model.now) }
    {
        if let Some(plan) = self.kept(complex) {
            return Ok(plan.clone()?);
        }
        self.compiled(complex, model)
    }
}
