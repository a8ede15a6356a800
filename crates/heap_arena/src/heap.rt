//! Objects, cells and scopes in arenas.

ghost use Rattle.std.specs.Prelude.{◌≡◌, ◌++◌, ◌∷◌, [], true, length, slice_get, IfOk, OnErr, OnOk};
ghost use Rattle.std.specs.Option.{option_copied, option_map};
ghost use Rattle.std.specs.List.{zip};
ghost use Rattle.plain_heap.specs.Heap as defined;
ghost use Rattle.heap_values.specs.Meaning.{class_of, environment_at, value_of};
ghost use Rattle.heap_arena.specs.Environments.{surrounding};
ghost use Rattle.heap_arena.specs.Meaning.{heap_of, is_scope_there, object_of};

use crate::arena::{get_at, set_at};
use crate::object::first_properties;
use crate::{CellNos, Object, Scope, Scopes};
use heap_values::{CellNo, Class, ObjNo, ScopeNo, Value};
use js_value::{NoMemory, Text, Texts};
use std::alloc::Global;
use std::marker::Model;

/// A heap: objects and cells (8.6), and the scopes (10.2) of its functions and of the code that runs.
#[derive(Drop)]
pub struct Heap {
    pub(crate) objects: Vec<Object>,
    cells: Vec<Value>,
    scopes: Scopes,
}

impl Model for Heap {
    ghost use Rattle.std.specs.Prelude.{◌≡◌, true, length};
    ghost use Rattle.heap_arena.specs.Meaning.{Store, are_scopes_there};

    ghost Value = { Store };

    ghost view = { λ h. record { objects = h.objects.items; cells = h.cells.items; environments = h.scopes } };

    ghost invariant = { λ h. are_scopes_there (length h.scopes) h.objects.items ≡ true };
}

impl Heap {
    /// The empty heap.
    pub fn new(alloc: Global) -> Heap
        ensures heap { heap_of result ≡ record { objects = []; cells = [] } }
        ensures scopes { result.environments ≡ [] }
    {
        Heap {
            objects: Vec::new(alloc),
            cells: Vec::new(alloc),
            scopes: Scopes::new(alloc),
        }
    }

    // ---- objects

    /// The object of a number, where it is there.
    pub(crate) fn object(&self, o: ObjNo) -> Option<&Object>
        ensures { option_map (object_of self.now.environments) (option_copied result) ≡ defined.object_at (heap_of self.now) o }
    {
        get_at(self.objects.as_slice(), o.index())
    }

    /// How many objects a chain of prototypes has that begins at this one.
    fn depth_at(&self, o: &Option<ObjNo>) -> Result<usize, NoMemory>
        ensures { IfOk result (λ n. n ≡ defined.depth_at (heap_of self.now) o.now) }
    {
        let Some(o) = o else {
            return Ok(0);
        };
        match self.object(*o) {
            Some(object) => object.depth.checked_add(1).ok_or(NoMemory),
            None => Ok(0),
        }
    }

    /// A new object without properties, but an array gets its length (15.4.5.2). The scope of a function is there.
    pub fn new_object(
        &mut self,
        alloc: Global,
        class: Class,
        prototype: Option<ObjNo>,
    ) -> Result<ObjNo, NoMemory>
        requires { is_scope_there (length self.old.environments) class ≡ true }
        ensures number { IfOk result (λ o. o ≡ length (heap_of self.old).objects) }
        ensures made { OnOk result (heap_of self.new ≡ defined.new_object (class_of self.old.environments class) prototype (heap_of self.old)) }
        ensures scopes { self.new.environments ≡ self.old.environments }
        ensures err { OnErr result (self.new ≡ self.old) }
    {
        let properties = first_properties(alloc, &class)?;
        let depth = self.depth_at(&prototype)?;
        let object = Object {
            class,
            prototype,
            depth,
            extensible: true,
            properties,
        };
        let number = self.objects.len();
        self.objects.push(object)?;
        Ok(ObjNo(number))
    }

    /// How many objects there are.
    pub fn object_count(&self) -> usize
        ensures { result ≡ length (heap_of self.now).objects }
    {
        self.objects.len()
    }

    // ---- cells

    /// A new cell with this value, which is none of a built-in that is left out.
    pub fn new_cell(&mut self, v: Value) -> Result<CellNo, NoMemory>
        ensures number { IfOk result (λ c. c ≡ length (heap_of self.old).cells) }
        ensures made { OnOk result (heap_of self.new ≡ defined.new_cell (value_of v) (heap_of self.old)) }
        ensures scopes { self.new.environments ≡ self.old.environments }
        ensures err { OnErr result (self.new ≡ self.old) }
    {
        let number = self.cells.len();
        self.cells.push(v)?;
        Ok(CellNo(number))
    }

    /// The value of a cell, where it is there.
    pub fn cell(&self, c: CellNo) -> Option<&Value>
        ensures { option_map value_of (option_copied result) ≡ defined.cell (heap_of self.now) c }
    {
        get_at(self.cells.as_slice(), c.index())
    }

    /// Gives a cell that is there this value.
    pub fn set_cell(&mut self, c: CellNo, v: Value)
        ensures set { heap_of self.new ≡ defined.set_cell c (value_of v) (heap_of self.old) }
        ensures scopes { self.new.environments ≡ self.old.environments }
    {
        set_at(&mut self.cells, c.index(), v);
    }

    // ---- scopes

    /// A new scope inside of another or of none: the names that some code binds, with their cells.
    pub fn new_scope(
        &mut self,
        outer: Option<ScopeNo>,
        names: Texts,
        cells: CellNos,
    ) -> Result<ScopeNo, NoMemory>
        ensures number { IfOk result (λ s. s ≡ length self.old.environments) }
        ensures made { OnOk result (self.new.environments ≡ self.old.environments ++ (zip names cells ++ surrounding self.old.environments outer) ∷ []) }
        ensures heap { heap_of self.new ≡ heap_of self.old }
        ensures err { OnErr result (self.new ≡ self.old) }
    {
        let scope = Scope {
            outer,
            names,
            cells,
        };
        let number = self.scopes.push(scope)?;
        Ok(number)
    }

    /// The cell that a name is bound to in a scope or in one around it (10.2.2.1).
    pub fn resolve(&self, s: ScopeNo, name: &Text) -> Option<CellNo>
        ensures { result ≡ defined.resolve (environment_at self.now.environments s) name.now }
    {
        self.scopes.resolve(s, name)
    }
}
