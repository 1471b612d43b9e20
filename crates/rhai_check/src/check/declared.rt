//! What is declared so far in a frame.

ghost use Rattle.std.specs.Prelude.{◌≡◌, ◌++◌, ◌∷◌, [], IfErr, OnOk, IsSomeAnd};
ghost use Rattle.rhai_check.specs.Around.{cut, extent_of};
ghost use Rattle.rhai_check.specs.MemoryNeeds.{names_a_catch};
ghost use Rattle.rhai_check.specs.Refusals.{Refuses};
ghost use Rattle.rhai_tree.specs.Forms.{catch_of, name_asked};
ghost use Rattle.rhai_tree.specs.Frame.{with_name, turn_names, var_names};
ghost use Rattle.rhai_tree.specs.WellFormed.{catch_variable_faults};

use crate::check::CheckFault;
use rhai_tree::expr::{Expr, Ident};
use rhai_tree::{Items, Shared, Text};
use std::alloc::Global;
use std::num::NonZeroUsize;

/// The names that are declared so far in a frame, and those of its imports, oldest first.
#[derive(Drop)]
pub(crate) struct Declared {
    pub names: Items<Shared<Text>>,
    pub imports: Items<Shared<Text>>,
}

/// How much was declared where a block starts.
#[derive(Clone, Copy, Debug, PartialEq, Eq)]
pub(crate) struct Mark {
    names: usize,
    imports: usize,
}

impl Declared {
    /// Begins with nothing declared. It takes no memory.
    pub fn new(alloc: Global) -> Declared
        ensures { result ≡ record { names = []; imports = [] } }
    {
        Declared {
            names: Items::new(alloc),
            imports: Items::new(alloc),
        }
    }

    /// Returns the allocator that the lists were made with.
    pub fn allocator(&self) -> Global {
        self.names.allocator()
    }

    /// Counts what is declared.
    pub fn mark(&self) -> Mark
        ensures { result ≡ extent_of self.now }
    {
        Mark {
            names: self.names.len(),
            imports: self.imports.len(),
        }
    }

    /// Forgets what was declared since.
    pub fn truncate(&mut self, mark: Mark)
        ensures { self.new ≡ cut mark self.old }
    {
        self.names.truncate(mark.names);
        self.imports.truncate(mark.imports);
    }

    /// Adds a name.
    pub fn declare(&mut self, name: &Shared<Text>) -> Result<(), CheckFault>
        ensures added { OnOk result (self.new ≡ record self.old {
          names = self.old.names ++ name.now ∷ [];
        }) }
        ensures memory { IfErr result (λ fault. fault ≡ CheckFault.NoMemory) }
    {
        push_shared(&mut self.names, name)
    }

    /// Adds the name of a variable's declaration, unless that overwrites another variable.
    pub fn declare_var(
        &mut self,
        index: Option<NonZeroUsize>,
        name: &Shared<Text>,
    ) -> Result<(), CheckFault>
        ensures added { OnOk result (self.new ≡ record self.old {
          names = var_names index name.now self.old.names;
        }) }
        ensures memory { IfErr result (λ fault. fault ≡ CheckFault.NoMemory) }
    {
        match index {
            None => self.declare(name),
            Some(_) => Ok(()),
        }
    }

    /// Adds the names of a `for`: its counter, where it has one, and then its variable.
    pub fn declare_turn(
        &mut self,
        variable: &Ident,
        counter: &Option<Ident>,
    ) -> Result<(), CheckFault>
        ensures added { OnOk result (self.new ≡ record self.old {
          names = turn_names variable.now counter.now self.old.names;
        }) }
        ensures memory { IfErr result (λ fault. fault ≡ CheckFault.NoMemory) }
    {
        if let Some(counter) = counter {
            self.declare(&counter.name)?;
        }
        self.declare(&variable.name)
    }

    /// Adds the name of a catch variable, where it has one, or answers its fault.
    pub fn declare_catch(&mut self, variable: &Expr) -> Result<(), CheckFault>
        ensures added { OnOk result (IsSomeAnd (catch_of variable.now) (λ name.
            self.new ≡ record self.old { names = with_name name self.old.names })) }
        ensures refused { IfErr result (λ fault. Refuses (catch_variable_faults variable.now)
            (names_a_catch (catch_of variable.now)) fault) }
    {
        match variable {
            Expr::Unit(_) => Ok(()),
            Expr::Variable {
                name,
                namespace,
                ..
            } if namespace.path.is_empty() => self.declare(name),
            _ => Err(CheckFault::BadCatch(variable.position())),
        }
    }

    /// Adds an import under its alias, or under the empty name where it has none.
    pub fn import(&mut self, alias: &Option<Ident>) -> Result<(), CheckFault>
        ensures added { OnOk result (self.new ≡ record self.old {
          imports = self.old.imports ++ name_asked alias.now ∷ [];
        }) }
        ensures memory { IfErr result (λ fault. fault ≡ CheckFault.NoMemory) }
    {
        match alias {
            Some(alias) => push_shared(&mut self.imports, &alias.name),
            None => push_empty(&mut self.imports),
        }
    }
}

/// Adds a name to a list.
fn push_shared(list: &mut Items<Shared<Text>>, name: &Shared<Text>) -> Result<(), CheckFault>
    ensures added { OnOk result (list.new ≡ list.old ++ name.now ∷ []) }
    ensures memory { IfErr result (λ fault. fault ≡ CheckFault.NoMemory) }
{
    match name.share() {
        Err(_) => Err(CheckFault::NoMemory),
        Ok(name) => push(list, name),
    }
}

/// Adds the empty name to a list.
fn push_empty(list: &mut Items<Shared<Text>>) -> Result<(), CheckFault>
    ensures added { OnOk result (list.new ≡ list.old ++ [] ∷ []) }
    ensures memory { IfErr result (λ fault. fault ≡ CheckFault.NoMemory) }
{
    let alloc = list.allocator();
    match Shared::new(alloc, Text::new(alloc)) {
        Err(_) => Err(CheckFault::NoMemory),
        Ok(name) => push(list, name),
    }
}

/// Moves a name to the end of a list.
fn push(list: &mut Items<Shared<Text>>, name: Shared<Text>) -> Result<(), CheckFault>
    ensures added { OnOk result (list.new ≡ list.old ++ name ∷ []) }
    ensures memory { IfErr result (λ fault. fault ≡ CheckFault.NoMemory) }
{
    match list.push(name) {
        Ok(()) => Ok(()),
        Err(_) => Err(CheckFault::NoMemory),
    }
}
