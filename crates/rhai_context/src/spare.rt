//! Lists of variables that calls use again.

ghost use Rattle.std.specs.Prelude.{◌≡◌, []};

use rhai_state::scope::ScopeEntry;
use rhai_tree::Items;
use std::alloc::Global;
use std::marker::Model;

/// How many lists are kept at most: as many as there are call levels by default.
const MOST_KEPT: usize = 64;

/// The variables of functions, with the room that they have, so that most calls take no memory for them: a
/// call that others are nested in keeps its own meanwhile. They are empty between calls, so contracts see
/// nothing of them.
#[derive(Drop)]
pub struct Spare<H> {
    variables: Vec<Items<ScopeEntry<H>>>,
}

impl<H> Model for Spare<H> {
    ghost Value = { Unit {0} };

    ghost view = { λ spare. tt };
}

/// Empties a list of its variables.
#[inline(always)]
fn emptied<H: Drop>(variables: Items<ScopeEntry<H>>) -> Items<ScopeEntry<H>>
    ensures { result ≡ [] }
{
    let mut variables = variables;
    variables.truncate(0);
    variables
}

impl<H: Drop> Spare<H> {
    /// Makes a store that has no list yet. It takes no memory.
    pub fn new(alloc: Global) -> Spare<H> {
        Spare {
            variables: Vec::new(alloc),
        }
    }

    /// Lends a list without variables: the one that was kept last, or a new one without room.
    #[inline(always)]
    pub fn lend_variables(&mut self, alloc: Global) -> Items<ScopeEntry<H>>
        ensures list { result ≡ [] }
        ensures same { self.new ≡ self.old }
    {
        match self.variables.pop() {
            Some(variables) => emptied(variables),
            None => Items::new(alloc),
        }
    }

    /// Keeps a list with the room that it has, without its variables. It is let go of where enough are kept
    /// or there is no memory to keep it.
    #[inline(always)]
    pub fn keep_variables(&mut self, variables: Items<ScopeEntry<H>>)
        ensures { self.new ≡ self.old }
    {
        let variables = emptied(variables);
        if self.variables.len() < MOST_KEPT {
            drop(self.variables.push(variables));
        }
    }
}
