//! The calls that leave what they are handed where a request is refused: three read it, and `CellStore::add` hands it
//! back.

use rhai_eval_base::base::{Dynamic, Union};
use rhai_eval_base::cells::CellStore;
use rhai_eval_base::script::{ScriptFuncDef, environ_of, metadata_of};
use rhai_rows::refuser;
use rhai_rows::refuser::Refusal;
use rhai_rows::signatures::state_with_surroundings;
use rhai_samples::built::private_function;
use rhai_tables::host::Pair;
use std::alloc::Global;

/// One of these calls.
#[derive(Clone, Copy, Debug, PartialEq, Eq)]
pub enum Leaf {
    /// `metadata_of`
    Metadata,
    /// `ScriptFuncDef::clone_function_signatures`
    Signature,
    /// `environ_of`
    Environ,
    /// `CellStore::add`
    Cell,
}

/// What a call left.
#[derive(Clone, Copy)]
pub struct Left {
    /// Whether what it was handed is as it was, and all memory that it took is given back, unless it was done.
    pub is_as_it_was: bool,
    pub was_refused: bool,
}

impl Left {
    /// What is left where there is nothing to call with.
    const NOTHING: Left = Left {
        is_as_it_was: false,
        was_refused: false,
    };
}

impl Leaf {
    pub const ALL: [Leaf; 4] = [Leaf::Metadata, Leaf::Signature, Leaf::Environ, Leaf::Cell];

    /// Makes the call with the request of a number in it refused.
    pub fn call(self, alloc: Global, refusal: Refusal, number: usize) -> Left {
        match self {
            Leaf::Metadata | Leaf::Signature => self.reads_function(alloc, refusal, number),
            Leaf::Environ => reads_state(alloc, refusal, number),
            Leaf::Cell => adds_cell(alloc, refusal, number),
        }
    }

    /// Reads a function, which shows what it showed before.
    fn reads_function(self, alloc: Global, refusal: Refusal, number: usize) -> Left {
        let Ok(def) = private_function(alloc) else {
            return Left::NOTHING;
        };
        let before = shown(alloc, &def);
        refuser::begin(alloc, refusal, number);
        self.reads(alloc, &def);
        let was_refused = refuser::end(alloc);
        let is_given_back = refuser::is_all_given_back(alloc);
        let after = shown(alloc, &def);
        drop(def);
        Left {
            is_as_it_was: is_given_back && is_same_text(&before, &after),
            was_refused,
        }
    }

    fn reads(self, alloc: Global, def: &ScriptFuncDef) {
        match self {
            Leaf::Metadata => drop(metadata_of(alloc, def)),
            _ => drop(def.clone_function_signatures(alloc)),
        }
    }
}

fn shown(alloc: Global, def: &ScriptFuncDef) -> Option<String> {
    format!(in alloc; "{def}").ok()
}

fn is_same_text(before: &Option<String>, after: &Option<String>) -> bool {
    match (before, after) {
        (Some(before), Some(after)) => before.as_str() == after.as_str(),
        _ => false,
    }
}

/// Reads what is around the functions of a state, which has what it had.
fn reads_state(alloc: Global, refusal: Refusal, number: usize) -> Left {
    let Ok(global) = state_with_surroundings(alloc) else {
        return Left::NOTHING;
    };
    let (libraries, imports, constants) = (
        global.lib.len(),
        global.imports.len(),
        global.constants,
    );
    refuser::begin(alloc, refusal, number);
    drop(environ_of(alloc, &global));
    let was_refused = refuser::end(alloc);
    let is_given_back = refuser::is_all_given_back(alloc);
    Left {
        is_as_it_was: is_given_back
            && global.lib.len() == libraries
            && global.imports.len() == imports
            && global.constants == constants,
        was_refused,
    }
}

/// Adds a value to an empty store, which has it then, or hands it back and is empty still.
fn adds_cell(alloc: Global, refusal: Refusal, number: usize) -> Left {
    let mut cells: CellStore<Pair> = CellStore::new(alloc);
    refuser::begin(alloc, refusal, number);
    let added = cells.add(Dynamic::new(Union::Int(5)));
    let was_refused = refuser::end(alloc);
    let is_as_it_was = match added {
        Ok(id) => !was_refused && is_five(cells.get(id)),
        Err((value, _)) => {
            let is_back = is_five(Some(&value));
            drop(value);
            is_back && was_refused && cells.len() == 0 && refuser::is_all_given_back(alloc)
        }
    };
    Left {
        is_as_it_was,
        was_refused,
    }
}

fn is_five(value: Option<&Dynamic<Pair>>) -> bool {
    match value {
        Some(value) => matches!(&value.value, Union::Int(5)),
        None => false,
    }
}
