//! What scripts come to, as it is written.

use crate::outcome::{Ending, Outcome};
use crate::sheet::Sheet;
use rhai_errors::error::Bounds;
use rhai_eval_base::base::{AccessMode, CellId, EvalAltResult, Scope, ScopeEntry, Shared, Text};
use rhai_eval_base::cells::CellStore;
use rhai_eval_base::state::Import;
use rhai_tables::host::Pair;
use std::alloc::Global;
use std::io;

/// Writes what is asked of what a script came to above so many other variables: how it ended, its operations,
/// what natives counted, its variables, the constant ones, those with aliases, its cells, the modules that it loaded,
/// its imports, what its error says beside its position, or that error as a user reads it; or `all`, which is how it
/// ended with what it left.
pub fn write_outcome(
    alloc: Global,
    others: usize,
    form: &str,
    outcome: &Outcome,
    out: &mut Vec<u8>,
) -> io::Result<()> {
    let mut sheet = Sheet::new(alloc);
    match form {
        "ends" => sheet.end(&outcome.ending),
        "charges" => sheet.show(&outcome.num_operations),
        "counts" => sheet.show(&outcome.counted),
        "loads" => sheet.show(&outcome.num_modules_loaded),
        "says" => sheet.said(&outcome.ending),
        "reads" => sheet.read(&outcome.ending),
        "all" => sheet.all(outcome),
        _ => sheet.left(others, form, outcome),
    }
    sheet.hand_to(out)
}

impl Sheet {
    /// Appends what a script left: its variables, the constant ones, those with aliases, its cells or its imports.
    fn left(&mut self, others: usize, form: &str, outcome: &Outcome) {
        match form {
            "leaves" => self.variables(others, &outcome.scope),
            "fixes" => self.constants(&outcome.scope),
            "shares" => self.cells(&outcome.cells),
            "exports" => self.aliases(&outcome.scope),
            "imports" => self.imports(outcome.imports.as_slice()),
            _ => self.write("no form"),
        }
    }

    /// Appends how a call ended, its charges, the variables, the cells if there are some, and `this`.
    pub fn all(&mut self, outcome: &Outcome) {
        self.end(&outcome.ending);
        self.raced(&outcome.ending);
        self.write(", ");
        self.show(&outcome.num_operations);
        self.write(" charges; ");
        self.variables(0, &outcome.scope);
        if outcome.cells.len() > 0 {
            self.write(" cells ");
            self.cells(&outcome.cells);
        }
        self.write(" this = ");
        self.value(&outcome.this);
    }

    /// Appends how many entries the newest cache has, and how many caches there are, as `1 of 2`.
    pub fn kept(&mut self, entries: usize, depth: usize) {
        self.show(&entries);
        self.write(" of ");
        self.show(&depth);
    }

    /// Appends the name that a data race has, where a call ended by one.
    fn raced(&mut self, ending: &Ending) {
        if let Ending::Error(EvalAltResult::ErrorDataRace(name, _)) = ending {
            self.write(" of '");
            self.write(name.get().as_str());
            self.write("'");
        }
    }

    /// Appends `nothing` where a list ended before a separator was due.
    fn end_list(&mut self, separator: &str) {
        if separator.is_empty() {
            self.write("nothing");
        }
    }

    /// Appends the variables above so many others with their values, as `x = 1; y = 2;`, or `nothing`.
    pub fn variables(&mut self, others: usize, scope: &Scope<Pair>) {
        if scope.len() <= others {
            self.write("nothing");
        }
        for (at, entry) in scope.entries().iter().enumerate() {
            if at >= others {
                self.separate(at - others, " ");
                self.variable(entry);
            }
        }
    }

    /// Appends a variable with its value, as `x = 1;`.
    fn variable(&mut self, entry: &ScopeEntry<Pair>) {
        self.write(entry.name.get().as_str());
        self.write(" = ");
        self.value(&entry.value);
        self.write(";");
    }

    /// Appends the names of the variables that are constant, each with a `;`, or `nothing`.
    fn constants(&mut self, scope: &Scope<Pair>) {
        let mut separator = "";
        for entry in scope.entries() {
            if entry.value.access_mode() == AccessMode::ReadOnly {
                self.write(separator);
                self.write(entry.name.get().as_str());
                self.write(";");
                separator = " ";
            }
        }
        self.end_list(separator);
    }

    /// Appends the variables that have aliases with them, as `x as y, z;`, or `nothing`.
    fn aliases(&mut self, scope: &Scope<Pair>) {
        let mut separator = "";
        for entry in scope.entries() {
            if !entry.aliases.as_slice().is_empty() {
                self.write(separator);
                self.write(entry.name.get().as_str());
                self.write(" as");
                self.names(entry.aliases.as_slice());
                separator = " ";
            }
        }
        self.end_list(separator);
    }

    /// Appends names behind a space each, with commas between them and a `;` behind them.
    fn names(&mut self, names: &[Shared<Text>]) {
        let mut separator = " ";
        for name in names {
            self.write(separator);
            self.write(name.get().as_str());
            separator = ", ";
        }
        self.write(";");
    }

    /// Appends the names of imports in quotes, each with a `;`, or `nothing`.
    fn imports(&mut self, imports: &[Import<Pair>]) {
        let mut separator = "";
        for import in imports {
            self.write(separator);
            self.quote_text(import.name.get().as_str());
            self.write(";");
            separator = " ";
        }
        self.end_list(separator);
    }

    /// Appends the values of the cells, as `1; [2];`, or `nothing`.
    fn cells(&mut self, cells: &CellStore<Pair>) {
        if cells.len() == 0 {
            self.write("nothing");
        }
        for number in 0..cells.len() {
            self.separate(number, " ");
            self.content(cells, number);
            self.write(";");
        }
    }

    /// Appends the value of a cell, or `held`.
    pub fn content(&mut self, cells: &CellStore<Pair>, number: usize) {
        match cells.get(CellId { number }) {
            Some(value) => self.value(value),
            None => self.write("held"),
        }
    }

    /// Appends an error as a user reads it, or `no error`.
    fn read(&mut self, ending: &Ending) {
        match ending {
            Ending::Error(error) => self.read_error(error),
            _ => self.write("no error"),
        }
    }

    /// Appends what an error of these scripts says beside its position, or `nothing`.
    fn said(&mut self, ending: &Ending) {
        match ending {
            Ending::Error(error) => self.said_by(error),
            _ => self.write("nothing"),
        }
    }

    fn said_by(&mut self, error: &EvalAltResult<Pair>) {
        match error {
            EvalAltResult::ErrorArrayBounds(bounds, _)
            | EvalAltResult::ErrorStringBounds(bounds, _) => self.bounds(bounds.get()),
            _ => self.write(text_of(error)),
        }
    }

    fn bounds(&mut self, bounds: &Bounds) {
        self.show(&bounds.length);
        self.write(" and ");
        self.show(&bounds.index);
    }
}

/// Returns the text of an error, or `nothing`.
fn text_of(error: &EvalAltResult<Pair>) -> &str {
    match error {
        EvalAltResult::ErrorFunctionNotFound(text, _)
        | EvalAltResult::ErrorVariableNotFound(text, _)
        | EvalAltResult::ErrorModuleNotFound(text, _)
        | EvalAltResult::ErrorAssignmentToConstant(text, _)
        | EvalAltResult::ErrorDotExpr(text, _)
        | EvalAltResult::ErrorNonPureMethodCallOnConstant(text, _) => text.get().as_str(),
        EvalAltResult::ErrorMismatchDataType(types, _) => types.get().found.as_str(),
        EvalAltResult::ErrorInFunctionCall(call, _) => call.get().name.get().as_str(),
        _ => "nothing",
    }
}
