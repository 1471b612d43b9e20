//! The table of the bench, which is one type, so that a program has one copy of the evaluator.

ghost use Rattle.std.specs.Prelude.{◌≡◌, Some, None, []};
ghost use Rattle.rhai_values.specs.Cells.{IsNoHandle, cells_of};
ghost use Rattle.rhai_errors.specs.Native.{Leaves, Obeys, reply_of, request};
ghost use Rattle.rhai_tables.specs.Bench.{key_of, name_of, natives, state_of};

use crate::host::Pair;
use crate::tables::counting::Counting;
use crate::tables::odd::Odd;
use rhai_errors::table::{Answer, NativeTable};
use rhai_natives::Natives;
use rhai_tree::literal::NativeId;
use rhai_tree::position::Position;
use rhai_values::base::value::Dynamic;
use rhai_values::cells::CellStore;
use std::alloc::Global;

/// The natives of one of the bench's tables.
#[derive(Drop)]
pub enum BenchTable {
    Counting(Natives<Counting>),
    Odd(Odd),
}

impl BenchTable {
    /// Creates the table of `Counting`, with the counter at nought, or that of `Odd`, with no pointer kept.
    pub fn new(alloc: Global, is_odd: bool) -> BenchTable {
        if is_odd {
            BenchTable::Odd(Odd::new(alloc))
        } else {
            BenchTable::Counting(Counting::table(alloc))
        }
    }

    /// Counts what the natives have done that shows later: what `Counting` has counted, or the pointer that is kept.
    pub fn count(&self) -> i64 {
        match self {
            BenchTable::Counting(table) => table.natives.counter,
            BenchTable::Odd(table) => i64::from(u8::from(table.has_kept())),
        }
    }

    /// Calls a native by its number, or else by its name, on a first argument.
    fn call_on(
        &mut self,
        cells: &CellStore<Pair>,
        name: &str,
        id: Option<NativeId>,
        first: &mut Dynamic<Pair>,
        rest: &[Dynamic<Pair>],
        pos: Position,
    ) -> Answer<Pair>
        requires { IsNoHandle first.old.value }
        ensures obeys { Obeys (natives.gives (state_of self.old)
            (request (cells_of cells.now) (key_of name.now id) (Some first.old) rest.now pos))
            (reply_of result) (Some first.new) (state_of self.new) }
        ensures no_handle { IsNoHandle first.new.value }
        ensures leaves { Leaves name_of natives (state_of self.old)
            (request (cells_of cells.now) (key_of name.now id) (Some first.old) rest.now pos)
            (Some first.new) (state_of self.new) }
    {
        match self {
            BenchTable::Counting(table) => answer_on(table, cells, name, id, first, rest, pos),
            BenchTable::Odd(table) => answer_on(table, cells, name, id, first, rest, pos),
        }
    }

    /// Calls a native by its number, or else by its name, without a first argument.
    fn call_alone(
        &mut self,
        cells: &CellStore<Pair>,
        name: &str,
        id: Option<NativeId>,
        rest: &[Dynamic<Pair>],
        pos: Position,
    ) -> Answer<Pair>
        ensures obeys { Obeys (natives.gives (state_of self.old)
            (request (cells_of cells.now) (key_of name.now id) None rest.now pos))
            (reply_of result) None (state_of self.new) }
        ensures leaves { Leaves name_of natives (state_of self.old)
            (request (cells_of cells.now) (key_of name.now id) None rest.now pos) None (state_of self.new) }
    {
        match self {
            BenchTable::Counting(table) => answer_alone(table, cells, name, id, rest, pos),
            BenchTable::Odd(table) => answer_alone(table, cells, name, id, rest, pos),
        }
    }
}

impl NativeTable<Pair> for BenchTable {
    ghost use Rattle.rhai_tables.specs.Bench.{State};
    ghost use Rattle.rhai_tables.specs.BenchLaw.{bench_lawful};

    ghost State = { State };

    ghost state = { state_of };

    ghost natives = { natives };

    fn call(
        &mut self,
        cells: &CellStore<Pair>,
        name: &str,
        first: Option<&mut Dynamic<Pair>>,
        rest: &[Dynamic<Pair>],
        position: Position,
    ) -> Answer<Pair> {
        match first {
            Some(first) => self.call_on(cells, name, None, first, rest, position),
            None => self.call_alone(cells, name, None, rest, position),
        }
    }

    fn call_numbered(
        &mut self,
        cells: &CellStore<Pair>,
        id: NativeId,
        first: Option<&mut Dynamic<Pair>>,
        rest: &[Dynamic<Pair>],
        position: Position,
    ) -> Answer<Pair> {
        match first {
            Some(first) => self.call_on(cells, "", Some(id), first, rest, position),
            None => self.call_alone(cells, "", Some(id), rest, position),
        }
    }

    fn is_pure(&self, name: &str, first_type: &str, count: usize) -> bool {
        match self {
            BenchTable::Counting(table) => table.is_pure(name, first_type, count),
            BenchTable::Odd(table) => table.is_pure(name, first_type, count),
        }
    }

    fn is_pure_numbered(&self, id: NativeId) -> bool {
        match self {
            BenchTable::Counting(table) => table.is_pure_numbered(id),
            BenchTable::Odd(table) => table.is_pure_numbered(id),
        }
    }

    ghost lawful = { bench_lawful _ };
}

/// Asks a native of a table for its answer on a first argument.
#[inline(always)]
fn answer_on<T: NativeTable<Pair>>(
    table: &mut T,
    cells: &CellStore<Pair>,
    name: &str,
    id: Option<NativeId>,
    first: &mut Dynamic<Pair>,
    rest: &[Dynamic<Pair>],
    pos: Position,
) -> Answer<Pair>
    requires { IsNoHandle first.old.value }
    ensures obeys { Obeys (T.natives.gives (T.state table.old)
        (request (cells_of cells.now) (key_of name.now id) (Some first.old) rest.now pos))
        (reply_of result) (Some first.new) (T.state table.new) }
    ensures no_handle { IsNoHandle first.new.value }
    ensures leaves { Leaves name_of T.natives (T.state table.old)
        (request (cells_of cells.now) (key_of name.now id) (Some first.old) rest.now pos)
        (Some first.new) (T.state table.new) }
{
    match id {
        None => table.call(cells, name, Some(&mut *first), rest, pos),
        Some(id) => table.call_numbered(cells, id, Some(&mut *first), rest, pos),
    }
}

/// Asks a native of a table for its answer without a first argument. The lifetime is one for a first argument,
/// which is none.
#[inline(always)]
fn answer_alone<'a, T: NativeTable<Pair>>(
    table: &mut T,
    cells: &'a CellStore<Pair>,
    name: &str,
    id: Option<NativeId>,
    rest: &[Dynamic<Pair>],
    pos: Position,
) -> Answer<Pair>
    ensures obeys { Obeys (T.natives.gives (T.state table.old)
        (request (cells_of cells.now) (key_of name.now id) None rest.now pos))
        (reply_of result) None (T.state table.new) }
    ensures leaves { Leaves name_of T.natives (T.state table.old)
        (request (cells_of cells.now) (key_of name.now id) None rest.now pos) None (T.state table.new) }
{
    let first: Option<&'a mut Dynamic<Pair>> = None;
    match id {
        None => table.call(cells, name, first, rest, pos),
        Some(id) => table.call_numbered(cells, id, first, rest, pos),
    }
}
