//! What an index leads to, and what is put back there.

use crate::host::{Stone, cells};
use crate::reader::Reader;
use crate::sheet::Sheet;
use rhai_errors::error::EvalAltResult;
use rhai_places::indexing::get_indexed_mut;
use rhai_places::target::Target;
use rhai_spots::spot::Access;
use rhai_tree::position::Position;
use rhai_values::base::value::{Dynamic, Union};
use rhai_values::cells::CellStore;
use std::alloc::Global;
use std::mem::swap;

/// A focus with an index, and a value to be put where the index leads.
#[derive(Drop)]
struct Call {
    object: Dynamic<Stone>,
    index: Dynamic<Stone>,
    part: Dynamic<Stone>,
    cells: CellStore<Stone>,
}

/// Reads a call with a focus and an index, and writes what it answers:
///
/// - `index`: what the index leads to
/// - `strict`: that too, where a missing key is an error
/// - `insert`: that too, where a missing key is inserted
/// - `target`: the kind of the `Target`, what it shows, and what is taken from it
/// - `put`: the focus after a third value was put where the index leads
pub fn answer(line: &mut Reader<'_>, out: &mut Sheet) {
    let form = line.word();
    let mut call = Call {
        object: line.value(),
        index: line.value(),
        part: part_to_put(line, form),
        cells: cells(line),
    };
    tell(line.allocator(), out, form, &mut call);
    drop(call);
}

/// Reads the value that is to be put, where the form has one.
fn part_to_put(line: &mut Reader<'_>, form: &str) -> Dynamic<Stone> {
    if form == "put" {
        return line.value();
    }
    if !["index", "strict", "insert", "target"].contains(&form) {
        line.want("index, strict, insert, target or put");
    }
    Dynamic::new(Union::Unit)
}

/// Tells how the focus of a call is indexed. The operator is at 1:2, and the index at 1:3.
fn access(form: &str) -> Access {
    Access {
        idx_pos: Position::new(1, 3),
        op_pos: Position::new(1, 2),
        add_if_not_found: form == "insert" || form == "put",
        fail_on_invalid_map_property: form == "strict",
    }
}

/// Writes what a call answers.
fn tell(alloc: Global, out: &mut Sheet, form: &str, call: &mut Call) {
    if form == "put" {
        let put = put(alloc, call);
        out.show(&call.object);
        tell_refusal(out, put);
    } else {
        tell_indexed(alloc, out, form, call);
    }
}

/// Writes what the index leads to.
fn tell_indexed(alloc: Global, out: &mut Sheet, form: &str, call: &mut Call) {
    let how = access(form);
    match get_indexed_mut(&mut call.object, alloc, &call.cells, &call.index, how) {
        Ok(target) => tell_target(alloc, out, form, target),
        Err(error) => out.tell_error(error),
    }
}

fn tell_target(alloc: Global, out: &mut Sheet, form: &str, target: Target<'_, Stone>) {
    if form == "target" {
        describe(alloc, out, target);
    } else {
        show(out, target);
    }
}

fn show(out: &mut Sheet, target: Target<'_, Stone>) {
    out.show(target.as_ref());
    drop(target);
}

/// Writes the kind of a `Target`, what it shows, and what is taken from it.
fn describe(alloc: Global, out: &mut Sheet, target: Target<'_, Stone>) {
    out.write(kind(&target));
    out.show(target.as_ref());
    out.write(" taken as ");
    out.tell(target.take_or_clone(alloc));
}

/// Returns the word that stands before what a `Target` shows.
fn kind(target: &Target<'_, Stone>) -> &'static str {
    match (target.is_shared(), target.is_temp_value(), target.is_ref()) {
        (true, _, _) => "shared ",
        (_, true, _) => "temporary ",
        (_, _, true) => "place ",
        _ => "part ",
    }
}

/// Puts the part of a call where its index leads.
fn put(alloc: Global, call: &mut Call) -> Result<(), EvalAltResult<Stone>> {
    let how = access("put");
    let target = get_indexed_mut(&mut call.object, alloc, &call.cells, &call.index, how)?;
    put_back(alloc, target, &mut call.part)
}

/// Puts a value into a `Target` and back, at 1:9.
fn put_back(
    alloc: Global,
    mut target: Target<'_, Stone>,
    part: &mut Dynamic<Stone>,
) -> Result<(), EvalAltResult<Stone>> {
    swap(target.as_mut(), part);
    let put = target.propagate_changed_value(alloc, Position::new(1, 9));
    drop(target);
    put
}

/// Writes why nothing was put.
fn tell_refusal(out: &mut Sheet, put: Result<(), EvalAltResult<Stone>>) {
    if let Err(error) = put {
        out.write(" and ");
        out.tell_error(error);
    }
}
