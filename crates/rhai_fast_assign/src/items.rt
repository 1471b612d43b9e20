//! An assignment by an operator to an item of an array that a variable has, where the item, the index and the
//! value are integers as they stand: the item is changed where it stands. Ports a part of upstream's
//! `eval_dot_index_chain_raw`. The contracts cite the machine's specs/language/Chains.antt and the crate's
//! own specs/.

ghost use Rattle.std.specs.Prelude.{◌≡◌, ◌<◌, IfSome, Some, Ok, length, slice_get, true, false};
ghost use Rattle.std.specs.Prelude.{unsigned_abs};
ghost use Rattle.std.specs.Option.{option_map};
ghost use Rattle.rhai_tree.specs.declared.expr.Expr.{out-Expr};
ghost use Rattle.rhai_tree.specs.declared.expr.Expr.TheOpen as layer;
ghost use Rattle.rhai_tree.specs.Frame.{tests_of, target_resolves, resolves_expr};
ghost use Rattle.rhai_values.specs.Layers.{layer_of};
ghost use Rattle.rhai_state.specs.Scope.{entries_of, revalued, value_of};
ghost use Rattle.rhai_spots.specs.declared.spot.Spot.TheVariants as spot;
ghost use Rattle.rhai_spots.specs.Indexing.{index_in};
ghost use Rattle.rhai_spots.specs.Parts.{IsPlace, value_at, with_value};
ghost use Rattle.rhai_machine.specs.language.Frames.{OpenStmt};
ghost use Rattle.rhai_machine.specs.language.Runs.{Runs};
ghost use Rattle.rhai_machine.specs.language.Values.{unit_value as unit};
ghost use Rattle.rhai_steps.specs.Agreement.{AgreesAt, KeepsSight};
ghost use Rattle.rhai_steps.specs.Sessions.{under};
ghost use Rattle.rhai_steps.specs.States.{state_of};
ghost use Rattle.rhai_assign.specs.Keeps.{Keeps};
ghost use Rattle.rhai_fast_assign.specs.Items.{charges_of, parts_in, place_in_array, writable_at};

use rhai_context::ends::put_number;
use rhai_errors::table::NativeTable;
use rhai_lookups::run::RunState;
use rhai_names::variables::index_by_offset;
use rhai_operands::operands::{integer_at, integer_in_place};
use rhai_operands::operators::compute_known;
use rhai_places::place::place_mut;
use rhai_spots::spot::Spot;
use rhai_state::scope::Scope;
use rhai_state::session::Session;
use rhai_steps::charges::charge_all;
use rhai_tree::expr::{Expr, OpAssignment};
use rhai_values::base::value::{AccessMode, Dynamic, Host, Union};

/// Returns the root and the index of an expression that is an item. The index is a literal integer or a
/// variable, and nothing stands behind it. None for any other expression.
fn item_parts(lhs: &Expr) -> Option<(&Expr, &Expr)>
    ensures { option_map (λ pair. (pair.0.now, pair.1.now)) result ≡ parts_in (out-Expr lhs.now) }
{
    let Expr::Index(root, index, ..) = lhs else {
        return None;
    };
    let index = index.get();
    match index {
        Expr::IntegerConstant(..) | Expr::Variable { .. } => Some((root.get(), index)),
        _ => None,
    }
}

/// Counts the operations that an assignment to an item charges. They are those of the value, the root and the
/// item, and for an index that is a variable those of what stands behind the bracket and of the index.
fn charges(index: &Expr) -> u64
    ensures { result ≡ charges_of (out-Expr index.now) }
{
    match index {
        Expr::IntegerConstant(..) => 3,
        _ => 5,
    }
}

/// Finds where an index leads in a sequence, counted from the end where it is negative. None where it leads
/// nowhere.
#[inline(always)]
fn place_of_index(length: usize, index: i64) -> Option<usize>
    ensures at { result ≡ index_in length index }
    ensures within { IfSome result (λ at. at < length) }
{
    let distance = index.unsigned_abs() as usize;
    if index >= 0 {
        if distance < length {
            Some(distance)
        } else {
            None
        }
    } else if distance <= length {
        Some(length - distance)
    } else {
        None
    }
}

/// Finds where an index leads in a value that is an array. None where it is no array or the index leads
/// nowhere.
#[inline(always)]
fn place_in_value<H>(source: &Dynamic<H>, index: Option<i64>) -> Option<usize>
    ensures at { result ≡ place_in_array (layer_of source.now) index }
    ensures within { IfSome result (λ at. IsPlace (layer_of source.now) (spot.Item at)) }
{
    match &source.value {
        Union::Array(items) => place_of_index(items.get().len(), index?),
        _ => None,
    }
}

/// Reads the integer that an item of an array is. None where the value is no array or has no such item, or
/// where that is a constant or of another type.
#[inline(always)]
fn integer_of_item<H>(source: &Dynamic<H>, at: usize) -> Option<i64>
    ensures { result ≡ writable_at (value_at source.now (spot.Item at)) }
{
    match &source.value {
        Union::Array(items) => {
            let item = items.get().get(at)?;
            match item.mode {
                AccessMode::ReadWrite => integer_at(item),
                AccessMode::ReadOnly => None,
            }
        }
        _ => None,
    }
}

/// Writes a value to an item of an array that a variable has.
#[inline(always)]
fn write_item<H: Host>(scope: &mut Scope<H>, entry: usize, at: usize, value: Dynamic<H>)
    requires known { entry < length (entries_of scope.old) }
    requires place { IfSome (option_map value_of (slice_get (entries_of scope.old) entry))
        (λ source. IsPlace (layer_of source) (spot.Item at)) }
    ensures { (source : _) → option_map value_of (slice_get (entries_of scope.old) entry) ≡ Some source →
        entries_of scope.new ≡ revalued (entries_of scope.old) entry (slice_get (entries_of scope.old) entry)
        (with_value source (spot.Item at) value) }
{
    let source = scope.value_at_mut(entry);
    put_number(place_mut(&mut source.value, Spot::Item(at)), value);
}

/// Assigns to an item of an array that a variable has, by an operator on two integers. It makes all its
/// charges at once. False where that is not so, or the limit has no room for all charges: then nothing is
/// changed. The table is not called.
#[inline(never)]
pub fn assign_item<H: Host, T: NativeTable<H>>(
    session: &Session<'_, H>,
    global: &mut RunState<H>,
    _table: &T,
    scope: &mut Scope<H>,
    op: &OpAssignment,
    lhs: &Expr,
    rhs: &Expr,
) -> bool
    requires resolves_target { AgreesAt global.old scope.old (target_resolves (tests_of lhs.now)) }
    requires resolves { AgreesAt global.old scope.old (resolves_expr rhs.now) }
    ensures left_global { result ≡ false → global.new ≡ global.old }
    ensures left_scope { result ≡ false → scope.new ≡ scope.old }
    ensures keeps { Keeps global.old global.new scope.old scope.new }
    ensures sight { KeepsSight global.old global.new }
    ensures runs { result ≡ true → (held : _) (restoring : _) → session.now.fast_operators ≡ true →
        Runs (under H.name_of session.now T.natives)
        (OpenStmt (layer.Assignment op.now lhs.now rhs.now) restoring)
        (state_of (T.state _table.now) global.old scope.old held)
        (Ok unit) (state_of (T.state _table.now) global.new scope.new held) }
{
    let Some((root, index)) = item_parts(lhs) else {
        return false;
    };
    let Expr::Variable {
        offset,
        name,
        namespace,
        ..
    } = root
    else {
        return false;
    };
    let Some(token) = op.op else {
        return false;
    };
    let Some(entry) = index_by_offset(global, scope, *offset, name, namespace) else {
        return false;
    };
    let position = integer_in_place(global, scope, index);
    if position.is_none() {
        return false;
    }
    let source = scope.value_at(entry);
    let Some(at) = place_in_value(source, position) else {
        return false;
    };
    let target = integer_of_item(source, at);
    if target.is_none() {
        return false;
    }
    let operand = integer_in_place(global, scope, rhs);
    if operand.is_none() {
        return false;
    }
    let Some(value) = compute_known(token, target, operand) else {
        return false;
    };
    let count = charges(index);
    if !charge_all(&session.limits, global, count) {
        drop(value);
        return false;
    }
    write_item(scope, entry, at, value);
    true
}
