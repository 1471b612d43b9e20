//! Charges of operations. Ports upstream's `track_operation`.

ghost use Rattle.std.specs.Prelude.{◌≡◌, ◌<◌, ◌≤◌, ◌+◌, OnOk, IfErr, true, false};
ghost use Rattle.rhai_errors.specs.declared.error.EvalAltResult.TheVariants as error;
ghost use Rattle.rhai_steps.specs.Agreement.{KeepsSight};

use rhai_errors::error::EvalAltResult;
use rhai_lookups::run::RunState;
use rhai_state::limits::Limits;
use rhai_state::state::GlobalRuntimeState;
use rhai_tree::position::Position;
use rhai_values::base::value::Host;

/// Charges one operation, or refuses it where the count has reached the limit; the count then
/// stays.
pub fn track_operation<H: Host>(
    limits: &Limits,
    global: &mut RunState<H>,
    pos: Position,
) -> Result<(), EvalAltResult<H>>
    ensures room { OnOk result (global.old.num_operations < limits.now.max_operations) }
    ensures charged { OnOk result (global.new ≡ record global.old
        { num_operations = global.old.num_operations + 1 }) }
    ensures full { IfErr result (λ _. limits.now.max_operations ≤ global.old.num_operations) }
    ensures refused { IfErr result (λ e. e ≡ error.ErrorTooManyOperations pos) }
    ensures same { IfErr result (λ _. global.new ≡ global.old) }
    ensures sight { KeepsSight global.old global.new }
{
    let is_spent = global.num_operations >= limits.max_operations;
    if is_spent {
        return Err(EvalAltResult::ErrorTooManyOperations(pos));
    }
    global.num_operations += 1;
    Ok(())
}

/// Charges one operation of a caller's state, or refuses it where the count has reached the limit; the count
/// then stays.
pub fn charge_caller<H: Host>(
    limits: &Limits,
    global: &mut GlobalRuntimeState<H>,
    pos: Position,
) -> Result<(), EvalAltResult<H>>
    ensures room { OnOk result (global.old.num_operations < limits.now.max_operations) }
    ensures charged { OnOk result (global.new ≡ record global.old
        { num_operations = global.old.num_operations + 1 }) }
    ensures full { IfErr result (λ _. limits.now.max_operations ≤ global.old.num_operations) }
    ensures refused { IfErr result (λ e. e ≡ error.ErrorTooManyOperations pos) }
    ensures same { IfErr result (λ _. global.new ≡ global.old) }
{
    let is_spent = global.num_operations >= limits.max_operations;
    if is_spent {
        return Err(EvalAltResult::ErrorTooManyOperations(pos));
    }
    global.num_operations += 1;
    Ok(())
}

/// Charges one operation. Where the count has reached the limit it charges none and answers false.
#[inline(always)]
pub fn charge_one<H: Host>(limits: &Limits, global: &mut RunState<H>) -> bool
    ensures room { result ≡ true → global.old.num_operations < limits.now.max_operations }
    ensures charged { result ≡ true → global.new ≡ record global.old
        { num_operations = global.old.num_operations + 1 } }
    ensures full { result ≡ false → limits.now.max_operations ≤ global.old.num_operations }
    ensures same { result ≡ false → global.new ≡ global.old }
    ensures sight { KeepsSight global.old global.new }
{
    let has_room = global.num_operations < limits.max_operations;
    if !has_room {
        return false;
    }
    global.num_operations += 1;
    true
}

/// Charges several operations at once where the limit has room for all of them. Else it charges none
/// and answers false.
#[inline(always)]
pub fn charge_all<H: Host>(limits: &Limits, global: &mut RunState<H>, count: u64) -> bool
    ensures room { result ≡ true →
        global.old.num_operations + count ≤ limits.now.max_operations }
    ensures charged { result ≡ true → global.new ≡ record global.old
        { num_operations = global.old.num_operations + count } }
    ensures full { result ≡ false →
        limits.now.max_operations < global.old.num_operations + count }
    ensures same { result ≡ false → global.new ≡ global.old }
    ensures sight { KeepsSight global.old global.new }
{
    let Some(sum) = global.num_operations.checked_add(count) else {
        let _limit = limits.max_operations;
        return false;
    };
    let has_room = sum <= limits.max_operations;
    if !has_room {
        return false;
    }
    global.num_operations = sum;
    true
}
