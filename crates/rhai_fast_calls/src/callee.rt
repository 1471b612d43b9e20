//! Which function a plain call means.

ghost use Rattle.std.specs.Prelude.{◌≡◌, IfSome, IsTrue, None, false, true};
ghost use Rattle.rhai_tree.specs.Forms.{is_unqualified};
ghost use Rattle.rhai_fast_calls.specs.Callees.{IsPlain, starts_by_value as by_value};

use rhai_functions::key::FnKey;
use rhai_lookups::run::RunState;
use rhai_names::variables::is_plain;
use rhai_tree::Shared;
use rhai_tree::checked::CheckedFn;
use rhai_tree::expr::{Expr, FnCallExpr};
use rhai_values::base::value::Host;

/// Tells whether the first argument, if there is one, is passed by its value whatever it is. Then it is no
/// variable and not `this`.
fn starts_by_value(args: &[Expr]) -> bool
    ensures { result ≡ by_value args.now }
{
    let Some(first) = args.first() else {
        return true;
    };
    !matches!(first, Expr::Variable { .. } | Expr::ThisPtr(..))
}

/// Tells whether a call is one by its name alone. It is no operator, stands behind no path, and captures none
/// of its caller's variables.
#[inline(always)]
pub fn is_by_name(call: &FnCallExpr) -> bool
    ensures token { IsTrue result → call.now.op_token ≡ None }
    ensures captures { IsTrue result → call.now.capture_parent_scope ≡ false }
    ensures path { IsTrue result → is_unqualified call.now.namespace.path ≡ true }
{
    call.op_token.is_none() && !call.capture_parent_scope && is_plain(&call.namespace)
}

/// Finds the function of a run's libraries that a call means whatever its arguments come to. The answer has
/// an owner of its own. None where the function is not known before they are evaluated: of an operator, a
/// call behind a path, one that captures its caller's variables, one whose first argument is a variable or
/// `this`, a name that means something besides functions, and a function with an environment. What the lookup
/// comes to is kept, where there is memory for it.
pub fn plain_callee<H: Host>(
    global: &mut RunState<H>,
    call: &FnCallExpr,
) -> Option<Shared<CheckedFn>>
    ensures plain { IfSome result (λ def. IsPlain call.now global.old.lists.0 def) }
    ensures same { global.new ≡ global.old }
{
    if !is_by_name(call) {
        return None;
    }
    let args = call.args.as_slice();
    if !starts_by_value(args) {
        return None;
    }
    let key = FnKey {
        name: call.name.get().as_str(),
        arity: args.len(),
        this_type: None,
    };
    let def = global.lists.find_plain(&key)?;
    let parameters = def.get().def().params.len();
    if parameters != args.len() {
        return None;
    }
    Some(def)
}
