//! What the walk of a chain decides and does at a link, without going on: which way it goes, where an index
//! or a key leads, how a temporary and a part go back, and how the chain ends. The walk itself stands in the
//! evaluator's cycle, since a method may enter a function of a script. Ports parts of upstream's
//! `eval_dot_index_chain_raw`. The contracts cite the machine's specs/language/Chains.antt and the crate's
//! own specs/.

ghost use Rattle.std.specs.Prelude.{◌≡◌};

use rhai_state::session::Session;
use rhai_tree::expr::Expr;
use rhai_values::base::value::Host;

/// What stays the same all along a walk.
#[derive(Drop)]
pub struct Walker<'w, 'e, H> {
    pub session: &'w Session<'e, H>,
    /// The root of the chain.
    pub root: &'w Expr,
}

impl<'w, 'e, H: Host> Walker<'w, 'e, H> {
    /// Returns what stays the same all along a walk.
    pub fn new(session: &'w Session<'e, H>, root: &'w Expr) -> Walker<'w, 'e, H>
        ensures session { result.session.now ≡ session.now }
        ensures root { result.root.now ≡ root.now }
    {
        Walker { session, root }
    }
}
