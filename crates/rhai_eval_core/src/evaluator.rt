//! The evaluator: a session, whose methods are the functions of the cycle.

use rhai_state::session::Session;

/// An evaluator of trees. It reads no more of an engine than its session has.
#[derive(Drop)]
pub struct Evaluator<'e, H> {
    pub session: Session<'e, H>,
}
