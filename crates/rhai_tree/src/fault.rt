//! Why a tree is not well formed.

ghost use Rattle.std.specs.Prelude.{◌≡◌};
ghost use Rattle.rhai_tree.specs.Faults.{place_of};

use crate::position::Position;
use thiserror::Error;

/// Why the checker refused a tree, and where.
#[derive(Clone, Copy, Debug, Error)]
pub enum CheckFault {
    #[error("BadOffset")]
    BadOffset(Position),
    #[error("BadImportOffset")]
    BadImportOffset(Position),
    #[error("BadChain")]
    BadChain(Position),
    #[error("BadAssignment")]
    BadAssignment(Position),
    #[error("BadSwitch")]
    BadSwitch(Position),
    #[error("BadMapKey")]
    BadMapKey(Position),
    #[error("BadCatch")]
    BadCatch(Position),
    #[error("LoopControlOutside")]
    LoopControlOutside(Position),
    #[error("ExportNotGlobal")]
    ExportNotGlobal(Position),
    #[error("EvalCall")]
    EvalCall(Position),
    #[error("NotAnExpression")]
    NotAnExpression(Position),
    #[error("QualifiedMethod")]
    QualifiedMethod(Position),
    /// There was no memory to check with.
    #[error("NoMemory")]
    NoMemory,
}

impl CheckFault {
    /// Tells where the fault stands, which is nowhere where memory ran out.
    pub fn position(&self) -> Position
        ensures { result ≡ place_of self.now }
    {
        match self {
            CheckFault::BadOffset(position) => *position,
            CheckFault::BadImportOffset(position) => *position,
            CheckFault::BadChain(position) => *position,
            CheckFault::BadAssignment(position) => *position,
            CheckFault::BadSwitch(position) => *position,
            CheckFault::BadMapKey(position) => *position,
            CheckFault::BadCatch(position) => *position,
            CheckFault::LoopControlOutside(position) => *position,
            CheckFault::ExportNotGlobal(position) => *position,
            CheckFault::EvalCall(position) => *position,
            CheckFault::NotAnExpression(position) => *position,
            CheckFault::QualifiedMethod(position) => *position,
            CheckFault::NoMemory => Position::NONE,
        }
    }
}
