//! A public call that is made with one of its requests for memory refused, or with none.

use crate::levels::Levels;
use crate::refuser;
use crate::refuser::Refusal;
use rhai_eval_base::state::GlobalRuntimeState;
use rhai_tables::host::Pair;
use std::alloc::Global;

/// A call that is made, and what was seen of it.
#[derive(Clone, Copy)]
pub struct Attempt {
    /// Which of its requests for memory is refused, counted from 1, if one is.
    refused: Option<(Refusal, usize)>,
    /// What the state had when it was reached.
    before: Option<Levels>,
    pub is_reached: bool,
    pub was_refused: bool,
    /// Whether the state has again what a call takes back, and the imports.
    pub is_restored: bool,
}

impl Attempt {
    /// A call of which nothing is refused.
    pub const GRANTED: Attempt = Attempt {
        refused: None,
        before: None,
        is_reached: false,
        was_refused: false,
        is_restored: true,
    };

    /// A call whose request of a number, counted from 1, is refused.
    pub fn refusing(refusal: Refusal, number: usize) -> Attempt {
        Attempt {
            refused: Some((refusal, number)),
            ..Attempt::GRANTED
        }
    }

    /// Begins to refuse, as the call is reached.
    pub fn begin(&mut self, alloc: Global) {
        self.is_reached = true;
        if let Some((refusal, number)) = self.refused {
            refuser::begin(alloc, refusal, number);
        }
    }

    /// Ends the refusing, as the call has ended.
    pub fn end(&mut self, alloc: Global) {
        let was_refused = refuser::end(alloc);
        self.was_refused = was_refused && self.refused.is_some();
    }

    /// Begins to refuse, as a call over a state is reached.
    pub fn begin_over(&mut self, alloc: Global, global: &GlobalRuntimeState<Pair>) {
        self.before = Some(Levels::of(global));
        self.begin(alloc);
    }

    /// Ends the refusing, as a call over a state has ended.
    pub fn end_over(&mut self, alloc: Global, global: &GlobalRuntimeState<Pair>) {
        self.end(alloc);
        self.is_restored = match self.before {
            Some(before) => before.are_those_of(global),
            None => false,
        };
    }
}
