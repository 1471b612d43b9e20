//! Asks what may stand between the program and `malloc` to refuse requests for memory. It is spoken to by
//! requests of sizes that nothing else asks for; where nothing stands there each of those is granted, and no
//! request is refused.

use std::alloc::Global;

/// Asks for nothing to be refused any more.
const GRANT_ALL: usize = 999_999;

/// Asks whether as many blocks are in use as there were.
const COUNT_BLOCKS: usize = 999_998;

/// The greatest number of a request that can be refused.
pub const GREATEST: usize = 900_000;

/// Which requests are refused.
#[derive(Clone, Copy, Debug, PartialEq, Eq)]
pub enum Refusal {
    /// One request alone.
    Alone,
    /// One request and all after it.
    WithAllAfter,
}

impl Refusal {
    pub const BOTH: [Refusal; 2] = [Refusal::Alone, Refusal::WithAllAfter];

    /// Returns the size that asks for it, less the number of the request.
    fn base(self) -> usize {
        match self {
            Refusal::Alone => 1_000_000,
            Refusal::WithAllAfter => 2_000_000,
        }
    }
}

/// Begins to refuse the request of a number, counted from 1. Tells whether anything hears that.
pub fn begin(alloc: Global, refusal: Refusal, number: usize) -> bool {
    is_refused(alloc, refusal.base().saturating_add(number))
}

/// Ends the refusing: from here on nothing is refused. Tells whether something was.
pub fn end(alloc: Global) -> bool {
    is_refused(alloc, GRANT_ALL)
}

/// Tells whether as many blocks of memory are in use as where refusing began.
pub fn is_all_given_back(alloc: Global) -> bool {
    !is_refused(alloc, COUNT_BLOCKS)
}

fn is_refused(alloc: Global, size: usize) -> bool {
    Vec::<u8>::with_capacity(alloc, size).is_err()
}
