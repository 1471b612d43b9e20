//! The libraries and imports of a run with what lookups found in them, as one type that cannot be wrong: its
//! contracts see the two lists alone, and whatever is kept is what a search would find. Ports upstream's
//! `eval/cache.rs` and the part of `resolve_fn` that asks it. The contracts cite specs/Lists.antt,
//! specs/Fits.antt and specs/Levels.antt.
#![tactic(auto)]

pub mod cache;
pub mod caches;
mod key;
pub mod lists;
mod places;
pub mod run;
