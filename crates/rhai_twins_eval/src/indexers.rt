//! The call of a host's indexer, as the contract of `rhai_index` tells it, beside the machine's own. Nothing here
//! is run: the function stands for the law that is its contract.

ghost use Rattle.rhai_machine.specs.language.Setting.{Offer, rules_of};
ghost use Rattle.rhai_twins_eval.specs.AskedIndexer.{IndexerIsAsked};

use rhai_errors::table::NativeTable;
use rhai_state::limits::Limits;
use rhai_values::base::value::Host;
use std::marker::PhantomData;

/// Shows that the indexer that following an index calls is the machine's `Ask` of it. The call that the contract
/// of `rhai_index::indexing::get_indexed_mut` tells and the machine's own leave one outcome, one focus and one
/// state of the table, and count one operation, or are refused it at one place.
pub fn indexer_is_asked<H: Host, T: NativeTable<H>>(of: PhantomData<(H, T)>)
    ensures { (limits : Limits) (offer : Offer H) →
        IndexerIsAsked (rules_of limits H.name_of offer T.natives) }
{}
