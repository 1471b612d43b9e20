//! What an index leads to in the focus, with the charge and the host's indexers. Ports upstream's
//! `get_indexed_mut`, where the focus is `target`. The contracts cite specs/Indexers.antt,
//! specs/Indexes.antt and specs/Lends.antt.

ghost use Rattle.std.specs.Prelude.{◌≡◌};
ghost use Rattle.std.specs.Borrow.{sem};
ghost use Rattle.rhai_values.specs.Cells.{cells_of};
ghost use Rattle.rhai_values.specs.Layers.{layer_of};
ghost use Rattle.rhai_values.specs.Cells.{IsNoHandle};
ghost use Rattle.rhai_spots.specs.Found.{found};
ghost use Rattle.rhai_index.specs.Indexers.{asks_indexer as is_asked, effect_of, is_called, read_call};
ghost use Rattle.rhai_index.specs.Indexers.{request_of};
ghost use Rattle.rhai_index.specs.Indexes.{Indexes};
ghost use Rattle.rhai_index.specs.Lends.{lends_indexed, MayEndAs};

use crate::indexers::ask_get;
use rhai_errors::error::EvalAltResult;
use rhai_errors::table::NativeTable;
use rhai_places::indexing;
use rhai_places::target::Target;
use rhai_spots::part::Part;
use rhai_spots::spot::Access;
use rhai_state::session::Session;
use rhai_state::state::GlobalRuntimeState;
use rhai_steps::charges::charge_caller;
use rhai_tree::position::Position;
use rhai_values::base::value::{Dynamic, Host, Union};

/// Tells whether the host's indexer is asked. It is where it may be, and the focus is of no kind that is
/// indexed without it.
fn asks_indexer<H: Host>(object: &Dynamic<H>, use_indexers: bool) -> bool
    ensures { result ≡ is_asked use_indexers (layer_of object.now) }
{
    match &object.value {
        Union::Int(_) | Union::Str(_) | Union::Array(_) | Union::Blob(_) | Union::Map(_) => false,
        _ => use_indexers,
    }
}

/// Finds the target that an index leads to in the focus, charged first without a position. Where the focus is
/// of a kind that is not indexed here and indexers are allowed, the host's indexer is charged at the operator
/// and called with the focus and the index, and its value is a temporary; what the target borrows then is the
/// focus as the indexer left it. Ports upstream's `get_indexed_mut`. Asked: the focus is no handle of a cell.
///
/// The focus comes first, so that a clause can tell what becomes of it: when the target's borrow ends, what
/// was written through it stands in the focus at the place where the index leads, beside a missing key that
/// was inserted. The place of a part or a temporary is the whole focus. At an error the focus stays, and
/// where an indexer was called it is as that left it, unless memory ran out; it is no handle then either, and
/// has only what that call reached.
///
/// # Errors
/// `ErrorTooManyOperations` where the count has reached the limit: without a position, and nothing is
/// changed; or at the operator, before the indexer is called. At the operator too: `ErrorIndexingType` where
/// there is no indexer, its own fault where that says no position, and `ErrorDataTooLarge` for a value of it
/// above a limit. All others are those of `rhai_places::indexing::get_indexed_mut`.
pub fn get_indexed_mut<'t, H: Host, T: NativeTable<H>>(
    target: &'t mut Dynamic<H>,
    session: &Session<'_, H>,
    global: &mut GlobalRuntimeState<H>,
    table: &mut T,
    idx: &mut Dynamic<H>,
    how: Access,
    use_indexers: bool,
) -> Result<Target<'t, H>, EvalAltResult<H>>
    requires { IsNoHandle target.old.value }
    ensures* writes_back { sem 𝓛 (lends_indexed H.row
        (is_asked use_indexers (layer_of target.entry.now))
        (is_called session.now.limits global.entry.now use_indexers (layer_of target.entry.now))
        (effect_of T.natives H.name_of (cells_of global.entry.now.cells) (T.state table.entry.now)
        (read_call idx.entry.now how.op_pos) target.entry.now).first
        (MayEndAs T.natives (T.state table.entry.now) (request_of (cells_of global.entry.now.cells)
        (read_call idx.entry.now how.op_pos) target.entry.now)) target.entry
        (found how H.name_of (cells_of global.entry.now.cells) target.entry.now idx.entry.now) result) }
    ensures indexes { Indexes session.now.limits H.name_of T.natives T.state how use_indexers
        global.old table.old target.old idx.old global.new table.new idx.new result }
{
    charge_caller(&session.limits, global, Position::NONE)?;
    if !asks_indexer(target, use_indexers) {
        return indexing::get_indexed_mut(target, session.alloc, &global.cells, idx, how);
    }
    charge_caller(&session.limits, global, how.op_pos)?;
    let value = ask_get(session, &global.cells, table, target, idx, how.op_pos)?;
    Ok(Target {
        at: target,
        part: Part::Temporary(value),
    })
}
