//! The errors of what is refused. Where there is no memory for one the answer is that memory ran out.

ghost use Rattle.std.specs.Prelude.{◌≡◌, IfOk};
ghost use Rattle.rhai_values.specs.Cells.{cells_of};
ghost use Rattle.rhai_spots.specs.Refusals.{IsTold, refused};

use rhai_errors::error::EvalAltResult;
use rhai_errors::errors::{indexing_text, type_mismatch};
use rhai_spots::spot::{Access, Refusal};
use rhai_tree::{Boxed, Shared};
use rhai_values::base::value::{Dynamic, Host};
use rhai_values::cells::CellStore;
use std::alloc::{AllocError, Global};

/// Builds the error of an index that is refused.
pub fn indexing_error<H: Host>(
    alloc: Global,
    cells: &CellStore<H>,
    source: &Dynamic<H>,
    index: &Dynamic<H>,
    how: Access,
    refusal: Refusal,
) -> EvalAltResult<H>
    ensures { IsTold (refused H.name_of (cells_of cells.now) how source.now index.now refusal) result }
{
    match refusal_error(alloc, cells, source, index, how, refusal) {
        Ok(error) => error,
        Err(_) => EvalAltResult::ErrorOutOfMemory(how.idx_pos),
    }
}

fn refusal_error<H: Host>(
    alloc: Global,
    cells: &CellStore<H>,
    source: &Dynamic<H>,
    index: &Dynamic<H>,
    how: Access,
    refusal: Refusal,
) -> Result<EvalAltResult<H>, AllocError>
    ensures { IfOk result (λ e. e ≡ refused H.name_of (cells_of cells.now) how source.now index.now refusal) }
{
    let Access {
        idx_pos,
        op_pos,
        ..
    } = how;
    match refusal {
        Refusal::ArrayBounds(bounds) => {
            Ok(EvalAltResult::ErrorArrayBounds(Boxed::new(alloc, bounds)?, idx_pos))
        }
        Refusal::BitFieldBounds(bounds) => {
            Ok(EvalAltResult::ErrorBitFieldBounds(Boxed::new(alloc, bounds)?, idx_pos))
        }
        Refusal::StringBounds(bounds) => {
            Ok(EvalAltResult::ErrorStringBounds(Boxed::new(alloc, bounds)?, idx_pos))
        }
        Refusal::WantsInteger => {
            let types = type_mismatch(alloc, "i64", index.type_name(cells))?;
            Ok(EvalAltResult::ErrorMismatchDataType(types, idx_pos))
        }
        Refusal::WantsText => {
            let types = type_mismatch(alloc, "string", index.type_name(cells))?;
            Ok(EvalAltResult::ErrorMismatchDataType(types, idx_pos))
        }
        Refusal::NotIndexed => {
            let text = indexing_text(alloc, source.type_name(cells), index.type_name(cells))?;
            Ok(EvalAltResult::ErrorIndexingType(Shared::new(alloc, text)?, op_pos))
        }
    }
}
