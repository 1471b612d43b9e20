//! The keys of maps.

ghost use Rattle.std.specs.Prelude.{◌≡◌, IfOk, map};
ghost use Rattle.rhai_tree.specs.Keys.{are_keys, key_of};

use rhai_tree::Table;
use rhai_tree::expr::MapEntry;
use rhai_tree::literal::Literal;
use std::alloc::{AllocError, Global};

/// Tells whether the keys of a map's entries are those of its template, each once.
pub(crate) fn has_keys(
    alloc: Global,
    entries: &[MapEntry],
    template: &Table<Literal>,
) -> Result<bool, AllocError>
    ensures { IfOk result (λ good. good ≡ are_keys (map key_of entries.now) template.now.0) }
{
    if entries.len() != template.len() {
        return Ok(false);
    }
    let mut keys = Table::new(alloc);
    'each: for entry in entries {
        let stands = template.find(entry.key.get().as_str()).is_ok();
        if !stands {
            return Ok(false);
        }
        keys.insert(entry.key.share()?, ())?;
    }
    Ok(keys.len() == entries.len())
}
