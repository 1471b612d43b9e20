//! A list without natives.

use rhai_eval::base::Host;
use rhai_natives::{Arguments, Listed, ListedNatives, Response};
use std::alloc::Global;

/// What stands for a native of the empty list, which has none.
#[derive(Clone, Copy, Debug, PartialEq, Eq)]
pub struct NoNative;

/// The list without natives, for any host: `Natives::new(alloc, NoNatives)` is a table of it.
#[derive(Clone, Copy, Debug, PartialEq, Eq)]
pub struct NoNatives;

impl<H: Host> ListedNatives<H> for NoNatives {
    ghost use Rattle.std.specs.Prelude.{[], None};

    type Native = NoNative;

    ghost State = { Unit {0} };

    ghost state = { λ natives. tt };

    ghost list = { [] };

    ghost does = { λ state native given. None };

    fn listed(&self) -> &[Listed<NoNative>] {
        &[]
    }

    fn call(
        &mut self,
        _alloc: Global,
        _native: NoNative,
        _arguments: &Arguments<'_, H>,
    ) -> Option<Response<H>> {
        None
    }
}
