//! The bench's tables of natives.

ghost use Rattle.std.specs.Prelude.{◌≡◌, Some};
ghost use Rattle.rhai_errors.specs.Native.{Missing, reply_of};

pub mod bench;
pub mod counting;
pub mod odd;

use crate::host::Pair;
use rhai_errors::table::{Answer, NativeTable};
use rhai_tree::literal::NativeId;
use rhai_tree::position::Position;
use rhai_values::base::value::Dynamic;
use rhai_values::cells::CellStore;

/// A table without natives.
#[derive(Clone, Copy, Debug, PartialEq, Eq)]
pub struct NoNatives;

pub(crate) fn answer_no_native(_first: &mut Dynamic<Pair>) -> Answer<Pair>
    ensures reply { reply_of result ≡ Some Missing }
    ensures first { _first.new ≡ _first.old }
{
    Answer::Missing
}

impl NativeTable<Pair> for NoNatives {
    ghost use Rattle.rhai_tables.specs.Tables.{Stateless, stateless, none, none_lawful};

    ghost State = { Stateless };

    ghost state = { λ t. stateless };

    ghost natives = { none };

    fn call(
        &mut self,
        _cells: &CellStore<Pair>,
        _name: &str,
        first: Option<&mut Dynamic<Pair>>,
        _rest: &[Dynamic<Pair>],
        _position: Position,
    ) -> Answer<Pair> {
        match first {
            Some(first) => answer_no_native(first),
            None => Answer::Missing,
        }
    }

    fn call_numbered(
        &mut self,
        _cells: &CellStore<Pair>,
        _id: NativeId,
        first: Option<&mut Dynamic<Pair>>,
        _rest: &[Dynamic<Pair>],
        _position: Position,
    ) -> Answer<Pair> {
        match first {
            Some(first) => answer_no_native(first),
            None => Answer::Missing,
        }
    }

    fn is_pure(&self, _name: &str, _first_type: &str, _count: usize) -> bool {
        true
    }

    fn is_pure_numbered(&self, _id: NativeId) -> bool {
        true
    }

    ghost lawful = { none_lawful _ };
}
