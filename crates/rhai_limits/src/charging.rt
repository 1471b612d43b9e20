//! What charges: no recursion and no loop outruns the limit of operations. Nothing here is run: each
//! function stands for the law that is its contract.

ghost use Rattle.rhai_machine.specs.language.Setting.{Setting, over};
ghost use Rattle.rhai_limits.specs.Charging.{EntriesCharge, TurnsCharge};

use rhai_errors::table::NativeTable;
use rhai_values::base::value::Host;
use std::marker::PhantomData;

/// Shows that each entry into a function of a script charges one operation at the call. It does so before
/// anything of the function is done: where the charge is let through the count is greater from then on, and
/// where it is refused the run only unwinds.
pub fn entries_charge<H: Host, T: NativeTable<H>>(of: PhantomData<(H, T)>)
    ensures { (setting : Setting H) → EntriesCharge (over setting T.natives) }
{}

/// Shows that each turn of a loop charges at least one operation, however it ends. From its start to the start
/// of the loop's next turn, to the value that the loop ends with, or to an error that leaves it, the count
/// grows. Of errors three are excepted: of the charge that was refused, of memory, and of a `for` that fails
/// before its body is entered.
pub fn turns_charge<H: Host, T: NativeTable<H>>(of: PhantomData<(H, T)>)
    ensures { (setting : Setting H) → TurnsCharge (over setting T.natives) }
{}
