//! The faults of the checker, operators as they are written, and trees that are refused.

use crate::operators::operator;
use crate::reader::Reader;
use crate::sheet::Sheet;
use crate::trees;
use rhai_check::check::CheckFault;
use rhai_tree::position::Position;

/// Writes a fault of the checker, an operator, or what a tree or a function is refused for. The call is `fault
/// NAME POSITION`, `operator OP`, `check TREE`, or `function TREE` for one that has the tree for its body.
pub fn answer(line: &mut Reader<'_>, out: &mut Sheet) {
    match line.word() {
        "fault" => out.fault(fault(line)),
        "operator" => out.write(operator(line).as_str()),
        "check" => trees::answer(line, out),
        "function" => trees::answer_of_function(line, out),
        _ => line.want("fault, operator, check or function"),
    }
}

/// Reads the next fault, and where it stands.
fn fault(line: &mut Reader<'_>) -> CheckFault {
    let name = line.word();
    let place = line.next_position();
    fault_at(line, name, place)
}

/// Makes the fault of a name at a position.
fn fault_at(line: &mut Reader<'_>, name: &str, place: Position) -> CheckFault {
    match name {
        "BadOffset" => CheckFault::BadOffset(place),
        "BadImportOffset" => CheckFault::BadImportOffset(place),
        "BadChain" => CheckFault::BadChain(place),
        "BadAssignment" => CheckFault::BadAssignment(place),
        "BadSwitch" => CheckFault::BadSwitch(place),
        "BadMapKey" => CheckFault::BadMapKey(place),
        "BadCatch" => CheckFault::BadCatch(place),
        "LoopControlOutside" => CheckFault::LoopControlOutside(place),
        "ExportNotGlobal" => CheckFault::ExportNotGlobal(place),
        "EvalCall" => CheckFault::EvalCall(place),
        "NotAnExpression" => CheckFault::NotAnExpression(place),
        "QualifiedMethod" => CheckFault::QualifiedMethod(place),
        "NoMemory" => CheckFault::NoMemory,
        _ => {
            line.want("a fault of the checker");
            CheckFault::NoMemory
        }
    }
}
