//! Names among those that are declared so far, oldest first.

ghost use Rattle.std.specs.Prelude.{◌≡◌, ◌++◌, [], IfErr, OnOk, IsTrue, List, false, if◌then◌else◌};
ghost use Rattle.rhai_check.specs.Around.{above, around};
ghost use Rattle.rhai_check.specs.Refusals.{Refuses};
ghost use Rattle.rhai_check.specs.declared.check.place.Place.{Place};
ghost use Rattle.rhai_tree.specs.Forms.{is_unqualified};
ghost use Rattle.rhai_tree.specs.Frame.{variable_resolves, shared_among};
ghost use Rattle.rhai_tree.specs.Names.{Frame, Name, offset_of, is_good, is_good_root};
ghost use Rattle.rhai_tree.specs.WellFormed.{variable_faults, shared_faults};

use crate::check::CheckFault;
use crate::check::declared::Declared;
use rhai_tree::expr::{Namespace, SharedVariable};
use rhai_tree::position::Position;
use rhai_tree::{Shared, Text};
use std::num::NonZeroUsize;

/// Finds where the newest of a name stands, counted from the end. This is zero where there is none.
fn offset_of(names: &[Shared<Text>], name: &Text) -> usize
    ensures { result ≡ offset_of name.now names.now }
{
    let mut offset = 0;
    'each: for other in names {
        if other.get().as_str() == name.as_str() {
            offset = 1;
        } else if offset > 0 {
            offset += 1;
        }
    }
    offset
}

/// Tells whether an offset is not given, or is that of the newest of a name.
pub(crate) fn is_good(names: &[Shared<Text>], offset: Option<NonZeroUsize>, name: &Text) -> bool
    ensures { result ≡ is_good offset name.now names.now }
{
    match offset {
        None => true,
        Some(offset) => offset_of(names, name) == offset.get(),
    }
}

/// Tells whether a namespace has no index, or that of the newest import that has the name of its
/// root.
pub(crate) fn has_good_index(imports: &[Shared<Text>], namespace: &Namespace) -> bool
    ensures { result ≡ is_good_root namespace.now.index namespace.now.path imports.now }
{
    match namespace.path.as_slice() {
        [] => true,
        [root, ..] => is_good(imports, namespace.index, root.get()),
    }
}

/// Tells whether a variable has no offset, or that of the newest of its name. Behind a path it has
/// none.
fn has_good_offset(
    names: &[Shared<Text>],
    offset: Option<NonZeroUsize>,
    name: &Text,
    namespace: &Namespace,
) -> bool
    ensures { result ≡ is_good offset name.now
        (if is_unqualified namespace.now.path then names.now else []) }
{
    if namespace.path.is_empty() {
        is_good(names, offset, name)
    } else {
        offset.is_none()
    }
}

/// Passes a variable whose name stands at a position, or answers its fault.
pub(crate) fn check_variable(
    declared: &Declared,
    offset: Option<NonZeroUsize>,
    name: &Text,
    namespace: &Namespace,
    pos: Position,
) -> Result<(), CheckFault>
    ensures exact { OnOk result ((place : Place) →
        variable_faults offset name.now namespace.now pos (around declared.now place) ≡ []) }
    ensures resolved { OnOk result ((base : Frame) → IsTrue
        (variable_resolves offset name.now namespace.now pos (above base declared.now))) }
    ensures refused { IfErr result (λ fault. (place : Place) → Refuses
        (variable_faults offset name.now namespace.now pos (around declared.now place)) false fault) }
{
    if !has_good_index(declared.imports.as_slice(), namespace) {
        Err(CheckFault::BadImportOffset(namespace.position))
    } else if has_good_offset(declared.names.as_slice(), offset, name, namespace) {
        Ok(())
    } else {
        Err(CheckFault::BadOffset(pos))
    }
}

/// Passes variables that closures share, where each offset is good, or answers one of their faults.
pub(crate) fn check_shared(
    names: &[Shared<Text>],
    variables: &[SharedVariable],
) -> Result<(), CheckFault>
    ensures exact { OnOk result (shared_faults variables.now names.now ≡ []) }
    ensures resolved { OnOk result ((base : List Name) → IsTrue
        (shared_among variables.now (base ++ names.now))) }
    ensures refused { IfErr result (λ fault. Refuses (shared_faults variables.now names.now) false fault) }
{
    'each: for variable in variables {
        if !is_good(names, variable.offset, variable.ident.name.get()) {
            return Err(CheckFault::BadOffset(variable.ident.pos));
        }
    }
    Ok(())
}
