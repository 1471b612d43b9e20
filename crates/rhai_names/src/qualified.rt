//! Values behind a path. Ports upstream's `search_namespace`.

ghost use Rattle.std.specs.Prelude.{◌≡◌, ◌++◌, ◌∷◌, [], IfOk, Ok, OnOk, false, length};
ghost use Rattle.std.specs.String.{string_bytes};
ghost use Rattle.rhai_errors.specs.Errors.{is_out_of_memory};
ghost use Rattle.rhai_errors.specs.declared.error.EvalAltResult.TheVariants as error;
ghost use Rattle.rhai_tree.specs.Lookup.{value_of};
ghost use Rattle.rhai_machine.specs.language.Names.{own_constants};
ghost use Rattle.rhai_machine.specs.language.State.{Answers};
ghost use Rattle.rhai_state.specs.Scope.{in_use, Fits};
ghost use Rattle.rhai_steps.specs.Offers.{globals_in};
ghost use Rattle.rhai_names.specs.Roots.{path_searched};
ghost use Rattle.rhai_steps.specs.States.{surroundings_of};
ghost use Rattle.rhai_machine.specs.Qualified.{found_or_missing, is_global as is_own};
ghost use Rattle.rhai_machine.specs.Qualified.{path_text, read_only, text_behind};
ghost use Rattle.std.specs.Option.{option_copied};

use crate::roots::root_of;
use rhai_errors::error::EvalAltResult;
use rhai_functions::paths::{find_constant, find_down};
use rhai_lookups::run::RunState;
use rhai_state::session::Session;
use rhai_steps::values::copy;
use rhai_tree::expr::Namespace;
use rhai_tree::position::Position;
use rhai_tree::{Shared, Text};
use rhai_values::base::value::{AccessMode, Dynamic, Host};
use std::alloc::{AllocError, Global};

/// Adds names to a text, each after `::`.
fn push_behind(text: &mut String, names: &[Shared<Text>]) -> Result<(), AllocError>
    ensures { OnOk result (string_bytes text.new ≡ string_bytes text.old ++ text_behind names.now) }
{
    'names: for name in names {
        text.push_str("::")?;
        text.push_str(name.get().as_str())?;
    }
    Ok(())
}

/// Writes a path out as it is written in a script.
fn text_of(alloc: Global, path: &[Shared<Text>]) -> Result<String, AllocError>
    ensures { IfOk result (λ text. string_bytes text ≡ path_text path.now) }
{
    let [root, rest @ ..] = path else {
        return Ok(String::new(alloc));
    };
    let mut text = String::from_str(alloc, root.get().as_str())?;
    push_behind(&mut text, rest)?;
    Ok(text)
}

/// Builds the error that there is no module of a path.
#[cold]
#[inline(never)]
pub fn no_module<H>(alloc: Global, path: &[Shared<Text>], pos: Position) -> EvalAltResult<H>
    ensures { is_out_of_memory result ≡ false → result ≡ error.ErrorModuleNotFound (path_text path.now) pos }
{
    let Ok(text) = text_of(alloc, path) else {
        return EvalAltResult::ErrorOutOfMemory(pos);
    };
    match Shared::new(alloc, Text::from_string(text)) {
        Ok(text) => EvalAltResult::ErrorModuleNotFound(text, pos),
        Err(_) => EvalAltResult::ErrorOutOfMemory(pos),
    }
}

/// Writes out a path and a name behind it, as they are written in a script.
pub fn full_text(alloc: Global, path: &[Shared<Text>], name: &str) -> Result<String, AllocError>
    ensures { IfOk result (λ text. string_bytes text ≡ path_text path.now ++ text_behind (name.now ∷ [])) }
{
    let mut text = text_of(alloc, path)?;
    text.push_str("::")?;
    text.push_str(name)?;
    Ok(text)
}

/// Builds the error that there is no variable of a name behind a path.
#[cold]
#[inline(never)]
fn no_variable<H>(
    alloc: Global,
    path: &[Shared<Text>],
    name: &str,
    pos: Position,
) -> EvalAltResult<H>
    ensures { is_out_of_memory result ≡ false →
        result ≡ error.ErrorVariableNotFound (path_text path.now ++ text_behind (name.now ∷ [])) pos }
{
    let Ok(text) = full_text(alloc, path, name) else {
        return EvalAltResult::ErrorOutOfMemory(pos);
    };
    match Shared::new(alloc, Text::from_string(text)) {
        Ok(text) => EvalAltResult::ErrorVariableNotFound(text, pos),
        Err(_) => EvalAltResult::ErrorOutOfMemory(pos),
    }
}

/// Copies a value, with no part of the copy that may be written.
fn read_only_copy<H: Host>(
    alloc: Global,
    value: &Dynamic<H>,
    pos: Position,
) -> Result<Dynamic<H>, EvalAltResult<H>>
    ensures { Answers result (Ok (read_only value.now)) }
{
    let mut value = copy(alloc, value, pos)?;
    value.set_access_mode(AccessMode::ReadOnly);
    Ok(value)
}

/// Copies what was found of a name behind a path, or tells that there is no such variable.
fn answer<H: Host>(
    alloc: Global,
    found: Option<&Dynamic<H>>,
    path: &[Shared<Text>],
    name: &str,
    pos: Position,
) -> Result<Dynamic<H>, EvalAltResult<H>>
    ensures { Answers result (found_or_missing (option_copied found.entry)
        (path_text path.now ++ text_behind (name.now ∷ [])) pos) }
{
    match found {
        Some(value) => read_only_copy(alloc, value, pos),
        None => Err(no_variable(alloc, path, name, pos)),
    }
}

/// Tells whether a path is that of the state's own constants, where no module has its name.
fn is_global(path: &[Shared<Text>]) -> bool
    ensures { result ≡ is_own path.now }
{
    let [root] = path else {
        return false;
    };
    root.get().as_str() == "global"
}

/// Finds the constant of a name in the table that is the state's own.
fn find_own_constant<'g, H>(global: &'g RunState<H>, name: &str) -> Option<&'g Dynamic<H>>
    ensures { option_copied result ≡ value_of name.now (own_constants (surroundings_of global.now)) }
{
    let at = global.constants;
    let tables = global.constant_tables.as_slice();
    if at < tables.len() {
        tables[at].get(name)
    } else {
        None
    }
}

/// Reads the value of a name behind a path, as a copy that may not be written. It is the constant of that
/// name in the module that the path leads to, from its root on, which is found as `root_of` says. Where
/// there is no root and the path is `global` alone, it is the state's own constant. Asked: the path's index
/// is at most the number of imports.
///
/// # Errors
/// Both at the path: `ErrorModuleNotFound` with the path where it has no root, and `ErrorVariableNotFound`
/// with the path and the name.
pub fn search_path<H: Host>(
    session: &Session<'_, H>,
    global: &RunState<H>,
    namespace: &Namespace,
    name: &str,
) -> Result<Dynamic<H>, EvalAltResult<H>>
    requires { Fits (in_use global.now.always_search_scope namespace.now.index) (length global.now.lists.1) }
    ensures { Answers result (path_searched (globals_in session.now.offered) (surroundings_of global.now)
        (in_use global.now.always_search_scope namespace.now.index) namespace.now.path name.now
        namespace.now.position) }
{
    let path = namespace.path.as_slice();
    let pos = namespace.position;
    let [_root, rest @ ..] = path else {
        return Err(no_module(session.alloc, path, pos));
    };
    let index = global.offset_in_use(namespace.index);
    match root_of(
        global.lists.imports(),
        session.offered.global_sub_modules,
        index,
        path,
    ) {
        Some(root) => {
            let found = match find_down(root, rest) {
                Some(within) => find_constant(within, name),
                None => None,
            };
            answer(session.alloc, found, path, name, pos)
        }
        None => {
            if is_global(path) {
                return answer(
                    session.alloc,
                    find_own_constant(global, name),
                    path,
                    name,
                    pos,
                );
            }
            Err(no_module(session.alloc, path, pos))
        }
    }
}
