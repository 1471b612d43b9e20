//! Variables, and what a restoring list takes back.

ghost use Rattle.std.specs.Prelude.{◌≡◌, ℕ, List, Ok, Err, Some, None, false, IsTrue, ◌++◌, ◌∷◌, [], true};
ghost use Rattle.std.specs.Prelude.{not, ◌&&◌, ◌<◌, ◌-◌, is_none, is_some, length, take, IfSome, IfOk, IfErr, OnOk, OnErr};
ghost use Rattle.std.specs.Int.NonZero.{non_zero_usize_get};
ghost use Rattle.std.specs.Borrow.{sem};
ghost use Rattle.rhai_values.specs.Cells.{cells_of};
ghost use Rattle.rhai_errors.specs.Errors.{is_out_of_memory};
ghost use Rattle.rhai_errors.specs.declared.error.EvalAltResult.TheVariants as error;
ghost use Rattle.rhai_tree.specs.Forms.{is_exported as exported, is_unqualified};
ghost use Rattle.rhai_tree.specs.declared.expr.Expr.{out-Expr};
ghost use Rattle.rhai_state.specs.Scope.{entries_of, variable_value, index_of, new_entry, in_use, place_of, Fits};
ghost use Rattle.rhai_machine.specs.language.State.{Answers};
ghost use Rattle.rhai_machine.specs.language.Values.{copied, unit_value as unit};
ghost use Rattle.rhai_machine.specs.language.Functions.{pointer_to};
ghost use Rattle.rhai_machine.specs.language.Names.{bound_this, entry_named, looked_up, read, there_or_unknown};
ghost use Rattle.rhai_machine.specs.language.Names.{value_beside, variable_of, without_entry};
ghost use Rattle.rhai_machine.specs.language.Variables.{variable_named};
ghost use Rattle.rhai_machine.specs.language.Statements.{deeper, mode_of as mode_asked};
ghost use Rattle.rhai_steps.specs.Agreement.{AgreesAt, RootStands, variable_is_good};
ghost use Rattle.rhai_names.specs.Declaring.{declarable, is_full, is_taken};
ghost use Rattle.rhai_names.specs.Lends.{lends_variable, with_value};
ghost use Rattle.rhai_steps.specs.Offers.{globals_in};
ghost use Rattle.rhai_steps.specs.Offsets.{offset_in, index_at_offset};
ghost use Rattle.rhai_steps.specs.States.{surroundings_of};
ghost use Rattle.rhai_names.specs.Passed.{is_lendable as lendable};
ghost use Rattle.rhai_names.specs.Saves.{saved_in, saved_now, left_global};
ghost use Rattle.rhai_names.specs.Variables.{offset_is_good, variable_told};

use crate::qualified::search_path;
use bitflags::Flags;
use rhai_errors::error::EvalAltResult;
use rhai_errors::errors::{data_race_of, variable_exists, variable_not_found};
use rhai_functions::named::arity_named;
use rhai_functions::paths::find_global_constant;
use rhai_lookups::lists::Mark;
use rhai_lookups::run::RunState;
use rhai_state::limits::Limits;
use rhai_state::scope::Scope;
use rhai_state::session::Session;
use rhai_state::state::GlobalRuntimeState;
use rhai_steps::values::{copy, is_bare_handle, unit_value};
use rhai_tree::expr::{Expr, Ident, Namespace};
use rhai_tree::flags::ASTFlags;
use rhai_tree::position::Position;
use rhai_tree::{Boxed, Items, Shared, Text};
use rhai_values::base::value::{AccessMode, Dynamic, FnPtr, FnPtrKind, Host, Module, Union};
use rhai_values::cells::CellStore;
use std::alloc::Global;
use std::num::NonZeroUsize;

/// A variable as an expression tells of it: its name behind a path, where it stands, and how far back its entry is, where
/// that is known. Stands for the machine's record of that name.
#[derive(Clone, Copy)]
pub struct Variable<'a> {
    pub offset: Option<NonZeroUsize>,
    pub name: &'a Shared<Text>,
    pub namespace: &'a Namespace,
    pub at: Position,
}

/// Finds the index of a variable. By an offset it is the one there, counted from the newest, whatever its
/// name; where none is given or variables are searched for, the newest of the name. Asked: the offset is at
/// most the number of variables.
pub fn index_of_variable<H: Host>(
    global: &RunState<H>,
    scope: &Scope<H>,
    offset: Option<NonZeroUsize>,
    name: &Shared<Text>,
) -> Option<usize>
    requires { Fits (in_use global.now.always_search_scope offset) (length (entries_of scope.now)) }
    ensures exact { result ≡ place_of (in_use global.now.always_search_scope offset) name.now
        (entries_of scope.now) }
    ensures within { IfSome result (λ at. at < length (entries_of scope.now)) }
{
    let offset = global.offset_in_use(offset);
    scope.place_of(offset, name.get().as_str())
}

/// Tells whether nothing stands in front of a name.
#[inline(always)]
pub fn is_plain(namespace: &Namespace) -> bool
    ensures { result ≡ is_unqualified namespace.now.path }
{
    namespace.path.is_empty()
}

/// Finds the entry that a variable means, as `index_of_variable` finds it. None for a name behind a path, and
/// for one that no entry has. Asked: the offset leads to the newest variable of the name.
#[inline(always)]
pub fn entry_of_variable<H: Host>(
    global: &RunState<H>,
    scope: &Scope<H>,
    offset: Option<NonZeroUsize>,
    name: &Shared<Text>,
    namespace: &Namespace,
) -> Option<usize>
    requires { AgreesAt global.now scope.now (variable_is_good offset name.now namespace.now.path) }
    ensures exact { result ≡ entry_named namespace.now.path name.now (entries_of scope.now) }
    ensures by_offset { IfSome (in_use global.now.always_search_scope offset) (λ k.
        result ≡ Some (length (entries_of scope.now) - non_zero_usize_get k)) }
    ensures within { IfSome result (λ at. at < length (entries_of scope.now)) }
{
    match index_by_offset(global, scope, offset, name, namespace) {
        Some(index) => Some(index),
        None => {
            if is_plain(namespace) {
                index_of_variable(global, scope, offset, name)
            } else {
                None
            }
        }
    }
}

/// Finds the index of the newest variable of a name by its offset, which stands behind no path. None where no
/// offset is given, or variables are searched for. Asked: the offset leads to the newest variable of the
/// name.
#[inline(always)]
pub fn index_by_offset<H: Host>(
    global: &RunState<H>,
    scope: &Scope<H>,
    offset: Option<NonZeroUsize>,
    name: &Shared<Text>,
    _namespace: &Namespace,
) -> Option<usize>
    requires { AgreesAt global.now scope.now (variable_is_good offset name.now _namespace.now.path) }
    ensures exact { IfSome result (λ at. entry_named _namespace.now.path name.now (entries_of scope.now) ≡ Some at) }
    ensures by_offset { IfSome (in_use global.now.always_search_scope offset) (λ k.
        result ≡ Some (length (entries_of scope.now) - non_zero_usize_get k)) }
    ensures within { IfSome result (λ at. at < length (entries_of scope.now)) }
{
    let offset = global.offset_in_use(offset)?;
    scope.place_of(Some(offset), name.get().as_str())
}

/// Finds the index that an expression's offset leads to in a scope of so many variables. None where it is no
/// variable, or has no offset, or variables are searched for. Asked: the offset is at most the count.
pub fn scope_index<H: Host>(
    global: &GlobalRuntimeState<H>,
    expr: &Expr,
    scope_len: usize,
) -> Option<usize>
    requires { Fits (offset_in global.now.always_search_scope (out-Expr expr.now)) scope_len }
    ensures { result ≡ index_at_offset (offset_in global.now.always_search_scope (out-Expr expr.now)) scope_len }
{
    let Expr::Variable { offset, .. } = expr else {
        return None;
    };
    let offset = global.offset_in_use(*offset)?;
    Some(scope_len - offset.get())
}

/// Makes a pointer to the library function of a name with so many parameters.
fn function_pointer<H: Host>(
    alloc: Global,
    name: &Shared<Text>,
    arity: usize,
    pos: Position,
) -> Result<Dynamic<H>, EvalAltResult<H>>
    ensures { Answers result (Ok (pointer_to name.now arity)) }
{
    let Ok(shared) = name.share() else {
        return Err(EvalAltResult::ErrorOutOfMemory(pos));
    };
    let pointer = FnPtr {
        name: shared,
        curry: Items::new(alloc),
        kind: FnPtrKind::Arity(arity),
    };
    match Boxed::new(alloc, pointer) {
        Ok(pointer) => Ok(Dynamic::new(Union::FnPtr(pointer))),
        Err(_) => Err(EvalAltResult::ErrorOutOfMemory(pos)),
    }
}

/// Reads what a name means by itself that no variable has. It is a constant of the engine's modules, as a
/// copy, or else a pointer to the first library function of the name.
///
/// # Errors
/// `ErrorVariableNotFound` at the position, where there is neither.
pub fn read_global<H: Host>(
    session: &Session<'_, H>,
    lib: &[Shared<Module<H>>],
    name: &Shared<Text>,
    pos: Position,
) -> Result<Dynamic<H>, EvalAltResult<H>>
    ensures { Answers result (there_or_unknown (without_entry (globals_in session.now.offered) lib.now name.now)
        name.now pos) }
{
    if let Some(constant) = find_global_constant(
        session.offered.global_modules,
        name.get().as_str(),
    ) {
        return copy(session.alloc, constant, pos);
    }
    match arity_named(lib, name.get().as_str()) {
        Some(arity) => function_pointer(session.alloc, name, arity, pos),
        None => Err(variable_not_found(name, pos)),
    }
}

/// Reads what a variable means that is no entry of the scope, as it is. By itself it is a constant of the
/// engine's modules or a function of the libraries, and behind a path a constant of the module that the path
/// leads to. Asked: the index of the path leads to the newest import of its first name, or is not in use.
///
/// # Errors
/// `ErrorVariableNotFound` at the name where it stands by itself, and those of `search_path` at the path.
pub fn read_beside<H: Host>(
    session: &Session<'_, H>,
    global: &RunState<H>,
    name: &Shared<Text>,
    namespace: &Namespace,
    pos: Position,
) -> Result<Dynamic<H>, EvalAltResult<H>>
    requires { RootStands global.now namespace.now }
    ensures { Answers result (value_beside (globals_in session.now.offered) (surroundings_of global.now)
        (variable_named name.now namespace.now pos)) }
{
    if is_plain(namespace) {
        return read_global(session, global.lists.lib(), name, pos);
    }
    search_path(session, global, namespace, name.get().as_str())
}

/// Reads a variable: a copy, unless there is none or its cell is held. It is found as `entry_of_variable`
/// says, which asks the same of its offset. What is no entry of the scope is read by `read_beside`, which
/// asks the same of the index of its path.
pub fn read_variable<H: Host>(
    session: &Session<'_, H>,
    global: &RunState<H>,
    scope: &Scope<H>,
    variable: &Variable<'_>,
) -> Result<Dynamic<H>, EvalAltResult<H>>
    requires { AgreesAt global.now scope.now (offset_is_good variable.now) }
    ensures { Answers result (read (globals_in session.now.offered) (surroundings_of global.now)
        (entries_of scope.now) (variable_told variable.now)) }
{
    match entry_of_variable(
        global,
        scope,
        variable.offset,
        variable.name,
        variable.namespace,
    ) {
        Some(index) => copy_variable(
            session.alloc,
            &global.cells,
            scope.value_at(index),
            variable.name,
            variable.at,
        ),
        None => read_beside(
            session,
            global,
            variable.name,
            variable.namespace,
            variable.at,
        ),
    }
}

/// Reads `this`: a copy, where it is bound.
///
/// # Errors
/// `ErrorUnboundThis` at the position.
pub fn read_this<H: Host>(
    alloc: Global,
    this: &Option<Dynamic<H>>,
    pos: Position,
) -> Result<Dynamic<H>, EvalAltResult<H>>
    ensures { Answers result (copied (bound_this pos this.now)) }
{
    match this {
        Some(value) => copy(alloc, value, pos),
        None => Err(EvalAltResult::ErrorUnboundThis(pos)),
    }
}

fn copy_variable<H: Host>(
    alloc: Global,
    cells: &CellStore<H>,
    value: &Dynamic<H>,
    name: &Shared<Text>,
    pos: Position,
) -> Result<Dynamic<H>, EvalAltResult<H>>
    ensures { Answers result (copied (looked_up (cells_of cells.now) name.now pos value.now.value
        value.now)) }
{
    match &value.value {
        Union::Cell(id) => match cells.get(*id) {
            Some(_) => copy(alloc, value, pos),
            None => Err(data_race_of(name, pos)),
        },
        _ => copy(alloc, value, pos),
    }
}

/// Tells whether a value is the handle of a cell that is held.
fn is_held<H: Host>(cells: &CellStore<H>, value: &Dynamic<H>) -> bool
    ensures held { IsTrue result → (name : List ℕ) → (pos : _) →
        looked_up (cells_of cells.now) name pos value.now.value value.now
        ≡ Err (error.ErrorDataRace name pos) }
    ensures free { result ≡ false → (name : List ℕ) → (pos : _) →
        looked_up (cells_of cells.now) name pos value.now.value value.now ≡ Ok value.now }
{
    match &value.value {
        Union::Cell(id) => cells.get(*id).is_none(),
        _ => false,
    }
}

/// Tells whether a new variable of this name is refused: shadowing is off, and the scope has the name.
fn refuses_name<H: Host>(allow_shadowing: bool, scope: &Scope<H>, name: &Shared<Text>) -> bool
    ensures { result ≡ (not allow_shadowing && is_some (index_of name.now (entries_of scope.now))) }
{
    !allow_shadowing && scope.contains(name.get().as_str())
}

/// Checks that a variable may be declared. Its name is free where shadowing is off, and the scope has room
/// for it, which one that overwrites another does not need.
///
/// # Errors
/// `ErrorVariableExists` first, then `ErrorTooManyVariables`, both at the statement.
pub fn may_declare<H: Host>(
    limits: &Limits,
    allow_shadowing: bool,
    scope: &Scope<H>,
    name: &Shared<Text>,
    index: Option<NonZeroUsize>,
    pos: Position,
) -> Result<(), EvalAltResult<H>>
    ensures { Answers result (declarable name.now pos (is_taken allow_shadowing name.now
        (entries_of scope.now)) (is_none index && is_full limits.now (entries_of scope.now))) }
{
    if refuses_name(allow_shadowing, scope, name) {
        return Err(variable_exists(name, pos));
    }
    if index.is_none() && scope.len() >= limits.max_variables {
        return Err(EvalAltResult::ErrorTooManyVariables(pos));
    }
    Ok(())
}

/// Lends the value of a variable, to be changed in place. It is the one at an offset from the end where that
/// is given, whatever its name, and else the newest of the name. The scope comes first, so that a clause can
/// tell what becomes of it: what is written stands at the entry that was found, and every other entry is as
/// it was. Of a variable that is the handle of a cell the handle is lent. At an error the scope is as it was.
///
/// # Errors
/// `ErrorVariableNotFound` where there is none, and `ErrorDataRace` where it is the handle of a cell
/// that is held, both at the variable.
pub fn find_variable<'s, H: Host>(
    scope: &'s mut Scope<H>,
    cells: &CellStore<H>,
    offset: Option<NonZeroUsize>,
    name: &Shared<Text>,
    pos: Position,
) -> Result<&'s mut Dynamic<H>, EvalAltResult<H>>
    requires { Fits offset (length (entries_of scope.old)) }
    ensures* writes_back { sem 𝓛 (lends_variable H.row scope.entry
        (with_value scope.entry.now offset name.now) result) }
    ensures found { IfOk result (λ value. variable_of (cells_of cells.now) name.now pos
        (variable_value offset name.now (entries_of scope.old)) ≡ Ok value.now) }
    ensures missed { IfErr result (λ e. is_out_of_memory e ≡ false →
        variable_of (cells_of cells.now) name.now pos (variable_value offset name.now (entries_of scope.old))
        ≡ Err e) }
{
    let Some(index) = scope.place_of(offset, name.get().as_str()) else {
        return Err(variable_not_found(name, pos));
    };
    if is_held(cells, scope.value_at(index)) {
        return Err(data_race_of(name, pos));
    }
    Ok(scope.value_at_mut(index))
}

/// Returns the mode that a `let` or a `const` asks for.
pub fn mode_of(options: ASTFlags) -> AccessMode
    ensures { result ≡ mode_asked options }
{
    let is_constant = options.contains(ASTFlags::CONSTANT);
    if is_constant {
        AccessMode::ReadOnly
    } else {
        AccessMode::ReadWrite
    }
}

/// Tells whether a `let` or a `const` exports its variable.
pub fn is_exported(options: ASTFlags) -> bool
    ensures { result ≡ exported options }
{
    options.contains(ASTFlags::EXPORTED)
}

/// Adds a variable. Where there is no memory the scope stays.
pub fn define_variable<H: Host>(
    scope: &mut Scope<H>,
    ident: &Ident,
    mode: AccessMode,
    value: Dynamic<H>,
    pos: Position,
) -> Result<Dynamic<H>, EvalAltResult<H>>
    ensures defined { IfOk result (λ v. v ≡ unit) }
    ensures pushed { OnOk result (entries_of scope.new ≡ entries_of scope.old
        ++ new_entry ident.now.name mode value ∷ []) }
    ensures refused { IfErr result (λ e. is_out_of_memory e ≡ true) }
    ensures same { OnErr result (entries_of scope.new ≡ entries_of scope.old) }
{
    let Ok(name) = ident.name.share() else {
        return Err(EvalAltResult::ErrorOutOfMemory(pos));
    };
    match scope.push_shared(name, mode, value) {
        Ok(()) => Ok(unit_value()),
        Err(_) => Err(EvalAltResult::ErrorOutOfMemory(pos)),
    }
}

/// What a restoring list takes back as it ends.
#[derive(Clone, Copy)]
pub struct Saved {
    mark: Mark,
    scope_length: usize,
    imports_length: usize,
    scope_level: usize,
    always_search_scope: bool,
}

/// Enters a restoring list, one level deeper.
pub fn enter_list<H: Host>(global: &mut RunState<H>, scope: &Scope<H>) -> Saved
    ensures saved { saved_in result ≡ saved_now global.old scope.now }
    ensures search { result.always_search_scope ≡ global.old.always_search_scope }
    ensures deeper { global.new ≡ record global.old { scope_level = deeper global.old.scope_level } }
{
    let saved = Saved {
        mark: global.lists.begin_list(true),
        scope_length: scope.len(),
        imports_length: global.lists.imports().len(),
        scope_level: global.scope_level,
        always_search_scope: global.always_search_scope,
    };
    global.scope_level = global.scope_level.saturating_add(1);
    saved
}

/// Leaves a restoring list, on every way out.
pub fn leave_list<H: Host>(global: &mut RunState<H>, scope: &mut Scope<H>, saved: Saved)
    ensures scope { entries_of scope.new ≡ take saved.scope_length (entries_of scope.old) }
    ensures global { global.new ≡ left_global saved global.old }
{
    scope.rewind(saved.scope_length);
    global.lists.end(saved.mark);
    global.lists.truncate_imports(saved.imports_length);
    global.scope_level = saved.scope_level;
    global.always_search_scope = saved.always_search_scope;
}

/// Begins a list that restores nothing.
pub fn enter_plain_list<H: Host>(global: &mut RunState<H>) -> Mark
    ensures { global.new ≡ global.old }
{
    global.lists.begin_list(false)
}

/// Ends a list that restores nothing, on every way out.
pub fn leave_plain_list<H: Host>(global: &mut RunState<H>, mark: Mark)
    ensures { global.new ≡ global.old }
{
    global.lists.end(mark);
}

/// Tells whether a variable's value may be lent: it is no handle and no constant.
#[inline(always)]
pub fn is_lendable<H: Host>(value: &Dynamic<H>) -> bool
    ensures { result ≡ lendable value.now }
{
    match value.access_mode() {
        AccessMode::ReadWrite => !is_bare_handle(value),
        AccessMode::ReadOnly => false,
    }
}
