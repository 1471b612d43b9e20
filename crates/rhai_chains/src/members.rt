//! Members of a value that natives get and set: a property by its getter and its setter, and by the
//! indexer where it has none; an item by the indexer. Ports upstream's `call_indexer_get` and
//! `call_indexer_set` with what its chains do about them.

ghost use Rattle.std.specs.Prelude.{◌≡◌, ◌<◌, ◌≤◌, ◌++◌, ◌∷◌, [], length, slice_get, Some, Err, IfOk, false};
ghost use Rattle.rhai_machine.specs.language.Arguments.{operation_named};
ghost use Rattle.rhai_machine.specs.language.Frames.{Ask, IndexerTried, Item, Property, core, ended_or_changed};
ghost use Rattle.rhai_machine.specs.language.Members.{after_setter, focus_of, lent_call, named};
ghost use Rattle.rhai_machine.specs.language.Members.{get_core, got_by, set_by, set_core};
ghost use Rattle.rhai_machine.specs.language.Members.{get_item as item_got, set_item as item_set};
ghost use Rattle.rhai_machine.specs.language.Members.{set_property as property_set};
ghost use Rattle.rhai_machine.specs.language.Members.{lacks_indexer as lacks_indexer_in};
ghost use Rattle.rhai_machine.specs.language.Members.{lacks_property as lacks_property_in};
ghost use Rattle.rhai_machine.specs.language.Runs.{Goes, Steps};
ghost use Rattle.rhai_steps.specs.Agreement.{KeepsSight};
ghost use Rattle.rhai_steps.specs.Sessions.{under};
ghost use Rattle.rhai_steps.specs.States.{state_of};
ghost use Rattle.rhai_steps.specs.OnFocus.{lending};
ghost use Rattle.rhai_chains.specs.Members.{tried};
ghost use Rattle.rhai_links.specs.Access.{access_of};

use rhai_calls::native::{Passing, pass_native, tell_changed};
use rhai_errors::error::EvalAltResult;
use rhai_errors::table::NativeTable;
use rhai_few::Few;
use rhai_links::access::{Member, MemberAccess};
use rhai_lookups::run::RunState;
use rhai_state::session::Session;
use rhai_steps::operation::Operation;
use rhai_steps::values::{let_go, list_of, text_value, unit_value};
use rhai_tree::position::Position;
use rhai_tree::{Items, Shared, Text};
use rhai_values::base::value::{Dynamic, Host};
use std::alloc::{AllocError, Global};
use std::mem::replace;

/// A property that natives get and set: its name, and where that and its operator stand.
#[derive(Clone, Copy)]
struct NamedProperty<'a> {
    name: &'a Shared<Text>,
    name_at: Position,
    at: Position,
    /// A constant is kept from a native that is not pure.
    guarded: bool,
}

/// Tells whether an error says that there is no such property.
fn lacks_property<H: Host>(error: &EvalAltResult<H>) -> bool
    ensures { result ≡ lacks_property_in error.now }
{
    matches!(error, EvalAltResult::ErrorDotExpr(_, _))
}

/// Tells whether an error says that there is no indexer for two types.
pub fn lacks_indexer<H: Host>(error: &EvalAltResult<H>) -> bool
    ensures { result ≡ lacks_indexer_in error.now }
{
    matches!(error, EvalAltResult::ErrorIndexingType(_, _))
}

/// Builds the name of a getter or a setter: that of the property behind what such names begin with.
fn name_behind(alloc: Global, prefix: &str, name: &Shared<Text>) -> Result<Text, AllocError>
    ensures { IfOk result (λ text. text ≡ prefix.now ++ name.now) }
{
    let mut text = String::from_str(alloc, prefix)?;
    text.push_str(name.get().as_str())?;
    Ok(Text::from_string(text))
}

/// Puts two values into a list of their own, if there is memory for it.
fn list_of_both<H: Host>(
    alloc: Global,
    first: Dynamic<H>,
    second: Dynamic<H>,
) -> Result<Few<Dynamic<H>>, AllocError>
    ensures { IfOk result (λ items. items ≡ first ∷ second ∷ []) }
{
    let mut items = Few::new(alloc);
    items.push(first)?;
    items.push(second)?;
    Ok(items)
}

/// Takes the first value out of a list.
fn first_of<H: Host>(items: &mut Few<Dynamic<H>>) -> Dynamic<H>
    requires { 0 < length items.old }
    ensures { slice_get items.old 0 ≡ Some result }
{
    items.remove(0)
}

/// Asks the getter or the setter of a property, which the focus is lent to.
fn ask_property<H: Host, T: NativeTable<H>>(
    session: &Session<'_, H>,
    global: &mut RunState<H>,
    table: &mut T,
    focus: &mut Dynamic<H>,
    prefix: &str,
    name: &Shared<Text>,
    rest: &[Dynamic<H>],
    passing: Passing,
    pos: Position,
) -> Result<(Dynamic<H>, bool), EvalAltResult<H>>
    ensures counts { global.old.num_operations ≤ global.new.num_operations }
    ensures sight { KeepsSight global.old global.new }
    ensures runs { (scope : _) (held : _) →
        Steps (under H.name_of session.now T.natives)
        (Ask (lent_call (operation_named (prefix.now ++ name.now) pos) passing.guarded passing.marks focus.old rest.now))
        (state_of (T.state table.old) global.old scope (lending held focus.old)) (ended_or_changed result)
        (state_of (T.state table.new) global.new scope (lending held focus.new)) }
    ensures untold { IfOk result (λ answer. passing.marks ≡ false → answer.1 ≡ false) }
{
    let Ok(text) = name_behind(session.alloc, prefix, name) else {
        return Err(EvalAltResult::ErrorOutOfMemory(pos));
    };
    let native = text.as_str();
    pass_native(
        session,
        global,
        table,
        &Operation {
            name: native,
            token: None,
            at: pos,
        },
        focus,
        rest,
        passing,
    )
}

/// Asks the indexer that gets, which the focus is lent to.
fn ask_item<H: Host, T: NativeTable<H>>(
    session: &Session<'_, H>,
    global: &mut RunState<H>,
    table: &mut T,
    focus: &mut Dynamic<H>,
    index: &mut Dynamic<H>,
    at: Position,
) -> Result<(Dynamic<H>, bool), EvalAltResult<H>>
    ensures counts { global.old.num_operations ≤ global.new.num_operations }
    ensures sight { KeepsSight global.old global.new }
    ensures runs { (scope : _) (held : _) →
        Steps (under H.name_of session.now T.natives) (Ask (item_got at focus.old index.old))
        (state_of (T.state table.old) global.old scope (lending held focus.old)) (ended_or_changed result)
        (state_of (T.state table.new) global.new scope (lending held focus.new)) }
    ensures untold { IfOk result (λ answer. answer.1 ≡ false) }
    ensures index { index.new ≡ index.old }
{
    let passing = Passing {
        guarded: true,
        marks: false,
    };
    match list_of(session.alloc, replace(index, unit_value())) {
        Ok(items) => {
            let mut items = items;
            let rest = items.as_slice();
            let result = pass_native(
                session,
                global,
                table,
                &Operation {
                    name: "index$get$",
                    token: None,
                    at: at,
                },
                focus,
                rest,
                passing,
            );
            let_go(replace(index, first_of(&mut items)));
            drop(items);
            result
        }
        Err(value) => {
            let_go(replace(index, value));
            Err(EvalAltResult::ErrorOutOfMemory(at))
        }
    }
}

/// Asks the setter of a property.
fn ask_setter<H: Host, T: NativeTable<H>>(
    session: &Session<'_, H>,
    global: &mut RunState<H>,
    table: &mut T,
    focus: &mut Dynamic<H>,
    property: &NamedProperty<'_>,
    value: &mut Dynamic<H>,
) -> Result<(Dynamic<H>, bool), EvalAltResult<H>>
    ensures counts { global.old.num_operations ≤ global.new.num_operations }
    ensures sight { KeepsSight global.old global.new }
    ensures runs { (scope : _) (held : _) →
        Steps (under H.name_of session.now T.natives)
        (Ask (property_set property.now.name.now property.now.name_at property.now.guarded focus.old value.old))
        (state_of (T.state table.old) global.old scope (lending held focus.old)) (ended_or_changed result)
        (state_of (T.state table.new) global.new scope (lending held focus.new)) }
    ensures value { value.new ≡ value.old }
{
    let passing = Passing {
        guarded: property.guarded,
        marks: true,
    };
    match list_of(session.alloc, replace(value, unit_value())) {
        Ok(items) => {
            let mut items = items;
            let rest = items.as_slice();
            let result = ask_property(
                session,
                global,
                table,
                focus,
                "set$",
                property.name,
                rest,
                passing,
                property.name_at,
            );
            let_go(replace(value, first_of(&mut items)));
            drop(items);
            result
        }
        Err(back) => {
            let_go(replace(value, back));
            Err(EvalAltResult::ErrorOutOfMemory(property.name_at))
        }
    }
}

/// Asks the indexer that sets.
fn ask_to_set<H: Host, T: NativeTable<H>>(
    session: &Session<'_, H>,
    global: &mut RunState<H>,
    table: &mut T,
    focus: &mut Dynamic<H>,
    index: Dynamic<H>,
    value: Dynamic<H>,
    guarded: bool,
    at: Position,
) -> Result<(Dynamic<H>, bool), EvalAltResult<H>>
    ensures counts { global.old.num_operations ≤ global.new.num_operations }
    ensures sight { KeepsSight global.old global.new }
    ensures runs { (scope : _) (held : _) →
        Steps (under H.name_of session.now T.natives) (Ask (item_set at guarded focus.old index value))
        (state_of (T.state table.old) global.old scope (lending held focus.old)) (ended_or_changed result)
        (state_of (T.state table.new) global.new scope (lending held focus.new)) }
{
    let passing = Passing {
        guarded,
        marks: true,
    };
    let Ok(items) = list_of_both(session.alloc, index, value) else {
        return Err(EvalAltResult::ErrorOutOfMemory(at));
    };
    let rest = items.as_slice();
    let answer = pass_native(
        session,
        global,
        table,
        &Operation {
            name: "index$set$",
            token: None,
            at: at,
        },
        focus,
        rest,
        passing,
    );
    drop(items);
    answer
}

/// Answers as the indexer did, or where it is missing with what stands for it.
fn unless_missing<H: Host>(
    answer: Result<(Dynamic<H>, bool), EvalAltResult<H>>,
    otherwise: Result<Dynamic<H>, EvalAltResult<H>>,
) -> Result<(Dynamic<H>, bool), EvalAltResult<H>>
    ensures { result ≡ tried answer otherwise }
{
    match answer {
        Ok(answer) => {
            drop(otherwise);
            Ok(answer)
        }
        Err(error) => {
            if lacks_indexer(&error) {
                drop(error);
                tell_changed(otherwise, false)
            } else {
                drop(otherwise);
                Err(error)
            }
        }
    }
}

/// Asks the indexer for a property that has no getter. Where it is missing too, the getter's error stands.
fn get_named<H: Host, T: NativeTable<H>>(
    session: &Session<'_, H>,
    global: &mut RunState<H>,
    table: &mut T,
    focus: &mut Dynamic<H>,
    name: &Shared<Text>,
    at: Position,
    missing: EvalAltResult<H>,
) -> Result<(Dynamic<H>, bool), EvalAltResult<H>>
    ensures counts { global.old.num_operations ≤ global.new.num_operations }
    ensures sight { KeepsSight global.old global.new }
    ensures runs { (scope : _) (held : _) →
        Goes (under H.name_of session.now T.natives)
        (λ k l. core (Ask (item_got at (focus_of l) (named name.now))) (IndexerTried (Err missing) ∷ k) l)
        (state_of (T.state table.old) global.old scope (lending held focus.old))
        (core (ended_or_changed result))
        (state_of (T.state table.new) global.new scope (lending held focus.new)) }
    ensures untold { IfOk result (λ answer. answer.1 ≡ false) }
{
    match text_value(name, at) {
        Ok(index) => {
            let mut index = index;
            let answer = ask_item(session, global, table, focus, &mut index, at);
            let_go(index);
            unless_missing(answer, Err(missing))
        }
        Err(error) => {
            drop(missing);
            Err(error)
        }
    }
}

/// Gets a property of the focus.
fn get_property<H: Host, T: NativeTable<H>>(
    session: &Session<'_, H>,
    global: &mut RunState<H>,
    table: &mut T,
    focus: &mut Dynamic<H>,
    property: &NamedProperty<'_>,
) -> Result<(Dynamic<H>, bool), EvalAltResult<H>>
    ensures counts { global.old.num_operations ≤ global.new.num_operations }
    ensures sight { KeepsSight global.old global.new }
    ensures runs { (scope : _) (held : _) (member : _) →
        Goes (under H.name_of session.now T.natives)
        (got_by (Property property.now.name.now property.now.name_at) (record { member = member; at = property.now.at; guarded = property.now.guarded }))
        (state_of (T.state table.old) global.old scope (lending held focus.old))
        (core (ended_or_changed result))
        (state_of (T.state table.new) global.new scope (lending held focus.new)) }
    ensures untold { IfOk result (λ answer. answer.1 ≡ false) }
{
    let none = Items::new(session.alloc);
    let rest = none.as_slice();
    let passing = Passing {
        guarded: property.guarded,
        marks: false,
    };
    match ask_property(
        session,
        global,
        table,
        focus,
        "get$",
        property.name,
        rest,
        passing,
        property.name_at,
    ) {
        Ok(answer) => Ok(answer),
        Err(error) => {
            if lacks_property(&error) {
                get_named(
                    session,
                    global,
                    table,
                    focus,
                    property.name,
                    property.at,
                    error,
                )
            } else {
                Err(error)
            }
        }
    }
}

/// Gets the value of a member of the focus, which is lent to the native. It tells of no change, and the
/// access stays as it was.
///
/// # Errors
/// Those of the natives; where a property has neither getter nor indexer the getter's `ErrorDotExpr`.
pub fn get_member<H: Host, T: NativeTable<H>>(
    session: &Session<'_, H>,
    global: &mut RunState<H>,
    table: &mut T,
    focus: &mut Dynamic<H>,
    access: &mut MemberAccess<'_, H>,
) -> Result<(Dynamic<H>, bool), EvalAltResult<H>>
    ensures counts { global.old.num_operations ≤ global.new.num_operations }
    ensures sight { KeepsSight global.old global.new }
    ensures runs { (scope : _) (held : _) →
        Goes (under H.name_of session.now T.natives) (get_core (access_of access.old))
        (state_of (T.state table.old) global.old scope (lending held focus.old))
        (core (ended_or_changed result))
        (state_of (T.state table.new) global.new scope (lending held focus.new)) }
    ensures untold { IfOk result (λ answer. answer.1 ≡ false) }
    ensures access { access_of access.new ≡ access_of access.old }
{
    let at = access.at;
    let guarded = access.guarded;
    match &mut access.member {
        Member::Property(name, pos) => get_property(
            session,
            global,
            table,
            focus,
            &NamedProperty {
                name,
                name_at: *pos,
                at,
                guarded,
            },
        ),
        Member::Item(index) => ask_item(session, global, table, focus, index, at),
    }
}

/// Asks the indexer to set a property that has no setter.
fn set_named<H: Host, T: NativeTable<H>>(
    session: &Session<'_, H>,
    global: &mut RunState<H>,
    table: &mut T,
    focus: &mut Dynamic<H>,
    property: &NamedProperty<'_>,
    value: Dynamic<H>,
    otherwise: Result<Dynamic<H>, EvalAltResult<H>>,
) -> Result<(Dynamic<H>, bool), EvalAltResult<H>>
    ensures counts { global.old.num_operations ≤ global.new.num_operations }
    ensures sight { KeepsSight global.old global.new }
    ensures runs { (scope : _) (held : _) →
        Goes (under H.name_of session.now T.natives)
        (λ k l. core (Ask (item_set property.now.at property.now.guarded (focus_of l) (named property.now.name.now) value)) (IndexerTried otherwise ∷ k) l)
        (state_of (T.state table.old) global.old scope (lending held focus.old))
        (core (ended_or_changed result))
        (state_of (T.state table.new) global.new scope (lending held focus.new)) }
{
    match text_value(property.name, property.at) {
        Ok(index) => {
            let answer = ask_to_set(
                session,
                global,
                table,
                focus,
                index,
                value,
                property.guarded,
                property.at,
            );
            unless_missing(answer, otherwise)
        }
        Err(error) => {
            let_go(value);
            drop(otherwise);
            Err(error)
        }
    }
}

/// Tells what stands for a missing indexer after a setter: the setter's error, or `()` where that is ignored.
fn instead_of_indexer<H: Host>(
    ignores: bool,
    error: EvalAltResult<H>,
) -> Result<Dynamic<H>, EvalAltResult<H>>
    ensures { result ≡ after_setter ignores error }
{
    if ignores {
        drop(error);
        Ok(unit_value())
    } else {
        Err(error)
    }
}

/// Sets a property of the focus.
fn set_property<H: Host, T: NativeTable<H>>(
    session: &Session<'_, H>,
    global: &mut RunState<H>,
    table: &mut T,
    focus: &mut Dynamic<H>,
    property: &NamedProperty<'_>,
    value: Dynamic<H>,
    ignores: bool,
) -> Result<(Dynamic<H>, bool), EvalAltResult<H>>
    ensures counts { global.old.num_operations ≤ global.new.num_operations }
    ensures sight { KeepsSight global.old global.new }
    ensures runs { (scope : _) (held : _) (member : _) →
        Goes (under H.name_of session.now T.natives)
        (set_by (Property property.now.name.now property.now.name_at) ignores (record { member = member; at = property.now.at; guarded = property.now.guarded }) value)
        (state_of (T.state table.old) global.old scope (lending held focus.old))
        (core (ended_or_changed result))
        (state_of (T.state table.new) global.new scope (lending held focus.new)) }
{
    let mut value = value;
    match ask_setter(session, global, table, focus, property, &mut value) {
        Ok(answer) => {
            let_go(value);
            Ok(answer)
        }
        Err(error) => {
            if lacks_property(&error) {
                let otherwise = instead_of_indexer(ignores, error);
                set_named(session, global, table, focus, property, value, otherwise)
            } else {
                let_go(value);
                Err(error)
            }
        }
    }
}

/// Sets an item of the focus.
fn set_item<H: Host, T: NativeTable<H>>(
    session: &Session<'_, H>,
    global: &mut RunState<H>,
    table: &mut T,
    focus: &mut Dynamic<H>,
    index: Dynamic<H>,
    at: Position,
    guarded: bool,
    value: Dynamic<H>,
    ignores: bool,
) -> Result<(Dynamic<H>, bool), EvalAltResult<H>>
    ensures counts { global.old.num_operations ≤ global.new.num_operations }
    ensures sight { KeepsSight global.old global.new }
    ensures runs { (scope : _) (held : _) (member : _) →
        Goes (under H.name_of session.now T.natives)
        (set_by (Item index) ignores (record { member = member; at = at; guarded = guarded }) value)
        (state_of (T.state table.old) global.old scope (lending held focus.old))
        (core (ended_or_changed result))
        (state_of (T.state table.new) global.new scope (lending held focus.new)) }
{
    let answer = ask_to_set(session, global, table, focus, index, value, guarded, at);
    if ignores {
        unless_missing(answer, Ok(unit_value()))
    } else {
        answer
    }
}

/// Sets a member of the focus, which is lent to the native. The answer is the native's, and tells of a change
/// where that is not pure. Where the absence of an indexer is ignored, `()` stands for what it answers. An
/// index goes to the native, and `()` is left of it.
///
/// # Errors
/// Those of the natives; where a property has neither setter nor indexer the setter's `ErrorDotExpr`,
/// unless that is ignored.
pub fn set_member<H: Host, T: NativeTable<H>>(
    session: &Session<'_, H>,
    global: &mut RunState<H>,
    table: &mut T,
    focus: &mut Dynamic<H>,
    access: &mut MemberAccess<'_, H>,
    value: Dynamic<H>,
    ignores: bool,
) -> Result<(Dynamic<H>, bool), EvalAltResult<H>>
    ensures counts { global.old.num_operations ≤ global.new.num_operations }
    ensures sight { KeepsSight global.old global.new }
    ensures runs { (scope : _) (held : _) →
        Goes (under H.name_of session.now T.natives) (set_core ignores (access_of access.old) value)
        (state_of (T.state table.old) global.old scope (lending held focus.old))
        (core (ended_or_changed result))
        (state_of (T.state table.new) global.new scope (lending held focus.new)) }
{
    let at = access.at;
    let guarded = access.guarded;
    match &mut access.member {
        Member::Property(name, pos) => set_property(
            session,
            global,
            table,
            focus,
            &NamedProperty {
                name,
                name_at: *pos,
                at,
                guarded,
            },
            value,
            ignores,
        ),
        Member::Item(index) => {
            let index = replace(index, unit_value());
            set_item(
                session, global, table, focus, index, at, guarded, value, ignores,
            )
        }
    }
}
