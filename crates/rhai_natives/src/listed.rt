//! Natives in a list, and how their author says what they do.

ghost use Rattle.std.specs.Prelude.{◌≡◌, ◌==◌, ◌-◌, None, find, if◌then◌else◌, map, slice_get};
ghost use Rattle.std.specs.Option.{option_map};
ghost use Rattle.std.specs.Str.{bytes_eq};
ghost use Rattle.rhai_errors.specs.Native.{Named, Numbered};
ghost use Rattle.rhai_natives.specs.Arguments.{values_of};
ghost use Rattle.rhai_natives.specs.Listed.{entry_of};
ghost use Rattle.rhai_natives.specs.Found.{found, found_at};

use crate::arguments::Arguments;
use crate::response::Response;
use rhai_tree::literal::NativeId;
use rhai_values::base::value::Host;
use std::alloc::Global;

/// A native under its name.
pub enum Listed<K> {
    /// It leaves its first argument.
    Pure(&'static str, K),
    /// It may change it, so that a constant is not given to it.
    Impure(&'static str, K),
}

impl<K> Listed<K> {
    fn name(&self) -> &'static str
        ensures { result.now ≡ (entry_of self.now).name }
    {
        match self {
            Listed::Pure(name, _) => *name,
            Listed::Impure(name, _) => *name,
        }
    }
}

/// Natives that neither read nor answer cells, script functions or constants. Their author lists them
/// and says what each does as a function of the state and of the arguments.
pub trait ListedNatives<H: Host> {
    ghost use Rattle.std.specs.Prelude.{List, Option};
    ghost use Rattle.rhai_values.specs.declared.base.value.Union.{Union};
    ghost use Rattle.rhai_natives.specs.Responses.{AreAnswered, Done, HadMemory, response_of, state_after};
    ghost use Rattle.rhai_natives.specs.Listed.{Entry};

    /// What the list names.
    type Native: Copy;

    /// The state of the natives as far as it shows.
    ghost State: { Type 0 };

    ghost state: { Self → State };

    /// The list. The first has the number 1.
    ghost list: { List (Entry Self.Native) };

    /// What a native does with its arguments, None where there is no such native for them.
    ghost does: { State → Self.Native → List (Union H) → Option (Done State H) };

    fn listed(&self) -> &[Listed<Self::Native>]
        ensures { map entry_of result.now ≡ list };

    /// Calls a native. None says that there is no such native for these arguments.
    fn call(
        &mut self,
        alloc: Global,
        native: Self::Native,
        arguments: &Arguments<'_, H>,
    ) -> Option<Response<H>>
        ensures response { AreAnswered result
            (option_map response_of (does (state self.old) native (values_of arguments.now))) }
        ensures state { HadMemory result →
            state self.new ≡ state_after (state self.old)
            (does (state self.old) native (values_of arguments.now)) };
}

/// A native that a list has, and whether it is pure.
#[derive(Clone, Copy)]
pub(crate) struct Found<K> {
    pub native: K,
    pub is_pure: bool,
}

/// Finds the first native of a name in a list.
#[inline(always)]
pub(crate) fn find_named<K: Copy>(listed: &[Listed<K>], name: &str) -> Option<Found<K>>
    ensures { result ≡ found (map entry_of listed.now) (Named name.now) }
{
    found_at(named(listed, name))
}

/// Finds the native of a number in a list.
pub(crate) fn find_numbered<K: Copy>(listed: &[Listed<K>], id: NativeId) -> Option<Found<K>>
    ensures { result ≡ found (map entry_of listed.now) (Numbered id.number) }
{
    found_at(numbered(listed, id))
}

fn named<'a, K>(listed: &'a [Listed<K>], name: &str) -> Option<&'a Listed<K>>
    ensures { option_map (λ e. e.now) result
        ≡ find (λ e. bytes_eq (entry_of e).name name.now) listed.now }
{
    listed.iter().find(|entry| entry.name() == name)
}

fn numbered<K>(listed: &[Listed<K>], id: NativeId) -> Option<&Listed<K>>
    ensures { option_map (λ e. e.now) result
        ≡ (if id.number == 0 then None else slice_get listed.now (id.number - 1)) }
{
    let place = usize::try_from(id.number.checked_sub(1)?).ok()?;
    listed.get(place)
}

fn found_at<K: Copy>(listed: Option<&Listed<K>>) -> Option<Found<K>>
    ensures { result ≡ option_map found_at listed.entry }
{
    match listed? {
        Listed::Pure(_, native) => Some(Found {
            native: *native,
            is_pure: true,
        }),
        Listed::Impure(_, native) => Some(Found {
            native: *native,
            is_pure: false,
        }),
    }
}
