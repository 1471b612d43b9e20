//! Targets: what an index leads to, to be read, changed and put back. Ports upstream's `Target`.
//! The contracts cite specs/Targets.antt.

ghost use Rattle.std.specs.Prelude.{◌≡◌, Some, true, false, IfErr, IfOk, IsOk, IsSome, OnErr, OnOk};
ghost use Rattle.std.specs.Borrow.{sem};
ghost use Rattle.rhai_tree.specs.Position.{none};
ghost use Rattle.rhai_errors.specs.declared.error.EvalAltResult.TheVariants as error;
ghost use Rattle.rhai_spots.specs.Targets.{is_place, taken_value};

use crate::part::is_part;
use crate::put::put_part;
use rhai_errors::error::EvalAltResult;
use rhai_spots::part::Part;
use rhai_tree::position::Position;
use rhai_values::base::value::{Dynamic, Host, Union};
use std::alloc::Global;

/// A borrowed place, a temporary, or a part of the value at a borrowed place. Ports upstream's
/// `Target`.
#[derive(Drop)]
pub struct Target<'t, H> {
    pub at: &'t mut Dynamic<H>,
    pub part: Part<H>,
}

impl<'t, H> Target<'t, H> {
    ghost use Rattle.rhai_spots.specs.Targets.{shown, is_place, is_temporary, is_shared as shows_handle};

    /// Returns the value that the target shows.
    pub fn as_ref(&self) -> &Dynamic<H>
        ensures { result.now ≡ shown self.now.part self.now.at.now }
    {
        match &self.part {
            Part::Whole => &*self.at,
            Part::Temporary(value) => value,
            Part::Of(_, value) => value,
        }
    }

    /// Lends the value that the target shows, to be changed. It is the place, or what `Part::value_mut`
    /// lends, whose clause tells what becomes of it. A part that was changed is put back by
    /// `propagate_changed_value`.
    pub fn as_mut(&mut self) -> &mut Dynamic<H>
        ensures { result.now ≡ shown self.old.part self.old.at.now }
    {
        if self.is_ref() {
            &mut *self.at
        } else {
            self.part.value_mut()
        }
    }

    /// Tells whether the target is a borrowed place.
    pub fn is_ref(&self) -> bool
        ensures { result ≡ is_place self.now.part }
    {
        matches!(&self.part, Part::Whole)
    }

    /// Tells whether the target is a temporary value.
    pub fn is_temp_value(&self) -> bool
        ensures { result ≡ is_temporary self.now.part }
    {
        matches!(&self.part, Part::Temporary(_))
    }

    /// Tells whether the target is a handle of a shared cell. A part never is.
    pub fn is_shared(&self) -> bool
        ensures { result ≡ shows_handle self.now.part self.now.at.now }
    {
        match &self.part {
            Part::Whole => matches!(&self.at.value, Union::Cell(_)),
            Part::Temporary(value) => matches!(&value.value, Union::Cell(_)),
            Part::Of(_, _) => false,
        }
    }
}

/// Takes what a target shows of its place. That is a copy of the place, or a temporary or a part as it is.
/// The place stays as it is. `Target::take_or_clone` calls this with its two fields.
///
/// # Errors
/// Where there is no memory for a copy it is `ErrorOutOfMemory`.
pub fn take_shown<H: Host>(
    at: &mut Dynamic<H>,
    part: Part<H>,
    alloc: Global,
) -> Result<Dynamic<H>, EvalAltResult<H>>
    ensures ok { IfOk result (λ value. value ≡ taken_value part at.old) }
    ensures err { IfErr result (λ e. e ≡ error.ErrorOutOfMemory none) }
    ensures memory { OnErr result (is_place part ≡ true) }
    ensures place { at.new ≡ at.old }
{
    match part {
        Part::Whole => match at.try_clone(alloc) {
            Ok(value) => Ok(value),
            Err(_) => Err(EvalAltResult::ErrorOutOfMemory(Position::NONE)),
        },
        Part::Temporary(value) => Ok(value),
        Part::Of(_, value) => Ok(value),
    }
}

impl<'t, H: Host> Target<'t, H> {
    ghost use Rattle.rhai_spots.specs.Targets.{is_of_a_text, is_place, propagated, taken_value, IsFit};
    ghost use Rattle.rhai_spots.specs.Targets.{IsNotPropagated};

    /// Takes the value of the target: a copy of a place, a temporary or a part as it is. The place stays as
    /// it is: that is said by `take_shown`, which this calls.
    ///
    /// # Errors
    /// Where there is no memory for a copy it is `ErrorOutOfMemory`.
    pub fn take_or_clone(self, alloc: Global) -> Result<Dynamic<H>, EvalAltResult<H>>
        ensures ok { IfOk result (λ value. value ≡ taken_value self.entry.part self.entry.at.now) }
        ensures err { IfErr result (λ e. e ≡ error.ErrorOutOfMemory none) }
        ensures memory { OnErr result (is_place self.entry.part ≡ true) }
    {
        let Target { at, part } = self;
        take_shown(at, part, alloc)
    }

    /// Puts a changed part back into its place. A bit takes a truth value, a bit field and a byte an integer,
    /// a character a character, and a slice a text. Of a place and a temporary nothing is to be put back, and
    /// a place that has no such part stays as it is.
    ///
    /// # Errors
    /// A part that has become of another type is `ErrorMismatchDataType` at the position, and the
    /// place stays. Where there is no memory the place stays too; only parts of texts take some.
    pub fn propagate_changed_value(
        &mut self,
        alloc: Global,
        position: Position,
    ) -> Result<(), EvalAltResult<H>>
        ensures same_reference { self.new.at.ghost_name ≡ self.old.at.ghost_name }
        ensures part { self.new.part ≡ self.old.part }
        ensures ok { OnOk result (propagated self.old.part self.old.at.now ≡ Some self.new.at.now) }
        ensures unfit { (¬ IsFit self.old.part self.old.at.now) → IsOk result }
        ensures err { OnErr result (self.new.at.now ≡ self.old.at.now) }
        ensures refused { IfErr result (λ e. IsNotPropagated H.name_of self.old.part self.old.at.now
            position e) }
        ensures memory { IsSome (propagated self.old.part self.old.at.now) →
            is_of_a_text self.old.part ≡ false → IsOk result }
    {
        match &self.part {
            Part::Of(spot, part) => {
                let source = &mut *self.at;
                if !is_part(source, *spot) {
                    return Ok(());
                }
                put_part(alloc, source, *spot, part, position)
            }
            _ => Ok(()),
        }
    }
}
