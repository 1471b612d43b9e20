//! Laws of places and paths. The functions do nothing: that they build means that the laws are proved.

ghost use Rattle.rhai_places.specs.PathLaws.{PathLaws};
ghost use Rattle.rhai_places.specs.Laws.{PlaceLaws};

use std::marker::PhantomData;

/// Shows that what is written at a place is read there, and what stands at another place stays.
pub fn place_laws<H>(of: PhantomData<H>)
    ensures { PlaceLaws H }
{}

/// Shows that what is written at the end of a path is read there. And what is put back step by step, from the
/// end of a path up, is what is written at once at its end.
pub fn path_laws<H>(of: PhantomData<H>)
    ensures { PathLaws H }
{}
