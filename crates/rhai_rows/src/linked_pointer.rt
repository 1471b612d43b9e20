//! The variables above which rows and lists run, pointers whose function finds others than the script's, and the
//! handle of a cell.

use crate::maker::Maker;
use crate::modules::checked;
use crate::start::first_handle;
use rhai_eval_base::base::{Dynamic, FnPtrKind, Items, Scope, Shared};
use rhai_eval_base::check::CheckedFn;
use rhai_eval_base::script::EncapsulatedEnviron;
use rhai_samples::functions::{FUNCTION_G, FUNCTION_H, OTHER_FUNCTION_G};
use rhai_samples::parts::Part;
use rhai_tables::host::Pair;
use std::alloc::{AllocError, Global};

/// Makes the variables above which the scripts of a row or a list run: of most none.
pub fn scope_for(alloc: Global, row: &str) -> Result<Scope<Pair>, AllocError> {
    let mut maker = Maker::new(alloc);
    let mut scope = Scope::new(alloc);
    if row == "15" || row == "lookups" {
        let pointer = maker.pointer_with_a_library(FUNCTION_G);
        maker.declare(&mut scope, "p", pointer);
    }
    if row == "lookups" {
        let pointer = maker.pointer_with_a_library(OTHER_FUNCTION_G);
        maker.declare(&mut scope, "q", pointer);
    }
    if row == "held" {
        maker.declare(&mut scope, "h", first_handle());
    }
    maker.finish(scope)
}

impl Maker {
    /// Makes a pointer to `fn h() { g() }` with an environment. The environment's library has the functions of a tree.
    fn pointer_with_a_library(&mut self, functions: &[Part<'_>]) -> Dynamic<Pair> {
        let kind = self.function_h(functions);
        self.pointer("h", Items::new(self.allocator()), kind)
    }

    /// Makes the function with what is around it: a library with the functions of a tree.
    fn function_h(&mut self, functions: &[Part<'_>]) -> FnPtrKind<Pair> {
        let environ = self.environ_of(functions);
        let environ = self.shared(environ);
        let function = checked_h(self.allocator());
        match self.kept(function) {
            Some(function) => FnPtrKind::Script(function, environ),
            None => {
                drop(environ);
                FnPtrKind::Name
            }
        }
    }

    fn environ_of(&mut self, functions: &[Part<'_>]) -> EncapsulatedEnviron<Pair> {
        let mut lib = Items::new(self.allocator());
        let library = self.library(functions);
        self.push_module(&mut lib, library);
        EncapsulatedEnviron {
            lib,
            imports: Items::new(self.allocator()),
            constants: 0,
        }
    }
}

fn checked_h(alloc: Global) -> Result<Shared<CheckedFn>, AllocError> {
    let tree = checked(alloc, FUNCTION_H)?;
    match tree.functions() {
        [function, ..] => function.share(),
        [] => Err(AllocError),
    }
}
