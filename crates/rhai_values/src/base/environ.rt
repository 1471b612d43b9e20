//! What a function finds around it, with modules that are shared. Ports upstream's `Clone` of
//! `EncapsulatedEnviron`.

ghost use Rattle.std.specs.Prelude.{◌≡◌, IfOk};
ghost use Rattle.rhai_values.specs.Modules.{environ_with};

use crate::base::value::{EncapsulatedEnviron, Import, Module};
use rhai_tree::{Items, Shared};
use std::alloc::{AllocError, Global};

impl<H: Drop> EncapsulatedEnviron<H> {
    /// Builds an environment of these libraries, imports and table of constants, which is given by its
    /// number. Each module gets another owner. It takes memory for the two lists alone.
    pub fn sharing(
        alloc: Global,
        lib: &[Shared<Module<H>>],
        imports: &[Import<H>],
        constants: usize,
    ) -> Result<EncapsulatedEnviron<H>, AllocError>
        ensures { IfOk result (λ environ. environ ≡ environ_with lib.now imports.now constants) }
    {
        Ok(EncapsulatedEnviron {
            lib: share_modules(alloc, lib)?,
            imports: share_imports(alloc, imports)?,
            constants,
        })
    }

    /// Copies the environment, and shares its modules. It takes memory for the lists of them alone.
    /// Stands for upstream's `EncapsulatedEnviron::clone`.
    pub fn try_clone(&self, alloc: Global) -> Result<EncapsulatedEnviron<H>, AllocError>
        ensures { IfOk result (λ copy. copy ≡ self.now) }
    {
        EncapsulatedEnviron::sharing(
            alloc,
            self.lib.as_slice(),
            self.imports.as_slice(),
            self.constants,
        )
    }
}

/// Shares the modules of a list, each with another owner.
fn share_modules<H: Drop>(
    alloc: Global,
    modules: &[Shared<Module<H>>],
) -> Result<Items<Shared<Module<H>>>, AllocError>
    ensures { IfOk result (λ shared. shared ≡ modules.now) }
{
    let mut shared = Items::new(alloc);
    let mut at = 0;
    'modules: while at < modules.len() {
        shared.push(modules[at].share()?)?;
        at += 1;
    }
    Ok(shared)
}

/// Shares an import, with another owner of its module.
fn share_import<H: Drop>(import: &Import<H>) -> Result<Import<H>, AllocError>
    ensures { IfOk result (λ shared. shared ≡ import.now) }
{
    Ok(Import {
        name: import.name.share()?,
        module: import.module.share()?,
    })
}

/// Shares the imports of a list, each as `share_import` does it.
fn share_imports<H: Drop>(
    alloc: Global,
    imports: &[Import<H>],
) -> Result<Items<Import<H>>, AllocError>
    ensures { IfOk result (λ shared. shared ≡ imports.now) }
{
    let mut shared = Items::new(alloc);
    let mut at = 0;
    'imports: while at < imports.len() {
        shared.push(share_import(&imports[at])?)?;
        at += 1;
    }
    Ok(shared)
}
