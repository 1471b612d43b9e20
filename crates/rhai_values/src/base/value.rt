//! Values, and the modules and environments that they may lead to.

ghost use Rattle.std.specs.Prelude.{◌≡◌, List, [], ℕ, IfOk};
ghost use Rattle.rhai_values.specs.Copy.{plain};
ghost use Rattle.rhai_values.specs.declared.base.value.FnPtr.{out-FnPtr};
ghost use Rattle.rhai_values.specs.Modules.{empty_module};

use rhai_tree::checked::CheckedFn;
use rhai_tree::literal::NativeId;
use rhai_tree::{Boxed, Items, Shared, Table, Text};
use std::alloc::{AllocError, Global};
use std::default::MadeWith;

/// Whether a value may be written.
#[derive(Clone, Copy, Debug, PartialEq, Eq)]
pub enum AccessMode {
    ReadWrite,
    ReadOnly,
}

/// The number of a shared cell in the store.
#[derive(Clone, Copy, Debug, PartialEq, Eq)]
pub struct CellId {
    pub number: usize,
}

/// The host's own type of values.
pub trait Host: Sized + Drop {
    /// The name of a value's type.
    ghost name_of: { Self → List ℕ };

    /// Copies the value: the copy equals the original, or there is no memory.
    fn try_clone(&self, alloc: Global) -> Result<Self, AllocError>
        ensures { IfOk result (λ c. c ≡ self.now) };

    /// Returns the name of the value's type.
    fn type_name(&self) -> &str
        ensures { result.now ≡ name_of self.now };
}

/// A value with its access mode. Ports upstream's `Dynamic`.
#[cycle(value)]
pub struct Dynamic<H> {
    pub value: Union<H>,
    pub mode: AccessMode,
}

// Written by hand, so that the crates above call this where a value goes out of scope, and need not
// go through its variants there.
impl<H: Drop> Drop for Dynamic<H> {
    #[cycle(value)]
    #[inline(always)]
    fn drop(self) {
        let Dynamic { value, mode: _ } = self;
        match value {
            Union::Unit
            | Union::Bool(_)
            | Union::Int(_)
            | Union::Char(_)
            | Union::ExclusiveRange(_, _)
            | Union::InclusiveRange(_, _)
            | Union::Cell(_) => {}
            value => drop(value),
        }
    }
}

/// What stands in the unused places of a short list: `()`.
impl<H: Drop> MadeWith<Global> for Dynamic<H> {
    fn made_with(_alloc: Global) -> Dynamic<H> {
        Dynamic::new(Union::Unit)
    }
}

impl<H> Dynamic<H> {
    /// Builds a value that may be written.
    pub fn new(value: Union<H>) -> Dynamic<H>
        ensures { result ≡ plain value }
    {
        Dynamic {
            value,
            mode: AccessMode::ReadWrite,
        }
    }

    /// Returns the value's own mode. That of a handle says nothing of the mode of the cell's value. Ports
    /// upstream's `Dynamic::access_mode`.
    pub fn access_mode(&self) -> AccessMode
        ensures { result ≡ self.now.mode }
    {
        self.mode
    }
}

/// What a value is. Ports upstream's `Union`.
#[cycle(value)]
#[derive(Drop)]
pub enum Union<H> {
    Unit,
    Bool(bool),
    Int(i64),
    Char(char),
    Str(Shared<Text>),
    ExclusiveRange(i64, i64),
    InclusiveRange(i64, i64),
    Array(Boxed<Items<Dynamic<H>>>),
    Blob(Boxed<Items<u8>>),
    Map(Boxed<Table<Dynamic<H>>>),
    FnPtr(Boxed<FnPtr<H>>),
    Host(Boxed<H>),
    Cell(CellId),
}

/// A pointer to a function, with the arguments that it has already. Ports upstream's `FnPtr`.
#[cycle(value)]
pub struct FnPtr<H> {
    pub name: Shared<Text>,
    pub curry: Items<Dynamic<H>>,
    pub kind: FnPtrKind<H>,
}

// Written by hand, as that of a value is.
impl<H: Drop> Drop for FnPtr<H> {
    #[cycle(value)]
    fn drop(self) {
        let FnPtr {
            name: _,
            curry,
            kind,
        } = self;
        drop(curry);
        drop(kind);
    }
}

impl<H> FnPtr<H> {
    /// Hands out the pointer's name, its arguments and what it leads to.
    pub fn into_parts(self) -> (Shared<Text>, Items<Dynamic<H>>, FnPtrKind<H>)
        ensures name { result.0 ≡ (out-FnPtr H self).name }
        ensures curried { result.1 ≡ (out-FnPtr H self).curry }
        ensures kind { result.2 ≡ (out-FnPtr H self).kind }
    {
        let FnPtr { name, curry, kind } = self;
        (name, curry, kind)
    }
}

/// What a pointer leads to.
#[cycle(value)]
#[derive(Drop)]
pub enum FnPtrKind<H> {
    /// Whatever the name finds at the call.
    Name,
    /// The library function of the name with so many parameters.
    Arity(usize),
    /// A checked function, with its environment.
    Script(Shared<CheckedFn>, Option<Shared<EncapsulatedEnviron<H>>>),
    /// A native of the caller's table.
    Native(NativeId),
}

/// What a function finds around it. Ports upstream's `EncapsulatedEnviron`.
#[cycle(value)]
pub struct EncapsulatedEnviron<H> {
    pub lib: Items<Shared<Module<H>>>,
    pub imports: Items<Import<H>>,
    /// The number of its table of constants.
    pub constants: usize,
}

// Written by hand, as that of a value is.
impl<H: Drop> Drop for EncapsulatedEnviron<H> {
    #[cycle(value)]
    fn drop(self) {
        let EncapsulatedEnviron {
            lib,
            imports,
            constants: _,
        } = self;
        drop(lib);
        drop(imports);
    }
}

/// A module under the name that it was imported by.
#[cycle(value)]
pub struct Import<H> {
    pub name: Shared<Text>,
    pub module: Shared<Module<H>>,
}

// Written by hand, as that of a value is.
impl<H: Drop> Drop for Import<H> {
    #[cycle(value)]
    fn drop(self) {
        let Import { name: _, module } = self;
        drop(module);
    }
}

/// A function of a module.
#[cycle(value)]
pub struct ModuleFn<H> {
    pub def: Shared<CheckedFn>,
    pub environ: Option<Shared<EncapsulatedEnviron<H>>>,
    /// Whether the function is found without the module's name.
    pub is_global: bool,
}

// Written by hand, as that of a value is.
impl<H: Drop> Drop for ModuleFn<H> {
    #[cycle(value)]
    fn drop(self) {
        let ModuleFn {
            def: _,
            environ,
            is_global: _,
        } = self;
        drop(environ);
    }
}

/// Constants, functions and modules under names. Ports upstream's `Module`.
#[cycle(value)]
pub struct Module<H> {
    pub id: Option<Shared<Text>>,
    pub constants: Table<Dynamic<H>>,
    /// Of two functions of one key the later stands.
    pub functions: Items<ModuleFn<H>>,
    pub sub_modules: Table<Shared<Module<H>>>,
}

// Written by hand, as that of a value is.
impl<H: Drop> Drop for Module<H> {
    #[cycle(value)]
    fn drop(self) {
        let Module {
            id: _,
            constants,
            functions,
            sub_modules,
        } = self;
        drop(constants);
        drop(functions);
        drop(sub_modules);
    }
}

impl<H> Module<H> {
    /// Creates a module with nothing in it. It takes no memory. Ports upstream's `Module::new`.
    pub fn new(alloc: Global) -> Module<H>
        ensures { result ≡ empty_module }
    {
        Module {
            id: None,
            constants: Table::new(alloc),
            functions: Items::new(alloc),
            sub_modules: Table::new(alloc),
        }
    }
}

/// The modules that an `import` may find, by their paths.
pub struct ModuleTable<H> {
    pub modules: Table<Shared<Module<H>>>,
}

// Written by hand, as that of a value is.
impl<H: Drop> Drop for ModuleTable<H> {
    fn drop(self) {
        let ModuleTable { modules: _ } = self;
    }
}

impl<H> ModuleTable<H> {
    /// Creates a table with no module. It takes no memory.
    pub fn new(alloc: Global) -> ModuleTable<H>
        ensures { result.modules ≡ ([], []) }
    {
        ModuleTable {
            modules: Table::new(alloc),
        }
    }
}
