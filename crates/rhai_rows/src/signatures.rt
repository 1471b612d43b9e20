//! What is told of a function without its body, and what it finds around it.

use crate::maker::Maker;
use crate::sheet::Sheet;
use rhai_eval_base::script::{EncapsulatedEnviron, environ_of, metadata_of};
use rhai_eval_base::state::{GlobalRuntimeState, Module};
use rhai_samples::built::private_function;
use rhai_tables::host::Pair;
use rhai_tree::function::ScriptFuncDef;
use std::alloc::{AllocError, Global};
use std::io;

/// Makes a state that has imported an empty module as `m`, or says that memory ran out.
pub fn state_with_surroundings(alloc: Global) -> Result<GlobalRuntimeState<Pair>, AllocError> {
    let mut maker = Maker::new(alloc);
    let mut global = GlobalRuntimeState::new(alloc)?;
    maker.import(&mut global, "m");
    maker.finish(global)
}

/// Writes what the metadata of a function say, what is around one, or for any other word its signature.
pub fn write_told(alloc: Global, word: &str, out: &mut Vec<u8>) -> io::Result<()> {
    let mut sheet = Sheet::new(alloc);
    match word {
        "surroundings" => sheet.surroundings(),
        _ => sheet.told_of_function(word),
    }
    sheet.hand_to(out)
}

impl Sheet {
    fn told_of_function(&mut self, word: &str) {
        let def = private_function(self.maker.allocator());
        if let Some(def) = self.maker.kept(def) {
            match word {
                "metadata" => self.metadata(&def),
                _ => self.signature(&def),
            }
            drop(def);
        }
    }

    fn metadata(&mut self, def: &ScriptFuncDef) {
        let alloc = self.maker.allocator();
        let told = self.maker.kept(metadata_of(alloc, def));
        if let Some(told) = told {
            let copy = self.maker.kept(told.try_clone());
            if let Some(copy) = copy {
                self.show(&copy);
            }
        }
    }

    fn signature(&mut self, def: &ScriptFuncDef) {
        let alloc = self.maker.allocator();
        let signature = self.maker.kept(def.clone_function_signatures(alloc));
        if let Some(signature) = signature {
            self.show(&signature);
        }
    }

    /// Appends what is around a function of a state that has imported an empty module as `m`.
    fn surroundings(&mut self) {
        let global = state_with_surroundings(self.maker.allocator());
        if let Some(global) = self.maker.kept(global) {
            let around = self.maker.around(&global);
            drop(global);
            if let Some(around) = around {
                self.environ(&around);
                drop(around);
            }
        }
    }

    fn environ(&mut self, around: &EncapsulatedEnviron<Pair>) {
        self.show(&around.lib.len());
        self.write(" libraries, table ");
        self.show(&around.constants);
        for import in around.imports.as_slice() {
            self.write(", ");
            self.write(import.name.get().as_str());
        }
    }
}

impl Maker {
    /// Imports an empty module under a name.
    fn import(&mut self, global: &mut GlobalRuntimeState<Pair>, name: &str) {
        let module = Module::new(self.allocator());
        if let Some(module) = self.shared(module) {
            let name = String::from_str(self.allocator(), name);
            match self.kept(name) {
                Some(name) => {
                    let pushed = global.push_import(name, module);
                    self.remember(pushed);
                }
                None => drop(module),
            }
        }
    }

    /// Makes a copy of what is around a function of a state, None where memory ran out.
    fn around(&mut self, global: &GlobalRuntimeState<Pair>) -> Option<EncapsulatedEnviron<Pair>> {
        let around = environ_of(self.allocator(), global);
        match self.kept(around) {
            Some(around) => {
                let copy = around.try_clone(self.allocator());
                drop(around);
                self.kept(copy)
            }
            None => None,
        }
    }
}
