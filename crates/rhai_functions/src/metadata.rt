//! What is told of a function without its body.

ghost use Rattle.std.specs.Prelude.{◌≡◌, map, IfOk};
ghost use Rattle.std.specs.Option.{option_copied};
ghost use Rattle.rhai_tree.specs.Signatures.{signature_text};

use rhai_tree::function::{FnAccess, ScriptFuncDef};
use rhai_tree::signature::write_signature;
use std::alloc::{AllocError, Global};
use std::fmt;
use std::fmt::{Display, Formatter, Write};

/// What is told of a function: its name and parameters, who may call it, and the type that its `this` must
/// have, if any. Ports upstream's `ScriptFnMetadata`.
#[derive(Debug, PartialEq, Eq, PartialOrd, Ord, Hash, Drop)]
pub struct ScriptFnMetadata<'a> {
    pub name: &'a str,
    pub params: Vec<&'a str>,
    pub access: FnAccess,
    pub this_type: Option<&'a str>,
}

impl<'a> ScriptFnMetadata<'a> {
    /// Copies what is told of a function. The copy names the texts that the original names, and takes
    /// memory for the list of parameters alone.
    pub fn try_clone(&self) -> Result<ScriptFnMetadata<'a>, AllocError>
        ensures name { IfOk result (λ copy. copy.name ≡ self.now.name) }
        ensures params { IfOk result (λ copy. copy.params.items ≡ self.now.params.items) }
        ensures access { IfOk result (λ copy. copy.access ≡ self.now.access) }
        ensures this_type { IfOk result (λ copy. copy.this_type ≡ self.now.this_type) }
    {
        Ok(ScriptFnMetadata {
            name: self.name,
            params: self.params.clone()?,
            access: self.access,
            this_type: self.this_type,
        })
    }
}

/// The function as its own `Display` writes it, as `private "i64".f(a, b)`. Ports upstream's `Display` of
/// `ScriptFnMetadata`.
impl Display for ScriptFnMetadata<'_> {
    ghost output = { λ told. signature_text told.access (option_copied told.this_type) told.name.now
        (map (λ p. p.now) told.params.items) };

    fn fmt<W: Write>(&self, f: &mut Formatter<W>) -> fmt::Result {
        write_signature(
            self.access,
            self.this_type,
            self.name,
            self.params.as_slice(),
            f,
        )
    }
}

/// Lists the names of a function's parameters.
fn params_of<'a>(alloc: Global, def: &'a ScriptFuncDef) -> Result<Vec<&'a str>, AllocError>
    ensures { IfOk result (λ params. map (λ p. p.now) params.items ≡ def.now.params) }
{
    let mut params = Vec::with_capacity(alloc, def.params.len())?;
    let mut at = 0;
    'params: while at < def.params.len() {
        params.push(def.params.as_slice()[at].get().as_str())?;
        at += 1;
    }
    Ok(params)
}

/// Collects what is told of a function. Ports upstream's `ScriptFnMetadata::from`.
pub fn metadata_of(alloc: Global, def: &ScriptFuncDef) -> Result<ScriptFnMetadata<'_>, AllocError>
    ensures name { IfOk result (λ told. told.name.now ≡ def.now.name) }
    ensures params { IfOk result (λ told. map (λ p. p.now) told.params.items ≡ def.now.params) }
    ensures access { IfOk result (λ told. told.access ≡ def.now.access) }
    ensures this_type { IfOk result (λ told. option_copied told.this_type ≡ def.now.this_type) }
{
    let params = params_of(alloc, def)?;
    Ok(ScriptFnMetadata {
        name: def.name.get().as_str(),
        params,
        access: def.access,
        this_type: match &def.this_type {
            Some(name) => Some(name.get().as_str()),
            None => None,
        },
    })
}
