//! Script functions as they are written.

ghost use Rattle.std.specs.Prelude.{◌≡◌, IfOk};
ghost use Rattle.rhai_tree.specs.Positions.{start_of_payload, end_of_payload};
ghost use Rattle.rhai_tree.specs.Signatures.{empty_body, signature_text};

use crate::expr::StmtBlock;
use crate::position::Position;
use crate::signature::write_signature;
use crate::{Items, Shared, Text};
use std::alloc::{AllocError, Global};
use std::fmt;
use std::fmt::{Display, Formatter, Write};

/// Who may call a function. Private comes before public.
#[derive(Clone, Copy, Debug, PartialEq, Eq, PartialOrd, Ord, Hash)]
pub enum FnAccess {
    Private,
    Public,
}

/// What a script function runs. Ports upstream's `ScriptFuncPayload`.
#[derive(Drop)]
pub enum ScriptFuncPayload {
    Statements(StmtBlock),
}

impl ScriptFuncPayload {
    /// Tells where the body starts. Statements start at their opening brace.
    pub fn start_position(&self) -> Position
        ensures { result ≡ start_of_payload self.now }
    {
        match self {
            ScriptFuncPayload::Statements(block) => block.position,
        }
    }

    /// Tells where the body ends. Statements end at their closing brace.
    pub fn end_position(&self) -> Position
        ensures { result ≡ end_of_payload self.now }
    {
        match self {
            ScriptFuncPayload::Statements(block) => block.end_position,
        }
    }

    /// Makes a body without statements and without positions.
    fn empty(alloc: Global) -> ScriptFuncPayload
        ensures { result ≡ empty_body }
    {
        ScriptFuncPayload::Statements(StmtBlock {
            statements: Items::new(alloc),
            position: Position::NONE,
            end_position: Position::NONE,
        })
    }
}

/// A script function. Ports upstream's `ScriptFuncDef`.
pub struct ScriptFuncDef {
    pub body: ScriptFuncPayload,
    pub name: Shared<Text>,
    pub access: FnAccess,
    /// The type name that `this` must have, if any.
    pub this_type: Option<Shared<Text>>,
    pub params: Items<Shared<Text>>,
}

// Written by hand, so that crates which let a function go call this and need not prove how its
// statements are dropped.
impl Drop for ScriptFuncDef {
    fn drop(self) {
        let ScriptFuncDef {
            body: _,
            name: _,
            access: _,
            this_type: _,
            params: _,
        } = self;
    }
}

impl ScriptFuncDef {
    /// Copies the function with an empty body, which has no positions. Its texts are shared. Ports
    /// upstream's `ScriptFuncDef::clone_function_signatures`.
    pub fn clone_function_signatures(&self, alloc: Global) -> Result<ScriptFuncDef, AllocError>
        ensures body { IfOk result (λ copy. copy.body ≡ empty_body) }
        ensures name { IfOk result (λ copy. copy.name ≡ self.now.name) }
        ensures access { IfOk result (λ copy. copy.access ≡ self.now.access) }
        ensures this_type { IfOk result (λ copy. copy.this_type ≡ self.now.this_type) }
        ensures params { IfOk result (λ copy. copy.params ≡ self.now.params) }
    {
        Ok(ScriptFuncDef {
            name: self.name.share()?,
            access: self.access,
            this_type: match &self.this_type {
                Some(name) => Some(name.share()?),
                None => None,
            },
            params: share_texts(alloc, self.params.as_slice())?,
            body: ScriptFuncPayload::empty(alloc),
        })
    }
}

/// Shares each text of a list with another owner.
fn share_texts(alloc: Global, texts: &[Shared<Text>]) -> Result<Items<Shared<Text>>, AllocError>
    ensures { IfOk result (λ shared. shared ≡ texts.now) }
{
    let mut shared = Items::new(alloc);
    let mut at = 0;
    'texts: while at < texts.len() {
        shared.push(texts[at].share()?)?;
        at += 1;
    }
    Ok(shared)
}

/// The function without its body, as `private "i64".f(a, b)`: `private ` where it is private, the type that
/// its `this` must have, in quotes, and a dot, its name, and its parameters. Ports upstream's `Display` of
/// `ScriptFuncDef`.
impl Display for ScriptFuncDef {
    ghost output = { λ def. signature_text def.access def.this_type def.name def.params };

    fn fmt<W: Write>(&self, f: &mut Formatter<W>) -> fmt::Result {
        let this_type = match &self.this_type {
            Some(name) => Some(name.get().as_str()),
            None => None,
        };
        write_signature(
            self.access,
            this_type,
            self.name.get().as_str(),
            self.params.as_slice(),
            f,
        )
    }
}
