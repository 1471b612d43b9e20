//! Script functions, their environments, and what they are looked for by.

pub use rhai_functions::environ::environ_of;
pub use rhai_functions::key::FnKey;
pub use rhai_functions::metadata::{ScriptFnMetadata, metadata_of};
pub use rhai_tree::function::{FnAccess, ScriptFuncDef, ScriptFuncPayload};
pub use rhai_values::base::value::EncapsulatedEnviron;
