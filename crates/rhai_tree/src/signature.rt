//! How a function is written without its body. Ports what upstream's `Display` of a function and that of its
//! metadata share. The contracts cite specs/Signatures.antt.

ghost use Rattle.std.specs.Prelude.{◌≡◌, ◌++◌, List, ℕ, map};
ghost use Rattle.std.specs.Option.{option_copied};
ghost use Rattle.std.specs.List.{flat_map, join_by};
ghost use Rattle.std.specs.Fmt.{comma_space, DisplaysOnOk, WritesOnOk};
ghost use Rattle.rhai_tree.specs.Signatures.{access_text, params_text, signature_text, this_text};

use crate::function::FnAccess;
use crate::{Shared, Text};
use std::fmt;
use std::fmt::{Formatter, Write};

/// The name of a parameter, as a list of parameters has it.
pub trait ParamName {
    /// The bytes of the name.
    ghost bytes_of: { Self → List ℕ };

    /// Lends the name.
    fn as_name(&self) -> &str
        ensures { result.now ≡ bytes_of self.now };
}

impl ParamName for Shared<Text> {
    ghost bytes_of = { λ name. name };

    fn as_name(&self) -> &str {
        self.get().as_str()
    }
}

impl ParamName for &str {
    ghost bytes_of = { λ name. name.now };

    fn as_name(&self) -> &str {
        self
    }
}

/// Writes a function without its body. This is `private ` where it is private, the type that its `this`
/// must have, in quotes, with a dot behind it, its name, and its parameters in round brackets.
pub fn write_signature<P: ParamName, W: Write>(
    access: FnAccess,
    this_type: Option<&str>,
    name: &str,
    params: &[P],
    f: &mut Formatter<W>,
) -> fmt::Result
    ensures { DisplaysOnOk W.write_str_gives f.old result (signature_text access
        (option_copied this_type.entry) name.now (map P.bytes_of params.now)) f.new }
{
    write_access(access, f)?;
    write_this_type(this_type, f)?;
    f.write_str(name)?;
    write_params(params, f)
}

/// Writes who may call a function.
fn write_access<W: Write>(access: FnAccess, f: &mut Formatter<W>) -> fmt::Result
    ensures { WritesOnOk W.write_str_gives f.old result (access_text access) f.new }
{
    f.write_str(match access {
        FnAccess::Private => "private ",
        FnAccess::Public => "",
    })
}

/// Writes the type that a function's `this` must have, if any.
fn write_this_type<W: Write>(this_type: Option<&str>, f: &mut Formatter<W>) -> fmt::Result
    ensures { DisplaysOnOk W.write_str_gives f.old result (this_text (option_copied this_type.entry)) f.new }
{
    match this_type {
        Some(name) => write!(f, "{name:?}."),
        None => Ok(()),
    }
}

/// Writes parameters in round brackets.
fn write_params<P: ParamName, W: Write>(params: &[P], f: &mut Formatter<W>) -> fmt::Result
    ensures { WritesOnOk W.write_str_gives f.old result (params_text (map P.bytes_of params.now)) f.new }
{
    f.write_str("(")?;
    write_joined(params, f)?;
    f.write_str(")")
}

/// Writes names with commas between them.
fn write_joined<P: ParamName, W: Write>(names: &[P], f: &mut Formatter<W>) -> fmt::Result
    ensures { WritesOnOk W.write_str_gives f.old result (join_by P.bytes_of comma_space names.now) f.new }
{
    match names {
        [] => Ok(()),
        [first, rest @ ..] => {
            f.write_str(first.as_name())?;
            write_more(rest, f)
        }
    }
}

/// Writes names, each behind a comma.
fn write_more<P: ParamName, W: Write>(names: &[P], f: &mut Formatter<W>) -> fmt::Result
    ensures { WritesOnOk W.write_str_gives f.old result
        (flat_map (λ name. comma_space ++ P.bytes_of name) names.now) f.new }
{
    for name in names {
        f.write_str(", ")?;
        f.write_str(name.as_name())?;
    }
    Ok(())
}
