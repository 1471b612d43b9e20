//! The names that mean no function.

ghost use Rattle.std.specs.Prelude.{◌≡◌, ◌&&◌, nat_eq, nat_le, codes};
ghost use Rattle.std.specs.Option.{option_map};
ghost use Rattle.std.specs.Str.{bytes_eq};
ghost use Rattle.rhai_machine.specs.language.Arguments.{keyword_named, keyword_of};
ghost use Rattle.rhai_call_forms.specs.Keywords.{word_of};

use rhai_tree::token::Token;

/// The words by which a call is no function's.
#[derive(Clone, Copy, Debug, PartialEq, Eq)]
pub enum Keyword {
    /// `call`: a pointer is called.
    CallPointer,
    /// `Fn`: a pointer is made of a name.
    MakePointer,
    /// `curry`: a pointer gets more arguments.
    Curry,
    /// `is_shared`: whether a value is the handle of a cell.
    IsShared,
    /// `is_def_var`: whether there is a variable of a name.
    IsDefinedVariable,
}

/// Finds the keyword of a name with so many arguments.
fn keyword_named(name: &str, count: usize) -> Option<Keyword>
    ensures { option_map word_of result ≡ keyword_named name.now count }
{
    if name == "call" && count >= 1 {
        return Some(Keyword::CallPointer);
    }
    if name == "Fn" && count == 1 {
        return Some(Keyword::MakePointer);
    }
    if name == "curry" && count >= 2 {
        return Some(Keyword::Curry);
    }
    if name == "is_shared" && count == 1 {
        return Some(Keyword::IsShared);
    }
    if name == "is_def_var" && count == 1 {
        return Some(Keyword::IsDefinedVariable);
    }
    None
}

/// Finds the keyword that a call is of, by its name, its operator and the number of its arguments. None where
/// it is a call of a function: what was written as an operator is no keyword. It takes no memory.
pub fn keyword_of(name: &str, op_token: Option<Token>, count: usize) -> Option<Keyword>
    ensures { option_map word_of result ≡ keyword_of op_token name.now count }
{
    match op_token {
        Some(_) => None,
        None => keyword_named(name, count),
    }
}
