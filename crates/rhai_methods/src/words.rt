//! The names that are no function's where they are called as methods.

ghost use Rattle.std.specs.Prelude.{◌≡◌, ◌&&◌, nat_eq, codes};
ghost use Rattle.std.specs.Str.{bytes_eq};
ghost use Rattle.rhai_machine.specs.language.Methods.{word_of};
ghost use Rattle.rhai_methods.specs.Words.{machine_word};

/// What a method's name means.
#[derive(Clone, Copy, Debug, PartialEq, Eq)]
pub enum MethodWord {
    /// `call`: a pointer is called.
    Call,
    /// `curry`: a pointer gets more arguments.
    Curry,
    /// `is_shared` with no arguments: whether a value is the handle of a cell.
    Shared,
    /// Any other name.
    Plain,
}

/// Tells what a method's name means with so many arguments. It takes no memory.
pub fn word_of(name: &str, count: usize) -> MethodWord
    ensures { machine_word result ≡ word_of name.now count }
{
    if name == "call" {
        return MethodWord::Call;
    }
    if name == "curry" {
        return MethodWord::Curry;
    }
    if name == "is_shared" && count == 0 {
        return MethodWord::Shared;
    }
    MethodWord::Plain
}
