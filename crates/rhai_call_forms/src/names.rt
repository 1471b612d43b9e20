//! The names that a pointer can be made of.

ghost use Rattle.std.specs.Prelude.{◌≡◌};
ghost use Rattle.std.specs.List.{list_all};
ghost use Rattle.rhai_machine.specs.language.Arguments.{is_identifier, is_identifier_char, is_letter};
ghost use Rattle.rhai_machine.specs.language.Arguments.{is_operator, is_pointer_name, natives_alone};

/// Tells whether a byte is an ASCII letter.
fn is_letter(byte: u8) -> bool
    ensures { result ≡ is_letter byte }
{
    byte.is_ascii_alphabetic()
}

/// Tells whether a byte is one of an identifier: an ASCII letter, an underscore or a digit.
fn is_identifier_byte(byte: u8) -> bool
    ensures { result ≡ is_identifier_char byte }
{
    is_letter(byte) || byte == b'_' || byte.is_ascii_digit()
}

/// Tells whether all bytes are of an identifier.
fn all_of_identifier(bytes: &[u8]) -> bool
    ensures { result ≡ list_all is_identifier_char bytes.now }
{
    bytes.iter().all(|byte| is_identifier_byte(*byte))
}

/// Tells whether some bytes are an identifier: underscores, a letter, and then letters, digits and
/// underscores.
fn is_identifier(bytes: &[u8]) -> bool
    ensures { result ≡ is_identifier bytes.now }
{
    for (i, byte) in bytes.iter().enumerate() {
        if *byte != b'_' {
            return is_letter(*byte) && all_of_identifier(&bytes[i + 1..]);
        }
    }
    false
}

/// Tells whether a name is an operator as it is written.
fn is_operator(name: &str) -> bool
    ensures { result ≡ is_operator name.now }
{
    matches!(
        name,
        "+" | "-"
            | "*"
            | "/"
            | "%"
            | "**"
            | "<<"
            | ">>"
            | "&"
            | "|"
            | "^"
            | "!"
            | "=="
            | "!="
            | "<"
            | "<="
            | ">"
            | ">="
            | ".."
            | "..="
    )
}

/// Tells whether a pointer can be made of a name: it is an identifier or an operator.
pub fn is_pointer_name(name: &str) -> bool
    ensures { result ≡ is_pointer_name name.now }
{
    is_identifier(name.as_bytes()) || is_operator(name)
}

/// Tells whether natives alone are asked for a pointer's name. It is no identifier then, and none of a
/// function without a name.
pub fn natives_alone(name: &str) -> bool
    ensures { result ≡ natives_alone name.now }
{
    !is_identifier(name.as_bytes()) && !name.starts_with("anon$")
}
