//! Operators.

ghost use Rattle.std.specs.Prelude.{◌≡◌};
ghost use Rattle.rhai_tree.specs.Tokens.{syntax_of};

/// An operator. Ports the operators among upstream's `Token`.
#[derive(Clone, Copy, Debug, PartialEq, Eq)]
pub enum Token {
    Plus,
    Minus,
    UnaryMinus,
    Multiply,
    Divide,
    Modulo,
    PowerOf,
    LeftShift,
    RightShift,
    Ampersand,
    Pipe,
    XOr,
    Bang,
    EqualsTo,
    NotEqualsTo,
    LessThan,
    LessThanEqualsTo,
    GreaterThan,
    GreaterThanEqualsTo,
    ExclusiveRange,
    InclusiveRange,
}

impl Token {
    /// Returns the operator as it is written. Ports upstream's `Token::literal_syntax`.
    pub fn as_str(self) -> &'static str
        ensures { result.now ≡ syntax_of self }
    {
        match self {
            Token::Plus => "+",
            Token::Minus => "-",
            Token::UnaryMinus => "-",
            Token::Multiply => "*",
            Token::Divide => "/",
            Token::Modulo => "%",
            Token::PowerOf => "**",
            Token::LeftShift => "<<",
            Token::RightShift => ">>",
            Token::Ampersand => "&",
            Token::Pipe => "|",
            Token::XOr => "^",
            Token::Bang => "!",
            Token::EqualsTo => "==",
            Token::NotEqualsTo => "!=",
            Token::LessThan => "<",
            Token::LessThanEqualsTo => "<=",
            Token::GreaterThan => ">",
            Token::GreaterThanEqualsTo => ">=",
            Token::ExclusiveRange => "..",
            Token::InclusiveRange => "..=",
        }
    }
}
