//! The built-in operators.

use crate::host::Stone;
use crate::reader::Reader;
use crate::sheet::Sheet;
use rhai_errors::error::EvalAltResult;
use rhai_operators::{builtin_binary, builtin_op_assign, builtin_unary};
use rhai_tree::token::Token;
use rhai_values::base::value::Dynamic;

/// What an operator answers: nothing where it has no built-in for its operands.
type Answer = Option<Result<Dynamic<Stone>, EvalAltResult<Stone>>>;

/// The operators, each of them written as scripts write it.
const OPERATORS: [Token; 20] = [
    Token::Plus,
    Token::Minus,
    Token::Multiply,
    Token::Divide,
    Token::Modulo,
    Token::PowerOf,
    Token::LeftShift,
    Token::RightShift,
    Token::Ampersand,
    Token::Pipe,
    Token::XOr,
    Token::Bang,
    Token::EqualsTo,
    Token::NotEqualsTo,
    Token::LessThan,
    Token::LessThanEqualsTo,
    Token::GreaterThan,
    Token::GreaterThanEqualsTo,
    Token::ExclusiveRange,
    Token::InclusiveRange,
];

/// Writes what an operator answers for its operands: a value, an error, or `none`. The call is `binary OP X
/// Y`, `unary OP X` or `assign OP X Y`.
pub fn answer(line: &mut Reader<'_>, out: &mut Sheet) {
    let form = line.word();
    let op = operator(line);
    let x = line.value();
    let found = apply_operator(line, form, op, &x);
    drop(x);
    match found {
        Some(found) => out.tell(found),
        None => out.write("none"),
    }
}

/// Applies an operator to an operand, and to the next one where the form has two.
fn apply_operator(line: &mut Reader<'_>, form: &str, op: Token, x: &Dynamic<Stone>) -> Answer {
    let alloc = line.allocator();
    match form {
        "unary" => builtin_unary(alloc, op, x),
        "binary" => {
            let y = line.value();
            let found = builtin_binary(alloc, op, x, &y);
            drop(y);
            found
        }
        "assign" => {
            let y = line.value();
            let found = builtin_op_assign(alloc, op, x, &y);
            drop(y);
            found
        }
        _ => {
            line.want("binary, unary or assign");
            None
        }
    }
}

/// Reads the next operator. `negate` is the minus before one operand.
pub fn operator(line: &mut Reader<'_>) -> Token {
    let word = line.word();
    if word == "negate" {
        return Token::UnaryMinus;
    }
    let op = OPERATORS.iter().copied().find(|op| op.as_str() == word);
    match op {
        Some(op) => op,
        None => {
            line.want("an operator");
            Token::Plus
        }
    }
}
