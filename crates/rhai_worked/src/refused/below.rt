//! The calls below the evaluator that lines make with their requests for memory refused.

use rhai_eval_base::base::{Dynamic, Items, Scope, Shared, Text, Token, Union};
use rhai_eval_base::table::builtin_unary;
use rhai_functions::entering::push_parameters;
use rhai_rows::attempt::Attempt;
use rhai_rows::outcome::Ending;
use rhai_rows::sheet::Sheet;
use rhai_tables::host::Pair;

/// Tells what `builtin_unary` answers for the minus before an integer.
pub fn tell_minus(number: &str, attempt: &mut Attempt, sheet: &mut Sheet) {
    let alloc = sheet.maker.allocator();
    let operand: Dynamic<Pair> = int(number.parse().unwrap_or(0));
    attempt.begin(alloc);
    let answer = builtin_unary(alloc, Token::UnaryMinus, &operand);
    attempt.end(alloc);
    match answer {
        Some(answer) => {
            let ending = match answer {
                Ok(value) => Ending::Value(value),
                Err(error) => Ending::Error(error),
            };
            sheet.end(&ending);
            drop(ending);
        }
        None => sheet.write("none"),
    }
    drop(operand);
}

/// Tells what `push_parameters` leaves above the variable `x` with 1: the names are words, and each that is an integer is an
/// argument.
pub fn tell_parameters(words: &str, attempt: &mut Attempt, sheet: &mut Sheet) {
    let alloc = sheet.maker.allocator();
    let mut scope: Scope<Pair> = Scope::new(alloc);
    let mut names: Items<Shared<Text>> = Items::new(alloc);
    let mut args: Items<Dynamic<Pair>> = Items::new(alloc);
    sheet.maker.declare(&mut scope, "x", int(1));
    for word in words.split(' ') {
        match word.parse() {
            Ok(number) => sheet.maker.push(&mut args, int(number)),
            Err(_) => push_name(word, &mut names, sheet),
        }
    }
    attempt.begin(alloc);
    let pushed = push_parameters(&mut scope, names.as_slice(), args.as_mut_slice());
    attempt.end(alloc);
    sheet.write(if pushed.is_ok() {
        "ok; "
    } else {
        "no memory; "
    });
    sheet.variables(0, &scope);
    for arg in args.as_slice() {
        sheet.write(" ");
        sheet.value(arg);
    }
    drop(scope);
    drop(names);
    drop(args);
}

/// Makes an integer.
fn int(number: i64) -> Dynamic<Pair> {
    Dynamic::new(Union::Int(number))
}

/// Adds a name to those of the parameters.
fn push_name(word: &str, names: &mut Items<Shared<Text>>, sheet: &mut Sheet) {
    if let Some(name) = sheet.maker.name(word) {
        sheet.maker.push(names, name);
    }
}
