//! Parts that are expressions.

use crate::making::Making;
use crate::parts::Part;
use crate::read::statements::add_statement;
use crate::read::words::Words;

/// Adds the part of the words: a constant, a property, a variable, or what another function reads.
pub(super) fn add_constant(words: &mut Words<'_>, making: &mut Making) {
    let word = words.word();
    let part = match word {
        "int" => Part::Int(words.integer(), words.column()),
        "true" => Part::Truth(true, words.column()),
        "false" => Part::Truth(false, words.column()),
        "unit" => Part::Unit(words.column()),
        "this" => Part::This(words.column()),
        "always" => Part::Always,
        "text" => Part::Text(words.name(), words.column()),
        "property" => Part::Property(words.name(), words.column()),
        "variable" => Part::Variable(words.name(), words.count(), words.column()),
        "pointer" => Part::Pointer(words.name(), words.count(), words.column()),
        _ => return add_operation(word, words, making),
    };
    making.add(part);
}

/// Adds an expression that is made of others.
fn add_operation(word: &str, words: &mut Words<'_>, making: &mut Making) {
    let part = match word {
        "array" => Part::Array(words.count(), words.column()),
        "and" => Part::And(words.column()),
        "coalesce" => Part::Coalesce(words.column()),
        "operator" => Part::Operator(words.operator(), words.column()),
        "call" => Part::Call(words.name(), words.count(), words.column()),
        "method" => Part::Method(words.name(), words.count(), words.column()),
        "dot" => Part::Dot(words.column()),
        "dot-at-end" => Part::DotAtEnd(words.column()),
        "index" => Part::Index(words.column()),
        "index-on" => Part::IndexOn(words.column()),
        "block-value" => Part::BlockValue,
        _ => return add_statement(word, words, making),
    };
    making.add(part);
}
