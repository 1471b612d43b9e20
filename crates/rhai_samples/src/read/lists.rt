//! Parts with lists of any length, which stand behind their columns.

use crate::making::Making;
use crate::parts::Part;
use crate::read::words::Words;
use rhai_tree::flags::ASTFlags;

/// Adds a path, a map, a function, what closures share, a `let` with options or a `switch`.
pub(super) fn add_list(word: &str, words: &mut Words<'_>, making: &mut Making) {
    match word {
        "path" => add_path(words, making),
        "map" => add_map(words, making),
        "map-like" => add_map_like(words, making),
        "function" => add_function(words, making),
        "share" => add_share(words, making),
        "overwrite" => add_overwrite(words, making),
        "switch" => add_switch(words, making),
        _ => words.want("a part of a tree"),
    }
}

fn add_path(words: &mut Words<'_>, making: &mut Making) {
    let index = words.count();
    let column = words.column();
    let names = names(words);
    making.add(Part::Path(names.as_slice(), index, column));
}

fn add_map(words: &mut Words<'_>, making: &mut Making) {
    let column = words.column();
    let names = names(words);
    making.add(Part::Map(names.as_slice(), column));
}

/// Adds a map whose template has the first name alone.
fn add_map_like(words: &mut Words<'_>, making: &mut Making) {
    let key = words.name();
    let column = words.column();
    let names = names(words);
    making.add(Part::MapLike(key, names.as_slice(), column));
}

fn add_function(words: &mut Words<'_>, making: &mut Making) {
    let name = words.name();
    let params = names(words);
    making.add(Part::Function(name, params.as_slice()));
}

fn add_share(words: &mut Words<'_>, making: &mut Making) {
    let shared = shared_variables(words);
    making.add(Part::Share(shared.as_slice()));
}

fn add_overwrite(words: &mut Words<'_>, making: &mut Making) {
    let name = words.name();
    let at_name = words.column();
    let offset = words.count();
    let column = words.column();
    let options = options(words);
    making.add(Part::Overwrite(name, at_name, offset, options.as_slice(), column));
}

/// Adds a `switch` over integers: how many results it has, the number of its default or `-`, its column, and cases.
fn add_switch(words: &mut Words<'_>, making: &mut Making) {
    let count = words.count();
    let default = words.number_or_none();
    let column = words.column();
    let cases = cases(words);
    making.add_integer_switch(count, cases.as_slice(), default, column);
}

/// Reads the names that are left.
fn names<'a>(words: &mut Words<'a>) -> Vec<&'a str> {
    let mut names = words.no_items();
    for word in words.all().split_whitespace() {
        let name = words.name_in(word);
        words.push(&mut names, name);
    }
    names
}

/// Reads what closures share, as `x:1:20` for `x` at the offset 1 and the column 20.
fn shared_variables<'a>(words: &mut Words<'a>) -> Vec<(&'a str, usize, u16)> {
    let mut shared = words.no_items();
    for word in words.all().split_whitespace() {
        let (name, place) = word.split_once(':').unwrap_or((word, ""));
        let (offset, column) = place.split_once(':').unwrap_or((place, ""));
        let name = words.name_in(name);
        let offset = words.count_in(offset);
        let column = words.column_in(column);
        words.push(&mut shared, (name, offset, column));
    }
    shared
}

/// Reads the options of a `let`.
fn options(words: &mut Words<'_>) -> Vec<ASTFlags> {
    let mut options = words.no_items();
    for word in words.all().split_whitespace() {
        let option = words.option_in(word);
        words.push(&mut options, option);
    }
    options
}

/// Reads cases, as `5:0` for the integer 5 with the result of the number 0, and `5` for one without a result.
fn cases(words: &mut Words<'_>) -> Vec<(i64, Option<usize>)> {
    let mut cases = words.no_items();
    for word in words.all().split_whitespace() {
        let case = match word.split_once(':') {
            Some((value, number)) => (words.integer_in(value), Some(words.count_in(number))),
            None => (words.integer_in(word), None),
        };
        words.push(&mut cases, case);
    }
    cases
}
