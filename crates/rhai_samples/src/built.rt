//! Trees that the builder makes, so that each of its functions but `do_while` makes a part of a tree that is run.

use rhai_build::Builder;
use rhai_build::choices::{result_always, result_if, throw_stmt, try_catching, try_stmt};
use rhai_build::expressions::{MapParts, character, int, this, truth, unit};
use rhai_build::functions::{TreeParts, script_function};
use rhai_build::statements::{
    assign, break_stmt, continue_stmt, do_until, if_stmt, loop_stmt, no_block, return_stmt,
    while_stmt,
};
use rhai_tree::Items;
use rhai_tree::expr::{Expr, RangeCase, Stmt, StmtBlock};
use rhai_tree::flags::ASTFlags;
use rhai_tree::function::{FnAccess, ScriptFuncDef};
use rhai_tree::literal::Literal;
use rhai_tree::token::Token;
use std::alloc::{AllocError, Global};

/// Builds `try { throw 42; } catch (e) { e }`.
pub fn thrown_value_caught(alloc: Global) -> Result<Items<Stmt>, AllocError> {
    let mut tree = Builder::new(alloc);
    let body = tree.block([throw_stmt(Some(int(42, 13)), 7)], 5, 17);
    let caught = tree.variable("e", 0, 26);
    let e = tree.variable("e", 1, 31);
    let branch = tree.block([Stmt::Expr(e)], 29, 33);
    tree.finish([try_catching(body, caught, branch, 1)])
}

/// Builds `let x = 1; let f = || { x += 1; x }; x.call(f)`.
pub fn closure_on_its_variable(alloc: Global) -> Result<TreeParts, AllocError> {
    let mut tree = Builder::new(alloc);
    define_closure(&mut tree);
    let start = tree.let_stmt("x", 5, int(1, 9), 1);
    let shared = tree.share("x", 1, 25);
    let args = [tree.pointer("anon$1", 1, 20), tree.variable("x", 1, 25)];
    let curried = tree.call("curry", 20, args);
    let closure = Expr::Stmt(tree.block([shared, Stmt::Expr(curried)], 20, 35));
    let f = tree.let_stmt("f", 16, closure, 12);
    let x = tree.variable("x", 2, 38);
    let method = [tree.variable("f", 1, 45)];
    let method = tree.method("call", 40, method);
    let called = tree.dot(x, 39, method);
    tree.finish_with_functions([start, f, Stmt::Expr(called)])
}

/// Defines the function of that closure.
fn define_closure(tree: &mut Builder) {
    let x = tree.variable("x", 1, 25);
    let added = assign(Some(Token::Plus), 27, x, int(1, 30));
    let x = tree.variable("x", 1, 33);
    let body = tree.block([added, Stmt::Expr(x)], 23, 35);
    tree.function("anon$1", &["x"], body);
}

/// Builds `let x = loop { break 7; }; x + 1`.
pub fn value_of_a_loop(alloc: Global) -> Result<Items<Stmt>, AllocError> {
    let mut tree = Builder::new(alloc);
    let body = tree.block([break_stmt(Some(int(7, 22)), 16)], 14, 25);
    let value = Expr::Stmt(tree.block([loop_stmt(body, 9)], 9, 25));
    let start = tree.let_stmt("x", 5, value, 1);
    let x = tree.variable("x", 1, 28);
    let sum = tree.operator(Token::Plus, "+", 30, [x, int(1, 32)]);
    tree.finish([start, Stmt::Expr(sum)])
}

/// Builds `const C = 1; C = 2;`.
pub fn assignment_to_constant(alloc: Global) -> Result<Items<Stmt>, AllocError> {
    let mut tree = Builder::new(alloc);
    let declared = tree.const_stmt("C", 7, int(1, 11), 1);
    let c = tree.variable("C", 1, 14);
    tree.finish([declared, assign(None, 16, c, int(2, 18))])
}

/// Builds `let x = (); x?.foo`.
pub fn property_of_unit(alloc: Global) -> Result<Items<Stmt>, AllocError> {
    let mut tree = Builder::new(alloc);
    let x = tree.let_stmt("x", 5, unit(9), 1);
    let object = tree.variable("x", 1, 13);
    let name = tree.property("foo", 16);
    let found = tree.dot_unless_unit(object, 14, name);
    tree.finish([x, Stmt::Expr(found)])
}

/// Builds a `switch` over `true`.
/// It is `switch v { "hello" => 10, 'x' => 20, true => 30, _ => 99 }`, with `true` instead of `v`.
pub fn truth_chosen(alloc: Global) -> Result<Items<Stmt>, AllocError> {
    let mut tree = Builder::new(alloc);
    let text = tree.text_case("hello");
    let results = [
        result_always(int(10, 23)),
        result_always(int(20, 34)),
        result_always(int(30, 46)),
        result_always(int(99, 55)),
    ];
    let cases = [
        tree.case(text, [0]),
        tree.case(Literal::Char('x'), [1]),
        tree.case(Literal::Bool(true), [2]),
    ];
    let choice = tree.switch_stmt(truth(true, 8), results, cases, [], Some(3), 1);
    tree.finish([choice])
}

/// Builds `switch 5 { 5 if false => 1, 0..9 => 2, _ => 3 }`.
pub fn range_after_a_case(alloc: Global) -> Result<Items<Stmt>, AllocError> {
    let mut tree = Builder::new(alloc);
    let results = [
        result_if(truth(false, 17), int(1, 26)),
        result_always(int(2, 37)),
        result_always(int(3, 45)),
    ];
    let cases = [tree.case(Literal::Int(5), [0])];
    let ranges = [RangeCase::ExclusiveInt(0, 9, 1)];
    let choice = tree.switch_stmt(int(5, 8), results, cases, ranges, Some(2), 1);
    tree.finish([choice])
}

/// Builds `` `a${1}b` ``.
pub fn joined_parts(alloc: Global) -> Result<Items<Stmt>, AllocError> {
    let mut tree = Builder::new(alloc);
    let first = tree.text("a", 2);
    let number = Expr::Stmt(tree.block([Stmt::Expr(int(1, 5))], 4, 6));
    let last = tree.text("b", 7);
    let text = tree.interpolated(1, [first, number, last]);
    tree.finish([Stmt::Expr(text)])
}

/// Builds `[1, "x", #{k: 'c'}]`.
pub fn items_of_three_types(alloc: Global) -> Result<Items<Stmt>, AllocError> {
    let mut tree = Builder::new(alloc);
    let mut map = MapParts::new(alloc);
    tree.entry(&mut map, "k", character('c', 15));
    let text = tree.text("x", 5);
    let items = tree.array(1, [int(1, 2), text, map.map(10)]);
    tree.finish([Stmt::Expr(items)])
}

/// Builds `fn bump(n) { x += n; } let x = 1; bump!(4); x`.
pub fn variable_of_the_caller_increased(alloc: Global) -> Result<TreeParts, AllocError> {
    let mut tree = Builder::new(alloc);
    let x = tree.variable("x", 0, 14);
    let n = tree.variable("n", 1, 19);
    let body = tree.block([assign(Some(Token::Plus), 16, x, n)], 12, 22);
    tree.function("bump", &["n"], body);
    let x = tree.let_stmt("x", 28, int(1, 32), 24);
    let call = tree.capturing_call("bump", 35, [int(4, 41)]);
    let last = tree.variable("x", 1, 45);
    tree.finish_with_functions([x, Stmt::Expr(call), Stmt::Expr(last)])
}

/// Builds `let v = 5; let t = "a"; v.kind() * 10 + t.kind()`. There `kind` of an integer answers 1, and of
/// any other value 2.
pub fn functions_for_types(alloc: Global) -> Result<TreeParts, AllocError> {
    let mut tree = Builder::new(alloc);
    define_kinds(&mut tree);
    let v = tree.let_stmt("v", 5, int(5, 9), 1);
    let text = tree.text("a", 20);
    let t = tree.let_stmt("t", 16, text, 12);
    let tens = tens_of_a_kind(&mut tree);
    let second = tree.variable("t", 1, 41);
    let method = tree.method("kind", 43, []);
    let second = tree.dot(second, 42, method);
    let sum = tree.operator(Token::Plus, "+", 39, [tens, second]);
    tree.finish_with_functions([v, t, Stmt::Expr(sum)])
}

/// Defines both functions of the name `kind`.
fn define_kinds(tree: &mut Builder) {
    let body = tree.block([Stmt::Expr(int(1, 1))], 1, 1);
    tree.define_on("i64", "kind", &[], body);
    let body = tree.block([Stmt::Expr(int(2, 1))], 1, 1);
    tree.function("kind", &[], body);
}

/// Makes `v.kind() * 10`.
fn tens_of_a_kind(tree: &mut Builder) -> Expr {
    let v = tree.variable("v", 2, 25);
    let method = tree.method("kind", 27, []);
    let kind = tree.dot(v, 26, method);
    tree.operator(Token::Multiply, "*", 34, [kind, int(10, 36)])
}

/// Builds a private function `f` of integers with the parameters `a` and `b`, and without statements.
pub fn private_function(alloc: Global) -> Result<ScriptFuncDef, AllocError> {
    let body = no_block(alloc);
    script_function(
        alloc,
        FnAccess::Private,
        Some("i64"),
        "f",
        &["a", "b"],
        body,
    )
}

/// Builds a `do` with a `continue` in its body.
/// It is `let n = 0; do { n += 1; if n < 5 { continue; } } until n >= 1; n`.
pub fn continued_until(alloc: Global) -> Result<Items<Stmt>, AllocError> {
    let mut tree = Builder::new(alloc);
    let start = tree.let_stmt("n", 5, int(0, 9), 1);
    let body = counted_and_continued(alloc, &mut tree);
    let enough = [tree.variable("n", 1, 56), int(1, 61)];
    let enough = tree.operator(Token::GreaterThanEqualsTo, ">=", 58, enough);
    let n = Stmt::Expr(tree.variable("n", 1, 64));
    tree.finish([start, do_until(body, enough, 12), n])
}

/// Makes the body of that `do`.
fn counted_and_continued(alloc: Global, tree: &mut Builder) -> StmtBlock {
    let n = tree.variable("n", 1, 17);
    let counted = assign(Some(Token::Plus), 19, n, int(1, 22));
    let few = [tree.variable("n", 1, 28), int(5, 32)];
    let few = tree.operator(Token::LessThan, "<", 30, few);
    let next = tree.block([continue_stmt(36)], 34, 46);
    let next = if_stmt(few, next, no_block(alloc), 25);
    tree.block([counted, next], 15, 48)
}

/// Builds `return 5; 6`.
pub fn return_at_the_top(alloc: Global) -> Result<Items<Stmt>, AllocError> {
    let returned = return_stmt(Some(int(5, 8)), 1);
    Builder::new(alloc).finish([returned, Stmt::Expr(int(6, 11))])
}

/// Builds `true || 1`.
pub fn true_or_integer(alloc: Global) -> Result<Items<Stmt>, AllocError> {
    let mut tree = Builder::new(alloc);
    let either = tree.or(6, [truth(true, 1), int(1, 9)]);
    tree.finish([Stmt::Expr(either)])
}

/// Builds `1 && true`.
pub fn integer_and_true(alloc: Global) -> Result<Items<Stmt>, AllocError> {
    let mut tree = Builder::new(alloc);
    let both = tree.and(3, [int(1, 1), truth(true, 6)]);
    tree.finish([Stmt::Expr(both)])
}

/// Builds a loop that decrements a number to zero.
/// It is `let n = 1000000; while n > 0 { n -= 1; }`, with `turns` instead of the million.
pub fn decrements(alloc: Global, turns: i64) -> Result<Items<Stmt>, AllocError> {
    let mut tree = Builder::new(alloc);
    let start = tree.let_stmt("n", 5, int(turns, 9), 1);
    let turns = decremented_to_zero(&mut tree);
    tree.finish([start, turns])
}

/// Makes the loop itself.
fn decremented_to_zero(tree: &mut Builder) -> Stmt {
    let left = [tree.variable("n", 1, 24), int(0, 28)];
    let left = tree.operator(Token::GreaterThan, ">", 26, left);
    let n = tree.variable("n", 1, 32);
    let counted = assign(Some(Token::Minus), 34, n, int(1, 37));
    let body = tree.block([counted], 30, 40);
    while_stmt(left, body, 18)
}

/// Builds `() ?? 5`.
pub fn unit_or_integer(alloc: Global) -> Result<Items<Stmt>, AllocError> {
    let mut tree = Builder::new(alloc);
    let first = tree.coalesce(4, [unit(1), int(5, 7)]);
    tree.finish([Stmt::Expr(first)])
}

/// Builds `x.a.b`, whose first dot says that the chain ends there.
pub fn dot_that_ends_and_goes_on(alloc: Global) -> Result<Items<Stmt>, AllocError> {
    let mut tree = Builder::new(alloc);
    let x = tree.variable("x", 0, 1);
    let first = tree.property("a", 3);
    let second = tree.property("b", 5);
    let rest = tree.dot(first, 4, second);
    let chain = tree.dot_with(x, 2, rest, ASTFlags::BREAK);
    tree.finish([Stmt::Expr(chain)])
}

/// Builds `x.f()`, with a module in front of the method's name.
pub fn method_of_a_module(alloc: Global) -> Result<Items<Stmt>, AllocError> {
    let mut tree = Builder::new(alloc);
    let x = tree.variable("x", 0, 1);
    let method = tree.qualified_method("m", "f", 3);
    let chain = tree.dot(x, 2, method);
    tree.finish([Stmt::Expr(chain)])
}

/// Builds a method that changes an item and throws.
/// It is `fn f() { this += 1; throw 0; } let a = [1]; try { a[0].f(); } catch {} a[0]`.
pub fn method_that_throws(alloc: Global) -> Result<TreeParts, AllocError> {
    let mut tree = Builder::new(alloc);
    let added = assign(Some(Token::Plus), 15, this(10), int(1, 18));
    let body = tree.block([added, throw_stmt(Some(int(0, 27)), 21)], 8, 30);
    tree.function("f", &[], body);
    let items = tree.array(40, [int(1, 41)]);
    let declared = tree.let_stmt("a", 36, items, 32);
    let tried = tried_on_an_item(&mut tree);
    let a = tree.variable("a", 1, 72);
    let item = tree.index(a, 73, int(0, 74));
    tree.finish_with_functions([declared, tried, Stmt::Expr(item)])
}

/// Makes the `try` with that method on an item.
fn tried_on_an_item(tree: &mut Builder) -> Stmt {
    let a = tree.variable("a", 1, 51);
    let method = tree.method("f", 56, []);
    let rest = tree.dot(int(0, 53), 55, method);
    let called = tree.index_on(a, 52, rest);
    let body = tree.block([Stmt::Expr(called)], 49, 61);
    let branch = tree.block([], 69, 70);
    try_stmt(body, branch, 45)
}

/// Builds a `for` that sums up items with their counter.
/// It is `let s = 0; for (v, i) in [5, 6] { s += v * 10 + i; } s`.
pub fn items_and_counter_summed(alloc: Global) -> Result<Items<Stmt>, AllocError> {
    let mut tree = Builder::new(alloc);
    let start = tree.let_stmt("s", 5, int(0, 9), 1);
    let items = tree.array(26, [int(5, 27), int(6, 30)]);
    let body = item_and_counter_added(&mut tree);
    let walk = tree.for_counted("v", 17, "i", 20, items, body, 12);
    let s = tree.variable("s", 1, 54);
    tree.finish([start, walk, Stmt::Expr(s)])
}

/// Makes the body of that `for`.
fn item_and_counter_added(tree: &mut Builder) -> StmtBlock {
    let s = tree.variable("s", 3, 35);
    let v = tree.variable("v", 1, 40);
    let tens = tree.operator(Token::Multiply, "*", 42, [v, int(10, 44)]);
    let i = tree.variable("i", 2, 49);
    let sum = tree.operator(Token::Plus, "+", 47, [tens, i]);
    let assigned = assign(Some(Token::Plus), 37, s, sum);
    tree.block([assigned], 33, 52)
}

/// Builds `for x in 5 {}`.
pub fn integer_walked(alloc: Global) -> Result<Items<Stmt>, AllocError> {
    let mut tree = Builder::new(alloc);
    let body = tree.block([], 12, 13);
    let walk = tree.for_stmt("x", 5, int(5, 10), body, 1);
    tree.finish([walk])
}
