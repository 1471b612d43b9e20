//! A host with values and natives of its own: amounts of money, and a script over a price, run under two limits.

use crate::money::{Money, MoneyNatives};
use rhai::{
    AccessMode, Boxed, Builder, Caches, CheckedTree, Dynamic, Engine, GlobalRuntimeState, Items,
    Natives, Scope, Stmt, Token, Union, assign, check_tree,
};
use std::alloc::{AllocError, Global};
use std::io;

/// Builds the script, checks it, and runs it twice.
pub fn run_prices(rt: &HostRuntime) -> io::Result<()> {
    match check_tree(rt.alloc(), script(rt.alloc())?, Items::new(rt.alloc())) {
        Ok(tree) => {
            run(rt, &tree, 100)?;
            run(rt, &tree, 10)
        }
        Err(fault) => println!(rt; "refused: {fault}"),
    }
}

/// Builds `let total = price + price; total += price; total - price`.
fn script(alloc: Global) -> Result<Items<Stmt>, AllocError> {
    let mut tree = Builder::new(alloc);
    let prices = [tree.variable("price", 0, 13), tree.variable("price", 0, 21)];
    let sum = tree.operator(Token::Plus, "+", 19, prices);
    let declared = tree.let_stmt("total", 5, sum, 1);
    let total = tree.variable("total", 1, 28);
    let grown = assign(Some(Token::Plus), 34, total, tree.variable("price", 0, 37));
    let operands = [tree.variable("total", 1, 44), tree.variable("price", 0, 52)];
    let less = tree.operator(Token::Minus, "-", 50, operands);
    tree.finish([declared, grown, Stmt::Expr(less)])
}

/// Makes the variables of a script: a price that it may not change.
fn priced(alloc: Global) -> Result<Scope<Money>, AllocError> {
    let price = Dynamic::new(Union::Host(Boxed::new(alloc, Money(250))?));
    let name = String::from_str(alloc, "price")?;
    let mut scope = Scope::new(alloc);
    scope.push_entry(name, AccessMode::ReadOnly, price)?;
    Ok(scope)
}

/// Runs a script above a price, under a limit of operations, and prints what it came to.
fn run(rt: &HostRuntime, tree: &CheckedTree, limit: u64) -> io::Result<()> {
    let alloc = rt.alloc();
    let mut engine = Engine::new(alloc);
    engine.max_operations = limit;
    let mut global = GlobalRuntimeState::new(alloc)?;
    let outcome = engine.eval_global_statements(
        alloc,
        &mut global,
        &mut Caches::new(alloc),
        &mut Natives::new(alloc, MoneyNatives),
        &mut priced(alloc)?,
        tree,
        false,
    );
    match outcome.as_ref().map(|value| &value.value) {
        Ok(Union::Host(money)) => println!(rt; "{} cents", money.get().0)?,
        Ok(value) => println!(rt; "{value:?}")?,
        Err(error) => println!(rt; "{error}")?,
    }
    println!(rt; "{} operations", global.num_operations)
}
