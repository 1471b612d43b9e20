//! The smallest host: `40 + 2`, checked, and run under two limits.

use rhai::{
    Builder, Caches, CheckedTree, Engine, GlobalRuntimeState, Items, Natives, NoHost, NoNatives,
    Scope, Stmt, Token, check_tree, int,
};

/// Builds the script, checks it, and runs it twice.
pub fn run_sum(rt: &HostRuntime) -> anyhow::Result<()> {
    let alloc = rt.alloc();
    let mut builder = Builder::new(alloc);
    let sum = builder.operator(Token::Plus, "+", 4, [int(40, 1), int(2, 6)]);
    let tree = check_tree(alloc, builder.finish([Stmt::Expr(sum)])?, Items::new(alloc))?;
    run(rt, &tree, 3)?;
    Ok(run(rt, &tree, 100)?)
}

/// Runs a script under a limit of operations, and prints what it came to.
fn run(rt: &HostRuntime, tree: &CheckedTree, limit: u64) -> std::io::Result<()> {
    let alloc = rt.alloc();
    let mut engine: Engine<NoHost> = Engine::new(alloc);
    engine.max_operations = limit;
    let outcome = engine.eval_global_statements(
        alloc,
        &mut GlobalRuntimeState::new(alloc)?,
        &mut Caches::new(alloc),
        &mut Natives::new(alloc, NoNatives),
        &mut Scope::new(alloc),
        tree,
        false,
    );
    match outcome {
        Ok(value) => println!(rt; "{value}"),
        Err(error) => println!(rt; "{error}"),
    }
}
