//! Parts that are statements.

use crate::making::Making;
use crate::parts::Part;
use crate::read::lists::add_list;
use crate::read::words::Words;

/// Adds a block, a value, a declaration, an assignment or a `throw`, or what another function reads.
pub(super) fn add_statement(word: &str, words: &mut Words<'_>, making: &mut Making) {
    let part = match word {
        "block" => Part::Block(words.count(), words.column(), words.column()),
        "value" => Part::Value,
        "block-statement" => Part::BlockStatement,
        "let" => Part::Let(words.name(), words.column(), words.column()),
        "const" => Part::Const(words.name(), words.column(), words.column()),
        "export-let" => Part::ExportLet(words.name(), words.column(), words.column()),
        "export-const" => Part::ExportConst(words.name(), words.column(), words.column()),
        "assign" => Part::Assign(words.column()),
        "assign-by" => Part::AssignBy(words.operator(), words.column()),
        "throw" => Part::Throw(words.column()),
        "throw-value" => Part::ThrowValue(words.column()),
        _ => return add_branch(word, words, making),
    };
    making.add(part);
}

/// Adds an `if`, a loop or what leaves one, or a `try`.
fn add_branch(word: &str, words: &mut Words<'_>, making: &mut Making) {
    let part = match word {
        "if" => Part::If(words.column()),
        "if-else" => Part::IfElse(words.column()),
        "while" => Part::While(words.column()),
        "loop" => Part::Loop(words.column()),
        "break" => Part::Break(words.column()),
        "break-with" => Part::BreakWith(words.column()),
        "continue" => Part::Continue(words.column()),
        "try" => Part::Try(words.column()),
        "try-catching" => Part::TryCatching(words.column()),
        "for" => Part::For(words.name(), words.column(), words.column()),
        "for-counted" => Part::ForCounted(
            words.name(),
            words.column(),
            words.name(),
            words.column(),
            words.column(),
        ),
        _ => return add_module_part(word, words, making),
    };
    making.add(part);
}

/// Adds an `export` or an `import`.
fn add_module_part(word: &str, words: &mut Words<'_>, making: &mut Making) {
    let part = match word {
        "export" => Part::Export(words.name(), words.column(), words.column()),
        "export-as" => Part::ExportAs(
            words.name(),
            words.column(),
            words.name(),
            words.column(),
            words.column(),
        ),
        "import" => Part::Import(words.column()),
        "import-as" => Part::ImportAs(words.name(), words.column(), words.column()),
        _ => return add_list(word, words, making),
    };
    making.add(part);
}
