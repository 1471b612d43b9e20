//! Constants of modules, read behind a path.

use crate::parts::Part;
use crate::parts::Part::{
    Block, BlockStatement, Call, ImportAs, Operator, Path, Text, Value, Variable,
};
use rhai_tree::token::Token;

/// `import "m" as z; z::K + z::two()`
pub const VALUE_AND_FUNCTION: &[Part<'_>] = &[
    Text("m", 8),
    ImportAs("z", 15, 1),
    Path(&["z"], 1, 18),
    Variable("K", 0, 21),
    Path(&["z"], 1, 25),
    Call("two", 0, 28),
    Operator(Token::Plus, 23),
    Value,
];

/// `import "m" as z; z::s::K`
pub const VALUE_WITHIN: &[Part<'_>] = &[
    Text("m", 8),
    ImportAs("z", 15, 1),
    Path(&["z", "s"], 1, 18),
    Variable("K", 0, 24),
    Value,
];

/// `import "m" as z; z::Q`
pub const UNKNOWN_VALUE: &[Part<'_>] = &[
    Text("m", 8),
    ImportAs("z", 15, 1),
    Path(&["z"], 1, 18),
    Variable("Q", 0, 21),
    Value,
];

/// `{ import "m" as z; } z::K`
pub const READ_AFTER_A_BLOCK: &[Part<'_>] = &[
    Text("m", 10),
    ImportAs("z", 17, 3),
    Block(1, 1, 20),
    BlockStatement,
    Path(&["z"], 0, 22),
    Variable("K", 0, 25),
    Value,
];

/// `import "m" as z; import "m" as y;`
pub const IMPORTED_TWICE: &[Part<'_>] = &[
    Text("m", 8),
    ImportAs("z", 15, 1),
    Text("m", 25),
    ImportAs("y", 32, 18),
];
