//! Chains: properties, methods and items of what stands in front of them.

ghost use Rattle.std.specs.Prelude.{◌≡◌, ◌≢◌, MatchOption, [], false};
ghost use Rattle.rhai_tree.specs.Position.{at as place};
ghost use Rattle.rhai_tree.specs.declared.expr.Expr.TheVariants as expr;
ghost use Rattle.rhai_build.specs.Build.{Made, end_option, method_at, module_of, negated_option};
ghost use Rattle.rhai_build.specs.Build.{no_options, unqualified};

use crate::expressions::unit;
use crate::{Builder, at, no_namespace};
use bitflags::Flags;
use rhai_tree::expr::{Expr, FnCallExpr, Namespace};
use rhai_tree::flags::ASTFlags;
use rhai_tree::position::Position;
use rhai_tree::{Boxed, Items};

impl Builder {
    /// Builds a property, which stands behind a dot.
    pub fn property(&mut self, name: &str, column: u16) -> Expr
        requires { column ≢ 0 }
        ensures { Made self.old self.new (result ≡ expr.Property name.now (place 1 column)) }
    {
        match self.name(name) {
            Some(name) => Expr::Property(name, at(column)),
            None => unit(column),
        }
    }

    /// Builds a method, which stands behind a dot.
    pub fn method<const N: usize>(&mut self, name: &str, column: u16, args: [Expr; N]) -> Expr
        requires { column ≢ 0 }
        ensures { Made self.old self.new (result ≡ method_at unqualified name.now column args.entry) }
    {
        let args = self.list(args);
        self.method_within(no_namespace(self.alloc), name, column, args)
    }

    /// Builds a method without arguments, with the name of a module in front of its own. No chain
    /// may have one.
    pub fn qualified_method(&mut self, root: &str, name: &str, column: u16) -> Expr
        requires { column ≢ 0 }
        ensures { Made self.old self.new (result ≡ method_at (module_of root.now) name.now column []) }
    {
        let namespace = self.namespace(root);
        self.method_within(namespace, name, column, Items::new(self.alloc))
    }

    fn method_within(
        &mut self,
        namespace: Namespace,
        name: &str,
        column: u16,
        args: Items<Expr>,
    ) -> Expr
        requires { column ≢ 0 }
        ensures { Made self.old self.new (result ≡ method_at namespace name.now column args) }
    {
        match self.name(name) {
            Some(name) => {
                let call = FnCallExpr {
                    namespace,
                    name,
                    args,
                    op_token: None,
                    capture_parent_scope: false,
                };
                Expr::MethodCall(call, at(column))
            }
            None => unit(column),
        }
    }

    /// Builds the path to a module.
    fn namespace(&mut self, root: &str) -> Namespace
        ensures { Made self.old self.new (result ≡ module_of root.now) }
    {
        match self.name(root) {
            Some(root) => Namespace {
                path: self.list([root]),
                index: None,
                position: Position::NONE,
            },
            None => no_namespace(self.alloc),
        }
    }

    /// Builds a dot between an expression and the rest of a chain. This is a property, a method, or
    /// one of them from which the chain goes on.
    pub fn dot(&mut self, object: Expr, column: u16, rest: Expr) -> Expr
        requires { column ≢ 0 }
        ensures { Made self.old self.new (result ≡ expr.Dot object rest no_options (place 1 column)) }
    {
        self.dot_with(object, column, rest, ASTFlags::empty())
    }

    /// Builds a dot at which the chain ends where what stands in front of it is `()`.
    pub fn dot_unless_unit(&mut self, object: Expr, column: u16, rest: Expr) -> Expr
        requires { column ≢ 0 }
        ensures { Made self.old self.new (result ≡ expr.Dot object rest negated_option (place 1 column)) }
    {
        self.dot_with(object, column, rest, ASTFlags::NEGATED)
    }

    /// Builds an index into an expression, where the chain ends.
    pub fn index(&mut self, object: Expr, column: u16, index: Expr) -> Expr
        requires { column ≢ 0 }
        ensures { Made self.old self.new (result ≡ expr.Index object index end_option (place 1 column)) }
    {
        self.index_with(object, column, index, ASTFlags::BREAK)
    }

    /// Builds an index into an expression, from which the chain goes on. The rest has the index in
    /// front of its own dot or bracket.
    pub fn index_on(&mut self, object: Expr, column: u16, rest: Expr) -> Expr
        requires { column ≢ 0 }
        ensures { Made self.old self.new (result ≡ expr.Index object rest no_options (place 1 column)) }
    {
        self.index_with(object, column, rest, ASTFlags::empty())
    }

    /// Builds a dot with options of its own.
    pub fn dot_with(&mut self, object: Expr, column: u16, rest: Expr, options: ASTFlags) -> Expr
        requires { column ≢ 0 }
        ensures { Made self.old self.new (result ≡ expr.Dot object rest options (place 1 column)) }
    {
        let (Some(object), Some(rest)) = (self.boxed(object), self.boxed(rest)) else {
            return unit(column);
        };
        Expr::Dot(object, rest, options, at(column))
    }

    fn index_with(&mut self, object: Expr, column: u16, rest: Expr, options: ASTFlags) -> Expr
        requires { column ≢ 0 }
        ensures { Made self.old self.new (result ≡ expr.Index object rest options (place 1 column)) }
    {
        let (Some(object), Some(rest)) = (self.boxed(object), self.boxed(rest)) else {
            return unit(column);
        };
        Expr::Index(object, rest, options, at(column))
    }

    /// Puts an expression behind a pointer of its own, None where memory ran out.
    fn boxed(&mut self, expr: Expr) -> Option<Boxed<Expr>>
        ensures { MatchOption result (self.new.has_memory ≡ false)
            (λ made. (made ≡ expr) × (self.new.has_memory ≡ self.old.has_memory)) }
    {
        let made = Boxed::new(self.alloc, expr).ok();
        if made.is_none() {
            self.has_memory = false;
        }
        made
    }
}
