//! Expressions.

ghost use Rattle.std.specs.Prelude.{◌≡◌, ◌≢◌, [], ◌∷◌, ◌++◌, false, true};
ghost use Rattle.rhai_tree.specs.Lookup.{with_entry};
ghost use Rattle.rhai_tree.specs.Position.{at as place};
ghost use Rattle.rhai_tree.specs.declared.expr.Expr.TheVariants as expr;
ghost use Rattle.rhai_tree.specs.declared.literal.Literal.TheVariants as Literal;
ghost use Rattle.rhai_build.specs.Build.{IsVariable, Made, call_at, entry_at, operator_at};

use crate::{Builder, at, no_namespace};
use rhai_tree::expr::{Expr, FnCallExpr, MapEntry};
use rhai_tree::literal::Literal;
use rhai_tree::token::Token;
use rhai_tree::{Items, Table};
use std::alloc::Global;
use std::num::NonZeroUsize;

/// Builds an integer.
pub fn int(value: i64, column: u16) -> Expr
    requires { column ≢ 0 }
    ensures { result ≡ expr.IntegerConstant value (place 1 column) }
{
    Expr::IntegerConstant(value, at(column))
}

/// Builds a truth value.
pub fn truth(value: bool, column: u16) -> Expr
    requires { column ≢ 0 }
    ensures { result ≡ expr.BoolConstant value (place 1 column) }
{
    Expr::BoolConstant(value, at(column))
}

/// Builds a character.
pub fn character(value: char, column: u16) -> Expr
    requires { column ≢ 0 }
    ensures { result ≡ expr.CharConstant value (place 1 column) }
{
    Expr::CharConstant(value, at(column))
}

/// Builds the value `()`.
pub fn unit(column: u16) -> Expr
    requires { column ≢ 0 }
    ensures { result ≡ expr.Unit (place 1 column) }
{
    Expr::Unit(at(column))
}

/// Builds `this`.
pub fn this(column: u16) -> Expr
    requires { column ≢ 0 }
    ensures { result ≡ expr.ThisPtr (place 1 column) }
{
    Expr::ThisPtr(at(column))
}

/// The entries of a map, and the template that has their keys.
#[derive(Drop)]
pub struct MapParts {
    pub entries: Items<MapEntry>,
    pub template: Table<Literal>,
}

impl MapParts {
    /// Begins a map without entries.
    pub fn new(alloc: Global) -> MapParts
        ensures entries { result.entries ≡ [] }
        ensures template { result.template ≡ ([], []) }
    {
        MapParts {
            entries: Items::new(alloc),
            template: Table::new(alloc),
        }
    }

    /// Builds the map.
    pub fn map(self, column: u16) -> Expr
        requires { column ≢ 0 }
        ensures { result ≡ expr.Map self.entries self.template (place 1 column) }
    {
        let MapParts { entries, template } = self;
        Expr::Map(entries, template, at(column))
    }
}

impl Builder {
    /// Builds a variable. Its offset counts from the end of the scope; zero is none, and the name
    /// is searched.
    pub fn variable(&mut self, name: &str, offset: usize, column: u16) -> Expr
        requires { column ≢ 0 }
        ensures { Made self.old self.new (IsVariable name.now offset column result) }
    {
        match self.name(name) {
            Some(name) => Expr::Variable {
                offset: NonZeroUsize::new(offset),
                name,
                namespace: no_namespace(self.alloc),
                pos: at(column),
            },
            None => unit(column),
        }
    }

    /// Builds a text.
    pub fn text(&mut self, text: &str, column: u16) -> Expr
        requires { column ≢ 0 }
        ensures { Made self.old self.new (result ≡ expr.StringConstant text.now (place 1 column)) }
    {
        match self.name(text) {
            Some(text) => Expr::StringConstant(text, at(column)),
            None => unit(column),
        }
    }

    /// Builds a text with the values of expressions in it.
    pub fn interpolated<const N: usize>(&mut self, column: u16, parts: [Expr; N]) -> Expr
        requires { column ≢ 0 }
        ensures { Made self.old self.new (result ≡ expr.InterpolatedString parts.entry (place 1 column)) }
    {
        Expr::InterpolatedString(self.list(parts), at(column))
    }

    /// Builds an array.
    pub fn array<const N: usize>(&mut self, column: u16, items: [Expr; N]) -> Expr
        requires { column ≢ 0 }
        ensures { Made self.old self.new (result ≡ expr.Array items.entry (place 1 column)) }
    {
        Expr::Array(self.list(items), at(column))
    }

    /// Adds an entry to those of a map, and its key to the map's template.
    pub fn entry(&mut self, map: &mut MapParts, key: &str, value: Expr)
        ensures entries { Made self.old self.new
            (map.new.entries ≡ map.old.entries ++ entry_at key.now value ∷ []) }
        ensures template { Made self.old self.new
            (map.new.template ≡ with_entry key.now Literal.Unit map.old.template) }
    {
        let (Some(key), Some(name)) = (self.name(key), self.name(key)) else {
            return;
        };
        let added = map.template.insert(name, Literal::Unit);
        let pushed = map.entries.push(MapEntry { key, value });
        if added.is_err() || pushed.is_err() {
            self.has_memory = false;
        }
    }

    /// Builds a call that was written as an operator.
    pub fn operator<const N: usize>(
        &mut self,
        token: Token,
        name: &str,
        column: u16,
        args: [Expr; N],
    ) -> Expr
        requires { column ≢ 0 }
        ensures { Made self.old self.new (result ≡ operator_at token name.now column args.entry) }
    {
        let args = self.list(args);
        match self.name(name) {
            Some(name) => {
                let call = FnCallExpr {
                    namespace: no_namespace(self.alloc),
                    name,
                    args,
                    op_token: Some(token),
                    capture_parent_scope: false,
                };
                Expr::FnCall(call, at(column))
            }
            None => unit(column),
        }
    }

    /// Builds a call of a function by its name.
    pub fn call<const N: usize>(&mut self, name: &str, column: u16, args: [Expr; N]) -> Expr
        requires { column ≢ 0 }
        ensures { Made self.old self.new (result ≡ call_at name.now column false args.entry) }
    {
        let args = self.list(args);
        self.call_with(name, column, args, false)
    }

    /// Builds a call of a function by its name, which runs on the caller's variables.
    pub fn capturing_call<const N: usize>(
        &mut self,
        name: &str,
        column: u16,
        args: [Expr; N],
    ) -> Expr
        requires { column ≢ 0 }
        ensures { Made self.old self.new (result ≡ call_at name.now column true args.entry) }
    {
        let args = self.list(args);
        self.call_with(name, column, args, true)
    }

    fn call_with(
        &mut self,
        name: &str,
        column: u16,
        args: Items<Expr>,
        capture_parent_scope: bool,
    ) -> Expr
        requires { column ≢ 0 }
        ensures { Made self.old self.new (result ≡ call_at name.now column capture_parent_scope args) }
    {
        match self.name(name) {
            Some(name) => {
                let call = FnCallExpr {
                    namespace: no_namespace(self.alloc),
                    name,
                    args,
                    op_token: None,
                    capture_parent_scope,
                };
                Expr::FnCall(call, at(column))
            }
            None => unit(column),
        }
    }

    /// Joins operands by `&&`.
    pub fn and<const N: usize>(&mut self, column: u16, parts: [Expr; N]) -> Expr
        requires { column ≢ 0 }
        ensures { Made self.old self.new (result ≡ expr.And parts.entry (place 1 column)) }
    {
        Expr::And(self.list(parts), at(column))
    }

    /// Joins operands by `||`.
    pub fn or<const N: usize>(&mut self, column: u16, parts: [Expr; N]) -> Expr
        requires { column ≢ 0 }
        ensures { Made self.old self.new (result ≡ expr.Or parts.entry (place 1 column)) }
    {
        Expr::Or(self.list(parts), at(column))
    }

    /// Joins operands by `??`.
    pub fn coalesce<const N: usize>(&mut self, column: u16, parts: [Expr; N]) -> Expr
        requires { column ≢ 0 }
        ensures { Made self.old self.new (result ≡ expr.Coalesce parts.entry (place 1 column)) }
    {
        Expr::Coalesce(self.list(parts), at(column))
    }
}
