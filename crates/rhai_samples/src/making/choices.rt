//! `switch`, `for`, `try`, `export` and `import`, what closures share, and functions.

use crate::making::{Making, at_column};
use crate::parts::{Case, Part};
use rhai_build::functions::script_function;
use rhai_tree::Items;
use rhai_tree::expr::{
    ConditionalExpr, Expr, Ident, RangeCase, SharedVariable, Stmt, StmtBlock, SwitchCase,
};
use rhai_tree::function::FnAccess;
use rhai_tree::literal::Literal;
use rhai_tree::position::Position;
use std::alloc::AllocError;
use std::num::NonZeroUsize;

impl Making {
    /// Adds a `switch`, a `for`, a `try`, what closures share, an `export`, an `import`, or a function.
    pub(super) fn add_choice(&mut self, part: Part<'_>) {
        match part {
            Part::Switch(count, cases, ranges, default, column) => {
                let cases = self.cases(cases);
                let ranges = self.memory.copied(ranges);
                self.add_switch(count, cases, ranges, default, column);
            }
            Part::For(name, at_name, column) => self.add_for(name, at_name, None, column),
            Part::ForCounted(name, at_name, counter, at_counter, column) => {
                let counter = self.ident(counter, at_counter);
                self.add_for(name, at_name, counter, column);
            }
            Part::Try(column) => {
                let branch = self.block();
                self.add_try(Expr::Unit(Position::NONE), branch, column);
            }
            Part::TryCatching(column) => {
                let branch = self.block();
                let caught = self.expr();
                self.add_try(caught, branch, column);
            }
            Part::Share(names) => self.add_share(names),
            _ => self.add_module_part(part),
        }
    }

    fn add_switch(
        &mut self,
        count: usize,
        cases: Items<SwitchCase>,
        ranges: Items<RangeCase>,
        default: Option<usize>,
        column: u16,
    ) {
        let expressions = self.results(count);
        let expr = self.expr();
        self.push_stmt(Stmt::Switch {
            expressions,
            expr,
            cases,
            ranges,
            def_case: default,
            pos: at_column(column),
        });
    }

    /// Adds a `switch` over integers. Each of its cases has an integer, and the number of its result if it has one.
    pub(crate) fn add_integer_switch(
        &mut self,
        count: usize,
        cases: &[(i64, Option<usize>)],
        default: Option<usize>,
        column: u16,
    ) {
        let cases = self.integer_cases(cases);
        let ranges = self.memory.no_items();
        self.add_switch(count, cases, ranges, default, column);
    }

    fn integer_cases(&mut self, cases: &[(i64, Option<usize>)]) -> Items<SwitchCase> {
        let mut made = self.memory.no_items();
        for (value, number) in cases {
            let mut blocks = self.memory.no_items();
            if let Some(number) = number {
                self.memory.push(&mut blocks, *number);
            }
            let value = Literal::Int(*value);
            self.memory.push(&mut made, SwitchCase { value, blocks });
        }
        made
    }

    /// Takes the results of a `switch`, each behind its condition.
    fn results(&mut self, count: usize) -> Items<ConditionalExpr> {
        let mut results = self.memory.no_items();
        for _ in 0..count {
            let expr = self.expr();
            let condition = self.expr();
            self.memory
                .put_first(&mut results, ConditionalExpr { condition, expr });
        }
        results
    }

    /// Makes the cases of a `switch`.
    fn cases(&mut self, cases: &[Case<'_>]) -> Items<SwitchCase> {
        let mut made = self.memory.no_items();
        for case in cases {
            let (value, numbers) = self.case_value(*case);
            let blocks = self.memory.copied(numbers);
            self.memory.push(&mut made, SwitchCase { value, blocks });
        }
        made
    }

    /// Makes the value of a case, `()` where there was no memory for it, beside the numbers of its results.
    fn case_value<'a>(&mut self, case: Case<'a>) -> (Literal, &'a [usize]) {
        match case {
            Case::OfInt(value, numbers) => (Literal::Int(value), numbers),
            Case::OfText(text, numbers) => (self.text_literal(text), numbers),
            Case::OfCharacter(value, numbers) => (Literal::Char(value), numbers),
            Case::OfTruth(value, numbers) => (Literal::Bool(value), numbers),
        }
    }

    fn text_literal(&mut self, text: &str) -> Literal {
        match self.memory.shared(text) {
            Some(text) => Literal::Str(text),
            None => Literal::Unit,
        }
    }

    fn add_for(&mut self, name: &str, at_name: u16, counter: Option<Ident>, column: u16) {
        if let Some(name) = self.ident(name, at_name) {
            let expr = self.expr();
            let body = self.block();
            self.push_stmt(Stmt::For {
                name,
                counter,
                expr,
                body,
                pos: at_column(column),
            });
        }
    }

    fn add_try(&mut self, caught: Expr, branch: StmtBlock, column: u16) {
        let body = self.block();
        self.push_stmt(Stmt::TryCatch(body, caught, branch, at_column(column)));
    }

    /// Adds what closures share.
    fn add_share(&mut self, names: &[(&str, usize, u16)]) {
        let mut made = self.memory.no_items();
        for (name, offset, column) in names {
            if let Some(ident) = self.ident(name, *column) {
                let offset = NonZeroUsize::new(*offset);
                self.memory
                    .push(&mut made, SharedVariable { ident, offset });
            }
        }
        self.push_stmt(Stmt::Share(made));
    }

    /// Adds an `export`, an `import` or a function.
    fn add_module_part(&mut self, part: Part<'_>) {
        match part {
            Part::Export(name, at_name, column) => self.add_export(name, at_name, None, column),
            Part::ExportAs(name, at_name, alias, at_alias, column) => {
                let alias = self.ident(alias, at_alias);
                self.add_export(name, at_name, alias, column);
            }
            Part::Import(column) => self.add_import(None, column),
            Part::ImportAs(alias, at_alias, column) => {
                let alias = self.ident(alias, at_alias);
                self.add_import(alias, column);
            }
            Part::Function(name, params) => self.add_function(FnAccess::Public, name, params),
            Part::PrivateFunction(name, params) => {
                self.add_function(FnAccess::Private, name, params);
            }
            _ => {}
        }
    }

    fn add_export(&mut self, name: &str, at_name: u16, alias: Option<Ident>, column: u16) {
        if let Some(name) = self.ident(name, at_name) {
            self.push_stmt(Stmt::Export(name, alias, at_column(column)));
        }
    }

    fn add_import(&mut self, alias: Option<Ident>, column: u16) {
        let path = self.expr();
        self.push_stmt(Stmt::Import(path, alias, at_column(column)));
    }

    /// Adds a function with the newest block.
    fn add_function(&mut self, access: FnAccess, name: &str, params: &[&str]) {
        let body = self.block();
        let alloc = self.memory.allocator();
        match script_function(alloc, access, None, name, params, body) {
            Ok(function) => self.memory.push(&mut self.functions, function),
            Err(AllocError) => self.memory.remember(Err(AllocError)),
        }
    }
}
