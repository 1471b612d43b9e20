//! The words of a part.

use crate::read::Fault;
use rhai_tree::flags::ASTFlags;
use rhai_tree::token::Token;
use std::alloc::Global;

/// The words that are left of a part. It remembers the first fault, and where it finds something else than what is
/// wanted it reads something harmless. So code that reads has no ways out between its steps.
#[derive(Drop)]
pub(super) struct Words<'a> {
    alloc: Global,
    rest: &'a str,
    fault: Option<Fault>,
}

impl<'a> Words<'a> {
    /// Begins without a part.
    pub(super) fn new(alloc: Global) -> Words<'a> {
        Words {
            alloc,
            rest: "",
            fault: None,
        }
    }

    /// Begins with all words of a part.
    pub(super) fn begin(&mut self, part: &'a str) {
        self.rest = part;
    }

    /// Ends with a part, which has to have no more words.
    pub(super) fn end(&mut self) {
        if !self.rest.is_empty() {
            self.want("the end of a part");
        }
    }

    /// Returns the first fault, if there was one.
    pub(super) fn fault(&self) -> Option<Fault> {
        self.fault
    }

    /// Remembers that something else stands where this is wanted.
    pub(super) fn want(&mut self, wanted: &'static str) {
        self.fail(Fault::Wanted(wanted));
    }

    fn fail(&mut self, fault: Fault) {
        if self.fault.is_none() {
            self.fault = Some(fault);
        }
    }

    /// Takes the next word, an empty one at the end.
    pub(super) fn word(&mut self) -> &'a str {
        let (word, rest) = self.rest.split_once(' ').unwrap_or((self.rest, ""));
        self.rest = rest;
        word
    }

    /// Takes all words that are left.
    pub(super) fn all(&mut self) -> &'a str {
        let rest = self.rest;
        self.rest = "";
        rest
    }

    /// Returns what was read. Where nothing was, remembers what is wanted and returns something harmless.
    fn or_want<T: Copy>(&mut self, read: Option<T>, wanted: &'static str, harmless: T) -> T {
        match read {
            Some(read) => read,
            None => {
                self.want(wanted);
                harmless
            }
        }
    }

    /// Reads a name or a text, `''` for an empty one.
    pub(super) fn name_in(&mut self, word: &'a str) -> &'a str {
        if word.is_empty() {
            self.want("a name");
        }
        if word == "''" { "" } else { word }
    }

    /// Reads an integer.
    pub(super) fn integer_in(&mut self, word: &str) -> i64 {
        self.or_want(word.parse().ok(), "an integer", 0)
    }

    /// Reads how many there are, or a number or an offset.
    pub(super) fn count_in(&mut self, word: &str) -> usize {
        self.or_want(word.parse().ok(), "a whole number from zero on", 0)
    }

    /// Reads a column.
    pub(super) fn column_in(&mut self, word: &str) -> u16 {
        self.or_want(word.parse().ok(), "a column", 0)
    }

    /// Reads the next word as a name.
    pub(super) fn name(&mut self) -> &'a str {
        let word = self.word();
        self.name_in(word)
    }

    /// Reads the next word as an integer.
    pub(super) fn integer(&mut self) -> i64 {
        let word = self.word();
        self.integer_in(word)
    }

    /// Reads the next word as how many there are, or as an offset.
    pub(super) fn count(&mut self) -> usize {
        let word = self.word();
        self.count_in(word)
    }

    /// Reads the next word as a column.
    pub(super) fn column(&mut self) -> u16 {
        let word = self.word();
        self.column_in(word)
    }

    /// Reads the next word as a number, `-` for none.
    pub(super) fn number_or_none(&mut self) -> Option<usize> {
        let word = self.word();
        if word == "-" {
            None
        } else {
            Some(self.count_in(word))
        }
    }

    /// Reads the next word as an operator.
    pub(super) fn operator(&mut self) -> Token {
        let word = self.word();
        self.or_want(token_of(word), "an operator", Token::Plus)
    }

    /// Reads an option of a `let`.
    pub(super) fn option_in(&mut self, word: &str) -> ASTFlags {
        let read = match word {
            "constant" => Some(ASTFlags::CONSTANT),
            "exported" => Some(ASTFlags::EXPORTED),
            _ => None,
        };
        self.or_want(read, "`constant` or `exported`", ASTFlags::CONSTANT)
    }

    /// Makes a list without items.
    pub(super) fn no_items<T: Drop>(&self) -> Vec<T> {
        Vec::new(self.alloc)
    }

    /// Appends an item to a list.
    pub(super) fn push<T: Copy + Drop>(&mut self, items: &mut Vec<T>, item: T) {
        if items.push(item).is_err() {
            self.fail(Fault::NoMemory);
        }
    }
}

/// Finds the operator that is written so between two operands.
fn token_of(word: &str) -> Option<Token> {
    let tokens = [
        Token::Plus,
        Token::Minus,
        Token::Multiply,
        Token::Divide,
        Token::Modulo,
        Token::EqualsTo,
        Token::NotEqualsTo,
        Token::LessThan,
        Token::LessThanEqualsTo,
        Token::GreaterThan,
        Token::GreaterThanEqualsTo,
        Token::ExclusiveRange,
        Token::InclusiveRange,
    ];
    tokens.iter().copied().find(|token| token.as_str() == word)
}
