//! The parser: from the tokens of an expression to its syntax tree.
pub mod build;
pub mod read;
pub mod reader;
pub mod stack;
pub mod symbol;
pub mod syntax_tree;
pub mod table;
