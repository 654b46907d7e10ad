// Words and postfix expressions (document 01, "Arithmetic"): the operators, the tokens, the check of an expression and its value.
// Upper crates use this layer only through its contracts and the laws in `specs/`.
#![tactic(auto)]

pub mod accept;
pub mod eval;
pub mod number;
pub mod stack;
pub mod token;
pub mod word;

// Which kind of file an expression stands in.
#[derive(Clone, Copy)]
pub enum File {
    Table,
    Trace,
}
