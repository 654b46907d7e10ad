// Tokens, read from the bytes of an expression.
ghost use Rattle.std.specs.Prelude.{◌≡◌, ◌+◌, ◌<◌, ◌≤◌, length, drop};
ghost use Rattle.std.specs.Iterator.{YieldsFirst, item_count};
ghost use Rattle.expr.specs.Number.{number_of};
ghost use Rattle.expr.specs.Token.{symbol_code, symbol_width, unary_code, binary_code, operand_count, operator, read_token};
ghost use Rattle.expr.specs.Expr.{pops};
ghost use Rattle.expr.specs.Shown.{tokens_left};

use super::word::{Binary, Unary};
use super::{File, number};

// A constant, a symbol, or an operator.
#[derive(Clone, Copy)]
pub enum Token {
    Const(u32),
    Symbol(usize),
    Un(Unary),
    Bin(Binary),
    Ite,
}

// The first bytes of a constant, of a symbol in each kind of file, and of the choice.
pub const CONSTANT: u8 = 0x01;

pub const TABLE_SYMBOL: u8 = 0x02;

pub const TRACE_SYMBOL: u8 = 0x03;

pub const ITE: u8 = 0x30;

impl File {
    // A symbol's first byte.
    pub fn symbol_code(self) -> u8
        ensures { result ≡ symbol_code self }
    {
        match self {
            File::Table => TABLE_SYMBOL,
            File::Trace => TRACE_SYMBOL,
        }
    }

    // The bytes of its number.
    pub fn symbol_width(self) -> usize
        ensures { result ≡ symbol_width self }
    {
        match self {
            File::Table => 1,
            File::Trace => 2,
        }
    }
}

impl Token {
    // The operator that has this code.
    #[tactic(auto, unfolding(crate::specs::Token::operator))]
    pub fn operator(code: u8) -> Option<Token>
        ensures { result ≡ operator code }
    {
        match code {
            0x10 => Some(Token::Un(Unary::Not)),
            0x11 => Some(Token::Un(Unary::Neg)),
            0x12 => Some(Token::Un(Unary::Zero)),
            0x20 => Some(Token::Bin(Binary::Add)),
            0x21 => Some(Token::Bin(Binary::Sub)),
            0x22 => Some(Token::Bin(Binary::Mul)),
            0x23 => Some(Token::Bin(Binary::Udiv)),
            0x24 => Some(Token::Bin(Binary::Urem)),
            0x25 => Some(Token::Bin(Binary::And)),
            0x26 => Some(Token::Bin(Binary::Or)),
            0x27 => Some(Token::Bin(Binary::Xor)),
            0x28 => Some(Token::Bin(Binary::Shl)),
            0x29 => Some(Token::Bin(Binary::Lshr)),
            0x2A => Some(Token::Bin(Binary::Equal)),
            0x2B => Some(Token::Bin(Binary::Ult)),
            0x2C => Some(Token::Bin(Binary::Slt)),
            0x2D => Some(Token::Bin(Binary::Ule)),
            ITE => Some(Token::Ite),
            _ => None,
        }
    }

    // How many words it pops.
    pub fn pops(self) -> usize
        ensures { result ≡ pops self }
    {
        match self {
            Token::Const(_) => 0,
            Token::Symbol(_) => 0,
            Token::Un(_) => 1,
            Token::Bin(_) => 2,
            Token::Ite => 3,
        }
    }

    // The bytes that it has in a kind of file.
    pub fn size(self, file: File) -> usize
        ensures { result ≡ 1 + operand_count file self }
    {
        match self {
            Token::Const(_) => 5,
            Token::Symbol(_) => 1 + file.symbol_width(),
            Token::Un(_) => 1,
            Token::Bin(_) => 1,
            Token::Ite => 1,
        }
    }
}

impl Unary {
    pub fn code(self) -> u8
        ensures { result ≡ unary_code self }
    {
        self as u8
    }
}

impl Binary {
    pub fn code(self) -> u8
        ensures { result ≡ binary_code self }
    {
        self as u8
    }
}

// The symbol whose number stands at a place.
pub fn symbol_at(e: &[u8], at: usize, file: File) -> usize
    requires { at + symbol_width file ≤ length e.now }
    ensures { (result ≡ number_of (symbol_width file) (drop at e.now)) × (result < 65536) }
{
    match file {
        File::Table => number::byte_at(e, at),
        File::Trace => number::two_at(e, at),
    }
}

// The token at a place, with all its operands. No operator's code is as low as an operand's: asked first, this keeps the compiler from
// making one table of all codes, which slows short expressions.
pub fn token_at(e: &[u8], at: usize, file: File) -> Option<Token>
    requires { at < length e.now }
    ensures { result ≡ read_token file (drop at e.now) }
{
    let left = e.len() - at - 1;
    let code = e[at];
    if TRACE_SYMBOL < code {
        return Token::operator(code);
    }
    if code == CONSTANT {
        if left < 4 {
            return None;
        }
        return Some(Token::Const(number::word_at(e, at + 1)));
    }
    if code == file.symbol_code() {
        if left < file.symbol_width() {
            return None;
        }
        return Some(Token::Symbol(symbol_at(e, at + 1, file)));
    }
    None
}

// The tokens of an expression, one after the other, up to the first place where none stands.
#[derive(Clone, Copy)]
pub struct Tokens<'a> {
    pub rest: &'a [u8],
    pub file: File,
}

impl<'a> Tokens<'a> {
    pub fn new(rest: &'a [u8], file: File) -> Tokens<'a>
        ensures rest { result.rest ≡ rest.entry }
        ensures file { result.file ≡ file }
    {
        Tokens { rest, file }
    }

    // Of the bytes from an offset on: none, where it is behind the end.
    pub fn from_offset(bytes: &'a [u8], at: usize, file: File) -> Tokens<'a>
        ensures rest { result.rest.now ≡ drop at bytes.entry.now }
        ensures file { result.file ≡ file }
    {
        if bytes.len() < at {
            return Tokens { rest: &[], file };
        }
        Tokens::new(&bytes[at..], file)
    }
}

impl<'a> Iterator for Tokens<'a> {
    type Item = Token;

    ghost next_gives = { YieldsFirst tokens_left };

    ghost remaining = { item_count tokens_left };

    #[inline(always)]
    fn next(&mut self) -> Option<Token> {
        if self.rest.is_empty() {
            return None;
        }
        let t = token_at(self.rest, 0, self.file)?;
        let (_, rest) = self.rest.split_at(t.size(self.file));
        self.rest = rest;
        Some(t)
    }
}
