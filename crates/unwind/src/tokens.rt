// A table's expression as a trace's: the same tokens, with the current symbols.
ghost use Rattle.std.specs.Prelude.{◌≡◌, true, ◌+◌, ◌*◌, ◌≤◌, ◌<◌, length};
ghost use Rattle.expr.specs.declared.File.TheVariants.{Table, Trace};
ghost use Rattle.expr.specs.Token.{token_bytes, expr_bytes};
ghost use Rattle.expr.specs.Expr.{below, reads_only, parse};
ghost use Rattle.expr.specs.Eval.{rename_token, rename};
ghost use Rattle.expr.specs.Shown.{is_whole, tokens_of};
ghost use Rattle.write.specs.Splice.{Wrote};
ghost use Rattle.unwind.specs.Size.{expr_size};
ghost use Rattle.unwind.specs.Shown.{current_of, known};

use expr::token::{Token, Tokens};
use expr::{File, token};

// One token of a table's expression.
fn put_token(t: Token, names: &[u16], out: &mut [u8], at: usize) -> usize
    requires known { reads_only (below (length names.now)) t ≡ true }
    requires room { at + length (token_bytes Trace (rename_token (current_of names.now) t)) ≤ length out.old }
    ensures { Wrote out.old at (token_bytes Trace (rename_token (current_of names.now) t)) out.new result }
{
    match t {
        Token::Const(w) => write::put_constant(w, out, at),
        Token::Symbol(s) => write::put_symbol(usize::from(names[s]), out, at),
        Token::Un(o) => write::put_byte(o.code(), out, at),
        Token::Bin(o) => write::put_byte(o.code(), out, at),
        Token::Ite => write::put_byte(token::ITE, out, at),
    }
}

// A whole expression.
pub fn put_tokens(e: &[u8], names: &[u16], out: &mut [u8], at: usize) -> usize
    requires { (is_whole (parse Table (below (length names.now)) e.now) ≡ true)
        × (at + expr_size (tokens_of (parse Table (below (length names.now)) e.now)) ≤ length out.old) }
    ensures { Wrote out.old at
        (expr_bytes Trace (rename (current_of names.now)
        (tokens_of (parse Table (below (length names.now)) e.now)))) out.new result }
{
    let mut to = at;
    for t in Tokens::new(e, File::Table) {
        to = put_token(t, names, &mut *out, to);
    }
    to
}

// The bytes that an expression has in a trace.
pub fn expr_size(e: &[u8]) -> usize
    requires { (is_whole (parse Table known e.now) ≡ true) × (length e.now < 65536) }
    ensures { (result ≡ expr_size (tokens_of (parse Table known e.now))) × (result ≤ 2 * length e.now) }
{
    let mut size: usize = 0;
    for t in Tokens::new(e, File::Table) {
        size += t.size(File::Trace);
    }
    size
}
