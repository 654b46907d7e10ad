// An expression as a term: a `let` for each token, which binds the word that it pushes.
ghost use Rattle.std.specs.Prelude.{◌≡◌, true, ◌+◌, ◌*◌, ◌≤◌, ◌<◌, ◌^◌, length, replicate};
ghost use Rattle.expr.specs.declared.File.TheVariants.{Trace};
ghost use Rattle.expr.specs.Expr.{below, reads_only, fits, parse};
ghost use Rattle.expr.specs.Shown.{is_whole, tokens_of};
ghost use Rattle.trace.specs.Shown.{symbol_room};
ghost use Rattle.write.specs.Splice.{Wrote};
ghost use Rattle.script.specs.Script.{token_term, expr_term};
ghost use Rattle.script.specs.ScriptText.{term_text};
ghost use Rattle.script.specs.Shown.{binding};

use super::text::{SLOT, SYMBOL};
use super::{operator, text};
use expr::File;
use expr::token::{Token, Tokens};

// The word that a token pushes onto k words.
fn put_word(t: Token, k: usize, out: &mut [u8], at: usize) -> usize
    requires { (reads_only (below symbol_room) t ≡ true) × (k < 17) × (at + 63 < 2 ^ 64) }
    ensures { Wrote out.old at (term_text (token_term k t)) out.new result × (result ≤ at + 63) }
{
    match t {
        Token::Const(w) => text::put_hex(w, out, at),
        Token::Symbol(s) => text::put_name(SYMBOL, s, out, at),
        Token::Un(o) => operator::put_unary(o, k, out, at),
        Token::Bin(o) => operator::put_binary(o, k, out, at),
        Token::Ite => operator::put_ite(k, out, at),
    }
}

// The binding of a token where d words are held.
#[tactic(auto, using(crate::proofs::Terms::fitting))]
fn put_token(t: Token, d: usize, out: &mut [u8], at: usize) -> usize
    requires { (fits (below symbol_room) 17 d t ≡ true) × (at + 130 < 2 ^ 64) }
    ensures { Wrote out.old at (binding d t) out.new result × (result ≤ at + 128) }
{
    let k = d - t.pops();
    let a = write::fit_part(b"(let ((", out, at);
    let b = text::put_name(SLOT, k, out, a);
    let c = write::fit_byte(b' ', out, b);
    let f = put_word(t, k, out, c);
    write::fit_part(b")) ", out, f)
}

// So many closing parentheses.
pub fn put_closings(n: usize, out: &mut [u8], at: usize) -> usize
    requires { at + n < 2 ^ 64 }
    ensures { Wrote out.old at (replicate n 41) out.new result × (result ≡ at + n) }
{
    let mut to = at;
    for _ in 0..n {
        to = write::fit_byte(0x29, &mut *out, to);
    }
    to
}

// A whole expression. No token has more letters than 130 for each of its bytes, with its closing parenthesis.
pub fn put_expr(e: &[u8], out: &mut [u8], at: usize) -> usize
    requires { (is_whole (parse Trace (below symbol_room) e.now) ≡ true) × (at + 130 * length e.now + 130 < 2 ^ 64) }
    ensures { Wrote out.old at (term_text (expr_term (tokens_of (parse Trace (below symbol_room) e.now))))
        out.new result × (result ≤ at + 130 * length e.now + 11) }
{
    let mut depth: usize = 0;
    let mut count: usize = 0;
    let mut to = at;
    for t in Tokens::new(e, File::Trace) {
        to = put_token(t, depth, &mut *out, to);
        depth = depth - t.pops() + 1;
        count += 1;
    }
    let a = text::put_name(SLOT, 0, out, to);
    put_closings(count, out, a)
}
