// Tokens by name. Every writer counts its letters and stores those that fit.
ghost use Rattle.std.specs.Prelude.{◌≡◌, true, ◌+◌, ◌*◌, ◌^◌, ◌≤◌, ◌<◌, ◌++◌, length};
ghost use Rattle.expr.specs.declared.File.TheVariants.{Trace};
ghost use Rattle.expr.specs.Token.{operand_count};
ghost use Rattle.expr.specs.Expr.{below, reads_only, parse};
ghost use Rattle.expr.specs.Shown.{is_whole, tokens_of};
ghost use Rattle.trace.specs.Shown.{symbol_room};
ghost use Rattle.write.specs.Splice.{Wrote};
ghost use Rattle.write.specs.Ascii.{ascii};
ghost use Rattle.show.specs.Text.{unary_name, binary_name, token_text, kind_name, expr_text, refusal_text};

use expr::File;
use expr::token::{Token, Tokens};
use expr::word::{Binary, Unary};
use file::Kind;

// The refusal's line, from the buffer's first byte.
pub fn put_refusal(reply: u32, offset: u32, out: &mut [u8]) -> usize
    ensures { Wrote out.old 0 (refusal_text reply offset) out.new result × (result ≤ 33) }
{
    let a = write::fit_part(b"refused ", out, 0);
    let b = write::fit_decimal(reply, out, a);
    let c = write::fit_part(b" at ", out, b);
    let d = write::fit_decimal(offset, out, c);
    write::fit_part(b"\n", out, d)
}

// A test's kind, after a space.
pub fn put_kind(kind: Kind, out: &mut [u8], at: usize) -> usize
    requires { at + 7 < 2 ^ 64 }
    ensures { Wrote out.old at (ascii " " ++ ascii (kind_name kind)) out.new result × (result ≤ at + 7) }
{
    match kind {
        Kind::Assume => write::fit_part(b" assume", out, at),
        Kind::Assert => write::fit_part(b" assert", out, at),
        Kind::Bound => write::fit_part(b" bound", out, at),
    }
}

// An operator's name.
fn unary_name(o: Unary) -> &'static [u8]
    ensures { result.now ≡ ascii (unary_name o) }
{
    match o {
        Unary::Not => b"not",
        Unary::Neg => b"neg",
        Unary::Zero => b"zero",
    }
}

fn binary_name(o: Binary) -> &'static [u8]
    ensures { result.now ≡ ascii (binary_name o) }
{
    match o {
        Binary::Add => b"add",
        Binary::Sub => b"sub",
        Binary::Mul => b"mul",
        Binary::Udiv => b"udiv",
        Binary::Urem => b"urem",
        Binary::And => b"and",
        Binary::Or => b"or",
        Binary::Xor => b"xor",
        Binary::Shl => b"shl",
        Binary::Lshr => b"lshr",
        Binary::Equal => b"equal",
        Binary::Ult => b"ult",
        Binary::Slt => b"slt",
        Binary::Ule => b"ule",
    }
}

// A token, after a space. None has more letters than six for each of its bytes.
fn put_token(t: Token, out: &mut [u8], at: usize) -> usize
    requires { (reads_only (below symbol_room) t ≡ true) × (at + 6 * (1 + operand_count Trace t) < 2 ^ 64) }
    ensures { Wrote out.old at (ascii " " ++ token_text t) out.new result × (result ≤ at + 6 * (1 + operand_count Trace t)) }
{
    let a = write::fit_byte(b' ', out, at);
    match t {
        Token::Const(w) => write::fit_decimal(w, out, a),
        Token::Symbol(s) => {
            let b = write::fit_byte(b's', out, a);
            write::fit_decimal(s as u32, out, b)
        }
        Token::Un(o) => write::fit_part(unary_name(o), out, a),
        Token::Bin(o) => write::fit_part(binary_name(o), out, a),
        Token::Ite => write::fit_part(b"ite", out, a),
    }
}

// A whole expression, each token after a space.
pub fn put_tokens(e: &[u8], out: &mut [u8], at: usize) -> usize
    requires { (is_whole (parse Trace (below symbol_room) e.now) ≡ true) × (at + 6 * length e.now < 2 ^ 64) }
    ensures { Wrote out.old at (expr_text (tokens_of (parse Trace (below symbol_room) e.now))) out.new result
        × (result ≤ at + 6 * length e.now) }
{
    let mut to = at;
    for t in Tokens::new(e, File::Trace) {
        to = put_token(t, &mut *out, to);
    }
    to
}
