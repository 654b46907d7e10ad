// The symbols that an expression reads.
ghost use Rattle.std.specs.Prelude.{◌≡◌, true, ◌||◌, ℕ};
ghost use Rattle.expr.specs.declared.File.TheVariants.{Trace};
ghost use Rattle.expr.specs.Expr.{below, reads_only, parse};
ghost use Rattle.expr.specs.Eval.{reads_token, reads};
ghost use Rattle.expr.specs.Shown.{is_whole, tokens_of};
ghost use Rattle.trace.specs.Shown.{symbol_room};
ghost use Rattle.slice.specs.Shown.{in_set};

use super::sets::Symbols;
use expr::File;
use expr::token::{Token, Tokens};

// The symbol of a token, if it is one, becomes needed.
fn mark_token(t: Token, needed: &mut Symbols)
    requires { reads_only (below symbol_room) t ≡ true }
    ensures { (x : ℕ) → in_set needed.new x ≡ (reads_token x t || in_set needed.old x) }
{
    if let Token::Symbol(s) = t {
        needed.insert(s);
    }
}

// The symbols of an expression become needed.
pub fn mark_reads(e: &[u8], needed: &mut Symbols)
    requires { is_whole (parse Trace (below symbol_room) e.now) ≡ true }
    ensures { (x : ℕ) → in_set needed.new x
        ≡ (reads x (tokens_of (parse Trace (below symbol_room) e.now)) || in_set needed.old x) }
{
    for t in Tokens::new(e, File::Trace) {
        mark_token(t, &mut *needed);
    }
}
