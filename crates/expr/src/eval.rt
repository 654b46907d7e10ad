// The value of an expression that was checked.
ghost use Rattle.std.specs.Prelude.{◌≡◌, ◌≤◌, true, length};
ghost use Rattle.expr.specs.Expr.{below, reads_only, pops, after, parse};
ghost use Rattle.expr.specs.Eval.{env_of};
ghost use Rattle.expr.specs.Shown.{is_whole, Stepped, value_of};

use super::stack::Stack;
use super::token::{Token, Tokens};
use super::{File, word};

impl Stack {
    // What a token makes of the words that are held.
    #[inline(always)]
    fn step(&mut self, t: Token, vals: &[u32])
        requires enough { pops t ≤ self.old.depth }
        requires room { after self.old.depth t ≤ 17 }
        requires known { reads_only (below (length vals.now)) t ≡ true }
        requires long { (self.old.depth ≤ 17) × (length self.old.words ≡ 17) }
        ensures { Stepped (env_of vals.now) t self.old self.new }
    {
        match t {
            Token::Const(w) => self.push(w),
            Token::Symbol(s) => self.push(vals[s]),
            Token::Un(o) => {
                let a = self.pop();
                self.push(o.of(a));
            }
            Token::Bin(o) => {
                let b = self.pop();
                let a = self.pop();
                self.push(o.of(a, b));
            }
            Token::Ite => {
                let b = self.pop();
                let a = self.pop();
                let c = self.pop();
                self.push(word::ite(c, a, b));
            }
        }
    }
}

// The word that an expression leaves, with the values of its symbols. Inline in its two callers, each of which has one kind of file; so is
// the step, since out of line it costs a call for each token.
#[inline(always)]
pub fn eval_expr(e: &[u8], file: File, vals: &[u32]) -> u32
    requires { is_whole (parse file (below (length vals.now)) e.now) ≡ true }
    ensures { result ≡ value_of (env_of vals.now) (parse file (below (length vals.now)) e.now) }
{
    let mut s = Stack::new();
    for t in Tokens::new(e, file) {
        s.step(t, vals);
    }
    s.pop()
}
