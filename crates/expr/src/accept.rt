// Which bytes are an expression.
ghost use Rattle.std.specs.Prelude.{◌≡◌, ◌≤◌, length};
ghost use Rattle.expr.specs.Expr.{depth_limit, readable, parse};
ghost use Rattle.expr.specs.Shown.{left_by, checked};

use super::token::Token;
use super::{File, token};

impl File {
    // The words that an expression may hold at most.
    fn depth_limit(self) -> usize
        ensures { result ≡ depth_limit self }
    {
        match self {
            File::Table => 16,
            File::Trace => 17,
        }
    }
}

fn may_read(symbol: usize, inputs: usize, assigned: &[bool]) -> bool
    ensures { result ≡ readable inputs assigned.now symbol }
{
    symbol < inputs || (symbol < assigned.len() && assigned[symbol])
}

// The depth that a token leaves, if it may stand where so many words are held.
#[tactic(auto, unfolding(crate::specs::Expr::fits))]
fn left_by(t: Token, file: File, inputs: usize, assigned: &[bool], depth: usize) -> Option<usize>
    requires { depth ≤ depth_limit file }
    ensures { result ≡ left_by (readable inputs assigned.now) (depth_limit file) depth t }
{
    let limit = file.depth_limit();
    match t {
        Token::Const(_) if depth < limit => Some(depth + 1),
        Token::Symbol(s) if depth < limit && may_read(s, inputs, assigned) => Some(depth + 1),
        Token::Un(_) if 1 <= depth => Some(depth),
        Token::Bin(_) if 2 <= depth => Some(depth - 1),
        Token::Ite if 3 <= depth => Some(depth - 2),
        _ => None,
    }
}

// An expression reads inputs, which are below `inputs`, and symbols whose entry in `assigned` is set. What is no expression is refused at
// the offset of the first token that breaks its rules: the end, where its tokens leave other than one word.
pub fn check_expr(e: &[u8], file: File, inputs: usize, assigned: &[bool]) -> Result<(), usize>
    ensures { result ≡ checked (length e.now) (parse file (readable inputs assigned.now) e.now) }
{
    let mut at: usize = 0;
    let mut depth: usize = 0;
    while at < e.len() {
        let Some(t) = token::token_at(e, at, file) else {
            return Err(at);
        };
        let Some(deep) = left_by(t, file, inputs, assigned, depth) else {
            return Err(at);
        };
        depth = deep;
        at += t.size(file);
    }
    if depth == 1 { Ok(()) } else { Err(at) }
}
