// The records of a trace's statements. A record's length is written last, when its end is known.
ghost use Rattle.std.specs.Prelude.{◌≡◌, true, [], ◌∷◌, ◌++◌, ◌+◌, ◌-◌, ◌≤◌, ◌<◌, length};
ghost use Rattle.expr.specs.declared.File.TheVariants.{Table, Trace};
ghost use Rattle.expr.specs.Number.{bytes_of};
ghost use Rattle.expr.specs.declared.word.Unary.TheVariants.{Zero};
ghost use Rattle.expr.specs.declared.word.Binary.TheVariants.{Ule};
ghost use Rattle.expr.specs.declared.token.Token.TheVariants.{Const, Symbol, Un, Bin, Ite};
ghost use Rattle.expr.specs.Token.{expr_bytes};
ghost use Rattle.expr.specs.Expr.{below, parse};
ghost use Rattle.expr.specs.Eval.{rename};
ghost use Rattle.expr.specs.Shown.{is_whole};
ghost use Rattle.file.specs.File.{record_bytes};
ghost use Rattle.file.specs.Outcome.{Bound};
ghost use Rattle.trace.specs.Trace.{Assign, Test, kind_code, stmt_bytes};
ghost use Rattle.write.specs.Splice.{splice, Wrote};
ghost use Rattle.unwind.specs.Unwind.{guarded, opening};
ghost use Rattle.unwind.specs.Size.{expr_size};
ghost use Rattle.unwind.specs.Shown.{current_of, tokens_in, renamed};

use super::tokens;
use expr::token;
use expr::word::{Binary, Unary};
use file::Kind;

// The number that a test's kind has in a trace.
fn code_of(kind: Kind) -> u8
    ensures { result ≡ kind_code kind }
{
    kind as u8
}

// A test's kind and its place, after two bytes for the record's length.
fn open_test(kind: Kind, j: usize, out: &mut [u8], at: usize) -> usize
    requires { at + 5 ≤ length out.old }
    ensures { Wrote out.old (at + 2) (kind_code kind ∷ bytes_of 2 j) out.new result }
{
    let a = write::put_byte(code_of(kind), out, at + 2);
    write::put_two(j, out, a)
}

// An Assign's kind, its place and the assigned symbol, after two bytes for the record's length.
fn open_assign(j: usize, symbol: usize, out: &mut [u8], at: usize) -> usize
    requires { at + 7 ≤ length out.old }
    ensures { Wrote out.old (at + 2) (1 ∷ bytes_of 2 j ++ bytes_of 2 symbol) out.new result }
{
    let a = write::put_byte(1, out, at + 2);
    let b = write::put_two(j, out, a);
    write::put_two(symbol, out, b)
}

// The length of the record that was written from `at` up to `end`.
fn close(out: &mut [u8], at: usize, end: usize) -> usize
    requires { (at + 2 ≤ end) × (end ≤ length out.old) }
    ensures { (result ≡ end) × (out.new ≡ splice at (bytes_of 2 (end - (at + 2))) out.old) }
{
    let _ = write::put_two(end - (at + 2), out, at);
    end
}

// W, constant j, ule.
fn put_guard(w: usize, j: usize, out: &mut [u8], at: usize) -> usize
    requires { (at + 9 ≤ length out.old) × (j < 4294967296) }
    ensures { Wrote out.old at (expr_bytes Trace (Symbol w ∷ Const j ∷ Bin Ule ∷ [])) out.new result }
{
    let a = write::put_symbol(w, out, at);
    let b = write::put_constant(j as u32, out, a);
    write::put_byte(Binary::Ule.code(), out, b)
}

// A symbol, ite.
fn put_old(symbol: usize, out: &mut [u8], at: usize) -> usize
    requires { at + 4 ≤ length out.old }
    ensures { Wrote out.old at (expr_bytes Trace (Symbol symbol ∷ Ite ∷ [])) out.new result }
{
    let a = write::put_symbol(symbol, out, at);
    write::put_byte(token::ITE, out, a)
}

// Constant 1, ite.
fn put_holds(out: &mut [u8], at: usize) -> usize
    requires { at + 6 ≤ length out.old }
    ensures { Wrote out.old at (expr_bytes Trace (Const 1 ∷ Ite ∷ [])) out.new result }
{
    let a = write::put_constant(1, out, at);
    write::put_byte(token::ITE, out, a)
}

// The opening: place 65535, the first W is 0.
pub fn put_opening(inputs: usize, out: &mut [u8], at: usize) -> usize
    requires { at + 12 ≤ length out.old }
    ensures { Wrote out.old at (record_bytes stmt_bytes (opening inputs)) out.new result }
{
    let a = open_assign(65535, inputs, out, at);
    let b = write::put_constant(0, out, a);
    close(out, at, b)
}

// A table's expression that counts only where control has come to a place: where the symbol `control` is at most `place`. Its symbols are
// written by their current names.
#[derive(Clone, Copy)]
pub struct Guarded<'a> {
    pub expr: &'a [u8],
    pub names: &'a [u16],
    pub control: usize,
    pub place: usize,
    ghost whole: { is_whole (parse Table (below (length names.now)) expr.now) ≡ true },
    ghost small: { place < 4294967296 },
}

impl<'a> Guarded<'a> {
    // An Assign of the symbol `new`, in the place of the symbol `old`.
    pub fn put_assign(self, new: usize, old: usize, out: &mut [u8], at: usize) -> usize
        requires { at + (20 + expr_size (tokens_in self.names.now self.expr.now)) ≤ length out.old }
        ensures { Wrote out.old at
            (record_bytes stmt_bytes (Assign self.entry.place new
            (guarded self.entry.control self.entry.place (renamed self.entry.names.now self.entry.expr.now) (Symbol old)))) out.new result }
    {
        let a = open_assign(self.place, new, out, at);
        let b = put_guard(self.control, self.place, out, a);
        let c = tokens::put_tokens(self.expr, self.names, out, b);
        let d = put_old(old, out, c);
        close(out, at, d)
    }

    // A test of the table.
    pub fn put_test(self, kind: Kind, out: &mut [u8], at: usize) -> usize
        requires { at + (20 + expr_size (tokens_in self.names.now self.expr.now)) ≤ length out.old }
        ensures { Wrote out.old at
            (record_bytes stmt_bytes (Test kind self.entry.place
            (guarded self.entry.control self.entry.place (renamed self.entry.names.now self.entry.expr.now) (Const 1)))) out.new result }
    {
        let a = open_test(kind, self.place, out, at);
        let b = put_guard(self.control, self.place, out, a);
        let c = tokens::put_tokens(self.expr, self.names, out, b);
        let d = put_holds(out, c);
        close(out, at, d)
    }

    // A jump to the place `goal`: an Assign of the symbol `new`, the next W.
    pub fn put_jump(self, new: usize, goal: usize, out: &mut [u8], at: usize) -> usize
        requires { (at + (29 + expr_size (tokens_in self.names.now self.expr.now)) ≤ length out.old) × (goal < 4294967296) }
        ensures { Wrote out.old at
            (record_bytes stmt_bytes (Assign self.entry.place new
            (guarded self.entry.control self.entry.place
            (renamed self.entry.names.now self.entry.expr.now ++ Const goal ∷ Symbol self.entry.control ∷ Ite ∷ [])
            (Symbol self.entry.control)))) out.new result }
    {
        let a = open_assign(self.place, new, out, at);
        let b = put_guard(self.control, self.place, out, a);
        let c = tokens::put_tokens(self.expr, self.names, out, b);
        let d = write::put_constant(goal as u32, out, c);
        let f = put_old(self.control, out, d);
        let g = put_old(self.control, out, f);
        close(out, at, g)
    }

    // A back jump of the last copy: a test that its condition is zero, of the bound's own kind.
    pub fn put_bound(self, out: &mut [u8], at: usize) -> usize
        requires { at + (21 + expr_size (tokens_in self.names.now self.expr.now)) ≤ length out.old }
        ensures { Wrote out.old at
            (record_bytes stmt_bytes (Test Bound self.entry.place
            (guarded self.entry.control self.entry.place
            (rename (current_of self.entry.names.now) (tokens_in self.entry.names.now self.entry.expr.now ++ Un Zero ∷ []))
            (Const 1)))) out.new result }
    {
        let a = open_test(Kind::Bound, self.place, out, at);
        let b = put_guard(self.control, self.place, out, a);
        let c = tokens::put_tokens(self.expr, self.names, out, b);
        let d = write::put_byte(Unary::Zero.code(), out, c);
        let f = put_holds(out, d);
        close(out, at, f)
    }
}

// An exit at place j to the place `goal`: an Assign of the symbol `new`, the next W.
pub fn put_exit(w: usize, j: usize, new: usize, goal: usize, out: &mut [u8], at: usize) -> usize
    requires { (j < 4294967296) × (goal < 4294967296) × (at + 25 ≤ length out.old) }
    ensures { Wrote out.old at (record_bytes stmt_bytes (Assign j new (guarded w j (Const goal ∷ []) (Symbol w))))
        out.new result }
{
    let a = open_assign(j, new, out, at);
    let b = put_guard(w, j, out, a);
    let c = write::put_constant(goal as u32, out, b);
    let d = put_old(w, out, c);
    close(out, at, d)
}
