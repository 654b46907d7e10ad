// The lines that the statements of a trace add to its script.
ghost use Rattle.std.specs.Prelude.{◌≡◌, true, ◌+◌, ◌*◌, ◌≤◌, ◌<◌, ◌^◌, length, take, drop};
ghost use Rattle.expr.specs.declared.File.TheVariants.{Trace};
ghost use Rattle.expr.specs.Number.{number_of};
ghost use Rattle.expr.specs.Expr.{below, parse};
ghost use Rattle.expr.specs.Shown.{is_whole, tokens_of};
ghost use Rattle.file.specs.File.{input_room, header_count};
ghost use Rattle.file.specs.Shown.{is_good, is_accepted, listed};
ghost use Rattle.trace.specs.Trace.{Assign, Test, read_trace};
ghost use Rattle.trace.specs.Asserts.{asserted};
ghost use Rattle.trace.specs.Shown.{symbol_room, held};
ghost use Rattle.write.specs.Splice.{Wrote};
ghost use Rattle.write.specs.Ascii.{ascii};
ghost use Rattle.script.specs.Script.{numbers_from, expr_term};
ghost use Rattle.script.specs.ScriptText.{declaration, declarations, equation_line};
ghost use Rattle.script.specs.Shown.{Part, Declarations, Equations, Tests};
ghost use Rattle.script.specs.Shown.{opening, test_line, piece, piece_in, pieces, test_count, seen_after, statements_after, tests_after};

use super::text::SYMBOL;
use super::{term, text};
use file::Kind;
use trace::read;
use trace::read::Action;
use trace::records::Records;

fn put_declaration(s: usize, out: &mut [u8], at: usize) -> usize
    requires { (s < 65536) × (at + 42 < 2 ^ 64) }
    ensures { Wrote out.old at (declaration s) out.new result × (result ≤ at + 42) }
{
    let a = write::fit_part(b"(declare-const ", out, at);
    let b = text::put_name(SYMBOL, s, out, a);
    write::fit_part(b" (_ BitVec 32))\n", out, b)
}

// The declarations of the inputs.
pub fn put_inputs(n: usize, out: &mut [u8], at: usize) -> usize
    requires { (n ≤ input_room) × (at ≤ 1000) }
    ensures { Wrote out.old at (declarations (numbers_from 0 n)) out.new result × (result ≤ at + 42 * input_room) }
{
    let mut to = at;
    for k in 0..n {
        to = put_declaration(k, &mut *out, to);
    }
    to
}

fn put_equation(s: usize, e: &[u8], out: &mut [u8], at: usize) -> usize
    requires { (s < 65536) × (is_whole (parse Trace (below symbol_room) e.now) ≡ true) × (at + 130 * length e.now + 200 < 2 ^ 64) }
    ensures { Wrote out.old at (equation_line s (expr_term (tokens_of (parse Trace (below symbol_room) e.now))))
        out.new result × (result ≤ at + 130 * length e.now + 40) }
{
    let a = write::fit_part(b"(assert (= ", out, at);
    let b = text::put_name(SYMBOL, s, out, a);
    let c = write::fit_byte(0x20, out, b);
    let d = term::put_expr(e, out, c);
    write::fit_part(b"))\n", out, d)
}

// What stands in front of a test's expression.
fn put_opening(kind: Kind, out: &mut [u8], at: usize) -> usize
    requires { at + 26 < 2 ^ 64 }
    ensures { Wrote out.old at (ascii (opening kind)) out.new result × (result ≤ at + 26) }
{
    match kind {
        Kind::Assert => write::fit_part(b"(or (= #x00000000 ", out, at),
        _ => write::fit_part(b"(and (distinct #x00000000 ", out, at),
    }
}

fn put_tested(kind: Kind, e: &[u8], out: &mut [u8], at: usize) -> usize
    requires { (is_whole (parse Trace (below symbol_room) e.now) ≡ true) × (at + 130 * length e.now + 200 < 2 ^ 64) }
    ensures { Wrote out.old at (test_line kind (tokens_of (parse Trace (below symbol_room) e.now)))
        out.new result × (result ≤ at + 130 * length e.now + 40) }
{
    let a = put_opening(kind, out, at);
    let b = term::put_expr(e, out, a);
    write::fit_part(b")\n", out, b)
}

// What a part of a script gets from a statement.
pub trait Step: Copy {
    ghost part: { Part };

    // What an Assign adds to it.
    fn put_assign(self, s: usize, e: &[u8], out: &mut [u8], at: usize) -> usize
        requires { (s < 65536) × (is_whole (parse Trace (below symbol_room) e.now) ≡ true) × (at + 130 * length e.now + 200 < 2 ^ 64) }
        ensures { Wrote out.old at (piece part (Assign 0 s (tokens_of (parse Trace (below symbol_room) e.now))))
            out.new result × (result ≤ at + 130 * length e.now + 42) };

    // And what a test adds.
    fn put_test(self, kind: Kind, e: &[u8], out: &mut [u8], at: usize) -> usize
        requires { (is_whole (parse Trace (below symbol_room) e.now) ≡ true) × (at + 130 * length e.now + 200 < 2 ^ 64) }
        ensures { Wrote out.old at
            (piece part (Test kind 0 (tokens_of (parse Trace (below symbol_room) e.now)))) out.new result
            × (result ≤ at + 130 * length e.now + 42) };
}

// The declarations of assigned symbols.
#[derive(Clone, Copy)]
pub struct Declare;

impl Step for Declare {
    ghost part = { Declarations };

    fn put_assign(self, s: usize, e: &[u8], out: &mut [u8], at: usize) -> usize {
        put_declaration(s, out, at)
    }

    fn put_test(self, kind: Kind, e: &[u8], out: &mut [u8], at: usize) -> usize {
        at
    }
}

// The equations of assigned symbols.
#[derive(Clone, Copy)]
pub struct Equate;

impl Step for Equate {
    ghost part = { Equations };

    fn put_assign(self, s: usize, e: &[u8], out: &mut [u8], at: usize) -> usize {
        put_equation(s, e, out, at)
    }

    fn put_test(self, kind: Kind, e: &[u8], out: &mut [u8], at: usize) -> usize {
        at
    }
}

// The lines of tests.
#[derive(Clone, Copy)]
pub struct Claim;

impl Step for Claim {
    ghost part = { Tests };

    fn put_assign(self, s: usize, e: &[u8], out: &mut [u8], at: usize) -> usize {
        at
    }

    fn put_test(self, kind: Kind, e: &[u8], out: &mut [u8], at: usize) -> usize {
        put_tested(kind, e, out, at)
    }
}

// What the record at a place adds to a part.
fn put_piece<S: Step>(step: S, trace: &[u8], at: usize, out: &mut [u8], to: usize) -> usize
    requires { (at < 65536) × (is_good (held (drop at trace.now)) ≡ true)
        × (to + 130 * (2 + number_of 2 (drop at trace.now)) < 2 ^ 64) }
    ensures { Wrote out.old to (piece_in S.part (held (drop at trace.now))) out.new result
        × (result ≤ to + 130 * (2 + number_of 2 (drop at trace.now))) }
{
    let stmt = read::stmt_at(trace, at);
    match stmt.action {
        Action::Assign(symbol) => step.put_assign(symbol, stmt.expr, out, to),
        Action::Test(kind) => step.put_test(kind, stmt.expr, out, to),
    }
}

// What the first n statements add to a part.
pub fn put_pieces<S: Step>(step: S, trace: &[u8], n: usize, out: &mut [u8], to: usize) -> usize
    requires { (is_accepted (read_trace trace.now) ≡ true) × (n ≤ header_count trace.now) × (to ≤ 30000000) }
    ensures { Wrote out.old to (pieces S.part (take n (listed (read_trace trace.now)))) out.new result
        × (result ≤ to + 130 * 65535) }
{
    let mut next = to;
    for at in Records::first(trace, n) {
        next = put_piece(step, trace, at, &mut *out, next);
    }
    next
}

// Of the statements so far: how many there are, how many are tests, how many statements there are up to the last Assert, and how many of
// those are tests.
#[derive(Clone, Copy, Default)]
pub struct Noted {
    pub count: usize,
    pub seen: usize,
    pub statements: usize,
    pub tests: usize,
}

impl Noted {
    // One statement more, by what it does.
    fn and(self, action: Action) -> Noted
        requires { (self.count < 65536) × (self.seen < 65536) }
        ensures { (result.count ≡ self.count + 1) × (result.seen ≡ seen_after action self.seen)
            × (result.statements ≡ statements_after action (self.count + 1) self.statements)
            × (result.tests ≡ tests_after action self.seen self.tests) }
    {
        let count = self.count + 1;
        match action {
            Action::Assign(_) => Noted { count, ..self },
            Action::Test(Kind::Assert) => Noted {
                count,
                seen: self.seen + 1,
                statements: count,
                tests: self.seen + 1,
            },
            Action::Test(_) => Noted {
                count,
                seen: self.seen + 1,
                ..self
            },
        }
    }
}

// The last Assert of n statements.
pub fn last_assert(trace: &[u8], n: usize) -> Noted
    requires { (is_accepted (read_trace trace.now) ≡ true) × (n ≡ header_count trace.now) }
    ensures { (result.statements ≡ length (asserted (listed (read_trace trace.now))))
        × (result.tests ≡ test_count (asserted (listed (read_trace trace.now)))) }
{
    let mut noted = Noted::default();
    for at in Records::first(trace, n) {
        noted = noted.and(read::stmt_at(trace, at).action);
    }
    noted
}
