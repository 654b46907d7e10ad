// The statements of a trace.
ghost use Rattle.std.specs.Prelude.{◌≡◌, true, ◌+◌, ◌≤◌, ◌<◌, length, drop, get_or};
ghost use Rattle.expr.specs.declared.File.TheVariants.{Trace};
ghost use Rattle.expr.specs.Number.{number_of};
ghost use Rattle.expr.specs.Expr.{parse};
ghost use Rattle.file.specs.File.{input_room};
ghost use Rattle.file.specs.Shown.{fault_in, fault_of, expr_fault};
ghost use Rattle.trace.specs.Trace.{stmt, is_trace, tells_bound};
ghost use Rattle.trace.specs.Shown.{known_test, test_kind, expr_start, expr_part, action_at};
ghost use Rattle.trace.specs.Shown.{symbol_room, seen_in, first_seen, ReadTrace};

use super::{OLD_VERSION, SYMBOL_ROOM, VERSION};
use expr::{File, number};
use file::records::Reader;
use file::{Kind, Reason, Refusal, Unread, records};

// What the version and the statements before a statement allow: inputs and assigned symbols may be read, a symbol from `least` on may be
// assigned, and `bounds` says whether the bound's tests have a kind of their own.
#[derive(Drop)]
struct Seen {
    inputs: usize,
    least: usize,
    assigned: [bool; SYMBOL_ROOM],
    bounds: bool,
}

impl Seen {
    // Before the first statement.
    fn at_first(inputs: usize, bounds: bool) -> Seen
        ensures { result ≡ first_seen inputs bounds }
    {
        Seen {
            inputs,
            least: inputs,
            assigned: [false; SYMBOL_ROOM],
            bounds,
        }
    }

    // Refuses the expression from a place of a record's body on at the first token that breaks its rules.
    #[inline(always)]
    fn check_expr(&self, body: &[u8], from: usize) -> Result<(), Refusal>
        requires { from ≤ length body.now }
        ensures { fault_in result ≡ expr_fault (length body.now) (parse Trace (seen_in self.now).readable (drop from body.now)) }
    {
        file::expr_fault(body, from, File::Trace, self.inputs, &self.assigned)
    }

    // Refuses an assignment by its bytes after its length.
    fn check_assign(&self, body: &[u8]) -> Result<(), Refusal>
        requires { (get_or body.now 0 0 ≡ 1) × (0 < length body.now) × (self.now.inputs ≤ input_room) }
        ensures { fault_in result ≡ fault_of (length body.now) (stmt (self.now.inputs + 4096) (seen_in self.now) body.now) }
    {
        if body.len() < 5 {
            return Err(Reason::Record.into());
        }
        let symbol = number::two_at(body, 3);
        if symbol < self.least {
            return Err(Reason::Rule.into());
        }
        if self.inputs + 4096 <= symbol {
            return Err(Reason::Rule.into());
        }
        self.check_expr(body, 5)
    }

    // Refuses a test of a known kind by its bytes after its length.
    #[inline(always)]
    fn check_test(&self, body: &[u8]) -> Result<(), Refusal>
        requires { (known_test self.now.bounds (get_or body.now 0 0) ≡ true) × (0 < length body.now) }
        ensures { fault_in result ≡ fault_of (length body.now) (stmt (self.now.inputs + 4096) (seen_in self.now) body.now) }
    {
        if body.len() < 3 {
            return Err(Reason::Record.into());
        }
        self.check_expr(body, 3)
    }
}

impl Reader for Seen {
    ghost use Rattle.trace.specs.Trace as Spec;
    ghost use Rattle.trace.specs.Trace.{see};
    ghost use Rattle.trace.specs.TraceLaws.{stmt-low};

    ghost Thing = { Spec.Stmt };

    ghost State = { Spec.Seen };

    ghost one = { λ v. stmt (v.inputs + 4096) };

    ghost next = { λ v. see };

    ghost state = { λ v. seen_in v };

    ghost ready = { λ v. (v.inputs ≤ input_room) × (length v.assigned ≡ symbol_room) };

    ghost low = { λ v σ bs. stmt-low (v.inputs + 4096) σ bs };

    fn check(&self, body: &[u8]) -> Result<(), Refusal> {
        match body[0] {
            1 => self.check_assign(body),
            2 => self.check_test(body),
            3 => self.check_test(body),
            4 if self.bounds => self.check_test(body),
            _ => Err(Reason::Record.into()),
        }
    }

    // The symbol that the statement at a place assigns may be read after it, and the next one is greater.
    fn learn(&mut self, trace: &[u8], at: usize) {
        match stmt_at(trace, at).action {
            Action::Assign(symbol) => {
                self.assigned[symbol] = true;
                self.least = symbol + 1;
            }
            Action::Test(_) => {}
        }
    }
}

fn is_trace(version: u8) -> bool
    ensures { result ≡ is_trace version }
{
    version == VERSION || version == OLD_VERSION
}

// Whether the bound's tests have a kind of their own.
fn tells_bound(version: u8) -> bool
    ensures { result ≡ tells_bound version }
{
    version == VERSION
}

// Reads any bytes as a trace: the number of its records, with the offsets of all of them stored, or why they are refused, and the number of
// the records before, with their offsets stored.
pub fn read_trace(trace: &[u8], offsets: &mut [u16]) -> Result<usize, Unread>
    requires { 4096 ≤ length offsets.old }
    ensures { ReadTrace trace.now offsets.old offsets.new result }
{
    let version = file::version_of(trace);
    file::header_reply(trace, is_trace(version), 4096)?;
    let bounds = tells_bound(version);
    let seen = Seen::at_first(file::inputs_of(trace), bounds);
    records::read_records(trace, seen, file::count_of(trace), offsets)
}

// What a statement does with the value of its expression: assigns it to a symbol, or tests it.
#[derive(Clone, Copy)]
pub enum Action {
    Assign(usize),
    Test(Kind),
}

// A statement, as its record has it.
#[derive(Clone, Copy)]
pub struct Stmt<'a> {
    pub place: u32,
    pub action: Action,
    pub expr: &'a [u8],
}

// A test's kind by its code.
fn test_kind(code: u8) -> Kind
    ensures { result ≡ test_kind code }
{
    match code {
        3 => Kind::Assert,
        4 => Kind::Bound,
        _ => Kind::Assume,
    }
}

// The statement that the record at a place holds.
pub fn stmt_at(trace: &[u8], at: usize) -> Stmt
    requires { (at + (2 + number_of 2 (drop at trace.now)) ≤ length trace.now)
        × (expr_start (get_or trace.now (at + 2) 0) ≤ 2 + number_of 2 (drop at trace.now)) }
    ensures { (result.place ≡ number_of 2 (drop (at + 3) trace.now)) × (result.action ≡ action_at trace.now at)
        × (result.expr.now ≡ expr_part trace.now at) }
{
    let place = number::two_at(trace, at + 3) as u32;
    match trace[at + 2] {
        1 => Stmt {
            place,
            action: Action::Assign(number::two_at(trace, at + 5)),
            expr: file::rest_of(trace, at, 7),
        },
        kind => Stmt {
            place,
            action: Action::Test(test_kind(kind)),
            expr: file::rest_of(trace, at, 5),
        },
    }
}

// Its expression alone.
pub fn expr_at(trace: &[u8], at: usize) -> &[u8]
    requires { (at + (2 + number_of 2 (drop at trace.now)) ≤ length trace.now)
        × (expr_start (get_or trace.now (at + 2) 0) ≤ 2 + number_of 2 (drop at trace.now)) }
    ensures { result.now ≡ expr_part trace.now at }
{
    stmt_at(trace, at).expr
}
