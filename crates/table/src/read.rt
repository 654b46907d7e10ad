// The instructions of a table.
ghost use Rattle.std.specs.Prelude.{◌≡◌, ◌+◌, ◌≤◌, ◌<◌, length, drop, get_or};
ghost use Rattle.expr.specs.declared.File.TheVariants.{Table};
ghost use Rattle.expr.specs.Number.{number_of};
ghost use Rattle.expr.specs.Expr.{below, parse};
ghost use Rattle.file.specs.Shown.{fault_in, fault_of, expr_fault};
ghost use Rattle.file.specs.File.{header_size};
ghost use Rattle.table.specs.Table.{instr, is_table};
ghost use Rattle.table.specs.Shown.{expr_start, expr_part, action_at, ReadRecords, ReadTable};

use expr::{File, number};
use file::records::Reader;
use file::{Kind, Reason, Refusal, Unread, records};

// Refuses the expression from a place of a record on. Inline, as in a trace's reader: where records are short, a call for each makes
// reading dearer by a third.
#[inline(always)]
fn expr_fault(body: &[u8], from: usize, inputs: usize) -> Result<(), Refusal>
    requires { from ≤ length body.now }
    ensures { fault_in result ≡ expr_fault (length body.now) (parse Table (below inputs) (drop from body.now)) }
{
    let none: [bool; 0] = [false; 0];
    file::expr_fault(body, from, File::Table, inputs, &none)
}

// Refuses a record by its bytes after its length.
fn body_fault(body: &[u8], inputs: usize, n: usize) -> Result<(), Refusal>
    requires { 0 < length body.now }
    ensures { fault_in result ≡ fault_of (length body.now) (instr inputs n body.now) }
{
    match body[0] {
        1 => {
            if body.len() < 2 {
                return Err(Reason::Record.into());
            }
            if inputs <= number::byte_at(body, 1) {
                return Err(Reason::Rule.into());
            }
            expr_fault(body, 2, inputs)
        }
        2 | 3 => expr_fault(body, 1, inputs),
        4 => {
            if body.len() < 3 {
                return Err(Reason::Record.into());
            }
            if n < number::two_at(body, 1) {
                return Err(Reason::Rule.into());
            }
            expr_fault(body, 3, inputs)
        }
        _ => Err(Reason::Record.into()),
    }
}

// What a table's records may be: the number of its inputs and that of its instructions say it, whatever stands before a record.
#[derive(Drop)]
struct Instrs {
    inputs: usize,
    n: usize,
}

impl Reader for Instrs {
    ghost use Rattle.table.specs.Table as Spec;
    ghost use Rattle.table.specs.TableLaws.{instr-low};

    ghost Thing = { Spec.Instr };

    ghost State = { Unit {0} };

    ghost one = { λ r u. instr r.inputs r.n };

    ghost next = { λ r u a. u };

    ghost state = { λ r. tt };

    ghost ready = { λ r. Unit {0} };

    ghost low = { λ r u bs. instr-low r.inputs r.n bs };

    fn check(&self, body: &[u8]) -> Result<(), Refusal> {
        body_fault(body, self.inputs, self.n)
    }

    fn learn(&mut self, _table: &[u8], _at: usize) {}
}

fn is_table(version: u8) -> bool
    ensures { result ≡ is_table version }
{
    version == 1
}

// Reads any bytes as a table: the number of its records, with the offsets of all of them stored, or why they are refused, and the number of
// the records before, with their offsets stored.
pub fn read_table(table: &[u8], offsets: &mut [u16]) -> Result<usize, Unread>
    requires { 1024 ≤ length offsets.old }
    ensures { ReadTable table.now offsets.old offsets.new result }
{
    let known = is_table(file::version_of(table));
    file::header_reply(table, known, 1024)?;
    let n = file::count_of(table);
    let instrs = Instrs {
        inputs: file::inputs_of(table),
        n,
    };
    records::read_records(table, instrs, n, offsets)
}

// What an instruction does with the value of its expression: assigns it to a symbol, tests it, or goes to an instruction where it is true.
#[derive(Clone, Copy)]
pub enum Action {
    Assign(usize),
    Test(Kind),
    Goto(usize),
}

#[derive(Clone, Copy)]
pub struct Instr<'a> {
    pub action: Action,
    pub expr: &'a [u8],
}

// The instruction that the record at a place holds.
pub fn instr_at(table: &[u8], at: usize) -> Instr
    requires { (at + (2 + number_of 2 (drop at table.now)) ≤ length table.now)
        × (expr_start (get_or table.now (at + 2) 0) ≤ 2 + number_of 2 (drop at table.now)) }
    ensures { (result.action ≡ action_at table.now at) × (result.expr.now ≡ expr_part table.now at) }
{
    match table[at + 2] {
        1 => Instr {
            action: Action::Assign(number::byte_at(table, at + 3)),
            expr: file::rest_of(table, at, 4),
        },
        4 => Instr {
            action: Action::Goto(number::two_at(table, at + 3)),
            expr: file::rest_of(table, at, 5),
        },
        3 => Instr {
            action: Action::Test(Kind::Assert),
            expr: file::rest_of(table, at, 3),
        },
        _ => Instr {
            action: Action::Test(Kind::Assume),
            expr: file::rest_of(table, at, 3),
        },
    }
}

// Its expression alone.
pub fn expr_at(table: &[u8], at: usize) -> &[u8]
    requires { (at + (2 + number_of 2 (drop at table.now)) ≤ length table.now)
        × (expr_start (get_or table.now (at + 2) 0) ≤ 2 + number_of 2 (drop at table.now)) }
    ensures { result.now ≡ expr_part table.now at }
{
    instr_at(table, at).expr
}
