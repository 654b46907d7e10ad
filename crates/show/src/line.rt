// The lines of a trace.
ghost use Rattle.std.specs.Prelude.{◌≡◌, true, ◌+◌, ◌*◌, ◌^◌, ◌≤◌, ◌<◌, drop};
ghost use Rattle.expr.specs.Number.{number_of};
ghost use Rattle.file.specs.File.{input_room, header_count};
ghost use Rattle.file.specs.Shown.{is_good, is_accepted, listed};
ghost use Rattle.trace.specs.Trace.{read_trace};
ghost use Rattle.trace.specs.Shown.{held};
ghost use Rattle.write.specs.Splice.{Wrote};
ghost use Rattle.show.specs.Text.{first_line, stmt_lines, trace_text};
ghost use Rattle.show.specs.Shown.{line_in};

use super::word;
use trace::read;
use trace::read::Action;
use trace::records::Records;

// The line of the record at a place. No line has more letters than six for each of the record's bytes.
fn put_line(trace: &[u8], at: usize, out: &mut [u8], to: usize) -> usize
    requires { (at < 65536) × (is_good (held (drop at trace.now)) ≡ true)
        × (to + 6 * (2 + number_of 2 (drop at trace.now)) < 2 ^ 64) }
    ensures { Wrote out.old to (line_in (held (drop at trace.now))) out.new result
        × (result ≤ to + 6 * (2 + number_of 2 (drop at trace.now))) }
{
    let stmt = read::stmt_at(trace, at);
    let a = write::fit_decimal(stmt.place, out, to);
    match stmt.action {
        Action::Assign(symbol) => {
            let b = write::fit_part(b" assign s", out, a);
            let c = write::fit_decimal(symbol as u32, out, b);
            let d = word::put_tokens(stmt.expr, out, c);
            write::fit_part(b"\n", out, d)
        }
        Action::Test(kind) => {
            let b = word::put_kind(kind, out, a);
            let c = word::put_tokens(stmt.expr, out, b);
            write::fit_part(b"\n", out, c)
        }
    }
}

// S and the statement count, from the buffer's first byte.
fn put_first(inputs: usize, n: usize, out: &mut [u8]) -> usize
    requires { (inputs ≤ input_room) × (n ≤ 4096) }
    ensures { Wrote out.old 0 (first_line inputs n) out.new result × (result ≤ 36) }
{
    let a = write::fit_part(b"inputs ", out, 0);
    let b = write::fit_decimal(inputs as u32, out, a);
    let c = write::fit_part(b" statements ", out, b);
    let d = write::fit_decimal(n as u32, out, c);
    write::fit_part(b"\n", out, d)
}

// A line for each statement.
fn put_lines(trace: &[u8], n: usize, out: &mut [u8], to: usize) -> usize
    requires { (is_accepted (read_trace trace.now) ≡ true) × (n ≡ header_count trace.now) × (to ≤ 36) }
    ensures { Wrote out.old to (stmt_lines (listed (read_trace trace.now))) out.new result
        × (result ≤ 393210) }
{
    let mut next = to;
    for at in Records::first(trace, n) {
        next = put_line(trace, at, &mut *out, next);
    }
    next
}

// The text of an accepted trace, from the buffer's first byte.
#[tactic(auto, using(crate::proofs::Lines::told_long, crate::proofs::Lines::told_inputs, crate::proofs::Lines::told_count))]
pub fn put_slice(trace: &[u8], out: &mut [u8]) -> usize
    requires { is_accepted (read_trace trace.now) ≡ true }
    ensures { Wrote out.old 0 (trace_text (read_trace trace.now)) out.new result × (result ≤ 393210) }
{
    let inputs = file::inputs_of(trace);
    let n = file::count_of(trace);
    let a = put_first(inputs, n, out);
    put_lines(trace, n, out, a)
}
