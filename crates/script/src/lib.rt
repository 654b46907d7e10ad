// The SMT-LIB script of a trace.
#![tactic(auto)]

mod line;
mod operator;
mod term;
mod text;

ghost use Rattle.std.specs.Prelude.{◌≡◌, true, ◌+◌, ◌^◌, ◌≤◌, ◌<◌, length};
ghost use Rattle.std.specs.Result.{IfErr};
ghost use Rattle.file.specs.File.{header_count};
ghost use Rattle.file.specs.Shown.{is_accepted, listed};
ghost use Rattle.trace.specs.Trace.{read_trace};
ghost use Rattle.write.specs.Splice.{Wrote};
ghost use Rattle.write.specs.Shown.{written};
ghost use Rattle.script.specs.Shown.{claim_text, definitions_text, script_in};
ghost use Rattle.script.specs.Answer.{ScriptWritten};

use file::{Reason, Refusal};
use line::{Claim, Declare, Equate};
use trace::read;
pub use write::Written as Answer;

// Everything before the last assertion, from the buffer's first byte: all declarations and equations.
#[tactic(auto, using(crate::proofs::Wholes::definitions))]
fn put_definitions(trace: &[u8], n: usize, out: &mut [u8]) -> usize
    requires { (is_accepted (read_trace trace.now) ≡ true) × (n ≡ header_count trace.now) }
    ensures { Wrote out.old 0 (definitions_text (read_trace trace.now)) out.new result
        × (result ≤ 20000000) }
{
    let a = write::fit_part(b"(set-logic QF_BV)\n", out, 0);
    let b = line::put_inputs(file::inputs_of(trace), out, a);
    let c = line::put_pieces(Declare, trace, n, out, b);
    line::put_pieces(Equate, trace, n, out, c)
}

// The last assertion: the tests up to the last Assert.
#[tactic(auto, using(crate::proofs::Wholes::claims))]
fn put_claim(trace: &[u8], n: usize, out: &mut [u8], at: usize) -> usize
    requires { (is_accepted (read_trace trace.now) ≡ true) × (n ≡ header_count trace.now) × (at ≤ 20000000) }
    ensures { Wrote out.old at (claim_text (listed (read_trace trace.now))) out.new result
        × (result ≤ at + 9000000) }
{
    let last = line::last_assert(trace, n);
    let a = write::fit_part(b"(assert\n", out, at);
    let b = line::put_pieces(Claim, trace, last.statements, out, a);
    let c = write::fit_part(b"false", out, b);
    term::put_closings(last.tests, out, c)
}

// The script of an accepted trace, from the buffer's first byte. Lent too little room, or none, it still counts the letters.
fn put_script(trace: &[u8], out: &mut [u8]) -> usize
    requires { is_accepted (read_trace trace.now) ≡ true }
    ensures { Wrote out.old 0 (script_in (read_trace trace.now)) out.new result × (result ≤ 30000000) }
{
    let n = file::count_of(trace);
    let a = put_definitions(trace, n, out);
    let b = put_claim(trace, n, out, a);
    write::fit_part(b")\n(check-sat)\n", out, b)
}

// How many letters the script of an accepted trace has: it is written into one byte.
fn measure(trace: &[u8]) -> usize
    requires { is_accepted (read_trace trace.now) ≡ true }
    ensures { result ≡ length (script_in (read_trace trace.now)) }
{
    let mut byte: [u8; 1] = [0; 1];
    put_script(trace, &mut byte)
}

// Writes the script of a trace.
pub fn write_script(trace: &[u8], out: &mut [u8]) -> Answer
    ensures { ScriptWritten trace.now out.old out.new result }
{
    Answer::of(try_script(trace, out))
}

// The length of a script that is written, or why none is.
fn try_script(trace: &[u8], out: &mut [u8]) -> Result<u32, Refusal>
    ensures answer { ScriptWritten trace.now out.old out.new (written result) }
    ensures small { IfErr result (λ why. why.offset < 2 ^ 32) }
{
    let mut offsets: [u16; 4096] = [0; 4096];
    read::read_trace(trace, &mut offsets)?;
    if out.len() < measure(trace) {
        return Err(Reason::ShortBuffer.into());
    }
    Ok(put_script(trace, out) as u32)
}
