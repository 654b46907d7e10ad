// The text of a slice, as the slice printer gives it.
#![tactic(auto)]

mod line;
mod word;

ghost use Rattle.std.specs.Prelude.{◌≡◌, ℕ, true, ◌≤◌, ◌<◌, ◌^◌, List, length};
ghost use Rattle.std.specs.Result.{IfErr};
ghost use Rattle.file.specs.Shown.{reply_of, is_accepted};
ghost use Rattle.trace.specs.Trace.{read_trace};
ghost use Rattle.write.specs.Shown.{written};
ghost use Rattle.slice.specs.Answer.{slice_answer};
ghost use Rattle.show.specs.Text.{refusal_text, trace_text, sliced_text};
ghost use Rattle.show.specs.Answer.{SliceShown};
ghost use Rattle.show.specs.Shown.{Puts, Counts, Fitted};

use file::{Reason, Refusal};
pub use write::Written as Answer;

// Room for any trace.
fn room() -> [u8; 65535]
    ensures { length result ≡ 65535 }
{
    [0; 65535]
}

// A text, by what writes it into a buffer and counts its letters. It is measured before the first letter is written.
fn show_text<W: Fn(&mut [u8]) -> usize>(put: W, out: &mut [u8]) -> Result<u32, Refusal>
    requires callable { W.IsAlwaysCallable put }
    requires short { Counts (W.post put) (2 ^ 32) }
    ensures text { (text : List ℕ) → Puts (W.post put) text → Fitted text out.old out.new (written result) }
    ensures small { IfErr result (λ why. why.offset < 2 ^ 32) }
{
    let mut one: [u8; 1] = [0; 1];
    let size = put(&mut one);
    if out.len() < size {
        return Err(Reason::ShortBuffer.into());
    }
    Ok(put(out) as u32)
}

// The text of a refusal.
fn show_refusal(why: Refusal, out: &mut [u8]) -> Result<u32, Refusal>
    requires { why.offset < 2 ^ 32 }
    ensures text { Fitted (refusal_text (reply_of why.reason) why.offset) out.old out.new (written result) }
    ensures small { IfErr result (λ why. why.offset < 2 ^ 32) }
{
    let reply = u32::from(why.reason);
    let offset = why.offset as u32;
    show_text(|b: &mut [u8]| word::put_refusal(reply, offset, b), out)
}

// The text of an accepted trace.
fn show_trace(trace: &[u8], out: &mut [u8]) -> Result<u32, Refusal>
    requires { is_accepted (read_trace trace.now) ≡ true }
    ensures text { Fitted (trace_text (read_trace trace.now)) out.old out.new (written result) }
    ensures small { IfErr result (λ why. why.offset < 2 ^ 32) }
{
    show_text(|b: &mut [u8]| line::put_slice(trace, b), out)
}

// The text of the slice of an accepted trace.
fn show_sliced(trace: &[u8], out: &mut [u8]) -> Result<u32, Refusal>
    requires { (is_accepted (read_trace trace.now) ≡ true) × (length trace.now ≤ 65535) }
    ensures text { Fitted (sliced_text (slice_answer trace.now 65535)) out.old out.new (written result) }
    ensures small { IfErr result (λ why. why.offset < 2 ^ 32) }
{
    let mut kept = room();
    let s = slice::slice_trace(trace, &mut kept);
    let n = s.length as usize;
    show_trace(&kept[..n], out)
}

// The length of a text that is written, or why there is none.
fn try_show(input: &[u8], out: &mut [u8]) -> Result<u32, Refusal>
    ensures text { SliceShown input.now out.old out.new (written result) }
    ensures small { IfErr result (λ why. why.offset < 2 ^ 32) }
{
    if input.is_empty() {
        return show_refusal(Reason::Short.into(), out);
    }
    let mut trace = room();
    match unwind::try_write(&input[1..], u64::from(input[0]), &mut trace) {
        Ok(n) => show_sliced(&trace[..n as usize], out),
        Err(why) => show_refusal(why, out),
    }
}

// The slice of a rule under a bound, as text: from K as one byte and then the table.
pub fn show_slice(input: &[u8], out: &mut [u8]) -> Answer
    ensures { SliceShown input.now out.old out.new result }
{
    Answer::of(try_show(input, out))
}
