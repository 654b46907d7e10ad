// The slice of a trace.
#![tactic(auto)]

mod back;
mod copy;
mod mask;
mod reads;
mod sets;

ghost use Rattle.std.specs.Prelude.{◌≡◌, ◌<◌, ◌^◌};
ghost use Rattle.std.specs.Result.{IfErr};
ghost use Rattle.file.specs.Shown.{reply_of};
ghost use Rattle.slice.specs.Answer.{refusal, numbers, SliceWritten};
ghost use Rattle.slice.specs.Shown.{answer_in};

use file::{Reason, Refusal};
use sets::Symbols;
use trace::read;

// Document 01's answer to slicing: a reply and its offset, the length written, the mask of the inputs that the slice reads, and the
// count of its ones.
#[derive(Clone, Copy)]
pub struct Answer {
    pub reply: u32,
    pub offset: u32,
    pub length: u32,
    pub mask: u64,
    pub inputs: u32,
}

impl Answer {
    fn refused(why: Refusal) -> Answer
        requires { why.offset < 2 ^ 32 }
        ensures { result ≡ numbers (refusal (reply_of why.reason) why.offset) }
    {
        Answer {
            reply: why.reason.into(),
            offset: why.offset as u32,
            length: 0,
            mask: 0,
            inputs: 0,
        }
    }
}

// Writes the slice of a trace.
pub fn slice_trace(trace: &[u8], out: &mut [u8]) -> Answer
    ensures { SliceWritten trace.now out.old out.new result }
{
    match try_slice(trace, out) {
        Ok(answer) => answer,
        Err(why) => Answer::refused(why),
    }
}

// The answer of a slice that is written, or why there is none.
fn try_slice(trace: &[u8], out: &mut [u8]) -> Result<Answer, Refusal>
    ensures answer { SliceWritten trace.now out.old out.new (answer_in result) }
    ensures small { IfErr result (λ why. why.offset < 2 ^ 32) }
{
    let mut offsets: [u16; 4096] = [0; 4096];
    let n = read::read_trace(trace, &mut offsets)?;
    let stored = &offsets[..n];
    let mut flags: [bool; 4096] = [false; 4096];
    let mut needed = Symbols::new();
    let k = back::walk_back(trace, stored, &mut flags, &mut needed);
    let total = file::header_size(trace) + k.size;
    if out.len() < total {
        return Err(Reason::ShortBuffer.into());
    }
    let to = write::put_header_of(trace, total, k.count, out);
    let _ = copy::copy_kept(trace, stored, &flags, out, to);
    let mask = mask::mask_of(&needed, file::inputs_of(trace));
    Ok(Answer {
        reply: 0,
        offset: 0,
        length: total as u32,
        mask,
        inputs: mask.count_ones(),
    })
}
