// The trace of a table under a bound, written as bytes.
#![tactic(auto)]

mod copy;
mod record;
mod size;
mod source;
mod tokens;

ghost use Rattle.std.specs.Prelude.{◌≡◌, ℕ, ◌+◌, ◌*◌, ◌^◌, ◌≤◌, ◌<◌, length};
ghost use Rattle.std.specs.Result.{IfErr};
ghost use Rattle.file.specs.Outcome.{Bound};
ghost use Rattle.file.specs.File.{input_room, header_inputs};
ghost use Rattle.file.specs.Shown.{listed};
ghost use Rattle.table.specs.Table.{read_table};
ghost use Rattle.trace.specs.Trace.{trace_head, encode_trace};
ghost use Rattle.write.specs.Splice.{over};
ghost use Rattle.write.specs.Shown.{written};
ghost use Rattle.unwind.specs.Unwind.{unwind};
ghost use Rattle.unwind.specs.Size.{trace_size};
ghost use Rattle.unwind.specs.Answer.{TraceWritten};
ghost use Rattle.unwind.specs.Shown.{current_of};

use copy::Front;
use file::{INPUT_ROOM, Reason, Refusal};
use source::Source;
use std::array;
use table::read;
pub use write::Written as Answer;

// At first the current symbol of every program symbol is the input itself.
fn first_names() -> [u16; INPUT_ROOM]
    ensures { (length result ≡ input_room) × ((s : ℕ) → current_of result s ≡ s) }
{
    array::from_fn(|s| s as u16)
}

// The header, the opening and all copies, of a trace whose statements and bytes are counted and fit.
fn write_all(source: Source, bound: usize, count: usize, total: usize, out: &mut [u8])
    requires { (bound ≤ 255)
        × (count ≡ 1 + (bound + 1) * (length source.offsets.now + 1)) × (count ≤ 4096)
        × (total ≡ trace_size (listed (read_table source.table.now)) bound) × (total ≤ length out.old) }
    ensures { out.new ≡ over (encode_trace (trace_head (header_inputs source.entry.table.now))
        (unwind Bound (header_inputs source.entry.table.now) (listed (read_table source.entry.table.now)) bound)) out.old }
{
    let inputs = file::inputs_of(source.table);
    let a = write::put_header(trace::VERSION, total, inputs, count, out);
    let b = record::put_opening(inputs, out, a);
    let mut names = first_names();
    let f = Front {
        control: inputs,
        next: inputs + 1,
        to: b,
    };
    let _ = copy::write_copies(source, bound, &mut names, f, out);
}

// Writes the trace of a table under a bound.
pub fn write_trace(table: &[u8], bound: u64, out: &mut [u8]) -> Answer
    ensures { TraceWritten table.now bound out.old out.new result }
{
    Answer::of(try_write(table, bound, out))
}

// The length of a trace that is written, or why there is none.
pub fn try_write(table: &[u8], bound: u64, out: &mut [u8]) -> Result<u32, Refusal>
    ensures answer { TraceWritten table.now bound out.old out.new (written result) }
    ensures small { IfErr result (λ why. why.offset < 2 ^ 32) }
{
    let mut offsets: [u16; 1024] = [0; 1024];
    let n = read::read_table(table, &mut offsets)?;
    if 255 < bound {
        return Err(Reason::HighBound.into());
    }
    let k = bound as usize;
    let count = 1 + (k + 1) * (n + 1);
    if 4096 < count {
        return Err(Reason::LongTrace.into());
    }
    let source = Source {
        table,
        offsets: &offsets[..n],
    };
    let total = size::trace_size(source, k);
    if 65535 < total {
        return Err(Reason::LongTrace.into());
    }
    if out.len() < total {
        return Err(Reason::ShortBuffer.into());
    }
    write_all(source, k, count, total, out);
    Ok(total as u32)
}
