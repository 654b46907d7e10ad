// The length of a trace, before it is written.
ghost use Rattle.std.specs.Prelude.{◌≡◌, true, false, ◌+◌, ◌*◌, ◌≤◌, ◌<◌, length, drop};
ghost use Rattle.file.specs.File.{input_room, record_of};
ghost use Rattle.file.specs.Shown.{is_good, listed};
ghost use Rattle.table.specs.Table.{instr, read_table};
ghost use Rattle.unwind.specs.Size.{copy_size, trace_size};
ghost use Rattle.unwind.specs.Shown.{size_in};

use super::source::Source;
use super::tokens;
use table::read;
use table::read::Action;

// The bytes of an instruction or of a whole copy, in the copies before the last one and in the last one.
#[derive(Clone, Copy)]
struct Sizes {
    pub early: usize,
    pub last: usize,
}

// The record of instruction i, which stands at a place of the table.
fn instr_sizes(table: &[u8], at: usize, n: usize, i: usize) -> Sizes
    requires { (length table.now < 65536) × (is_good (record_of (instr input_room n) (drop at table.now)) ≡ true) }
    ensures { (result.early ≡ size_in false i (record_of (instr input_room n) (drop at table.now)))
        × (result.last ≡ size_in true i (record_of (instr input_room n) (drop at table.now))) × (result.early ≤ 131200)
        × (result.last ≤ 131200) }
{
    let instr = read::instr_at(table, at);
    let size = tokens::expr_size(instr.expr);
    match instr.action {
        Action::Goto(target) if target <= i => Sizes {
            early: 29 + size,
            last: 21 + size,
        },
        Action::Goto(_) => Sizes {
            early: 29 + size,
            last: 29 + size,
        },
        Action::Assign(_) | Action::Test(_) => Sizes {
            early: 20 + size,
            last: 20 + size,
        },
    }
}

// The records of a copy; the sums begin with the 25 bytes of its exit.
fn copy_sizes(source: Source) -> Sizes
    ensures { (result.early ≡ copy_size false 0 (listed (read_table source.entry.table.now)))
        × (result.last ≡ copy_size true 0 (listed (read_table source.entry.table.now)))
        × (result.early ≤ 134348825) × (result.last ≤ 134348825) }
{
    let mut sum = Sizes {
        early: 25,
        last: 25,
    };
    for (i, &at) in source.offsets.iter().enumerate() {
        let s = instr_sizes(source.table, usize::from(at), source.offsets.len(), i);
        sum.early += s.early;
        sum.last += s.last;
    }
    sum
}

// The bytes of the whole trace.
pub fn trace_size(source: Source, bound: usize) -> usize
    requires { bound ≤ 255 }
    ensures { result ≡ trace_size (listed (read_table source.entry.table.now)) bound }
{
    let s = copy_sizes(source);
    file::head_size(trace::VERSION) + (12 + (bound * s.early + s.last))
}
