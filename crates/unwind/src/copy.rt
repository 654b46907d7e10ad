// The copies of a table's instructions, each with its exit, as the records of a trace.
ghost use Rattle.std.specs.Prelude.{◌≡◌, true, [], ◌∷◌, ◌+◌, ◌*◌, ◌≤◌, ◌<◌, length, drop};
ghost use Rattle.file.specs.Outcome.{Bound};
ghost use Rattle.file.specs.File.{header_inputs, record_of, records_bytes};
ghost use Rattle.file.specs.Shown.{is_good, listed};
ghost use Rattle.table.specs.Table.{instr, read_table};
ghost use Rattle.trace.specs.Trace.{stmt_bytes};
ghost use Rattle.write.specs.Splice.{Wrote};
ghost use Rattle.unwind.specs.Places.{At, jump_in, copy_from, places};
ghost use Rattle.unwind.specs.Unwind.{statements};
ghost use Rattle.unwind.specs.Shown.{newest_of, place_of, tokens_in, Written};

use super::record;
use super::record::Guarded;
use super::source::Source;
use table::read;
use table::read::Action;

// How far the writing has come: the newest symbol of control, the next new symbol, and the next place of the buffer.
#[derive(Clone, Copy)]
pub struct Front {
    pub control: usize,
    pub next: usize,
    pub to: usize,
}

impl Front {
    // Behind a test, up to a place of the buffer.
    fn tested(self, to: usize) -> Front
        ensures { result ≡ record { control = self.control; next = self.next; to = to } }
    {
        Front { to, ..self }
    }

    // Behind an Assign of the next new symbol.
    fn assigned(self, to: usize) -> Front
        requires { self.next < 65535 }
        ensures { result ≡ record { control = self.control; next = self.next + 1; to = to } }
    {
        Front {
            next: self.next + 1,
            to,
            ..self
        }
    }

    // Behind a jump or an exit: the symbol that it assigns is the newest symbol of control.
    fn moved(self, to: usize) -> Front
        requires { self.next < 65535 }
        ensures { result ≡ record { control = self.next; next = self.next + 1; to = to } }
    {
        Front {
            control: self.next,
            next: self.next + 1,
            to,
        }
    }
}

// Copy r of a table's n instructions, of the copies 0 to `bound`.
#[derive(Clone, Copy)]
struct Round {
    pub n: usize,
    pub bound: usize,
    pub r: usize,
    ghost few: { n ≤ 1024 },
    ghost inside: { r ≤ bound },
    ghost small: { bound ≤ 255 },
}

impl Round {
    // The place of its instruction i, or of its exit behind the last one.
    fn place(self, i: usize) -> usize
        requires { i ≤ self.n }
        ensures { (result ≡ self.r * (self.n + 1) + i) × (result ≤ 263424) }
    {
        self.r * (self.n + 1) + i
    }

    // The same place of the next copy.
    fn next_place(self, i: usize) -> usize
        requires { (i ≤ self.n) × (self.r < self.bound) }
        ensures { (result ≡ (self.r + 1) * (self.n + 1) + i) × (result ≤ 263424) }
    {
        (self.r + 1) * (self.n + 1) + i
    }

    // The place behind all copies.
    fn end(self) -> usize
        ensures { (result ≡ (self.bound + 1) * (self.n + 1)) × (result ≤ 263424) }
    {
        (self.bound + 1) * (self.n + 1)
    }
}

// The jump of instruction i to instruction t, with its condition and its place in the copy.
fn write_jump(here: Guarded, copy: Round, i: usize, t: usize, f: Front, out: &mut [u8]) -> Front
    requires { (here.control ≡ f.control) × (t ≤ copy.n) × (f.next < 65535)
        × (f.to + length (records_bytes stmt_bytes
        (statements Bound (newest_of here.names.now here.control f.next)
        (At here.place (jump_in copy.n copy.bound copy.r i t (tokens_in here.names.now here.expr.now)) ∷ []))) ≤ length out.old) }
    ensures { Written (newest_of here.entry.names.now here.entry.control f.next)
        (At here.entry.place (jump_in copy.n copy.bound copy.r i t (tokens_in here.entry.names.now here.entry.expr.now)) ∷ []) out.old
        f.to out.new here.entry.names.now result }
{
    if i < t {
        let goal = copy.place(t);
        let to = here.put_jump(f.next, goal, out, f.to);
        return f.moved(to);
    }
    if copy.r < copy.bound {
        let goal = copy.next_place(t);
        let to = here.put_jump(f.next, goal, out, f.to);
        return f.moved(to);
    }
    let to = here.put_bound(out, f.to);
    f.tested(to)
}

// Instruction i, whose record stands at a place of the table.
fn write_place(
    table: &[u8],
    at: usize,
    copy: Round,
    i: usize,
    names: &mut [u16],
    f: Front,
    out: &mut [u8],
) -> Front
    requires { (i < copy.n) × (f.next < 65535)
        × (is_good (record_of (instr (length names.old) copy.n) (drop at table.now)) ≡ true)
        × (f.to + length (records_bytes stmt_bytes
        (statements Bound (newest_of names.old f.control f.next)
        (place_of copy.n copy.bound copy.r i (record_of (instr (length names.old) copy.n) (drop at table.now)) ∷ []))) ≤ length out.old) }
    ensures { Written (newest_of names.old f.control f.next)
        (place_of copy.n copy.bound copy.r i (record_of (instr (length names.old) copy.n) (drop at table.now)) ∷ []) out.old
        f.to out.new names.new result }
{
    let instr = read::instr_at(table, at);
    let here = Guarded {
        expr: instr.expr,
        names: &*names,
        control: f.control,
        place: copy.place(i),
    };
    match instr.action {
        Action::Assign(symbol) => {
            let old = usize::from(here.names[symbol]);
            let to = here.put_assign(f.next, old, out, f.to);
            names[symbol] = f.next as u16;
            f.assigned(to)
        }
        Action::Test(kind) => {
            let to = here.put_test(kind, out, f.to);
            f.tested(to)
        }
        Action::Goto(target) => write_jump(here, copy, i, target, f, out),
    }
}

// Copy r, and its exit.
fn write_copy(
    source: Source,
    bound: usize,
    r: usize,
    names: &mut [u16],
    f: Front,
    out: &mut [u8],
) -> Front
    requires { (r ≤ bound) × (bound ≤ 255) × (f.next + (length source.offsets.now + 1) ≤ 65535)
        × (header_inputs source.table.now ≤ length names.old)
        × (f.to + length (records_bytes stmt_bytes
        (statements Bound (newest_of names.old f.control f.next)
        (copy_from (length source.offsets.now) bound r 0 (listed (read_table source.table.now)))))
        ≤ length out.old) }
    ensures { Written (newest_of names.old f.control f.next)
        (copy_from (length source.entry.offsets.now) bound r 0 (listed (read_table source.entry.table.now))) out.old
        f.to out.new names.new result }
{
    let copy = Round {
        n: source.offsets.len(),
        bound,
        r,
    };
    let mut g = f;
    for (i, &at) in source.offsets.iter().enumerate() {
        g = write_place(
            source.table,
            usize::from(at),
            copy,
            i,
            &mut *names,
            g,
            &mut *out,
        );
    }
    let to = record::put_exit(g.control, copy.place(copy.n), g.next, copy.end(), out, g.to);
    g.moved(to)
}

// All copies; the next place of the buffer.
pub fn write_copies(
    source: Source,
    bound: usize,
    names: &mut [u16],
    f: Front,
    out: &mut [u8],
) -> usize
    requires { (bound ≤ 255) × (f.next + (bound + 1) * (length source.offsets.now + 1) ≤ 65535)
        × (header_inputs source.table.now ≤ length names.old)
        × (f.to + length (records_bytes stmt_bytes
        (statements Bound (newest_of names.old f.control f.next) (places (listed (read_table source.table.now)) bound)))
        ≤ length out.old) }
    ensures { Wrote out.old f.to
        (records_bytes stmt_bytes (statements Bound (newest_of names.old f.control f.next)
        (places (listed (read_table source.entry.table.now)) bound))) out.new result }
{
    let mut g = f;
    for r in 0..=bound {
        g = write_copy(source, bound, r, &mut *names, g, &mut *out);
    }
    g.to
}
