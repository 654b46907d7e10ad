// The kept records, byte for byte.
ghost use Rattle.std.specs.Prelude.{◌≡◌, true, ◌+◌, ◌≤◌, ◌<◌, length, drop};
ghost use Rattle.file.specs.File.{records_bytes};
ghost use Rattle.file.specs.Shown.{is_good, listed};
ghost use Rattle.trace.specs.Trace.{read_trace, stmt_bytes};
ghost use Rattle.trace.specs.Shown.{held, Ready};
ghost use Rattle.write.specs.Splice.{Wrote};
ghost use Rattle.slice.specs.Shown.{kept, kept_bytes};

// The record at a place, if it is kept.
fn copy_record(trace: &[u8], at: usize, keep: bool, out: &mut [u8], to: usize) -> usize
    requires { (at < 65536) × (is_good (held (drop at trace.now)) ≡ true)
        × (to + length (kept_bytes keep (held (drop at trace.now))) ≤ length out.old) }
    ensures { Wrote out.old to (kept_bytes keep (held (drop at trace.now))) out.new result }
{
    if keep {
        return write::put_part(file::rest_of(trace, at, 0), out, to);
    }
    to
}

// The records whose entries are set.
pub fn copy_kept(trace: &[u8], offsets: &[u16], flags: &[bool], out: &mut [u8], to: usize) -> usize
    requires { Ready trace.now offsets.now (length offsets.now) × (length offsets.now ≤ length flags.now)
        × (to + length (records_bytes stmt_bytes (kept flags.now (listed (read_trace trace.now)))) ≤ length out.old) }
    ensures { Wrote out.old to
        (records_bytes stmt_bytes (kept flags.now (listed (read_trace trace.now)))) out.new result }
{
    let mut at = to;
    for (&from, &keep) in offsets.iter().zip(flags) {
        at = copy_record(trace, from as usize, keep, &mut *out, at);
    }
    at
}
