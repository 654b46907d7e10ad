// The records of a file, read one after the other.
ghost use Rattle.std.specs.Prelude.{◌≡◌, true, ◌+◌, ◌≤◌, ◌<◌, ℕ, List, length, drop};
ghost use Rattle.file.specs.File.{Low, header_size, Body, Good, record_of};
ghost use Rattle.file.specs.Shown.{fault_in, fault_of, is_good, ReadRecords};
ghost use Rattle.file.specs.declared.Reason.TheVariants.{Record};

use super::{Reason, Refusal, Unread};

// What reads a kind of file's records: it knows what a record may be, from the file and from the records before it.
pub trait Reader {
    ghost Thing: { Type 0 };

    ghost State: { Type 0 };

    // what a record's bytes after its length are, after records that leave a state; and the state that a thing leaves
    ghost one: { Self → State → List ℕ → Body Thing };

    ghost next: { Self → State → Thing → State };

    ghost state: { Self → State };

    ghost ready: { Self → Type 0 };

    // Refuses a record by its bytes after its length.
    fn check(&self, body: &[u8]) -> Result<(), Refusal>
        requires { (0 < length body.now) × ready self.now }
        ensures { fault_in result ≡ fault_of (length body.now) (one self.now (state self.now) body.now) };

    // Goes on behind the record at a place.
    fn learn(&mut self, s: &[u8], at: usize)
        requires { (at < 65536) × ready self.old × (is_good (record_of (one self.old (state self.old)) (drop at s.now)) ≡ true) }
        ensures { ready self.new × (one self.new ≡ one self.old) × (next self.new ≡ next self.old)
            × ((x : Thing) → record_of (one self.old (state self.old)) (drop at s.now) ≡ Good x
            → state self.new ≡ next self.old (state self.old) x) };

    // no record is refused with a reply below 5
    ghost low: { (r : Self) (σ : State) (bs : List ℕ) → Low (one r σ bs) };
}

// So many records are read, and at a place behind them is none.
fn no_record(at: usize, count: usize) -> Unread
    ensures { result ≡ record { why = record { reason = Record; offset = at }; count = count } }
{
    Unread {
        why: Refusal {
            reason: Reason::Record,
            offset: at,
        },
        count,
    }
}

// Reads n records, from the header on, and stores their offsets.
pub fn read_records<R: Reader + Drop>(
    s: &[u8],
    mut reader: R,
    n: usize,
    offsets: &mut [u16],
) -> Result<usize, Unread>
    requires { (header_size s.now ≤ length s.now) × (length s.now < 65536) × (n ≤ length offsets.old) × R.ready reader }
    ensures { ReadRecords (R.one reader) (R.next reader) s.now n (R.state reader) offsets.old offsets.new result }
{
    let mut at = super::header_size(s);
    for k in 0..n {
        let Some(len) = super::frame_at(s, at) else {
            return Err(no_record(at, k));
        };
        if let Err(refusal) = reader.check(&s[at + 2..at + (2 + len)]) {
            return Err(Unread {
                why: refusal.after(at),
                count: k,
            });
        }
        offsets[k] = at as u16;
        reader.learn(s, at);
        at += 2 + len;
    }
    if at != s.len() {
        return Err(no_record(at, n));
    }
    Ok(n)
}
