// What tables and traces share: the header and the framing of records (document 01, "Table and trace bytes").
#![tactic(auto)]

pub mod records;

ghost use Rattle.std.specs.Prelude.{◌≡◌, ◌+◌, ◌*◌, ◌^◌, ◌≤◌, ◌<◌, length, drop};
ghost use Rattle.std.proofs.lemmas.List.Edits.{sets};
ghost use Rattle.expr.specs.Number.{number_of};
ghost use Rattle.expr.specs.Expr.{readable, parse};
ghost use Rattle.file.specs.File.{head_size, inputs_limit, header_version, header_size, header_total, header_inputs, header_count};
ghost use Rattle.file.specs.File.{header_reply, frame};
ghost use Rattle.file.specs.Outcome.{Failed, verdict, place_of};
ghost use Rattle.file.specs.Words.{words_of};
ghost use Rattle.file.specs.declared.Reason.TheVariants.{Expression};
ghost use Rattle.file.specs.Shown.{reply_of, first_reply, frame_in, fault_in, expr_fault, rest_of};

use expr::{File, accept, number};

// Why bytes, or what a caller gave with them, are refused: the numbered replies of document 01.
#[derive(Clone, Copy, PartialEq, Eq)]
pub enum Reason {
    Short = 1,
    Version = 2,
    Length = 3,
    TooMany = 4,
    Record = 5,
    Rule = 6,
    Expression = 7,
    HighBound = 8,
    LongTrace = 9,
    ShortBuffer = 10,
    Valuation = 11,
}

impl From<Reason> for u32 {
    ghost from_gives = { λ reason reply. reply ≡ reply_of reason };

    fn from(reason: Reason) -> u32 {
        reason as u32
    }
}

// A refusal: its reason, and the byte that it points at.
#[derive(Clone, Copy, PartialEq, Eq)]
pub struct Refusal {
    pub reason: Reason,
    pub offset: usize,
}

// A reason points at the first byte of what it refuses.
impl From<Reason> for Refusal {
    ghost from_gives = { λ reason refusal. refusal ≡ record { reason = reason; offset = 0 } };

    fn from(reason: Reason) -> Refusal {
        Refusal { reason, offset: 0 }
    }
}

impl Refusal {
    // The same refusal, counted from so many bytes before.
    pub fn after(self, start: usize) -> Refusal
        requires { start + self.offset < 2 ^ 64 }
        ensures { result ≡ record { reason = self.reason; offset = start + self.offset } }
    {
        Refusal {
            reason: self.reason,
            offset: start + self.offset,
        }
    }
}

// Why a file is refused, and how many of its records are read before that.
#[derive(Clone, Copy, PartialEq, Eq)]
pub struct Unread {
    pub why: Refusal,
    pub count: usize,
}

// A header that is refused comes before every record.
impl From<Reason> for Unread {
    ghost from_gives = { λ reason unread. unread ≡ record { why = record { reason = reason; offset = 0 }; count = 0 } };

    fn from(reason: Reason) -> Unread {
        Unread {
            why: reason.into(),
            count: 0,
        }
    }
}

impl From<Unread> for Refusal {
    ghost from_gives = { λ u refusal. refusal ≡ u.why };

    fn from(unread: Unread) -> Refusal {
        unread.why
    }
}

// What a test is for: an assumption, what must hold, the bound on back jumps.
#[derive(Clone, Copy, PartialEq, Eq)]
pub enum Kind {
    Assume = 2,
    Assert = 3,
    Bound = 4,
}

// A false test, with the place where it stands.
#[derive(Clone, Copy, PartialEq, Eq)]
pub struct Failure {
    pub kind: Kind,
    pub place: u32,
}

impl Failure {
    // The verdict's number: 1 unsafe, 2 stopped by an Assume, 3 cut by the bound.
    pub fn verdict(self) -> u32
        ensures { result ≡ verdict (Failed self.kind self.place) }
    {
        match self.kind {
            Kind::Assume => 2,
            Kind::Assert => 1,
            Kind::Bound => 3,
        }
    }

    // The place that goes with it: only unsafe has one.
    pub fn answered_place(self) -> u32
        ensures { result ≡ place_of (Failed self.kind self.place) }
    {
        if self.kind == Kind::Assert {
            self.place
        } else {
            0
        }
    }
}

// Room for the inputs of any version.
pub const INPUT_ROOM: usize = 64;

// A file's version, its first byte; 0 where there is none.
pub fn version_of(s: &[u8]) -> u8
    ensures { result ≡ header_version s.now }
{
    s.first().copied().unwrap_or(0)
}

// The bytes of a version's header, and of a file's.
pub fn head_size(version: u8) -> usize
    ensures { (result ≡ head_size version) × (result < 65536) }
{
    6
}

pub fn header_size(s: &[u8]) -> usize
    ensures { result ≡ header_size s.now }
{
    head_size(version_of(s))
}

// The most inputs that a file's version allows.
fn inputs_limit(s: &[u8]) -> usize
    ensures { result ≡ inputs_limit (header_version s.now) }
{
    INPUT_ROOM
}

// What a header says: the file's length, the number of its inputs, and that of its records.
fn total_of(s: &[u8]) -> usize
    requires { header_size s.now ≤ length s.now }
    ensures { result ≡ header_total s.now }
{
    number::two_at(s, 1)
}

pub fn inputs_of(s: &[u8]) -> usize
    requires { header_size s.now ≤ length s.now }
    ensures { result ≡ header_inputs s.now }
{
    usize::from(s[3])
}

pub fn count_of(s: &[u8]) -> usize
    requires { header_size s.now ≤ length s.now }
    ensures { result ≡ header_count s.now }
{
    number::two_at(s, 4)
}

// The first reason, of those with the replies 1 to 4, for which a header is refused; `known` says whether its version is.
pub fn header_reply(s: &[u8], known: bool, limit: usize) -> Result<(), Reason>
    ensures { first_reply result ≡ header_reply (λ version. known) limit s.now }
{
    if s.len() < header_size(s) {
        return Err(Reason::Short);
    }
    if !known {
        return Err(Reason::Version);
    }
    if total_of(s) != s.len() {
        return Err(Reason::Length);
    }
    if inputs_limit(s) < inputs_of(s) {
        return Err(Reason::TooMany);
    }
    if limit < count_of(s) {
        return Err(Reason::TooMany);
    }
    Ok(())
}

// The length of the record at a place, after its length field; none where that is missing, 0 or passes the end.
pub fn frame_at(s: &[u8], at: usize) -> Option<usize>
    requires { at ≤ length s.now }
    ensures { result ≡ frame_in (drop at s.now) }
{
    let left = s.len() - at;
    if left < 2 {
        return None;
    }
    let len = number::two_at(s, at);
    if left < 2 + len {
        return None;
    }
    if len == 0 {
        return None;
    }
    Some(len)
}

// Refuses the expression from a place of a record's body on at the first token that breaks its rules. It may read inputs, and the symbols
// that are marked as assigned.
pub fn expr_fault(
    body: &[u8],
    from: usize,
    f: File,
    inputs: usize,
    assigned: &[bool],
) -> Result<(), Refusal>
    requires { from ≤ length body.now }
    ensures { fault_in result ≡ expr_fault (length body.now) (parse f (readable inputs assigned.now) (drop from body.now)) }
{
    match accept::check_expr(&body[from..], f, inputs, assigned) {
        Ok(()) => Ok(()),
        Err(at) => Err(broken(from, at)),
    }
}

// The refusal of a token so far behind a place of a record's body. Out of line, since else every good expression pays for it.
#[cold]
#[inline(never)]
fn broken(from: usize, at: usize) -> Refusal
    requires { 2 + from + at < 2 ^ 64 }
    ensures { result ≡ record { reason = Expression; offset = 2 + from + at } }
{
    Refusal {
        reason: Reason::Expression,
        offset: 2 + from + at,
    }
}

// The bytes of the record at a place, from one of them on.
pub fn rest_of(s: &[u8], at: usize, from: usize) -> &[u8]
    requires { (from ≤ 2 + number_of 2 (drop at s.now)) × (at + (2 + number_of 2 (drop at s.now)) ≤ length s.now) }
    ensures { result.now ≡ rest_of s.now at from }
{
    let end = at + (2 + number::two_at(s, at));
    &s[at + from..end]
}

// Copies the words of a valuation to the front of an array.
pub fn copy_words(words: &[u32], cells: &mut [u32])
    requires { length words.now ≤ length cells.old }
    ensures { cells.new ≡ sets cells.old 0 words.now }
{
    cells[..words.len()].copy_from_slice(words);
}

// Stores `count` words, which are handed as bytes, at the front of an array.
pub fn decode(bytes: &[u8], count: usize, words: &mut [u32])
    requires { (4 * count ≤ length bytes.now) × (count ≤ length words.old) }
    ensures { words.new ≡ sets words.old 0 (words_of count bytes.now) }
{
    for s in 0..count {
        words[s] = number::word_at(bytes, 4 * s);
    }
}
