// The walk from the last statement back.
ghost use Rattle.std.specs.Prelude.{◌≡◌, true, false, ◌||◌, ℕ, ◌+◌, ◌≤◌, ◌<◌, length, drop, get_or, eqb};
ghost use Rattle.expr.specs.Number.{number_of};
ghost use Rattle.file.specs.Shown.{is_good, listed};
ghost use Rattle.trace.specs.Trace.{read_trace};
ghost use Rattle.trace.specs.declared.read.Action.TheVariants.{Assign};
ghost use Rattle.trace.specs.Shown.{symbol_room, held, Ready};
ghost use Rattle.slice.specs.Shown.{in_set, keep_by, asserts_by, Stepped, WalkedBack};

use super::reads;
use super::sets::Symbols;
use expr::number;
use file::Kind;
use trace::read;
use trace::read::Action;

// What is kept of the statements behind: whether an Assert is among them, how many they are, and their bytes.
#[derive(Clone, Copy)]
pub struct Kept {
    pub asserts: bool,
    pub count: usize,
    pub size: usize,
}

// Whether a statement is an Assert, by what it does.
fn is_assert(action: Action) -> bool
    ensures { result ≡ asserts_by action }
{
    matches!(action, Action::Test(Kind::Assert))
}

// Whether a statement is kept, by what it does, where `asserts` says if an Assert follows it.
fn keeps(action: Action, asserts: bool, needed: &Symbols) -> bool
    requires { (x : ℕ) → action ≡ Assign x → x < symbol_room }
    ensures { result ≡ keep_by asserts (in_set needed.now) action }
{
    match action {
        Action::Assign(symbol) => needed.contains(symbol),
        Action::Test(kind) => kind == Kind::Assert || asserts,
    }
}

// The statement k, whose record stands at a place.
fn step_back(
    trace: &[u8],
    at: usize,
    k: usize,
    behind: Kept,
    kept: &mut [bool],
    needed: &mut Symbols,
) -> Kept
    requires { (at < 65536) × (k < length kept.old) × (behind.count ≤ 4096) × (behind.size < 65536)
        × (is_good (held (drop at trace.now)) ≡ true) }
    ensures { Stepped (held (drop at trace.now)) (2 + number_of 2 (drop at trace.now)) k behind
        kept.old (in_set needed.old) kept.new (in_set needed.new) result }
{
    let stmt = read::stmt_at(trace, at);
    if keeps(stmt.action, behind.asserts, &*needed) {
        reads::mark_reads(stmt.expr, needed);
        kept[k] = true;
        return Kept {
            asserts: is_assert(stmt.action) || behind.asserts,
            count: behind.count + 1,
            size: behind.size + (2 + number::two_at(trace, at)),
        };
    }
    behind
}

// Sets the entries of the kept statements, and marks the symbols that they read.
pub fn walk_back(trace: &[u8], offsets: &[u16], kept: &mut [bool], needed: &mut Symbols) -> Kept
    requires { Ready trace.now offsets.now (length offsets.now) × (length offsets.now ≤ length kept.old)
        × ((x : ℕ) → in_set needed.old x ≡ false) × ((x : ℕ) → get_or kept.old x false ≡ false) }
    ensures { WalkedBack (listed (read_trace trace.now)) kept.new (in_set needed.new) result }
{
    let mut behind = Kept {
        asserts: false,
        count: 0,
        size: 0,
    };
    for (k, &at) in offsets.iter().enumerate().rev() {
        behind = step_back(trace, at as usize, k, behind, &mut *kept, &mut *needed);
    }
    behind
}
