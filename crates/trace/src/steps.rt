// Judging an accepted trace.
ghost use Rattle.std.specs.Prelude.{◌≡◌, true, ◌<◌, length, drop};
ghost use Rattle.expr.specs.Eval.{env_of};
ghost use Rattle.file.specs.Shown.{is_good, listed, outcome_of};
ghost use Rattle.trace.specs.Trace.{read_trace};
ghost use Rattle.trace.specs.Judge as Judge;
ghost use Rattle.trace.specs.Shown.{symbol_room, held, next_of, step_body, Ready};

use super::read;
use super::read::Action;
use expr::{File, eval};
use file::Failure;

// The statement whose record stands at a place of the trace: judging goes on behind it, or ends.
fn step_at(trace: &[u8], at: usize, cells: &mut [u32]) -> Result<(), Failure>
    requires { (at < 65536) × (length cells.old ≡ symbol_room) × (is_good (held (drop at trace.now)) ≡ true) }
    ensures { next_of result (env_of cells.new) ≡ step_body (held (drop at trace.now)) (env_of cells.old) }
{
    let stmt = read::stmt_at(trace, at);
    let value = eval::eval_expr(stmt.expr, File::Trace, &*cells);
    match stmt.action {
        Action::Assign(symbol) => {
            cells[symbol] = value;
            Ok(())
        }
        Action::Test(kind) => {
            if value == 0 {
                return Err(Failure {
                    kind,
                    place: stmt.place,
                });
            }
            Ok(())
        }
    }
}

// From the first statement with the values given.
pub fn judge_from(trace: &[u8], offsets: &[u16], cells: &mut [u32]) -> Result<(), Failure>
    requires { Ready trace.now offsets.now (length offsets.now) × (length cells.old ≡ symbol_room) }
    ensures { outcome_of result ≡ Judge.judge (listed (read_trace trace.now)) (env_of cells.old) }
{
    for &at in offsets {
        step_at(trace, at as usize, &mut *cells)?;
    }
    Ok(())
}
