// Running an accepted table.
ghost use Rattle.std.specs.Prelude.{◌≡◌, true, ◌+◌, ◌*◌, ◌≤◌, ◌<◌, length, drop};
ghost use Rattle.expr.specs.Eval.{Env, env_of};
ghost use Rattle.file.specs.File.{header_inputs, record_of};
ghost use Rattle.file.specs.Shown.{is_good, listed};
ghost use Rattle.table.specs.Table.{instr, read_table};
ghost use Rattle.table.specs.Run.{place_in, run_from};
ghost use Rattle.table.specs.Run as Run;
ghost use Rattle.table.specs.Shown.{next_of, ran_of, step_body, Ready};

use super::read;
use super::read::Action;
use expr::{File, eval};
use file::{Failure, Kind};

// How a run ends, and the back jumps taken.
#[derive(Clone, Copy)]
pub struct Ran {
    pub end: Result<(), Failure>,
    pub back_jumps: u32,
}

// Where a run stands: at instruction i, with r back jumps taken.
#[derive(Clone, Copy)]
struct Spot {
    i: usize,
    r: usize,
}

// What stays as it is: the number of instructions, and the bound on back jumps.
#[derive(Clone, Copy)]
struct Limits {
    n: usize,
    bound: usize,
}

impl Limits {
    // A test that is false at a spot.
    fn failure(self, kind: Kind, spot: Spot) -> Failure
        requires { (self.n ≤ 1024) × (spot.i < self.n) × (spot.r ≤ self.bound) × (self.bound ≤ 255) }
        ensures { result ≡ record { kind = kind; place = place_in self.n spot.r spot.i } }
    {
        Failure {
            kind,
            place: (spot.r * (self.n + 1) + spot.i) as u32,
        }
    }

    // A jump from a spot to an instruction, whose condition is true.
    fn jump(self, spot: Spot, target: usize) -> Result<Spot, Failure>
        requires { (self.n ≤ 1024) × (spot.i < self.n) × (spot.r ≤ self.bound) × (self.bound ≤ 255) }
        ensures { (ρ : Env) → next_of result ρ ≡ Run.jump self.n self.bound spot.i spot.r target ρ }
    {
        if spot.i < target {
            return Ok(Spot {
                i: target,
                r: spot.r,
            });
        }
        if spot.r < self.bound {
            return Ok(Spot {
                i: target,
                r: spot.r + 1,
            });
        }
        Err(self.failure(Kind::Bound, spot))
    }

    // The instruction at a spot, whose record stands at a place of the table.
    fn step(self, spot: Spot, table: &[u8], at: usize, vals: &mut [u32]) -> Result<Spot, Failure>
        requires { (at < 65536) × (self.n ≤ 1024) × (spot.i < self.n) × (spot.r ≤ self.bound) × (self.bound ≤ 255)
            × (is_good (record_of (instr (length vals.old) self.n) (drop at table.now)) ≡ true) }
        ensures { next_of result (env_of vals.new) ≡ step_body self.n self.bound spot.i spot.r
            (record_of (instr (length vals.old) self.n) (drop at table.now)) (env_of vals.old) }
    {
        let instr = read::instr_at(table, at);
        let value = eval::eval_expr(instr.expr, File::Table, &*vals);
        let next = Spot {
            i: spot.i + 1,
            r: spot.r,
        };
        match instr.action {
            Action::Assign(symbol) => {
                vals[symbol] = value;
                Ok(next)
            }
            Action::Test(kind) => {
                if value == 0 {
                    return Err(self.failure(kind, spot));
                }
                Ok(next)
            }
            Action::Goto(target) => {
                if value == 0 {
                    return Ok(next);
                }
                self.jump(spot, target)
            }
        }
    }
}

// From instruction 0 with the values given.
pub fn run_from(table: &[u8], offsets: &[u16], bound: usize, vals: &mut [u32]) -> Ran
    requires { (bound ≤ 255) × Ready table.now offsets.now (length offsets.now) × (header_inputs table.now ≤ length vals.old) }
    ensures { ran_of result ≡ run_from (listed (read_table table.now)) bound ((bound + 1) * (length offsets.now + 1)) 0 0
        (env_of vals.old) }
{
    let limits = Limits {
        n: offsets.len(),
        bound,
    };
    let mut spot = Spot { i: 0, r: 0 };
    while spot.i < limits.n {
        let at = offsets[spot.i] as usize;
        match limits.step(spot, table, at, &mut *vals) {
            Ok(next) => {
                spot = next;
            }
            Err(failure) => {
                return Ran {
                    end: Err(failure),
                    back_jumps: spot.r as u32,
                };
            }
        }
    }
    Ran {
        end: Ok(()),
        back_jumps: spot.r as u32,
    }
}
