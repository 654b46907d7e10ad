// Tables: any bytes are read, and an accepted table is run under a bound on its back jumps.
#![tactic(auto)]

pub mod read;
mod steps;

ghost use Rattle.std.specs.Prelude.{◌≡◌, ◌<◌, ◌^◌};
ghost use Rattle.std.specs.Result.{IfErr};
ghost use Rattle.file.specs.Shown.{reply_of};
ghost use Rattle.table.specs.Answer.{RunAnswered, refusal, answer_of, run_answer};
ghost use Rattle.table.specs.Shown.{ran_of, answer_in};

use file::{INPUT_ROOM, Reason, Refusal};
use steps::Ran;

// Document 01's answer to running: a reply and its offset; 0 ended, 1 unsafe with its place, 2 stopped by an Assume,
// 3 cut by the bound; the back jumps taken.
#[derive(Clone, Copy)]
pub struct Answer {
    pub reply: u32,
    pub offset: u32,
    pub verdict: u32,
    pub place: u32,
    pub back_jumps: u32,
}

impl From<Ran> for Answer {
    ghost from_gives = { λ ran answer. answer ≡ answer_of (ran_of ran) };

    fn from(ran: Ran) -> Answer {
        let (verdict, place) = match ran.end {
            Ok(()) => (0, 0),
            Err(failure) => (failure.verdict(), failure.answered_place()),
        };
        Answer {
            reply: 0,
            offset: 0,
            verdict,
            place,
            back_jumps: ran.back_jumps,
        }
    }
}

impl Answer {
    fn refused(why: Refusal) -> Answer
        requires { why.offset < 2 ^ 32 }
        ensures { result ≡ refusal (reply_of why.reason) why.offset }
    {
        Answer {
            reply: why.reason.into(),
            offset: why.offset as u32,
            verdict: 0,
            place: 0,
            back_jumps: 0,
        }
    }
}

// Runs a table under a bound, from a valuation of its inputs.
pub fn run(table: &[u8], bound: u64, words: &[u32]) -> Answer
    ensures { RunAnswered table.now bound words.now result }
{
    match try_run(table, bound, words) {
        Ok(ran) => Answer::from(ran),
        Err(why) => Answer::refused(why),
    }
}

fn try_run(table: &[u8], bound: u64, words: &[u32]) -> Result<Ran, Refusal>
    ensures answer { answer_in result ≡ run_answer table.now bound words.now }
    ensures small { IfErr result (λ why. why.offset < 2 ^ 32) }
{
    let mut offsets: [u16; 1024] = [0; 1024];
    let n = read::read_table(table, &mut offsets)?;
    if 255 < bound {
        return Err(Reason::HighBound.into());
    }
    if words.len() != file::inputs_of(table) {
        return Err(Reason::Valuation.into());
    }
    let mut vals: [u32; INPUT_ROOM] = [0; INPUT_ROOM];
    file::copy_words(words, &mut vals);
    Ok(steps::run_from(table, &offsets[..n], bound as usize, &mut vals))
}
