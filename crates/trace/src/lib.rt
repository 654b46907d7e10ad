// Traces: any bytes are read, and an accepted trace is judged under a valuation.
#![tactic(auto)]

pub mod read;
pub mod records;
mod steps;

ghost use Rattle.std.specs.Prelude.{◌≡◌, ◌<◌, ◌^◌};
ghost use Rattle.std.specs.Result.{IfErr};
ghost use Rattle.file.specs.Shown.{reply_of, outcome_of};
ghost use Rattle.trace.specs.Answer.{JudgeAnswered, refusal, answer_of, judge_answer};
ghost use Rattle.trace.specs.Shown.{answer_in};

use file::{Failure, Reason, Refusal};

// Room for the symbols of any trace.
pub const SYMBOL_ROOM: usize = 4160;

// The version of a trace that is written, and the one before it, which is still read.
pub const VERSION: u8 = 130;

const OLD_VERSION: u8 = 129;

// Document 01's answer to judging: a reply and its offset, 0 ended, 1 unsafe with its place, 2 stopped by an Assume, 3 cut by the bound.
#[derive(Clone, Copy)]
pub struct Answer {
    pub reply: u32,
    pub offset: u32,
    pub verdict: u32,
    pub place: u32,
}

impl From<Result<(), Failure>> for Answer {
    ghost from_gives = { λ end answer. answer ≡ answer_of (outcome_of end) };

    fn from(end: Result<(), Failure>) -> Answer {
        let (verdict, place) = match end {
            Ok(()) => (0, 0),
            Err(failure) => (failure.verdict(), failure.answered_place()),
        };
        Answer {
            reply: 0,
            offset: 0,
            verdict,
            place,
        }
    }
}

impl Answer {
    fn refused(why: Refusal) -> Answer
        requires { why.offset < 2 ^ 32 }
        ensures { result ≡ refusal (reply_of why.reason) why.offset }
    {
        Answer {
            reply: why.reason.into(),
            offset: why.offset as u32,
            verdict: 0,
            place: 0,
        }
    }
}

// Judges a trace, from a valuation of its inputs.
pub fn judge(trace: &[u8], words: &[u32]) -> Answer
    ensures { JudgeAnswered trace.now words.now result }
{
    match try_judge(trace, words) {
        Ok(end) => Answer::from(end),
        Err(why) => Answer::refused(why),
    }
}

// How judging ends, or why there is none.
fn try_judge(trace: &[u8], words: &[u32]) -> Result<Result<(), Failure>, Refusal>
    ensures answer { answer_in result ≡ judge_answer trace.now words.now }
    ensures small { IfErr result (λ why. why.offset < 2 ^ 32) }
{
    let mut offsets: [u16; 4096] = [0; 4096];
    let n = read::read_trace(trace, &mut offsets)?;
    if words.len() != file::inputs_of(trace) {
        return Err(Reason::Valuation.into());
    }
    let mut cells: [u32; SYMBOL_ROOM] = [0; SYMBOL_ROOM];
    file::copy_words(words, &mut cells);
    Ok(steps::judge_from(trace, &offsets[..n], &mut cells))
}
