// The calls of the C interface, one number of an answer for each. `kadvitul_c` exports them under these names.
#![tactic(auto, unfolding(file::specs::File::input_room))]

ghost use Rattle.std.specs.Prelude.{◌≡◌, ◌+◌, ◌/◌, ◌*◌, length};
ghost use Rattle.file.specs.File.{input_room};
ghost use Rattle.kadvitul.specs.Interface.{run_bytes, judge_bytes, VersionGives, RunGives, JudgeGives, TraceGives, SliceGives};
ghost use Rattle.kadvitul.specs.Interface.{ScriptGives, ScriptReply, ScriptOffset, ScriptLength};
ghost use Rattle.kadvitul.specs.Interface.{RunReply, RunOffset, RunVerdict, RunPlace, RunBackJumps};
ghost use Rattle.kadvitul.specs.Interface.{JudgeReply, JudgeOffset, JudgeVerdict, JudgePlace};
ghost use Rattle.kadvitul.specs.Interface.{TraceReply, TraceOffset, TraceLength};
ghost use Rattle.kadvitul.specs.Interface.{SliceReply, SliceOffset, SliceLength, SliceMask, SliceInputs};
ghost use Rattle.kadvitul.specs.Shown.{Decoded};

use file::INPUT_ROOM;

// One word more than any file has inputs.
const WORD_ROOM: usize = INPUT_ROOM + 1;

// The words of a valuation, and how many there are. Bytes that are no whole number of words, or of more than a file can have, count as one
// word more than that.
fn words_in(valuation: &[u8], words: &mut [u32]) -> usize
    requires { length words.old ≡ input_room + 1 }
    ensures { Decoded valuation.now words.new result }
{
    let len = valuation.len();
    let count = len / 4;
    if len != 4 * count {
        return WORD_ROOM;
    }
    if INPUT_ROOM < count {
        return WORD_ROOM;
    }
    file::decode(valuation, count, words);
    count
}

fn run_bytes(rule: &[u8], bound: u64, valuation: &[u8]) -> table::Answer
    ensures { result ≡ run_bytes rule.now bound valuation.now }
{
    let mut words: [u32; WORD_ROOM] = [0; WORD_ROOM];
    let count = words_in(valuation, &mut words);
    table::run(rule, bound, &words[..count])
}

fn judge_bytes(trace: &[u8], valuation: &[u8]) -> trace::Answer
    ensures { result ≡ judge_bytes trace.now valuation.now }
{
    let mut words: [u32; WORD_ROOM] = [0; WORD_ROOM];
    let count = words_in(valuation, &mut words);
    trace::judge(trace, &words[..count])
}

// The version of the archive, which the header has too.
pub fn kadvitul_version() -> u32
    ensures { VersionGives result }
{
    40000
}

pub fn kadvitul_run_reply(rule: &[u8], bound: u64, valuation: &[u8]) -> u32
    ensures { RunGives RunReply rule.now bound valuation.now result }
{
    let a = run_bytes(rule, bound, valuation);
    a.reply
}

pub fn kadvitul_run_offset(rule: &[u8], bound: u64, valuation: &[u8]) -> u32
    ensures { RunGives RunOffset rule.now bound valuation.now result }
{
    let a = run_bytes(rule, bound, valuation);
    a.offset
}

pub fn kadvitul_run_verdict(rule: &[u8], bound: u64, valuation: &[u8]) -> u32
    ensures { RunGives RunVerdict rule.now bound valuation.now result }
{
    let a = run_bytes(rule, bound, valuation);
    a.verdict
}

pub fn kadvitul_run_place(rule: &[u8], bound: u64, valuation: &[u8]) -> u32
    ensures { RunGives RunPlace rule.now bound valuation.now result }
{
    let a = run_bytes(rule, bound, valuation);
    a.place
}

pub fn kadvitul_run_back_jumps(rule: &[u8], bound: u64, valuation: &[u8]) -> u32
    ensures { RunGives RunBackJumps rule.now bound valuation.now result }
{
    let a = run_bytes(rule, bound, valuation);
    a.back_jumps
}

pub fn kadvitul_judge_reply(trace: &[u8], valuation: &[u8]) -> u32
    ensures { JudgeGives JudgeReply trace.now valuation.now result }
{
    let a = judge_bytes(trace, valuation);
    a.reply
}

pub fn kadvitul_judge_offset(trace: &[u8], valuation: &[u8]) -> u32
    ensures { JudgeGives JudgeOffset trace.now valuation.now result }
{
    let a = judge_bytes(trace, valuation);
    a.offset
}

pub fn kadvitul_judge_verdict(trace: &[u8], valuation: &[u8]) -> u32
    ensures { JudgeGives JudgeVerdict trace.now valuation.now result }
{
    let a = judge_bytes(trace, valuation);
    a.verdict
}

pub fn kadvitul_judge_place(trace: &[u8], valuation: &[u8]) -> u32
    ensures { JudgeGives JudgePlace trace.now valuation.now result }
{
    let a = judge_bytes(trace, valuation);
    a.place
}

pub fn kadvitul_trace_reply(rule: &[u8], bound: u64, out: &mut [u8]) -> u32
    ensures { TraceGives TraceReply rule.now bound out.old out.new result }
{
    let a = unwind::write_trace(rule, bound, out);
    a.reply
}

pub fn kadvitul_trace_offset(rule: &[u8], bound: u64, out: &mut [u8]) -> u32
    ensures { TraceGives TraceOffset rule.now bound out.old out.new result }
{
    let a = unwind::write_trace(rule, bound, out);
    a.offset
}

pub fn kadvitul_trace_length(rule: &[u8], bound: u64, out: &mut [u8]) -> u32
    ensures { TraceGives TraceLength rule.now bound out.old out.new result }
{
    let a = unwind::write_trace(rule, bound, out);
    a.length
}

pub fn kadvitul_slice_reply(trace: &[u8], out: &mut [u8]) -> u32
    ensures { SliceGives SliceReply trace.now out.old out.new result }
{
    let a = slice::slice_trace(trace, out);
    a.reply
}

pub fn kadvitul_slice_offset(trace: &[u8], out: &mut [u8]) -> u32
    ensures { SliceGives SliceOffset trace.now out.old out.new result }
{
    let a = slice::slice_trace(trace, out);
    a.offset
}

pub fn kadvitul_slice_length(trace: &[u8], out: &mut [u8]) -> u32
    ensures { SliceGives SliceLength trace.now out.old out.new result }
{
    let a = slice::slice_trace(trace, out);
    a.length
}

pub fn kadvitul_slice_mask(trace: &[u8], out: &mut [u8]) -> u64
    ensures { SliceGives SliceMask trace.now out.old out.new result }
{
    let a = slice::slice_trace(trace, out);
    a.mask
}

pub fn kadvitul_slice_inputs(trace: &[u8], out: &mut [u8]) -> u32
    ensures { SliceGives SliceInputs trace.now out.old out.new result }
{
    let a = slice::slice_trace(trace, out);
    a.inputs
}

pub fn kadvitul_script_reply(trace: &[u8], out: &mut [u8]) -> u32
    ensures { ScriptGives ScriptReply trace.now out.old out.new result }
{
    let a = script::write_script(trace, out);
    a.reply
}

pub fn kadvitul_script_offset(trace: &[u8], out: &mut [u8]) -> u32
    ensures { ScriptGives ScriptOffset trace.now out.old out.new result }
{
    let a = script::write_script(trace, out);
    a.offset
}

pub fn kadvitul_script_length(trace: &[u8], out: &mut [u8]) -> u32
    ensures { ScriptGives ScriptLength trace.now out.old out.new result }
{
    let a = script::write_script(trace, out);
    a.length
}
