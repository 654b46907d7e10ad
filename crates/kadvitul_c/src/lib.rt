// The C interface: the calls of `kadvitul` with their promises, under the names that `include/kadvitul.h` declares.
#![tactic(auto)]

ghost use Rattle.kadvitul.specs.Interface.{VersionGives, RunGives, JudgeGives, TraceGives, SliceGives};
ghost use Rattle.kadvitul.specs.Interface.{ScriptGives, ScriptReply, ScriptOffset, ScriptLength};
ghost use Rattle.kadvitul.specs.Interface.{RunReply, RunOffset, RunVerdict, RunPlace, RunBackJumps};
ghost use Rattle.kadvitul.specs.Interface.{JudgeReply, JudgeOffset, JudgeVerdict, JudgePlace};
ghost use Rattle.kadvitul.specs.Interface.{TraceReply, TraceOffset, TraceLength};
ghost use Rattle.kadvitul.specs.Interface.{SliceReply, SliceOffset, SliceLength, SliceMask, SliceInputs};

#[unsafe(no_mangle)]
pub extern "C" fn kadvitul_version() -> u32
    ensures { VersionGives result }
{
    kadvitul::kadvitul_version()
}

#[unsafe(no_mangle)]
pub extern "C" fn kadvitul_run_reply(rule: &[u8], bound: u64, valuation: &[u8]) -> u32
    ensures { RunGives RunReply rule.now bound valuation.now result }
{
    kadvitul::kadvitul_run_reply(rule, bound, valuation)
}

#[unsafe(no_mangle)]
pub extern "C" fn kadvitul_run_offset(rule: &[u8], bound: u64, valuation: &[u8]) -> u32
    ensures { RunGives RunOffset rule.now bound valuation.now result }
{
    kadvitul::kadvitul_run_offset(rule, bound, valuation)
}

#[unsafe(no_mangle)]
pub extern "C" fn kadvitul_run_verdict(rule: &[u8], bound: u64, valuation: &[u8]) -> u32
    ensures { RunGives RunVerdict rule.now bound valuation.now result }
{
    kadvitul::kadvitul_run_verdict(rule, bound, valuation)
}

#[unsafe(no_mangle)]
pub extern "C" fn kadvitul_run_place(rule: &[u8], bound: u64, valuation: &[u8]) -> u32
    ensures { RunGives RunPlace rule.now bound valuation.now result }
{
    kadvitul::kadvitul_run_place(rule, bound, valuation)
}

#[unsafe(no_mangle)]
pub extern "C" fn kadvitul_run_back_jumps(rule: &[u8], bound: u64, valuation: &[u8]) -> u32
    ensures { RunGives RunBackJumps rule.now bound valuation.now result }
{
    kadvitul::kadvitul_run_back_jumps(rule, bound, valuation)
}

#[unsafe(no_mangle)]
pub extern "C" fn kadvitul_judge_reply(trace: &[u8], valuation: &[u8]) -> u32
    ensures { JudgeGives JudgeReply trace.now valuation.now result }
{
    kadvitul::kadvitul_judge_reply(trace, valuation)
}

#[unsafe(no_mangle)]
pub extern "C" fn kadvitul_judge_offset(trace: &[u8], valuation: &[u8]) -> u32
    ensures { JudgeGives JudgeOffset trace.now valuation.now result }
{
    kadvitul::kadvitul_judge_offset(trace, valuation)
}

#[unsafe(no_mangle)]
pub extern "C" fn kadvitul_judge_verdict(trace: &[u8], valuation: &[u8]) -> u32
    ensures { JudgeGives JudgeVerdict trace.now valuation.now result }
{
    kadvitul::kadvitul_judge_verdict(trace, valuation)
}

#[unsafe(no_mangle)]
pub extern "C" fn kadvitul_judge_place(trace: &[u8], valuation: &[u8]) -> u32
    ensures { JudgeGives JudgePlace trace.now valuation.now result }
{
    kadvitul::kadvitul_judge_place(trace, valuation)
}

#[unsafe(no_mangle)]
pub extern "C" fn kadvitul_trace_reply(rule: &[u8], bound: u64, out: &mut [u8]) -> u32
    ensures { TraceGives TraceReply rule.now bound out.old out.new result }
{
    kadvitul::kadvitul_trace_reply(rule, bound, out)
}

#[unsafe(no_mangle)]
pub extern "C" fn kadvitul_trace_offset(rule: &[u8], bound: u64, out: &mut [u8]) -> u32
    ensures { TraceGives TraceOffset rule.now bound out.old out.new result }
{
    kadvitul::kadvitul_trace_offset(rule, bound, out)
}

#[unsafe(no_mangle)]
pub extern "C" fn kadvitul_trace_length(rule: &[u8], bound: u64, out: &mut [u8]) -> u32
    ensures { TraceGives TraceLength rule.now bound out.old out.new result }
{
    kadvitul::kadvitul_trace_length(rule, bound, out)
}

#[unsafe(no_mangle)]
pub extern "C" fn kadvitul_slice_reply(trace: &[u8], out: &mut [u8]) -> u32
    ensures { SliceGives SliceReply trace.now out.old out.new result }
{
    kadvitul::kadvitul_slice_reply(trace, out)
}

#[unsafe(no_mangle)]
pub extern "C" fn kadvitul_slice_offset(trace: &[u8], out: &mut [u8]) -> u32
    ensures { SliceGives SliceOffset trace.now out.old out.new result }
{
    kadvitul::kadvitul_slice_offset(trace, out)
}

#[unsafe(no_mangle)]
pub extern "C" fn kadvitul_slice_length(trace: &[u8], out: &mut [u8]) -> u32
    ensures { SliceGives SliceLength trace.now out.old out.new result }
{
    kadvitul::kadvitul_slice_length(trace, out)
}

#[unsafe(no_mangle)]
pub extern "C" fn kadvitul_slice_mask(trace: &[u8], out: &mut [u8]) -> u64
    ensures { SliceGives SliceMask trace.now out.old out.new result }
{
    kadvitul::kadvitul_slice_mask(trace, out)
}

#[unsafe(no_mangle)]
pub extern "C" fn kadvitul_slice_inputs(trace: &[u8], out: &mut [u8]) -> u32
    ensures { SliceGives SliceInputs trace.now out.old out.new result }
{
    kadvitul::kadvitul_slice_inputs(trace, out)
}

#[unsafe(no_mangle)]
pub extern "C" fn kadvitul_script_reply(trace: &[u8], out: &mut [u8]) -> u32
    ensures { ScriptGives ScriptReply trace.now out.old out.new result }
{
    kadvitul::kadvitul_script_reply(trace, out)
}

#[unsafe(no_mangle)]
pub extern "C" fn kadvitul_script_offset(trace: &[u8], out: &mut [u8]) -> u32
    ensures { ScriptGives ScriptOffset trace.now out.old out.new result }
{
    kadvitul::kadvitul_script_offset(trace, out)
}

#[unsafe(no_mangle)]
pub extern "C" fn kadvitul_script_length(trace: &[u8], out: &mut [u8]) -> u32
    ensures { ScriptGives ScriptLength trace.now out.old out.new result }
{
    kadvitul::kadvitul_script_length(trace, out)
}
