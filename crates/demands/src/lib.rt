// What a caller knows of the calls from C, with nothing asked of him: the numbers of a group of calls, put together by their names, are the
// whole answer, and the buffer holds it. A call that asked for something, promised less or gave another number would break one of these.
#![tactic(auto)]

ghost use Rattle.std.specs.Prelude.{◌≡◌};
ghost use Rattle.kadvitul.specs.Interface.{run_bytes, judge_bytes};
ghost use Rattle.unwind.specs.Answer.{TraceWritten};
ghost use Rattle.slice.specs.Answer.{SliceWritten};
ghost use Rattle.script.specs.Answer.{ScriptWritten};

fn ran(rule: &[u8], bound: u64, valuation: &[u8]) -> table::Answer
    ensures { result ≡ run_bytes rule.now bound valuation.now }
{
    table::Answer {
        reply: kadvitul::kadvitul_run_reply(rule, bound, valuation),
        offset: kadvitul::kadvitul_run_offset(rule, bound, valuation),
        verdict: kadvitul::kadvitul_run_verdict(rule, bound, valuation),
        place: kadvitul::kadvitul_run_place(rule, bound, valuation),
        back_jumps: kadvitul::kadvitul_run_back_jumps(rule, bound, valuation),
    }
}

fn judged(trace: &[u8], valuation: &[u8]) -> trace::Answer
    ensures { result ≡ judge_bytes trace.now valuation.now }
{
    trace::Answer {
        reply: kadvitul::kadvitul_judge_reply(trace, valuation),
        offset: kadvitul::kadvitul_judge_offset(trace, valuation),
        verdict: kadvitul::kadvitul_judge_verdict(trace, valuation),
        place: kadvitul::kadvitul_judge_place(trace, valuation),
    }
}

fn traced(rule: &[u8], bound: u64, out: &mut [u8]) -> unwind::Answer
    ensures { TraceWritten rule.now bound out.old out.new result }
{
    let reply = kadvitul::kadvitul_trace_reply(rule, bound, &mut *out);
    let offset = kadvitul::kadvitul_trace_offset(rule, bound, &mut *out);
    let length = kadvitul::kadvitul_trace_length(rule, bound, &mut *out);
    unwind::Answer {
        reply: reply,
        offset: offset,
        length: length,
    }
}

fn sliced(trace: &[u8], out: &mut [u8]) -> slice::Answer
    ensures { SliceWritten trace.now out.old out.new result }
{
    let reply = kadvitul::kadvitul_slice_reply(trace, &mut *out);
    let offset = kadvitul::kadvitul_slice_offset(trace, &mut *out);
    let length = kadvitul::kadvitul_slice_length(trace, &mut *out);
    let mask = kadvitul::kadvitul_slice_mask(trace, &mut *out);
    let inputs = kadvitul::kadvitul_slice_inputs(trace, &mut *out);
    slice::Answer {
        reply: reply,
        offset: offset,
        length: length,
        mask: mask,
        inputs: inputs,
    }
}

fn scripted(trace: &[u8], out: &mut [u8]) -> script::Answer
    ensures { ScriptWritten trace.now out.old out.new result }
{
    let reply = kadvitul::kadvitul_script_reply(trace, &mut *out);
    let offset = kadvitul::kadvitul_script_offset(trace, &mut *out);
    let length = kadvitul::kadvitul_script_length(trace, &mut *out);
    script::Answer {
        reply: reply,
        offset: offset,
        length: length,
    }
}
