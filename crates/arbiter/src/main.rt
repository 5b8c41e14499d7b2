// Reads calls of an Arbiter site on standard input and prints a line a call. All the work is in `arbiter_calls`: here bytes are moved, a call at a time.
#![tactic(auto)]

mod streams;

ghost use Rattle.std.specs.Prelude.{◌≤◌, ◌≡◌, true, length, take};
ghost use Rattle.text.specs.Lines.{longest_line};
ghost use Rattle.arbiter_calls.specs.Calls.{read_as};
ghost use Rattle.arbiter_calls.specs.Runs.{line_for};
ghost use Rattle.arbiter.specs.Moving.{at_first, Turned, Gone};

use arbiter_calls::Run;
use std::io::Read;
use streams::{Standard, Streams};

// The run, whether there is more to do, and whether a write has failed. What a call of the system did cannot be promised: `failed` is set where one has said so,
// and nowhere else. A read that fails looks like the end of the input.
#[derive(Clone, Copy)]
struct Progress {
    run: Run,
    going: bool,
    failed: bool,
}

// Before the first byte.
fn first() -> Progress
    ensures { result ≡ at_first }
{
    Progress {
        run: arbiter_calls::begin(),
        going: true,
        failed: false,
    }
}

// Hands out the line of a call: that line, whole, and no other bytes, is asked of the caller. It is the one function that writes lines. That it calls `write`,
// once, and that the system takes the bytes, no contract can say.
fn hand_out(streams: &mut Standard, line: &[u8], run: Run, call: &[u8]) -> bool
    requires { line.now ≡ line_for (read_as call.now) run }
{
    streams.write(line).is_ok()
}

// Reads until the call is whole, the input ends or a read fails, and says how many bytes of it there are, which `read_exact` does not.
fn read_call(streams: &mut Standard, call: &mut [u8]) -> usize
    ensures { result ≤ length call.new }
{
    let mut count = 0;
    while count < call.len() {
        match streams.input.read(&mut call[count..]) {
            Err(_) | Ok(0) => break,
            Ok(more) => count += more,
        }
    }
    count
}

// One call, as far as there is one.
fn turn(streams: &mut Standard, progress: Progress, call: &mut [u8], line: &mut [u8]) -> Progress
    requires longest_line_in_bounds { longest_line ≤ length line.old }
    requires going_value { progress.going ≡ true }
    ensures { Turned progress call.new result }
{
    let count = read_call(streams, call);
    let mut next = progress;
    if count == 0 {
        next.going = false;
        return next;
    }
    let run = progress.run;
    let ran = arbiter_calls::take(run, &call[..count], line);
    let put = ran.put;
    let after = ran.run;
    next.run = after;
    let is_taken = hand_out(streams, &line[..put], run, &call[..count]);
    if !is_taken {
        next.going = false;
        next.failed = true;
        return next;
    }
    if ran.ended {
        next.going = false;
    }
    next
}

// Call after call, until there is no more to do. Nothing says that the input ends, so there is a last turn; it is the one other way to stop, and no run comes
// to it: at a turn a nanosecond it would take 584 years. `sitelog` has this loop too: what each promises (`Gone`) is of its own run and buffers, and one loop for both
// would need a trait for that, and be no plainer.
fn go(streams: &mut Standard, progress: Progress, call: &mut [u8], line: &mut [u8]) -> Progress
    requires { longest_line ≤ length line.old }
    ensures { Gone progress result }
{
    let mut current = progress;
    for _ in 0..u64::MAX {
        if !current.going {
            return current;
        }
        current = turn(streams, current, call, line);
    }
    current
}

fn main(rt: HostRuntime) {
    let mut streams = Streams {
        input: rt.stdin(),
        lines: rt.stdout(),
        errors: rt.stderr(),
    };
    let mut call = [0u8; 12];
    let mut line = [0u8; 4096];
    go(&mut streams, first(), &mut call, &mut line);
}
