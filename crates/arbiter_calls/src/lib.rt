// From calls to lines: how the steps of an Arbiter site reach a program, and what it prints. A call is twelve bytes: a letter, three bytes a, b and c, and two numbers
// x and y of four bytes each, big-endian. It is no log: there is no version, no length, and nothing writes it.
#![tactic(auto)]

mod lines;

ghost use Rattle.std.specs.Prelude.{◌≡◌};
ghost use Rattle.arbiter_steps.specs.Steps.{named};
ghost use Rattle.steps.specs.Named.{actor_or0};
ghost use Rattle.arbiter_calls.specs.Calls.{at_node_of, step_of, read_as};
ghost use Rattle.arbiter_calls.specs.Runs.{first_run, Took};

use arbiter_lent::whole::step_in;
use arbiter_node::Voter;
use arbiter_site::Arbiter;
use arbiter_steps::{Event, Message, Step};
use lines::{put_answer, put_malformed};
use steps::{Beginning, Turn};
use time::Dts;

// A call of a step at a node, at its clock.
#[tactic(auto, unfolding(crate::specs::Calls::at_node_of))]
fn at_node(letter: u8, a: u8, b: u8, x: u32, y: u32) -> Option<Step>
    ensures { result ≡ at_node_of letter a b x y }
{
    let event = match letter {
        b'R' => Event::Report {
            status: b,
            number: y,
        },
        b'H' => Event::ShareTimeout,
        b'A' => Event::Ack { back: b },
        b'Q' => Event::Query,
        _ => return None,
    };
    Some(Step::AtNode {
        node: a,
        t: Dts(x),
        event,
    })
}

#[tactic(auto, unfolding(crate::specs::Calls::step_of))]
fn step_of(letter: u8, a: u8, b: u8, c: u8, x: u32, y: u32) -> Option<Step>
    ensures { result ≡ step_of letter a b c x y }
{
    match letter {
        b'S' => Some(Step::Start(Beginning {
            f: a,
            k: b,
            compromised: (y % 65536) as u16,
            status: c,
            g: Dts(x),
        })),
        b'T' => Some(Step::Tick),
        b'D' => Some(Step::Life {
            node: a,
            turn: Turn::Down,
        }),
        b'U' => Some(Step::Life {
            node: a,
            turn: Turn::Up,
        }),
        b'M' => Some(Step::AtBreaker {
            t: Dts(x),
            message: Message {
                sender: a,
                status: b,
                stamp: Dts(y),
            },
        }),
        _ => at_node(letter, a, b, x, y),
    }
}

// What twelve bytes say: a step. A call that is not whole, or has another letter, is none: it is malformed.
pub fn read(call: &[u8]) -> Option<Step>
    ensures { result ≡ read_as call.now }
{
    let &[letter, a, b, c, x0, x1, x2, x3, y0, y1, y2, y3] = call else {
        return None;
    };
    let x = u32::from_be_bytes([x0, x1, x2, x3]);
    let y = u32::from_be_bytes([y0, y1, y2, y3]);
    step_of(letter, a, b, c, x, y)
}

// Where a run stands: the site and its twelve records, and the lines so far.
#[derive(Clone, Copy)]
pub struct Run {
    pub site: Arbiter,
    pub nodes: [Voter; 12],
    pub lines: u64,
}

// The run after a call, how much of the output was written, and whether the run ends with it.
#[derive(Clone, Copy)]
pub struct Ran {
    pub run: Run,
    pub put: usize,
    pub ended: bool,
}

// A run before its first call.
pub fn begin() -> Run
    ensures { result ≡ first_run }
{
    let none = arbiter_node::of_peer(events::down());
    Run {
        site: arbiter_site::no_site(),
        nodes: [none; 12],
        lines: 0,
    }
}

// The number of the node that a step names, and 0 where it names none: as `steps::node_of` of 01's steps, a type of its own.
fn node_of(step: Step) -> u8
    ensures { result ≡ actor_or0 (named step).actor }
{
    match step {
        Step::AtNode { node, .. } | Step::Life { node, .. } => node,
        Step::Start(_) | Step::Tick | Step::AtBreaker { .. } => 0,
    }
}

// One call: its step, and its line at the front of the output.
pub fn take(run: Run, call: &[u8], out: &mut [u8]) -> Ran
    ensures { Took run call.now out.old out.new result }
{
    let number = run.lines.wrapping_add(1);
    let Some(step) = read(call) else {
        let put = put_malformed(out, number, run.site.site);
        let after = Run {
            lines: number,
            ..run
        };
        return Ran {
            run: after,
            put,
            ended: true,
        };
    };
    let whole = step_in(run.site, run.nodes, step);
    let put = put_answer(out, number, whole.site.site, node_of(step), whole.answer);
    let nodes = whole.nodes;
    let after = Run {
        site: whole.site,
        nodes,
        lines: number,
    };
    Ran {
        run: after,
        put,
        ended: false,
    }
}
