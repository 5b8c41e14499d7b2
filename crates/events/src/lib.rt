// What an event makes of a node: of its phase, before the combining rule, and of its store. An event that the phase does not take leaves it.
#![tactic(auto)]

ghost use Rattle.std.specs.Prelude.{◌≡◌};
ghost use Rattle.events.specs.Events.{unchanged, once_known, begun, store_at, kept, report_stamp, report_shares, report_running, report_starting, report_r, reported, share_timed_out, sent_again, given_up, resend_timed_out, later, later_than, ack_resend, ack_running, ack_starting, acked, queried, went_down, went_up};

use node::asked::{is_attempt, is_done, known_b};
use node::{Changed, Learned, Node, Phase, Record};
use pairs::{Pair, Pairs};
use store::Store;
use time::Dts;

// An event that leaves the phase, and sends nothing.
pub fn unchanged(phase: Phase) -> Changed
    ensures { result ≡ unchanged phase }
{
    Changed {
        phase,
        shares: Pairs::Zero,
        command: None,
    }
}

// Running, once both pairs are known.
fn join(learned: Learned) -> Phase
    ensures { result ≡ once_known learned }
{
    let Some(r) = learned.r else {
        return Phase::Starting(learned);
    };
    let Some(b) = learned.b else {
        return Phase::Starting(learned);
    };
    Phase::Running(Record {
        r,
        b,
        second: learned.second,
        number: learned.number,
        resend: None,
    })
}

#[tactic(auto, unfolding(crate::specs::Events::begun))]
fn begin(learned: Learned) -> Changed
    ensures { result ≡ begun learned }
{
    Changed {
        phase: join(learned),
        shares: Pairs::Zero,
        command: None,
    }
}

// The store at the clock of an event, for the phase that the event finds.
pub fn store_at(phase: Phase, store: Store, t: Dts) -> Store
    ensures { result ≡ store_at phase store t }
{
    match phase {
        Phase::Down => store,
        Phase::Starting(_) => Store::empty(t),
        Phase::Running(_) => store.move_to(t),
    }
}

// Resend as it is after r and b changed: leaving Done disarms it.
#[tactic(auto, unfolding(crate::specs::Events::kept))]
fn keep_resend(rec: Record, r: Pair, b: Pair) -> Option<Dts>
    ensures { result ≡ kept rec r b }
{
    let was = is_done(rec.r, rec.b);
    let is = is_done(r, b);
    if was & !is { None } else { rec.resend }
}

// The stamp that a report gives r, for what the node knows of the breaker.
fn report_stamp(b: Option<Pair>, t: Dts) -> Dts
    ensures { result ≡ report_stamp b t }
{
    b.map_or(t, |pair| time::larger(t, pair.stamp))
}

// r after a report.
fn report_r(phase: Phase, t: Dts, status: u8) -> Pair
    ensures { result ≡ report_r phase t status }
{
    Pair {
        status,
        stamp: report_stamp(known_b(phase), t),
    }
}

// The shares of a report: two where the node enters Attempt.
#[tactic(auto, unfolding(crate::specs::Events::report_shares))]
fn report_shares(old: Pair, r: Pair, b: Pair, t: Dts) -> Pairs
    ensures { result ≡ report_shares old r b t }
{
    let was = is_attempt(old, b);
    let is = is_attempt(r, b);
    if !was & is {
        let first = Pair {
            status: r.status,
            stamp: t,
        };
        let second = Pair {
            status: r.status,
            stamp: time::next(t),
        };
        Pairs::Two(first, second)
    } else {
        Pairs::Zero
    }
}

#[tactic(auto, unfolding(crate::specs::Events::report_running))]
fn report_running(rec: Record, r: Pair, t: Dts, number: u32) -> Changed
    ensures { result ≡ report_running rec r t number }
{
    let next = Record {
        r,
        number: Some(number),
        resend: keep_resend(rec, r, rec.b),
        ..rec
    };
    Changed {
        phase: Phase::Running(next),
        shares: report_shares(rec.r, r, rec.b, t),
        command: None,
    }
}

#[tactic(auto, unfolding(crate::specs::Events::report_starting))]
fn report_starting(learned: Learned, r: Pair, number: u32) -> Changed
    ensures { result ≡ report_starting learned r number }
{
    begin(Learned {
        r: Some(r),
        number: Some(number),
        ..learned
    })
}

#[tactic(auto, unfolding(crate::specs::Events::reported))]
pub fn report(phase: Phase, t: Dts, status: u8, number: u32) -> Changed
    ensures { result ≡ reported phase t status number }
{
    let r = report_r(phase, t, status);
    match phase {
        Phase::Down => unchanged(phase),
        Phase::Starting(learned) => report_starting(learned, r, number),
        Phase::Running(rec) => report_running(rec, r, t, number),
    }
}

#[tactic(auto, unfolding(crate::specs::Events::share_timed_out))]
pub fn share_timeout(phase: Phase, t: Dts) -> Changed
    ensures { result ≡ share_timed_out phase t }
{
    let Phase::Running(rec) = phase else {
        return unchanged(phase);
    };
    let share = Pair {
        status: rec.r.status,
        stamp: t,
    };
    Changed {
        phase,
        shares: Pairs::One(share),
        command: None,
    }
}

// The command that is sent again, while its stamp is fresh.
fn send_again(rec: Record, stamp: Dts) -> Changed
    ensures { result ≡ sent_again rec stamp }
{
    let command = Pair {
        status: rec.b.status,
        stamp,
    };
    Changed {
        phase: Phase::Running(rec),
        shares: Pairs::Zero,
        command: Some(command),
    }
}

// The stamp being resent is given up: b is again as it was acknowledged or queried. 16 lets no running record pass that has no second pair.
#[tactic(auto, unfolding(crate::specs::Events::given_up))]
fn give_up(rec: Record) -> Changed
    ensures { result ≡ given_up rec }
{
    let next = Record {
        b: rec.second.unwrap_or(rec.b),
        resend: None,
        ..rec
    };
    Changed {
        phase: Phase::Running(next),
        shares: Pairs::Zero,
        command: None,
    }
}

#[tactic(auto, unfolding(crate::specs::Events::resend_timed_out))]
pub fn resend_timeout(phase: Phase, t: Dts) -> Changed
    ensures { result ≡ resend_timed_out phase t }
{
    let Phase::Running(rec) = phase else {
        return unchanged(phase);
    };
    match rec.resend {
        Some(stamp) if time::is_fresh(stamp, t) => send_again(rec, stamp),
        Some(_) => give_up(rec),
        None => unchanged(phase),
    }
}

// b after an ack, and so the second pair: an older change leaves it.
fn later(b: Pair, change: Pair) -> Pair
    ensures { result ≡ later b change }
{
    if b.stamp <= change.stamp { change } else { b }
}

fn later_than(b: Option<Pair>, change: Pair) -> Pair
    ensures { result ≡ later_than b change }
{
    b.map_or(change, |pair| later(pair, change))
}

// Resend after an ack that leaves b so.
#[tactic(auto, unfolding(crate::specs::Events::ack_resend))]
fn ack_resend(rec: Record, b: Pair, change: Pair) -> Option<Dts>
    ensures { result ≡ ack_resend rec b change }
{
    if is_done(change, rec.b) {
        None
    } else {
        keep_resend(rec, rec.r, b)
    }
}

#[tactic(auto, unfolding(crate::specs::Events::ack_running))]
fn ack_running(rec: Record, change: Pair) -> Changed
    ensures { result ≡ ack_running rec change }
{
    let b = later(rec.b, change);
    let next = Record {
        b,
        second: Some(later_than(rec.second, change)),
        resend: ack_resend(rec, b, change),
        ..rec
    };
    Changed {
        phase: Phase::Running(next),
        shares: Pairs::Zero,
        command: None,
    }
}

#[tactic(auto, unfolding(crate::specs::Events::ack_starting))]
fn ack_starting(learned: Learned, change: Pair) -> Changed
    ensures { result ≡ ack_starting learned change }
{
    begin(Learned {
        b: Some(later_than(learned.b, change)),
        second: Some(later_than(learned.second, change)),
        ..learned
    })
}

#[tactic(auto, unfolding(crate::specs::Events::acked))]
pub fn ack(phase: Phase, change: Pair) -> Changed
    ensures { result ≡ acked phase change }
{
    match phase {
        Phase::Down => unchanged(phase),
        Phase::Starting(learned) => ack_starting(learned, change),
        Phase::Running(rec) => ack_running(rec, change),
    }
}

#[tactic(auto, unfolding(crate::specs::Events::queried))]
pub fn query(phase: Phase, breaker: Pair) -> Changed
    ensures { result ≡ queried phase breaker }
{
    let Phase::Starting(learned) = phase else {
        return unchanged(phase);
    };
    begin(Learned {
        b: Some(breaker),
        second: Some(breaker),
        ..learned
    })
}

// A node that is down has lost its record, the clock too.
#[tactic(auto, unfolding(crate::specs::Events::went_down))]
pub fn down() -> Node
    ensures { result ≡ went_down }
{
    Node {
        phase: Phase::Down,
        store: Store::empty(Dts(0)),
    }
}

// A node that begins to start up knows nothing, and has no clock yet.
#[tactic(auto, unfolding(crate::specs::Events::went_up))]
pub fn up() -> Node
    ensures { result ≡ went_up }
{
    let learned = Learned {
        r: None,
        b: None,
        second: None,
        number: None,
    };
    Node {
        phase: Phase::Starting(learned),
        store: Store::empty(Dts(0)),
    }
}
