// The refusal of a step of each shape: that of the first test that fails, if one does. The verdict of 16 is given: `is_sound_at` works it
// out, and `site::sound::is_site_sound` where no node acts.
#![tactic(auto, using(std::proofs::lemmas::Result::err_from_is_err_and), unfolding(refusals::specs::Tests::refusal))]

ghost use Rattle.std.specs.Prelude.{◌≡◌, ◌&&◌, [], ◌∷◌};
ghost use Rattle.refusals.specs.Tests.{refusal};
ghost use Rattle.site.specs.Site.{site_sound, actor_sound};
ghost use Rattle.refusing.specs.Tests.{is_now, is_node, verdict, can_deliver, can_begin};
ghost use Rattle.refusing.specs.laws.Parts.{who_tests, when_tests, share_tests, pair_tests, asked, command_first, command_last, act_tests, tick_tests, given_tests};

use node::Node;
use node::asked::{is_armed, is_down, is_in_attempt, is_new, is_running, is_starting};
use refusals::{Refusal, test};
use site::sound::{is_actor_sound, is_site_sound, nodes};
use site::{FIRST_G, LAST_G, LAST_START_G, MOST_F, MOST_K, Site};
use steps::{Act, Beginning, Event, Step, Turn};
use time::Dts;

// What is asked of one event: 2 of its fields, 4 of the node's phase, and the refusal of its own tests.
#[derive(Clone, Copy)]
struct Asked {
    fields: bool,
    phase: bool,
    own: Result<(), Refusal>,
}

// The last stamp that 32 bits hold.
const TOP_STAMP: u32 = 4294967295;

pub fn is_now(site: Site, t: Dts) -> bool
    ensures { result ≡ is_now site t }
{
    let g = site.made.clock.0 as u64;
    let t = t.0 as u64;
    (t == g) | (t == g + 1)
}

pub fn is_node(site: Site, i: u8) -> bool
    ensures { result ≡ is_node site i }
{
    (i as u32) < nodes(site.f, site.k)
}

fn is_verdict_yes(site: Site, status: u8, stamp: Dts) -> bool
    ensures { result ≡ verdict site status stamp }
{
    let made = site.made;
    let shared = made.senders(status, stamp);
    let counted = senders::join_all(site.compromised, shared);
    senders::is_enough(counted, site.f)
}

fn can_deliver(site: Site, sender: u8, status: u8, stamp: Dts) -> bool
    ensures { result ≡ can_deliver site sender status stamp }
{
    let made = site.made;
    let shared = made.senders(status, stamp);
    let compromised = senders::is_in(site.compromised, sender);
    let is_made = senders::is_in(shared, sender);
    compromised | is_made
}

// The verdict of 16 on a site, a number of lent records and the record of the acting node i.
pub fn is_sound_at(site: Site, lent: usize, node: Node, i: u8) -> bool
    ensures { result ≡ (site_sound site lent && actor_sound site node i) }
{
    let whole = is_site_sound(site, lent);
    let actor = is_actor_sound(site, node, i);
    whole & actor
}

// Tests 2, 3 and 4 of a step at a node.
fn who(site: Site, i: u8, fields: bool, phase: bool) -> Result<(), Refusal>
    ensures { result ≡ refusal (who_tests site i fields phase) }
{
    let known = is_node(site, i);
    test(Refusal::BadNumber, known & fields)?;
    let compromised = senders::is_in(site.compromised, i);
    test(Refusal::Compromised, !compromised)?;
    test(Refusal::WrongPhase, phase)
}

// Tests 5 and 6 of a step at a node.
fn when(site: Site, node: Node, t: Dts) -> Result<(), Refusal>
    ensures { result ≡ refusal (when_tests site node t) }
{
    let current = is_now(site, t);
    test(Refusal::NotNow, current)?;
    test(Refusal::ClockBack, node.store.clock.0 <= t.0)
}

// Tests 7 and 8 of a share that is delivered.
pub fn share(site: Site, t: Dts, sender: u8, status: u8, stamp: Dts) -> Result<(), Refusal>
    ensures { result ≡ refusal (share_tests site t sender status stamp) }
{
    let fresh = time::is_fresh(stamp, t);
    test(Refusal::NotFresh, fresh)?;
    let made = can_deliver(site, sender, status, stamp);
    test(Refusal::NotVouchedFor, made)
}

// Tests 7 and 8 of a pair: one of the two is fresh, and each that is fresh was made.
fn pair(site: Site, t: Dts, sender: u8, status: u8, stamp: Dts) -> Result<(), Refusal>
    ensures { result ≡ refusal (pair_tests site t sender status stamp) }
{
    let second = time::next(stamp);
    let a_fresh = time::is_fresh(stamp, t);
    let b_fresh = time::is_fresh(second, t);
    test(Refusal::NotFresh, a_fresh | b_fresh)?;
    let a_made = can_deliver(site, sender, status, stamp);
    let b_made = can_deliver(site, sender, status, second);
    test(
        Refusal::NotVouchedFor,
        (!a_fresh | a_made) & (!b_fresh | b_made),
    )
}

// What is asked of one event alone.
fn ask(site: Site, node: Node, t: Dts, event: Event) -> Asked
    ensures { result ≡ asked site node t event }
{
    match event {
        Event::Report { status, number } => {
            let down = is_down(node);
            let new = is_new(node, number);
            let own = test(Refusal::NotNew, new);
            Asked {
                fields: status <= 1,
                phase: !down,
                own,
            }
        }
        Event::Deliver {
            sender,
            status,
            stamp,
        } => {
            let known = is_node(site, sender);
            let phase = is_running(node);
            let own = share(site, t, sender, status, stamp);
            Asked {
                fields: known & (status <= 1),
                phase,
                own,
            }
        }
        Event::DeliverPair {
            sender,
            status,
            stamp,
        } => {
            let known = is_node(site, sender);
            let phase = is_running(node);
            let own = pair(site, t, sender, status, stamp);
            Asked {
                fields: known & (status <= 1) & (stamp.0 != TOP_STAMP),
                phase,
                own,
            }
        }
        Event::ShareTimeout => {
            let phase = is_running(node);
            let attempts = is_in_attempt(node);
            let own = test(Refusal::NotArmed, attempts);
            Asked {
                fields: true,
                phase,
                own,
            }
        }
        Event::ResendTimeout => {
            let phase = is_running(node);
            let armed = is_armed(node);
            let own = test(Refusal::NotArmed, armed);
            Asked {
                fields: true,
                phase,
                own,
            }
        }
        Event::Ack { back } => {
            let down = is_down(node);
            let own = test(
                Refusal::NotRemembered,
                back as u32 + 1 <= site.breaker.changes.count as u32,
            );
            Asked {
                fields: back <= 7,
                phase: !down,
                own,
            }
        }
        Event::Query => {
            let phase = is_starting(node);
            Asked {
                fields: true,
                phase,
                own: Ok(()),
            }
        }
    }
}

pub fn refuse_event(
    sound: bool,
    site: Site,
    node: Node,
    i: u8,
    t: Dts,
    event: Event,
) -> Result<(), Refusal>
    ensures { result ≡ refusal (given_tests sound site node (Step.AtNode i t event)) }
{
    let asked = ask(site, node, t, event);
    test(Refusal::Unsound, sound)?;
    who(site, i, asked.fields, asked.phase)?;
    when(site, node, t)?;
    asked.own
}

pub fn refuse_turn(sound: bool, site: Site, node: Node, i: u8, turn: Turn) -> Result<(), Refusal>
    ensures { result ≡ refusal (given_tests sound site node (Step.Life i turn)) }
{
    test(Refusal::Unsound, sound)?;
    let down = is_down(node);
    match turn {
        Turn::Down => {
            who(site, i, true, !down)?;
            test(
                Refusal::TooManyDown,
                senders::how_many(site.down) < site.k as u32,
            )
        }
        Turn::Up => who(site, i, true, down),
    }
}

// Tests 2, 5 and 6 of a command.
fn command_first(site: Site, t: Dts, status: u8) -> Result<(), Refusal>
    ensures { result ≡ refusal (command_first site t status) }
{
    test(Refusal::BadNumber, status <= 1)?;
    let now = is_now(site, t);
    test(Refusal::NotNow, now)?;
    test(Refusal::ClockBack, site.breaker.clock.0 <= t.0)
}

// Tests 7, 8 and 11 of a command.
fn command_last(site: Site, t: Dts, status: u8, stamp: Dts) -> Result<(), Refusal>
    ensures { result ≡ refusal (command_last site t status stamp) }
{
    let fresh = time::is_fresh(stamp, t);
    test(Refusal::NotFresh, fresh)?;
    let yes = is_verdict_yes(site, status, stamp);
    test(Refusal::NotVouchedFor, yes)?;
    let repeats = status == site.breaker.pair.status;
    test(
        Refusal::NotAbove,
        repeats | (site.breaker.pair.stamp.0 < stamp.0),
    )
}

pub fn refuse_act(sound: bool, site: Site, t: Dts, act: Act) -> Result<(), Refusal>
    ensures { result ≡ refusal ((Refusal.Unsound, sound) ∷ act_tests site t act) }
{
    test(Refusal::Unsound, sound)?;
    command_first(site, t, act.status)?;
    command_last(site, t, act.status, act.stamp)
}

pub fn refuse_tick(sound: bool, site: Site) -> Result<(), Refusal>
    ensures { result ≡ refusal ((Refusal.Unsound, sound) ∷ tick_tests site) }
{
    test(Refusal::Unsound, sound)?;
    test(Refusal::LastClock, site.made.clock.0 != LAST_G)
}

pub fn refuse_start(lent: usize, beginning: Beginning) -> Result<(), Refusal>
    ensures { result ≡ refusal ((Refusal.BadStart, can_begin lent beginning) ∷ []) }
{
    let f = beginning.f;
    let k = beginning.k;
    let g = beginning.g;
    let compromised = beginning.compromised;
    let n = nodes(f, k);
    let clock = (FIRST_G <= g.0) & (g.0 <= LAST_START_G);
    let numbers = (f <= MOST_F) & (k <= MOST_K) & (beginning.status <= 1) & clock;
    let below = senders::is_within(compromised, n);
    let few = senders::how_many(compromised) <= f as u32;
    test(
        Refusal::BadStart,
        numbers & below & few & (n as usize <= lent),
    )
}
