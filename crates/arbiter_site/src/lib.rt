// The site of the Arbiter Protocol, and its steps by value: 01's site, and the messages that its breaker holds. What 01's site does in a step that both have is
// asked of its own functions.
#![tactic(auto, using(std::proofs::lemmas::Result::err_from_is_err_and), unfolding(refusals::specs::Tests::refusal))]

ghost use Rattle.std.specs.Prelude.{◌≡◌, ◌&&◌, ◌∷◌};
ghost use Rattle.refusals.specs.Tests.{refusal};
ghost use Rattle.site.specs.Site.{actor_sound};
ghost use Rattle.arbiter_site.specs.Site.{no_arbiter, arbiter_sound};
ghost use Rattle.arbiter_site.specs.Effects.{refused, done, shares_of};
ghost use Rattle.arbiter_site.specs.Steps.{stepped};
ghost use Rattle.arbiter_site.specs.laws.Parts.{message_tests};

use arbiter_breaker::arbitrate;
use arbiter_node::{Voter, in_peer_site, of_peer, vote};
use arbiter_steps::{Event, Message, Step, in_peer};
use node::Node;
use pairs::{Pair, Pairs};
use refusals::{Refusal, test};
use site::sound::is_site_sound;
use site::{Answer, Sent, Site, silence};
use steps::{Beginning, Turn};
use store::Store;
use time::{Dts, LAST_HELD_CLOCK};

// Of 01's site `made` are the messages that correct nodes have sent since Start, as far as they are fresh; `held` are those that the breaker holds, fresh at its
// clock.
#[derive(Clone, Copy)]
pub struct Arbiter {
    pub site: Site,
    pub held: Store,
}

#[derive(Clone, Copy)]
pub struct Out {
    pub answer: Answer,
    pub site: Arbiter,
    pub node: Voter,
}

// What there is before a Start.
pub fn no_site() -> Arbiter
    ensures { result ≡ no_arbiter }
{
    Arbiter {
        site: effects::no_site(),
        held: Store::empty(Dts(0)),
    }
}

// ---- refusals

// The verdict of 16 on a site and a number of lent records.
fn is_sound(arbiter: Arbiter, lent: usize) -> bool
    ensures { result ≡ arbiter_sound arbiter lent }
{
    let site = arbiter.site;
    let held = arbiter.held;
    let whole = is_site_sound(site, lent);
    let n = site::sound::nodes(site.f, site.k);
    let places = held.is_within(n);
    whole & (held.clock.0 <= LAST_HELD_CLOCK) & places
}

// .. and on the record of the acting node i.
fn is_sound_at(arbiter: Arbiter, lent: usize, node: Node, i: u8) -> bool
    ensures { result ≡ (arbiter_sound arbiter lent && actor_sound arbiter.site node i) }
{
    let site = arbiter.site;
    let whole = is_sound(arbiter, lent);
    let actor = site::sound::is_actor_sound(site, node, i);
    whole & actor
}

// The refusal of a message, with a verdict of 16 that is given.
fn refuse_message(sound: bool, site: Site, t: Dts, message: Message) -> Result<(), Refusal>
    ensures { result ≡ refusal ((Refusal.Unsound, sound) ∷ message_tests site t message) }
{
    test(Refusal::Unsound, sound)?;
    let known = refusing::is_node(site, message.sender);
    test(Refusal::BadNumber, known & (message.status <= 1))?;
    let now = refusing::is_now(site, t);
    test(Refusal::NotNow, now)?;
    test(Refusal::ClockBack, site.breaker.clock.0 <= t.0)?;
    refusing::share(site, t, message.sender, message.status, message.stamp)
}

// ---- what a step hands back

fn refused(refusal: Refusal, arbiter: Arbiter, voter: Voter) -> Out
    ensures { result ≡ refused refusal arbiter voter }
{
    Out {
        answer: Err(refusal),
        site: arbiter,
        node: voter,
    }
}

fn done(sent: Sent, site: Site, held: Store, voter: Voter) -> Out
    ensures { result ≡ done sent site held voter }
{
    Out {
        answer: Ok(sent),
        site: Arbiter { site, held },
        node: voter,
    }
}

// The message of a node, as its share.
fn shares_of(message: Option<Pair>) -> Pairs
    ensures { result ≡ shares_of message }
{
    match message {
        Some(p) => Pairs::One(p),
        None => Pairs::Zero,
    }
}

// ---- the steps

fn start(arbiter: Arbiter, lent: usize, voter: Voter, beginning: Beginning) -> Out
    ensures { result ≡ stepped arbiter lent voter (Step.Start beginning) }
{
    match refusing::refuse_start(lent, beginning) {
        Ok(_) => {
            let site = effects::fresh_site(beginning);
            let held = Store::empty(beginning.g);
            done(silence(), site, held, voter)
        }
        Err(refusal) => refused(refusal, arbiter, voter),
    }
}

fn tick(arbiter: Arbiter, lent: usize, voter: Voter) -> Out
    ensures { result ≡ stepped arbiter lent voter Step.Tick }
{
    let site = arbiter.site;
    let sound = is_sound(arbiter, lent);
    match refusing::refuse_tick(sound, site) {
        Ok(_) => {
            let old = site.made;
            let made = effects::tick(old);
            let held = arbiter.held;
            done(silence(), Site { made, ..site }, held, voter)
        }
        Err(refusal) => refused(refusal, arbiter, voter),
    }
}

fn at_node(arbiter: Arbiter, lent: usize, voter: Voter, i: u8, t: Dts, event: Event) -> Out
    ensures { result ≡ stepped arbiter lent voter (Step.AtNode i t event) }
{
    let site = arbiter.site;
    let node = in_peer_site(voter);
    let sound = is_sound_at(arbiter, lent, node, i);
    match refusing::refuse_event(sound, site, node, i, t, in_peer(event)) {
        Ok(_) => {
            let breaker = site.breaker;
            let voted = vote(breaker, voter, t, event);
            let after = voted.voter;
            let message = voted.message;
            let shares = shares_of(message);
            let old = site.made;
            let made = combining::put_all(old, i, shares);
            let held = arbiter.held;
            let sent = Sent {
                shares,
                commands: Pairs::Zero,
                ack: None,
            };
            done(sent, Site { made, ..site }, held, after)
        }
        Err(refusal) => refused(refusal, arbiter, voter),
    }
}

fn life(arbiter: Arbiter, lent: usize, voter: Voter, i: u8, turn: Turn) -> Out
    ensures { result ≡ stepped arbiter lent voter (Step.Life i turn) }
{
    let site = arbiter.site;
    let node = in_peer_site(voter);
    let sound = is_sound_at(arbiter, lent, node, i);
    match refusing::refuse_turn(sound, site, node, i, turn) {
        Ok(_) => {
            let turned = effects::turn(site.down, i, turn);
            let left = turned.node;
            let after = of_peer(left);
            let held = arbiter.held;
            let down = turned.down;
            done(silence(), Site { down, ..site }, held, after)
        }
        Err(refusal) => refused(refusal, arbiter, voter),
    }
}

fn at_breaker(arbiter: Arbiter, lent: usize, voter: Voter, t: Dts, message: Message) -> Out
    ensures { result ≡ stepped arbiter lent voter (Step.AtBreaker t message) }
{
    let site = arbiter.site;
    let sound = is_sound(arbiter, lent);
    match refuse_message(sound, site, t, message) {
        Ok(_) => {
            let old = site.breaker;
            let holding = arbiter.held;
            let out = arbitrate(old, holding, site.f, t, message);
            let breaker = out.breaker;
            let held = out.held;
            let ack = out.ack;
            let sent = Sent {
                shares: Pairs::Zero,
                commands: Pairs::Zero,
                ack,
            };
            done(sent, Site { breaker, ..site }, held, voter)
        }
        Err(refusal) => refused(refusal, arbiter, voter),
    }
}

// Any step.
pub fn step(arbiter: Arbiter, lent: usize, voter: Voter, step: Step) -> Out
    ensures { result ≡ stepped arbiter lent voter step }
{
    match step {
        Step::Start(beginning) => start(arbiter, lent, voter, beginning),
        Step::Tick => tick(arbiter, lent, voter),
        Step::AtNode { node: i, t, event } => at_node(arbiter, lent, voter, i, t, event),
        Step::Life { node: i, turn } => life(arbiter, lent, voter, i, turn),
        Step::AtBreaker { t, message } => at_breaker(arbiter, lent, voter, t, message),
    }
}
