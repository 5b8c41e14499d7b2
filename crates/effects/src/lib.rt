// What each step of a site does once its tests are passed: of the site the part that it changes, and the record of the acting node. A command's part is the
// breaker afterwards, which is `breaker::command`'s.
#![tactic(auto)]

ghost use Rattle.std.specs.Prelude.{◌≡◌};
ghost use Rattle.effects.specs.Effects.{no_site, started_site, first_record, made_later};
ghost use Rattle.effects.specs.laws.Parts.{noted_of, turned_of};

use node::Node;
use pairs::Pairs;
use site::Site;
use steps::{Beginning, Event, Turn};
use store::Store;
use time::Dts;

// What an event leaves: the node's record, the shares that the site knows to be made, and what is sent.
#[derive(Clone, Copy)]
pub struct Noted {
    pub node: Node,
    pub made: Store,
    pub shares: Pairs,
    pub commands: Pairs,
}

// What a turn leaves: the nodes that are down, and the record.
#[derive(Clone, Copy)]
pub struct Turned {
    pub down: u16,
    pub node: Node,
}

// What there is before a Start.
pub fn no_site() -> Site
    ensures { result ≡ no_site }
{
    Site {
        started: false,
        f: 0,
        k: 0,
        compromised: 0,
        down: 0,
        breaker: breaker::start(0, Dts(0)),
        made: Store::empty(Dts(0)),
    }
}

// The site that a Start makes.
#[tactic(auto, unfolding(crate::specs::Effects::started_site))]
pub fn fresh_site(beginning: Beginning) -> Site
    ensures { result ≡ started_site beginning }
{
    Site {
        started: true,
        f: beginning.f,
        k: beginning.k,
        compromised: beginning.compromised,
        down: 0,
        breaker: breaker::start(beginning.status, beginning.g),
        made: Store::empty(beginning.g),
    }
}

// The record of a node at the start.
#[tactic(auto, unfolding(crate::specs::Effects::first_record))]
pub fn first_record(compromised: u16, i: u8) -> Node
    ensures { result ≡ first_record compromised i }
{
    if senders::is_in(compromised, i) {
        events::down()
    } else {
        events::up()
    }
}

// The shares that the site knows to be made, after a Tick.
pub fn tick(made: Store) -> Store
    ensures { result ≡ made_later made }
{
    made.move_to(time::next(made.clock))
}

// An event at a node, to its end. Most events share nothing; where that is asked here, nothing is copied for them.
pub fn note(site: Site, node: Node, i: u8, t: Dts, event: Event) -> Noted
    ensures { result ≡ noted_of site node i t event }
{
    let acted = acting::act(site.breaker, node, i, site.f, t, event);
    let made = match acted.shares {
        Pairs::Zero => site.made,
        shares => combining::put_all(site.made, i, shares),
    };
    Noted {
        node: acted.node,
        made,
        shares: acted.shares,
        commands: acted.commands,
    }
}

// A turn in the life of a node.
pub fn turn(down: u16, i: u8, turn: Turn) -> Turned
    ensures { result ≡ turned_of down i turn }
{
    match turn {
        Turn::Down => Turned {
            down: senders::join(down, i),
            node: events::down(),
        },
        Turn::Up => Turned {
            down: senders::forget(down, i),
            node: events::up(),
        },
    }
}
