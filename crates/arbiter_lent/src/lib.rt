// The table of nodes of an Arbiter site, lent by the caller: one record for each node. Its step over the table is `lent::kinds::step`, of its records, which come
// of a Peer site's, and of its steps.
#![tactic(auto)]

pub mod whole;

ghost use Rattle.std.specs.Prelude.{◌≡◌};
ghost use Rattle.arbiter_steps.specs.Steps.{named};
ghost use Rattle.arbiter_lent.specs.Lent.{down_voter, rule, turned, Said};

use arbiter_node::Voter;
use arbiter_site::Arbiter;
use arbiter_steps::Step;
use lent::kinds;
use lent::kinds::{Kind, Turned};
use loans::{Peers, Records};
use steps::Beginning;

// An Arbiter site, and the records of its nodes.
pub struct Arbiters;

impl Records for Arbiters {
    type Record = Voter;

    ghost when_down = { down_voter };

    ghost rule = { rule };

    fn down() -> Voter {
        arbiter_node::of_peer(Peers::down())
    }

    fn fresh(compromised: u16, i: usize) -> Voter {
        arbiter_node::of_peer(Peers::fresh(compromised, i))
    }
}

impl Kind for Arbiters {
    type Site = Arbiter;

    type Step = Step;

    ghost named = { named };

    ghost stepped = { turned };

    fn actor(step: Step) -> Option<usize> {
        match step {
            Step::AtNode { node, .. } | Step::Life { node, .. } => Some(node as usize),
            _ => None,
        }
    }

    fn beginning(step: Step) -> Option<Beginning> {
        match step {
            Step::Start(b) => Some(b),
            _ => None,
        }
    }

    fn turn(arbiter: Arbiter, lent: usize, voter: Voter, step: Step) -> Turned<Arbiter, Voter> {
        let out = arbiter_site::step(arbiter, lent, voter, step);
        Turned {
            answer: out.answer,
            site: out.site,
            node: out.node,
        }
    }
}

pub type Told = kinds::Told<Arbiter>;

// A step of a site with its table. A refused step, a Tick and a message leave every record as it was.
pub fn step(arbiter: Arbiter, nodes: &mut [Voter], step: Step) -> Told
    ensures { Said arbiter nodes.old step result.answer result.site nodes.new }
{
    kinds::step::<Arbiters>(arbiter, nodes, step)
}
