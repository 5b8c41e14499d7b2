// The table of nodes, lent by the caller: one record for each node. Here is the step of a Peer site over it; `kinds` has it for each kind of site.
#![tactic(auto)]

pub mod kinds;

ghost use Rattle.std.specs.Prelude.{◌≡◌};
ghost use Rattle.steps.specs.Named.{named};
ghost use Rattle.lent.specs.Lent.{turned, Said, SaidWithin};

use kinds::{Kind, Turned};
use loans::Peers;
use node::Node;
use site::Site;
use steps::{Beginning, Step};

pub type Told = kinds::Told<Site>;

pub type Whole = kinds::Whole<Site, Node, 12>;

impl Kind for Peers {
    type Site = Site;

    type Step = Step;

    ghost named = { named };

    ghost stepped = { turned };

    fn actor(step: Step) -> Option<usize> {
        match step {
            Step::AtNode { node, .. } | Step::Life { node, .. } => Some(node as usize),
            _ => None,
        }
    }

    fn beginning(step: Step) -> Option<Beginning> {
        match step {
            Step::Start(b) => Some(b),
            _ => None,
        }
    }

    fn turn(site: Site, lent: usize, node: Node, step: Step) -> Turned<Site, Node> {
        let out = stepping::step(site, lent, node, step);
        Turned {
            answer: out.answer,
            site: out.site,
            node: out.node,
        }
    }
}

// A step of a site with its table. A refused step, a Tick and a Command leave every record as it was.
pub fn step(site: Site, nodes: &mut [Node], step: Step) -> Told
    ensures { Said site nodes.old step result.answer result.site nodes.new }
{
    kinds::step::<Peers>(site, nodes, step)
}

// The step with the table by value: whoever calls this holds no reference to it.
pub fn step_in(site: Site, mut nodes: [Node; 12], step: Step) -> Whole
    ensures { Said site nodes step result.answer result.site result.nodes }
{
    let told = crate::step(site, &mut nodes, step);
    Whole {
        answer: told.answer,
        site: told.site,
        nodes,
    }
}

// The same with a table of the first `count` records alone, which may be fewer than n; above twelve there are no more.
pub fn step_within(site: Site, mut nodes: [Node; 12], count: usize, step: Step) -> Whole
    ensures { SaidWithin site nodes count step result.answer result.site result.nodes }
{
    let told = crate::step(site, &mut nodes[..count.min(12)], step);
    Whole {
        answer: told.answer,
        site: told.site,
        nodes,
    }
}
