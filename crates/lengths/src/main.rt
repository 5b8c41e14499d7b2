// Tables of exactly n records, of one less, of none, of more than n, and of more than any n asks for: for each what is answered, and how many records were
// set. They are lent to `lent::step` itself, from an array of sixteen.
#![tactic(auto)]

ghost use Rattle.std.specs.Prelude.{replicate};
ghost use Rattle.events.specs.Events.{went_down};
ghost use Rattle.lent.specs.Lent.{SaidWithin};

use lent::kinds::Whole;
use node::Node;
use site::{Site, number_of};
use steps::{Beginning, Step};
use time::Dts;

// A step with so many records of nodes that are down; above sixteen there are no more.
fn step_with(site: Site, count: usize, step: Step) -> Whole<Site, Node, 16>
    ensures { SaidWithin site (replicate 16 went_down) count step result.answer result.site result.nodes }
{
    let mut nodes = [events::down(); 16];
    let told = lent::step(site, &mut nodes[..count.min(16)], step);
    Whole {
        answer: told.answer,
        site: told.site,
        nodes,
    }
}

// A record that was down and is not any more was set.
fn set_in(nodes: [Node; 16]) -> usize {
    nodes
        .iter()
        .filter(|node| !node::asked::is_down(**node))
        .count()
}

// A Start with so many records of nodes that are down.
fn start_with(rt: &impl Print, f: u8, k: u8, count: usize) -> Site {
    let step = Step::Start(Beginning {
        f,
        k,
        compromised: 0,
        status: 0,
        g: Dts(100),
    });
    let whole = step_with(effects::no_site(), count, step);
    let n = site::sound::nodes(f, k);
    let number = number_of(whole.answer);
    let set = set_in(whole.nodes);
    let _ = println!(rt; "Start, n {n}, records {count}: {number}, set {set}");
    whole.site
}

// A Tick of a site that was started with enough records, and is then lent so many.
fn tick_with(rt: &impl Print, site: Site, count: usize) {
    let number = number_of(step_with(site, count, Step::Tick).answer);
    let _ = println!(rt; "then Tick, records {count}: {number}");
}

fn main(rt: HostRuntime) {
    start_with(&rt, 0, 0, 0);
    start_with(&rt, 0, 0, 1);
    start_with(&rt, 0, 0, 12);
    start_with(&rt, 1, 0, 0);
    start_with(&rt, 1, 0, 2);
    start_with(&rt, 1, 0, 3);
    start_with(&rt, 1, 0, 4);
    start_with(&rt, 4, 3, 11);
    start_with(&rt, 4, 3, 12);
    start_with(&rt, 4, 3, 13);
    start_with(&rt, 4, 3, 16);
    let started = start_with(&rt, 1, 1, 4);
    tick_with(&rt, started, 4);
    tick_with(&rt, started, 12);
    tick_with(&rt, started, 16);
    tick_with(&rt, started, 3);
    tick_with(&rt, started, 0);
}
