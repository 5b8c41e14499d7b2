// Every step of a site: its tests first, then what it does. Steps of one shape change one part of the site: `parts` has a function for each shape, which is given
// the verdict of 16 and hands back that part alone. Here are whole steps, which work the verdict out: those functions, given their own test's result.
#![tactic(auto)]

pub mod parts;

ghost use Rattle.std.specs.Prelude.{◌≡◌};
ghost use Rattle.stepping.specs.Steps.{stepped};

use node::Node;
use pairs::Pairs;
use refusing::is_sound_at;
use site::sound::is_site_sound;
use site::{Out, Sent, Site, silence};
use steps::{Act, Beginning, Event, Step, Turn};
use time::Dts;

fn start(site: Site, lent: usize, node: Node, beginning: Beginning) -> Out
    ensures { result ≡ stepped site lent node (Step.Start beginning) }
{
    match refusing::refuse_start(lent, beginning) {
        Ok(_) => Out {
            answer: Ok(silence()),
            site: effects::fresh_site(beginning),
            node,
        },
        Err(refusal) => Out {
            answer: Err(refusal),
            site,
            node,
        },
    }
}

fn tick(site: Site, lent: usize, node: Node) -> Out
    ensures { result ≡ stepped site lent node Step.Tick }
{
    let sound = is_site_sound(site, lent);
    match parts::tick(sound, site) {
        Ok(made) => Out {
            answer: Ok(silence()),
            site: Site { made, ..site },
            node,
        },
        Err(refusal) => Out {
            answer: Err(refusal),
            site,
            node,
        },
    }
}

fn at_node(site: Site, lent: usize, node: Node, i: u8, t: Dts, event: Event) -> Out
    ensures { result ≡ stepped site lent node (Step.AtNode i t event) }
{
    let sound = is_sound_at(site, lent, node, i);
    match parts::at_node(sound, site, node, i, t, event) {
        Ok(noted) => {
            let sent = Sent {
                shares: noted.shares,
                commands: noted.commands,
                ack: None,
            };
            let made = noted.made;
            Out {
                answer: Ok(sent),
                site: Site { made, ..site },
                node: noted.node,
            }
        }
        Err(refusal) => Out {
            answer: Err(refusal),
            site,
            node,
        },
    }
}

fn life(site: Site, lent: usize, node: Node, i: u8, turn: Turn) -> Out
    ensures { result ≡ stepped site lent node (Step.Life i turn) }
{
    let sound = is_sound_at(site, lent, node, i);
    match parts::life(sound, site, node, i, turn) {
        Ok(turned) => {
            let down = turned.down;
            Out {
                answer: Ok(silence()),
                site: Site { down, ..site },
                node: turned.node,
            }
        }
        Err(refusal) => Out {
            answer: Err(refusal),
            site,
            node,
        },
    }
}

fn at_breaker(site: Site, lent: usize, node: Node, t: Dts, act: Act) -> Out
    ensures { result ≡ stepped site lent node (Step.AtBreaker t act) }
{
    let sound = is_site_sound(site, lent);
    match parts::at_breaker(sound, site, t, act) {
        Ok(breaker) => {
            let sent = Sent {
                shares: Pairs::Zero,
                commands: Pairs::Zero,
                ack: Some(breaker.pair),
            };
            Out {
                answer: Ok(sent),
                site: Site { breaker, ..site },
                node,
            }
        }
        Err(refusal) => Out {
            answer: Err(refusal),
            site,
            node,
        },
    }
}

// Any step.
pub fn step(site: Site, lent: usize, node: Node, step: Step) -> Out
    ensures { result ≡ stepped site lent node step }
{
    match step {
        Step::Start(beginning) => start(site, lent, node, beginning),
        Step::Tick => tick(site, lent, node),
        Step::AtNode { node: i, t, event } => at_node(site, lent, node, i, t, event),
        Step::Life { node: i, turn } => life(site, lent, node, i, turn),
        Step::AtBreaker { t, act } => at_breaker(site, lent, node, t, act),
    }
}
