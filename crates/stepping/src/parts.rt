// Steps of each shape but Start, with a verdict of 16 that is given: the refusal, or the part of the site and the record that such a step changes, as they are
// afterwards. Whoever keeps a site in parts puts them where they stand; of a step that is refused it has the old ones still.
ghost use Rattle.std.specs.Prelude.{◌≡◌};
ghost use Rattle.steps.specs.declared.Step.{Step};
ghost use Rattle.node.specs.declared.Node.{Node};
ghost use Rattle.stepping.specs.laws.Given.{given, tick_part, node_part, life_part, breaker_part};

use breaker::Breaker;
use effects::{Noted, Turned};
use node::Node;
use refusals::Refusal;
use site::Site;
use steps::{Act, Event, Turn};
use store::Store;
use time::Dts;

pub fn tick(sound: bool, site: Site) -> Result<Store, Refusal>
    ensures { (node : Node) → result ≡ tick_part (given sound site node Step.Tick) }
{
    refusing::refuse_tick(sound, site)?;
    Ok(effects::tick(site.made))
}

pub fn at_node(
    sound: bool,
    site: Site,
    node: Node,
    i: u8,
    t: Dts,
    event: Event,
) -> Result<Noted, Refusal>
    ensures { result ≡ node_part (given sound site node (Step.AtNode i t event)) }
{
    refusing::refuse_event(sound, site, node, i, t, event)?;
    Ok(effects::note(site, node, i, t, event))
}

pub fn life(sound: bool, site: Site, node: Node, i: u8, turn: Turn) -> Result<Turned, Refusal>
    ensures { result ≡ life_part (given sound site node (Step.Life i turn)) }
{
    refusing::refuse_turn(sound, site, node, i, turn)?;
    Ok(effects::turn(site.down, i, turn))
}

pub fn at_breaker(sound: bool, site: Site, t: Dts, act: Act) -> Result<Breaker, Refusal>
    ensures { (node : Node) → result ≡ breaker_part (given sound site node (Step.AtBreaker t act)) }
{
    refusing::refuse_act(sound, site, t, act)?;
    Ok(breaker::command(site.breaker, t, act.status, act.stamp))
}
