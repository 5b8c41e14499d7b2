// The site: the breaker and what is kept of the nodes, and what a step answers. A step takes the site, the number of records that the caller
// lends and the record of the acting node, all by value, and hands site and record back with its answer.
#![tactic(auto)]

pub mod sound;

ghost use Rattle.std.specs.Prelude.{◌≡◌};
ghost use Rattle.site.specs.Answers.{number_of, silence};

use breaker::Breaker;
use node::Node;
use pairs::{Pair, Pairs};
use refusals::Refusal;
use store::Store;

pub const MOST_F: u8 = 4;

pub const MOST_K: u8 = 3;

// The site clock begins at the first of these to the second, and goes to the third.
pub const FIRST_G: u32 = 2;

pub const LAST_START_G: u32 = 999999000;

pub const LAST_G: u32 = 1000000000;

// The site's clock g is the clock of `made`, the fresh shares that correct nodes have made since Start. `started` stays a flag beside the rest: a site that is not
// started is handed back as it was given, every number of it (`refused`), which an Option would lose.
#[derive(Clone, Copy)]
pub struct Site {
    pub started: bool,
    pub f: u8,
    pub k: u8,
    pub compromised: u16,
    pub down: u16,
    pub breaker: Breaker,
    pub made: Store,
}

// What a step sends: shares by rising stamp, then commands, then an ack.
#[derive(Clone, Copy)]
pub struct Sent {
    pub shares: Pairs,
    pub commands: Pairs,
    pub ack: Option<Pair>,
}

// What a step answers: what it sends where it is done, or why it is refused.
pub type Answer = Result<Sent, Refusal>;

#[derive(Clone, Copy)]
pub struct Out {
    pub answer: Answer,
    pub site: Site,
    pub node: Node,
}

// The number that document 01 gives an answer.
pub fn number_of(answer: Answer) -> u8
    ensures { result ≡ number_of answer }
{
    match answer {
        Ok(_) => 0,
        Err(refusal) => refusal.number(),
    }
}

// A step that sends nothing.
pub fn silence() -> Sent
    ensures { result ≡ silence }
{
    Sent {
        shares: Pairs::Zero,
        commands: Pairs::Zero,
        ack: None,
    }
}
