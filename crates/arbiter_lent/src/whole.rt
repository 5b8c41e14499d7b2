// The step with a table of twelve records by value, for callers whose proofs go by value.
ghost use Rattle.arbiter_lent.specs.Lent.{Said};

use crate::Arbiters;
use arbiter_node::Voter;
use arbiter_site::Arbiter;
use arbiter_steps::Step;
use lent::kinds;

// How many records there are: the most that any n asks for.
pub const RECORDS: usize = 12;

pub type Whole = kinds::Whole<Arbiter, Voter, RECORDS>;

pub fn step_in(arbiter: Arbiter, nodes: [Voter; 12], step: Step) -> Whole
    ensures { Said arbiter nodes step result.answer result.site result.nodes }
{
    kinds::step_first::<Arbiters, RECORDS>(arbiter, nodes, RECORDS, step)
}
