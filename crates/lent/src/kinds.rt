// A step over a lent table, for each kind of site: it takes the record of the node that it names out of the table, goes by value, and writes the record back; an
// accepted Start sets the first n records anew.
ghost use Rattle.std.specs.Prelude.{◌≡◌, ℕ, length};
ghost use Rattle.steps.specs.Named.{Named};
ghost use Rattle.lent.specs.declared.kinds.Turned.{Turned};
ghost use Rattle.lent.specs.laws.InTurn.{index_of, begins_of, out_at, Written, Goes, GoesFirst};

use loans::Records;
use site::Answer;
use steps::Beginning;

// What a step leaves, which is given the record of the acting node alone.
#[derive(Clone, Copy)]
pub struct Turned<S, R> {
    pub answer: Answer,
    pub site: S,
    pub node: R,
}

// What a step says to its caller, beside the table that it leaves.
#[derive(Clone, Copy)]
pub struct Told<S> {
    pub answer: Answer,
    pub site: S,
}

// The same with a table of N records by value.
#[derive(Clone, Copy)]
pub struct Whole<S, R, const N: usize> {
    pub answer: Answer,
    pub site: S,
    pub nodes: [R; N],
}

pub trait Kind: Records {
    type Site: Copy;

    type Step: Copy;

    ghost named: { Self.Step → Named };

    ghost stepped: { Self.Site → ℕ → Self.Record → Self.Step → Turned Self.Site Self.Record };

    // The node that a step names.
    fn actor(step: Self::Step) -> Option<usize>
        ensures { result ≡ (named step).actor };

    // What a Start gives.
    fn beginning(step: Self::Step) -> Option<Beginning>
        ensures { result ≡ (named step).beginning };

    // A step with the number of records that are lent, and the record of the acting node.
    fn turn(
        site: Self::Site,
        lent: usize,
        node: Self::Record,
        step: Self::Step,
    ) -> Turned<Self::Site, Self::Record>
        ensures { result ≡ stepped site lent node step };
}

// Where the record stands that a step takes: past the end where it names no node.
fn place<K: Kind>(step: K::Step, len: usize) -> usize
    ensures { result ≡ index_of (K.named step).actor len }
{
    K::actor(step).unwrap_or(len)
}

// How many records an answered Start sets anew.
fn begins(answer: Answer, b: Beginning) -> usize
    ensures { result ≡ begins_of answer b }
{
    match answer {
        Ok(_) => site::sound::nodes(b.f, b.k) as usize,
        Err(_) => 0,
    }
}

// A step with the record at i, which is written back; where there is none, with the record of a node that is down.
fn act<K: Kind>(site: K::Site, nodes: &mut [K::Record], i: usize, step: K::Step) -> Told<K::Site>
    ensures { Written (out_at K.stepped K.when_down site nodes.old i step) nodes.old i result.answer result.site nodes.new }
{
    let node = loans::record_at::<K>(nodes, i);
    let out = K::turn(site, nodes.len(), node, step);
    loans::write_at(nodes, i, out.node);
    Told {
        answer: out.answer,
        site: out.site,
    }
}

// A step of a site with its table. A refused step, a Tick and what is said to the breaker leave every record as it was. Where no record is to be made, it ends
// before the table is lent a second time.
pub fn step<K: Kind>(site: K::Site, nodes: &mut [K::Record], step: K::Step) -> Told<K::Site>
    ensures { Goes K.named K.stepped K.when_down K.rule site nodes.old step result.answer result.site nodes.new }
{
    let i = place::<K>(step, nodes.len());
    let told = act::<K>(site, nodes, i, step);
    let Some(b) = K::beginning(step) else {
        return told;
    };
    let n = begins(told.answer, b);
    if n == 0 {
        return told;
    }
    loans::fill::<K>(nodes, n, b.compromised);
    told
}

// A step with the first `count` of N records, by value: here a table in a local is lent. Above N there are no more.
pub fn step_first<K: Kind, const N: usize>(
    site: K::Site,
    mut nodes: [K::Record; N],
    count: usize,
    step: K::Step,
) -> Whole<K::Site, K::Record, N>
    ensures { GoesFirst K.named K.stepped K.when_down K.rule site nodes count step result.answer result.site result.nodes }
{
    let told = crate::kinds::step::<K>(site, &mut nodes[..count.min(N)], step);
    Whole {
        answer: told.answer,
        site: told.site,
        nodes,
    }
}
