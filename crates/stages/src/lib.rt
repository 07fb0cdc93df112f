// The bounds of stages, and first fit.
#![tactic(auto)]

ghost use Rattle.std.specs.Prelude.{◌≡◌, ℕ, ◌<◌, ◌≤◌, MatchOption, min, get_or};
ghost use Rattle.bounds.specs.Demand.{GoodTerms};
ghost use Rattle.bounds.specs.Terms.{lane};
ghost use Rattle.stages.specs.Fit.{fit_among, place_among};
ghost use Rattle.stages.specs.Stage.{stages_of};
ghost use Rattle.stages.specs.Good.{GoodStages};

use bounds::{Broke, Lanes, Term};

// What a task has to fit into its period on a processor: the lengths of its two stages, and the bound of its section.
#[derive(Clone, Copy)]
struct Need {
    c1: u32,
    c2: u32,
    section: u32,
    period: u32,
    ghost in_period: { (c1 ≤ 1000000) × (c2 ≤ 1000000) × (section ≤ period) × (period ≤ 1000000) },
}

// The bounds D1 and D2 of a task on a processor.
#[derive(Clone, Copy)]
struct Pair {
    d1: u32,
    d2: u32,
}

// A task's processor, D1 and D2.
#[derive(Clone, Copy)]
struct Spot {
    processor: u32,
    d1: u32,
    d2: u32,
}

// The processor, D1 and D2 of each task, in rank order.
#[derive(Drop)]
pub struct Stages {
    pub processor: [u32; 64],
    pub d1: [u32; 64],
    pub d2: [u32; 64],
}

// The first task that fits no processor, the smallest of the values that keep it from that, and the places of the tasks before it.
#[derive(Drop)]
pub struct Nowhere {
    pub task: usize,
    pub value: u32,
    pub placed: Stages,
}

// How a task fits processor p, beside the terms in its lane: its two bounds there, or the value that keeps it from fitting.
fn fit_on(lanes: &Lanes, p: usize, need: Need) -> Result<Pair, Broke>
    requires { (p < 17) × (get_or lanes.now.count p 0 ≤ 64) × GoodTerms (lane lanes.now.terms p (get_or lanes.now.count p 0)) }
    ensures { result ≡ fit_among (lane lanes.now.terms p (get_or lanes.now.count p 0)) need.c1 need.c2 need.section need.period }
{
    let limit = need.period - need.section;
    let d1 = lanes.bound_on(p, need.c1, 0, limit)?;
    let d2 = lanes.bound_on(p, need.c2, 0, limit)?;
    let sum = d1 + need.section + d2;
    if sum > need.period {
        return Err(Broke { value: sum });
    }
    Ok(Pair { d1, d2 })
}

// The smaller of a value and the smallest so far; the value itself, where it is the first.
fn lower(least: Option<u32>, value: u32) -> u32
    ensures { MatchOption least (result ≡ value) (λ x. result ≡ min value x) }
{
    least.map_or(value, |x| value.min(x))
}

// The first of processors s + 1 to m that a task fits, beside the terms in its lane, or the smallest of the values that keep it from that.
fn first_fit(lanes: &Lanes, s: usize, m: usize, need: Need) -> Result<Spot, Broke>
    requires { (s < m) × (m ≤ 16) × ((p : ℕ) → p < 17 → (get_or lanes.now.count p 0 ≤ 64) × GoodTerms (lane lanes.now.terms p (get_or lanes.now.count p 0))) }
    ensures { result ≡ place_among (λ p. fit_among (lane lanes.now.terms p (get_or lanes.now.count p 0)) need.c1 need.c2 need.section need.period) s m }
{
    let mut least = None;
    for p in s + 1..m + 1 {
        match fit_on(lanes, p, need) {
            Ok(pair) => {
                return Ok(Spot {
                    processor: p as u32,
                    d1: pair.d1,
                    d2: pair.d2,
                });
            }
            Err(broke) => least = Some(lower(least, broke.value)),
        }
    }
    Err(Broke {
        value: least.unwrap(),
    })
}

// The places of n tasks, in rank order, up to the first that fits no processor.
// The columns stay apart, as the table and the plan hold them (fixed memory, and stages_of speaks of single columns).
pub fn place_tasks(
    period: &[u32; 64],
    c1: &[u32; 64],
    c2: &[u32; 64],
    work: &[u32; 64],
    section: &[u32; 64],
    n: usize,
    s: usize,
    m: usize,
) -> Result<Stages, Nowhere>
    requires { GoodStages period.now c1.now c2.now work.now section.now n s m }
    ensures { result ≡ stages_of period.now c1.now c2.now work.now section.now s m n }
{
    let mut placed = Stages {
        processor: lists::blank(0),
        d1: lists::blank(0),
        d2: lists::blank(0),
    };
    let mut lanes = Lanes::new();
    for k in 0..n {
        let need = Need {
            c1: c1[k],
            c2: c2[k],
            section: section[k],
            period: period[k],
        };
        match first_fit(&lanes, s, m, need) {
            Ok(spot) => {
                placed.processor[k] = spot.processor;
                placed.d1[k] = spot.d1;
                placed.d2[k] = spot.d2;
                lanes.add(
                    spot.processor as usize,
                    Term {
                        period: period[k],
                        len: work[k],
                    },
                );
            }
            Err(broke) => {
                return Err(Nowhere {
                    task: k,
                    value: broke.value,
                    placed,
                });
            }
        }
    }
    Ok(placed)
}
