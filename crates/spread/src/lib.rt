// Resources go to synchronization processors: heaviest first, each to the least loaded.
// Columns are whole arrays with n beside them (fixed memory), and GoodWeights stays a clause: a type that carries it would ask more of
// the callers of heaviest and serve.
#![tactic(auto)]

ghost use Rattle.std.specs.Prelude.{◌≡◌, cond, ℕ, ◌*◌, ◌<◌, ◌≤◌, get_or};
ghost use Rattle.bounds.specs.Demand.{ceil};
ghost use Rattle.rank.specs.Ceiling.{uses};
ghost use Rattle.spread.specs.Weight.{GoodRows, GoodWeights, weight_of as weight_of_lem, weights_of, used_of, lacks_of, heaviest_of};
ghost use Rattle.spread.specs.Spread.{lightest_of, serves_of};

// What a user of resource r adds to its weight; 0 for a row that does not use it.
#[tactic(auto, using(crate::proofs::Weight::rounded_up, crate::proofs::Weight::user_le))]
fn weight_by(named: u32, r: u32, section: u32, period: u32) -> u32
    requires { (1 ≤ period) × (period ≤ 1000000) × (section ≤ period) }
    ensures { (result ≡ cond (uses named r) (ceil (section * 1000000) period) 0) × (result ≤ 1000000) }
{
    if !rank::uses(named, r) {
        return 0;
    }
    (u64::from(section) * 1000000).div_ceil(u64::from(period)) as u32
}

// What resource r weighs.
fn weight_of(period: &[u32; 64], section: &[u32; 64], resource: &[u32; 64], n: usize, r: u32) -> u32
    requires { (n ≤ 64) × GoodRows period.now section.now n }
    ensures { (result ≡ weight_of_lem period.now section.now resource.now n r) × (result ≤ 64000000) }
{
    let mut sum = 0;
    for k in 0..n {
        sum += weight_by(resource[k], r, section[k], period[k]);
    }
    sum
}

// The weights of resources 1 to 16, each at its number.
pub fn weights(period: &[u32; 64], section: &[u32; 64], resource: &[u32; 64], n: usize) -> [u32; 17]
    requires { (n ≤ 64) × GoodRows period.now section.now n }
    ensures { result ≡ weights_of period.now section.now resource.now n }
{
    let mut out = lists::blank(0);
    for r in 0..17 {
        out[r] = weight_of(period, section, resource, n, r as u32);
    }
    out
}

// How many resources are used.
pub fn used(weight: &[u32; 17]) -> usize
    ensures { (result ≡ used_of weight.now) × (result ≤ 16) }
{
    weight[1..].iter().filter(|x| **x > 0).count()
}

// What each resource lacks to the most that it could weigh.
fn lacks(weight: &[u32; 17]) -> [u32; 64]
    requires { GoodWeights weight.now }
    ensures { result ≡ lacks_of weight.now }
{
    let mut out = lists::blank(0);
    for r in 0..16 {
        out[r] = 64000000 - weight[r + 1];
    }
    out
}

// The numbers of the resources, heaviest first.
pub fn heaviest(weight: &[u32; 17]) -> [u32; 64]
    requires { GoodWeights weight.now }
    ensures { result ≡ heaviest_of weight.now }
{
    let lack = lacks(weight);
    let place = rank::ranks(&lack, 16);
    let number = rank::numbers_to(16);
    rank::in_rank(&place, 16, &number)
}

// The least loaded of processors 1 to s.
fn lightest(load: &[u32; 17], s: usize) -> usize
    requires { s ≤ 16 }
    ensures { (result ≡ lightest_of load.now s) × (1 ≤ result) × (result ≤ 16) }
{
    let mut best = 1;
    for p in 1..=s {
        if load[p] < load[best] {
            best = p;
        }
    }
    best
}

// The processor of each of the first u resources of the order, at its number.
pub fn serve(weight: &[u32; 17], order: &[u32; 64], s: usize, u: usize) -> [u32; 17]
    requires { (s ≤ 16) × (u ≤ 16) × ((j : ℕ) → j < u → get_or order.now j 0 ≤ 16) × GoodWeights weight.now }
    ensures { result ≡ serves_of weight.now order.now s u }
{
    let mut serves = lists::blank(0);
    let mut load: [u32; 17] = lists::blank(0);
    for number in &order[..u] {
        let r = *number as usize;
        let p = lightest(&load, s);
        serves[r] = p as u32;
        load[p] += weight[r];
    }
    serves
}
