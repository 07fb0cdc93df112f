// The least bound that covers a demand; knows terms, and no tables.
#![tactic(auto)]

ghost use Rattle.std.specs.Prelude.{◌≡◌, ◌+◌, ◌*◌, ◌<◌, ◌≤◌, length, get_or, set};
ghost use Rattle.lists.specs.Tab.{blank};
ghost use Rattle.bounds.specs.Demand.{ceil, demand as demand_lem, GoodTerm, GoodTerms, no_term};
ghost use Rattle.bounds.specs.Terms.{lane};
ghost use Rattle.bounds.specs.Bound.{least as least_lem, bound_of as bound_of_lem};

// The value that broke a limit.
#[derive(Clone, Copy, Debug, PartialEq, Eq)]
pub struct Broke {
    pub value: u32,
}

// What a better-ranked task asks for: a length, once in each period.
#[derive(Clone, Copy)]
pub struct Term {
    pub period: u32,
    pub len: u32,
}

impl Term {
    // What is asked for within t: the length once, as long as t is within one period.
    fn share(&self, t: u32) -> u32
        requires { (1 ≤ t) × (t ≤ 1000000) × GoodTerm self.now }
        ensures { (result ≡ ceil t self.now.period * self.now.len) × (result ≤ 2000000) }
    {
        if t <= self.period {
            return self.len;
        }
        // no div_ceil: it asks for the remainder beside the quotient, and planning took longer
        (t + (self.period - 1)) / self.period * self.len
    }
}

// What is asked for within t: own, and the terms.
fn demand(terms: &[Term], own: u32, t: u32) -> u32
    requires { (length terms.now ≤ 64) × (own ≤ 2000000) × (1 ≤ t) × (t ≤ 1000000) × GoodTerms terms.now }
    ensures { result ≡ own + demand_lem terms.now t }
{
    let mut sum = own;
    for x in terms {
        sum += x.share(t);
    }
    sum
}

// The least t that is what is asked for within it, or the first t tried that is above the limit: each t tried is what is asked for within
// the one before.
fn least(terms: &[Term], own: u32, limit: u32) -> Result<u32, Broke>
    requires { (length terms.now ≤ 64) × (1 ≤ own) × (own ≤ 2000000) × (limit ≤ 1000000) × GoodTerms terms.now }
    ensures { result ≡ least_lem terms.now own limit }
{
    let mut t = own;
    // a while: it goes from one time to the next by what is asked for, and by no index
    while t <= limit {
        let asked = demand(terms, own, t);
        if asked == t {
            return Ok(t);
        }
        t = asked;
    }
    Err(Broke { value: t })
}

// The bound of a length that something may block, among the terms.
fn bound_of(terms: &[Term], own: u32, blocking: u32, limit: u32) -> Result<u32, Broke>
    requires { (length terms.now ≤ 64) × (own ≤ 1000000) × (blocking ≤ 1000000) × (limit ≤ 1000000) × GoodTerms terms.now }
    ensures { result ≡ bound_of_lem terms.now own blocking limit }
{
    if own == 0 {
        return Ok(0);
    }
    least(terms, own + blocking, limit)
}

// The terms of the tasks on each processor: 64 places for each at its number, and how many of them are in use. One flat array, out of
// which a processor's lane is lent as a part (definition lane). That the terms are good is no ghost field: add takes any term.
#[derive(Drop)]
pub struct Lanes {
    pub terms: [Term; 1088],
    pub count: [u32; 17],
}

impl Lanes {
    // No term in any lane.
    pub fn new() -> Lanes
        ensures { (result.terms ≡ blank 1088 no_term) × (result.count ≡ blank 17 0) }
    {
        Lanes {
            terms: [Term { period: 0, len: 0 }; 1088],
            count: lists::blank(0),
        }
    }

    // The bound of a length that something may block, among the terms in processor p's lane.
    pub fn bound_on(&self, p: usize, own: u32, blocking: u32, limit: u32) -> Result<u32, Broke>
        requires { (p < 17) × (get_or self.now.count p 0 ≤ 64) × (own ≤ 1000000) × (blocking ≤ 1000000) × (limit ≤ 1000000) × GoodTerms (lane self.now.terms p (get_or self.now.count p 0)) }
        ensures { result ≡ bound_of_lem (lane self.now.terms p (get_or self.now.count p 0)) own blocking limit }
    {
        let from = 64 * p;
        let n = self.count[p] as usize;
        bound_of(&self.terms[from..from + n], own, blocking, limit)
    }

    // Stores a term behind the others in processor p's lane.
    pub fn add(&mut self, p: usize, x: Term)
        requires { (p < 17) × (get_or self.old.count p 0 < 64) }
        ensures { (self.new.terms ≡ set self.old.terms (64 * p + get_or self.old.count p 0) x) × (self.new.count ≡ set self.old.count p (get_or self.old.count p 0 + 1)) }
    {
        let n = self.count[p];
        self.terms[64 * p + n as usize] = x;
        self.count[p] = n + 1;
    }
}
