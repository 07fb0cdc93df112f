// What each processor runs in a tick, from one pass over the rows.
#![tactic(auto)]

ghost use Rattle.std.specs.Prelude.{◌≡◌, ℕ, ◌<◌, ◌≤◌, Bool, Option, get_or, replicate};
ghost use Rattle.lists.specs.Tab.{tab};
ghost use Rattle.jobs.specs.Numbers.{jobs_in};
ghost use Rattle.picks.specs.Pick.{home, pick};
ghost use Rattle.picks.specs.Offer.{no_offer, nothing, against as against_lem, choice, Offered};
ghost use Rattle.picks.specs.Good.{GoodHomes, GoodPlaces};

use chain::Place;

// A row, numbered from 1, and its key.
#[derive(Clone, Copy, Debug, PartialEq, Eq)]
struct Best {
    row: u32,
    key: u32,
}

// What a processor has to choose from: the best section not yet begun, the section begun last, the best stage, and the best
// ceiling held, 64 if nothing is held: no Option, since a ceiling of 64 means none everywhere (rank: Ceiling).
#[derive(Clone, Copy, Debug, PartialEq, Eq)]
struct Offer {
    first: Option<Best>,
    last: Option<Best>,
    stage: Option<Best>,
    held: u32,
}

// Puts row i in place of the best so far, if there is one, where its key comes first. The best so far is lent to be changed: where it
// stays, nothing is written.
fn against<F: Fn(u32, u32) -> bool>(b: &mut Option<Best>, i: usize, key: u32, ahead: F)
    requires { (i < 64) × F.IsAlwaysCallable ahead }
    ensures { (order : ℕ → ℕ → Bool) → ((k : ℕ) → k < 4294967296 → (r : Bool) → F.post ahead key k r → r ≡ order key k) → b.new ≡ against_lem order b.old i key }
{
    let so_far = *b;
    match so_far {
        Some(best) if !ahead(key, best.key) => {}
        _ => {
            *b = Some(Best {
                row: i as u32 + 1,
                key,
            });
        }
    }
}

// The processor of a part of row i.
fn home_of(homes: &[u32; 192], i: usize, part: u32) -> usize
    requires { (i < 64) × (part < 3) × ((k : ℕ) → get_or homes.now k 0 ≤ 16) }
    ensures { (result ≡ home homes.now i part) × (result ≤ 16) }
{
    homes[3 * i + part as usize] as usize
}

// Looks the rows over for what each processor has to choose from, at the processor's number.
fn look_over(
    jobs: &[u32; 576],
    homes: &[u32; 192],
    rank: &[u32; 64],
    top: &[u32; 64],
    n: usize,
    offers: &mut [Offer; 17],
)
    requires { GoodHomes homes.now rank.now n × GoodPlaces (jobs_in jobs.now) n × (offers.old ≡ replicate 17 nothing) }
    ensures { (q : ℕ) → q < 17 → Offered homes.now rank.now top.now (jobs_in jobs.now) n (get_or offers.new q no_offer) q }
{
    // over i: a row is read in several columns
    for i in 0..n {
        let x = jobs::job_at(jobs, i);
        if let Place::Running { part, .. } = x.place {
            let q = home_of(homes, i, part);
            let o = &mut offers[q];
            if part != 1 {
                against(&mut o.stage, i, rank[i], |key, best| key < best);
            } else if x.begun == 0 {
                against(&mut o.first, i, rank[i], |key, best| key < best);
            } else {
                against(&mut o.last, i, x.begun, |key, best| key > best);
                o.held = lists::smaller(top[i], o.held);
            }
        }
    }
}

// The row that a processor runs, from what it has to choose from; 0 is none.
fn choose(o: &Offer) -> u32
    ensures { result ≡ choice o.now.first o.now.last o.now.stage o.now.held }
{
    match (o.first, o.last) {
        (None, None) => o.stage.map_or(0, |stage| stage.row),
        (None, Some(last)) => last.row,
        (Some(first), None) => first.row,
        (Some(first), Some(last)) => {
            if first.key < o.held {
                first.row
            } else {
                last.row
            }
        }
    }
}

// The row that each processor runs, at the processor's number; 0 is none, as the definition pick has it. Its columns come one by one,
// since the chart that holds them is of machine, which is built on this crate.
pub fn picks(
    jobs: &[u32; 576],
    homes: &[u32; 192],
    rank: &[u32; 64],
    top: &[u32; 64],
    n: usize,
) -> [u32; 17]
    requires { GoodHomes homes.now rank.now n × GoodPlaces (jobs_in jobs.now) n }
    ensures { result ≡ tab 17 (pick homes.now rank.now top.now n (jobs_in jobs.now)) }
{
    let none = Offer {
        first: None,
        last: None,
        stage: None,
        held: 64,
    };
    let mut offers = [none; 17];
    look_over(jobs, homes, rank, top, n, &mut offers);
    let mut out = lists::blank::<17>(0);
    // no offers.map: it moves the 17 offers, and a run took 8% longer
    for q in 0..17 {
        out[q] = choose(&offers[q]);
    }
    out
}
