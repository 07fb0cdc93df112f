// The machine: one tick after the other.
#![tactic(auto)]

ghost use Rattle.std.specs.Prelude.{◌≡◌, ℕ, suc, ◌*◌, ◌<◌, ◌≤◌, length, get_or, set, [], ◌∷◌, true, false, IfOk, IfErr};
ghost use Rattle.std.proofs.lemmas.List.Edits.{sets};
ghost use Rattle.lists.specs.Tab.{tab};
ghost use Rattle.table.specs.Good.{GoodTable};
ghost use Rattle.chain.specs.Release.{released, late, due_of};
ghost use Rattle.chain.specs.Good.{GoodBounds, GoodJob, part_of};
ghost use Rattle.jobs.specs.Numbers.{job_in, jobs_in};
ghost use Rattle.arrivals.specs.Arrival.{arrival_at, listed, brings};
ghost use Rattle.machine.specs.Chart.{threes, chart_of as chart_of_lem};
ghost use Rattle.machine.specs.Tick.{serve, kind_of as kind_of_lem, byte_of as byte_of_lem, noted_at, releases, late_row};
ghost use Rattle.machine.specs.Counts.{tally_of};
ghost use Rattle.machine.specs.Start.{start};
ghost use Rattle.machine.specs.Good.{Dues, soonest_of, Held, Coming};

use arrivals::Flat;
use chain::{Job, Place};
use plan::Plan;
use table::Table;

// What the machine reads of a table and its plan: for each row the bounds and the processors of its three parts, its rank, and
// the ceiling of its resource. Flat columns, since the definitions threes and home and the answer's 192 responses are; and that they
// are good is no ghost field, since the definition chart_of makes a chart of every table.
#[derive(Clone, Copy)]
pub struct Chart {
    pub n: usize,
    pub m: usize,
    pub bounds: [u32; 192],
    pub homes: [u32; 192],
    pub rank: [u32; 64],
    pub top: [u32; 64],
}

// What a run counts: jobs ended, units run and units owed.
#[derive(Clone, Copy)]
pub struct Tally {
    pub jobs: u64,
    pub run: u64,
    pub owed: u64,
}

// The first row, counted from 0, with a release that comes too early.
#[derive(Clone, Copy, Debug, PartialEq, Eq)]
pub struct TooEarly {
    pub row: usize,
}

// Later than every tick.
const NEVER: u32 = 4294967295;

// The machine between two ticks: the jobs as numbers, for each row the next tick with a release, the worst responses so far, three
// for each row, and the place that the arrivals have come to.
#[derive(Drop)]
pub struct State {
    pub jobs: [u32; 576],
    pub due: [u32; 64],
    pub worst: [u32; 192],
    pub next: usize,
}

impl State {
    // The machine before the first tick: no task has arrived yet.
    pub fn start() -> State
        ensures { result ≡ start }
    {
        State {
            jobs: lists::blank(0),
            due: lists::blank(NEVER),
            worst: lists::blank(0),
            next: 0,
        }
    }
}

// Writes three numbers at a row's places, one by one, as jobs::put_job does.
fn put_three(out: &mut [u32; 192], i: usize, x: u32, y: u32, z: u32)
    requires { i < 64 }
    ensures { out.new ≡ sets out.old (3 * i) (x ∷ y ∷ z ∷ []) }
{
    let at = 3 * i;
    out[at] = x;
    out[at + 1] = y;
    out[at + 2] = z;
}

// Three columns side by side.
fn interleaved(x: &[u32; 64], y: &[u32; 64], z: &[u32; 64], n: usize) -> [u32; 192]
    requires { n ≤ 64 }
    ensures { result ≡ threes x.now y.now z.now n }
{
    let mut out = lists::blank(0);
    // over i: a row is read in three columns
    for i in 0..n {
        put_three(&mut out, i, x[i], y[i], z[i]);
    }
    out
}

// What the machine reads of a table and its plan.
pub fn chart_of(t: &Table, p: &Plan) -> Chart
    requires { GoodTable t.now }
    ensures { result ≡ chart_of_lem t.now p.now }
{
    let locks = plan::of_resource(&p.serves, &t.resource, t.n);
    let tops = plan::of_resource(&t.ceiling, &t.resource, t.n);
    Chart {
        n: t.n,
        m: t.m,
        bounds: interleaved(&p.d1, &p.section, &p.d2, t.n),
        homes: interleaved(&p.processor, &locks, &p.processor, t.n),
        rank: t.rank,
        top: if t.npp { lists::blank(0) } else { tops },
    }
}

// The releases of row i in tick t, where an arrival brings these lengths, or none comes; unless one comes too early.
fn release_row(
    jobs: &mut [u32; 576],
    due: &mut [u32; 64],
    bounds: &[u32; 192],
    i: usize,
    t: u32,
    came: Option<[u32; 3]>,
) -> Result<(), TooEarly>
    requires { (i < 64) × (t < 1000000) × GoodBounds bounds.now × GoodJob (job_in jobs.old i) × ((job_in jobs.old i).ended < 4294967294) }
    ensures released { (jobs_in jobs.new ≡ set (jobs_in jobs.old) i (released bounds.now i t (job_in jobs.old i) came))
        × (due.new ≡ set due.old i (due_of bounds.now i (released bounds.now i t (job_in jobs.old i) came))) }
    ensures ok { IfOk result (λ _. late bounds.now i t (job_in jobs.old i) came ≡ false) }
    ensures err { IfErr result (λ e. (e.row ≡ i) × (late bounds.now i t (job_in jobs.old i) came ≡ true)) }
{
    let x = jobs::job_at(jobs, i);
    let r = chain::release_job(bounds, i, t, x, came);
    let job = r.job;
    jobs::put_job(jobs, i, job);
    due[i] = chain::due_of(bounds, i, job);
    if r.late {
        return Err(TooEarly { row: i });
    }
    Ok(())
}

// The first of the next releases of n rows.
pub fn soonest(due: &[u32; 64], n: usize) -> u32
    requires { n ≤ 64 }
    ensures { result ≡ soonest_of n due.now }
{
    due[..n].iter().fold(NEVER, |least, tick| least.min(*tick))
}

// Whether no row has a release in tick t: none of n is due, and none of the arrivals from place `next` on comes.
fn nothing_due(due: &[u32; 64], n: usize, t: u32, xs: &Flat, next: usize) -> bool
    requires { n ≤ 64 }
    ensures { result ≡ true → ((i : ℕ) → i < n → t < get_or due.now i 0) × (next < xs.now.count → t < (arrival_at (listed xs.now) next).tick) }
{
    if next < xs.count && xs.numbers[5 * next] <= t {
        return false;
    }
    t < soonest(due, n)
}

// The releases of a tick: each row's, unless one comes too early; the place that the arrivals have come to.
fn release_each(
    jobs: &mut [u32; 576],
    due: &mut [u32; 64],
    c: &Chart,
    t: u32,
    xs: &Flat,
    next: usize,
) -> Result<usize, TooEarly>
    requires { (t < 1000000) × GoodBounds c.now.bounds × Held c.now.n c.now.bounds t jobs.old due.old × Coming c.now.n (listed xs.now) next t }
    ensures ok { IfOk result (λ at. (late_row c.now.n c.now.bounds (brings (listed xs.now)) t (jobs_in jobs.old) ≡ c.now.n)
        × (jobs_in jobs.new ≡ releases c.now.n c.now.bounds (brings (listed xs.now)) t (jobs_in jobs.old)) × Dues c.now.n c.now.bounds (jobs_in jobs.new) due.new × Coming c.now.n (listed xs.now) at (suc t)) }
    ensures err { IfErr result (λ e. (e.row ≡ late_row c.now.n c.now.bounds (brings (listed xs.now)) t (jobs_in jobs.old)) × (e.row < c.now.n)) }
{
    let mut at = next;
    // over i: a row is read in several columns
    for i in 0..c.n {
        match arrivals::brought(xs, at, t, i) {
            Some(lens) => {
                release_row(jobs, due, &c.bounds, i, t, Some(lens))?;
                at += 1;
            }
            // two calls: with one for both, what comes is put together for each row, also where nothing does, and a run took longer
            None => {
                if due[i] <= t {
                    release_row(jobs, due, &c.bounds, i, t, None)?;
                }
            }
        }
    }
    Ok(at)
}

// The releases of a tick, where it has any; the place that the arrivals have come to. Of the state it is lent the two columns that it
// writes.
pub fn release_rows(
    jobs: &mut [u32; 576],
    due: &mut [u32; 64],
    c: &Chart,
    t: u32,
    xs: &Flat,
    next: usize,
) -> Result<usize, TooEarly>
    requires { (t < 1000000) × GoodBounds c.now.bounds × Held c.now.n c.now.bounds t jobs.old due.old × Coming c.now.n (listed xs.now) next t }
    ensures ok { IfOk result (λ at. (late_row c.now.n c.now.bounds (brings (listed xs.now)) t (jobs_in jobs.old) ≡ c.now.n)
        × (jobs_in jobs.new ≡ releases c.now.n c.now.bounds (brings (listed xs.now)) t (jobs_in jobs.old)) × Dues c.now.n c.now.bounds (jobs_in jobs.new) due.new × Coming c.now.n (listed xs.now) at (suc t)) }
    ensures err { IfErr result (λ e. (e.row ≡ late_row c.now.n c.now.bounds (brings (listed xs.now)) t (jobs_in jobs.old)) × (e.row < c.now.n)) }
{
    if nothing_due(due, c.n, t, xs, next) {
        return Ok(next);
    }
    release_each(jobs, due, c, t, xs, next)
}

// Row i's job after a tick: it runs a unit where the processor of its running part picks it.
pub fn serve_job(x: Job, i: usize, picked: &[u32; 17], c: &Chart, t: u32) -> Job
    requires { (i < 64) × (t < 1000000) × GoodBounds c.now.bounds × ((k : ℕ) → get_or c.now.homes k 0 ≤ 16) × GoodJob x × (x.ended < 4294967295) × (x.ran < 4294967295) }
    ensures { result ≡ serve picked.now c.now.bounds c.now.homes t i x }
{
    let Place::Running { part, left } = x.place else {
        return x;
    };
    let q = c.homes[3 * i + part as usize] as usize;
    let row = picked[q];
    if row != i as u32 + 1 {
        return x;
    }
    chain::unit(&c.bounds, i, t, x, part, left)
}

// Notes the response of row i's part where it ends with the unit of tick t.
pub fn note(x: Job, i: usize, bounds: &[u32; 192], t: u32, worst: &mut [u32; 192])
    requires { (i < 64) × (t < 1000000) × GoodBounds bounds.now × GoodJob x }
    ensures { worst.new ≡ noted_at bounds.now t i x x.place worst.old }
{
    let Place::Running { part, left } = x.place else {
        return;
    };
    if left > 1 {
        return;
    }
    let k = 3 * i + part as usize;
    let response = chain::response(bounds, i, t, x.arrived, part);
    worst[k] = worst[k].max(response);
}

// The kind of a place, a number as the trace has it: 0 idle, 1 stage one, 2 section, 3 stage two.
#[tactic(auto, unfolding(crate::specs::Tick::kind_of))]
fn kind_of(p: Place) -> u32
    requires { part_of p < 3 }
    ensures { (result ≡ kind_of_lem p) × (result ≤ 3) }
{
    match p {
        Place::Idle | Place::Waiting { .. } => 0,
        Place::Running { part, .. } => part + 1,
    }
}

// The byte of a processor that runs this row, numbered from 1, or none.
fn byte_of(jobs: &[u32; 576], row: u32) -> u8
    requires { (row ≤ 64) × ((i : ℕ) → i < 64 → GoodJob (job_in jobs.now i)) }
    ensures { result ≡ byte_of_lem (jobs_in jobs.now) row }
{
    let Some(i) = row.checked_sub(1) else {
        return 0;
    };
    let x = jobs::job_at(jobs, i as usize);
    (kind_of(x.place) * 64 + i) as u8
}

// The bytes of a tick, one for each processor.
pub fn show(jobs: &[u32; 576], picked: &[u32; 17], lane: &mut [u8])
    requires { (length lane.old ≤ 16) × ((q : ℕ) → get_or picked.now q 0 ≤ 64) × ((i : ℕ) → i < 64 → GoodJob (job_in jobs.now i)) }
    ensures { lane.new ≡ tab (length lane.old) (λ k. byte_of_lem (jobs_in jobs.now) (get_or picked.now (suc k) 0)) }
{
    for (k, byte) in lane.iter_mut().enumerate() {
        *byte = byte_of(jobs, picked[k + 1]);
    }
}

// What n jobs have ended, run and still owe.
pub fn count_up(jobs: &[u32; 576], n: usize) -> Tally
    requires { (n ≤ 64) × ((i : ℕ) → i < n → GoodJob (job_in jobs.now i)) }
    ensures { result ≡ tally_of n (jobs_in jobs.now) }
{
    let mut tally = Tally {
        jobs: 0,
        run: 0,
        owed: 0,
    };
    // over i: a row's job is no element, it is read out of the numbers
    for i in 0..n {
        let x = jobs::job_at(jobs, i);
        tally.jobs += u64::from(x.ended);
        tally.run += u64::from(x.ran);
        tally.owed += chain::owed(x);
    }
    tally
}
