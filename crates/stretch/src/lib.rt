// Ticks stepped together, as long as nothing is released and every processor runs the same row.
#![tactic(auto)]

ghost use Rattle.std.specs.Prelude.{◌≡◌, ℕ, suc, ◌+◌, ◌*◌, ◌<◌, ◌≤◌, length, get_or, set, IfOk, IfErr};
ghost use Rattle.lists.specs.Tab.{tab};
ghost use Rattle.chain.specs.Release.{due_of};
ghost use Rattle.chain.specs.Unit.{push};
ghost use Rattle.chain.specs.Good.{GoodBounds};
ghost use Rattle.jobs.specs.Numbers.{job_in, jobs_in};
ghost use Rattle.arrivals.specs.Arrival.{arrival_at, listed, brings};
ghost use Rattle.machine.specs.Tick.{serve, noted_to, late_row};
ghost use Rattle.machine.specs.Good.{GoodChart, Dues, Held, Coming};
ghost use Rattle.stretch.specs.Stretch.{Stretch};
ghost use Rattle.stretch.specs.Push.{Goes, Ready, Picks, push_row};

use arrivals::Flat;
use chain::{Job, Place};
use machine::{Chart, State, TooEarly};

// How far it is from one number up to another, at most `most`.
fn gap(from: u32, to: u32, most: u32) -> u32
    ensures { (result ≤ most) × (0 < result → from + result ≤ to) }
{
    to.saturating_sub(from).min(most)
}

// How many ticks from t on bring no arrival, at most `most`.
fn before_arrival(xs: &Flat, next: usize, t: u32, most: u32) -> u32
    ensures { (result ≤ most) × (0 < result → next < xs.now.count → t + result ≤ (arrival_at (listed xs.now) next).tick) }
{
    if next >= xs.count {
        return most;
    }
    gap(t, xs.numbers[5 * next], most)
}

// For how many ticks a row that a processor picks runs on as it does, at most `most`: one where a section begins whose ceiling is
// worse than its rank, since a waiting section with a rank between the two may then start before it ends.
fn goes_on(x: Job, rank: u32, top: u32, most: u32) -> u32
    ensures { (result ≤ most) × (1 < result → Goes rank top result x x.place) }
{
    let Place::Running { part, left } = x.place else {
        return most;
    };
    if part == 1 && x.begun == 0 && rank < top {
        return most.min(1);
    }
    left.min(most)
}

// For how many ticks the picked rows run on as they do, at most `most`.
fn all_go_on(jobs: &[u32; 576], picked: &[u32; 17], c: &Chart, most: u32) -> u32
    requires { (q : ℕ) → get_or picked.now q 0 ≤ 64 }
    ensures { (result ≤ most) × (1 < result → (q i : ℕ) → q < 17 → get_or picked.now q 0 ≡ suc i → Goes (get_or c.now.rank i 0) (get_or c.now.top i 0) result (job_in jobs.now i) (job_in jobs.now i).place) }
{
    let mut ticks = most;
    for row in picked {
        if *row > 0 {
            let i = *row as usize - 1;
            let x = jobs::job_at(jobs, i);
            ticks = goes_on(x, c.rank[i], c.top[i], ticks);
        }
    }
    ticks
}

// Notes the responses of the parts that end in tick t + k, when the picked rows have run k units since tick t.
fn note_rows(
    jobs: &[u32; 576],
    picked: &[u32; 17],
    c: &Chart,
    t: u32,
    k: u32,
    worst: &mut [u32; 192],
)
    requires { (c.now.m ≤ 16) × (t + k < 1000000) × GoodBounds c.now.bounds × ((q i : ℕ) → q < 17 → get_or picked.now q 0 ≡ suc i → (i < 64) × Ready t k (job_in jobs.now i)) }
    ensures { worst.new ≡ noted_to c.now.bounds (t + k) (tab 64 (λ i. push t k (job_in jobs.now i))) picked.now c.now.m worst.old }
{
    for row in &picked[1..=c.m] {
        if *row > 0 {
            let i = *row as usize - 1;
            let x = jobs::job_at(jobs, i);
            let y = chain::push(x, t, k);
            machine::note(y, i, &c.bounds, t + k, worst);
        }
    }
}

// Row i runs k units from tick t on, and the unit of tick t + k.
fn run_row(
    jobs: &mut [u32; 576],
    due: &mut [u32; 64],
    i: usize,
    picked: &[u32; 17],
    c: &Chart,
    t: u32,
    k: u32,
)
    requires { (i < 64) × (t + k < 1000000) × GoodBounds c.now.bounds × ((q : ℕ) → get_or c.now.homes q 0 ≤ 16) × Ready t k (job_in jobs.old i) }
    ensures { (jobs_in jobs.new ≡ set (jobs_in jobs.old) i (serve picked.now c.now.bounds c.now.homes (t + k) i (push t k (job_in jobs.old i))))
        × (due.new ≡ set due.old i (due_of c.now.bounds i (job_in jobs.new i))) }
{
    let x = jobs::job_at(jobs, i);
    let y = chain::push(x, t, k);
    let z = machine::serve_job(y, i, picked, c, t + k);
    jobs::put_job(jobs, i, z);
    due[i] = chain::due_of(&c.bounds, i, z);
}

// The picked rows run k units from tick t on, and the unit of tick t + k.
fn run_rows(
    jobs: &mut [u32; 576],
    due: &mut [u32; 64],
    picked: &[u32; 17],
    c: &Chart,
    t: u32,
    k: u32,
)
    requires { (t + k < 1000000) × GoodBounds c.now.bounds × ((q : ℕ) → get_or c.now.homes q 0 ≤ 16) × Picks picked.now c.now.homes t k (jobs_in jobs.old) }
    ensures { (jobs_in jobs.new ≡ tab 64 (λ i. serve picked.now c.now.bounds c.now.homes (t + k) i (push_row picked.now c.now.homes t k i (job_in jobs.old i))))
        × ((i : ℕ) → i < 64 → get_or due.old i 0 ≡ due_of c.now.bounds i (job_in jobs.old i) → get_or due.new i 0 ≡ due_of c.now.bounds i (job_in jobs.new i))
        × (length jobs.new ≡ 576) × (length due.new ≡ 64) }
{
    for row in picked {
        if *row > 0 {
            let i = *row as usize - 1;
            run_row(jobs, due, i, picked, c, t, k);
        }
    }
}

// For how many ticks behind tick t, before tick e, nothing comes or falls due and every processor runs what it runs in tick t.
fn ticks_behind(s: &State, picked: &[u32; 17], c: &Chart, t: u32, e: u32, xs: &Flat) -> u32
    requires { (c.now.n ≤ 64) × (t < e) × ((q : ℕ) → get_or picked.now q 0 ≤ 64) }
    ensures { (t + result < e)
        × (0 < result → s.now.next < xs.now.count → t + suc result ≤ (arrival_at (listed xs.now) s.now.next).tick)
        × (0 < result → (i : ℕ) → i < c.now.n → t + result < get_or s.now.due i 0)
        × (0 < result → (q i : ℕ) → q < 17 → get_or picked.now q 0 ≡ suc i → Goes (get_or c.now.rank i 0) (get_or c.now.top i 0) (suc result) (job_in s.now.jobs i) (job_in s.now.jobs i).place) }
{
    let free = before_arrival(xs, s.next, t, e - t);
    let calm = gap(t, machine::soonest(&s.due, c.n), free);
    let ticks = all_go_on(&s.jobs, picked, c, calm);
    ticks.saturating_sub(1)
}

// Steps tick t, and the ticks behind it in which every processor runs what it runs in tick t, up to tick e - 1 at most; how many
// these are.
pub fn stretch(
    s: &mut State,
    c: &Chart,
    t: u32,
    e: u32,
    xs: &Flat,
    lane: &mut [u8],
) -> Result<u32, TooEarly>
    requires { (t < e) × (e ≤ 1000000) × GoodChart c.now × Held c.now.n c.now.bounds t s.old.jobs s.old.due × Coming c.now.n (listed xs.now) s.old.next t × (length lane.old ≤ 16) }
    ensures ok { IfOk result (λ ticks. (late_row c.now.n c.now.bounds (brings (listed xs.now)) t (jobs_in s.old.jobs) ≡ c.now.n)
        × Stretch c.now (listed xs.now) t (jobs_in s.old.jobs) s.old.worst ticks (jobs_in s.new.jobs) s.new.worst lane.new
        × (0 < ticks) × (t + ticks ≤ e) × Dues c.now.n c.now.bounds (jobs_in s.new.jobs) s.new.due × Coming c.now.n (listed xs.now) s.new.next (t + ticks)
        × (length s.new.jobs ≡ 576) × (length s.new.due ≡ 64)) }
    ensures err { IfErr result (λ w. (w.row ≡ late_row c.now.n c.now.bounds (brings (listed xs.now)) t (jobs_in s.old.jobs)) × (w.row < c.now.n)) }
    ensures kept { IfErr result (λ w. s.new.next ≡ s.old.next) }
{
    let next = machine::release_rows(&mut s.jobs, &mut s.due, c, t, xs, s.next)?;
    s.next = next;
    let picked = picks::picks(&s.jobs, &c.homes, &c.rank, &c.top, c.n);
    machine::show(&s.jobs, &picked, lane);
    let more = ticks_behind(s, &picked, c, t, e, xs);
    note_rows(&s.jobs, &picked, c, t, more, &mut s.worst);
    run_rows(&mut s.jobs, &mut s.due, &picked, c, t, more);
    Ok(more + 1)
}
