// A task's place in its chain: releases, one unit of work, and what is still owed.
#![tactic(auto)]

ghost use Rattle.std.specs.Prelude.{◌≡◌, not, ◌&&◌, is_some, ◌+◌, ◌-◌, ◌*◌, ◌<◌, ◌≤◌};
ghost use Rattle.chain.specs.Job.{moved as moved_lem, is_idle as is_idle_lem};
ghost use Rattle.chain.specs.Release.{release, enter as enter_lem, wake as wake_lem, admit as admit_lem, overdue as overdue_lem, released, late, due_of as due_of_lem};
ghost use Rattle.chain.specs.Unit.{mark as mark_lem, response as response_lem, next as next_lem, running as running_lem, unit_of, push as push_lem};
ghost use Rattle.chain.specs.Owed.{owes, lens_from as lens_from_lem};
ghost use Rattle.chain.specs.Good.{GoodBounds, GoodJob, Lasts};

// A task is idle, waits until a named tick for the release of a part, or runs a part with ticks left. Part 0 is stage one,
// part 1 the section, part 2 stage two: numbers, as the definitions off and enter and the theorems of Row.antt count the parts.
#[derive(Clone, Copy, Debug, PartialEq, Eq)]
pub enum Place {
    Idle,
    Waiting { until: u32, part: u32 },
    Running { part: u32, left: u32 },
}

// A task's place, the tick of its last arrival and the lengths that it brought; one more than the tick in which the running
// part first ran, 0 until then; how many jobs of the task have ended, and how many units it has run. The begun mark is a number and no
// Option, as the definition mark has it; and GoodJob is no ghost field, since the definitions make jobs of any numbers.
#[derive(Clone, Copy, Debug, PartialEq, Eq)]
pub struct Job {
    pub place: Place,
    pub arrived: u32,
    pub lens: [u32; 3],
    pub begun: u32,
    pub ended: u32,
    pub ran: u32,
}

// A job once the releases of a tick are in, and whether one of them came too early: no Result, since release_job promises the job in
// both cases.
#[derive(Clone, Copy, Debug, PartialEq, Eq)]
pub struct Released {
    pub job: Job,
    pub late: bool,
}

// A row's chain: the bounds of all rows, and the row. The public functions keep the two side by side and their clause: a caller has
// them so, and the theorems of machine, stretch and run state the bounds as a list.
#[derive(Clone, Copy)]
struct Chain<'a> {
    bounds: &'a [u32; 192],
    i: usize,
    ghost placed: { i < 64 },
    ghost good: { GoodBounds bounds.now },
}

// The tick that releases a part of the job of row i that arrived at this tick.
fn release_of(row: Chain, arrived: u32, part: usize) -> u32
    requires { (part < 3) × (arrived ≤ 1000000) }
    ensures { (result ≡ release row.entry.bounds.now row.entry.i arrived part) × (result ≤ 4000000) }
{
    let bounds = row.bounds;
    let at = 3 * row.i;
    arrived + bounds[at..at + part].iter().sum::<u32>()
}

// Where a job is once the releases of tick t are in, from this part on.
fn enter(row: Chain, arrived: u32, lens: [u32; 3], t: u32, from: usize) -> Place
    requires { (from < 3) × (arrived ≤ 1000000) }
    ensures { result ≡ enter_lem row.entry.bounds.now row.entry.i arrived lens t (3 - from) from }
{
    for part in from..3 {
        let due = release_of(row, arrived, part);
        if t < due {
            return Place::Waiting {
                until: due,
                part: part as u32,
            };
        }
        let len = lens[part];
        if len > 0 {
            return Place::Running {
                part: part as u32,
                left: len,
            };
        }
    }
    Place::Idle
}

// A job that has gone to this place.
fn moved(x: Job, p: Place) -> Job
    requires { x.ended < 4294967295 }
    ensures { result ≡ moved_lem x p }
{
    let ended = x.ended + u32::from(matches!(p, Place::Idle));
    Job {
        place: p,
        begun: 0,
        ended,
        ..x
    }
}

// A due release of a job that is already there.
fn wake(row: Chain, t: u32, x: Job) -> Job
    requires { GoodJob x × (x.ended < 4294967295) }
    ensures { result ≡ wake_lem row.entry.bounds.now row.entry.i t x }
{
    match x.place {
        Place::Idle | Place::Running { .. } => x,
        Place::Waiting { until, part } => {
            if t < until {
                return x;
            }
            let q = enter(row, x.arrived, x.lens, t, part as usize);
            moved(x, q)
        }
    }
}

// The job once an arrival that brings these lengths is in, with the releases that it makes due at once; without one it stays.
fn admit(row: Chain, t: u32, x: Job, came: Option<[u32; 3]>) -> Job
    requires { (t ≤ 1000000) × (x.ended < 4294967295) }
    ensures { result ≡ admit_lem row.entry.bounds.now row.entry.i t x came }
{
    let Some(lens) = came else {
        return x;
    };
    let place = enter(row, t, lens, t, 0);
    let fresh = Job {
        place,
        arrived: t,
        lens,
        ..x
    };
    moved(fresh, place)
}

// Whether a job's next part is due while it runs one.
fn overdue(row: Chain, t: u32, x: Job) -> bool
    requires { GoodJob x }
    ensures { result ≡ overdue_lem row.entry.bounds.now row.entry.i t x }
{
    match x.place {
        Place::Idle | Place::Waiting { .. } => false,
        Place::Running { part, .. } => {
            part < 2 && release_of(row, x.arrived, part as usize + 1) <= t
        }
    }
}

// Whether an arrival finds its task not idle.
fn too_soon(x: Job, came: Option<[u32; 3]>) -> bool
    ensures { result ≡ (is_some came && not (is_idle_lem x.place)) }
{
    came.is_some() && !matches!(x.place, Place::Idle)
}

// The job of row i once the releases of tick t are in: those of the job that is there, the arrival if one came, and those that
// it makes due at once.
pub fn release_job(
    bounds: &[u32; 192],
    i: usize,
    t: u32,
    x: Job,
    came: Option<[u32; 3]>,
) -> Released
    requires { (i < 64) × GoodBounds bounds.now × (t ≤ 1000000) × GoodJob x × (x.ended < 4294967294) }
    ensures { (result.job ≡ released bounds.now i t x came) × (result.late ≡ late bounds.now i t x came) }
{
    let row = Chain { bounds, i };
    let woken = wake(row, t, x);
    let early = too_soon(woken, came);
    let job = admit(row, t, woken, came);
    let behind = overdue(row, t, job);
    Released {
        job,
        late: early | behind,
    }
}

// The next tick with a release of row i's job; 4,294,967,295, later than every tick, if there is none.
pub fn due_of(bounds: &[u32; 192], i: usize, x: Job) -> u32
    requires { (i < 64) × GoodBounds bounds.now × GoodJob x }
    ensures { result ≡ due_of_lem bounds.now i x }
{
    // not an Option: the theorem released_before compares the answer as a tick, and `never` is later than all
    match x.place {
        Place::Idle => 4294967295,
        Place::Waiting { until, .. } => until,
        Place::Running { part, .. } if part < 2 => {
            release_of(Chain { bounds, i }, x.arrived, part as usize + 1)
        }
        Place::Running { .. } => 4294967295,
    }
}

// How long a part has taken that ends with the unit of tick t.
pub fn response(bounds: &[u32; 192], i: usize, t: u32, arrived: u32, part: u32) -> u32
    requires { (i < 64) × GoodBounds bounds.now × (t ≤ 1000000) × (arrived ≤ 1000000) × (part < 3) }
    ensures { result ≡ response_lem bounds.now i t arrived part }
{
    let since = release_of(Chain { bounds, i }, arrived, part as usize);
    (t + 1).saturating_sub(since)
}

// Where a job goes when this part of it has ended.
fn after(row: Chain, arrived: u32, part: u32) -> Place
    requires { (arrived ≤ 1000000) × (part < 3) }
    ensures { result ≡ next_lem row.entry.bounds.now row.entry.i arrived part }
{
    if part >= 2 {
        return Place::Idle;
    }
    let until = release_of(row, arrived, part as usize + 1);
    Place::Waiting {
        until,
        part: part + 1,
    }
}

// The begun mark of a part that has run in tick t: it stays, if it ran before.
fn mark(t: u32, begun: u32) -> u32
    requires { t ≤ 1000000 }
    ensures { result ≡ mark_lem t begun }
{
    if begun == 0 {
        return t + 1;
    }
    begun
}

// A job in another place, and one unit more run, in tick t.
fn running(t: u32, x: Job, p: Place) -> Job
    requires { (t ≤ 1000000) × (x.ran < 4294967295) }
    ensures { result ≡ running_lem t x p }
{
    let begun = mark(t, x.begun);
    Job {
        place: p,
        begun,
        ran: x.ran + 1,
        ..x
    }
}

// The job of row i when its running part has run a unit in tick t.
pub fn unit(bounds: &[u32; 192], i: usize, t: u32, x: Job, part: u32, left: u32) -> Job
    requires { (i < 64) × GoodBounds bounds.now × (t ≤ 1000000) × (x.arrived ≤ 1000000) × (part < 3) × (x.ended < 4294967295) × (x.ran < 4294967295) }
    ensures { result ≡ unit_of bounds.now i t x part left }
{
    if left > 1 {
        let p = Place::Running {
            part,
            left: left - 1,
        };
        return running(t, x, p);
    }
    let p = after(Chain { bounds, i }, x.arrived, part);
    let ran = running(t, x, p);
    moved(ran, p)
}

// A job whose running part has run k units from tick t on, and has not ended.
pub fn push(x: Job, t: u32, k: u32) -> Job
    requires { (t ≤ 1000000) × (x.ran + k < 4294967296) × Lasts k x.place }
    ensures { result ≡ push_lem t k x }
{
    if k == 0 {
        return x;
    }
    let Place::Running { part, left } = x.place else {
        return x;
    };
    let place = Place::Running {
        part,
        left: left - k,
    };
    let begun = mark(t, x.begun);
    Job {
        place,
        begun,
        ran: x.ran + k,
        ..x
    }
}

// The sum of the lengths from this part on.
fn lens_from(lens: [u32; 3], from: usize) -> u64
    requires { from ≤ 3 }
    ensures { (result ≡ lens_from_lem from lens) × (result ≤ (3 - from) * 4294967295) }
{
    lens[from..].iter().map(|l| u64::from(*l)).sum()
}

// What a job still owes: what is left of its running part, and its parts not yet released.
pub fn owed(x: Job) -> u64
    requires { GoodJob x }
    ensures { (result ≡ owes x.lens x.place) × (result ≤ 12884901885) }
{
    match x.place {
        Place::Idle => 0,
        Place::Waiting { part, .. } => lens_from(x.lens, part as usize),
        Place::Running { part, left } => u64::from(left) + lens_from(x.lens, part as usize + 1),
    }
}
