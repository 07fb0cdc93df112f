// A run: refusals 11 to 19, the trace, and the answer.
#![tactic(auto)]

ghost use Rattle.std.specs.Prelude.{◌≡◌, ◌++◌, ◌+◌, ◌*◌, ◌≤◌, ◌<◌, length, drop, IfOk, IfErr};
ghost use Rattle.std.proofs.lemmas.List.Edits.{sets};
ghost use Rattle.lists.specs.Tab.{joined};
ghost use Rattle.table.specs.Table.{reading_of};
ghost use Rattle.table.specs.Good.{GoodTable};
ghost use Rattle.arrivals.specs.Arrival.{listed, arrivals_of};
ghost use Rattle.machine.specs.Good.{GoodChart, Coming};
ghost use Rattle.run.specs.declared.Refusal.{Refusal};
ghost use Rattle.run.specs.Run.{refused as refused_lem, done as done_lem, log, stepped_of, shown_of};
ghost use Rattle.run.specs.Refused.{refusal_answer, answered};
ghost use Rattle.run.specs.Answer.{bad_window as bad_window_lem, call_number, call_names, run_answer, trace_after};
ghost use Rattle.run.specs.State.{Stands, Falls};

use arrivals::{Flat, Unheard};
use machine::{Chart, State, Tally, TooEarly};
use plan::NoPlan;
use table::Table;

// The number of the refusal, 0 if there is none, what it names, its mark, and its value; the worst response of each of the three stages
// of each row; jobs ended, units run and units owed. No Result, since this is the C interface.
#[repr(C)]
#[derive(Drop)]
pub struct Ran {
    pub number: u32,
    pub names: u32,
    pub mark: u32,
    pub value: u32,
    pub worst: [u32; 192],
    pub jobs: u64,
    pub run: u64,
    pub owed: u64,
}

// Why a run is refused: the paper's 1 to 9, 11, 12, 13, 14, 15 to 18, and 19 with the row, counted from 1.
#[derive(Clone, Copy)]
enum Refusal {
    Table(table::Refusal),
    NoPlan(NoPlan),
    Window,
    Trace,
    Arrivals,
    Unheard(Unheard),
    TooEarly(u32),
}

impl From<table::Refusal> for Refusal {
    ghost from_gives = { λ e r. r ≡ Refusal.Table e };

    fn from(e: table::Refusal) -> Refusal {
        Refusal::Table(e)
    }
}

impl From<NoPlan> for Refusal {
    ghost from_gives = { λ e r. r ≡ Refusal.NoPlan e };

    fn from(e: NoPlan) -> Refusal {
        Refusal::NoPlan(e)
    }
}

impl From<Unheard> for Refusal {
    ghost from_gives = { λ e r. r ≡ Refusal.Unheard e };

    fn from(e: Unheard) -> Refusal {
        Refusal::Unheard(e)
    }
}

// No refusal, and nothing counted.
const NOTHING: Ran = Ran {
    number: 0,
    names: 0,
    mark: 0,
    value: 0,
    worst: [0; 192],
    jobs: 0,
    run: 0,
    owed: 0,
};

// A refusal: all else is 0.
#[tactic(auto, unfolding(lists::specs::Tab::blank))]
fn refused(number: u32, names: u32, mark: u32, value: u32) -> Ran
    ensures { result ≡ refused_lem number names mark value }
{
    Ran {
        number,
        names,
        mark,
        value,
        ..NOTHING
    }
}

// What a refused run answers: the paper's number, what it names, its mark and its value.
impl From<Refusal> for Ran {
    ghost from_gives = { λ e r. r ≡ refusal_answer e };

    #[tactic(auto, unfolding(crate::specs::Refused::refusal_answer))]
    fn from(e: Refusal) -> Ran {
        match e {
            Refusal::Table(e) => refused(e.number(), e.names(), 0, 0),
            Refusal::NoPlan(e) => refused(11, e.row, e.mark.number(), e.value),
            Refusal::Window => refused(12, 0, 0, 0),
            Refusal::Trace => refused(13, 0, 0, 0),
            Refusal::Arrivals => refused(14, 0, 0, 0),
            Refusal::Unheard(e) => refused(e.fault.number(), e.position, 0, 0),
            Refusal::TooEarly(row) => refused(19, row, 0, 0),
        }
    }
}

// What a run answers that is not refused.
fn done(worst: [u32; 192], tally: Tally) -> Ran
    ensures { result ≡ done_lem worst tally }
{
    Ran {
        worst,
        jobs: tally.jobs,
        run: tally.run,
        owed: tally.owed,
        ..NOTHING
    }
}

// Whether the window is too long or ends too late, whatever its numbers are.
fn bad_window(from: usize, ticks: usize) -> bool
    ensures { result ≡ bad_window_lem from ticks }
{
    ticks > 4096 || from > 1000000 || from + ticks > 1000000
}

// Writes the same bytes into the trace for each of some ticks, one behind the other, from place at on.
fn put_lanes(lane: &[u8], trace: &mut [u8], at: usize, ticks: usize)
    requires { at + length lane.now * ticks ≤ length trace.old }
    ensures { trace.new ≡ sets trace.old at (joined ticks (λ k. lane.now)) }
{
    let m = lane.len();
    // before the window there are up to a million ticks and no lane
    if m == 0 {
        return;
    }
    // over k: each lane is stored at its own place
    for k in 0..ticks {
        lists::store(trace, at + m * k, lane);
    }
}

// Steps the machine through `ticks` ticks, from tick `from` on, and writes the bytes of the first `shown` processors at the front of
// the trace, tick by tick: of all of them, or of none.
fn play(
    c: &Chart,
    xs: &Flat,
    from: usize,
    ticks: usize,
    s: &mut State,
    shown: usize,
    trace: &mut [u8],
) -> Result<(), TooEarly>
    requires { (from + ticks ≤ 1000000) × GoodChart c.now × (shown ≤ 16) × (shown * ticks ≤ length trace.old) × Stands c.now (listed xs.now) from s.old.jobs s.old.due s.old.worst s.old.next }
    ensures ok { IfOk result (λ u. Stands c.now (listed xs.now) (from + ticks) s.new.jobs s.new.due s.new.worst s.new.next × (shown ≡ c.now.m → trace.new ≡ log c.now (listed xs.now) from ticks ++ drop (c.now.m * ticks) trace.old)) }
    ensures err { IfErr result (λ e. Falls c.now (listed xs.now) (from + ticks) e.row) }
    ensures rest { shown ≡ c.now.m → drop (c.now.m * ticks) trace.new ≡ drop (c.now.m * ticks) trace.old }
{
    // no lane from outside: only of one of its own does the compiler know that it is no part of the trace
    let mut bytes = [0u8; 16];
    let lane = &mut bytes[..shown];
    let mut k = 0;
    // a while: each stretch says how far it goes
    while k < ticks {
        let more = stretch::stretch(s, c, (from + k) as u32, (from + ticks) as u32, xs, lane)?;
        put_lanes(lane, trace, lane.len() * k, more as usize);
        k += more as usize;
    }
    Ok(())
}

// Steps the ticks before a window without a trace, and those of the window with it.
fn wind_and_play(
    c: &Chart,
    xs: &Flat,
    from: usize,
    ticks: usize,
    s: &mut State,
    trace: &mut [u8],
) -> Result<(), TooEarly>
    requires { (from + ticks ≤ 1000000) × GoodChart c.now × (c.now.m * ticks ≤ length trace.old) × Stands c.now (listed xs.now) 0 s.old.jobs s.old.due s.old.worst s.old.next }
    ensures ok { IfOk result (λ u. Stands c.now (listed xs.now) (from + ticks) s.new.jobs s.new.due s.new.worst s.new.next × (trace.new ≡ log c.now (listed xs.now) from ticks ++ drop (c.now.m * ticks) trace.old)) }
    ensures err { IfErr result (λ e. Falls c.now (listed xs.now) (from + ticks) e.row) }
    ensures rest { drop (c.now.m * ticks) trace.new ≡ drop (c.now.m * ticks) trace.old }
{
    play(c, xs, 0, from, s, 0, &mut trace[..0])?;
    play(c, xs, from, ticks, s, c.m, trace)
}

// Steps the ticks of a run and writes those of its window.
fn run_ticks(
    c: &Chart,
    xs: &Flat,
    from: usize,
    ticks: usize,
    trace: &mut [u8],
) -> Result<Ran, Refusal>
    requires { (from + ticks ≤ 1000000) × (ticks ≤ 4096) × GoodChart c.now × (c.now.m * ticks ≤ length trace.old) × Coming c.now.n (listed xs.now) 0 0 }
    ensures { (answered result ≡ stepped_of c.now (listed xs.now) from ticks) × (trace.new ≡ shown_of c.now (listed xs.now) from ticks trace.old) }
{
    let mut s = State::start();
    // no ? for 19: the trace is wiped first, and that one more than the row fits is known here alone
    if let Err(e) = wind_and_play(c, xs, from, ticks, &mut s, trace) {
        trace[..c.m * ticks].fill(0);
        return Err(Refusal::TooEarly(e.row as u32 + 1));
    }
    Ok(done(s.worst, machine::count_up(&s.jobs, c.n)))
}

// The arrivals of a call that is not refused by 12 to 18.
fn check_call<'a>(
    t: &Table,
    numbers: &'a [u32; 20480],
    count: usize,
    from: usize,
    ticks: usize,
    size: usize,
) -> Result<Flat<'a>, Refusal>
    requires { GoodTable t.now }
    ensures ok { IfOk result (λ xs. (listed xs ≡ arrivals_of numbers.now count) × (call_number t.now (arrivals_of numbers.now count) from ticks size ≡ 0)) }
    ensures err { IfErr result (λ e. (refusal_answer e ≡ refused_lem (call_number t.now (arrivals_of numbers.now count) from ticks size) (call_names t.now (arrivals_of numbers.now count) from ticks size) 0 0) × (0 < call_number t.now (arrivals_of numbers.now count) from ticks size)) }
{
    if bad_window(from, ticks) {
        return Err(Refusal::Window);
    }
    if size < t.m * ticks {
        return Err(Refusal::Trace);
    }
    let xs = Flat::new(numbers, count).ok_or(Refusal::Arrivals)?;
    arrivals::check_arrivals(&xs, t)?;
    Ok(xs)
}

// The answer of a run that is not refused; the trace is as run_flat says, refused or not.
fn try_run(
    table: &[u8],
    numbers: &[u32; 20480],
    count: usize,
    from: usize,
    ticks: usize,
    trace: &mut [u8],
) -> Result<Ran, Refusal>
    ensures { (answered result ≡ run_answer (reading_of table.now) (arrivals_of numbers.now count) from ticks (length trace.old)) × (trace.new ≡ trace_after (reading_of table.now) (arrivals_of numbers.now count) from ticks trace.old) }
{
    let t = table::read_table(table)?;
    let p = plan::plan_table(&t)?;
    let xs = check_call(&t, numbers, count, from, ticks, trace.len())?;
    run_ticks(&machine::chart_of(&t, &p), &xs, from, ticks, trace)
}

// A run of a table from any bytes, with arrivals as numbers side by side, five for each. No struct for from and ticks: C gives them one
// by one, and play goes by two other numbers. Numbers and count come apart: a count above 4,096 is refusal 14, behind 11 to 13.
pub fn run_flat(
    table: &[u8],
    numbers: &[u32; 20480],
    count: usize,
    from: usize,
    ticks: usize,
    trace: &mut [u8],
) -> Ran
    ensures { (result ≡ run_answer (reading_of table.now) (arrivals_of numbers.now count) from ticks (length trace.old)) × (trace.new ≡ trace_after (reading_of table.now) (arrivals_of numbers.now count) from ticks trace.old) }
{
    try_run(table, numbers, count, from, ticks, trace).unwrap_or_else(Ran::from)
}
