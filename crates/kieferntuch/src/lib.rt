// What C and Rust call, by the exports of kieferntuch_c; include/kieferntuch.h declares the functions.
#![tactic(auto)]

ghost use Rattle.std.specs.Prelude.{◌≡◌, not, ◌+◌, ◌*◌, ◌≤◌, length, Err};
ghost use Rattle.table.specs.Table.{reading_of};
ghost use Rattle.plan.specs.Good.{PlanFits};
ghost use Rattle.run.specs.Answer.{run_answer, trace_after};
ghost use Rattle.kieferntuch.specs.Answer.{answer_of, outcome_answer, answered, short, plan_answer};
ghost use Rattle.kieferntuch.specs.Sheet.{written_at, bytes_of, sheet_after};

use arrivals::Arrival;
use plan::{NoPlan, Plan};
use run::Ran;
use table::{Refusal, Table};

// The number of the refusal, 0 if there is none, what it names, its mark, and its value: no Result, since this is the C interface.
#[repr(C)]
#[derive(Clone, Copy, Default)]
pub struct Answer {
    pub number: u32,
    pub names: u32,
    pub mark: u32,
    pub value: u32,
}

// Refusal 10: a sheet without room for the plan.
const NO_ROOM: Answer = Answer {
    number: 10,
    names: 0,
    mark: 0,
    value: 0,
};

// A refusal of a table has neither a mark nor a value.
impl From<Refusal> for Answer {
    ghost from_gives = { λ e a. a ≡ answer_of (Err e) };

    fn from(e: Refusal) -> Answer {
        Answer {
            number: e.number(),
            names: e.names(),
            ..Answer::default()
        }
    }
}

// That no trial succeeds is refusal 11.
impl From<NoPlan> for Answer {
    ghost from_gives = { λ e a. a ≡ outcome_answer (Err e) };

    fn from(e: NoPlan) -> Answer {
        Answer {
            number: 11,
            names: e.row,
            mark: e.mark.number(),
            value: e.value,
        }
    }
}

// Reads a table from any bytes.
#[tactic(auto, using(crate::proofs::Planned::no_refusal, crate::proofs::Planned::read_refused, crate::proofs::Planned::read_accepted))]
pub fn kieferntuch_read(table: &[u8]) -> Answer
    ensures { result ≡ answer_of (reading_of table.now) }
{
    match table::refusal_of(table) {
        Some(e) => Answer::from(e),
        None => Answer::default(),
    }
}

// Whether a sheet of this size has room for a plan of n rows from byte at on, whatever at is.
fn has_room(size: usize, at: usize, n: usize) -> bool
    requires { n ≤ 64 }
    ensures { result ≡ not (short size at n) }
{
    size.checked_sub(at).is_some_and(|room| room >= 12 + 9 * n)
}

// Lends the sheet's part from byte at on to the plan writer.
fn write_at(sheet: &mut [u8], at: usize, t: &Table, p: &Plan)
    requires { (t.now.n ≤ 64) × (t.now.m ≤ 16) × (at + (12 + 9 * t.now.n) ≤ length sheet.old) × PlanFits t.now.n p.now }
    ensures { sheet.new ≡ written_at sheet.old at (bytes_of t.now p.now) }
{
    sheet::write_plan(&mut sheet[at..], t.n, t.m, p);
}

// Writes the plan from byte at of the sheet on, or answers why it is refused.
fn plan_at(table: &[u8], at: usize, sheet: &mut [u8]) -> Result<(), Answer>
    ensures { (answered result ≡ plan_answer (reading_of table.now) at (length sheet.old)) × (sheet.new ≡ sheet_after (reading_of table.now) at sheet.old) }
{
    let t = table::read_table(table)?;
    if !has_room(sheet.len(), at, t.n) {
        return Err(NO_ROOM);
    }
    let p = plan::plan_table(&t)?;
    write_at(sheet, at, &t, &p);
    Ok(())
}

// Plans a table from any bytes, and writes the plan from byte at of the sheet on.
pub fn kieferntuch_plan(table: &[u8], at: usize, sheet: &mut [u8]) -> Answer
    ensures { (result ≡ plan_answer (reading_of table.now) at (length sheet.old)) × (sheet.new ≡ sheet_after (reading_of table.now) at sheet.old) }
{
    plan_at(table, at, sheet).err().unwrap_or_default()
}

// Runs the planned table from any bytes: steps ticks 0 to from + ticks - 1 and writes those of the window into the trace.
pub fn kieferntuch_run(
    table: &[u8],
    arrivals: &[Arrival],
    from: usize,
    ticks: usize,
    trace: &mut [u8],
) -> Ran
    ensures { (result ≡ run_answer (reading_of table.now) arrivals.now from ticks (length trace.old)) × (trace.new ≡ trace_after (reading_of table.now) arrivals.now from ticks trace.old) }
{
    let mut numbers = lists::blank(0);
    arrivals::taken_apart(arrivals, &mut numbers);
    run::run_flat(table, &numbers, arrivals.len(), from, ticks, trace)
}
