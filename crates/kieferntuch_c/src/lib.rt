// The exports of the static library: include/kieferntuch.h declares them, and each is the function of that name in kieferntuch:
// a twin of it, as C needs one.
#![tactic(auto)]

ghost use Rattle.std.specs.Prelude.{◌≡◌, length};
ghost use Rattle.table.specs.Table.{reading_of};
ghost use Rattle.run.specs.Answer.{run_answer, trace_after};
ghost use Rattle.kieferntuch.specs.Answer.{answer_of, plan_answer};
ghost use Rattle.kieferntuch.specs.Sheet.{sheet_after};

use arrivals::Arrival;
use kieferntuch::Answer;
use run::Ran;

// Reads a table from any bytes.
#[unsafe(no_mangle)]
pub extern "C" fn kieferntuch_read(table: &[u8]) -> Answer
    ensures { result ≡ answer_of (reading_of table.now) }
{
    kieferntuch::kieferntuch_read(table)
}

// Plans a table from any bytes, and writes the plan from byte at of the sheet on.
#[unsafe(no_mangle)]
pub extern "C" fn kieferntuch_plan(table: &[u8], at: usize, sheet: &mut [u8]) -> Answer
    ensures { (result ≡ plan_answer (reading_of table.now) at (length sheet.old)) × (sheet.new ≡ sheet_after (reading_of table.now) at sheet.old) }
{
    kieferntuch::kieferntuch_plan(table, at, sheet)
}

// Runs the planned table from any bytes: steps ticks 0 to from + ticks - 1 and writes those of the window into the trace.
#[unsafe(no_mangle)]
pub extern "C" fn kieferntuch_run(
    table: &[u8],
    arrivals: &[Arrival],
    from: usize,
    ticks: usize,
    trace: &mut [u8],
) -> Ran
    ensures { (result ≡ run_answer (reading_of table.now) arrivals.now from ticks (length trace.old)) × (trace.new ≡ trace_after (reading_of table.now) arrivals.now from ticks trace.old) }
{
    kieferntuch::kieferntuch_run(table, arrivals, from, ticks, trace)
}
