// The jobs of 64 rows as numbers side by side, nine for each, so that they can be lent and changed in their place: no array of
// jobs, as the theorem next_row_overwritten speaks of the numbers.
#![tactic(auto)]

ghost use Rattle.std.specs.Prelude.{◌≡◌, ◌+◌, ◌*◌, ◌<◌};
ghost use Rattle.std.proofs.lemmas.List.Edits.{sets};
ghost use Rattle.chain.specs.Good.{part_of};
ghost use Rattle.jobs.specs.Numbers.{code_of, number_of, place_in as place_in_lem, numbers_of, job_in};

use chain::{Job, Place};

// The place that a code and a number stand for. This and `numbers` are no From: neither side is a type of this crate.
fn place_in(code: u32, number: u32) -> Place
    ensures { result ≡ place_in_lem code number }
{
    match code {
        0 => Place::Idle,
        1..=3 => Place::Waiting {
            until: number,
            part: code - 1,
        },
        4.. => Place::Running {
            part: code - 4,
            left: number,
        },
    }
}

// The code and the number of a place.
fn numbers(p: Place) -> (u32, u32)
    requires { part_of p < 3 }
    ensures { (result.0 ≡ code_of p) × (result.1 ≡ number_of p) }
{
    match p {
        Place::Idle => (0, 0),
        Place::Waiting { until, part } => (part + 1, until),
        Place::Running { part, left } => (part + 4, left),
    }
}

// The job of row i.
pub fn job_at(jobs: &[u32; 576], i: usize) -> Job
    requires { i < 64 }
    ensures { result ≡ job_in jobs.now i }
{
    let at = 9 * i;
    Job {
        place: place_in(jobs[at], jobs[at + 1]),
        arrived: jobs[at + 2],
        lens: [jobs[at + 3], jobs[at + 4], jobs[at + 5]],
        begun: jobs[at + 6],
        ended: jobs[at + 7],
        ran: jobs[at + 8],
    }
}

// Writes the job of row i.
pub fn put_job(jobs: &mut [u32; 576], i: usize, x: Job)
    requires { (i < 64) × (part_of x.place < 3) }
    ensures { jobs.new ≡ sets jobs.old (9 * i) (numbers_of x) }
{
    let at = 9 * i;
    let (code, number) = numbers(x.place);
    // no copy_from_slice of an array of nine: it stands on the stack first, and a run took longer
    jobs[at] = code;
    jobs[at + 1] = number;
    jobs[at + 2] = x.arrived;
    jobs[at + 3] = x.lens[0];
    jobs[at + 4] = x.lens[1];
    jobs[at + 5] = x.lens[2];
    jobs[at + 6] = x.begun;
    jobs[at + 7] = x.ended;
    jobs[at + 8] = x.ran;
}
