// The plan of a table: trial after trial, the first that succeeds.
#![tactic(auto)]

ghost use Rattle.std.specs.Prelude.{◌≡◌, ℕ, ◌+◌, ◌<◌, ◌≤◌, get_or};
ghost use Rattle.table.specs.Good.{GoodTable};
ghost use Rattle.plan.specs.Tasks.{works_of, of_resource as of_resource_lem, tasks_of as tasks_of_lem};
ghost use Rattle.sections.specs.Section.{sections_of};
ghost use Rattle.stages.specs.Stage.{stages_of};
ghost use Rattle.plan.specs.Trial.{mark_number, plan_by as plan_by_lem, serves, trial_of};
ghost use Rattle.plan.specs.Planning.{planning_of, planned_of};
ghost use Rattle.plan.specs.Good.{GoodTasks};

use sections::NoSection;
use stages::{Nowhere, Stages};
use table::Table;

// The tasks of a table in rank order, a place for each, and what every trial needs: C1 + C2, the ceiling of the task's
// resource, its row; the rank of each row; the weight of each resource at its number, the resources heaviest first, and how
// many are used. The columns stay columns: rank, spread, sections and stages are lent them as arrays of numbers.
// GoodTasks is no ghost field: the definition tasks_of makes tasks of every table, good or not.
#[derive(Drop)]
struct Tasks {
    n: usize,
    m: usize,
    npp: bool,
    period: [u32; 64],
    c1: [u32; 64],
    a: [u32; 64],
    c2: [u32; 64],
    work: [u32; 64],
    resource: [u32; 64],
    top: [u32; 64],
    row: [u32; 64],
    rank: [u32; 64],
    weight: [u32; 17],
    heaviest: [u32; 64],
    used: usize,
}

// A plan: how many synchronization processors there are, the processor of each resource at its number, and for each row its
// application processor and its three bounds. The columns stay columns: the theorems plan_bounds and plan_served speak of them.
#[derive(Drop)]
pub struct Plan {
    pub s: usize,
    pub serves: [u32; 17],
    pub processor: [u32; 64],
    pub d1: [u32; 64],
    pub section: [u32; 64],
    pub d2: [u32; 64],
}

// What a task lacks: the bound of its section, or a processor for its stages.
#[derive(Clone, Copy, Debug, PartialEq, Eq)]
pub enum Mark {
    Section = 1,
    Stage = 2,
}

// Why a trial ends without a plan: the row of the task, the mark, and the value that broke the limit.
#[derive(Clone, Copy)]
pub struct NoPlan {
    pub row: u32,
    pub mark: Mark,
    pub value: u32,
}

impl Mark {
    // The paper's number of a mark.
    pub fn number(self) -> u32
        ensures { result ≡ mark_number self }
    {
        self as u32
    }
}

// C1 + C2 of each of n tasks.
fn works(c1: &[u32; 64], c2: &[u32; 64], n: usize) -> [u32; 64]
    requires { (n ≤ 64) × ((k : ℕ) → k < n → get_or c1.now k 0 + get_or c2.now k 0 ≤ 1000000) }
    ensures { result ≡ works_of c1.now c2.now n }
{
    let mut out = lists::blank(0);
    for k in 0..n {
        out[k] = c1[k] + c2[k];
    }
    out
}

// What each of n tasks' resource has, from the values of the resources at their numbers.
pub fn of_resource(value: &[u32; 17], resource: &[u32; 64], n: usize) -> [u32; 64]
    requires { (n ≤ 64) × ((k : ℕ) → k < n → get_or resource.now k 0 ≤ 16) }
    ensures { result ≡ of_resource_lem value.now resource.now n }
{
    let mut out = lists::blank(0);
    for k in 0..n {
        out[k] = value[resource[k] as usize];
    }
    out
}

// The tasks of a table in rank order, and what every trial needs.
fn tasks_of(t: &Table) -> Tasks
    requires { GoodTable t.now }
    ensures { result ≡ tasks_of_lem t.now }
{
    let n = t.n;
    let number = rank::numbers_to(n);
    let c1 = rank::in_rank(&t.rank, n, &t.c1);
    let c2 = rank::in_rank(&t.rank, n, &t.c2);
    let resource = rank::in_rank(&t.rank, n, &t.resource);
    let weight = spread::weights(&t.period, &t.a, &t.resource, n);
    Tasks {
        n,
        m: t.m,
        npp: t.npp,
        period: rank::in_rank(&t.rank, n, &t.period),
        c1,
        a: rank::in_rank(&t.rank, n, &t.a),
        c2,
        work: works(&c1, &c2, n),
        resource,
        top: of_resource(&t.ceiling, &resource, n),
        row: rank::in_rank(&t.rank, n, &number),
        rank: t.rank,
        weight,
        heaviest: spread::heaviest(&weight),
        used: spread::used(&weight),
    }
}

impl Tasks {
    // The processor of each resource in the trial with s synchronization processors.
    fn serve(&self, s: usize) -> [u32; 17]
        requires { GoodTasks self.now × (s < self.now.m) }
        ensures { result ≡ serves self.now s }
    {
        spread::serve(&self.weight, &self.heaviest, s, self.used)
    }

    // The bounds of the sections, where the resources have these processors, or the first task without one.
    fn find_sections(&self, processor: &[u32; 17]) -> Result<[u32; 64], NoSection>
        requires { GoodTasks self.now × ((r : ℕ) → get_or processor.now r 0 ≤ 16) }
        ensures { result ≡ sections_of self.now.npp self.now.period self.now.a self.now.top (of_resource_lem processor.now self.now.resource self.now.n) self.now.n }
    {
        let home = of_resource(processor, &self.resource, self.n);
        sections::section_bounds(self.npp, &self.period, &self.a, &self.top, &home, self.n)
    }

    // The processors and the bounds of the stages, where the sections have these bounds, or the first task that fits none.
    fn find_places(&self, section: &[u32; 64], s: usize) -> Result<Stages, Nowhere>
        requires { GoodTasks self.now × (s < self.now.m) × ((k : ℕ) → k < self.now.n → get_or section.now k 0 ≤ get_or self.now.period k 0) }
        ensures { result ≡ stages_of self.now.period self.now.c1 self.now.c2 self.now.work section.now s self.now.m self.now.n }
    {
        stages::place_tasks(
            &self.period,
            &self.c1,
            &self.c2,
            &self.work,
            section,
            self.n,
            s,
            self.m,
        )
    }

    // The plan of a trial that succeeds, row by row.
    fn plan_by(&self, s: usize, serves: [u32; 17], section: &[u32; 64], placed: &Stages) -> Plan
        requires { GoodTasks self.now }
        ensures { result ≡ plan_by_lem self.now s serves section.now placed.now }
    {
        Plan {
            s,
            serves,
            processor: rank::in_rows(&self.rank, self.n, &placed.processor),
            d1: rank::in_rows(&self.rank, self.n, &placed.d1),
            section: rank::in_rows(&self.rank, self.n, section),
            d2: rank::in_rows(&self.rank, self.n, &placed.d2),
        }
    }

    // What a trial hands back that ends at this task, by its rank.
    fn lacks(&self, task: usize, mark: Mark, value: u32) -> NoPlan
        requires { task < 64 }
        ensures { result ≡ record { row = get_or self.now.row task 0; mark = mark; value = value } }
    {
        NoPlan {
            row: self.row[task],
            mark,
            value,
        }
    }

    // The trial with s synchronization processors.
    fn trial(&self, s: usize) -> Result<Plan, NoPlan>
        requires { GoodTasks self.now × (s < self.now.m) × (0 < self.now.used → 1 ≤ s) }
        ensures { result ≡ trial_of self.now s }
    {
        let serves = self.serve(s);
        let section = self
            .find_sections(&serves)
            .map_err(|e| self.lacks(e.task, Mark::Section, e.value))?;
        let placed = self
            .find_places(&section, s)
            .map_err(|e| self.lacks(e.task, Mark::Stage, e.value))?;
        Ok(self.plan_by(s, serves, &section, &placed))
    }

    // Trial after trial: the first that succeeds, or what the last one lacks. As the paper wants it, a trial's answer is taken apart by
    // let .. else, and what it lacks goes on to the next.
    fn plan(&self) -> Result<Plan, NoPlan>
        requires { GoodTasks self.now }
        ensures { result ≡ planning_of self.now }
    {
        let first = self.used.min(1);
        let last = (self.m - 1).min(self.used);
        let mut lacks = NoPlan {
            row: 0,
            mark: Mark::Section,
            value: 0,
        };
        for s in first..=last {
            let tried = self.trial(s);
            let Err(e) = tried else {
                return tried;
            };
            lacks = e;
        }
        Err(lacks)
    }
}

// The plan of a table, or what the last trial lacks.
pub fn plan_table(t: &Table) -> Result<Plan, NoPlan>
    requires { GoodTable t.now }
    ensures { result ≡ planned_of t.now }
{
    tasks_of(t).plan()
}
