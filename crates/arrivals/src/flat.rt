// The arrivals of a run, lent as numbers: in a file of its own, since specs/Arrival names the struct, and a struct with a ghost field
// is read behind all that the clauses of its file name.
#![tactic(auto)]

ghost use Rattle.std.specs.Prelude.{◌≤◌};

// The numbers of a list of at most 4,096 arrivals, five for each.
// Numbers, not records: the records are taken apart once, and all else reads numbers (docs/DECISIONS.md, "Arrivals").
#[derive(Clone, Copy)]
pub struct Flat<'a> {
    pub numbers: &'a [u32; 20480],
    pub count: usize,
    pub ghost few: { count ≤ 4096 },
}
