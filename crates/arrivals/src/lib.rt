// Arrivals: their records, refusals 15 to 18, and which of them comes next.
#![tactic(auto)]

ghost use Rattle.std.specs.Prelude.{◌≡◌, ◌&&◌, ℕ, suc, ◌*◌, ◌<◌, ◌≤◌, min, cond, length, get_or, ltb, leb, is_some, IfSome, Some, None};
ghost use Rattle.std.proofs.lemmas.List.Edits.{sets};
ghost use Rattle.arrivals.specs.Arrival.{arrival_at, lens_of, is_of, five, listed, flat_in, flat_of};
ghost use Rattle.arrivals.specs.Check.{disordered as disordered_lem, last_of, fault_number, number_by, number_at, heard_of};

mod flat;

pub use flat::Flat;
use table::Table;

// An arrival: its tick, its row, counted from 1, and the actual lengths of the three stages.
#[repr(C)]
#[derive(Clone, Copy)]
pub struct Arrival {
    pub tick: u32,
    pub row: u32,
    pub len1: u32,
    pub len2: u32,
    pub len3: u32,
}

// Why an arrival is refused: the paper's 15 to 18.
#[derive(Clone, Copy, Debug, PartialEq, Eq)]
pub enum Fault {
    NoRow = 15,
    Disordered = 16,
    TooLong = 17,
    TooSoon = 18,
}

impl Fault {
    // The paper's number.
    #[tactic(auto, unfolding(crate::specs::Check::fault_number))]
    pub fn number(self) -> u32
        ensures { result ≡ fault_number self }
    {
        self as u32
    }
}

// The refusal of a list of arrivals: the first bad one's fault, and its position, counted from 1.
#[derive(Clone, Copy, Debug, PartialEq, Eq)]
pub struct Unheard {
    pub fault: Fault,
    pub position: u32,
}

// Writes an arrival's numbers at its place among those of 4,096, one by one, as jobs::put_job does.
fn put(a: Arrival, k: usize, flat: &mut [u32; 20480])
    requires { k < 4096 }
    ensures { flat.new ≡ sets flat.old (5 * k) (five a) }
{
    let at = 5 * k;
    flat[at] = a.tick;
    flat[at + 1] = a.row;
    flat[at + 2] = a.len1;
    flat[at + 3] = a.len2;
    flat[at + 4] = a.len3;
}

// Takes a lent run of records apart: their numbers, five for each, from the front of the array on, of at most 4,096 of them.
pub fn taken_apart(list: &[Arrival], flat: &mut [u32; 20480])
    ensures { flat.new ≡ flat_of list.now (min (length list.now) 4096) flat.old }
{
    for k in 0..list.len().min(4096) {
        put(list[k], k, flat);
    }
}

impl<'a> Flat<'a> {
    // As many of the lent numbers as those of `count` arrivals; none of more than 4,096.
    pub fn new(numbers: &'a [u32; 20480], count: usize) -> Option<Flat<'a>>
        ensures { (is_some result ≡ leb count 4096) × IfSome result (λ xs. (xs.numbers ≡ numbers.entry) × (xs.count ≡ count)) × (result ≡ flat_in numbers.entry count) }
    {
        if count > 4096 {
            return None;
        }
        Some(Flat { numbers, count })
    }

    // The arrival at place k.
    #[tactic(auto, using(crate::proofs::Numbers::arrival_at_lem), unfolding(crate::specs::Arrival::arrival_in))]
    pub fn arrival(&self, k: usize) -> Arrival
        requires { k < self.now.count }
        ensures { result ≡ arrival_at (listed self.now) k }
    {
        let at = 5 * k;
        Arrival {
            tick: self.numbers[at],
            row: self.numbers[at + 1],
            len1: self.numbers[at + 2],
            len2: self.numbers[at + 3],
            len3: self.numbers[at + 4],
        }
    }
}

// Whether the arrival at place k does not stand behind the one before it.
fn disordered(xs: &Flat, k: usize) -> bool
    requires { k < xs.now.count }
    ensures { result ≡ disordered_lem (listed xs.now) k }
{
    if k == 0 {
        return false;
    }
    let here = xs.arrival(k);
    let before = xs.arrival(k - 1);
    if before.tick < here.tick {
        return false;
    }
    if before.tick > here.tick {
        return true;
    }
    before.row >= here.row
}

// The first of 15 to 18 that the arrival at place k breaks; for each row, `last` is one more than the tick of its last arrival, and 0
// if there is none: no Option, since the definition last_of is such a mark.
fn check_at(xs: &Flat, k: usize, last: &[u32; 64], t: &Table) -> Result<(), Fault>
    requires { (k < xs.now.count) × (t.now.n ≤ 64) × ((i : ℕ) → i < t.now.n → (get_or t.now.period i 0 ≤ 1000000) × (get_or last.now i 0 ≤ 1000000) × (get_or last.now i 0 ≡ last_of (listed xs.now) (suc i) k)) }
    ensures { number_by result ≡ number_at t.now.n t.now.period t.now.c1 t.now.a t.now.c2 (listed xs.now) k }
{
    let x = xs.arrival(k);
    let row = x.row as usize;
    if row == 0 || row > t.n {
        return Err(Fault::NoRow);
    }
    if x.tick >= 1000000 || disordered(xs, k) {
        return Err(Fault::Disordered);
    }
    let i = row - 1;
    if x.len1 > t.c1[i] || x.len2 > t.a[i] || x.len3 > t.c2[i] {
        return Err(Fault::TooLong);
    }
    let mark = last[i];
    if mark > 0 && x.tick + 1 < mark + t.period[i] {
        return Err(Fault::TooSoon);
    }
    Ok(())
}

// The first bad one of the arrivals, and in it the lowest refusal.
pub fn check_arrivals(xs: &Flat, t: &Table) -> Result<(), Unheard>
    requires { (t.now.n ≤ 64) × ((i : ℕ) → i < t.now.n → get_or t.now.period i 0 ≤ 1000000) }
    ensures { result ≡ heard_of t.now.n t.now.period t.now.c1 t.now.a t.now.c2 (listed xs.now) }
{
    let mut last = lists::blank::<64>(0);
    for k in 0..xs.count {
        check_at(xs, k, &last, t).map_err(|fault| Unheard {
            fault,
            position: k as u32 + 1,
        })?;
        let x = xs.arrival(k);
        last[x.row as usize - 1] = x.tick + 1;
    }
    Ok(())
}

// What the arrival at place `next` brings, if it is the one of row i, counted from 0, at tick t.
pub fn brought(xs: &Flat, next: usize, t: u32, i: usize) -> Option<[u32; 3]>
    requires { i < 64 }
    ensures { result ≡ cond (ltb next xs.now.count && is_of (listed xs.now) i t next) (Some (lens_of (arrival_at (listed xs.now) next))) None }
{
    if next >= xs.count {
        return None;
    }
    // no arrival(next): each row of a tick with a release asks this, and only the one whose arrival it is needs the lengths
    let at = 5 * next;
    if xs.numbers[at] != t || xs.numbers[at + 1] as usize != i + 1 {
        return None;
    }
    Some([xs.numbers[at + 2], xs.numbers[at + 3], xs.numbers[at + 4]])
}
