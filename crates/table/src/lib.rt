// A task table, read from any bytes: the table with its ranks and ceilings, or the one refusal 1 to 9.
#![tactic(auto)]

ghost use Rattle.std.specs.Prelude.{◌≡◌, Bool, ℕ, ◌+◌, ◌*◌, ◌<◌, ◌≤◌, length};
ghost use Rattle.table.specs.Row.{outside as outside_lem, judged, row_of};
ghost use Rattle.table.specs.Table.{number_of, names_of, header_of, row_bytes, blank_of, rows_reading, refusal_of as refusal_of_lem, reading_of};

// A row's fields: period, length of stage one, of the section and of stage two, and the resource (0 is none, as in the
// table's bytes).
#[derive(Clone, Copy)]
struct Task {
    period: u32,
    c1: u32,
    a: u32,
    c2: u32,
    resource: u32,
}

// Why a row is refused: the paper's 6 to 9.
#[derive(Clone, Copy, Debug, PartialEq, Eq)]
pub enum RowFault {
    BadPeriod = 6,
    BadResource = 7,
    Disagree = 8,
    BadSum = 9,
}

// Why a table is refused: the paper's 1 to 5 for its header, and for its first bad row, counted from 1, the row's fault.
#[derive(Clone, Copy, Debug, PartialEq, Eq)]
pub enum Refusal {
    TooShort,
    BadRows,
    BadProcessors,
    SpareBits,
    BadLength,
    BadRow(RowFault, u32),
}

impl Refusal {
    // The paper's number.
    #[tactic(auto, unfolding(crate::specs::Table::number_of, crate::specs::Row::fault_number))]
    pub fn number(self) -> u32
        ensures { result ≡ number_of self }
    {
        match self {
            Refusal::TooShort => 1,
            Refusal::BadRows => 2,
            Refusal::BadProcessors => 3,
            Refusal::SpareBits => 4,
            Refusal::BadLength => 5,
            Refusal::BadRow(fault, _) => fault as u32,
        }
    }

    // The row that it names, or 0.
    #[tactic(auto, unfolding(crate::specs::Table::names_of))]
    pub fn names(self) -> u32
        ensures { result ≡ names_of self }
    {
        match self {
            Refusal::BadRow(_, row) => row,
            _ => 0,
        }
    }
}

// What a good header says.
#[derive(Clone, Copy)]
struct Header {
    n: usize,
    m: usize,
    npp: bool,
}

// The columns of a table, a place for each row; the rank of each row, from 0; the ceiling of each resource, at its number.
// Columns and no array of rows: what comes above is lent single columns, and the definitions ranks_of and in_rank speak of them. That a
// table is good is no ghost field, since the definitions make tables of any numbers.
#[derive(Clone, Copy)]
pub struct Table {
    pub n: usize,
    pub m: usize,
    pub npp: bool,
    pub period: [u32; 64],
    pub c1: [u32; 64],
    pub a: [u32; 64],
    pub c2: [u32; 64],
    pub resource: [u32; 64],
    pub rank: [u32; 64],
    pub ceiling: [u32; 17],
}

// Whether x is not one of lo to hi.
#[tactic(auto, unfolding(crate::specs::Row::outside))]
fn outside(x: u32, lo: u32, hi: u32) -> bool
    ensures { result ≡ outside_lem x lo hi }
{
    !(lo..=hi).contains(&x)
}

// The first of 6 to 9 that the fields of a row break, or the row.
fn judge(t: Task, spare: u32) -> Result<Task, RowFault>
    requires { (t.c1 < 1048576) × (t.a < 1048576) × (t.c2 < 1048576) }
    ensures { result ≡ judged t spare }
{
    if outside(t.period, 1, 1000000) {
        return Err(RowFault::BadPeriod);
    }
    if t.resource > 16 || spare > 0 {
        return Err(RowFault::BadResource);
    }
    if (t.a > 0) != (t.resource > 0) {
        return Err(RowFault::Disagree);
    }
    if outside(t.c1 + t.a + t.c2, 1, t.period) {
        return Err(RowFault::BadSum);
    }
    Ok(t)
}

// The row in its eleven bytes, each loaded once: two words of two fields of 20 bits, and the last byte.
fn read_row(part: &[u8]) -> Result<Task, RowFault>
    requires { length part.now ≡ 11 }
    ensures { result ≡ row_of part.now }
{
    let ahead = bits::word(part, 0, 5);
    let behind = bits::word(part, 5, 5);
    let last = bits::word(part, 10, 1);
    let t = Task {
        period: (ahead / 1048576) as u32,
        c1: (ahead % 1048576) as u32,
        a: (behind / 1048576) as u32,
        c2: (behind % 1048576) as u32,
        resource: (last / 8) as u32,
    };
    judge(t, (last % 8) as u32)
}

// Row k of a table, counted from 0: the row's part of the table goes to the row reader.
fn row_at(bytes: &[u8], k: usize) -> Result<Task, RowFault>
    requires { 2 + 11 * (k + 1) ≤ length bytes.now }
    ensures { result ≡ row_of (row_bytes bytes.now k) }
{
    let at = 2 + 11 * k;
    let end = at + 11;
    read_row(&bytes[at..end])
}

// What the header says, or the first of 1 to 5 that it breaks.
#[tactic(auto, unfolding(crate::specs::Table::header_number, crate::specs::Table::header_refusal))]
fn read_header(bytes: &[u8]) -> Result<Header, Refusal>
    ensures { result ≡ header_of bytes.now }
{
    if bytes.len() < 2 {
        return Err(Refusal::TooShort);
    }
    let n = bits::field(bytes, 0, 7);
    if outside(n, 1, 64) {
        return Err(Refusal::BadRows);
    }
    let m = bits::field(bytes, 7, 5);
    if outside(m, 2, 16) {
        return Err(Refusal::BadProcessors);
    }
    if bits::field(bytes, 13, 3) > 0 {
        return Err(Refusal::SpareBits);
    }
    if bytes.len() != 2 + 11 * n as usize {
        return Err(Refusal::BadLength);
    }
    let npp = bits::field(bytes, 12, 1) == 1;
    Ok(Header {
        n: n as usize,
        m: m as usize,
        npp,
    })
}

// A table of a header without rows: zeros.
fn blank(h: Header) -> Table
    ensures { result ≡ blank_of h }
{
    let zeros = lists::blank::<64>(0);
    Table {
        n: h.n,
        m: h.m,
        npp: h.npp,
        period: zeros,
        c1: zeros,
        a: zeros,
        c2: zeros,
        resource: zeros,
        rank: zeros,
        ceiling: lists::blank::<17>(0),
    }
}

// The rows behind a good header, column by column, with their ranks and the ceilings of their resources, or the first bad one's refusal.
fn read_rows(bytes: &[u8], h: Header) -> Result<Table, Refusal>
    requires { (h.n ≤ 64) × (length bytes.now ≡ 2 + 11 * h.n) }
    ensures { result ≡ rows_reading bytes.now h.n h.m h.npp }
{
    let mut t = blank(h);
    for i in 0..h.n {
        let row = row_at(bytes, i).map_err(|fault| Refusal::BadRow(fault, i as u32 + 1))?;
        t.period[i] = row.period;
        t.c1[i] = row.c1;
        t.a[i] = row.a;
        t.c2[i] = row.c2;
        t.resource[i] = row.resource;
    }
    let rank = rank::ranks(&t.period, h.n);
    let ceiling = rank::ceilings(&t.resource, &rank, h.n);
    Ok(Table { rank, ceiling, ..t })
}

// What any bytes say: the table, or the one refusal.
pub fn read_table(bytes: &[u8]) -> Result<Table, Refusal>
    ensures { result ≡ reading_of bytes.now }
{
    let h = read_header(bytes)?;
    read_rows(bytes, h)
}

// The refusal of the first bad row behind a good header: a loop beside that of read_rows, which keeps the rows.
fn rows_refusal(bytes: &[u8], n: usize) -> Option<Refusal>
    requires { (n ≤ 64) × (length bytes.now ≡ 2 + 11 * n) }
    ensures { (m : ℕ) → (npp : Bool) → result ≡ refusal_of_lem (rows_reading bytes.now n m npp) }
{
    for i in 0..n {
        if let Err(fault) = row_at(bytes, i) {
            return Some(Refusal::BadRow(fault, i as u32 + 1));
        }
    }
    None
}

// The refusal of any bytes, for a caller who does not want the table. No twin of read_table: it keeps no column and ranks no row.
pub fn refusal_of(bytes: &[u8]) -> Option<Refusal>
    ensures { result ≡ refusal_of_lem (reading_of bytes.now) }
{
    match read_header(bytes) {
        Ok(h) => rows_refusal(bytes, h.n),
        Err(no) => Some(no),
    }
}
