// The text of an answer, written into a lent buffer.
// No Display: a write! says what it wrote only where it answers Ok, and write_listing cannot fail.
#![tactic(auto)]

ghost use Rattle.std.specs.Prelude.{◌≡◌, ◌+◌, ◌*◌, ◌<◌, ◌≤◌, [], ◌∷◌, length, drop};
ghost use Rattle.listing.specs.Text.{decimal, spaced, line, Wrote};
ghost use Rattle.listing.specs.Listing.{refused_line, plan_line, resource_line, resource_lines, task_line, plan_text, listing_of};
ghost use Rattle.lists.specs.Tab.{joined};
ghost use Rattle.table.specs.Table.{reading_of};

use plan::Plan;

// Writes a part's bytes from place at on, and answers the place behind them. The place is handed on from writer to writer, as the
// definition Wrote has it.
fn put_bytes(out: &mut [u8], at: usize, bytes: &[u8]) -> usize
    requires { at + length bytes.now ≤ length out.old }
    ensures { Wrote out.old at out.new result bytes.now }
{
    lists::store(out, at, bytes);
    at + bytes.len()
}

// Writes one byte, as put_bytes does.
fn put_byte(out: &mut [u8], at: usize, b: u8) -> usize
    requires { at < length out.old }
    ensures { Wrote out.old at out.new result (b ∷ []) }
{
    out[at] = b;
    at + 1
}

// The digit of x below 10.
fn digit(x: u32) -> u8
    requires { x < 10 }
    ensures { result ≡ 48 + x }
{
    b'0' + x as u8
}

// The decimal digits of x, the last one first stored, at the end of ten places.
fn spell(x: u32, places: &mut [u8; 10]) -> &[u8]
    ensures { (result.now ≡ decimal x) × (length result.now ≤ 10) }
{
    let mut from = 10;
    let mut rest = x;
    // a while: how many digits there are is known at its end
    while rest > 9 {
        from -= 1;
        places[from] = digit(rest % 10);
        rest /= 10;
    }
    from -= 1;
    places[from] = digit(rest);
    &places[from..]
}

// Writes a number in decimal, as put_bytes does.
fn put_number(out: &mut [u8], at: usize, x: u32) -> usize
    requires { at + 10 ≤ length out.old }
    ensures { Wrote out.old at out.new result (decimal x) × (result ≤ at + 10) }
{
    let mut places = [0u8; 10];
    put_bytes(out, at, spell(x, &mut places))
}

// Writes numbers, a space before each.
fn put_numbers(out: &mut [u8], at: usize, numbers: &[u32]) -> usize
    requires { at + 11 * length numbers.now ≤ length out.old }
    ensures { Wrote out.old at out.new result (spaced numbers.now) × (result ≤ at + 11 * length numbers.now) }
{
    let mut end = at;
    for x in numbers {
        end = put_byte(out, end, b' ');
        end = put_number(out, end, *x);
    }
    end
}

// Writes a line: the word that it begins with, and its numbers.
fn put_line(out: &mut [u8], at: usize, word: &[u8], numbers: &[u32]) -> usize
    requires { at + length word.now + 11 * length numbers.now + 1 ≤ length out.old }
    ensures { Wrote out.old at out.new result (line word.now numbers.now) × (result ≤ at + length word.now + 11 * length numbers.now + 1) }
{
    let behind = put_bytes(out, at, word);
    let end = put_numbers(out, behind, numbers);
    put_byte(out, end, b'\n')
}

// Writes the refused line at the start: four numbers, as the definition refused_line has them.
fn put_refused(out: &mut [u8], number: u32, names: u32, mark: u32, value: u32) -> usize
    requires { 52 ≤ length out.old }
    ensures { Wrote out.old 0 out.new result (refused_line number names mark value) × (result ≤ 52) }
{
    let numbers = [number, names, mark, value];
    put_line(out, 0, b"refused", &numbers)
}

// Writes the line of the plan at the start.
fn put_plan_line(out: &mut [u8], n: usize, m: usize, s: usize) -> usize
    requires { (38 ≤ length out.old) × (n ≤ 64) × (m ≤ 16) × (s ≤ 16) }
    ensures { Wrote out.old 0 out.new result (plan_line n m s) × (result ≤ 38) }
{
    let numbers = [n as u32, m as u32, s as u32];
    put_line(out, 0, b"plan", &numbers)
}

// Writes the line of resource r, if it is used.
fn put_resource(out: &mut [u8], at: usize, serves: &[u32; 17], r: usize) -> usize
    requires { (at + 31 ≤ length out.old) × (r < 17) }
    ensures { Wrote out.old at out.new result (resource_line serves.now r) × (result ≤ at + 31) }
{
    let processor = serves[r];
    if processor == 0 {
        return at;
    }
    let numbers = [r as u32, processor];
    put_line(out, at, b"resource", &numbers)
}

// Writes the lines of the used resources, by number.
fn put_resources(out: &mut [u8], at: usize, serves: &[u32; 17]) -> usize
    requires { at + 496 ≤ length out.old }
    ensures { Wrote out.old at out.new result (resource_lines serves.now 16) × (result ≤ at + 496) }
{
    let mut end = at;
    for i in 0..16 {
        end = put_resource(out, end, serves, i + 1);
    }
    end
}

// Writes the lines of n tasks, row by row.
fn put_tasks(out: &mut [u8], at: usize, n: usize, p: &Plan) -> usize
    requires { (at + 3840 ≤ length out.old) × (n ≤ 64) }
    ensures { Wrote out.old at out.new result (joined n (task_line p.now.processor p.now.d1 p.now.section p.now.d2)) × (result ≤ at + 3840) }
{
    let mut end = at;
    for k in 0..n {
        let (d1, section, d2) = (p.d1[k], p.section[k], p.d2[k]);
        let numbers = [k as u32 + 1, p.processor[k], d1, section, d2];
        end = put_line(out, end, b"task", &numbers);
    }
    end
}

// Writes the text of a plan for n rows and m processors at the start.
fn put_plan(out: &mut [u8], n: usize, m: usize, p: &Plan) -> usize
    requires { (4374 ≤ length out.old) × (n ≤ 64) × (m ≤ 16) × (p.now.s ≤ 16) }
    ensures { Wrote out.old 0 out.new result (plan_text n m p.now.s p.now.serves p.now.processor p.now.d1 p.now.section p.now.d2) × (result ≤ 4374) }
{
    let resources = put_plan_line(out, n, m, p.s);
    let tasks = put_resources(out, resources, &p.serves);
    put_tasks(out, tasks, n, p)
}

// Plans the table that any bytes say: writes the plan's text, or why it is refused, at the start of out and answers its length.
pub fn write_listing(bytes: &[u8], out: &mut [u8; 8192]) -> usize
    ensures { Wrote out.old 0 out.new result (listing_of (reading_of bytes.now)) × (result ≤ length out.new) }
{
    match table::read_table(bytes) {
        Err(e) => put_refused(out, e.number(), e.names(), 0, 0),
        Ok(t) => match plan::plan_table(&t) {
            Err(e) => put_refused(out, 11, e.row, e.mark.number(), e.value),
            Ok(p) => put_plan(out, t.n, t.m, &p),
        },
    }
}
