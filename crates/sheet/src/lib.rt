// The plan's bytes, written into the lent part of a sheet.
#![tactic(auto)]

ghost use Rattle.std.specs.Prelude.{◌≡◌, ◌+◌, ◌*◌, ◌<◌, ◌≤◌, length};
ghost use Rattle.std.proofs.lemmas.List.Edits.{sets};
ghost use Rattle.lists.specs.Tab.{joined};
ghost use Rattle.sheet.specs.Fields.{behind, bytes_of};
ghost use Rattle.sheet.specs.Sheet.{header_bytes, processor_fields, resource_bytes, task_bytes, task_of, plan_bytes, ServesFit, TasksFit};

use plan::Plan;

// Writes a number in so many bytes from place at on, the most significant first. No to_be_bytes: a word has 2, 4 or 5 bytes.
fn put_word(part: &mut [u8], at: usize, count: usize, x: u64)
    requires { at + count ≤ length part.old }
    ensures { part.new ≡ sets part.old at (bytes_of count x) }
{
    let mut rest = x;
    for left in (0..count).rev() {
        part[at + left] = (rest % 256) as u8;
        rest /= 256;
    }
}

// Writes the header.
fn put_header(part: &mut [u8], n: usize, m: usize, s: usize)
    requires { (2 ≤ length part.old) × (n < 128) × (m < 32) × (s < 16) }
    ensures { part.new ≡ sets part.old 0 (header_bytes n m s) }
{
    put_word(part, 0, 2, (n * 512 + m * 16 + s) as u64);
}

// Eight fields of 5 bits as one number: the processors of resources ahead + 1 to ahead + 8.
fn eight(serves: &[u32; 17], ahead: usize) -> u64
    requires { (ahead ≤ 8) × ServesFit serves.now }
    ensures { result ≡ behind 0 (processor_fields serves.now ahead 8) }
{
    let mut word: u64 = 0;
    for processor in &serves[ahead + 1..ahead + 9] {
        word = word * 32 + *processor as u64;
    }
    word
}

// Writes the processors of the resources.
fn put_resources(part: &mut [u8], serves: &[u32; 17])
    requires { (12 ≤ length part.old) × ServesFit serves.now }
    ensures { part.new ≡ sets part.old 2 (resource_bytes serves.now) }
{
    put_word(part, 2, 5, eight(serves, 0));
    put_word(part, 7, 5, eight(serves, 8));
}

// Writes a task's nine bytes from place at on.
fn put_task(part: &mut [u8], at: usize, processor: u32, d1: u32, section: u32, d2: u32)
    requires { (at + 9 ≤ length part.old) × (processor < 32) × (d1 < 1048576) × (section < 1048576) × (d2 < 1048576) }
    ensures { part.new ≡ sets part.old at (task_bytes processor d1 section d2) }
{
    let first = (processor as u64 * 1048576 + d1 as u64) * 32768 + (section / 32) as u64;
    let second = ((section % 32) as u64 * 1048576 + d2 as u64) * 128;
    put_word(part, at, 5, first);
    put_word(part, at + 5, 4, second);
}

// Writes the bytes of n tasks, behind the header and the resources.
fn put_tasks(part: &mut [u8], n: usize, p: &Plan)
    requires { (n ≤ 64) × (12 + 9 * n ≤ length part.old) × TasksFit n p.now.processor p.now.d1 p.now.section p.now.d2 }
    ensures { part.new ≡ sets part.old 12 (joined n (task_of p.now.processor p.now.d1 p.now.section p.now.d2)) }
{
    for k in 0..n {
        let (d1, section, d2) = (p.d1[k], p.section[k], p.d2[k]);
        put_task(part, 12 + 9 * k, p.processor[k], d1, section, d2);
    }
}

// Writes a plan for n rows and m processors at the start of the part of a sheet that is lent. That its numbers fit stays a clause, as
// the definition plan_by makes plans of any numbers.
pub fn write_plan(part: &mut [u8], n: usize, m: usize, p: &Plan)
    requires { (n ≤ 64) × (m ≤ 16) × (p.now.s < 16) × (12 + 9 * n ≤ length part.old) × ServesFit p.now.serves × TasksFit n p.now.processor p.now.d1 p.now.section p.now.d2 }
    ensures { part.new ≡ sets part.old 0 (plan_bytes n m p.now.s p.now.serves p.now.processor p.now.d1 p.now.section p.now.d2) }
{
    put_header(part, n, m, p.s);
    put_resources(part, &p.serves);
    put_tasks(part, n, p);
}
