// Blocking, and the bounds of sections.
#![tactic(auto)]

ghost use Rattle.std.specs.Prelude.{◌≡◌, ◌&&◌, ◌||◌, ◌<◌, ◌≤◌, leb, eqb};
ghost use Rattle.sections.specs.Blocking.{blocking_of};
ghost use Rattle.sections.specs.Section.{sections_of};
ghost use Rattle.sections.specs.Good.{GoodSections};

use bounds::{Lanes, Term};

// The first task whose section has no bound, the value that broke its limit, and the bounds of the tasks before it.
#[derive(Drop)]
pub struct NoSection {
    pub task: usize,
    pub value: u32,
    pub bound: [u32; 64],
}

// Whether a lower-ranked task may block task k, which is served here.
fn counts(npp: bool, top: u32, home: u32, here: u32, k: u32) -> bool
    ensures { result ≡ (eqb home here && (npp || leb top k)) }
{
    home == here && (npp || top <= k)
}

// The blocking of task k of n: the largest section that may be in the way, less the unit that it ran before.
fn blocking(
    npp: bool,
    section: &[u32; 64],
    top: &[u32; 64],
    home: &[u32; 64],
    n: usize,
    k: usize,
) -> u32
    requires { (n ≤ 64) × (k < n) }
    ensures { result ≡ blocking_of npp section.now top.now home.now n k }
{
    let here = home[k];
    let mut most = 0;
    for i in k + 1..n {
        if counts(npp, top[i], home[i], here, k as u32) {
            most = section[i].max(most);
        }
    }
    most.saturating_sub(1)
}

// The bounds of the sections of n tasks, in rank order, up to the first that is missing.
// The columns stay apart, as the table holds them (fixed memory, and sections_of speaks of single columns).
pub fn section_bounds(
    npp: bool,
    period: &[u32; 64],
    section: &[u32; 64],
    top: &[u32; 64],
    home: &[u32; 64],
    n: usize,
) -> Result<[u32; 64], NoSection>
    requires { GoodSections period.now section.now home.now n }
    ensures { result ≡ sections_of npp period.now section.now top.now home.now n }
{
    let mut bound = lists::blank(0);
    let mut lanes = Lanes::new();
    for k in 0..n {
        let p = home[k] as usize;
        let b = blocking(npp, section, top, home, n, k);
        match lanes.bound_on(p, section[k], b, period[k]) {
            Ok(t) => bound[k] = t,
            Err(broke) => {
                return Err(NoSection {
                    task: k,
                    value: broke.value,
                    bound,
                });
            }
        }
        lanes.add(
            p,
            Term {
                period: period[k],
                len: section[k],
            },
        );
    }
    Ok(bound)
}
