// The numbering loop that deciding and building share: row by row, each letter in order, a state that has no row yet gets the next one.
#![tactic(auto)]

ghost use Rattle.std.specs.Prelude.{◌≡◌, ◌/◌, ◌≤◌, ◌<◌};
ghost use Rattle.plan.specs.Machine.{machine, Task};
ghost use Rattle.explore.specs.Outcome.{Ready, Numbered};
ghost use Rattle.explore.specs.Standing.{Linked, Stands, Tried, ExploringEnded};

use explore::try_letter;
use index::{NONE, insert_rows, load_row};
use plan::{Explored, FEW, MANY, Plan, Stand, Stop, resumed};
use step::SUMS;

// The links of a small index, and of a large one: a bucket and a link for each row that it has room for.
pub const SMALL: usize = 2 * FEW;

pub const LARGE: usize = 2 * MANY;

// Tries the letters that are left of the row at which it stands. The row is loaded once for them.
fn try_row(
    plan: Plan,
    sums: &[i32; SUMS],
    keys: &mut [i32],
    path: &mut [u16],
    links: &mut [u16],
    from: Stand,
) -> Result<Stand, Stop>
    requires task { Task plan sums.now }
    requires stands { Stands (machine plan sums.now keys.old) plan keys.old path.old from }
    requires linked { Linked plan keys.old links.old from.count }
    requires row_lt_count { from.row < from.count }
    ensures { Tried (machine plan sums.now keys.old) plan from keys.old path.old keys.new path.new links.new result }
{
    let at = from.row;
    let row = load_row(keys, plan.width, at);
    let mut s = from;
    // A letter's stand says which letter is next, and some are passed over: there is no index to count.
    while s.row == at {
        s = try_letter(plan, sums, keys, path, links, row, s)?;
    }
    Ok(s)
}

// Tries row after row, from where it stands on, until a state is accepted, no row is left, or every row is expanded.
fn explore(
    plan: Plan,
    sums: &[i32; SUMS],
    keys: &mut [i32],
    path: &mut [u16],
    links: &mut [u16],
    from: Stand,
) -> Result<Stand, Stop>
    requires task { Task plan sums.now }
    requires stands { Stands (machine plan sums.now keys.old) plan keys.old path.old from }
    requires linked { Linked plan keys.old links.old from.count }
    ensures exploring_ended { ExploringEnded (machine plan sums.now keys.old) plan from.count keys.old path.old keys.new path.new result }
    ensures linked { (s : Stand) → result ≡ Ok s → Linked plan keys.new links.new s.count }
{
    let mut s = from;
    // Trying a row adds rows, so the end moves: there is no range to go over.
    while s.row < s.count {
        s = try_row(plan, sums, keys, path, links, s)?;
    }
    Ok(s)
}

// The same with an index that has no row yet. Where every row is expanded, it has them all.
pub fn resume(
    plan: Plan,
    sums: &[i32; SUMS],
    keys: &mut [i32],
    path: &mut [u16],
    links: &mut [u16],
    from: Stand,
) -> Result<Stand, Stop>
    requires task { Task plan sums.now }
    requires stands { Stands (machine plan sums.now keys.old) plan keys.old path.old from }
    requires linked { Linked plan keys.old links.old 0 }
    ensures exploring_ended { ExploringEnded (machine plan sums.now keys.old) plan from.count keys.old path.old keys.new path.new result }
    ensures linked { (s : Stand) → result ≡ Ok s → Linked plan keys.new links.new s.count }
{
    insert_rows(keys, plan.width, links, from.count);
    explore(plan, sums, keys, path, links, from)
}

// The same with an index of its own, of so many links. It is made in a function of its own so that the small and the large one share their
// room on the stack.
fn resume_with<const LINKS: usize>(
    plan: Plan,
    sums: &[i32; SUMS],
    keys: &mut [i32],
    path: &mut [u16],
    from: Stand,
) -> Result<Stand, Stop>
    requires task { Task plan sums.now }
    requires stands { Stands (machine plan sums.now keys.old) plan keys.old path.old from }
    requires room { (0 < LINKS / 2) × (LINKS / 2 ≤ 65536) × (plan.rows ≤ LINKS / 2) }
    ensures { ExploringEnded (machine plan sums.now keys.old) plan from.count keys.old path.old keys.new path.new result }
{
    let mut links = [NONE; LINKS];
    resume(plan, sums, keys, path, &mut links, from)
}

// Numbers the states from the start's, which is row 0 already and, where states are tested, does not accept. It stops at the first state that
// is found to accept. A small index serves the first rows, and a large one all, where these are full.
pub fn number_rows(plan: Plan, sums: &[i32; SUMS], keys: &mut [i32], path: &mut [u16]) -> Explored
    requires task { Task plan sums.now }
    requires ready { Ready (machine plan sums.now keys.old) plan keys.old path.old }
    ensures { Numbered (machine plan sums.now keys.old) plan keys.old path.old keys.new path.new result }
{
    let few = plan.rows.min(FEW);
    let start = Stand::going(1, 0, 0);
    let ended = resume_with::<SMALL>(plan.with_rows(few), sums, keys, path, start);
    if let Some(s) = resumed(ended, few, plan.rows) {
        return Explored::of(resume_with::<LARGE>(plan, sums, keys, path, s));
    }
    Explored::of(ended)
}
