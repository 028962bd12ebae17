// Building a question's table: its states are numbered first, then every row of the table is written from the key rows.
#![tactic(auto)]

ghost use Rattle.std.specs.Prelude.{Ok, ◌≡◌, [], ◌/◌, ◌≤◌, ◌<◌, min};
ghost use Rattle.scope.specs.Sizes.{most_states};
ghost use Rattle.scope.specs.Building.{built_question, built};
ghost use Rattle.theory.specs.Wire.Accepted.{WithinLimits};
ghost use Rattle.plan.specs.Machine.{machine};
ghost use Rattle.explore.specs.Standing.{Stands};
ghost use Rattle.build.specs.Builds.{Builds, filled};
ghost use Rattle.build.specs.Filling.{Filling, FilledFrom, built_answer};
ghost use Rattle.build.specs.Asked.{BuildLends};

use index::{NONE, store_row};
use numbering::{LARGE, SMALL, resume};
use plan::{FEW, Plan, Stand, Stop, plan_of, resumed};
use scope::{Building, Question, Refusal, letters};
use step::{Kinds, SUMS, kinds_of, letter_sums};
use table::write_rows;

// Numbers the states from where it stands, with an index of its own, of so many links. If each state has a row then, it writes the table from
// the same index. It is made here so that the small and the large one share their room on the stack.
fn fill_from<const LINKS: usize>(
    plan: Plan,
    sums: &[i32; SUMS],
    keys: &mut [i32],
    path: &mut [u16],
    table: &mut [u16],
    from: Stand,
) -> Result<Stand, Stop>
    requires filling { Filling plan sums.now keys.old path.old table.old }
    requires stands { Stands (machine plan sums.now keys.old) plan keys.old path.old from }
    requires room { (0 < LINKS / 2) × (LINKS / 2 ≤ 65536) × (plan.rows ≤ LINKS / 2) }
    ensures { FilledFrom plan sums.now from.count keys.old path.old table.old keys.new path.new table.new result }
{
    let mut links = [NONE; LINKS];
    let s = resume(plan, sums, keys, path, &mut links, from)?;
    write_rows(table, plan, sums, keys, &links, s.count);
    Ok(s)
}

// The answer, once the table is written or no row is left.
fn answer(ended: Result<Stand, Stop>) -> Building
    ensures { result ≡ built_answer ended }
{
    match ended {
        Ok(s) => Building::Built { states: s.count },
        Err(Stop::Found(s) | Stop::Full(s)) => Building::NoRoom { states: s.count },
    }
}

// Numbers the states from the start's, which is row 0 already, and writes the table if each of them has a row.
// A small index serves the first rows, and a large one all, where these are full.
fn fill(plan: Plan, sums: &[i32; SUMS], keys: &mut [i32], table: &mut [u16]) -> Building
    requires { Filling plan sums.now keys.old [] table.old }
    ensures { Builds (filled (machine plan sums.now keys.old) plan.rows keys.old table.old) (Ok result) keys.new table.new }
{
    // Only deciding has a path area.
    let mut path = [0u16; 1];
    let few = plan.rows.min(FEW);
    let start = Stand::going(1, 0, 0);
    let fewer = plan.with_rows(few);
    let ended = fill_from::<SMALL>(fewer, sums, keys, &mut path, table, start);
    if let Some(s) = resumed(ended, few, plan.rows) {
        return answer(fill_from::<LARGE>(plan, sums, keys, &mut path, table, s));
    }
    answer(ended)
}

// R: how many rows are lent.
fn room(keys: usize, m: usize, table: usize, width: usize) -> usize
    requires { (0 < m) × (0 < width) }
    ensures { result ≡ min (min (keys / m) (table / width)) most_states }
{
    (keys / m).min(table / width).min(Question::STATES)
}

// Builds the table of a question in so many rows, and its start is row 0.
fn build_rows(
    question: &Question,
    atoms: Kinds,
    rows: usize,
    keys: &mut [i32],
    table: &mut [u16],
) -> Building
    requires { BuildLends question.now atoms rows keys.old table.old }
    ensures { Builds (built_question question.now keys.old table.old) (Ok result) keys.new table.new }
{
    let sums = letter_sums(usize::from(question.n), atoms.m, &question.coefficients);
    let plan = plan_of(question, atoms, &sums, rows, false, false);
    store_row(keys, plan.width, 0, &question.constants);
    fill(plan, &sums, keys, table)
}

// Builds the table of a question that was accepted.
fn build_question(question: &Question, keys: &mut [i32], table: &mut [u16]) -> Building
    requires { WithinLimits question.now }
    ensures { Builds (built_question question.now keys.old table.old) (Ok result) keys.new table.new }
{
    let atoms = kinds_of(&question.codes);
    let count = letters(usize::from(question.n));
    let rows = room(keys.len(), atoms.m, table.len(), 1 + count);
    if rows == 0 {
        return Building::NoRoom { states: 0 };
    }
    build_rows(question, atoms, rows, keys, table)
}

// Builds the table of the question that the bytes say.
pub fn build(bytes: &[u8], keys: &mut [i32], table: &mut [u16]) -> Result<Building, Refusal>
    ensures { Builds (built bytes.now keys.old table.old) result keys.new table.new }
{
    let mut question = Question::empty();
    reading::read_into(bytes, &mut question)?;
    Ok(build_question(&question, keys, table))
}
