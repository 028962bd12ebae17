// A question's table, written from its key rows: row by row, in each the mark and then the next state for each letter.
#![tactic(auto)]

ghost use Rattle.std.specs.Prelude.{◌≡◌, cond, ◌+◌, ◌*◌, ◌≤◌, ◌<◌, length};
ghost use Rattle.scope.specs.Sizes.{most_atoms};
ghost use Rattle.step.specs.Cells.{step_cells};
ghost use Rattle.index.specs.Index.{Indexed};
ghost use Rattle.plan.specs.Loaded.{Steps};
ghost use Rattle.table.specs.Tabling.{HasKey, KeyIn, Tabling};
ghost use Rattle.table.specs.Row.{table_row_of};
ghost use Rattle.table.specs.Table.{table_after};

use index::{find, load_row};
use plan::Plan;
use scope::Question;
use step::{SUMS, step_row};

// The row that has the cells to which a letter leads from a row, whose cells are handed over.
fn next_state(
    plan: Plan,
    sums: &[i32; SUMS],
    letter: usize,
    keys: &[i32],
    links: &[u16],
    count: usize,
    row: [i32; Question::ATOMS],
) -> u16
    requires indexed { Indexed keys.now plan.width links.now count }
    requires steps { Steps plan sums.now letter row }
    requires there { HasKey keys.now plan.width (step_cells plan.kinds most_atoms sums.now letter row) count }
    ensures { KeyIn keys.now plan.width (step_cells plan.kinds most_atoms sums.now letter row) count result }
{
    let kinds = plan.kinds;
    let key = step_row(kinds, sums, letter, row);
    find(keys, plan.width, &key, links, count).unwrap() as u16
}

// The first cell of a row.
fn mark(accepting: bool) -> u16
    ensures { result ≡ cond accepting 1 0 }
{
    if accepting { 1 } else { 0 }
}

// Writes a row of the table: 1 if the key row accepts else 0, then the next state for each letter in order. The key row is loaded once for
// them.
fn write_row(
    part: &mut [u16],
    plan: Plan,
    sums: &[i32; SUMS],
    keys: &[i32],
    links: &[u16],
    count: usize,
    row: usize,
)
    requires tabling { Tabling plan sums.now keys.now count }
    requires indexed { Indexed keys.now plan.width links.now count }
    requires row_lt_count { (row < count) × (length part.old ≡ 1 + plan.letters) }
    ensures { part.new ≡ table_row_of plan sums.now keys.now count row }
{
    let from = load_row(keys, plan.width, row);
    part[0] = mark(plan.accepts(from));
    for letter in 0..plan.letters {
        part[1 + letter] = next_state(plan, sums, letter, keys, links, count, from);
    }
}

// Writes every row of the table at its front, each in the part that is lent for it.
pub fn write_rows(
    table: &mut [u16],
    plan: Plan,
    sums: &[i32; SUMS],
    keys: &[i32],
    links: &[u16],
    count: usize,
)
    requires tabling { Tabling plan sums.now keys.now count }
    requires indexed { Indexed keys.now plan.width links.now count }
    requires letters_in_bounds { count * (1 + plan.letters) ≤ length table.old }
    ensures { table.new ≡ table_after plan sums.now keys.now count table.old }
{
    let width = 1 + plan.letters;
    for row in 0..count {
        let at = row * width;
        let end = at + width;
        write_row(&mut table[at..end], plan, sums, keys, links, count, row);
    }
}
