// A letter tried from a numbered row: the state that it leads to has a row already, or gets the next one, or there is none left.
#![tactic(auto)]

ghost use Rattle.std.specs.Prelude.{◌≡◌, false, ◌&&◌, ◌+◌, ◌*◌, ◌≤◌, ◌<◌, length};
ghost use Rattle.formula.specs.Truths.{truth_at};
ghost use Rattle.step.specs.Cells.{worth_cells};
ghost use Rattle.plan.specs.Machine.{machine, Task};
ghost use Rattle.explore.specs.Areas.{path_count, path_with};
ghost use Rattle.explore.specs.Standing.{Linked, Stands, RowOf, RowFits, RowAdded, Tried, FrontStays};
ghost use Rattle.scope.specs.Sizes.{most_letters, most_states};

use index::{add, find};
use plan::{Plan, Stand, Stop};
use scope::Question;
use step::{SUMS, step_row};

// Where they are noted: the row and the letter from which the next row is numbered.
fn put_path(noting: bool, path: &mut [u16], s: Stand)
    requires { (path_count noting (s.count + 1) ≤ length path.old) × (s.count < most_states) × (s.row < most_states) × (s.letter < most_letters) }
    ensures { path.new ≡ path_with noting path.old s.count s.row s.letter }
{
    if noting {
        let at = 2 * s.count;
        path[at] = s.row as u16;
        path[at + 1] = s.letter as u16;
    }
}

// Whether a row was found to accept, where it is tested.
fn tests(plan: Plan, row: [i32; Question::ATOMS]) -> bool
    ensures { result ≡ plan.testing && truth_at plan.truths (worth_cells plan.kinds row) }
{
    if plan.testing {
        return plan.accepts(row);
    }
    false
}

// Numbers the key's state as the next row; and whether it was found to accept.
fn add_row(
    plan: Plan,
    keys: &mut [i32],
    path: &mut [u16],
    links: &mut [u16],
    key: [i32; Question::ATOMS],
    s: Stand,
) -> bool
    requires linked { Linked plan keys.old links.old s.count }
    requires row_fits { RowFits plan s key keys.old path.old links.old }
    ensures { RowAdded plan s key keys.old path.old keys.new path.new links.new result }
{
    add(keys, plan.width, &key, links, s.count);
    put_path(plan.noting, path, s);
    tests(plan, key)
}

// Tries the letter at which it stands from its row, whose cells are handed over: the target has a row already, or gets the next one, or there
// is none left.
pub fn try_letter(
    plan: Plan,
    sums: &[i32; SUMS],
    keys: &mut [i32],
    path: &mut [u16],
    links: &mut [u16],
    row: [i32; Question::ATOMS],
    s: Stand,
) -> Result<Stand, Stop>
    requires task { Task plan sums.now }
    requires stands { Stands (machine plan sums.now keys.old) plan keys.old path.old s }
    requires linked { Linked plan keys.old links.old s.count }
    requires row_of { RowOf plan keys.old s row }
    ensures tried { Tried (machine plan sums.now keys.old) plan s keys.old path.old keys.new path.new links.new result }
    ensures front_stays { FrontStays plan s keys.old keys.new }
{
    let kinds = plan.kinds;
    let key = step_row(kinds, sums, s.letter, row);
    if find(keys, plan.width, &key, links, s.count).is_some() {
        return Ok(s.after(plan, s.count));
    }
    if s.count == plan.rows {
        return Err(Stop::Full(s));
    }
    if add_row(plan, keys, path, links, key, s) {
        return Err(Stop::Found(Stand::going(s.count + 1, s.row, s.letter)));
    }
    Ok(s.after(plan, s.count + 1))
}
