// Where a list and its parts stand in the text.
ghost use Rattle.std.specs.Prelude.{◌≤◌, length};
ghost use Rattle.laying.specs.Texts.{ListStarts, PartEnds};

use forms::{Form, form_at, form_end};
use terms::{HeadWord, head_at};

// A list: its place, its head, and where its parts start.
#[derive(Clone, Copy)]
pub struct ListStart {
    pub place: usize,
    pub head: HeadWord,
    pub next: usize,
}

// What is behind a part: another part, by its place, or the end of the list (none), and then the place where what follows the list starts.
#[derive(Clone, Copy)]
pub struct PartEnd {
    pub another: Option<usize>,
    pub next: usize,
}

// The list that stands next.
pub fn list_at(text: &[u8], at: usize) -> ListStart
    requires { at ≤ length text.now }
    ensures inside { result.next ≤ length text.now }
    ensures starts { ListStarts text.now at result }
{
    let form = form_at(text, at);
    let head = head_at(text, form.next);
    ListStart {
        place: form.place,
        head: head.word,
        next: head.next,
    }
}

// What is behind the part that stands next.
pub fn part_end(text: &[u8], at: usize) -> PartEnd
    requires { at ≤ length text.now }
    ensures inside { result.next ≤ length text.now }
    ensures ends { PartEnds text.now at result }
{
    let part = form_at(text, at);
    let after = form_end(text, part);
    let form = form_at(text, after);
    let another = if form.kind == Form::CLOSE {
        None
    } else {
        Some(form.place)
    };
    PartEnd {
        another,
        next: form.next,
    }
}
