// Comparing buffers, seeing that marked cells are as they were, and the fronts of buffers.
ghost use Rattle.std.specs.Prelude.{◌≡◌, cond, ◌&&◌, [], ◌*◌, Some, None, leb, length, take};
ghost use Rattle.std.specs.List.{list_all};

use scope::Question;

// What every cell of a key area, of a path area or a table, and of a buffer of bytes holds before the call: no such entry and no such state is reached.
pub const KEY_MARK: i32 = 1_717_986_918;

pub const CELL_MARK: u16 = 65_535;

pub const BYTE_MARK: u8 = 165;

// The most rows that are lent.
pub const ROWS: usize = 2_000;

// The most cells of a row: a mark and 64 letters.
const WIDTH: usize = 65;

// The cells of some rows; none where there are too many or they are too wide.
pub fn cells_of(rows: usize, width: usize) -> Option<usize>
    ensures { result ≡ cond (leb rows 2000 && leb width 65) (Some (rows * width)) None }
{
    if rows <= ROWS && width <= WIDTH {
        Some(rows * width)
    } else {
        None
    }
}

// Whether a buffer's cells all hold one mark.
pub fn all_marked<T: Copy + PartialEq>(cells: &[T], mark: T) -> bool
    ensures { result ≡ list_all (λ cell. T.eq cell mark) cells.now }
{
    cells.iter().all(|cell| *cell == mark)
}

// Whether exactly the first n cells of a buffer differ from the mark that each held.
pub fn is_filled<T: Copy + PartialEq>(cells: &[T], n: usize, mark: T) -> bool {
    cells
        .iter()
        .enumerate()
        .all(|(i, cell)| (*cell != mark) == (i < n))
}

// The first n cells of a buffer; the empty front where it has fewer.
pub fn first<T>(cells: &[T], n: usize) -> &[T]
    ensures { result.now ≡ cond (leb n (length cells.now)) (take n cells.now) [] }
{
    cells.get(..n).unwrap_or(&[])
}

// The same to write to.
pub fn front<T>(cells: &mut [T], n: usize) -> &mut [T]
    ensures { result.now ≡ cond (leb n (length cells.old)) (take n cells.old) [] }
{
    let lent = if n <= cells.len() { n } else { 0 };
    &mut cells[..lent]
}

// The cells of the first rows of an area; none where it has not so many.
pub fn front_rows<T>(area: &mut [T], rows: usize, width: usize) -> &mut [T] {
    front(area, cells_of(rows, width).unwrap_or(0))
}

// Whether two held questions are the same: scope's type has no `==`, which no call needs.
pub fn same_question(a: &Question, b: &Question) -> bool {
    a.n == b.n
        && a.codes == b.codes
        && a.coefficients == b.coefficients
        && a.constants == b.constants
}
