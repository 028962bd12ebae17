// The index over numbered rows of key cells: it finds the row that has a key's cells without looking at every row, so exploring is linear.
// The rows of a bucket are chained newest first. The chains are one lent slice, `links`, of two parts: with n, half its length, buckets,
// links[b] is bucket b's newest row, and links[n + r] the newest row before r of r's bucket.
#![tactic(auto)]

ghost use Rattle.std.specs.Prelude.{◌≡◌, not, ◌+◌, ◌*◌, ◌≤◌, ◌<◌, length, take};
ghost use Rattle.std.proofs.Math.Seq.{paste};
ghost use Rattle.index.specs.Rows.{row_at};
ghost use Rattle.index.specs.Hash.{cell_code, hash_of, bucket_of};
ghost use Rattle.index.specs.Chains.{linked};
ghost use Rattle.index.specs.Index.{buckets, Key, Says, CellsAgree, Indexed, Finds, Room, IndexSized, KeyAdded};
ghost use Rattle.scope.specs.Sizes.{most_atoms, most_states};

use scope::Question;

// No row: the link of a bucket that has none, and of a bucket's oldest row. Where every bucket has it, no row is indexed.
// It is the first number that no row can have. A link is a cell of 16 bits in fixed memory, and an Option would take two.
pub const NONE: u16 = Question::STATES as u16;

// A cell as a number that is not negative. By way of 32 bits, so that the compiler sees that it has no more, and multiplies two cells at once.
fn code(x: i32) -> usize
    ensures { (result ≡ cell_code x) × (result < 4294967296) }
{
    (i64::from(x) + 2_147_483_648) as u32 as usize
}

// The hash of a key: the codes of its cells, each by an odd number of its own, are added up, and then the halves of the sum: a dead cell and
// 0 differ by 2 ^ 31, which a sum of 32 bits would tell apart only by its highest bit. There is no test, since past a row's own cells a key
// has 0. Chains are about as short as by chance for rows of small numbers and dead cells.
fn hash(key: &[i32; Question::ATOMS]) -> usize
    requires { length key.now ≡ most_atoms }
    ensures { (result ≡ hash_of key.now) × (result < 4294967296) }
{
    let low = code(key[0]) * 89_724_889
        + code(key[1]) * 172_061_623
        + code(key[2]) * 224_255_185
        + code(key[3]) * 272_266_025;
    let high = code(key[4]) * 503_303_631
        + code(key[5]) * 35_946_965
        + code(key[6]) * 248_913_303
        + code(key[7]) * 379_851_821;
    let sum = low + high;
    (sum % 4_294_967_296 + sum / 4_294_967_296) % 4_294_967_296
}

// The bucket, of n, of a key.
pub fn bucket(key: &[i32; Question::ATOMS], n: usize) -> usize
    requires { (length key.now ≡ most_atoms) × (0 < n) × (n ≤ 65536) }
    ensures { (result ≡ bucket_of n key.now) × (result < n) }
{
    hash(key) * n / 4_294_967_296
}

// Whether one of the four cells from `base` on is not the key's: all four are compared at once.
fn fronts_differ(keys: &[i32], base: usize, key: &[i32; Question::ATOMS]) -> bool
    requires { (base + 4 ≤ length keys.now) × (length key.now ≡ most_atoms) }
    ensures { Says (not result) (CellsAgree keys.now base key.now 4) }
{
    (keys[base] != key[0])
        | (keys[base + 1] != key[1])
        | (keys[base + 2] != key[2])
        | (keys[base + 3] != key[3])
}

// Whether the row has the key's first `width` cells. The loop's length is fixed, so that it is laid out flat.
pub fn same_row(keys: &[i32], width: usize, row: usize, key: &[i32; Question::ATOMS]) -> bool
    requires { (width ≤ most_atoms) × (length key.now ≡ most_atoms) × (row * width + width ≤ length keys.now) }
    ensures { Says result (row_at keys.now width row ≡ take width key.now) }
{
    let base = row * width;
    let mut from = 0;
    if 4 <= width {
        if fronts_differ(keys, base, key) {
            return false;
        }
        from = 4;
    }
    for i in 0..4 {
        let at = from + i;
        if at < width {
            if keys[base + at] != key[at] {
                return false;
            }
        }
    }
    true
}

// The row below count that has the key's first `width` cells, where there is one.
pub fn find(
    keys: &[i32],
    width: usize,
    key: &[i32; Question::ATOMS],
    links: &[u16],
    count: usize,
) -> Option<usize>
    requires indexed { Indexed keys.now width links.now count }
    requires key { Key width key.now }
    ensures { Finds keys.now width key.now count result }
{
    let n = links.len() / 2;
    let b = bucket(key, n);
    let mut link = links[b];
    // A chain of links has no index to count.
    while link != NONE {
        let row = usize::from(link);
        if same_row(keys, width, row, key) {
            return Some(row);
        }
        link = links[n + row];
    }
    None
}

// Stores the key's first `width` cells as the row's.
pub fn store_row(keys: &mut [i32], width: usize, row: usize, key: &[i32; Question::ATOMS])
    requires { (width ≤ most_atoms) × (width ≤ length key.now) × (row * width + width ≤ length keys.old) }
    ensures { keys.new ≡ paste keys.old (row * width) key.now width }
{
    let base = row * width;
    // Cell by cell: copy_from_slice calls for a copy of any length, and deciding takes a fifth more.
    for i in 0..width {
        let x = key[i];
        keys[base + i] = x;
    }
}

// The row's cells as a key, with 0 past them.
pub fn load_row(keys: &[i32], width: usize, row: usize) -> [i32; Question::ATOMS]
    requires { (width ≤ most_atoms) × (row * width + width ≤ length keys.now) }
    ensures { (take width result ≡ row_at keys.now width row) × Key width result }
{
    let base = row * width;
    let mut key = [0i32; Question::ATOMS];
    // Cell by cell, as in store_row.
    for i in 0..width {
        let x = keys[base + i];
        key[i] = x;
    }
    key
}

// Links row count, which has the key's cells, before the rows of its bucket.
fn insert(key: &[i32; Question::ATOMS], links: &mut [u16], count: usize)
    requires key_len { length key.now ≡ most_atoms }
    requires count_bound { (count < buckets links.old) × (buckets links.old ≤ 65536) × (count < most_states) }
    ensures { links.new ≡ linked links.old (bucket_of (buckets links.old) key.now) count }
{
    let n = links.len() / 2;
    let b = bucket(key, n);
    links[n + count] = links[b];
    links[b] = count as u16;
}

// Stores the key's first `width` cells as row count, and indexes it.
pub fn add(
    keys: &mut [i32],
    width: usize,
    key: &[i32; Question::ATOMS],
    links: &mut [u16],
    count: usize,
)
    requires indexed { Indexed keys.old width links.old count }
    requires room { Room keys.old width links.old count }
    requires key { Key width key.now }
    ensures { KeyAdded keys.old width key.now keys.new links.new count }
{
    store_row(keys, width, count, key);
    insert(key, links, count);
}

// Indexes the first count rows, where no row is indexed yet: as at first, or to go on with more buckets.
pub fn insert_rows(keys: &[i32], width: usize, links: &mut [u16], count: usize)
    requires indexed { Indexed keys.now width links.old 0 }
    requires index_sized { IndexSized keys.now width links.old count }
    ensures { Indexed keys.now width links.new count }
{
    for row in 0..count {
        let key = load_row(keys, width, row);
        insert(&key, links, row);
    }
}
