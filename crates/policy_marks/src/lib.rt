// Who accepts whom, in words of 64 bits: the closure of such a table, and the report that is read off it.
#![tactic(auto)]

ghost use Rattle.std.specs.Prelude.{◌≡◌, ◌≤◌, ◌<◌};
ghost use Rattle.policy_marks.specs.Marks.{closed_at, closed};
ghost use Rattle.policy_marks.specs.Words.{bit_at, rows_of};

// The images of a store by their places: row i has bit j where image i accepts image j; `guards` has bit i where image i is a guard.
#[derive(Clone, Copy)]
pub struct Table {
    pub count: usize,
    pub guards: u64,
    pub rows: [u64; 64],
}

// Bit i of a word.
pub fn has(word: u64, i: usize) -> bool
    requires { i < 64 }
    ensures { result ≡ bit_at word i }
{
    (word >> i) % 2 == 1
}

// To each row that has a mark for image k, the marks of row k are added.
fn close_at(count: usize, rows: [u64; 64], k: usize) -> [u64; 64]
    requires { (count ≤ 64) × (k < count) }
    ensures { rows_of count result ≡ closed_at k (rows_of count rows) }
{
    let next = rows[k];
    let mut closed = rows;
    for row in &mut closed[..count] {
        if has(*row, k) {
            *row |= next;
        }
    }
    closed
}

// The transitive closure of a table's rows (Warshall's algorithm, a row at a time).
pub fn close(count: usize, rows: [u64; 64]) -> [u64; 64]
    requires { count ≤ 64 }
    ensures { rows_of count result ≡ closed (rows_of count rows) }
{
    let mut closed = rows;
    for k in 0..count {
        // two steps: the borrow check does not cover a function that lays a call's result in an array that is there already
        let next = close_at(count, closed, k);
        closed = next;
    }
    closed
}
