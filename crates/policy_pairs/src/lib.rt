// The pairs of a table: counted, and written as a report.
#![tactic(auto)]

ghost use Rattle.std.specs.Prelude.{◌≡◌, ◌++◌, ℕ, ◌*◌, ◌≤◌, ◌<◌, length, drop};
ghost use Rattle.policy_marks.specs.Pairs.{pairs_with, pairs_in, is_reported, report_of};
ghost use Rattle.policy_marks.specs.Words.{guards_in, rows_in, row_of, rows_of};

use policy_marks::{Table, has};

// The pair of images g and o is reported, by the words of a closed table that has both: g is a guard, o another image, and there is no mark for the two.
fn is_reported(guards: u64, rows: &[u64; 64], g: usize, o: usize) -> bool
    requires { (g < 64) × (o < 64) }
    ensures { (n : ℕ) → n ≤ length rows.now → g < n → o < n → result ≡ is_reported (row_of n guards) (rows_of n rows.now) g o }
{
    if !has(guards, g) {
        return false;
    }
    if g == o {
        return false;
    }
    !has(rows[g], o)
}

// How many pairs guard g of a closed table is reported in.
fn count_row(t: Table, g: usize) -> usize
    requires { (t.count ≤ 64) × (g < t.count) }
    ensures { result ≡ length (pairs_with (is_reported (guards_in t) (rows_in t)) g 0 t.count) }
{
    let mut n = 0;
    for o in 0..t.count {
        if is_reported(t.guards, &t.rows, g, o) {
            n += 1;
        }
    }
    n
}

// How many pairs a closed table is reported in.
pub fn count_pairs(t: Table) -> usize
    requires { t.count ≤ 64 }
    ensures { result ≡ length (pairs_in (guards_in t) (rows_in t)) }
{
    let mut n = 0;
    for g in 0..t.count {
        n += count_row(t, g);
    }
    n
}

// Writes the pairs of guard g of a closed table at the start of `out`, and answers how many bytes that are. What follows stays.
fn write_row(t: Table, g: usize, out: &mut [u8]) -> usize
    requires { (t.count ≤ 64) × (g < t.count) × (2 * length (pairs_with (is_reported (guards_in t) (rows_in t)) g 0 t.count) ≤ length out.old) }
    ensures value { result ≡ 2 * length (pairs_with (is_reported (guards_in t) (rows_in t)) g 0 t.count) }
    ensures out_after { out.new ≡ report_of (pairs_with (is_reported (guards_in t) (rows_in t)) g 0 t.count) ++ drop result out.old }
{
    let mut n = 0;
    for o in 0..t.count {
        if is_reported(t.guards, &t.rows, g, o) {
            out[n] = g as u8;
            out[n + 1] = o as u8;
            n += 2;
        }
    }
    n
}

// Writes the pairs of a closed table at the start of `out`. What follows stays.
pub fn write_pairs(t: Table, out: &mut [u8])
    requires { (t.count ≤ 64) × (2 * length (pairs_in (guards_in t) (rows_in t)) ≤ length out.old) }
    ensures { out.new ≡ report_of (pairs_in (guards_in t) (rows_in t)) ++ drop (2 * length (pairs_in (guards_in t) (rows_in t))) out.old }
{
    let mut n = 0;
    for g in 0..t.count {
        n += write_row(t, g, &mut out[n..]);
    }
}
