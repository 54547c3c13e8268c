// The answer of judge for a table: how many pairs there are, and the report.
#![tactic(auto)]

ghost use Rattle.std.specs.Prelude.{◌*◌, ◌≤◌, ◌<◌, length};
ghost use Rattle.policy_marks.specs.Marks.{closed};
ghost use Rattle.policy_marks.specs.Pairs.{pairs_of};
ghost use Rattle.policy_marks.specs.Words.{guards_in, rows_in, report_number, Reports};

use answer::Answer;
use policy_marks::{Table, close};

// The pairs of guards and others to which no chain of marks leads, written at the start of `out`; 20 where they do not fit.
pub fn judge_table(t: Table, out: &mut [u8]) -> Answer
    requires { t.count ≤ 64 }
    ensures { Reports (report_number (length out.old) (pairs_of (guards_in t) (rows_in t))) (pairs_of (guards_in t) (rows_in t)) out.old
        result out.new }
{
    let count = t.count;
    let guards = t.guards;
    let rows = t.rows;
    let closed = Table {
        count,
        guards,
        rows: close(count, rows),
    };
    let pairs = policy_pairs::count_pairs(closed);
    if out.len() < 2 * pairs {
        return Answer {
            number: 20,
            value: 0,
        };
    }
    policy_pairs::write_pairs(closed, out);
    Answer {
        number: 0,
        value: pairs,
    }
}
