// Where a line or a word of some bytes ends.
#![tactic(auto)]

ghost use Rattle.std.specs.Prelude.{◌≤◌, length};
ghost use Rattle.lines.specs.First.{FirstFrom};

// Where the first such byte is, from `at` on. Where there is none a last line or word ends with the bytes, so the length is the
// answer, and no Option whose None each caller would turn into it.
pub fn find(s: &[u8], at: usize, mark: u8) -> usize
    requires { at ≤ length s.now }
    ensures { FirstFrom s.now at mark result }
{
    for i in at..s.len() {
        if s[i] == mark {
            return i;
        }
    }
    s.len()
}
