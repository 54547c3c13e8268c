// The launch policy of a store's images: the report on guards and the images that they do not reach by any chain.
#![tactic(auto)]

ghost use Rattle.std.specs.Prelude.{◌≡◌, length};
ghost use Rattle.policy_marks.specs.Words.{Reports};
ghost use Rattle.policy.specs.Judge.{judge_number, held_pairs};

use answer::Answer;
use manifest::MOST_NAMES;
use text::MOST_BYTES;

// The number of a store that is not well-formed.
const BROKEN: usize = 11;

// Judges the images in the first `used` bytes of a store: writes the pairs of a guard and an image that it does not reach at the start of
// `report`. A refusal changes no byte. The arrays that opening the store and making the table need are made here, once.
pub fn judge(store: &[u8], used: usize, report: &mut [u8]) -> Answer
    ensures { Reports (judge_number store.now used (length report.old)) (held_pairs store.now used)
        report.old result report.new }
{
    let is_past = store.len() < used;
    if is_past {
        return answer::refused(report, BROKEN);
    }
    let b = &store[..used];
    let mut at = [0usize; MOST_NAMES];
    let mut sorted = [0u16; MOST_NAMES];
    let mut spare = [0u16; MOST_NAMES];
    let mut heads = [0u32; MOST_NAMES];
    let mut keys = [0u16; MOST_BYTES];
    let Some(opened) = store_open::open(b, &mut at, &mut sorted, &mut spare, &mut heads, &mut keys)
    else {
        return answer::refused(report, BROKEN);
    };
    let table = policy_table::table(
        b,
        opened.survey,
        opened.places,
        &mut at,
        &mut sorted,
        &mut spare,
    );
    policy_judge::judge_table(table, report)
}
