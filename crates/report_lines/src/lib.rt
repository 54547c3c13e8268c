// The lines of a report, each loaded into a store.
#![tactic(auto)]

ghost use Rattle.std.specs.Prelude.{◌≡◌};
ghost use Rattle.report_lines.specs.Lines.{line_number, line_used, line_bytes};

// The most bytes that a line may have.
pub const MOST_LINE: usize = 16600;

// The number of a line, and the used count for the next one.
#[derive(Clone, Copy)]
pub struct Loaded {
    pub number: usize,
    pub used: usize,
}

// Loads the image of a line into the store. A line that is refused changes no byte and leaves the used count as it was.
pub fn load_line(line: &[u8], store: &mut [u8], used: usize) -> Loaded
    ensures number_value { result.number ≡ line_number line.now store.old used }
    ensures used_value { result.used ≡ line_used line.now store.old used }
    ensures store_after { store.new ≡ line_bytes line.now store.old used }
{
    if MOST_LINE < line.len() {
        return Loaded { number: 1, used };
    }
    let divided = report_text::divide(line);
    let end = divided.end;
    let start = divided.start;
    let answer = store::load(&line[..end], &line[start..], store, used);
    if answer.number == 0 {
        Loaded {
            number: 0,
            used: answer.value,
        }
    } else {
        Loaded {
            number: answer.number,
            used,
        }
    }
}
