// Reads lines from standard input and prints what each asks for. The first word of a line says what that is:
//
//   number MANIFEST        the number that a manifest gets by questions 1 to 9: the lowest that applies
//   facade MANIFEST        what a manifest says, or of two, with a tab between them, which rules of the first match the second (`test_facade`)
//   names MANIFESTS        the names of two manifests, with a tab between them (`test_names`)
//   reference LETTER TEXT  what a reference is found to be, with no space after the letter (`test_references`)
//
// Any other line prints `bad`. What is printed is tested; no contract speaks of it.
#![tactic(auto)]

fn show_number(s: &[u8]) {
    io::print_decimal(1, manifest::number(s) as u64);
    io::write_all(1, b"\n");
}

fn show(line: &[u8]) {
    if let Some(words) = line.strip_prefix(b"number ") {
        show_number(words);
        return;
    }
    if let Some(words) = line.strip_prefix(b"facade ") {
        test_facade::show(words);
        return;
    }
    if let Some(words) = line.strip_prefix(b"names ") {
        test_names::show(words);
        return;
    }
    if let Some(words) = line.strip_prefix(b"reference ") {
        test_references::show(words);
        return;
    }
    test_lines::print_bad();
}

fn show_all(s: &[u8]) {
    let mut start = 0;
    // no `for` counts `start`: it goes on after the line that was found
    while start < s.len() {
        let end = lines::find(s, start, b'\n');
        show(&s[start..end]);
        start = end + 1;
    }
}

fn main() {
    let mut input = [0u8; 131072];
    let n = io::read_full(0, &mut input);
    show_all(&input[..n]);
}
