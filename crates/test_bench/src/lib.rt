// For the benchmark in C: what checking a text and a manifest costs.
#![tactic(auto)]

ghost use Rattle.std.specs.Prelude.{◌≡◌, Bool, true, false};
ghost use Rattle.text.specs.Answer.{checked, number_of, is_canonical};
ghost use Rattle.manifest.specs.Number.{manifest_text_number};
ghost use Rattle.test_bench.specs.Bit.{bit};

// The lowest of the numbers 1 to 6 that applies to any text, 0 where none does.
fn text_number_of(s: &[u8]) -> usize
    ensures { result ≡ number_of (checked s.now) }
{
    match text::check(s) {
        Err(f) => f.number(),
        Ok(_) => 0,
    }
}

#[unsafe(no_mangle)]
pub extern "C" fn text_number(s: &[u8]) -> u64
    ensures { result ≡ number_of (checked s.now) }
{
    text_number_of(s) as u64
}

// The lowest of the numbers 1 to 9 that applies, 0 where none does.
#[unsafe(no_mangle)]
pub extern "C" fn manifest_text_number(s: &[u8]) -> u64
    ensures { result ≡ manifest_text_number s.now }
{
    manifest::number(s) as u64
}

// 1 where the text is its own canonical form, else 0.
#[unsafe(no_mangle)]
pub extern "C" fn text_is_canonical(s: &[u8]) -> u64
    ensures { result ≡ bit (is_canonical s.now) }
{
    if text::is_canonical(s) {
        return 1;
    }
    0
}
