//! The plan in a text that may have answers before it.
ghost use Rattle.std.specs.Prelude.{◌≡◌, ◌++◌, ℕ, List};

/// The text from the last record on that begins a plan: what answers end with after `print`. All of it where no record does.
pub fn last_plan(text: &[u8]) -> &[u8]
    ensures { (front : List ℕ) × (text.now ≡ front ++ result.now) }
{
    let mut last = 0;
    let mut quoted = false;
    let mut begins = true;
    for place in 0..text.len() {
        if begins && text[place..].starts_with(b"plan,") {
            last = place;
        }
        if text[place] == b'"' {
            quoted = !quoted;
        }
        begins = text[place] == b'\n' && !quoted;
    }
    &text[last..]
}
