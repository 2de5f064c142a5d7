// The kept text of a reading: whether bytes are lines that some file has kept. Promised: exactly those. A line ends with CR alone here, so that an LF after
// it is a byte of the next line, and none that is allowed.
#![tactic(auto)]

ghost use Rattle.std.specs.Prelude.{◌≡◌, List, ℕ, ◌≤◌, length, take};
ghost use Rattle.law.specs.Sizes.{most_text};
ghost use Rattle.law.specs.Text.{SpellsText};
ghost use Rattle.law.specs.Items.{kind_of, kept-text};
ghost use Rattle.law.specs.Lawful.{KeptLine};
ghost use Rattle.join.proofs.Codes.{seen_of};
ghost use Rattle.texts.specs.Kept.{KeptText, Told};
ghost use Rattle.texts.specs.Stood.{StandsAfter};

use records::Kind;
use steps::{REPEATED, TEXT_CODES};
use types::MOST_LINE;

// Whether a line is one of the sixteen records, by its kind.
fn is_text(line: &[u8]) -> bool
    ensures { Told (kind_of line.now ≡ kept-text) result }
{
    matches!(records::kind_of(line), Ok(Kind::KeptText))
}

// Whether all of such a line is kept: no blank trails.
fn is_whole(line: &[u8]) -> bool
    ensures { Told (SpellsText line.now line.now) result }
{
    match records::text_of(line) {
        Ok(n) => n == line.len(),
        Err(_) => false,
    }
}

// Whether a line is one that is kept as it stands.
fn is_kept_line(line: &[u8]) -> bool
    ensures { Told (KeptLine line.now) result }
{
    line.len() <= MOST_LINE && lines::all_allowed(line) && is_text(line) && is_whole(line)
}

// Whether a line may stand after others, whose codes are `seen`: it is kept as it stands, and its code has not stood, unless that is 112. Then its code is seen.
fn stand(line: &[u8], seen: &mut [bool; TEXT_CODES]) -> bool
    ensures { (before : List (List ℕ)) → seen.old ≡ seen_of before → StandsAfter before line.now result seen.new }
{
    if !is_kept_line(line) {
        return false;
    }
    let place = steps::text_place(line);
    if place != REPEATED && seen[place] {
        return false;
    }
    seen[place] = true;
    true
}

// Whether all of it is kept text, line by line. What stands after the last CR is no line. A `while`, since a step is a line.
fn is_whole_text(text: &[u8]) -> bool
    ensures { Told (KeptText text.now) result }
{
    let mut seen = [false; TEXT_CODES];
    let mut at = 0;
    while at < text.len() {
        let to = lines::cr_from(text, at);
        if text.len() <= to || !stand(&text[at..to], &mut seen) {
            return false;
        }
        at = to + 1;
    }
    seen[0]
}

// Whether the first n bytes are kept text.
pub fn is_kept_text(text: &[u8], n: usize) -> bool
    requires { (n ≤ length text.now) × (n ≤ most_text) }
    ensures { Told (KeptText (take n text.now)) result }
{
    is_whole_text(&text[..n])
}
