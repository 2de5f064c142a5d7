// A line's kind, and the records but 162 and 001: one line read as one record, by value. A line against its record's rule is Fault::BadField, and one of no
// kind Fault::Unlisted. Columns are given by the number of columns before them, as in `fields`.
#![tactic(auto)]

ghost use Rattle.std.specs.Prelude.{◌≡◌, [], ◌∷◌, ◌≤◌, ◌||◌, eqb, length};
ghost use Rattle.kit.specs.Lists.{among, between, is_one_of};
ghost use Rattle.kit.specs.Decides.{to};
ghost use Rattle.law.specs.Columns.{else_blank, after_code, part, code_field};
ghost use Rattle.law.specs.Text.{text_codes, says_name};
ghost use Rattle.law.specs.Heads.{initial_colours};
ghost use Rattle.law.specs.Accelerations.{is_acceleration, acceleration_fields};
ghost use Rattle.law.specs.Items.{kind_of, is_passed};
ghost use Rattle.law.proofs.RecordsRead.{text_of, rounds_of_row, colour_of, acceleration_of};
ghost use Rattle.fields.specs.Said.{said, or_bad_field};
ghost use Rattle.records.specs.Records.{kind_says, or_not_listed, span_in, start_span_says};

use types::{Acceleration, Fault, MOST_POINTS, MOST_START, StartNumber};

const MOST_ROUNDS: u32 = types::MOST_ROUNDS as u32;

// What a line is, by its code.
#[derive(Drop)]
pub enum Kind {
    PassedOver,
    KeptText,
    Rounds,
    Colour,
    Scoring,
    Acceleration,
    Player,
}

// Whether a byte lies between two others, or is a third.
fn in_run_or(c: u8, first: u8, last: u8, other: u8) -> bool
    ensures { result ≡ eqb c other || between first last c }
{
    c == other || first <= c && c <= last
}

// Whether a code is that of a record whose lines are kept as they stand.
fn is_text_code(a: u8, b: u8, c: u8) -> bool
    ensures { result ≡ is_one_of (a ∷ b ∷ c ∷ []) text_codes }
{
    if c != b'2' {
        return false;
    }
    match a {
        b'0' => in_run_or(b, b'1', b'7', b'9'),
        b'1' => in_run_or(b, b'0', b'3', b'9'),
        b'2' => in_run_or(b, b'0', b'2', b'2'),
        _ => false,
    }
}

fn is_text(line: &[u8]) -> bool
    ensures { result ≡ is_one_of (part code_field line.now) text_codes }
{
    is_text_code(
        fields::column(line, 0),
        fields::column(line, 1),
        fields::column(line, 2),
    )
}

pub fn is_passed(line: &[u8]) -> bool
    ensures { result ≡ is_passed line.now }
{
    fields::blank_from(line, 0) || fields::has_code(line, b"###")
}

// What a line is; one that is none of these is Fault::Unlisted.
#[tactic(auto, unfolding(law::specs::Items::kind_of))]
pub fn kind_of(line: &[u8]) -> Result<Kind, Fault>
    ensures { kind_says result ≡ or_not_listed (kind_of line.now) }
{
    if is_passed(line) {
        return Ok(Kind::PassedOver);
    }
    if is_text(line) {
        return Ok(Kind::KeptText);
    }
    if fields::has_code(line, b"142") {
        return Ok(Kind::Rounds);
    }
    if fields::has_code(line, b"152") {
        return Ok(Kind::Colour);
    }
    if fields::has_code(line, b"162") {
        return Ok(Kind::Scoring);
    }
    if fields::has_code(line, b"250") {
        return Ok(Kind::Acceleration);
    }
    if fields::has_code(line, b"001") {
        return Ok(Kind::Player);
    }
    Err(Fault::Unlisted)
}

// Whether a 012 line has something other than a blank after column 4.
fn says_name(line: &[u8]) -> bool
    ensures { result ≡ says_name line.now }
{
    !fields::has_code(line, b"012") || !fields::blank_from(line, 4)
}

// A line of kept text: how many of its bytes are kept.
pub fn text_of(line: &[u8]) -> Result<usize, Fault>
    ensures { said result ≡ or_bad_field (to length (text_of line.now)) }
{
    if fields::column(line, 3) != b' ' || !says_name(line) {
        return Err(Fault::BadField);
    }
    Ok(fields::trimmed(line))
}

// Whether a record's columns are blank but those of one field.
fn blank_but(line: &[u8], first: usize, last: usize) -> bool
    requires { (4 ≤ first) × (first ≤ 65535) }
    ensures { result ≡ else_blank after_code ((first, last) ∷ []) line.now }
{
    fields::blank_at(line, 3, first - 4) && fields::blank_from(line, last)
}

// A 142 line: the number of rounds.
pub fn rounds_of(line: &[u8]) -> Result<u32, Fault>
    ensures { said result ≡ or_bad_field (rounds_of_row line.now) }
{
    if !blank_but(line, 5, 7) {
        return Err(Fault::BadField);
    }
    let n = fields::leading_at(line, 4, 3)?;
    if MOST_ROUNDS < n {
        return Err(Fault::BadField);
    }
    Ok(n)
}

pub fn is_initial(c: u8) -> bool
    ensures { result ≡ among c initial_colours }
{
    matches!(c, b'W' | b'B')
}

// A 152 line: the initial colour, W or B.
pub fn colour_of(line: &[u8]) -> Result<u8, Fault>
    ensures { said result ≡ or_bad_field (colour_of line.now) }
{
    let c = fields::column(line, 4);
    if !is_initial(c) || !blank_but(line, 5, 5) {
        return Err(Fault::BadField);
    }
    Ok(c)
}

// Points not 0, rounds and start numbers in their ranges, first not above last.
pub fn is_acceleration(a: Acceleration) -> bool
    ensures { result ≡ is_acceleration a }
{
    fields::is_counted(a.points, MOST_POINTS)
        && fields::is_counted(a.first_round, MOST_ROUNDS)
        && fields::is_counted(a.last_round, MOST_ROUNDS)
        && a.first_round <= a.last_round
        && fields::is_counted(a.first_start, MOST_START)
        && fields::is_counted(a.last_start, MOST_START)
        && a.first_start <= a.last_start
}

fn acceleration_else_blank(line: &[u8]) -> bool
    ensures { result ≡ else_blank after_code acceleration_fields line.now }
{
    fields::blank_at(line, 3, 6)
        && fields::blank_at(line, 13, 1)
        && fields::blank_at(line, 17, 1)
        && fields::blank_at(line, 21, 1)
        && fields::blank_at(line, 26, 1)
        && fields::blank_from(line, 31)
}

// Two number fields of one width with a column between them: the first and the last of something.
fn span_at(line: &[u8], from: usize, width: usize) -> Result<(u32, u32), Fault>
    requires { (from ≤ 65525) × (width ≤ 9) }
    ensures { said result ≡ or_bad_field (span_in line.now from width) }
{
    let first = fields::number_at(line, from, width)?.ok_or(Fault::BadField)?;
    let last = fields::number_at(line, from + width + 1, width)?.ok_or(Fault::BadField)?;
    Ok((first, last))
}

// First and last round.
fn round_span_at(line: &[u8]) -> Result<(u32, u32), Fault>
    ensures { said result ≡ or_bad_field (span_in line.now 14 3) }
{
    span_at(line, 14, 3)
}

// First and last start number.
fn start_span_at(line: &[u8]) -> Result<(StartNumber, StartNumber), Fault>
    ensures { start_span_says result ≡ or_bad_field (span_in line.now 22 4) }
{
    let (first, last) = span_at(line, 22, 4)?;
    Ok((StartNumber(first), StartNumber(last)))
}

// A 250 line.
pub fn acceleration_of(line: &[u8]) -> Result<Acceleration, Fault>
    ensures { said result ≡ or_bad_field (acceleration_of line.now) }
{
    if !acceleration_else_blank(line) {
        return Err(Fault::BadField);
    }
    let points = fields::points_at(line, 9)?;
    let (first_round, last_round) = round_span_at(line)?;
    let (first, last) = start_span_at(line)?;
    let a = Acceleration {
        points,
        first_round,
        last_round,
        first_start: first.0,
        last_start: last.0,
    };
    if !is_acceleration(a) {
        return Err(Fault::BadField);
    }
    Ok(a)
}
