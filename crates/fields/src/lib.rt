// The fields of a line: what stands in some of its columns, read as document 01 says. A field is given by the number of columns before it and by its
// width; columns past the end of the line read as blank. A field against its rule is Fault::BadField.
#![tactic(auto)]

ghost use Rattle.std.specs.Prelude.{◌≡◌, [], ◌∷◌, ◌+◌, ◌-◌, ◌≤◌, ◌<◌, length, get_or, drop};
ghost use Rattle.std.proofs.Math.Option.{some};
ghost use Rattle.kit.specs.Lists.{all, between, same};
ghost use Rattle.kit.specs.Decides.{keep, to};
ghost use Rattle.law.specs.Columns.{blank, is_blank, cells};
ghost use Rattle.law.specs.Fields.{is_digit, digit_value, decimal_from, is_tens};
ghost use Rattle.law.proofs.FieldsRead.{number_of, the_number, number_or0, digits_from, are_points, points_of, leading_from, leading_of, trim};
ghost use Rattle.fields.specs.Said.{said, or_bad_field};
ghost use Rattle.fields.specs.Fields.{number_says, or_blank};

use types::Fault;

// The byte that has i columns before it.
pub fn column(line: &[u8], i: usize) -> u8
    ensures { result ≡ get_or line.now i blank }
{
    if i < line.len() { line[i] } else { b' ' }
}

pub fn is_digit(c: u8) -> bool
    ensures { result ≡ is_digit c }
{
    c.is_ascii_digit()
}

// What a digit is worth; a blank is worth 0.
fn digit_value(c: u8) -> u32
    ensures { (result ≡ digit_value c) × (result ≤ 207) }
{
    u32::from(c.saturating_sub(b'0'))
}

// The digits in all columns of a field.
fn digits_at(line: &[u8], from: usize, width: usize) -> Result<u32, Fault>
    requires { (from ≤ 65544) × (width ≤ 9) }
    ensures { said result ≡ or_bad_field (the_number (digits_from 0 (cells line.now from width))) }
{
    let mut n: u32 = 0;
    for i in 0..width {
        let c = column(line, from + i);
        if !is_digit(c) {
            return Err(Fault::BadField);
        }
        n = n * 10 + digit_value(c);
    }
    Ok(n)
}

// A number field: blanks, then digits up to its last column. No number where all columns are blank.
pub fn number_at(line: &[u8], from: usize, width: usize) -> Result<Option<u32>, Fault>
    requires { (from ≤ 65535) × (width ≤ 9) }
    ensures { number_says result ≡ or_blank (number_of (cells line.now from width)) }
{
    for i in 0..width {
        if column(line, from + i) != b' ' {
            return digits_at(line, from + i, width - i).map(Some);
        }
    }
    Ok(None)
}

// A number field of four columns or blank, which is 0.
pub fn number_or_blank(line: &[u8], from: usize) -> Result<u32, Fault>
    requires { from ≤ 65535 }
    ensures { said result ≡ or_bad_field (number_or0 (number_of (cells line.now from 4))) }
{
    let n = number_at(line, from, 4)?;
    Ok(n.unwrap_or(0))
}

// The bytes of a field of four columns: whether all are digits, and the number that those make.
fn are_digits(a: u8, b: u8, c: u8, d: u8) -> bool
    ensures { result ≡ all is_digit (a ∷ b ∷ c ∷ d ∷ []) }
{
    is_digit(a) && is_digit(b) && is_digit(c) && is_digit(d)
}

fn decimal(a: u8, b: u8, c: u8, d: u8) -> u32
    ensures { result ≡ decimal_from 0 (a ∷ b ∷ c ∷ d ∷ []) }
{
    digit_value(a) * 1000 + digit_value(b) * 100 + digit_value(c) * 10 + digit_value(d)
}

// Four digits as a number.
fn four_digits(a: u8, b: u8, c: u8, d: u8) -> Result<u32, Fault>
    ensures { said result ≡ or_bad_field (the_number (digits_from 0 (a ∷ b ∷ c ∷ d ∷ []))) }
{
    if are_digits(a, b, c, d) {
        Ok(decimal(a, b, c, d))
    } else {
        Err(Fault::BadField)
    }
}

// A number field of four columns from its bytes, for a caller that has them at hand. A zero in place of a blank leaves the number as it is.
pub fn number_of(a: u8, b: u8, c: u8, d: u8) -> Result<Option<u32>, Fault>
    ensures { number_says result ≡ or_blank (number_of (a ∷ b ∷ c ∷ d ∷ [])) }
{
    if a != b' ' {
        four_digits(a, b, c, d).map(Some)
    } else if b != b' ' {
        four_digits(b'0', b, c, d).map(Some)
    } else if c != b' ' {
        four_digits(b'0', b'0', c, d).map(Some)
    } else if d != b' ' {
        four_digits(b'0', b'0', b'0', d).map(Some)
    } else {
        Ok(None)
    }
}

// Whether a number is 1 to the most that there may be.
pub fn is_counted(n: u32, most: u32) -> bool
    ensures { result ≡ between 1 most n }
{
    1 <= n && n <= most
}

// A number field of four columns whose number is 1 to the most that there may be.
pub fn counted_at(line: &[u8], from: usize, most: u32) -> Result<u32, Fault>
    requires { from ≤ 65535 }
    ensures { said result ≡ or_bad_field (keep (between 1 most) (the_number (number_of (cells line.now from 4)))) }
{
    match number_at(line, from, 4)? {
        Some(n) if is_counted(n, most) => Ok(n),
        _ => Err(Fault::BadField),
    }
}

fn is_tens(c: u8) -> bool
    ensures { result ≡ is_tens c }
{
    c == b' ' || is_digit(c)
}

fn are_points(a: u8, b: u8, c: u8, d: u8) -> bool
    ensures { result ≡ are_points a b c d }
{
    c == b'.' && is_tens(a) && is_digit(b) && is_digit(d)
}

// A points field, which has four columns, in tenths.
pub fn points_at(line: &[u8], from: usize) -> Result<u32, Fault>
    requires { from ≤ 65535 }
    ensures { said result ≡ or_bad_field (points_of (cells line.now from 4)) }
{
    let a = column(line, from);
    let b = column(line, from + 1);
    let c = column(line, from + 2);
    let d = column(line, from + 3);
    if !are_points(a, b, c, d) {
        return Err(Fault::BadField);
    }
    Ok(digit_value(a) * 100 + digit_value(b) * 10 + digit_value(d))
}

// Whether some columns are blank.
pub fn blank_at(line: &[u8], from: usize, width: usize) -> bool
    requires { (from ≤ 65544) × (width ≤ 65535) }
    ensures { result ≡ all is_blank (cells line.now from width) }
{
    for i in 0..width {
        if column(line, from + i) != b' ' {
            return false;
        }
    }
    true
}

// Whether all columns after the first i are blank.
pub fn blank_from(line: &[u8], i: usize) -> bool
    ensures { result ≡ all is_blank (drop i line.now) }
{
    for k in i..line.len() {
        if line[k] != b' ' {
            return false;
        }
    }
    true
}

// Digits, of which there may be none, then blanks.
fn leading_from(line: &[u8], from: usize, width: usize) -> Result<u32, Fault>
    requires { (from ≤ 65535) × (width ≤ 9) }
    ensures { said result ≡ or_bad_field (leading_from 0 (cells line.now from width)) }
{
    let mut n: u32 = 0;
    for i in 0..width {
        let c = column(line, from + i);
        if !is_digit(c) {
            if blank_at(line, from + i, width - i) {
                return Ok(n);
            }
            return Err(Fault::BadField);
        }
        n = n * 10 + digit_value(c);
    }
    Ok(n)
}

// Digits from the first column of a field on, then blanks.
pub fn leading_at(line: &[u8], from: usize, width: usize) -> Result<u32, Fault>
    requires { (from ≤ 65535) × (width ≤ 9) }
    ensures { said result ≡ or_bad_field (leading_of (cells line.now from width)) }
{
    if width == 0 || !is_digit(column(line, from)) {
        return Err(Fault::BadField);
    }
    leading_from(line, from, width)
}

// Whether the line begins with these three bytes.
pub fn has_code(line: &[u8], code: &[u8; 3]) -> bool
    ensures { result ≡ same (cells line.now 0 3) code.now }
{
    let [a, b, c] = *code;
    column(line, 0) == a && column(line, 1) == b && column(line, 2) == c
}

// The line's length without its trailing blanks.
pub fn trimmed(line: &[u8]) -> usize
    ensures { result ≡ length (trim line.now) }
{
    for n in (0..line.len()).rev() {
        if line[n] != b' ' {
            return n + 1;
        }
    }
    0
}
