// The 70 columns 10-79 of a 001 line, which are kept byte by byte: taken from the line, and whether they keep to their rules.
#![tactic(auto)]

ghost use Rattle.std.specs.Prelude.{◌≡◌, [], ◌∷◌, ◌++◌, ◌-◌, ◌≤◌, ◌<◌, length, replicate, get_or};
ghost use Rattle.kit.specs.Lists.{among, is_one_of};
ghost use Rattle.law.specs.Columns.{blank, cells, part, else_blank};
ghost use Rattle.law.specs.Fields.{has_shape};
ghost use Rattle.law.specs.Players.{kept_field, kept_fields, in_line, sexes, titles, is_birth};
ghost use Rattle.law.proofs.RecordsRead.{is_kept};
ghost use Rattle.kept_columns.specs.Kept.{grades, fits_shape, date_shape};

use types::KEPT_COLUMNS;

// How many columns stand before the kept ones.
const BEFORE_KEPT: usize = 9;

// The columns up to the last kept one.
const KEPT_END: usize = BEFORE_KEPT + KEPT_COLUMNS;

// The columns that there are, then blanks: "Columns past the end of a line read as blank."
pub fn widened<const N: usize>(columns: &[u8]) -> [u8; N]
    requires { length columns.now ≤ N }
    ensures { result ≡ columns.now ++ replicate (N - length columns.now) blank }
{
    let mut wide = [b' '; N];
    wide[..columns.len()].copy_from_slice(columns);
    wide
}

// The 70 columns 10-79 of a line. A line that has them all is asked first, so that its copy has a known length.
pub fn kept_of(line: &[u8]) -> [u8; KEPT_COLUMNS]
    ensures { result ≡ part kept_field line.now }
{
    if KEPT_END <= line.len() {
        widened(&line[BEFORE_KEPT..KEPT_END])
    } else if BEFORE_KEPT <= line.len() {
        widened(&line[BEFORE_KEPT..])
    } else {
        widened(&[])
    }
}

fn is_sex(c: u8) -> bool
    ensures { result ≡ is_one_of (c ∷ []) sexes }
{
    matches!(c, b'm' | b'w' | b' ')
}

// G, I, F or C: what stands before M in a title.
fn is_grade(c: u8) -> bool
    ensures { result ≡ among c grades }
{
    matches!(c, b'G' | b'I' | b'F' | b'C')
}

fn is_title(a: u8, b: u8, c: u8) -> bool
    ensures { result ≡ is_one_of (a ∷ b ∷ c ∷ []) titles }
{
    match (a, b, c) {
        (b'W', grade, b'M') | (grade, b'M', b' ') => is_grade(grade),
        (b' ', b' ', b' ') => true,
        _ => false,
    }
}

// Whether a byte may stand in the i-th column of a date YYYY/MM/DD.
fn fits_date(i: usize, c: u8) -> bool
    requires { i < 10 }
    ensures { result ≡ fits_shape (get_or date_shape i 0) c }
{
    if i == 4 || i == 7 {
        c == b'/'
    } else {
        fields::is_digit(c)
    }
}

fn is_date(line: &[u8], from: usize) -> bool
    requires { from ≤ 65535 }
    ensures { result ≡ has_shape date_shape (cells line.now from 10) }
{
    for i in 0..10 {
        if !fits_date(i, fields::column(line, from + i)) {
            return false;
        }
    }
    true
}

fn is_birth(line: &[u8], from: usize) -> bool
    requires { from ≤ 65535 }
    ensures { result ≡ is_birth (cells line.now from 10) }
{
    fields::blank_at(line, from, 10) || is_date(line, from)
}

fn kept_gaps_blank(kept: [u8; KEPT_COLUMNS]) -> bool
    ensures { result ≡ else_blank kept_field.0 kept_fields (in_line kept) }
{
    kept[4] == b' ' && kept[38] == b' ' && kept[43] == b' ' && kept[47] == b' ' && kept[59] == b' '
}

// Sex, title, rating and birth date in the kept columns, and blanks between the fields.
pub fn is_kept(kept: [u8; KEPT_COLUMNS]) -> bool
    ensures { result ≡ is_kept kept }
{
    is_sex(kept[0])
        && is_title(kept[1], kept[2], kept[3])
        && is_birth(&kept, 60)
        && kept_gaps_blank(kept)
        && fields::number_or_blank(&kept, 39).is_ok()
}
