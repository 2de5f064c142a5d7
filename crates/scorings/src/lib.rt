// A 162 line, by value: the values of W D L A P X that it gives, and of those that it does not the defaults, or for P and X the event's own W and D. A line against its rule is
// Fault::BadField.
#![tactic(auto)]

ghost use Rattle.std.specs.Prelude.{◌≡◌, true, cond, not, List, [], ◌∷◌, ℕ, ◌≤◌, ◌<◌};
ghost use Rattle.std.proofs.Math.Option.{some};
ghost use Rattle.kit.specs.Lists.{among};
ghost use Rattle.kit.specs.Decides.{to, when};
ghost use Rattle.law.specs.Columns.{cells, else_blank, after_code};
ghost use Rattle.law.specs.Scoring.{letters, letters_of, slot_fields};
ghost use Rattle.law.proofs.RecordsRead.{value_of, given_of};
ghost use Rattle.fields.specs.Said.{says, said, or_bad_field};
ghost use Rattle.scorings.specs.Scoring.{letter_place, placed, slots_in, follower_of, given_by, slots_give, scored};

use types::{ABSENT, DRAW, Fault, LOSS, PAIRING, UNKNOWN, VALUES, WIN};

// What W, D, L, A, P and X are worth, in tenths.
#[derive(Clone, Copy)]
pub struct Scoring {
    pub values: [u32; VALUES],
}

// What the filled slots of a 162 line give: which letters they have, and the values.
#[derive(Clone, Copy)]
struct Given {
    seen: [bool; VALUES],
    scoring: Scoring,
}

// The place of a letter among W D L A P X; none for any other byte.
#[tactic(auto, unfolding(crate::specs::Scoring::letter_place))]
fn letter_place(c: u8) -> Option<usize>
    ensures { result ≡ cond (among c letters) (Some (letter_place c)) None }
{
    match c {
        b'W' => Some(WIN),
        b'D' => Some(DRAW),
        b'L' => Some(LOSS),
        b'A' => Some(ABSENT),
        b'P' => Some(PAIRING),
        b'X' => Some(UNKNOWN),
        _ => None,
    }
}

// A filled slot: its letter's place, and its points.
fn value_at(line: &[u8], from: usize) -> Result<(usize, u32), Fault>
    requires { from ≤ 65534 }
    ensures { said result ≡ or_bad_field (to placed (value_of (cells line.now from 5))) }
{
    let place = letter_place(fields::column(line, from)).ok_or(Fault::BadField)?;
    let points = fields::points_at(line, from + 1)?;
    Ok((place, points))
}

// Where a value stands too while none is given there: W's at P's place, D's at X's. Any other stands at its own place alone.
fn follower_of(place: usize) -> usize
    requires { place < 6 }
    ensures { (result ≡ follower_of place) × (result < 6) }
{
    match place {
        WIN => PAIRING,
        DRAW => UNKNOWN,
        _ => place,
    }
}

impl Given {
    // No slot filled.
    const NOTHING: Given = Given {
        seen: [false; VALUES],
        scoring: Scoring::DEFAULTS,
    };

    // One value more, of a letter that none of these has, at its place and at its follower's: a P or X that is not given takes the event's own W or D.
    fn with(self, place: usize, points: u32) -> Result<Given, Fault>
        requires { place < 6 }
        ensures { (given : List (ℕ × ℕ)) (letter : ℕ) → among letter letters ≡ true → place ≡ letter_place letter → self ≡ given_by given → said result ≡ or_bad_field (when (not (among letter (letters_of given))) (some (given_by ((letter, points) ∷ given)))) }
    {
        if self.seen[place] {
            return Err(Fault::BadField);
        }
        let follower = follower_of(place);
        let own = self.seen[follower];
        let mut more = self;
        if !own {
            more.scoring.values[follower] = points;
        }
        more.scoring.values[place] = points;
        more.seen[place] = true;
        Ok(more)
    }
}

// One slot more, before those that are given: a blank one has only blank ones after it, and a filled one has a letter of its own.
fn with_slot(line: &[u8], from: usize, given: Option<Given>) -> Result<Option<Given>, Fault>
    requires { from ≤ 65534 }
    ensures { (after : List (List ℕ)) → says given ≡ slots_give after → said result ≡ slots_give (cells line.now from 5 ∷ after) }
{
    if fields::blank_at(line, from, 5) {
        return if given.is_some() {
            Err(Fault::BadField)
        } else {
            Ok(None)
        };
    }
    let (place, points) = value_at(line, from)?;
    given
        .unwrap_or(Given::NOTHING)
        .with(place, points)
        .map(Some)
}

// The six slots, from the last to the first; nothing where none is filled.
fn slots_given(line: &[u8]) -> Result<Option<Given>, Fault>
    ensures { said result ≡ slots_give (slots_in line.now) }
{
    let mut given = None;
    for i in (0..VALUES).rev() {
        given = with_slot(line, 5 + 9 * i, given)?;
    }
    Ok(given)
}

fn scoring_else_blank(line: &[u8]) -> bool
    ensures { result ≡ else_blank after_code slot_fields line.now }
{
    fields::blank_at(line, 3, 2)
        && fields::blank_at(line, 10, 4)
        && fields::blank_at(line, 19, 4)
        && fields::blank_at(line, 28, 4)
        && fields::blank_at(line, 37, 4)
        && fields::blank_at(line, 46, 4)
        && fields::blank_from(line, 55)
}

impl Scoring {
    // What holds where no line says otherwise: W 1.0, D 0.5, L 0.0, A 0.0, P 1.0, X 0.5.
    pub const DEFAULTS: Scoring = Scoring {
        values: [10, 5, 0, 0, 10, 5],
    };

    // A letter that is not given keeps its default; P and X take the event's own W and D.
    pub fn from_line(line: &[u8]) -> Result<Scoring, Fault>
        ensures { said result ≡ or_bad_field (to scored (given_of line.now)) }
    {
        if !scoring_else_blank(line) {
            return Err(Fault::BadField);
        }
        let given = slots_given(line)?.ok_or(Fault::BadField)?;
        Ok(given.scoring)
    }
}
