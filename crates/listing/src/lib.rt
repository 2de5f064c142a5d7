// The listing of a reading, as bytes: a line for the answer, then one for each player. Promised: which bytes are written, and that every other byte of
// the lent room stays. Nothing here reads or writes a file.
#![tactic(auto)]

mod lent;

ghost use Rattle.std.specs.Prelude.{◌+◌, ◌*◌, ◌≤◌, ◌<◌, length};
ghost use Rattle.law.specs.Sizes.{most_players, most_rounds};
ghost use Rattle.law.specs.Writing.{filled, nothing};
ghost use Rattle.listing.specs.Put.{Put};
ghost use Rattle.listing.specs.Lent.{six, ShowsListed};
ghost use Rattle.listing.specs.Listing.{decimal, field, entry_field, entry_fields, standing, player_line, player_lines, answer_line, listing, most_player_line, most_answer_line, most_listing, refused_listing};

pub use lent::ListedTables;
use tables::Tables;
use types::{Answer, LF, Place, Rank, StartNumber};

// The most digits of a number.
const DIGITS: usize = 10;

// The most bytes of a whole listing, of the answer's line in it, and of a player's.
pub const LISTING: usize = ANSWER_LINE + types::MOST_PLAYERS * PLAYER_LINE;

pub const ANSWER_LINE: usize = 42;

const PLAYER_LINE: usize = 293;

const TAB: u8 = b'\t';

impl<'t> ListedTables<'t> {
    // Those of all that a call is lent.
    pub fn of(tables: &Tables<'t>) -> ListedTables<'t>
        ensures { ShowsListed result tables.now }
    {
        ListedTables {
            starts: tables.starts,
            points: tables.points,
            ranks: tables.ranks,
            opponents: tables.opponents,
            colours: tables.colours,
            results: tables.results,
        }
    }
}

// The digits of a number, the last `most` of them at most. By recursion, since the first is known last, and how many there are with it.
fn put_digits(out: &mut [u8], at: usize, n: u32, most: usize) -> usize
    requires { at + most ≤ length out.old }
    ensures put { Put (filled nothing most n) at out.old result out.new }
    ensures within { result ≤ at + most }
{
    if most == 0 {
        return at;
    }
    if n / 10 == 0 {
        return puts::put(out, at, &[puts::digit(n)]);
    }
    let end = put_digits(out, at, n / 10, most - 1);
    puts::put(out, end, &[puts::digit(n)])
}

// A number in decimal, with no filling.
fn put_number(out: &mut [u8], at: usize, n: u32) -> usize
    requires { at + 10 ≤ length out.old }
    ensures put { Put (decimal n) at out.old result out.new }
    ensures within { result ≤ at + 10 }
{
    put_digits(out, at, n, DIGITS)
}

// A tab and a number.
fn put_field(out: &mut [u8], at: usize, n: u32) -> usize
    requires { at + 11 ≤ length out.old }
    ensures put { Put (field n) at out.old result out.new }
    ensures within { result ≤ at + 11 }
{
    let end = puts::put(out, at, &[TAB]);
    put_number(out, end, n)
}

// A tab and an entry: id, colour and result with nothing between.
fn put_entry(out: &mut [u8], at: usize, id: StartNumber, colour: u8, res: u8) -> usize
    requires { at + 13 ≤ length out.old }
    ensures put { Put (entry_field id.0 colour res) at out.old result out.new }
    ensures within { result ≤ at + 13 }
{
    let of_id = put_field(out, at, id.0);
    puts::put(out, of_id, &[colour, res])
}

// A player's entries, round by round: the loop of `player_lines::put_entries`, but other bytes, and another contract.
fn put_entries(
    out: &mut [u8],
    at: usize,
    tables: &ListedTables<'_>,
    place: Place,
    rounds: u32,
) -> usize
    requires place { place.0 < most_players }
    requires rounds { rounds ≤ most_rounds }
    requires room { at + 13 * rounds ≤ length out.old }
    ensures put { Put (entry_fields tables.now.opponents.now tables.now.colours.now tables.now.results.now place.0 rounds) at out.old result out.new }
    ensures within { result ≤ at + 13 * rounds }
{
    let mut end = at;
    for done in 0..rounds {
        let round = done + 1;
        let id = tables::opponent_at(tables.opponents, place, round);
        let colour = tables::letter_at(tables.colours, place, round);
        let res = tables::letter_at(tables.results, place, round);
        end = put_entry(out, end, id, colour, res);
    }
    end
}

// Start number, points in tenths and rank.
fn put_standing(out: &mut [u8], at: usize, start: StartNumber, points: u32, rank: Rank) -> usize
    requires { at + 32 ≤ length out.old }
    ensures put { Put (standing start.0 points rank.0) at out.old result out.new }
    ensures within { result ≤ at + 32 }
{
    let of_start = put_number(out, at, start.0);
    let of_points = put_field(out, of_start, points);
    put_field(out, of_points, rank.0)
}

// A player's line.
fn put_player(
    out: &mut [u8],
    at: usize,
    tables: &ListedTables<'_>,
    place: Place,
    rounds: u32,
) -> usize
    requires place { place.0 < most_players }
    requires rounds { rounds ≤ most_rounds }
    requires room { at + most_player_line ≤ length out.old }
    ensures put { Put (player_line (six tables.now) rounds place.0) at out.old result out.new }
    ensures within { result ≤ at + most_player_line }
{
    let start = tables::start_at(tables.starts, place);
    let points = tables::points_at(tables.points, place);
    let rank = tables::rank_at(tables.ranks, place);
    let of_standing = put_standing(out, at, start, points, rank);
    let of_entries = put_entries(out, of_standing, tables, place, rounds);
    puts::put(out, of_entries, &[LF])
}

// The players' lines, in the order of the tables.
fn put_players(
    out: &mut [u8],
    at: usize,
    tables: &ListedTables<'_>,
    players: u32,
    rounds: u32,
) -> usize
    requires players { players ≤ most_players }
    requires rounds { rounds ≤ most_rounds }
    requires room { at + most_player_line * players ≤ length out.old }
    ensures put { Put (player_lines (six tables.now) rounds players) at out.old result out.new }
    ensures within { result ≤ at + most_player_line * players }
{
    let mut end = at;
    for place in 0..players {
        end = put_player(out, end, tables, Place(place), rounds);
    }
    end
}

// A word and three numbers: the answer's line.
fn put_answer(out: &mut [u8], word: &[u8], first: u32, second: u32, third: u32) -> usize
    requires word { length word.now ≤ 8 }
    requires room { most_answer_line ≤ length out.old }
    ensures put { Put (answer_line word.now first second third) 0 out.old result out.new }
    ensures within { result ≤ most_answer_line }
{
    let of_word = puts::put(out, 0, word);
    let of_first = put_field(out, of_word, first);
    let of_second = put_field(out, of_first, second);
    let of_third = put_field(out, of_second, third);
    puts::put(out, of_third, &[LF])
}

// The one line of a refusal.
pub fn put_refused(out: &mut [u8], answer: Answer) -> usize
    requires { most_answer_line ≤ length out.old }
    ensures put { Put (refused_listing answer) 0 out.old result out.new }
    ensures within { result ≤ most_answer_line }
{
    put_answer(out, b"refused", answer.number, answer.line.0, answer.round)
}

// The whole listing, from the first byte on. The tables are not looked at after a refusal.
pub fn put_listing(out: &mut [u8], answer: Answer, tables: &ListedTables<'_>) -> usize
    requires room { most_listing ≤ length out.old }
    requires players { answer.players ≤ most_players }
    requires rounds { answer.rounds ≤ most_rounds }
    ensures put { Put (listing answer (six tables.now)) 0 out.old result out.new }
    ensures within { result ≤ most_listing }
{
    if answer.number != 0 {
        return put_refused(out, answer);
    }
    let end = put_answer(
        out,
        b"accepted",
        answer.players,
        answer.rounds,
        answer.accelerations,
    );
    put_players(out, end, tables, answer.players, answer.rounds)
}
