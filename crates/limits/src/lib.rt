// The numbers that are taken, by kind, and the numbers that refusals answer.
#![tactic(auto)]

ghost use Rattle.std.specs.Prelude.{◌≡◌, true, false, ◌+◌, ◌≤◌, length, ltb};
ghost use Rattle.limits.specs.Numbers.{range_of, in_range, size_of, every, miss, all_in, is_unit, units_in, row_in};
ghost use Rattle.picks.specs.Pick.{pick};
ghost use Rattle.limits.specs.Plain.{inside, within, plain};
ghost use Rattle.limits.specs.Refusals.{lower, list_number, sizes_number};

use ieee::Real;

// ---- what a refusal answers

// Nothing is refused.
pub const TAKEN: u32 = 0;
// A list has more than 1,024 entries.
pub const TOO_LONG: u32 = 1;
// Columns of one list differ in length, or a flat list is odd.
pub const UNEVEN: u32 = 2;
// A beat, or an asked beat or row, is beyond its limit.
pub const BAD_BEAT: u32 = 3;
// A value, a unit or an offset is beyond its limit.
pub const BAD_VALUE: u32 = 4;
// Rows do not rise strictly, the tempos do not start at beat 0, the scrolls that a beat is drawn by fall, or a mark is not that of its timing.
pub const NOT_RISING: u32 = 5;
// Scrolls or speeds: an entry is to be placed in a kept list that falls.
pub const FALLS: u32 = 6;
// A result is longer than its room.
pub const NO_ROOM: u32 = 7;
// SM stops: a warp and no tempo.
pub const NO_TEMPO: u32 = 8;
// A cursor that no question left behind.
pub const BAD_CURSOR: u32 = 9;
// The report program's input is not of its form.
pub const BAD_TEXT: u32 = 10;

// The most entries that a list may have.
pub const MOST_ENTRIES: usize = 1024;

// As many entries as the lists of most charts have. Work columns are of this length where it is enough, since a longer one takes its time to be filled.
pub const FEW: usize = 64;

// The lower of two numbers, where 0 is no refusal.
pub fn lower_of(one: u32, other: u32) -> u32
    ensures { result ≡ lower one other }
{
    if one == TAKEN {
        return other;
    }
    if other == TAKEN {
        return one;
    }
    if one <= other {
        return one;
    }
    other
}

// 7 where a result does not fit its room.
pub fn no_room(fits: bool) -> u32
    ensures { result ≡ pick fits 0 7 }
{
    if fits { TAKEN } else { NO_ROOM }
}

// ---- what is taken

// What a number is for.
#[derive(Clone, Copy)]
pub enum Kind {
    // A beat, asked or of any list but raw tempos and stops.
    Beat,
    // The beat of a raw tempo or stop.
    RawBeat,
    // A raw tempo, or the length of a raw stop.
    RawTempo,
    // A tempo that is given to tidying alone.
    TidyTempo,
    // A tempo of a timing.
    Tempo,
    // A stop or a delay of a timing.
    Pause,
    // Any other value, raw or of a timing.
    Value,
    // An offset.
    Offset,
}

// The sizes that are taken, whether 0 is, and whether what is not finite passes, to be dropped later.
#[derive(Clone, Copy)]
pub struct Range {
    pub least: f64,
    pub most: f64,
    pub zeros: bool,
    pub dropped: bool,
}

// The range of each kind.
pub fn range_of(kind: Kind) -> Range
    ensures { result ≡ range_of kind }
{
    match kind {
        Kind::Beat => Range {
            least: 0.0,
            most: 65536.0,
            zeros: true,
            dropped: false,
        },
        Kind::RawBeat => Range {
            least: 0.0,
            most: 65536.0,
            zeros: true,
            dropped: true,
        },
        Kind::RawTempo => Range {
            least: 9.5367431640625e-7,
            most: 1073741824.0,
            zeros: true,
            dropped: true,
        },
        Kind::TidyTempo => Range {
            least: 9.5367431640625e-7,
            most: 1073741824.0,
            zeros: true,
            dropped: false,
        },
        Kind::Tempo => Range {
            least: 9.5367431640625e-7,
            most: 1073741824.0,
            zeros: false,
            dropped: false,
        },
        Kind::Pause => Range {
            least: 0.0,
            most: 1125899906842624.0,
            zeros: true,
            dropped: false,
        },
        Kind::Value => Range {
            least: 0.0,
            most: 1073741824.0,
            zeros: true,
            dropped: false,
        },
        Kind::Offset => Range {
            least: 0.0,
            most: 1048576.0,
            zeros: true,
            dropped: false,
        },
    }
}

// Whether a number is in a range.
pub fn in_range(range: Range, x: f64) -> bool
    ensures { result ≡ in_range range x }
{
    let size = magnitude(x);
    if size <= range.most {
        if size >= range.least {
            return true;
        }
        if size == 0.0 {
            return range.zeros;
        }
        return false;
    }
    if size < 1.0 / 0.0 {
        return false;
    }
    range.dropped
}

// The size of a number: a NaN stays one.
pub fn magnitude(x: f64) -> f64
    ensures { result ≡ size_of x }
{
    if x < 0.0 { -x } else { x }
}

// Whether a number of a kind is taken.
pub fn taken(kind: Kind, x: f64) -> bool
    ensures { result ≡ in_range (range_of kind) x }
{
    in_range(range_of(kind), x)
}

// Whether a row is within the limit.
pub fn row_taken(row: i32) -> bool
    ensures { result ≡ row_in row }
{
    if row < -3145728 {
        return false;
    }
    row <= 3145728
}

// 1 for a number that is not in a range: a loop that adds it up has no branch.
pub fn one_outside(range: Range, x: f64) -> usize
    ensures { result ≡ miss (in_range range) x }
{
    if in_range(range, x) { 0 } else { 1 }
}

// Whether a number lies strictly between the two numbers of a size.
fn lies_inside(size: f64, x: f64) -> bool
    ensures { result ≡ inside size x }
{
    if -size < x {
        return x < size;
    }
    false
}

// Whether a number lies from one number of a size to the other.
fn lies_within(size: f64, x: f64) -> bool
    ensures { result ≡ within size x }
{
    if -size <= x {
        return x <= size;
    }
    false
}

// Whether a number is in a range by its size alone, which a machine tests for several numbers at a time.
fn is_plain(range: Range, x: f64) -> bool
    ensures { result ≡ plain range x }
{
    if lies_inside(range.least, x) {
        return false;
    }
    lies_within(range.most, x)
}

// 1 for a number that is not.
pub fn one_not_plain(range: Range, x: f64) -> u32
    ensures { result ≡ miss (plain range) x }
{
    if is_plain(range, x) { 0 } else { 1 }
}

// The greater of two numbers: a loop that keeps the worst has no branch.
pub fn worse_of(one: u32, other: u32) -> u32
    ensures { result ≡ pick (ltb one other) other one }
{
    if one < other { other } else { one }
}

fn all_plain<R: Real>(range: Range, column: &[R]) -> bool
    ensures { result ≡ every (plain range) (R.numbers column.now) }
{
    let mut worst: u32 = 0;
    for &x in column {
        worst = worse_of(worst, one_not_plain(range, x.widened()));
    }
    worst == 0
}

fn all_in<R: Real>(range: Range, column: &[R]) -> bool
    ensures { result ≡ all_in range (R.numbers column.now) }
{
    let mut outside: usize = 0;
    for &x in column {
        outside += one_outside(range, x.widened());
    }
    outside == 0
}

// Whether every number of a column is taken.
pub fn column_taken<R: Real>(kind: Kind, column: &[R]) -> bool
    ensures { result ≡ all_in (range_of kind) (R.numbers column.now) }
{
    let range = range_of(kind);
    if all_plain(range, column) {
        return true;
    }
    all_in(range, column)
}

fn one_no_unit(unit: u8) -> usize
    ensures { result ≡ miss is_unit unit }
{
    if unit <= 1 { 0 } else { 1 }
}

// Whether every unit of a column is 0, beats, or 1, seconds.
pub fn units_taken(units: &[u8]) -> bool
    ensures { result ≡ units_in units.now }
{
    let mut outside: usize = 0;
    for &unit in units {
        outside += one_no_unit(unit);
    }
    outside == 0
}

// ---- a list of two columns

// What two columns of a list answer by their lengths alone: 1 for more than 1,024 entries, 2 where they differ, else 0.
pub fn sizes_number(beats: usize, values: usize) -> u32
    ensures { result ≡ sizes_number beats values }
{
    if beats > MOST_ENTRIES {
        return TOO_LONG;
    }
    if values > MOST_ENTRIES {
        return TOO_LONG;
    }
    if beats != values {
        return UNEVEN;
    }
    TAKEN
}

// What a list of beats and values answers by itself: 1, 2, 3 or 4, and 0 where it is taken.
pub fn list_number<R: Real>(beat_kind: Kind, value_kind: Kind, beats: &[R], values: &[R]) -> u32
    ensures { result ≡ list_number (range_of beat_kind) (range_of value_kind) (R.numbers beats.now) (R.numbers values.now) }
{
    if beats.len() > MOST_ENTRIES {
        return TOO_LONG;
    }
    if values.len() > MOST_ENTRIES {
        return TOO_LONG;
    }
    if beats.len() != values.len() {
        return UNEVEN;
    }
    if !column_taken(beat_kind, beats) {
        return BAD_BEAT;
    }
    if !column_taken(value_kind, values) {
        return BAD_VALUE;
    }
    TAKEN
}
