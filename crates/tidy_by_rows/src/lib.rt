// Beats by their rows: whether rows never fall or rise, the place after a row, and allowed beats moved to their rows.
#![tactic(auto)]

ghost use Rattle.std.specs.Prelude.{◌≡◌, true, false, T, Float};
ghost use Rattle.std.specs.Float.{nan};
ghost use Rattle.picks.specs.Pick.{pick};
ghost use Rattle.rows.specs.Rows.{allowed_beat};
ghost use Rattle.limits.specs.Numbers.{range_of, all_in, miss};
ghost use Rattle.limits.specs.Neighbours.{every_two};
ghost use Rattle.columns.specs.Each.{laid_each};
ghost use Rattle.order.specs.Order.{never_falls};
ghost use Rattle.rows.specs.RowKey.{row_key_at, beat_on_row};
ghost use Rattle.tidy_kept.specs.Searching.{place_after};
ghost use Rattle.tidy_by_rows.specs.ByMarks.{row_rises, on_marked_row};

use limits::Kind;

// Whether no row is below the one before it.
pub fn in_order(beats: &[f64]) -> bool
    ensures { result ≡ never_falls row_key_at beats.now }
{
    let mut last = 0;
    for &beat in beats {
        let row = rows::row_key(beat);
        if row < last {
            return false;
        }
        last = row;
    }
    true
}

// How many beats, whose rows never fall, are on rows up to one (`found`, a law of `keeping`): a search by halves.
pub fn place_after(beats: &[f64], row: u32) -> usize
    ensures { result ≡ place_after row_key_at nan beats.now row }
{
    let mut low = 0;
    let mut high = beats.len();
    while low < high {
        let middle = low + (high - low) / 2;
        if rows::row_key(beats[middle]) <= row {
            low = middle + 1;
            continue;
        }
        high = middle;
    }
    low
}

// ---- allowed beats, several at a time

// 1 where the next beat is on no later row, else 0.
fn not_later(beat: f64, next: f64) -> usize
    requires { T (allowed_beat beat) × T (allowed_beat next) }
    ensures { result ≡ miss (λ (e : Float × Float). row_rises e.0 e.1) (beat, next) }
{
    if rows::row_mark(beat) < rows::row_mark(next) {
        0
    } else {
        1
    }
}

fn allowed_rise(beats: &[f64]) -> bool
    requires { all_in (range_of Kind.Beat) beats.now ≡ true }
    ensures { result ≡ every_two row_rises beats.now }
{
    let mut fail: usize = 0;
    for i in 1..beats.len() {
        fail += not_later(beats[i - 1], beats[i]);
    }
    fail == 0
}

// Whether every beat is allowed and on a later row than the one before it.
pub fn rise(beats: &[f64]) -> bool
    ensures { result ≡ pick (all_in (range_of Kind.Beat) beats.now) (every_two row_rises beats.now) false }
{
    if limits::column_taken(Kind::Beat, beats) {
        return allowed_rise(beats);
    }
    false
}

// Each beat moved to its row by the mark, which is right for allowed beats, as far as both columns go.
pub fn lay_on_rows(beats: &[f64], to: &mut [f64])
    ensures { to.new ≡ laid_each on_marked_row beats.now to.old }
{
    let n = columns::room_of(beats.len(), to.len());
    for (i, &beat) in beats[..n].iter().enumerate() {
        to[i] = rows::beat_of_mark(rows::row_mark(beat));
    }
}

// Each beat moved to its row, whatever it is, as far as both columns go.
pub fn lay_each_on_row(beats: &[f64], to: &mut [f64])
    ensures { to.new ≡ laid_each beat_on_row beats.now to.old }
{
    let n = columns::room_of(beats.len(), to.len());
    for (i, &beat) in beats[..n].iter().enumerate() {
        to[i] = rows::on_row(beat);
    }
}
