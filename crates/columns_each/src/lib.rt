// Loops that write a column: each writes what becomes of entry i of the first column into entry i of the second, for every i that both have.
#![tactic(auto)]

ghost use Rattle.std.specs.Prelude.{◌≡◌, ◌≤◌, length, take, Float};
ghost use Rattle.ieee.specs.Narrowing.{narrow};
ghost use Rattle.rows.specs.Rows.{quantized, quantized32, on_grid32};
ghost use Rattle.limits.specs.Numbers.{miss};
ghost use Rattle.columns.specs.Each.{laid_each};
ghost use Rattle.columns_each.specs.OffGrid.{moved_in, moved_under, round_count};
ghost use Rattle.columns_each.specs.inside.CountedFront.{FrontCounted};

use columns::{Each, Outcome};

// ---- numbers

// A beat moved to its row, as an f32, in which it loses nothing.
fn quantized_f32(beat: f64) -> f32
    ensures { result ≡ quantized beat }
{
    rows::quantize_beat_f32(ieee::narrow_f64(beat))
}

// The same as an f64. It is never a NaN, so the cast is plain, and a loop of it has no branch.
fn quantized_f64(beat: f64) -> f64
    ensures { result ≡ quantized beat }
{
    quantized_f32(beat) as f64
}

// A number as an f32.
#[derive(Clone, Copy)]
struct Narrowed;

impl Each<f64, f32> for Narrowed {
    ghost made = { λ _ (x : Float). narrow x };

    fn made(self, number: f64) -> f32 {
        ieee::narrow_f64(number)
    }
}

// Each number as an f32.
pub fn narrow_column(from: &[f64], to: &mut [f32])
    ensures { to.new ≡ laid_each narrow from.now to.old }
{
    columns::lay_each(from, to, Narrowed);
}

// ---- quantising: narrowed in one loop and moved to rows in the next, since one loop of both waits on the chain from one to the other

// A beat moved to its row.
#[derive(Clone, Copy)]
struct QuantizedBeat;

impl Each<f64, f64> for QuantizedBeat {
    ghost made = { λ _ (beat : Float). quantized beat };

    fn made(self, beat: f64) -> f64 {
        quantized_f64(beat)
    }
}

// Each beat moved to its row, in a column of any length.
fn quantize_each(from: &[f64], to: &mut [f64])
    ensures { to.new ≡ laid_each quantized from.now to.old }
{
    columns::lay_each(from, to, QuantizedBeat);
}

// An f32 moved to its row.
#[derive(Clone, Copy)]
struct MovedToRow;

impl Each<f32, f64> for MovedToRow {
    ghost made = { λ _ (beat : Float). quantized32 beat };

    fn made(self, beat: f32) -> f64 {
        std::num::f32_to_f64_with_nan(rows::quantize_beat_f32(beat))
    }
}

// Each f32 moved to its row.
pub fn move_narrowed(from: &[f32], to: &mut [f64])
    ensures { to.new ≡ laid_each (λ (beat : Float). quantized32 beat) from.now to.old }
{
    columns::lay_each(from, to, MovedToRow);
}

// By way of a column as long as the first.
fn quantize_by(from: &[f64], narrowed: &mut [f32], to: &mut [f64])
    requires { length from.now ≡ length narrowed.old }
    ensures { to.new ≡ laid_each quantized from.now to.old }
{
    narrow_column(from, narrowed);
    move_narrowed(narrowed, to);
}

// By way of a column of N.
fn quantize_within<const N: usize>(from: &[f64], to: &mut [f64])
    requires { (length from.now ≤ N) × (N ≤ 1024) }
    ensures { to.new ≡ laid_each quantized from.now to.old }
{
    let n = from.len();
    let mut narrowed = [0.0f32; N];
    quantize_by(from, &mut narrowed[..n], to);
}

// Each beat moved to its row.
pub fn quantize_column(from: &[f64], to: &mut [f64])
    ensures { to.new ≡ laid_each quantized from.now to.old }
{
    if from.len() <= limits::FEW {
        quantize_within::<{ limits::FEW }>(from, to);
        return;
    }
    if from.len() <= limits::MOST_ENTRIES {
        quantize_within::<{ limits::MOST_ENTRIES }>(from, to);
        return;
    }
    quantize_each(from, to);
}

// The first n, each an f32 already, moved to their rows.
fn quantize_front(column: &mut [f32], n: usize)
    requires { n ≤ length column.old }
    ensures { column.new ≡ laid_each (λ (beat : Float). quantized32 beat) (take n column.old) column.old }
{
    for i in 0..n {
        column[i] = rows::quantize_beat_f32(column[i]);
    }
}

// The same into a column of f32.
pub fn quantize_column_f32(from: &[f64], to: &mut [f32])
    ensures { to.new ≡ laid_each quantized from.now to.old }
{
    let n = columns::room_of(from.len(), to.len());
    narrow_column(from, to);
    quantize_front(to, n);
}

// ---- beats: quantised, and counted in the same pass where they were off the grid

// 1 where a beat and what quantising makes of it differ, else 0: a loop that adds it up has no branch. A u32, since a loop over f32s that counts in 64 bits
// does half as many at a time.
fn apart(beat: f32, moved: f32) -> u32
    requires { moved ≡ quantized32 beat }
    ensures { result ≡ miss on_grid32 beat }
{
    if beat == moved { 0 } else { 1 }
}

// The first n, each an f32 already, moved to their rows; how many of them were off the grid.
fn count_front(column: &mut [f32], n: usize) -> u32
    requires { n ≤ length column.old }
    ensures { FrontCounted n column.old column.new result }
{
    let mut off: u32 = 0;
    for i in 0..n {
        let beat = column[i];
        let moved = rows::quantize_beat_f32(beat);
        off = std::num::wrapping_add_u32(off, apart(beat, moved));
        column[i] = moved;
    }
    off
}

// As `quantize_column_f32`; how many of the beats were off the grid.
pub fn quantize_beats(from: &[f64], to: &mut [f32]) -> u32
    ensures to_after { to.new ≡ laid_each quantized from.now to.old }
    ensures value { result ≡ round_count (moved_in (take (length to.old) from.now)) }
{
    let n = columns::room_of(from.len(), to.len());
    narrow_column(from, to);
    count_front(to, n)
}

// What became of a list, and how many of its beats were off the grid: none of a list that is refused.
#[repr(C)]
#[derive(Clone, Copy)]
pub struct ListOutcome {
    pub outcome: Outcome,
    pub moved: u32,
}

pub fn with_moved(outcome: Outcome, moved: u32) -> ListOutcome
    ensures { (result.outcome ≡ outcome) × (result.moved ≡ moved_under outcome.number moved) }
{
    let number = outcome.number;
    let counted = if number == limits::TAKEN { moved } else { 0 };
    ListOutcome {
        outcome: outcome,
        moved: counted,
    }
}
