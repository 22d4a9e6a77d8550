// The calls of `ieee` and `rows` under C names, for native programs to link: each by itself, and for each entry of a lent column.
#![tactic(auto)]

ghost use Rattle.std.specs.Prelude.{◌≡◌, not, ℤ, Float};
ghost use Rattle.std.specs.Float.{binary32, binary64};
ghost use Rattle.ieee.specs.Rounding.{rint, hold};
ghost use Rattle.ieee.specs.Narrowing.{narrow};
ghost use Rattle.rows.specs.Rows.{row, beat_of, quantized, quantized32, on_grid};
ghost use Rattle.columns.specs.Each.{laid_each};

use columns::Each;
use rows::Quantized;

// The version of what is linked: 10,000 times its first number, 100 times its second, and its third.
#[unsafe(no_mangle)]
pub extern "C" fn marrighentu_version() -> u32
    ensures { result ≡ 100 }
{
    100
}

// The whole number nearest to x, a tie to the even one, held at the ends of an i32; 0 for what is not finite.
#[unsafe(no_mangle)]
pub extern "C" fn marrighentu_lrint_f64(x: f64) -> i32
    ensures { result ≡ hold (rint x) }
{
    ieee::lrint_f64(x)
}

// The same of an f32.
#[unsafe(no_mangle)]
pub extern "C" fn marrighentu_lrint_f32(x: f32) -> i32
    ensures { result ≡ hold (rint x) }
{
    ieee::lrint_f32(x)
}

// The nearest f32, a tie to the even one.
#[unsafe(no_mangle)]
pub extern "C" fn marrighentu_narrow_f64(x: f64) -> f32
    ensures { result ≡ narrow x }
{
    ieee::narrow_f64(x)
}

// The beat of a row.
#[unsafe(no_mangle)]
pub extern "C" fn marrighentu_note_row_to_beat(row: i32) -> f64
    ensures { result ≡ beat_of binary64 row }
{
    rows::note_row_to_beat(row)
}

// The beat of a row, as an f32.
#[unsafe(no_mangle)]
pub extern "C" fn marrighentu_note_row_to_beat_f32(row: i32) -> f32
    ensures { result ≡ beat_of binary32 row }
{
    rows::note_row_to_beat_f32(row)
}

// The row of a beat, a tie to the even one, held at the ends of an i32.
#[unsafe(no_mangle)]
pub extern "C" fn marrighentu_beat_to_note_row(beat: f64) -> i32
    ensures { result ≡ row binary64 beat }
{
    rows::beat_to_note_row(beat)
}

// The row of an f32 beat, the product rounded to f32.
#[unsafe(no_mangle)]
pub extern "C" fn marrighentu_beat_to_note_row_f32(beat: f32) -> i32
    ensures { result ≡ row binary32 beat }
{
    rows::beat_to_note_row_f32(beat)
}

// A beat moved to its row, through f32 both ways, and whether it was off the grid.
#[unsafe(no_mangle)]
pub extern "C" fn marrighentu_quantize(beat: f64) -> Quantized
    ensures { (result.beat ≡ quantized beat) × (result.off ≡ not (on_grid beat)) }
{
    rows::quantize(beat)
}

// The beat alone.
#[unsafe(no_mangle)]
pub extern "C" fn marrighentu_quantize_beat(beat: f64) -> f64
    ensures { result ≡ quantized beat }
{
    rows::quantize_beat(beat)
}

// An f32 beat moved to its row.
#[unsafe(no_mangle)]
pub extern "C" fn marrighentu_quantize_beat_f32(beat: f32) -> f32
    ensures { result ≡ quantized32 beat }
{
    rows::quantize_beat_f32(beat)
}

// ---- what each of the calls below writes for an entry

// `ieee::lrint_f64` of each entry.
#[derive(Clone, Copy)]
struct LrintF64;

impl Each<f64, i32> for LrintF64 {
    ghost made = { λ _ (x : Float). hold (rint x) };

    fn made(self, entry: f64) -> i32 {
        ieee::lrint_f64(entry)
    }
}

// `ieee::lrint_f32` of each entry.
#[derive(Clone, Copy)]
struct LrintF32;

impl Each<f32, i32> for LrintF32 {
    ghost made = { λ _ (x : Float). hold (rint x) };

    fn made(self, entry: f32) -> i32 {
        ieee::lrint_f32(entry)
    }
}

// `rows::note_row_to_beat` of each entry.
#[derive(Clone, Copy)]
struct NoteRowToBeat;

impl Each<i32, f64> for NoteRowToBeat {
    ghost made = { λ _ (row : ℤ). beat_of binary64 row };

    fn made(self, entry: i32) -> f64 {
        rows::note_row_to_beat(entry)
    }
}

// `rows::note_row_to_beat_f32` of each entry.
#[derive(Clone, Copy)]
struct NoteRowToBeatF32;

impl Each<i32, f32> for NoteRowToBeatF32 {
    ghost made = { λ _ (row : ℤ). beat_of binary32 row };

    fn made(self, entry: i32) -> f32 {
        rows::note_row_to_beat_f32(entry)
    }
}

// `rows::beat_to_note_row` of each entry.
#[derive(Clone, Copy)]
struct BeatToNoteRow;

impl Each<f64, i32> for BeatToNoteRow {
    ghost made = { λ _ (beat : Float). row binary64 beat };

    fn made(self, entry: f64) -> i32 {
        rows::beat_to_note_row(entry)
    }
}

// `rows::beat_to_note_row_f32` of each entry.
#[derive(Clone, Copy)]
struct BeatToNoteRowF32;

impl Each<f32, i32> for BeatToNoteRowF32 {
    ghost made = { λ _ (beat : Float). row binary32 beat };

    fn made(self, entry: f32) -> i32 {
        rows::beat_to_note_row_f32(entry)
    }
}

// `rows::quantize_beat` of each entry.
#[derive(Clone, Copy)]
struct QuantizeBeat;

impl Each<f64, f64> for QuantizeBeat {
    ghost made = { λ _ (beat : Float). quantized beat };

    fn made(self, entry: f64) -> f64 {
        rows::quantize_beat(entry)
    }
}

// `rows::quantize_beat_f32` of each entry.
#[derive(Clone, Copy)]
struct QuantizeBeatF32;

impl Each<f32, f32> for QuantizeBeatF32 {
    ghost made = { λ _ (beat : Float). quantized32 beat };

    fn made(self, entry: f32) -> f32 {
        rows::quantize_beat_f32(entry)
    }
}

// Each call below writes what the call above answers for entry i of its first list into entry i of its second, for every i that both have, and nothing else.

// The nearest whole number of each f64.
#[unsafe(no_mangle)]
pub extern "C" fn marrighentu_each_lrint_f64(from: &[f64], to: &mut [i32])
    ensures { to.new ≡ laid_each (λ (x : Float). hold (rint x)) from.now to.old }
{
    columns::lay_each(from, to, LrintF64);
}

// The nearest whole number of each f32.
#[unsafe(no_mangle)]
pub extern "C" fn marrighentu_each_lrint_f32(from: &[f32], to: &mut [i32])
    ensures { to.new ≡ laid_each (λ (x : Float). hold (rint x)) from.now to.old }
{
    columns::lay_each(from, to, LrintF32);
}

// The nearest f32 of each f64.
#[unsafe(no_mangle)]
pub extern "C" fn marrighentu_each_narrow_f64(from: &[f64], to: &mut [f32])
    ensures { to.new ≡ laid_each narrow from.now to.old }
{
    columns_each::narrow_column(from, to);
}

// The beat of each row.
#[unsafe(no_mangle)]
pub extern "C" fn marrighentu_each_note_row_to_beat(rows: &[i32], beats: &mut [f64])
    ensures { beats.new ≡ laid_each (beat_of binary64) rows.now beats.old }
{
    columns::lay_each(rows, beats, NoteRowToBeat);
}

// The f32 beat of each row.
#[unsafe(no_mangle)]
pub extern "C" fn marrighentu_each_note_row_to_beat_f32(rows: &[i32], beats: &mut [f32])
    ensures { beats.new ≡ laid_each (beat_of binary32) rows.now beats.old }
{
    columns::lay_each(rows, beats, NoteRowToBeatF32);
}

// The row of each beat.
#[unsafe(no_mangle)]
pub extern "C" fn marrighentu_each_beat_to_note_row(beats: &[f64], rows: &mut [i32])
    ensures { rows.new ≡ laid_each (row binary64) beats.now rows.old }
{
    columns::lay_each(beats, rows, BeatToNoteRow);
}

// The row of each f32 beat.
#[unsafe(no_mangle)]
pub extern "C" fn marrighentu_each_beat_to_note_row_f32(beats: &[f32], rows: &mut [i32])
    ensures { rows.new ≡ laid_each (row binary32) beats.now rows.old }
{
    columns::lay_each(beats, rows, BeatToNoteRowF32);
}

// Each beat moved to its row.
#[unsafe(no_mangle)]
pub extern "C" fn marrighentu_each_quantize_beat(beats: &[f64], quantised: &mut [f64])
    ensures { quantised.new ≡ laid_each quantized beats.now quantised.old }
{
    columns::lay_each(beats, quantised, QuantizeBeat);
}

// Each f32 beat moved to its row.
#[unsafe(no_mangle)]
pub extern "C" fn marrighentu_each_quantize_beat_f32(beats: &[f32], quantised: &mut [f32])
    ensures { quantised.new ≡ laid_each quantized32 beats.now quantised.old }
{
    columns::lay_each(beats, quantised, QuantizeBeatF32);
}
