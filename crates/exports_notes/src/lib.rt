// The calls of the crates about notes, and the multiply-add, under C names, for native programs to link.
#![tactic(auto)]

ghost use Rattle.std.specs.Prelude.{◌≡◌};
ghost use Rattle.std.specs.Float.{binary32, binary64};
ghost use Rattle.ieee_mul_add.specs.MulAdd.{mul_add};
ghost use Rattle.notes_displayed.specs.Answers.{displayed_at, checked_at, PrefixLaid};
ghost use Rattle.notes_rows.specs.RowBeats.{RowsToBeats};

use columns::Outcome;
use notes_displayed::Displayed;

// x * y + z with one rounding.
#[unsafe(no_mangle)]
pub extern "C" fn marrighentu_mul_add_f64(x: f64, y: f64, z: f64) -> f64
    ensures { result ≡ mul_add binary64 x y z }
{
    ieee_mul_add::mul_add_f64(x, y, z)
}

// The same of f32s.
#[unsafe(no_mangle)]
pub extern "C" fn marrighentu_mul_add_f32(x: f32, y: f32, z: f32) -> f32
    ensures { result ≡ mul_add binary32 x y z }
{
    ieee_mul_add::mul_add_f32(x, y, z)
}

// Where a beat is drawn; all is tested at each question.
#[unsafe(no_mangle)]
pub extern "C" fn marrighentu_get_displayed_beat(
    scroll_beats: &[f32],
    scroll_ratios: &[f32],
    beat: f64,
) -> Displayed
    ensures { result ≡ displayed_at scroll_beats.now scroll_ratios.now beat }
{
    notes_displayed::get_displayed_beat(scroll_beats, scroll_ratios, beat)
}

// The test of the scrolls, once, and what the player's question needs of them.
#[unsafe(no_mangle)]
pub extern "C" fn marrighentu_build_scroll_prefix(
    scroll_beats: &[f32],
    scroll_ratios: &[f32],
    prefix: &mut [f64],
) -> Outcome
    ensures { PrefixLaid scroll_beats.now scroll_ratios.now result prefix.old prefix.new }
{
    notes_displayed::build_scroll_prefix(scroll_beats, scroll_ratios, prefix)
}

// Where a beat is drawn, by scrolls that were tested and their prefix.
#[unsafe(no_mangle)]
pub extern "C" fn marrighentu_get_displayed_beat_checked(
    scroll_beats: &[f32],
    scroll_ratios: &[f32],
    prefix: &[f64],
    beat: f64,
) -> Displayed
    ensures { result ≡ checked_at scroll_beats.now scroll_ratios.now prefix.now beat }
{
    notes_displayed::get_displayed_beat_checked(scroll_beats, scroll_ratios, prefix, beat)
}

// The beat of each row of note data.
#[unsafe(no_mangle)]
pub extern "C" fn marrighentu_compute_row_to_beat(note_data: &[u8], beats: &mut [f32]) -> Outcome
    ensures { RowsToBeats note_data.now result beats.old beats.new }
{
    notes_rows::compute_row_to_beat(note_data, beats)
}
