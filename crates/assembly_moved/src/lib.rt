// How many raw tempos or stops were off the grid, of those that the format keeps. Processing in SM never quantises their columns, so they are counted by a loop of their own.
#![tactic(auto)]

ghost use Rattle.std.specs.Prelude.{◌≡◌, true};
ghost use Rattle.picks.specs.Pick.{pick};
ghost use Rattle.rows.specs.Rows.{on_grid};
ghost use Rattle.limits.specs.Numbers.{miss};
ghost use Rattle.columns_each.specs.OffGrid.{moved_in, round_count};
ghost use Rattle.assembly_moved.specs.MovedRaw.{stays_in, moved_raw};

use chart::TimingFormat;

fn stays(format: TimingFormat, beat: f64, value: f64) -> bool
    ensures { result ≡ stays_in format (beat, value) }
{
    match format {
        TimingFormat::Sm => process_sm_changes::stays(beat, value),
        TimingFormat::Ssc => process_ssc::stays(beat, value),
    }
}

// 1 for an entry that stays and whose beat is off the grid, else 0. Both are worked out first: a loop of it has no branch.
fn one_moved(format: TimingFormat, beat: f64, value: f64) -> u32
    ensures { result ≡ pick (stays_in format (beat, value)) (miss on_grid beat) 0 }
{
    let off = rows::quantize(beat).off;
    let stayed = stays(format, beat, value);
    if stayed { if off { 1 } else { 0 } } else { 0 }
}

// The entries that the format keeps and whose beats are off the grid, one by one.
fn count_each(format: TimingFormat, beats: &[f64], values: &[f64]) -> u32
    ensures { result ≡ round_count (moved_raw format beats.now values.now) }
{
    let n = columns::room_of(beats.len(), values.len());
    let mut moved: u32 = 0;
    for (i, &beat) in beats[..n].iter().enumerate() {
        moved = std::num::wrapping_add_u32(moved, one_moved(format, beat, values[i]));
    }
    moved
}

// Whether it is known that no beat is off the grid: they are quantised several at a time, which costs less than a look at each entry.
fn none_off(beats: &[f64]) -> bool
    ensures { result ≡ true → moved_in beats.now ≡ 0 }
{
    if beats.len() <= limits::FEW {
        let mut quantised = [0.0; limits::FEW];
        return columns_each::quantize_beats(beats, &mut quantised) == 0;
    }
    if beats.len() <= limits::MOST_ENTRIES {
        let mut quantised = [0.0; limits::MOST_ENTRIES];
        return columns_each::quantize_beats(beats, &mut quantised) == 0;
    }
    false
}

// Of a raw list of tempos or stops: how many of the entries that the format keeps were off the grid. Most charts have none.
pub fn count_moved(format: TimingFormat, beats: &[f64], values: &[f64]) -> u32
    ensures { result ≡ round_count (moved_raw format beats.now values.now) }
{
    if none_off(beats) {
        return 0;
    }
    count_each(format, beats, values)
}
