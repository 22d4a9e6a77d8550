// The calls that take lists and the clock under C names, for native programs to link.
#![tactic(auto)]

ghost use Rattle.std.specs.Prelude.{◌≡◌, true};
ghost use Rattle.columns.specs.Laying.{LaidPair};
ghost use Rattle.limits.specs.Numbers.{range_of, in_range, every, row_in};
ghost use Rattle.lookup_row_store.specs.RowStore.{RowsStored};
ghost use Rattle.lookup.specs.Lookups.{list_columns, warp_lists, lookup_lists};
ghost use Rattle.lookup.specs.Lookups.{is_warped, is_fake, is_judgable, asked_row, asked_number, warp_number, fake_number, judgable_number, looked, Judged};
ghost use Rattle.lookup_checked.specs.Checked.{warped_by, fake_by, judgable_by, at_row};
ghost use Rattle.limits.specs.Refusals.{list_number};
ghost use Rattle.tidy_rows.specs.RowTidying.{RowsTidied};
ghost use Rattle.tidy_tempos.specs.TempoTidying.{tidy_tempos};
ghost use Rattle.stops_for_sm.specs.Merging.{sources};
ghost use Rattle.stops_for_sm.specs.Filling.{StopsFilled};
ghost use Rattle.process_ssc.specs.Ssc.{SscProcessed};
ghost use Rattle.process_sm.specs.Sm.{SmProcessed};
ghost use Rattle.chart.specs.Timing.{timing};
ghost use Rattle.clock_tests.specs.TimingNumbers.{timing_number};
ghost use Rattle.clock.specs.Question.{fresh_cursor, made, player_question, question};
ghost use Rattle.clock_run.specs.Run.{run_columns, RunLaid};
ghost use Rattle.tidy_scrolls.specs.ScrollTidying.{ScrollsTidied};
ghost use Rattle.tidy_speeds.specs.SpeedTidying.{SpeedsTidied};

use clock::{Answer, Cursor, Made};
use clock_run::Ran;
use columns::Outcome;
use limits::Kind;
use lookup::Looked;
use lookup_row_store::Stored;
use process_raw::Processed;
use stops_for_sm::Filled;

// Row tidying: each beat on its row, rows that rise strictly, each with the value that came last.
#[unsafe(no_mangle)]
pub extern "C" fn marrighentu_tidy_row_segments(
    beats: &[f64],
    values: &[f64],
    out_beats: &mut [f64],
    out_values: &mut [f64],
) -> Outcome
    ensures { RowsTidied beats.now values.now result out_beats.old out_beats.new out_values.old out_values.new }
{
    tidy_rows::tidy_row_segments(beats, values, out_beats, out_values)
}

// Tempo tidying: by beat, of equal beats the last, the first at beat 0, each only where it changes; 60 where there is none.
#[unsafe(no_mangle)]
pub extern "C" fn marrighentu_tidy_bpms(
    beats: &[f64],
    tempos: &[f64],
    out_beats: &mut [f64],
    out_tempos: &mut [f64],
) -> Outcome
    ensures { let number = list_number (range_of Kind.Beat) (range_of Kind.TidyTempo) beats.now tempos.now in
        LaidPair number (tidy_tempos beats.now tempos.now) result
        out_beats.old out_beats.new out_tempos.old out_tempos.new }
{
    tidy_tempos::tidy_bpms(beats, tempos, out_beats, out_tempos)
}

// ---- the row store and the lookups

// The row store: the rows of positive stops, positive delays, warps and fakes, a part behind another, and the marks of the warps' rows.
#[unsafe(no_mangle)]
pub extern "C" fn marrighentu_build_segment_row_storage(
    stop_beats: &[f32],
    stop_values: &[f32],
    delay_beats: &[f32],
    delay_values: &[f32],
    warp_beats: &[f32],
    warp_lengths: &[f32],
    fake_beats: &[f32],
    fake_lengths: &[f32],
    warp_marks: &[u8],
    rows: &mut [i32],
    row_marks: &mut [u8],
) -> Stored
    ensures { let lists = lookup_lists stop_beats.now stop_values.now delay_beats.now delay_values.now
        warp_beats.now warp_lengths.now fake_beats.now fake_lengths.now in
        RowsStored lists warp_marks.now result rows.old rows.new row_marks.old row_marks.new }
{
    lookup_row_store::build_segment_row_storage(
        stop_beats,
        stop_values,
        delay_beats,
        delay_values,
        warp_beats,
        warp_lengths,
        fake_beats,
        fake_lengths,
        warp_marks,
        rows,
        row_marks,
    )
}

// Whether a row is warped.
#[unsafe(no_mangle)]
pub extern "C" fn marrighentu_is_warp_at_row(
    stop_beats: &[f32],
    stop_values: &[f32],
    delay_beats: &[f32],
    delay_values: &[f32],
    warp_beats: &[f32],
    warp_lengths: &[f32],
    row: i32,
) -> Looked
    ensures { let lists = warp_lists stop_beats.now stop_values.now delay_beats.now delay_values.now
        warp_beats.now warp_lengths.now in
        result ≡ looked (warp_number lists (row_in row)) (is_warped lists row) }
{
    lookup::is_warp_at_row(
        stop_beats,
        stop_values,
        delay_beats,
        delay_values,
        warp_beats,
        warp_lengths,
        row,
    )
}

// Whether the row of a beat is warped.
#[unsafe(no_mangle)]
pub extern "C" fn marrighentu_is_warp_at_beat(
    stop_beats: &[f32],
    stop_values: &[f32],
    delay_beats: &[f32],
    delay_values: &[f32],
    warp_beats: &[f32],
    warp_lengths: &[f32],
    beat: f64,
) -> Looked
    ensures { let lists = warp_lists stop_beats.now stop_values.now delay_beats.now delay_values.now
        warp_beats.now warp_lengths.now in
        result ≡ looked (warp_number lists (in_range (range_of Kind.Beat) beat)) (is_warped lists (asked_row beat)) }
{
    lookup::is_warp_at_beat(
        stop_beats,
        stop_values,
        delay_beats,
        delay_values,
        warp_beats,
        warp_lengths,
        beat,
    )
}

// Whether a row is fake.
#[unsafe(no_mangle)]
pub extern "C" fn marrighentu_is_fake_at_row(
    fake_beats: &[f32],
    fake_lengths: &[f32],
    row: i32,
) -> Looked
    ensures { let fakes = list_columns fake_beats.now fake_lengths.now in
        result ≡ looked (fake_number fakes (row_in row)) (is_fake fakes row) }
{
    lookup::is_fake_at_row(fake_beats, fake_lengths, row)
}

// Whether the row of a beat is fake.
#[unsafe(no_mangle)]
pub extern "C" fn marrighentu_is_fake_at_beat(
    fake_beats: &[f32],
    fake_lengths: &[f32],
    beat: f64,
) -> Looked
    ensures { let fakes = list_columns fake_beats.now fake_lengths.now in
        result ≡ looked (fake_number fakes (in_range (range_of Kind.Beat) beat)) (is_fake fakes (asked_row beat)) }
{
    lookup::is_fake_at_beat(fake_beats, fake_lengths, beat)
}

// Whether a note on a row is judged: the row is neither warped nor fake.
#[unsafe(no_mangle)]
pub extern "C" fn marrighentu_is_judgable_at_row(
    stop_beats: &[f32],
    stop_values: &[f32],
    delay_beats: &[f32],
    delay_values: &[f32],
    warp_beats: &[f32],
    warp_lengths: &[f32],
    fake_beats: &[f32],
    fake_lengths: &[f32],
    row: i32,
) -> Looked
    ensures { let lists = lookup_lists stop_beats.now stop_values.now delay_beats.now delay_values.now
        warp_beats.now warp_lengths.now fake_beats.now fake_lengths.now in
        result ≡ looked (judgable_number lists (row_in row)) (is_judgable lists row) }
{
    lookup::is_judgable_at_row(
        stop_beats,
        stop_values,
        delay_beats,
        delay_values,
        warp_beats,
        warp_lengths,
        fake_beats,
        fake_lengths,
        row,
    )
}

// Whether a note on the row of a beat is judged.
#[unsafe(no_mangle)]
pub extern "C" fn marrighentu_is_judgable_at_beat(
    stop_beats: &[f32],
    stop_values: &[f32],
    delay_beats: &[f32],
    delay_values: &[f32],
    warp_beats: &[f32],
    warp_lengths: &[f32],
    fake_beats: &[f32],
    fake_lengths: &[f32],
    beat: f64,
) -> Looked
    ensures { let lists = lookup_lists stop_beats.now stop_values.now delay_beats.now delay_values.now
        warp_beats.now warp_lengths.now fake_beats.now fake_lengths.now in
        result ≡ looked (judgable_number lists (in_range (range_of Kind.Beat) beat)) (is_judgable lists (asked_row beat)) }
{
    lookup::is_judgable_at_beat(
        stop_beats,
        stop_values,
        delay_beats,
        delay_values,
        warp_beats,
        warp_lengths,
        fake_beats,
        fake_lengths,
        beat,
    )
}

// 1 for each row on which a note is judged and 0 for each other, after one test of the lists.
#[unsafe(no_mangle)]
pub extern "C" fn marrighentu_judgable_rows(
    stop_beats: &[f32],
    stop_values: &[f32],
    delay_beats: &[f32],
    delay_values: &[f32],
    warp_beats: &[f32],
    warp_lengths: &[f32],
    fake_beats: &[f32],
    fake_lengths: &[f32],
    rows: &[i32],
    out: &mut [u8],
) -> Outcome
    ensures { let lists = lookup_lists stop_beats.now stop_values.now delay_beats.now delay_values.now
        warp_beats.now warp_lengths.now fake_beats.now fake_lengths.now in
        Judged (judgable_number lists (every row_in rows.now)) (is_judgable lists) rows.now result out.old out.new }
{
    lookup::judgable_rows(
        stop_beats,
        stop_values,
        delay_beats,
        delay_values,
        warp_beats,
        warp_lengths,
        fake_beats,
        fake_lengths,
        rows,
        out,
    )
}

// ---- the lookups for lists that were tested once

// The number that the four lists are refused by, 0 where the calls below may be asked.
#[unsafe(no_mangle)]
pub extern "C" fn marrighentu_check_lookups(
    stop_beats: &[f32],
    stop_values: &[f32],
    delay_beats: &[f32],
    delay_values: &[f32],
    warp_beats: &[f32],
    warp_lengths: &[f32],
    fake_beats: &[f32],
    fake_lengths: &[f32],
) -> u32
    ensures { let lists = lookup_lists stop_beats.now stop_values.now delay_beats.now delay_values.now
        warp_beats.now warp_lengths.now fake_beats.now fake_lengths.now in
        result ≡ judgable_number lists true }
{
    lookup_checked::check_lookups(
        stop_beats,
        stop_values,
        delay_beats,
        delay_values,
        warp_beats,
        warp_lengths,
        fake_beats,
        fake_lengths,
    )
}

// Whether a row is warped, by lists that were tested.
#[unsafe(no_mangle)]
pub extern "C" fn marrighentu_is_warp_at_row_checked(
    stop_beats: &[f32],
    stop_values: &[f32],
    delay_beats: &[f32],
    delay_values: &[f32],
    warp_beats: &[f32],
    warp_lengths: &[f32],
    row: i32,
) -> Looked
    ensures { let lists = warp_lists stop_beats.now stop_values.now delay_beats.now delay_values.now
        warp_beats.now warp_lengths.now in
        result ≡ looked (asked_number (row_in row)) (at_row (warped_by lists) row) }
{
    lookup_checked::is_warp_at_row_checked(
        stop_beats,
        stop_values,
        delay_beats,
        delay_values,
        warp_beats,
        warp_lengths,
        row,
    )
}

// Whether the row of a beat is warped, by lists that were tested.
#[unsafe(no_mangle)]
pub extern "C" fn marrighentu_is_warp_at_beat_checked(
    stop_beats: &[f32],
    stop_values: &[f32],
    delay_beats: &[f32],
    delay_values: &[f32],
    warp_beats: &[f32],
    warp_lengths: &[f32],
    beat: f64,
) -> Looked
    ensures { let lists = warp_lists stop_beats.now stop_values.now delay_beats.now delay_values.now
        warp_beats.now warp_lengths.now in
        result ≡ looked (asked_number (in_range (range_of Kind.Beat) beat)) (at_row (warped_by lists) (asked_row beat)) }
{
    lookup_checked::is_warp_at_beat_checked(
        stop_beats,
        stop_values,
        delay_beats,
        delay_values,
        warp_beats,
        warp_lengths,
        beat,
    )
}

// Whether a row is fake, by lists that were tested.
#[unsafe(no_mangle)]
pub extern "C" fn marrighentu_is_fake_at_row_checked(
    fake_beats: &[f32],
    fake_lengths: &[f32],
    row: i32,
) -> Looked
    ensures { let fakes = list_columns fake_beats.now fake_lengths.now in
        result ≡ looked (asked_number (row_in row)) (at_row (fake_by fakes) row) }
{
    lookup_checked::is_fake_at_row_checked(fake_beats, fake_lengths, row)
}

// Whether the row of a beat is fake, by lists that were tested.
#[unsafe(no_mangle)]
pub extern "C" fn marrighentu_is_fake_at_beat_checked(
    fake_beats: &[f32],
    fake_lengths: &[f32],
    beat: f64,
) -> Looked
    ensures { let fakes = list_columns fake_beats.now fake_lengths.now in
        result ≡ looked (asked_number (in_range (range_of Kind.Beat) beat)) (at_row (fake_by fakes) (asked_row beat)) }
{
    lookup_checked::is_fake_at_beat_checked(fake_beats, fake_lengths, beat)
}

// Whether a note on a row is judged, by lists that were tested.
#[unsafe(no_mangle)]
pub extern "C" fn marrighentu_is_judgable_at_row_checked(
    stop_beats: &[f32],
    stop_values: &[f32],
    delay_beats: &[f32],
    delay_values: &[f32],
    warp_beats: &[f32],
    warp_lengths: &[f32],
    fake_beats: &[f32],
    fake_lengths: &[f32],
    row: i32,
) -> Looked
    ensures { let lists = lookup_lists stop_beats.now stop_values.now delay_beats.now delay_values.now
        warp_beats.now warp_lengths.now fake_beats.now fake_lengths.now in
        result ≡ looked (asked_number (row_in row)) (at_row (judgable_by lists) row) }
{
    lookup_checked::is_judgable_at_row_checked(
        stop_beats,
        stop_values,
        delay_beats,
        delay_values,
        warp_beats,
        warp_lengths,
        fake_beats,
        fake_lengths,
        row,
    )
}

// Whether a note on the row of a beat is judged, by lists that were tested.
#[unsafe(no_mangle)]
pub extern "C" fn marrighentu_is_judgable_at_beat_checked(
    stop_beats: &[f32],
    stop_values: &[f32],
    delay_beats: &[f32],
    delay_values: &[f32],
    warp_beats: &[f32],
    warp_lengths: &[f32],
    fake_beats: &[f32],
    fake_lengths: &[f32],
    beat: f64,
) -> Looked
    ensures { let lists = lookup_lists stop_beats.now stop_values.now delay_beats.now delay_values.now
        warp_beats.now warp_lengths.now fake_beats.now fake_lengths.now in
        result ≡ looked (asked_number (in_range (range_of Kind.Beat) beat)) (at_row (judgable_by lists) (asked_row beat)) }
{
    lookup_checked::is_judgable_at_beat_checked(
        stop_beats,
        stop_values,
        delay_beats,
        delay_values,
        warp_beats,
        warp_lengths,
        fake_beats,
        fake_lengths,
        beat,
    )
}

// SSC's tempos and stops: those that are positive, the tempos tidied.
#[unsafe(no_mangle)]
pub extern "C" fn marrighentu_process_bpms_and_stops_ssc(
    tempo_beats: &[f64],
    tempo_values: &[f64],
    stop_beats: &[f64],
    stop_values: &[f64],
    out_tempo_beats: &mut [f64],
    out_tempo_values: &mut [f64],
    out_stop_beats: &mut [f64],
    out_stop_values: &mut [f64],
) -> Processed
    ensures { SscProcessed tempo_beats.now tempo_values.now stop_beats.now stop_values.now result
        out_tempo_beats.old out_tempo_beats.new out_tempo_values.old out_tempo_values.new
        out_stop_beats.old out_stop_beats.new out_stop_values.old out_stop_values.new }
{
    process_ssc::process_bpms_and_stops_ssc(
        tempo_beats,
        tempo_values,
        stop_beats,
        stop_values,
        out_tempo_beats,
        out_tempo_values,
        out_stop_beats,
        out_stop_values,
    )
}

// SM's tempos and stops, and the warps that are made of what runs backward.
#[unsafe(no_mangle)]
pub extern "C" fn marrighentu_process_bpms_and_stops_sm(
    tempo_beats: &[f64],
    tempo_values: &[f64],
    stop_beats: &[f64],
    stop_values: &[f64],
    out_tempo_beats: &mut [f64],
    out_tempo_values: &mut [f64],
    out_stop_beats: &mut [f64],
    out_stop_values: &mut [f64],
    out_warp_beats: &mut [f64],
    out_warp_lengths: &mut [f64],
) -> Processed
    ensures { SmProcessed tempo_beats.now tempo_values.now stop_beats.now stop_values.now result
        out_tempo_beats.old out_tempo_beats.new out_tempo_values.old out_tempo_values.new
        out_stop_beats.old out_stop_beats.new out_stop_values.old out_stop_values.new
        out_warp_beats.old out_warp_beats.new out_warp_lengths.old out_warp_lengths.new }
{
    process_sm::process_bpms_and_stops_sm(
        tempo_beats,
        tempo_values,
        stop_beats,
        stop_values,
        out_tempo_beats,
        out_tempo_values,
        out_stop_beats,
        out_stop_values,
        out_warp_beats,
        out_warp_lengths,
    )
}

// The stops of an SM chart that plays delays and warps, over the front of the work list.
#[unsafe(no_mangle)]
pub extern "C" fn marrighentu_convert_warps_and_delays_to_sm_stops(
    tempo_beats: &[f32],
    tempo_values: &[f32],
    stops: &[f32],
    delay_beats: &[f32],
    delay_values: &[f32],
    warp_beats: &[f32],
    warp_lengths: &[f32],
    work: &mut [f32],
) -> Filled
    ensures { let lists = sources tempo_beats.now tempo_values.now stops.now
        delay_beats.now delay_values.now warp_beats.now warp_lengths.now in
        StopsFilled lists result work.old work.new }
{
    stops_for_sm::convert_warps_and_delays_to_sm_stops(
        tempo_beats,
        tempo_values,
        stops,
        delay_beats,
        delay_values,
        warp_beats,
        warp_lengths,
        work,
    )
}

// A cursor that was not asked yet.
#[unsafe(no_mangle)]
pub extern "C" fn marrighentu_cursor_new(offset: f64, global: f64) -> Made
    ensures { result ≡ made offset global }
{
    Cursor::new(offset, global)
}

// The number that a timing is refused by, 0 where the player may ask.
#[unsafe(no_mangle)]
pub extern "C" fn marrighentu_check_timing(
    tempo_beats: &[f32],
    tempo_values: &[f32],
    stop_beats: &[f32],
    stop_values: &[f32],
    delay_beats: &[f32],
    delay_values: &[f32],
    warp_beats: &[f32],
    warp_lengths: &[f32],
    offset: f64,
    global: f64,
) -> u32
    ensures { let t = timing tempo_beats.now tempo_values.now stop_beats.now stop_values.now
        delay_beats.now delay_values.now warp_beats.now warp_lengths.now in
        result ≡ timing_number t offset global }
{
    clock_tests::check_timing(
        tempo_beats,
        tempo_values,
        stop_beats,
        stop_values,
        delay_beats,
        delay_values,
        warp_beats,
        warp_lengths,
        offset,
        global,
    )
}

// At what time is this beat? All is tested, and the cursor comes back moved on.
#[unsafe(no_mangle)]
pub extern "C" fn marrighentu_time_for_beat(
    cursor: Cursor,
    tempo_beats: &[f32],
    tempo_values: &[f32],
    stop_beats: &[f32],
    stop_values: &[f32],
    delay_beats: &[f32],
    delay_values: &[f32],
    warp_beats: &[f32],
    warp_lengths: &[f32],
    offset: f64,
    global: f64,
    beat: f64,
) -> Answer
    ensures { let t = timing tempo_beats.now tempo_values.now stop_beats.now stop_values.now
        delay_beats.now delay_values.now warp_beats.now warp_lengths.now in
        result ≡ question t cursor offset global beat }
{
    cursor.time_for_beat(
        tempo_beats,
        tempo_values,
        stop_beats,
        stop_values,
        delay_beats,
        delay_values,
        warp_beats,
        warp_lengths,
        offset,
        global,
        beat,
    )
}

// The player's question, of a timing that was tested: beat and cursor are tested.
#[unsafe(no_mangle)]
pub extern "C" fn marrighentu_time_for_beat_checked(
    cursor: Cursor,
    tempo_beats: &[f32],
    tempo_values: &[f32],
    stop_beats: &[f32],
    stop_values: &[f32],
    delay_beats: &[f32],
    delay_values: &[f32],
    warp_beats: &[f32],
    warp_lengths: &[f32],
    offset: f64,
    global: f64,
    beat: f64,
) -> Answer
    ensures { let t = timing tempo_beats.now tempo_values.now stop_beats.now stop_values.now
        delay_beats.now delay_values.now warp_beats.now warp_lengths.now in
        result ≡ player_question t cursor offset global beat }
{
    cursor.time_for_beat_checked(
        tempo_beats,
        tempo_values,
        stop_beats,
        stop_values,
        delay_beats,
        delay_values,
        warp_beats,
        warp_lengths,
        offset,
        global,
        beat,
    )
}

// The time of a beat from a fresh cursor.
#[unsafe(no_mangle)]
pub extern "C" fn marrighentu_get_time_for_beat(
    tempo_beats: &[f32],
    tempo_values: &[f32],
    stop_beats: &[f32],
    stop_values: &[f32],
    delay_beats: &[f32],
    delay_values: &[f32],
    warp_beats: &[f32],
    warp_lengths: &[f32],
    offset: f64,
    global: f64,
    beat: f64,
) -> Answer
    ensures { let t = timing tempo_beats.now tempo_values.now stop_beats.now stop_values.now
        delay_beats.now delay_values.now warp_beats.now warp_lengths.now in
        result ≡ question t (fresh_cursor offset global) offset global beat }
{
    clock::get_time_for_beat(
        tempo_beats,
        tempo_values,
        stop_beats,
        stop_values,
        delay_beats,
        delay_values,
        warp_beats,
        warp_lengths,
        offset,
        global,
        beat,
    )
}

// For each beat its number, its time and its count; timing and cursor are tested once.
#[unsafe(no_mangle)]
pub extern "C" fn marrighentu_run(
    cursor: Cursor,
    tempo_beats: &[f32],
    tempo_values: &[f32],
    stop_beats: &[f32],
    stop_values: &[f32],
    delay_beats: &[f32],
    delay_values: &[f32],
    warp_beats: &[f32],
    warp_lengths: &[f32],
    offset: f64,
    global: f64,
    beats: &[f64],
    numbers: &mut [u32],
    times: &mut [f64],
    counts: &mut [usize],
) -> Ran
    ensures { let t = timing tempo_beats.now tempo_values.now stop_beats.now stop_values.now
        delay_beats.now delay_values.now warp_beats.now warp_lengths.now in
        let old = run_columns numbers.old times.old counts.old in
        let new = run_columns numbers.new times.new counts.new in
        RunLaid t offset global cursor beats.now result old new }
{
    clock_run::run(
        cursor,
        tempo_beats,
        tempo_values,
        stop_beats,
        stop_values,
        delay_beats,
        delay_values,
        warp_beats,
        warp_lengths,
        offset,
        global,
        beats,
        numbers,
        times,
        counts,
    )
}

// Scroll tidying: scrolls on their rows, without those that are near the one before.
#[unsafe(no_mangle)]
pub extern "C" fn marrighentu_tidy_scroll_segments(
    beats: &[f64],
    values: &[f64],
    out_beats: &mut [f64],
    out_values: &mut [f64],
) -> Outcome
    ensures { ScrollsTidied beats.now values.now result
        out_beats.old out_beats.new out_values.old out_values.new }
{
    tidy_scrolls::tidy_scroll_segments(beats, values, out_beats, out_values)
}

// Speed tidying: speeds on their rows, without those that are near the one before.
#[unsafe(no_mangle)]
pub extern "C" fn marrighentu_tidy_speed_segments(
    beats: &[f64],
    ratios: &[f64],
    delays: &[f64],
    units: &[u8],
    out_beats: &mut [f64],
    out_ratios: &mut [f64],
    out_delays: &mut [f64],
    out_units: &mut [u8],
) -> Outcome
    ensures { SpeedsTidied beats.now ratios.now delays.now units.now result
        out_beats.old out_beats.new out_ratios.old out_ratios.new
        out_delays.old out_delays.new out_units.old out_units.new }
{
    tidy_speeds::tidy_speed_segments(
        beats, ratios, delays, units, out_beats, out_ratios, out_delays, out_units,
    )
}
