// The note sheet under its C name, for native programs to link.
#![tactic(auto)]

ghost use Rattle.chart.specs.Timing.{timing};
ghost use Rattle.chart.specs.ChartColumns.{list_columns};
ghost use Rattle.note_sheet.specs.Sheet.{song, sheet_columns, SheetLaid};

use note_sheet::Sheet;

// For each of a rising list of rows its time, whether it is judgable, and its colour by number.
#[unsafe(no_mangle)]
pub extern "C" fn marrighentu_note_sheet(
    tempo_beats: &[f32],
    tempo_values: &[f32],
    stop_beats: &[f32],
    stop_values: &[f32],
    delay_beats: &[f32],
    delay_values: &[f32],
    warp_beats: &[f32],
    warp_lengths: &[f32],
    offset: f64,
    global: f64,
    fake_beats: &[f32],
    fake_lengths: &[f32],
    rows: &[i32],
    times: &mut [f64],
    judged: &mut [u8],
    snaps: &mut [u8],
) -> Sheet
    ensures { let t = timing tempo_beats.now tempo_values.now stop_beats.now stop_values.now
        delay_beats.now delay_values.now warp_beats.now warp_lengths.now in
        let s = song t offset global (list_columns fake_beats.now fake_lengths.now) in
        let before = sheet_columns times.old judged.old snaps.old in
        let after = sheet_columns times.new judged.new snaps.new in
        SheetLaid s rows.now result before after }
{
    note_sheet::note_sheet(
        tempo_beats,
        tempo_values,
        stop_beats,
        stop_values,
        delay_beats,
        delay_values,
        warp_beats,
        warp_lengths,
        offset,
        global,
        fake_beats,
        fake_lengths,
        rows,
        times,
        judged,
        snaps,
    )
}
