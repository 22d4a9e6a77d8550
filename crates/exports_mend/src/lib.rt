// Mending of scrolls and speeds under their C names, for native programs to link.
#![tactic(auto)]

ghost use Rattle.chart.specs.ChartColumns.{lent_columns, list_before, list_after, lent_speeds, speeds_before, speeds_after, list_columns, speed_columns};
ghost use Rattle.mend_scrolls.specs.MendedScrolls.{ScrollsMended};
ghost use Rattle.mend_speeds.specs.MendedSpeeds.{SpeedsMended};

use columns::Outcome;

// Scrolls in the order of their rows, of each row the last, without those near the one kept before; and the fate of each raw entry.
#[unsafe(no_mangle)]
pub extern "C" fn marrighentu_mend_scrolls(
    beats: &[f64],
    values: &[f64],
    out_beats: &mut [f64],
    out_values: &mut [f64],
    out_fates: &mut [u8],
) -> Outcome
    ensures { let scrolls = list_columns beats.now values.now in
        let rooms = lent_columns out_beats out_values in
        ScrollsMended scrolls result (list_before rooms) (list_after rooms) out_fates.old out_fates.new }
{
    mend_scrolls::mend_scrolls(beats, values, out_beats, out_values, out_fates)
}

// The same of speeds.
#[unsafe(no_mangle)]
pub extern "C" fn marrighentu_mend_speeds(
    beats: &[f64],
    ratios: &[f64],
    delays: &[f64],
    units: &[u8],
    out_beats: &mut [f64],
    out_ratios: &mut [f64],
    out_delays: &mut [f64],
    out_units: &mut [u8],
    out_fates: &mut [u8],
) -> Outcome
    ensures { let speeds = speed_columns beats.now ratios.now delays.now units.now in
        let rooms = lent_speeds out_beats out_ratios out_delays out_units in
        SpeedsMended speeds result (speeds_before rooms) (speeds_after rooms) out_fates.old out_fates.new }
{
    mend_speeds::mend_speeds(
        beats, ratios, delays, units, out_beats, out_ratios, out_delays, out_units, out_fates,
    )
}
