// SSC: the processing of raw tempos and stops.
#![tactic(auto)]

ghost use Rattle.std.specs.Prelude.{◌≡◌, true, map, ◌≤◌, min, leb, length};
ghost use Rattle.limits.specs.Numbers.{every, miss};
ghost use Rattle.rows.specs.Rows.{quantized};
ghost use Rattle.order.specs.Order.{laid};
ghost use Rattle.order.specs.Entries.{first, second};
ghost use Rattle.columns.specs.Laying.{LaidPair};
ghost use Rattle.process_raw.specs.LentLists.{two_columns, lent_two, two_before, two_after};
ghost use Rattle.process_raw.specs.RawLists.{raw_number, raw_numbers};
ghost use Rattle.process_raw.specs.inside.TakenWhole.{Known};
ghost use Rattle.process_ssc.specs.inside.Tests.{beat_stays, value_stays};
ghost use Rattle.process_ssc.specs.Ssc.{stays_ssc, stayed_ssc, ssc_tempos, SscLaid};

use columns::Outcome;
use process_raw::Processed;

// Whether an entry stays: finite, the beat not below 0, the value above it.
pub fn stays(beat: f64, value: f64) -> bool
    ensures { result ≡ stays_ssc (beat, value) }
{
    if beat >= 0.0 {
        if beat < 1.0 / 0.0 {
            if value > 0.0 {
                return value < 1.0 / 0.0;
            }
            return false;
        }
        return false;
    }
    false
}

fn count_stayed(beats: &[f64], values: &[f64]) -> usize
    requires { length beats.now ≡ length values.now }
    ensures { result ≡ length (stayed_ssc beats.now values.now) }
{
    let mut count = 0;
    for (i, &beat) in beats.iter().enumerate() {
        if stays(beat, values[i]) {
            count += 1;
        }
    }
    count
}

// Whether the entries that stay have room: counted only where there are more entries than room.
fn have_room(beats: &[f64], values: &[f64], room: usize) -> bool
    requires { length beats.now ≡ length values.now }
    ensures { result ≡ leb (length (stayed_ssc beats.now values.now)) room }
{
    if beats.len() <= room {
        return true;
    }
    count_stayed(beats, values) <= room
}

// Where some are dropped: one by one.
fn lay_some(beats: &[f64], values: &[f64], out_beats: &mut [f64], out_values: &mut [f64]) -> usize
    requires beats_len { length beats.now ≡ length values.now }
    requires values_len_bound { length (stayed_ssc beats.now values.now) ≤ min (length out_beats.old) (length out_values.old) }
    ensures value { result ≡ length (stayed_ssc beats.now values.now) }
    ensures out_beats_after { out_beats.new ≡ laid (map first (stayed_ssc beats.now values.now)) out_beats.old }
    ensures out_values_after { out_values.new ≡ laid (map second (stayed_ssc beats.now values.now)) out_values.old }
{
    let mut count = 0;
    for (i, &beat) in beats.iter().enumerate() {
        let value = values[i];
        if stays(beat, value) {
            out_beats[count] = rows::quantize_beat(beat);
            out_values[count] = value;
            count += 1;
        }
    }
    count
}

// Where every entry stays.
fn lay_all(beats: &[f64], values: &[f64], out_beats: &mut [f64], out_values: &mut [f64])
    requires beats_len { length beats.now ≡ length values.now }
    requires beats_len_bound { length beats.now ≤ min (length out_beats.old) (length out_values.old) }
    ensures out_beats_after { out_beats.new ≡ laid (map quantized beats.now) out_beats.old }
    ensures out_values_after { out_values.new ≡ laid values.now out_values.old }
{
    columns_each::quantize_column(beats, out_beats);
    columns::copy(values, out_values);
}

// ---- whether every entry stays, column by column: loops that count what fails have no branch

fn beat_goes(beat: f64) -> usize
    ensures { result ≡ miss beat_stays beat }
{
    if beat >= 0.0 {
        if beat <= 65536.0 {
            return 0;
        }
        return 1;
    }
    1
}

fn beats_stay(beats: &[f64]) -> bool
    ensures { result ≡ every beat_stays beats.now }
{
    let mut gone: usize = 0;
    for &beat in beats {
        gone += beat_goes(beat);
    }
    gone == 0
}

fn value_goes(value: f64) -> usize
    ensures { result ≡ miss value_stays value }
{
    if value >= 9.5367431640625e-7 {
        if value <= 1073741824.0 {
            return 0;
        }
        return 1;
    }
    1
}

fn values_stay(values: &[f64]) -> bool
    ensures { result ≡ every value_stays values.now }
{
    let mut gone: usize = 0;
    for &value in values {
        gone += value_goes(value);
    }
    gone == 0
}

// Whether the list is taken and every entry stays, by one test of each number.
fn all_stay(beats: &[f64], values: &[f64]) -> bool
    ensures { Known stayed_ssc result beats.now values.now }
{
    if beats.len() > limits::MOST_ENTRIES {
        return false;
    }
    if beats.len() != values.len() {
        return false;
    }
    if beats_stay(beats) {
        return values_stay(values);
    }
    false
}

// The entries that stay, each beat on its row, over the front of the rooms.
fn lay_stayed(
    beats: &[f64],
    values: &[f64],
    out_beats: &mut [f64],
    out_values: &mut [f64],
    whole: bool,
) -> usize
    requires beats_len { length beats.now ≡ length values.now }
    requires values_len_bound { length (stayed_ssc beats.now values.now) ≤ min (length out_beats.old) (length out_values.old) }
    requires known { Known stayed_ssc whole beats.now values.now }
    ensures value { result ≡ length (stayed_ssc beats.now values.now) }
    ensures out_beats_after { out_beats.new ≡ laid (map first (stayed_ssc beats.now values.now)) out_beats.old }
    ensures out_values_after { out_values.new ≡ laid (map second (stayed_ssc beats.now values.now)) out_values.old }
{
    if whole {
        lay_all(beats, values, out_beats, out_values);
        return beats.len();
    }
    lay_some(beats, values, out_beats, out_values)
}

// The tempos that stay, tidied, by way of columns that hold them.
fn tidy_stayed(
    beats: &[f64],
    values: &[f64],
    work_beats: &mut [f64],
    work_values: &mut [f64],
    out_beats: &mut [f64],
    out_values: &mut [f64],
    whole: bool,
) -> Outcome
    requires values_value { (raw_number beats.now values.now ≡ 0) × (length beats.now ≤ min (length work_beats.old) (length work_values.old)) }
    requires known { Known stayed_ssc whole beats.now values.now }
    ensures { let tempos = ssc_tempos beats.now values.now in
        LaidPair 0 tempos result out_beats.old out_beats.new out_values.old out_values.new }
{
    let count = lay_stayed(beats, values, work_beats, work_values, whole);
    tidy_tempos::tidy_bpms(
        &work_beats[..count],
        &work_values[..count],
        out_beats,
        out_values,
    )
}

// Columns for as many tempos as a chart has.
fn tidy_few(
    beats: &[f64],
    values: &[f64],
    out_beats: &mut [f64],
    out_values: &mut [f64],
    whole: bool,
) -> Outcome
    requires values_value { (raw_number beats.now values.now ≡ 0) × (length beats.now ≤ 64) }
    requires known { Known stayed_ssc whole beats.now values.now }
    ensures { let tempos = ssc_tempos beats.now values.now in
        LaidPair 0 tempos result out_beats.old out_beats.new out_values.old out_values.new }
{
    let mut work_beats = [0.0; limits::FEW];
    let mut work_values = [0.0; limits::FEW];
    tidy_stayed(
        beats,
        values,
        &mut work_beats,
        &mut work_values,
        out_beats,
        out_values,
        whole,
    )
}

// Columns for as many as are taken.
fn tidy_many(
    beats: &[f64],
    values: &[f64],
    out_beats: &mut [f64],
    out_values: &mut [f64],
    whole: bool,
) -> Outcome
    requires values_value { raw_number beats.now values.now ≡ 0 }
    requires known { Known stayed_ssc whole beats.now values.now }
    ensures { let tempos = ssc_tempos beats.now values.now in
        LaidPair 0 tempos result out_beats.old out_beats.new out_values.old out_values.new }
{
    let mut work_beats = [0.0; limits::MOST_ENTRIES];
    let mut work_values = [0.0; limits::MOST_ENTRIES];
    tidy_stayed(
        beats,
        values,
        &mut work_beats,
        &mut work_values,
        out_beats,
        out_values,
        whole,
    )
}

fn lay_tempos(
    beats: &[f64],
    values: &[f64],
    out_beats: &mut [f64],
    out_values: &mut [f64],
    whole: bool,
) -> Outcome
    requires values_value { raw_number beats.now values.now ≡ 0 }
    requires known { Known stayed_ssc whole beats.now values.now }
    ensures { let tempos = ssc_tempos beats.now values.now in
        LaidPair 0 tempos result out_beats.old out_beats.new out_values.old out_values.new }
{
    if beats.len() <= limits::FEW {
        return tidy_few(beats, values, out_beats, out_values, whole);
    }
    tidy_many(beats, values, out_beats, out_values, whole)
}

// What the lists are refused by: tested anew only where one test did not tell.
fn number_of(
    tempo_beats: &[f64],
    tempo_values: &[f64],
    stop_beats: &[f64],
    stop_values: &[f64],
    tempos_whole: bool,
    stops_whole: bool,
) -> u32
    requires known { Known stayed_ssc tempos_whole tempo_beats.now tempo_values.now }
    requires known_2 { Known stayed_ssc stops_whole stop_beats.now stop_values.now }
    ensures { result ≡ raw_numbers tempo_beats.now tempo_values.now stop_beats.now stop_values.now }
{
    if tempos_whole {
        if stops_whole {
            return limits::TAKEN;
        }
    }
    process_raw::number_of(tempo_beats, tempo_values, stop_beats, stop_values)
}

fn process_known(
    tempo_beats: &[f64],
    tempo_values: &[f64],
    stop_beats: &[f64],
    stop_values: &[f64],
    out_tempo_beats: &mut [f64],
    out_tempo_values: &mut [f64],
    out_stop_beats: &mut [f64],
    out_stop_values: &mut [f64],
    tempos_whole: bool,
    stops_whole: bool,
) -> Processed
    requires known { Known stayed_ssc tempos_whole tempo_beats.now tempo_values.now }
    requires known_2 { Known stayed_ssc stops_whole stop_beats.now stop_values.now }
    ensures { let raw = two_columns tempo_beats.now tempo_values.now stop_beats.now stop_values.now in
        let rooms = lent_two out_tempo_beats out_tempo_values out_stop_beats out_stop_values in
        SscLaid raw result (two_before rooms) (two_after rooms) }
{
    let number = number_of(
        tempo_beats,
        tempo_values,
        stop_beats,
        stop_values,
        tempos_whole,
        stops_whole,
    );
    if number != limits::TAKEN {
        return process_raw::refused(number);
    }
    let stop_room = columns::room_of(out_stop_beats.len(), out_stop_values.len());
    if !have_room(stop_beats, stop_values, stop_room) {
        return process_raw::refused(limits::NO_ROOM);
    }
    let tempos = lay_tempos(
        tempo_beats,
        tempo_values,
        out_tempo_beats,
        out_tempo_values,
        tempos_whole,
    );
    if tempos.number != limits::TAKEN {
        return process_raw::refused(limits::NO_ROOM);
    }
    let stops = lay_stayed(
        stop_beats,
        stop_values,
        out_stop_beats,
        out_stop_values,
        stops_whole,
    );
    Processed {
        number: limits::TAKEN,
        tempos: tempos.count,
        stops: stops,
        warps: 0,
        offset: 0.0,
    }
}

// Of both lists the entries that stay, beats on their rows, and the tempos tidied. Counts and columns of the tempos, then of the stops.
pub fn process_bpms_and_stops_ssc(
    tempo_beats: &[f64],
    tempo_values: &[f64],
    stop_beats: &[f64],
    stop_values: &[f64],
    out_tempo_beats: &mut [f64],
    out_tempo_values: &mut [f64],
    out_stop_beats: &mut [f64],
    out_stop_values: &mut [f64],
) -> Processed
    ensures { let raw = two_columns tempo_beats.now tempo_values.now stop_beats.now stop_values.now in
        let rooms = lent_two out_tempo_beats out_tempo_values out_stop_beats out_stop_values in
        SscLaid raw result (two_before rooms) (two_after rooms) }
{
    let tempos_whole = all_stay(tempo_beats, tempo_values);
    let stops_whole = all_stay(stop_beats, stop_values);
    process_known(
        tempo_beats,
        tempo_values,
        stop_beats,
        stop_values,
        out_tempo_beats,
        out_tempo_values,
        out_stop_beats,
        out_stop_values,
        tempos_whole,
        stops_whole,
    )
}
