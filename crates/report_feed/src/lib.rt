// The report program's input, fed in pieces of any size into seventeen lent columns.
#![tactic(auto)]

ghost use Rattle.std.specs.Prelude.{◌≡◌};
ghost use Rattle.report_form.specs.Form.{read_on};
ghost use Rattle.report_form.specs.Stores.{number_in, unit_in, count_in, column_after};

use report_form::{Reading, Store};

// A number into its own column; any other column stays as it is, and so does a column that ends before the entry's place.
fn put_number(store: Store, list: u64, part: u64, column: &mut [f64])
    ensures { column.new ≡ number_in list part store column.old }
{
    if store.list != list {
        return;
    }
    if store.part != part {
        return;
    }
    let at = store.at as usize;
    if at < column.len() {
        column[at] = ieee_patterns::f64_of_bits(store.number);
    }
}

fn put_unit(store: Store, list: u64, part: u64, units: &mut [u8])
    ensures { units.new ≡ unit_in list part store units.old }
{
    if store.list != list {
        return;
    }
    if store.part != part {
        return;
    }
    let place = store.at as usize;
    if place < units.len() {
        units[place] = (store.number % 256) as u8;
    }
}

fn put_count(store: Store, counts: &mut [u64])
    ensures { counts.new ≡ count_in store counts.old }
{
    if store.list == 0 {
        return;
    }
    let at = store.list as usize;
    if at < counts.len() {
        counts[at] = store.count;
    }
}

// What a byte completed goes to each column, which takes it where it is its own.
fn put(
    store: Store,
    counts: &mut [u64],
    tempo_beats: &mut [f64],
    tempo_values: &mut [f64],
    stop_beats: &mut [f64],
    stop_values: &mut [f64],
    delay_beats: &mut [f64],
    delay_values: &mut [f64],
    warp_beats: &mut [f64],
    warp_lengths: &mut [f64],
    speed_beats: &mut [f64],
    speed_ratios: &mut [f64],
    speed_delays: &mut [f64],
    speed_units: &mut [u8],
    scroll_beats: &mut [f64],
    scroll_values: &mut [f64],
    fake_beats: &mut [f64],
    fake_lengths: &mut [f64],
)
    ensures counts_after { counts.new ≡ count_in store counts.old }
    ensures tempo_beats_after { tempo_beats.new ≡ number_in 2 1 store tempo_beats.old }
    ensures tempo_values_after { tempo_values.new ≡ number_in 2 2 store tempo_values.old }
    ensures stop_beats_after { stop_beats.new ≡ number_in 3 1 store stop_beats.old }
    ensures stop_values_after { stop_values.new ≡ number_in 3 2 store stop_values.old }
    ensures delay_beats_after { delay_beats.new ≡ number_in 4 1 store delay_beats.old }
    ensures delay_values_after { delay_values.new ≡ number_in 4 2 store delay_values.old }
    ensures warp_beats_after { warp_beats.new ≡ number_in 5 1 store warp_beats.old }
    ensures warp_lengths_after { warp_lengths.new ≡ number_in 5 2 store warp_lengths.old }
    ensures speed_beats_after { speed_beats.new ≡ number_in 6 1 store speed_beats.old }
    ensures speed_ratios_after { speed_ratios.new ≡ number_in 6 2 store speed_ratios.old }
    ensures speed_delays_after { speed_delays.new ≡ number_in 6 3 store speed_delays.old }
    ensures speed_units_after { speed_units.new ≡ unit_in 6 4 store speed_units.old }
    ensures scroll_beats_after { scroll_beats.new ≡ number_in 7 1 store scroll_beats.old }
    ensures scroll_values_after { scroll_values.new ≡ number_in 7 2 store scroll_values.old }
    ensures fake_beats_after { fake_beats.new ≡ number_in 8 1 store fake_beats.old }
    ensures fake_lengths_after { fake_lengths.new ≡ number_in 8 2 store fake_lengths.old }
{
    if store.list == 0 {
        return;
    }
    put_count(store, counts);
    put_number(store, 2, 1, tempo_beats);
    put_number(store, 2, 2, tempo_values);
    put_number(store, 3, 1, stop_beats);
    put_number(store, 3, 2, stop_values);
    put_number(store, 4, 1, delay_beats);
    put_number(store, 4, 2, delay_values);
    put_number(store, 5, 1, warp_beats);
    put_number(store, 5, 2, warp_lengths);
    put_number(store, 6, 1, speed_beats);
    put_number(store, 6, 2, speed_ratios);
    put_number(store, 6, 3, speed_delays);
    put_unit(store, 6, 4, speed_units);
    put_number(store, 7, 1, scroll_beats);
    put_number(store, 7, 2, scroll_values);
    put_number(store, 8, 1, fake_beats);
    put_number(store, 8, 2, fake_lengths);
}

// Bytes, one after the other, from the state that the last piece left. Each column holds the numbers of one part of one list; `counts` has,
// at the number of a list, how many entries it has so far.
pub fn feed(
    begun: Reading,
    chunk: &[u8],
    counts: &mut [u64],
    tempo_beats: &mut [f64],
    tempo_values: &mut [f64],
    stop_beats: &mut [f64],
    stop_values: &mut [f64],
    delay_beats: &mut [f64],
    delay_values: &mut [f64],
    warp_beats: &mut [f64],
    warp_lengths: &mut [f64],
    speed_beats: &mut [f64],
    speed_ratios: &mut [f64],
    speed_delays: &mut [f64],
    speed_units: &mut [u8],
    scroll_beats: &mut [f64],
    scroll_values: &mut [f64],
    fake_beats: &mut [f64],
    fake_lengths: &mut [f64],
) -> Reading
    ensures value { result ≡ read_on begun chunk.now }
    ensures counts_after { counts.new ≡ column_after count_in begun chunk.now counts.old }
    ensures tempo_beats_after { tempo_beats.new ≡ column_after (number_in 2 1) begun chunk.now tempo_beats.old }
    ensures tempo_values_after { tempo_values.new ≡ column_after (number_in 2 2) begun chunk.now tempo_values.old }
    ensures stop_beats_after { stop_beats.new ≡ column_after (number_in 3 1) begun chunk.now stop_beats.old }
    ensures stop_values_after { stop_values.new ≡ column_after (number_in 3 2) begun chunk.now stop_values.old }
    ensures delay_beats_after { delay_beats.new ≡ column_after (number_in 4 1) begun chunk.now delay_beats.old }
    ensures delay_values_after { delay_values.new ≡ column_after (number_in 4 2) begun chunk.now delay_values.old }
    ensures warp_beats_after { warp_beats.new ≡ column_after (number_in 5 1) begun chunk.now warp_beats.old }
    ensures warp_lengths_after { warp_lengths.new ≡ column_after (number_in 5 2) begun chunk.now warp_lengths.old }
    ensures speed_beats_after { speed_beats.new ≡ column_after (number_in 6 1) begun chunk.now speed_beats.old }
    ensures speed_ratios_after { speed_ratios.new ≡ column_after (number_in 6 2) begun chunk.now speed_ratios.old }
    ensures speed_delays_after { speed_delays.new ≡ column_after (number_in 6 3) begun chunk.now speed_delays.old }
    ensures speed_units_after { speed_units.new ≡ column_after (unit_in 6 4) begun chunk.now speed_units.old }
    ensures scroll_beats_after { scroll_beats.new ≡ column_after (number_in 7 1) begun chunk.now scroll_beats.old }
    ensures scroll_values_after { scroll_values.new ≡ column_after (number_in 7 2) begun chunk.now scroll_values.old }
    ensures fake_beats_after { fake_beats.new ≡ column_after (number_in 8 1) begun chunk.now fake_beats.old }
    ensures fake_lengths_after { fake_lengths.new ≡ column_after (number_in 8 2) begun chunk.now fake_lengths.old }
{
    let mut reading = begun;
    for &byte in chunk {
        let next = report_form::step(reading, byte);
        let store = report_form::completed(reading, byte, next);
        put(
            store,
            counts,
            tempo_beats,
            tempo_values,
            stop_beats,
            stop_values,
            delay_beats,
            delay_values,
            warp_beats,
            warp_lengths,
            speed_beats,
            speed_ratios,
            speed_delays,
            speed_units,
            scroll_beats,
            scroll_values,
            fake_beats,
            fake_lengths,
        );
        reading = next;
    }
    reading
}
