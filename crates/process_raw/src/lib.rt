// Raw tempos and stops, and what their processing answers in either format.
#![tactic(auto)]

ghost use Rattle.std.specs.Prelude.{◌≡◌};
ghost use Rattle.process_raw.specs.RawLists.{raw_numbers, processed_nothing};

use limits::Kind;

// The refusal number, 0 where the lists are taken, how many entries of each result were written, and the seconds that beat 0 is moved by.
#[repr(C)]
#[derive(Clone, Copy)]
pub struct Processed {
    pub number: u32,
    pub tempos: usize,
    pub stops: usize,
    pub warps: usize,
    pub offset: f64,
}

// The answer to lists that are refused.
pub fn refused(number: u32) -> Processed
    ensures { result ≡ processed_nothing number }
{
    Processed {
        number: number,
        tempos: 0,
        stops: 0,
        warps: 0,
        offset: 0.0,
    }
}

// What both lists answer by themselves: the lower of 1, 2, 3 and 4, and 0 where they are taken.
pub fn number_of(
    tempo_beats: &[f64],
    tempo_values: &[f64],
    stop_beats: &[f64],
    stop_values: &[f64],
) -> u32
    ensures { result ≡ raw_numbers tempo_beats.now tempo_values.now stop_beats.now stop_values.now }
{
    let tempos = limits::list_number(Kind::RawBeat, Kind::RawTempo, tempo_beats, tempo_values);
    let stops = limits::list_number(Kind::RawBeat, Kind::RawTempo, stop_beats, stop_values);
    limits::lower_of(tempos, stops)
}
