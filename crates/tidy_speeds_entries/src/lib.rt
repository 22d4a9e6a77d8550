// What both ways of speed tidying share: a speed, nearness of speeds, and the room of four columns.
#![tactic(auto)]

ghost use Rattle.std.specs.Prelude.{◌≡◌};
ghost use Rattle.tidy_speeds_entries.specs.Speed.{speed_value_of, near_speed};
ghost use Rattle.tidy_speeds_entries.specs.LaidSpeeds.{least_of};

// What holds from a beat on. Unit 0: the delay is in beats; 1: in seconds.
#[derive(Clone, Copy)]
pub struct Speed {
    pub ratio: f64,
    pub delay: f64,
    pub unit: u8,
}

// Whether two speeds count as the same.
pub fn near(a: Speed, b: Speed) -> bool
    ensures { result ≡ near_speed (speed_value_of a) (speed_value_of b) }
{
    if tidy_kept::near(a.ratio, b.ratio) {
        if tidy_kept::near(a.delay, b.delay) {
            return a.unit == b.unit;
        }
        return false;
    }
    false
}

// The least of the lengths of four columns.
pub fn least_of(first: usize, second: usize, third: usize, fourth: usize) -> usize
    ensures { result ≡ least_of first second third fourth }
{
    columns::room_of(
        columns::room_of(first, second),
        columns::room_of(third, fourth),
    )
}
