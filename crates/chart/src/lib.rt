// The words that all layers speak: the format of a chart, and how far a walk through a timing has come. The columns of a chart's lists and of a timing stand in specs/.
#![tactic(auto)]

// The file format of a chart, which decides how tempos and stops are meant.
#[derive(Clone, Copy)]
pub enum TimingFormat {
    Sm,
    Ssc,
}

// How far a walk has come: a place in each list, the row and the time of the last event passed, the warp's end and whether it is warping.
#[repr(C)]
#[derive(Clone, Copy)]
pub struct State {
    pub tempos: usize,
    pub stops: usize,
    pub delays: usize,
    pub warps: usize,
    pub row: i32,
    pub warping: bool,
    pub time: f64,
    pub end: f64,
}
