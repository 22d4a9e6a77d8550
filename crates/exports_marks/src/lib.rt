// Warps tidied with their marks, under the C name, for native programs to link. A crate of its own, so that row tidying is compiled into one piece in each.
#![tactic(auto)]

ghost use Rattle.tidy_warps.specs.WarpTidying.{WarpsTidied};

use columns::Outcome;

// Row tidying of warps with their marks: each row with the length and the mark of the warp that came last.
#[unsafe(no_mangle)]
pub extern "C" fn marrighentu_tidy_warp_segments(
    beats: &[f64],
    lengths: &[f64],
    marks: &[u8],
    out_beats: &mut [f64],
    out_lengths: &mut [f64],
    out_marks: &mut [u8],
) -> Outcome
    ensures { WarpsTidied beats.now lengths.now marks.now result
        out_beats.old out_beats.new out_lengths.old out_lengths.new
        out_marks.old out_marks.new }
{
    tidy_warps::tidy_warp_segments(beats, lengths, marks, out_beats, out_lengths, out_marks)
}
