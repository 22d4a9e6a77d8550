// The number of warped rows under its C name, for native programs to link.
#![tactic(auto)]

ghost use Rattle.std.specs.Prelude.{◌≡◌};
ghost use Rattle.order.specs.Entries.{entries};
ghost use Rattle.lookup_warped.specs.OnePass.{one_pass};

// How many rows some warp covers, each row once, for warps whose rows never fall; over others what one pass counts.
#[unsafe(no_mangle)]
pub extern "C" fn marrighentu_warped_rows(beats: &[f32], lengths: &[f32]) -> u64
    ensures { result ≡ one_pass (entries beats.now lengths.now) }
{
    lookup_warped::warped_rows(beats, lengths)
}
