// A value n times for C and Rust: the call of builder_exports in an object of its own.
#![tactic(auto)]

ghost use Rattle.builder.specs.Values.{why_values, put_values};
ghost use Rattle.builder_exports.specs.Numbers.{Exported};

// A value is added n times.
#[unsafe(no_mangle)]
pub extern "C" fn tambuyeel_append_values(
    state: &mut [usize; 11],
    views: &mut [u8],
    bytes: &mut [u8],
    starts: &mut [usize],
    lens: &mut [usize],
    nulls: &mut [u8],
    places: &mut [u32],
    x: &[u8],
    n: usize,
) -> u64
    ensures { Exported (λ b. why_values n b x.now) (put_values n x.now) state.old
        views.old bytes.old starts.old lens.old nulls.old places.old
        result state.new views.new bytes.new starts.new lens.new nulls.new places.new }
{
    builder_exports::tambuyeel_append_values(state, views, bytes, starts, lens, nulls, places, x, n)
}
