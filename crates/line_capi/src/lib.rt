// The line writer as a C function: benchmarks and tests from outside reach it by this one. The product has no such call.
#![tactic(auto)]

ghost use Rattle.std.specs.Prelude.{◌≡◌, ◌++◌, length, drop};
ghost use Rattle.line_capi.specs.Room.{line_within};

// Writes the line of an index and its events at the front of `out` and gives its length. Where `out` has fewer than 21 + 4 × events
// bytes it gives 0, since C takes no Option, and writes nothing. The rest of `out` keeps its contents.
#[unsafe(no_mangle)]
pub extern "C" fn wandukhai_line(index: u64, events: &[u8], out: &mut [u8]) -> usize
    ensures value { result ≡ length (line_within index events.now (length out.old)) }
    ensures out_after { out.new ≡ line_within index events.now (length out.old) ++ drop (length (line_within index events.now (length out.old))) out.old }
{
    if out.len() < 21 {
        return 0;
    }
    if (out.len() - 21) / 4 < events.len() {
        return 0;
    }
    line::write_line(index, events, out)
}
