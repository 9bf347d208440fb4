// The functions of reasons that are exported for Rust: each calls the one of the same name, and promises the same.
#![tactic(auto)]

ghost use Rattle.std.specs.Prelude.{◌≤◌, length};

// Plays the log and writes the explanation of each command, 44 bytes, on the kernel before it, while there is room. Gives how many bytes were written.
#[unsafe(no_mangle)]
pub extern "C" fn nobrighi_explained(log: &[u8], out: &mut [u8]) -> usize
    ensures { result ≤ length out.old }
{
    reasons::nobrighi_explained(log, out)
}

// Plays as many of the log's commands as out has bytes, its answers in out, then so many times writes over their start what is said of the next one.
// Gives how many bytes the last took.
#[unsafe(no_mangle)]
pub extern "C" fn nobrighi_explain_times(
    log: &[u8],
    what: usize,
    times: usize,
    out: &mut [u8],
) -> usize
    ensures { result ≤ length out.old }
{
    reasons::nobrighi_explain_times(log, what, times, out)
}
