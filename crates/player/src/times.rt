// For measuring: what is asked of the kernel that a log leaves, many times.
ghost use Rattle.player.specs.Gathered.{Gathers};
ghost use Rattle.std.specs.Prelude.{◌≤◌, length};

use crate::put::Bytes;
use kernel::Kernel;

// What 0 is the drain, 1 the stop, another number who is hit if the component leaves: the answer and the count.
fn said(out: &mut Bytes, kernel: &Kernel, what: usize, id: usize)
    ensures { Gathers out.old out.new }
{
    out.head(match what {
        0 => drain::drain(kernel).map(|drain| drain.count),
        1 => drain::stop(*kernel).answer,
        _ => impact::affected(kernel, id).map(|hit| hit.count),
    });
}

// Plays the log, its answers in out, then so many times writes over their start what is said of its kernel. Gives how many bytes the last took.
pub fn nobrighi_times(log: &[u8], what: usize, id: usize, times: usize, out: &mut [u8]) -> usize
    ensures { result ≤ length out.old }
{
    let player = crate::commands::play(crate::commands::start(), log, out);
    let mut written = 0;
    for _ in 0..times {
        let mut bytes = Bytes::new(out);
        said(&mut bytes, &player.kernel, what, id);
        written = bytes.len();
    }
    written
}
