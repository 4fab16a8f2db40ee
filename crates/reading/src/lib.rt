// Reads an input to its end, as far as a lent buffer has room.
#![tactic(auto)]

ghost use Rattle.std.specs.Prelude.{◌<◌, IfOk, length, take};
ghost use Rattle.std.specs.Io.{ReadsAtMost};
ghost use Rattle.std.specs.Io.KnownBytes.{Consumes, IsAtEnd};

use std::io;
use std::io::Read;

// How many bytes stand at the buffer's start: all that the input still had, or as many as fit. A failed read is returned, and what was read before
// it stands in the buffer, uncounted. `read_to_end` would need a heap, and `read_exact` fails on an input that ends early.
pub fn read_full<R: Read>(input: &mut R, buffer: &mut [u8]) -> io::Result<usize>
    ensures within { ReadsAtMost result buffer.new }
    ensures bytes { IfOk result (λ n. Consumes (R.remaining input.old) (R.remaining input.new) (take n buffer.new)) }
    ensures ended { IfOk result (λ n. n < length buffer.new → IsAtEnd (R.remaining input.new)) }
{
    let mut done: usize = 0;
    while done < buffer.len() {
        let got = input.read(&mut buffer[done..])?;
        if got == 0 {
            break;
        }
        done += got;
    }
    Ok(done)
}
