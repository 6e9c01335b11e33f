// All bytes of a reader.
ghost use Rattle.std.specs.Prelude.{◌≡◌, ◌≤◌, ◌<◌, length, take, OnOk};
ghost use Rattle.std.specs.Io.KnownBytes.{Consumes, IsAtEnd};

use std::io;
use std::io::Read;

// How many bytes were read, and the read that failed, if one did.
#[derive(Drop)]
pub struct Got {
    pub bytes: usize,
    pub ended: io::Result<()>,
}

// Reads until the buffer is full or the input ends. Input that can't be read any further counts as ended.
pub fn read_full<R: Read>(reader: &mut R, buf: &mut [u8]) -> Got
    ensures in_bounds { result.bytes ≤ length buf.new }
    ensures len { result.bytes ≡ length (take result.bytes buf.new) }
    ensures front { Consumes (R.remaining reader.old) (R.remaining reader.new) (take result.bytes buf.new) }
    ensures end { OnOk result.ended (result.bytes < length buf.new → IsAtEnd (R.remaining reader.new)) }
{
    let mut done = 0;
    // Kept: each read says by how much it goes on; `read_exact` and `read_to_end` say little of what they read before an `Err`.
    while done < buf.len() {
        match reader.read(&mut buf[done..]) {
            Ok(0) => {
                return Got {
                    bytes: done,
                    ended: Ok(()),
                };
            }
            Ok(n) => done += n,
            Err(e) => {
                return Got {
                    bytes: done,
                    ended: Err(e),
                };
            }
        }
    }
    Got {
        bytes: done,
        ended: Ok(()),
    }
}
