// Reading an input into a lent buffer, each part behind those before it.
#![tactic(auto)]

ghost use Rattle.std.specs.Prelude.{◌+◌, ◌<◌, ◌≤◌, ◌≡◌, ◌↔◌, length, slice_range, Ok};
ghost use Rattle.std.specs.Io.{ReadsAtMost};
ghost use Rattle.std.specs.Io.KnownBytes.{ReadConsumes, Consumes, IsAtEnd};
ghost use Rattle.input.specs.Reads.{Reads, given};

use std::io::{Error, ErrorKind, Read, Result};

// How often a read is made again where signals interrupt it, before that is told as a failure. Nobody sends so many: it only
// bounds the loop.
const INTERRUPTIONS: u32 = 1000000;

// Why reading stopped.
#[derive(Clone, Copy, Debug, PartialEq, Eq)]
pub enum Stop {
    // The buffer is full.
    Full,
    // The input has ended.
    End,
    // A read failed.
    Failed,
}

// How many bytes of the buffer are read, and why it is no more.
#[derive(Clone, Copy, Debug, PartialEq, Eq)]
pub struct Input {
    pub count: usize,
    pub stop: Stop,
}

// Whether a signal interrupted the read that failed so.
fn interrupted(error: &Error) -> bool {
    error.kind() == ErrorKind::Interrupted
}

// One read, which is made again where it was interrupted.
fn read_part<R: Read>(reader: &mut R, part: &mut [u8]) -> Result<usize>
    ensures bound { ReadsAtMost result part.new }
    ensures bytes { ReadConsumes (R.remaining reader.old) (R.remaining reader.new) result part.new }
{
    for _ in 0..INTERRUPTIONS {
        match reader.read(part) {
            Ok(more) => return Ok(more),
            Err(error) => {
                if !interrupted(&error) {
                    return Err(error);
                }
            }
        }
    }
    reader.read(part)
}

// One read behind the first `count` bytes.
fn read_more<R: Read>(reader: &mut R, buffer: &mut [u8], count: usize) -> Result<usize>
    requires { count ≤ length buffer.old }
    ensures reads { Reads buffer.old count buffer.new (count + given result) }
    ensures bytes { Consumes (R.remaining reader.old) (R.remaining reader.new) (slice_range buffer.new count (count + given result)) }
    ensures end { result ≡ Ok 0 → count < length buffer.old → IsAtEnd (R.remaining reader.new) }
{
    read_part(reader, &mut buffer[count..])
}

// Reads behind the first `count` bytes until the buffer is full or a read gives nothing: at the end of the input, or where it
// failed.
pub fn read_behind<R: Read>(reader: &mut R, buffer: &mut [u8], count: usize) -> Input
    requires { count ≤ length buffer.old }
    ensures reads { Reads buffer.old count buffer.new result.count }
    ensures full { result.stop ≡ Stop.Full ↔ result.count ≡ length buffer.new }
    ensures bytes { Consumes (R.remaining reader.old) (R.remaining reader.new) (slice_range buffer.new count result.count) }
    ensures end { result.stop ≡ Stop.End → IsAtEnd (R.remaining reader.new) }
{
    let mut at = count;
    while at < buffer.len() {
        match read_more(reader, buffer, at) {
            Ok(0) => {
                return Input {
                    count: at,
                    stop: Stop::End,
                };
            }
            Ok(more) => at += more,
            Err(_) => {
                return Input {
                    count: at,
                    stop: Stop::Failed,
                };
            }
        }
    }
    Input {
        count: at,
        stop: Stop::Full,
    }
}
