// What each program does: a schedule file on standard input, the lines of its run on standard output.
//
// What is printed is `lines::lines_of`, proved to be the definition of 01's lines; here is only the reading and the printing. A read
// or a write that fails ends the program with that error.
#![tactic(auto)]

ghost use Rattle.std.specs.Prelude.{ℕ, ◌≤◌, ◌<◌, length, take, IfOk, IfSome, OnErr, OnOk};
ghost use Rattle.std.specs.Io.KnownBytes.{Appends, Consumes, IsAtEnd};
ghost use Rattle.lines.specs.Lines.{lines_of};

use schedule::Queue;
use std::io;
use std::io::{Read, Write};

// One byte more than the longest file has. A longer input is kept so far and is then longer than any file: it is refused, never cut to
// one, and as the whole of it would be (`lines`, `specs/Input.antt`).
const INPUT_ROOM: usize = 20509;

// Runs the file that the reader gives on a queue, and writes the lines of its run; after an error, a beginning of them, which may be none.
pub fn rehearse<R: Read, W: Write>(reader: &mut R, writer: &mut W, queue: Queue) -> io::Result<()>
    ensures ok { OnOk result (IfSome (R.remaining reader.old) (λ input. Appends (W.contents writer.old) (W.contents writer.new) (lines_of queue input))) }
    ensures err { OnErr result (IfSome (R.remaining reader.old) (λ input. (n : ℕ) × Appends (W.contents writer.old) (W.contents writer.new) (take n (lines_of queue input)))) }
{
    let mut input = [0; INPUT_ROOM];
    let length = read_full(reader, &mut input)?;
    let text = lines::lines_of(queue, &input[..length]);
    write_whole(writer, &text.bytes[..text.length])
}

// Writes all of the bytes. After an error it has written a beginning of them. (Of an error std's `write_all` promises nothing.)
fn write_whole<W: Write>(writer: &mut W, bytes: &[u8]) -> io::Result<()>
    ensures ok { OnOk result (Appends (W.contents writer.old) (W.contents writer.new) bytes.now) }
    ensures err { OnErr result ((n : ℕ) × Appends (W.contents writer.old) (W.contents writer.new) (take n bytes.now)) }
{
    let mut written = 0;
    while written < bytes.len() {
        let more = writer.write(&bytes[written..])?;
        if more == 0 {
            return Err(io::Error::from(io::ErrorKind::WriteZero));
        }
        written += more;
    }
    Ok(())
}

// Reads until the buffer is full or the input ends. How many bytes it put at the start of the buffer. (std's `read_exact` does not tell, and its
// `read_to_end` allocates.)
fn read_full<R: Read>(reader: &mut R, buffer: &mut [u8]) -> io::Result<usize>
    ensures bound { IfOk result (λ filled. filled ≤ length buffer.new) }
    ensures bytes { IfOk result (λ filled. Consumes (R.remaining reader.old) (R.remaining reader.new) (take filled buffer.new)) }
    ensures end { IfOk result (λ filled. filled < length buffer.new → IsAtEnd (R.remaining reader.new)) }
{
    let mut filled = 0;
    while filled < buffer.len() {
        let more = reader.read(&mut buffer[filled..])?;
        if more == 0 {
            break;
        }
        filled += more;
    }
    Ok(filled)
}
