// A program for tests: it calls single functions of the libraries, on whatever it is told, and writes what they answer.
//
// A request on standard input is a byte that names the function, a number that says how long the rest is, and the rest. A response on
// standard output is a number that says how long the rest is, and the rest. A number has four bytes, the least significant first. What
// is in each stands at the function that answers it, below.
//
// Who sends the requests compares the responses with another implementation's. So everything here is proved safe, and promises nothing
// more. Reading order:
//
// - `tags`: an entry, a store or a call in progress, as a tag with what it holds;
// - `image`: a machine as bytes.
#![tactic(auto)]

mod image;
mod tags;

use image::{IMAGE_BYTES, machine_in, put_machine, sizes_of};
use number::{put_word, word_at};
use schedule::Queue;
use std::io::{ErrorKind, Read};
use std::{array, io};
use stores::Index;
use tags::Tagged;
use terms::{Sizes, Tally};

// The longest request, without the five bytes in front.
const REQUEST_ROOM: usize = 65536;

// Writes a length.
fn write_length(rt: &impl Print, length: usize) -> io::Result<()> {
    rt.write_all(&((length % 4294967296) as u32).to_le_bytes())
}

// `o`, one step of a run. Given are the image of a machine, three totals, and an entry's kind, which is a byte, and operand. The response
// is the outcome's number, which is a byte, and value, the totals, how many stores of take step 1 are pending, and the image of the machine.
fn answer_step(rt: &impl Print, request: &[u8]) -> io::Result<()> {
    let tally = Tally {
        given: word_at(request, IMAGE_BYTES),
        aborts: word_at(request, IMAGE_BYTES + 4),
        waits: word_at(request, IMAGE_BYTES + 8),
    };
    let kind = word_at(request, IMAGE_BYTES + 12) % 256;
    let operand = word_at(request, IMAGE_BYTES + 13);
    let entry = Tagged(kind, Index { at: 0 }, operand).into();
    let done = schedule::step(machine_in(request), tally, entry);
    let outcome = done.outcome;
    let mut response = [0; 3921];
    put_word(&mut response, 0, 3917);
    response[4] = outcome.number();
    put_word(&mut response, 5, outcome.value());
    put_word(&mut response, 9, done.tally.given);
    put_word(&mut response, 13, done.tally.aborts);
    put_word(&mut response, 17, done.tally.waits);
    put_word(&mut response, 21, done.hidden);
    put_machine(&mut response, &done.machine);
    rt.write_all(&response)
}

// Writes a response of a byte and a number.
fn write_pair(rt: &impl Print, byte: u8, number: u32) -> io::Result<()> {
    let [first, second, third, fourth] = number.to_le_bytes();
    rt.write_all(&[5, 0, 0, 0, byte, first, second, third, fourth])
}

// The six sizes that a request lends, at its front.
fn lent_sizes(request: &[u8]) -> Sizes {
    sizes_of(array::from_fn(|i| word_at(request, 4 * (i % 6))))
}

// `e`, the entry to obey at a place of two parts. Given are six sizes, the place, how many kinds there are, the kinds, and the operands. The response is the entry's kind,
// which is a byte, and its operand.
fn answer_entry(rt: &impl Print, request: &[u8]) -> io::Result<()> {
    let at = word_at(request, 24) as usize;
    let operands = 32 + word_at(request, 28) as usize;
    if request.len() < operands {
        return write_length(rt, 0);
    }
    let entry = schedule::entry_at(
        lent_sizes(request),
        &request[32..operands],
        &request[operands..],
        at,
    );
    let Tagged(kind, _, operand) = entry.into();
    write_pair(rt, (kind % 256) as u8, operand)
}

// `c`, the check of the entries of two parts. Given are six sizes, how many kinds there are, the kinds, and the operands. The response is the refusal's number, which is a
// byte, and its place; or two numbers 0.
fn answer_check(rt: &impl Print, request: &[u8]) -> io::Result<()> {
    let operands = 28 + word_at(request, 24) as usize;
    if request.len() < operands {
        return write_length(rt, 0);
    }
    let checked = schedule::check_entries(
        lent_sizes(request),
        &request[28..operands],
        &request[operands..],
    );
    match checked {
        Ok(()) => write_pair(rt, 0, 0),
        Err(refusal) => write_pair(rt, refusal.number(), (refusal.place() % 4294967296) as u32),
    }
}

// `p`, the two parts of a file. The response is how many kinds there are, the kinds, and the operands.
fn answer_parts(rt: &impl Print, file: &[u8]) -> io::Result<()> {
    let reading = schedule::read(file);
    let kinds = schedule::kind_part(file, reading);
    let operands = schedule::operand_part(file, reading);
    write_length(rt, 4usize.wrapping_add(kinds.len() + operands.len()))?;
    write_length(rt, kinds.len())?;
    rt.write_all(kinds)?;
    rt.write_all(operands)
}

// `l` and `s`, the lines that are printed for a file, by the program of the queue with a lock and by that of the one with compare-and-swap.
fn answer_lines(rt: &impl Print, queue: Queue, file: &[u8]) -> io::Result<()> {
    let text = lines::lines_of(queue, file);
    write_length(rt, text.length)?;
    rt.write_all(&text.bytes[..text.length])
}

// Answers a request. One that names no function gets an empty response.
fn answer(rt: &impl Print, name: u8, request: &[u8]) -> io::Result<()> {
    match name {
        b'o' => answer_step(rt, request),
        b'e' => answer_entry(rt, request),
        b'c' => answer_check(rt, request),
        b'p' => answer_parts(rt, request),
        b'l' => answer_lines(rt, Queue::FfThe, request),
        b's' => answer_lines(rt, Queue::FfCl, request),
        _ => write_length(rt, 0),
    }
}

// Fills the bytes with what is next on standard input. Whether there were so many.
fn read_whole(rt: &impl Input, bytes: &mut [u8]) -> io::Result<bool> {
    let mut reader = rt.reader();
    match reader.read_exact(bytes) {
        Ok(()) => Ok(true),
        Err(error) if error.kind() == ErrorKind::UnexpectedEof => Ok(false),
        Err(error) => Err(error),
    }
}

// Reads the rest of a request, and answers it. Whether it was all there.
fn answer_rest<R: Input + Print>(rt: &R, name: u8, request: &mut [u8]) -> io::Result<bool> {
    if !read_whole(rt, request)? {
        return Ok(false);
    }
    answer(rt, name, request)?;
    Ok(true)
}

// Answers the next request. Whether there was one, and not too long.
fn answer_next<R: Input + Print>(rt: &R) -> io::Result<bool> {
    let mut head = [0; 5];
    if !read_whole(rt, &mut head)? {
        return Ok(false);
    }
    let length = word_at(&head, 1) as usize;
    if REQUEST_ROOM < length {
        return Ok(false);
    }
    let mut request = [0; REQUEST_ROOM];
    answer_rest(rt, head[0], &mut request[0..length])
}

fn main(rt: HostRuntime) -> io::Result<()> {
    // More requests than anybody sends: a loop has to end.
    for _ in 0..u64::MAX {
        if !answer_next(&rt)? {
            break;
        }
    }
    Ok(())
}
