// The program of the compare-and-swap queue: a schedule file on standard input is rehearsed on FF-CL (`program`).
#![tactic(auto)]

use schedule::Queue;
use std::io;

fn main(rt: HostRuntime) -> io::Result<()> {
    program::rehearse(&mut rt.reader(), &mut io::writer(&rt), Queue::FfCl)
}
