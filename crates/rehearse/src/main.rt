// The program: a schedule file on standard input is rehearsed on FF-THE, the queue with a lock (`program`).
#![tactic(auto)]

use schedule::Queue;
use std::io;

fn main(rt: HostRuntime) -> io::Result<()> {
    program::rehearse(&mut rt.reader(), &mut io::writer(&rt), Queue::FfThe)
}
