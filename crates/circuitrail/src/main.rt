// The program: the task sheet on standard input, its answer on standard output. Its run here is case S of the scope document.
#![tactic(auto)]

use std::io;

fn main(rt: HostRuntime) -> io::Result<()> {
    terminal::answer_input(&rt)
}
