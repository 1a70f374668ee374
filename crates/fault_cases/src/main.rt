//! Cases of runs whose outside is a fake: files, streams and a store in memory of which calls fail, and a clock at a fixed
//! moment; and of stores of loads, called by themselves. A line of the input is a case, as `check | call 0 fails`, and its
//! answer one line.
#![tactic(auto)]

mod case;
mod fault;
mod fields;
mod outside;
mod printed;
mod running;
mod saving;
mod store;

use case::answer_line;
use running::Base;
use std::io;
use std::sync::Wait;
use std::thread::Threads;
use store::Store;

fn main(rt: HostRuntime) -> io::Result<()> {
    let mut base = Base::new(rt.alloc());
    let mut store = Store::none();
    answer_lines(&rt, &rt, &mut base, &mut store)
}

// `threads` is the runtime again, of which `main` alone knows that it has threads.
fn answer_lines<R: Threads + Wait + Sync + AllocGlobal>(
    rt: &HostRuntime,
    threads: &R,
    base: &mut Base,
    store: &mut Store,
) -> io::Result<()> {
    for line in rt.lines(rt.alloc()) {
        let line = line?;
        print_answer(rt, threads, base, store, line.as_str())?;
    }
    Ok(())
}

fn print_answer<R: Threads + Wait + Sync + AllocGlobal>(
    rt: &HostRuntime,
    threads: &R,
    base: &mut Base,
    store: &mut Store,
    line: &str,
) -> io::Result<()> {
    match answer_line(rt, threads, base, store, line) {
        Ok(answer) => {
            let answer = answer.as_str();
            println!(rt; "{answer}")
        }
        Err(fault) => println!(rt; "{fault}"),
    }
}
