//! Cases of what no run of lookd shows: a line of the input names one, as `fraction | 1/2 plus 1/3`, and its answer is a
//! line, as `5/6`.
#![tactic(auto)]

mod case;
mod chain;
mod conditions;
mod fault;
mod filters;
mod forms;
mod fractions;
mod given;
mod lists;
mod literal;
mod measures;
mod merging;
mod ops;
mod orders;
mod printing;
mod rows;
mod signs;
mod subject;
mod tables;
mod times;
mod trees;
mod utf8;
mod values;
mod written;

use case::add_answer;
use std::io;

fn main(rt: HostRuntime) -> io::Result<()> {
    for line in rt.lines(rt.alloc()) {
        let line = line?;
        print_answer(&rt, line.as_str())?;
    }
    Ok(())
}

fn print_answer(rt: &HostRuntime, line: &str) -> io::Result<()> {
    let mut answer = String::new(rt.alloc());
    match add_answer(rt.alloc(), line, &mut answer) {
        Ok(()) => {
            let answer = answer.as_str();
            println!(rt; "{answer}")
        }
        Err(fault) => println!(rt; "{fault}"),
    }
}
