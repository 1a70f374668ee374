//! Cases of the rows that an answer comes of, which no run of lookd shows: a line of the input is a query of the shop in `data/`, as
//! `all | orders | {"fields":["orders.count"]}`, and its answer the status or the refusal's code with the two counts.
#![tactic(auto)]

mod case;
mod fault;
mod opening;

use case::answer_line;
use lk_edition::Edition;
use opening::open_folder;
use std::io;

fn main(rt: HostRuntime) -> io::Result<()> {
    match open_folder(&rt, "shop") {
        Ok(edition) => answer_lines(&rt, &edition),
        Err(fault) => println!(rt; "{fault}"),
    }
}

fn answer_lines(rt: &HostRuntime, edition: &Edition) -> io::Result<()> {
    for line in rt.lines(rt.alloc()) {
        let line = line?;
        print_answer(rt, edition, line.as_str())?;
    }
    Ok(())
}

fn print_answer(rt: &HostRuntime, edition: &Edition, line: &str) -> io::Result<()> {
    match answer_line(rt.alloc(), edition, line) {
        Ok(answer) => {
            let answer = answer.as_str();
            println!(rt; "{answer}")
        }
        Err(fault) => println!(rt; "{fault}"),
    }
}
