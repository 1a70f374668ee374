use crate::fault::CaseFault;
use lk_answer::{Scratch, ask};
use lk_ask::AskFault;
use lk_edition::Edition;
use lk_types::Reply;
use lk_val::Text;
use std::alloc::Global;

/// The moment of the opening and of all queries: 2024-03-02 00:00:00 UTC, in seconds from 1970-01-01 00:00:00 UTC.
pub const NOW: i64 = 1_709_337_600;

/// The answer of a line, `USER | EXPLORE | BODY`: what becomes of the query, how many rows are visible to its caller, and how many
/// rows of an aggregate table it is answered from. An empty line and a heading stand as they are.
pub fn answer_line(alloc: Global, edition: &Edition, line: &str) -> Result<Text, CaseFault> {
    if line.is_empty() || line.starts_with("#") {
        return Ok(Text::from_str(alloc, line)?);
    }
    let (user, rest) = line.split_once(" | ").ok_or(CaseFault::NoSuchCase)?;
    let (explore, body) = rest.split_once(" | ").ok_or(CaseFault::NoSuchCase)?;
    let user = Text::from_str(alloc, user)?;
    let explore = Text::from_str(alloc, explore)?;
    answer_query(alloc, edition, &user, &explore, body)
}

fn answer_query(
    alloc: Global,
    edition: &Edition,
    user: &Text,
    explore: &Text,
    body: &str,
) -> Result<Text, CaseFault> {
    let mut scratch = Scratch::new();
    let asked = ask(
        alloc,
        edition,
        user,
        explore,
        body.as_bytes(),
        NOW,
        false,
        &mut scratch,
    );
    print_counts(alloc, &asked, &scratch)
}

fn print_counts(
    alloc: Global,
    asked: &Result<Reply, AskFault>,
    scratch: &Scratch,
) -> Result<Text, CaseFault> {
    let (joined, rolled) = (scratch.joined_rows, scratch.rollup_rows);
    let answer = match asked {
        Ok(reply) => {
            let status = reply.status;
            format!(in alloc; "{status} joined {joined} rolled {rolled}")?
        }
        Err(fault) => {
            let code = code_of(fault);
            format!(in alloc; "{code} joined {joined} rolled {rolled}")?
        }
    };
    Ok(Text::from_string(answer))
}

fn code_of(fault: &AskFault) -> &'static str {
    match fault {
        AskFault::Q1(_) => "Q1",
        AskFault::Q2(_) => "Q2",
        AskFault::Q3 => "Q3",
        AskFault::Q4(_) => "Q4",
        AskFault::Q5 { .. } => "Q5",
        AskFault::Q6 { .. } => "Q6",
        AskFault::Q7(_) => "Q7",
        AskFault::Q8(_) => "Q8",
        AskFault::Q9 { .. } => "Q9",
        AskFault::Q10 => "Q10",
        AskFault::NoMemory => "memory",
    }
}
