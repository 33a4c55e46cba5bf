//! Runs the cases of its input over ports in memory, and says how many of them agree. A line has the words
//! of one or more commands, apart by `,`, and their script, input, status, report and output, apart by `|`;
//! bytes are in hex, or a text behind `=` whose semicolons end lines. The command `-` has no words. The output
//! of a `check` is the file that it compares. A last field, where there is one, says in pairs of words, apart
//! by `,`, how the ports behave: `input 3` is that the third read of the input fails, `piece 4` that a call
//! passes four bytes at most, `room 3` that the output holds three, `taken 8` that eight are to be taken of the
//! input, and `seen 5` that five are to be taken of the file that a check compares. A line that begins with `#`
//! is a comment.
//!
//! Each line of a run that is done is checked besides: its output by `check`, and its output with one byte
//! changed. The last line says how many of these were found right.
#![tactic(auto)]

mod case;
mod play;

use crate::case::Case;
use crate::play::{agrees, has_output, is_found};
use std::alloc::Global;
use std::io::{self, Print};

/// How many commands agreed, and how many outputs a check found.
#[derive(Clone, Copy)]
struct Counts {
    agreed: u64,
    found: u64,
}

/// Plays the commands of a case, and checks its output where it has one; what is not as it must be is printed.
fn count_case(
    alloc: Global,
    rt: &impl Print,
    case: &Case,
    line: &str,
    counts: Counts,
) -> io::Result<Counts> {
    let Counts {
        mut agreed,
        mut found,
    } = counts;
    for command in case.commands.as_str().split(',') {
        if agrees(alloc, case, command)? {
            agreed = agreed.saturating_add(1);
        } else {
            println!(rt; "differs: {command}: {line}")?;
        }
    }
    if has_output(case) {
        if is_found(alloc, case, found)? {
            found = found.saturating_add(1);
        } else {
            println!(rt; "not found by a check: {line}")?;
        }
    }
    Ok(Counts { agreed, found })
}

fn main(rt: HostRuntime) -> io::Result<()> {
    let mut counts = Counts {
        agreed: 0,
        found: 0,
    };
    for line in rt.lines(rt.alloc()) {
        let line = line?;
        let line = line.as_str();
        if line.starts_with('#') {
            continue;
        }
        match Case::parse(rt.alloc(), line) {
            Ok(case) => counts = count_case(rt.alloc(), &rt, &case, line, counts)?,
            Err(_) => println!(rt; "no case: {line}")?,
        }
    }
    let Counts { agreed, found } = counts;
    println!(rt; "{agreed} cases agree")?;
    println!(rt; "{found} outputs are found by a check, and a changed byte in each")?;
    Ok(())
}
