ghost use Rattle.std.specs.Prelude.{◌≡◌, [], ◌∷◌};
ghost use Rattle.dsp_command.specs.Words.{are_gen_names, are_run_names, command_of, count_of, direction_of};
ghost use Rattle.dsp_command.specs.Words.{generating, of_six, places_of, running};
ghost use Rattle.std.specs.Char.{is_ascii_digit};
ghost use Rattle.std.specs.List.{list_all};

use crate::words::Words;
use dsp_command::{Command, Places};
use dsp_defs::{Direction, MAX_GENERATED};

fn all_digits(word: &str) -> bool
    ensures { result ≡ list_all is_ascii_digit word.now }
{
    word.as_bytes().iter().all(|byte| byte.is_ascii_digit())
}

/// The number that a count of one to ten digits gives.
fn count(word: &str) -> Option<u32>
    ensures { result ≡ count_of word.now }
{
    if word.is_empty() || word.len() > 10 || !all_digits(word) {
        return None;
    }
    word.parse().ok()
}

fn are_run_names(script: &str, input: &str, output: &str) -> bool
    ensures { result ≡ are_run_names script.now input.now output.now }
{
    !script.is_empty()
        && !input.is_empty()
        && !output.is_empty()
        && output != script
        && output != input
}

fn are_gen_names(script: &str, output: &str) -> bool
    ensures { result ≡ are_gen_names script.now output.now }
{
    !script.is_empty() && !output.is_empty() && output != script
}

/// The command that makes so many frames from a seed, unless they are too many.
fn generating(seed: Option<u32>, frames: Option<u32>) -> Option<Command>
    ensures { result ≡ generating seed frames }
{
    match (seed, frames) {
        (Some(seed), Some(frames)) if frames <= MAX_GENERATED => {
            Some(Command::Gen { seed, frames })
        }
        _ => None,
    }
}

/// The run that a verb asks for, banked or not, in blocks of the length that is named.
fn running(verb: &str, block: Option<u32>) -> Option<Command>
    ensures { result ≡ running verb.now block }
{
    let banked = match verb {
        "run" => false,
        "bank" => true,
        _ => return None,
    };
    Some(Command::Run { block, banked })
}

/// The way from one named form of file to the other.
fn direction(from: &str, to: &str) -> Option<Direction>
    ensures { result ≡ direction_of from.now to.now }
{
    if from == "wave" && to == "au" {
        Some(Direction::WaveToAu)
    } else if from == "au" && to == "wave" {
        Some(Direction::AuToWave)
    } else {
        None
    }
}

/// What two words ask for.
fn command_of_two(verb: &str, script: &str) -> Option<Command>
    ensures { result ≡ command_of (verb.now ∷ script.now ∷ []) }
{
    if verb == "print" && !script.is_empty() {
        return Some(Command::Print);
    }
    None
}

/// What four words ask for.
fn command_of_four(verb: &str, script: &str, input: &str, output: &str) -> Option<Command>
    ensures { result ≡ command_of (verb.now ∷ script.now ∷ input.now ∷ output.now ∷ []) }
{
    if verb == "check" && !script.is_empty() && !input.is_empty() && !output.is_empty() {
        return Some(Command::Check);
    }
    if are_run_names(script, input, output) {
        return running(verb, None);
    }
    None
}

/// What five words ask for.
fn command_of_five(
    verb: &str,
    second: &str,
    third: &str,
    fourth: &str,
    output: &str,
) -> Option<Command>
    ensures { result ≡ command_of (verb.now ∷ second.now ∷ third.now ∷ fourth.now ∷ output.now ∷ []) }
{
    if verb == "gen" && are_gen_names(fourth, output) {
        return generating(count(second), count(third));
    }
    if verb == "resume" && second == "go" && are_run_names(third, fourth, output) {
        return Some(Command::Go);
    }
    if verb == "convert" && are_gen_names(fourth, output) {
        let direction = direction(second, third)?;
        return Some(Command::Convert { direction });
    }
    None
}

/// What six words ask for.
fn command_of_six(
    verb: &str,
    second: &str,
    third: &str,
    fourth: &str,
    fifth: &str,
    last: &str,
) -> Option<Command>
    ensures { result ≡ of_six verb.now second.now third.now fourth.now fifth.now last.now }
{
    if verb == "resume" && second == "stop" && are_run_names(fourth, fifth, last) {
        let frames = count(third)?;
        return Some(Command::Stop { frames });
    }
    if are_run_names(second, third, fourth) && fifth == "block" {
        let frames = count(last)?;
        return running(verb, Some(frames));
    }
    None
}

/// What the words ask for, if they are a command.
pub(crate) fn command(words: &Words) -> Option<Command>
    ensures { result ≡ command_of words.now }
{
    match words.len() {
        2 => command_of_two(words.word(0), words.word(1)),
        4 => command_of_four(words.word(0), words.word(1), words.word(2), words.word(3)),
        5 => command_of_five(
            words.word(0),
            words.word(1),
            words.word(2),
            words.word(3),
            words.word(4),
        ),
        6 => command_of_six(
            words.word(0),
            words.word(1),
            words.word(2),
            words.word(3),
            words.word(4),
            words.word(5),
        ),
        _ => None,
    }
}

/// The places of the command that the words are, if they are one. It takes no memory.
pub fn places(words: &Words) -> Option<Places>
    ensures { result ≡ places_of words.now }
{
    match command(words)? {
        Command::Run { .. } => Some(Places {
            script: Some(1),
            input: Some(2),
            output: Some(3),
            other: None,
        }),
        Command::Gen { .. } => Some(Places {
            script: Some(3),
            input: None,
            output: Some(4),
            other: None,
        }),
        Command::Print => Some(Places {
            script: Some(1),
            input: None,
            output: None,
            other: None,
        }),
        Command::Stop { .. } => Some(Places {
            script: Some(3),
            input: Some(4),
            output: Some(5),
            other: None,
        }),
        Command::Go => Some(Places {
            script: Some(2),
            input: Some(3),
            output: Some(4),
            other: None,
        }),
        Command::Convert { .. } => Some(Places {
            script: None,
            input: Some(3),
            output: Some(4),
            other: None,
        }),
        Command::Check => Some(Places {
            script: Some(1),
            input: Some(2),
            output: None,
            other: Some(3),
        }),
    }
}
