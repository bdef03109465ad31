// The commands, by the words of the command line.
ghost use Rattle.std.specs.Prelude.{◌≡◌, map, string_bytes};
ghost use Rattle.std.specs.List.{list_all};
ghost use Rattle.pr_backfill.specs.pr_text.Script.{written_time};
ghost use Rattle.pr_top.specs.Command.{are_names, backfill_by, backfill_of, check_of, command_of, exercise_of, is_file_word, run_of, step_of, test_of, times_by};
ghost use Rattle.pr_top.specs.Words.{asks_for};

use pr_backfill::backfill_command::Times;
use pr_engine::time::{Ms, Span, read_span};
use pr_exercise::Rounds;
use pr_outside::words_crate::laws::plain_decimals_are_printed_numbers;
use pr_outside::words_crate::plain_decimal;

/// What the words ask for.
#[derive(Drop)]
pub(crate) enum Command<'a> {
    /// Answers the script of the input, over the store of this path; the empty path is a store in
    /// memory.
    Run {
        path: &'a str,
    },
    /// Checks the test files of these names.
    TestRules {
        names: &'a [String],
    },
    /// Checks the rule files of these names.
    CheckRules {
        names: &'a [String],
    },
    /// Checks the exposition of the input.
    CheckMetrics,
    /// Answers a script of so many rounds that is made up.
    Exercise {
        rounds: Rounds,
    },
    /// Evaluates the recording rules of these files at these times, over the store of this path.
    Backfill {
        path: &'a str,
        times: Times,
        names: &'a [String],
    },
}

// A file or a store is named by a word that is not empty and does not begin with a dash.
fn is_file_word(word: &str) -> bool
    ensures { result ≡ is_file_word word.now }
{
    match word.as_bytes() {
        [] => false,
        [first, ..] => *first != b'-',
    }
}

fn are_file_words(words: &[String]) -> bool
    ensures { result ≡ list_all is_file_word (map string_bytes words.now) }
{
    let mut rest = words;
    'testing: while let Some((word, after)) = rest.split_first() {
        if !is_file_word(word) {
            return false;
        }
        rest = after;
    }
    true
}

fn are_names(words: &[String]) -> bool
    ensures { result ≡ are_names (map string_bytes words.now) }
{
    match words {
        [] => false,
        [_, ..] => are_file_words(words),
    }
}

fn run_of(words: &[String]) -> Option<Command<'_>>
    ensures { asks_for result ≡ run_of (map string_bytes words.now) }
{
    match words {
        [] => Some(Command::Run { path: "" }),
        [option, path] if option.as_str() == "--store" && is_file_word(path) => {
            Some(Command::Run { path })
        }
        _ => None,
    }
}

fn test_of(words: &[String]) -> Option<Command<'_>>
    ensures { asks_for result ≡ test_of (map string_bytes words.now) }
{
    match words {
        [kind, names @ ..] if kind.as_str() == "rules" && are_names(names) => {
            Some(Command::TestRules { names })
        }
        _ => None,
    }
}

fn check_of(words: &[String]) -> Option<Command<'_>>
    ensures { asks_for result ≡ check_of (map string_bytes words.now) }
{
    match words {
        [kind] if kind.as_str() == "metrics" => Some(Command::CheckMetrics),
        [kind, names @ ..] if kind.as_str() == "rules" && are_names(names) => {
            Some(Command::CheckRules { names })
        }
        _ => None,
    }
}

fn exercise_of(words: &[String]) -> Option<Command<'_>>
    ensures { asks_for result ≡ exercise_of (map string_bytes words.now) }
{
    plain_decimals_are_printed_numbers();
    let [rounds] = words else {
        return None;
    };
    match plain_decimal(rounds.as_bytes(), 100_001) {
        None | Some(0) => None,
        Some(count) => Some(Command::Exercise {
            rounds: Rounds::new(count),
        }),
    }
}

fn written_time(word: &str) -> Option<Ms>
    ensures { result ≡ written_time word.now }
{
    Ms::new(plain_decimal(word.as_bytes(), 1 << 42)?)
}

#[tactic(auto, using(crate::proofs::WordTimes::step_read, crate::proofs::WordTimes::no_step))]
fn step_of(word: &str) -> Option<Span>
    ensures { result ≡ step_of word.now }
{
    match read_span(word.as_bytes()) {
        Ok(step) => Some(step),
        Err(_) => None,
    }
}

fn times_by(first: Option<Ms>, last: Option<Ms>, step: Option<Span>) -> Option<Times>
    ensures { result ≡ times_by first last step }
{
    let (Some(first), Some(last), Some(step)) = (first, last, step) else {
        return None;
    };
    Times::new(first, last, step)
}

fn times_of(first: &str, last: &str, step: &str) -> Option<Times>
    ensures { result ≡ times_by (written_time first.now) (written_time last.now) (step_of step.now) }
{
    times_by(written_time(first), written_time(last), step_of(step))
}

fn backfill_by<'a>(path: &'a str, times: Option<Times>, names: &'a [String]) -> Option<Command<'a>>
    ensures { asks_for result ≡ backfill_by path.now times (map string_bytes names.now) }
{
    match times {
        Some(times) if is_file_word(path) && are_names(names) => {
            Some(Command::Backfill { path, times, names })
        }
        _ => None,
    }
}

#[tactic(auto, using(crate::proofs::WordTimes::few))]
fn backfill_of(words: &[String]) -> Option<Command<'_>>
    ensures { asks_for result ≡ backfill_of (map string_bytes words.now) }
{
    match words {
        [path, first, last, step, names @ ..] => {
            backfill_by(path, times_of(first, last, step), names)
        }
        _ => None,
    }
}

/// The command that the words ask for, where they are one of the forms.
pub(crate) fn command_of(words: &[String]) -> Option<Command<'_>>
    ensures { asks_for result ≡ command_of (map string_bytes words.now) }
{
    let (first, rest) = words.split_first()?;
    if first.as_str() == "run" {
        run_of(rest)
    } else if first.as_str() == "test" {
        test_of(rest)
    } else if first.as_str() == "check" {
        check_of(rest)
    } else if first.as_str() == "exercise" {
        exercise_of(rest)
    } else if first.as_str() == "backfill" {
        backfill_of(rest)
    } else {
        None
    }
}
