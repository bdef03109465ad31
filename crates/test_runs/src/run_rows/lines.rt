// The lines of a row, by their marks.
//
// - `$` and the words of the command line. Where there are none it is `run`, whose first line,
//   `opened N`, is not told.
// - `@` and the name of a file, and maybe its first line; `|` and a further line of that file.
// - `>` and a line of the input, and maybe ` => ` and what is written then, its lines apart by
//   ` / `.
// - `+`, a time, and samples of that time, apart by `; `, each of which is added.
// - `endless`: the input is comments without end.
// - `<` and a line that is written.
// - `had` and a row of the store at the start, SERIES|TIME|POINT; `kept` and a row that is there at
//   the end, or `kept` alone where there is to be none. Without such a line rows are not looked at.
// - `read`, `write`, `load`, or of the store `start`, `commit` or `fetch`, and the number of a call
//   that is refused; `spoil` and the number of a row handed out that no program writes.
// - `each` and `cut`: further runs, that end early (`differences.rt`).
// - `--` and a comment.
// - `*`, a number, and one of these lines, which stands there so often, with `№` and `‹A№+B›` for the
//   time, but in what is repeated within it.
//
// The signs of its texts stand in `signs.rt`.

/// The marks of lines.
const MARKS: [&str; 20] = [
    "$", "@", "|", ">", "+", "<", "--", "endless", "had", "kept", "read", "write", "load", "start",
    "commit", "fetch", "spoil", "each", "cut", "",
];

/// The mark of a line, and what stands behind it.
pub(crate) fn marked(line: &str) -> (&str, &str) {
    line.split_once(' ').unwrap_or((line, ""))
}

/// The number that a text is, or 0.
pub(crate) fn number_of(text: &str) -> u64 {
    text.parse::<u64>().unwrap_or(0)
}

/// The number at the front of a text, and what stands behind it.
pub(crate) fn counted(text: &str) -> (u64, &str) {
    let (number, rest) = text.split_once(' ').unwrap_or((text, ""));
    (number_of(number), rest)
}

/// Whether a line has this mark.
pub(crate) fn has_mark(lines: &str, mark: &str) -> bool {
    lines.lines().any(|line| marked(line).0 == mark)
}

/// A line of no mark.
pub(crate) fn odd_line(lines: &str) -> Option<&str> {
    lines.lines().find(|line| !MARKS.contains(&marked(line).0))
}
