// The lines of a text.
ghost use Rattle.std.specs.Prelude.{◌≡◌, ◌<◌, ◌≤◌, ℕ, List, ◌∷◌, length, take, drop};
ghost use Rattle.vg_lines.specs.Lines.{lines};
ghost use Rattle.vg_lines.specs.Walk.{before_lf, without_cr};

/// A line of a text, and the text behind it.
#[derive(Clone, Copy)]
pub struct Line<'a> {
    /// The bytes of the line, without its end.
    pub bytes: &'a [u8],
    /// The text behind the end of the line.
    pub behind: &'a [u8],
}

/// The first line of a text that is not empty. A line ends with LF or CR LF; the last line may have no end.
pub fn first_line(text: &[u8]) -> Line<'_>
    requires { 0 < length text.now }
    ensures lines { lines text.entry.now ≡ result.bytes.now ∷ lines result.behind.now }
    ensures shorter { length result.behind.now < length text.entry.now }
{
    let end = before_lf(text);
    if end < text.len() {
        Line {
            bytes: without_cr(&text[..end]),
            behind: &text[end + 1..],
        }
    } else {
        Line {
            bytes: text,
            behind: &text[end..],
        }
    }
}

// How many bytes stand before the first LF, or all.
fn before_lf(text: &[u8]) -> usize
    ensures count { result ≡ before_lf text.now }
    ensures within { result ≤ length text.now }
{
    let mut count = 0usize;
    for b in text {
        if *b == b'\n' {
            return count;
        }
        count += 1;
    }
    count
}

// A line without the CR at its end, if it has one.
fn without_cr(line: &[u8]) -> &[u8]
    ensures { result.now ≡ without_cr line.entry.now }
{
    if line.is_empty() {
        return line;
    }
    let last = line.len() - 1;
    if line[last] == b'\r' {
        &line[..last]
    } else {
        line
    }
}
