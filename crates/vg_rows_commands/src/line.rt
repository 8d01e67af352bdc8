// One line of the table.

/// A line `kind words`, which sets something for the rows behind it, or `kind words => wanted`, a row.
#[derive(Clone, Copy)]
pub struct CallLine<'a> {
    pub kind: &'a str,
    pub words: &'a str,
    /// What the row must answer, word by word.
    pub wanted: Option<&'a str>,
}

impl<'a> CallLine<'a> {
    /// The parts of a line; none at a comment, which begins with `#`, and at an empty line.
    pub fn of(text: &'a str) -> Option<Self> {
        if text.is_empty() || text.starts_with('#') {
            return None;
        }
        let (left, wanted) = match text.split_once(" =>") {
            Some((left, wanted)) => (left, Some(wanted)),
            None => (text, None),
        };
        let (kind, words) = match left.split_once(' ') {
            Some((kind, words)) => (kind, words),
            None => (left, ""),
        };
        Some(CallLine {
            kind,
            words,
            wanted,
        })
    }
}
