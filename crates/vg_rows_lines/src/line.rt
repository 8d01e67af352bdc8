// One line of a table.

/// A line of three fields with a tab between them: a question, which may have a word of its own behind a space; the text that it is about; and the answer.
#[derive(Clone, Copy)]
pub struct TextLine<'a> {
    pub question: &'a str,
    pub word: &'a str,
    pub text: &'a str,
    pub answer: &'a str,
}

impl<'a> TextLine<'a> {
    /// The fields of a line; None where the line has none, and at a comment, which begins with `#`.
    pub fn of(line: &'a str) -> Option<Self> {
        if line.starts_with('#') {
            return None;
        }
        let (asked, fields) = line.split_once('\t')?;
        let (text, answer) = fields.split_once('\t')?;
        let (question, word) = asked.split_once(' ').unwrap_or((asked, ""));
        Some(TextLine {
            question,
            word,
            text,
            answer,
        })
    }
}
