// What separates tokens: white space and comments.
ghost use Rattle.std.specs.Prelude.{◌≡◌, ◌≤◌, length};
ghost use Rattle.vg_syntax.specs.declared.gap.Mode.TheVariants.{Code};
ghost use Rattle.vg_syntax.specs.Bytes.{is_blank};
ghost use Rattle.vg_syntax.specs.Tokens.{gap};

use vg_syntax::Mode;

// How many bytes of white space and comments a text begins with.
pub(crate) fn gap_length(text: &[u8]) -> usize
    ensures value { result ≡ gap Code text.now }
    ensures within { result ≤ length text.now }
{
    let mut mode = Mode::Code;
    let mut count = 0;
    let mut rest = text;
    while let Some((first, behind)) = rest.split_first() {
        if let Mode::Comment = mode {
            if *first == b'\n' {
                mode = Mode::Code;
            }
        } else if *first == b'/' && behind.first() == Some(&b'/') {
            mode = Mode::Comment;
        } else if !is_blank(*first) {
            return count;
        }
        count += 1;
        rest = behind;
    }
    count
}

fn is_blank(b: u8) -> bool
    ensures { result ≡ is_blank b }
{
    b == b' ' || b == b'\t' || b == b'\r' || b == b'\n'
}
