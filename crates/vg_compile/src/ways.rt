// The ways in which the linear program of a packed one is made.
ghost use Rattle.std.specs.Prelude.{◌≡◌, ◌<◌, IfSome, None};
ghost use Rattle.vg_base.specs.declared.refusal.Refusal.TheVariants.{Fault as Faulty};
ghost use Rattle.vg_compile.specs.declared.no_image.NoImage.TheVariants.{Full as TooFull};
ghost use Rattle.vg_compile.specs.declared.ways.Way.TheVariants.{Plain};
ghost use Rattle.vg_compile.specs.Ways.{IsOfWay, lesser as lesser_of, ways_behind};

use crate::no_image::NoImage;
use vg_base::Refusal;
use vg_link::CodeFull;

/// How the linear program of a packed one is made.
#[derive(Clone, Copy, Debug, PartialEq, Eq)]
pub enum Way {
    /// Its procedures are trimmed, and look up in place what dispatches have.
    Trimmed,
    /// They are trimmed, and look up by finders, so that their code takes fewer words.
    Shared,
    /// They are as they were flattened, and look up by finders: of these it is known what they cost at most.
    Plain,
}

/// The way to try where there is no image by another one for this cause, if the cause may be that way.
pub fn next_way(way: Way, why: &Refusal<NoImage>) -> Option<Way>
    ensures fewer { IfSome result (λ next. ways_behind next < ways_behind way) }
    ensures last { IsOfWay why.now → result ≡ None → way ≡ Plain }
{
    match why {
        Refusal::Fault(NoImage::Full(_)) => shorter_way(way),
        Refusal::Fault(NoImage::Costly) | Refusal::Fault(NoImage::Received) => plain_way(way),
        Refusal::Fault(_) | Refusal::NoMemory => None,
    }
}

// The next one of those by which code may take fewer words.
fn shorter_way(way: Way) -> Option<Way>
    ensures fewer { IfSome result (λ next. ways_behind next < ways_behind way) }
    ensures last { result ≡ None → way ≡ Plain }
{
    match way {
        Way::Trimmed => Some(Way::Shared),
        Way::Shared => Some(Way::Plain),
        Way::Plain => None,
    }
}

// The one by which procedures are not trimmed.
fn plain_way(way: Way) -> Option<Way>
    ensures fewer { IfSome result (λ next. ways_behind next < ways_behind way) }
    ensures last { result ≡ None → way ≡ Plain }
{
    match way {
        Way::Trimmed | Way::Shared => Some(Way::Plain),
        Way::Plain => None,
    }
}

/// Why there is no image by two ways, of which the second was tried for the cause of the first: for the last cause; where both take too many words, it is the
/// fewer of these that are said.
pub fn lesser(first: Refusal<NoImage>, last: Refusal<NoImage>) -> Refusal<NoImage>
    ensures { result ≡ lesser_of first last }
{
    match first {
        Refusal::Fault(NoImage::Full(full)) => lesser_than(full, last),
        Refusal::Fault(_) | Refusal::NoMemory => last,
    }
}

// The same behind a way that takes too many words.
fn lesser_than(full: CodeFull, last: Refusal<NoImage>) -> Refusal<NoImage>
    ensures { result ≡ lesser_of (Faulty (TooFull full)) last }
{
    match last {
        Refusal::Fault(NoImage::Full(other)) => {
            if full.words < other.words {
                Refusal::Fault(NoImage::Full(full))
            } else {
                Refusal::Fault(NoImage::Full(other))
            }
        }
        Refusal::Fault(_) | Refusal::NoMemory => last,
    }
}
