// Which cases of a dispatch are tried. No chip has room for the code of so many cases that to look at all of them for each one took long.
ghost use Rattle.std.specs.Prelude.{◌≡◌, ◌≤◌, length};
ghost use Rattle.vg_templates.specs.Choices.{count_of, most_in, usual, are_apart, is_alone};

use vg_codes::Case;

// How many cases have a procedure.
fn count_of(procedure: u16, cases: &[Case]) -> usize
    ensures count { result ≡ count_of procedure cases.now }
    ensures few { result ≤ length cases.now }
{
    match cases {
        [] => 0,
        [first, rest @ ..] => {
            let count = count_of(procedure, rest);
            if first.procedure == procedure {
                1 + count
            } else {
                count
            }
        }
    }
}

// Of a procedure and those of some cases the first one that most of all cases have.
fn most_in(all: &[Case], procedure: u16, cases: &[Case]) -> u16
    ensures { result ≡ most_in all.now procedure cases.now }
{
    match cases {
        [] => procedure,
        [first, rest @ ..] => {
            let more = if count_of(procedure, all) < count_of(first.procedure, all) {
                first.procedure
            } else {
                procedure
            };
            most_in(all, more, rest)
        }
    }
}

/// The procedure that stands where no test holds: the first one that most cases have.
pub fn usual(cases: &[Case]) -> u16
    ensures { result ≡ usual cases.now }
{
    match cases {
        [] => 0,
        [first, rest @ ..] => most_in(cases, first.procedure, rest),
    }
}

// Whether two cases share no number.
fn are_apart(first: Case, second: Case) -> bool
    ensures { result ≡ are_apart first second }
{
    u32::from(first.first) + u32::from(first.count) <= u32::from(second.first)
        || u32::from(second.first) + u32::from(second.count) <= u32::from(first.first)
}

/// Whether a case shares no number with those behind it that have another procedure than this one.
pub fn is_alone(procedure: u16, case: Case, cases: &[Case]) -> bool
    ensures { result ≡ is_alone procedure case cases.now }
{
    match cases {
        [] => true,
        [first, rest @ ..] => {
            (first.procedure == procedure || are_apart(case, *first))
                && is_alone(procedure, case, rest)
        }
    }
}
