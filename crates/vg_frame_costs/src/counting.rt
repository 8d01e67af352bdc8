// Sums of widths, and costs.
ghost use Rattle.std.specs.Prelude.{◌≡◌, ◌*◌, ◌≤◌, length, max};
ghost use Rattle.vg_source.specs.Peak.{cost_of as cost_in};
ghost use Rattle.vg_frame_costs.specs.Bytes.{bytes_of as bytes_in};

/// The sum of at most 65,535 widths.
pub fn width_sum(widths: &[u8]) -> u32
    requires { length widths.now ≤ 65535 }
    ensures bytes { result ≡ bytes_in widths.now }
    ensures few { result ≤ 255 * 65535 }
{
    let mut sum = 0;
    for width in widths {
        sum += u32::from(*width);
    }
    sum
}

/// The larger of two numbers.
pub fn larger(first: u32, second: u32) -> u32
    ensures { result ≡ max first second }
{
    if first < second { second } else { first }
}

/// What the method with this number costs; one that has no cost here costs nothing.
#[tactic(auto, using(crate::proofs::Counted::cost_at, crate::proofs::Counted::cost_behind))]
pub fn cost_of(costs: &[u32], method: u16) -> usize
    ensures { result ≡ cost_in costs.now method }
{
    let index = usize::from(method);
    if index < costs.len() {
        costs[index] as usize
    } else {
        0
    }
}
