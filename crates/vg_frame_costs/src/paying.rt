// Whether costs pay for frames.
ghost use Rattle.std.specs.Prelude.{◌+◌, ◌≤◌, ◌↔◌, IsTrue};
ghost use Rattle.vg_frame_costs.specs.Fitting.{ArePaid};

/// Whether the costs of methods pay for their frames: each frame is at most the cost at its place, and so it is with the bytes that lie beside all frames,
/// but for so many bytes.
pub fn are_paid(beside: u32, extra: u32, frames: &[u32], costs: &[u32]) -> bool
    ensures { IsTrue result ↔ ArePaid beside extra frames.now costs.now }
{
    match frames {
        [] => true,
        [frame, frames @ ..] => match costs {
            [] => false,
            [cost, costs @ ..] => {
                is_paid(beside, extra, *frame, *cost) && are_paid(beside, extra, frames, costs)
            }
        },
    }
}

fn is_paid(beside: u32, extra: u32, frame: u32, cost: u32) -> bool
    ensures { IsTrue result ↔ ((frame ≤ cost) × (frame + beside ≤ extra + cost)) }
{
    frame <= cost && u64::from(frame) + u64::from(beside) <= u64::from(extra) + u64::from(cost)
}
