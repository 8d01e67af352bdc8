// Where instructions lead.
ghost use Rattle.vg_select.specs.Selected as selected;

use vg_put_flow::{Hop, Turn, Way};

/// Where an instruction leads: its jump, its branch or its call, whichever it has. The others of these count for nothing.
#[derive(Clone, Copy)]
pub struct Leading {
    pub jump: Hop,
    pub branch: Turn,
    pub call: Way,
    /// The word address of the piece in which the program waits for interrupts.
    pub idle: u16,
}
