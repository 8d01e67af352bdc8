// How far the literals of a text are found.
ghost use Rattle.std.specs.Prelude.{◌<◌, All};

use indexmap::IndexSet;
use vg_base::Row;

/// The literals that were found before the node of the next number.
#[derive(Drop)]
pub(crate) struct Search {
    pub next: u32,
    pub nodes: IndexSet<u32>,
    pub texts: Row<Row<u8>>,
    ghost below: { All (λ n. n < next) nodes.keys },
}
