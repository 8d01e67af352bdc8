// What is told of.
use vg_base::Names;
use vg_core::{Cell, Program};
use vg_live::LiveSet;
use vg_placement::Column;
use vg_tree::Node;

/// What is known of a text that fits: its tree, its typed program with the names in it, the cells of its heap, what of them is live, and the columns.
#[derive(Clone, Copy)]
pub struct Known<'a> {
    pub root: &'a Node,
    pub names: &'a Names,
    pub program: &'a Program,
    pub cells: &'a [Cell],
    pub live: &'a LiveSet,
    pub columns: &'a [Column],
}
