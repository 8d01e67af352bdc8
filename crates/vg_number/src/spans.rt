// The intervals of classes.
ghost use Rattle.std.specs.Prelude.{◌≡◌, ◌<◌, IfOk, length, map};
ghost use Rattle.vg_number.specs.Counting.{is_before, is_within, span_by, stand, way_in, where_in, AreSmall, AreSpansBy};

use crate::numbers::Span;
use crate::standing::{Standing, stands, ways};
use std::alloc::Global;
use vg_base::{NoMemory, Row};
use vg_core::Tables;

/// The interval of each class, by how many kept objects each class itself has.
pub fn spans(alloc: Global, tables: &Tables, own: &[u16]) -> Result<Row<Span>, NoMemory>
    requires classes { length own.now < 65536 }
    requires small { AreSmall own.now }
    ensures { IfOk result (AreSpansBy tables.now own.now) }
{
    let ways = ways(alloc, tables)?;
    let mut spans = Row::new(alloc);
    for class in 0..own.len() {
        let span = span(tables, ways.as_slice(), own, class as u16);
        spans.push(span)?;
    }
    Ok(spans)
}

// The interval of a class: it begins behind the objects of all classes that stand earlier.
fn span(tables: &Tables, ways: &[Row<u16>], own: &[u16], class: u16) -> Span
    requires ways { ways.now ≡ map way_in tables.now.classes }
    requires classes { length own.now < 65536 }
    requires small { AreSmall own.now }
    ensures { result ≡ span_by tables.now own.now class }
{
    let mut earlier = 0u16;
    let mut inside = 0u16;
    for other in 0..own.len() {
        match stands(tables, ways, class, other as u16) {
            Some(Standing::Earlier) => earlier += own[other],
            Some(Standing::Inside) => inside += own[other],
            Some(Standing::Later) => {}
            None => {}
        }
    }
    Span {
        first: 1 + earlier,
        count: inside,
    }
}
