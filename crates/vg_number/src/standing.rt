// Where classes stand among one another.
ghost use Rattle.std.specs.Prelude.{◌≡◌, [], IfOk, map};
ghost use Rattle.vg_core.specs.State.{onto};
ghost use Rattle.vg_number.specs.Counting.{stand, way_in, where_in, where_of};
ghost use Rattle.vg_numbers.specs.Keys.{place};

use std::alloc::Global;
use vg_base::{NoMemory, Row};
use vg_core::Tables;
use vg_shape::lookup;

/// Where the objects of a class stand against another class: earlier, inside it, or later.
#[derive(Clone, Copy)]
pub enum Standing {
    Earlier,
    Inside,
    Later,
}

/// The ways down to the classes, each from the topmost class above it.
pub fn ways(alloc: Global, tables: &Tables) -> Result<Row<Row<u16>>, NoMemory>
    ensures { IfOk result (λ rows. rows ≡ map way_in tables.now.classes) }
{
    let mut rows = Row::new(alloc);
    for class in tables.classes.as_slice() {
        let row = turned(alloc, class.above.as_slice())?;
        rows.push(row)?;
    }
    Ok(rows)
}

// A list the other way round.
fn turned(alloc: Global, above: &[u16]) -> Result<Row<u16>, NoMemory>
    ensures { IfOk result (λ row. row ≡ onto above.now []) }
{
    let mut row = Row::new(alloc);
    for class in above {
        row.insert(0, *class)?;
    }
    Ok(row)
}

// Where one way stands against another.
fn compared(class: &[u16], other: &[u16]) -> Standing
    ensures { where_of result ≡ place class.now other.now }
{
    match class {
        [] => Standing::Inside,
        [c, classes @ ..] => match other {
            [] => Standing::Earlier,
            [x, others @ ..] => {
                if *x < *c {
                    Standing::Earlier
                } else if *c < *x {
                    Standing::Later
                } else {
                    compared(classes, others)
                }
            }
        },
    }
}

/// Where the objects of the other class stand against a class, where both are of one hierarchy.
pub fn stands(tables: &Tables, ways: &[Row<u16>], class: u16, other: u16) -> Option<Standing>
    requires { ways.now ≡ map way_in tables.now.classes }
    ensures { where_in result ≡ stand tables.now class other }
{
    if lookup::one_hierarchy(tables, other, class) {
        match ways.get(usize::from(class)) {
            Some(way) => match ways.get(usize::from(other)) {
                Some(below) => Some(compared(way.as_slice(), below.as_slice())),
                None => None,
            },
            None => None,
        }
    } else {
        None
    }
}
