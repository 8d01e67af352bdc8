// How procedures are called.
ghost use Rattle.std.specs.Prelude.{◌≡◌, ◌≤◌, ◌∷◌, IfOk, map, replicate, take, length};
ghost use Rattle.vg_flatten_shapes.specs.declared.layout.Width.TheVariants.{Two as TwoBytes, Four as FourBytes};
ghost use Rattle.vg_linear.specs.Passing.{passing_for, passings_for, result_for, width_for};
ghost use Rattle.vg_linear.specs.Widths.{AllHaveWidths, HasWidths};

use std::alloc::Global;
use vg_base::{NoMemory, Row};
use vg_firm::Procedure;
use vg_flatten_shapes::{Passing, Width};

/// How each of these procedures is called.
pub fn passings(alloc: Global, procedures: &[Procedure]) -> Result<Row<Passing>, NoMemory>
    requires { AllHaveWidths procedures.now }
    ensures { IfOk result (λ row. row ≡ passings_for procedures.now) }
{
    let mut row = Row::new(alloc);
    for procedure in procedures {
        row.push(passing(alloc, procedure)?)?;
    }
    Ok(row)
}

// How a procedure is called: one that gets a receiver may be found in the run, and has two bytes for the receiver, and four for each argument
// behind it and for its result.
fn passing(alloc: Global, procedure: &Procedure) -> Result<Passing, NoMemory>
    requires { HasWidths procedure.now }
    ensures { IfOk result (λ p. p ≡ passing_for procedure.now) }
{
    if procedure.receives {
        Ok(Passing {
            receives: true,
            widths: found_widths(alloc, procedure.params)?,
            result: Some(Width::Four),
        })
    } else {
        let widths = procedure.widths.as_slice();
        Ok(Passing {
            receives: false,
            widths: widths_of(alloc, &widths[..usize::from(procedure.params)])?,
            result: result_of(procedure.result),
        })
    }
}

// Two bytes for a receiver, and four for each of so many parameters behind it.
fn found_widths(alloc: Global, params: u8) -> Result<Row<Width>, NoMemory>
    ensures { IfOk result (λ row. row ≡ TwoBytes ∷ replicate params FourBytes) }
{
    let fours = Vec::from_elem(alloc, Width::Four, usize::from(params))?;
    let mut all = Vec::new(alloc);
    all.push(Width::Two)?;
    all.extend_from_slice(fours.as_slice())?;
    Ok(Row::from_vec(all))
}

fn widths_of(alloc: Global, bytes: &[u8]) -> Result<Row<Width>, NoMemory>
    ensures { IfOk result (λ row. row ≡ map width_for bytes.now) }
{
    let mut row = Row::new(alloc);
    for count in bytes {
        row.push(width_of(*count))?;
    }
    Ok(row)
}

// So many bytes, of one to four.
fn width_of(bytes: u8) -> Width
    ensures { result ≡ width_for bytes }
{
    if bytes == 1 {
        Width::One
    } else if bytes == 2 {
        Width::Two
    } else if bytes == 3 {
        Width::Three
    } else {
        Width::Four
    }
}

// The bytes of a result, where there is one.
fn result_of(bytes: u8) -> Option<Width>
    ensures { result ≡ result_for bytes }
{
    if bytes == 0 {
        None
    } else {
        Some(width_of(bytes))
    }
}
