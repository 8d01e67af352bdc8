// Whether procedures have what linear code asks of them.
ghost use Rattle.std.specs.Prelude.{◌↔◌, IsTrue};
ghost use Rattle.std.specs.List.{AllByRecursion};
ghost use Rattle.vg_lin.specs.Sound.{IsWidth};
ghost use Rattle.vg_linear.specs.Widths.{AllHaveWidths, HasWidths};

use vg_firm::Procedure;

/// Whether each procedure has locals of one to four bytes, as many as parameters or more, and a result of at most four bytes.
pub fn all_have_widths(procedures: &[Procedure]) -> bool
    ensures { IsTrue result ↔ AllHaveWidths procedures.now }
{
    for procedure in procedures {
        if !has_widths(procedure) {
            return false;
        }
    }
    true
}

fn has_widths(procedure: &Procedure) -> bool
    ensures { IsTrue result ↔ HasWidths procedure.now }
{
    let params = usize::from(procedure.params);
    let are_widths = are_widths(procedure.widths.as_slice());
    params <= procedure.widths.len() && procedure.result <= 4 && are_widths
}

// Whether all are of one to four bytes.
fn are_widths(widths: &[u8]) -> bool
    ensures { IsTrue result ↔ AllByRecursion IsWidth widths.now }
{
    for width in widths {
        if *width < 1 || *width > 4 {
            return false;
        }
    }
    true
}
