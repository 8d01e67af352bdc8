// Procedures of linear code.
ghost use Rattle.std.specs.Prelude.{◌≡◌};
ghost use Rattle.vg_lin.specs.Program.{Procedure};
ghost use Rattle.vg_lin.specs.Sound.{IsSound};

use crate::instr::Instr;
use std::marker::Model;
use vg_base::Row;

/// A procedure of linear code: at most 252 locals, operands in range, results of one width, and no jump to itself.
#[derive(Drop)]
pub struct LinProc {
    method: Option<u16>,
    params: u8,
    result_width: u8,
    widths: Row<u8>,
    code: Row<Instr>,
}

impl Model for LinProc {
    ghost Value = { Procedure };

    ghost view = { λ p. record { method = p.method; params = p.params; result = p.result_width; widths = p.widths; code = p.code } };

    ghost invariant = { λ p. IsSound (record { method = p.method; params = p.params; result = p.result_width; widths = p.widths; code = p.code }) };
}

impl LinProc {
    /// The procedure with these locals, of which the first ones are its parameters, with a result of so many bytes, and this code.
    ///
    /// A width counts the bytes of a local. The method is its number in the order of the text, where the procedure is one.
    pub fn new(
        method: Option<u16>,
        params: u8,
        result_width: u8,
        widths: Row<u8>,
        code: Row<Instr>,
    ) -> Self
        requires { IsSound (record { method = method; params = params; result = result_width; widths = widths; code = code }) }
        ensures { result ≡ record { method = method; params = params; result = result_width; widths = widths; code = code } }
    {
        LinProc {
            method,
            params,
            result_width,
            widths,
            code,
        }
    }

    /// The method that the procedure is, by its number in the order of the text.
    pub fn method(&self) -> Option<u16>
        ensures { result ≡ self.now.method }
    {
        self.method
    }

    /// How many of the first locals are parameters.
    pub fn params(&self) -> u8
        ensures { result ≡ self.now.params }
    {
        self.params
    }

    /// How many bytes its result has: at most four.
    pub fn result_width(&self) -> u8
        ensures { result ≡ self.now.result }
    {
        self.result_width
    }

    /// The widths of the locals in bytes.
    pub fn widths(&self) -> &[u8]
        ensures { result.now ≡ self.now.widths }
    {
        self.widths.as_slice()
    }

    /// The instructions. A place of a jump is an index among them.
    pub fn code(&self) -> &[Instr]
        ensures { result.now ≡ self.now.code }
    {
        self.code.as_slice()
    }

    /// What every procedure keeps, for its holder. It does nothing: only its clause counts.
    pub fn keeps(&self)
        ensures { IsSound self.now }
    {
        let _code = &self.code;
    }
}
