// The bytes of tables.
ghost use Rattle.std.specs.Prelude.{◌≡◌, ◌+◌, ◌≤◌, ◌/◌, map, length, IfOk};
ghost use Rattle.vg_tables.specs.Bytes.{byte_of};
ghost use Rattle.vg_laid.specs.Laid.{codes_by};

use std::alloc::Global;
use vg_base::{NoMemory, Row};
use vg_put_operations::code_of;
use vg_tables::Datum;

/// The word address behind the vectors and so many bytes of tables.
pub fn word_behind_tables(bytes: usize) -> u32
    requires { bytes ≤ 60000 }
    ensures { result ≡ 70 + (bytes + 1) / 2 }
{
    70 + ((bytes + 1) / 2) as u32
}

fn byte_of(codes: &[u16], datum: Datum) -> u8
    ensures { result ≡ byte_of (codes_by codes.now) datum }
{
    match datum {
        Datum::Byte(byte) => byte,
        Datum::CodeLow(procedure) => (code_of(codes, procedure) % 256) as u8,
        Datum::CodeHigh(procedure) => (code_of(codes, procedure) / 256) as u8,
    }
}

/// The bytes of tables, by the code numbers of procedures.
pub fn table_bytes(alloc: Global, codes: &[u16], tables: &[Datum]) -> Result<Row<u8>, NoMemory>
    ensures { IfOk result (λ bytes. bytes ≡ map (byte_of (codes_by codes.now)) tables.now) }
{
    let mut bytes = Row::new(alloc);
    for datum in tables {
        bytes.push(byte_of(codes, *datum))?;
    }
    Ok(bytes)
}
