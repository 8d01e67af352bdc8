// The text of a layout.
ghost use Rattle.std.specs.Prelude.{◌≡◌, ◌++◌, IfOk, OnOk};
ghost use Rattle.std.specs.List.{flat_map};
ghost use Rattle.vg_layout.specs.Text.{
  area_line,
  bound_line,
  idle_line,
  kept_line,
  layout_text,
  live_line,
  name_behind,
  parts_text,
  piece_line,
  stack_line,
  stack_text,
  static_line,
};

use crate::layout::{Area, Bound, Kept, Layout, Piece};
use crate::lines::{put_address, put_area, put_kept, put_live, put_number, put_piece};
use std::alloc::Global;
use vg_base::{NoMemory, Row};

/// The lines of a layout, each ended by a line feed: addresses in four hexadecimal digits, in lower case, and other numbers in decimal.
///
/// In this order: `static 0100 n`; `stack floor n`; `bound n`, or `cycle` and the names of methods; `idle word`; `ram address bytes what` and
/// `flash address bytes what`; `objects class n`; `live name`; `code word words name`.
pub fn layout_text(alloc: Global, layout: &Layout) -> Result<Row<u8>, NoMemory>
    ensures { IfOk result (λ text. text ≡ layout_text layout.now) }
{
    let mut text = Row::new(alloc);
    put_stack_use(&mut text, layout)?;
    put_parts(&mut text, layout)?;
    Ok(text)
}

// Puts the lines that say how SRAM is used, and where the program waits.
fn put_stack_use(text: &mut Row<u8>, layout: &Layout) -> Result<(), NoMemory>
    ensures { OnOk result (text.new ≡ text.old ++ stack_text layout.now) }
{
    put_static(text, layout.static_bytes)?;
    put_stack(text, layout.floor, layout.stack)?;
    put_bound(text, &layout.bound)?;
    put_idle(text, layout.idle)
}

// Puts the lines of columns, objects, live members and code.
fn put_parts(text: &mut Row<u8>, layout: &Layout) -> Result<(), NoMemory>
    ensures { OnOk result (text.new ≡ text.old ++ parts_text layout.now) }
{
    put_areas(text, layout.areas.as_slice())?;
    put_objects(text, layout.objects.as_slice())?;
    put_all_live(text, layout.live.as_slice())?;
    put_pieces(text, layout.pieces.as_slice())
}

// Puts the line of the static area.
fn put_static(text: &mut Row<u8>, bytes: u16) -> Result<(), NoMemory>
    ensures { OnOk result (text.new ≡ text.old ++ static_line bytes) }
{
    text.append(b"static 0100 ")?;
    put_number(text, u32::from(bytes))?;
    text.append(b"\n")
}

// Puts the line of the stack.
fn put_stack(text: &mut Row<u8>, floor: u16, bytes: u16) -> Result<(), NoMemory>
    ensures { OnOk result (text.new ≡ text.old ++ stack_line floor bytes) }
{
    text.append(b"stack ")?;
    put_address(text, floor)?;
    text.append(b" ")?;
    put_number(text, u32::from(bytes))?;
    text.append(b"\n")
}

// Puts the line of the place at which the program waits.
fn put_idle(text: &mut Row<u8>, word: u16) -> Result<(), NoMemory>
    ensures { OnOk result (text.new ≡ text.old ++ idle_line word) }
{
    text.append(b"idle ")?;
    put_address(text, word)?;
    text.append(b"\n")
}

// Puts the line that says how much stack is enough.
fn put_bound(text: &mut Row<u8>, bound: &Bound) -> Result<(), NoMemory>
    ensures { OnOk result (text.new ≡ text.old ++ bound_line bound.now) }
{
    match bound {
        Bound::Bytes(bytes) => {
            text.append(b"bound ")?;
            put_number(text, *bytes)?;
            text.append(b"\n")
        }
        Bound::Cycle(names) => {
            text.append(b"cycle")?;
            put_names(text, names.as_slice())?;
            text.append(b"\n")
        }
    }
}

// Puts names, each behind a space.
fn put_names(text: &mut Row<u8>, names: &[Row<u8>]) -> Result<(), NoMemory>
    ensures { OnOk result (text.new ≡ text.old ++ flat_map name_behind names.now) }
{
    for name in names {
        put_name(text, name.as_slice())?;
    }
    Ok(())
}

fn put_name(text: &mut Row<u8>, name: &[u8]) -> Result<(), NoMemory>
    ensures { OnOk result (text.new ≡ text.old ++ name_behind name.now) }
{
    text.append(b" ")?;
    text.append(name)
}

fn put_areas(text: &mut Row<u8>, areas: &[Area]) -> Result<(), NoMemory>
    ensures { OnOk result (text.new ≡ text.old ++ flat_map area_line areas.now) }
{
    for area in areas {
        put_area(text, area)?;
    }
    Ok(())
}

fn put_objects(text: &mut Row<u8>, objects: &[Kept]) -> Result<(), NoMemory>
    ensures { OnOk result (text.new ≡ text.old ++ flat_map kept_line objects.now) }
{
    for kept in objects {
        put_kept(text, kept)?;
    }
    Ok(())
}

fn put_all_live(text: &mut Row<u8>, names: &[Row<u8>]) -> Result<(), NoMemory>
    ensures { OnOk result (text.new ≡ text.old ++ flat_map live_line names.now) }
{
    for name in names {
        put_live(text, name.as_slice())?;
    }
    Ok(())
}

fn put_pieces(text: &mut Row<u8>, pieces: &[Piece]) -> Result<(), NoMemory>
    ensures { OnOk result (text.new ≡ text.old ++ flat_map piece_line pieces.now) }
{
    for piece in pieces {
        put_piece(text, piece)?;
    }
    Ok(())
}
