// The locations of a procedure's locals.
ghost use Rattle.std.specs.Prelude.{◌≡◌, ◌<◌, ◌≤◌, length};
ghost use Rattle.vg_templates.specs.Layouts.{IsLayout, width_of};
ghost use Rattle.vg_alloc.specs.Locations.{located, layout, place, IsWithin, CanArrive};

use crate::spot::Spot;
use avr_instr::Register;
use std::marker::Model;
use vg_base::Row;

/// What a procedure keeps where: the bytes of its frame, the registers that it saves, and a spot for each of its locals.
///
/// A frame has, from its newest byte on, the slots of locals, the saved registers, the two bytes of the return address, and the arguments that
/// were pushed; others arrive in registers. Contracts see it as a layout, which is a sound one.
#[derive(Drop)]
pub struct Locations {
    widths: Row<u8>,
    spots: Row<Spot>,
    slots: u16,
    saved: Row<Register>,
    pointed: bool,
    pushed: u16,
    arrives: Row<bool>,
}

impl Model for Locations {
    ghost use Rattle.std.specs.Prelude.{◌≡◌, length};
    ghost use Rattle.vg_templates.specs.Layouts.{IsLayout};
    ghost use Rattle.vg_alloc.specs.Locations.{Located, located, layout, CanArrive};

    ghost Value = { Located };

    ghost view = { λ l. located l.widths l.spots l.slots l.saved l.pointed l.pushed l.arrives };

    ghost invariant = { λ l. IsLayout (layout (located l.widths l.spots l.slots l.saved l.pointed l.pushed l.arrives)) × (length l.spots ≡ length l.widths)
        × CanArrive l.widths l.arrives };
}

impl Locations {
    /// The locations with these numbers, in bytes: the widths of the locals, their spots, the slots, the saved registers, whether Y is the
    /// frame pointer, and the arguments that are pushed; and of each parameter that arrives in registers, whether it is kept.
    pub fn new(
        widths: Row<u8>,
        spots: Row<Spot>,
        slots: u16,
        saved: Row<Register>,
        pointed: bool,
        pushed: u16,
        arrives: Row<bool>,
    ) -> Self
        requires sound { IsLayout (layout (located widths spots slots saved pointed pushed arrives)) }
        requires each { length spots ≡ length widths }
        requires arriving { CanArrive widths arrives }
        ensures { result ≡ located widths spots slots saved pointed pushed arrives }
    {
        Locations {
            widths,
            spots,
            slots,
            saved,
            pointed,
            pushed,
            arrives,
        }
    }

    /// The spot of a local.
    pub fn spot(&self, local: u8) -> Spot
        requires { local < length self.now.widths }
        ensures place { place result ≡ (layout self.now).spots local }
        ensures within { IsWithin result (width_of (layout self.now) local) }
    {
        self.spots.as_slice()[usize::from(local)]
    }

    /// The width of a local, in bytes.
    pub fn width(&self, local: u8) -> u8
        requires { local < length self.now.widths }
        ensures width { result ≡ width_of (layout self.now) local }
        ensures narrow { result ≤ 4 }
    {
        self.widths.as_slice()[usize::from(local)]
    }

    /// How many bytes the slots have.
    pub fn slots(&self) -> u16
        ensures { result ≡ self.now.slots }
    {
        self.slots
    }

    /// The registers that the procedure saves, the one that it pushes last in front.
    pub fn saved(&self) -> &[Register]
        ensures { result.now ≡ self.now.saved }
    {
        self.saved.as_slice()
    }

    /// Whether Y is the frame pointer.
    pub fn pointed(&self) -> bool
        ensures { result ≡ self.now.pointed }
    {
        self.pointed
    }

    /// How many bytes the arguments have that were pushed.
    pub fn pushed(&self) -> u16
        ensures { result ≡ self.now.pushed }
    {
        self.pushed
    }

    /// Of each parameter that arrives in registers, from the first one on, whether the procedure keeps it.
    pub fn arrives(&self) -> &[bool]
        ensures { result.now ≡ self.now.arrives }
    {
        self.arrives.as_slice()
    }

    /// What all locations keep, for their holder. It does nothing: only its clause counts.
    pub fn keeps(&self)
        ensures sound { IsLayout (layout self.now) }
        ensures each { length self.now.spots ≡ length self.now.widths }
        ensures arriving { CanArrive self.now.widths self.now.arrives }
    {
        let _spots = &self.spots;
    }
}
