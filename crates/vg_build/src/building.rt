// From the bytes of a source text to its image.
ghost use Rattle.std.specs.Prelude.{◌≡◌, ◌↔◌, ◌≤◌, ◌⊎◌, ℕ, List, length, Some, Err, IfErr, IfOk, IfSome, IsOk};
ghost use Rattle.vg_base.specs.Limits.{text_limit};
ghost use Rattle.vg_base.specs.declared.place.Place.{Place};
ghost use Rattle.vg_syntax.specs.Faults.{NoTreeIn, TooDeepIn};
ghost use Rattle.vg_first_text.specs.declared.device_write.DeviceWrite.{DeviceWrite as Write};
ghost use Rattle.vg_first_text.specs.FirstText.{IsFirst};
ghost use Rattle.vg_faults.specs.Faults.{IsOfInit};
ghost use Rattle.vg_faults.specs.Judged.{RefusedIn};
ghost use Rattle.vg_faults.specs.Living.{AllocatesIn};
ghost use Rattle.vg_faults.specs.Fitting.{StaticFullIn, TableFullIn};
ghost use Rattle.vg_faults.specs.Room.{StackFullIn};
ghost use Rattle.vg_faults.specs.Starting.{FailsIn};
ghost use Rattle.vg_faults.specs.declared.fault.Fault as fault;
ghost use Rattle.vg_build.specs.Answer.{Answers, IsCause, IsLarge, IsNotBuilt, IsOverStack, IsSettled, fault_in, first_place};
ghost use Rattle.vg_build.specs.Image.{IsBuiltOf};
ghost use Rattle.vg_rules.specs.declared.what.What.{What};
ghost use Rattle.vg_build.specs.Mirrors.{IsPacked};

use crate::flash::flash_of;
use avr_isa::Image;
use std::alloc::Global;
use vg_base::{NoMemory, Refusal, Row};
use vg_faults::Fault;
use vg_fits::{Fitted, fit};
use vg_flash::{Flash, NoRoom, Room, known_of, layout_of, room_above};
use vg_hex::write;
use vg_inventory::{count_methods, count_objects};
use vg_layout::{Layout, layout_text};
use vg_long_texts::laws::{texts_that_are_not_built_are_long, texts_without_linear_code_are_long};

/// What is built of a source text.
pub struct Built {
    /// The bytes of the flash.
    pub image: Image,
    pub layout: Layout,
    /// The HEX text of the image.
    pub hex: Row<u8>,
    /// The lines of the layout.
    pub note: Row<u8>,
    /// How many objects are live.
    pub objects: u32,
    /// How many methods are live.
    pub methods: u32,
}

impl Drop for Built {
    // By hand: a function that may drop one calls this, where it would have a copy of a derived one.
    fn drop(self) {
        let Built {
            image: _,
            layout: _,
            hex: _,
            note: _,
            objects: _,
            methods: _,
        } = self;
    }
}

impl Built {
    /// The HEX text alone.
    pub fn into_hex(self) -> Row<u8>
        ensures { result ≡ self.hex }
    {
        let Built {
            image: _,
            layout: _,
            hex,
            note: _,
            objects: _,
            methods: _,
        } = self;
        hex
    }
}

/// Builds the image of a source text of at most 262,144 bytes. Its stack has the bytes that are asked for, from 1 to 4,096 of them; where none are, it has
/// all of SRAM above the static area, 64 bytes at least. Its initialisation may take so many ticks.
///
/// A text of the language that starts, whose live methods make nothing, whose fields and arrays fit and whose stack has room is built, but for some: those
/// whose calls do not go round and may need more bytes than the stack has, those whose image would take more than 65,535 words of flash, and those of which no
/// image is made, which are refused as not built, at their first place: their bound on the words of code is above 65,536. A program of constants with a stack
/// of four bytes or more is none of them: one component whose one method writes at most 100 bytes to device registers.
pub fn build(
    alloc: Global,
    text: &[u8],
    asked: Option<u16>,
    init_steps: u32,
) -> Result<Built, Refusal<Fault>>
    requires short { length text.now ≤ text_limit }
    requires asked { IfSome asked (λ bytes. (1 ≤ bytes) × (bytes ≤ 4096)) }

    // The image, its HEX text and its layout, or why there are none.
    ensures headline { IfOk result (λ built. IsBuiltOf text.now asked init_steps built) }
    ensures refused { IfErr result (λ why. IsCause why text.now asked init_steps) }

    // Exactly which texts are refused, and which are built.
    ensures no_tree { IsSettled result → (place : Place) → (fault_in result ≡ Some (fault.Fault.NoTree place)) ↔ NoTreeIn text.now place }
    ensures too_deep { IsSettled result → (place : Place) → (fault_in result ≡ Some (fault.Fault.TooDeep place)) ↔ TooDeepIn text.now place }
    ensures too_many { IsSettled result → (what : What) (limit : ℕ) (place : Place)
        → (fault_in result ≡ Some (fault.Fault.TooMany what limit place)) ↔ RefusedIn text.now (fault.Fault.TooMany what limit place) }
    ensures broken { IsSettled result → (rule : ℕ) (place : Place)
        → (fault_in result ≡ Some (fault.Fault.Broken rule place)) ↔ RefusedIn text.now (fault.Fault.Broken rule place) }
    ensures init { IsSettled result → (why : fault.Fault) → IsOfInit why → (fault_in result ≡ Some why) ↔ FailsIn text.now init_steps why }
    ensures allocates { IsSettled result → (place : Place) (line : List ℕ)
        → (fault_in result ≡ Some (fault.Fault.Allocates place line)) ↔ AllocatesIn text.now init_steps place line }
    ensures static_full { IsSettled result → (need : ℕ) → (fault_in result ≡ Some (fault.Fault.StaticFull need)) ↔ StaticFullIn text.now init_steps need }
    ensures table_full { IsSettled result → (need : ℕ) → (fault_in result ≡ Some (fault.Fault.TableFull need)) ↔ TableFullIn text.now init_steps need }
    ensures stack_full { IsSettled result → (need left : ℕ) → StackFullIn text.now asked init_steps need left
        → fault_in result ≡ Some (fault.Fault.StackFull need left) }
    ensures stack_short { (need left : ℕ) → fault_in result ≡ Some (fault.Fault.StackFull need left)
        → StackFullIn text.now asked init_steps need left ⊎ IsOverStack text.now asked init_steps need left }
    ensures code_full { (words : ℕ) → fault_in result ≡ Some (fault.Fault.CodeFull words) → IsNotBuilt text.now asked init_steps × (65536 ≤ words) }
    ensures not_built { (place : Place) → fault_in result ≡ Some (fault.Fault.NotBuilt place) → IsNotBuilt text.now asked init_steps }
    ensures not_built_large { (place : Place) → fault_in result ≡ Some (fault.Fault.NotBuilt place) → IsLarge text.now init_steps }
    ensures not_built_first { (place : Place) → fault_in result ≡ Some (fault.Fault.NotBuilt place) → place ≡ first_place }
    ensures complete { 1 ≤ init_steps → IfSome asked (λ bytes. 4 ≤ bytes) → (writes : List Write) → IsFirst text.now writes
        → IsOk result ⊎ (result ≡ Err Refusal.NoMemory) }
{
    answer_to(alloc, text, asked, init_steps)
}

// The same, said case by case.
fn answer_to(
    alloc: Global,
    text: &[u8],
    asked: Option<u16>,
    init_steps: u32,
) -> Result<Built, Refusal<Fault>>
    requires { length text.now ≤ text_limit }
    ensures { Answers text.now asked init_steps result }
{
    texts_without_linear_code_are_long();
    texts_that_are_not_built_are_long();
    let fitted = match fit(alloc, text, init_steps) {
        Ok(fitted) => fitted,
        Err(refusal) => return Err(refusal),
    };
    let room = match room_above(fitted.placed.columns.static_bytes, asked) {
        Ok(room) => room,
        Err(NoRoom { need, left }) => {
            return Err(Refusal::Fault(Fault::StackFull { need, left }));
        }
    };
    match flash_of(alloc, text, &fitted, room.stack) {
        Ok(flash) => match packed(alloc, &fitted, flash, room) {
            Ok(built) => Ok(built),
            Err(NoMemory) => Err(Refusal::NoMemory),
        },
        Err(refusal) => Err(refusal),
    }
}

// A flash with its layout and its texts.
fn packed(alloc: Global, fitted: &Fitted, flash: Flash, room: Room) -> Result<Built, NoMemory>
    ensures { IfOk result (IsPacked fitted.now flash room) }
{
    let layout = layout_of(alloc, fitted, &flash, room)?;
    let note = layout_text(alloc, &layout)?;
    let known = known_of(fitted);
    let image = flash.image;
    let hex = write(alloc, &image)?;
    Ok(Built {
        image,
        layout,
        hex,
        note,
        objects: count_objects(known),
        methods: count_methods(known),
    })
}
