// A run.
ghost use Rattle.std.specs.Prelude.{◌≡◌, ◌+◌, ℕ, IfOk, not};
ghost use Rattle.vg_source.specs.Operators.{Computed};
ghost use Rattle.vg_core.specs.declared.value.CoreValue.{CoreValue};
ghost use Rattle.vg_core.specs.State as state_of;
ghost use Rattle.vg_core.specs.Heap.{OfArray, Place, stored_values};
ghost use Rattle.vg_core.specs.State.{State};
ghost use Rattle.vg_core.specs.Meaning.{computed, from_below, put, put_found, with_index, with_int, with_item};
ghost use Rattle.vg_core.specs.Session.{with_heap};
ghost use Rattle.vg_meaning.specs.World.{World};
ghost use Rattle.vg_meaning.specs.Answer.{Answer, Piece, passes};
ghost use Rattle.vg_interp_values.specs.Made.{Makes};
ghost use Rattle.vg_interp_run.specs.Exits.{Exits};
ghost use Rattle.vg_interp_run.specs.Run.{state, world, Answers, Kept, Pops, Reaches, Signals, TakesBelow};

use crate::around::Around;
use crate::signal::{Cause, Exit, Signal};
use std::alloc::Global;
use vg_base::NoMemory;
use vg_core::{CoreType, CoreValue, Tables};
use vg_interp_frames::Frames;
use vg_interp_values::Failure;
use vg_shape::Store;
use vg_shape::types_of_values::is_of;

/// What a run has in hand and around it.
#[derive(Drop)]
pub struct Run {
    pub frames: Frames,
    /// The receiver of the newest body.
    pub receiver: CoreValue,
    pub store: Store,
    pub around: Around,
    /// Why it is over, where it is.
    pub cause: Cause,
}

/// An element of an array: the array's cell, and the index.
#[derive(Clone, Copy, Debug, PartialEq, Eq)]
pub struct Element {
    pub array: u32,
    pub index: u32,
}

impl Run {
    /// A run with nothing in hand but a heap. It takes no memory.
    pub fn new(alloc: Global, store: Store, around: Around) -> Self
        ensures state { state result ≡ with_heap store }
        ensures world { world result ≡ around }
    {
        Run {
            frames: Frames::new(alloc),
            receiver: CoreValue::Null,
            store,
            around,
            cause: Cause::none(),
        }
    }

    /// Puts a value in front of those that wait.
    #[inline(always)]
    pub fn push(&mut self, value: CoreValue) -> Result<(), Signal>
        ensures answers { Answers result (state self.new) (world self.new) (put value (state self.old) (world self.old)) }
        ensures kept { Kept self.old self.new }
    {
        self.frames.push(value)?;
        Ok(())
    }

    /// Puts a value that was looked up in front of those that wait.
    #[inline(always)]
    pub fn push_found(&mut self, found: Option<CoreValue>) -> Result<(), Signal>
        ensures answers { Answers result (state self.new) (world self.new) (put_found found (state self.old) (world self.old)) }
        ensures kept { Kept self.old self.new }
    {
        match found {
            Some(value) => self.push(value),
            None => Err(Signal::Wrong),
        }
    }

    /// Puts what was computed in front of those that wait.
    #[inline(always)]
    pub fn push_computed(&mut self, at: u32, made: Result<CoreValue, Failure>) -> Result<(), Signal>
        ensures answers { (c : Computed) → Makes made c
            → Answers result (state self.new) (world self.new) (computed at c (state self.old) (world self.old)) }
        ensures kept { Kept self.old self.new }
    {
        match made {
            Ok(value) => self.push(value),
            Err(Failure::Fails(code)) => Err(Signal::Stops(code, at)),
            Err(Failure::Unfit) => Err(Signal::Wrong),
            Err(Failure::NoMemory) => Err(Signal::NoMemory),
        }
    }

    /// Takes the newest of the values that wait.
    #[inline(always)]
    pub fn pop(&mut self) -> Result<CoreValue, Signal>
        ensures { Pops result self.old self.new }
    {
        match self.frames.pop() {
            Some(value) => Ok(value),
            None => Err(Signal::Wrong),
        }
    }

    /// Takes the value that waits below so many others away from there.
    pub fn take_below(&mut self, count: u16) -> Result<CoreValue, Signal>
        ensures takes { (go : CoreValue → Piece State ℕ)
            → TakesBelow result go (state self.new) (world self.new) (from_below count go (state self.old) (world self.old)) }
        ensures kept { Kept self.old self.new }
    {
        match self.frames.take_below(count) {
            Some(value) => Ok(value),
            None => Err(Signal::Wrong),
        }
    }

    /// Whether a value is of a type. An int, which comes most, is looked at here.
    #[inline(always)]
    pub fn has_type(&self, tables: &Tables, type_: CoreType, value: CoreValue) -> bool
        ensures { result ≡ state_of.is_of tables.now self.now.store.cells type_ value }
    {
        match value {
            CoreValue::Int(_) => matches!(type_, CoreType::IntType),
            CoreValue::Bool(_)
            | CoreValue::Char(_)
            | CoreValue::Raw(_, _)
            | CoreValue::Null
            | CoreValue::Obj(_)
            | CoreValue::Arr(_)
            | CoreValue::Bound(_, _) => is_of(tables, self.store.cells(), type_, value),
        }
    }

    /// Whether there is room for a cell of so many values.
    ///
    /// There is no memory for 2^64 stored values.
    pub fn has_room(&self, size: usize) -> Result<bool, NoMemory>
        ensures { IfOk result (λ room. passes (world self.now).largest (stored_values (state self.now).heap + 1 + size) ≡ not room) }
    {
        let Some(most) = self.store.stored().checked_add(1) else {
            return Err(NoMemory);
        };
        match most.checked_add(size) {
            Some(sum) => Ok(!self.around.passes_largest(sum)),
            None => Err(NoMemory),
        }
    }

    /// The place of an element, behind the null check and the bounds check.
    pub fn element(
        &self,
        at: u32,
        t: u32,
        array: CoreValue,
        index: CoreValue,
    ) -> Result<Element, Signal>
        ensures { (go : Place → Piece State ℕ) → Reaches result go (state self.now) (world self.now) (with_item at t go array index (state self.now) (world self.now)) }
    {
        match array {
            CoreValue::Arr(k) => match self.store.length_of(t, k) {
                Some(size) => element_of(at, k, size, index),
                None => Err(Signal::Wrong),
            },
            CoreValue::Null => Err(Signal::Stops(1, at)),
            CoreValue::Int(_)
            | CoreValue::Bool(_)
            | CoreValue::Char(_)
            | CoreValue::Raw(_, _)
            | CoreValue::Obj(_)
            | CoreValue::Bound(_, _) => Err(Signal::Wrong),
        }
    }
}

impl Run {
    /// Keeps the cause of a signal, and gives its kind.
    #[inline(never)]
    pub fn exit(&mut self, why: Signal) -> Exit
        ensures exits { (a : Answer State ℕ) → Signals why (state self.old) (world self.old) a → Exits result self.new a }
        ensures state { state self.new ≡ state self.old }
        ensures world { world self.new ≡ world self.old }
        ensures kept { Kept self.old self.new }
    {
        match why {
            Signal::Break => Exit::Break,
            Signal::Continue => Exit::Continue,
            Signal::Return => Exit::Return,
            Signal::Stops(code, at) => {
                self.cause = Cause {
                    code,
                    at,
                    address: 0,
                };
                Exit::Stops
            }
            Signal::Wants(address) => {
                self.cause = Cause {
                    code: 0,
                    at: 0,
                    address,
                };
                Exit::Wants
            }
            Signal::Touches(address) => {
                self.cause = Cause {
                    code: 0,
                    at: 0,
                    address,
                };
                Exit::Touches
            }
            Signal::Done => Exit::Done,
            Signal::OutOfClock => Exit::OutOfClock,
            Signal::OutOfDepth => Exit::OutOfDepth,
            Signal::OutOfRoom => Exit::OutOfRoom,
            Signal::Wrong => Exit::Wrong,
            Signal::NoMemory => Exit::NoMemory,
        }
    }
}

// The element of this index of an array of so many, behind the bounds check.
fn element_of(at: u32, array: u32, size: usize, index: CoreValue) -> Result<Element, Signal>
    ensures { (go : Place → Piece State ℕ) (s : State) (w : World ℕ)
        → Reaches result go s w (with_int (λ n. with_index at size n (λ i. go (OfArray array i))) index s w) }
{
    match index {
        CoreValue::Int(n) => {
            if n < 0 || n.unsigned_abs() as usize >= size {
                return Err(Signal::Stops(2, at));
            }
            Ok(Element {
                array,
                index: n.unsigned_abs(),
            })
        }
        CoreValue::Bool(_)
        | CoreValue::Char(_)
        | CoreValue::Raw(_, _)
        | CoreValue::Null
        | CoreValue::Obj(_)
        | CoreValue::Arr(_)
        | CoreValue::Bound(_, _) => Err(Signal::Wrong),
    }
}
