// Values that wait, and locals.
ghost use Rattle.std.specs.Prelude.{◌≡◌, ◌+◌, ◌++◌, ◌≤◌, ◌<◌, [], ◌∷◌, None, Some, MatchOption, OnOk, OnErr, drop, length, reverse, slice_get, slice_set, take};
ghost use Rattle.vg_interp_frames.specs.Frame.{entering, frame_of, with_value};

use std::alloc::Global;
use std::marker::Model;
use vg_base::NoMemory;
use vg_core::CoreValue;

/// The values of all bodies that are open, those of the newest above the others: for each its locals, and above them the values that wait.
#[derive(Drop)]
pub struct Frames {
    items: Vec<CoreValue>,
    /// Where the locals of the newest body begin.
    start: usize,
    /// Where its waiting values begin.
    base: usize,
}

impl Model for Frames {
    ghost use Rattle.std.specs.Prelude.{◌≤◌, length};
    ghost use Rattle.vg_interp_frames.specs.Frame.{Frame, frame_of};

    ghost Value = { Frame };

    ghost view = { λ f. frame_of f.items.items f.start f.base };

    ghost invariant = { λ f. (f.start ≤ f.base) × (f.base ≤ length f.items.items) };
}

/// Where a body's locals and its waiting values begin.
#[derive(Clone, Copy, Debug, PartialEq, Eq)]
pub struct Mark {
    pub start: usize,
    pub base: usize,
}

impl Frames {
    /// Nothing in hand. It takes no memory.
    pub fn new(alloc: Global) -> Self
        ensures { result ≡ frame_of [] 0 0 }
    {
        Frames {
            items: Vec::new(alloc),
            start: 0,
            base: 0,
        }
    }

    /// Puts a value in front of those that wait.
    #[inline(always)]
    pub fn push(&mut self, value: CoreValue) -> Result<(), NoMemory>
        ensures ok { OnOk result (self.new ≡ with_value value self.old) }
        ensures err { OnErr result (self.new ≡ self.old) }
    {
        if self.items.len() < self.items.capacity() {
            self.items.push_reserved(value);
            Ok(())
        } else {
            self.push_and_grow(value)
        }
    }

    // Puts a value in front where there may be no room for it yet.
    #[inline(never)]
    fn push_and_grow(&mut self, value: CoreValue) -> Result<(), NoMemory>
        ensures ok { OnOk result (self.new ≡ with_value value self.old) }
        ensures err { OnErr result (self.new ≡ self.old) }
    {
        self.items.push(value)?;
        Ok(())
    }

    /// Takes the newest of the values that wait.
    #[inline(always)]
    pub fn pop(&mut self) -> Option<CoreValue>
        ensures { MatchOption result ((self.old.values ≡ []) × (self.new ≡ self.old)) (λ v. self.old ≡ with_value v self.new) }
    {
        if self.items.len() <= self.base {
            return None;
        }
        self.items.pop()
    }

    /// The local of this number.
    #[inline(always)]
    pub fn local(&self, number: u8) -> Option<CoreValue>
        ensures { result ≡ slice_get self.now.locals number }
    {
        let place = self.start + usize::from(number);
        if place < self.base {
            self.items.get(place).copied()
        } else {
            None
        }
    }

    /// Sets the local of this number, where there is one.
    #[inline(always)]
    pub fn set_local(&mut self, number: u8, value: CoreValue)
        ensures { self.new ≡ record self.old { locals = slice_set self.old.locals number value } }
    {
        let place = self.start + usize::from(number);
        if place < self.base {
            self.items[place] = value;
        }
    }

    /// The newest values, so many, in the order in which they came; none where fewer wait.
    pub fn newest(&self, count: u16) -> Option<&[CoreValue]>
        ensures { MatchOption result (length self.now.values < count) (λ newest.
            (count ≤ length self.now.values) × (newest.now ≡ reverse (take count self.now.values))) }
    {
        let waiting = self.items.len() - self.base;
        if waiting < usize::from(count) {
            return None;
        }
        Some(&self.items[self.items.len() - usize::from(count)..])
    }

    /// Takes the value that waits below so many others away from there.
    pub fn take_below(&mut self, count: u16) -> Option<CoreValue>
        ensures { MatchOption result ((slice_get self.old.values count ≡ None) × (self.new ≡ self.old)) (λ v.
            (slice_get self.old.values count ≡ Some v)
            × (self.new ≡ record self.old { values = take count self.old.values ++ drop (count + 1) self.old.values })) }
    {
        let waiting = self.items.len() - self.base;
        if waiting <= usize::from(count) {
            return None;
        }
        let place = self.items.len() - 1 - usize::from(count);
        Some(self.items.remove(place))
    }

    /// Where the newest body's values lie.
    pub fn mark(&self) -> Mark
        ensures start { result.start ≡ length self.now.below }
        ensures base { result.base ≡ length self.now.below + length self.now.locals }
    {
        Mark {
            start: self.start,
            base: self.base,
        }
    }

    /// Opens a body whose first locals are the newest values, so many.
    pub fn enter(&mut self, count: u16)
        requires { count ≤ length self.old.values }
        ensures { self.new ≡ entering count self.old }
    {
        self.start = self.items.len() - usize::from(count);
        self.base = self.items.len();
    }

    /// One local more, behind the others, where no value waits.
    pub fn push_local(&mut self, value: CoreValue) -> Result<(), NoMemory>
        requires { self.old.values ≡ [] }
        ensures ok { OnOk result (self.new ≡ record self.old { locals = self.old.locals ++ value ∷ [] }) }
        ensures err { OnErr result (self.new ≡ self.old) }
    {
        self.items.push(value)?;
        self.base = self.items.len();
        Ok(())
    }

    /// Closes the newest body: those below it are as they were, but that this value waits in front.
    pub fn leave(&mut self, mark: Mark, value: CoreValue) -> Result<(), NoMemory>
        requires order { mark.start ≤ mark.base }
        requires within { mark.base ≤ length self.old.below }
        ensures { OnOk result (self.new ≡ with_value value (frame_of self.old.below mark.start mark.base)) }
    {
        self.items.truncate(self.start);
        self.start = mark.start;
        self.base = mark.base;
        self.items.push(value)?;
        Ok(())
    }
}
