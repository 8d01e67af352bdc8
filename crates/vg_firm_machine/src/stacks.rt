// What the calls of a run have in hand.
use crate::end::End;
use crate::todo::{Part, Todo};
use std::alloc::Global;
use vg_firm::{Code, Procedure};

/// An active call: its procedure, its receiver, and where its values, its locals and what it has to do begin.
#[derive(Clone, Copy)]
pub struct Frame<'a> {
    pub procedure: &'a Procedure,
    pub receiver: Option<u16>,
    pub values: usize,
    pub locals: usize,
    pub todos: usize,
}

/// The values that wait, the locals and what is left to be done, of all active calls, the newest last.
#[derive(Drop)]
pub struct Stacks<'a> {
    values: Vec<u32>,
    locals: Vec<u32>,
    todos: Vec<Todo<'a>>,
    frames: Vec<Frame<'a>>,
}

impl<'a> Stacks<'a> {
    /// No active call. It takes no memory.
    pub fn new(alloc: Global) -> Self {
        Stacks {
            values: Vec::new(alloc),
            locals: Vec::new(alloc),
            todos: Vec::new(alloc),
            frames: Vec::new(alloc),
        }
    }

    /// How many calls are active.
    pub fn depth(&self) -> usize {
        self.frames.len()
    }

    /// The newest call.
    pub fn frame(&self) -> Result<Frame<'a>, End> {
        match self.frames.last() {
            Some(frame) => Ok(*frame),
            None => Err(End::Wrong("no call")),
        }
    }

    // Where the values of the newest call begin.
    fn base(&self) -> usize {
        match self.frames.last() {
            Some(frame) => frame.values,
            None => 0,
        }
    }

    /// Puts a value in front of those that wait.
    pub fn push(&mut self, value: u32) -> Result<(), End> {
        match self.values.push(value) {
            Ok(()) => Ok(()),
            Err(_) => Err(End::NoMemory),
        }
    }

    /// Takes the newest value that waits.
    pub fn pop(&mut self) -> Result<u32, End> {
        if self.values.len() <= self.base() {
            return Err(End::Wrong("no value"));
        }
        match self.values.pop() {
            Some(value) => Ok(value),
            None => Err(End::Wrong("no value")),
        }
    }

    /// Takes the value below so many others away from there.
    pub fn pop_below(&mut self, count: u8) -> Result<u32, End> {
        let above = usize::from(count) + 1;
        let length = self.values.len();
        if length < above || length - above < self.base() {
            return Err(End::Wrong("no value below"));
        }
        Ok(self.values.remove(length - above))
    }

    /// The local of this number.
    pub fn local(&self, number: u8) -> Result<u32, End> {
        let frame = self.frame()?;
        let place = frame.locals.saturating_add(usize::from(number));
        match self.locals.get(place) {
            Some(value) => Ok(*value),
            None => Err(End::Wrong("no local")),
        }
    }

    /// Sets the local of this number.
    pub fn set_local(&mut self, number: u8, value: u32) -> Result<(), End> {
        let frame = self.frame()?;
        let place = frame.locals.saturating_add(usize::from(number));
        if place < self.locals.len() {
            self.locals[place] = value;
            Ok(())
        } else {
            Err(End::Wrong("no local"))
        }
    }

    /// A code is to be done before all others.
    pub fn begin(&mut self, code: &'a Code) -> Result<(), End> {
        self.leave(code, Part::Whole)
    }

    /// This part of a code is to be done before all others.
    pub fn leave(&mut self, code: &'a Code, part: Part) -> Result<(), End> {
        match self.todos.push(Todo { code, part }) {
            Ok(()) => Ok(()),
            Err(_) => Err(End::NoMemory),
        }
    }

    /// What the newest call has to do first.
    pub fn next(&mut self) -> Result<Option<Todo<'a>>, End> {
        let frame = self.frame()?;
        if self.todos.len() <= frame.todos {
            return Ok(None);
        }
        Ok(self.todos.pop())
    }

    /// Leaves the newest loop: what is left to be done behind the loop's body goes, and is told.
    pub fn unwind(&mut self) -> Result<&'a Code, End> {
        for _todo in 0..self.todos.len() {
            match self.next()? {
                Some(todo) => {
                    if let Part::Turned = todo.part {
                        return Ok(todo.code);
                    }
                }
                None => return Err(End::Wrong("no loop")),
            }
        }
        Err(End::Wrong("no loop"))
    }

    /// The newest values, so many, become the first locals of a call of this procedure; its other locals are 0. Each value needs a local that holds it.
    pub fn enter(
        &mut self,
        procedure: &'a Procedure,
        count: u8,
        receiver: Option<u16>,
    ) -> Result<(), End> {
        let length = self.values.len();
        let count = usize::from(count);
        if length < count || length - count < self.base() {
            return Err(End::Wrong("too few arguments"));
        }
        if procedure.widths.len() < count {
            return Err(End::Wrong("an argument without a local"));
        }
        let frame = Frame {
            procedure,
            receiver,
            values: length - count,
            locals: self.locals.len(),
            todos: self.todos.len(),
        };
        self.open_locals(procedure.widths.as_slice(), frame.values)?;
        self.values.truncate(frame.values);
        match self.frames.push(frame) {
            Ok(()) => self.begin(&procedure.body),
            Err(_) => Err(End::NoMemory),
        }
    }

    // The locals of these widths: the values from this place on, and then 0.
    fn open_locals(&mut self, widths: &[u8], from: usize) -> Result<(), End> {
        for (place, width) in widths.iter().enumerate() {
            let value = match self.values.get(from.saturating_add(place)) {
                Some(value) => *value,
                None => 0,
            };
            if !crate::operators::fits(*width, value) {
                return Err(End::Wrong("a wide argument"));
            }
            match self.locals.push(value) {
                Ok(()) => {}
                Err(_) => return Err(End::NoMemory),
            }
        }
        Ok(())
    }

    /// The newest call ends with this result, which waits for the one below it.
    pub fn end_call(&mut self, value: u32) -> Result<(), End> {
        let frame = self.frame()?;
        if !crate::operators::fits(frame.procedure.result, value) {
            return Err(End::Wrong("a wide result"));
        }
        self.values.truncate(frame.values);
        self.locals.truncate(frame.locals);
        self.todos.truncate(frame.todos);
        let _frame = self.frames.pop();
        self.push(value)
    }
}
