// Runs.
use crate::end::End;
use crate::memory::Memory;
use crate::operators::{applied, computed, fits, takes, takes_both};
use crate::packed::{Packed, at_code, code_number, is_called, is_within};
use crate::stacks::Stacks;
use crate::todo::{Part, Todo};
use std::alloc::Global;
use vg_firm::{Code, Elements, Home, Operator, Prefix, Step};
use vg_io::MemorySink;
use vg_meaning::Event;
use vg_script::put_event;

/// How many turns the machine makes in one call from outside.
const TURNS: u32 = 100_000_000;

/// How many calls may be active.
const CALLS: usize = 400;

/// A packed program, its columns, what it has in hand, the reads to come, the ticks that are left, and what it showed.
#[derive(Drop)]
pub struct Machine<'a> {
    program: Packed<'a>,
    memory: Memory,
    stacks: Stacks<'a>,
    reads: &'a [u8],
    read: usize,
    clock: u32,
    shown: MemorySink,
}

impl<'a> Machine<'a> {
    /// A program before it runs. Its lines go to this sink.
    pub fn new(
        alloc: Global,
        program: Packed<'a>,
        memory: Memory,
        reads: &'a [u8],
        clock: u32,
        shown: MemorySink,
    ) -> Self {
        Machine {
            program,
            memory,
            stacks: Stacks::new(alloc),
            reads,
            read: 0,
            clock,
            shown,
        }
    }

    /// The lines of what was shown.
    pub fn lines(&self) -> &[u8] {
        self.shown.bytes()
    }

    /// Shows an event.
    pub fn show(&mut self, event: Event) -> Result<(), End> {
        match put_event(event, &mut self.shown) {
            Ok(()) => Ok(()),
            Err(_) => Err(End::Room),
        }
    }

    /// Calls a procedure without arguments from outside, to its end. Its result is dropped.
    pub fn run(&mut self, procedure: u16) -> Result<(), End> {
        self.enter(procedure, 0, None)?;
        for _turn in 0..TURNS {
            if self.stacks.depth() == 0 {
                let _result = self.stacks.pop()?;
                return Ok(());
            }
            self.turn()?;
        }
        Err(End::Turns)
    }

    // Does what is to be done first. The end of a body gives 0.
    fn turn(&mut self) -> Result<(), End> {
        match self.stacks.next()? {
            Some(todo) => self.act(todo),
            None => self.stacks.end_call(0),
        }
    }

    fn act(&mut self, todo: Todo<'a>) -> Result<(), End> {
        match todo.part {
            Part::Whole => self.begin(todo.code),
            Part::From(place) => self.go_on(todo.code, place),
            Part::Chosen(place) => self.choose(todo.code, place),
            Part::Tested => self.turn_loop(todo.code),
            Part::Turned => self.end_turn(todo.code),
        }
    }

    // Begins a code.
    fn begin(&mut self, code: &'a Code) -> Result<(), End> {
        match code {
            Code::Row(_) => self.go_on(code, 0),
            Code::Arms(_, _) => self.go_on(code, 0),
            Code::Do(step) => self.perform(*step),
            Code::If(first, rest) => {
                if self.stacks.pop()? != 0 {
                    self.stacks.begin(first)
                } else {
                    self.stacks.begin(rest)
                }
            }
            Code::Arm(condition, _) => {
                self.stacks.leave(code, Part::Chosen(0))?;
                self.stacks.begin(condition)
            }
            Code::Loop(condition, _, _) => {
                self.stacks.leave(code, Part::Tested)?;
                self.stacks.begin(condition)
            }
            Code::Break => self.break_loop(),
            Code::Continue => self.continue_loop(),
            Code::Return => self.end_body(),
        }
    }

    // Goes on with a row, or with the arms of an `if`, at this place.
    fn go_on(&mut self, code: &'a Code, place: usize) -> Result<(), End> {
        match code {
            Code::Row(codes) => match codes.as_slice().get(place) {
                Some(found) => {
                    self.stacks
                        .leave(code, Part::From(place.saturating_add(1)))?;
                    self.stacks.begin(found)
                }
                None => Ok(()),
            },
            Code::Arms(codes, last) => match codes.as_slice().get(place) {
                Some(found) => self.try_arm(code, place, found),
                None => self.stacks.begin(last),
            },
            _ => Err(End::Wrong("no row")),
        }
    }

    // Begins the arm at this place, or a code that is none.
    fn try_arm(&mut self, code: &'a Code, place: usize, found: &'a Code) -> Result<(), End> {
        match found {
            Code::Arm(condition, _) => {
                self.stacks.leave(code, Part::Chosen(place))?;
                self.stacks.begin(condition)
            }
            _ => {
                self.stacks
                    .leave(code, Part::From(place.saturating_add(1)))?;
                self.stacks.begin(found)
            }
        }
    }

    // Goes on behind the condition of an arm.
    fn choose(&mut self, code: &'a Code, place: usize) -> Result<(), End> {
        let holds = self.stacks.pop()? != 0;
        match code {
            Code::Arm(_, block) if holds => self.stacks.begin(block),
            Code::Arm(_, _) => Ok(()),
            Code::Arms(codes, _) if holds => match codes.as_slice().get(place) {
                Some(Code::Arm(_, block)) => self.stacks.begin(block),
                _ => Err(End::Wrong("no arm")),
            },
            _ => self.go_on(code, place.saturating_add(1)),
        }
    }

    // Goes on behind the condition of a loop: a turn ticks.
    fn turn_loop(&mut self, code: &'a Code) -> Result<(), End> {
        let Code::Loop(_, body, _) = code else {
            return Err(End::Wrong("no loop"));
        };
        if self.stacks.pop()? == 0 {
            return Ok(());
        }
        self.tick()?;
        self.stacks.leave(code, Part::Turned)?;
        self.stacks.begin(body)
    }

    // Goes on behind the body of a loop.
    fn end_turn(&mut self, code: &'a Code) -> Result<(), End> {
        let Code::Loop(condition, _, next) = code else {
            return Err(End::Wrong("no loop"));
        };
        self.stacks.leave(code, Part::Tested)?;
        self.stacks.begin(condition)?;
        self.stacks.begin(next)
    }

    fn break_loop(&mut self) -> Result<(), End> {
        let _loop = self.stacks.unwind()?;
        Ok(())
    }

    fn continue_loop(&mut self) -> Result<(), End> {
        let code = self.stacks.unwind()?;
        self.end_turn(code)
    }

    // A return: the value waits.
    fn end_body(&mut self) -> Result<(), End> {
        let value = self.stacks.pop()?;
        self.stacks.end_call(value)
    }

    fn tick(&mut self) -> Result<(), End> {
        match self.clock.checked_sub(1) {
            Some(left) => {
                self.clock = left;
                Ok(())
            }
            None => Err(End::Clock),
        }
    }

    // Enters a procedure with so many of the newest values.
    fn enter(&mut self, place: u16, count: u8, receiver: Option<u16>) -> Result<(), End> {
        let Some(procedure) = self.program.procedure(place) else {
            return Err(End::Wrong("no procedure"));
        };
        if count != procedure.params {
            return Err(End::Wrong("not so many arguments"));
        }
        if receiver.is_some() && !procedure.receives {
            return Err(End::Wrong("no receiver wanted"));
        }
        if procedure.on_objects && !is_object(receiver) {
            return Err(End::Wrong("a method without its object"));
        }
        self.tick()?;
        if self.stacks.depth() >= CALLS {
            return Err(End::Depth);
        }
        self.stacks.enter(procedure, count, receiver)
    }

    // Calls a procedure that the newest one names.
    fn call(&mut self, place: u16, count: u8, receiver: Option<u16>) -> Result<(), End> {
        let frame = self.stacks.frame()?;
        if !is_called(frame.procedure.calls.as_slice(), place) {
            return Err(End::Wrong("not named"));
        }
        self.enter(place, count, receiver)
    }

    // Does a step.
    fn perform(&mut self, step: Step) -> Result<(), End> {
        match step {
            Step::Number(_) | Step::This | Step::Local(_) | Step::SetLocal(_) | Step::Forget => {
                self.perform_plain(step)
            }
            Step::Operate(operator) => self.operate(operator),
            Step::Apply(prefix) => self.apply(prefix),
            Step::ReadDevice(address) => self.read_device(address),
            Step::WriteDevice(address) => self.write_device(address),
            Step::Load(_, _)
            | Step::Store(_, _)
            | Step::LoadAt(_, _, _)
            | Step::StoreAt(_, _, _)
            | Step::LoadNothing
            | Step::StoreNothing => self.perform_field(step),
            Step::LoadItem(elements) => self.load_item(elements),
            Step::StoreItem(elements) => self.store_item(elements),
            Step::Length(table) => self.put_length(table),
            _ => self.perform_call(step),
        }
    }

    // A step that speaks of values and locals alone.
    fn perform_plain(&mut self, step: Step) -> Result<(), End> {
        match step {
            Step::Number(number) => self.stacks.push(number),
            Step::This => match self.stacks.frame()?.receiver {
                Some(number) => self.stacks.push(u32::from(number)),
                None => Err(End::Wrong("no receiver")),
            },
            Step::Local(number) => {
                let value = self.stacks.local(number)?;
                self.stacks.push(value)
            }
            Step::SetLocal(number) => self.set_local(number),
            _ => {
                let _value = self.stacks.pop()?;
                Ok(())
            }
        }
    }

    fn set_local(&mut self, number: u8) -> Result<(), End> {
        let value = self.stacks.pop()?;
        let procedure = self.stacks.frame()?.procedure;
        match procedure.widths.as_slice().get(usize::from(number)) {
            Some(width) if fits(*width, value) => self.stacks.set_local(number, value),
            Some(_) => Err(End::Wrong("a wide local")),
            None => Err(End::Wrong("no width")),
        }
    }

    fn operate(&mut self, operator: Operator) -> Result<(), End> {
        let right = self.stacks.pop()?;
        let left = self.stacks.pop()?;
        if !takes_both(operator, left, right) {
            return Err(End::Wrong("no such strings"));
        }
        match computed(operator, left, right) {
            Some(value) => self.stacks.push(value),
            None => Err(End::Stop(3)),
        }
    }

    fn apply(&mut self, prefix: Prefix) -> Result<(), End> {
        let value = self.stacks.pop()?;
        if !takes(prefix, value) {
            return Err(End::Wrong("no such string"));
        }
        self.stacks.push(applied(prefix, value))
    }

    fn read_device(&mut self, address: u8) -> Result<(), End> {
        let Some(value) = self.reads.get(self.read).copied() else {
            return Err(End::Wants(address));
        };
        self.read = self.read.saturating_add(1);
        self.show(Event::Read(address, value))?;
        self.stacks.push(u32::from(value))
    }

    fn write_device(&mut self, address: u8) -> Result<(), End> {
        let value = self.stacks.pop()?;
        match u8::try_from(value) {
            Ok(byte) => self.show(Event::Write(address, byte)),
            Err(_) => Err(End::Wrong("a wide byte")),
        }
    }

    // A load or a store of a field.
    fn perform_field(&mut self, step: Step) -> Result<(), End> {
        match step {
            Step::Load(home, column) => self.load(home, column, 0),
            Step::Store(column, width) => {
                let value = self.pop_fitting(width)?;
                self.store(column, 0, value)
            }
            Step::LoadAt(home, column, first) => {
                let index = self.pop_object(first)?;
                self.load(home, column, index)
            }
            Step::StoreAt(column, first, width) => {
                let value = self.pop_fitting(width)?;
                let index = self.pop_object(first)?;
                self.store(column, index, value)
            }
            Step::LoadNothing => {
                let _index = self.pop_object(0)?;
                self.stacks.push(0)
            }
            _ => {
                let _value = self.stacks.pop()?;
                let _index = self.pop_object(0)?;
                Ok(())
            }
        }
    }

    // Takes a value that so many bytes hold.
    fn pop_fitting(&mut self, width: u8) -> Result<u32, End> {
        let value = self.stacks.pop()?;
        if fits(width, value) {
            Ok(value)
        } else {
            Err(End::Wrong("a wide value"))
        }
    }

    // Takes a number behind its null check.
    fn pop_reference(&mut self) -> Result<u32, End> {
        match self.stacks.pop()? {
            0 => Err(End::Stop(1)),
            number => Ok(number),
        }
    }

    // Takes the number of an object, as an index in a column that begins with another.
    fn pop_object(&mut self, first: u16) -> Result<usize, End> {
        let number = self.pop_reference()?;
        match number.checked_sub(u32::from(first)) {
            Some(index) => Ok(index as usize),
            None => Err(End::Wrong("an object before the column")),
        }
    }

    fn load(&mut self, home: Home, column: u16, index: usize) -> Result<(), End> {
        if let Home::Flash = home {
            return Err(End::Wrong("a column in flash"));
        }
        match self.memory.load(column, index) {
            Some(value) => self.stacks.push(value),
            None => Err(End::Wrong("no such entry")),
        }
    }

    fn store(&mut self, column: u16, index: usize, value: u32) -> Result<(), End> {
        if self.memory.store(column, index, value) {
            Ok(())
        } else {
            Err(End::Wrong("no such entry"))
        }
    }

    fn load_item(&mut self, elements: Elements) -> Result<(), End> {
        let place = self.pop_item(elements)?;
        self.load(elements.home, elements.column, place)
    }

    fn store_item(&mut self, elements: Elements) -> Result<(), End> {
        let value = self.pop_fitting(elements.width)?;
        let place = self.pop_item(elements)?;
        self.store(elements.column, place, value)
    }

    // Takes an index and the number of an array below it, as a place in the column of its type.
    fn pop_item(&mut self, elements: Elements) -> Result<usize, End> {
        let index = self.stacks.pop()?;
        let number = self.pop_reference()?;
        let Some(array) = self.program.array(elements.table, number) else {
            return Err(End::Wrong("no such array"));
        };
        if index >= u32::from(array.length) {
            return Err(End::Stop(2));
        }
        let Some(behind) = array.address.checked_sub(elements.address) else {
            return Err(End::Wrong("an array before the column"));
        };
        if elements.width == 0 || behind % u16::from(elements.width) != 0 {
            return Err(End::Wrong("an array beside the column"));
        }
        let elements_before = usize::from(behind / u16::from(elements.width));
        Ok(elements_before + index as usize)
    }

    fn put_length(&mut self, table: u16) -> Result<(), End> {
        let number = self.pop_reference()?;
        match self.program.array(table, number) {
            Some(array) => self.stacks.push(u32::from(array.length)),
            None => Err(End::Wrong("no such array")),
        }
    }

    // A test or a cast of an object, a delegate that is made, or a call.
    fn perform_call(&mut self, step: Step) -> Result<(), End> {
        match step {
            Step::IsWithin(first, count) => {
                let number = self.stacks.pop()?;
                self.stacks.push(u32::from(is_within(first, count, number)))
            }
            Step::StopUnlessWithin(first, count) => self.cast(first, count),
            Step::Bind(procedure) => self.bind(procedure, 0),
            Step::BindFor(dispatch) => {
                let number = self.pop_reference()?;
                let procedure = self.dispatched(dispatch, number)?;
                self.bind(procedure, number)
            }
            Step::Call(procedure, count) => self.call(procedure, count, None),
            Step::CallFor(dispatch, count) => self.call_object(dispatch, count),
            Step::CallValue(count) => self.call_delegate(count),
            _ => Err(End::Wrong("no such step in what is packed")),
        }
    }

    fn cast(&mut self, first: u16, count: u16) -> Result<(), End> {
        let number = self.stacks.pop()?;
        if number != 0 && !is_within(first, count, number) {
            return Err(End::Stop(4));
        }
        self.stacks.push(number)
    }

    fn dispatched(&self, dispatch: u32, number: u32) -> Result<u16, End> {
        match self.program.dispatched(dispatch, number) {
            Some(procedure) => Ok(procedure),
            None => Err(End::Wrong("no case")),
        }
    }

    // A delegate of one of the procedures; a receiver's number has two bytes.
    fn bind(&mut self, procedure: u16, receiver: u32) -> Result<(), End> {
        if self.program.procedure(procedure).is_none() {
            return Err(End::Wrong("a delegate of no procedure"));
        }
        match delegate(code_number(procedure), receiver) {
            Some(value) => self.stacks.push(value),
            None => Err(End::Wrong("a wide delegate")),
        }
    }

    // Calls the method of the object below so many arguments.
    fn call_object(&mut self, dispatch: u32, count: u8) -> Result<(), End> {
        let number = self.stacks.pop_below(count)?;
        if number == 0 {
            return Err(End::Stop(1));
        }
        let procedure = self.dispatched(dispatch, number)?;
        match u16::try_from(number) {
            Ok(receiver) => self.call(procedure, count, Some(receiver)),
            Err(_) => Err(End::Wrong("a wide receiver")),
        }
    }

    // Calls the delegate below so many arguments.
    fn call_delegate(&mut self, count: u8) -> Result<(), End> {
        let value = self.stacks.pop_below(count)?;
        if value == 0 {
            return Err(End::Stop(1));
        }
        match at_code(value % 65_536) {
            Some(procedure) => self.call(procedure, count, Some((value / 65_536) as u16)),
            None => Err(End::Wrong("no code number")),
        }
    }
}

/// A delegate: the code number below, the receiver's number above, each of two bytes.
pub fn delegate(code: u32, receiver: u32) -> Option<u32> {
    if code < 65_536 && receiver < 65_536 {
        Some(code + 65_536 * receiver)
    } else {
        None
    }
}

// Whether a receiver is an object: its number is not 0.
fn is_object(receiver: Option<u16>) -> bool {
    match receiver {
        Some(number) => number != 0,
        None => false,
    }
}
