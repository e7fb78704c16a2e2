ghost use Rattle.std.specs.Prelude.{◌≡◌, ◌<◌, ◌≤◌, ◌^◌, ◌+◌, ◌-◌, ◌↔◌, ℕ, [], ◌∷◌, ◌++◌, Bool, true, false, length, IsTrue, IfOk, OnOk, OnErr, MatchOption, Some, None, take, drop, reverse};
ghost use Rattle.np_life.specs.declared.phase.Phase.TheVariants.{Dead};
ghost use Rattle.np_machine.specs.declared.place.Place.TheVariants.{Register, Slot};
ghost use Rattle.np_machine.specs.Instances.{phase_in, destroying, serial_in, is_begun, slots_in};
ghost use Rattle.np_machine.specs.Values.{next_value, read_at};
ghost use Rattle.np_side_places.specs.Instances.{Found};
ghost use Rattle.np_side_places.specs.Placed.{Placed, at_first, pushed, Popped, dropped, all_pushed, read_placed, put_placed, old_placed, begun, serial_set, phase_set, marked_destroying, entered, left, moved, progressed};

use crate::lists::{copy_at, fill_registers, put_at};
use np_life::Phase;
use np_machine::{Continuation, Entry, Frame, Instance, Place, Progress};
use np_values::{NoMemory, Text, TryCopy, Value, Values};
use std::alloc::Global;
use std::marker::Model;

/// The registers of a side's commands, its instances with their slots, its frames, and the values in flight.
#[derive(Drop)]
pub struct Places {
    registers: Values,
    instances: Vec<Instance>,
    /// The newest last.
    frames: Vec<Frame>,
    /// The next one last.
    in_flight: Vec<Value>,
}

impl Model for Places {
    ghost use Rattle.std.specs.Prelude.{reverse};
    ghost use Rattle.np_side_places.specs.Placed.{Placed};

    ghost Value = { Placed };

    ghost view = { λ p. record { registers = p.registers; instances = p.instances.items; frames = reverse p.frames.items; in_flight = reverse p.in_flight.items } };
}

impl Places {
    /// Nothing but the registers of the commands. They are 16 on a page, and none on a plug-in.
    pub fn new(alloc: Global, registers: Values) -> Places
        ensures value { result ≡ at_first registers }
    {
        Places {
            registers,
            instances: Vec::new(alloc),
            frames: Vec::new(alloc),
            in_flight: Vec::new(alloc),
        }
    }

    // ---- queries

    /// The registers of the page's commands.
    pub fn registers(&self) -> &Values
        ensures value { result.now ≡ self.now.registers }
    {
        &self.registers
    }

    /// The instances, in the order in which they were begun.
    pub fn instances(&self) -> &[Instance]
        ensures value { result.now ≡ self.now.instances }
    {
        self.instances.as_slice()
    }

    /// The frames, the oldest first.
    pub fn frames(&self) -> &[Frame]
        ensures value { reverse result.now ≡ self.now.frames }
    {
        self.frames.as_slice()
    }

    /// The phase of an instance on this side; Absent where it wasn't begun.
    pub fn phase(&self, number: u8) -> Phase
        ensures value { result ≡ phase_in number self.now.instances }
    {
        match find(self.instances.as_slice(), number) {
            Some(place) => self.instances[place].phase,
            None => Phase::Absent,
        }
    }

    /// The serial of the object that was made last for an instance; None where it wasn't begun.
    pub fn serial(&self, number: u8) -> Option<u32>
        ensures value { MatchOption result (is_begun number self.now.instances ≡ false) (λ serial. (serial ≡ serial_in number self.now.instances) × (is_begun number self.now.instances ≡ true)) }
    {
        match find(self.instances.as_slice(), number) {
            Some(place) => Some(self.instances[place].serial),
            None => None,
        }
    }

    /// The value of a place, copied. It is Void where there is no such place, and for a property, which isn't kept here.
    pub fn read(&self, alloc: Global, place: &Place) -> Result<Value, NoMemory>
        ensures value { IfOk result (λ v. v ≡ read_placed place.now self.now) }
    {
        match place {
            Place::Register(register) => match self.frames.last() {
                Some(frame) => copy_at(alloc, &frame.registers, usize::from(*register)),
                None => Ok(Value::Void),
            },
            Place::PageRegister(register) => copy_at(
                alloc,
                &self.registers,
                usize::from(*register),
            ),
            Place::Slot(number, slot) => self.slot(alloc, *number, usize::from(*slot)),
            Place::PropertyOf(_, _) => Ok(Value::Void),
            Place::This => match self.frames.last() {
                Some(frame) => frame.this.try_copy(alloc),
                None => Ok(Value::Void),
            },
        }
    }

    fn slot(&self, alloc: Global, number: u8, slot: usize) -> Result<Value, NoMemory>
        ensures { IfOk result (λ v. v ≡ read_at slot (slots_in number self.now.instances)) }
    {
        match find(self.instances.as_slice(), number) {
            Some(place) => copy_at(alloc, &self.instances[place].slots, slot),
            None => Ok(Value::Void),
        }
    }

    // ---- values in flight

    /// The value is the next one in flight.
    pub fn push(&mut self, value: Value) -> Result<(), NoMemory>
        ensures ok { OnOk result (self.new ≡ pushed value self.old) }
    {
        self.in_flight.push(value)?;
        Ok(())
    }

    /// Takes the next value out of flight, if there is one.
    pub fn pop(&mut self) -> Option<Value>
        ensures value { Popped self.old self.new result }
    {
        self.in_flight.pop()
    }

    /// The values are the next ones in flight, the first of them next.
    pub fn push_all(&mut self, values: Values) -> Result<(), NoMemory>
        ensures ok { OnOk result (self.new ≡ all_pushed values self.old) }
    {
        let mut values = values;
        while let Some(value) = values.pop() {
            self.push(value)?;
        }
        Ok(())
    }

    /// The next value in flight, or Void.
    fn next(&mut self) -> Value
        ensures state { self.new ≡ dropped 1 self.old }
        ensures value { result ≡ next_value self.old.in_flight }
    {
        match self.pop() {
            Some(value) => value,
            None => Value::Void,
        }
    }

    /// So many values leave the flight, or all where there are fewer.
    fn front(&mut self, alloc: Global, count: usize) -> Result<Values, NoMemory>
        ensures state { OnOk result (self.new ≡ dropped count self.old) }
        ensures value { IfOk result (λ values. values ≡ take count self.old.in_flight) }
    {
        let mut values = Values::new(alloc);
        for turn in 0..count {
            match self.pop() {
                Some(value) => values.push(value)?,
                None => return Ok(values),
            }
        }
        Ok(values)
    }

    /// The next value in flight goes after so many others.
    pub fn move_after(&mut self, alloc: Global, count: usize) -> Result<(), NoMemory>
        ensures ok { OnOk result (self.new ≡ moved count self.old) }
    {
        match self.pop() {
            Some(value) => {
                let others = self.front(alloc, count)?;
                self.push(value)?;
                self.push_all(others)
            }
            None => Ok(()),
        }
    }

    // ---- places

    /// Puts a value at a place, and gives back what was there. The value itself comes back where there is no such place, for a
    /// property, and for the object of a frame.
    pub fn put(&mut self, place: &Place, value: Value) -> Value
        ensures state { self.new ≡ put_placed place.now value self.old }
        ensures value { result ≡ old_placed place.now value self.old }
    {
        match place {
            Place::Register(register) => self.put_register(usize::from(*register), value),
            Place::PageRegister(register) => {
                put_at(&mut self.registers, usize::from(*register), value)
            }
            Place::Slot(number, slot) => self.put_slot(*number, usize::from(*slot), value),
            Place::PropertyOf(_, _) => value,
            Place::This => value,
        }
    }

    fn put_slot(&mut self, number: u8, slot: usize, value: Value) -> Value
        ensures state { self.new ≡ put_placed (Slot number slot) value self.old }
        ensures value { result ≡ old_placed (Slot number slot) value self.old }
    {
        match find(self.instances.as_slice(), number) {
            Some(place) => {
                let instance = &mut self.instances[place];
                put_at(&mut instance.slots, slot, value)
            }
            None => value,
        }
    }

    fn put_register(&mut self, register: usize, value: Value) -> Value
        ensures state { self.new ≡ put_placed (Register register) value self.old }
        ensures value { result ≡ old_placed (Register register) value self.old }
    {
        let count = self.frames.len();
        if count == 0 {
            return value;
        }
        let frame = &mut self.frames[count - 1];
        put_at(&mut frame.registers, register, value)
    }

    // ---- instances

    /// An instance with these slots begins, and is live. No object was made for it.
    pub fn begin(&mut self, number: u8, slots: Values) -> Result<(), NoMemory>
        ensures ok { OnOk result (self.new ≡ begun number slots self.old) }
    {
        let instance = Instance {
            number,
            phase: Phase::Live,
            serial: 0,
            slots,
        };
        self.instances.push(instance)?;
        Ok(())
    }

    /// The object that was made last for the instance has this serial.
    pub fn set_serial(&mut self, number: u8, serial: u32)
        ensures state { self.new ≡ serial_set number serial self.old }
    {
        match find(self.instances.as_slice(), number) {
            Some(place) => {
                let instance = &mut self.instances[place];
                instance.serial = serial;
            }
            None => {}
        }
    }

    /// The instance is dead.
    pub fn kill(&mut self, number: u8)
        ensures state { self.new ≡ phase_set number Dead self.old }
    {
        match find(self.instances.as_slice(), number) {
            Some(place) => {
                let instance = &mut self.instances[place];
                instance.phase = Phase::Dead;
            }
            None => {}
        }
    }

    /// The instance, where it is live, is being destroyed.
    pub fn mark_destroying(&mut self, number: u8)
        ensures state { self.new ≡ marked_destroying number self.old }
    {
        match find(self.instances.as_slice(), number) {
            Some(place) => {
                let instance = &mut self.instances[place];
                instance.phase = destroying_phase(instance.phase);
            }
            None => {}
        }
    }

    // ---- frames

    /// A frame is pushed. Its first so many registers are the next values in flight, the others Void; its object is the value after them.
    pub fn enter(&mut self, alloc: Global, count: usize, entry: Entry) -> Result<(), NoMemory>
        ensures ok { OnOk result (self.new ≡ entered count entry self.old) }
    {
        let mut registers = self.front(alloc, count)?;
        let this = self.next();
        fill_registers(&mut registers, count)?;
        let progress = Progress {
            flag: false,
            exception: None,
            done: 0,
            awaits: None,
        };
        let frame = Frame {
            instance: entry.instance,
            depth: entry.depth,
            caller: entry.caller,
            body: entry.body,
            this,
            registers,
            progress,
        };
        self.frames.push(frame)?;
        Ok(())
    }

    /// The newest frame is popped. Its registers and then its object come in flight, after so many values.
    pub fn leave(&mut self, alloc: Global, count: usize) -> Result<(), NoMemory>
        ensures ok { OnOk result (self.new ≡ left count self.old.frames self.old) }
    {
        match self.frames.pop() {
            Some(frame) => {
                let Frame {
                    instance: _,
                    depth: _,
                    caller: _,
                    body: _,
                    this,
                    registers,
                    progress: _,
                } = frame;
                let above = self.front(alloc, count)?;
                self.push(this)?;
                self.push_all(registers)?;
                self.push_all(above)
            }
            None => Ok(()),
        }
    }

    /// The newest frame has done so many actions more.
    pub fn advance(&mut self, count: usize) -> Result<(), NoMemory>
        ensures ok { OnOk result (self.new ≡ progressed (λ s. record s { done = s.done + count }) self.old) }
    {
        let frames = self.frames.len();
        if frames == 0 {
            return Ok(());
        }
        let frame = &mut self.frames[frames - 1];
        let done = frame.progress.done;
        if usize::MAX - count < done {
            return Err(NoMemory);
        }
        frame.progress.done = done + count;
        Ok(())
    }

    /// The newest frame's flag becomes this.
    pub fn set_flag(&mut self, flag: bool)
        ensures state { self.new ≡ progressed (λ s. record s { flag = flag }) self.old }
    {
        let frames = self.frames.len();
        if frames > 0 {
            let frame = &mut self.frames[frames - 1];
            frame.progress.flag = flag;
        }
    }

    /// The newest frame notes an exception. (npruntime.h, NPN_SetException.)
    pub fn note_exception(&mut self, text: Text)
        ensures state { self.new ≡ progressed (λ s. record s { exception = Some text }) self.old }
    {
        let frames = self.frames.len();
        if frames > 0 {
            let frame = &mut self.frames[frames - 1];
            note(&mut frame.progress.exception, text);
        }
    }

    /// The newest frame waits for a result.
    pub fn await_result(&mut self, continuation: Continuation)
        ensures state { self.new ≡ progressed (λ s. record s { awaits = Some continuation }) self.old }
    {
        let frames = self.frames.len();
        if frames > 0 {
            let frame = &mut self.frames[frames - 1];
            frame.progress.awaits = Some(continuation);
        }
    }

    /// The newest frame waits no longer.
    pub fn resume(&mut self)
        ensures state { self.new ≡ progressed (λ s. record s { awaits = None }) self.old }
    {
        let frames = self.frames.len();
        if frames > 0 {
            let frame = &mut self.frames[frames - 1];
            frame.progress.awaits = None;
        }
    }
}

/// The text takes the place of what was noted before.
fn note(exception: &mut Option<Text>, text: Text)
    ensures { exception.new ≡ Some text }
{
    *exception = Some(text);
}

/// What becomes of a phase when its instance is to be destroyed.
fn destroying_phase(phase: Phase) -> Phase
    ensures { result ≡ destroying phase }
{
    match phase {
        Phase::Live => Phase::Destroying,
        other => other,
    }
}

/// The place of the first instance of this number.
fn find(instances: &[Instance], number: u8) -> Option<usize>
    ensures found { Found number instances.now result }
{
    for place in 0..instances.len() {
        if number == instances[place].number {
            return Some(place);
        }
    }
    None
}
