// Where the values of the older code stand in the newer code.
use std::alloc::Global;
use vg_base::{NoMemory, Refusal};
use vg_lin::Operand;
use vg_trim_flow::{is_same, width_of};

/// The newer code would have too many locals.
#[derive(Clone, Copy)]
pub struct NoRoom;

/// The locals of the newer code, and where the values of the older code stand.
#[derive(Drop)]
pub struct Homes {
    /// The widths of the locals of the newer code.
    pub widths: Vec<u8>,
    /// For each of these locals, whether it is kept for one local of the older code, or for no value at all.
    pub kept: Vec<bool>,
    /// For each local of the older code the one that is kept for it.
    pub owns: Vec<Option<u8>>,
    /// For each local of the older code where its value stands now.
    pub now: Vec<Option<Operand>>,
    /// The local for values that nobody needs.
    pub spare: Option<u8>,
    /// For each kept computation the local with its result.
    pub works: Vec<u8>,
}

impl Homes {
    /// Of a procedure with so many parameters, which are kept for themselves.
    pub fn new(alloc: Global, widths: &[u8], params: usize) -> Result<Self, NoMemory> {
        let count = widths.len();
        let mut homes = Homes {
            widths: Vec::new(alloc),
            kept: Vec::new(alloc),
            owns: Vec::from_elem(alloc, None, count)?,
            now: Vec::from_elem(alloc, None, count)?,
            spare: None,
            works: Vec::new(alloc),
        };
        let mut local = 0u8;
        for width in widths {
            if usize::from(local) < params && usize::from(local) < homes.owns.len() && local < 252 {
                homes.widths.push(*width)?;
                homes.kept.push(true)?;
                homes.owns[usize::from(local)] = Some(local);
                local += 1;
            }
        }
        Ok(homes)
    }

    /// A new local of this width.
    pub fn add(&mut self, width: u8, is_kept: bool) -> Result<u8, Refusal<NoRoom>> {
        let count = self.widths.len();
        if count >= 252 {
            return Err(Refusal::Fault(NoRoom));
        }
        self.widths.push(width)?;
        self.kept.push(is_kept)?;
        Ok(count as u8)
    }

    /// The local that is kept for one of the older code, which has this width where it is new.
    pub fn own(&mut self, local: u8, width: u8) -> Result<u8, Refusal<NoRoom>> {
        let index = usize::from(local);
        if index >= self.owns.len() {
            return Err(Refusal::Fault(NoRoom));
        }
        if let Some(own) = self.owns[index] {
            return Ok(own);
        }
        let own = self.add(width, true)?;
        if index < self.owns.len() {
            self.owns[index] = Some(own);
        }
        Ok(own)
    }

    /// The local for values that nobody needs.
    pub fn spare(&mut self) -> Result<u8, Refusal<NoRoom>> {
        if let Some(spare) = self.spare {
            return Ok(spare);
        }
        let spare = self.add(1, true)?;
        self.spare = Some(spare);
        Ok(spare)
    }

    /// Where the value of an operand of the older code stands now.
    pub fn home(&self, value: Operand) -> Operand {
        match value {
            Operand::Local(local) => match self.now.get(usize::from(local)) {
                Some(Some(home)) => *home,
                _ => Operand::Known(0),
            },
            Operand::Known(number) => Operand::Known(number),
        }
    }

    /// Notes where the value of a local of the older code stands from now on.
    pub fn set(&mut self, local: u8, home: Option<Operand>) {
        let index = usize::from(local);
        if index < self.now.len() {
            self.now[index] = home;
        }
    }

    /// Notes that the value of a local of the older code stands in this one of the newer code from now on, and no other value does.
    pub fn give(&mut self, local: u8, to: u8) {
        for index in 0..self.now.len() {
            let is_there = match self.now.get(index) {
                Some(Some(home)) => is_same(*home, Operand::Local(to)),
                _ => false,
            };
            if is_there {
                self.set((index % 256) as u8, None);
            }
        }
        self.set(local, Some(Operand::Local(to)));
    }

    /// Whether a local of the newer code is kept for one of the older code.
    pub fn is_kept(&self, local: u8) -> bool {
        match self.kept.get(usize::from(local)) {
            Some(is) => *is,
            None => true,
        }
    }

    /// The width of a local of the newer code.
    pub fn width(&self, local: u8) -> u8 {
        width_of(self.widths.as_slice(), local)
    }
}
