// Where the locals of a guess lie, if they stand in an order.
use crate::pricing::Prices;
use std::alloc::Global;
use vg_base::NoMemory;
use vg_trim_flow::{is_at, width_of};

// How many bytes there are in the registers that outlive calls, and in those that do not.
const LASTING: usize = 6;

const PASSING: usize = 10;

/// Where the locals of a guess lie.
#[derive(Drop)]
pub struct Laid<'a> {
    pub widths: &'a [u8],
    /// For each local its first register, unless it lies in the frame.
    pub seats: Vec<Option<u8>>,
    /// How many registers are saved.
    pub saved: usize,
    /// How many bytes of the frame are no parameters.
    pub slots: usize,
    /// Whether the frame has a pointer.
    pub is_pointed: bool,
    // the words that bring parameters to where they lie
    settling: usize,
}

impl Laid<'_> {
    /// The words before the first instruction.
    pub fn entry(&self) -> usize {
        let pointer = if self.is_pointed { 4 } else { 0 };
        self.saved
            .saturating_add(pointer)
            .saturating_add(self.slot_words())
            .saturating_add(self.settling)
    }

    /// The words of an exit.
    pub fn exit(&self) -> usize {
        let pointer = if self.is_pointed { 2 } else { 0 };
        self.saved
            .saturating_add(pointer)
            .saturating_add(self.slot_words())
            .saturating_add(1)
    }

    fn slot_words(&self) -> usize {
        if self.slots == 0 { 0 } else { 3 }
    }

    /// The first register of a local, unless it lies in the frame.
    pub fn seat(&self, local: u8) -> Option<u8> {
        match self.seats.get(usize::from(local)) {
            Some(seat) => *seat,
            None => None,
        }
    }

    /// How many bytes a local has.
    pub fn width(&self, local: u8) -> usize {
        usize::from(width_of(self.widths, local))
    }
}

// How many bytes are taken of each kind of registers.
#[derive(Clone, Copy)]
struct Taken {
    lasting: usize,
    passing: usize,
}

/// Where locals lie that stand in this order.
pub fn laid_in<'a>(alloc: Global, prices: &Prices<'a>, order: &[u8]) -> Result<Laid<'a>, NoMemory> {
    let is_pushed = !by_registers(prices.widths, prices.params);
    let mut laid = Laid {
        widths: prices.widths,
        seats: Vec::from_elem(alloc, None, prices.widths.len())?,
        saved: 0,
        slots: 0,
        is_pointed: false,
        settling: 0,
    };
    let mut taken = Taken {
        lasting: 0,
        passing: 0,
    };
    for local in order {
        if !is_pushed || usize::from(*local) >= prices.params {
            taken = seated(&mut laid, prices, taken, *local);
        }
    }
    laid.saved = taken.lasting;
    laid.is_pointed = laid.slots > 0 || (is_pushed && prices.params > 0);
    if !is_pushed {
        settle(&mut laid, prices);
    }
    Ok(laid)
}

/// Whether so many parameters, which are the first locals, arrive in registers.
pub fn by_registers(widths: &[u8], params: usize) -> bool {
    let mut bytes = 0usize;
    let mut number = 0usize;
    for width in widths {
        if number < params {
            bytes = bytes.saturating_add(usize::from(*width));
        }
        number = number.saturating_add(1);
    }
    params <= 4 && bytes <= 8
}

// Seats one more local, and says what is taken then.
fn seated(laid: &mut Laid<'_>, prices: &Prices<'_>, taken: Taken, local: u8) -> Taken {
    let index = usize::from(local);
    let width = laid.width(local);
    let mut more = taken;
    if !is_at(prices.lasting.as_slice(), index) && taken.passing.saturating_add(width) <= PASSING {
        give(laid, index, taken.passing.saturating_add(8));
        more.passing = taken.passing.saturating_add(width);
    } else if taken.lasting.saturating_add(width) <= LASTING {
        give(laid, index, taken.lasting.saturating_add(2));
        more.lasting = taken.lasting.saturating_add(width);
    } else {
        laid.slots = laid.slots.saturating_add(width);
    }
    more
}

fn give(laid: &mut Laid<'_>, index: usize, register: usize) {
    if index < laid.seats.len() {
        laid.seats[index] = Some((register % 256) as u8);
    }
}

// Counts the words that bring parameters from the registers in which they arrive.
fn settle(laid: &mut Laid<'_>, prices: &Prices<'_>) {
    let mut register = 18u8;
    for index in 0..prices.params {
        let local = (index % 256) as u8;
        let width = width_of(prices.widths, local);
        if is_at(prices.first.as_slice(), index) {
            let words = match laid.seat(local) {
                Some(seat) => moves(register, seat, width, width),
                None => usize::from(width),
            };
            laid.settling = laid.settling.saturating_add(words);
        }
        register = register.saturating_add(width);
    }
}

/// The words that bring so many bytes from one register on to so many from another one on.
pub fn moves(from: u8, to: u8, width: u8, count: u8) -> usize {
    let has = usize::from(width);
    let gets = usize::from(count);
    let both = if has < gets { has } else { gets };
    let words = if from % 2 == 0 && to % 2 == 0 {
        both.saturating_add(1) / 2
    } else {
        both
    };
    words.saturating_add(gets.saturating_sub(both))
}
