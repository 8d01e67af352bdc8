// The newer code, place by place.
use vg_base::Refusal;
use vg_lin::{Call, Instr, Operand, Operator, Plain, Target, Test};
use vg_trim_flow::{
    Grid, Next, Size, Ways, at, bytes_of, is_at, is_pure, is_same, narrowed, result_bytes,
    target_of, width_of,
};
use vg_trim_homes::{Homes, NoRoom, mapped, mapped_call, mapped_test};
use vg_trim_living::{Life, is_behind, is_crossing_behind, is_stop};
use vg_trim_ranges::{Ranges, Spot, result_most};
use vg_trim_sharing::{Seen, Works, first_of};

/// What is known of the older code.
#[derive(Drop)]
pub struct Older<'a> {
    pub code: &'a [Instr],
    pub widths: &'a [u8],
    pub ways: &'a Ways,
    pub life: &'a Life,
    /// For each local how many bytes hold all its values that are needed where ways meet.
    pub bytes: &'a [u8],
    /// Whether a local that is kept has all bytes of the older one, and values may stand in any local that has enough, so that there are fewer locals.
    pub is_tight: bool,
    /// Whether a value may stand in a local with more bytes than it needs before there is a new one for it.
    pub is_snug: bool,
    /// For each local the one for which its local of the newer code is kept.
    pub firsts: &'a [u8],
    /// How many parameters lie in the frame, where no other value should stand.
    pub pushed: usize,
    /// The computations whose results are kept.
    pub works: &'a Works,
    /// Whether no value ever waits.
    pub is_free: bool,
    /// What the values of locals are at most.
    pub ranges: &'a Ranges,
}

impl Older<'_> {
    fn next(&self, place: usize) -> Next {
        self.ways.next(place)
    }

    fn spot(&self, place: usize) -> Spot<'_> {
        Spot {
            ranges: self.ranges,
            place,
        }
    }

    // The kept computation that an instruction does.
    fn work_in(&self, instr: Instr, place: usize) -> Option<usize> {
        let seen = Seen {
            code: self.code,
            widths: self.widths,
            ways: self.ways,
            life: self.life,
        };
        seen.work_in(self.works, instr, place)
    }

    fn is_needed(&self, next: Next, local: u8) -> bool {
        is_behind(&self.life.live, next, usize::from(local))
    }

    fn is_crossing(&self, next: Next, local: u8) -> bool {
        is_crossing_behind(
            &self.life.live,
            &self.life.crossing,
            self.ways,
            next,
            usize::from(local),
        )
    }

    // The local of the newer code that is kept for one of the older code.
    fn own(&self, homes: &mut Homes, local: u8) -> Result<u8, Refusal<NoRoom>> {
        homes.own(self.first(local), self.own_width(local))
    }

    // The first of the locals that share one with this one.
    fn first(&self, local: u8) -> u8 {
        (first_of(self.firsts, usize::from(local)) % 256) as u8
    }

    // The width of the local that is kept for one of the older code.
    fn own_width(&self, local: u8) -> u8 {
        let width = width_of(self.widths, local);
        if self.is_tight {
            width
        } else {
            narrowed(width, width_of(self.bytes, local))
        }
    }
}

/// For each local how many bytes hold all its values that are needed where ways meet.
pub fn note_bytes(seen: &Seen<'_>, ranges: &Ranges, bytes: &mut [u8]) {
    let mut place = 0usize;
    for instr in seen.code {
        if is_at(seen.ways.reached.as_slice(), place) {
            note_bytes_at(seen, ranges, *instr, place, bytes);
        }
        place = place.saturating_add(1);
    }
}

fn note_bytes_at(seen: &Seen<'_>, ranges: &Ranges, instr: Instr, place: usize, bytes: &mut [u8]) {
    if let Some(local) = target_of(instr) {
        let next = seen.ways.next(place);
        let index = usize::from(local);
        let size = Size {
            bytes: result_bytes(seen.widths, instr),
            most: result_most(ranges, place, instr),
        };
        let most = size.least();
        if is_crossing_behind(&seen.life.live, &seen.life.crossing, seen.ways, next, index)
            && index < bytes.len()
            && bytes[index] < most
        {
            bytes[index] = most;
        }
    }
}

/// The instruction that stands for that of the older code at a place, where it is not left out; the homes are those behind it then. It leads to places of the
/// older code.
pub fn made(
    older: &Older<'_>,
    homes: &mut Homes,
    instr: Instr,
    place: usize,
) -> Result<Option<Instr>, Refusal<NoRoom>> {
    let next = older.next(place);
    match instr {
        Instr::Plain(plain) => made_plain(older, homes, plain, place),
        Instr::When(test, _) => Ok(Some(made_test(older, homes, test, true, place))),
        Instr::Unless(test, _) => Ok(Some(made_test(older, homes, test, false, place))),
        Instr::Jump(_) => Ok(Some(Instr::Jump(led_to(next)))),
        Instr::Call(call) => made_call(older, homes, call, place),
        Instr::Return(width, value) => Ok(Some(Instr::Return(width, homes.home(value)))),
        Instr::Idle => Ok(Some(Instr::Idle)),
    }
}

// A branch, or the jump that stands for a needless one.
fn made_test(older: &Older<'_>, homes: &Homes, test: Test, when: bool, place: usize) -> Instr {
    if is_at(older.ways.needless.as_slice(), place) {
        Instr::Jump(led_to(older.next(place)))
    } else {
        made_branch(
            older,
            mapped_test(homes, older.spot(place), test),
            when,
            place,
        )
    }
}

// A branch that is taken where a test holds, or where it doesn't; or the other one, with its places the other way round.
fn made_branch(older: &Older<'_>, test: Test, when: bool, place: usize) -> Instr {
    let is_turned = is_at(older.ways.turned.as_slice(), place);
    let next = older.next(place);
    let to = if is_turned {
        left_to(next)
    } else {
        led_to(next)
    };
    if when != is_turned {
        Instr::When(test, to)
    } else {
        Instr::Unless(test, to)
    }
}

// The place to which a branch or a jump leads.
fn led_to(next: Next) -> u16 {
    match next {
        Next::Nowhere => 0,
        Next::One(to) => (to % 65_536) as u16,
        Next::Two(to, _) => (to % 65_536) as u16,
    }
}

// The place to which a branch leads that is not taken.
fn left_to(next: Next) -> u16 {
    match next {
        Next::Two(_, behind) => (behind % 65_536) as u16,
        _ => 0,
    }
}

fn made_plain(
    older: &Older<'_>,
    homes: &mut Homes,
    plain: Plain,
    place: usize,
) -> Result<Option<Instr>, Refusal<NoRoom>> {
    let instr = Instr::Plain(plain);
    let Some(local) = target_of(instr) else {
        return Ok(Some(Instr::Plain(mapped(homes, older.spot(place), plain, 0))));
    };
    let next = older.next(place);
    if !older.is_needed(next, local) {
        if is_pure(plain) {
            homes.set(local, None);
            return Ok(None);
        }
        let spare = homes.spare()?;
        let made = mapped(homes, older.spot(place), plain, spare);
        homes.set(local, None);
        return Ok(Some(Instr::Plain(made)));
    }
    if let Some(number) = older.work_in(instr, place) {
        if number < homes.works.len() {
            return made_work(older, homes, plain, local, place, number);
        }
    }
    match plain {
        Plain::Copy(_, value) => made_copy(older, homes, local, value, place),
        _ => {
            let to = place_for(older, homes, instr, local, place, next)?;
            let made = mapped(homes, older.spot(place), plain, to);
            homes.give(local, to);
            Ok(Some(Instr::Plain(made)))
        }
    }
}

// A kept computation: it is left out where its result is there.
fn made_work(
    older: &Older<'_>,
    homes: &mut Homes,
    plain: Plain,
    local: u8,
    place: usize,
    number: usize,
) -> Result<Option<Instr>, Refusal<NoRoom>> {
    if number >= homes.works.len() {
        return Err(Refusal::Fault(NoRoom));
    }
    let home = homes.works[number];
    if older.works.there.has(place, number) {
        homes.set(local, Some(Operand::Local(home)));
        return Ok(None);
    }
    let made = mapped(homes, older.spot(place), plain, home);
    homes.give(local, home);
    Ok(Some(Instr::Plain(made)))
}

fn made_copy(
    older: &Older<'_>,
    homes: &mut Homes,
    local: u8,
    value: Operand,
    place: usize,
) -> Result<Option<Instr>, Refusal<NoRoom>> {
    let home = homes.home(value);
    let next = older.next(place);
    if older.is_crossing(next, local) {
        let own = older.own(homes, local)?;
        homes.give(local, own);
        if is_same(home, Operand::Local(own)) {
            return Ok(None);
        }
        return Ok(Some(Instr::Plain(Plain::Copy(own, home))));
    }
    let bytes = bytes_of(homes.widths.as_slice(), home);
    let width = width_of(older.widths, local);
    let wish = Wish {
        local,
        width,
        size: Size {
            bytes,
            most: older.ranges.most_of(place, value),
        },
        place,
        next,
        apart: None,
    };
    if bytes <= width && is_free(older, homes, wish, home) {
        homes.set(local, Some(home));
        return Ok(None);
    }
    let to = pooled(older, homes, wish)?;
    homes.give(local, to);
    Ok(Some(Instr::Plain(Plain::Copy(to, home))))
}

// Whether a value may stand there for a second local, as long as that needs it.
fn is_free(older: &Older<'_>, homes: &Homes, wish: Wish, home: Operand) -> bool {
    match home {
        Operand::Known(_) => true,
        Operand::Local(number) => {
            !homes.is_kept(number) || is_owned_clear(older, homes, wish, number)
        }
    }
}

// Whether a local is kept for some of the older code, and gets no other value as long as the one is needed that has that wish.
fn is_owned_clear(older: &Older<'_>, homes: &Homes, wish: Wish, number: u8) -> bool {
    for index in 0..homes.owns.len() {
        if let Some(Some(own)) = homes.owns.get(index) {
            if *own == number {
                return are_clear(older, (index % 256) as u8, wish);
            }
        }
    }
    false
}

fn made_call(
    older: &Older<'_>,
    homes: &mut Homes,
    call: Call,
    place: usize,
) -> Result<Option<Instr>, Refusal<NoRoom>> {
    let Some(target) = call.to else {
        return Ok(Some(Instr::Call(mapped_call(homes, call, None))));
    };
    let instr = Instr::Call(call);
    let next = older.next(place);
    if !older.is_needed(next, target.local) {
        let made = mapped_call(homes, call, None);
        homes.set(target.local, None);
        return Ok(Some(Instr::Call(made)));
    }
    let to = place_for(older, homes, instr, target.local, place, next)?;
    let made = mapped_call(
        homes,
        call,
        Some(Target {
            width: target.width,
            local: to,
        }),
    );
    homes.give(target.local, to);
    Ok(Some(Instr::Call(made)))
}

// The local of the newer code that gets the result of an instruction.
fn place_for(
    older: &Older<'_>,
    homes: &mut Homes,
    instr: Instr,
    local: u8,
    place: usize,
    next: Next,
) -> Result<u8, Refusal<NoRoom>> {
    if older.is_crossing(next, local) {
        return older.own(homes, local);
    }
    let width = width_of(older.widths, local);
    let size = mapped_size(older, homes, instr, place);
    if let Some(aim) = aim_of(older, homes, local, place) {
        let own = older.own(homes, aim)?;
        let has = homes.width(own);
        if size.is_held(width, has) {
            return Ok(own);
        }
    }
    let apart = products(instr);
    let wish = Wish {
        local,
        width,
        size,
        place,
        next,
        apart,
    };
    pooled(older, homes, wish)
}

// How large the result of an instruction is whose operands stand where they do now.
fn mapped_size(older: &Older<'_>, homes: &Homes, instr: Instr, place: usize) -> Size {
    let bytes = match instr {
        Instr::Plain(plain) => {
            let made = Instr::Plain(mapped(homes, older.spot(place), plain, 0));
            result_bytes(homes.widths.as_slice(), made)
        }
        _ => 5,
    };
    Size {
        bytes,
        most: result_most(older.ranges, place, instr),
    }
}

// An instruction whose result should not stand where its operands stand.
fn products(instr: Instr) -> Option<Instr> {
    match instr {
        Instr::Plain(Plain::Compute(c)) => match c.operator {
            Operator::Times => Some(instr),
            _ => None,
        },
        _ => None,
    }
}

// What a value asks of the local in which it is to stand.
#[derive(Clone, Copy)]
struct Wish {
    // the local of the older code that has it, and the bytes of that
    local: u8,
    width: u8,
    size: Size,
    // the place of the instruction that gives it, and where that leads
    place: usize,
    next: Next,
    // an instruction on whose operands it should not stand
    apart: Option<Instr>,
}

// A local for a value.
fn pooled(older: &Older<'_>, homes: &mut Homes, wish: Wish) -> Result<u8, Refusal<NoRoom>> {
    let wanted = if older.is_tight {
        wish.width
    } else {
        narrowed(wish.width, wish.size.least())
    };
    if let Some(number) = found(older, homes, wish, wanted, older.is_tight) {
        return Ok(number);
    }
    if older.is_snug {
        if let Some(number) = found(older, homes, wish, wanted, true) {
            return Ok(number);
        }
    }
    homes.add(wanted, false)
}

// A local that there is for a value, one with other bytes than are wanted among them or not.
fn found(older: &Older<'_>, homes: &Homes, wish: Wish, wanted: u8, is_any: bool) -> Option<u8> {
    for index in 0..homes.widths.len() {
        let number = (index % 256) as u8;
        if is_wide(homes, wish, number, wanted, is_any) && is_idle(older, homes, wish, number) {
            return Some(number);
        }
    }
    for index in older.pushed..homes.owns.len() {
        if let Some(Some(own)) = homes.owns.get(index) {
            let owner = (index % 256) as u8;
            if is_wide(homes, wish, *own, wanted, is_any)
                && is_lendable(older, homes, wish, owner, *own)
            {
                return Some(*own);
            }
        }
    }
    None
}

// Whether a local has the width that is wanted, or, where any will do, holds the value as the older code does.
fn is_wide(homes: &Homes, wish: Wish, number: u8, wanted: u8, is_any: bool) -> bool {
    let has = homes.width(number);
    has == wanted || (is_any && wish.size.is_held(wish.width, has))
}

// Whether a local may have a value that is kept for some of the older code, as long as these need none.
fn is_lendable(older: &Older<'_>, homes: &Homes, wish: Wish, owner: u8, own: u8) -> bool {
    !is_used(older, homes, own, wish.local, wish.next)
        && !is_operand(homes, wish.apart, own)
        && are_clear(older, owner, wish)
}

// Whether none of the locals that share one gets a value that is kept there, as long as the one is needed that has that wish.
fn are_clear(older: &Older<'_>, owner: u8, wish: Wish) -> bool {
    for index in 0..older.firsts.len() {
        let local = (index % 256) as u8;
        if older.first(local) == owner && !is_clear(older, local, wish.local, wish.place) {
            return false;
        }
    }
    true
}

// Whether the one local gets no value as long as the other one is needed, which is not needed where ways meet.
fn is_clear(older: &Older<'_>, owner: u8, local: u8, place: usize) -> bool {
    match older.next(place) {
        Next::One(to) => is_clear_from(older, owner, local, to, 64),
        _ => false,
    }
}

// The same from a place on, for so many steps.
fn is_clear_from(older: &Older<'_>, owner: u8, local: u8, place: usize, steps: u8) -> bool {
    if !older.life.live.has(place, usize::from(local)) {
        return true;
    }
    let next = older.next(place);
    if steps == 0 {
        return false;
    }
    if sets(older, place, owner) && older.is_needed(next, local) {
        return false;
    }
    match next {
        Next::Nowhere => true,
        Next::One(to) => is_clear_from(older, owner, local, to, steps - 1),
        Next::Two(to, behind) => {
            is_clear_from(older, owner, local, to, steps - 1)
                && is_clear_from(older, owner, local, behind, steps - 1)
        }
    }
}

// Whether the instruction at a place gives a local a value that is needed where ways meet, and so goes where it is kept.
fn sets(older: &Older<'_>, place: usize, local: u8) -> bool {
    match at(older.code, place) {
        Some(instr) => {
            target_of(instr) == Some(local) && older.is_crossing(older.next(place), local)
        }
        None => false,
    }
}

// Whether a local is kept for nothing, and no value stands there that is needed.
fn is_idle(older: &Older<'_>, homes: &Homes, wish: Wish, number: u8) -> bool {
    !homes.is_kept(number)
        && !is_used(older, homes, number, wish.local, wish.next)
        && !is_operand(homes, wish.apart, number)
}

// Whether the value of another local of the older code stands there that is needed.
fn is_used(older: &Older<'_>, homes: &Homes, number: u8, local: u8, next: Next) -> bool {
    for index in 0..homes.now.len() {
        let other = (index % 256) as u8;
        let is_there = match homes.now[index] {
            Some(home) => is_same(home, Operand::Local(number)),
            None => false,
        };
        if is_there && other != local && older.is_needed(next, other) {
            return true;
        }
    }
    false
}

fn is_operand(homes: &Homes, apart: Option<Instr>, number: u8) -> bool {
    match apart {
        Some(Instr::Plain(Plain::Compute(c))) => {
            is_same(homes.home(c.left), Operand::Local(number))
                || is_same(homes.home(c.right), Operand::Local(number))
        }
        _ => false,
    }
}

// The local to which the value that a local gets at a place is copied soon, where nothing keeps it from standing there at once.
fn aim_of(older: &Older<'_>, homes: &Homes, local: u8, place: usize) -> Option<u8> {
    let copied = copy_of(older, local, place)?;
    let (aim, last) = copied;
    if is_touched(older, aim, local, place, last) || is_lent(older, homes, aim, local, place) {
        return None;
    }
    Some(aim)
}

// The local that gets the value of a local in a copy behind a place, and the place of the copy.
fn copy_of(older: &Older<'_>, local: u8, place: usize) -> Option<(u8, usize)> {
    let mut now = place.saturating_add(1);
    for _step in 0..64u8 {
        if is_at(older.ways.joins.as_slice(), now) {
            return None;
        }
        match at(older.code, now) {
            Some(Instr::Plain(Plain::Copy(aim, Operand::Local(from)))) => {
                if from == local {
                    return taken(older, aim, local, now);
                }
                now = now.saturating_add(1);
            }
            Some(instr) => now = onward(older, instr, now)?,
            None => return None,
        }
    }
    None
}

// The copy is the last use of the local, and what it gives a value is needed where ways meet.
fn taken(older: &Older<'_>, aim: u8, local: u8, place: usize) -> Option<(u8, usize)> {
    let next = Next::One(place.saturating_add(1));
    if aim != local && !older.is_needed(next, local) && older.is_crossing(next, aim) {
        Some((aim, place))
    } else {
        None
    }
}

// The place behind an instruction, where it leads to no other one but a stop.
fn onward(older: &Older<'_>, instr: Instr, place: usize) -> Option<usize> {
    let behind = place.saturating_add(1);
    match instr {
        Instr::Plain(Plain::Stop(_)) => None,
        Instr::Plain(_) => Some(behind),
        Instr::Call(_) => Some(behind),
        Instr::Unless(_, _) => {
            let to = behind.saturating_add(1);
            if leads_to(older.next(place), to, behind) && is_stop(at(older.code, behind)) {
                Some(to)
            } else {
                None
            }
        }
        _ => None,
    }
}

// Whether a branch leads to the one place, and else to the other, if anywhere.
fn leads_to(next: Next, to: usize, behind: usize) -> bool {
    match next {
        Next::Nowhere => false,
        Next::One(place) => place == to,
        Next::Two(place, other) => place == to && other == behind,
    }
}

// Whether between two places the one local is set, or a value goes where the other one is kept.
fn is_touched(older: &Older<'_>, aim: u8, local: u8, first: usize, last: usize) -> bool {
    let from = first.saturating_add(1);
    for place in from..last {
        if let Some(instr) = at(older.code, place) {
            if target_of(instr) == Some(local) || touches(older, place, aim) {
                return true;
            }
        }
    }
    false
}

// Whether the instruction at a place gives a value to where a local is kept.
fn touches(older: &Older<'_>, place: usize, aim: u8) -> bool {
    for index in 0..older.firsts.len() {
        let local = (index % 256) as u8;
        if older.first(local) == older.first(aim) && sets(older, place, local) {
            return true;
        }
    }
    false
}

// Whether a needed value of another local than this one stands where that one is kept.
fn is_lent(older: &Older<'_>, homes: &Homes, aim: u8, local: u8, place: usize) -> bool {
    match homes.owns.get(usize::from(older.first(aim))) {
        Some(Some(own)) => {
            is_used(
                older,
                homes,
                *own,
                local,
                Next::One(place.saturating_add(1)),
            )
        }
        _ => false,
    }
}

/// Each needed local of a place stands where it is kept.
pub fn settle(older: &Older<'_>, homes: &mut Homes, place: usize) -> Result<(), Refusal<NoRoom>> {
    for local in 0..older.widths.len() {
        let number = (local % 256) as u8;
        let home = if is_live(older.life, place, local) {
            Some(Operand::Local(older.own(homes, number)?))
        } else {
            None
        };
        homes.set(number, home);
    }
    Ok(())
}

/// The live locals of a place, for its facts.
pub fn is_live(life: &Life, place: usize, local: usize) -> bool {
    life.live.has(place, local)
}

/// Whether a local is not 0 at a place and needed there.
pub fn is_filled(filled: &Grid, life: &Life, place: usize, local: usize) -> bool {
    filled.has(place, local) && life.live.has(place, local)
}
