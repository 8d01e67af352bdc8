// A guess at a trimmed procedure.
use crate::deciding::{Values, are_needed, sure_ways, take_back};
use std::alloc::Global;
use vg_base::{NoMemory, Refusal, Row};
use vg_lin::{Computation, Instr, LinProc, Operand, Operator, Plain};
use vg_trim_flow::{
    Given, Grid, Next, Ways, at, full, is_at, is_known, nexts_of, sum_of, width_of,
};
use vg_trim_homes::{Homes, NoRoom, filler, stand_in};
use vg_trim_living::{Life, filled, find_life, find_live, is_stop};
use vg_trim_making::{Older, is_filled, is_live, made, note_bytes, settle};
use vg_trim_orders::{Priced, ordered};
use vg_trim_placing::{Placed, Shape, close_up, in_place, shared};
use vg_trim_prices::{Plan, by_registers};
use vg_trim_ranges::{Ranges, find_ranges};
use vg_trim_sharing::{Seen, Unions, Works, spared_ways, united, useful_works, works_of};
use vg_trim_ways::{Led, lead, may_lead, unled, ways_of};
use vg_trimming::{Bound, Facts, Twin, Worked};

// Where the code has fewer pairs of a place and a local, guesses are made in many ways.
const MOST_CELLS: usize = 20_000;

/// How much a guess tries.
#[derive(Clone, Copy, PartialEq, Eq)]
pub enum Effort {
    /// What values are at most is looked for, branches are led past others that are decided, and results of computations are kept.
    Ranging,
    /// The same without a look at values.
    Leading,
    /// Results of computations that are done again are kept.
    Keeping,
    Careful,
}

// What a guess tries: to look at values, to lead branches on, and to keep results of computations.
#[derive(Clone, Copy)]
struct Tries {
    ranges: bool,
    leads: bool,
    keeps: bool,
}

/// A guess at the trimmed procedure. Where there is none nothing is known at any place.
pub fn plan(alloc: Global, procedure: &LinProc, effort: Effort) -> Result<Plan, NoMemory> {
    let given = Given {
        params: procedure.params(),
        widths: procedure.widths(),
        code: procedure.code(),
    };
    plan_of(alloc, given, effort)
}

/// The same for the parts of a procedure.
pub fn plan_of(alloc: Global, given: Given<'_>, effort: Effort) -> Result<Plan, NoMemory> {
    let tries = Tries {
        ranges: effort == Effort::Ranging,
        leads: effort == Effort::Ranging || effort == Effort::Leading,
        keeps: effort != Effort::Careful,
    };
    if are_known(given.code) && given.code.len() < 65_536 {
        if let Some(priced) = planned(alloc, given, tries)? {
            return Ok(priced.plan);
        }
    }
    as_it_is(alloc)
}

// Where values may stand.
#[derive(Clone, Copy, PartialEq, Eq)]
enum Pools {
    // in locals with as many bytes as they have
    Narrow,
    // in a local with more bytes before there is a new one
    Snug,
    // in few locals
    Tight,
}

// How a guess is made.
#[derive(Clone, Copy)]
struct Manner {
    // results of so many computations are kept
    works: usize,
    pools: Pools,
    unions: Unions,
}

// Of two guesses the one with fewer words, if its locals take few bytes.
fn better(most: usize, first: Option<Priced>, second: Priced) -> Option<Priced> {
    if sum_of(second.plan.widths.as_slice()) > most {
        return first;
    }
    match first {
        None => Some(second),
        Some(best) => {
            if second.words < best.words {
                Some(second)
            } else {
                Some(best)
            }
        }
    }
}

fn are_known(code: &[Instr]) -> bool {
    for instr in code {
        if !is_known(*instr) {
            return false;
        }
    }
    true
}

// How many bytes the locals of a guess may take: those of the procedure, and four more where nothing waits for a call and no routine is called. Such a method
// costs some 20 bytes more than it takes, if it has no more temporaries than nodes.
fn most_of(given: Given<'_>) -> usize {
    let most = sum_of(given.widths);
    for instr in given.code {
        if is_dear(*instr) {
            return most;
        }
    }
    most.saturating_add(4)
}

// Whether an instruction takes more of the stack than locals, or may become a call of a routine.
fn is_dear(instr: Instr) -> bool {
    match instr {
        Instr::Plain(Plain::Push(_, _)) => true,
        Instr::Plain(Plain::Compute(c)) => match c.operator {
            Operator::Times => !is_factor(c.right),
            Operator::Divide => true,
            Operator::Remainder => true,
            Operator::ShiftLeft => !is_known_value(c.right),
            Operator::ShiftRight => !is_known_value(c.right),
            _ => false,
        },
        _ => false,
    }
}

// Whether an operand is the number of bytes of an entry of a column or of a table.
fn is_factor(value: Operand) -> bool {
    match value {
        Operand::Known(number) => number == 1 || number == 2 || number == 4,
        Operand::Local(_) => false,
    }
}

fn is_known_value(value: Operand) -> bool {
    match value {
        Operand::Known(_) => true,
        Operand::Local(_) => false,
    }
}

fn as_it_is(alloc: Global) -> Result<Plan, NoMemory> {
    Ok(Plan {
        widths: Row::new(alloc),
        code: Row::new(alloc),
        facts: Row::new(alloc),
        places: Row::new(alloc),
    })
}

// The cheapest guess whose locals take few bytes, if there is one.
fn planned(alloc: Global, given: Given<'_>, tries: Tries) -> Result<Option<Priced>, NoMemory> {
    let locals = given.widths.len();
    let is_free = pushes_nothing(given.code);
    let led = led_ways(alloc, given.code, locals, tries.leads && is_free)?;
    let filled = filled(alloc, given.code, led.nexts.as_slice(), locals)?;
    let ranges = if tries.ranges {
        find_ranges(alloc, given, led.nexts.as_slice())?
    } else {
        Ranges::none(alloc)
    };
    let values = Values {
        code: given.code,
        widths: given.widths,
        filled: &filled,
        ranges: &ranges,
        is_free,
    };
    let (ways, life) = lived(alloc, &values, &led)?;
    let seen = Seen {
        code: given.code,
        widths: given.widths,
        ways: &ways,
        life: &life,
    };
    cheapest(alloc, given, &values, &seen, tries.keeps)
}

// The cheapest guess by what is known of the values, the ways and the life of locals.
fn cheapest(
    alloc: Global,
    given: Given<'_>,
    values: &Values<'_>,
    seen: &Seen<'_>,
    keeps: bool,
) -> Result<Option<Priced>, NoMemory> {
    let kinds = if keeps {
        useful_works(alloc, seen)?
    } else {
        Vec::new(alloc)
    };
    let most = most_of(given);
    let mut best = None;
    for manner in manners(alloc, given, kinds.len())?.as_slice() {
        let guess = guessed(alloc, given, values, seen, kinds.as_slice(), *manner);
        match guess {
            Ok(plan) => {
                let priced = ordered(alloc, plan, usize::from(given.params), most)?;
                best = better(most, best, priced);
            }
            Err(Refusal::NoMemory) => return Err(NoMemory),
            Err(Refusal::Fault(_)) => {}
        }
    }
    Ok(best)
}

// How guesses are made where there are so many computations whose results may be kept: in fewer ways where each takes long.
fn manners(alloc: Global, given: Given<'_>, kinds: usize) -> Result<Vec<Manner>, NoMemory> {
    let mut manners = Vec::new(alloc);
    if given.code.len().saturating_mul(given.widths.len()) < MOST_CELLS {
        for works in 0..kinds {
            if works < 4 {
                put_manners(&mut manners, works)?;
            }
        }
        put_manners(&mut manners, kinds)?;
    } else {
        put_pools(&mut manners, kinds, Unions::Copies)?;
        put_pools(&mut manners, 0, Unions::Apart)?;
    }
    manners.push(Manner {
        works: 0,
        pools: Pools::Tight,
        unions: Unions::Apart,
    })?;
    Ok(manners)
}

fn put_manners(manners: &mut Vec<Manner>, works: usize) -> Result<(), NoMemory> {
    put_pools(manners, works, Unions::Copies)?;
    put_pools(manners, works, Unions::All)?;
    put_pools(manners, works, Unions::Apart)
}

fn put_pools(manners: &mut Vec<Manner>, works: usize, unions: Unions) -> Result<(), NoMemory> {
    manners.push(Manner {
        works,
        pools: Pools::Narrow,
        unions,
    })?;
    manners.push(Manner {
        works,
        pools: Pools::Snug,
        unions,
    })?;
    Ok(())
}

// A guess that is made so.
fn guessed(
    alloc: Global,
    given: Given<'_>,
    values: &Values<'_>,
    seen: &Seen<'_>,
    kinds: &[Computation],
    manner: Manner,
) -> Result<Plan, Refusal<NoRoom>> {
    let works = works_of(alloc, seen, kinds, manner.works)?;
    let ways = spared_ways(alloc, seen, &works)?;
    let life = find_life(alloc, seen.code, &ways, seen.widths.len())?;
    let spared = Seen {
        code: seen.code,
        widths: seen.widths,
        ways: &ways,
        life: &life,
    };
    if are_needed(seen.code, seen.ways, &life) {
        kept_so(alloc, given, values, &spared, &works, manner)
    } else {
        kept_so(alloc, given, values, seen, &works, manner)
    }
}

// How many parameters lie in the frame, where there is room for other locals.
fn pushed_params(given: Given<'_>, manner: Manner) -> usize {
    let params = usize::from(given.params);
    if manner.pools == Pools::Tight || by_registers(given.widths, params) {
        0
    } else {
        params
    }
}

// The same where these results are kept, by the ways on which those that are there are not computed.
fn kept_so(
    alloc: Global,
    given: Given<'_>,
    values: &Values<'_>,
    seen: &Seen<'_>,
    works: &Works,
    manner: Manner,
) -> Result<Plan, Refusal<NoRoom>> {
    let mut bytes = Vec::from_elem(alloc, 0u8, seen.widths.len())?;
    note_bytes(seen, values.ranges, bytes.as_mut_slice());
    let params = usize::from(given.params);
    let firsts = united(alloc, seen, bytes.as_slice(), params, manner.unions)?;
    let older = Older {
        code: seen.code,
        widths: seen.widths,
        ways: seen.ways,
        life: seen.life,
        bytes: bytes.as_slice(),
        is_tight: manner.pools == Pools::Tight,
        is_snug: manner.pools == Pools::Snug,
        firsts: firsts.as_slice(),
        pushed: pushed_params(given, manner),
        works,
        is_free: values.is_free,
        ranges: values.ranges,
    };
    laid(alloc, &older, values.filled, params)
}

// Whether no instruction lets a value wait.
fn pushes_nothing(code: &[Instr]) -> bool {
    for instr in code {
        if let Instr::Plain(Plain::Push(_, _)) = *instr {
            return false;
        }
    }
    true
}

// The ways through code, led on or not.
fn led_ways(alloc: Global, code: &[Instr], locals: usize, leads: bool) -> Result<Led, NoMemory> {
    let mut led = unled(alloc, nexts_of(alloc, code)?, locals)?;
    if leads && may_lead(code, led.nexts.as_slice()) {
        let ways = ways_of(alloc, &led, &[])?;
        let live = find_live(alloc, code, &ways, locals)?;
        lead(alloc, code, &live, &mut led)?;
    }
    Ok(led)
}

// The ways where needless branches are left out, and the life of locals there. A branch stays whose local is needed for nothing else.
fn lived(alloc: Global, values: &Values<'_>, led: &Led) -> Result<(Ways, Life), NoMemory> {
    let locals = values.widths.len();
    let mut sure = sure_ways(alloc, values, led)?;
    for _round in 0..3u8 {
        let ways = ways_of(alloc, led, sure.as_slice())?;
        let life = find_life(alloc, values.code, &ways, locals)?;
        if !take_back(values.code, &life, &mut sure) {
            return Ok((ways, life));
        }
    }
    let ways = ways_of(alloc, led, &[])?;
    let life = find_life(alloc, values.code, &ways, locals)?;
    Ok((ways, life))
}

// The newer code, and what is known.
#[derive(Drop)]
struct Work {
    homes: Homes,
    // for each place the instruction that stands for the one there, where it is not left out; it leads to places of the older code
    made: Vec<Option<Instr>>,
    facts: Row<Facts>,
    // for each place where values stand when a run comes there by a branch
    entries: Vec<Row<Twin>>,
}

fn laid(
    alloc: Global,
    older: &Older<'_>,
    filled: &Grid,
    params: usize,
) -> Result<Plan, Refusal<NoRoom>> {
    let mut entries = Vec::new(alloc);
    for _place in older.code {
        entries.push(Row::new(alloc))?;
    }
    let mut work = Work {
        homes: Homes::new(alloc, older.widths, params)?,
        made: Vec::new(alloc),
        facts: Row::new(alloc),
        entries,
    };
    for kind in older.works.kinds.as_slice() {
        let home = work.homes.add(kind.width, true)?;
        work.homes.works.push(home)?;
    }
    settle(older, &mut work.homes, 0)?;
    let mut flows = true;
    for place in 0..older.code.len() {
        flows = lay(alloc, older, filled, &mut work, place, flows)?;
    }
    let widths = Row::from_slice(alloc, work.homes.widths.as_slice())?;
    let shape = Shape {
        has_params: params > 0,
        bytes: sum_of(widths.as_slice()),
        is_free: older.is_free,
    };
    let Work {
        homes: _homes,
        made,
        facts,
        entries: _entries,
    } = work;
    let placed = if older.is_free {
        close_up(alloc, older.code, made, shape)?
    } else {
        let code = all_made(alloc, made)?;
        in_place(alloc, shared(alloc, code, shape)?)?
    };
    let Placed { code, places } = placed;
    Ok(Plan {
        widths,
        code,
        facts,
        places,
    })
}

// All instructions, where none is left out.
fn all_made(alloc: Global, made: Vec<Option<Instr>>) -> Result<Row<Instr>, NoMemory> {
    let mut code = Row::new(alloc);
    for one in made {
        if let Some(instr) = one {
            code.push(instr)?;
        }
    }
    Ok(code)
}

// Lays the instruction of a place, and says whether a run goes on to the place behind it.
fn lay(
    alloc: Global,
    older: &Older<'_>,
    filled: &Grid,
    work: &mut Work,
    place: usize,
    flows: bool,
) -> Result<bool, Refusal<NoRoom>> {
    let Some(instr) = at(older.code, place) else {
        return Ok(false);
    };
    if !is_at(older.ways.reached.as_slice(), place) {
        let stands = unreached_instr(older, &mut work.homes, instr, place)?;
        work.made.push(stands)?;
        work.facts.push(unreached(alloc))?;
        return Ok(false);
    }
    if is_at(older.ways.joins.as_slice(), place) {
        settle(older, &mut work.homes, place)?;
    } else if !flows {
        arrive(work, place);
    }
    let facts = known(alloc, older, filled, &work.homes, place)?;
    work.facts.push(facts)?;
    let made = made(older, &mut work.homes, instr, place)?;
    let stands = if made.is_none() && !older.is_free {
        Some(filler(work.homes.spare()?))
    } else {
        made
    };
    work.made.push(stands)?;
    leave(alloc, older, work, place)
}

// What stands where no run comes: nothing, where nothing ever waits.
fn unreached_instr(
    older: &Older<'_>,
    homes: &mut Homes,
    instr: Instr,
    place: usize,
) -> Result<Option<Instr>, Refusal<NoRoom>> {
    if older.is_free {
        return Ok(None);
    }
    if place > 0 && is_at(older.ways.needless.as_slice(), place - 1) && is_stop(Some(instr)) {
        return Ok(Some(filler(homes.spare()?)));
    }
    let spare = match instr {
        Instr::Plain(Plain::Pop(_, _)) => homes.spare()?,
        _ => 0,
    };
    Ok(Some(stand_in(instr, spare)))
}

fn unreached(alloc: Global) -> Facts {
    Facts {
        reached: false,
        twins: Row::new(alloc),
        filled: Row::new(alloc),
        worked: Row::new(alloc),
        bounds: Row::new(alloc),
    }
}

// Where values stand when a run comes to a place by a branch.
fn arrive(work: &mut Work, place: usize) {
    for index in 0..work.homes.now.len() {
        work.homes.set((index % 256) as u8, None);
    }
    if place < work.entries.len() {
        for twin in work.entries[place].as_slice() {
            work.homes.set(twin.local, Some(twin.home));
        }
    }
}

// What is known at a place.
fn known(
    alloc: Global,
    older: &Older<'_>,
    filled: &Grid,
    homes: &Homes,
    place: usize,
) -> Result<Facts, NoMemory> {
    let mut sure = Row::new(alloc);
    for local in 0..older.widths.len() {
        if is_filled(filled, older.life, place, local) {
            sure.push((local % 256) as u8)?;
        }
    }
    let twins = twins_at(alloc, older, homes, place)?;
    Ok(Facts {
        reached: true,
        twins,
        filled: sure,
        worked: worked_at(alloc, older, homes, place)?,
        bounds: bounds_at(alloc, older, place)?,
    })
}

// What the needed values of a place are at most, where that is less than what their bytes hold.
fn bounds_at(alloc: Global, older: &Older<'_>, place: usize) -> Result<Row<Bound>, NoMemory> {
    let mut bounds = Row::new(alloc);
    for index in 0..older.widths.len() {
        let local = (index % 256) as u8;
        let most = older.ranges.most(place, index);
        if is_live(older.life, place, index) && most < full(width_of(older.widths, local)) {
            bounds.push(Bound { local, most })?;
        }
    }
    Ok(bounds)
}

// The results of kept computations that are there at a place.
fn worked_at(
    alloc: Global,
    older: &Older<'_>,
    homes: &Homes,
    place: usize,
) -> Result<Row<Worked>, NoMemory> {
    let mut worked = Row::new(alloc);
    for number in 0..older.works.kinds.len() {
        if number < homes.works.len() && older.works.there.has(place, number) {
            let kind = older.works.kinds[number];
            worked.push(Worked {
                operator: kind.operator,
                width: kind.width,
                left: kind.left,
                right: kind.right,
                home: homes.works[number],
            })?;
        }
    }
    Ok(worked)
}

// Where the needed values of a place stand.
fn twins_at(
    alloc: Global,
    older: &Older<'_>,
    homes: &Homes,
    place: usize,
) -> Result<Row<Twin>, NoMemory> {
    let mut twins = Row::new(alloc);
    for local in 0..homes.now.len() {
        if is_live(older.life, place, local) {
            if let Some(home) = homes.now[local] {
                twins.push(Twin {
                    local: (local % 256) as u8,
                    home,
                })?;
            }
        }
    }
    Ok(twins)
}

// Notes where values stand at the places to which an instruction leads, and says whether it leads to the place behind it.
fn leave(
    alloc: Global,
    older: &Older<'_>,
    work: &mut Work,
    place: usize,
) -> Result<bool, Refusal<NoRoom>> {
    let behind = place.saturating_add(1);
    match older.ways.next(place) {
        Next::Nowhere => Ok(false),
        Next::One(to) => {
            if to != behind {
                enter(alloc, older, work, to)?;
            }
            Ok(to == behind)
        }
        Next::Two(to, next) => {
            enter(alloc, older, work, to)?;
            if next != behind {
                enter(alloc, older, work, next)?;
            }
            Ok(next == behind)
        }
    }
}

fn enter(alloc: Global, older: &Older<'_>, work: &mut Work, to: usize) -> Result<(), NoMemory> {
    if to < work.entries.len() && !is_at(older.ways.joins.as_slice(), to) {
        let twins = twins_at(alloc, older, &work.homes, to)?;
        work.entries[to] = twins;
    }
    Ok(())
}
