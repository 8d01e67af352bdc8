// Plain instructions.
ghost use Rattle.std.specs.Prelude.{◌≡◌, ◌&&◌, ℕ, true, suc, IsTrue, None};
ghost use Rattle.vg_trimming.specs.Facts.{found_for, leads_at};
ghost use Rattle.vg_lin.specs.declared.instr.Plain.TheVariants.{Compute};
ghost use Rattle.vg_trimming.specs.Trimming.{same_memory, same_plain, target_of, result_bytes, is_paired, gain_in, keeps_operands, worked_in, both_change};
ghost use Rattle.vg_trimming.specs.Trimming.{is_pure};
ghost use Rattle.vg_trimming.specs.Trimming.{copied, left_out, is_stop, plain_stands, left_out_stands, fits_result, narrower, narrower_stands};
ghost use Rattle.vg_trimming.specs.Trimming.{found_in, reused, reuses, reused_stands, shorter_stands};
ghost use Rattle.vg_trimming.specs.Trimming.{most_given, has_bytes, fits_most, fits_bounds};

use crate::bounds::{most_computed, most_in, most_made, most_of};
use crate::homes::{bytes_of, is_it, overwrites, stands_for, width_of};
use crate::lasting::leads_at;
use crate::worked::{found_for, same_operator};
use vg_lin::{Computation, Memory, Operand, Operator, Plain};
use vg_trimming::{Bound, Change, Facts, Gain, Twin, Worked};

fn same_memory(a: Memory, b: Memory) -> bool
    ensures { IsTrue result → same_memory a b ≡ true }
{
    match (a, b) {
        (Memory::Ram, Memory::Ram) => true,
        (Memory::Flash, Memory::Flash) => true,
        _ => false,
    }
}

fn same_computation(twins: &[Twin], c: Computation, d: Computation) -> bool
    ensures { IsTrue result → same_plain twins.now (Compute c) (Compute d) ≡ true }
{
    same_operator(c.operator, d.operator)
        && c.width == d.width
        && stands_for(twins, c.left, d.left)
        && stands_for(twins, c.right, d.right)
}

/// Whether both do the same with the same values, but for the local that gets the result.
fn same_plain(twins: &[Twin], old: Plain, new: Plain) -> bool
    ensures { IsTrue result → same_plain twins.now old new ≡ true }
{
    match (old, new) {
        (Plain::Copy(_, a), Plain::Copy(_, b)) => stands_for(twins, a, b),
        (Plain::Compute(c), Plain::Compute(d)) => same_computation(twins, c, d),
        (Plain::Load(m, w, _, a), Plain::Load(n, v, _, b)) => {
            same_memory(m, n) && w == v && a.base == b.base && stands_for(twins, a.index, b.index)
        }
        (Plain::Store(w, a, u), Plain::Store(v, b, z)) => {
            w == v
                && a.base == b.base
                && stands_for(twins, a.index, b.index)
                && stands_for(twins, u, z)
        }
        (Plain::ReadDevice(_, a), Plain::ReadDevice(_, b)) => a == b,
        (Plain::WriteDevice(a, u), Plain::WriteDevice(b, z)) => a == b && stands_for(twins, u, z),
        (Plain::Push(w, u), Plain::Push(v, z)) => w == v && stands_for(twins, u, z),
        (Plain::Pop(w, _), Plain::Pop(v, _)) => w == v,
        (Plain::Find(d, _, u), Plain::Find(e, _, z)) => d == e && stands_for(twins, u, z),
        (Plain::CodeOf(q, _), Plain::CodeOf(r, _)) => q == r,
        (Plain::Stop(c), Plain::Stop(d)) => c == d,
        _ => false,
    }
}

/// The local that gets the result.
fn target_of(plain: Plain) -> Option<u8>
    ensures { result ≡ target_of plain }
{
    match plain {
        Plain::Copy(to, _) => Some(to),
        Plain::Compute(c) => Some(c.to),
        Plain::Load(_, _, to, _) => Some(to),
        Plain::ReadDevice(to, _) => Some(to),
        Plain::Pop(_, to) => Some(to),
        Plain::Find(_, to, _) => Some(to),
        Plain::CodeOf(_, to) => Some(to),
        _ => None,
    }
}

/// How many bytes hold the result, where that is told.
fn result_bytes(widths: &[u8], plain: Plain) -> u8
    ensures { result ≡ result_bytes widths.now plain }
{
    match plain {
        Plain::Copy(_, from) => bytes_of(widths, from),
        Plain::Compute(c) => c.width,
        Plain::Load(_, width, _, _) => width,
        Plain::ReadDevice(_, _) => 1,
        _ => 5,
    }
}

/// The most that an instruction gives the local that gets its result.
fn most_given(old: &[u8], bounds: &[Bound], plain: Plain) -> u32
    ensures { result ≡ most_given old.now bounds.now plain }
{
    match plain {
        Plain::Copy(_, from) => most_of(old, bounds, from),
        Plain::Compute(c) => most_computed(old, bounds, c),
        Plain::Load(_, width, _, _) => most_in(width),
        Plain::ReadDevice(_, _) => 255,
        _ => 4_294_967_295,
    }
}

// Whether the newer local has no more bytes than the older one, and as many as the value that the latter has.
fn has_bytes(old: &[u8], new: &[u8], x: u8, y: u8, most: u32) -> bool
    ensures { result ≡ has_bytes old.now new.now x y most }
{
    width_of(new, y, 0) <= width_of(old, x, 0) && most <= most_in(width_of(new, y, 0))
}

/// Whether both locals hold the same of a value of so many bytes, of which the older one has at most so much.
fn is_paired(old: &[u8], new: &[u8], x: u8, y: u8, bytes: u8, most: u32) -> bool
    ensures { result ≡ is_paired old.now new.now x y bytes most }
{
    width_of(old, x, 5) == width_of(new, y, 6)
        || bytes <= width_of(old, x, 0) && bytes <= width_of(new, y, 0)
        || has_bytes(old, new, x, y, most)
}

/// Where the newer code has the new value of a local of the older code, where both give a local a value of so many bytes, of which the older one has at
/// most so much.
pub fn gain_in(old: &[u8], new: &[u8], x: Option<u8>, y: Option<u8>, bytes: u8, most: u32) -> Gain
    ensures { result ≡ gain_in old.now new.now x y bytes most }
{
    match (x, y) {
        (Some(from), Some(to)) => {
            if is_paired(old, new, from, to, bytes, most) {
                Gain::In(to)
            } else {
                Gain::Nothing
            }
        }
        _ => Gain::Nothing,
    }
}

// Whether the result of a computation goes to none of its operands.
fn keeps_operands(c: Computation) -> bool
    ensures { result ≡ keeps_operands c }
{
    !overwrites(Some(c.to), c.left) && !overwrites(Some(c.to), c.right)
}

// What the newer code has of a computation, where both compute the same and it keeps all of it.
fn worked_of(new: &[u8], most: u32, c: Computation, d: Computation) -> Option<Worked>
    ensures { result ≡ worked_in new.now most (Compute c) (Compute d) }
{
    let width = width_of(new, d.to, 0);
    if (d.width <= width || most <= most_in(width)) && keeps_operands(c) {
        Some(Worked {
            operator: c.operator,
            width: c.width,
            left: c.left,
            right: c.right,
            home: d.to,
        })
    } else {
        None
    }
}

fn worked_in(new: &[u8], most: u32, p: Plain, q: Plain) -> Option<Worked>
    ensures { result ≡ worked_in new.now most p q }
{
    match (p, q) {
        (Plain::Compute(c), Plain::Compute(d)) => worked_of(new, most, c, d),
        _ => None,
    }
}

fn both_change(old: &[u8], new: &[u8], bounds: &[Bound], p: Plain, q: Plain) -> Change
    ensures { result ≡ both_change old.now new.now bounds.now p q }
{
    let from = target_of(p);
    let to = target_of(q);
    let most = most_given(old, bounds, p);
    Change {
        old: from,
        new: to,
        gain: gain_in(old, new, from, to, result_bytes(new, q), most),
        filled: None,
        worked: worked_in(new, most, p, q),
        most,
    }
}

/// Whether the instruction gives a local a value and does nothing else.
fn is_pure(plain: Plain) -> bool
    ensures { result ≡ is_pure plain }
{
    match plain {
        Plain::Copy(_, _) => true,
        Plain::Compute(_) => true,
        Plain::Load(_, _, _, _) => true,
        Plain::Find(_, _, _) => true,
        Plain::CodeOf(_, _) => true,
        _ => false,
    }
}

fn copied(old: &[u8], plain: Plain) -> Gain
    ensures { result ≡ copied old.now plain }
{
    match plain {
        Plain::Copy(to, from) => Gain::Copied(from, width_of(old, to, 0)),
        _ => Gain::Nothing,
    }
}

/// What changes where an instruction is left out; in its place a local of the newer code may get a value that nobody needs.
fn left_out(old: &[u8], bounds: &[Bound], plain: Plain, spoiled: Option<u8>) -> Change
    ensures { result ≡ left_out old.now bounds.now plain spoiled }
{
    Change {
        old: target_of(plain),
        new: spoiled,
        gain: copied(old, plain),
        filled: None,
        worked: None,
        most: most_given(old, bounds, plain),
    }
}

pub fn is_stop(plain: Plain) -> bool
    ensures { result ≡ is_stop plain }
{
    match plain {
        Plain::Stop(_) => true,
        _ => false,
    }
}

/// Whether the second instruction stands for the first, and does what it does.
pub fn plain_stands(
    old: &[u8],
    new: &[u8],
    facts: &[Facts],
    before: &Facts,
    at: u16,
    p: Plain,
    q: Plain,
) -> bool
    ensures { IsTrue result → plain_stands old.now new.now facts.now before.now at p q ≡ true }
{
    if !same_plain(before.twins.as_slice(), p, q) {
        return false;
    }
    is_stop(p)
        || leads_at(
            new,
            facts,
            before,
            both_change(old, new, before.bounds.as_slice(), p, q),
            usize::from(at) + 1,
        )
}

// Whether so many bytes of a result are all of it.
fn fits_result(new: &[u8], operator: Operator, width: u8, left: Operand, right: Operand) -> bool
    ensures { IsTrue result → fits_result new.now operator width left right ≡ true }
{
    match operator {
        Operator::And => bytes_of(new, left) <= width || bytes_of(new, right) <= width,
        Operator::Or => bytes_of(new, left) <= width && bytes_of(new, right) <= width,
        Operator::Xor => bytes_of(new, left) <= width && bytes_of(new, right) <= width,
        _ => false,
    }
}

// Whether so many bytes are all of a result, of operands of at most so much.
fn fits_most(operator: Operator, width: u8, left: u32, right: u32, by: Operand) -> bool
    ensures { IsTrue result → fits_most operator width left right by ≡ true }
{
    let all = most_in(width);
    let made = most_made(operator, left, right, by);
    match operator {
        Operator::Plus => made <= u64::from(all),
        Operator::Times => made <= u64::from(all),
        Operator::And => made <= u64::from(all),
        Operator::Or => made <= u64::from(all),
        Operator::Xor => made <= u64::from(all),
        Operator::ShiftRight => left <= all,
        _ => false,
    }
}

fn fits_bounds(old: &[u8], bounds: &[Bound], c: Computation, width: u8) -> bool
    ensures { IsTrue result → fits_bounds old.now bounds.now c width ≡ true }
{
    let left = most_of(old, bounds, c.left);
    let right = most_of(old, bounds, c.right);
    fits_most(c.operator, width, left, right, c.right)
}

fn is_narrower(old: &[u8], new: &[u8], before: &Facts, c: Computation, d: Computation) -> bool
    ensures { IsTrue result → narrower old.now new.now before.now (Compute c) (Compute d) ≡ true }
{
    same_operator(c.operator, d.operator)
        && d.width <= c.width
        && stands_for(before.twins.as_slice(), c.left, d.left)
        && stands_for(before.twins.as_slice(), c.right, d.right)
        && (fits_result(new, d.operator, d.width, d.left, d.right)
            || fits_bounds(old, before.bounds.as_slice(), c, d.width))
}

/// Whether the second instruction computes the same as the first, with fewer bytes.
fn narrower(old: &[u8], new: &[u8], before: &Facts, p: Plain, q: Plain) -> bool
    ensures { IsTrue result → narrower old.now new.now before.now p q ≡ true }
{
    match (p, q) {
        (Plain::Compute(c), Plain::Compute(d)) => is_narrower(old, new, before, c, d),
        _ => false,
    }
}

/// Whether the second instruction stands for the first, and computes the same with fewer bytes.
fn narrower_stands(
    old: &[u8],
    new: &[u8],
    facts: &[Facts],
    before: &Facts,
    at: u16,
    p: Plain,
    q: Plain,
) -> bool
    ensures { IsTrue result → narrower_stands old.now new.now facts.now before.now at p q ≡ true }
{
    narrower(old, new, before, p, q)
        && leads_at(
            new,
            facts,
            before,
            both_change(old, new, before.bounds.as_slice(), p, q),
            usize::from(at) + 1,
        )
}

/// Whether the first instruction may be left out, for the second in its place.
fn left_out_stands(
    old: &[u8],
    new: &[u8],
    facts: &[Facts],
    before: &Facts,
    at: u16,
    p: Plain,
    q: Plain,
) -> bool
    ensures { IsTrue result → left_out_stands old.now new.now facts.now before.now at p q ≡ true }
{
    match q {
        Plain::Copy(spoiled, Operand::Known(_)) => {
            is_pure(p)
                && leads_at(
                    new,
                    facts,
                    before,
                    left_out(old, before.bounds.as_slice(), p, Some(spoiled)),
                    usize::from(at) + 1,
                )
        }
        _ => false,
    }
}

// The local in which the newer code has the result of a computation, where the older code's local holds all of it and no other value comes there.
fn found_in(old: &[u8], c: Computation, spoiled: Option<u8>, known: Option<Worked>) -> Option<u8>
    ensures { result ≡ found_in old.now c spoiled known }
{
    match known {
        Some(worked) => {
            if c.width <= width_of(old, c.to, 0) && !is_it(spoiled, worked.home) {
                Some(worked.home)
            } else {
                None
            }
        }
        None => None,
    }
}

fn reused(most: u32, spoiled: Option<u8>, c: Computation, home: u8) -> Change
    ensures { result ≡ reused most spoiled c home }
{
    Change {
        old: Some(c.to),
        new: spoiled,
        gain: Gain::In(home),
        filled: None,
        worked: None,
        most,
    }
}

fn reuses(
    old: &[u8],
    new: &[u8],
    facts: &[Facts],
    before: &Facts,
    at: u16,
    c: Computation,
    spoiled: Option<u8>,
    home: Option<u8>,
) -> bool
    ensures { result ≡ reuses old.now new.now facts.now before.now at c spoiled home }
{
    match home {
        Some(local) => {
            let most = most_computed(old, before.bounds.as_slice(), c);
            leads_at(
                new,
                facts,
                before,
                reused(most, spoiled, c, local),
                usize::from(at) + 1,
            )
        }
        None => false,
    }
}

/// Whether what the first instruction computes is there already, for the second in its place.
fn reused_stands(
    old: &[u8],
    new: &[u8],
    facts: &[Facts],
    before: &Facts,
    at: u16,
    p: Plain,
    q: Plain,
) -> bool
    ensures { IsTrue result → reused_stands old.now new.now facts.now before.now at p q ≡ true }
{
    match (p, q) {
        (Plain::Compute(c), Plain::Copy(spoiled, Operand::Known(_))) => {
            let known = found_for(before.worked.as_slice(), c);
            let home = found_in(old, c, Some(spoiled), known);
            reuses(old, new, facts, before, at, c, Some(spoiled), home)
        }
        _ => false,
    }
}

/// Whether the second instruction stands for the first, and does with less.
pub fn shorter_stands(
    old: &[u8],
    new: &[u8],
    facts: &[Facts],
    before: &Facts,
    at: u16,
    p: Plain,
    q: Plain,
) -> bool
    ensures { IsTrue result → shorter_stands old.now new.now facts.now before.now at p q ≡ true }
{
    narrower_stands(old, new, facts, before, at, p, q)
        || left_out_stands(old, new, facts, before, at, p, q)
        || reused_stands(old, new, facts, before, at, p, q)
}

/// Whether an instruction may be left out that gives a local a value which nobody needs, or which stands elsewhere too.
pub fn plain_passed(
    old: &[u8],
    new: &[u8],
    facts: &[Facts],
    before: &Facts,
    at: u16,
    p: Plain,
) -> bool
    ensures { IsTrue result
        → (is_pure p && leads_at new.now facts.now before.now (left_out old.now before.now.bounds p None) (suc at)) ≡ true }
{
    is_pure(p)
        && leads_at(
            new,
            facts,
            before,
            left_out(old, before.bounds.as_slice(), p, None),
            usize::from(at) + 1,
        )
}

/// Whether a computation may be left out whose result is there already.
pub fn work_passed(
    old: &[u8],
    new: &[u8],
    facts: &[Facts],
    before: &Facts,
    at: u16,
    c: Computation,
) -> bool
    ensures { IsTrue result
        → reuses old.now new.now facts.now before.now at c None (found_in old.now c None (found_for before.now.worked c)) ≡ true }
{
    let home = found_in(old, c, None, found_for(before.worked.as_slice(), c));
    reuses(old, new, facts, before, at, c, None, home)
}
