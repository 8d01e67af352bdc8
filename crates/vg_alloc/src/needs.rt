// What an instruction needs of the locals of its procedure.
ghost use Rattle.std.specs.Prelude.{◌≡◌, ◌-◌, ◌^◌, ◌<◌};
ghost use Rattle.vg_lin.specs.declared.instr.Instr.TheVariants.{Call as Calls};
ghost use Rattle.vg_lin.specs.Meaning.{operands};
ghost use Rattle.vg_templates.specs.Frames.{gets};
ghost use Rattle.vg_templates.specs.Living.{reads, passes_on, aims_by, past, plain_needs, tests_it, needs, leads_to, wants_back};

use vg_lin::{Call, Callee, Instr, Operand, Plain, Registers, Target, Test};

fn reads(operand: &Operand, local: u8) -> bool
    ensures { result ≡ reads operand.now local }
{
    match operand {
        Operand::Local(other) => local == *other,
        Operand::Known(_) => false,
    }
}

fn passes_on(registers: &Registers, local: u8) -> bool
    ensures { result ≡ passes_on (operands registers.now) local }
{
    match registers {
        Registers::Empty => false,
        Registers::One(a) => reads(&a.value, local),
        Registers::Two(a, b) => reads(&a.value, local) || reads(&b.value, local),
        Registers::Three(a, b, c) => {
            reads(&a.value, local) || reads(&b.value, local) || reads(&c.value, local)
        }
        Registers::Four(a, b, c, d) => {
            reads(&a.value, local)
                || reads(&b.value, local)
                || reads(&c.value, local)
                || reads(&d.value, local)
        }
    }
}

fn aims_by(callee: &Callee, local: u8) -> bool
    ensures { result ≡ aims_by callee.now local }
{
    match callee {
        Callee::Procedure(_) => false,
        Callee::Code(code) => reads(code, local),
    }
}

fn past(to: u8, local: u8, behind: bool) -> bool
    ensures { result ≡ past to local behind }
{
    local != to && behind
}

fn gets(to: &Option<Target>, local: u8) -> bool
    ensures { result ≡ gets to.now local }
{
    match to {
        Some(target) => local == target.local,
        None => false,
    }
}

fn plain_needs(behind: bool, local: u8, plain: &Plain) -> bool
    ensures { result ≡ plain_needs behind local plain.now }
{
    match plain {
        Plain::Copy(to, a) => reads(a, local) || past(*to, local, behind),
        Plain::Compute(c) => {
            (reads(&c.left, local) || reads(&c.right, local)) || past(c.to, local, behind)
        }
        Plain::Product(to, a, b) => {
            (reads(a, local) || reads(b, local)) || past(*to, local, behind)
        }
        Plain::DivideSteps(remainder, dividend, divisor) => {
            (local == *remainder || local == *dividend) || (reads(divisor, local) || behind)
        }
        Plain::Load(_, _, to, address) => {
            reads(&address.index, local) || past(*to, local, behind)
        }
        Plain::Store(_, address, from) => {
            (reads(&address.index, local) || reads(from, local)) || behind
        }
        Plain::ReadDevice(to, _) => past(*to, local, behind),
        Plain::WriteDevice(_, a) => reads(a, local) || behind,
        Plain::Push(_, a) => reads(a, local) || behind,
        Plain::Pop(_, to) => past(*to, local, behind),
        Plain::Find(_, to, a) => reads(a, local) || past(*to, local, behind),
        Plain::CodeOf(_, to) => past(*to, local, behind),
        Plain::Stop(_) => false,
    }
}

fn tests_it(test: &Test, local: u8) -> bool
    ensures { result ≡ tests_it test.now local }
{
    reads(&test.left, local) || reads(&test.right, local)
}

fn call_needs(behind: bool, local: u8, call: &Call) -> bool
    ensures { result ≡ needs behind behind local (Calls call.now) }
{
    (passes_on(&call.registers, local) || aims_by(&call.callee, local))
        || (!gets(&call.to, local) && behind)
}

/// Whether an instruction needs a local, which is needed behind it or not, and at the place to which it leads.
pub fn needs(behind: bool, there: bool, local: u8, instr: &Instr) -> bool
    ensures { result ≡ needs behind there local instr.now }
{
    match instr {
        Instr::Plain(plain) => plain_needs(behind, local, plain),
        Instr::When(test, _) => tests_it(test, local) || (behind || there),
        Instr::Unless(test, _) => tests_it(test, local) || (behind || there),
        Instr::Jump(_) => there,
        Instr::Call(call) => call_needs(behind, local, call),
        Instr::Return(_, a) => reads(a, local),
        Instr::Idle => behind,
    }
}

/// The place to which the instruction at a place leads.
pub fn leads_to(place: usize, instr: &Instr) -> usize
    requires { place < 2 ^ 64 - 1 }
    ensures { result ≡ leads_to place instr.now }
{
    match instr {
        Instr::When(_, to) => usize::from(*to),
        Instr::Unless(_, to) => usize::from(*to),
        Instr::Jump(to) => usize::from(*to),
        _ => place + 1,
    }
}

/// Whether a local, which is needed behind an instruction or not, is wanted back from the procedures that it lets run.
pub fn wants_back(behind: bool, local: u8, instr: &Instr) -> bool
    ensures { result ≡ wants_back behind local instr.now }
{
    match instr {
        Instr::Call(call) => behind && !gets(&call.to, local),
        Instr::Idle => behind,
        _ => false,
    }
}
