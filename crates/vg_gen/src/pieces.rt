// The pieces of text that do not vary.
ghost use Rattle.std.specs.Prelude.{◌≡◌};
ghost use Rattle.vg_gen.specs.Generated as texts;

/// The device that the program writes to.
#[tactic(auto, unfolding(crate::specs::Generated::device))]
pub fn device() -> &'static [u8]
    ensures { result.now ≡ texts.device }
{
    b"device M { register OUT = 0x38; }\n"
}

/// The class above all others: its fields.
#[tactic(auto, unfolding(crate::specs::Generated::base_fields))]
pub fn base_fields() -> &'static [u8]
    ensures { result.now ≡ texts.base_fields }
{
    b"class A0 { field v: int; field d: int; field next: A0;\n"
}

/// Its constructor.
#[tactic(auto, unfolding(crate::specs::Generated::base_constructor))]
pub fn base_constructor() -> &'static [u8]
    ensures { result.now ≡ texts.base_constructor }
{
    b"  constructor(k: int, n: A0) { v = k; next = n; }\n"
}

/// The method that the others override.
#[tactic(auto, unfolding(crate::specs::Generated::base_step))]
pub fn base_step() -> &'static [u8]
    ensures { result.now ≡ texts.base_step }
{
    b"  method step(x: int): int { return x + v; }\n"
}

/// A method that nothing calls.
#[tactic(auto, unfolding(crate::specs::Generated::base_dead))]
pub fn base_dead() -> &'static [u8]
    ensures { result.now ≡ texts.base_dead }
{
    b"  method dead(): int { return d; } }\n"
}

/// A class, up to its number.
#[tactic(auto, unfolding(crate::specs::Generated::class_name))]
pub fn class_name() -> &'static [u8]
    ensures { result.now ≡ texts.class_name }
{
    b"class A"
}

/// A class, from its number to the factor of its method.
#[tactic(auto, unfolding(crate::specs::Generated::class_step))]
pub fn class_step() -> &'static [u8]
    ensures { result.now ≡ texts.class_step }
{
    b" extends A0 { constructor(k: int, n: A0): super(k, n) { } method step(x: int): int { return x * "
}

/// A class, behind that factor.
#[tactic(auto, unfolding(crate::specs::Generated::class_end))]
pub fn class_end() -> &'static [u8]
    ensures { result.now ≡ texts.class_end }
{
    b" + v; } }\n"
}

/// The component: its field.
#[tactic(auto, unfolding(crate::specs::Generated::main_fields))]
pub fn main_fields() -> &'static [u8]
    ensures { result.now ≡ texts.main_fields }
{
    b"component Main { field list: A0;\n"
}

/// The head of its constructor.
#[tactic(auto, unfolding(crate::specs::Generated::main_constructor))]
pub fn main_constructor() -> &'static [u8]
    ensures { result.now ≡ texts.main_constructor }
{
    b"  constructor() {\n"
}

/// An object, up to the number of its class.
#[tactic(auto, unfolding(crate::specs::Generated::object_class))]
pub fn object_class() -> &'static [u8]
    ensures { result.now ≡ texts.object_class }
{
    b"    list = new A"
}

/// An object, between that number and its value.
#[tactic(auto, unfolding(crate::specs::Generated::object_value))]
pub fn object_value() -> &'static [u8]
    ensures { result.now ≡ texts.object_value }
{
    b"("
}

/// An object, behind its value.
#[tactic(auto, unfolding(crate::specs::Generated::object_end))]
pub fn object_end() -> &'static [u8]
    ensures { result.now ≡ texts.object_end }
{
    b", list);\n"
}

/// The end of the constructor.
#[tactic(auto, unfolding(crate::specs::Generated::main_constructed))]
pub fn main_constructed() -> &'static [u8]
    ensures { result.now ≡ texts.main_constructed }
{
    b"  }\n"
}

/// The method that walks along the list.
#[tactic(auto, unfolding(crate::specs::Generated::main_method))]
pub fn main_method() -> &'static [u8]
    ensures { result.now ≡ texts.main_method }
{
    b"  method main() { local x: int = 1; local p: A0 = list; while (p != null) { x = p.step(x); p = p.next; } M.OUT = x :: raw.8; } }\n"
}

/// The entries of the program.
#[tactic(auto, unfolding(crate::specs::Generated::program))]
pub fn program() -> &'static [u8]
    ensures { result.now ≡ texts.program }
{
    b"program P { entry main = Main.main; }\n"
}
