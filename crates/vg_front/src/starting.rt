// From the bytes of a source text to its initialised heap.
ghost use Rattle.std.specs.Prelude.{◌≡◌, ◌<◌, ◌≤◌, ◌^◌, ℕ, List, None, Some, length};
ghost use Rattle.vg_base.specs.Limits.{text_limit};
ghost use Rattle.vg_rules.specs.Refusal.{refusal_of};
ghost use Rattle.vg_tree_walks.specs.Whole.{tree_at, node_count};
ghost use Rattle.vg_core.specs.HeldProgram.{program_at};
ghost use Rattle.vg_named_locals.specs.Locals.{HaveLocals};
ghost use Rattle.vg_types.specs.Checks.{IsProgramOf, refused_view};
ghost use Rattle.vg_session.specs.Initialises.{why_of};
ghost use Rattle.vg_faults.specs.Judged.{fault_of, place_in};
ghost use Rattle.vg_faults.specs.Starting.{failure_of};
ghost use Rattle.vg_front.specs.Answer.{Starts};
ghost use Rattle.vg_front.specs.Mirrors.{GoesOn, Makes};

use std::alloc::Global;
use vg_base::{Names, NodeId, Place, Refusal};
use vg_core::Program;
use vg_faults::Fault;
use vg_places::place_of;
use vg_reader::{ReadFault, read};
use vg_session::{InitFault, init};
use vg_shape::Store;
use vg_tree_walks::Tree;
use vg_types::{TypeFault, check};

/// A source text that starts.
pub struct Start {
    /// The names in the tree and in the program.
    pub names: Names,
    pub tree: Tree,
    /// The typed program of the tree.
    pub program: Program,
    /// The heap that its constructors leave.
    pub heap: Store,
}

impl Drop for Start {
    // By hand: a function that may drop one calls this, where it would have a copy of a derived one.
    fn drop(self) {
        let Start {
            names: _,
            tree: _,
            program: _,
            heap: _,
        } = self;
    }
}

impl Start {
    /// The typed program and the heap alone.
    pub fn into_program_and_heap(self) -> (Program, Store)
        ensures program { result.0 ≡ self.program }
        ensures heap { result.1 ≡ self.heap }
    {
        let Start {
            names: _,
            tree: _,
            program,
            heap,
        } = self;
        (program, heap)
    }
}

/// The tree of a source text of at most 262,144 bytes, its typed program, and the heap to which it is initialised in at most so many ticks;
/// or the fault of the text, the first in the order of `Fault`.
pub fn started(alloc: Global, text: &[u8], steps: u32) -> Result<Start, Refusal<Fault>>
    requires { length text.now ≤ text_limit }
    ensures { Starts text.now steps result }
{
    let mut names = Names::new(alloc);
    match read(alloc, text, &mut names) {
        Ok(tree) => checked(alloc, names, tree, steps),
        Err(Refusal::Fault(ReadFault::NoTree(place))) => Err(Refusal::Fault(Fault::NoTree(place))),
        Err(Refusal::Fault(ReadFault::TooDeep(place))) => {
            Err(Refusal::Fault(Fault::TooDeep(place)))
        }
        Err(Refusal::NoMemory) => Err(Refusal::NoMemory),
    }
}

// The typed program of a tree, and what follows.
fn checked(alloc: Global, names: Names, tree: Tree, steps: u32) -> Result<Start, Refusal<Fault>>
    requires { node_count tree < 2 ^ 32 }
    ensures { GoesOn names tree steps result }
{
    match check(alloc, &names, &tree) {
        Ok(program) => initialised(alloc, names, tree, program, steps),
        Err(Refusal::Fault(why)) => Err(Refusal::Fault(refusal_fault(&tree, why))),
        Err(Refusal::NoMemory) => Err(Refusal::NoMemory),
    }
}

// The heap of a typed program.
fn initialised(
    alloc: Global,
    names: Names,
    tree: Tree,
    program: Program,
    steps: u32,
) -> Result<Start, Refusal<Fault>>
    requires legal { refusal_of (tree_at names tree) ≡ None }
    requires typed { IsProgramOf names (tree_at names tree) (program_at program) }
    requires locals { HaveLocals names (tree_at names tree) (program_at program) }
    ensures { Makes names tree steps result }
{
    match init(alloc, &program, steps) {
        Ok(heap) => Ok(Start {
            names,
            tree,
            program,
            heap,
        }),
        Err(Refusal::Fault(why)) => Err(Refusal::Fault(init_fault(&tree, why))),
        Err(Refusal::NoMemory) => Err(Refusal::NoMemory),
    }
}

// What is answered where a tree has no typed program.
fn refusal_fault(tree: &Tree, why: TypeFault) -> Fault
    ensures { (texts : List (List ℕ)) → result ≡ fault_of (tree_at texts tree.now) (refused_view why) }
{
    match why {
        TypeFault::TooMany(many) => Fault::TooMany {
            what: many.what,
            limit: many.limit,
            place: place_in(tree, many.node),
        },
        TypeFault::Broken(broken) => Fault::Broken {
            rule: broken.rule,
            place: place_in(tree, broken.node),
        },
    }
}

// What is answered where initialisation fails.
fn init_fault(tree: &Tree, why: InitFault) -> Fault
    ensures { (texts : List (List ℕ)) → failure_of (tree_at texts tree.now) (why_of why) ≡ Some result }
{
    match why {
        InitFault::Trap { code, node } => Fault::InitTrap {
            code,
            place: place_in(tree, node),
        },
        InitFault::Steps => Fault::InitSteps,
        InitFault::Depth => Fault::InitDepth,
        InitFault::Touches(address) => Fault::InitTouches(address),
        InitFault::TooBig => Fault::InitTooBig,
    }
}

/// The place of a node; each node that a fault names is one of the tree.
pub fn place_in(tree: &Tree, node: NodeId) -> Place
    ensures { (texts : List (List ℕ)) → result ≡ place_in node.0 (tree_at texts tree.now) }
{
    match place_of(tree, node) {
        Some(place) => place,
        None => Place { line: 1, col: 1 },
    }
}
