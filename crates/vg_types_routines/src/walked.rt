// What is built of members.
ghost use Rattle.std.specs.Prelude.{◌≡◌, [], ◌∷◌, ◌++◌, Some, IfOk};
ghost use Rattle.vg_meaning.specs.Code.{Nothing};
ghost use Rattle.vg_core.specs.HeldProgram.{code_of};

use std::alloc::Global;
use vg_base::NoMemory;
use vg_core::{Body, Code};
use vg_types_bodies::Constructed;

/// What is built of the members of a class or component so far, and the bodies of all methods so far.
#[derive(Drop)]
pub(crate) struct Walked {
    /// The code of the initialiser of each member; a member that is no field has none.
    pub inits: Vec<Code>,
    pub methods: Vec<Body>,
    pub made: Option<Constructed>,
}

/// With the initialiser of one member more.
pub(crate) fn with_init(so_far: Walked, code: Code) -> Result<Walked, NoMemory>
    ensures inits { IfOk result (λ w. w.inits.items ≡ so_far.inits.items ++ code ∷ []) }
    ensures methods { IfOk result (λ w. w.methods.items ≡ so_far.methods.items) }
    ensures made { IfOk result (λ w. w.made ≡ so_far.made) }
{
    let Walked {
        inits,
        methods,
        made,
    } = so_far;
    let mut inits = inits;
    inits.push(code)?;
    Ok(Walked {
        inits,
        methods,
        made,
    })
}

/// With the body of one method more.
pub(crate) fn with_body(so_far: Walked, body: Body) -> Result<Walked, NoMemory>
    ensures inits { IfOk result (λ w. w.inits.items ≡ so_far.inits.items) }
    ensures methods { IfOk result (λ w. w.methods.items ≡ so_far.methods.items ++ body ∷ []) }
    ensures made { IfOk result (λ w. w.made ≡ so_far.made) }
{
    let Walked {
        inits,
        methods,
        made,
    } = so_far;
    let mut methods = methods;
    methods.push(body)?;
    Ok(Walked {
        inits,
        methods,
        made,
    })
}

/// With what is made of the constructor.
pub(crate) fn with_made(so_far: Walked, constructed: Constructed) -> Walked
    ensures inits { result.inits.items ≡ so_far.inits.items }
    ensures methods { result.methods.items ≡ so_far.methods.items }
    ensures made { result.made ≡ Some constructed }
{
    let Walked {
        inits,
        methods,
        made: _,
    } = so_far;
    Walked {
        inits,
        methods,
        made: Some(constructed),
    }
}
