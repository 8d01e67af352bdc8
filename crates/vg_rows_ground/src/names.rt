// Texts and their names.
use std::alloc::Global;
use vg_base::{Name, Names, NoMemory};

// The third name of three texts.
fn third(alloc: Global) -> Result<Name, NoMemory> {
    let mut names = Names::new(alloc);
    names.intern("a")?;
    names.intern("b")?;
    names.intern("c")
}

// Two texts, given one after the other, and whether they have one name.
#[test]
fn equal_texts_have_one_name(rt: HostRuntime) -> Result<(), NoMemory> {
    let beyond = third(rt.alloc())?;
    let rows = [
        ("Main", "main", false),
        ("main", "main", true),
        ("", "a", false),
        ("", "", true),
    ];
    for (first, second, same) in rows {
        let mut names = Names::new(rt.alloc());
        let one = names.intern(first)?;
        let other = names.intern(second)?;
        assert!(rt; (one == other) == same);
        assert!(rt; names.text(one) == Some(first) && names.text(other) == Some(second));
        assert!(rt; names.text(beyond).is_none());
    }
    Ok(())
}
