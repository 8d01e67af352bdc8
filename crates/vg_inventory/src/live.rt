// The live fields and methods.
use crate::known::Known;
use crate::names::member_name;
use std::alloc::Global;
use vg_base::{NoMemory, Row};
use vg_core::Member;
use vg_tree::Node;

// The names of live members, and how many fields and methods were passed. Both are numbered in order of the text.
#[derive(Drop)]
struct Passed {
    names: Row<Row<u8>>,
    fields: u32,
    methods: u16,
}

/// The names of the live fields and methods, in order of the text.
pub fn live_names(alloc: Global, known: Known<'_>) -> Result<Row<Row<u8>>, NoMemory> {
    let mut passed = Passed {
        names: Row::new(alloc),
        fields: 0,
        methods: 0,
    };
    match known.root {
        Node::Text(_, declarations) => pass_all(alloc, &mut passed, known, rows_in(declarations))?,
        _ => {}
    }
    Ok(passed.names)
}

fn rows_in(node: &Node) -> &[Node] {
    match node {
        Node::Row(nodes) => nodes.as_slice(),
        _ => &[],
    }
}

fn pass_all(
    alloc: Global,
    passed: &mut Passed,
    known: Known<'_>,
    declarations: &[Node],
) -> Result<(), NoMemory> {
    for declaration in declarations {
        match declaration {
            Node::ClassDecl(_, _, _, members) => {
                pass_members(alloc, passed, known, rows_in(members))?;
            }
            Node::ComponentDecl(_, _, members) => {
                pass_members(alloc, passed, known, rows_in(members))?;
            }
            _ => {}
        }
    }
    Ok(())
}

fn pass_members(
    alloc: Global,
    passed: &mut Passed,
    known: Known<'_>,
    members: &[Node],
) -> Result<(), NoMemory> {
    for member in members {
        match member {
            Node::FieldDecl(_, _, _, _) => {
                note(alloc, passed, known, Member::Field(passed.fields))?;
                passed.fields = passed.fields.saturating_add(1);
            }
            Node::MethodDecl(_, _, _, _, _) => {
                note(alloc, passed, known, Member::Method(passed.methods))?;
                passed.methods = passed.methods.saturating_add(1);
            }
            _ => {}
        }
    }
    Ok(())
}

// Notes the name of a member that is live.
fn note(
    alloc: Global,
    passed: &mut Passed,
    known: Known<'_>,
    member: Member,
) -> Result<(), NoMemory> {
    match known.live.reason(member) {
        Some(_) => {
            let name = member_name(alloc, known, member)?;
            passed.names.push(name)
        }
        None => Ok(()),
    }
}
