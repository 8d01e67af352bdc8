// Members of classes and components.
ghost use Rattle.std.specs.Prelude.{◌≡◌, ◌<◌, ◌+◌, ◌^◌, false, [], map, IfSome, OnOk};
ghost use Rattle.std.specs.Option.{option_map};
ghost use Rattle.vg_syntax.specs.Numbering.{count_nodes, numbered};
ghost use Rattle.vg_tree.specs.Held.{text_at, param_at, node_at, row_at};
ghost use Rattle.vg_rules.specs.Signatures.{constructor_keeps, members_breach};
ghost use Rattle.vg_types_views.specs.Judges.{Judges};
ghost use Rattle.vg_types_classes.specs.Classes.{declarations_in, IsMapAt};
ghost use Rattle.vg_types_signatures.specs.Asked.{home_view, no_members, asked_view, asked_of, broken_rule, with_member};

use crate::params::{param_types_keep, params_differ};
use crate::types::type_keeps;
use std::alloc::Global;
use vg_base::{Name, Names, NoMemory, Refusal};
use vg_tree::{Node, Param};
use vg_types_classes::{broken, row_of};
use vg_types_counts::count_nodes;
use vg_types_names::Declaration;
use vg_types_views::{Broken, ByText, text_of};

/// Where members stand.
#[derive(Clone, Copy, Debug, PartialEq, Eq)]
pub(crate) enum Home {
    Component,
    Class,
    /// A class that extends another.
    Subclass,
}

// What a member keeps.
#[derive(Clone, Copy, Debug, PartialEq, Eq)]
pub(crate) struct Keeps {
    // Rule 6.
    pub name: bool,
    // Rule 8.
    pub types: bool,
    // Rule 9.
    pub constructor: bool,
    // Rule 11.
    pub params: bool,
}

// What was asked of a member, and its name; a constructor has none.
#[derive(Clone, Copy, Debug, PartialEq, Eq)]
pub(crate) struct Asked {
    pub keeps: Keeps,
    pub name: Option<Name>,
}

// The members that were passed: their names, and whether a constructor was among them.
#[derive(Drop)]
pub(crate) struct Passed {
    pub names: ByText<()>,
    pub constructor: bool,
}

/// The first breach of the rules on members, the first of which has this number.
pub(crate) fn members(
    alloc: Global,
    names: &Names,
    nodes: &[Node],
    declarations: &ByText<Declaration>,
    home: Home,
    row: &Node,
    first: u32,
) -> Result<(), Refusal<Broken>>
    requires map { IsMapAt names.now nodes.now declarations.now }
    requires room { first + count_nodes (node_at [] row.now) < 2 ^ 32 }
    ensures { Judges (λ u. Unit {0}) result
        (members_breach (declarations_in names.now nodes.now) (home_view home) [] false (numbered first (node_at names.now row.now))) }
{
    match row_of(row) {
        Some(members) => members_in(alloc, names, nodes, declarations, home, members, first),
        // A tree that no text has.
        None => Err(Refusal::NoMemory),
    }
}

// The first breach among these members.
fn members_in(
    alloc: Global,
    names: &Names,
    nodes: &[Node],
    declarations: &ByText<Declaration>,
    home: Home,
    members: &[Node],
    first: u32,
) -> Result<(), Refusal<Broken>>
    requires map { IsMapAt names.now nodes.now declarations.now }
    requires room { first + count_nodes (row_at [] members.now) < 2 ^ 32 }
    ensures { Judges (λ u. Unit {0}) result
        (members_breach (declarations_in names.now nodes.now) (home_view home) [] false (numbered first (row_at names.now members.now))) }
{
    let mut passed = no_members(alloc);
    let mut next = first;
    'each: for member in members {
        let asked = match asked_of(names, nodes, declarations, home, &passed, member) {
            Some(asked) => asked,
            // A tree that no text has.
            None => return Err(Refusal::NoMemory),
        };
        match broken_rule(asked.keeps) {
            Some(rule) => return Err(broken(rule, next)),
            None => {}
        }
        pass(names, &mut passed, asked.name)?;
        next = next + count_nodes(member);
    }
    Ok(())
}

// Before the first member.
fn no_members(alloc: Global) -> Passed
    ensures { result ≡ no_members }
{
    Passed {
        names: ByText::new(alloc),
        constructor: false,
    }
}

// Behind a member of this name, or behind a constructor.
fn pass(names: &Names, passed: &mut Passed, name: Option<Name>) -> Result<(), NoMemory>
    ensures { OnOk result (passed.new ≡ with_member (option_map (text_at names.now) name) passed.old) }
{
    match name {
        Some(name) => {
            passed.names.add(text_of(names, name), ())?;
        }
        None => passed.constructor = true,
    }
    Ok(())
}

// The first rule that is broken.
fn broken_rule(keeps: Keeps) -> Option<u8>
    ensures { result ≡ broken_rule keeps }
{
    if !keeps.name {
        Some(6)
    } else if !keeps.types {
        Some(8)
    } else if !keeps.constructor {
        Some(9)
    } else if !keeps.params {
        Some(11)
    } else {
        None
    }
}

// What is asked of a member behind those that were passed.
fn asked_of(
    names: &Names,
    nodes: &[Node],
    declarations: &ByText<Declaration>,
    home: Home,
    passed: &Passed,
    member: &Node,
) -> Option<Asked>
    requires { IsMapAt names.now nodes.now declarations.now }
    ensures { IfSome result (λ a. asked_of (declarations_in names.now nodes.now) (home_view home) passed.now (node_at names.now member.now)
        ≡ Some (asked_view names.now a)) }
{
    match member {
        Node::FieldDecl(_, name, type_, _) => Some(Asked {
            keeps: Keeps {
                name: passed.names.get(text_of(names, *name)).is_none(),
                types: type_keeps(names, nodes, declarations, type_),
                constructor: true,
                params: true,
            },
            name: Some(*name),
        }),
        Node::MethodDecl(_, name, params, result, _) => Some(Asked {
            keeps: Keeps {
                name: passed.names.get(text_of(names, *name)).is_none(),
                types: param_types_keep(names, nodes, declarations, params.as_slice())
                    && type_keeps(names, nodes, declarations, result),
                constructor: true,
                params: params_differ(names, params.as_slice()),
            },
            name: Some(*name),
        }),
        Node::ConstructorDecl(_, params, calls_super, _, _) => Some(Asked {
            keeps: Keeps {
                name: !passed.constructor,
                types: param_types_keep(names, nodes, declarations, params.as_slice()),
                constructor: constructor_keeps(names, home, params.as_slice(), *calls_super),
                params: params_differ(names, params.as_slice()),
            },
            name: None,
        }),
        _ => None,
    }
}

// Whether a constructor may have these parameters and call that of the class above, where it does.
fn constructor_keeps(names: &Names, home: Home, params: &[Param], calls_super: bool) -> bool
    ensures { result ≡ constructor_keeps (home_view home) (map (param_at names.now) params.now) calls_super }
{
    match home {
        Home::Component => params.is_empty() && !calls_super,
        Home::Class => !calls_super,
        Home::Subclass => true,
    }
}
