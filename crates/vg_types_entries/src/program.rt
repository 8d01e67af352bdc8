// The entries of the program.
ghost use Rattle.std.specs.Prelude.{◌≡◌, ◌<◌, ◌≤◌, ◌+◌, ◌^◌, ℕ, List, [], map, is_some, IfSome, IfNone, OnOk};
ghost use Rattle.std.specs.Option.{option_map};
ghost use Rattle.vg_syntax.specs.Numbering.{count_nodes, numbered};
ghost use Rattle.vg_tree.specs.Held.{node_at, row_at};
ghost use Rattle.vg_source.specs.Literals.{number_of};
ghost use Rattle.vg_rules.specs.Names.{programs};
ghost use Rattle.vg_rules.specs.Entries.{is_taken, is_vector, entries_breach};
ghost use Rattle.vg_types_views.specs.Judges.{Judges};
ghost use Rattle.vg_types_tables.specs.Views.{declarations_at};
ghost use Rattle.vg_types_tables.specs.Declares.{Declares};
ghost use Rattle.vg_types_entries.specs.Entries.{AreEntriesOf, NamesEntries};
ghost use Rattle.vg_types_entries.specs.Entering.{IsProgramAt, program_at, program_breach, entry_of, entry_view, no_entries, again, with_entry};
ghost use Rattle.vg_types_entries.specs.Entering.{vectors, only_main};

use crate::entered::entered;
use std::alloc::Global;
use vg_base::{Name, Names, NoMemory, Refusal, Row};
use vg_core::Handler;
use vg_tree::Node;
use vg_types_classes::{broken, row_of};
use vg_types_counts::count_nodes;
use vg_types_numbers::{are_digits, number_of};
use vg_types_tables::Declared;
use vg_types_views::{Broken, text_of};

/// The entries of a program.
#[derive(Drop)]
pub struct ProgramEntries {
    /// The method that runs first.
    pub main: u16,
    /// The handlers of interrupts, in order of the text.
    pub handlers: Row<Handler>,
}

// An entry: its key, and the component and the method that it names.
#[derive(Clone, Copy, Debug, PartialEq, Eq)]
pub(crate) struct Entry {
    pub key: Name,
    pub component: Name,
    pub method: Name,
}

// How often `main` was a key.
#[derive(Clone, Copy, Debug, PartialEq, Eq)]
pub(crate) enum Main {
    Missing,
    Once(u16),
    Twice,
}

// The entries that were passed.
#[derive(Drop)]
pub(crate) struct Passed {
    pub main: Main,
    // Whether all other keys are vectors that differ.
    pub kept: bool,
    pub handlers: Row<Handler>,
}

/// The entries of the program declaration, or the first breach of the rules on them. The root is the row of declarations.
///
/// There are at most 34 handlers, so each key is compared with those before it. A tree that no text has is answered by want of memory.
pub fn entries(
    alloc: Global,
    names: &Names,
    root: &Node,
    declared: &Declared,
) -> Result<ProgramEntries, Refusal<Broken>>
    requires declares { Declares names.now root.now declared.now }
    requires room { 1 + count_nodes (node_at [] root.now) < 2 ^ 32 }
    requires one { programs (declarations_at names.now root.now) ≡ 1 }
    ensures { Judges (AreEntriesOf names.now root.now declared.now) result
        (entries_breach (declarations_at names.now root.now) (declarations_at names.now root.now)) }
{
    match row_of(root) {
        Some(nodes) => match program_in(nodes) {
            Some((id, row)) => match row_of(row) {
                Some(all) => entries_in(alloc, names, root, declared, all, id),
                // A tree that no text has.
                None => Err(Refusal::NoMemory),
            },
            None => unreachable!(),
        },
        // A tree that no text has.
        None => Err(Refusal::NoMemory),
    }
}

// The first program declaration: its number, and the row of its entries.
fn program_in(nodes: &[Node]) -> Option<(u32, &Node)>
    requires { 1 + count_nodes (row_at [] nodes.now) < 2 ^ 32 }
    ensures found { IfSome result (λ f. IsProgramAt nodes.now f.0 f.1.now) }
    ensures count { IfSome result (λ f. f.0 + 1 + count_nodes (node_at [] f.1.now) ≤ 1 + count_nodes (row_at [] nodes.now)) }
    ensures none { IfNone result ((texts : List (List ℕ)) → programs (numbered 1 (row_at texts nodes.now)) ≡ 0) }
{
    let mut next = 1;
    'each: for node in nodes {
        match program_of(node) {
            Some(entries) => return Some((next, entries)),
            None => {}
        }
        next = next + count_nodes(node);
    }
    None
}

// The row of the entries of a program declaration.
fn program_of(node: &Node) -> Option<&Node>
    ensures { (texts : List (List ℕ)) → option_map (λ e. node_at texts e.now) result ≡ program_at texts node.now }
{
    match node {
        Node::ProgramDecl(_, _, entries) => Some(entries),
        _ => None,
    }
}

// These entries of the program declaration of this number, or the first breach.
fn entries_in(
    alloc: Global,
    names: &Names,
    root: &Node,
    declared: &Declared,
    all: &[Node],
    id: u32,
) -> Result<ProgramEntries, Refusal<Broken>>
    requires declares { Declares names.now root.now declared.now }
    requires room { id + 1 + count_nodes (row_at [] all.now) < 2 ^ 32 }
    ensures { Judges (NamesEntries names.now declared.now (numbered (id + 1) (row_at names.now all.now))) result
        (program_breach (declarations_at names.now root.now) id (numbered (id + 1) (row_at names.now all.now))) }
{
    let mut passed = no_entries(alloc);
    let mut next = id + 1;
    'each: for node in all {
        let entry = match entry_of(node) {
            Some(entry) => entry,
            // A tree that no text has.
            None => return Err(Refusal::NoMemory),
        };
        let method = match entered(
            names,
            root,
            declared,
            text_of(names, entry.component),
            text_of(names, entry.method),
        ) {
            Some(method) => method,
            None => return Err(broken(4, next)),
        };
        pass(&mut passed, text_of(names, entry.key), method)?;
        next = next + count_nodes(node);
    }
    match only_main(&passed) {
        Some(main) => Ok(ProgramEntries {
            main,
            handlers: passed.handlers,
        }),
        None => Err(broken(3, id)),
    }
}

// The method of the one `main`, where the keys keep the rule.
fn only_main(passed: &Passed) -> Option<u16>
    ensures { result ≡ only_main passed.now.main passed.now.kept }
{
    match passed.main {
        Main::Once(main) => { if passed.kept { Some(main) } else { None } }
        _ => None,
    }
}

// Before the first entry.
fn no_entries(alloc: Global) -> Passed
    ensures { result ≡ no_entries }
{
    Passed {
        main: Main::Missing,
        kept: true,
        handlers: Row::new(alloc),
    }
}

// The names of an entry.
fn entry_of(node: &Node) -> Option<Entry>
    ensures { IfSome result (λ e. (texts : List (List ℕ)) → entry_of (node_at texts node.now) ≡ Some (entry_view texts e)) }
{
    match node {
        Node::EntryDecl(_, key, component, method) => Some(Entry {
            key: *key,
            component: *component,
            method: *method,
        }),
        _ => None,
    }
}

// Behind an entry of this key and this method.
fn pass(passed: &mut Passed, key: &str, method: u16) -> Result<(), NoMemory>
    ensures { OnOk result (passed.new ≡ with_entry key.now method passed.old) }
{
    if key == "main" {
        passed.main = again(passed.main, method);
        return Ok(());
    }
    if passed.kept {
        match vector_of(passed.handlers.as_slice(), key) {
            Some(vector) => passed.handlers.push(Handler { vector, method })?,
            None => passed.kept = false,
        }
    }
    Ok(())
}

// With one more `main`.
fn again(main: Main, method: u16) -> Main
    ensures { result ≡ again main method }
{
    match main {
        Main::Missing => Main::Once(method),
        _ => Main::Twice,
    }
}

// The vector that a key writes, where it writes one that no handler before it has.
fn vector_of(before: &[Handler], key: &str) -> Option<u8>
    ensures some { is_some result ≡ is_vector (vectors before.now) key.now }
    ensures vector { IfSome result (λ v. v ≡ number_of key.now) }
{
    let number = number_of(key);
    if are_digits(key) && number >= 1 && number <= 34 && !is_taken(before, number as u8) {
        Some(number as u8)
    } else {
        None
    }
}

// Whether a handler has this vector.
fn is_taken(before: &[Handler], vector: u8) -> bool
    ensures { result ≡ is_taken (vectors before.now) vector }
{
    'each: for handler in before {
        if handler.vector == vector {
            return true;
        }
    }
    false
}
