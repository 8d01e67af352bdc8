// Declarations.
ghost use Rattle.std.specs.Prelude.{◌≡◌, ◌<◌, ◌+◌, ◌^◌, ℕ, List, Some, IfSome};
ghost use Rattle.vg_tree.specs.Held.{node_at, row_at};
ghost use Rattle.vg_types_names.specs.Declarations.{next_declaration, counted, no_counts};
ghost use Rattle.vg_types_names.specs.Naming.{named_as, named_view, IsCounts, place_of, text_node};

use vg_base::Name;
use vg_tree::Node;

/// What a declaration declares.
#[derive(Clone, Copy, Debug, PartialEq, Eq)]
pub enum Sort {
    Class,
    Component,
    Device,
    Program,
}

/// A declaration: its sort, its number among those of its sort, and its place among all, each from 0.
#[derive(Clone, Copy, Debug, PartialEq, Eq)]
pub struct Declaration {
    pub sort: Sort,
    pub number: u32,
    pub place: u32,
}

/// How many declarations were passed.
#[derive(Clone, Copy, Debug, PartialEq, Eq)]
pub(crate) struct Counts {
    pub classes: u32,
    pub components: u32,
    pub devices: u32,
    pub programs: u32,
    /// All of them.
    pub all: u32,
}

/// The sort and the name of a declaration.
#[derive(Clone, Copy, Debug, PartialEq, Eq)]
pub(crate) struct Named {
    pub sort: Sort,
    pub name: Name,
}

/// Before the first declaration.
pub(crate) fn no_counts() -> Counts
    ensures counts { result ≡ no_counts }
    ensures sound { IsCounts result }
{
    Counts {
        classes: 0,
        components: 0,
        devices: 0,
        programs: 0,
        all: 0,
    }
}

/// The next declaration, of this sort.
pub(crate) fn next_declaration(sort: Sort, counts: Counts) -> Declaration
    ensures { result ≡ next_declaration sort counts }
{
    Declaration {
        sort,
        number: match sort {
            Sort::Class => counts.classes,
            Sort::Component => counts.components,
            Sort::Device => counts.devices,
            Sort::Program => counts.programs,
        },
        place: counts.all,
    }
}

/// Behind one more declaration of this sort.
pub(crate) fn counted(sort: Sort, counts: Counts) -> Counts
    requires room { counts.all + 1 < 2 ^ 32 }
    requires sound { IsCounts counts }
    ensures counts { result ≡ counted sort counts }
    ensures sound { IsCounts result }
{
    let all = counts.all + 1;
    match sort {
        Sort::Class => Counts {
            classes: counts.classes + 1,
            all,
            ..counts
        },
        Sort::Component => Counts {
            components: counts.components + 1,
            all,
            ..counts
        },
        Sort::Device => Counts {
            devices: counts.devices + 1,
            all,
            ..counts
        },
        Sort::Program => Counts {
            programs: counts.programs + 1,
            all,
            ..counts
        },
    }
}

/// The sort and the name of a declaration of a text.
pub(crate) fn name_and_sort(node: &Node) -> Option<Named>
    ensures { IfSome result (λ n. (texts : List (List ℕ)) → named_as (node_at texts node.now) ≡ Some (named_view texts n)) }
{
    match node {
        Node::ClassDecl(_, name, _, _) => Some(Named {
            sort: Sort::Class,
            name: *name,
        }),
        Node::ComponentDecl(_, name, _) => Some(Named {
            sort: Sort::Component,
            name: *name,
        }),
        Node::DeviceDecl(_, name, _) => Some(Named {
            sort: Sort::Device,
            name: *name,
        }),
        Node::ProgramDecl(_, name, _) => Some(Named {
            sort: Sort::Program,
            name: *name,
        }),
        _ => None,
    }
}

/// The declarations of a text.
pub(crate) fn declarations_of(root: &Node) -> Option<&[Node]>
    ensures { IfSome result (λ nodes. (texts : List (List ℕ)) → node_at texts root.now ≡ text_node (place_of root.now) (row_at texts nodes.now)) }
{
    match root {
        Node::Text(_, declarations) => row_of(declarations),
        _ => None,
    }
}

// The nodes of a row.
fn row_of(node: &Node) -> Option<&[Node]>
    ensures { IfSome result (λ nodes. (texts : List (List ℕ)) → node_at texts node.now ≡ row_at texts nodes.now) }
{
    match node {
        Node::Row(nodes) => Some(nodes.as_slice()),
        _ => None,
    }
}
