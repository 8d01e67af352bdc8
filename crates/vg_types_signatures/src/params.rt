// Parameters.
ghost use Rattle.std.specs.Prelude.{◌≡◌, map};
ghost use Rattle.vg_tree.specs.Held.{param_at};
ghost use Rattle.vg_rules.specs.Written.{param_types_keep};
ghost use Rattle.vg_rules.specs.Signatures.{is_param, params_differ};
ghost use Rattle.vg_types_classes.specs.Classes.{declarations_in, IsMapAt};

use crate::types::type_keeps;
use vg_base::Names;
use vg_tree::{Node, Param};
use vg_types_names::Declaration;
use vg_types_views::{ByText, text_of};

/// Whether the types of parameters are written rightly.
pub(crate) fn param_types_keep(
    names: &Names,
    nodes: &[Node],
    declarations: &ByText<Declaration>,
    params: &[Param],
) -> bool
    requires { IsMapAt names.now nodes.now declarations.now }
    ensures { result ≡ param_types_keep (declarations_in names.now nodes.now) (map (param_at names.now) params.now) }
{
    'each: for param in params {
        if !type_keeps(names, nodes, declarations, &param.type_) {
            return false;
        }
    }
    true
}

/// Whether the names of parameters differ. There are at most 60 of them, so each is compared with those behind it.
pub(crate) fn params_differ(names: &Names, params: &[Param]) -> bool
    ensures { result ≡ params_differ (map (param_at names.now) params.now) }
{
    match params {
        [] => true,
        [first, rest @ ..] => {
            !is_param(names, rest, text_of(names, first.name)) && params_differ(names, rest)
        }
    }
}

// Whether a parameter has this name.
fn is_param(names: &Names, params: &[Param], text: &str) -> bool
    ensures { result ≡ is_param (map (param_at names.now) params.now) text.now }
{
    'each: for param in params {
        if text_of(names, param.name) == text {
            return true;
        }
    }
    false
}
