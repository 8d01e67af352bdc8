// What each part makes of its kids.
ghost use Rattle.std.specs.Prelude.{◌≡◌, List, [], ℕ, map, IfOk};
ghost use Rattle.vg_syntax.specs.Made.{Word};
ghost use Rattle.vg_syntax.specs.Reads.{value, kids_of, made};
ghost use Rattle.vg_reader.specs.Makers.{made_row, made_type, made_declaration, made_statement, made_expression, made_new};
ghost use Rattle.vg_tree.specs.Held.{text_at};
ghost use Rattle.vg_tree.specs.HeldMade.{value_at};

use crate::sort::{
    DeclarationMaker, ExpressionMaker, Maker, NewMaker, RowMaker, StatementMaker, TypeMaker,
    maker_of,
};
use std::alloc::Global;
use vg_base::{Name, NoMemory, Place};
use vg_read_declarations::declarations::{
    declaration, entry, extended, handler, member, more_parameters, parameters, register,
    super_call, typed, whole,
};
use vg_read_expressions::levels::{level, operators, rest_of_level, unary};
use vg_read_expressions::primary::primary;
use vg_read_expressions::suffixes::{postfix, suffixes};
use vg_read_new::fresh::{new_level, new_levels, new_of_name, new_part};
use vg_read_statements::statements::{block, else_arm, else_part, header, simple, statement};
use vg_read_types::types::{
    atom, dimensions, more_types, other_atom, plain, result_type, type_of, types,
};
use vg_syntax::{Kind, Part};
use vg_tree::made::{Made, Value};
use vg_tree::rows::{behind_sign, enclosed, more_rowed, optional, rowed};

/// The value of a token: its place, its kind, and the name of its text.
pub fn leaf(kind: Kind, place: Place, text: Name) -> Value
    ensures { (texts : List (List ℕ)) → value_at texts result ≡ value place (Word kind (text_at texts text)) }
{
    Value {
        place,
        made: Made::Word(kind, text),
    }
}

/// What a part makes of the values of its kids. The text of the name `nameless` is to be empty: it stands where a name is missing, which it is in no parse.
pub(crate) fn make(
    alloc: Global,
    nameless: Name,
    part: Part,
    kids: &mut [Value],
) -> Result<Value, NoMemory>
    ensures { (texts : List (List ℕ)) → text_at texts nameless ≡ []
        → IfOk result (λ v. value_at texts v ≡ made part (kids_of (map (value_at texts) kids.old))) }
{
    match maker_of(part) {
        Maker::Row(by) => make_row(alloc, by, kids),
        Maker::Type(by) => make_type(alloc, nameless, by, kids),
        Maker::Declaration(by) => make_declaration(alloc, nameless, by, kids),
        Maker::Statement(by) => make_statement(alloc, nameless, by, kids),
        Maker::Expression(by) => make_expression(alloc, nameless, by, kids),
        Maker::New(by) => make_new(alloc, nameless, by, kids),
    }
}

fn make_row(alloc: Global, by: RowMaker, kids: &mut [Value]) -> Result<Value, NoMemory>
    ensures { (texts : List (List ℕ)) → IfOk result (λ v. value_at texts v ≡ made_row by (kids_of (map (value_at texts) kids.old))) }
{
    match by {
        RowMaker::Row => rowed(alloc, kids),
        RowMaker::MoreRow => more_rowed(alloc, kids),
        RowMaker::Enclosed => Ok(enclosed(kids)),
        RowMaker::Optional => Ok(optional(kids)),
        RowMaker::BehindSign => Ok(behind_sign(kids)),
    }
}

fn make_type(
    alloc: Global,
    nameless: Name,
    by: TypeMaker,
    kids: &mut [Value],
) -> Result<Value, NoMemory>
    ensures { (texts : List (List ℕ)) → text_at texts nameless ≡ []
        → IfOk result (λ v. value_at texts v ≡ made_type by (kids_of (map (value_at texts) kids.old))) }
{
    match by {
        TypeMaker::Result => Ok(result_type(kids)),
        TypeMaker::Whole => type_of(alloc, kids),
        TypeMaker::Types => types(alloc, kids),
        TypeMaker::MoreTypes => more_types(alloc, kids),
        TypeMaker::Plain => plain(alloc, kids),
        TypeMaker::Dimensions => dimensions(alloc, kids),
        TypeMaker::Atom => Ok(atom(kids)),
        TypeMaker::OtherAtom => Ok(other_atom(nameless, kids)),
    }
}

fn make_declaration(
    alloc: Global,
    nameless: Name,
    by: DeclarationMaker,
    kids: &mut [Value],
) -> Result<Value, NoMemory>
    ensures { (texts : List (List ℕ)) → text_at texts nameless ≡ []
        → IfOk result (λ v. value_at texts v ≡ made_declaration by (kids_of (map (value_at texts) kids.old))) }
{
    match by {
        DeclarationMaker::Whole => whole(alloc, kids),
        DeclarationMaker::Declaration => declaration(alloc, nameless, kids),
        DeclarationMaker::Extended => Ok(extended(kids)),
        DeclarationMaker::Register => Ok(register(nameless, kids)),
        DeclarationMaker::Entry => Ok(entry(nameless, kids)),
        DeclarationMaker::Handler => Ok(handler(nameless, kids)),
        DeclarationMaker::Member => member(alloc, nameless, kids),
        DeclarationMaker::SuperCall => Ok(super_call(kids)),
        DeclarationMaker::Parameters => parameters(alloc, nameless, kids),
        DeclarationMaker::MoreParameters => more_parameters(alloc, nameless, kids),
        DeclarationMaker::Typed => Ok(typed(nameless, kids)),
    }
}

fn make_statement(
    alloc: Global,
    nameless: Name,
    by: StatementMaker,
    kids: &mut [Value],
) -> Result<Value, NoMemory>
    ensures { (texts : List (List ℕ)) → text_at texts nameless ≡ []
        → IfOk result (λ v. value_at texts v ≡ made_statement by (kids_of (map (value_at texts) kids.old))) }
{
    match by {
        StatementMaker::Block => block(alloc, kids),
        StatementMaker::Statement => statement(alloc, nameless, kids),
        StatementMaker::Else => Ok(else_part(alloc, kids)),
        StatementMaker::ElseArm => else_arm(alloc, kids),
        StatementMaker::Header => Ok(header(kids)),
        StatementMaker::Simple => simple(alloc, kids),
    }
}

fn make_expression(
    alloc: Global,
    nameless: Name,
    by: ExpressionMaker,
    kids: &mut [Value],
) -> Result<Value, NoMemory>
    ensures { (texts : List (List ℕ)) → text_at texts nameless ≡ []
        → IfOk result (λ v. value_at texts v ≡ made_expression by (kids_of (map (value_at texts) kids.old))) }
{
    match by {
        ExpressionMaker::Level => level(alloc, kids),
        ExpressionMaker::Rest => rest_of_level(alloc, kids),
        ExpressionMaker::Unary => unary(alloc, kids),
        ExpressionMaker::Operators => operators(alloc, kids),
        ExpressionMaker::Postfix => postfix(alloc, kids),
        ExpressionMaker::Suffixes => suffixes(alloc, nameless, kids),
        ExpressionMaker::Primary => Ok(primary(nameless, kids)),
    }
}

fn make_new(
    alloc: Global,
    nameless: Name,
    by: NewMaker,
    kids: &mut [Value],
) -> Result<Value, NoMemory>
    ensures { (texts : List (List ℕ)) → text_at texts nameless ≡ []
        → IfOk result (λ v. value_at texts v ≡ made_new by (kids_of (map (value_at texts) kids.old))) }
{
    match by {
        NewMaker::Fresh => new_part(alloc, nameless, kids),
        NewMaker::OfName => Ok(new_of_name(alloc, nameless, kids)),
        NewMaker::Levels => new_levels(alloc, nameless, kids),
        NewMaker::Level => new_level(alloc, kids),
    }
}
