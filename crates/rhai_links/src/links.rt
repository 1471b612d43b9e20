//! The links of a chain as they stand in the tree.

ghost use Rattle.std.specs.Prelude.{◌≡◌, Some, None, if◌then◌else◌};
ghost use Rattle.std.specs.Option.{option_copied, option_map};
ghost use Rattle.rhai_tree.specs.declared.expr.Expr.{out-Expr};
ghost use Rattle.rhai_tree.specs.Forms.{is_unqualified};
ghost use Rattle.rhai_machine.specs.language.Links.{AtMethod, breaks as breaks_in, dot_form, first_in};
ghost use Rattle.rhai_machine.specs.language.Links.{dot_link as dot_link_in, index_link as index_link_in};
ghost use Rattle.rhai_machine.specs.language.Links.{link_of as link_in, link_with as link_with_in};
ghost use Rattle.rhai_machine.specs.language.Links.{stops as stops_in};
ghost use Rattle.rhai_links.specs.Chains.{form_seen, link_seen};

use bitflags::Flags;
use rhai_tree::expr::{Expr, FnCallExpr};
use rhai_tree::flags::ASTFlags;
use rhai_tree::position::Position;
use rhai_tree::{Shared, Text};

/// What a link is.
#[derive(Clone, Copy)]
pub enum LinkForm<'e> {
    /// An item, by an index.
    Index(&'e Expr),
    /// A property, by its name.
    Property(&'e Shared<Text>, Position),
    /// A method with its arguments.
    Method(&'e FnCallExpr, Position),
}

/// A link of a chain.
#[derive(Clone, Copy)]
pub struct Link<'e> {
    pub form: LinkForm<'e>,
    /// The operator.
    pub at: Position,
    /// What stands behind the operator.
    pub rest_at: Position,
    /// Whether the chain stops there at `()`.
    pub stops_at_unit: bool,
    /// The chain that goes on from it.
    pub behind: Option<&'e Expr>,
}

/// Tells whether a chain stops at `()`.
fn stops(options: ASTFlags) -> bool
    ensures { result ≡ stops_in options }
{
    options.contains(ASTFlags::NEGATED)
}

/// Tells whether a chain stands in brackets, and does not go on.
fn breaks(options: ASTFlags) -> bool
    ensures { result ≡ breaks_in options }
{
    options.contains(ASTFlags::BREAK)
}

/// Returns what the operator of a chain works on, None of what is no chain.
pub fn first_of(chain: &Expr) -> Option<&Expr>
    ensures { option_copied result ≡ first_in (out-Expr chain.now) }
{
    match chain {
        Expr::Index(first, _, _, _) | Expr::Dot(first, _, _, _) => Some(first.get()),
        _ => None,
    }
}

/// Makes a link of a method without a path. A call with one is no link.
fn method_form(call: &FnCallExpr, pos: Position) -> Option<LinkForm<'_>>
    ensures { option_map form_seen result ≡ if is_unqualified call.now.namespace.path
        then Some (AtMethod call.now.name call.now.args pos) else None }
{
    if call.namespace.path.len() == 0 {
        Some(LinkForm::Method(call, pos))
    } else {
        None
    }
}

/// Reads what stands behind a dot: a property, or a method without a path.
fn form_behind_dot(expr: &Expr) -> Option<LinkForm<'_>>
    ensures { option_map form_seen result ≡ dot_form (out-Expr expr.now) }
{
    match expr {
        Expr::Property(name, pos) => Some(LinkForm::Property(name, *pos)),
        Expr::MethodCall(call, pos) => method_form(call, *pos),
        _ => None,
    }
}

/// Builds a link with its options.
fn link_with<'e>(
    form: LinkForm<'e>,
    at: Position,
    rest_at: Position,
    options: ASTFlags,
    behind: Option<&'e Expr>,
) -> Link<'e>
    ensures { link_seen result ≡ link_with_in (form_seen form.entry) at rest_at options
        (option_map out-Expr (option_copied behind.entry)) }
{
    let stops_at_unit = stops(options);
    Link {
        form,
        at,
        rest_at,
        stops_at_unit,
        behind,
    }
}

/// Reads the link of an index: the first of the chain behind it, or all that stands there.
fn index_link(behind: &Expr, options: ASTFlags, at: Position) -> Link<'_>
    ensures { link_seen result ≡
        index_link_in (breaks_in options) (first_in (out-Expr behind.now)) behind.now options at }
{
    let rest_at = behind.position();
    if breaks(options) {
        return link_with(LinkForm::Index(behind), at, rest_at, options, None);
    }
    match first_of(behind) {
        Some(first) => link_with(LinkForm::Index(first), at, rest_at, options, Some(behind)),
        None => link_with(LinkForm::Index(behind), at, rest_at, options, None),
    }
}

/// Reads the link of a dot: the first of the chain behind it, or what stands there alone. A dot in brackets
/// does not go on.
fn dot_link(behind: &Expr, options: ASTFlags, at: Position) -> Option<Link<'_>>
    ensures { option_map link_seen result ≡
        dot_link_in (breaks_in options) (first_in (out-Expr behind.now)) behind.now options at }
{
    let rest_at = behind.position();
    match first_of(behind) {
        Some(first) => {
            if breaks(options) {
                return None;
            }
            let form = form_behind_dot(first)?;
            Some(link_with(form, at, rest_at, options, Some(behind)))
        }
        None => {
            let form = form_behind_dot(behind)?;
            Some(link_with(form, at, rest_at, options, None))
        }
    }
}

/// Reads the first link of a chain, None of what is no chain.
pub fn link_of(chain: &Expr) -> Option<Link<'_>>
    ensures { option_map link_seen result ≡ link_in (out-Expr chain.now) }
{
    match chain {
        Expr::Index(_, behind, options, at) => Some(index_link(behind.get(), *options, *at)),
        Expr::Dot(_, behind, options, at) => dot_link(behind.get(), *options, *at),
        _ => None,
    }
}
