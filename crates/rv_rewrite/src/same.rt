//! Equality of expressions up to places.
ghost use Rattle.std.specs.Prelude.{◌≡◌, length};
ghost use Rattle.lang_model.specs.Trees.{CallTree, BaseTree, InjectTree, tree_of};
ghost use Rattle.lang_model.specs.declared.syntax.Place.{Place};
ghost use Rattle.lang_model.specs.Rewriting.{same_operator, same_base, same_tree, same_trees, same_branches};
ghost use Rattle.rv_rewrite.specs.Items.{args_of, links_of};

use lang_model::syntax::{Base, Expr, Link, Name, Op2};

/// Whether two operators are the same.
pub fn same_operator(a: Op2, b: Op2) -> bool
    ensures { result ≡ same_operator a b }
{
    a == b
}

/// Whether two base names are the same.
pub fn same_base(a: Base, b: Base) -> bool
    ensures { result ≡ same_base a b }
{
    a == b
}

/// Whether an expression is this domain operator with this domain, up to places.
fn is_same_injection(base: Base, domain: &Name, b: &Expr) -> bool
    ensures { (at : Place) → result ≡ same_tree (InjectTree at base domain.now) (tree_of b.now) }
{
    match b {
        Expr::Inject {
            base: other,
            domain: another,
            ..
        } => same_base(base, *other) && domain.bytes() == another.bytes(),
        _ => false,
    }
}

/// Whether two expressions are the same up to places.
#[cycle(same)]
pub fn same(a: &Expr, b: &Expr) -> bool
    ensures { result ≡ same_tree (tree_of a.now) (tree_of b.now) }
{
    match a {
        Expr::Ref { name, .. } => match b {
            Expr::Ref { name: other, .. } => name.bytes() == other.bytes(),
            _ => false,
        },
        Expr::Call { name, args, .. } => is_same_call(name, args.as_slice(), b),
        Expr::Base { base, args, .. } => is_same_base_call(*base, args.as_slice(), b),
        Expr::Inject { base, domain, .. } => is_same_injection(*base, domain, b),
        Expr::Pair { left, right, .. } => match b {
            Expr::Pair {
                left: other,
                right: another,
                ..
            } => same(left, other) && same(right, another),
            _ => false,
        },
        Expr::Minus { of, .. } => match b {
            Expr::Minus { of: other, .. } => same(of, other),
            _ => false,
        },
        Expr::Turned { of, times, .. } => match b {
            Expr::Turned {
                of: other,
                times: signs,
                ..
            } => *times == *signs && same(of, other),
            _ => false,
        },
        Expr::Chain { first, rest } => match b {
            Expr::Chain {
                first: other,
                rest: others,
            } => same(first, other) && same_links(rest.as_slice(), others.as_slice()),
            _ => false,
        },
    }
}

/// Whether an expression is a call of this definition with these arguments, up to places.
#[cycle(same)]
fn is_same_call(name: &Name, args: &[Expr], b: &Expr) -> bool
    ensures { (at : Place) → result ≡ same_tree (CallTree at name.now (args_of args.now)) (tree_of b.now) }
{
    match b {
        Expr::Call {
            name: other,
            args: others,
            ..
        } => name.bytes() == other.bytes() && same_args(args, others.as_slice()),
        _ => false,
    }
}

/// Whether an expression is a call of this base name with these arguments, up to places.
#[cycle(same)]
fn is_same_base_call(base: Base, args: &[Expr], b: &Expr) -> bool
    ensures { (at : Place) → result ≡ same_tree (BaseTree at base (args_of args.now)) (tree_of b.now) }
{
    match b {
        Expr::Base {
            base: other,
            args: others,
            ..
        } => same_base(base, *other) && same_args(args, others.as_slice()),
        _ => false,
    }
}

/// Whether two lists of arguments are the same up to places.
#[cycle(same)]
fn same_args(a: &[Expr], b: &[Expr]) -> bool
    ensures { result ≡ same_trees (args_of a.now) (args_of b.now) }
{
    let mut others = b;
    'each: for arg in a {
        let [other, more @ ..] = others else {
            return false;
        };
        if !same(arg, other) {
            return false;
        }
        others = more;
    }
    others.is_empty()
}

/// Whether two lists of links are the same up to places.
#[cycle(same)]
fn same_links(a: &[Link], b: &[Link]) -> bool
    ensures { result ≡ same_branches (links_of a.now) (links_of b.now) }
{
    let mut others = b;
    'each: for link in a {
        let [other, more @ ..] = others else {
            return false;
        };
        if !(same_operator(link.op, other.op) && same(&link.right, &other.right)) {
            return false;
        }
        others = more;
    }
    others.is_empty()
}
