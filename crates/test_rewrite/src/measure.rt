//! How large expressions are.
use lang_model::syntax::Expr;

/// How many nodes an expression has, and how many signs `^`.
#[derive(Clone, Copy)]
pub(crate) struct Size {
    pub(crate) nodes: u64,
    pub(crate) signs: u64,
}

impl Size {
    /// The number that each step lowers.
    pub(crate) fn measure(self) -> u64 {
        self.nodes.wrapping_add(self.signs)
    }

    /// The sum of both, with more signs at one node.
    fn with(self, other: Size) -> Size {
        Size {
            nodes: self.nodes.wrapping_add(other.nodes),
            signs: self.signs.wrapping_add(other.signs),
        }
    }
}

/// A node with a number of signs.
fn node(signs: u64) -> Size {
    Size { nodes: 1, signs }
}

/// The size of an expression.
pub(crate) fn size_of(expr: &Expr) -> Size {
    match expr {
        Expr::Ref { .. } | Expr::Inject { .. } => node(0),
        Expr::Call { args, .. } | Expr::Base { args, .. } => {
            let mut size = node(0);
            'args: for arg in args.as_slice() {
                size = size.with(size_of(arg));
            }
            size
        }
        Expr::Pair { left, right, .. } => node(0).with(size_of(left)).with(size_of(right)),
        Expr::Minus { of, .. } => node(0).with(size_of(of)),
        Expr::Turned { of, times, .. } => node(u64::from(*times)).with(size_of(of)),
        Expr::Chain { first, rest } => {
            let mut size = node(0).with(size_of(first));
            'links: for link in rest.as_slice() {
                size = size.with(size_of(&link.right));
            }
            size
        }
    }
}
