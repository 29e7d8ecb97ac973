// The cells of one definition.
ghost use Rattle.std.specs.Prelude.{◌≡◌, ◌+◌, ◌≤◌};
ghost use Rattle.expr_lower.specs.Nodes.{new_pair, size_of};

use byte_ops::Pair;
use frp_tree::Ty;

// A definition's type, the cells of its state where it has one, and the cells that its value is bound to.
#[derive(Clone, Copy, Debug)]
pub(crate) struct Place {
    pub(crate) ty: Ty,
    pub(crate) state: Option<Pair>,
    pub(crate) bound: Option<Pair>,
}

// The cells from this number on that a value takes: two where it is wide, low byte first, and else one.
pub(crate) fn give_out(next: &mut u32, wide: bool) -> Pair
    requires { next.old + size_of wide ≤ 65536 }
    ensures cells { result ≡ new_pair wide next.old }
    ensures next { next.new ≡ next.old + size_of wide }
{
    let low = *next as u16;
    if wide {
        *next += 2;
        let high = low + 1;
        Pair { low, high }
    } else {
        *next += 1;
        Pair { low, high: low }
    }
}
