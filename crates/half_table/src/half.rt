//! Half-edges.
ghost use Rattle.std.specs.Prelude.{◌≡◌};
ghost use Rattle.std.proofs.Common.{rules};
ghost use Rattle.half_table.specs.Half.{is_half};

use cad_rows::StringNo;
use key_lists::Short;

/// A half-edge: a string seen from its first to its second point, or back. The default is of the
/// string with the least number.
#[derive(Clone, Copy, Default, PartialEq, Eq)]
pub struct Half {
    pub string: StringNo,
    pub forward: bool,
}

impl Short for Half {
    ghost fits = { Prim.search rules };
}

pub(crate) fn is_same(a: &Half, b: &Half) -> bool
    ensures { result ≡ is_half a.now b.now }
{
    a.string == b.string && a.forward == b.forward
}
