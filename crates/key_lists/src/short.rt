//! What a list can keep in itself.
ghost use Rattle.std.proofs.Common.{rules};
ghost use Rattle.std.specs.Mem.{FitsInMemory};
ghost use Rattle.key_lists.specs.contracts.items.Items.{the_row};

/// A value of so few bytes that a list can keep a few of them in itself. Any that fits into a
/// machine is, but a proof has to be told so of its type. The default fills the places of a list
/// that hold nothing, and nobody sees it there.
pub trait Short: Copy + Default {
    // A list, with all that it keeps in itself, fits into memory.
    ghost fits: { FitsInMemory (the_row Self.row) };
}

impl Short for u32 {
    ghost fits = { Prim.search rules };
}
