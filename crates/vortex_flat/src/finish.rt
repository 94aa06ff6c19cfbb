//! Laying out.

ghost use Rattle.std.specs.Prelude.{◌≡◌, List, ℕ, IfOk, Some};
ghost use Rattle.vortex_flat.specs.Tree.{Tree};
ghost use Rattle.vortex_flat.specs.Item.{tree_of};
ghost use Rattle.vortex_flat.specs.Layout.{layout_of};
ghost use Rattle.vortex_flat.specs.Reads.{InRange, ReadsAgain};
ghost use Rattle.vortex_flat.specs.Finish.{Finishes, IsTable};

use crate::error::FlatError;
use crate::extent::LIMIT;
use crate::item::{Item, Items};
use crate::put::put_u32;
use crate::tree::put_item;
use std::alloc::Global;

/// What is laid out is read again. This does nothing when the program runs.
pub fn read_again()
    ensures { (t : Tree) (b : List ℕ) → IsTable t → InRange t → layout_of t ≡ Some b
        → ReadsAgain b t }
{}

impl Items {
    /// The bytes of a flat buffer: the place of `root`, and then `root` with all that hangs on it.
    pub fn finish(alloc: Global, root: &Item) -> Result<Vec<u8>, FlatError>
        requires { IsTable (tree_of root.now) }
        // These are the bytes of the one layout.
        ensures laid { Finishes result (layout_of (tree_of root.now)) }
        // The readers find in them what was laid down.
        ensures reads { IfOk result (λ v. ReadsAgain v.items (tree_of root.now)) }
    {
        let extent = root.extent();
        if !extent.fits || extent.size >= LIMIT - 8 {
            return Err(FlatError::TooLong);
        }
        let mut out = Vec::with_capacity(alloc, 8 + extent.size as usize)?;
        put_u32(&mut out, 8 + root.head())?;
        put_u32(&mut out, 0)?;
        put_item(&mut out, root)?;
        Ok(out)
    }
}
