//! What a walk may still meet.

ghost use Rattle.vortex_flat.specs.Answers.{Answers};
ghost use Rattle.vortex_schema.specs.Budget.{after_node, after_text};

use vortex_flat::FlatError;

/// How many types and bytes of text may still be met.
#[derive(Clone, Copy)]
pub(crate) struct Budget {
    pub(crate) nodes: usize,
    pub(crate) text: usize,
}

impl Budget {
    /// What is left after one more type.
    pub(crate) fn after_node(self) -> Result<Budget, FlatError>
        ensures { Answers (λ x. x) result (after_node self) }
    {
        if self.nodes < 1 {
            return Err(FlatError::Outside);
        }
        Ok(Budget {
            nodes: self.nodes - 1,
            text: self.text,
        })
    }

    /// What is left after `size` more bytes of text.
    pub(crate) fn after_text(self, size: usize) -> Result<Budget, FlatError>
        ensures { Answers (λ x. x) result (after_text size self) }
    {
        if self.text < size {
            return Err(FlatError::Outside);
        }
        Ok(Budget {
            nodes: self.nodes,
            text: self.text - size,
        })
    }
}
