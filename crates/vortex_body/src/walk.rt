//! A node, met node by node. No memory is taken.

ghost use Rattle.std.specs.Prelude.{◌≡◌, ◌<◌};
ghost use Rattle.vortex_flat.specs.Answers.{Answers};
ghost use Rattle.vortex_body.specs.Reading.{after_node, child_at, children_at, left_of, node_at};
ghost use Rattle.vortex_body.specs.inner.Walked.{walked_at};

use crate::places::Places;
use crate::tables::targets;
use vortex_flat::{FlatError, Table, Vector};

/// What is left after one more node.
pub(crate) fn after_node(left: usize) -> Result<usize, FlatError>
    ensures { Answers (λ x. x) result (after_node left) }
{
    if left < 1 {
        return Err(FlatError::Outside);
    }
    Ok(left - 1)
}

/// How many nodes may still be met after this one, of so many levels at most.
#[cycle(walk)]
#[tactic(auto, using(crate::proofs::Walking::no_level, crate::proofs::Walking::one_walked))]
pub(crate) fn walk(
    node: &Table<'_>,
    body: &Places,
    levels: usize,
    left: usize,
) -> Result<usize, FlatError>
    requires { node.now.buffer ≡ body.now.flat }
    ensures { Answers (λ x. x) result
        (left_of (node_at node.now.buffer body.now.buffers levels left node.now.place)) }
{
    if levels == 0 {
        return Err(FlatError::Outside);
    }
    walk_node(node, body, levels - 1, left)
}

/// How many nodes may still be met after this one, whose children are of so many levels at most.
#[cycle(walk)]
#[tactic(auto, unfolding(crate::specs::inner::Walked::walked_at))]
fn walk_node(
    node: &Table<'_>,
    body: &Places,
    levels: usize,
    left: usize,
) -> Result<usize, FlatError>
    requires { node.now.buffer ≡ body.now.flat }
    ensures { Answers (λ x. x) result
        (walked_at node.now.buffer body.now.buffers
        (node_at node.now.buffer body.now.buffers levels) left node.now.place) }
{
    let left = after_node(left)?;
    let targets = targets(node, body)?;
    walk_children(&targets, body, levels, left)
}

#[cycle(walk)]
fn walk_children(
    targets: &Vector<'_>,
    body: &Places,
    levels: usize,
    left: usize,
) -> Result<usize, FlatError>
    requires buffer { targets.now.buffer ≡ body.now.flat }
    requires width { targets.now.shape.width ≡ 4 }
    ensures { Answers (λ x. x) result
        (left_of (children_at targets.now.buffer
        (node_at targets.now.buffer body.now.buffers levels)
        targets.now.shape targets.now.shape.count 0 left)) }
{
    let mut left = left;
    for i in 0..targets.len() {
        left = walk_child(targets, i, body, levels, left)?;
    }
    Ok(left)
}

#[cycle(walk)]
#[tactic(auto, unfolding(crate::specs::Reading::child_at))]
fn walk_child(
    targets: &Vector<'_>,
    i: usize,
    body: &Places,
    levels: usize,
    left: usize,
) -> Result<usize, FlatError>
    requires buffer { targets.now.buffer ≡ body.now.flat }
    requires width { targets.now.shape.width ≡ 4 }
    requires index { i < targets.now.shape.count }
    ensures { Answers (λ x. x) result
        (left_of (child_at targets.now.buffer (node_at targets.now.buffer body.now.buffers levels)
        targets.now.shape i left)) }
{
    walk(&targets.table(i)?, body, levels, left)
}
