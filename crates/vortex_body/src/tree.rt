//! The tree of a node, made node by node. The body's bytes stay shared.

ghost use Rattle.std.specs.Prelude.{◌≡◌, ◌<◌};
ghost use Rattle.vortex_body.specs.Answers.{Answers};
ghost use Rattle.vortex_body.specs.Reading.{child_at, children_at, node_at};
ghost use Rattle.vortex_body.specs.inner.Walked.{children_pair, found_pair, made_at};

use crate::error::BodyError;
use crate::parts::NodeParts;
use crate::places::Places;
use crate::tables::targets;
use crate::walk::after_node;
use std::alloc::Global;
use vortex_flat::{Table, Vector};

/// The node of this table, of so many levels at most, and how many nodes may still be met.
#[cycle(tree)]
#[tactic(auto, using(crate::proofs::Walking::no_level, crate::proofs::Making::one_made))]
pub(crate) fn make(
    alloc: Global,
    body: &Places,
    node: &Table<'_>,
    levels: usize,
    left: usize,
) -> Result<(NodeParts, usize), BodyError>
    requires { node.now.buffer ≡ body.now.flat }
    ensures { Answers found_pair result
        (node_at body.now.flat body.now.buffers levels left node.now.place) }
{
    if levels == 0 {
        return Err(BodyError::Malformed);
    }
    make_node(alloc, body, node, levels - 1, left)
}

/// The node of this table, whose children are of so many levels at most.
#[cycle(tree)]
#[tactic(auto, unfolding(crate::specs::inner::Walked::made_at))]
fn make_node(
    alloc: Global,
    body: &Places,
    node: &Table<'_>,
    levels: usize,
    left: usize,
) -> Result<(NodeParts, usize), BodyError>
    requires { node.now.buffer ≡ body.now.flat }
    ensures { Answers found_pair result
        (made_at body.now.flat body.now.buffers
        (node_at body.now.flat body.now.buffers levels) left node.now.place) }
{
    let Ok(left) = after_node(left) else {
        return Err(BodyError::Malformed);
    };
    let Ok(targets) = targets(node, body) else {
        return Err(BodyError::Malformed);
    };
    let (children, left) = make_children(alloc, body, &targets, levels, left)?;
    let parts = NodeParts {
        flat: body.flat.clone()?,
        place: node.place(),
        buffers: body.buffers.clone()?,
        children,
    };
    Ok((parts, left))
}

#[cycle(tree)]
fn make_children(
    alloc: Global,
    body: &Places,
    targets: &Vector<'_>,
    levels: usize,
    left: usize,
) -> Result<(Vec<NodeParts>, usize), BodyError>
    requires buffer { targets.now.buffer ≡ body.now.flat }
    requires width { targets.now.shape.width ≡ 4 }
    ensures { Answers children_pair result
        (children_at body.now.flat (node_at body.now.flat body.now.buffers levels)
        targets.now.shape targets.now.shape.count 0 left) }
{
    let mut children = Vec::with_capacity(alloc, targets.len())?;
    let mut left = left;
    for i in 0..targets.len() {
        let (child, rest) = make_child(alloc, body, targets, i, levels, left)?;
        children.push(child)?;
        left = rest;
    }
    Ok((children, left))
}

#[cycle(tree)]
#[tactic(auto, unfolding(crate::specs::Reading::child_at))]
fn make_child(
    alloc: Global,
    body: &Places,
    targets: &Vector<'_>,
    i: usize,
    levels: usize,
    left: usize,
) -> Result<(NodeParts, usize), BodyError>
    requires buffer { targets.now.buffer ≡ body.now.flat }
    requires width { targets.now.shape.width ≡ 4 }
    requires index { i < targets.now.shape.count }
    ensures { Answers found_pair result
        (child_at body.now.flat (node_at body.now.flat body.now.buffers levels)
        targets.now.shape i left) }
{
    let Ok(node) = targets.table(i) else {
        return Err(BodyError::Malformed);
    };
    make(alloc, body, &node, levels, left)
}
