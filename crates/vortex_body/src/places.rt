//! Which vectors of places name buffers, each found with one look.

ghost use Rattle.std.specs.Prelude.{◌≡◌, ◌≤◌, ◌<◌, ◌+◌, ◌-◌, ◌*◌, ◌^◌, IfOk, length, is_some, Some};
ghost use Rattle.vortex_body.specs.Answers.{Answers};
ghost use Rattle.vortex_body.specs.Body.{named_buffers};
ghost use Rattle.vortex_body.specs.inner.Runs.{AreRuns, IsRun, words_at};

use crate::error::BodyError;
use bytes::Bytes;
use std::alloc::{AllocError, Global};
use std::marker::Model;
use std::rc::Rc;
use vortex_flat::u32_at;

/// The flat buffer and the buffers of a body, and how many words from each place on name a buffer.
#[derive(Drop)]
pub(crate) struct Places {
    pub(crate) flat: Bytes,
    pub(crate) buffers: Rc<Vec<Bytes>>,
    runs: Vec<u32>,
}

impl Model for Places {
    ghost use Rattle.std.specs.Prelude.{◌≡◌, ◌+◌, ◌<◌, ◌^◌, length};
    ghost use Rattle.vortex_body.specs.inner.Runs.{AreRuns, BodyView};

    ghost Value = { BodyView };

    ghost view = { λ a. record { flat = a.flat; buffers = a.buffers.value.items } };

    ghost invariant = { λ a. (length a.flat < 2 ^ 32) × (length a.runs.items ≡ length a.flat + 1)
        × AreRuns a.flat a.buffers.value.items a.runs.items };
}

impl Places {
    pub(crate) fn new(alloc: Global, flat: &Bytes, buffers: Vec<Bytes>) -> Result<Places, BodyError>
        requires { length flat.now < 2 ^ 32 }
        ensures { Answers (λ body. body) result
            (Some (record { flat = flat.now; buffers = buffers.items })) }
    {
        let runs = runs_of(alloc, flat.as_slice(), &buffers)?;
        Ok(Places {
            flat: flat.clone()?,
            buffers: Rc::new(alloc, buffers)?,
            runs,
        })
    }

    /// Whether each of so many words from `first` on names a buffer.
    pub(crate) fn names_all(&self, first: usize, count: usize) -> bool
        requires { first + 4 * count ≤ length self.now.flat }
        ensures { result
            ≡ is_some (named_buffers self.now.flat self.now.buffers (words_at first count)) }
    {
        count <= self.runs[self.flat.len() - first] as usize
    }
}

/// The runs from all places, the end of the flat buffer first.
fn runs_of(alloc: Global, flat: &[u8], buffers: &[Bytes]) -> Result<Vec<u32>, AllocError>
    ensures { IfOk result (λ runs. (length runs.items ≡ length flat.now + 1)
        × AreRuns flat.now buffers.now runs.items) }
{
    let mut runs = Vec::with_capacity(alloc, flat.len() + 1)?;
    for _ in 0..flat.len() + 1 {
        let run = next_run(flat, buffers, &runs);
        runs.push(run)?;
    }
    Ok(runs)
}

/// The run from the place before those whose runs these are.
fn next_run(flat: &[u8], buffers: &[Bytes], runs: &[u32]) -> u32
    requires some { length runs.now ≤ length flat.now }
    requires runs { AreRuns flat.now buffers.now runs.now }
    ensures { IsRun flat.now buffers.now (length flat.now - length runs.now) result }
{
    let Ok(place) = u32_at(flat, flat.len() - runs.len()) else {
        return 0;
    };
    if buffers.len() <= place as usize {
        return 0;
    }
    runs[runs.len() - 4].saturating_add(1)
}
