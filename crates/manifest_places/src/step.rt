//! The steps of a key path.

ghost use Rattle.std.specs.Prelude.{◌≡◌, IsTrue, IfOk, IfSome};
ghost use Rattle.manifest_places.specs.Paths.{step_of, path_of};
ghost use Rattle.manifest_places.specs.Located.{GoesOn};

pub use manifest_fault::Step;
use std::alloc::{AllocError, Global};

/// The same steps, in memory of their own.
pub(crate) fn copied(alloc: Global, path: &[Step]) -> Result<Vec<Step>, AllocError>
    ensures { IfOk result (λ steps. path_of steps.items ≡ path_of path.now) }
{
    let mut steps = Vec::new(alloc);
    for step in path {
        let copy = copy_of(alloc, step)?;
        steps.push(copy)?;
    }
    Ok(steps)
}

pub(crate) fn copy_of(alloc: Global, step: &Step) -> Result<Step, AllocError>
    ensures { IfOk result (λ s. step_of s ≡ step_of step.now) }
{
    match step {
        Step::Key(key) => Ok(Step::Key(String::from_str(alloc, key.as_str())?)),
        Step::Index(index) => Ok(Step::Index(*index)),
    }
}

/// How many steps the path has after this beginning, or `None` where it does not begin with it.
pub(crate) fn steps_after(path: &[Step], front: &[Step]) -> Option<usize>
    ensures { IfSome result (λ n. GoesOn (path_of path.now) (path_of front.now) n) }
{
    let (begin, more) = path.split_at_checked(front.len())?;
    if same_steps(begin, front) {
        Some(more.len())
    } else {
        None
    }
}

/// Whether the two paths are the same.
pub(crate) fn same_steps(a: &[Step], b: &[Step]) -> bool
    ensures { IsTrue result → path_of a.now ≡ path_of b.now }
{
    if a.len() != b.len() {
        return false;
    }
    for i in 0..a.len() {
        if !same_step(&a[i], &b[i]) {
            return false;
        }
    }
    true
}

fn same_step(a: &Step, b: &Step) -> bool
    ensures { IsTrue result → step_of a.now ≡ step_of b.now }
{
    match a {
        Step::Key(key) => match b {
            Step::Key(other) => key.as_str() == other.as_str(),
            Step::Index(_) => false,
        },
        Step::Index(index) => match b {
            Step::Key(_) => false,
            Step::Index(other) => *index == *other,
        },
    }
}
