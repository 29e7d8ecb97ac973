// Marks on numbers.
ghost use Rattle.std.specs.Prelude.{◌≡◌, ◌<◌, ℕ, IfOk, OnOk, false, get_or, length, replicate};
ghost use Rattle.std.specs.List.{All, list_all};
ghost use Rattle.causality.specs.Graphs.{Marks, is_marked};

use std::alloc::{AllocError, Global};

/// So many numbers, from 0 on, without a mark. An `Err` is out of memory.
pub fn no_marks(alloc: Global, count: usize) -> Result<Vec<bool>, AllocError>
    ensures { IfOk result (λ v. v.items ≡ replicate count false) }
{
    let mut marked = Vec::new(alloc);
    for _ in 0..count {
        marked.push(false)?;
    }
    Ok(marked)
}

/// Marks the numbers, and adds those that had none to what is left to do. An `Err` is out of memory.
pub fn mark(numbers: &[u8], marked: &mut Vec<bool>, left: &mut Vec<u8>) -> Result<(), AllocError>
    requires { All (λ n. n < length marked.old.items) numbers.now }
    ensures { OnOk result (Marks numbers.now marked.old.items left.old.items marked.new.items left.new.items) }
{
    for n in numbers {
        let n = *n;
        if !marked[n as usize] {
            marked[n as usize] = true;
            left.push(n)?;
        }
    }
    Ok(())
}
