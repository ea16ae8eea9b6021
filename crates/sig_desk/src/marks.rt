ghost use Rattle.std.specs.Prelude.{◌≡◌, ℕ, ◌<◌, ◌∷◌, IfOk, IsTrue, false, true, length, replicate};
ghost use Rattle.sig_desk.specs.Views.{HasClosed, IsOpen};

use sig_json::Memory;
use std::alloc::Global;

/// Marks of links that are open, by their numbers: 1 to this one, behind that of the number 0, which no link has.
pub fn marks_for(alloc: Global, links: u32) -> Result<Vec<bool>, Memory>
    ensures { IfOk result (λ marks. marks.items ≡ false ∷ replicate links true) }
{
    let count = links as usize + 1;
    let mut marks = Vec::with_capacity(alloc, count)?;
    marks.push_reserved(false);
    marks.resize(count, true)?;
    Ok(marks)
}

/// Whether all links after so many are open.
pub fn are_open_after(marks: &[bool], links: u32) -> bool
    ensures open { IsTrue result → (number : ℕ) → links < number → number < length marks.now → IsOpen marks.now number }
    ensures closed { result ≡ false → HasClosed links marks.now }
{
    for i in links as usize + 1..marks.len() {
        if !marks[i] {
            return false;
        }
    }
    true
}
