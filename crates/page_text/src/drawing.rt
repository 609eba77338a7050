ghost use Rattle.std.specs.Prelude.{◌≡◌, ◌++◌, OnOk, List, ℕ};
ghost use Rattle.page_text.specs.Drawing.{drawn, drawn_to, following};

use crate::Page;
use ckd_types::NoMemory;

/// What is drawn of each `T` of a list, by what was drawn before. Items are numbered from 1.
pub trait Drawing<T> {
    ghost text: { Self → ℕ → T → List ℕ };

    ghost next: { Self → ℕ → T → Self };

    /// Draws one more.
    fn put(&mut self, page: &mut Page, i: u64, it: &T) -> Result<(), NoMemory>
        ensures text { OnOk result (page.new ≡ page.old ++ text self.old i it.now) }
        ensures next { OnOk result (self.new ≡ next self.old i it.now) };
}

/// The next number; there are never so many items that the greatest one is passed.
fn following(i: u64) -> u64
    ensures { result ≡ following i }
{
    i.saturating_add(1)
}

/// Draws all of a list.
pub fn draw_all<D: Drawing<T>, T>(
    page: &mut Page,
    drawing: &mut D,
    list: &[T],
) -> Result<(), NoMemory>
    ensures text { OnOk result (page.new ≡ page.old ++ drawn D.text D.next drawing.old 1 list.now) }
    ensures end { OnOk result (drawing.new ≡ drawn_to D.next drawing.old 1 list.now) }
{
    let mut i = 1u64;
    for it in list {
        drawing.put(page, i, it)?;
        i = following(i);
    }
    Ok(())
}
