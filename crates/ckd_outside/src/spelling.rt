ghost use Rattle.std.specs.Prelude.{List, ℕ};
ghost use Rattle.std.specs.List.{flat_map};
ghost use Rattle.ckd_outside.specs.Causes.{HasCause};
ghost use Rattle.ckd_outside.specs.Texts.{Puts, Writes};

use crate::{Failed, LineBuffer, Sink, flush};

/// How a `T` is spelled: as a piece of a line, as a line, or as some lines. A crate that spells the types of
/// another has a type of its own that says how.
pub trait Spelling<T> {
    ghost text: { T → List ℕ };

    /// Puts the text behind what waits. Ends with no `flush`: what doesn't fill the buffer waits in it.
    fn put<K: Sink>(sink: &mut K, buffer: &mut LineBuffer, it: &T) -> Result<(), Failed>
        ensures bytes { Puts (K.held sink.old) buffer.old (K.held sink.new) buffer.new result (text it.now) }
        ensures cause { HasCause (K.faults sink.old) (K.faults sink.new) result };
}

/// Puts the texts of a list, one behind another.
pub fn put_all<S: Spelling<T>, T, K: Sink>(
    sink: &mut K,
    buffer: &mut LineBuffer,
    list: &[T],
) -> Result<(), Failed>
    ensures bytes { Puts (K.held sink.old) buffer.old (K.held sink.new) buffer.new result (flat_map S.text list.now) }
    ensures cause { HasCause (K.faults sink.old) (K.faults sink.new) result }
{
    for it in list {
        S::put(sink, buffer, it)?;
    }
    Ok(())
}

/// Writes a text through a buffer of its own, to its end. At a fault a front of it was written.
pub fn write_out<S: Spelling<T>, T, K: Sink>(sink: &mut K, it: &T) -> Result<(), Failed>
    ensures bytes { Writes (K.held sink.old) (K.held sink.new) result (S.text it.now) }
    ensures cause { HasCause (K.faults sink.old) (K.faults sink.new) result }
{
    let mut buffer = LineBuffer::new();
    S::put(sink, &mut buffer, it)?;
    flush(sink, &mut buffer)
}
