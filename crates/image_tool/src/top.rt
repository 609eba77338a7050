ghost use Rattle.std.specs.Prelude.{◌≡◌, ◌≢◌, ◌⊎◌, IfSome, Some, None, [], map};
ghost use Rattle.ckd_outside.specs.Causes.{Rose};
ghost use Rattle.image_tool.specs.Answers.{Suits, Tells, task_of, usage_text, WriteFaultHasCause, ToldFaultHasCause};
ghost use Rattle.image_tool.specs.Written.{IsOfSink, IsWritten};

use crate::reading::{serve_check, serve_list, serve_to_volume};
use crate::status::ImageStatus;
use crate::storing::{serve_from_volume, serve_new};
use crate::task::{Task, task_of};
use crate::texts::write_usage;
use ckd_outside::{Sink, Source};
use disk_image::DiskFile;
use std::alloc::Global;

/// The words of the arguments: none where one of them isn't text, which no task's name is.
pub fn words_of<'a>(arguments: Option<&'a [&'a str]>) -> &'a [&'a str]
    ensures text { IfSome arguments.entry (λ words. result.now ≡ words.now) }
    ensures none { arguments.entry ≡ None → result.now ≡ [] }
{
    match arguments {
        Some(words) => words,
        None => &[],
    }
}

fn usage<K: Sink>(sink: &mut K) -> ImageStatus
    ensures told { IsWritten result ImageStatus.Usage (K.held sink.old) (K.held sink.new) usage_text }
    ensures write { WriteFaultHasCause result (K.faults sink.old) (K.faults sink.new) }
    ensures other { IsOfSink result }
{
    match write_usage(sink) {
        Ok(()) => ImageStatus::Usage,
        Err(_) => ImageStatus::WriteFault,
    }
}

fn serve<S: Source, K: Sink, F: DiskFile>(
    alloc: Global,
    words: &[&str],
    source: &mut S,
    sink: &mut K,
    file: &mut F,
) -> ImageStatus
    ensures told { Tells result (task_of (map (λ w. w.now) words.now))
        (record { left = S.left source.old; held = K.held sink.old; file = F.held file.old })
        (record { left = S.left source.new; held = K.held sink.new; file = F.held file.new }) }
    ensures read { result ≡ ImageStatus.ReadFault → Rose (S.faults source.old) (S.faults source.new) }
    ensures calm { result ≢ ImageStatus.ReadFault → S.faults source.new ≡ S.faults source.old }
    ensures write { WriteFaultHasCause result (K.faults sink.old) (K.faults sink.new) }
    ensures file { ToldFaultHasCause result (F.faults file.old) (F.faults file.new) }
{
    match task_of(words) {
        Some(
            Task::New {
                geometry,
                cylinders,
            },
        ) => serve_new(alloc, geometry, cylinders, sink, file),
        Some(Task::Check) => serve_check(alloc, sink, file),
        Some(Task::List) => serve_list(alloc, sink, file),
        Some(Task::ToVolume) => serve_to_volume(alloc, sink, file),
        Some(Task::FromVolume) => serve_from_volume(alloc, source, sink, file),
        None => usage(sink),
    }
}

/// Does what the words ask for, over a source, a sink, and the file that the last word names. `new` makes an image of an empty
/// volume of a file without bytes. `check` tells each bad track, `list` lists the volume that the file holds, and `to-volume`
/// writes its volume file, where it has at most 64 cylinders; nothing is written before all tracks were read. `from-volume`
/// stores the volume of the source's file into an image of its model and cylinders; nothing is stored before the source was read
/// to its end. A read fault is answered exactly where a read of the source failed.
pub fn image_top<S: Source, K: Sink, F: DiskFile>(
    alloc: Global,
    words: &[&str],
    source: &mut S,
    sink: &mut K,
    file: &mut F,
) -> ImageStatus
    ensures told { Tells result (task_of (map (λ w. w.now) words.now))
        (record { left = S.left source.old; held = K.held sink.old; file = F.held file.old })
        (record { left = S.left source.new; held = K.held sink.new; file = F.held file.new }) }
    ensures read { result ≡ ImageStatus.ReadFault → Rose (S.faults source.old) (S.faults source.new) }
    ensures calm { result ≢ ImageStatus.ReadFault → S.faults source.new ≡ S.faults source.old }
    ensures write { WriteFaultHasCause result (K.faults sink.old) (K.faults sink.new) }
    ensures file { ToldFaultHasCause result (F.faults file.old) (F.faults file.new) }

    // What source and file are there for is done, unless memory runs out or the outside fails.
    ensures complete { (task : Task) → task_of (map (λ w. w.now) words.now) ≡ Some task
        → Suits task (S.left source.old) (F.held file.old)
        → ¬ Rose (S.faults source.old) (S.faults source.new) → ¬ Rose (K.faults sink.old) (K.faults sink.new)
        → ¬ Rose (F.faults file.old) (F.faults file.new)
        → (result ≡ ImageStatus.Done) ⊎ (result ≡ ImageStatus.NoMemory) }
{
    serve(alloc, words, source, sink, file)
}
