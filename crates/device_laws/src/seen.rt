//! The laws.

ghost use Rattle.std.specs.Prelude.{◌≡◌, ◌*◌, ℕ, Bool, true, false, List, Option, None, Some};
ghost use Rattle.ckd_chain.specs.State.{ChainState};
ghost use Rattle.ckd_types.specs.declared.geometry.Geometry.{Geometry};
ghost use Rattle.ckd_types.specs.declared.record.Edit.{Edit};
ghost use Rattle.ckd_types.specs.Parameters.{is_bypass};
ghost use Rattle.track_cache.specs.declared.frames.Frame.{Frame};
ghost use Rattle.track_image.specs.Image.{Image};
ghost use Rattle.device_outside.specs.Outside.{Outside, Ran};
ghost use Rattle.device_outside.specs.Pool.{Pool, is_listed};
ghost use Rattle.device_defs.specs.declared.answers.Took.{Took};
ghost use Rattle.device_defs.specs.declared.usage.Usage.{Usage};
ghost use Rattle.device_defs.specs.declared.answers.Did.{Did};
ghost use Rattle.device_defs.specs.declared.answers.SecondEnd.{SecondEnd};
ghost use Rattle.device_defs.specs.Peek.{Peeked, peek};
ghost use Rattle.loss_model.specs.declared.Loss.{Loss};
ghost use Rattle.device_defs.specs.declared.answers.Stepped.{Stepped};
ghost use Rattle.device_defs.specs.Command.{command, follow};
ghost use Rattle.device_defs.specs.Contents.{contents};
ghost use Rattle.device_defs.specs.Cutting.{power, reset};
ghost use Rattle.device_defs.specs.Editing.{write};
ghost use Rattle.device_defs.specs.Events.{background, lose, second};
ghost use Rattle.device_defs.specs.Image.{Imaged, Has, image};
ghost use Rattle.device_defs.specs.Outcomes.{Turn};
ghost use Rattle.device_defs.specs.Sound.{DeviceStore};
ghost use Rattle.device_defs.specs.Store.{OfCommand, HalfWrite, frame_at};
ghost use Rattle.device_laws.specs.Standing.{LooksAt, RunsOn};
ghost use Rattle.device_laws.specs.Whole.{WholeDevice};
ghost use Rattle.plain_defs.specs.History.{OpenEntry};
ghost use Rattle.device_laws.specs.Moved.{HitReadsNone, CommandMoves, SecondMoves, WorkMoves, LookMoves, MovesNothing};
ghost use Rattle.device_laws.specs.Seen.{NotCalled, is_opened, Saw, Wrote, CameAsSeen, CommandCame, KeepsPaths, SecondCame};

use device_outside::Keep;
use track_image::TrackImage;

/// The image of a track is the one in its frame, and no volume was called; or that of the bytes that a level side delivered, with the
/// patch that is held, and one read was made, or two where side A's failed. A modified frame is a hit, and so is a clean one that the pool
/// lists, unless in bypass mode: it reads no volume.
pub fn image_is_seen<K: Keep<TrackImage>>()
    ensures seen { (s e : DeviceStore) (usage : Usage) (t : ℕ) (u z : Outside (List ℕ) K) (i : Image) →
        Ran (λ ok. Unit {0}) K.hears (image contents s usage t) u e (Some (Has i)) z →
        (reads : ℕ) × Saw (λ ok. Unit {0}) K.hears s usage t u i reads e z }
    ensures modified { (s e : DeviceStore) (usage : Usage) (t : ℕ) (u z : Outside (List ℕ) K) (f : Frame) (a : Option Imaged) → frame_at s t ≡ Some f →
        f.modified ≡ true → Ran (λ ok. Unit {0}) K.hears (image contents s usage t) u e a z → NotCalled u z × (a ≡ Some (Has f.image)) }
    ensures clean { (s e : DeviceStore) (usage : Usage) (t : ℕ) (u z : Outside (List ℕ) K) (f : Frame) (p : Pool) (a : Option Imaged) →
        frame_at s t ≡ Some f → f.modified ≡ false → is_bypass usage.mode ≡ false → u.port.pool ≡ Some p → is_listed p.frames s.device t ≡ true →
        Ran (λ ok. Unit {0}) K.hears (image contents s usage t) u e a z → NotCalled u z × (a ≡ Some (Has f.image)) }
{}

/// A command's write that is chosen to be fast or provisional writes no volume. One through makes one write to each side that takes it, or to side A
/// alone where it is half done.
pub fn write_is_seen<K: Keep<TrackImage>>()
    ensures { (s e : DeviceStore) (usage : Usage) (first t : ℕ) (old : Image) (edit : Edit) (u z : Outside (List ℕ) K) (took : Took) →
        Ran (λ ok. Unit {0}) K.hears (write contents s usage first t old edit) u e (Some took) z →
        (writes : ℕ) × Wrote (λ ok. Unit {0}) K.hears usage t s u true (is_opened took) writes e z }
{}

/// A command that goes from track to track ends as the rules say over the images that it saw, and so does the chain behind it, unless it ends with
/// equipment or data check. However it ends, it makes the reads of its looks and the writes of its write.
pub fn track_walk_is_seen<K: Keep<TrackImage>>()
    ensures { (cylinders : ℕ) (g : Geometry) (n first t : ℕ) (chain : ChainState) (s e : DeviceStore) (u z : Outside (List ℕ) K) (turn : Turn) →
        LooksAt cylinders g chain t → Ran (λ ok. Unit {0}) K.hears (follow contents n first chain t s) u e (Some turn) z →
        CameAsSeen (λ ok. Unit {0}) K.hears n g chain s u turn s.counts e.counts z }
{}

/// A whole command that ended, or is half done: its end, the chain behind it and what the device keeps of its paths are those of the rules over the
/// images that it saw and what the device kept of its paths before it, unless it ends with equipment or data check. Only its looks and its write
/// call volumes, and it makes the reads and writes of these, however it ends.
pub fn command_ends_as_seen<K: Keep<TrackImage>>()
    ensures { (d e : WholeDevice) (o : OpenEntry) (chain : ChainState) (u z : Outside (List ℕ) K) (a : Stepped) → d.history.running ≡ Some o →
        d.chain ≡ Some chain → RunsOn d.store.cylinders d.store.geometry chain → Ran (λ ok. Unit {0}) K.hears (command contents d) u e (Some a) z →
        CommandCame (λ ok. Unit {0}) K.hears d o chain u a e z }
{}

/// The second part of a command's write that is half done ends the command: as the chain that was kept says once it is done, or with equipment
/// check; and with it goes what is kept of the paths.
pub fn second_ends_as_kept<K: Keep<TrackImage>>()
    ensures { (d e : WholeDevice) (o : OpenEntry) (chain : ChainState) (h : HalfWrite Image) (bypass : Bool) (edit : Edit) (u z : Outside (List ℕ) K)
        (a : SecondEnd) → d.store.half ≡ Some h → h.origin ≡ OfCommand bypass edit → d.history.running ≡ Some o → d.chain ≡ Some chain →
        Ran (λ ok. Unit {0}) K.hears (second contents d) u e a z → SecondCame d o chain h.track a e }
{}

/// What a device does by itself, its losses and a look at one of its tracks leave what is kept of its paths, and the chain that runs.
pub fn others_keep_paths<K: Keep<TrackImage>>()
    ensures background { (d e : WholeDevice) (u z : Outside (List ℕ) K) (a : Option Did) → Ran (λ ok. Unit {0}) K.hears (background contents d) u e a z →
        KeepsPaths d e }
    ensures lose { (d e : WholeDevice) (loss : Loss) (u z : Outside (List ℕ) K) (a : Unit {0}) → Ran (λ ok. Unit {0}) K.hears (lose contents d loss) u e a z →
        KeepsPaths d e }
    ensures peek { (d e : WholeDevice) (t : ℕ) (u z : Outside (List ℕ) K) (a : Option Peeked) → Ran (λ ok. Unit {0}) K.hears (peek contents d t) u e a z →
        KeepsPaths d e }
{}

/// What each event of a device moves, by its counts: a command that looks at one track with a modified frame reads no volume; each track is read
/// and written at most once from a side; the second part of a write, and what a device does by itself, make the reads and writes of the table of
/// events; losses, resets and the loss of power make none.
pub fn events_move_by_table<K: Keep<TrackImage>>()
    ensures hit { (d e : WholeDevice) (u z : Outside (List ℕ) K) (a : Option Stepped) → Ran (λ ok. Unit {0}) K.hears (command contents d) u e a z →
        HitReadsNone d e }
    ensures command { (d e : WholeDevice) (u z : Outside (List ℕ) K) (a : Option Stepped) → Ran (λ ok. Unit {0}) K.hears (command contents d) u e a z →
        CommandMoves d e }
    ensures second { (d e : WholeDevice) (u z : Outside (List ℕ) K) (a : SecondEnd) → Ran (λ ok. Unit {0}) K.hears (second contents d) u e a z →
        SecondMoves d e }
    ensures background { (d e : WholeDevice) (u z : Outside (List ℕ) K) (a : Option Did) → Ran (λ ok. Unit {0}) K.hears (background contents d) u e a z →
        WorkMoves d a e }
    ensures lose { (d e : WholeDevice) (loss : Loss) (u z : Outside (List ℕ) K) (a : Unit {0}) → Ran (λ ok. Unit {0}) K.hears (lose contents d loss) u e a z →
        MovesNothing d e }
    ensures power { (d e : WholeDevice) (u z : Outside (List ℕ) K) (a : Unit {0}) → Ran (λ ok. Unit {0}) K.hears (power contents d) u e a z →
        MovesNothing d e }
    ensures reset { (d e : WholeDevice) (path : ℕ) (u z : Outside (List ℕ) K) (a : Unit {0}) → Ran (λ ok. Unit {0}) K.hears (reset contents d path) u e a z →
        MovesNothing d e }
    ensures peek { (d e : WholeDevice) (t : ℕ) (u z : Outside (List ℕ) K) (a : Option Peeked) → Ran (λ ok. Unit {0}) K.hears (peek contents d t) u e a z →
        LookMoves d e }
{}
