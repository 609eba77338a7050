ghost use Rattle.std.specs.Prelude.{◌≡◌, ◌≤◌, ◌<◌, ◌*◌, ℕ, List, Some, None, length, map, true};
ghost use Rattle.std.specs.List.{range_with_len};
ghost use Rattle.ckd_types.specs.Volume.{IsVolume};
ghost use Rattle.deck_text.specs.DeckLines.{DeckLines};
ghost use Rattle.track_image.specs.Image.{Image};
ghost use Rattle.track_table.specs.Table.{entry_at};
ghost use Rattle.device_defs.specs.Store.{is_lost, tracks_of};
ghost use Rattle.subsystem_defs.specs.Decks.{AreWhole, Firsts};
ghost use Rattle.subsystem_defs.specs.Lines.{Asked};
ghost use Rattle.subsystem_defs.specs.Subsystem.{Mounted, Subsystem, mounted_in};
ghost use Rattle.subsystem_laws.specs.Served.{IsServedDeck};
ghost use Rattle.deck_run.specs.Fronts.{front_of, front_on};
ghost use Rattle.line_drive.specs.Driven.{Goes};
ghost use Rattle.volume_save.specs.Saving.{volume_with};
ghost use Rattle.point_copy.specs.declared.given.Given.TheVariants as gives;
ghost use Rattle.point_copy.specs.Copying.{CopyState, IsDue, KeepsOld, begun, next_given, plain_images, tracks_at};
ghost use Rattle.point_copy.specs.CopyRun.{Copying, IsPlainVolumeAt, IsPlainVolumeOn, copied};

/// A copy that is made of a device, whatever lines are done meanwhile, has the images with which the session begins, one of each
/// track in rising order.
pub fn copies_are_old()
    ensures { (run : Subsystem) (d n : ℕ) (lines : List Asked) (old : ℕ → Image) (z : Copying) → KeepsOld (begun run d) old
        → tracks_at (mounted_in run.mounted d) ≡ n → n ≤ 961 → copied run d lines ≡ Goes z → z.images ≡ map old (range_with_len 0 n) }
{}

/// A session tells that a track is lost where it is that track's turn, nothing is kept of it and it is lost in the run, and nowhere
/// else.
pub fn lost_is_told()
    ensures lost { (c : CopyState) (t : ℕ) → (next_given c).given ≡ gives.Lost t → IsDue c t (λ m. is_lost m.device.store t ≡ true) }
    ensures told { (c : CopyState) (t : ℕ) → IsDue c t (λ m. is_lost m.device.store t ≡ true) → (next_given c).given ≡ gives.Lost t }
{}

/// In a deck that was read, the images of the plain volume of a device after the first lines make up the volume of the plain device
/// of its history there.
pub fn front_is_plain()
    ensures { (deck : DeckLines) (n d : ℕ) (m : Mounted) (images : List Image) → IsServedDeck deck
        → mounted_in (front_of deck n).behind.mounted d ≡ Some m → IsVolume m.device.store.geometry m.device.store.cylinders m.device.store.plain
        → images ≡ map (plain_images m) (range_with_len 0 (tracks_of m.device.store))
        → IsPlainVolumeAt deck n d (volume_with m.device.store.geometry m.device.store.cylinders images) }
{}

/// So it is where the volumes of the deck's devices held other tracks first: the plain device began with these.
pub fn front_on_volumes_is_plain()
    ensures { (firsts : Firsts) → AreWhole firsts → (deck : DeckLines) (n d : ℕ) (m : Mounted) (images : List Image) → IsServedDeck deck
        → mounted_in (front_on firsts deck n).behind.mounted d ≡ Some m
        → IsVolume m.device.store.geometry m.device.store.cylinders m.device.store.plain
        → images ≡ map (plain_images m) (range_with_len 0 (tracks_of m.device.store))
        → IsPlainVolumeOn firsts deck n d (volume_with m.device.store.geometry m.device.store.cylinders images) }
{}
