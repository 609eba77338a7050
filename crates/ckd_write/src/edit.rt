ghost use Rattle.std.specs.Prelude.{◌≡◌, ◌≤◌, IsOk, OnOk, OnErr, length};
ghost use Rattle.ckd_types.specs.Edit.{IsInside, HasRoomFor};
ghost use Rattle.ckd_rules.specs.Facts.{Suits};
ghost use Rattle.track_image.specs.Image.{edited_image};

use ckd_types::{Edit, NoMemory};
use track_image::{AddFault, RecordRoom, TrackImage};

/// Makes the edit of a command on the image of its track. Takes memory only for a record behind the
/// last one.
pub fn edit_image(image: &mut TrackImage, edit: &Edit) -> Result<(), NoMemory>
    requires { Suits image.old.geometry image.old.track.records edit.now }
    ensures done { OnOk result (image.new ≡ edited_image edit.now image.old) }
    ensures same { OnErr result (image.new ≡ image.old) }
    ensures inside { IsInside edit.now (length image.old.track.records) → IsOk result }
{
    match edit {
        Edit::Update { index, key, body } => {
            image.update(*index, key.as_slice(), body.as_slice());
            Ok(())
        }
        Edit::Format { after, added } => match image.cut_and_add(*after, added) {
            Ok(()) => Ok(()),
            Err(AddFault::Unfit) => unreachable!(),
            Err(AddFault::NoMemory) => Err(NoMemory),
        },
        Edit::Zero { added } => {
            image.set_zero(added);
            Ok(())
        }
    }
}

/// Makes the room that an edit of an image needs, which is some only behind the last record.
pub fn make_room(image: &TrackImage, edit: &Edit, room: &mut RecordRoom) -> Result<(), NoMemory>
    ensures made { OnOk result (HasRoomFor edit.now (length image.now.track.records) room.new) }
    ensures least { room.old ≤ room.new }
    ensures inside { IsInside edit.now (length image.now.track.records) → IsOk result }
{
    if let Edit::Format { after, .. } = edit {
        let records = image.len();
        if records - 1 <= *after {
            room.reserve(records + 1)?;
        }
    }
    Ok(())
}

/// Makes the edit of a command on the image of its track, in room that was made. Takes no memory.
pub fn edit_within(image: &mut TrackImage, edit: &Edit, room: &mut RecordRoom)
    requires suits { Suits image.old.geometry image.old.track.records edit.now }
    requires room { HasRoomFor edit.now (length image.old.track.records) room.old }
    ensures { image.new ≡ edited_image edit.now image.old }
{
    match edit {
        Edit::Update { index, key, body } => {
            image.update(*index, key.as_slice(), body.as_slice());
        }
        Edit::Format { after, added } => image.cut_and_add_within(*after, added, room),
        Edit::Zero { added } => image.set_zero(added),
    }
}
