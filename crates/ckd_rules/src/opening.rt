ghost use Rattle.std.specs.Prelude.{◌≡◌, ◌<◌, ◌≤◌, ◌*◌, ◌^◌, []};
ghost use Rattle.ckd_rules.specs.Finding.{track_after};
ghost use Rattle.ckd_rules.specs.Opening.{over_at_once, moved, read_from, look_from, locating, begun, opening_with, opening_of};
ghost use Rattle.ckd_rules.specs.Facts.{HasRoom, Stands, Opens};
ghost use Rattle.ckd_rules.specs.Ending.{normal, outcome_with};
ghost use Rattle.ckd_rules.specs.declared.order.CommandOrder.TheVariants.{Locates};

use crate::checks::order_of;
use crate::control::{control, extend, go_to, set_mask, stand, unseen_place};
use crate::ending::{end, pass, refuse};
use crate::finding::track_after;
use crate::{CommandOrder, Ending, LocalAct, Look, Place, Stance};
use ckd_types::{Bytes, Ccw, Domain, FixedData, Read, ReadArea, TrackNo, UnitStatus, Write};

/// How a command begins: it is over without a look at a track; it looks at the track of the stance,
/// and perhaps at those behind it; or it asks the device.
#[derive(Debug, Drop)]
pub enum Opening {
    Over(Ending),
    Looks(Look),
    Asks(LocalAct),
}

/// The command goes to the track behind the one at hand, before its index.
fn move_on(stance: &mut Stance, ccw: &Ccw, look: Look) -> Opening
    requires commands { stance.old.commands < 4096 }
    requires moved { stance.old.moved < 2 ^ 21 }
    ensures stance { stance.new ≡ (moved stance.old ccw.now look (track_after stance.old.extent stance.old.track)).stance }
    ensures opening { result ≡ (moved stance.old ccw.now look (track_after stance.old.extent stance.old.track)).opening }
{
    let track = stance.track;
    match track_after(stance.extent, track) {
        Ok(next) => {
            stance.track = next;
            stance.place = Place::Index;
            Opening::Looks(look)
        }
        Err(sense) => Opening::Over(refuse(stance, ccw, sense)),
    }
}

/// A read track begins at an index: elsewhere it goes to the next track.
fn begin_read(stance: &mut Stance, ccw: &Ccw, read: Read) -> Opening
    requires commands { stance.old.commands < 4096 }
    requires moved { stance.old.moved < 2 ^ 21 }
    ensures stance { stance.new ≡ (read_from stance.old ccw.now read read.area stance.old.place).stance }
    ensures opening { result ≡ (read_from stance.old ccw.now read read.area stance.old.place).opening }
{
    match (read.area, stance.place) {
        (ReadArea::Track, Place::Index) => Opening::Looks(Look::Reads(read)),
        (ReadArea::Track, _) => move_on(stance, ccw, Look::Reads(read)),
        _ => Opening::Looks(Look::Reads(read)),
    }
}

fn begin_look(stance: &mut Stance, ccw: &Ccw, look: Look) -> Opening
    requires commands { stance.old.commands < 4096 }
    requires moved { stance.old.moved < 2 ^ 21 }
    ensures stance { stance.new ≡ (look_from stance.old ccw.now look).stance }
    ensures opening { result ≡ (look_from stance.old ccw.now look).opening }
{
    match look {
        Look::Writes(Write::NextTrack) => move_on(stance, ccw, look),
        Look::Reads(read) => begin_read(stance, ccw, read),
        _ => Opening::Looks(look),
    }
}

/// A locate record looks at the track that it seeks, unless it needs no record there.
fn begin_locate(stance: &mut Stance, ccw: &Ccw, domain: Domain) -> Opening
    requires commands { stance.old.commands < 4096 }
    requires moved { stance.old.moved < 2 ^ 21 }
    ensures stance { stance.new ≡ (begun stance.old ccw.now (Locates domain)).stance }
    ensures opening { result ≡ (begun stance.old ccw.now (Locates domain)).opening }
{
    match unseen_place(domain.orientation) {
        Some(place) => Opening::Over(stand(stance, ccw, &domain, place)),
        None => {
            stance.track = domain.seek;
            Opening::Looks(Look::Finds(domain))
        }
    }
}

/// The end of a control command that took so many bytes.
fn done(stance: &mut Stance, ccw: &Ccw, taken: usize) -> Opening
    requires commands { stance.old.commands < 4096 }
    requires moved { stance.old.moved < 2 ^ 21 }
    ensures stance { stance.new ≡ (over_at_once (outcome_with stance.old ccw.now taken normal [])).stance }
    ensures opening { result ≡ (over_at_once (outcome_with stance.old ccw.now taken normal [])).opening }
{
    Opening::Over(end(stance, ccw, taken, UnitStatus::normal(), Bytes::new()))
}

fn begin(stance: &mut Stance, ccw: &Ccw, order: CommandOrder) -> Opening
    requires commands { stance.old.commands < 4096 }
    requires moved { stance.old.moved < 2 ^ 21 }
    ensures stance { stance.new ≡ (begun stance.old ccw.now order).stance }
    ensures opening { result ≡ (begun stance.old ccw.now order).opening }
{
    match order {
        CommandOrder::Nothing => {
            control(stance);
            Opening::Over(pass(stance, ccw))
        }
        CommandOrder::Seeks(track) => {
            go_to(stance, track);
            done(stance, ccw, 6)
        }
        CommandOrder::Recalibrates => {
            go_to(stance, TrackNo::new(0).unwrap());
            Opening::Over(pass(stance, ccw))
        }
        CommandOrder::SetsSector => {
            control(stance);
            done(stance, ccw, 1)
        }
        CommandOrder::SetsMask(mask) => {
            set_mask(stance, mask);
            done(stance, ccw, 1)
        }
        CommandOrder::Defines(extent) => {
            extend(stance, extent);
            done(stance, ccw, 16)
        }
        CommandOrder::Locates(domain) => begin_locate(stance, ccw, domain),
        CommandOrder::Looks(look) => begin_look(stance, ccw, look),
        CommandOrder::Asks(act) => Opening::Asks(act),
    }
}

/// Begins the command of a word: what it does before it looks at a track. A command that a check
/// refuses is over with that.
#[tactic(auto, using(crate::proofs::Openings::opens))]
pub fn open(fixed: &FixedData, stance: &mut Stance, ccw: &Ccw) -> Opening
    requires room { HasRoom stance.old }
    requires stands { Stands (fixed.now.cylinders * 15) stance.old }
    ensures stance { stance.new ≡ (opening_of fixed.now stance.old ccw.now).stance }
    ensures opening { result ≡ (opening_of fixed.now stance.old ccw.now).opening }
    ensures opens { Opens (fixed.now.cylinders * 15) stance.old stance.new result }
{
    match order_of(fixed, stance, ccw) {
        Ok(order) => begin(stance, ccw, order),
        Err(sense) => Opening::Over(refuse(stance, ccw, sense)),
    }
}
