ghost use Rattle.std.specs.Prelude.{◌≡◌, ◌++◌, OnOk};
ghost use Rattle.page_text.specs.Timeline.{
  first_device,
  first_pair,
  first_part,
  lane_end,
  lane_head,
  lanes_end,
  lanes_text,
  more_for,
  note_text,
  pair_rows,
  part_rows,
  section_text,
  system_head,
  system_section,
  timeline_text,
  to_of,
};

use crate::drawing::draw_all;
use crate::lanes::{DeviceLane, Since};
use crate::lines::ShownLine;
use crate::marks::x_of;
use crate::parts::{Part, PartLane, PartState, SystemMarks, put_part_span};
use crate::sides::{PairLane, Sides, put_span};
use crate::{Page, Piece};
use ckd_types::{DeviceNo, NoMemory};
use deck_text::{Deck, DeviceLine};

/// How many lines a column has beside its first one, so that there are about 2,000 columns at most.
pub(crate) fn more_for(n: u64) -> u32
    ensures { result ≡ more_for n }
{
    let more = n / 2000;
    if more > 4_294_967_295 {
        4_294_967_295
    } else {
        more as u32
    }
}

/// What is said of the columns.
#[tactic(auto, unfolding(crate::specs::Timeline::note_text))]
fn put_note(page: &mut Page, n: u64, more: u32) -> Result<(), NoMemory>
    ensures { OnOk result (page.new ≡ page.old ++ note_text n more) }
{
    let pieces = [
        Piece::Text(b"<section id='timeline'><h2>Timeline</h2>\n<p>Lines of the report: "),
        Piece::Number(n),
        Piece::Text(b". Lines in each column: "),
        Piece::Number(u64::from(more) + 1),
        Piece::Text(b".</p>\n<div class='lanes'>\n"),
    ];
    page.put(&pieces)
}

fn first_device(device: DeviceNo, more: u32) -> DeviceLane
    ensures { result ≡ first_device device more }
{
    DeviceLane {
        device,
        more,
        since: Since {
            first: 10,
            second: 10,
            third: 10,
            fourth: 10,
        },
    }
}

fn first_pair(device: DeviceNo, more: u32) -> PairLane
    ensures { result ≡ first_pair device more }
{
    PairLane {
        device,
        more,
        sides: Sides {
            first_down: false,
            second: false,
            second_down: false,
            held: false,
            lent: None,
        },
        from: 0,
    }
}

fn first_part(part: Part, more: u32) -> PartLane
    ensures { result ≡ first_part part more }
{
    PartLane {
        part,
        more,
        state: PartState::Up,
        from: 0,
    }
}

#[tactic(auto, unfolding(crate::specs::Timeline::lane_head))]
fn put_lane_head(page: &mut Page, line: &DeviceLine, to: u64) -> Result<(), NoMemory>
    ensures { OnOk result (page.new ≡ page.old ++ lane_head line.now to) }
{
    let pieces = [
        Piece::Text(b"<h3>Device "),
        Piece::Device(line.number),
        Piece::Text(
            b"</h3>\n<div class='lane'><div class='rows'>orders<br/>own work<br/>sides<br/>volumes<br/>path 1<br/>path 2<br/>path 3<br/>path 4</div>",
        ),
        Piece::Text(b"<svg width='"),
        Piece::Number(to),
        Piece::Text(b"' height='176'>\n"),
    ];
    page.put(&pieces)
}

#[tactic(auto, unfolding(crate::specs::Timeline::system_head))]
fn put_system_head(page: &mut Page, to: u64) -> Result<(), NoMemory>
    ensures { OnOk result (page.new ≡ page.old ++ system_head to) }
{
    let pieces = [
        Piece::Text(
            b"<h3>Cache and store</h3>\n<div class='lane'><div class='rows'>orders<br/>cache<br/>store</div><svg width='",
        ),
        Piece::Number(to),
        Piece::Text(b"' height='66'>\n"),
    ];
    page.put(&pieces)
}

#[tactic(auto, unfolding(crate::specs::Timeline::lane_end))]
fn put_lane_end(page: &mut Page) -> Result<(), NoMemory>
    ensures { OnOk result (page.new ≡ page.old ++ lane_end) }
{
    page.put(&[Piece::Text(b"</svg></div>\n")])
}

/// The row of a device's sides, to its end.
fn put_pair_rows(
    page: &mut Page,
    first: PairLane,
    to: u64,
    shown: &[ShownLine],
) -> Result<(), NoMemory>
    ensures { OnOk result (page.new ≡ page.old ++ pair_rows first to shown.now) }
{
    let mut lane = first;
    draw_all::<PairLane, ShownLine>(page, &mut lane, shown)?;
    put_span(page, &lane, to)?;
    Ok(())
}

/// The row of the cache or the store, to its end.
fn put_part_rows(
    page: &mut Page,
    first: PartLane,
    to: u64,
    shown: &[ShownLine],
) -> Result<(), NoMemory>
    ensures { OnOk result (page.new ≡ page.old ++ part_rows first to shown.now) }
{
    let mut lane = first;
    draw_all::<PartLane, ShownLine>(page, &mut lane, shown)?;
    put_part_span(page, &lane, to)?;
    Ok(())
}

fn put_system(page: &mut Page, more: u32, to: u64, shown: &[ShownLine]) -> Result<(), NoMemory>
    ensures { OnOk result (page.new ≡ page.old ++ system_section more to shown.now) }
{
    put_system_head(page, to)?;
    put_part_rows(page, first_part(Part::Cache, more), to, shown)?;
    put_part_rows(page, first_part(Part::Store, more), to, shown)?;
    draw_all::<SystemMarks, ShownLine>(page, &mut SystemMarks { more }, shown)?;
    put_lane_end(page)?;
    Ok(())
}

/// The rows of a device.
fn put_section(
    page: &mut Page,
    line: &DeviceLine,
    more: u32,
    to: u64,
    shown: &[ShownLine],
) -> Result<(), NoMemory>
    ensures { OnOk result (page.new ≡ page.old ++ section_text more to shown.now line.now) }
{
    put_lane_head(page, line, to)?;
    put_pair_rows(page, first_pair(line.number, more), to, shown)?;
    draw_all::<DeviceLane, ShownLine>(page, &mut first_device(line.number, more), shown)?;
    put_lane_end(page)?;
    Ok(())
}

fn put_lanes(
    page: &mut Page,
    deck: &Deck,
    more: u32,
    to: u64,
    shown: &[ShownLine],
) -> Result<(), NoMemory>
    ensures { OnOk result (page.new ≡ page.old ++ lanes_text deck.now.devices more to shown.now) }
{
    for i in 0..deck.device_count() {
        put_section(page, &deck.device_at(i), more, to, shown)?;
    }
    Ok(())
}

#[tactic(auto, unfolding(crate::specs::Timeline::lanes_end))]
fn put_lanes_end(page: &mut Page) -> Result<(), NoMemory>
    ensures { OnOk result (page.new ≡ page.old ++ lanes_end) }
{
    page.put(&[Piece::Text(b"</div></section>\n")])
}

/// Where the rows end.
fn to_of(more: u32, n: u64) -> u64
    ensures { result ≡ to_of more n }
{
    x_of(more, n) + 20
}

/// The timeline: the rows of the subsystem, and of each device.
pub(crate) fn put_timeline(
    page: &mut Page,
    deck: &Deck,
    shown: &[ShownLine],
) -> Result<(), NoMemory>
    ensures { OnOk result (page.new ≡ page.old ++ timeline_text deck.now.devices shown.now) }
{
    let n = shown.len() as u64;
    let more = more_for(n);
    let to = to_of(more, n);
    put_note(page, n, more)?;
    put_system(page, more, to, shown)?;
    put_lanes(page, deck, more, to, shown)?;
    put_lanes_end(page)?;
    Ok(())
}
