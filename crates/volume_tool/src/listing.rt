ghost use Rattle.std.specs.Prelude.{IfErr, IfOk};
ghost use Rattle.volume_file.specs.Answers.{IsCaused, TellsFault};
ghost use Rattle.volume_file.specs.Loading.{loading};
ghost use Rattle.volume_tool.specs.List.{Lists};

use ckd_outside::Source;
use ckd_types::Geometry;
use std::alloc::Global;
use volume_file::{FileReader, LoadFault};
use volume_texts::{Row, row_of};

/// What the list of a volume tells.
#[derive(Debug, Drop)]
pub struct Listing {
    pub geometry: Geometry,
    pub cylinders: u8,
    pub rows: Vec<Row>,
}

/// Reads a file to its end, and keeps a row of each track.
pub fn read_listing<S: Source>(alloc: Global, source: &mut S) -> Result<Listing, LoadFault>
    ensures list { IfOk result (λ l. Lists
        (S.left source.old) (S.left source.new) l.geometry l.cylinders l.rows.items) }
    ensures fault { IfErr result (λ fault. TellsFault loading (S.left source.old) fault) }
    ensures cause { IsCaused (S.faults source.old) (S.faults source.new) result }
{
    let mut file = FileReader::begin(alloc, source)?;
    let mut rows = Vec::with_capacity(alloc, usize::from(file.track_count()))?;
    'tracks: for track in 0..file.track_count() {
        let image = file.track(alloc, source)?;
        rows.push(row_of(track, &image))?;
    }
    file.finish(alloc, source)?;
    Ok(Listing {
        geometry: file.geometry(),
        cylinders: file.cylinders(),
        rows,
    })
}
