ghost use Rattle.std.specs.Prelude.{◌≡◌, ◌++◌, ◌∷◌, [], OnOk, List, ℕ, decimal};
ghost use Rattle.std.specs.List.{flat_map};
ghost use Rattle.hex.specs.Hex.{encode_upper};
ghost use Rattle.page_text.specs.Pieces.{char_text, piece_text, track_text};

use ckd_types::{DeviceNo, NoMemory, PathNo, TrackNo};
use itoa::Buffer;
use std::alloc::Global;
use std::marker::Model;

/// A piece of a page.
#[derive(Clone, Copy)]
pub enum Piece<'a> {
    /// Markup, or words that need no escape.
    Text(&'a [u8]),
    /// Any bytes, escaped.
    Shown(&'a [u8]),
    Number(u64),
    Byte(u8),
    Hex(&'a [u8]),
    Small(u8),
    Short(u16),
    Count(u32),
    Path(PathNo),
    Device(DeviceNo),
    /// A track by its number, with its cylinder and head.
    Track(TrackNo),
}

/// The text of a page as far as it is made. It is seen as its bytes.
#[derive(Drop)]
pub struct Page {
    alloc: Global,
    bytes: Vec<u8>,
}

impl Model for Page {
    ghost use Rattle.std.specs.Prelude.{ℕ, List};

    ghost Value = { List ℕ };

    ghost view = { λ p. p.bytes.items };
}

impl Page {
    /// Nothing yet.
    pub fn new(alloc: Global) -> Page
        ensures { result ≡ [] }
    {
        Page {
            alloc,
            bytes: Vec::new(alloc),
        }
    }

    /// What it has so far.
    pub fn bytes(&self) -> &[u8]
        ensures { result.now ≡ self.now }
    {
        &self.bytes
    }

    fn put_text(&mut self, text: &[u8]) -> Result<(), NoMemory>
        ensures { OnOk result (self.new ≡ self.old ++ text.now) }
    {
        self.bytes.extend_from_slice(text)?;
        Ok(())
    }

    fn put_number(&mut self, n: u64) -> Result<(), NoMemory>
        ensures { OnOk result (self.new ≡ self.old ++ decimal n) }
    {
        let mut digits = Buffer::new();
        self.put_text(digits.format(n).as_bytes())
    }

    fn put_hex(&mut self, bytes: &[u8]) -> Result<(), NoMemory>
        ensures { OnOk result (self.new ≡ self.old ++ encode_upper bytes.now) }
    {
        let digits = hex::encode_upper(self.alloc, bytes)?;
        self.put_text(digits.as_bytes())
    }

    fn put_one(&mut self, b: u8) -> Result<(), NoMemory>
        ensures { OnOk result (self.new ≡ self.old ++ b ∷ []) }
    {
        self.bytes.push(b)?;
        Ok(())
    }

    /// One byte, escaped; what is no printed character of ASCII is shown as a dot.
    fn put_char(&mut self, b: u8) -> Result<(), NoMemory>
        ensures { OnOk result (self.new ≡ self.old ++ char_text b) }
    {
        if b == b'<' {
            self.put_text(b"&lt;")
        } else if b == b'>' {
            self.put_text(b"&gt;")
        } else if b == b'&' {
            self.put_text(b"&amp;")
        } else if b == b'"' {
            self.put_text(b"&quot;")
        } else if b < 0x20 || b > 0x7e {
            self.put_text(b".")
        } else {
            self.put_one(b)
        }
    }

    fn put_shown(&mut self, text: &[u8]) -> Result<(), NoMemory>
        ensures { OnOk result (self.new ≡ self.old ++ flat_map char_text text.now) }
    {
        for b in text {
            self.put_char(*b)?;
        }
        Ok(())
    }

    #[tactic(auto, unfolding(crate::specs::Pieces::track_text))]
    fn put_track(&mut self, track: u16) -> Result<(), NoMemory>
        ensures { OnOk result (self.new ≡ self.old ++ track_text track) }
    {
        self.put_text(b"track ")?;
        self.put_number(u64::from(track))?;
        self.put_text(b" (cylinder ")?;
        self.put_number(u64::from(track / 15))?;
        self.put_text(b" head ")?;
        self.put_number(u64::from(track % 15))?;
        self.put_text(b")")?;
        Ok(())
    }

    fn put_piece(&mut self, piece: &Piece) -> Result<(), NoMemory>
        ensures { OnOk result (self.new ≡ self.old ++ piece_text piece.now) }
    {
        match piece {
            Piece::Text(text) => self.put_text(text),
            Piece::Shown(text) => self.put_shown(text),
            Piece::Number(n) => self.put_number(*n),
            Piece::Byte(b) => self.put_hex(&[*b]),
            Piece::Hex(bytes) => self.put_hex(bytes),
            Piece::Small(n) => self.put_number(u64::from(*n)),
            Piece::Short(n) => self.put_number(u64::from(*n)),
            Piece::Count(n) => self.put_number(u64::from(*n)),
            Piece::Path(path) => self.put_number(u64::from(path.get())),
            Piece::Device(device) => self.put_number(u64::from(device.get())),
            Piece::Track(track) => self.put_track(track.get()),
        }
    }

    /// Puts pieces one after another. Where memory is wanting it has a front of them, or other bytes.
    pub fn put(&mut self, pieces: &[Piece]) -> Result<(), NoMemory>
        ensures { OnOk result (self.new ≡ self.old ++ flat_map piece_text pieces.now) }
    {
        for piece in pieces {
            self.put_piece(piece)?;
        }
        Ok(())
    }
}
