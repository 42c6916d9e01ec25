// Reading a slip from the end of a file.
ghost use Rattle.std.specs.Prelude.{◌≡◌, ◌+◌, ◌<◌, ◌≤◌, true, length, is_some, Some, IfSome};
ghost use Rattle.ring.specs.Classes.{size_of};
ghost use Rattle.ring.specs.Faults.{Answers};
ghost use Rattle.slip.specs.Kinds.{sections_of, part_of, body_of};
ghost use Rattle.slip.specs.Refusals.{slip_fault};
ghost use Rattle.slip.specs.Slips.{slip_tests, class_named, body_place};

use crate::fault::SlipFault;
use crate::kind::Kind;
use ring::Class;

// The bytes of a trailer.
pub(crate) const TRAILER: usize = 8;

// Bytes of a file, and the place of the first.
#[derive(Clone, Copy)]
pub struct Part<'a> {
    pub bytes: &'a [u8],
    pub place: usize,
}

// A file that ends with a slip.
#[derive(Clone, Copy)]
pub struct Slip<'a> {
    file: &'a [u8],
    kind: Kind,
    class: Class,
    ghost named: { class_named file.now ≡ Some class },
    ghost room: { body_of kind class + 8 ≤ length file.now },
}

impl<'a> Slip<'a> {
    ghost use Rattle.slip.specs.Reads.{Read, IsReport, IsSection};

    // The slip of that kind at the file's end.
    #[tactic(auto, unfolding(crate::specs::Slips::at16, crate::specs::Slips::at32, crate::specs::Slips::slip_tests, crate::specs::Slips::back, crate::specs::Slips::class_named, crate::specs::Slips::size_named))]
    pub fn read(file: &'a [u8], kind: Kind) -> Result<Slip<'a>, SlipFault>
        ensures { Answers slip_fault (slip_tests kind file.now) (λ s. Read kind file.now s) result }
    {
        let end = file.len();
        let Some(&[byte, code, s0, s1, b0, b1, b2, b3]) = file.last_chunk::<TRAILER>() else {
            return Err(SlipFault::FileLength(end));
        };
        if byte != kind.byte() {
            return Err(SlipFault::KindField(end - 8));
        }
        let class = Class::with_code(code).ok_or(SlipFault::ClassField(end - 7))?;
        if usize::from(u16::from_be_bytes([s0, s1])) != kind.sections() {
            return Err(SlipFault::SectionsField(end - 6));
        }
        let back = u32::from_be_bytes([b0, b1, b2, b3]) as usize;
        if back != kind.body_length(class) + TRAILER {
            return Err(SlipFault::BackField(end - 4));
        }
        if end < back {
            return Err(SlipFault::FileLength(end));
        }
        if !kind.takes_report() && back < end {
            return Err(SlipFault::BackField(end - 4));
        }
        Ok(Slip { file, kind, class })
    }

    pub fn kind(&self) -> Kind
        ensures { result ≡ self.now.kind }
    {
        self.kind
    }

    pub fn class(&self) -> Class
        ensures { result ≡ self.now.class }
    {
        self.class
    }

    // The body's first byte.
    #[tactic(auto, unfolding(crate::specs::Slips::body_place))]
    fn start(&self) -> usize
        ensures { result ≡ body_place self.now.kind (size_of self.now.class) self.now.file.now }
    {
        let Slip { file, kind, class } = *self;
        file.len() - (kind.body_length(class) + TRAILER)
    }

    // What stands before the body.
    #[tactic(auto, unfolding(crate::specs::Slips::body_place, crate::specs::Slips::report_bytes))]
    pub fn report(&self) -> Part<'a>
        ensures { IsReport self.now result }
    {
        let file = self.file;
        Part {
            bytes: &file[..self.start()],
            place: 0,
        }
    }

    // Section i of the body, counted from 0. Every section of a slip that was read is there.
    #[tactic(auto, unfolding(crate::specs::Slips::body_place, crate::specs::Slips::section_there, crate::specs::Slips::section_place, crate::specs::Slips::section_bytes))]
    pub fn section(&self, i: usize) -> Option<Part<'a>>
        ensures part { IsSection self.now i result }
        ensures long { IfSome result (λ p. length p.bytes.now ≡ part_of self.now.kind (size_of self.now.class)) }
        ensures succeeds { i < sections_of self.now.kind → is_some result ≡ true }
    {
        let Slip { file, kind, class } = *self;
        if i >= kind.sections() {
            return None;
        }
        let length = kind.section_length(class);
        let place = self.start() + i * length;
        Some(Part {
            bytes: &file[place..place + length],
            place,
        })
    }
}
