// The three kinds of slip: byte, sections, bytes of a number, lengths.
ghost use Rattle.std.specs.Prelude.{◌≡◌};
ghost use Rattle.ring.specs.Classes.{size_of};
ghost use Rattle.slip.specs.Kinds.{byte_of, sections_of, width_of, takes_report, part_of, body_of};

use ring::Class;

#[derive(Clone, Copy, PartialEq, Eq, Debug)]
pub enum Kind {
    Key = 0x4B,
    Form = 0x46,
    Signature = 0x53,
}

impl Kind {
    // The byte in a trailer. Each of the three numbers has its name; `From` would not say which is meant.
    pub fn byte(self) -> u8
        ensures { result ≡ byte_of self }
    {
        self as u8
    }

    pub fn sections(self) -> usize
        ensures { result ≡ sections_of self }
    {
        match self {
            Kind::Key => 4,
            Kind::Form => 3,
            Kind::Signature => 2,
        }
    }

    // The bytes of a number.
    pub fn width(self) -> usize
        ensures { result ≡ width_of self }
    {
        match self {
            Kind::Key => 1,
            Kind::Form | Kind::Signature => 4,
        }
    }

    // Whether bytes may stand before the body.
    pub fn takes_report(self) -> bool
        ensures { result ≡ takes_report self }
    {
        matches!(self, Kind::Signature)
    }

    // The bytes of a section.
    pub fn section_length(self, class: Class) -> usize
        ensures { result ≡ part_of self (size_of class) }
    {
        self.width() * class.size()
    }

    // The bytes of a body.
    pub fn body_length(self, class: Class) -> usize
        ensures { result ≡ body_of self class }
    {
        self.sections() * self.section_length(class)
    }
}
