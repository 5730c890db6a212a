// The header of a walk: its values, and the constant table of the marks that it can begin with.
ghost use Rattle.std.specs.Prelude.{◌≡◌};
ghost use Rattle.exchange.specs.Formats.{format_of};

// The values, as the file has them.
#[repr(C)]
#[derive(Clone, Copy)]
pub struct Header {
    // two letters, the first in the high byte
    pub mark: u16,
    pub n: u8,
    pub flags: u32,
    // ticket life
    pub ls: u32,
    // authenticator life
    pub la: u32,
}

// How many bits the flags have in the file.
#[derive(Clone, Copy)]
pub enum Flags {
    Bits16,
    Bits32,
}

// What a mark says of its header.
#[derive(Clone, Copy)]
pub struct Format {
    pub mark: u16,
    pub flags: Flags,
    // principals at most, the server among them
    pub most: u8,
    // the rule set that it names
    pub rules: u8,
}

const HD: Format = Format {
    mark: 0x4844,
    flags: Flags::Bits16,
    most: 16,
    rules: 0,
};

const HW: Format = Format {
    mark: 0x4857,
    flags: Flags::Bits32,
    most: 32,
    rules: 0,
};

const H5: Format = Format {
    mark: 0x4835,
    flags: Flags::Bits32,
    most: 32,
    rules: 1,
};

const H4: Format = Format {
    mark: 0x4834,
    flags: Flags::Bits32,
    most: 32,
    rules: 2,
};

// A row for each mark.
const FORMATS: [Format; 4] = [HD, HW, H5, H4];

// The row of a mark.
#[tactic(auto, unfolding(crate::specs::Formats::formats))]
pub fn format_of(mark: u16) -> Option<Format>
    ensures { result ≡ format_of mark }
{
    FORMATS.iter().copied().find(|format| format.mark == mark)
}
