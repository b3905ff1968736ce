ghost use Rattle.std.specs.Prelude.{◌≡◌, ◌-◌, ◌^◌, ◌<◌, ◌≤◌};
ghost use Rattle.csv.specs.Records.{fields_of};

use csv::ByteRecord;
use hlc_csv::{field, number};
use hlc_log_line::{read_dotted, read_pair};
use hlc_packed::PackedBits;
use hlc_stamp::Stamp;

/// How stamps are written.
#[derive(Clone, Copy, Debug, PartialEq, Eq)]
pub enum StampForm {
    /// `l` and `c` in two fields.
    Pair,
    /// `l`, a dot and `c` in one field; `c` may begin with zeros.
    Dotted,
    /// One number, with `c` in so many of its low bits and `l` in the others.
    Packed(PackedBits),
}

impl StampForm {
    ghost use Rattle.hlc_log_text.specs.StampForms.{fields_stamp, form_stamp, greatest_c, is_empty_stamp, packed_bits, stamp_field_count};

    /// How many fields a stamp takes.
    pub fn field_count(self) -> usize
        ensures { result ≡ stamp_field_count self }
    {
        match self {
            StampForm::Pair => 2,
            StampForm::Dotted | StampForm::Packed(_) => 1,
        }
    }

    // The stamp that the fields at a place write, if they write one.
    pub(crate) fn parse(self, fields: &ByteRecord, place: usize) -> Option<Stamp>
        requires { place < 2 ^ 64 - 1 }
        ensures { result ≡ form_stamp self (fields_of fields.now) place }
    {
        let first = field(fields, place);
        match self {
            StampForm::Pair => read_pair(first, field(fields, place + 1)),
            StampForm::Dotted => read_dotted(first),
            StampForm::Packed(bits) => Some(bits.unpack(number(first)?)),
        }
    }

    // Whether the fields of a stamp at a place are empty.
    pub(crate) fn is_empty(self, fields: &ByteRecord, place: usize) -> bool
        requires { place < 2 ^ 64 - 1 }
        ensures { result ≡ is_empty_stamp self (fields_of fields.now) place }
    {
        let is_first_empty = field(fields, place).is_empty();
        match self {
            StampForm::Pair => is_first_empty && field(fields, place + 1).is_empty(),
            StampForm::Dotted | StampForm::Packed(_) => is_first_empty,
        }
    }

    // The stamp that two fields write, if they write one. The second isn't read if a stamp is one field.
    pub(crate) fn stamp_of(self, first: &[u8], second: &[u8]) -> Option<Stamp>
        ensures { result ≡ fields_stamp self first.now second.now }
    {
        match self {
            StampForm::Pair => read_pair(first, second),
            StampForm::Dotted => read_dotted(first),
            StampForm::Packed(bits) => Some(bits.unpack(number(first)?)),
        }
    }

    // How many low bits of a number `c` has: none if it isn't packed.
    #[inline]
    pub(crate) fn packed_bits(self) -> u32
        ensures bits { result ≡ packed_bits self }
        ensures few { result ≤ 32 }
    {
        match self {
            StampForm::Pair | StampForm::Dotted => 0,
            StampForm::Packed(packed) => packed.bits,
        }
    }

    /// The greatest `c` that can be written.
    pub fn full(self) -> u32
        ensures { result ≡ greatest_c self }
    {
        match self {
            StampForm::Pair | StampForm::Dotted => u32::MAX,
            StampForm::Packed(bits) => bits.full(),
        }
    }
}
