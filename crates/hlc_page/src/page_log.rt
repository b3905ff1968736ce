/// A log as a page gives it, and how it is read: 88 bytes. Whatever the numbers are, they mean something.
#[repr(C)]
#[derive(Clone, Copy)]
pub struct PageLog<'a> {
    /// Its text.
    pub text: &'a [u8],
    /// Where the columns of lines of JSON stand: texts as `--field` takes them.
    pub fields: &'a [&'a [u8]],
    /// Which values mean which word there: texts as `--kind` takes them.
    pub kinds: &'a [&'a [u8]],
    /// Within how much of its clock a reading is known.
    pub tolerance: u64,
    /// How stamps are written: 0 in two fields, 1 to 32 packed with so many bits for `c`, and any other number dotted.
    pub stamp_form: u32,
    /// What clocks do at a receive: 0 they tick, 1 they merge, and any other number they merge with what they read.
    pub receives: u32,
    /// Whether a receive of a message that nobody sends is a local event: 0 it isn't.
    pub unsent_local: u32,
    /// Which send of a message that is sent again a receive is of: 0 it isn't said, 1 the first, and any other number the last.
    pub resent: u32,
    /// What becomes of bad records: 0 the first one ends the reading, 1 they are left out, and any other number each is told.
    pub faults: u32,
    /// The unit of readings: 1 seconds, 2 milliseconds, 3 microseconds, and any other number nanoseconds. 0, here or in `l_unit`, is no unit.
    pub reading_unit: u32,
    /// The unit of `l`: 1 to 4 as those of readings, and any other number that of NTP's format of 64 bits.
    pub l_unit: u32,
    /// Whether the text is lines of JSON: 0 it is records of CSV.
    pub jsonl: u32,
}
