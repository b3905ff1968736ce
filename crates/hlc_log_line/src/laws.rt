//! The law of stamps as text: the contract of a function that does nothing.

ghost use Rattle.hlc_log_line.specs.Laws.{NumbersAreReadBack, StampsAreReadBack};

/// What `write_dotted` and `write_number` write is read back as it was, by `read_dotted` and by `number` of `hlc_csv`.
pub fn stamps_are_read_back()
    ensures stamps { StampsAreReadBack }
    ensures numbers { NumbersAreReadBack }
{}
