//! The laws of columns, and of logs whose messages have names. Each is the contract of a function that does nothing.

ghost use Rattle.hlc_log_text.specs.Laws.{AllStandInOrder, NamedLogsAreAsRead, NamesAreOfOneColumn};

/// A column is found again by its name. The columns of JSON lines are those of a header that names all, in their order.
pub fn columns_have_names()
    ensures names { NamesAreOfOneColumn }
    ensures order { AllStandInOrder }
{}

/// A log in which each message has a name, as in each log without a column `from`, is as it was read: no message is told apart.
pub fn named_logs_are_as_read()
    ensures { NamedLogsAreAsRead }
{}
