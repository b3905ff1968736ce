/// A column of a log.
#[derive(Clone, Copy, Debug, PartialEq, Eq)]
pub enum LogColumn {
    /// The word of the record.
    Kind,
    /// The name of the node.
    Node,
    /// What the clock read.
    Reading,
    /// `l` of the stamp, if a stamp is two fields.
    L,
    /// `c` of the stamp, if a stamp is two fields.
    C,
    /// The stamp, if it is one field.
    Stamp,
    /// The name of the message.
    Message,
    /// The name of the node that sent a received message.
    From,
    /// The stamp that a received message carried, if a stamp is one field.
    Carried,
    /// `l` of the stamp that a received message carried, if a stamp is two fields.
    CarriedL,
    /// `c` of the stamp that a received message carried, if a stamp is two fields.
    CarriedC,
    /// By what the event stands among those of its node.
    Seq,
    /// The label.
    Label,
}

impl LogColumn {
    ghost use Rattle.std.specs.Prelude.{◌≡◌};
    ghost use Rattle.hlc_log_text.specs.LogColumn.{column_name, column_named};

    /// The name by which a header has the column.
    pub fn name(self) -> &'static str
        ensures { result.now ≡ column_name self }
    {
        match self {
            LogColumn::Kind => "kind",
            LogColumn::Node => "node",
            LogColumn::Reading => "reading",
            LogColumn::L => "l",
            LogColumn::C => "c",
            LogColumn::Stamp => "stamp",
            LogColumn::Message => "message",
            LogColumn::From => "from",
            LogColumn::Carried => "carried",
            LogColumn::CarriedL => "carried_l",
            LogColumn::CarriedC => "carried_c",
            LogColumn::Seq => "seq",
            LogColumn::Label => "label",
        }
    }

    /// The column of a name.
    pub fn named(name: &str) -> Option<LogColumn>
        ensures { result ≡ column_named name.now }
    {
        match name {
            "kind" => Some(LogColumn::Kind),
            "node" => Some(LogColumn::Node),
            "reading" => Some(LogColumn::Reading),
            "l" => Some(LogColumn::L),
            "c" => Some(LogColumn::C),
            "stamp" => Some(LogColumn::Stamp),
            "message" => Some(LogColumn::Message),
            "from" => Some(LogColumn::From),
            "carried" => Some(LogColumn::Carried),
            "carried_l" => Some(LogColumn::CarriedL),
            "carried_c" => Some(LogColumn::CarriedC),
            "seq" => Some(LogColumn::Seq),
            "label" => Some(LogColumn::Label),
            _ => None,
        }
    }
}
