// How a value is written.
#[derive(Clone, Copy)]
pub(crate) enum ValueForm {
    // As a string; nothing is `null`.
    Text,
    // The same of where a line stands; `none` is `null`, too.
    Line,
    // As it is; what isn't a number is `null`.
    Number,
    // As `true`, unless it is nothing or `no`.
    Truth,
}
