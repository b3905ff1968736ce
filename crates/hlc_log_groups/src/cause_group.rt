use crate::cause_place::CausePlace;

/// The causes of a group: how many they are, and where the first three of them stand.
#[derive(Clone, Copy)]
pub struct CauseGroup {
    /// How many they are. There is at least one.
    pub causes: u32,
    /// The first of them.
    pub first: CausePlace,
    /// The second, if there are two.
    pub second: Option<CausePlace>,
    /// The third, if there are three.
    pub third: Option<CausePlace>,
}
