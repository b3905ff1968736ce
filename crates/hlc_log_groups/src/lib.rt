//! The causes of a log in groups: by the node at which a rule was broken, by the rule, and by the node whose stamps the rule compares with.
//!
//! - `GroupKey` is what the causes of a group have in common, and `CauseGroup` how many they are, and where the first three of them stand, each a
//!   `CausePlace`. A `BrokenRule` is what the rows of causes tell by their words.
//! - `groups_of` makes the groups of a log (`hlc_ordered_log`), in one pass over its events, and `push_groups` adds their rows,
//!   `write_groups` writes them. `GroupDetail` says how much is told of them.
//! - `followed` says after which event the stamp of the clock rule comes, for causes that are `ahead`: it is what such a cause compares with.
//! - `laws` says that none is empty.
//!
//! The rows, in the order of the first cause of each group, as `cause` rows stand:
//!
//! - `group,NODE,RULE,OF,N,LINE`: how many causes at events of a node break a rule against the stamps of another node or its own, and the line of
//!   the first of them. RULE is the word of the `cause` rows. OF is the node of the event whose stamp the rule compares with: NODE itself for its own
//!   event before, or the sender for a message; it is empty where the rule compares with the reading, or with what else is the floor.
//!
//! - `place,RULE,LINE,L,C,OTHER,OTHER_L,OTHER_C`, below the row of a group, if first causes are to be told: the rule and the line of one of its first
//!   three, the stamp that it claims, and the line and the stamp, as it saw that, of the event with which the rule compares; or nothing and the floor,
//!   if the rule compares with none. Of a message that carried another stamp than its send logs, it is the carried stamp, and then the logged one.
//!
//! It finds no cause itself: `hlc_ordered_log` does.
#![tactic(auto)]

mod broken_rule;
mod cause_group;
mod cause_place;
mod compared_stamps;
mod following;
mod group_detail;
mod group_key;
mod group_rows;
mod groups;
pub mod laws;

pub use broken_rule::BrokenRule;
pub use cause_group::CauseGroup;
pub use cause_place::CausePlace;
pub use following::followed;
pub use group_detail::GroupDetail;
pub use group_key::GroupKey;
pub use group_rows::{push_groups, write_groups};
pub use groups::groups_of;
