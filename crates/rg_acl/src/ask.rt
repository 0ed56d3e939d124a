// What a report is asked about.
use rg_base::{Moment, Seq, Text};
use rg_policy::Resource;

/// A resource, and the accesses to it that are asked for, at a moment.
#[derive(Drop)]
pub struct ReportAsk {
    pub resource: Resource,
    /// The names of access types; none stands for all of the definition's.
    pub accesses: Seq<Text>,
    pub moment: Moment,
}
