//! What a job finds as it starts.
use jcl_meaning::places::Places;
use jcl_meaning::store::SoloStore;
use jcl_plan::day::Day;

/// What a job finds as it starts, and how far its analysis goes.
#[derive(Drop)]
pub struct StartView {
    /// The sets and the entries under the job's names, and the volumes as configured.
    pub store: SoloStore,
    /// Where the sets are placed that the job is to make.
    pub places: Places,
    pub date: Day,
    /// The most views behind a step.
    pub most_views: usize,
}
