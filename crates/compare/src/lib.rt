// The data set comparison of IEEE 1588-2019, 9.3.4 (figures 34 and 35), after bmc/dataset_comparison.rs and datasets/default.rs.
#![tactic(auto)]

ghost use Rattle.std.specs.Prelude.{◌≡◌};
ghost use Rattle.order.specs.Order.{cmp, lex};
ghost use Rattle.compare.specs.Dataset.{of_announce, of_own, by_topology, nearer_by, farther_by, topology_row, quality_row, figure34, figure35, compare_of};

use announce::{AnnounceMessage, ClockQuality};
use header::PortIdentity;
use std::cmp::Ordering;
pub use verdict::DatasetOrdering;

// Our own data (D0), as far as the decision reads it.
#[derive(Clone, Copy)]
pub struct InternalDefaultDS {
    pub clock_identity: u64,
    pub clock_quality: ClockQuality,
    pub priority_1: u8,
    pub priority_2: u8,
}

// What the comparison reads of an announce message or of our own data.
#[derive(Clone, Copy)]
pub struct ComparisonDataset {
    pub gm_priority_1: u8,
    pub gm_identity: u64,
    pub gm_clock_quality: ClockQuality,
    pub gm_priority_2: u8,
    pub steps_removed: u16,
    pub identity_of_senders: u64,
    pub identity_of_receiver: PortIdentity,
}

impl ComparisonDataset {
    // Our own data is no steps away, and no port received it.
    pub const OWN_STEPS_REMOVED: u16 = 0;

    pub const OWN_PORT_NUMBER: u16 = 0;

    // The most steps apart at which the receiver of the farther one is asked.
    pub const NEAR: u32 = 1;

    pub fn from_announce_message(message: AnnounceMessage, receiver: PortIdentity) -> Self
        ensures { result ≡ of_announce message receiver }
    {
        let quality = message.grandmaster_clock_quality;
        let sender = message.header.source_port_identity.clock_identity;
        ComparisonDataset {
            gm_priority_1: message.grandmaster_priority_1,
            gm_identity: message.grandmaster_identity,
            gm_clock_quality: quality,
            gm_priority_2: message.grandmaster_priority_2,
            steps_removed: message.steps_removed,
            identity_of_senders: sender,
            identity_of_receiver: receiver,
        }
    }

    pub fn from_own_data(own: InternalDefaultDS) -> Self
        ensures { result ≡ of_own own }
    {
        let quality = own.clock_quality;
        ComparisonDataset {
            gm_priority_1: own.priority_1,
            gm_identity: own.clock_identity,
            gm_clock_quality: quality,
            gm_priority_2: own.priority_2,
            steps_removed: Self::OWN_STEPS_REMOVED,
            identity_of_senders: own.clock_identity,
            identity_of_receiver: PortIdentity {
                clock_identity: own.clock_identity,
                port_number: Self::OWN_PORT_NUMBER,
            },
        }
    }

    // The verdict on self.
    pub fn compare(self, other: ComparisonDataset) -> DatasetOrdering
        ensures { result ≡ compare_of self other }
    {
        if self.gm_identity == other.gm_identity {
            self.compare_same_identity(other)
        } else {
            self.compare_different_identity(other)
        }
    }

    // Figure 34: the grandmasters differ. Lower is better.
    #[tactic(auto, unfolding(crate::specs::Dataset::figure34))]
    fn compare_different_identity(self, other: ComparisonDataset) -> DatasetOrdering
        ensures { result ≡ figure34 self other }
    {
        match self.quality_standing(other) {
            Ordering::Less => DatasetOrdering::Better,
            Ordering::Equal => DatasetOrdering::Error2,
            Ordering::Greater => DatasetOrdering::Worse,
        }
    }

    // How the numbers stand that decide between different grandmasters: the first that differs decides.
    fn quality_standing(self, other: ComparisonDataset) -> Ordering
        ensures { result ≡ lex (quality_row self) (quality_row other) }
    {
        let a = self.gm_clock_quality;
        let b = other.gm_clock_quality;
        let ours = (
            self.gm_priority_1,
            a.clock_class,
            a.clock_accuracy,
            a.offset_scaled_log_variance,
            self.gm_priority_2,
            self.gm_identity,
        );
        let theirs = (
            other.gm_priority_1,
            b.clock_class,
            b.clock_accuracy,
            b.offset_scaled_log_variance,
            other.gm_priority_2,
            other.gm_identity,
        );
        ours.cmp(&theirs)
    }

    // Figure 35: one grandmaster. Fewer steps are better; one step apart, the receiver of the farther one decides.
    fn compare_same_identity(self, other: ComparisonDataset) -> DatasetOrdering
        ensures { result ≡ figure35 self other }
    {
        let a = self.steps_removed as u32;
        let b = other.steps_removed as u32;
        if b + Self::NEAR < a {
            return DatasetOrdering::Worse;
        }
        if a + Self::NEAR < b {
            return DatasetOrdering::Better;
        }
        if b < a {
            return farther(
                self.identity_of_receiver.clock_identity,
                self.identity_of_senders,
            );
        }
        if a < b {
            return nearer(
                other.identity_of_receiver.clock_identity,
                other.identity_of_senders,
            );
        }
        self.compare_topology(other)
    }

    // As many steps: the lower sender, then the lower receiving port.
    fn compare_topology(self, other: ComparisonDataset) -> DatasetOrdering
        ensures { result ≡ by_topology (lex (topology_row self) (topology_row other)) }
    {
        let here = self.identity_of_receiver;
        let there = other.identity_of_receiver;
        let senders = self.identity_of_senders.cmp(&other.identity_of_senders);
        match senders.then(here.port_number.cmp(&there.port_number)) {
            Ordering::Less => DatasetOrdering::BetterByTopology,
            Ordering::Equal => DatasetOrdering::Error2,
            Ordering::Greater => DatasetOrdering::WorseByTopology,
        }
    }
}

// This one is one step farther: how its receiver stands to its sender.
fn farther(receiver: u64, sender: u64) -> DatasetOrdering
    ensures { result ≡ farther_by (cmp receiver sender) }
{
    match receiver.cmp(&sender) {
        Ordering::Less => DatasetOrdering::Worse,
        Ordering::Equal => DatasetOrdering::Error1,
        Ordering::Greater => DatasetOrdering::WorseByTopology,
    }
}

// The other is one step farther: how its receiver stands to its sender.
fn nearer(receiver: u64, sender: u64) -> DatasetOrdering
    ensures { result ≡ nearer_by (cmp receiver sender) }
{
    match receiver.cmp(&sender) {
        Ordering::Less => DatasetOrdering::Better,
        Ordering::Equal => DatasetOrdering::Error1,
        Ordering::Greater => DatasetOrdering::BetterByTopology,
    }
}
