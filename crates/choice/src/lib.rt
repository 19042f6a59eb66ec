// The choice among offered messages, after bmc/bmca.rs (BestAnnounceMessage): which of two stays.
#![tactic(auto)]

ghost use Rattle.std.specs.Prelude.{◌≡◌};
ghost use Rattle.compare.specs.Dataset.{compare_of};
ghost use Rattle.choice.specs.Candidate.{candidate_of, dataset_of, ranking, stays, keep_best};

use announce::{AnnounceMessage, ClockQuality};
use compare::{ComparisonDataset, DatasetOrdering};
use header::PortIdentity;
use std::cmp::Ordering;

// An offered message, with its age and the port that received it. The message holds its header.
#[derive(Clone, Copy)]
pub struct BestAnnounceMessage {
    pub message: AnnounceMessage,
    pub age: u64,
    pub identity: PortIdentity,
}

// What the choice reads of an offered message, and the place it came from, which the choice does not read. Laid out as in C, so
// that a list can be lent from outside.
#[repr(C)]
#[derive(Clone, Copy)]
pub struct Candidate {
    pub gm_priority_1: u8,
    pub clock_class: u8,
    pub clock_accuracy: u8,
    pub gm_priority_2: u8,
    pub offset_scaled_log_variance: u16,
    pub steps_removed: u16,
    pub receiver_port: u16,
    pub gm_identity: u64,
    pub sender: u64,
    pub receiver_clock: u64,
    pub age: u64,
    pub place: u64,
}

impl BestAnnounceMessage {
    pub fn candidate(self, place: u64) -> Candidate
        ensures { result ≡ candidate_of self place }
    {
        let message = self.message;
        let quality = message.grandmaster_clock_quality;
        let sender = message.header.source_port_identity.clock_identity;
        let receiver = self.identity;
        Candidate {
            gm_priority_1: message.grandmaster_priority_1,
            clock_class: quality.clock_class,
            clock_accuracy: quality.clock_accuracy,
            gm_priority_2: message.grandmaster_priority_2,
            offset_scaled_log_variance: quality.offset_scaled_log_variance,
            steps_removed: message.steps_removed,
            receiver_port: receiver.port_number,
            gm_identity: message.grandmaster_identity,
            sender: sender,
            receiver_clock: receiver.clock_identity,
            age: self.age,
            place: place,
        }
    }
}

impl Candidate {
    pub fn dataset(self) -> ComparisonDataset
        ensures { result ≡ dataset_of self }
    {
        ComparisonDataset {
            gm_priority_1: self.gm_priority_1,
            gm_identity: self.gm_identity,
            gm_clock_quality: ClockQuality {
                clock_class: self.clock_class,
                clock_accuracy: self.clock_accuracy,
                offset_scaled_log_variance: self.offset_scaled_log_variance,
            },
            gm_priority_2: self.gm_priority_2,
            steps_removed: self.steps_removed,
            identity_of_senders: self.sender,
            identity_of_receiver: PortIdentity {
                clock_identity: self.receiver_clock,
                port_number: self.receiver_port,
            },
        }
    }

    pub fn compare_dataset(self, other: Candidate) -> DatasetOrdering
        ensures { result ≡ compare_of (dataset_of self) (dataset_of other) }
    {
        self.dataset().compare(other.dataset())
    }

    // The verdict; where it is a tie, the younger is the greater.
    pub fn compare(self, other: Candidate) -> Ordering
        ensures { result ≡ ranking self other }
    {
        let tie_break = other.age.cmp(&self.age);
        self.compare_dataset(other).as_ordering().then(tie_break)
    }

    // Whether the one held stays: only if it is the greater, so of equals the last is chosen.
    pub fn stays(self, next: Candidate) -> bool
        ensures { result ≡ stays self next }
    {
        self.compare(next).is_gt()
    }
}

// One step of the choice, from the one held, if there is one.
pub fn keep(held: Option<Candidate>, next: Candidate) -> Option<Candidate>
    ensures { result ≡ keep_best held next }
{
    match held {
        None => Some(next),
        Some(first) if first.stays(next) => held,
        Some(_) => Some(next),
    }
}
