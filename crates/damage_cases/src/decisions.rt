// The calls that decide, and what is looked at of their answers.
use announce::ClockQuality;
use refused::Refusal;

// A decision by data of ours that are worse than any message's: how many messages it consumes.
pub fn decide(store: &mut [u64]) -> Result<u64, Refusal> {
    let quality = ClockQuality {
        clock_class: 255,
        clock_accuracy: 255,
        offset_scaled_log_variance: 65535,
    };
    let decision = bmca::decide(store, 255, quality, 255, 0)?;
    Ok(decision.tallies.consumed)
}

// The question for the first candidate.
pub fn offered(store: &[u64]) -> Result<(), Refusal> {
    candidates::candidate(store, 0)?;
    Ok(())
}
