// The calls for a layout program in Rattle. `stemhook_c` exports them for one in Rust or C.
#![tactic(auto)]

ghost use Rattle.std.specs.Prelude.{◌≡◌, ◌+◌, ◌*◌};
ghost use Rattle.query.specs.Job.{check_job};
ghost use Rattle.query.specs.Call.{offer_call, Calls};
ghost use Rattle.query.specs.Demands.{Demands};

use query::{call, job};

// The check call in one number: the position times 256, plus the refusal; 0 for an accepted job.
pub fn stemhook_check(job: &[u8]) -> u64
    ensures value { result ≡ (check_job job.now).position * 256 + (check_job job.now).refusal }
    ensures demands { Demands job.now }
{
    match job::check(job) {
        Ok(()) => 0,
        Err(refused) => (refused.position as u64) * 256 + u64::from(refused.refusal.number()),
    }
}

// The offer call under a reading, 0 or 1: 0 and the 40 bytes, 1 past the list, or a refusal.
pub fn stemhook_offer(job: &[u8], reading: u32, request: u32, offer: u32, out: &mut [u8]) -> u32
    ensures calls { Calls (offer_call job.now reading request offer out.old) result out.new }
    ensures demands { Demands job.now }
{
    match call::offer(job, reading, request, offer, out) {
        Ok(true) => 0,
        Ok(false) => 1,
        Err(refusal) => u32::from(refusal.number()),
    }
}
