// The calls of `stemhook`, exported for a layout program in Rust or C.
#![tactic(auto)]

ghost use Rattle.std.specs.Prelude.{◌≡◌, ◌+◌, ◌*◌};
ghost use Rattle.query.specs.Job.{check_job};
ghost use Rattle.query.specs.Call.{offer_call, Calls};
ghost use Rattle.query.specs.Demands.{Demands};

// The check call in one number: the position times 256, plus the refusal; 0 for an accepted job.
// In C: uint64_t stemhook_check(const uint8_t *job, size_t length).
#[unsafe(no_mangle)]
pub extern "C" fn stemhook_check(job: &[u8]) -> u64
    ensures value { result ≡ (check_job job.now).position * 256 + (check_job job.now).refusal }
    ensures demands { Demands job.now }
{
    stemhook::stemhook_check(job)
}

// The offer call under a reading, 0 or 1: 0 and the 40 bytes, 1 past the list, or a refusal.
// In C: uint32_t stemhook_offer(const uint8_t *job, size_t length, uint32_t reading, uint32_t request, uint32_t offer, uint8_t *out, size_t out_length).
#[unsafe(no_mangle)]
pub extern "C" fn stemhook_offer(
    job: &[u8],
    reading: u32,
    request: u32,
    offer: u32,
    out: &mut [u8],
) -> u32
    ensures calls { Calls (offer_call job.now reading request offer out.old) result out.new }
    ensures demands { Demands job.now }
{
    stemhook::stemhook_offer(job, reading, request, offer, out)
}
