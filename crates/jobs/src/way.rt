// The way into a call: thread, operation and arguments.
ghost use Rattle.std.specs.Prelude.{◌≡◌};
ghost use Rattle.transient.specs.Requires.{Notes};
ghost use Rattle.jobs.specs.Job.{job, bad_job};
ghost use Rattle.jobs.specs.Way.{way_in};
ghost use Rattle.jobs.specs.Requires.{Wide};

use reply::Refusal;
use transient::sizes::Sizes;

// Refusals 5 and 7, and 8 where the arguments are bad.
#[tactic(auto, using(crate::specs::Exits::laws))]
pub fn way_in(transient: &[u32], z: Sizes, thread: usize, bad: bool) -> Result<u32, Refusal>
    requires { Notes transient.now z }
    ensures { result ≡ way_in z transient.now thread bad }
{
    if z.t <= thread {
        return Err(Refusal::NoThread);
    }
    let e = transient::notes::open_epoch(transient, z, thread);
    if e == 0 {
        return Err(Refusal::NotOpen);
    }
    if bad {
        return Err(Refusal::BadArgument);
    }
    Ok(e)
}

// Is a key or a value's length wrong?
#[tactic(auto, using(crate::specs::Exits::laws))]
pub fn bad_job(z: Sizes, key: u32, value: &[u32]) -> bool
    requires { Wide z }
    ensures { result ≡ bad_job z (job key value.now) }
{
    if key == 0 {
        return true;
    }
    value.len() != z.w - 1
}
